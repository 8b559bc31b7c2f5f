//! Packets that came, each kept once for all that hold it, and packets that go out: the same bytes under another source and sequence
//! number (RFC 7667, section 3.7).
//!
//! Read `readdressed` first. A packet that goes out shares the `bytes` of the one that came with all the legs that it goes out on, and
//! what they want to know of it is read once (`packet`).
#![tactic(auto)]

mod bytes;
pub mod laws;
mod packet;
mod readdressed;

pub use bytes::SharedBytes;
pub use packet::{PacketParts, SharedPacket};
pub use readdressed::Readdressed;
