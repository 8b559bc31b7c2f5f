//! RTCP datagrams: sender and receiver reports, source descriptions and goodbyes (RFC 3550, section 6),
//! and any other packet by its header.
//!
//! Read `packets` first, then `writer`. Reading is lenient (any packet may come first, unknown types are
//! passed on) and takes no memory; each packet is a header with the length of the body after it, and only
//! the last one may have padding. Writing appends a packet to a `Vec`, and asks for memory once.
#![tactic(auto)]

mod bye;
mod fault;
pub mod laws;
mod mux;
mod packet;
mod packets;
mod report;
mod sdes;
mod sizes;
mod unread;
mod view;
mod writer;

pub use bye::Sources;
pub use fault::RtcpFault;
pub use mux::is_rtcp;
pub use packet::{PSFB, RR, RTPFB};
pub use packets::split;
pub use report::{Block, Blocks};
pub use sizes::{BLOCK_BYTES, SOURCE_BYTES, WORD_BYTES};
pub use std::alloc::AllocError as NoMemory;
pub use unread::Packets;
pub use view::RtcpView;
pub use writer::{CNAME_LIMIT, ENTRY_LIMIT, write_bye, write_rr, write_sdes_cname, write_sr};
