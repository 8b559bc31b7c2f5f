//! The last packets that were sent on a leg, to be sent again when a receiver misses one (RFC 4585,
//! section 6.2.1). Making a ring takes memory, keeping and finding take none.
#![tactic(auto)]

mod chains;
pub mod laws;
mod packets;
mod ring;

pub use packets::MAX_CAPACITY;
pub use ring::Ring;
pub use std::alloc::AllocError as NoMemory;
