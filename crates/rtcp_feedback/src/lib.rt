//! RTCP feedback: generic NACKs and picture loss indications (RFC 4585, sections 6.2.1 and 6.3.1),
//! requests for a greatest rate and the notifications of them (RFC 5104, sections 4.2.1 and 4.2.2).
//!
//! Read `feedback` first. `read_feedback` reads the body of a feedback packet in place and takes no
//! memory; `lost` lists the packets that an entry of a NACK names; the writers append whole packets.
#![tactic(auto)]

mod fault;
mod feedback;
pub mod laws;
mod nack;
mod packet;
mod pli;
mod tmmb;

pub use fault::FbFault;
pub use feedback::{Feedback, read_feedback};
pub use nack::{MAX_NACKS, NACK_BYTES, Nack, Nacks, lost, write_nack};
pub use packet::{
    FMT_NACK, FMT_PLI, FMT_TMMBN, FMT_TMMBR, FRONT_BYTES, PSFB, RTPFB, SOURCES_BYTES,
};
pub use pli::write_pli;
pub use std::alloc::AllocError as NoMemory;
pub use tmmb::{ENTRY_BYTES, MAX_ENTRIES, TmmbEntries, TmmbrEntry, write_tmmbn, write_tmmbr};
