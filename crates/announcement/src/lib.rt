//! How a set of requests is announced as a TMMBN (RFC 5104, section 4.2.2), and that each feedback packet which is
//! written joins compound datagrams (RFC 3550, section 6.1).
#![tactic(auto)]

mod entries;
pub mod laws;

pub use entries::entries_of;
