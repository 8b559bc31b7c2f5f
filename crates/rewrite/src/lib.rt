//! Outgoing sequence numbers. Each subscriber of a publisher sees one stream that counts on without a gap or a repeat wherever its
//! packets come from anew (RFC 3550, section 5.1; RFC 7667, section 3.7).
//!
//! Read `leg` first. A leg keeps a few numbers and no list; what they say of every list of packets stands in `laws`. `sequence` has a
//! packet's extended number. No call allocates.
#![tactic(auto)]

pub mod laws;
mod leg;
mod segment;
mod sequence;
mod skip;

pub use leg::Leg;
pub use segment::NUMBER_LIMIT;
pub use sequence::{SEQ_CYCLE, SEQ_REACH, extended_number};
pub use skip::Skip;
