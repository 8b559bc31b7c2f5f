//! Synchronization sources.

/// The identifier of a source of RTP packets (RFC 3550, section 3); any 32 bits, 0 included.
#[derive(Clone, Copy, Debug, Default, PartialEq, Eq, PartialOrd, Ord)]
pub struct Ssrc(pub u32);
