//! What was counted of an endpoint.

use datagram::Kinds;

/// What went in from an endpoint and out to it so far. Each count goes round at 2^64.
#[derive(Clone, Copy, PartialEq, Eq)]
pub struct EndpointCount {
    /// RTP packets that came from it, RTCP datagrams, and the bytes of both.
    pub heard_rtp: u64,
    pub heard_rtcp: u64,
    pub heard_octets: u64,
    /// The moment at which the last came, in milliseconds; `None` before the first.
    pub heard_ms: Option<u64>,
    /// What it asked for.
    pub asked: Kinds,
    /// Datagrams that were sent to it, their bytes, and how many couldn't be sent.
    pub sent: u64,
    pub sent_octets: u64,
    pub failed: u64,
    /// What it was asked for, and told.
    pub told: Kinds,
    /// How often something was refused of what came from it.
    pub refused: u64,
}
