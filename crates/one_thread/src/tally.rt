//! What a run counts.

/// How many datagrams came from endpoints, how many were sent, and how many couldn't be. Each count stays at `u64::MAX` once there.
#[derive(Clone, Copy, Default, PartialEq, Eq)]
pub struct Tally {
    pub heard: u64,
    pub sent: u64,
    pub failed: u64,
}
