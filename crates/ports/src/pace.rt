//! How long a run lasts, and how often it ticks.

/// How long the unit runs, and how often it ticks.
#[derive(Clone, Copy, PartialEq, Eq)]
pub struct Pace {
    /// How many turns it makes, unless it is stopped: as good as no end at `u64::MAX`.
    pub turns: u64,
    /// How many milliseconds the moment rises at least between two ticks, and so between two pulses of a desk. Whatever comes with time (an
    /// endpoint's timeout, a report, a PLI that waits for its gap, a request that grows too old) may come so much later.
    pub tick_ms: u64,
}
