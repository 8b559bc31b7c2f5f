//! Rounds of reports: how far apart they are, in how many slots, and how far one is.

ghost use Rattle.std.specs.Prelude.{◌≤◌, ◌<◌, ◌*◌, ◌^◌};

/// How long a round of reports takes, and in how many slots.
#[derive(Clone, Copy)]
pub(crate) struct Pace {
    /// In milliseconds.
    pub(crate) period_ms: u64,
    pub(crate) slots: u64,
    ghost some_slot: { 1 ≤ slots },
    ghost fits: { period_ms * slots < 2 ^ 64 },
}

/// A round of reports.
#[derive(Clone, Copy)]
pub struct Round {
    /// The moment at which it began; 0 of the first.
    pub began: u64,
    /// How many of its slots are done.
    pub done: u64,
}
