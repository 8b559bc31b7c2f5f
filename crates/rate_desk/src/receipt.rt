//! What a house hands out for a call that it recorded, and when it records none.

use desk::{Answer, Call};
use thiserror::Error;

/// Where a call stands in its desk's history, and what was answered.
#[derive(Clone, Copy, Debug, PartialEq, Eq)]
pub struct Receipt {
    /// The number of the publisher, from 0.
    pub publisher: usize,
    /// How many calls its desk had recorded before.
    pub number: u64,
    pub call: Call,
    pub answer: Answer,
}

/// Why a house didn't record a call. Nothing changed then.
#[derive(Clone, Copy, Debug, PartialEq, Eq, Error)]
pub enum HouseFault {
    /// 4: the desk's history has no room for the call.
    #[error("the history is full")]
    HistoryFull,
    /// 5: this seat made more calls to the desk than the desk has. Shows how many it has.
    #[error("the desk has only {0} calls")]
    Behind(u64),
}

/// Why the desks of a house were not handed out. The house is used up.
#[derive(Clone, Copy, Debug, PartialEq, Eq, Error)]
pub enum GatherFault {
    /// 1: the receipt's call and answer don't stand at its number, which its publisher's history should
    /// list.
    #[error("a receipt differs from the history")]
    Differs(Receipt),
    /// 2: this number of one publisher comes twice.
    #[error("number {0} comes twice")]
    Twice(u64),
    /// 3: a receipt's number is listed no more; the least listed one of its publisher is shown.
    #[error("calls before number {0} are folded")]
    Folded(u64),
    /// 4: so many seats were handed in, not as many as were made.
    #[error("{0} seats")]
    Seats(usize),
    /// 5: the calls or words that the seats counted of this publisher don't add up to its desk's.
    #[error("the counts of publisher {0} don't add up")]
    Totals(usize),
    /// 6: there was no memory. It doesn't come: a house is made with what `gather` needs.
    #[error("no memory")]
    NoMemory,
}
