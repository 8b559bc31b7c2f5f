//! What a unit said last.

use crate::sets::AnnouncedSet;

/// What a unit said last.
#[derive(Drop)]
pub struct Said {
    /// The moment at which it was asked: so many milliseconds since who asks it began.
    pub moment_ms: u64,
    /// Its lines for `metrics`.
    pub metrics: Vec<u8>,
    /// Its lines for `present`.
    pub present: Vec<u8>,
    /// Its lines for `legs`.
    pub legs: Vec<u8>,
    /// Its line for `counts`.
    pub counts: Vec<u8>,
    /// Its lines for `reports`; none if it knows no such request.
    pub reports: Vec<u8>,
    /// Its lines for `why`; none if it knows no such request.
    pub why: Vec<u8>,
    /// The sets that it announces.
    pub sets: Vec<AnnouncedSet>,
}
