//! The time of day as text for people.

use jiff::Timestamp;
use std::alloc::{AllocError, Global};

/// A moment, in seconds since the beginning of 1970 (UTC), as RFC 3339 writes it (section 5.6): `2026-11-26T21:12:05Z`. One after
/// 9999-12-30T22:00:00Z, the last of the calendar, has no text. Refused for want of memory alone.
pub fn time_text(alloc: Global, unix_seconds: u64) -> Result<String, AllocError> {
    match timestamp(unix_seconds) {
        Some(moment) => format!(in alloc; "{moment}"),
        None => Ok(String::new(alloc)),
    }
}

/// The moment, if the calendar has it.
fn timestamp(unix_seconds: u64) -> Option<Timestamp> {
    let seconds = i64::try_from(unix_seconds).ok()?;
    Timestamp::from_second(seconds).ok()
}
