//! With which numbers the legs of a unit begin after its next start.
//!
//! Read `file` first: what a unit notes of that, written and read. `gap` says how far beyond its last number a leg begins, `notice` when it is said
//! that a note couldn't be written, and `laws` that what is written is read again.
#![tactic(auto)]

mod file;
mod gap;
pub mod laws;
mod notice;

pub use file::{NumbersFault, ROW_BYTES, numbers_file, read_numbers};
pub use gap::{LEAST_GAP, MOST_GAP, first_after};
pub use notice::{WriteNotice, unwritten_text};
