//! Requests and certificates as text: what `sfu bound` reads and prints, and the lines that `sfu check` reads.
//!
//! Read `bound` first, the requests that the datagrams of a list of lines leave; then `text`, what is printed of the set that is
//! announced for them, and `entry`, a line of a certificate. `words` has the words of a line, and `meter` is who is shown how far a
//! command is.
#![tactic(auto)]

mod bound;
mod entry;
mod fault;
mod meter;
mod text;
mod words;

pub use bound::{Refusal, lines, read_lines};
pub use entry::{Claim, Entry, MAX_LINES, Reading, read_line};
pub use fault::LineFault;
pub use meter::{Meter, line_count};
pub use text::{announced_line, answer_text, bound_text, desk_text, refused_text};
pub use words::{is_word, number_u16, number_u32, number_u64, word_at, words_of};
