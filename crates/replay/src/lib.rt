//! Scripts of events, played through the unit's machine (`sfu replay`): what a line asks for, and the lines that are printed of what comes
//! of it.
//!
//! Read `replay` first, how a script is played, then `script`, what a line asks for. `by_file` takes the settings from a file. `out_text`
//! is the line for each thing that comes out, `latest` the event from which it follows, `shown` whether it is to be shown, and `printing`
//! prints what is, of all that a line gives (`giving`). `gaps` has where no packet goes out on a leg for a while, by its `last_packets`.
//! `head` is what a record says of itself, `marks` which of its comments are shown, and `utc` a moment as the wall clock shows it.
#![tactic(auto)]

mod by_file;
mod gaps;
mod giving;
mod head;
mod last_packets;
mod latest;
mod marks;
mod out_text;
mod printing;
mod replay;
mod script;
mod shown;
mod utc;

pub use by_file::{run_replay, unreadable_settings};
pub use last_packets::{LastPacket, LastPackets};
pub use latest::{DatedInput, Incoming, Latest};
pub use out_text::out_line;
pub use printing::{Choice, print_end, print_event, print_outs, print_set};
pub use replay::replay_lines;
pub use script::{Command, Numbers, ScriptLine, read_line};
pub use shown::{Shown, Unknown};
