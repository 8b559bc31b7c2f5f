//! The commands of `sfu` that need no machine, no socket and no unit that runs: the words that ask for them, what each does, and how it ends.
//!
//! Read `words` first, what the words of a command line ask for (`command_line` is the line that `clap` reads). Then `status` and `saying`, how
//! a command ends, and `offline`, which runs what needs no unit. `bounds` is `sfu bound`, `drawn` `sfu draw`, `checked` `sfu check` (over
//! `checking`, which checks the lines of a certificate); `version` says which program this is. `sdp` is the text of `sfu sdp`, `plan` that of
//! `sfu settings`. `explaining` says to people what was wrong with settings, and `cleared` is a stream that gives way to what a meter says.
#![tactic(auto)]

mod bounds;
mod checked;
mod checking;
mod cleared;
mod command_line;
mod drawn;
mod explaining;
mod offline;
mod plan;
mod saying;
mod sdp;
mod status;
mod version;
mod words;

pub use bounds::run_bound;
pub use checked::run_check;
pub use checking::check_lines;
pub use cleared::Cleared;
pub use drawn::run_draw;
pub use explaining::{bytes_in, explain_replay, settings_line};
pub use offline::run_offline;
pub use plan::{Plan, plan_of, plan_text};
pub use saying::{refuse_words, report, report_settings, report_words, say, say_no_memory, unsaid};
pub use sdp::{Session, Stream, is_video, session_text};
pub use status::{Failure, Status, unreadable};
pub use version::run_version;
pub use words::{Action, Offline, Record, read_words};
