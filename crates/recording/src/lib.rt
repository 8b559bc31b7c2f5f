//! What a unit took in, as the lines of a script that plays it again.
//!
//! Read `taken` first, what a unit takes in, and `line`, the lines of each event. Then `header`, the comment at the head of a record, and
//! `tape`, what is written of a record and when it ends. `strangers` is of which unknown senders it has a line. All of that is a value: no file, no clock. The `recorder` has it while a unit runs, and
//! hands it on to the `writer_thread`. That is a thread that writes what nobody waits for, to a `record_target`: a file or a peer. `next_record` says which
//! file that is where earlier ones stand, `faults` why there is no record, or nobody who wants one.
#![tactic(auto)]

mod digits;
mod faults;
mod header;
mod line;
mod next_record;
mod record_target;
mod recorder;
mod strangers;
mod taken;
mod tape;
mod writer_thread;

pub use faults::{ControlFault, RecordFault, WriterFault};
pub use header::{Header, header_text};
pub use line::begun_line;
pub use next_record::{MAX_RECORD, make_next, record_path};
pub use record_target::{RecordTarget, Written};
pub use recorder::{RECORD_LIMIT, Recorder, Switched};
pub use strangers::{MAX_NOTED, NotedStrangers, STRANGER_EACH_MS, UnknownSender};
pub use taken::{Origin, Taken};
pub use tape::{End, Tape, end_name, ended_line};
pub use writer_thread::{Outlet, start_writer};
