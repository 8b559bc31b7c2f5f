//! What a unit needs from outside: what comes to it, where datagrams go, what time it is, and who looks at it while it runs.
//!
//! Read `source` and `sink` first, then `clock`; `feed` is what comes beside datagrams. `pace` says how long a run lasts, `ticks` when a
//! tick is due, `watch` who looks at the totals, `gate` who stands before and after the jobs of workers.
#![tactic(auto)]

mod clock;
mod datagram;
mod feed;
mod gate;
mod pace;
mod sink;
mod source;
mod ticks;
mod watch;

pub use clock::{Clock, Timed, Timekeeper};
pub use datagram::Datagram;
pub use feed::{Fed, Feed, Received};
pub use gate::{Gate, Open};
pub use pace::Pace;
pub use sink::{SendFault, Sink};
pub use source::{MAX_DATAGRAM, MAX_FAULTS, ReceiveFault, Source, written};
pub use ticks::Ticks;
pub use watch::{Look, Status, Unwatched, Watch};
