//! The unit in threads: workers send packets on beside one writer of routes, and ask the publishers' desks for their
//! subscribers (RFC 7667, section 3.7).
//!
//! Read `unit` first, which runs it all. Its threads are the crate `worker_threads`, what one worker does with its jobs the crate
//! `forwarding`, and what the unit needs from outside the crate `ports`; their names are handed on.
#![tactic(auto)]

mod given;
mod unit;

pub use forwarding::{ForwardFault, Forwarded, Forwarder, NoMemory, Notifier};
pub use given::Outside;
pub use ports::{
    Clock, Datagram, Fed, Feed, Gate, Look, MAX_DATAGRAM, MAX_FAULTS, Open, Pace, ReceiveFault,
    Received, SendFault, Sink, Source, Status, Timed, Timekeeper, Unwatched, Watch,
};
pub use unit::{Report, run_through, run_unit, run_watched};
pub use worker_threads::UnitFault;
