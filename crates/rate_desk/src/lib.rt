//! The desks of several publishers under locks, for several threads (RFC 5104, sections 3.5.4 and 4.2).
//!
//! Read `house` first. A thread calls desks through its seat; once all are done the desks are gathered, and compared with
//! what the seats counted. What one desk is stands in the crate `desk`, whose names are handed on. Nothing reads a clock:
//! moments are handed in. No call of a made house allocates.
#![tactic(auto)]

mod desk_lock;
mod gathering;
mod held;
mod hold;
mod house;
mod ledger;
mod receipt;
mod seat;

pub use desk::{
    Answer, Asked, Base, CALL_LIMIT, Call, Change, Desk, Effect, Entry, HISTORY_LIMIT, HistoryFull,
    KEPT_WORDS, NoMemory, PRESENT_LIMIT, Present, Recorded, Reply, Signal, laws,
};
pub use hold::Hold;
pub use house::House;
pub use ledger::{DeskCalls, SeatCalls};
pub use receipt::{GatherFault, HouseFault, Receipt};
pub use seat::DeskSeat;
