//! The unit in one thread: what comes from outside is given to the machine, and what the machine gives out is handed to the sink. What
//! runs is what is proved.
//!
//! Read `driver` first, the public calls; then `turn`, what is done in a turn, and `settle`, an event with all that follows from it.
//! `specs/Driver.antt` says what a run did, `specs/Turns.antt` what comes of turns.
#![tactic(auto)]

mod driver;
pub mod settle;
mod tally;
mod turn;

pub use driver::{DriveFault, Report, run_one_thread, run_through};
pub use ports::Pace;
pub use tally::Tally;
