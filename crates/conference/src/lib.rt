//! One conference as a value: what comes is given to it, and what is to be sent is taken from it. It opens no socket and reads no
//! clock.
//!
//! Read `conference` first, then `specs/Conference.antt`, what a conference has served since it was opened. `opening` makes one
//! of a settings text, `limited` hears no more of a datagram than the settings say, `delivery` finds what is to be sent, `laws` says what
//! holds over several calls.
#![tactic(auto)]

mod certified;
mod conference;
mod delivery;
mod fault;
pub mod laws;
mod limited;
mod opening;

pub use certified::Certified;
pub use conference::Conference;
pub use delivery::Delivery;
pub use fault::{EventFault, OpenFault};
