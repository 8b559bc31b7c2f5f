//! What comes to a unit, with the moment at which it came: a datagram as the value that is taken in, a leg that is switched, a stop, or nothing.
//!
//! Read `entrance` first, then `direct`, the entrance of a feed and a timekeeper.
#![tactic(auto)]

mod direct;
mod entrance;

pub use direct::{Direct, Kept, own_source};
pub use entrance::{Admitted, Came, Entrance};
