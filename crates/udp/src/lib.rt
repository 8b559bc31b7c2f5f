//! What a unit needs from outside, on UDP sockets: what comes, where what it sends goes, what time it is.
//!
//! Read `socket` first, the sockets and what is sent by them, then `door`, where what comes is let in. `inbox` receives it, `who` says who sent
//! it, `hearing` hears it, `kept` is what was read of it, and `clock` tells the moment. `policies` say what becomes of it (`laws`: nothing, if
//! no rule asks for anything); `scribe` tells who records the run. `drops` reads what the system dropped: it sums the rows of an `address` in a
//! `table` of the system's. `goodbyes` are the BYEs at a stop.
#![tactic(auto)]

mod address;
mod clock;
mod door;
mod drops;
mod goodbyes;
mod hearing;
mod inbox;
mod kept;
mod laws;
mod policies;
mod scribe;
mod socket;
mod table;
mod who;

pub use door::{Door, Outlook};
pub use drops::{DropWatch, watch_drops};
pub use goodbyes::say_goodbyes;
pub use laws::takes_what_came;
pub use socket::{SocketSink, Sockets, socket_sinks};
