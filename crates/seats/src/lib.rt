//! Names at the border. A client sends and asks under names (SSRCs) of its own; the machine knows it by the name of its seat. What a client says is
//! heard under the seat's name, and what it is told of itself names its own (RFC 7667, section 3.7). All else stays, byte for byte.
//!
//! Read `names` first, then `exchange`: what is heard of a datagram, and what is told by one. `places` says where names stand in a packet, which
//! `frame` measures and `renaming` writes over. `seat` learns which names a client has, from what `spoken` reads; `units` are the names that none may
//! have. `laws` says what is read of the datagrams afterwards.
#![tactic(auto)]

mod exchange;
mod frame;
pub mod laws;
mod names;
mod places;
mod renaming;
mod seat;
mod spoken;
mod units;

pub use exchange::{heard_as, told_as};
pub use names::Names;
pub use seat::{Seat, Whose};
