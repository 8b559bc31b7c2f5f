//! Who is there: which endpoints are present in a room, and the stays of its legs (RFC 7667, section 3.7); and what
//! was received of each endpoint (RFC 3550, section 6.4.1).
//!
//! Read `room` first; `reception` stands by itself. What is fixed while a room runs is the crate `settings`, whose names
//! are handed on. Nothing reads a clock: calls are handed their moment.
#![tactic(auto)]

pub mod laws;
mod order;
mod presence;
pub mod reception;
mod room;
mod stays;
pub mod stream;
mod table;
mod view;

pub use order::{Change, Order, Row};
pub use room::Room;
pub use rtcp_compound::Block;
pub use settings::{
    Extras, Key, LegParts, LegSettings, MAX_ENDPOINTS, MAX_LEGS, Parts, RoomFault, Settings,
    SettingsFault,
};
pub use stays::MAX_STAY;
pub use std::alloc::AllocError as NoMemory;
pub use stream::COUNTED_PACKETS;
pub use view::RoomView;
