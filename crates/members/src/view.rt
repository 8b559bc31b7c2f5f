//! A room as it is looked at.

use crate::room::Room;
use settings::Links;

/// A room as it is, and how its legs are found. Who looks at it before something is taken in changes nothing.
#[derive(Clone, Copy)]
pub struct RoomView<'a> {
    pub links: &'a Links,
    pub room: &'a Room,
}
