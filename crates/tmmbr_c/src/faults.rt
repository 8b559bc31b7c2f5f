//! The numbers of what is answered.

/// It is done: the set is announced, or the certificate holds.
pub const DONE: u32 = 0;
/// The certificate's first condition fails: a place is beyond the requests or stands twice, or a
/// neighbour is no kept place.
pub const PLACE: u32 = 1;
/// The second: a kept request permits its pair.
pub const PAIR_PERMITTED: u32 = 2;
/// The third: the request at the place forbids the pairs of two kept entries.
pub const TWO_PAIRS: u32 = 3;
/// The fourth: the request at the place isn't implied as its entry states.
pub const NOT_IMPLIED: u32 = 4;
/// The fifth: the request at the place is neither kept nor implied.
pub const NOT_NAMED: u32 = 5;
/// Refused: more requests, kept entries or implied ones than `MAX_REQUESTS`.
pub const TOO_MANY: u32 = 6;
/// Refused: a number of the request at the place is out of range.
pub const REQUEST_RANGE: u32 = 7;
/// Refused: an earlier request has the SSRC of the one at the place.
pub const SAME_SSRC: u32 = 8;
/// Refused: there is no room for the entries, whose numbers are given.
pub const NO_ROOM: u32 = 9;
/// Refused: a number of the kept entry at the place is out of range.
pub const KEPT_RANGE: u32 = 10;
/// Refused: a number of the implied entry at the place is out of range.
pub const IMPLIED_RANGE: u32 = 11;
/// Refused: the state isn't open.
pub const CLOSED: u32 = 12;
/// Refused: the state is open.
pub const OPEN: u32 = 13;
/// Refused: there is no memory.
pub const NO_MEMORY: u32 = 14;
/// Refused: as many other requests are live as may be.
pub const FULL: u32 = 15;
/// Refused: the owner has no live request.
pub const NOT_LIVE: u32 = 16;
