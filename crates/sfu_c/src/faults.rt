//! The numbers of what is answered.

/// It was done.
pub const DONE: u32 = 0;
/// The slot holds no conference.
pub const CLOSED: u32 = 1;
/// The slot holds a conference, so no other one is opened in it.
pub const OPEN: u32 = 2;
/// There was no memory; nothing was done.
pub const NO_MEMORY: u32 = 3;
/// The text is no TOML document.
pub const NOT_TOML: u32 = 4;
/// A key of the settings isn't there, isn't known, or has a value of another kind or beyond its range.
pub const BAD_KEY: u32 = 5;
/// Such a key of the endpoint of the number that is told.
pub const BAD_ENDPOINT: u32 = 6;
/// Such a key of the leg of the number that is told.
pub const BAD_LEG: u32 = 7;
/// Two of the unit, the endpoints and the legs have one source.
pub const SAME_SSRC: u32 = 8;
/// The settings have as many workers as is told, and not one.
pub const WORKERS: u32 = 9;
/// Something waits since an earlier call met no memory; nothing was done.
pub const BUSY: u32 = 10;
/// What was asked was done; for all that follows there was no memory, and it waits.
pub const UNSETTLED: u32 = 11;
/// Nothing is to be sent.
pub const NOTHING: u32 = 12;
/// There is no room for as much as is told.
pub const NO_ROOM: u32 = 13;
/// There is no endpoint of this number.
pub const NO_ENDPOINT: u32 = 14;
