//! What a datagram of an endpoint says: a packet of media, a goodbye, or what its other RTCP packets ask for (RFC 3550,
//! section 6; RFC 4585, section 6; RFC 5104, section 4.2); or the first fault in it.
//!
//! Read `reading` first, the value, then `read`. All of a datagram is read before anything that it asks for is listed. Which source a
//! datagram names, `naming` says before it is read; what is noted of it with reading it, `notes`: `kinds`, `blocks` and `notice` are the parts.
#![tactic(auto)]

mod asks;
mod blocks;
mod kinds;
mod naming;
mod notes;
mod notice;
mod reader;
mod reading;
mod spelling;
mod survey;

pub use blocks::blocks_of;
pub use kinds::{Kinds, kinds_of};
pub use naming::{first_size, source_named};
pub use notes::Notes;
pub use reader::{read, read_noting, says_one_thing};
pub use reading::{Ask, Control, Media, Reading, Sent, Taking, What};
pub use spelling::{is_sayable, read_one_way, sayable, spell, spelled_in_so_much, stays_as_heard};
