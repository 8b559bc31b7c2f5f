//! One publisher's desk: who may ask it for rates, what they ask for, and what is announced to them (RFC
//! 5104, sections 3.5.4 and 4.2); and when a picture loss indication is sent on to it (PLI, RFC 4585,
//! section 6.3.1).
//!
//! Read `desk` first. A desk records each call with its answer; what it holds and announces is a function
//! of these. It lists its last calls, and folds those before them into a base. Nothing reads a clock: moments
//! are handed in. No call of a made desk allocates.
#![tactic(auto)]

mod base;
mod call;
mod desk;
mod effect;
mod history;
mod kept;
pub mod laws;
mod presence;
mod standing;

pub use base::{Base, CALL_LIMIT};
pub use call::{Answer, Call, Change, Entry, KEPT_WORDS, Signal};
pub use desk::{Desk, HISTORY_LIMIT, HistoryFull, Recorded, Reply};
pub use effect::Effect;
pub use presence::{Asked, PRESENT_LIMIT, Present};
pub use std::alloc::AllocError as NoMemory;
