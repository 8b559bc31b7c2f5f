//! The calls of publishers' desks, and what is sent to publishers and subscribers after one (RFC 5104, section 4.2; RFC 4585,
//! section 6.3.1).
//!
//! Read `calls` first: which desk a job asks, and for what; then `notification`: what is told after its answer. `head` is what each
//! compound of the unit begins with, and its reports.
#![tactic(auto)]

mod calls;
mod head;
mod notification;

pub use calls::{Asks, Question, asked_by, notification_of, picture_call, stay_call, waiting};
pub use head::{Draft, Head};
pub use notification::{Notification, notify, tells_each_change};
