//! How a unit is steered while it runs: what a peer of `sfu serve --control` asks for, and what it is answered.
//!
//! There is neither a socket nor a thread here. Read `request` first, what can be asked for; then `answer`, the texts of answers, and
//! `request_action`, what a request leads to. `inbox` is how lines come out of the bytes of a peer, `peers` who is looked at next, each a `peer`,
//! `places` who makes room for another, `patience` who is let go. `followers` are told what happens, each through an `outbox`, as `presence_news`
//! of who came and went. `records` are which records somebody may mean, `shortage` is when the control says that nobody can be taken in. `ask` is
//! the other end, which takes an answer apart.
#![tactic(auto)]

mod answer;
mod ask;
mod followers;
mod inbox;
mod outbox;
mod patience;
mod peer;
mod peers;
mod places;
mod presence_news;
mod records;
mod request;
mod request_action;
mod screened;
mod shortage;

pub use answer::{
    EndpointLine, Refused, Unheard, counts_text, done_text, present_line, refused_text,
    stranger_line,
};
pub use ask::{Answered, read_answer};
pub use followers::{Followers, MAX_FOLLOWERS};
pub use inbox::{Inbox, MAX_INBOX};
pub use outbox::MAX_OUTBOX;
pub use peers::Peers;
pub use places::{MAX_PEERS, MAX_STAYING, Place, ROOM_AFTER_MS, TAKEN_IN, place_among};
pub use presence_news::push_presence_news;
pub use records::{RecordKind, Records};
pub use request::{Request, read_request};
pub use request_action::{RequestAction, UnitState, action_for};
pub use screened::{Screened, screened_text};
pub use shortage::{SHORTAGE_EACH_MS, says_shortage, shortage_text};
