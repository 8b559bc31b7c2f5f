//! The unit as one machine: datagrams, moments and selections go in, one atomic step an event; datagrams and
//! refusals come out (RFC 7667, section 3.7). Nothing reads a clock, starts a thread or opens a socket.
//!
//! Read the crate `events` first, what goes in and what comes out, then `world` and `runner`. `hearing` and `ticking`, `ingress` and
//! `working` are the three kinds of step, `reporting` says whose report is due; `duties` is the ingress for a driver of its own, `front` what it and the machine both hold,
//! `laws` what holds of every run, `quiet` what is live once nothing waits. What a datagram says (`datagram`), what a job does on legs (`legs`), which desk it asks and what
//! follows from the answer (`desk_calls`), and how legs are found (`settings`) are crates of their own, whose names are handed on.
#![tactic(auto)]

mod asking;
mod duties;
mod follow_ups;
mod front;
mod hearing;
mod ingress;
pub mod laws;
mod machine;
mod order_follow_ups;
pub mod quiet;
mod reporting;
mod ring;
mod rounds;
mod runner;
mod seed;
mod tasks;
mod ticking;
mod working;
mod world;

pub use announcement::entries_of;
pub use datagram::{Ask, Control, Media, Reading, Taking, What, read, says_one_thing};
pub use desk_calls::{
    Asks, Head, Notification, Question, asked_by, notification_of, notify, picture_call, stay_call,
    tells_each_change, waiting,
};
pub use duties::{Duty, IngressCore};
pub use events::{Bytes, DeskRefusal, Event, Job, Out, Refusal, RunFault};
pub use legs::{LegState, Legs, Plan};
pub use ring::JOB_LIMIT;
pub use runner::{hear, run, take};
pub use settings::Links;
pub use shared_packet::laws as rtp_laws;
pub use std::alloc::AllocError as NoMemory;
pub use world::{Waiting, World};
