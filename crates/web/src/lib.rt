//! A unit is looked at by HTTP: a program of its own asks it through its control, and answers who comes.
//!
//! Read `serving` first, the loop, then `answer`: which request is answered by what. `inquiry` asks the unit, `visitors` are those who came, of whom
//! nobody is waited for, and `teller` answers them by what the unit said last. `page` is the page for people, a constant, and `state` the unit as JSON
//! (`members`).
#![tactic(auto)]

mod answer;
mod endpoints;
mod hosts;
mod inquiry;
mod members;
mod octets;
mod page;
mod reports;
mod said;
mod serving;
mod sets;
mod state;
mod teller;
mod visitors;
mod words;

pub use answer::{Answer, Kind, Target, Verdict, View, answer_to, asked_for};
pub use endpoints::numbers_in;
pub use hosts::is_known_host;
pub use inquiry::{Inquiry, Step};
pub use said::Said;
pub use serving::run_page;
pub use sets::AnnouncedSet;
pub use state::state_text;
pub use teller::Teller;
pub use visitors::{MAX_VISITORS, Visitors};
