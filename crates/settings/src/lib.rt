//! What is fixed while a room runs: its settings, which are checked once (RFC 7667, section 3.7), and how the legs that they
//! name are found.
//!
//! Read `settings` first, then `links`; `checks` has the faults, in their order.
#![tactic(auto)]

mod checks;
mod cname;
mod fault;
mod limits;
mod links;
mod parts;
mod rules;
mod settings;

pub use cname::Cname;
pub use fault::{Key, RoomFault, SettingsFault};
pub use limits::{MAX_ENDPOINTS, MAX_LEGS};
pub use links::Links;
pub use parts::{Extras, LegParts, Parts};
pub use rules::LegRules;
pub use settings::{LegSettings, Settings};
