//! The legs that one worker owns: what a job gives out on them, and what they are from then on (RFC 7667, section 3.7).
//!
//! Read `legs` first: a job is planned, which changes nothing and may want memory, and then applied, which can't fail. `leg` is one
//! leg, `planning` what it does for a job, `plan` the list of that.
#![tactic(auto)]

mod leg;
mod legs;
mod plan;
mod planning;

pub use leg::LegState;
pub use legs::Legs;
pub use plan::Plan;
