//! The threads of a unit: the ingress in the calling one, and each worker in one of its own (RFC 7667, section 3.7).
//!
//! Read `scope` first, which starts the workers and joins them; then `turns` and `ingress` (what comes in), `lane` (the rings) and
//! `worker`.
#![tactic(auto)]

mod counts;
mod fault;
mod faults;
mod gear;
mod ingress;
mod item;
mod lane;
mod recess;
mod scope;
mod settling;
mod turns;
mod worker;

pub use counts::Counts;
pub use fault::UnitFault;
pub use scope::{Shared, run_scoped};
pub use turns::Inlet;
