//! Why a subscriber sees nothing, or what it is sent: decided on what is known of a leg, and told in a line.
//!
//! Read `facts` first, what is known of a leg; then `reasons`, what is said of it, and when. `sightings` is what was seen of an endpoint's
//! media, `flow` how much went out of late. `reason_line` has the lines for people, `kinds` how they begin, and `remarks` when one is said unasked.
#![tactic(auto)]

mod facts;
mod flow;
mod kinds;
mod reason_line;
mod reasons;
mod remarks;
mod sightings;

pub use facts::{EndpointFacts, LegFacts};
pub use flow::{FlowLook, FlowWindow, LegFlow};
pub use kinds::ReasonKind;
pub use reason_line::{line_of_reason, reason_lines, stray_line};
pub use reasons::{LATELY_MS, Reason, why};
pub use remarks::{REMARK_EACH_MS, Remark, is_remark_due};
pub use sightings::{Sighting, StrayPlace, StraySource};
