//! Rates as RTCP feedback spells them (RFC 5104, section 4.2.1.1), and which packet rates they permit
//! with which net media rates (RFC 5104, sections 2.2 and 3.5.4).
//!
//! Read `tuple` first, then `pair`. No call allocates or fails but by its stated cause.
#![tactic(auto)]

mod pair;
mod permission;
mod ssrc;
mod tuple;

pub use pair::Pair;
pub use permission::permits;
pub use ssrc::Ssrc;
pub use tuple::Tuple;
