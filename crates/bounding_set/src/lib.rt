//! The announced set of rate requests: what a media sender is told to keep to (RFC 5104, section
//! 3.5.4.2), kept up to date request by request, with a certificate that it is the smallest.
//!
//! Read `bounds` first. The set and its certificate are functions of the live requests alone: how
//! they came, and in what order, makes no difference. No call allocates.
#![tactic(auto)]

mod announced;
mod beside;
mod bounds;
mod certificate;
mod envelope;
mod implies;
pub mod laws;
mod line_end;
mod live;
mod neighbours;
mod pairs;
mod places;
mod rows;
mod splice;
mod unsplice;
mod zero_rates;

pub use bounds::Bounds;
pub use rows::{Full, LIVE_LIMIT, RowsFault};
