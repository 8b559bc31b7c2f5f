//! Pictures of sets of rate requests: which packet rates are permitted with which rates of media, and by whose requests
//! (RFC 5104, sections 2.2 and 3.5.4.2), as an SVG of whole numbers.
//!
//! Read `picture` first. `scale` says how long the axes are, `line` where a request's line runs, `shapes` what is written of each.
#![tactic(auto)]

mod line;
mod picture;
mod scale;
mod shapes;
mod style;

pub use picture::set_picture;
