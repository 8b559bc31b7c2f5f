//! One conference, for programs in other languages: a static library that C can call. What comes is given to it, and what is to be
//! sent is taken from it.
//!
//! Read `include/sfu.h` first, then `slot`, what C keeps of a conference, and the functions that C calls: `opening`, `serving`,
//! `sending`, `announcing`, `certifying` and `standing`.
#![tactic(auto)]

mod announcing;
mod certifying;
mod faults;
mod handle;
mod numbers;
mod opening;
mod parts;
mod sending;
mod serving;
mod slot;
mod standing;
