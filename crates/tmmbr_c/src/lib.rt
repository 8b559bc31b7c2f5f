//! The announced set of rate requests, and the checker of its certificates, for programs in other
//! languages: a static library that C can call.
//!
//! Read `include/tmmbr.h` first, then `announcing` and `checking`, which keep nothing, and `opening`, `changing` and `showing`, whose
//! requests stand from call to call in what `slot` holds. `tmmbr_open` allocates, no other call.
#![tactic(auto)]

mod announcing;
mod changing;
mod checking;
mod faults;
mod filling;
mod handle;
mod numbers;
mod opening;
mod order;
mod parts;
mod reading;
mod showing;
mod slot;
mod writing;
