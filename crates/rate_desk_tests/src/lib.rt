//! The tests of `rate_desk` and of `desk`, and of `bounding_set`, `rate_cert` and `tmmbr_tuple` below them, in a crate of their own so that none
//! of them is proved a second time with them.
//!
//! `lists` draws requests by chance; `slow` has the announced set as its definition says it, `slow_certificate` the certificate by its
//! formulas. `set_tests` has the steps that tests of sets are written in. `calls` makes the calls of desks and houses by value, `desk_scripts` is
//! the language of a desk's tests. `random_calls` draws calls, and `whole_list` says what they come to.
#![tactic(auto)]

#[cfg(test)]
mod calls;
#[cfg(test)]
mod desk_scripts;
#[cfg(test)]
mod desk_tests;
#[cfg(test)]
mod gather_tests;
#[cfg(test)]
mod house_tests;
#[cfg(test)]
mod in_place_tests;
#[cfg(test)]
mod lists;
#[cfg(test)]
mod random_calls;
#[cfg(test)]
mod set_tests;
#[cfg(test)]
mod slow;
#[cfg(test)]
mod slow_certificate;
#[cfg(test)]
mod thread_tests;
#[cfg(test)]
mod tuple_tests;
#[cfg(test)]
mod whole_list;
#[cfg(test)]
mod whole_list_tests;
