//! The tests of `members` and of `settings`, in a crate of their own so that `members` isn't proved a second time with them.
//!
//! `scripts` is the language that tests of rooms are written in, `settings_tests` has the settings that they begin with, `room_tests` the
//! rooms.
#![tactic(auto)]

#[cfg(test)]
mod limits_tests;
#[cfg(test)]
mod memory_tests;
#[cfg(test)]
mod room_tests;
#[cfg(test)]
mod scripts;
#[cfg(test)]
mod settings_tests;
