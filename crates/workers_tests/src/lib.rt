//! The tests of `core_steps`, `workers`, `one_thread`, `entrance`, `routes` and `conference`, in a crate of their own so that none of them is
//! proved a second time.
//!
//! `steps` is the language of tests of the machine: a room, steps that are played on it, and the lines that come out. `doubles` and
//! `turn_doubles` stand for what is outside the unit; `rooms` has settings, `runs` the calls that run a unit, `tables` what is done with route
//! tables; `random_turns` draws what endpoints send, and `machine_turns` is the one-thread machine on the same; `told` is what sinks are told.
#![tactic(auto)]

#[cfg(test)]
mod beside_tests;
#[cfg(test)]
mod conference_tests;
#[cfg(test)]
mod cut_tests;
#[cfg(test)]
mod doubles;
#[cfg(test)]
mod expected;
#[cfg(test)]
mod feedback_tests;
#[cfg(test)]
mod forward_tests;
#[cfg(test)]
mod machine_memory_tests;
#[cfg(test)]
mod machine_turns;
#[cfg(test)]
mod memory_tests;
#[cfg(test)]
mod one_thread_tests;
#[cfg(test)]
mod quiet_tests;
#[cfg(test)]
mod random_turns;
#[cfg(test)]
mod rooms;
#[cfg(test)]
mod route_tests;
#[cfg(test)]
mod runs;
#[cfg(test)]
mod steps;
#[cfg(test)]
mod tables;
#[cfg(test)]
mod tick_tests;
#[cfg(test)]
mod told;
#[cfg(test)]
mod turn_doubles;
#[cfg(test)]
mod unit_tests;
#[cfg(test)]
mod watch_tests;
