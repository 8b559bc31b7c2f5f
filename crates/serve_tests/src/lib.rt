//! The tests of the crates between sockets and the machine, of what people are told, and of commands, in a crate of their own so that none of
//! those is proved a second time with them. `loopback` has what tests need of sockets and settings. Most tests of commands are a table
//! of rows (`row`), which one loop hands to a public call, over streams of bytes (`stream`).
#![tactic(auto)]

#[cfg(test)]
mod bound_tests;
#[cfg(test)]
mod check_tests;
#[cfg(test)]
mod control_tests;
#[cfg(test)]
mod crowd_tests;
#[cfg(test)]
mod expected;
#[cfg(test)]
mod loopback;
#[cfg(test)]
mod loopback_tests;
#[cfg(test)]
mod page_tests;
#[cfg(test)]
mod replay_tests;
#[cfg(test)]
mod row;
#[cfg(test)]
mod sink_tests;
#[cfg(test)]
mod stream;
#[cfg(test)]
mod traffic_tests;
#[cfg(test)]
mod wall_time_tests;
#[cfg(test)]
mod web_tests;
