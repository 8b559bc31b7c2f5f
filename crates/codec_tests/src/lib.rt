//! The tests of the crates that read and write packets, number what is sent on and keep it: `rtp_packet`, `rtcp_compound`,
//! `rtcp_feedback`, `rewrite` and `resend_ring`. They stand apart so that none of these is proved a second time with them.
//!
//! `packet_text` says what datagrams and feedback say, as text, which tests compare once.
#![tactic(auto)]

#[cfg(test)]
mod expected;
#[cfg(test)]
mod feedback_tests;
#[cfg(test)]
mod leg_tests;
#[cfg(test)]
mod packet_text;
#[cfg(test)]
mod readdressed_tests;
#[cfg(test)]
mod ring_tests;
#[cfg(test)]
mod rtcp_tests;
#[cfg(test)]
mod rtp_tests;
#[cfg(test)]
mod writer_tests;
