//! What goes into the unit's machine, what its workers are given to do, and what comes out (RFC 7667, section 3.7).
//!
//! Read `event` and `output` first; a `job` is what the ingress hands to a worker.
#![tactic(auto)]

mod bytes;
mod event;
mod job;
mod output;
mod run_fault;

pub use bytes::Bytes;
pub use event::Event;
pub use job::Job;
pub use output::{DeskRefusal, Out, Refusal};
pub use run_fault::RunFault;
pub use shared_packet::SharedPacket;
