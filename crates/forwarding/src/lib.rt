//! What one worker of the unit does with its jobs: it sends packets on, by rows no older than the job, and asks publishers'
//! desks for its subscribers (RFC 7667, section 3.7).
//!
//! Read `forwarder` first, what one worker does with its jobs, then `notifier`, how a desk is asked and what follows is sent. What the
//! unit needs from outside is the crate `ports`, whose names are handed on.
#![tactic(auto)]

mod done;
mod forwarder;
mod notifier;
mod refusing;
mod sending;

pub use done::{ForwardFault, Forwarded};
pub use forwarder::Forwarder;
pub use notifier::Notifier;
pub use ports::{Clock, Datagram, Gate, ReceiveFault, SendFault, Sink, Source};
pub use sending::send_all;
pub use std::alloc::AllocError as NoMemory;
