//! Certificates for sets of rate requests: who holds one can see that a choice of requests permits
//! what all of them permit, and that no smaller choice does (RFC 5104, sections 2.2 and 3.5.4.2).
//!
//! Read `certificate` first, then `checker`. `check` asks nothing of who made the certificate, and
//! what its yes means is proved for every list of requests. No call allocates.
#![tactic(auto)]

mod certificate;
mod checker;
mod fault;
pub mod laws;
mod request;

pub use certificate::{Cert, Implied, Kept, MAX_REQUESTS};
pub use checker::check;
pub use fault::CertFault;
pub use request::Request;
