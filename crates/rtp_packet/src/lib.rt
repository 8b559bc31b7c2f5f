//! RTP packets (RFC 3550, section 5.1), read in place and forwarded under another source and number.
//!
//! Read `view` first. `RtpView::parse` reads exactly the datagrams that are packets, and its parts are
//! slices of the input; `rewritten_into` writes the same packet with another SSRC and sequence number.
//! Contents of header extensions and of payloads are not looked at. No call allocates.
#![tactic(auto)]

mod fault;
mod header;
mod view;

pub use fault::RtpFault;
pub use view::RtpView;
