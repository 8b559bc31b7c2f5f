//! A rate request and who makes it.

use tmmbr_tuple::{Ssrc, Tuple};

/// A request to bound a media sender's rate (RFC 5104, section 4.2.1), as one receiver made it.
#[derive(Clone, Copy, Debug, Default, PartialEq, Eq)]
pub struct Request {
    /// The receiver that asks.
    pub owner: Ssrc,
    /// The rate and the overhead that it asks for.
    pub tuple: Tuple,
}
