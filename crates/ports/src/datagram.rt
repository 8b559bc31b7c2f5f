//! A datagram on its way out.

use events::Bytes;

/// A datagram to an endpoint, which is named by its number.
#[derive(Drop)]
pub struct Datagram {
    pub endpoint: u16,
    pub bytes: Bytes,
}
