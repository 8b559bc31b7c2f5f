//! A datagram that was read as an RTP packet, for all that hold it.

ghost use Rattle.std.specs.Prelude.{◌≡◌, false, [], IfOk, MatchOption};
ghost use Rattle.shared_packet.specs.Rtp.{IsReadAs, is_rtp, payload_octets};

use crate::bytes::SharedBytes;
use rtp_packet::RtpView;
use std::alloc::{AllocError, Global};
use std::marker::Model;

/// What a leg wants to know of an RTP packet (RFC 3550, section 5.1).
#[derive(Clone, Copy)]
pub struct PacketParts {
    pub sequence_number: u16,
    /// The octets of its payload.
    pub octets: u64,
}

/// The bytes of a datagram, kept once for all that hold them, and what they say as an RTP packet, which is read once for all. Contracts
/// see it as its bytes.
#[derive(Drop)]
pub struct SharedPacket {
    bytes: SharedBytes,
    /// `None` if they are no packet.
    reading: Option<PacketParts>,
}

impl Model for SharedPacket {
    ghost use Rattle.std.specs.Prelude.{◌≡◌, List, ℕ, false, MatchOption};
    ghost use Rattle.shared_packet.specs.Rtp.{IsReadAs, is_rtp};

    ghost Value = { List ℕ };

    ghost view = { λ p. p.bytes };

    ghost invariant = { λ p. MatchOption p.reading (is_rtp p.bytes ≡ false) (IsReadAs p.bytes) };
}

impl SharedPacket {
    /// No bytes.
    pub fn none() -> SharedPacket
        ensures { result ≡ [] }
    {
        SharedPacket {
            bytes: SharedBytes::none(),
            reading: None,
        }
    }

    /// These bytes, which were read so.
    pub fn new(bytes: SharedBytes, reading: PacketParts) -> SharedPacket
        requires read { IsReadAs bytes reading }
        ensures { result ≡ bytes }
    {
        SharedPacket {
            bytes,
            reading: Some(reading),
        }
    }

    /// A copy of these bytes, which are read now.
    pub fn copy_of(alloc: Global, bytes: &[u8]) -> Result<SharedPacket, AllocError>
        ensures { IfOk result (λ copy. copy ≡ bytes.now) }
    {
        Ok(SharedPacket {
            bytes: SharedBytes::copy_of(alloc, bytes)?,
            reading: reading_of(bytes),
        })
    }

    /// What a leg wants to know of them; `None` if they are no packet.
    pub fn reading(&self) -> Option<PacketParts>
        ensures { MatchOption result (is_rtp self.now ≡ false) (IsReadAs self.now) }
    {
        self.reading
    }

    /// The octets of its payload; 0 if they are no packet.
    pub(crate) fn octets(&self) -> u64
        ensures { result ≡ payload_octets self.now }
    {
        match self.reading {
            Some(reading) => reading.octets,
            None => 0,
        }
    }

    /// The same for one holder more; nothing is read again, nor copied, unless the bytes have as many holders as can be counted. Refused for
    /// want of memory alone.
    pub fn share(&self) -> Result<SharedPacket, AllocError>
        ensures { IfOk result (λ shared. shared ≡ self.now) }
    {
        Ok(SharedPacket {
            bytes: self.bytes.share()?,
            reading: self.reading,
        })
    }

    /// The bytes alone.
    pub fn into_bytes(self) -> SharedBytes
        ensures { result ≡ self }
    {
        let SharedPacket { bytes, .. } = self;
        bytes
    }
}

/// What a leg wants to know of a datagram; `None` if it is no packet.
fn reading_of(bytes: &[u8]) -> Option<PacketParts>
    ensures { MatchOption result (is_rtp bytes.now ≡ false) (IsReadAs bytes.now) }
{
    match RtpView::parse(bytes) {
        Ok(packet) => Some(PacketParts {
            sequence_number: packet.sequence_number,
            octets: packet.payload.len() as u64,
        }),
        Err(_) => None,
    }
}
