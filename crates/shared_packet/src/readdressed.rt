//! A packet that goes out.

ghost use Rattle.std.specs.Prelude.{◌≡◌, ◌≤◌, ℕ, length};
ghost use Rattle.shared_packet.specs.Readdressed.{readdressed_bytes};
ghost use Rattle.shared_packet.specs.Rtp.{payload_octets};

use crate::bytes::SharedBytes;
use crate::packet::SharedPacket;
use byteorder::{BigEndian, ByteOrder};
use std::marker::Model;
use tmmbr_tuple::Ssrc;

/// A packet as it goes out: the bytes of the one that came, which are shared, and the source and the sequence number that stand in
/// it in place of its own. How many octets its payload has is kept, too, so that nobody reads it again. Contracts see it as its bytes.
#[derive(Drop)]
pub struct Readdressed {
    packet: SharedBytes,
    octets: u64,
    ssrc: Ssrc,
    sequence_number: u16,
}

impl Model for Readdressed {
    ghost use Rattle.std.specs.Prelude.{◌≡◌, ◌≤◌, List, ℕ, length};
    ghost use Rattle.shared_packet.specs.Readdressed.{readdressed_bytes};
    ghost use Rattle.shared_packet.specs.Rtp.{payload_octets};

    ghost Value = { List ℕ };

    ghost view = { λ r. readdressed_bytes r.ssrc.0 r.sequence_number r.packet };

    ghost invariant = { λ r. (12 ≤ length r.packet) × (payload_octets r.packet ≡ r.octets) };
}

impl Readdressed {
    /// The packet under this source and sequence number.
    pub fn new(packet: SharedPacket, ssrc: Ssrc, sequence_number: u16) -> Readdressed
        requires header { 12 ≤ length packet }
        ensures { result ≡ readdressed_bytes ssrc.0 sequence_number packet }
    {
        let octets = packet.octets();
        Readdressed {
            packet: packet.into_bytes(),
            octets,
            ssrc,
            sequence_number,
        }
    }

    /// How many bytes it has.
    pub fn len(&self) -> usize
        ensures { result ≡ length self.now }
    {
        self.packet.as_slice().len()
    }

    /// The octets of its payload; 0 if its bytes are no packet.
    pub fn octets(&self) -> u64
        ensures { result ≡ payload_octets self.now }
    {
        self.octets
    }

    /// Writes its bytes over as many others.
    pub fn copy_to(&self, out: &mut [u8])
        requires { length out.old ≡ length self.now }
        ensures { out.new ≡ self.now }
    {
        out.copy_from_slice(self.packet.as_slice());
        BigEndian::write_u16(&mut out[2..], self.sequence_number);
        BigEndian::write_u32(&mut out[8..], self.ssrc.0);
    }

    /// The bytes of the one that came: as many, and the same but for the source and the sequence number.
    pub fn into_packet(self) -> SharedBytes
        ensures size { length result ≡ length self }
        ensures bytes { (ssrc number : ℕ)
            → readdressed_bytes ssrc number result ≡ readdressed_bytes ssrc number self }
    {
        let Readdressed { packet, .. } = self;
        packet
    }
}
