//! How long the parts of a packet are.

ghost use Rattle.std.specs.Prelude.{◌≡◌, ◌≤◌, ◌<◌, ℕ, List, length};
ghost use Rattle.rtcp_compound.specs.Grammar.{RtcpPacket};
ghost use Rattle.seats.specs.Frame.{StandsFirst, frame_in, padding_behind};

use byteorder::{BigEndian, ByteOrder};
use rtcp_compound::WORD_BYTES;

/// The header of a packet (RFC 3550, section 6.4.1), and how long its parts are.
#[derive(Clone, Copy)]
pub(crate) struct Frame {
    /// The count of entries, or the FMT of feedback.
    pub(crate) count: u8,
    /// The packet type.
    pub(crate) kind: u8,
    /// How many bytes the body has.
    pub(crate) body: usize,
    /// How many the packet has, with its header and its padding.
    pub(crate) size: usize,
}

/// The frame of the packet at the front of these.
pub(crate) fn frame_of(packets: &[u8]) -> Frame
    requires { (p : RtcpPacket) × (rest : List ℕ) × StandsFirst packets.now p rest }
    ensures { (p : RtcpPacket) (rest : List ℕ) → StandsFirst packets.now p rest
        → result ≡ frame_in p }
{
    let size = WORD_BYTES * (usize::from(BigEndian::read_u16(&packets[2..])) + 1);
    let padding = padding_behind(&packets[..size]);
    Frame {
        count: packets[0] % 32,
        kind: packets[1],
        body: size - WORD_BYTES - padding,
        size,
    }
}

/// How many bytes of padding end this packet, as its last byte says if its header says that there are some.
fn padding_behind(packet: &[u8]) -> usize
    requires { 0 < length packet.now }
    ensures { result ≡ padding_behind packet.now }
{
    if packet[0] / 32 % 2 == 1 {
        usize::from(packet[packet.len() - 1])
    } else {
        0
    }
}
