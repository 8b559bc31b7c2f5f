//! Which source a datagram names.

ghost use Rattle.std.specs.Prelude.{◌≡◌, ◌+◌, ◌^◌, ◌<◌, ◌≤◌, length};
ghost use Rattle.datagram.specs.Naming.{heard_size, number_at, source_named};

use byteorder::{BigEndian, ByteOrder};
use rtcp_compound::{WORD_BYTES, is_rtcp};

/// Where the source stands in an RTP packet (RFC 3550, section 5.1).
const RTP_SOURCE: usize = 8;

/// The source that a datagram names: of RTP its SSRC (RFC 3550, section 5.1), of RTCP the first word of its first packet, which is
/// the sender of a report or of feedback, and the first source of a description or a goodbye (RFC 3550, section 6; RFC 4585,
/// section 6.1). `None` if the datagram, or the packet, ends before it.
pub fn source_named(datagram: &[u8]) -> Option<u32>
    ensures { result ≡ source_named datagram.now }
{
    if !is_rtcp(datagram) {
        return number_at(datagram, RTP_SOURCE);
    }
    if first_size(datagram) < 2 * WORD_BYTES {
        return None;
    }
    number_at(datagram, WORD_BYTES)
}

/// How many bytes the first packet has, by its header; no more than there are.
pub fn first_size(datagram: &[u8]) -> usize
    ensures size { result ≡ heard_size datagram.now }
    ensures within { result ≤ length datagram.now }
    ensures some { 0 < length datagram.now → 0 < result }
{
    if datagram.len() < WORD_BYTES {
        return datagram.len();
    }
    let size = WORD_BYTES * (usize::from(BigEndian::read_u16(&datagram[2..])) + 1);
    size.min(datagram.len())
}

/// The number in the four bytes from here on, if they are there.
fn number_at(bytes: &[u8], place: usize) -> Option<u32>
    requires { place + 4 < 2 ^ 64 }
    ensures { result ≡ number_at place bytes.now }
{
    if bytes.len() < place + WORD_BYTES {
        return None;
    }
    Some(BigEndian::read_u32(&bytes[place..]))
}
