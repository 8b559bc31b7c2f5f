//! What feedback packets have in common (RFC 4585, section 6.1).

ghost use Rattle.std.specs.Prelude.{◌≡◌, ◌+◌, ◌≤◌, ◌<◌, ◌++◌, length, vec_len, vec_capacity};
ghost use Rattle.byteorder.specs.Endian.{big_bytes};
ghost use Rattle.rtcp_feedback.specs.Writing.{front_bytes};

use byteorder::{BigEndian, ByteOrder};
use std::alloc::Allocator;
use tmmbr_tuple::Ssrc;

/// The type of transport layer feedback, RTPFB (RFC 4585, section 6.1).
pub const RTPFB: u8 = 205;
/// The type of payload-specific feedback, PSFB (RFC 4585, section 6.1).
pub const PSFB: u8 = 206;

/// The FMT of a generic NACK, in RTPFB (RFC 4585, section 6.2.1).
pub const FMT_NACK: u8 = 1;
/// The FMT of a picture loss indication, in PSFB (RFC 4585, section 6.3.1).
pub const FMT_PLI: u8 = 1;
/// The FMT of a request for a greatest rate, in RTPFB (RFC 5104, section 4.2.1).
pub const FMT_TMMBR: u8 = 3;
/// The FMT of the notification of such requests, in RTPFB (RFC 5104, section 4.2.2).
pub const FMT_TMMBN: u8 = 4;

/// The length in bytes of a header, which is a word of 32 bits (RFC 4585, section 6.1).
const HEADER_BYTES: usize = 4;
/// The length in bytes of the two sources that a body begins with, a word each (RFC 4585, section 6.1).
pub const SOURCES_BYTES: usize = 8;
/// The length in bytes of a packet's front, a header and these sources.
pub const FRONT_BYTES: usize = HEADER_BYTES + SOURCES_BYTES;

/// Appends the front of a packet without padding, which has so many words after its header.
pub fn put_front<A: Allocator>(
    out: &mut Vec<u8, A>,
    fmt: u8,
    kind: u8,
    words: u16,
    sender: Ssrc,
    media: Ssrc,
)
    requires fmt { fmt < 32 }
    requires room { vec_len out.old + 12 ≤ vec_capacity out.old }
    ensures items { out.new.items ≡ out.old.items ++ front_bytes fmt kind words sender.0 media.0 }
    ensures len { vec_len out.new ≡ vec_len out.old + 12 }
    ensures capacity { vec_capacity out.old ≤ vec_capacity out.new }
{
    let mut length = [0; 2];
    BigEndian::write_u16(&mut length, words);
    put(out, &[0x80 + fmt, kind, length[0], length[1]]);
    put_u32(out, sender.0);
    put_u32(out, media.0);
}

/// Appends a number in 32 bits, for which there is room.
pub fn put_u32<A: Allocator>(out: &mut Vec<u8, A>, number: u32)
    requires { vec_len out.old + 4 ≤ vec_capacity out.old }
    ensures items { out.new.items ≡ out.old.items ++ big_bytes 4 number }
    ensures len { vec_len out.new ≡ vec_len out.old + 4 }
    ensures capacity { vec_capacity out.old ≤ vec_capacity out.new }
{
    let mut bytes = [0; 4];
    BigEndian::write_u32(&mut bytes, number);
    put(out, &bytes);
}

/// Appends a number in 16 bits, for which there is room.
pub fn put_u16<A: Allocator>(out: &mut Vec<u8, A>, number: u16)
    requires { vec_len out.old + 2 ≤ vec_capacity out.old }
    ensures items { out.new.items ≡ out.old.items ++ big_bytes 2 number }
    ensures len { vec_len out.new ≡ vec_len out.old + 2 }
    ensures capacity { vec_capacity out.old ≤ vec_capacity out.new }
{
    let mut bytes = [0; 2];
    BigEndian::write_u16(&mut bytes, number);
    put(out, &bytes);
}

/// Appends bytes that there is room for, so that no memory is asked for.
fn put<A: Allocator>(out: &mut Vec<u8, A>, bytes: &[u8])
    requires { vec_len out.old + length bytes.now ≤ vec_capacity out.old }
    ensures items { out.new.items ≡ out.old.items ++ bytes.now }
    ensures len { vec_len out.new ≡ vec_len out.old + length bytes.now }
    ensures capacity { vec_capacity out.old ≤ vec_capacity out.new }
{
    let _ = out.extend_from_slice(bytes);
}
