//! The packet at the front of a datagram.

ghost use Rattle.std.specs.Prelude.{◌≡◌, ◌≤◌, ◌+◌, ◌<◌, MatchResult, IfOk, Ok, Err, Some, None, length};
ghost use Rattle.rtcp_compound.specs.Grammar.{HasReports, sources_end};
ghost use Rattle.rtcp_compound.specs.Reading.{Gives, IsReadWhole, content_at, padding_in, fault_in, fits_bye, frame_at, packet_at, rtcp_packet_of};

use crate::fault::RtcpFault;
use crate::sdes::after_chunks;
use crate::sizes::{BLOCK_BYTES, SENDER_BYTES, SOURCE_BYTES, WORD_BYTES};
use byteorder::{BigEndian, ByteOrder};

/// Sender report (RFC 3550, section 6.4.1).
pub const SR: u8 = 200;
/// Receiver report (RFC 3550, section 6.4.2).
pub const RR: u8 = 201;
/// Source description (RFC 3550, section 6.5).
pub const SDES: u8 = 202;
/// Goodbye (RFC 3550, section 6.6).
pub const BYE: u8 = 203;
/// Transport layer feedback (RFC 4585, section 6.1).
pub const RTPFB: u8 = 205;
/// Payload-specific feedback (RFC 4585, section 6.1).
pub const PSFB: u8 = 206;

/// A packet without its header (RFC 3550, section 6.4.1).
#[derive(Clone, Copy)]
pub struct Packet<'a> {
    /// The count of entries, or the FMT of feedback; below 32.
    pub count: u8,
    /// The packet type.
    pub kind: u8,
    pub body: &'a [u8],
    pub padding: &'a [u8],
}

/// The packet at the front of the bytes, and the bytes behind it.
#[tactic(auto, using(crate::proofs::FrameLemmas::frame_faulty))]
pub fn read_packet(bytes: &[u8]) -> Result<(Packet<'_>, &[u8]), RtcpFault>
    ensures reads { Gives (λ x. (rtcp_packet_of x.0, x.1.now)) result (packet_at bytes.now) }
    ensures shorter { IfOk result (λ x. length x.1.now + 4 ≤ length bytes.now) }
{
    let (packet, rest) = read_frame(bytes)?;
    check_body(packet.kind, packet.count, packet.body)?;
    Ok((packet, rest))
}

/// The packet at the front of packets that were all read before, and the bytes behind it. Its body isn't looked
/// at again. Refused where nothing is left.
pub fn read_again(bytes: &[u8]) -> Result<(Packet<'_>, &[u8]), RtcpFault>
    requires { IsReadWhole bytes.now }
    ensures reads { Gives (λ x. (rtcp_packet_of x.0, x.1.now)) result (packet_at bytes.now) }
    ensures rest { IfOk result (λ x. IsReadWhole x.1.now) }
    ensures counted { IfOk result (λ x. x.0.count < 32) }
    ensures reports { IfOk result (λ x. HasReports x.0.kind x.0.count x.0.body.now) }
    ensures goodbye { IfOk result (λ x. x.0.kind ≡ BYE
        → sources_end x.0.count ≤ length x.0.body.now) }
{
    read_frame(bytes)
}

/// The packet at the front of the bytes by its header and padding, and the bytes behind it.
#[tactic(auto, using(crate::proofs::BitLemmas::low_five, crate::proofs::BitLemmas::low_one), unfolding(crate::specs::Reading::frame_at))]
fn read_frame(bytes: &[u8]) -> Result<(Packet<'_>, &[u8]), RtcpFault>
    ensures reads { Gives (λ x. (rtcp_packet_of x.0, x.1.now)) result (frame_at bytes.now) }
    ensures shorter { IfOk result (λ x. length x.1.now + 4 ≤ length bytes.now) }
    ensures counted { IfOk result (λ x. x.0.count < 32) }
{
    let (content, rest) = read_content(bytes)?;
    let padding = padding_len((bytes[0] >> 5) & 1 == 1, content)?;
    let (body, padding) = content.split_at(content.len() - padding);
    Ok((
        Packet {
            count: bytes[0] & 0x1f,
            kind: bytes[1],
            body,
            padding,
        },
        rest,
    ))
}

/// What follows the header at the front, as long as the header says, and the bytes behind it.
#[tactic(auto, using(crate::proofs::BitLemmas::low_one), unfolding(crate::specs::Reading::content_at))]
fn read_content(bytes: &[u8]) -> Result<(&[u8], &[u8]), RtcpFault>
    ensures reads { Gives (λ x. (x.0.now, x.1.now)) result (content_at bytes.now) }
    ensures shorter { IfOk result (λ x. length x.1.now + 4 ≤ length bytes.now) }
{
    if bytes.len() < WORD_BYTES {
        return Err(RtcpFault::Short);
    }
    if bytes[0] >> 6 != 2 {
        return Err(RtcpFault::Version);
    }
    let size = WORD_BYTES * (usize::from(BigEndian::read_u16(&bytes[2..])) + 1);
    if bytes.len() < size {
        return Err(RtcpFault::Length);
    }
    if (bytes[0] >> 5) & 1 == 1 && size < bytes.len() {
        return Err(RtcpFault::PaddingNotLast);
    }
    Ok((&bytes[WORD_BYTES..size], &bytes[size..]))
}

/// How many bytes of padding end this, as its last byte says.
#[tactic(auto, unfolding(crate::specs::Reading::padding_in))]
fn padding_len(padded: bool, content: &[u8]) -> Result<usize, RtcpFault>
    ensures reads { Gives (λ x. x) result (padding_in padded content.now) }
    ensures within { IfOk result (λ n. n ≤ length content.now) }
{
    if !padded {
        return Ok(0);
    }
    if content.is_empty() {
        return Err(RtcpFault::Padding);
    }
    let padding = usize::from(content[content.len() - 1]);
    if padding == 0 || padding % WORD_BYTES != 0 || content.len() < padding {
        return Err(RtcpFault::Padding);
    }
    Ok(padding)
}

/// Whether the body holds what its type and count say.
#[tactic(auto, unfolding(crate::specs::Reading::fault_in))]
fn check_body(kind: u8, count: u8, body: &[u8]) -> Result<(), RtcpFault>
    ensures { MatchResult result (λ _. fault_in kind count body.now ≡ None)
        (λ fault. fault_in kind count body.now ≡ Some fault) }
{
    let count = usize::from(count);
    match kind {
        SR if body.len() < SENDER_BYTES + BLOCK_BYTES * count => Err(RtcpFault::CountOver),
        RR if body.len() < SOURCE_BYTES + BLOCK_BYTES * count => Err(RtcpFault::CountOver),
        SDES if after_chunks(count, body).is_none() => Err(RtcpFault::SdesUnended),
        BYE if !fits_bye(count, body) => Err(RtcpFault::CountOver),
        _ => Ok(()),
    }
}

/// Whether so many sources, and the reason where there is one, stand within the body.
fn fits_bye(count: usize, body: &[u8]) -> bool
    requires { count < 256 }
    ensures { result ≡ fits_bye count body.now }
{
    let sources = SOURCE_BYTES * count;
    body.len() == sources
        || sources < body.len() && sources + 1 + usize::from(body[sources]) <= body.len()
}
