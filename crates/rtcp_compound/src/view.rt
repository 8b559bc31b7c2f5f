//! What a packet says, by its type.

ghost use Rattle.std.specs.Prelude.{◌≡◌, ◌≤◌, ◌<◌, length};
ghost use Rattle.rtcp_compound.specs.Content.{content_of, packet_content};
ghost use Rattle.rtcp_compound.specs.Grammar.{HasReports, sources_end};
ghost use Rattle.rtcp_compound.specs.Reading.{rtcp_packet_of};

use crate::bye::Sources;
use crate::packet::{BYE, PSFB, Packet, RR, RTPFB, SDES, SR};
use crate::report::Blocks;
use crate::sizes::{BLOCK_BYTES, SENDER_BYTES, SOURCE_BYTES};
use byteorder::{BigEndian, ByteOrder};
use tmmbr_tuple::Ssrc;

/// A packet of a datagram, without its header and padding; the parts are slices of the datagram. What
/// stands behind the last block, chunk or source that is counted is ignored.
#[derive(Clone, Copy)]
pub enum RtcpView<'a> {
    /// A sender report (RFC 3550, section 6.4.1): its sender, the NTP timestamp in 2^-32 seconds, the
    /// RTP timestamp, the packets and payload octets sent, and its blocks.
    Sr {
        sender: Ssrc,
        ntp: u64,
        rtp: u32,
        packets: u32,
        octets: u32,
        blocks: Blocks<'a>,
    },
    /// A receiver report (RFC 3550, section 6.4.2): its sender, and its blocks.
    Rr {
        sender: Ssrc,
        blocks: Blocks<'a>,
    },
    /// A source description (RFC 3550, section 6.5): how many chunks, and the bytes that begin with them.
    Sdes {
        count: u8,
        chunks: &'a [u8],
    },
    /// A goodbye (RFC 3550, section 6.6): the sources that leave.
    Bye {
        sources: Sources<'a>,
    },
    /// Feedback of the transport layer, 205, or about the payload, 206 (RFC 4585, section 6.1): its FMT,
    /// its packet type, and its body from the sender on.
    Feedback {
        fmt: u8,
        kind: u8,
        body: &'a [u8],
    },
    /// A packet of another type, as it stands.
    Other {
        count: u8,
        kind: u8,
        body: &'a [u8],
    },
}

/// What a packet says.
#[tactic(auto, unfolding(crate::specs::Content::packet_content))]
pub fn view_of(packet: Packet<'_>) -> RtcpView<'_>
    requires counted { packet.count < 32 }
    requires reports { HasReports packet.kind packet.count packet.body.now }
    requires goodbye { packet.kind ≡ BYE → sources_end packet.count ≤ length packet.body.now }
    ensures { content_of result ≡ packet_content (rtcp_packet_of packet.entry) }
{
    let Packet {
        count,
        kind,
        body,
        ..
    } = packet;
    let entries = usize::from(count);
    match kind {
        SR => RtcpView::Sr {
            sender: Ssrc(BigEndian::read_u32(body)),
            ntp: BigEndian::read_u64(&body[4..]),
            rtp: BigEndian::read_u32(&body[12..]),
            packets: BigEndian::read_u32(&body[16..]),
            octets: BigEndian::read_u32(&body[20..]),
            blocks: Blocks {
                bytes: &body[SENDER_BYTES..SENDER_BYTES + BLOCK_BYTES * entries],
            },
        },
        RR => RtcpView::Rr {
            sender: Ssrc(BigEndian::read_u32(body)),
            blocks: Blocks {
                bytes: &body[SOURCE_BYTES..SOURCE_BYTES + BLOCK_BYTES * entries],
            },
        },
        SDES => RtcpView::Sdes {
            count,
            chunks: body,
        },
        BYE => RtcpView::Bye {
            sources: Sources {
                bytes: &body[..SOURCE_BYTES * entries],
            },
        },
        RTPFB | PSFB => RtcpView::Feedback {
            fmt: count,
            kind,
            body,
        },
        _ => RtcpView::Other { count, kind, body },
    }
}
