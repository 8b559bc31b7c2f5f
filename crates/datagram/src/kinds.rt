//! What feedback a datagram of RTCP holds.

ghost use Rattle.std.specs.Prelude.{◌≡◌, List, map};
ghost use Rattle.rtcp_compound.specs.Content.{content_of, packet_content};
ghost use Rattle.rtcp_compound.specs.Fault.{Refuses};
ghost use Rattle.rtcp_compound.specs.Left.{contents_left};
ghost use Rattle.rtcp_compound.specs.Grammar.{ReadsRtcp, RtcpPacket};
ghost use Rattle.rtcp_compound.specs.declared.fault.RtcpFault.{RtcpFault as Fault};
ghost use Rattle.datagram.specs.Counts.{risen};
ghost use Rattle.datagram.specs.Kinds.{is_feedback, kinds_in, no_kinds, one_if};

use rtcp_compound::{PSFB, Packets, RTPFB, RtcpView, split};
use rtcp_feedback::{FMT_NACK, FMT_PLI, FMT_TMMBN, FMT_TMMBR};

/// How many packets of each kind of feedback a datagram holds.
#[derive(Clone, Copy, Debug, PartialEq, Eq)]
pub struct Kinds {
    pub nacks: u64,
    pub plis: u64,
    pub tmmbrs: u64,
    pub tmmbns: u64,
}

impl Kinds {
    ghost use Rattle.std.specs.Prelude.{◌≡◌};
    ghost use Rattle.rtcp_compound.specs.Content.{content_of};
    ghost use Rattle.datagram.specs.Kinds.{kinds_with, no_kinds};

    /// No feedback.
    pub fn none() -> Kinds
        ensures { result ≡ no_kinds }
    {
        Kinds {
            nacks: 0,
            plis: 0,
            tmmbrs: 0,
            tmmbns: 0,
        }
    }

    /// With one packet more.
    pub(crate) fn with(self, packet: RtcpView<'_>) -> Kinds
        ensures { result ≡ kinds_with self (content_of packet.entry) }
    {
        Kinds {
            nacks: count_if(self.nacks, is_feedback(packet, FMT_NACK, RTPFB)),
            plis: count_if(self.plis, is_feedback(packet, FMT_PLI, PSFB)),
            tmmbrs: count_if(self.tmmbrs, is_feedback(packet, FMT_TMMBR, RTPFB)),
            tmmbns: count_if(self.tmmbns, is_feedback(packet, FMT_TMMBN, RTPFB)),
        }
    }
}

/// How many packets of each kind of feedback this datagram of RTCP holds; none if it is no compound (RFC 3550, section 6.1).
pub fn kinds_of(datagram: &[u8]) -> Kinds
    ensures read { (packets : List RtcpPacket) → ReadsRtcp datagram.now packets
        → result ≡ kinds_in (map packet_content packets) }
    ensures none { (fault : Fault) → Refuses datagram.now fault → result ≡ no_kinds }
{
    match split(datagram) {
        Ok(packets) => kinds_among(packets),
        Err(_) => Kinds::none(),
    }
}

/// How many of these packets are of each kind.
fn kinds_among(packets: Packets<'_>) -> Kinds
    ensures { result ≡ kinds_in (contents_left packets.entry) }
{
    let mut kinds = Kinds::none();
    for packet in packets {
        kinds = kinds.with(packet);
    }
    kinds
}

/// A count, with one more if so.
fn count_if(count: u64, is_one: bool) -> u64
    ensures { result ≡ risen count (one_if is_one) }
{
    if is_one {
        count.saturating_add(1)
    } else {
        count
    }
}

/// Whether a packet is feedback of this FMT and type.
fn is_feedback(packet: RtcpView<'_>, fmt: u8, kind: u8) -> bool
    ensures { result ≡ is_feedback fmt kind (content_of packet.entry) }
{
    match packet {
        RtcpView::Feedback {
            fmt: its_fmt,
            kind: its_kind,
            ..
        } => its_fmt == fmt && its_kind == kind,
        RtcpView::Sr { .. } => false,
        RtcpView::Rr { .. } => false,
        RtcpView::Sdes { .. } => false,
        RtcpView::Bye { .. } => false,
        RtcpView::Other { .. } => false,
    }
}
