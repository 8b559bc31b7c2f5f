//! Under which names RTCP packets say that their sender sends and asks.

ghost use Rattle.std.specs.Prelude.{◌≡◌, List, map};
ghost use Rattle.rtcp_compound.specs.Content.{content_of, packet_content};
ghost use Rattle.rtcp_compound.specs.Fault.{Refuses};
ghost use Rattle.rtcp_compound.specs.Grammar.{ReadsRtcp, RtcpPacket};
ghost use Rattle.rtcp_compound.specs.Left.{contents_left};
ghost use Rattle.rtcp_compound.specs.declared.fault.RtcpFault.{RtcpFault};
ghost use Rattle.seats.specs.Spoken.{asker_in, spoken_by, spoken_in, silent};

use byteorder::{BigEndian, ByteOrder};
use rtcp_compound::{Packets, RtcpView, SOURCE_BYTES, split};
use tmmbr_tuple::Ssrc;

/// The names that a datagram's packets say.
#[derive(Clone, Copy)]
pub(crate) struct Spoken {
    /// The sender of the first sender report (RFC 3550, section 6.4.1).
    pub(crate) sends: Option<Ssrc>,
    /// The sender of the last receiver report or feedback packet (RFC 3550, section 6.4.2; RFC 4585, section 6.1).
    pub(crate) asks: Option<Ssrc>,
}

impl Spoken {
    ghost use Rattle.std.specs.Prelude.{◌≡◌};
    ghost use Rattle.rtcp_compound.specs.Content.{content_of};
    ghost use Rattle.seats.specs.Spoken.{silent, spoken_with};

    /// None.
    fn silent() -> Spoken
        ensures { result ≡ silent }
    {
        Spoken {
            sends: None,
            asks: None,
        }
    }

    /// With one packet more.
    fn with(self, packet: RtcpView<'_>) -> Spoken
        ensures { result ≡ spoken_with self (content_of packet.entry) }
    {
        let more = spoken_by(packet);
        Spoken {
            sends: self.sends.or(more.sends),
            asks: more.asks.or(self.asks),
        }
    }
}

/// The names that a datagram's packets say; none if it joins no packets.
pub(crate) fn spoken_of(datagram: &[u8]) -> Spoken
    ensures joined { (packets : List RtcpPacket) → ReadsRtcp datagram.now packets
        → result ≡ spoken_in (map packet_content packets) }
    ensures refused { (fault : RtcpFault) → Refuses datagram.now fault → result ≡ silent }
{
    match split(datagram) {
        Ok(packets) => spoken_among(packets),
        Err(_) => Spoken::silent(),
    }
}

/// The names that these packets say.
fn spoken_among(packets: Packets<'_>) -> Spoken
    ensures { result ≡ spoken_in (contents_left packets.entry) }
{
    let mut spoken = Spoken::silent();
    for packet in packets {
        spoken = spoken.with(packet);
    }
    spoken
}

/// The names that a packet says.
fn spoken_by(packet: RtcpView<'_>) -> Spoken
    ensures { result ≡ spoken_by (content_of packet.entry) }
{
    match packet {
        RtcpView::Sr { sender, .. } => Spoken {
            sends: Some(sender),
            asks: None,
        },
        RtcpView::Rr { sender, .. } => Spoken {
            sends: None,
            asks: Some(sender),
        },
        RtcpView::Feedback { body, .. } => Spoken {
            sends: None,
            asks: asker_in(body),
        },
        RtcpView::Sdes { .. } => Spoken::silent(),
        RtcpView::Bye { .. } => Spoken::silent(),
        RtcpView::Other { .. } => Spoken::silent(),
    }
}

/// The sender of a feedback packet with this body, if it is long enough to have one.
fn asker_in(body: &[u8]) -> Option<Ssrc>
    ensures { result ≡ asker_in body.now }
{
    if body.len() < SOURCE_BYTES {
        return None;
    }
    Some(Ssrc(BigEndian::read_u32(body)))
}
