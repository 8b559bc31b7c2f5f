//! What was read of a datagram, as a value that can be handed on.

use events::Refusal;
use rtcp_feedback::Nack;
use rtp_packet::RtpFault;
use shared_packet::PacketParts;
use std::alloc::{AllocError, Global};
use tmmbr_tuple::Ssrc;

/// What an entry of feedback asks for.
#[derive(Clone, Copy, PartialEq, Eq)]
pub enum Ask {
    /// The media source shall send no more than this word says (RFC 5104, section 4.2.1).
    Rate { media: Ssrc, word: u32 },
    /// Packets of the media source were lost (RFC 4585, section 6.2.1).
    Resend { media: Ssrc, nack: Nack },
    /// A picture of the media source was lost (RFC 4585, section 6.3.1).
    Picture { media: Ssrc },
}

/// What a datagram says, but for what it asks for.
#[derive(Clone, Copy)]
pub enum What {
    /// An RTP packet.
    Media(Media),
    /// A goodbye of the endpoint's own source (RFC 3550, section 6.6); all else of the datagram is
    /// passed over.
    Goodbye,
    /// Any other RTCP packets.
    Control(Control),
    /// Nothing that counts: it has a fault. The first one of the RTP packet, of the RTCP datagram, else of its first faulty feedback packet.
    Refused(Refusal),
}

/// What is said by an RTP packet (RFC 3550, section 5.1).
#[derive(Clone, Copy)]
pub struct Media {
    pub ssrc: Ssrc,
    pub timestamp: u32,
    pub parts: PacketParts,
}

/// What RTCP packets say, but for what they ask for.
#[derive(Clone, Copy, PartialEq, Eq)]
pub struct Control {
    /// The first sender of a report or of feedback that isn't the endpoint's own source, else that.
    pub speaker: Ssrc,
    /// The last sender report's NTP and RTP timestamps, if there is one (RFC 3550, section 6.4.1).
    pub report: Option<(u64, u32)>,
    /// How many TMMBNs there are (RFC 5104, section 4.2.2).
    pub tmmbns: u64,
}

/// Who sent a datagram, and when it came.
#[derive(Clone, Copy, PartialEq, Eq)]
pub struct Sent {
    /// In milliseconds since the run began.
    pub moment: u64,
    /// The number of the endpoint.
    pub endpoint: u16,
    /// The endpoint's own source.
    pub own: Ssrc,
}

/// What was read of a datagram. It is read into one `Reading` again and again, so that what datagrams ask for takes no memory once there
/// was room for the most of it.
#[derive(Drop)]
pub struct Reading {
    pub what: What,
    /// In the order of packets and entries.
    pub asks: Vec<Ask>,
    /// Who speaks if only sender reports say so: the first sender of one that isn't the endpoint's own source, else that.
    pub clocked: Ssrc,
    /// How many entries were passed over, beyond those that may be asked for.
    pub beyond: u64,
}

/// What no bytes at all say.
const NOTHING: What = What::Refused(Refusal::Rtp(RtpFault::Short));

impl Reading {
    ghost use Rattle.std.specs.Prelude.{◌≡◌, IfOk};
    ghost use Rattle.datagram.specs.Reads.{IsUnread, admission_of};

    /// What is read of no bytes at all. It takes no memory.
    pub fn new(alloc: Global) -> Reading
        ensures { IsUnread result }
    {
        Reading {
            what: NOTHING,
            asks: Vec::new(alloc),
            clocked: Ssrc(0),
            beyond: 0,
        }
    }

    /// The same, with room for so much that is asked for.
    pub fn with_room(alloc: Global, asks: usize) -> Result<Reading, AllocError>
        ensures { IfOk result IsUnread }
    {
        Ok(Reading {
            what: NOTHING,
            asks: Vec::with_capacity(alloc, asks)?,
            clocked: Ssrc(0),
            beyond: 0,
        })
    }

    /// As what it is taken in, if these are the bytes that were read.
    pub fn taking<'a>(&'a self, endpoint: u16, bytes: &'a [u8]) -> Taking<'a>
        ensures { admission_of result ≡ record {
          endpoint = endpoint;
          what = self.now.what;
          asks = self.now.asks.items;
          bytes = bytes.now;
        } }
    {
        Taking {
            endpoint,
            what: self.what,
            asks: self.asks.as_slice(),
            bytes,
        }
    }
}

/// What is taken in of an endpoint: what a datagram of it says, what it asks for, and the bytes of a packet.
#[derive(Clone, Copy)]
pub struct Taking<'a> {
    pub endpoint: u16,
    pub what: What,
    pub asks: &'a [Ask],
    /// The datagram, if it is a packet. Of RTCP packets nobody looks at it.
    pub bytes: &'a [u8],
}
