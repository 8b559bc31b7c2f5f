//! What the machine gives out.

use crate::bytes::Bytes;
use rewrite::Skip;
use rtcp_compound::RtcpFault;
use rtcp_feedback::FbFault;
use rtp_packet::RtpFault;
use settings::RoomFault;

/// One thing that the machine gives out.
#[derive(Drop)]
pub enum Out {
    /// This datagram goes to this endpoint.
    Send { endpoint: u16, bytes: Bytes },
    /// Something was refused; all else stands.
    Refused(Refusal),
    /// A datagram, a tick or a selection came while the ingress had something to do; nothing was done.
    Busy,
    /// The ring of this worker was full: its job is given up.
    Lost(u16),
    /// A packet isn't sent on this leg, and why.
    Skip(u16, Skip),
    /// The packet with this sequence number is wanted again on this leg, and isn't kept any more.
    Miss(u16, u16),
    /// There was nothing to do.
    Idle,
}

/// What was refused, and why.
#[derive(Clone, Copy, Debug, PartialEq, Eq)]
pub enum Refusal {
    Rtp(RtpFault),
    Rtcp(RtcpFault),
    Feedback(FbFault),
    Room(RoomFault),
    Desk(DeskRefusal),
}

/// Why a call of a desk isn't done.
#[derive(Clone, Copy, Debug, PartialEq, Eq)]
pub enum DeskRefusal {
    /// 1: the owner isn't present with the stay that was named.
    NotPresent,
    /// 2: the owner that arrives is present.
    AlreadyPresent,
    /// 3: as many others are present as may be.
    Full,
    /// 4: the desk records no more calls.
    HistoryFull,
}

impl DeskRefusal {
    ghost use Rattle.std.specs.Prelude.{◌≡◌};
    ghost use Rattle.events.specs.Refusals.{desk_number};

    /// Its number: 1 to 4.
    pub fn number(self) -> u8
        ensures { result ≡ desk_number self }
    {
        match self {
            DeskRefusal::NotPresent => 1,
            DeskRefusal::AlreadyPresent => 2,
            DeskRefusal::Full => 3,
            DeskRefusal::HistoryFull => 4,
        }
    }
}
