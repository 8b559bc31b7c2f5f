//! Why what came was refused: what refused it, the reason's number, and the reason in words.

ghost use Rattle.std.specs.Prelude.{◌≡◌};
ghost use Rattle.stats.specs.Refusals.{kind_word, reason_number, reason_words};

use events::{DeskRefusal, Refusal};
use rtcp_compound::RtcpFault;
use rtcp_feedback::FbFault;
use rtp_packet::RtpFault;
use settings::RoomFault;

/// How often something was refused for this reason of what came from an endpoint.
#[derive(Clone, Copy, PartialEq, Eq)]
pub struct RefusedCount {
    /// Whose datagrams it came of; `None` if it came of none.
    pub endpoint: Option<u16>,
    pub refusal: Refusal,
    pub count: u64,
}

/// Each reason, by what refuses and by its number.
pub(crate) const REFUSALS: [Refusal; 24] = [
    Refusal::Rtp(RtpFault::Short),
    Refusal::Rtp(RtpFault::Version),
    Refusal::Rtp(RtpFault::CsrcShort),
    Refusal::Rtp(RtpFault::ExtensionShort),
    Refusal::Rtp(RtpFault::Padding),
    Refusal::Rtp(RtpFault::Room),
    Refusal::Rtcp(RtcpFault::Short),
    Refusal::Rtcp(RtcpFault::Version),
    Refusal::Rtcp(RtcpFault::Length),
    Refusal::Rtcp(RtcpFault::PaddingNotLast),
    Refusal::Rtcp(RtcpFault::Padding),
    Refusal::Rtcp(RtcpFault::CountOver),
    Refusal::Rtcp(RtcpFault::SdesUnended),
    Refusal::Feedback(FbFault::Short),
    Refusal::Feedback(FbFault::OddFci),
    Refusal::Room(RoomFault::UnknownEndpoint),
    Refusal::Room(RoomFault::WrongSsrc),
    Refusal::Room(RoomFault::UnknownLeg),
    Refusal::Room(RoomFault::StaysSpent),
    Refusal::Room(RoomFault::NoMemory),
    Refusal::Desk(DeskRefusal::NotPresent),
    Refusal::Desk(DeskRefusal::AlreadyPresent),
    Refusal::Desk(DeskRefusal::Full),
    Refusal::Desk(DeskRefusal::HistoryFull),
];

/// What refused it.
pub(crate) fn kind_word(refusal: Refusal) -> &'static str
    ensures { result.now ≡ kind_word refusal }
{
    match refusal {
        Refusal::Rtp(_) => "rtp",
        Refusal::Rtcp(_) => "rtcp",
        Refusal::Feedback(_) => "feedback",
        Refusal::Room(_) => "room",
        Refusal::Desk(_) => "desk",
    }
}

/// The number of the reason, which counts those of a kind from 1 on.
pub(crate) fn reason_number(refusal: Refusal) -> u8
    ensures { result ≡ reason_number refusal }
{
    match refusal {
        Refusal::Rtp(fault) => fault.number(),
        Refusal::Rtcp(fault) => fault.number(),
        Refusal::Feedback(fault) => fault.number(),
        Refusal::Room(fault) => fault.number(),
        Refusal::Desk(refusal) => refusal.number(),
    }
}

/// The reason for people.
pub(crate) fn reason_words(refusal: Refusal) -> &'static str
    ensures { result.now ≡ reason_words refusal }
{
    match refusal {
        Refusal::Rtp(fault) => rtp_words(fault),
        Refusal::Rtcp(fault) => rtcp_words(fault),
        Refusal::Feedback(FbFault::Short) => "feedback shorter than its two sources",
        Refusal::Feedback(FbFault::OddFci) => "feedback that ends within an entry",
        Refusal::Room(fault) => room_words(fault),
        Refusal::Desk(refusal) => desk_words(refusal),
    }
}

/// What is wrong with an RTP packet.
fn rtp_words(fault: RtpFault) -> &'static str
    ensures { result.now ≡ reason_words (Refusal.Rtp fault) }
{
    match fault {
        RtpFault::Short => "an RTP packet shorter than its header",
        RtpFault::Version => "an RTP packet of another version than 2",
        RtpFault::CsrcShort => "an RTP packet with fewer contributing sources than it counts",
        RtpFault::ExtensionShort => "an RTP packet that ends within its header extension",
        RtpFault::Padding => "an RTP packet that miscounts its padding",
        RtpFault::Room => "a buffer shorter than the RTP packet",
    }
}

/// What is wrong with an RTCP packet.
fn rtcp_words(fault: RtcpFault) -> &'static str
    ensures { result.now ≡ reason_words (Refusal.Rtcp fault) }
{
    match fault {
        RtcpFault::Short => "an RTCP packet shorter than its header",
        RtcpFault::Version => "an RTCP packet of another version than 2",
        RtcpFault::Length => "an RTCP packet longer than the datagram",
        RtcpFault::PaddingNotLast => "padding of an RTCP packet that isn't the last",
        RtcpFault::Padding => "an RTCP packet that miscounts its padding",
        RtcpFault::CountOver => "an RTCP packet with fewer entries than it counts",
        RtcpFault::SdesUnended => "a source description that doesn't end",
    }
}

/// Why the room refuses.
fn room_words(fault: RoomFault) -> &'static str
    ensures { result.now ≡ reason_words (Refusal.Room fault) }
{
    match fault {
        RoomFault::UnknownEndpoint => "no such endpoint",
        RoomFault::WrongSsrc => "an SSRC that isn't the endpoint's",
        RoomFault::UnknownLeg => "no such leg, or no stay on it",
        RoomFault::StaysSpent => "no number left for a stay",
        RoomFault::NoMemory => "no memory",
    }
}

/// Why a publisher's desk refuses.
fn desk_words(refusal: DeskRefusal) -> &'static str
    ensures { result.now ≡ reason_words (Refusal.Desk refusal) }
{
    match refusal {
        DeskRefusal::NotPresent => "a subscriber that isn't there with this stay",
        DeskRefusal::AlreadyPresent => "a subscriber that comes and is there already",
        DeskRefusal::Full => "a desk with as many subscribers as there may be",
        DeskRefusal::HistoryFull => "a desk that has no call left",
    }
}
