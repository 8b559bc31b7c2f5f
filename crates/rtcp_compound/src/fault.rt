//! What can be wrong with an RTCP datagram.

use thiserror::Error;

/// Why a datagram is refused (RFC 3550, sections 6.1, 6.4, 6.5 and 6.6): the fault of its first faulty
/// packet, and of several the one of least number.
#[derive(Clone, Copy, Debug, PartialEq, Eq, Error)]
pub enum RtcpFault {
    /// 1: no byte at all, or only 1 to 3 of a header's bytes.
    #[error("shorter than a header")]
    Short,
    /// 2: another version than 2.
    #[error("another version than 2")]
    Version,
    /// 3: the length goes beyond the datagram.
    #[error("a length beyond the datagram")]
    Length,
    /// 4: padding in a packet that isn't the last.
    #[error("padding before the last packet")]
    PaddingNotLast,
    /// 5: a padding of no bytes, of no multiple of four, or of more than the body.
    #[error("a padding that is no padding")]
    Padding,
    /// 6: fewer blocks or sources than counted, or a reason for leaving beyond the body.
    #[error("fewer entries than counted")]
    CountOver,
    /// 7: a chunk, an item or the filling of a source description goes past the body.
    #[error("a source description that doesn't end")]
    SdesUnended,
}

impl RtcpFault {
    ghost use Rattle.std.specs.Prelude.{◌≡◌};
    ghost use Rattle.rtcp_compound.specs.Fault.{rtcp_fault_number};

    /// The fault's number, as texts show it.
    pub fn number(self) -> u8
        ensures { result ≡ rtcp_fault_number self }
    {
        match self {
            RtcpFault::Short => 1,
            RtcpFault::Version => 2,
            RtcpFault::Length => 3,
            RtcpFault::PaddingNotLast => 4,
            RtcpFault::Padding => 5,
            RtcpFault::CountOver => 6,
            RtcpFault::SdesUnended => 7,
        }
    }
}
