//! What refuses a datagram or a buffer.

use thiserror::Error;

/// Why a datagram is no RTP packet (RFC 3550, sections 5.1 and 5.3.1), or why one can't be written.
/// Of several causes the one with the least number is shown.
#[derive(Clone, Copy, Debug, PartialEq, Eq, Error)]
pub enum RtpFault {
    /// 1: fewer than the twelve bytes of a header.
    #[error("shorter than a header")]
    Short,
    /// 2: another version than 2.
    #[error("another version than 2")]
    Version,
    /// 3: fewer contributing sources than the header counts.
    #[error("contributing sources beyond the datagram")]
    CsrcShort,
    /// 4: a part of a header extension.
    #[error("a header extension beyond the datagram")]
    ExtensionShort,
    /// 5: the last byte counts no padding: it is part of the header, 0, or above what follows the header.
    #[error("padding that is not counted by its last byte")]
    Padding,
    /// 6: the buffer is shorter than the datagram.
    #[error("a buffer shorter than the datagram")]
    Room,
}

impl RtpFault {
    ghost use Rattle.std.specs.Prelude.{◌≡◌};
    ghost use Rattle.rtp_packet.specs.Fault.{rtp_number};

    /// The fault's number, as texts show it.
    pub fn number(self) -> u8
        ensures { result ≡ rtp_number self }
    {
        match self {
            RtpFault::Short => 1,
            RtpFault::Version => 2,
            RtpFault::CsrcShort => 3,
            RtpFault::ExtensionShort => 4,
            RtpFault::Padding => 5,
            RtpFault::Room => 6,
        }
    }
}
