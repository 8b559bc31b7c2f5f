//! What refuses a line of input.

use rtcp_compound::RtcpFault;
use rtcp_feedback::FbFault;
use thiserror::Error;

/// Why a line of `sfu bound` or of a file of `sfu check` is refused.
#[derive(Clone, Copy, Debug, PartialEq, Eq, Error)]
pub enum LineFault {
    #[error("no hexadecimal digits in pairs")]
    Hex,
    #[error("no RTCP datagram: {0}")]
    Rtcp(RtcpFault),
    #[error("no feedback packet: {0}")]
    Feedback(FbFault),
    #[error("as many requests are live as may be")]
    Full,
    #[error("no line of a certificate")]
    Text,
}
