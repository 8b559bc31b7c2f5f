//! What can be wrong with the body of a feedback packet.

use thiserror::Error;

/// Why a body is refused (RFC 4585, section 6.1; RFC 5104, section 4.2.1), the one of least number.
#[derive(Clone, Copy, Debug, PartialEq, Eq, Error)]
pub enum FbFault {
    /// 1: shorter than the two sources that each body begins with, of whatever FMT and type.
    #[error("shorter than two sources")]
    Short,
    /// 2: an FCI that doesn't end where an entry ends: of a NACK no multiple of 4 bytes, of a TMMBR or a
    /// TMMBN no multiple of 8.
    #[error("feedback control information that ends within an entry")]
    OddFci,
}

impl FbFault {
    ghost use Rattle.std.specs.Prelude.{◌≡◌};
    ghost use Rattle.rtcp_feedback.specs.Fault.{feedback_fault_number};

    /// The fault's number, as texts show it.
    pub fn number(self) -> u8
        ensures { result ≡ feedback_fault_number self }
    {
        match self {
            FbFault::Short => 1,
            FbFault::OddFci => 2,
        }
    }
}
