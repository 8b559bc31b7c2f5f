//! What came of a job.

use thiserror::Error;

/// What a job came to: how many datagrams were sent, how many couldn't be sent, and how many packets weren't, since
/// they are too old or aren't kept any more.
#[derive(Clone, Copy, Debug, Default, PartialEq, Eq)]
pub struct Forwarded {
    pub sent: u64,
    pub failed: u64,
    pub skipped: u64,
    pub missed: u64,
}

/// Why a job was given up.
#[derive(Clone, Copy, Debug, PartialEq, Eq, Error)]
pub enum ForwardFault {
    /// The route table gave no view.
    #[error("no view of the route table")]
    NoView,
    /// There was no memory.
    #[error("no memory")]
    NoMemory,
}

impl ForwardFault {
    ghost use Rattle.std.specs.Prelude.{◌≡◌};
    ghost use Rattle.forwarding.specs.Faults.{fault_number};

    /// Its number: 1 or 2.
    pub fn number(self) -> u8
        ensures { result ≡ fault_number self }
    {
        match self {
            ForwardFault::NoView => 1,
            ForwardFault::NoMemory => 2,
        }
    }
}
