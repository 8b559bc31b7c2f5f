//! Why a unit isn't served, or not to its end.

use one_thread::DriveFault;
use operations::WriterFault;
use std::alloc::AllocError;
use std::io;
use thiserror::Error;
use workers::UnitFault;

/// Why a unit isn't served to its end, or its report isn't printed.
#[derive(Clone, Copy, Debug, PartialEq, Eq, Error)]
pub enum ServeFault {
    /// There was no memory.
    #[error("no memory")]
    NoMemory,
    /// The report couldn't be written.
    #[error("a write failed")]
    Io,
    /// The socket or the threads can't be had, or failed.
    #[error("the socket failed")]
    Socket,
}

impl From<AllocError> for ServeFault {
    ghost use Rattle.std.specs.Prelude.{◌≡◌};
    ghost use Rattle.serving.specs.declared.serve_fault.ServeFault.TheVariants.{NoMemory};

    ghost from_gives = { λ _ e. e ≡ NoMemory };

    fn from(_e: AllocError) -> ServeFault {
        ServeFault::NoMemory
    }
}

impl From<io::Error> for ServeFault {
    ghost use Rattle.std.specs.Prelude.{◌≢◌};
    ghost use Rattle.serving.specs.declared.serve_fault.ServeFault.TheVariants.{Socket};

    ghost from_gives = { λ _ e. e ≢ Socket };

    fn from(error: io::Error) -> ServeFault {
        if error.kind() == io::ErrorKind::OutOfMemory {
            ServeFault::NoMemory
        } else {
            ServeFault::Io
        }
    }
}

impl From<UnitFault> for ServeFault {
    ghost use Rattle.std.specs.Prelude.{◌≡◌};
    ghost use Rattle.serving.specs.Serving.{serve_fault_of};

    ghost from_gives = { λ fault e. e ≡ serve_fault_of fault };

    fn from(fault: UnitFault) -> ServeFault {
        match fault {
            UnitFault::NoMemory => ServeFault::NoMemory,
            UnitFault::Receive | UnitFault::Start | UnitFault::Gather => ServeFault::Socket,
        }
    }
}

impl From<DriveFault> for ServeFault {
    ghost use Rattle.std.specs.Prelude.{◌≡◌};
    ghost use Rattle.serving.specs.Serving.{drive_fault_of};

    ghost from_gives = { λ fault e. e ≡ drive_fault_of fault };

    fn from(fault: DriveFault) -> ServeFault {
        match fault {
            DriveFault::NoMemory => ServeFault::NoMemory,
            DriveFault::Receive => ServeFault::Socket,
        }
    }
}

impl From<WriterFault> for ServeFault {
    ghost use Rattle.std.specs.Prelude.{◌≡◌};
    ghost use Rattle.serving.specs.Serving.{writer_fault_of};

    ghost from_gives = { λ fault e. e ≡ writer_fault_of fault };

    fn from(fault: WriterFault) -> ServeFault {
        match fault {
            WriterFault::NoMemory => ServeFault::NoMemory,
            WriterFault::System => ServeFault::Socket,
        }
    }
}
