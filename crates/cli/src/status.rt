//! How a command ends, and why one isn't done.

ghost use Rattle.std.specs.Prelude.{◌≡◌};
ghost use Rattle.std.specs.IoError.{error_kind};
ghost use Rattle.cli.specs.Statuses.{unreadable_at};

use request_text::{LineFault, Refusal};
use std::alloc::AllocError;
use std::io;

/// How a command ended.
#[derive(Clone, Copy, Debug, PartialEq, Eq)]
pub enum Status {
    /// 0: it did what was asked.
    Done,
    /// 1: memory was wanting.
    NoMemory,
    /// 2: the words of the command line ask for nothing.
    CommandLine,
    /// 3: there are no settings in the file.
    Settings,
    /// 4: a line of the input was refused, or what `sfu check` was asked is not so.
    Refused,
    /// 5: a read or a write failed.
    Io,
    /// 5: the unit's socket or its threads can't be had, or failed.
    Socket,
    /// 5: the socket of its control can't be had, or nobody listens there.
    Control,
    /// 5: the file of its record can't be had.
    Record,
    /// 1: what there was to say couldn't be written to the error output, for want of memory.
    UnsaidNoMemory,
    /// 5: what there was to say couldn't be written to the error output.
    UnsaidIo,
}

impl Status {
    ghost use Rattle.std.specs.Prelude.{◌≡◌};
    ghost use Rattle.cli.specs.Statuses.{code_of};

    /// The number that the process exits with.
    pub fn code(self) -> u8
        ensures { result ≡ code_of self }
    {
        match self {
            Status::Done => 0,
            Status::NoMemory | Status::UnsaidNoMemory => 1,
            Status::CommandLine => 2,
            Status::Settings => 3,
            Status::Refused => 4,
            Status::Io | Status::Socket | Status::Control | Status::Record | Status::UnsaidIo => 5,
        }
    }
}

/// Why a command isn't done.
#[derive(Clone, Copy, Debug, PartialEq, Eq)]
pub enum Failure {
    NoMemory,
    Refused { line: u64, fault: LineFault },
    Io,
}

impl From<AllocError> for Failure {
    ghost use Rattle.std.specs.Prelude.{◌≡◌};
    ghost use Rattle.cli.specs.declared.status.Failure.TheVariants.{NoMemory};

    ghost from_gives = { λ _ e. e ≡ NoMemory };

    fn from(_e: AllocError) -> Failure {
        Failure::NoMemory
    }
}

impl From<Refusal> for Failure {
    ghost use Rattle.std.specs.Prelude.{◌≡◌};
    ghost use Rattle.cli.specs.Statuses.{failure_of};

    ghost from_gives = { λ r e. e ≡ failure_of r };

    fn from(refusal: Refusal) -> Failure {
        match refusal {
            Refusal::NoMemory => Failure::NoMemory,
            Refusal::Line { line, fault } => Failure::Refused { line, fault },
        }
    }
}

impl From<io::Error> for Failure {
    ghost use Rattle.std.specs.Prelude.{◌≡◌};
    ghost use Rattle.cli.specs.Statuses.{failure_at};
    ghost use Rattle.std.specs.IoError.{error_kind};

    ghost from_gives = { λ error e. e ≡ failure_at (error_kind error) };

    fn from(error: io::Error) -> Failure {
        if error.kind() == io::ErrorKind::OutOfMemory {
            Failure::NoMemory
        } else {
            Failure::Io
        }
    }
}

/// How a command fails whose file can't be opened or read: as if its line 0 couldn't.
pub fn unreadable(error: &io::Error) -> Failure
    ensures { result ≡ unreadable_at (error_kind error.now) }
{
    if error.kind() == io::ErrorKind::OutOfMemory {
        return Failure::NoMemory;
    }
    Failure::Refused {
        line: 0,
        fault: LineFault::Text,
    }
}
