//! Why what is written down of a unit, or who steers it, can't be had.

/// Why there is no thread that writes.
#[derive(Clone, Copy, PartialEq, Eq)]
pub enum WriterFault {
    NoMemory,
    /// The system has no thread for it, or no socket pair.
    System,
}

/// Why a unit isn't recorded in a file.
#[derive(Clone, Copy, PartialEq, Eq)]
pub enum RecordFault {
    /// A file is there already.
    Exists,
    /// The system doesn't let a file be there, or has no thread for it.
    Failed,
    NoMemory,
}

impl From<WriterFault> for RecordFault {
    ghost use Rattle.std.specs.Prelude.{◌≡◌};
    ghost use Rattle.recording.specs.Faults.{record_fault_of};

    ghost from_gives = { λ fault e. e ≡ record_fault_of fault };

    fn from(fault: WriterFault) -> RecordFault {
        match fault {
            WriterFault::NoMemory => RecordFault::NoMemory,
            WriterFault::System => RecordFault::Failed,
        }
    }
}

/// Why a unit can't be steered at a path. It may be recorded for who steers it.
#[derive(Clone, Copy, PartialEq, Eq)]
pub enum ControlFault {
    /// Somebody listens there, or the file there is no socket.
    InUse,
    /// The system doesn't let a socket be there.
    Failed,
    NoMemory,
}

impl From<RecordFault> for ControlFault {
    ghost use Rattle.std.specs.Prelude.{◌≡◌};
    ghost use Rattle.recording.specs.Faults.{control_fault_of};

    ghost from_gives = { λ fault e. e ≡ control_fault_of fault };

    fn from(fault: RecordFault) -> ControlFault {
        match fault {
            RecordFault::NoMemory => ControlFault::NoMemory,
            RecordFault::Exists | RecordFault::Failed => ControlFault::Failed,
        }
    }
}
