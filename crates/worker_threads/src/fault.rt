//! Why a run ended before its turns did.

use rate_desk::GatherFault;
use routes::RoutesFault;
use std::alloc::AllocError;
use thiserror::Error;

/// Why a run of the unit has no report. All threads that were started have ended.
#[derive(Clone, Copy, Debug, PartialEq, Eq, Error)]
pub enum UnitFault {
    /// 1: there was no memory, for the unit itself or in its ingress.
    #[error("no memory")]
    NoMemory,
    /// 2: as many receives in a row failed as may not.
    #[error("receives fail")]
    Receive,
    /// 3: no thread could be started, or a reader of the routes found no place.
    #[error("a worker can't start")]
    Start,
    /// 4: the desks of the house and the counts of its seats don't agree.
    #[error("the desks' counts differ")]
    Gather,
}

impl UnitFault {
    ghost use Rattle.std.specs.Prelude.{◌≡◌};
    ghost use Rattle.worker_threads.specs.UnitFaults.{unit_fault_number};

    /// Its number: 1 to 4.
    pub fn number(self) -> u8
        ensures { result ≡ unit_fault_number self }
    {
        match self {
            UnitFault::NoMemory => 1,
            UnitFault::Receive => 2,
            UnitFault::Start => 3,
            UnitFault::Gather => 4,
        }
    }
}

impl From<AllocError> for UnitFault {
    ghost use Rattle.std.specs.Prelude.{◌≡◌};
    ghost use Rattle.worker_threads.specs.declared.fault.UnitFault.TheVariants.{NoMemory};

    ghost from_gives = { λ _ fault. fault ≡ NoMemory };

    fn from(_: AllocError) -> UnitFault {
        UnitFault::NoMemory
    }
}

impl From<RoutesFault> for UnitFault {
    ghost use Rattle.std.specs.Prelude.{◌≡◌};
    ghost use Rattle.worker_threads.specs.UnitFaults.{fault_of_routes};

    ghost from_gives = { λ of fault. fault ≡ fault_of_routes of };

    fn from(fault: RoutesFault) -> UnitFault {
        match fault {
            RoutesFault::NoPlace => UnitFault::Start,
            RoutesFault::NoMemory => UnitFault::NoMemory,
        }
    }
}

impl From<GatherFault> for UnitFault {
    ghost use Rattle.std.specs.Prelude.{◌≡◌};
    ghost use Rattle.worker_threads.specs.UnitFaults.{fault_of_gathering};

    ghost from_gives = { λ of fault. fault ≡ fault_of_gathering of };

    fn from(fault: GatherFault) -> UnitFault {
        match fault {
            GatherFault::NoMemory => UnitFault::NoMemory,
            GatherFault::Differs(_)
            | GatherFault::Twice(_)
            | GatherFault::Folded(_)
            | GatherFault::Seats(_)
            | GatherFault::Totals(_) => UnitFault::Gather,
        }
    }
}
