//! What can be wrong with settings, and with a call of a room.

ghost use Rattle.std.specs.Prelude.{◌≡◌};
ghost use Rattle.settings.specs.declared.fault.RoomFault.TheVariants.{NoMemory};

use std::alloc::AllocError;
use std::fmt;
use thiserror::Error;

/// A key of the settings.
#[derive(Clone, Copy, Debug, PartialEq, Eq)]
pub enum Key {
    Cname,
    Endpoint,
    FirstSeq,
    History,
    Leg,
    OutSsrc,
    PliGapMs,
    Publisher,
    ReportMs,
    ReportSlots,
    RequestMs,
    Ring,
    Ssrc,
    Subscriber,
    TimeoutMs,
    UnitSsrc,
    Workers,
}

impl Key {
    ghost use Rattle.std.specs.Prelude.{◌≡◌};
    ghost use Rattle.settings.specs.Fault.{key_name};

    /// The key as settings spell it.
    pub fn name(self) -> &'static str
        ensures { result.now ≡ key_name self }
    {
        match self {
            Key::Cname => "cname",
            Key::Endpoint => "endpoint",
            Key::FirstSeq => "first_seq",
            Key::History => "history",
            Key::Leg => "leg",
            Key::OutSsrc => "out_ssrc",
            Key::PliGapMs => "pli_gap_ms",
            Key::Publisher => "publisher",
            Key::ReportMs => "report_ms",
            Key::ReportSlots => "report_slots",
            Key::RequestMs => "request_ms",
            Key::Ring => "ring",
            Key::Ssrc => "ssrc",
            Key::Subscriber => "subscriber",
            Key::TimeoutMs => "timeout_ms",
            Key::UnitSsrc => "unit_ssrc",
            Key::Workers => "workers",
        }
    }
}

impl fmt::Display for Key {
    fn fmt<W: fmt::Write>(&self, f: &mut fmt::Formatter<W>) -> fmt::Result {
        f.write_str(self.name())
    }
}

/// Why settings are refused: the first fault by the order of the checks, which is that of the keys' names,
/// then the endpoints, then the legs, each key by key, then the sources together.
#[derive(Clone, Copy, Debug, PartialEq, Eq, Error)]
pub enum SettingsFault {
    /// 1: a key is missing or out of its range.
    #[error("{0}")]
    Top(Key),
    /// 2: a key of the endpoint of this number.
    #[error("endpoint {0} {1}")]
    Endpoint(usize, Key),
    /// 3: a key of the leg of this number.
    #[error("leg {0} {1}")]
    Leg(usize, Key),
    /// 4: two of the unit, the endpoints and the legs have one source.
    #[error("ssrc")]
    SameSsrc,
    /// 5: no memory was left.
    #[error("no memory")]
    NoMemory,
}

impl SettingsFault {
    ghost use Rattle.std.specs.Prelude.{◌≡◌};
    ghost use Rattle.settings.specs.Fault.{settings_fault_number};

    /// The fault's number, as texts show it.
    pub fn number(self) -> u8
        ensures { result ≡ settings_fault_number self }
    {
        match self {
            SettingsFault::Top(_) => 1,
            SettingsFault::Endpoint(_, _) => 2,
            SettingsFault::Leg(_, _) => 3,
            SettingsFault::SameSsrc => 4,
            SettingsFault::NoMemory => 5,
        }
    }
}

/// Why a call of a room is refused. It changed nothing then.
#[derive(Clone, Copy, Debug, PartialEq, Eq, Error)]
pub enum RoomFault {
    /// 1: there is no such endpoint.
    #[error("no such endpoint")]
    UnknownEndpoint,
    /// 2: the source isn't the endpoint's.
    #[error("another source than the endpoint's")]
    WrongSsrc,
    /// 3: there is no such leg.
    #[error("no such leg")]
    UnknownLeg,
    /// 4: the numbers of stays and turns are spent.
    #[error("the numbers of stays are spent")]
    StaysSpent,
    /// 5: no memory was left.
    #[error("no memory")]
    NoMemory,
}

impl RoomFault {
    ghost use Rattle.std.specs.Prelude.{◌≡◌};
    ghost use Rattle.settings.specs.Fault.{room_fault_number};

    /// The fault's number, as texts show it.
    pub fn number(self) -> u8
        ensures { result ≡ room_fault_number self }
    {
        match self {
            RoomFault::UnknownEndpoint => 1,
            RoomFault::WrongSsrc => 2,
            RoomFault::UnknownLeg => 3,
            RoomFault::StaysSpent => 4,
            RoomFault::NoMemory => 5,
        }
    }
}

impl From<AllocError> for RoomFault {
    ghost from_gives = { λ _ fault. fault ≡ NoMemory };

    fn from(_error: AllocError) -> RoomFault {
        RoomFault::NoMemory
    }
}
