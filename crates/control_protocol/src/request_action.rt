//! What a request leads to.

ghost use Rattle.std.specs.Prelude.{◌≡◌, Some};
ghost use Rattle.control_protocol.specs.RequestActions.{action_for, end_action, why_action};

use crate::answer::Refused;
use crate::records::{RecordKind, Records};
use crate::request::Request;
use ports::{Look, Received};

/// What a request leads to.
#[derive(Clone, Copy, Debug, PartialEq, Eq)]
pub enum RequestAction {
    /// It is refused.
    Refuse(Refused),
    /// It is done by what the unit receives.
    Do(Received),
    /// The totals are asked for.
    Counts,
    /// The room is looked at.
    Look(Look),
    /// What went out on each leg is asked for.
    Legs,
    /// The counts of endpoints and of legs are asked for.
    Metrics,
    /// What reports say of legs and of publishers is asked for.
    Reports,
    /// What was refused of what came is asked for.
    Refusals,
    /// Who came last of those who are nobody is asked for.
    Strangers,
    /// Why the subscriber of this leg sees nothing is asked for, or, if it is `None`, of each leg.
    Why(Option<u16>),
    /// A record begins, for who asked.
    Record,
    /// This record ends.
    EndRecord(RecordKind),
    /// Who asked is told what happens.
    Follow,
    /// Who asked stays.
    Stay,
}

/// What requests go by in a unit.
#[derive(Clone, Copy, Debug, PartialEq, Eq)]
pub struct UnitState {
    /// How many legs and endpoints there are.
    pub legs: u16,
    pub endpoints: u16,
    pub records: Records,
    /// Whether one more may follow what happens.
    pub may_follow: bool,
    /// Whether who asked may stay.
    pub may_stay: bool,
}

/// What the request leads to in a unit of which this is so.
pub fn action_for(request: Request, unit: UnitState) -> RequestAction
    ensures { result ≡ action_for request unit }
{
    match request {
        Request::Select { leg, on } => {
            if leg < unit.legs {
                RequestAction::Do(Received::Select { leg, on })
            } else {
                RequestAction::Refuse(Refused::Leg)
            }
        }
        Request::Present => RequestAction::Look(Look::Presence),
        Request::Legs => RequestAction::Legs,
        Request::Counts => RequestAction::Counts,
        Request::Metrics => RequestAction::Metrics,
        Request::Reports => RequestAction::Reports,
        Request::Refusals => RequestAction::Refusals,
        Request::Strangers => RequestAction::Strangers,
        Request::Record => {
            if unit.records.peer {
                RequestAction::Refuse(Refused::Recorded)
            } else {
                RequestAction::Record
            }
        }
        Request::EndRecord(named) => end_action(unit.records.meant(named)),
        Request::Follow => {
            if unit.may_follow {
                RequestAction::Follow
            } else {
                RequestAction::Refuse(Refused::Full)
            }
        }
        Request::Stay => {
            if unit.may_stay {
                RequestAction::Stay
            } else {
                RequestAction::Refuse(Refused::Full)
            }
        }
        Request::Why(leg) => why_action(leg, unit.legs),
        Request::Show(publisher) => {
            if publisher < unit.endpoints {
                RequestAction::Look(Look::Desk(publisher))
            } else {
                RequestAction::Refuse(Refused::Publisher)
            }
        }
        Request::Stop => RequestAction::Do(Received::Stop),
    }
}

/// What it leads to that a record is to end: this one, if there is one.
fn end_action(meant: Option<RecordKind>) -> RequestAction
    ensures { result ≡ end_action meant }
{
    match meant {
        Some(kind) => RequestAction::EndRecord(kind),
        None => RequestAction::Refuse(Refused::Unrecorded),
    }
}

/// What the question leads to why the subscriber of this leg sees nothing, or of each.
fn why_action(leg: Option<u16>, legs: u16) -> RequestAction
    ensures { result ≡ why_action leg legs }
{
    match leg {
        Some(leg) => why_of_leg(leg, legs),
        None => RequestAction::Why(None),
    }
}

fn why_of_leg(leg: u16, legs: u16) -> RequestAction
    ensures { result ≡ why_action (Some leg) legs }
{
    if leg < legs {
        RequestAction::Why(Some(leg))
    } else {
        RequestAction::Refuse(Refused::Leg)
    }
}
