//! What a desk refuses is told to the sink.

ghost use Rattle.std.specs.Prelude.{◌≡◌};
ghost use Rattle.forwarding.specs.Refusing.{refusal_by, refusal_in};

use desk::Answer;
use events::{DeskRefusal, Refusal};
use ports::Sink;
use rate_desk::HouseFault;

/// Why a desk that answered this refused the call, if it did.
pub(crate) fn refusal_in(answer: &Answer) -> Option<DeskRefusal>
    ensures { result ≡ refusal_in answer.now }
{
    match answer {
        Answer::Done { .. } => None,
        Answer::NotPresent(_) => Some(DeskRefusal::NotPresent),
        Answer::AlreadyPresent(_) => Some(DeskRefusal::AlreadyPresent),
        Answer::Full => Some(DeskRefusal::Full),
    }
}

/// Why a desk refused a call that it didn't record, if it did: a seat that is ahead of its desk is no refusal of the desk's.
pub(crate) fn refusal_by(fault: HouseFault) -> Option<DeskRefusal>
    ensures { result ≡ refusal_by fault }
{
    match fault {
        HouseFault::HistoryFull => Some(DeskRefusal::HistoryFull),
        HouseFault::Behind(_) => None,
    }
}

/// Tells the sink what a desk refused, of a datagram of this endpoint.
pub(crate) fn tell_refusal<S: Sink>(
    endpoint: Option<u16>,
    refusal: Option<DeskRefusal>,
    sink: &mut S,
)
    ensures { S.shown sink.new ≡ S.shown sink.old }
{
    match refusal {
        Some(refusal) => sink.refused(endpoint, Refusal::Desk(refusal)),
        None => {}
    }
}
