//! The calls of desks: whom a job asks and for what, and what is to be told of an answer.

ghost use Rattle.std.specs.Prelude.{◌≡◌, IfSome, Some, None, option_map, if◌then◌else◌};
ghost use Rattle.desk.specs.declared.effect.Effect.{Effect as TheEffect};
ghost use Rattle.desk.specs.Call.{HasStay};
ghost use Rattle.desk_calls.specs.DeskCalls.{source_of, stay_call, picture_call, asks_by, AsksOf, IsCallable};
ghost use Rattle.desk_calls.specs.Notification.{tells, pending_with, told_of};

use crate::notification::Notification;
use desk::{Answer, Call, Change, Effect, Signal};
use events::Job;
use settings::Links;
use tmmbr_tuple::{Ssrc, Tuple};

/// What a publisher's desk is asked: a call, by the leg whose subscriber asks for a rate, where one does.
#[derive(Clone, Copy, PartialEq, Eq)]
pub struct Question {
    /// The number of the publisher.
    pub publisher: u16,
    pub asked_by: Option<u16>,
    pub call: Call,
}

/// Whom a job asks.
pub enum Asks {
    /// A publisher's desk.
    Desk(Question),
    /// A leg or a stay that isn't there.
    Nobody,
    /// The worker's legs.
    Legs,
}

/// Whom the job asks.
pub fn asked_by(links: &Links, job: &Job) -> Asks
    ensures value { AsksOf links.now job.now result }
    ensures stay { IsCallable result }
{
    match job {
        Job::Request { leg, stay, word } => {
            let change = Change::Request(Tuple::from_word(*word));
            asks_by(Some(*leg), stay_call(links, *leg, *stay, change))
        }
        Job::Pli { leg, moment } => asks_by(None, picture_call(links, *leg, *moment)),
        Job::Packet { .. } => Asks::Legs,
        Job::Resend { .. } => Asks::Legs,
        Job::Report { .. } => Asks::Legs,
        Job::Goodbye { .. } => Asks::Legs,
    }
}

/// The call of a desk, where there is one, by this leg where a rate is asked for.
fn asks_by(leg: Option<u16>, called: Option<(u16, Call)>) -> Asks
    requires { IfSome called (λ c. HasStay c.1) }
    ensures value { result ≡ asks_by leg called }
    ensures stay { IsCallable result }
{
    match called {
        Some((publisher, call)) => Asks::Desk(Question {
            publisher,
            asked_by: leg,
            call,
        }),
        None => Asks::Nobody,
    }
}

/// The publisher of a leg, and what its subscriber asks it for in a stay; `None` where there is no such leg, or the stay
/// is 0.
pub fn stay_call(links: &Links, leg: u16, stay: u64, change: Change) -> Option<(u16, Call)>
    ensures value { result ≡ stay_call links.now leg stay change }
    ensures stay { IfSome result (λ c. HasStay c.1) }
{
    if stay == 0 {
        return None;
    }
    let link = links.leg(leg)?;
    let owner = source_of(links, link.subscriber);
    Some((
        link.publisher,
        Call::Stay {
            owner,
            stay,
            change,
        },
    ))
}

/// The source of an endpoint.
#[tactic(auto, using(crate::proofs::CallLemmas::source_read))]
fn source_of(links: &Links, endpoint: u16) -> Ssrc
    ensures { result ≡ source_of links.now endpoint }
{
    links.ssrc_of(endpoint).unwrap_or(Ssrc(0))
}

/// The publisher of a leg, and that a picture of it is wanted; `None` where there is no such leg.
pub fn picture_call(links: &Links, leg: u16, moment: u64) -> Option<(u16, Call)>
    ensures value { result ≡ picture_call links.now leg moment }
    ensures stay { IfSome result (λ c. HasStay c.1) }
{
    let link = links.leg(leg)?;
    Some((
        link.publisher,
        Call::Time {
            moment,
            signal: Signal::Pli,
        },
    ))
}

/// What is to be told of a recorded call, by the leg that asked for a rate, where one did.
pub fn notification_of(publisher: u16, leg: Option<u16>, answer: &Answer) -> Notification
    ensures { result ≡ told_of publisher leg answer.now }
{
    match answer {
        Answer::Done { pli, .. } => Notification {
            publisher,
            asked_by: leg,
            pli: *pli,
        },
        _ => Notification {
            publisher,
            asked_by: None,
            pli: false,
        },
    }
}

/// The notification, where there is anything to tell with this effect.
pub fn waiting(notification: Notification, effect: &Effect) -> Option<Notification>
    ensures { (e : TheEffect) → option_map (pending_with e) result
        ≡ (if tells notification effect.now then Some (pending_with e notification) else None) }
{
    if notification.tells(effect) {
        Some(notification)
    } else {
        None
    }
}
