//! A desk of the house is asked, and what follows is sent.

ghost use Rattle.std.specs.Prelude.{◌≡◌, ◌<◌, IfSome, option_map};
ghost use Rattle.desk.specs.Call.{HasStay};
ghost use Rattle.desk_calls.specs.Notification.{pending_with};
ghost use Rattle.forwarding.specs.Asking.{IsAsked, IsOfLastCall, IsTelling, telling};
ghost use mathlib.Core.List.{IsPrefix};

use crate::done::{ForwardFault, Forwarded};
use crate::refusing::{refusal_by, refusal_in, tell_refusal};
use crate::sending::send_all;
use desk::Effect;
use desk_calls::{Head, Notification, Question, notification_of, notify, waiting};
use ports::Sink;
use rate_desk::{DeskCalls, DeskSeat, Hold, House, SeatCalls};
use routes::{Naming, RouteNote, RouteReader};
use settings::{Links, Settings};
use std::alloc::{AllocError, Global};
use std::marker::Model;
use std::sync::Wait;

/// Asks the desks of a house, and tells the publisher and its subscribers what follows.
#[derive(Drop)]
pub struct Notifier {
    pub(crate) alloc: Global,
    pub(crate) links: Links,
    pub(crate) head: Head,
    /// Where a desk says what a call changed.
    effect: Effect,
}

impl Model for Notifier {
    ghost use Rattle.forwarding.specs.Forwarding.{NotifierState};

    ghost Value = { NotifierState };

    ghost view = { λ n. record { table = n.links; unit = n.head } };
}

impl Notifier {
    ghost use Rattle.std.specs.Prelude.{◌≡◌, ◌<◌, Some, IfOk, MatchResult};
    ghost use mathlib.Core.List.{IsPrefix};
    ghost use Rattle.desk_calls.specs.Notification.{picture_upstream};
    ghost use Rattle.forwarding.specs.Sending.{Sends};
    ghost use Rattle.forwarding.specs.Asking.{Notifies, GivesUp, asking, picture_of, telling, terms};
    ghost use Rattle.forwarding.specs.Forwarding.{new_notifier};

    /// A notifier of a unit with these settings.
    pub fn new(alloc: Global, settings: &Settings) -> Result<Notifier, AllocError>
        ensures { IfOk result (λ n. n ≡ new_notifier settings.now) }
    {
        Ok(Notifier {
            alloc,
            links: Links::new(alloc, settings)?,
            head: Head::new(alloc, settings.unit_ssrc(), settings.cname())?,
            effect: Effect::new(),
        })
    }

    /// Asks the publisher's desk, then learns the note, and if there is anything to tell enters and tells it, before anybody else
    /// may call the desk: what is told of a publisher's calls leaves in the order of the calls. A call that the desk refuses or doesn't
    /// record is Ok and tells nobody anything but the sink, why, as of the endpoint whose datagram led to it, if one did. After a fault the
    /// call stands, and the note is learnt; nothing was sent.
    #[tactic(auto, using(crate::proofs::AskingLemmas::asked_nowhere, crate::proofs::AskingLemmas::notified_nobody))]
    pub fn ask<J: Naming, D: DeskCalls, C: SeatCalls, R: Wait, S: Sink>(
        &mut self,
        rt: &R,
        house: &House<D, C>,
        seat: &mut DeskSeat<C>,
        reader: &mut RouteReader<J>,
        note: RouteNote<J>,
        question: &Question,
        endpoint: Option<u16>,
        sink: &mut S,
    ) -> Result<Forwarded, ForwardFault>
        requires stay { HasStay question.now.call }
        ensures setup { self.new ≡ self.old }
        ensures known { IsPrefix reader.old.known reader.new.known }
        ensures note { IsPrefix note reader.new.known }
        ensures notifies { Notifies (terms D.gap D.request_ms C.publishers J.legs) self.old
            (Some question.now) (asking seat.old seat.new (telling reader.old.rows reader.new
            (S.shown sink.old) (S.shown sink.new))) result }
    {
        let at = usize::from(question.publisher);
        if at >= house.publishers() {
            reader.learn(note);
            return Ok(Forwarded::default());
        }
        let mut hold = house.hold(rt, at);
        self.ask_held(
            rt, house, seat, &mut hold, reader, note, question, endpoint, sink,
        )
    }

    /// Asks the desk that is held, and tells what follows while it is.
    #[tactic(auto, using(crate::proofs::AskingLemmas::notified_all, crate::proofs::AskingLemmas::notified_nobody))]
    fn ask_held<J: Naming, D: DeskCalls, C: SeatCalls, R: Wait, S: Sink>(
        &mut self,
        rt: &R,
        house: &House<D, C>,
        seat: &mut DeskSeat<C>,
        hold: &mut Hold<'_, D>,
        reader: &mut RouteReader<J>,
        note: RouteNote<J>,
        question: &Question,
        endpoint: Option<u16>,
        sink: &mut S,
    ) -> Result<Forwarded, ForwardFault>
        requires stay { HasStay question.now.call }
        requires publisher { hold.old.publisher ≡ question.now.publisher }
        requires there { hold.old.publisher < C.publishers }
        ensures setup { self.new ≡ self.old }
        ensures known { IsPrefix reader.old.known reader.new.known }
        ensures note { IsPrefix note reader.new.known }
        ensures notifies { Notifies (terms D.gap D.request_ms C.publishers J.legs) self.old
            (Some question.now) (asking seat.old seat.new (telling reader.old.rows reader.new
            (S.shown sink.old) (S.shown sink.new))) result }
    {
        let pending = ask_desk(
            rt,
            house,
            seat,
            hold,
            question,
            endpoint,
            &mut self.effect,
            sink,
        );
        reader.learn(note);
        match pending {
            Some(notification) => tell_held(
                self.alloc,
                &self.links,
                &self.head,
                hold,
                reader,
                &notification,
                &self.effect,
                sink,
            ),
            None => Ok(Forwarded::default()),
        }
    }

    /// Tells the publisher that a picture of it is wanted (RFC 4585, section 6.3.1): what follows from a pulse whose answer
    /// says so. A fault comes before anything is sent; the note is learnt.
    #[tactic(auto, using(crate::proofs::AskingLemmas::picture_told))]
    pub fn ask_for_picture<J: Naming, S: Sink>(
        &self,
        reader: &mut RouteReader<J>,
        note: RouteNote<J>,
        publisher: u16,
        sink: &mut S,
    ) -> Result<Forwarded, ForwardFault>
        ensures known { IsPrefix reader.old.known reader.new.known }
        ensures note { IsPrefix note reader.new.known }
        ensures told { MatchResult result
            (Sends (picture_upstream self.now.table self.now.unit (picture_of publisher))
            (S.shown sink.old) (S.shown sink.new))
            (GivesUp J.legs (telling reader.old.rows reader.new
            (S.shown sink.old) (S.shown sink.new))) }
    {
        reader.learn(note);
        let notification = Notification {
            publisher,
            asked_by: None,
            pli: true,
        };
        let nothing = Effect::new();
        tell(
            self.alloc,
            &self.links,
            &self.head,
            reader,
            &notification,
            &nothing,
            sink,
        )
    }
}

/// Asks the publisher's desk, which is held, and says in `effect` what changed; answers what is to be told. The sink is told what the
/// desk refuses.
#[tactic(auto, using(crate::proofs::AskingLemmas::asked_unrecorded, crate::proofs::AskingLemmas::asked_recorded))]
fn ask_desk<D: DeskCalls, C: SeatCalls, R: Wait, S: Sink>(
    rt: &R,
    house: &House<D, C>,
    seat: &mut DeskSeat<C>,
    hold: &mut Hold<'_, D>,
    question: &Question,
    endpoint: Option<u16>,
    effect: &mut Effect,
    sink: &mut S,
) -> Option<Notification>
    requires stay { HasStay question.now.call }
    requires publisher { hold.old.publisher ≡ question.now.publisher }
    requires there { hold.old.publisher < C.publishers }
    ensures asked { IsAsked D.gap D.request_ms C.publishers question.now seat.old seat.new
        (option_map (pending_with effect.new) result) }
    ensures last { IfSome result (λ n. IsOfLastCall hold.new (pending_with effect.new n)) }
    ensures shown { S.shown sink.new ≡ S.shown sink.old }
{
    let Question {
        publisher,
        asked_by,
        call,
    } = *question;
    let receipt = match house.call_held(rt, seat, hold, call, effect) {
        Ok(receipt) => receipt,
        Err(fault) => {
            tell_refusal(endpoint, refusal_by(fault), sink);
            return None;
        }
    };
    tell_refusal(endpoint, refusal_in(&receipt.answer), sink);
    let notification = notification_of(publisher, asked_by, &receipt.answer);
    waiting(notification, effect)
}

/// Tells what follows from the last call of the desk that is held: nobody called it since, and nobody does meanwhile.
fn tell_held<J: Naming, D: DeskCalls, S: Sink>(
    alloc: Global,
    links: &Links,
    head: &Head,
    hold: &Hold<'_, D>,
    reader: &mut RouteReader<J>,
    notification: &Notification,
    effect: &Effect,
    sink: &mut S,
) -> Result<Forwarded, ForwardFault>
    requires last { IsOfLastCall hold.now (pending_with effect.now notification.now) }
    ensures known { IsPrefix reader.old.known reader.new.known }
    ensures told { IsTelling J.legs (record { table = links.now; unit = head.now })
        (pending_with effect.now notification.now)
        (telling reader.old.rows reader.new (S.shown sink.old) (S.shown sink.new)) result }
{
    let _held = hold;
    tell(alloc, links, head, reader, notification, effect, sink)
}

/// Tells what follows from a call with this effect, by the rows that are published. Where the table gives no view, or
/// no memory is left, nothing is sent.
pub(crate) fn tell<J: Naming, S: Sink>(
    alloc: Global,
    links: &Links,
    head: &Head,
    reader: &mut RouteReader<J>,
    notification: &Notification,
    effect: &Effect,
    sink: &mut S,
) -> Result<Forwarded, ForwardFault>
    ensures known { IsPrefix reader.old.known reader.new.known }
    ensures told { IsTelling J.legs (record { table = links.now; unit = head.now })
        (pending_with effect.now notification.now)
        (telling reader.old.rows reader.new (S.shown sink.old) (S.shown sink.new)) result }
{
    if !reader.take() {
        return Err(ForwardFault::NoView);
    }
    let mut outs = Vec::new(alloc);
    let Ok(()) = notify(
        alloc,
        links,
        head,
        reader.rows(),
        notification,
        effect,
        &mut outs,
    ) else {
        return Err(ForwardFault::NoMemory);
    };
    Ok(send_all(outs.as_slice(), sink))
}
