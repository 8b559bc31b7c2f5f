//! Calls of a desk by value, made of desks and of houses by their names.

ghost use Rattle.std.specs.Prelude.{◌<◌};

use rate_desk::*;
use std::process::Abort;
use std::sync::Wait;
use tmmbr_tuple::{Ssrc, Tuple};

/// A call of an owner.
pub(crate) fn of(owner: u32, stay: u64, change: Change) -> Call {
    Call::Stay {
        owner: Ssrc(owner),
        stay,
        change,
    }
}

/// A call at a moment.
pub(crate) fn at(moment: u64, signal: Signal) -> Call {
    Call::Time { moment, signal }
}

/// What is asked for by this word.
pub(crate) fn ask(word: u32) -> Change {
    Change::Request(Tuple::from_word(word))
}

/// The call, made of a desk by its name.
pub(crate) fn by_desk(desk: &mut Desk, call: Call) -> Option<Reply> {
    match call {
        Call::Stay { stay: 0, .. } => None,
        Call::Stay {
            owner,
            stay,
            change: Change::Arrive,
        } => desk.arrive(owner, stay).ok(),
        Call::Stay {
            owner,
            stay,
            change: Change::Request(tuple),
        } => desk.request(owner, stay, tuple).ok(),
        Call::Stay {
            owner,
            stay,
            change: Change::Depart,
        } => desk.depart(owner, stay).ok(),
        Call::Time {
            moment,
            signal: Signal::Pli,
        } => desk.pli(moment).ok(),
        Call::Time {
            moment,
            signal: Signal::Tick,
        } => desk.tick(moment).ok(),
        Call::Time {
            moment,
            signal: Signal::Expire,
        } => desk.expire(moment).ok(),
    }
}

/// The receipt and the effect of the call, which is made by its name, if the house records it.
pub(crate) fn by_house<D: DeskCalls, S: SeatCalls, R: Wait>(
    rt: &R,
    house: &House<D, S>,
    seat: &mut DeskSeat<S>,
    publisher: usize,
    call: Call,
) -> Option<(Receipt, Effect)>
    requires { publisher < S.publishers }
{
    match call {
        Call::Stay { stay: 0, .. } => None,
        Call::Stay {
            owner,
            stay,
            change: Change::Arrive,
        } => house.arrive(rt, seat, publisher, owner, stay).ok(),
        Call::Stay {
            owner,
            stay,
            change: Change::Request(tuple),
        } => house.request(rt, seat, publisher, owner, stay, tuple).ok(),
        Call::Stay {
            owner,
            stay,
            change: Change::Depart,
        } => house.depart(rt, seat, publisher, owner, stay).ok(),
        Call::Time {
            moment,
            signal: Signal::Pli,
        } => house.pli(rt, seat, publisher, moment).ok(),
        Call::Time {
            moment,
            signal: Signal::Tick,
        } => house.tick(rt, seat, publisher, moment).ok(),
        Call::Time {
            moment,
            signal: Signal::Expire,
        } => house.expire(rt, seat, publisher, moment).ok(),
    }
}

/// Whether two effects are the same.
fn is_same_effect(effect: &Effect, other: &Effect) -> bool {
    effect.set.as_slice() == other.set.as_slice()
        && effect.lifted.as_slice() == other.lifted.as_slice()
        && effect.fresh.as_slice() == other.fresh.as_slice()
}

/// Receipt and effect are those of the reply that a desk gave.
pub(crate) fn assert_same(rt: &impl Abort, receipt: &Receipt, effect: &Effect, reply: &Reply) {
    let is_same = receipt.number == reply.number
        && receipt.answer == reply.answer
        && is_same_effect(effect, &reply.effect);
    assert!(rt; is_same, "at {}", reply.number);
}

/// The same of the receipt of this call to this publisher.
pub(crate) fn assert_made(
    rt: &impl Abort,
    publisher: usize,
    call: Call,
    receipt: &Receipt,
    effect: &Effect,
    reply: &Reply,
) {
    let is_made = receipt.publisher == publisher && receipt.call == call;
    assert!(rt; is_made, "at {}", reply.number);
    assert_same(rt, receipt, effect, reply);
}
