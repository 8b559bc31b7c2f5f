//! A house beside desks on which the same calls are made, and one that is made while growths are refused.

ghost use Rattle.std.specs.Prelude.{◌≡◌, ◌<◌};

use crate::calls::{ask, assert_made, at, by_desk, by_house, of};
use rate_desk::*;
use std::alloc::Global;
use std::marker::Brand;
use std::process::Abort;
use std::sync::Wait;
use std::sync::ledger::Blank;
use std::test::Fail;

/// Each of the six calls, done and refused, with PLIs sent and not, requests that come, go and grow old.
fn some_calls() -> [Call; 24] {
    let (high, low) = (ask(0x01f4_0028), ask(0x01d4_c014));
    [
        of(17, 1, Change::Arrive),
        of(17, 2, Change::Arrive),
        of(17, 9, high),
        of(18, 2, low),
        of(17, 1, high),
        at(5, Signal::Pli),
        at(100, Signal::Pli),
        at(504, Signal::Tick),
        at(505, Signal::Tick),
        at(600, Signal::Tick),
        of(18, 2, Change::Arrive),
        of(18, 2, low),
        at(999, Signal::Expire),
        at(1000, Signal::Expire),
        at(1599, Signal::Expire),
        at(1600, Signal::Expire),
        of(17, 1, low),
        of(17, 1, high),
        at(900, Signal::Pli),
        of(17, 2, Change::Depart),
        of(18, 2, Change::Depart),
        of(17, 1, Change::Depart),
        of(17, 1, Change::Depart),
        at(4000, Signal::Tick),
    ]
}

/// The call by value, or a pulse for a tick, made of the publisher 0 of a house.
fn by_value<D: DeskCalls, S: SeatCalls, R: Wait>(
    rt: &R,
    house: &House<D, S>,
    seat: &mut DeskSeat<S>,
    call: Call,
    effect: &mut Effect,
) -> Option<Receipt>
    requires { 0 < S.publishers }
{
    match call {
        Call::Stay { stay: 0, .. } => None,
        Call::Time {
            moment,
            signal: Signal::Tick,
        } => house.pulse(rt, seat, 0, moment).ok(),
        _ => house.call(rt, seat, 0, call, effect).ok(),
    }
}

/// Makes a call of both publishers of a house, and of a desk.
fn call_each<D: DeskCalls, S: SeatCalls, R: Wait + Abort>(
    rt: &R,
    house: &House<D, S>,
    seat: &mut DeskSeat<S>,
    receipts: &mut Vec<Receipt>,
    desk: &mut Desk,
    call: Call,
) -> Result<(), Fail>
    requires { S.publishers ≡ 2 }
{
    let reply = by_desk(desk, call).ok_or("a reply")?;
    let (receipt, mut effect) = by_house(rt, house, seat, 1, call).ok_or("a receipt")?;
    assert_made(rt, 1, call, &receipt, &effect, &reply);
    receipts.push(receipt)?;
    let receipt = by_value(rt, house, seat, call, &mut effect).ok_or("a receipt")?;
    // A pulse leaves what the other call filled in, which a tick doesn't change.
    assert_made(rt, 0, call, &receipt, &effect, &reply);
    receipts.push(receipt)?;
    Ok(())
}

/// Makes the calls of a house and of a desk.
fn call_both<D: DeskCalls, S: SeatCalls, R: Wait + Abort>(
    rt: &R,
    house: &House<D, S>,
    seat: &mut DeskSeat<S>,
    receipts: &mut Vec<Receipt>,
    desk: &mut Desk,
) -> Result<(), Fail>
    requires { S.publishers ≡ 2 }
{
    for call in some_calls() {
        call_each(rt, house, seat, receipts, desk, call)?;
    }
    Ok(())
}

/// Makes the calls by the last of the seats, and answers the words that a desk counts.
fn call_all<D: DeskCalls, S: SeatCalls, R: Wait + Abort>(
    rt: &R,
    alloc: Global,
    house: &House<D, S>,
    seats: &mut Vec<DeskSeat<S>>,
    receipts: &mut Vec<Receipt>,
) -> Result<u128, Fail>
    requires { S.publishers ≡ 2 }
{
    let seat = seats.last_mut().ok_or("a seat")?;
    let mut desk = Desk::new(alloc, 500, 1000)?;
    call_both(rt, house, seat, receipts, &mut desk)?;
    Ok(desk.words())
}

/// Each desk has those calls, and these words.
fn assert_words(rt: &impl Abort, desks: &[Desk], words: u128) {
    for desk in desks {
        assert!(rt; desk.calls() == 24 && desk.words() == words);
    }
}

fn beside_desks<D: DeskCalls, S: SeatCalls, R: Wait + Abort>(
    rt: &R,
    alloc: Global,
    recorded: Blank,
    made: Blank,
) -> Result<(), Fail>
    requires names { (recorded.name ≡ D.name) × (made.name ≡ S.name) }
    requires parts { (recorded.parts ≡ D.parts) × (made.parts ≡ S.parts) }
    requires two { (S.publishers ≡ 2) × (D.parts ≡ 2) × (S.parts ≡ 2) × (S.seats ≡ 2) }
    requires numbers { (D.gap ≡ 500) × (D.request_ms ≡ 1000) }
{
    let mut receipts = Vec::new(alloc);
    let (house, mut seats) = House::<D, S>::new(alloc, recorded, made, 2, 2, 500, 1000)?;
    let words = call_all(rt, alloc, &house, &mut seats, &mut receipts)?;
    let desks = house.gather(seats, receipts.as_slice())?;
    assert_words(rt, desks.as_slice(), words);
    Ok(())
}

/// A house answers each call as a desk does on which the same calls are made.
#[test]
fn house_beside_desks(rt: HostRuntime) -> Result<(), Fail> {
    beside_desks::<Brand, Brand, _>(&rt, rt.alloc(), Blank::new(2), Blank::new(2))
}

/// Whether there is no memory for a house of so many publishers and seats.
fn is_refused<D: DeskCalls, S: SeatCalls>(
    alloc: Global,
    recorded: Blank,
    made: Blank,
    publishers: usize,
    seats: usize,
) -> bool
    requires names { (recorded.name ≡ D.name) × (made.name ≡ S.name) }
    requires parts { (recorded.parts ≡ D.parts) × (made.parts ≡ S.parts) }
    requires publishers { (S.publishers ≡ publishers) × (D.parts ≡ publishers) }
    requires seats { (S.seats ≡ seats) × (S.parts ≡ seats) }
    requires numbers { (D.gap ≡ 500) × (D.request_ms ≡ 0) }
{
    House::<D, S>::new(alloc, recorded, made, publishers, seats, 500, 0).is_err()
}

fn refuses(alloc: Global, publishers: usize, seats: usize) -> bool {
    is_refused::<Brand, Brand>(
        alloc,
        Blank::new(publishers as u64),
        Blank::new(seats as u64),
        publishers,
        seats,
    )
}

/// Whichever growth is refused, the house is made at the first try or at the second. (`gather` asks for no memory.)
#[test]
fn house_with_each_growth_refused(rt: HostRuntime) {
    assert!(rt; !refuses(rt.alloc(), 2, 2) || !refuses(rt.alloc(), 2, 2));
}
