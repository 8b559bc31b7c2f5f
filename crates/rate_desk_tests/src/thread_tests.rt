//! Calls of four threads through a house, and what is gathered after them.

ghost use Rattle.std.specs.Prelude.{◌≡◌, ◌<◌};

use crate::calls::{ask, assert_same, by_desk, by_house, of};
use rate_cert::Request;
use rate_desk::*;
use std::alloc::Global;
use std::marker::Brand;
use std::process::Abort;
use std::sync::Wait;
use std::sync::ledger::Blank;
use std::test::Fail;
use std::thread::{self, Threads};
use tmmbr_tuple::{Ssrc, Tuple};

/// A seat after its calls, with what each gave.
#[derive(Drop)]
struct Made<S: SeatCalls> {
    seat: DeskSeat<S>,
    receipts: Vec<Receipt>,
    effects: Vec<Effect>,
}

/// The word that is requested by the i-th request: 1000 + i bits per second, with 40 bytes of overhead.
fn word_at(i: u8) -> u32 {
    ((1000 + i as u32) << 9) | 40
}

impl<S: SeatCalls> Made<S> {
    /// Makes a call, and keeps what it gives.
    fn call<D: DeskCalls, R: Wait>(
        &mut self,
        rt: &R,
        house: &House<D, S>,
        publisher: usize,
        call: Call,
    ) -> Option<()>
        requires { publisher < S.publishers }
    {
        let Made {
            seat,
            receipts,
            effects,
        } = self;
        let (receipt, effect) = by_house(rt, house, seat, publisher, call)?;
        receipts.push(receipt).ok()?;
        effects.push(effect).ok()
    }
}

/// An owner arrives at each publisher, and makes 50 requests of each, in turn.
fn ask_all<D: DeskCalls, S: SeatCalls, R: Wait>(
    rt: &R,
    alloc: Global,
    house: &House<D, S>,
    owner: u32,
    seat: DeskSeat<S>,
) -> Option<Made<S>> {
    let mut made = Made {
        seat,
        receipts: Vec::new(alloc),
        effects: Vec::new(alloc),
    };
    for turn in 0..51u8 {
        let change = match turn {
            0 => Change::Arrive,
            _ => ask(word_at(turn - 1)),
        };
        for p in 0..house.publishers() {
            made.call(rt, house, p, of(owner, 1, change))?;
        }
    }
    Some(made)
}

/// Each seat in a thread of its own; their owners are 17 and those that follow.
fn ask_by_threads<D: DeskCalls + Send + Sync, S: SeatCalls + Send + Sync, R: Threads + Wait + Sync>(
    rt: &R,
    alloc: Global,
    house: &House<D, S>,
    seats: Vec<DeskSeat<S>>,
) -> Option<Vec<Option<Made<S>>>> {
    let mut jobs = Vec::new(alloc);
    let mut owner: u32 = 17;
    for seat in seats {
        jobs.push((owner, seat)).ok()?;
        owner = owner.wrapping_add(1);
    }
    thread::map_vec(
        rt,
        jobs,
        &|job: (u32, DeskSeat<S>)| ask_all(rt, alloc, house, job.0, job.1),
    )
    .ok()
}

/// Receipts, each with its effect.
#[derive(Drop)]
struct Told {
    receipts: Vec<Receipt>,
    effects: Vec<Effect>,
}

impl Told {
    /// Adds what one seat was told, and gives the seat back.
    fn add<S: SeatCalls>(&mut self, one: Made<S>) -> Option<DeskSeat<S>> {
        let Made {
            seat,
            receipts,
            effects,
        } = one;
        self.receipts.extend_from_slice(receipts.as_slice()).ok()?;
        for effect in effects {
            self.effects.push(effect).ok()?;
        }
        Some(seat)
    }
}

/// All that was made; `None` if a call was refused.
fn put_together<S: SeatCalls>(
    alloc: Global,
    made: Vec<Option<Made<S>>>,
) -> Option<(Vec<DeskSeat<S>>, Told)> {
    let mut seats = Vec::new(alloc);
    let mut told = Told {
        receipts: Vec::new(alloc),
        effects: Vec::new(alloc),
    };
    for one in made {
        seats.push(told.add(one?)?).ok()?;
    }
    Some((seats, told))
}

/// All that threads made of a house by these seats; `None` if a call was refused.
fn told_by_threads<
    D: DeskCalls + Send + Sync,
    S: SeatCalls + Send + Sync,
    R: Threads + Wait + Sync,
>(
    rt: &R,
    alloc: Global,
    house: &House<D, S>,
    seats: Vec<DeskSeat<S>>,
) -> Option<(Vec<DeskSeat<S>>, Told)> {
    put_together(alloc, ask_by_threads(rt, alloc, house, seats)?)
}

/// The place among the receipts of the one with this publisher and number.
fn place_of(receipts: &[Receipt], publisher: usize, number: u64) -> Option<usize> {
    receipts
        .iter()
        .position(|r| r.publisher == publisher && r.number == number)
}

/// Each effect is what a new desk answers to the same calls.
fn assert_told(
    rt: &impl Abort,
    alloc: Global,
    desk: &Desk,
    publisher: usize,
    told: &Told,
) -> Result<(), Fail> {
    let mut other = Desk::new(alloc, 500, 0)?;
    let receipts = told.receipts.as_slice();
    for number in 0..desk.history().len() {
        let place = place_of(receipts, publisher, number as u64).ok_or("a receipt")?;
        let receipt = receipts.get(place).ok_or("a receipt")?;
        let effect = told.effects.get(place).ok_or("an effect")?;
        let reply = by_desk(&mut other, receipt.call).ok_or("a call again")?;
        assert_same(rt, receipt, effect, &reply);
    }
    Ok(())
}

/// Each owner's last request is live.
fn assert_live(rt: &impl Abort, desk: &Desk) {
    let tuple = Tuple::from_word(word_at(49));
    let row = |owner: u32| Request {
        owner: Ssrc(owner),
        tuple,
    };
    let rows = [row(17), row(18), row(19), row(20)];
    assert!(rt; desk.live() == rows.as_slice());
}

/// The words of the requests that each seat makes of a publisher.
const WORDS: u128 = 50 * ((1000 << 9) | 40) + ((49 * 50 / 2) << 9);

/// Each seat counted so many calls to each of the two publishers, and their words.
fn assert_counted<S: SeatCalls>(rt: &impl Abort, seats: &[DeskSeat<S>], calls: u64) {
    for seat in seats {
        let made = [seat.calls(0), seat.calls(1), seat.calls(2)] == [calls, calls, 0];
        let words = [seat.words(0), seat.words(1), seat.words(2)] == [WORDS, WORDS, 0];
        assert!(rt; made && words);
    }
}

/// The receipts that are handed in: all, or all with another owner in the last one.
fn handed(alloc: Global, receipts: &[Receipt], is_changed: bool) -> Option<Vec<Receipt>> {
    let mut handed = receipts.to_vec(alloc).ok()?;
    if is_changed {
        let last = handed.pop()?;
        let call = of(99, 1, ask(word_at(49)));
        handed.push(Receipt { call, ..last }).ok()?;
    }
    Some(handed)
}

/// Each of the two desks has so many calls, and each call was told what it changed.
fn assert_desks(
    rt: &impl Abort,
    alloc: Global,
    desks: &[Desk],
    calls: u64,
    told: &Told,
) -> Result<(), Fail> {
    assert!(rt; desks.len() == 2);
    for (p, desk) in desks.iter().enumerate() {
        assert!(rt; desk.calls() == calls && desk.words() == 4 * WORDS);
        assert_told(rt, alloc, desk, p, told)?;
        assert_live(rt, desk);
    }
    Ok(())
}

fn four_threads<
    D: DeskCalls + Send + Sync,
    S: SeatCalls + Send + Sync,
    R: Threads + Wait + Abort + Sync,
>(
    rt: &R,
    alloc: Global,
    recorded: Blank,
    made: Blank,
    is_changed: bool,
) -> Result<Option<GatherFault>, Fail>
    requires names { (recorded.name ≡ D.name) × (made.name ≡ S.name) }
    requires parts { (recorded.parts ≡ D.parts) × (made.parts ≡ S.parts) }
    requires two { (S.publishers ≡ 2) × (D.parts ≡ 2) × (S.parts ≡ 4) × (S.seats ≡ 4) }
    requires numbers { (D.gap ≡ 500) × (D.request_ms ≡ 0) }
{
    let (house, seats) = House::<D, S>::new(alloc, recorded, made, 2, 4, 500, 0)?;
    let (seats, told) = told_by_threads(rt, alloc, &house, seats).ok_or("each call is Ok")?;
    // Of each publisher: an arrival and 50 requests.
    assert_counted(rt, seats.as_slice(), 51);
    let handed = handed(alloc, told.receipts.as_slice(), is_changed).ok_or("the receipts")?;
    match house.gather(seats, handed.as_slice()) {
        Ok(desks) => {
            assert_desks(rt, alloc, desks.as_slice(), 4 * 51, &told)?;
            Ok(None)
        },
        Err(fault) => Ok(Some(fault)),
    }
}

fn by_threads<R: Threads + Wait + Abort + Sync>(
    rt: &R,
    alloc: Global,
    is_changed: bool,
) -> Result<Option<GatherFault>, Fail> {
    four_threads::<Brand, Brand, R>(rt, alloc, Blank::new(2), Blank::new(4), is_changed)
}

#[test]
fn gather_of_four_threads(rt: HostRuntime) -> Result<(), Fail> {
    assert_eq!(rt; by_threads(&rt, rt.alloc(), false)?, None);
    let fault = by_threads(&rt, rt.alloc(), true)?;
    assert!(rt; matches!(fault, Some(GatherFault::Differs(_))));
    Ok(())
}
