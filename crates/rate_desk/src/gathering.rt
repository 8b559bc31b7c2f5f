//! The end of a house: its desks are taken out of their locks, and compared with what the seats counted and
//! with the receipts.

ghost use Rattle.std.specs.Prelude.{◌≡◌, ◌<◌, ◌≤◌, ◌-◌, ◌↔◌, [], length, vec_len, vec_capacity, min, sum_by, slice_get, Some, All, AllPairs, MatchOption, MatchResult, IfOk, IfErr, IsTrue, ◌^◌};
ghost use Rattle.rate_desk.specs.Shares.{calls_to, words_to};
ghost use Rattle.rate_desk.specs.Gathered.{AddsUp, AddUpBelow, Agrees, AreDesksOf, AtItsDesk, FailsToGather, Fits, GathersAll, IsApart, IsFirst, IsFirstGatherFault, IsFirstOff, IsFirstTwice, IsFoldedAt, StandsIn, receipt_entry};

use crate::desk_lock::DeskLock;
use crate::house::House;
use crate::ledger::{DeskCalls, SeatCalls};
use crate::receipt::{GatherFault, Receipt};
use crate::seat::DeskSeat;
use desk::{Answer, Call, Change, Desk, Signal};
use tmmbr_tuple::Tuple;

impl<D: DeskCalls, S: SeatCalls> House<D, S> {
    /// The desks in the order of their publishers, once all threads are done. The house and the seats are
    /// used up in each case.
    ///
    /// Compares the receipts with the histories (`Differs`, then `Twice`, then `Folded`, each with the first
    /// receipt of which it is so), the seats with those that were made (`Seats`), and what they counted with
    /// each desk (`Totals`). It takes no memory: the house was made with what it needs.
    pub fn gather(
        self,
        seats: Vec<DeskSeat<S>>,
        receipts: &[Receipt],
    ) -> Result<Vec<Desk>, GatherFault>
        ensures all { IfOk result
            (λ desks. GathersAll D.gap D.request_ms S.publishers S.seats
            seats.items receipts.now desks.items) }
        ensures fault { IfErr result
            (FailsToGather D.gap D.request_ms S.publishers S.seats seats.items receipts.now) }
    {
        let House {
            desks: locks,
            tally: _,
            seats: made,
            room,
        } = self;
        let desks = unlock(locks, room)?;
        compare(desks.as_slice(), made, seats.as_slice(), receipts)?;
        Ok(desks)
    }
}

/// The desks, in order, in the room that was made for them.
fn unlock<D: DeskCalls>(locks: Vec<DeskLock<D>>, room: Vec<Desk>) -> Result<Vec<Desk>, GatherFault>
    requires empty { room.items ≡ [] }
    requires roomy { vec_len locks ≤ vec_capacity room }
    ensures { MatchResult result (λ desks. AreDesksOf D.gap D.request_ms (vec_len locks)
        desks.items)
        (λ fault. ⊥) }
{
    let mut desks = room;
    for lock in locks {
        let desk = lock.into_desk();
        let Ok(()) = desks.push(desk) else {
            return Err(GatherFault::NoMemory);
        };
    }
    Ok(desks)
}

/// Whether desks, seats and receipts agree; else the first fault.
fn compare<S: SeatCalls>(
    desks: &[Desk],
    made: usize,
    seats: &[DeskSeat<S>],
    receipts: &[Receipt],
) -> Result<(), GatherFault>
    ensures { MatchResult result (λ done. Agrees made seats.now receipts.now desks.now)
        (IsFirstGatherFault made seats.now receipts.now desks.now) }
{
    if let Some(receipt) = first_differing(desks, receipts) {
        return Err(GatherFault::Differs(receipt));
    }
    if let Some(number) = first_twice(receipts) {
        return Err(GatherFault::Twice(number));
    }
    if let Some(number) = first_folded(desks, receipts) {
        return Err(GatherFault::Folded(number));
    }
    if seats.len() != made {
        return Err(GatherFault::Seats(seats.len()));
    }
    if let Some(publisher) = first_off(desks, seats) {
        return Err(GatherFault::Totals(publisher));
    }
    Ok(())
}

/// The first receipt that neither stands in its publisher's history nor may have stood there.
fn first_differing(desks: &[Desk], receipts: &[Receipt]) -> Option<Receipt>
    ensures { MatchOption result (All (Fits desks.now) receipts.now) (IsFirst (Fits desks.now)
        (λ r. ¬ Fits desks.now r) receipts.now) }
{
    for receipt in receipts {
        if !fits(desks, receipt) {
            return Some(*receipt);
        }
    }
    None
}

/// Whether the receipt stands in its publisher's history, or may have stood there.
fn fits(desks: &[Desk], receipt: &Receipt) -> bool
    ensures { IsTrue result ↔ Fits desks.now receipt.now }
{
    match desks.get(receipt.publisher) {
        Some(desk) => receipt.number < desk.base().calls || is_listed(desk, receipt),
        None => false,
    }
}

/// Whether the desk lists what the receipt says under its number, which isn't folded.
fn is_listed(desk: &Desk, receipt: &Receipt) -> bool
    requires { desk.now.base.calls ≤ receipt.now.number }
    ensures { IsTrue result ↔ slice_get desk.now.history
        (receipt.now.number - desk.now.base.calls) ≡ Some (receipt_entry receipt.now) }
{
    let place = receipt.number - desk.base().calls;
    match desk.history().get(place as usize) {
        Some(entry) => {
            is_call(&entry.call, &receipt.call) && is_answer(&entry.answer, &receipt.answer)
        },
        None => false,
    }
}

/// Whether the two calls are one.
fn is_call(one: &Call, other: &Call) -> bool
    ensures { IsTrue result ↔ one.now ≡ other.now }
{
    match (*one, *other) {
        (
            Call::Stay {
                owner: a,
                stay: s,
                change: x,
            },
            Call::Stay {
                owner: b,
                stay: t,
                change: y,
            },
        ) => a.0 == b.0 && s == t && is_change(x, y),
        (
            Call::Time {
                moment: m,
                signal: x,
            },
            Call::Time {
                moment: n,
                signal: y,
            },
        ) => m == n && is_signal(x, y),
        _ => false,
    }
}

/// Whether the two changes are one.
fn is_change(one: Change, other: Change) -> bool
    ensures { IsTrue result ↔ one ≡ other }
{
    match one {
        Change::Arrive => matches!(other, Change::Arrive),
        Change::Request(asked) => match other {
            Change::Request(tuple) => is_tuple(asked, tuple),
            _ => false,
        },
        Change::Depart => matches!(other, Change::Depart),
    }
}

/// Whether the two tuples are one: their words are.
fn is_tuple(one: Tuple, other: Tuple) -> bool
    ensures { IsTrue result ↔ one ≡ other }
{
    let word = one.to_word();
    let second = other.to_word();
    word == second
}

/// Whether the two signals are one.
fn is_signal(one: Signal, other: Signal) -> bool
    ensures { IsTrue result ↔ one ≡ other }
{
    one == other
}

/// Whether the two answers are one.
fn is_answer(one: &Answer, other: &Answer) -> bool
    ensures { IsTrue result ↔ one.now ≡ other.now }
{
    one == other
}

/// The first number that comes twice for one publisher.
fn first_twice(receipts: &[Receipt]) -> Option<u64>
    ensures { MatchOption result (AllPairs IsApart receipts.now) (IsFirstTwice receipts.now) }
{
    for later in 0..receipts.len() {
        for earlier in 0..later {
            let (one, two) = (&receipts[earlier], &receipts[later]);
            if one.publisher == two.publisher && one.number == two.number {
                return Some(two.number);
            }
        }
    }
    None
}

/// Of the first receipt whose number is folded, the first number that its publisher's desk lists.
fn first_folded(desks: &[Desk], receipts: &[Receipt]) -> Option<u64>
    requires { All (Fits desks.now) receipts.now }
    ensures { MatchOption result (All (StandsIn desks.now) receipts.now)
        (λ number. (r : Receipt) × IsFirst (StandsIn desks.now)
        (AtItsDesk (IsFoldedAt number) desks.now) receipts.now r) }
{
    for receipt in receipts {
        if let Some(desk) = desks.get(receipt.publisher) {
            if receipt.number < desk.base().calls {
                return Some(desk.base().calls);
            }
        }
    }
    None
}

/// The first publisher whose desk the seats' counts don't add up to.
fn first_off<S: SeatCalls>(desks: &[Desk], seats: &[DeskSeat<S>]) -> Option<usize>
    ensures { MatchOption result (AddUpBelow (length desks.now) seats.now desks.now)
        (IsFirstOff seats.now desks.now) }
{
    for publisher in 0..desks.len() {
        if !adds_up(seats, &desks[publisher], publisher) {
            return Some(publisher);
        }
    }
    None
}

/// Whether the seats' counts of a publisher add up to its desk's calls and words.
fn adds_up<S: SeatCalls>(seats: &[DeskSeat<S>], desk: &Desk, publisher: usize) -> bool
    ensures { IsTrue result ↔ AddsUp seats.now desk.now publisher }
{
    let (calls, words) = (desk.calls(), desk.words());
    calls_of(seats, publisher) == calls && requested_of(seats, publisher) == words
}

/// The calls to a publisher that all seats counted, as far as they fit.
fn calls_of<S: SeatCalls>(seats: &[DeskSeat<S>], publisher: usize) -> u64
    ensures { result ≡ min (sum_by (calls_to publisher) seats.now) (2 ^ 64 - 1) }
{
    let mut total: u64 = 0;
    for seat in seats {
        total = total.saturating_add(seat.calls(publisher));
    }
    total
}

/// The words that all seats' calls to a publisher requested, as far as they fit.
fn requested_of<S: SeatCalls>(seats: &[DeskSeat<S>], publisher: usize) -> u128
    ensures { result ≡ min (sum_by (words_to publisher) seats.now) (2 ^ 128 - 1) }
{
    let mut total: u128 = 0;
    for seat in seats {
        total = total.saturating_add(seat.words(publisher));
    }
    total
}
