//! Desks under locks of their own, one for each publisher, which several threads call.

ghost use Rattle.std.specs.Prelude.{◌≡◌, ◌≤◌, replicate, slice_index, vec_len, vec_capacity, EachIndex, IfOk, []};
ghost use Rattle.rate_desk.specs.Shares.{new_seat};

use crate::NoMemory;
use crate::desk_lock::DeskLock;
use crate::hold::Hold;
use crate::ledger::{DeskCalls, SeatCalls, Tally};
use crate::receipt::{HouseFault, Receipt};
use crate::seat::DeskSeat;
use desk::{Call, Change, Desk, Effect, Signal};
use std::alloc::Global;
use std::sync::ledger::{Blank, Share};
use std::sync::{Mutex, Wait};
use tmmbr_tuple::{Ssrc, Tuple};

/// A desk for each publisher.
///
/// `D` names the ledger of the calls that the desks recorded, `S` that of the calls that the seats made. A
/// call locks its publisher's desk, and for the time that it is counted the tally of both ledgers inside
/// it. So a call waits for the calls of the same publisher, each for as long as its desk takes to answer,
/// and for those of other publishers only while one of them is counted.
#[derive(Drop)]
pub struct House<D: DeskCalls, S: SeatCalls> {
    /// The locks of the desks, in the order of their publishers.
    pub(crate) desks: Vec<DeskLock<D>>,
    pub(crate) tally: Mutex<Tally<D, S>>,
    /// How many seats were made.
    pub(crate) seats: usize,
    /// Room for the desks once they are out of their locks.
    pub(crate) room: Vec<Desk>,
    pub(crate) ghost all_here: { vec_len desks ≡ S.publishers },
    pub(crate) ghost in_order: { EachIndex desks.items (λ p. slice_index desks.items p ≡ p) },
    pub(crate) ghost all_made: { seats ≡ S.seats },
    pub(crate) ghost empty: { room.items ≡ [] },
    pub(crate) ghost roomy: { S.publishers ≤ vec_capacity room },
}

impl<D: DeskCalls, S: SeatCalls> House<D, S> {
    ghost use Rattle.std.specs.Prelude.{◌≡◌, ◌<◌, ◌≤◌, replicate, IfOk, OnErr};
    ghost use Rattle.desk.specs.declared.call.Call.TheVariants as call;
    ghost use Rattle.desk.specs.declared.call.Change.TheVariants as change;
    ghost use Rattle.desk.specs.declared.call.Signal.TheVariants as signal;
    ghost use Rattle.desk.specs.Call.{HasStay};
    ghost use Rattle.rate_desk.specs.Shares.{new_seat, GetsReceipt, IsLastCall, IsTold, IsPulsed, MakesCall};

    /// A house of so many publishers and seats. Each desk sends PLIs upstream at least `gap` milliseconds
    /// apart, and takes requests away that are `request_ms` milliseconds old, never if that is 0. The
    /// first ledger has a part for each publisher, the second one for each seat.
    ///
    /// It takes the memory that `gather` needs, too.
    pub fn new(
        alloc: Global,
        recorded: Blank,
        made: Blank,
        publishers: usize,
        seats: usize,
        gap: u64,
        request_ms: u64,
    ) -> Result<(House<D, S>, Vec<DeskSeat<S>>), NoMemory>
        requires recorded { (recorded.name ≡ D.name) × (recorded.parts ≡ D.parts) }
        requires made { (made.name ≡ S.name) × (made.parts ≡ S.parts) }
        requires parts { (publishers ≤ D.parts) × (seats ≤ S.parts) }
        requires publishers { publishers ≡ S.publishers }
        requires seats { seats ≡ S.seats }
        requires gap { gap ≡ D.gap }
        requires request_ms { request_ms ≡ D.request_ms }
        ensures seats { IfOk result (λ r. r.1.items ≡ replicate seats (new_seat publishers)) }
    {
        let (recorded, desk_shares) = recorded.open::<D>();
        let (made, seat_shares) = made.open::<S>();
        let desks = new_desks(alloc, desk_shares, publishers, gap, request_ms)?;
        let free = new_seats(alloc, seat_shares, publishers, seats)?;
        let room = Vec::with_capacity(alloc, publishers)?;
        let tally = Mutex::new(Tally { recorded, made });
        Ok((
            House {
                desks,
                tally,
                seats,
                room,
            },
            free,
        ))
    }

    /// How many publishers it has a desk for.
    pub fn publishers(&self) -> usize
        ensures { result ≡ S.publishers }
    {
        self.desks.len()
    }

    /// The owner comes to ask the publisher: a stay of it begins. What it answers and leaves is said at
    /// `Desk::arrive`. A fault leaves all as it was.
    pub fn arrive<R: Wait>(
        &self,
        rt: &R,
        seat: &mut DeskSeat<S>,
        publisher: usize,
        owner: Ssrc,
        stay: u64,
    ) -> Result<(Receipt, Effect), HouseFault>
        requires publisher { publisher < S.publishers }
        requires stay { 1 ≤ stay }
        ensures { MakesCall D.gap D.request_ms publisher (call.Stay owner stay change.Arrive)
            seat.old seat.new result }
    {
        self.reply(
            rt,
            seat,
            publisher,
            Call::Stay {
                owner,
                stay,
                change: Change::Arrive,
            },
        )
    }

    /// The owner asks the publisher for a tuple, as `Desk::request` says. A fault leaves all as it was.
    pub fn request<R: Wait>(
        &self,
        rt: &R,
        seat: &mut DeskSeat<S>,
        publisher: usize,
        owner: Ssrc,
        stay: u64,
        tuple: Tuple,
    ) -> Result<(Receipt, Effect), HouseFault>
        requires publisher { publisher < S.publishers }
        requires stay { 1 ≤ stay }
        ensures { MakesCall D.gap D.request_ms publisher
            (call.Stay owner stay (change.Request tuple)) seat.old seat.new result }
    {
        self.reply(
            rt,
            seat,
            publisher,
            Call::Stay {
                owner,
                stay,
                change: Change::Request(tuple),
            },
        )
    }

    /// The owner's stay at the publisher ends, as `Desk::depart` says. A fault leaves all as it was.
    pub fn depart<R: Wait>(
        &self,
        rt: &R,
        seat: &mut DeskSeat<S>,
        publisher: usize,
        owner: Ssrc,
        stay: u64,
    ) -> Result<(Receipt, Effect), HouseFault>
        requires publisher { publisher < S.publishers }
        requires stay { 1 ≤ stay }
        ensures { MakesCall D.gap D.request_ms publisher (call.Stay owner stay change.Depart)
            seat.old seat.new result }
    {
        self.reply(
            rt,
            seat,
            publisher,
            Call::Stay {
                owner,
                stay,
                change: Change::Depart,
            },
        )
    }

    /// Somebody wants a picture of the publisher at this moment, as `Desk::pli` says. A fault leaves all
    /// as it was.
    pub fn pli<R: Wait>(
        &self,
        rt: &R,
        seat: &mut DeskSeat<S>,
        publisher: usize,
        moment: u64,
    ) -> Result<(Receipt, Effect), HouseFault>
        requires publisher { publisher < S.publishers }
        ensures { MakesCall D.gap D.request_ms publisher (call.Time moment signal.Pli)
            seat.old seat.new result }
    {
        self.reply(
            rt,
            seat,
            publisher,
            Call::Time {
                moment,
                signal: Signal::Pli,
            },
        )
    }

    /// It is this moment now, as `Desk::tick` says. A fault leaves all as it was.
    pub fn tick<R: Wait>(
        &self,
        rt: &R,
        seat: &mut DeskSeat<S>,
        publisher: usize,
        moment: u64,
    ) -> Result<(Receipt, Effect), HouseFault>
        requires publisher { publisher < S.publishers }
        ensures { MakesCall D.gap D.request_ms publisher (call.Time moment signal.Tick)
            seat.old seat.new result }
    {
        self.reply(
            rt,
            seat,
            publisher,
            Call::Time {
                moment,
                signal: Signal::Tick,
            },
        )
    }

    /// Requests of the publisher that are too old at this moment are taken away, as `Desk::expire` says. A
    /// fault leaves all as it was.
    pub fn expire<R: Wait>(
        &self,
        rt: &R,
        seat: &mut DeskSeat<S>,
        publisher: usize,
        moment: u64,
    ) -> Result<(Receipt, Effect), HouseFault>
        requires publisher { publisher < S.publishers }
        ensures { MakesCall D.gap D.request_ms publisher (call.Time moment signal.Expire)
            seat.old seat.new result }
    {
        self.reply(
            rt,
            seat,
            publisher,
            Call::Time {
                moment,
                signal: Signal::Expire,
            },
        )
    }

    /// Makes any of these calls, and says in `effect` what it changed in the announced set, whatever stood
    /// there. A fault leaves effect and seat as they were.
    pub fn call<R: Wait>(
        &self,
        rt: &R,
        seat: &mut DeskSeat<S>,
        publisher: usize,
        call: Call,
        effect: &mut Effect,
    ) -> Result<Receipt, HouseFault>
        requires publisher { publisher < S.publishers }
        requires stays { HasStay call }
        ensures seat { GetsReceipt D.gap D.request_ms publisher call seat.old seat.new result }
        ensures told { IfOk result (λ r. IsTold D.gap D.request_ms r effect.new) }
        ensures unchanged { OnErr result (effect.new ≡ effect.old) }
    {
        let mut hold = self.hold(rt, publisher);
        self.call_held(rt, seat, &mut hold, call, effect)
    }

    /// Makes any of these calls of a desk that is held, as `call` does, and leaves it held: what follows from the call can be told
    /// before another call is made. A fault leaves effect, seat and desk as they were.
    pub fn call_held<R: Wait>(
        &self,
        rt: &R,
        seat: &mut DeskSeat<S>,
        hold: &mut Hold<'_, D>,
        call: Call,
        effect: &mut Effect,
    ) -> Result<Receipt, HouseFault>
        requires publisher { hold.old.publisher < S.publishers }
        requires stays { HasStay call }
        ensures seat { GetsReceipt D.gap D.request_ms hold.old.publisher call
            seat.old seat.new result }
        ensures last { IfOk result (λ r. IsLastCall r effect.new hold.old.desk hold.new.desk) }
        ensures told { IfOk result (λ r. IsTold D.gap D.request_ms r effect.new) }
        ensures unchanged { OnErr result ((effect.new ≡ effect.old) × (hold.new ≡ hold.old)) }
        ensures place { hold.new.publisher ≡ hold.old.publisher }
    {
        let publisher = hold.publisher;
        seat.call(rt, &mut *hold.guard, &self.tally, publisher, call, effect)
    }

    /// A tick, without saying what is announced: a tick doesn't change that. A fault leaves the seat as it
    /// was.
    pub fn pulse<R: Wait>(
        &self,
        rt: &R,
        seat: &mut DeskSeat<S>,
        publisher: usize,
        moment: u64,
    ) -> Result<Receipt, HouseFault>
        requires publisher { publisher < S.publishers }
        ensures seat { GetsReceipt D.gap D.request_ms publisher (call.Time moment signal.Tick)
            seat.old seat.new result }
        ensures answered { IfOk result (IsPulsed D.gap D.request_ms) }
    {
        let mut hold = self.hold(rt, publisher);
        seat.pulse(rt, &mut *hold.guard, &self.tally, publisher, moment)
    }

    /// The publisher's desk, which nobody else calls until the hold is dropped: who waits for it waits so long.
    pub fn hold<R: Wait>(&self, rt: &R, publisher: usize) -> Hold<'_, D>
        requires { publisher < S.publishers }
        ensures { result.publisher ≡ publisher }
    {
        self.desks[publisher].hold(rt)
    }

    /// Makes a call, and hands its effect out with the receipt.
    fn reply<R: Wait>(
        &self,
        rt: &R,
        seat: &mut DeskSeat<S>,
        publisher: usize,
        call: Call,
    ) -> Result<(Receipt, Effect), HouseFault>
        requires publisher { publisher < S.publishers }
        requires stays { HasStay call }
        ensures { MakesCall D.gap D.request_ms publisher call seat.old seat.new result }
    {
        let mut effect = Effect::new();
        let receipt = self.call(rt, seat, publisher, call, &mut effect)?;
        Ok((receipt, effect))
    }
}

/// A desk for each publisher under its lock, in the order of the publishers, each with a part of the ledger.
fn new_desks<D: DeskCalls>(
    alloc: Global,
    shares: Share<D>,
    publishers: usize,
    gap: u64,
    request_ms: u64,
) -> Result<Vec<DeskLock<D>>, NoMemory>
    requires parts { publishers ≤ shares.parts }
    requires no_calls { shares.amount ≡ 0 }
    requires gap { gap ≡ D.gap }
    requires request_ms { request_ms ≡ D.request_ms }
    ensures count { IfOk result (λ desks. vec_len desks ≡ publishers) }
    ensures order { IfOk result
        (λ desks. EachIndex desks.items (λ p. slice_index desks.items p ≡ p)) }
{
    let mut shares = shares;
    let mut desks = Vec::with_capacity(alloc, publishers)?;
    for publisher in 0..publishers {
        let desk = Desk::new(alloc, gap, request_ms)?;
        let share = shares.split_off(1, 0);
        desks.push(DeskLock::new(publisher, desk, share))?;
    }
    Ok(desks)
}

/// Seats that made no calls, each with a part of the ledger.
fn new_seats<S: SeatCalls>(
    alloc: Global,
    shares: Share<S>,
    publishers: usize,
    seats: usize,
) -> Result<Vec<DeskSeat<S>>, NoMemory>
    requires publishers { publishers ≡ S.publishers }
    requires parts { seats ≤ shares.parts }
    requires no_calls { shares.amount ≡ 0 }
    ensures { IfOk result (λ free. free.items ≡ replicate seats (new_seat publishers)) }
{
    let mut shares = shares;
    let mut free = Vec::with_capacity(alloc, seats)?;
    for _at in 0..seats {
        let share = shares.split_off(1, 0);
        free.push(DeskSeat::new(alloc, publishers, share)?)?;
    }
    Ok(free)
}
