//! A seat: who may call the desks of a house, and how often it did.

use crate::held::HeldDesk;
use crate::ledger::{DeskCalls, SeatCalls, Tally};
use crate::receipt::{HouseFault, Receipt};
use desk::{CALL_LIMIT, Call, Effect, Recorded, Signal};
use std::alloc::{AllocError, Global};
use std::marker::Model;
use std::sync::ledger::Share;
use std::sync::{Mutex, Wait};

/// The right to call the desks of a house. It counts its recorded calls and the words that they requested.
#[derive(Drop)]
pub struct DeskSeat<S: SeatCalls> {
    /// The recorded calls to each publisher.
    calls: Vec<u64>,
    /// The sums of the words that they requested.
    words: Vec<u128>,
    share: Share<S>,
}

impl<S: SeatCalls> Model for DeskSeat<S> {
    ghost use Rattle.std.specs.Prelude.{◌≡◌, length};
    ghost use Rattle.rate_desk.specs.Shares.{SeatState, HasSmallWords};

    ghost Value = { SeatState };

    ghost view = { λ s. record {
      calls = s.calls.items;
      words = s.words.items;
      share = s.share.amount;
    } };

    ghost invariant = { λ s. (length s.calls.items ≡ S.publishers)
        × (length s.words.items ≡ S.publishers)
        × (s.share.parts ≡ 1) × HasSmallWords s.calls.items s.words.items };
}

impl<S: SeatCalls> DeskSeat<S> {
    ghost use Rattle.std.specs.Prelude.{◌≡◌, ◌<◌, ◌+◌, IfOk, OnOk, OnErr};
    ghost use Rattle.bounding_set.specs.State.{announced_of};
    ghost use Rattle.desk.specs.declared.call.Call.TheVariants as call;
    ghost use Rattle.desk.specs.declared.call.Signal.TheVariants as signal;
    ghost use Rattle.desk.specs.Call.{HasStay};
    ghost use Rattle.desk.specs.Effect.{IsEffect};
    ghost use Rattle.rate_desk.specs.Shares.{calls_to, words_to, new_seat, CallsHeldDesk, Counts, GetsReceipt, IsTold, IsPulsed};

    /// A seat that made no calls, with its part of the ledger.
    pub(crate) fn new(
        alloc: Global,
        publishers: usize,
        share: Share<S>,
    ) -> Result<DeskSeat<S>, AllocError>
        requires publishers { publishers ≡ S.publishers }
        requires one_part { share.parts ≡ 1 }
        requires no_calls { share.amount ≡ 0 }
        ensures { IfOk result (λ seat. seat ≡ new_seat publishers) }
    {
        Ok(DeskSeat {
            calls: vec![in alloc; 0; publishers]?,
            words: vec![in alloc; 0; publishers]?,
            share,
        })
    }

    /// How many of its calls to this publisher were recorded; 0 for one that isn't there.
    pub fn calls(&self, publisher: usize) -> u64
        ensures { result ≡ calls_to publisher self.now }
    {
        self.calls.get(publisher).copied().unwrap_or(0)
    }

    /// The sum of the words that they requested, accepted or refused; 0 for a publisher that isn't there.
    pub fn words(&self, publisher: usize) -> u128
        ensures { result ≡ words_to publisher self.now }
    {
        self.words.get(publisher).copied().unwrap_or(0)
    }

    /// Makes a call of the publisher's desk, and counts it; only for that it locks the tally.
    pub(crate) fn call<D: DeskCalls, R: Wait>(
        &mut self,
        rt: &R,
        held: &mut HeldDesk<D>,
        tally: &Mutex<Tally<D, S>>,
        publisher: usize,
        call: Call,
        effect: &mut Effect,
    ) -> Result<Receipt, HouseFault>
        requires stays { HasStay call }
        requires publisher { publisher < S.publishers }
        ensures desk { CallsHeldDesk publisher call self.old held.old.desk held.new.desk result }
        ensures seat { GetsReceipt D.gap D.request_ms publisher call self.old self.new result }
        ensures effect { OnOk result (IsEffect (announced_of held.old.desk.bounds)
            (announced_of held.new.desk.bounds) effect.new) }
        ensures told { IfOk result (λ r. IsTold D.gap D.request_ms r effect.new) }
        ensures unchanged { OnErr result (effect.new ≡ effect.old) }
    {
        let calls = held.desk.calls();
        if calls < self.calls(publisher) {
            if held.desk.is_over_limit(&call) {
                return Err(HouseFault::HistoryFull);
            }
            return Err(HouseFault::Behind(calls));
        }
        let HeldDesk { desk, share } = held;
        let Ok(Recorded { number, answer }) = desk.call(&call, effect) else {
            return Err(HouseFault::HistoryFull);
        };
        self.count(rt, share, tally, publisher, &call);
        Ok(Receipt {
            publisher,
            number,
            call,
            answer,
        })
    }

    /// A tick of the publisher's desk, as `call` makes it, without saying what is announced.
    pub(crate) fn pulse<D: DeskCalls, R: Wait>(
        &mut self,
        rt: &R,
        held: &mut HeldDesk<D>,
        tally: &Mutex<Tally<D, S>>,
        publisher: usize,
        moment: u64,
    ) -> Result<Receipt, HouseFault>
        requires publisher { publisher < S.publishers }
        ensures desk { CallsHeldDesk publisher (call.Time moment signal.Tick)
            self.old held.old.desk held.new.desk result }
        ensures seat { GetsReceipt D.gap D.request_ms publisher (call.Time moment signal.Tick)
            self.old self.new result }
        ensures announced { held.new.desk.bounds ≡ held.old.desk.bounds }
        ensures answered { IfOk result (IsPulsed D.gap D.request_ms) }
    {
        let tick = Call::Time {
            moment,
            signal: Signal::Tick,
        };
        let calls = held.desk.calls();
        if calls < self.calls(publisher) {
            if held.desk.is_over_limit(&tick) {
                return Err(HouseFault::HistoryFull);
            }
            return Err(HouseFault::Behind(calls));
        }
        let HeldDesk { desk, share } = held;
        let Ok(Recorded { number, answer }) = desk.pulse(moment) else {
            return Err(HouseFault::HistoryFull);
        };
        self.count(rt, share, tally, publisher, &tick);
        Ok(Receipt {
            publisher,
            number,
            call: tick,
            answer,
        })
    }

    /// Counts a call in the desk's share and in this seat.
    fn count<D: DeskCalls, R: Wait>(
        &mut self,
        rt: &R,
        recorded: &mut Share<D>,
        tally: &Mutex<Tally<D, S>>,
        publisher: usize,
        call: &Call,
    )
        requires publisher { publisher < S.publishers }
        requires few { calls_to publisher self.old < CALL_LIMIT }
        requires one_part { recorded.old.parts ≡ 1 }
        ensures counted { Counts publisher call.now self.old self.new }
        ensures amount { recorded.new.amount ≡ recorded.old.amount + 1 }
        ensures parts { recorded.new.parts ≡ 1 }
    {
        let DeskSeat {
            calls,
            words,
            share,
        } = self;
        tally.lock(rt).count(recorded, share);
        calls[publisher] += 1;
        words[publisher] += call.requested_word() as u128;
    }
}
