//! One publisher's desk: who may ask it for rates, what is asked, and what is announced.

use crate::NoMemory;
use crate::base::{Base, CALL_LIMIT};
use crate::call::{Answer, Call, Change, Entry, Signal};
use crate::effect::{Effect, list_announced, show_change, show_unchanged};
use crate::history::list;
use crate::standing::Standing;
use arrayvec::ArrayVec;
use circular_buffer::HeapCircularBuffer;
use rate_cert::{Cert, MAX_REQUESTS, Request};
use std::alloc::Global;
use std::marker::Model;
use thiserror::Error;
use tmmbr_tuple::{Ssrc, Tuple};

/// How many calls a desk lists. Those before them are folded into its base.
pub const HISTORY_LIMIT: usize = 1024;

/// The desk records no more: with the call, the calls of its life and the present owners together would
/// be more than `CALL_LIMIT`. So each owner that is present can still depart.
#[derive(Clone, Copy, Debug, PartialEq, Eq, Error)]
#[error("the history is full")]
pub struct HistoryFull;

/// How a call was recorded.
#[derive(Clone, Copy, PartialEq, Eq)]
pub struct Recorded {
    /// How many calls were recorded before it.
    pub number: u64,
    pub answer: Answer,
}

/// What a desk replies to a call that it records.
#[derive(Drop)]
pub struct Reply {
    /// How many calls were recorded before it.
    pub number: u64,
    pub answer: Answer,
    /// What the call changed in the announced set.
    pub effect: Effect,
}

/// One publisher's desk. It records each call with its answer, and announces the smallest set of the live
/// requests (RFC 5104, sections 3.5.4.2 and 4.2.2).
#[derive(Drop)]
pub struct Desk {
    standing: Standing,
    /// What stands for the calls before the listed ones.
    base: Base,
    /// The last calls.
    history: HeapCircularBuffer<Entry>,
    gap: u64,
    request_ms: u64,
}

impl Model for Desk {
    ghost use Rattle.desk.specs.State.{DeskState};
    ghost use Rattle.desk.specs.Held.{IsHeld};

    ghost Value = { DeskState };

    ghost view = { λ d. record {
      gap = d.gap;
      request_ms = d.request_ms;
      base = d.base;
      history = d.history.items;
      bounds = d.standing.bounds;
    } };

    ghost invariant = { λ d. IsHeld
        (record {
          gap = d.gap;
          request_ms = d.request_ms;
          base = d.base;
          history = d.history.items;
          bounds = d.standing.bounds;
        })
        d.history.capacity d.standing };
}

impl Desk {
    ghost use Rattle.std.specs.Prelude.{◌≡◌, ◌≤◌, ◌+◌, ◌↔◌, [], IsErr, IsTrue, IfOk, OnOk, OnErr};
    ghost use Rattle.bounding_set.specs.State.{announced_of};
    ghost use Rattle.desk.specs.declared.call.Call.TheVariants as call;
    ghost use Rattle.desk.specs.declared.call.Change.TheVariants as change;
    ghost use Rattle.desk.specs.declared.call.Signal.TheVariants as signal;
    ghost use Rattle.desk.specs.Call.{HasStay};
    ghost use Rattle.desk.specs.Trace.{empty_base, live_after, words_of};
    ghost use Rattle.desk.specs.Effect.{IsEffect};
    ghost use Rattle.desk.specs.State.{CallsDesk, HoldsLegalDesk, IsOverLimit, IsQuietCall, Records, call_count};

    /// A desk where nobody is present. It sends PLIs upstream at least `gap` milliseconds apart, and takes
    /// requests away that are `request_ms` milliseconds old; never where that is 0.
    pub fn new(alloc: Global, gap: u64, request_ms: u64) -> Result<Desk, NoMemory>
        ensures base { IfOk result (λ d. d.base ≡ empty_base) }
        ensures history { IfOk result (λ d. d.history ≡ []) }
        ensures gap { IfOk result (λ d. d.gap ≡ gap) }
        ensures request_ms { IfOk result (λ d. d.request_ms ≡ request_ms) }
        ensures legal { IfOk result HoldsLegalDesk }
    {
        Ok(Desk {
            standing: Standing::new(),
            base: Base::new(),
            history: HeapCircularBuffer::with_capacity(alloc, HISTORY_LIMIT)?,
            gap,
            request_ms,
        })
    }

    /// The owner comes: a stay of it begins, without a request.
    ///
    /// Answers `AlreadyPresent` where it is present, else `Full` where as many others are as may be.
    /// `HistoryFull` comes before both; then nothing changed.
    pub fn arrive(&mut self, owner: Ssrc, stay: u64) -> Result<Reply, HistoryFull>
        requires { 1 ≤ stay }
        ensures { CallsDesk self.old (call.Stay owner stay change.Arrive) self.new result }
    {
        self.reply(Call::Stay {
            owner,
            stay,
            change: Change::Arrive,
        })
    }

    /// The owner asks for a tuple, in the place of what it asked for before.
    ///
    /// Answers `NotPresent` where the owner isn't present with this stay. `HistoryFull` comes before; then
    /// nothing changed.
    pub fn request(&mut self, owner: Ssrc, stay: u64, tuple: Tuple) -> Result<Reply, HistoryFull>
        requires { 1 ≤ stay }
        ensures { CallsDesk self.old (call.Stay owner stay (change.Request tuple)) self.new result }
    {
        self.reply(Call::Stay {
            owner,
            stay,
            change: Change::Request(tuple),
        })
    }

    /// The owner's stay ends, and its request with it.
    ///
    /// Answers `NotPresent` where the owner isn't present with this stay; only then can `HistoryFull` come,
    /// before it, and then nothing changed.
    pub fn depart(&mut self, owner: Ssrc, stay: u64) -> Result<Reply, HistoryFull>
        requires { 1 ≤ stay }
        ensures { CallsDesk self.old (call.Stay owner stay change.Depart) self.new result }
    {
        self.reply(Call::Stay {
            owner,
            stay,
            change: Change::Depart,
        })
    }

    /// Somebody wants a picture at this moment, in milliseconds (RFC 4585, section 6.3.1). `HistoryFull`
    /// leaves everything as it was.
    pub fn pli(&mut self, moment: u64) -> Result<Reply, HistoryFull>
        ensures { CallsDesk self.old (call.Time moment signal.Pli) self.new result }
    {
        self.reply(Call::Time {
            moment,
            signal: Signal::Pli,
        })
    }

    /// It is this moment now, in milliseconds: a PLI that is wanted may be due. `HistoryFull` leaves
    /// everything as it was.
    pub fn tick(&mut self, moment: u64) -> Result<Reply, HistoryFull>
        ensures { CallsDesk self.old (call.Time moment signal.Tick) self.new result }
    {
        self.reply(Call::Time {
            moment,
            signal: Signal::Tick,
        })
    }

    /// It is this moment now, in milliseconds: requests that are too old are taken away; their owners stay
    /// present. `HistoryFull` leaves everything as it was.
    pub fn expire(&mut self, moment: u64) -> Result<Reply, HistoryFull>
        ensures { CallsDesk self.old (call.Time moment signal.Expire) self.new result }
    {
        self.reply(Call::Time {
            moment,
            signal: Signal::Expire,
        })
    }

    /// How many milliseconds at least lie between PLIs that it sends upstream.
    pub fn gap(&self) -> u64
        ensures { result ≡ self.now.gap }
    {
        self.gap
    }

    /// How many milliseconds old a request may grow; 0 for any age.
    pub fn request_ms(&self) -> u64
        ensures { result ≡ self.now.request_ms }
    {
        self.request_ms
    }

    /// What stands for the calls before the listed ones.
    pub fn base(&self) -> &Base
        ensures value { result.now ≡ self.now.base }
        ensures legal { HoldsLegalDesk self.now }
    {
        &self.base
    }

    /// The last calls with their answers, as many as are listed, the oldest first.
    pub fn history(&self) -> &HeapCircularBuffer<Entry>
        ensures value { result.now.items ≡ self.now.history }
        ensures legal { HoldsLegalDesk self.now }
    {
        &self.history
    }

    /// How many calls were recorded, listed or folded.
    pub fn calls(&self) -> u64
        ensures value { result ≡ call_count self.now }
        ensures legal { HoldsLegalDesk self.now }
    {
        self.standing.whole().calls
    }

    /// The sum of the words that they requested, accepted or refused.
    pub fn words(&self) -> u128
        ensures value { result ≡ self.now.base.words + words_of self.now.history }
        ensures legal { HoldsLegalDesk self.now }
    {
        self.standing.whole().words
    }

    /// The live requests, by rising owner.
    pub fn live(&self) -> &[Request]
        ensures value { result.now ≡ live_after self.now.request_ms self.now.base self.now.history }
        ensures legal { HoldsLegalDesk self.now }
    {
        self.standing.bounds().rows()
    }

    /// The announced set, by rising overhead.
    pub fn announced(&self) -> ArrayVec<Request, MAX_REQUESTS>
        ensures value { result.items ≡ announced_of self.now.bounds }
        ensures legal { HoldsLegalDesk self.now }
    {
        self.standing.bounds().announced()
    }

    /// The certificate of the announced set; its places count the live requests from 0.
    pub fn cert(&self) -> &Cert
        ensures value { result.now ≡ self.now.bounds.cert }
        ensures legal { HoldsLegalDesk self.now }
    {
        self.standing.bounds().cert()
    }

    /// Makes any of the calls, and says in `effect` what it changed in the announced set, whatever stood
    /// there. `HistoryFull` leaves desk and effect as they were.
    pub fn call(&mut self, call: &Call, effect: &mut Effect) -> Result<Recorded, HistoryFull>
        requires { HasStay call.now }
        ensures full { IsErr result ↔ IsOverLimit self.old call.now }
        ensures unchanged { OnErr result (self.new ≡ self.old) }
        ensures effect_unchanged { OnErr result (effect.new ≡ effect.old) }
        ensures recorded { IfOk result (λ r. Records self.old call.now r.number r.answer self.new) }
        ensures effect { OnOk result (IsEffect (announced_of self.old.bounds)
            (announced_of self.new.bounds) effect.new) }
        ensures legal { HoldsLegalDesk self.new }
    {
        if self.is_over_limit(call) {
            return Err(HistoryFull);
        }
        if self.is_quiet(call) {
            let recorded = self.record(call);
            show_unchanged(effect, self.standing.bounds());
            Ok(recorded)
        } else {
            let mut former = ArrayVec::new();
            list_announced(self.standing.bounds(), &mut former);
            let recorded = self.record(call);
            show_change(effect, former.as_slice(), self.standing.bounds());
            Ok(recorded)
        }
    }

    /// A tick, without saying what is announced: a tick doesn't change that. `HistoryFull` leaves
    /// everything as it was.
    pub fn pulse(&mut self, moment: u64) -> Result<Recorded, HistoryFull>
        ensures full { IsErr result ↔ IsOverLimit self.old (call.Time moment signal.Tick) }
        ensures unchanged { OnErr result (self.new ≡ self.old) }
        ensures recorded { IfOk result (λ r. Records self.old
            (call.Time moment signal.Tick) r.number r.answer self.new) }
        ensures set { self.new.bounds ≡ self.old.bounds }
        ensures legal { HoldsLegalDesk self.new }
    {
        let tick = Call::Time {
            moment,
            signal: Signal::Tick,
        };
        if self.is_over_limit(&tick) {
            return Err(HistoryFull);
        }
        Ok(self.record(&tick))
    }

    /// Makes a call, and hands its effect out with it.
    fn reply(&mut self, call: Call) -> Result<Reply, HistoryFull>
        requires { HasStay call }
        ensures { CallsDesk self.old call self.new result }
    {
        let mut effect = Effect::new();
        let Recorded { number, answer } = self.call(&call, &mut effect)?;
        Ok(Reply {
            number,
            answer,
            effect,
        })
    }

    /// Whether the call would be one too many, which the calls by which it is made refuse as `HistoryFull`.
    pub fn is_over_limit(&self, call: &Call) -> bool
        requires { HasStay call.now }
        ensures over { IsTrue result ↔ IsOverLimit self.now call.now }
        ensures legal { HoldsLegalDesk self.now }
    {
        let now = self.standing.whole();
        let room = CALL_LIMIT - now.calls;
        room < 1 + now.count_behind(call) as u64
    }

    /// Whether the call changes no request: by its kind, or since it is refused.
    fn is_quiet(&self, call: &Call) -> bool
        ensures { IsTrue result → IsQuietCall self.now call.now }
    {
        !call.may_change() || self.standing.whole().refusal(call).is_some()
    }

    /// Answers a call for which there is room, and records it. Where the history is full, its oldest entry
    /// is folded into the base.
    fn record(&mut self, call: &Call) -> Recorded
        requires stays { HasStay call.now }
        requires room { ¬ IsOverLimit self.old call.now }
        ensures recorded { Records self.old call.now result.number result.answer self.new }
        ensures quiet { IsQuietCall self.old call.now → self.new.bounds ≡ self.old.bounds }
        ensures legal { HoldsLegalDesk self.new }
    {
        let number = self.standing.whole().calls;
        let answer = self.standing.answer(self.gap, self.request_ms, call);
        let entry = Entry {
            call: *call,
            answer,
        };
        list(&mut self.base, &mut self.history, self.request_ms, entry);
        Recorded { number, answer }
    }
}
