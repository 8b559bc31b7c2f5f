//! How often a subscriber's requests for a rate are heard: once in a gap on each leg at most, and the last of those that came within it after all.

ghost use Rattle.std.specs.Prelude.{◌≡◌, ◌≤◌, ◌<◌, ◌^◌, IfOk, IfSome, Some, length, map, take};
ghost use Rattle.policy.specs.Asking.{asking};
ghost use Rattle.policy.specs.RequestGaps.{asks_passed, due_from, due_word, first_due, gap_asked, gaps_after, gaps_with, gaps_on, heard_at, is_open, leg_without, look_of, passes, passes_on, said_on, unheard};

use crate::again::{Again, asked_on};
use crate::asking::{Asker, asked_by};
use crate::presence::is_there;
use datagram::Ask;
use members::RoomView;
use settings::{LegSettings, Settings};
use std::alloc::{AllocError, Global};
use std::marker::Model;

/// What was heard of a leg, and what waits.
#[derive(Clone, Copy)]
pub(crate) struct LegGap {
    /// The number of the endpoint that is sent to on it.
    pub(crate) subscriber: u16,
    /// The moment in milliseconds at which a request of it was heard last.
    pub(crate) heard: Option<u64>,
    /// What was asked for last since then (RFC 5104, section 4.2.1.1).
    pub(crate) waiting: Option<u32>,
}

/// Where and when what waits is looked for.
#[derive(Clone, Copy)]
struct Look<'a> {
    gap_ms: u64,
    view: RoomView<'a>,
    /// The moment in milliseconds.
    moment: u64,
}

/// What was heard of each leg, by its number.
#[derive(Drop)]
pub(crate) struct RequestGaps {
    /// How many milliseconds there are at least between two requests of a leg that are heard.
    gap_ms: u64,
    legs: Vec<LegGap>,
    /// Since the last tick: the least number of a leg that wasn't looked at.
    next: Option<usize>,
}

impl Model for RequestGaps {
    ghost use Rattle.std.specs.Prelude.{◌≤◌, ◌^◌, length};
    ghost use Rattle.policy.specs.RequestGaps.{GapState};

    ghost Value = { GapState };

    ghost view = { λ g. record {
      gap_ms = g.gap_ms;
      legs = g.legs.items;
      next = g.next;
    } };

    ghost invariant = { λ g. length g.legs.items ≤ 2 ^ 16 };
}

impl LegGap {
    /// Nothing was heard of this leg.
    fn new(leg: &LegSettings) -> LegGap
        ensures { result ≡ unheard leg.now }
    {
        LegGap {
            subscriber: leg.subscriber,
            heard: None,
            waiting: None,
        }
    }

    /// Whether no request of it was heard within the gap.
    fn is_open(self, gap_ms: u64, moment: u64) -> bool
        ensures { result ≡ is_open gap_ms moment self }
    {
        match self.heard {
            Some(heard) => moment.saturating_sub(heard) >= gap_ms,
            None => true,
        }
    }

    /// A request of it is heard.
    fn heard_at(self, moment: u64) -> LegGap
        ensures { result ≡ heard_at moment self }
    {
        LegGap {
            subscriber: self.subscriber,
            heard: Some(moment),
            waiting: None,
        }
    }

    /// Its subscriber asks for this: it is heard, or waits in place of what waited.
    fn asked(self, gap_ms: u64, moment: u64, word: u32) -> LegGap
        ensures { result ≡ gap_asked gap_ms moment word self }
    {
        if self.is_open(gap_ms, moment) {
            self.heard_at(moment)
        } else {
            LegGap {
                subscriber: self.subscriber,
                heard: self.heard,
                waiting: Some(word),
            }
        }
    }

    /// What waits, if its gap is over and its subscriber is there.
    fn due_word(self, look: Look<'_>) -> Option<u32>
        ensures { result ≡ due_word (look_of look.entry) self }
    {
        if self.is_open(look.gap_ms, look.moment)
            && is_there(look.view, self.subscriber, look.moment)
        {
            self.waiting
        } else {
            None
        }
    }
}

impl RequestGaps {
    ghost use Rattle.std.specs.Prelude.{◌≡◌, ◌≤◌, ◌^◌, IfOk, None, Some, is_some, length, map};
    ghost use Rattle.policy.specs.Asking.{asking};
    ghost use Rattle.policy.specs.RequestGaps.{HearsPaced, after_look, due_in, gaps_ticked, gaps_without, new_gaps, said_in};

    /// Nothing was heard on the legs of these settings.
    pub(crate) fn new(
        alloc: Global,
        settings: &Settings,
        gap_ms: u64,
    ) -> Result<RequestGaps, AllocError>
        ensures { IfOk result (λ g. g ≡ new_gaps settings.now gap_ms) }
    {
        Ok(RequestGaps {
            gap_ms,
            legs: gaps_of(alloc, settings.legs())?,
            next: None,
        })
    }

    /// An endpoint is there, and asks for this: what isn't heard at once is left out. If it comes, nothing of it waits.
    pub(crate) fn hear(&mut self, asker: Asker<'_>, asks: &mut Vec<Ask>)
        ensures { HearsPaced self.old self.new (asking asker.entry) asks.old.items asks.new.items }
    {
        if !is_there(asker.view, asker.endpoint, asker.moment) {
            self.forget(asker.endpoint);
        }
        let left = keep_passed(
            asks.as_mut_slice(),
            self.legs.as_mut_slice(),
            self.gap_ms,
            asker,
        );
        asks.truncate(left);
    }

    /// The endpoint with this number left: nothing of it waits.
    pub(crate) fn forget(&mut self, subscriber: u16)
        ensures { self.new ≡ gaps_without subscriber self.old }
    {
        forget_all(self.legs.as_mut_slice(), subscriber);
    }

    /// A tick was made: each leg is looked at once more.
    pub(crate) fn ticked(&mut self)
        ensures { self.new ≡ gaps_ticked self.old }
    {
        self.next = Some(0);
    }

    /// Whether a leg is still to be looked at.
    pub(crate) fn is_waiting(&self) -> bool
        ensures { result ≡ is_some self.now.next }
    {
        self.next.is_some()
    }

    /// What is heard now, since its gap is over: of the legs that weren't looked at since the last tick what waits on the first on which something
    /// is due. If there is none, all were looked at.
    pub(crate) fn next_due(&mut self, view: RoomView<'_>, moment: u64) -> Option<Again>
        ensures again { result ≡ said_in (due_in self.old view.entry moment) }
        ensures after { self.new ≡ after_look self.old moment (due_in self.old view.entry moment) }
    {
        let from = self.next?;
        let look = Look {
            gap_ms: self.gap_ms,
            view,
            moment,
        };
        let Some((place, again)) = first_due(self.legs.as_slice(), look, from) else {
            self.next = None;
            return None;
        };
        self.legs[place] = self.legs[place].heard_at(moment);
        self.next = Some(place + 1);
        Some(again)
    }
}

/// Nothing was heard of these legs.
fn gaps_of(alloc: Global, legs: &[LegSettings]) -> Result<Vec<LegGap>, AllocError>
    ensures { IfOk result (λ gaps. gaps.items ≡ map unheard legs.now) }
{
    legs.iter().map(|leg| LegGap::new(leg)).collect(alloc)
}

/// Forgets what waits on the legs to this endpoint.
fn forget_all(legs: &mut [LegGap], subscriber: u16)
    ensures { legs.new ≡ map (leg_without subscriber) legs.old }
{
    for leg in legs.iter_mut() {
        if leg.subscriber == subscriber {
            leg.waiting = None;
        }
    }
}

/// Moves what is heard at once of what is asked for to the front, in its order, and says how much that is.
fn keep_passed(asks: &mut [Ask], legs: &mut [LegGap], gap_ms: u64, asker: Asker<'_>) -> usize
    ensures left { take result asks.new
        ≡ asks_passed gap_ms (asking asker.entry) legs.old asks.old }
    ensures noted { legs.new ≡ gaps_after gap_ms (asking asker.entry) legs.old asks.old }
    ensures fewer { result ≤ length asks.new }
    ensures lengths { (length asks.new ≡ length asks.old) × (length legs.new ≡ length legs.old) }
{
    let mut kept: usize = 0;
    for at in 0..asks.len() {
        let ask = asks[at];
        if passes(legs, gap_ms, asker, ask) {
            asks[kept] = ask;
            kept += 1;
        }
    }
    kept
}

/// Whether what is asked for is heard at once. A rate that isn't waits.
fn passes(legs: &mut [LegGap], gap_ms: u64, asker: Asker<'_>, ask: Ask) -> bool
    ensures passes { result ≡ passes gap_ms (asking asker.entry) legs.old ask }
    ensures noted { legs.new ≡ gaps_with gap_ms (asking asker.entry) legs.old ask }
    ensures length { length legs.new ≡ length legs.old }
{
    match asked_by(asker.view.links, asker.endpoint, ask) {
        Some((leg, word)) => passes_on(legs, gap_ms, asker.moment, leg, word),
        None => true,
    }
}

fn passes_on(legs: &mut [LegGap], gap_ms: u64, moment: u64, leg: u16, word: u32) -> bool
    ensures passes { result ≡ passes_on gap_ms moment legs.old (Some (leg, word)) }
    ensures noted { legs.new ≡ gaps_on gap_ms moment legs.old (Some (leg, word)) }
    ensures length { length legs.new ≡ length legs.old }
{
    let at = usize::from(leg);
    if at >= legs.len() {
        return true;
    }
    let before = legs[at];
    legs[at] = before.asked(gap_ms, moment, word);
    before.is_open(gap_ms, moment)
}

/// Of these legs the first from this place on on which something is due: its place, and what is asked for.
fn first_due(legs: &[LegGap], look: Look<'_>, from: usize) -> Option<(usize, Again)>
    requires { length legs.now ≤ 2 ^ 16 }
    ensures found { result ≡ first_due (look_of look.entry) from 0 legs.now }
    ensures within { IfSome result (λ due. due.0 < length legs.now) }
{
    for (place, leg) in legs.iter().enumerate() {
        if let Some(again) = due_from(*leg, look, place as u16, from) {
            return Some((place, again));
        }
    }
    None
}

/// What is due on the leg with this number, if legs are looked at from `from` on.
fn due_from(leg: LegGap, look: Look<'_>, number: u16, from: usize) -> Option<Again>
    ensures { result ≡ due_from (look_of look.entry) from number leg }
{
    if usize::from(number) < from {
        return None;
    }
    let word = leg.due_word(look)?;
    asked_on(look.view.links, number, word)
}
