//! A conference: the machine of its settings, and what it gave out that wasn't taken yet.

ghost use Rattle.std.specs.Prelude.{◌≡◌, ◌≤◌, ◌∷◌, ◌↔◌, [], true, None, Err, length, drop, slice_get, option_map, IfErr, IfOk, IfSome, OnOk};
ghost use Rattle.bounding_set.specs.State.{announced_of};
ghost use Rattle.desk.specs.State.{DeskState};
ghost use Rattle.events.specs.declared.event.Event.TheVariants.{Hear, Select, Tick};
ghost use Rattle.core_steps.specs.Waits.{waiting_in};
ghost use Rattle.one_thread.specs.Driving.{Drives, IsIdle, is_from_outside};
ghost use Rattle.conference.specs.declared.fault.EventFault.TheVariants.{Busy, Unsettled};
ghost use Rattle.conference.specs.Certified.{Shows};
ghost use Rattle.conference.specs.Conference.{HearsLimited, IsNewConference, LeavesEvents, LeavesLimited, Serves, StopsAfter, datagram_of, conference_state};
ghost use Rattle.conference.specs.Limited.{EntryLimit, limit_by};

use crate::certified::{Certified, certified_by};
use crate::delivery::{Delivery, let_go, next_delivery, place_after};
use crate::fault::EventFault;
use crate::limited::{Limit, do_limited};
use arrayvec::ArrayVec;
use core_steps::{Waiting, World, hear};
use events::{Event, Out};
use one_thread::settle::{settle, step};
use rate_cert::{MAX_REQUESTS, Request};
use settings::Settings;
use std::alloc::{AllocError, Global};
use std::marker::Model;

/// A conference. Events from outside (`hear`, `tick`, `select`) are done with all that follows from them; the datagrams that are to
/// be sent then wait until they are taken (`next`, `take_next`).
#[derive(Drop)]
pub struct Conference {
    world: World,
    /// What the machine gave out.
    outs: Vec<Out>,
    /// How many of these are done with.
    taken: usize,
    /// How much of a datagram is heard, if that is bounded.
    limit: Limit,
}

impl Model for Conference {
    ghost use Rattle.std.specs.Prelude.{◌≡◌, ◌≤◌, drop, length};
    ghost use Rattle.ports.specs.Outside.{datagrams_of};
    ghost use Rattle.conference.specs.Conference.{ConferenceState};
    ghost use Rattle.conference.specs.Limited.{limit_of};

    ghost Value = { ConferenceState };

    ghost view = { λ c. record {
      world = c.world;
      waiting = datagrams_of (drop c.taken c.outs.items);
      limit = limit_of c.limit;
    } };

    ghost invariant = { λ c. (c.taken ≤ length c.outs.items) × (length c.world.workers ≡ 1) };
}

/// Whether nothing waits.
fn is_idle(world: &World) -> bool
    ensures { (result ≡ true) ↔ IsIdle world.now }
{
    let waiting = world.waiting();
    waiting.tasks == 0 && waiting.jobs == 0 && waiting.hands == 0
}

/// The world of these settings, in which nothing waits if they have one worker.
fn new_world(alloc: Global, settings: &Settings) -> Result<World, AllocError>
    requires one { settings.now.workers ≡ 1 }
    ensures is_new { IfOk result (λ w. (limit : EntryLimit)
        → IsNewConference settings.now (conference_state w [] 0 limit)) }
    ensures one { IfOk result (λ w. length w.workers ≡ 1) }
{
    let _workers = settings.workers();
    let world = World::new(alloc, settings)?;
    Ok(world)
}

/// A conference of a world that has given out nothing yet, by this key of its settings.
fn conference_of(alloc: Global, world: World, entry_limit: u32) -> Conference
    requires one { length world.workers ≡ 1 }
    ensures { result ≡ conference_state world [] 0 (limit_by entry_limit) }
{
    Conference {
        world,
        outs: Vec::new(alloc),
        taken: 0,
        limit: Limit::by(alloc, entry_limit),
    }
}

/// All that follows from what was done is done.
pub(crate) fn finish(world: &mut World, outs: &mut Vec<Out>) -> Result<(), EventFault>
    requires one { length world.old.workers ≡ 1 }
    ensures drives { Drives [] world.old outs.old.items world.new outs.new.items }
    ensures idle { OnOk result (IsIdle world.new) }
    ensures one { length world.new.workers ≡ 1 }
    ensures err { IfErr result (λ fault. fault ≡ Unsettled) }
{
    match settle(world, outs) {
        Ok(()) => Ok(()),
        Err(_) => Err(EventFault::Unsettled),
    }
}

/// An event from outside is done, which finds nothing waiting, and all that follows from it.
#[tactic(auto, using(one_thread::proofs::DrivingLemmas::taken_in, one_thread::proofs::DrivingLemmas::same_count))]
fn do_event(world: &mut World, event: Event, outs: &mut Vec<Out>) -> Result<(), EventFault>
    requires outside { is_from_outside event ≡ true }
    requires one { length world.old.workers ≡ 1 }
    requires idle { IsIdle world.old }
    ensures ok { OnOk result (Drives (event ∷ []) world.old outs.old.items
        world.new outs.new.items) }
    ensures idle { OnOk result (IsIdle world.new) }
    ensures one { length world.new.workers ≡ 1 }
    ensures err { IfErr result (StopsAfter (event ∷ []) world.old outs.old.items
        world.new outs.new.items) }
{
    if step(world, event, outs).is_err() {
        return Err(EventFault::NoMemory);
    }
    finish(world, outs)
}

/// A datagram of this endpoint is heard, which finds nothing waiting, and all that follows from it is done.
#[tactic(auto, using(one_thread::proofs::DrivingLemmas::taken_in, one_thread::proofs::DrivingLemmas::same_count))]
fn do_hear(
    world: &mut World,
    moment: u64,
    endpoint: u16,
    bytes: &[u8],
    outs: &mut Vec<Out>,
) -> Result<(), EventFault>
    requires one { length world.old.workers ≡ 1 }
    requires idle { IsIdle world.old }
    ensures ok { OnOk result (Drives (Hear moment endpoint bytes.now ∷ [])
        world.old outs.old.items world.new outs.new.items) }
    ensures idle { OnOk result (IsIdle world.new) }
    ensures one { length world.new.workers ≡ 1 }
    ensures err { IfErr result (StopsAfter (Hear moment endpoint bytes.now ∷ [])
        world.old outs.old.items world.new outs.new.items) }
{
    if hear(world, moment, endpoint, bytes, outs).is_err() {
        return Err(EventFault::NoMemory);
    }
    finish(world, outs)
}

impl Conference {
    /// The conference of these settings, which have one worker. Refused for want of memory alone.
    pub fn new(alloc: Global, settings: &Settings) -> Result<Conference, AllocError>
        requires one { settings.now.workers ≡ 1 }
        ensures is_new { IfOk result (IsNewConference settings.now) }
        ensures unlimited { IfOk result (λ c. c.limit ≡ limit_by 0) }
    {
        let made = Conference::with_entry_limit(alloc, settings, 0)?;
        Ok(made)
    }

    /// The same, of which `hear_limited` hears so many entries of one datagram's feedback, the first; 0 for all.
    pub fn with_entry_limit(
        alloc: Global,
        settings: &Settings,
        entry_limit: u32,
    ) -> Result<Conference, AllocError>
        requires one { settings.now.workers ≡ 1 }
        ensures is_new { IfOk result (IsNewConference settings.now) }
        ensures limit { IfOk result (λ c. c.limit ≡ limit_by entry_limit) }
    {
        let world = new_world(alloc, settings)?;
        Ok(conference_of(alloc, world, entry_limit))
    }

    /// Lets go of what was given out, once none of it waits to be taken: what is no datagram doesn't pile up.
    fn forget_taken(&mut self)
        ensures { self.new ≡ self.old }
    {
        self.taken = let_go(&mut self.outs, self.taken);
    }

    /// An event from outside is done, which finds nothing waiting.
    #[tactic(auto, using(crate::proofs::ServedLemmas::serves_of, crate::proofs::ServedLemmas::still_within, crate::proofs::ServedLemmas::leaves_of))]
    fn take(&mut self, event: Event) -> Result<(), EventFault>
        requires outside { is_from_outside event ≡ true }
        requires idle { IsIdle self.old.world }
        ensures ok { OnOk result (Serves (event ∷ []) self.old self.new) }
        ensures settled { OnOk result (IsIdle self.new.world) }
        ensures err { IfErr result (LeavesEvents (event ∷ []) self.old self.new) }
        ensures limit { self.new.limit ≡ self.old.limit }
    {
        self.forget_taken();
        do_event(&mut self.world, event, &mut self.outs)
    }

    /// A datagram of this endpoint is heard, which finds nothing waiting.
    #[tactic(auto, using(crate::proofs::ServedLemmas::serves_of, crate::proofs::ServedLemmas::still_within, crate::proofs::ServedLemmas::leaves_of))]
    fn take_datagram(&mut self, moment: u64, endpoint: u16, bytes: &[u8]) -> Result<(), EventFault>
        requires idle { IsIdle self.old.world }
        ensures ok { OnOk result (Serves (Hear moment endpoint bytes.now ∷ []) self.old self.new) }
        ensures settled { OnOk result (IsIdle self.new.world) }
        ensures err { IfErr result
            (LeavesEvents (Hear moment endpoint bytes.now ∷ []) self.old self.new) }
        ensures limit { self.new.limit ≡ self.old.limit }
    {
        self.forget_taken();
        do_hear(&mut self.world, moment, endpoint, bytes, &mut self.outs)
    }

    /// A datagram came from this endpoint at this moment, in milliseconds: it is heard, with all that follows. What is to be sent
    /// waits after what was to be sent before. All that its feedback asks for is done, whatever `hear_limited` would hear of it.
    ///
    /// Refused as `Busy`, exactly if something waits, and as `NoMemory`: then nothing was done. As `Unsettled` if there is no
    /// memory for all that follows: then it was heard, and the rest waits for `settle`.
    pub fn hear(&mut self, moment: u64, endpoint: u16, bytes: &[u8]) -> Result<(), EventFault>
        ensures ok { OnOk result (Serves (Hear moment endpoint bytes.now ∷ []) self.old self.new) }
        ensures settled { OnOk result (IsIdle self.new.world) }
        ensures busy { ¬ IsIdle self.old.world → result ≡ Err Busy }
        ensures err { IfErr result
            (LeavesEvents (Hear moment endpoint bytes.now ∷ []) self.old self.new) }
        ensures limit { self.new.limit ≡ self.old.limit }
    {
        if !is_idle(&self.world) {
            return Err(EventFault::Busy);
        }
        self.take_datagram(moment, endpoint, bytes)
    }

    /// A datagram is heard up to the limit, which finds nothing waiting.
    #[tactic(auto, using(crate::proofs::LimitedLemmas::hears_of, crate::proofs::LimitedLemmas::limited_within, crate::proofs::LimitedLemmas::leaves_limited))]
    fn take_limited(&mut self, moment: u64, endpoint: u16, bytes: &[u8]) -> Result<(), EventFault>
        requires idle { IsIdle self.old.world }
        ensures ok { OnOk result (HearsLimited moment endpoint bytes.now self.old self.new) }
        ensures settled { OnOk result (IsIdle self.new.world) }
        ensures err { IfErr result (LeavesLimited moment endpoint bytes.now self.old self.new) }
    {
        self.forget_taken();
        do_limited(
            &mut self.world,
            moment,
            endpoint,
            bytes,
            &mut self.limit,
            &mut self.outs,
        )
    }

    /// A datagram came, as `hear` has it. Of its feedback no more entries are heard than the conference was opened with, the first in the order of
    /// packets and entries, a PLI as one; the others are passed over, and counted (`entries_beyond`). All of the datagram is read first, so that a
    /// fault refuses it wherever that stands. What is done is what `hear` does of a datagram with the first entries alone (`HearsLimited`): with no
    /// limit, and of one that has no more, of the datagram itself. Refused as `hear` is.
    pub fn hear_limited(
        &mut self,
        moment: u64,
        endpoint: u16,
        bytes: &[u8],
    ) -> Result<(), EventFault>
        ensures ok { OnOk result (HearsLimited moment endpoint bytes.now self.old self.new) }
        ensures settled { OnOk result (IsIdle self.new.world) }
        ensures busy { ¬ IsIdle self.old.world → result ≡ Err Busy }
        ensures err { IfErr result (LeavesLimited moment endpoint bytes.now self.old self.new) }
    {
        if !is_idle(&self.world) {
            return Err(EventFault::Busy);
        }
        self.take_limited(moment, endpoint, bytes)
    }

    /// It is this moment, in milliseconds: what has come with time is done, with all that follows. Refused as `hear` is.
    pub fn tick(&mut self, moment: u64) -> Result<(), EventFault>
        ensures ok { OnOk result (Serves (Tick moment ∷ []) self.old self.new) }
        ensures settled { OnOk result (IsIdle self.new.world) }
        ensures busy { ¬ IsIdle self.old.world → result ≡ Err Busy }
        ensures err { IfErr result (LeavesEvents (Tick moment ∷ []) self.old self.new) }
        ensures limit { self.new.limit ≡ self.old.limit }
    {
        if !is_idle(&self.world) {
            return Err(EventFault::Busy);
        }
        self.take(Event::Tick(moment))
    }

    /// The leg of this number is selected from this moment on, in milliseconds, or not, with all that follows. Refused as `hear` is.
    pub fn select(&mut self, moment: u64, leg: u16, on: bool) -> Result<(), EventFault>
        ensures ok { OnOk result (Serves (Select moment leg on ∷ []) self.old self.new) }
        ensures settled { OnOk result (IsIdle self.new.world) }
        ensures busy { ¬ IsIdle self.old.world → result ≡ Err Busy }
        ensures err { IfErr result (LeavesEvents (Select moment leg on ∷ []) self.old self.new) }
        ensures limit { self.new.limit ≡ self.old.limit }
    {
        if !is_idle(&self.world) {
            return Err(EventFault::Busy);
        }
        self.take(Event::Select(moment, leg, on))
    }

    /// What waits is done. Refused for want of memory alone: then the first of it was done, and the rest waits.
    #[tactic(auto, using(crate::proofs::ServedLemmas::serves_of, crate::proofs::ServedLemmas::still_within))]
    pub fn settle(&mut self) -> Result<(), AllocError>
        ensures serves { Serves [] self.old self.new }
        ensures settled { OnOk result (IsIdle self.new.world) }
        ensures limit { self.new.limit ≡ self.old.limit }
    {
        self.forget_taken();
        settle(&mut self.world, &mut self.outs)
    }

    /// The datagram that is to be sent next; none, if all were taken.
    pub fn next(&self) -> Option<Delivery<'_>>
        ensures { option_map datagram_of result ≡ slice_get self.now.waiting 0 }
    {
        next_delivery(self.outs.as_slice(), self.taken)
    }

    /// The datagram that is to be sent next is taken: from now on it is the one after it. Nothing is done if there is none.
    pub fn take_next(&mut self)
        ensures waiting { self.new.waiting ≡ drop 1 self.old.waiting }
        ensures world { self.new.world ≡ self.old.world }
        ensures limit { self.new.limit ≡ self.old.limit }
    {
        self.taken = place_after(self.outs.as_slice(), self.taken);
    }

    /// What is announced for the publisher of this number, by rising overhead: the smallest set of its live requests that permits
    /// what they together permit. None, if there is no such endpoint.
    pub fn announced(&self, publisher: u16) -> Option<ArrayVec<Request, MAX_REQUESTS>>
        ensures none { (result ≡ None) ↔ (length self.now.world.desks ≤ publisher) }
        ensures some { (d : DeskState) → slice_get self.now.world.desks publisher ≡ Some d
            → IfSome result (λ set. set.items ≡ announced_of d.bounds) }
    {
        if usize::from(publisher) < self.world.publishers() {
            Some(self.world.desk(publisher).announced())
        } else {
            None
        }
    }

    /// What is live for the publisher of this number, and the certificate of what is announced for it. None, if there is no such
    /// endpoint.
    pub fn certified(&self, publisher: u16) -> Option<Certified<'_>>
        ensures none { (result ≡ None) ↔ (length self.now.world.desks ≤ publisher) }
        ensures some { (d : DeskState) → slice_get self.now.world.desks publisher ≡ Some d
            → IfSome result (λ shown. Shows d.bounds shown) }
    {
        if usize::from(publisher) < self.world.publishers() {
            Some(certified_by(self.world.desk(publisher)))
        } else {
            None
        }
    }

    /// How many entries `hear_limited` passed over since the opening; it stays at `u64::MAX` once there.
    pub fn entries_beyond(&self) -> u64
        ensures { result ≡ self.now.limit.beyond }
    {
        self.limit.beyond
    }

    /// What waits: nothing, unless a call met no memory.
    pub fn waiting(&self) -> Waiting
        ensures { result ≡ waiting_in self.now.world }
    {
        self.world.waiting()
    }
}
