//! A room: who is present, which stays stand, and what was received of whom.

ghost use Rattle.std.specs.Prelude.{◌≡◌, map, IfOk};
ghost use Rattle.members.specs.Stays.{without_orders, leaving};
ghost use Rattle.members.specs.Stream.{nothing_heard};

use crate::NoMemory;
use crate::order::{Draft, Order};
use crate::presence::{LAST_MOMENT, first_overdue, is_overdue_at, is_present_at, mark, source_at};
use crate::reception::Reception;
use crate::stays::{LegStay, MAX_STAY, arrive, leave_present, select_leg};
use crate::table::Table;
use rtcp_compound::Block;
use settings::{RoomFault, Settings};
use std::alloc::Global;
use std::marker::Model;
use std::mem;
use tmmbr_tuple::Ssrc;

/// Who is present, which stays stand, and what was received of whom.
///
/// An endpoint is present from a packet of it that is heard until a goodbye, or until nothing was heard
/// of it for the timeout. A leg's stay begins once its subscriber and its publisher are there,
/// and ends with the first of them to leave. Each call that is handed a moment first lets those leave that are overdue
/// at it; the room's moment is the greatest that it was handed.
///
/// What is received of an endpoint while it is present is counted at the room's moment, anew whenever it
/// comes.
#[derive(Drop)]
pub struct Room {
    alloc: Global,
    timeout_ms: u64,
    moment: u64,
    /// The next number of a stay or a turn.
    next: u64,
    /// No present endpoint is overdue before this moment.
    quiet_until: u64,
    held: Table,
    /// Where a call drafts what it will leave, so that a refusal leaves everything as it was.
    draft: Table,
    /// What was received of each endpoint since it last came.
    receptions: Vec<Reception>,
}

/// Of each endpoint nothing was received.
fn new_receptions(alloc: Global, sources: &[Ssrc]) -> Result<Vec<Reception>, NoMemory>
    ensures { IfOk result (λ v. v.items ≡ map (λ _. nothing_heard) sources.now) }
{
    sources.iter().map(|_| Reception::new()).collect(alloc)
}

impl Model for Room {
    ghost use Rattle.members.specs.Room.{RoomState};
    ghost use Rattle.members.specs.Held.{IsWellFormed};

    ghost Value = { RoomState };

    ghost view = { λ r. record {
      timeout = r.timeout_ms;
      moment = r.moment;
      next = r.next;
      endpoints = r.held.endpoints.items;
      legs = r.held.legs.items;
      receptions = r.receptions.items;
    } };

    ghost invariant = { λ r. IsWellFormed r.timeout_ms r.next r.quiet_until
        r.held.endpoints.items r.held.legs.items
        r.draft.endpoints.items r.draft.legs.items r.receptions.items };
}

impl Room {
    ghost use Rattle.std.specs.Prelude.{◌≡◌, ◌<◌, ◌≤◌, ◌+◌, ◌*◌, ◌↔◌, ℕ, max, true, Err, IsTrue, IsOk, IsNone, IfNone, IfSome, IfOk, IfErr, OnOk, OnErr, MatchBool, MatchOption, count_by, length};
    ghost use Rattle.members.specs.Presence.{NobodyOverdue, is_present_at, source_at};
    ghost use Rattle.members.specs.Room.{new_room, tick_step, bye_step, hear_step, heard_step, select_step, after_leaving, leg_at, Answers, ChangesNothing, IsCalm, TakesStep};
    ghost use Rattle.members.specs.Room.{reception_at, after_packet, after_report, after_block};
    ghost use Rattle.members.specs.Calls.{Call, step_of};
    ghost use Rattle.members.specs.Stays.{begins_with};
    ghost use Rattle.settings.specs.declared.limits.TheConstants.{MAX_LEGS};
    ghost use Rattle.members.specs.Stream.{IsBlockAnswer, timestamps_of};

    /// The room of these settings: nobody is present, its moment is 0.
    pub fn new(alloc: Global, settings: &Settings) -> Result<Room, NoMemory>
        ensures { IfOk result (λ room. room ≡ new_room settings.now) }
    {
        Ok(Room {
            alloc,
            timeout_ms: settings.timeout_ms(),
            moment: 0,
            next: 1,
            quiet_until: 0,
            held: Table::new(alloc, settings)?,
            draft: Table::new(alloc, settings)?,
            receptions: new_receptions(alloc, settings.endpoints())?,
        })
    }

    /// The greatest moment handed in, in milliseconds; 0 before any.
    pub fn moment(&self) -> u64
        ensures { result ≡ self.now.moment }
    {
        self.moment
    }

    /// No endpoint is overdue before this moment. It is found anew, by going over the endpoints, only by a call that comes to it.
    pub fn quiet_until(&self) -> u64
        ensures { (moment : ℕ) → moment < result
            → NobodyOverdue self.now.timeout moment self.now.endpoints }
    {
        self.quiet_until
    }

    /// Whether the endpoint is present.
    pub fn is_present(&self, endpoint: u16) -> bool
        ensures value { result ≡ is_present_at self.now.endpoints endpoint }
        ensures known { IsTrue result → endpoint < length self.now.endpoints }
    {
        is_present_at(self.held.endpoints.as_slice(), usize::from(endpoint))
    }

    /// The stay of the leg; 0 if none stands.
    pub fn stay(&self, leg: u16) -> u64
        ensures { result ≡ (leg_at self.now.legs leg).stay }
    {
        match self.held.legs.get(usize::from(leg)) {
            Some(leg) => leg.stay,
            None => 0,
        }
    }

    /// No call gives more orders: a leg ends and begins once at most in it, by two orders each, and a selection gives one.
    pub fn most_orders(&self) -> usize
        ensures most { (call : Call) → IfOk (step_of self.now call)
            (λ step. length step.orders ≤ result) }
        ensures few { result ≤ 4 * MAX_LEGS + 1 }
    {
        4 * self.held.legs.as_slice().len() + 1
    }

    /// Whether no endpoint is overdue at this moment, and the moment isn't the last of all. Goes over the
    /// endpoints only if the moment was reached from which one may be.
    fn is_quiet(&mut self, moment: u64) -> bool
        ensures same { self.new ≡ self.old }
        ensures quiet { IsTrue result
            → leaving self.old.timeout moment self.old.endpoints self.old.legs
            ≡ without_orders self.old.endpoints self.old.legs }
        ensures finds { NobodyOverdue self.old.timeout moment self.old.endpoints
            → moment < LAST_MOMENT → IsTrue result }
    {
        if moment < self.quiet_until {
            return true;
        }
        self.quiet_until = first_overdue(self.held.endpoints.as_slice(), self.timeout_ms);
        moment < self.quiet_until
    }

    /// Lets every endpoint leave that is overdue at this moment. Refused as `NoMemory` alone; then
    /// nothing changed, the orders and the moment included. If nobody is overdue it takes none and isn't
    /// refused, unless the moment is the last of all.
    pub fn tick(&mut self, moment: u64, orders: &mut Vec<Order>) -> Result<(), RoomFault>
        ensures ok { OnOk result
            (TakesStep (tick_step self.old moment) orders.old.items self.new orders.new.items) }
        ensures unchanged { OnErr result
            (ChangesNothing self.old orders.old.items self.new orders.new.items) }
        ensures no_memory { IfErr result (λ fault. fault ≡ RoomFault.NoMemory) }
        ensures calm { IsCalm self.old moment → IsOk result }
    {
        self.tick_or_no_memory(moment, orders)?;
        Ok(())
    }

    /// The same, for who can be refused for want of memory alone.
    pub fn tick_or_no_memory(
        &mut self,
        moment: u64,
        orders: &mut Vec<Order>,
    ) -> Result<(), NoMemory>
        ensures ok { OnOk result
            (TakesStep (tick_step self.old moment) orders.old.items self.new orders.new.items) }
        ensures unchanged { OnErr result
            (ChangesNothing self.old orders.old.items self.new orders.new.items) }
        ensures calm { IsCalm self.old moment → IsOk result }
    {
        let moment = self.moment.max(moment);
        if self.is_quiet(moment) {
            self.moment = moment;
            return Ok(());
        }
        let mut draft = Draft::new(self.alloc);
        self.draft
            .redraft(&self.held, self.timeout_ms, moment, &mut draft);
        draft.append_to(orders)?;
        mem::swap(&mut self.held, &mut self.draft);
        self.quiet_until = 0;
        self.moment = moment;
        Ok(())
    }

    /// The endpoint says goodbye: after those overdue at this moment it leaves too, if it is present.
    ///
    /// Refused as `UnknownEndpoint`, or as `NoMemory`; then nothing changed, the orders and the moment
    /// included.
    pub fn bye(
        &mut self,
        moment: u64,
        endpoint: u16,
        orders: &mut Vec<Order>,
    ) -> Result<(), RoomFault>
        ensures { Answers self.old orders.old.items
            (bye_step self.old moment endpoint)
            result self.new orders.new.items }
    {
        let at = usize::from(endpoint);
        if at >= self.held.endpoints.len() {
            return Err(RoomFault::UnknownEndpoint);
        }
        let moment = self.moment.max(moment);
        let mut draft = Draft::new(self.alloc);
        self.draft
            .redraft(&self.held, self.timeout_ms, moment, &mut draft);
        let endpoints = self.draft.endpoints.as_mut_slice();
        let legs = self.draft.legs.as_mut_slice();
        leave_present(endpoints, legs, at, &mut draft);
        draft.append_to(orders)?;
        mem::swap(&mut self.held, &mut self.draft);
        self.quiet_until = 0;
        self.moment = moment;
        Ok(())
    }

    /// What `hear` refuses a packet of this source at the endpoint with, if no memory is wanting: `UnknownEndpoint`; `WrongSsrc` if the
    /// source isn't the endpoint's; `StaysSpent` if a stay that begins would get the number `MAX_STAY`; `None` if it takes the packet
    /// in. Who wants memory for a packet asks this first, so that a want of memory comes after these refusals.
    pub fn refuses(&self, moment: u64, endpoint: u16, ssrc: Ssrc) -> Option<RoomFault>
        ensures { MatchOption result (IsOk (hear_step self.now moment endpoint ssrc.0))
            (λ fault. hear_step self.now moment endpoint ssrc.0 ≡ Err fault) }
    {
        if let Some(fault) = self.refuses_source(endpoint, ssrc) {
            return Some(fault);
        }
        let moment = self.moment.max(moment);
        if self.spends_stays(moment, usize::from(endpoint)) {
            return Some(RoomFault::StaysSpent);
        }
        None
    }

    /// What a packet of this source at the endpoint is refused with at every moment; `None` if the endpoint is known and the source is
    /// its own.
    fn refuses_source(&self, endpoint: u16, ssrc: Ssrc) -> Option<RoomFault>
        ensures refused { IfSome result (λ fault. (moment : ℕ)
            → hear_step self.now moment endpoint ssrc.0 ≡ Err fault) }
        ensures own { IsNone result ↔ ((endpoint < length self.now.endpoints)
            × ((source_at self.now.endpoints endpoint).0 ≡ ssrc.0)) }
    {
        let at = usize::from(endpoint);
        if at >= self.held.endpoints.len() {
            return Some(RoomFault::UnknownEndpoint);
        }
        if source_at(self.held.endpoints.as_slice(), at).0 != ssrc.0 {
            return Some(RoomFault::WrongSsrc);
        }
        None
    }

    /// Whether more stays begin than numbers are left, if this endpoint is heard after those overdue at this moment left.
    fn spends_stays(&self, moment: u64, at: usize) -> bool
        ensures { MatchBool result
            (heard_step self.now moment at (after_leaving self.now moment)
            ≡ Err RoomFault.StaysSpent)
            (IsOk (heard_step self.now moment at (after_leaving self.now moment))) }
    {
        let legs = self.held.legs.as_slice();
        if self.next + legs.len() as u64 <= MAX_STAY {
            return false;
        }
        if self.remains(moment, at) {
            return false;
        }
        self.next + self.count_coming(moment, at) > MAX_STAY
    }

    /// Whether this endpoint is present at this moment, or at the room's own if that is later: it is present, and isn't overdue by
    /// then. So it is known before the room is handed the moment.
    pub fn is_present_by(&self, endpoint: u16, moment: u64) -> bool
        ensures { result ≡ is_present_at
            (after_leaving self.now (max self.now.moment moment)).endpoints endpoint }
    {
        self.remains(self.moment.max(moment), usize::from(endpoint))
    }

    /// Whether the endpoint is present after those overdue at this moment left.
    fn remains(&self, moment: u64, endpoint: usize) -> bool
        ensures { result ≡ is_present_at (after_leaving self.now moment).endpoints endpoint }
    {
        let endpoints = self.held.endpoints.as_slice();
        is_present_at(endpoints, endpoint)
            && !is_overdue_at(endpoints, self.timeout_ms, moment, endpoint)
    }

    /// Whether a stay of the leg begins as the endpoint comes, after those overdue at this moment left.
    fn begins(&self, leg: &LegStay, moment: u64, endpoint: usize) -> bool
        ensures { result
            ≡ begins_with (after_leaving self.now moment).endpoints endpoint leg.now }
    {
        let subscriber = usize::from(leg.subscriber);
        let publisher = usize::from(leg.publisher);
        (subscriber == endpoint && self.remains(moment, publisher))
            || (publisher == endpoint && self.remains(moment, subscriber))
    }

    /// How many stays begin as the endpoint comes, after those overdue at this moment left.
    fn count_coming(&self, moment: u64, endpoint: usize) -> u64
        ensures { result ≡ count_by
            (begins_with (after_leaving self.now moment).endpoints endpoint) self.now.legs }
    {
        self.held
            .legs
            .iter()
            .filter(|leg| self.begins(leg, moment, endpoint))
            .count() as u64
    }

    /// A packet of this source was heard at the endpoint, which comes if it isn't present: its
    /// reception begins anew. Those overdue at this moment leave before.
    ///
    /// Refused as `UnknownEndpoint`; as `WrongSsrc` if the source isn't the endpoint's; as `StaysSpent`
    /// if a stay that begins would get the number `MAX_STAY`; as `NoMemory`. Then nothing changed, the
    /// orders and the moment included. A present endpoint's own packet takes no memory and isn't refused
    /// if nobody is overdue, unless the moment is the last of all.
    pub fn hear(
        &mut self,
        moment: u64,
        endpoint: u16,
        ssrc: Ssrc,
        orders: &mut Vec<Order>,
    ) -> Result<(), RoomFault>
        ensures answers { Answers self.old orders.old.items
            (hear_step self.old moment endpoint ssrc.0)
            result self.new orders.new.items }
        ensures calm { (source_at self.old.endpoints endpoint).0 ≡ ssrc.0
            → is_present_at self.old.endpoints endpoint ≡ true → IsCalm self.old moment
            → IsOk result }
    {
        if let Some(fault) = self.refuses_source(endpoint, ssrc) {
            return Err(fault);
        }
        let moment = self.moment.max(moment);
        self.hear_known(moment, usize::from(endpoint), orders)
    }

    /// This endpoint is heard.
    fn hear_known(
        &mut self,
        moment: u64,
        at: usize,
        orders: &mut Vec<Order>,
    ) -> Result<(), RoomFault>
        requires { at < length self.old.endpoints }
        ensures answers { Answers self.old orders.old.items
            (heard_step self.old moment at (after_leaving self.old moment))
            result self.new orders.new.items }
        ensures calm { is_present_at self.old.endpoints at ≡ true
            → NobodyOverdue self.old.timeout moment self.old.endpoints
            → moment < LAST_MOMENT → IsOk result }
    {
        if !self.is_quiet(moment) || !is_present_at(self.held.endpoints.as_slice(), at) {
            return self.join(moment, at, orders);
        }
        mark(self.held.endpoints.as_mut_slice(), at, Some(moment));
        let overdue_from = moment.saturating_add(self.timeout_ms);
        self.quiet_until = self.quiet_until.min(overdue_from);
        self.moment = moment;
        Ok(())
    }

    /// An endpoint is heard when somebody may leave or it may come.
    fn join(&mut self, moment: u64, at: usize, orders: &mut Vec<Order>) -> Result<(), RoomFault>
        requires { at < length self.old.endpoints }
        ensures { Answers self.old orders.old.items
            (heard_step self.old moment at (after_leaving self.old moment))
            result self.new orders.new.items }
    {
        let mut draft = Draft::new(self.alloc);
        self.draft
            .redraft(&self.held, self.timeout_ms, moment, &mut draft);
        let comes = !is_present_at(self.draft.endpoints.as_slice(), at);
        let endpoints = self.draft.endpoints.as_mut_slice();
        let legs = self.draft.legs.as_mut_slice();
        let next = arrive(endpoints, legs, at, moment, self.next, &mut draft)?;
        draft.append_to(orders)?;
        mem::swap(&mut self.held, &mut self.draft);
        if comes {
            self.receptions[at] = Reception::new();
        }
        self.quiet_until = 0;
        self.next = next;
        self.moment = moment;
        Ok(())
    }

    /// Selects the leg or not, after those overdue at this moment left. Selecting what is selected already
    /// gives no order. Another selection is noted; if a stay stands, the leg's row changes, and switching on
    /// takes a new number as turn.
    ///
    /// Refused as `UnknownLeg`; as `StaysSpent` if the new number would be `MAX_STAY`; as `NoMemory`.
    /// Then nothing changed, the orders and the moment included.
    pub fn select(
        &mut self,
        moment: u64,
        leg: u16,
        on: bool,
        orders: &mut Vec<Order>,
    ) -> Result<(), RoomFault>
        ensures { Answers self.old orders.old.items
            (select_step self.old moment leg on)
            result self.new orders.new.items }
    {
        if usize::from(leg) >= self.held.legs.len() {
            return Err(RoomFault::UnknownLeg);
        }
        let moment = self.moment.max(moment);
        let mut draft = Draft::new(self.alloc);
        self.draft
            .redraft(&self.held, self.timeout_ms, moment, &mut draft);
        let legs = self.draft.legs.as_mut_slice();
        let next = select_leg(legs, leg, on, self.next, &mut draft)?;
        draft.append_to(orders)?;
        mem::swap(&mut self.held, &mut self.draft);
        self.quiet_until = 0;
        self.next = next;
        self.moment = moment;
        Ok(())
    }

    /// A packet of the endpoint came, with this sequence number and timestamp, at the room's moment. Does
    /// nothing if the endpoint is absent, or there is none of this number. The first
    /// `COUNTED_PACKETS` of a presence count.
    pub fn received(&mut self, endpoint: u16, seq: u16, timestamp: u32)
        ensures { self.new ≡ after_packet self.old endpoint seq timestamp }
    {
        if self.is_present(endpoint) {
            self.receptions[usize::from(endpoint)].received(self.moment, seq, timestamp);
        }
    }

    /// A sender report of the endpoint came, with these NTP and RTP timestamps, at the room's moment. Does
    /// nothing if the endpoint is absent, or there is none of this number.
    pub fn sender_report(&mut self, endpoint: u16, ntp: u64, rtp: u32)
        ensures { self.new ≡ after_report self.old endpoint ntp rtp }
    {
        if self.is_present(endpoint) {
            self.receptions[usize::from(endpoint)].sender_report(self.moment, ntp, rtp);
        }
    }

    /// The report block about the endpoint's source, at the room's moment (RFC 3550, section 6.4.1);
    /// `None` exactly if no packet of it was received in its present presence, and then nothing
    /// changes. The next block's interval begins where this one's ends.
    pub fn block(&mut self, endpoint: u16) -> Option<Block>
        ensures answer { IsBlockAnswer (reception_at self.old endpoint) self.old.moment
            (source_at self.old.endpoints endpoint) result }
        ensures none { IsNone result ↔ ((reception_at self.old endpoint).stream ≡ None) }
        ensures kept { self.new ≡ after_block self.old endpoint }
        ensures unchanged { IfNone result (self.new ≡ self.old) }
    {
        if !self.is_present(endpoint) {
            return None;
        }
        let at = usize::from(endpoint);
        let source = source_at(self.held.endpoints.as_slice(), at);
        self.receptions[at].block(self.moment, source)
    }

    /// The NTP and RTP timestamps of the endpoint's last sender report since it came; `None` if none
    /// came, or the endpoint is absent.
    pub fn last_sr(&self, endpoint: u16) -> Option<(u64, u32)>
        ensures { result ≡ timestamps_of (reception_at self.now endpoint).report }
    {
        if !self.is_present(endpoint) {
            return None;
        }
        self.receptions[usize::from(endpoint)].last_sr()
    }
}
