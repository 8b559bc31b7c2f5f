//! The stays of legs, as endpoints leave and come.

ghost use Rattle.std.specs.Prelude.{◌≡◌, ◌+◌, ◌<◌, ◌≤◌, ◌&&◌, ◌||◌, ◌==◌, not, length, map, None, Some, [], if◌then◌else◌};
ghost use Rattle.std.specs.Prelude.{true, false, nat_le, nat_lt, slice_set, IsTrue, Ok, Err};
ghost use Rattle.members.specs.Presence.{is_present_at, is_overdue_at, with_heard};
ghost use Rattle.members.specs.Room.{is_selected, leg_at, takes_turn, switched_leg, next_after, row_order};
ghost use Rattle.members.specs.Stays.{is_of, ending_of, endings, leg_without, leaving, begins_with, turn_from, beginning, coming_count, coming_orders, coming_legs, Tells};

use crate::order::{Draft, Order};
use crate::presence::{Endpoint, is_overdue_at, is_present_at, mark};
use settings::{MAX_LEGS, RoomFault};

/// Stays and turns are numbered from 1 to below this.
pub const MAX_STAY: u64 = 1 << 62;

/// A leg of a room.
#[derive(Clone, Copy)]
pub struct LegStay {
    /// The number of the endpoint that is sent to.
    pub subscriber: u16,
    /// The number of the endpoint whose packets these are.
    pub publisher: u16,
    /// The stay that stands; 0 if none does.
    pub stay: u64,
    /// The latest turn; 0 before the first.
    pub turn: u64,
    /// Whether the leg is selected.
    pub selected: bool,
}

impl LegStay {
    ghost use Rattle.std.specs.Prelude.{◌≡◌};
    ghost use Rattle.members.specs.Stays.{is_of, begins_with, turn_from};

    /// Whether the endpoint is the leg's subscriber or its publisher.
    pub fn is_of(&self, endpoint: usize) -> bool
        ensures { result ≡ is_of endpoint self.now }
    {
        usize::from(self.subscriber) == endpoint || usize::from(self.publisher) == endpoint
    }

    /// Whether a stay begins as the endpoint comes: the leg's other endpoint is present.
    pub fn begins_with(&self, endpoints: &[Endpoint], endpoint: usize) -> bool
        ensures { result ≡ begins_with endpoints.now endpoint self.now }
    {
        let subscriber = usize::from(self.subscriber);
        let publisher = usize::from(self.publisher);
        (subscriber == endpoint && is_present_at(endpoints, publisher))
            || (publisher == endpoint && is_present_at(endpoints, subscriber))
    }

    /// The turn of a stay that begins.
    pub fn turn_from(&self, stay: u64) -> u64
        ensures { result ≡ turn_from stay self.now }
    {
        if self.selected { stay } else { self.turn }
    }
}

/// Tells the end of the leg's stay, if one stands and the endpoint is one of the leg's.
fn tell_ending(number: u16, leg: &LegStay, endpoint: usize, draft: &mut Draft)
    ensures { Tells draft.old (ending_of endpoint (number, leg.now)) draft.new }
{
    if leg.is_of(endpoint) && leg.stay != 0 {
        draft.push(Order::Route {
            leg: number,
            stay: 0,
            turn: leg.turn,
            on: false,
        });
        draft.push(Order::Depart {
            leg: number,
            stay: leg.stay,
        });
    }
}

/// Tells the ends of the stays of an endpoint that leaves, leg by leg.
fn tell_endings(legs: &[LegStay], endpoint: usize, draft: &mut Draft)
    requires { length legs.now ≤ MAX_LEGS }
    ensures { Tells draft.old (endings endpoint legs.now) draft.new }
{
    for (number, leg) in legs.iter().enumerate() {
        tell_ending(number as u16, leg, endpoint, draft);
    }
}

/// Ends the stays of an endpoint that leaves.
fn end_stays(legs: &mut [LegStay], endpoint: usize)
    ensures { legs.new ≡ map (leg_without endpoint) legs.old }
{
    for leg in legs.iter_mut() {
        if leg.is_of(endpoint) {
            leg.stay = 0;
        }
    }
}

/// The endpoint leaves.
pub fn leave(endpoints: &mut [Endpoint], legs: &mut [LegStay], endpoint: usize, draft: &mut Draft)
    requires known { endpoint < length endpoints.old }
    requires few { length legs.old ≤ MAX_LEGS }
    ensures endpoints { endpoints.new ≡ with_heard endpoints.old endpoint None }
    ensures legs { legs.new ≡ map (leg_without endpoint) legs.old }
    ensures orders { Tells draft.old (endings endpoint legs.old) draft.new }
{
    tell_endings(legs, endpoint, draft);
    end_stays(legs, endpoint);
    mark(endpoints, endpoint, None);
}

/// Every endpoint that is overdue leaves, by rising number.
#[tactic(auto, unfolding(crate::specs::Stays::leaving))]
pub fn leave_overdue(
    endpoints: &mut [Endpoint],
    legs: &mut [LegStay],
    timeout: u64,
    moment: u64,
    draft: &mut Draft,
)
    requires { length legs.old ≤ MAX_LEGS }
    ensures endpoints { endpoints.new ≡ (leaving timeout moment endpoints.old legs.old).endpoints }
    ensures legs { legs.new ≡ (leaving timeout moment endpoints.old legs.old).legs }
    ensures orders { Tells draft.old
        (leaving timeout moment endpoints.old legs.old).orders draft.new }
{
    for endpoint in 0..endpoints.len() {
        if is_overdue_at(endpoints, timeout, moment, endpoint) {
            leave(endpoints, legs, endpoint, draft);
        }
    }
}

/// How many stays begin as the endpoint comes.
#[tactic(auto, unfolding(crate::specs::Stays::coming_count))]
pub fn count_beginning(endpoints: &[Endpoint], legs: &[LegStay], endpoint: usize) -> u64
    ensures value { result ≡ coming_count endpoints.now endpoint legs.now }
    ensures bound { result ≤ length legs.now }
{
    legs.iter()
        .filter(|leg| leg.begins_with(endpoints, endpoint))
        .count() as u64
}

/// Begins the leg's stay, if the leg's other endpoint is present; answers whether it did.
fn begin_stay(
    endpoints: &[Endpoint],
    number: u16,
    leg: &mut LegStay,
    endpoint: usize,
    next: u64,
    draft: &mut Draft,
) -> bool
    ensures begins { result ≡ begins_with endpoints.now endpoint leg.old }
    ensures leg { leg.new ≡ (if result
        then record leg.old { stay = next; turn = turn_from next leg.old } else leg.old) }
    ensures orders { Tells draft.old
        (if result then beginning number next leg.old else []) draft.new }
{
    if !leg.begins_with(endpoints, endpoint) {
        return false;
    }
    leg.turn = leg.turn_from(next);
    leg.stay = next;
    draft.push(Order::Arrive {
        leg: number,
        stay: next,
    });
    draft.push(Order::Route {
        leg: number,
        stay: next,
        turn: leg.turn,
        on: leg.selected,
    });
    true
}

/// Begins the stays of an endpoint that comes, leg by leg, each with the next number.
#[tactic(auto, unfolding(crate::specs::Stays::coming_legs, crate::specs::Stays::coming_orders))]
pub fn begin_stays(
    endpoints: &[Endpoint],
    legs: &mut [LegStay],
    endpoint: usize,
    next: u64,
    draft: &mut Draft,
)
    requires few { length legs.old ≤ MAX_LEGS }
    requires numbered { next ≤ MAX_STAY }
    ensures legs { legs.new ≡ coming_legs endpoints.now endpoint next legs.old }
    ensures orders { Tells draft.old
        (coming_orders endpoints.now endpoint next legs.old) draft.new }
{
    let mut next = next;
    for (number, leg) in legs.iter_mut().enumerate() {
        if begin_stay(endpoints, number as u16, leg, endpoint, next, draft) {
            next += 1;
        }
    }
}

/// The endpoint is heard: it comes if it isn't present, and its stays begin. Answers the next number
/// from then on; `StaysSpent` if there are too few numbers.
pub fn arrive(
    endpoints: &mut [Endpoint],
    legs: &mut [LegStay],
    endpoint: usize,
    moment: u64,
    next: u64,
    draft: &mut Draft,
) -> Result<u64, RoomFault>
    requires known { endpoint < length endpoints.old }
    requires few { length legs.old ≤ MAX_LEGS }
    requires numbered { next ≤ MAX_STAY }
    ensures again { is_present_at endpoints.old endpoint ≡ true
        → (result ≡ Ok next) × (legs.new ≡ legs.old) × (draft.new ≡ draft.old)
        × (endpoints.new ≡ with_heard endpoints.old endpoint (Some moment)) }
    ensures spent { is_present_at endpoints.old endpoint ≡ false
        → nat_lt MAX_STAY (next + coming_count endpoints.old endpoint legs.old) ≡ true
        → result ≡ Err RoomFault.StaysSpent }
    ensures comes { is_present_at endpoints.old endpoint ≡ false
        → nat_lt MAX_STAY (next + coming_count endpoints.old endpoint legs.old) ≡ false
        → (result ≡ Ok (next + coming_count endpoints.old endpoint legs.old))
        × (legs.new ≡ coming_legs endpoints.old endpoint next legs.old)
        × Tells draft.old (coming_orders endpoints.old endpoint next legs.old) draft.new
        × (endpoints.new ≡ with_heard endpoints.old endpoint (Some moment)) }
{
    if is_present_at(endpoints, endpoint) {
        mark(endpoints, endpoint, Some(moment));
        return Ok(next);
    }
    let count = count_beginning(endpoints, legs, endpoint);
    if next + count > MAX_STAY {
        return Err(RoomFault::StaysSpent);
    }
    begin_stays(endpoints, legs, endpoint, next, draft);
    mark(endpoints, endpoint, Some(moment));
    Ok(next + count)
}

/// The endpoint leaves, if it is present.
pub fn leave_present(
    endpoints: &mut [Endpoint],
    legs: &mut [LegStay],
    endpoint: usize,
    draft: &mut Draft,
)
    requires known { endpoint < length endpoints.old }
    requires few { length legs.old ≤ MAX_LEGS }
    ensures present { is_present_at endpoints.old endpoint ≡ true
        → (endpoints.new ≡ with_heard endpoints.old endpoint None)
        × (legs.new ≡ map (leg_without endpoint) legs.old)
        × Tells draft.old (endings endpoint legs.old) draft.new }
    ensures absent { is_present_at endpoints.old endpoint ≡ false
        → (endpoints.new ≡ endpoints.old) × (legs.new ≡ legs.old) × (draft.new ≡ draft.old) }
{
    if is_present_at(endpoints, endpoint) {
        leave(endpoints, legs, endpoint, draft);
    }
}

/// Selects the leg or not. If that is another selection, its row changes if a stay stands, and
/// switching on then takes the next number as turn. Answers the next number from then on.
pub fn select_leg(
    legs: &mut [LegStay],
    number: u16,
    on: bool,
    next: u64,
    draft: &mut Draft,
) -> Result<u64, RoomFault>
    requires known { number < length legs.old }
    requires numbered { next ≤ MAX_STAY }
    ensures same { IsTrue (is_selected on (leg_at legs.old number))
        → (result ≡ Ok next) × (legs.new ≡ legs.old) × (draft.new ≡ draft.old) }
    ensures spent { is_selected on (leg_at legs.old number) ≡ false
        → takes_turn on (leg_at legs.old number) ≡ true → MAX_STAY ≤ next
        → result ≡ Err RoomFault.StaysSpent }
    ensures switched_leg { is_selected on (leg_at legs.old number) ≡ false
        → (takes_turn on (leg_at legs.old number) && nat_le MAX_STAY next) ≡ false
        → (result ≡ Ok (next_after on next (leg_at legs.old number)))
        × (legs.new ≡ slice_set legs.old number (switched_leg on next (leg_at legs.old number)))
        × Tells draft.old
        (row_order number (switched_leg on next (leg_at legs.old number))) draft.new }
{
    let at = usize::from(number);
    let mut leg = legs[at];
    if leg.selected == on {
        return Ok(next);
    }
    let takes_turn = on && leg.stay != 0;
    if takes_turn && next >= MAX_STAY {
        return Err(RoomFault::StaysSpent);
    }
    leg.selected = on;
    if takes_turn {
        leg.turn = next;
    }
    if leg.stay != 0 {
        draft.push(Order::Route {
            leg: number,
            stay: leg.stay,
            turn: leg.turn,
            on,
        });
    }
    legs[at] = leg;
    Ok(if takes_turn { next + 1 } else { next })
}
