//! The endpoints and the legs of a room.

ghost use Rattle.std.specs.Prelude.{◌≡◌, ◌≤◌, length, map, IfOk};
ghost use Rattle.members.specs.Stays.{leaving, Tells};
ghost use Rattle.members.specs.Room.{absent, idle_leg};

use crate::order::Draft;
use crate::presence::Endpoint;
use crate::stays::{LegStay, leave_overdue};
use settings::{LegSettings, MAX_LEGS, Settings};
use std::alloc::{AllocError, Global};
use tmmbr_tuple::Ssrc;

/// The endpoints and the legs.
#[derive(Drop)]
pub struct Table {
    pub endpoints: Vec<Endpoint>,
    pub legs: Vec<LegStay>,
}

/// Every endpoint, absent.
fn absent_endpoints(alloc: Global, sources: &[Ssrc]) -> Result<Vec<Endpoint>, AllocError>
    ensures { IfOk result (λ v. v.items ≡ map absent sources.now) }
{
    let endpoints = sources.iter().map(|ssrc| Endpoint {
        ssrc: *ssrc,
        heard: None,
    });
    endpoints.collect(alloc)
}

/// Every leg, without a stay.
fn unstarted_legs(alloc: Global, legs: &[LegSettings]) -> Result<Vec<LegStay>, AllocError>
    ensures { IfOk result (λ v. v.items ≡ map idle_leg legs.now) }
{
    let legs = legs.iter().map(|leg| LegStay {
        subscriber: leg.subscriber,
        publisher: leg.publisher,
        stay: 0,
        turn: 0,
        selected: leg.on,
    });
    legs.collect(alloc)
}

impl Table {
    /// The table of a new room.
    pub fn new(alloc: Global, settings: &Settings) -> Result<Table, AllocError>
        ensures endpoints { IfOk result
            (λ t. t.endpoints.items ≡ map absent settings.now.endpoints) }
        ensures legs { IfOk result (λ t. t.legs.items ≡ map idle_leg settings.now.legs) }
    {
        Ok(Table {
            endpoints: absent_endpoints(alloc, settings.endpoints())?,
            legs: unstarted_legs(alloc, settings.legs())?,
        })
    }

    /// Drafts the table that is left once those overdue at this moment left.
    pub fn redraft(&mut self, held: &Table, timeout: u64, moment: u64, orders: &mut Draft)
        requires endpoints { length self.old.endpoints.items ≡ length held.now.endpoints.items }
        requires legs { length self.old.legs.items ≡ length held.now.legs.items }
        requires few { length held.now.legs.items ≤ MAX_LEGS }
        ensures endpoints { self.new.endpoints.items
            ≡ (leaving timeout moment held.now.endpoints.items held.now.legs.items).endpoints }
        ensures legs { self.new.legs.items
            ≡ (leaving timeout moment held.now.endpoints.items held.now.legs.items).legs }
        ensures orders { Tells orders.old
            (leaving timeout moment held.now.endpoints.items held.now.legs.items).orders
            orders.new }
        ensures same_endpoints { length self.new.endpoints.items ≡ length held.now.endpoints.items }
        ensures same_legs { length self.new.legs.items ≡ length held.now.legs.items }
    {
        let endpoints = self.endpoints.as_mut_slice();
        endpoints.copy_from_slice(held.endpoints.as_slice());
        let legs = self.legs.as_mut_slice();
        legs.copy_from_slice(held.legs.as_slice());
        leave_overdue(endpoints, legs, timeout, moment, orders);
    }
}
