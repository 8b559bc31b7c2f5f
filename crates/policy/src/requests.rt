//! What subscribers asked for last.

ghost use Rattle.std.specs.Prelude.{◌≡◌, map, IfOk};
ghost use Rattle.policy.specs.Requests.{place_without, unasked};

use settings::LegSettings;
use std::alloc::{AllocError, Global};
use std::marker::Model;

/// What was asked for (RFC 5104, section 4.2.1.1), and when, in milliseconds.
#[derive(Clone, Copy)]
pub(crate) struct HeldRequest {
    pub(crate) word: u32,
    pub(crate) moment: u64,
}

/// Who is sent to on a leg, and what is held of it.
#[derive(Clone, Copy)]
pub(crate) struct LegRequest {
    /// The number of the endpoint.
    pub(crate) subscriber: u16,
    pub(crate) request: Option<HeldRequest>,
}

/// What is held for each leg, by its number.
#[derive(Drop)]
pub(crate) struct Requests {
    legs: Vec<LegRequest>,
}

impl Model for Requests {
    ghost use Rattle.std.specs.Prelude.{List};
    ghost use Rattle.policy.specs.declared.requests.LegRequest.{LegRequest};

    ghost Value = { List LegRequest };

    ghost view = { λ r. r.legs.items };
}

impl Requests {
    ghost use Rattle.std.specs.Prelude.{◌≡◌, IfOk, map, slice_get};
    ghost use Rattle.policy.specs.Requests.{place_without, unasked, with_request};

    /// Nothing was asked for on these legs.
    pub(crate) fn new(alloc: Global, legs: &[LegSettings]) -> Result<Requests, AllocError>
        ensures { IfOk result (λ r. r ≡ map unasked legs.now) }
    {
        Ok(Requests {
            legs: legs.iter().map(|leg| unasked(leg)).collect(alloc)?,
        })
    }

    /// What is held for the leg with this number.
    pub(crate) fn at(&self, leg: u16) -> Option<LegRequest>
        ensures { result ≡ slice_get self.now leg }
    {
        self.legs.get(usize::from(leg)).copied()
    }

    /// The subscriber of the leg with this number asks for this.
    pub(crate) fn ask(&mut self, leg: u16, request: HeldRequest)
        ensures { self.new ≡ with_request self.old leg request }
    {
        let at = usize::from(leg);
        if at < self.legs.len() {
            self.legs[at] = LegRequest {
                subscriber: self.legs[at].subscriber,
                request: Some(request),
            };
        }
    }

    /// The endpoint with this number left: what it asked for is forgotten.
    pub(crate) fn forget(&mut self, subscriber: u16)
        ensures { self.new ≡ map (place_without subscriber) self.old }
    {
        forget_all(self.legs.as_mut_slice(), subscriber);
    }
}

/// A leg on which nothing was asked for.
fn unasked(leg: &LegSettings) -> LegRequest
    ensures { result ≡ unasked leg.now }
{
    LegRequest {
        subscriber: leg.subscriber,
        request: None,
    }
}

/// Forgets what the endpoint asked for on these legs.
fn forget_all(legs: &mut [LegRequest], subscriber: u16)
    ensures { legs.new ≡ map (place_without subscriber) legs.old }
{
    for leg in legs.iter_mut() {
        if leg.subscriber == subscriber {
            leg.request = None;
        }
    }
}
