//! What a call changed in the announced set.

ghost use Rattle.std.specs.Prelude.{◌≡◌, ◌≢◌, ◌==◌, ◌≤◌, not, length, filter, AllPairs};
ghost use Rattle.std.specs.List.{list_any};
ghost use Rattle.rate_cert.specs.Choice.{IsChoice, chosen_requests};
ghost use Rattle.rate_cert.specs.Certificate.{kept_places};
ghost use Rattle.bounding_set.specs.State.{announced_of};
ghost use Rattle.desk.specs.Effect.{IsEffect, IsLifted, ssrcs_of, is_member};
ghost use Rattle.rate_cert.specs.declared.certificate.TheConstants.{MAX_REQUESTS as REQUESTS};

use arrayvec::ArrayVec;
use bounding_set::Bounds;
use rate_cert::{Cert, MAX_REQUESTS, Request};
use tmmbr_tuple::Ssrc;

/// The announced set, and what is new in it: what has to be told to the publisher and its subscribers
/// (RFC 5104, sections 4.2.1 and 4.2.2).
#[derive(Drop)]
pub struct Effect {
    /// The announced set, by rising overhead.
    pub set: ArrayVec<Request, MAX_REQUESTS>,
    /// The owners of the former set that have no request in this one, by rising SSRC.
    pub lifted: ArrayVec<Ssrc, MAX_REQUESTS>,
    /// The members of this set that weren't in the former one, in listed order: owner and word, so that
    /// another spelling of a rate is fresh.
    pub fresh: ArrayVec<Request, MAX_REQUESTS>,
}

impl Effect {
    ghost use Rattle.std.specs.Prelude.{◌≡◌, []};

    /// Nothing is announced, lifted or fresh: a place for what a call changes.
    pub fn new() -> Effect
        ensures set { result.set.items ≡ [] }
        ensures lifted { result.lifted.items ≡ [] }
        ensures fresh { result.fresh.items ≡ [] }
    {
        Effect {
            set: ArrayVec::new(),
            lifted: ArrayVec::new(),
            fresh: ArrayVec::new(),
        }
    }
}

/// Says that what is announced now was announced before.
pub fn show_unchanged(effect: &mut Effect, bounds: &Bounds)
    ensures { IsEffect (announced_of bounds.now) (announced_of bounds.now) effect.new }
{
    list_announced(bounds, &mut effect.set);
    effect.lifted.clear();
    effect.fresh.clear();
}

/// Says what changed from the former announced set to what is announced now.
pub fn show_change(effect: &mut Effect, former: &[Request], bounds: &Bounds)
    requires few { length former.now ≤ REQUESTS }
    requires once { AllPairs (λ x y. x.owner.0 ≢ y.owner.0) former.now }
    ensures { IsEffect former.now (announced_of bounds.now) effect.new }
{
    list_announced(bounds, &mut effect.set);
    let set = effect.set.as_slice();
    list_lifted(former, set, &mut effect.lifted);
    list_fresh(former, set, &mut effect.fresh);
}

/// Lists what is announced, in place of what stood there.
pub fn list_announced(bounds: &Bounds, set: &mut ArrayVec<Request, MAX_REQUESTS>)
    ensures { set.new.items ≡ announced_of bounds.now }
{
    list_kept(bounds.rows(), bounds.cert(), set);
}

/// Lists the requests that a certificate keeps, in its order, in place of what stood there.
fn list_kept(rows: &[Request], cert: &Cert, set: &mut ArrayVec<Request, MAX_REQUESTS>)
    requires { IsChoice rows.now (kept_places cert.now) }
    ensures { set.new.items ≡ chosen_requests rows.now (kept_places cert.now) }
{
    set.clear();
    let kept = cert.kept.as_slice();
    for entry in kept {
        set.push(rows[usize::from(entry.place)]);
    }
}

/// The owners that have a request in the former set and none in this one, by rising SSRC.
fn list_lifted(former: &[Request], set: &[Request], lifted: &mut ArrayVec<Ssrc, MAX_REQUESTS>)
    requires few { length former.now ≤ REQUESTS }
    requires once { AllPairs (λ x y. x.owner.0 ≢ y.owner.0) former.now }
    ensures { IsLifted former.now set.now (ssrcs_of lifted.new.items) }
{
    lifted.clear();
    for request in former {
        if !has_owner(set, request.owner) {
            lifted.push(request.owner);
        }
    }
    lifted.as_mut_slice().sort_unstable_by_key(|owner| owner.0);
}

/// The members of this set that weren't in the former one.
fn list_fresh(former: &[Request], set: &[Request], fresh: &mut ArrayVec<Request, MAX_REQUESTS>)
    requires few { length set.now ≤ REQUESTS }
    ensures { fresh.new.items ≡ filter (λ r. not (is_member former.now r)) set.now }
{
    fresh.clear();
    for request in set {
        if !is_in(former, request) {
            fresh.push(*request);
        }
    }
}

/// Whether the owner has a request among these.
fn has_owner(requests: &[Request], owner: Ssrc) -> bool
    ensures { result ≡ list_any (λ r. r.owner.0 == owner.0) requests.now }
{
    requests.iter().any(|r| r.owner == owner)
}

/// Whether the owner has just this request among these.
fn is_in(requests: &[Request], request: &Request) -> bool
    ensures { result ≡ is_member requests.now request.now }
{
    requests.iter().any(|r| request.owner == r.owner
        && request.tuple.to_word() == r.tuple.to_word())
}
