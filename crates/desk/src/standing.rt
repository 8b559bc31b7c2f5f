//! What a desk holds beside its history: what its calls come to, and what is announced for those present.

ghost use Rattle.std.specs.Prelude.{◌≡◌, ◌≤◌, map, None, false};
ghost use Rattle.bounding_set.specs.State.{AnnouncesSmallest};
ghost use Rattle.desk.specs.Call.{HasStay, may_change, moves_request, is_done};
ghost use Rattle.desk.specs.Presence.{HasRisingOwners, live_requests, refusal_of, refusal_in, without_old, present_changed};
ghost use Rattle.desk.specs.Trace.{present_behind, base_with};
ghost use Rattle.desk.specs.Answer.{IsAnswerTo, IsDone};
ghost use Rattle.desk.specs.Standing.{IsStand};

use crate::base::Base;
use crate::call::{Answer, Call, Change, Entry, Signal};
use crate::kept::kept_bits;
use crate::presence::{Present, is_too_old};
use bounding_set::Bounds;
use std::marker::Model;
use tmmbr_tuple::Ssrc;

/// What the calls of a desk come to, and the live requests of those present with what is announced for them.
#[derive(Drop)]
pub struct Standing {
    whole: Base,
    bounds: Bounds,
}

impl Model for Standing {
    ghost use Rattle.desk.specs.Standing.{Stand, IsStand};

    ghost Value = { Stand };

    ghost view = { λ s. record { whole = s.whole; bounds = s.bounds } };

    ghost invariant = { λ s. IsStand s.whole s.bounds };
}

impl Standing {
    ghost use Rattle.std.specs.Prelude.{◌≡◌, ◌<◌, false};
    ghost use Rattle.desk.specs.declared.base.TheConstants.{CALL_LIMIT};
    ghost use Rattle.desk.specs.Call.{HasStay, may_change, is_done};
    ghost use Rattle.desk.specs.Trace.{empty_base, base_with};
    ghost use Rattle.desk.specs.Answer.{IsAnswerTo};
    ghost use Rattle.desk.specs.Standing.{IsStand};

    /// No calls, and nothing is live.
    pub fn new() -> Standing
        ensures whole { result.whole ≡ empty_base }
        ensures stand { IsStand result.whole result.bounds }
    {
        Standing {
            whole: Base::new(),
            bounds: Bounds::new(),
        }
    }

    /// What the calls so far come to.
    pub fn whole(&self) -> &Base
        ensures value { result.now ≡ self.now.whole }
        ensures stand { IsStand self.now.whole self.now.bounds }
    {
        &self.whole
    }

    /// The live requests with what is announced for them.
    pub fn bounds(&self) -> &Bounds
        ensures value { result.now ≡ self.now.bounds }
        ensures stand { IsStand self.now.whole self.now.bounds }
    {
        &self.bounds
    }

    /// Answers a call, and takes it in: it is refused, or it is done.
    pub fn answer(&mut self, gap: u64, request_ms: u64, call: &Call) -> Answer
        requires stays { HasStay call.now }
        requires room { self.old.whole.calls < CALL_LIMIT }
        ensures owed { IsAnswerTo gap request_ms self.old.whole call.now result }
        ensures whole { self.new.whole
            ≡ base_with request_ms self.old.whole (record { call = call.now; answer = result }) }
        ensures refused { is_done result ≡ false → self.new.bounds ≡ self.old.bounds }
        ensures quiet { may_change call.now ≡ false → self.new.bounds ≡ self.old.bounds }
        ensures stand { IsStand self.new.whole self.new.bounds }
    {
        let answer = owed(&mut self.bounds, &self.whole, gap, request_ms, call);
        self.whole.take_in(
            request_ms,
            &Entry {
                call: *call,
                answer,
            },
        );
        answer
    }
}

/// The answer to a call after these calls: a refusal, or it is done in the live requests.
fn owed(bounds: &mut Bounds, before: &Base, gap: u64, request_ms: u64, call: &Call) -> Answer
    requires stays { HasStay call.now }
    requires stand { IsStand before.now bounds.old }
    ensures owed { IsAnswerTo gap request_ms before.now call.now result }
    ensures live { bounds.new.rows
        ≡ live_requests
        (base_with request_ms before.now
        (record { call = call.now; answer = result })).present.items }
    ensures announced { AnnouncesSmallest bounds.new }
    ensures refused { is_done result ≡ false → bounds.new ≡ bounds.old }
    ensures quiet { may_change call.now ≡ false → bounds.new ≡ bounds.old }
{
    match before.refusal(call) {
        Some(refusal) => refusal,
        None => done(bounds, before, gap, request_ms, call),
    }
}

/// Does a call that isn't refused in the live requests, and answers it.
fn done(bounds: &mut Bounds, before: &Base, gap: u64, request_ms: u64, call: &Call) -> Answer
    requires stays { HasStay call.now }
    requires accepted { refusal_of before.now.present.items call.now ≡ None }
    requires stand { IsStand before.now bounds.old }
    ensures done { IsDone gap request_ms before.now call.now result }
    ensures live { bounds.new.rows ≡ live_requests (present_behind request_ms before.now call.now) }
    ensures announced { AnnouncesSmallest bounds.new }
    ensures quiet { may_change call.now ≡ false → bounds.new ≡ bounds.old }
{
    let pli = before.goes_up(gap, call);
    follow(bounds, before, request_ms, call);
    let kept = kept_bits(bounds.cert());
    Answer::Done { pli, kept }
}

/// Puts or removes the requests that a call is about, if it isn't refused.
fn follow(bounds: &mut Bounds, before: &Base, request_ms: u64, call: &Call)
    requires stays { HasStay call.now }
    requires accepted { refusal_of before.now.present.items call.now ≡ None }
    requires stand { IsStand before.now bounds.old }
    ensures live { bounds.new.rows ≡ live_requests (present_behind request_ms before.now call.now) }
    ensures announced { AnnouncesSmallest bounds.new }
    ensures quiet { may_change call.now ≡ false → bounds.new ≡ bounds.old }
{
    match *call {
        Call::Stay {
            owner,
            stay,
            change,
        } => follow_change(bounds, before, owner, stay, &change),
        Call::Time {
            moment,
            signal: Signal::Expire,
        } => {
            let now = before.greatest.max(moment);
            remove_old(bounds, before.present.as_slice(), request_ms, now);
        }
        Call::Time { .. } => {}
    }
}

/// Puts or removes the request of an owner, if its change isn't refused.
fn follow_change(bounds: &mut Bounds, before: &Base, owner: Ssrc, stay: u64, change: &Change)
    requires stays { 1 ≤ stay }
    requires accepted { refusal_in before.now.present.items owner.0 stay change.now ≡ None }
    requires stand { IsStand before.now bounds.old }
    ensures live { bounds.new.rows
        ≡ live_requests
        (present_changed before.now.greatest before.now.present.items owner stay change.now) }
    ensures announced { AnnouncesSmallest bounds.new }
    ensures quiet { moves_request change.now ≡ false → bounds.new ≡ bounds.old }
{
    match *change {
        Change::Arrive => {}
        Change::Request(tuple) => {
            let _changed = bounds.set(owner, tuple).unwrap();
        }
        Change::Depart => {
            let _removed = bounds.remove(owner);
        }
    }
}

/// Removes the requests that are too old, one by one.
fn remove_old(bounds: &mut Bounds, present: &[Present], request_ms: u64, now: u64)
    requires rising { HasRisingOwners present.now }
    requires live { bounds.old.rows ≡ live_requests present.now }
    requires announced { AnnouncesSmallest bounds.old }
    ensures live { bounds.new.rows ≡ live_requests (map (without_old request_ms now) present.now) }
    ensures announced { AnnouncesSmallest bounds.new }
{
    for p in present {
        if is_too_old(p, request_ms, now) {
            let _removed = bounds.remove(p.owner);
        }
    }
}
