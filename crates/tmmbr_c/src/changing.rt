//! One live request of a state is changed.

ghost use Rattle.std.specs.Prelude.{◌≡◌, ◌≢◌, ◌↔◌, None, IsTrue};
ghost use Rattle.tmmbr_c.specs.Standing.{AnswersRemove, AnswersSet, OnHeld};

use crate::faults::{CLOSED, DONE, FULL, NOT_LIVE, REQUEST_RANGE};
use crate::numbers::{TmmbrChange, TmmbrRequest};
use crate::reading::read_request;
use crate::slot::TmmbrState;
use bounding_set::Bounds;
use std::alloc::Global;
use tmmbr_tuple::Ssrc;

/// A refusal of a change.
fn refused(fault: u32) -> TmmbrChange
    ensures { result ≡ record { fault = fault; changed = 0 } }
{
    TmmbrChange { fault, changed: 0 }
}

/// 1 if the announced set changed; else 0.
fn told(changed: bool) -> u32
    ensures { (result ≡ 1) ↔ IsTrue changed }
{
    u32::from(changed)
}

/// Puts the request, or replaces its owner's.
fn set(bounds: &mut Bounds, asked: &TmmbrRequest) -> TmmbrChange
    ensures { AnswersSet asked.now result bounds.old bounds.new }
{
    let Some(request) = read_request(asked) else {
        return refused(REQUEST_RANGE);
    };
    match bounds.set(request.owner, request.tuple) {
        Ok(changed) => TmmbrChange {
            fault: DONE,
            changed: told(changed),
        },
        Err(_) => refused(FULL),
    }
}

/// Removes the owner's request.
fn remove(bounds: &mut Bounds, ssrc: u32) -> u32
    ensures { AnswersRemove ssrc result bounds.old bounds.new }
{
    match bounds.remove(Ssrc(ssrc)) {
        Some(_) => DONE,
        None => NOT_LIVE,
    }
}

/// Puts the request among the live ones, or in place of its owner's, and answers whether the announced set changed: other requests in
/// it, or another spelling of one.
///
/// Refused as `CLOSED`; as `REQUEST_RANGE`; as `FULL`, if the owner has no live request and as many are live as may be. Then nothing
/// changed.
#[unsafe(no_mangle)]
pub extern "C" fn tmmbr_set(
    alloc: Global,
    state: &mut TmmbrState,
    asked: &TmmbrRequest,
) -> TmmbrChange
    ensures answers { result.fault ≢ CLOSED → OnHeld (AnswersSet asked.now result)
        state.old.handle.held state.new.handle.held }
    ensures closed { (result.fault ≡ CLOSED) ↔ (state.old.handle.held ≡ None) }
    ensures unchanged { result.fault ≡ CLOSED
        → (state.new.handle.held ≡ None) × (result.changed ≡ 0) }
{
    let Some(mut held) = state.take(alloc) else {
        return refused(CLOSED);
    };
    let answer = set(&mut held, asked);
    state.put(held);
    answer
}

/// Removes the live request of this owner. Refused as `CLOSED`; as `NOT_LIVE`, if it has none: then nothing changed.
#[unsafe(no_mangle)]
pub extern "C" fn tmmbr_remove(alloc: Global, state: &mut TmmbrState, ssrc: u32) -> u32
    ensures answers { result ≢ CLOSED → OnHeld (AnswersRemove ssrc result)
        state.old.handle.held state.new.handle.held }
    ensures closed { (result ≡ CLOSED) ↔ (state.old.handle.held ≡ None) }
    ensures unchanged { result ≡ CLOSED → state.new.handle.held ≡ None }
{
    let Some(mut held) = state.take(alloc) else {
        return CLOSED;
    };
    let answer = remove(&mut held, ssrc);
    state.put(held);
    answer
}
