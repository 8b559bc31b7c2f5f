//! The live requests of a state, and what is announced for them.

ghost use Rattle.std.specs.Prelude.{◌≡◌, ◌≢◌, ℕ, ◌<◌, ◌≤◌, ◌↔◌, ◌⊎◌, None, Some, length, map, take, drop, All, slice_index_or};
ghost use Rattle.rate_cert.specs.declared.request.Request.{Request as RateRequest};
ghost use Rattle.bounding_set.specs.State.{State};
ghost use Rattle.bounding_set.specs.Rows.{HasRisingOwners};
ghost use Rattle.tmmbr_c.specs.declared.order.OwnerPlace.{OwnerPlace as Place};
ghost use Rattle.tmmbr_c.specs.Numbers.{IsRequestInRange, asked_request};
ghost use Rattle.tmmbr_c.specs.Answer.{HasSizes, HasNoRoom, AnnouncesIn, AreInRange, KeepsRest};
ghost use Rattle.tmmbr_c.specs.Standing.{ShowsRequests};

use crate::announcing::write_cert;
use crate::faults::{CLOSED, DONE, NO_ROOM};
use crate::numbers::{TmmbrAnswer, TmmbrImplied, TmmbrKept, TmmbrLive, TmmbrRequest};
use crate::order::OwnerPlace;
use crate::slot::TmmbrState;
use arrayvec::ArrayVec;
use bounding_set::Bounds;
use rate_cert::{MAX_REQUESTS, Request};
use std::alloc::Global;

/// The numbers of a request.
fn told_request(request: &Request) -> TmmbrRequest
    ensures in_range { IsRequestInRange result }
    ensures value { asked_request result ≡ request.now }
{
    TmmbrRequest {
        ssrc: request.owner.0,
        exponent: u32::from(request.tuple.exp),
        mantissa: request.tuple.mantissa,
        overhead: u32::from(request.tuple.overhead),
    }
}

/// Writes the numbers of these requests to the front.
fn write_requests(requests: &[Request], room: &mut [TmmbrRequest])
    requires { length requests.now ≤ length room.old }
    ensures written { map asked_request (take (length requests.now) room.new) ≡ requests.now }
    ensures in_range { All IsRequestInRange (take (length requests.now) room.new) }
    ensures rest { drop (length requests.now) room.new ≡ drop (length requests.now) room.old }
{
    for (k, request) in requests.iter().enumerate() {
        room[k] = told_request(request);
    }
}

/// Writes these requests, if there is room for them.
fn show_requests(rows: &[Request], room: &mut [TmmbrRequest]) -> TmmbrLive
    requires { length rows.now ≤ MAX_REQUESTS }
    ensures shown { result.fault ≡ DONE → ShowsRequests rows.now room.old room.new result }
    ensures count { result.count ≡ length rows.now }
    ensures fault { (result.fault ≡ DONE) ⊎ (result.fault ≡ NO_ROOM) }
    ensures no_room { (result.fault ≡ NO_ROOM) ↔ (length room.old < length rows.now) }
    ensures unchanged { result.fault ≢ DONE → room.new ≡ room.old }
{
    let mut answer = TmmbrLive {
        fault: NO_ROOM,
        count: rows.len() as u32,
    };
    if rows.len() <= room.len() {
        write_requests(rows, room);
        answer.fault = DONE;
    }
    answer
}

/// The owners of these requests, each with its own place.
fn order_rows(rows: &[Request]) -> ArrayVec<OwnerPlace, MAX_REQUESTS>
    requires { length rows.now ≤ MAX_REQUESTS }
    ensures as_many { length result.items ≡ length rows.now }
    ensures each { (k : ℕ) (d : Place) (e : RateRequest) → k < length rows.now
        → slice_index_or result.items k d
        ≡ record { ssrc = (slice_index_or rows.now k e).owner.0; place = k } }
{
    let mut order = ArrayVec::new();
    for (k, request) in rows.iter().enumerate() {
        order.push(OwnerPlace {
            ssrc: request.owner.0,
            place: k as u16,
        });
    }
    order
}

/// Writes the certificate, if there is room for it.
fn show_cert(bounds: &Bounds, kept: &mut [TmmbrKept], implied: &mut [TmmbrImplied]) -> TmmbrAnswer
    ensures fault { (result.fault ≡ DONE) ⊎ (result.fault ≡ NO_ROOM) }
    ensures no_place { result.place ≡ 0 }
    ensures announced { result.fault ≡ DONE
        → AnnouncesIn bounds.now.rows kept.new implied.new result }
    ensures in_range { result.fault ≡ DONE → AreInRange kept.new implied.new result }
    ensures kept_rest { result.fault ≡ DONE → KeepsRest result.kept kept.old kept.new }
    ensures implied_rest { result.fault ≡ DONE → KeepsRest result.implied implied.old implied.new }
    ensures sizes { HasSizes bounds.now.rows result.kept result.implied }
    ensures no_room { (result.fault ≡ NO_ROOM) ↔ HasNoRoom kept.old implied.old result }
    ensures unchanged { result.fault ≢ DONE → (kept.new ≡ kept.old) × (implied.new ≡ implied.old) }
{
    let order = order_rows(bounds.rows());
    write_cert(bounds.cert(), order.as_slice(), kept, implied)
}

/// Writes the live requests, by rising SSRC, to the front of the array, and answers how many there are.
///
/// Refused as `CLOSED`; as `NO_ROOM`, if the array is too short. Then it is as it was.
#[unsafe(no_mangle)]
pub extern "C" fn tmmbr_live(
    alloc: Global,
    state: &mut TmmbrState,
    live: &mut [TmmbrRequest],
) -> TmmbrLive
    ensures shown { (s : State) → state.old.handle.held ≡ Some s → result.fault ≡ DONE
        → ShowsRequests s.rows live.old live.new result }
    ensures rising { (s : State) → state.old.handle.held ≡ Some s → HasRisingOwners s.rows }
    ensures count { (s : State) → state.old.handle.held ≡ Some s → result.count ≡ length s.rows }
    ensures no_room { (s : State) → state.old.handle.held ≡ Some s
        → ((result.fault ≡ NO_ROOM) ↔ (length live.old < length s.rows)) }
    ensures fault { (result.fault ≡ DONE) ⊎ (result.fault ≡ NO_ROOM) ⊎ (result.fault ≡ CLOSED) }
    ensures closed { (result.fault ≡ CLOSED) ↔ (state.old.handle.held ≡ None) }
    ensures unchanged { result.fault ≢ DONE → live.new ≡ live.old }
    ensures none { result.fault ≡ CLOSED → result.count ≡ 0 }
    ensures same { state.new.handle.held ≡ state.old.handle.held }
{
    let Some(held) = state.take(alloc) else {
        return TmmbrLive {
            fault: CLOSED,
            count: 0,
        };
    };
    let answer = show_requests(held.rows(), live);
    state.put(held);
    answer
}

/// Writes the certificate of the smallest set of the live requests that permits what all of them together permit, as
/// `tmmbr_announced` does; its places count the live requests by rising SSRC, as `tmmbr_live` gives them.
///
/// Refused as `CLOSED`; as `NO_ROOM`. Then both arrays are as they were.
#[unsafe(no_mangle)]
pub extern "C" fn tmmbr_of(
    alloc: Global,
    state: &mut TmmbrState,
    kept: &mut [TmmbrKept],
    implied: &mut [TmmbrImplied],
) -> TmmbrAnswer
    ensures announced { (s : State) → state.old.handle.held ≡ Some s → result.fault ≡ DONE
        → AnnouncesIn s.rows kept.new implied.new result }
    ensures in_range { result.fault ≡ DONE → AreInRange kept.new implied.new result }
    ensures kept_rest { result.fault ≡ DONE → KeepsRest result.kept kept.old kept.new }
    ensures implied_rest { result.fault ≡ DONE → KeepsRest result.implied implied.old implied.new }
    ensures sizes { (s : State) → state.old.handle.held ≡ Some s
        → HasSizes s.rows result.kept result.implied }
    ensures fault { (result.fault ≡ DONE) ⊎ (result.fault ≡ NO_ROOM) ⊎ (result.fault ≡ CLOSED) }
    ensures no_room { result.fault ≢ CLOSED
        → ((result.fault ≡ NO_ROOM) ↔ HasNoRoom kept.old implied.old result) }
    ensures closed { (result.fault ≡ CLOSED) ↔ (state.old.handle.held ≡ None) }
    ensures unchanged { result.fault ≢ DONE → (kept.new ≡ kept.old) × (implied.new ≡ implied.old) }
    ensures none { result.fault ≡ CLOSED → (result.kept ≡ 0) × (result.implied ≡ 0) }
    ensures no_place { result.place ≡ 0 }
    ensures same { state.new.handle.held ≡ state.old.handle.held }
{
    let Some(held) = state.take(alloc) else {
        return TmmbrAnswer {
            fault: CLOSED,
            place: 0,
            kept: 0,
            implied: 0,
        };
    };
    let answer = show_cert(&held, kept, implied);
    state.put(held);
    answer
}
