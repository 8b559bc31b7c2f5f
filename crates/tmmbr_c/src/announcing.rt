//! The announced set of requests, with its certificate.

ghost use Rattle.std.specs.Prelude.{◌≡◌, ◌≢◌, ℕ, ◌<◌, ◌≤◌, ◌↔◌, ◌⊎◌, length, map, take, All};
ghost use Rattle.tmmbr_c.specs.Numbers.{kept_entry, implied_entry, asked_request};
ghost use Rattle.tmmbr_c.specs.Order.{OrdersRequests, place_in};
ghost use Rattle.tmmbr_c.specs.Renumbering.{IsMovable, moved_kept, moved_implied};
ghost use Rattle.tmmbr_c.specs.Answer.{IsAccepted, IsRefusedRange, IsRefusedOwner, HasSizes, HasNoRoom, AnnouncesIn, AreInRange, KeepsRest};

use crate::faults::{DONE, NO_ROOM, REQUEST_RANGE, SAME_SSRC, TOO_MANY};
use crate::filling::put_requests;
use crate::numbers::{TmmbrAnswer, TmmbrImplied, TmmbrKept, TmmbrRequest};
use crate::order::{OwnerPlace, order_owners};
use crate::reading::read_requests;
use crate::writing::{write_implied_entries, write_kept_entries};
use bounding_set::Bounds;
use rate_cert::{Cert, MAX_REQUESTS, Request};

/// Announces the smallest set of requests that permits what all of them together permit: writes its
/// certificate, kept entries by rising overhead, to the front of the two arrays, and answers how many
/// entries there are.
///
/// Refused as `TOO_MANY`, `REQUEST_RANGE`, `SAME_SSRC` and `NO_ROOM`, in this order; then both arrays
/// are as they were.
#[unsafe(no_mangle)]
pub extern "C" fn tmmbr_announced(
    asked: &[TmmbrRequest],
    kept: &mut [TmmbrKept],
    implied: &mut [TmmbrImplied],
) -> TmmbrAnswer
    ensures accepted { ((result.fault ≡ DONE) ⊎ (result.fault ≡ NO_ROOM)) ↔ IsAccepted asked.now }
    ensures announced { result.fault ≡ DONE
        → AnnouncesIn (map asked_request asked.now) kept.new implied.new result }
    ensures in_range { result.fault ≡ DONE → AreInRange kept.new implied.new result }
    ensures kept_rest { result.fault ≡ DONE → KeepsRest result.kept kept.old kept.new }
    ensures implied_rest { result.fault ≡ DONE → KeepsRest result.implied implied.old implied.new }
    ensures sizes { IsAccepted asked.now
        → HasSizes (map asked_request asked.now) result.kept result.implied }

    ensures too_many { (result.fault ≡ TOO_MANY) ↔ (MAX_REQUESTS < length asked.now) }
    ensures request_range { (place : ℕ)
        → (((result.fault ≡ REQUEST_RANGE) × (result.place ≡ place))
        ↔ IsRefusedRange asked.now place) }
    ensures same_ssrc { (place : ℕ)
        → (((result.fault ≡ SAME_SSRC) × (result.place ≡ place))
        ↔ IsRefusedOwner asked.now place) }
    ensures no_room { (result.fault ≡ NO_ROOM)
        ↔ (IsAccepted asked.now × HasNoRoom kept.old implied.old result) }
    ensures unchanged { result.fault ≢ DONE → (kept.new ≡ kept.old) × (implied.new ≡ implied.old) }
    ensures no_place { result.fault ≢ REQUEST_RANGE → result.fault ≢ SAME_SSRC → result.place ≡ 0 }
    ensures no_entries { result.fault ≢ DONE → result.fault ≢ NO_ROOM
        → (result.kept ≡ 0) × (result.implied ≡ 0) }
{
    if asked.len() > MAX_REQUESTS {
        return refused(TOO_MANY, 0);
    }
    let requests = match read_requests(asked) {
        Ok(requests) => requests,
        Err(place) => return refused(REQUEST_RANGE, place),
    };
    let order = match order_owners(asked) {
        Ok(order) => order,
        Err(place) => return refused(SAME_SSRC, place),
    };
    announce(requests.as_slice(), order.as_slice(), kept, implied)
}

/// A refusal of the request at this place.
fn refused(fault: u32, place: usize) -> TmmbrAnswer
    requires { place ≤ MAX_REQUESTS }
    ensures fault { result.fault ≡ fault }
    ensures place { result.place ≡ place }
    ensures no_entries { (result.kept ≡ 0) × (result.implied ≡ 0) }
{
    TmmbrAnswer {
        fault,
        place: place as u32,
        kept: 0,
        implied: 0,
    }
}

/// The same for requests and the order of their owners.
fn announce(
    requests: &[Request],
    order: &[OwnerPlace],
    kept: &mut [TmmbrKept],
    implied: &mut [TmmbrImplied],
) -> TmmbrAnswer
    requires { OrdersRequests requests.now order.now }
    ensures fault { (result.fault ≡ DONE) ⊎ (result.fault ≡ NO_ROOM) }
    ensures no_place { result.place ≡ 0 }
    ensures announced { result.fault ≡ DONE → AnnouncesIn requests.now kept.new implied.new result }
    ensures in_range { result.fault ≡ DONE → AreInRange kept.new implied.new result }
    ensures kept_rest { result.fault ≡ DONE → KeepsRest result.kept kept.old kept.new }
    ensures implied_rest { result.fault ≡ DONE → KeepsRest result.implied implied.old implied.new }
    ensures sizes { HasSizes requests.now result.kept result.implied }
    ensures no_room { (result.fault ≡ NO_ROOM) ↔ HasNoRoom kept.old implied.old result }
    ensures unchanged { result.fault ≢ DONE → (kept.new ≡ kept.old) × (implied.new ≡ implied.old) }
{
    let mut bounds = Bounds::new();
    put_requests(&mut bounds, requests, order);
    write_cert(bounds.cert(), order, kept, implied)
}

/// Writes a certificate, whose places are numbers of owners, for the places that their requests have
/// in the list.
pub fn write_cert(
    cert: &Cert,
    order: &[OwnerPlace],
    kept: &mut [TmmbrKept],
    implied: &mut [TmmbrImplied],
) -> TmmbrAnswer
    requires kept_in_range { All (λ k. k.place < length order.now) cert.now.kept.items }
    requires implied_in_range { All (IsMovable order.now) cert.now.implied.items }
    ensures fault { (result.fault ≡ DONE) ⊎ (result.fault ≡ NO_ROOM) }
    ensures no_place { result.place ≡ 0 }
    ensures kept_count { result.kept ≡ length cert.now.kept.items }
    ensures implied_count { result.implied ≡ length cert.now.implied.items }
    ensures kept_entries { result.fault ≡ DONE → map kept_entry (take result.kept kept.new)
        ≡ map (moved_kept (place_in order.now)) cert.now.kept.items }
    ensures implied_entries { result.fault ≡ DONE
        → map implied_entry (take result.implied implied.new)
        ≡ map (moved_implied (place_in order.now)) cert.now.implied.items }
    ensures in_range { result.fault ≡ DONE → AreInRange kept.new implied.new result }
    ensures kept_rest { result.fault ≡ DONE → KeepsRest result.kept kept.old kept.new }
    ensures implied_rest { result.fault ≡ DONE → KeepsRest result.implied implied.old implied.new }
    ensures no_room { (result.fault ≡ NO_ROOM) ↔ HasNoRoom kept.old implied.old result }
    ensures unchanged { result.fault ≢ DONE → (kept.new ≡ kept.old) × (implied.new ≡ implied.old) }
{
    let kept_entries = cert.kept.as_slice();
    let implied_entries = cert.implied.as_slice();
    let mut answer = TmmbrAnswer {
        fault: NO_ROOM,
        place: 0,
        kept: kept_entries.len() as u32,
        implied: implied_entries.len() as u32,
    };
    if kept.len() < kept_entries.len() || implied.len() < implied_entries.len() {
        return answer;
    }
    write_kept_entries(kept_entries, order, kept);
    write_implied_entries(implied_entries, order, implied);
    answer.fault = DONE;
    answer
}
