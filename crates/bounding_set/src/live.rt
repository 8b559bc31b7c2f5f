//! Changes of the live rows together with their envelope.

ghost use Rattle.std.specs.Prelude.{◌≡◌, ◌≢◌, ◌+◌, ◌*◌, ◌<◌, ◌≤◌, ◌↔◌, [], ◌∷◌, ◌++◌, length, All, Some, None, IsTrue, false};
ghost use Rattle.bounding_set.specs.Rows.{HasRisingOwners, Puts, tuple_of, count_with};
ghost use Rattle.bounding_set.specs.Envelope.{IsEnvelopeOf};
ghost use Rattle.bounding_set.specs.Live.{HoldsLines, HasLineOf};
ghost use Rattle.bounding_set.specs.Tests.{HasRoomToPut, CountsPut, CountsReplaced, CountsReturns};

use crate::rows::{add, take};
use crate::splice::splice;
use crate::unsplice::unsplice;
use arrayvec::ArrayVec;
use rate_cert::{MAX_REQUESTS, Request};
use tmmbr_tuple::Ssrc;

/// Puts a request in the place of what its owner asked for, which was something else or nothing. True
/// if the envelope changed.
pub fn replace(
    rows: &mut ArrayVec<Request, MAX_REQUESTS>,
    lines: &mut ArrayVec<Request, MAX_REQUESTS>,
    x: &Request,
    count: &mut u32,
) -> bool
    requires holds { HoldsLines rows.old.items lines.old.items }
    requires room { count_with rows.old.items x.now.owner.0 ≤ MAX_REQUESTS }
    requires differs { tuple_of rows.old.items x.now.owner.0 ≢ Some x.now.tuple }
    requires uncounted { count.old ≡ 0 }
    ensures holds { HoldsLines rows.new.items lines.new.items }
    ensures put { Puts rows.old.items rows.new.items x.now.owner.0 (Some x.now.tuple) }
    ensures grows { length rows.new.items ≡ count_with rows.old.items x.now.owner.0 }
    ensures changed { IsTrue result ↔ (lines.new.items ≢ lines.old.items) }
    ensures tests { CountsReplaced count.new rows.old.items x.now.owner.0
        lines.old.items lines.new.items }
{
    let was_line = take_out(rows, lines, x.owner, count);
    let is_line = put_in(rows, lines, x, count);
    was_line || is_line
}

/// Makes rows and an envelope of requests by rising owner; both are empty before.
pub fn put_all(
    requests: &[Request],
    rows: &mut ArrayVec<Request, MAX_REQUESTS>,
    lines: &mut ArrayVec<Request, MAX_REQUESTS>,
    count: &mut u32,
)
    requires rising { HasRisingOwners requests.now }
    requires within { length requests.now ≤ MAX_REQUESTS }
    requires no_row { rows.old.items ≡ [] }
    requires no_line { lines.old.items ≡ [] }
    requires uncounted { count.old ≡ 0 }
    ensures rows { rows.new.items ≡ requests.now }
    ensures envelope { IsEnvelopeOf requests.now lines.new.items }
    ensures each { length lines.new.items ≤ count.new + 1 }
    ensures few { count.new ≤ 5 * length requests.now }
{
    for request in requests {
        put_last(rows, lines, request, count);
    }
}

/// Adds the row of an owner that is above all that are live.
fn put_last(
    rows: &mut ArrayVec<Request, MAX_REQUESTS>,
    lines: &mut ArrayVec<Request, MAX_REQUESTS>,
    x: &Request,
    count: &mut u32,
)
    requires holds { HoldsLines rows.old.items lines.old.items }
    requires above { All (λ r. r.owner.0 < x.now.owner.0) rows.old.items }
    requires room { HasRoomToPut rows.old.items count.old }
    ensures holds { HoldsLines rows.new.items lines.new.items }
    ensures put { rows.new.items ≡ rows.old.items ++ x.now ∷ [] }
    ensures tests { CountsPut count.old count.new lines.old.items lines.new.items }
{
    let _is_line = put_in(rows, lines, x, count);
}

/// Takes the owner's row out, if it has one. True if it was a line of the envelope.
fn take_out(
    rows: &mut ArrayVec<Request, MAX_REQUESTS>,
    lines: &mut ArrayVec<Request, MAX_REQUESTS>,
    owner: Ssrc,
    count: &mut u32,
) -> bool
    requires holds { HoldsLines rows.old.items lines.old.items }
    requires within { length rows.old.items ≤ MAX_REQUESTS }
    requires uncounted { count.old ≡ 0 }
    ensures holds { HoldsLines rows.new.items lines.new.items }
    ensures taken { Puts rows.old.items rows.new.items owner.0 None }
    ensures shrinks { length rows.new.items + 1 ≡ count_with rows.old.items owner.0 }
    ensures was_line { IsTrue result → HasLineOf owner.0 lines.old.items }
    ensures unchanged { result ≡ false → lines.new.items ≡ lines.old.items }
    ensures absent { tuple_of rows.old.items owner.0 ≡ None → (result ≡ false) × (count.new ≡ 0) }
    ensures tests { CountsReturns count.old count.new MAX_REQUESTS
        (length lines.old.items) (length lines.new.items) }
{
    match take(rows, owner) {
        Some(tuple) => unsplice(lines, &Request { owner, tuple }, rows.as_slice(), count),
        None => false,
    }
}

/// Adds the row of an owner that isn't live. True if it is a line of the envelope then.
fn put_in(
    rows: &mut ArrayVec<Request, MAX_REQUESTS>,
    lines: &mut ArrayVec<Request, MAX_REQUESTS>,
    x: &Request,
    count: &mut u32,
) -> bool
    requires holds { HoldsLines rows.old.items lines.old.items }
    requires absent { tuple_of rows.old.items x.now.owner.0 ≡ None }
    requires room { HasRoomToPut rows.old.items count.old }
    ensures holds { HoldsLines rows.new.items lines.new.items }
    ensures put { Puts rows.old.items rows.new.items x.now.owner.0 (Some x.now.tuple) }
    ensures grows { length rows.new.items ≡ length rows.old.items + 1 }
    ensures is_line { IsTrue result → HasLineOf x.now.owner.0 lines.new.items }
    ensures unchanged { result ≡ false → lines.new.items ≡ lines.old.items }
    ensures tests { CountsPut count.old count.new lines.old.items lines.new.items }
{
    add(rows, *x);
    if x.tuple.rate() == 0 {
        return false;
    }
    splice(lines, x, count)
}
