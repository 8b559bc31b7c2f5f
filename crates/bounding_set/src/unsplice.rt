//! A line is taken out of an envelope.

ghost use Rattle.std.specs.Prelude.{◌≡◌, ◌≢◌, ◌+◌, ◌-◌, ◌<◌, ◌≤◌, ◌↔◌, ◌∷◌, length, slice_index_or, All, Contains, IsTrue, false, None, Some, IfSome, IfNone};
ghost use Rattle.rate_cert.specs.declared.request.Request.{Request as RateRequest};
ghost use Rattle.bounding_set.specs.Canonical.{StopsMedia};
ghost use Rattle.bounding_set.specs.Envelope.{IsEnvelopeOf, IsHull};
ghost use Rattle.bounding_set.specs.Gap.{IsEnvelopeButAt};
ghost use Rattle.bounding_set.specs.Kept.{StandsAt};
ghost use Rattle.bounding_set.specs.Rows.{HasRisingOwners};
ghost use Rattle.bounding_set.specs.Tests.{HasRoomToReturn, CountsReturns, IsUntouched};

use crate::splice::{lines_before, splice};
use arrayvec::ArrayVec;
use rate_cert::{MAX_REQUESTS, Request};

/// Takes the line of a request that is no row any more out of the envelope, and puts back those of
/// the rows that it hid. True if it was a line of the envelope; else nothing changes.
///
/// Only rows whose overhead lies between those of the line's neighbours are looked at, or past the end at
/// an end.
pub fn unsplice(
    lines: &mut ArrayVec<Request, MAX_REQUESTS>,
    gone: &Request,
    rows: &[Request],
    count: &mut u32,
) -> bool
    requires envelope { IsEnvelopeOf (gone.now ∷ rows.now) lines.old.items }
    requires others { All (λ r. r.owner.0 ≢ gone.now.owner.0) rows.now }
    requires rising { HasRisingOwners rows.now }
    requires room { HasRoomToReturn rows.now count.old }
    ensures was_line { IsTrue result ↔ Contains lines.old.items gone.now }
    ensures untouched { result ≡ false
        → IsUntouched count.old count.new lines.old.items lines.new.items }
    ensures envelope { IsEnvelopeOf rows.now lines.new.items }
    ensures tests { CountsReturns count.old count.new (length rows.now)
        (length lines.old.items) (length lines.new.items) }
{
    match place_of_line(lines.as_slice(), gone) {
        Some(place) => {
            lines.remove(place);
            put_back(lines, place, rows, count);
            true
        }
        None => false,
    }
}

/// Where the request stands among the lines; `None` if it is no line.
fn place_of_line(lines: &[Request], request: &Request) -> Option<usize>
    requires { IsHull lines.now }
    ensures found { IfSome result (StandsAt lines.now request.now) }
    ensures absent { IfNone result (¬ Contains lines.now request.now) }
{
    let at = lines_before(lines, request);
    if at < lines.len() && lines[at] == *request {
        Some(at)
    } else {
        None
    }
}

/// Puts in the rows whose overhead lies between those of the line before this place and of the line at it.
fn put_back(
    lines: &mut ArrayVec<Request, MAX_REQUESTS>,
    place: usize,
    rows: &[Request],
    count: &mut u32,
)
    requires envelope { IsEnvelopeButAt rows.now lines.old.items place }
    requires rising { HasRisingOwners rows.now }
    requires room { HasRoomToReturn rows.now count.old }
    ensures envelope { IsEnvelopeOf rows.now lines.new.items }
    ensures tests { CountsReturns count.old count.new (length rows.now)
        (length lines.old.items + 1) (length lines.new.items) }
{
    let left = overhead_before(lines.as_slice(), place);
    let right = overhead_at(lines.as_slice(), place);
    for row in rows {
        if may_return(row, left, right) {
            splice(lines, row, count);
        }
    }
}

/// The overhead of the line before this place; `None` at the beginning.
fn overhead_before(lines: &[Request], place: usize) -> Option<u16>
    ensures some { (d : RateRequest) → 0 < place → place ≤ length lines.now
        → result ≡ Some (slice_index_or lines.now (place - 1) d).tuple.overhead }
    ensures none { place ≡ 0 → result ≡ None }
{
    match place {
        0 => None,
        _ => overhead_at(lines, place - 1),
    }
}

/// The overhead of the line at this place; `None` past the end.
fn overhead_at(lines: &[Request], place: usize) -> Option<u16>
    ensures some { (d : RateRequest) → place < length lines.now
        → result ≡ Some (slice_index_or lines.now place d).tuple.overhead }
    ensures none { length lines.now ≤ place → result ≡ None }
{
    lines.get(place).map(|line| line.tuple.overhead)
}

/// Whether the row sends, and its overhead lies between these two.
fn may_return(row: &Request, left: Option<u16>, right: Option<u16>) -> bool
    ensures { IsTrue result ↔ ((¬ StopsMedia row.now)
        × IfSome left (λ l. l < row.now.tuple.overhead)
        × IfSome right (λ r. row.now.tuple.overhead < r)) }
{
    row.tuple.rate() > 0
        && left.is_none_or(|left| left < row.tuple.overhead)
        && right.is_none_or(|right| row.tuple.overhead < right)
}
