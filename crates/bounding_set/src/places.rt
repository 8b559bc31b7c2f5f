//! The places of kept requests among the rows.

ghost use Rattle.std.specs.Prelude.{◌≡◌, ◌<◌, ◌≤◌, length, All, Contains, IsTrue};
ghost use Rattle.bounding_set.specs.Rows.{HasRisingOwners};
ghost use Rattle.bounding_set.specs.Kept.{StandsAt, KeepsRequests, pairs_of};

use crate::rows::place_of;
use rate_cert::{Kept, MAX_REQUESTS, Request};

/// Gives the entries the places of the announced requests. Most are where they were, or one beside it.
pub fn find_places(rows: &[Request], announced: &[Request], kept: &mut [Kept])
    requires rising { HasRisingOwners rows.now }
    requires within { length rows.now ≤ MAX_REQUESTS }
    requires are_rows { All (Contains rows.now) announced.now }
    requires as_many { length kept.old ≡ length announced.now }
    ensures requests { KeepsRequests rows.now announced.now kept.new }
    ensures pairs { pairs_of kept.new ≡ pairs_of kept.old }
{
    for (at, x) in announced.iter().enumerate() {
        kept[at].place = place_near(rows, x, kept[at].place);
    }
}

/// The place of a row, which is at this one or beside it if no more than one owner came or went.
fn place_near(rows: &[Request], request: &Request, near: u16) -> u16
    requires rising { HasRisingOwners rows.now }
    requires within { length rows.now ≤ MAX_REQUESTS }
    requires live { Contains rows.now request.now }
    ensures { StandsAt rows.now request.now result }
{
    if is_at(rows, request, near) {
        return near;
    }
    let behind = near.saturating_add(1);
    if is_at(rows, request, behind) {
        return behind;
    }
    let before = near.saturating_sub(1);
    if is_at(rows, request, before) {
        return before;
    }
    place_in(rows, request)
}

/// Whether the row at this place is the request.
fn is_at(rows: &[Request], request: &Request, place: u16) -> bool
    ensures { IsTrue result → StandsAt rows.now request.now place }
{
    let place = usize::from(place);
    place < rows.len() && rows[place] == *request
}

/// The place of a row, by its owner.
pub fn place_in(rows: &[Request], request: &Request) -> u16
    requires rising { HasRisingOwners rows.now }
    requires within { length rows.now ≤ MAX_REQUESTS }
    requires live { Contains rows.now request.now }
    ensures { StandsAt rows.now request.now result }
{
    place_of(rows, request.owner).unwrap() as u16
}
