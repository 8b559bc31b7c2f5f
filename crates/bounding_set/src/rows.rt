//! Rows of live requests, by rising owner.

ghost use Rattle.std.specs.Prelude.{◌≡◌, ◌+◌, ◌<◌, ◌≤◌, ◌↔◌, length, None, Some, Err, IfNone, OnSome, OnOk, IsTrue, IfOk, IfErr};
ghost use Rattle.bounding_set.specs.Rows.{HasRisingOwners, IsRowOf, IsGapFor, Puts, tuple_of};

use arrayvec::ArrayVec;
use rate_cert::{MAX_REQUESTS, Request};
use thiserror::Error;
use tmmbr_tuple::{Ssrc, Tuple};

/// How many owners may have a live request at once.
pub const LIVE_LIMIT: usize = MAX_REQUESTS;

/// A request of one more owner came while as many others are live as may be.
#[derive(Clone, Copy, Debug, PartialEq, Eq, Error)]
#[error("as many requests are live as may be")]
pub struct Full;

/// Why a list of requests can't be the live ones.
#[derive(Clone, Copy, Debug, PartialEq, Eq, Error)]
pub enum RowsFault {
    /// They are more than `LIVE_LIMIT`.
    #[error("more requests than may be live")]
    TooMany,
    /// An owner isn't above the one before it.
    #[error("requests that aren't by rising owner")]
    NotRising,
}

/// Whether requests can be the live ones: by rising owner, and no more than may be.
pub fn check_rows(requests: &[Request]) -> Result<(), RowsFault>
    ensures rows { OnOk result (HasRisingOwners requests.now × (length requests.now ≤ LIVE_LIMIT)) }
    ensures too_many { (result ≡ Err RowsFault.TooMany) ↔ (LIVE_LIMIT < length requests.now) }
    ensures not_rising { (result ≡ Err RowsFault.NotRising)
        ↔ ((length requests.now ≤ LIVE_LIMIT) × (¬ HasRisingOwners requests.now)) }
{
    if requests.len() > LIVE_LIMIT {
        return Err(RowsFault::TooMany);
    }
    if !owners_rise(requests) {
        return Err(RowsFault::NotRising);
    }
    Ok(())
}

/// Whether each owner is above the one before it.
fn owners_rise(requests: &[Request]) -> bool
    ensures { IsTrue result ↔ HasRisingOwners requests.now }
{
    for place in 1..requests.len() {
        if requests[place].owner.0 <= requests[place - 1].owner.0 {
            return false;
        }
    }
    true
}

/// What the owner asks for, if it is live.
pub fn asked_by(rows: &[Request], owner: Ssrc) -> Option<Tuple>
    requires { HasRisingOwners rows.now }
    ensures { result ≡ tuple_of rows.now owner.0 }
{
    match place_of(rows, owner) {
        Ok(place) => Some(rows[place].tuple),
        Err(_) => None,
    }
}

/// Adds the row of an owner that isn't live.
pub fn add(rows: &mut ArrayVec<Request, MAX_REQUESTS>, request: Request)
    requires rising { HasRisingOwners rows.old.items }
    requires absent { tuple_of rows.old.items request.owner.0 ≡ None }
    requires room { length rows.old.items < MAX_REQUESTS }
    ensures put { Puts rows.old.items rows.new.items request.owner.0 (Some request.tuple) }
    ensures grows { length rows.new.items ≡ length rows.old.items + 1 }
    ensures rising { HasRisingOwners rows.new.items }
{
    if let Err(place) = place_of(rows.as_slice(), request.owner) {
        rows.insert(place, request);
    }
}

/// Takes the owner's row out, and answers what it asked for. `None` leaves the rows as they are.
pub fn take(rows: &mut ArrayVec<Request, MAX_REQUESTS>, owner: Ssrc) -> Option<Tuple>
    requires { HasRisingOwners rows.old.items }
    ensures value { result ≡ tuple_of rows.old.items owner.0 }
    ensures unchanged { IfNone result (rows.new ≡ rows.old) }
    ensures taken { Puts rows.old.items rows.new.items owner.0 None }
    ensures shrinks { OnSome result (length rows.new.items + 1 ≡ length rows.old.items) }
    ensures rising { HasRisingOwners rows.new.items }
{
    match place_of(rows.as_slice(), owner) {
        Ok(place) => Some(rows.remove(place).tuple),
        Err(_) => None,
    }
}

/// Where the owner's row is, or where it would go.
pub fn place_of(rows: &[Request], owner: Ssrc) -> Result<usize, usize>
    requires { HasRisingOwners rows.now }
    ensures found { IfOk result (IsRowOf rows.now owner.0) }
    ensures absent { IfErr result (IsGapFor rows.now owner.0) }
{
    rows.binary_search_by_key(&owner.0, |row| row.owner.0)
}

/// Whether this is what was asked for.
pub fn is_asked(asked: Option<Tuple>, tuple: Tuple) -> bool
    ensures { IsTrue result ↔ (asked ≡ Some tuple) }
{
    asked == Some(tuple)
}

/// Whether two lists have the same requests in the same order.
pub fn are_same(a: &[Request], b: &[Request]) -> bool
    ensures { IsTrue result ↔ (a.now ≡ b.now) }
{
    a == b
}
