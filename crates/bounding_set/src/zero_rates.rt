//! What is announced if a live request has the rate 0.

ghost use Rattle.std.specs.Prelude.{◌≡◌, ◌≢◌, ◌<◌, ◌↔◌, [], length, All, Any, Contains, IfSome, IsTrue, MatchOption, false};
ghost use Rattle.bounding_set.specs.Rows.{HasRisingOwners};
ghost use Rattle.bounding_set.specs.Canonical.{StopsMedia, StopsEverything, IsStrictestStop, IsFirstStop, IsLeastReach};
ghost use Rattle.bounding_set.specs.Announced.{AnnouncesList, HoldsStops};
ghost use Rattle.bounding_set.specs.Reach.{ReachesSooner};

use crate::rows::are_same;
use arrayvec::ArrayVec;
use rate_cert::Request;

/// How many requests are announced at most if one has the rate 0.
pub const MAX_STOPS: usize = 2;

/// Keeps the stops, what is announced while a rate is 0, up to date once the rows have changed;
/// `one_stops` is true if a row came whose rate is 0. True if the stops changed.
pub fn update_stops(
    rows: &[Request],
    stops: &mut ArrayVec<Request, MAX_STOPS>,
    one_stops: bool,
) -> bool
    requires rising { HasRisingOwners rows.now }
    requires none { one_stops ≡ false → length stops.old.items ≡ 0
        → All (λ r. ¬ StopsMedia r) rows.now }
    ensures holds { HoldsStops rows.now stops.new.items }
    ensures changed { IsTrue result ↔ (stops.new.items ≢ stops.old.items) }
{
    if !one_stops && stops.is_empty() {
        return false;
    }
    let mut renewed = ArrayVec::new();
    announce_stops(rows, &mut renewed);
    let changed = !are_same(renewed.as_slice(), stops.as_slice());
    *stops = renewed;
    changed
}

/// If a request has the rate 0, makes the list of what is announced then, and answers true: the
/// strictest of those that stop everything, or else the first that stops the media, with the
/// request of least reach after it if one has an overhead.
///
/// False leaves the list as it was: no request has the rate 0.
pub fn announce_stops(rows: &[Request], announced: &mut ArrayVec<Request, MAX_STOPS>) -> bool
    requires rising { HasRisingOwners rows.now }
    requires empty { announced.old.items ≡ [] }
    ensures stopped { IsTrue result → AnnouncesList rows.now announced.new.items }
    ensures some { IsTrue result → Any StopsMedia announced.new.items }
    ensures none { result ≡ false → All (λ r. ¬ StopsMedia r) rows.now }
    ensures unchanged { result ≡ false → announced.new ≡ announced.old }
{
    if let Some(stop) = strictest_stop(rows) {
        announced.push(stop);
        return true;
    }
    let Some(stop) = first_stop(rows) else {
        return false;
    };
    announced.push(stop);
    if let Some(request) = least_reach(rows) {
        announced.push(request);
    }
    true
}

/// Of the requests that stop everything, one with the greatest overhead; of several of these the least owner's.
fn strictest_stop(rows: &[Request]) -> Option<Request>
    requires { HasRisingOwners rows.now }
    ensures { MatchOption result (All (λ r. ¬ StopsEverything r) rows.now)
        (λ x. Contains rows.now x × IsStrictestStop rows.now x) }
{
    let mut strictest: Option<Request> = None;
    for row in rows {
        if stops_everything(row) && is_stricter(row, strictest) {
            strictest = Some(*row);
        }
    }
    strictest
}

/// Of the requests that stop the media, the one of least owner.
fn first_stop(rows: &[Request]) -> Option<Request>
    requires rising { HasRisingOwners rows.now }
    requires none_stops_everything { All (λ r. ¬ StopsEverything r) rows.now }
    ensures { MatchOption result (All (λ r. ¬ StopsMedia r) rows.now)
        (λ x. Contains rows.now x × IsFirstStop rows.now x) }
{
    for row in rows {
        if row.tuple.rate() == 0 {
            return Some(*row);
        }
    }
    None
}

/// Of the requests with overhead the one of least reach, then of least overhead, then of least owner.
fn least_reach(rows: &[Request]) -> Option<Request>
    requires rising { HasRisingOwners rows.now }
    requires media_stopped { Any StopsMedia rows.now }
    requires none_stops_everything { All (λ r. ¬ StopsEverything r) rows.now }
    ensures { MatchOption result (All (λ r. r.tuple.overhead ≡ 0) rows.now)
        (λ x. Contains rows.now x × IsLeastReach rows.now x) }
{
    let mut least: Option<Request> = None;
    for row in rows {
        if row.tuple.overhead > 0 && is_sooner(row, least) {
            least = Some(*row);
        }
    }
    least
}

/// Whether the request stops everything: a rate of 0, with overhead.
fn stops_everything(request: &Request) -> bool
    ensures { IsTrue result ↔ StopsEverything request.now }
{
    request.tuple.rate() == 0 && request.tuple.overhead > 0
}

/// Whether the request has more overhead than the strictest stop so far, if there is one.
fn is_stricter(request: &Request, strictest: Option<Request>) -> bool
    ensures { IsTrue result
        ↔ IfSome strictest (λ x. x.tuple.overhead < request.now.tuple.overhead) }
{
    strictest.is_none_or(|best| best.tuple.overhead < request.tuple.overhead)
}

/// Whether the request reaches sooner than the one of least reach so far, if there is one.
fn is_sooner(request: &Request, least: Option<Request>) -> bool
    ensures { IsTrue result ↔ IfSome least (λ x. ReachesSooner request.now x) }
{
    least.is_none_or(|best| reaches_sooner(request, &best))
}

/// Whether x has less reach than y, its rate over its overhead, or as much of it by less overhead.
fn reaches_sooner(x: &Request, y: &Request) -> bool
    ensures { IsTrue result ↔ ReachesSooner x.now y.now }
{
    // By cross multiplication: below 2^89 each.
    let x_reach = x.tuple.rate() * u128::from(y.tuple.overhead);
    let y_reach = y.tuple.rate() * u128::from(x.tuple.overhead);
    x_reach < y_reach || x_reach == y_reach && x.tuple.overhead < y.tuple.overhead
}
