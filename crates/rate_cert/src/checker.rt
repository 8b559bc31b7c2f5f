//! The checker of certificates: a plain loop for each of the five conditions.

ghost use Rattle.std.specs.Prelude.{◌≡◌, ◌≢◌, ◌<◌, ◌≤◌, ◌↔◌, length, IsTrue, IsOk, IfErr, OnOk, All, AllPairs, Contains, EachIndex, MatchOption};
ghost use Rattle.rate_cert.specs.Choice.{IsChoice, IsSmallest};
ghost use Rattle.rate_cert.specs.Certificate.{kept_places, HasNeighbours, IsInRange, IsImpliedIfAt, HasPlaces, ForbidsItsPair, ForbidsOnePair, ForbidsOnePairAt, Implies, IsImplied, IsImpliedAt, IsNamed, MeetsConditions, IsCertified, named_places};
ghost use Rattle.rate_cert.specs.Fault.{FailsFirstAt, FailsFirst, IsFirstCertFault};

use crate::certificate::{Cert, Implied, Kept, MAX_REQUESTS};
use crate::fault::CertFault;
use crate::request::Request;
use arrayvec::ArrayVec;
use tmmbr_tuple::permits;

/// How many places a certificate names at most.
const MAX_NAMED: usize = 2 * MAX_REQUESTS;

/// Whether the certificate holds of these requests, in any number and order; if it doesn't, the
/// first condition that fails, by rising number, with its least place.
///
/// A yes means that the kept requests permit exactly the pairs that all the requests together permit,
/// and that no fewer of them do.
pub fn check(requests: &[Request], cert: &Cert) -> Result<(), CertFault>
    ensures certified { IsOk result ↔ IsCertified requests.now cert.now }
    ensures first_fault { IfErr result (IsFirstCertFault requests.now cert.now) }
    ensures choice { OnOk result (IsChoice requests.now (kept_places cert.now)) }
    ensures smallest { OnOk result (IsSmallest requests.now (kept_places cert.now)) }
{
    check_entries(requests, cert.kept.as_slice(), cert.implied.as_slice())
}

/// The same for the certificate's two lists.
fn check_entries(requests: &[Request], kept: &[Kept], implied: &[Implied]) -> Result<(), CertFault>
    requires kept_fit { length kept.now ≤ MAX_REQUESTS }
    requires implied_fit { length implied.now ≤ MAX_REQUESTS }
    ensures certified { IsOk result ↔ MeetsConditions requests.now kept.now implied.now }
    ensures first_fault { IfErr result (FailsFirst requests.now kept.now implied.now) }
{
    if !has_places(requests, kept, implied) {
        return Err(CertFault::Place);
    }
    if !forbid_their_pairs(requests, kept) {
        return Err(CertFault::PairNotForbidden);
    }
    if let Some(place) = first_forbidding_two(requests, kept) {
        return Err(CertFault::TwoPairsForbidden(place));
    }
    if let Some(place) = first_not_implied(requests, implied) {
        return Err(CertFault::NotImplied(place));
    }
    match first_missing(requests, kept, implied) {
        Some(place) => Err(CertFault::Missing(place)),
        None => Ok(()),
    }
}

/// The first condition: the places that the certificate names.
fn has_places(requests: &[Request], kept: &[Kept], implied: &[Implied]) -> bool
    requires kept_fit { length kept.now ≤ MAX_REQUESTS }
    requires implied_fit { length implied.now ≤ MAX_REQUESTS }
    ensures { IsTrue result ↔ HasPlaces requests.now kept.now implied.now }
{
    let named = named(kept, implied);
    let places = named.as_slice();
    are_places(requests, places) && are_kept(&places[..kept.len()], implied)
}

/// The places of the kept entries, then those of the implied ones.
fn named(kept: &[Kept], implied: &[Implied]) -> ArrayVec<u16, MAX_NAMED>
    requires kept_fit { length kept.now ≤ MAX_REQUESTS }
    requires implied_fit { length implied.now ≤ MAX_REQUESTS }
    ensures { result.items ≡ named_places kept.now implied.now }
{
    let mut places = ArrayVec::new();
    for k in kept {
        places.push(k.place);
    }
    for i in implied {
        places.push(i.place);
    }
    places
}

/// Whether these are places of requests, each named once.
fn are_places(requests: &[Request], places: &[u16]) -> bool
    ensures { IsTrue result ↔ IsChoice requests.now places.now }
{
    are_below(places, requests.len()) && are_distinct(places)
}

fn are_below(places: &[u16], count: usize) -> bool
    ensures { IsTrue result ↔ All (λ place. place < count) places.now }
{
    places.iter().all(|&place| usize::from(place) < count)
}

fn are_distinct(places: &[u16]) -> bool
    ensures { IsTrue result ↔ AllPairs (λ x y. x ≢ y) places.now }
{
    for j in 0..places.len() {
        for i in 0..j {
            if places[i] == places[j] {
                return false;
            }
        }
    }
    true
}

/// Whether each entry's neighbours are among these places.
fn are_kept(places: &[u16], implied: &[Implied]) -> bool
    ensures { IsTrue result ↔ All (HasNeighbours places.now) implied.now }
{
    for i in implied {
        if !has_both(places, i) {
            return false;
        }
    }
    true
}

fn has_both(places: &[u16], entry: &Implied) -> bool
    ensures { IsTrue result ↔ HasNeighbours places.now entry.now }
{
    has_place(places, usize::from(entry.a)) && has_place(places, usize::from(entry.b))
}

fn has_place(places: &[u16], place: usize) -> bool
    ensures { IsTrue result ↔ Contains places.now place }
{
    for at in places {
        if usize::from(*at) == place {
            return true;
        }
    }
    false
}

/// The second condition.
fn forbid_their_pairs(requests: &[Request], kept: &[Kept]) -> bool
    requires { All (λ k. k.place < length requests.now) kept.now }
    ensures { IsTrue result ↔ All (ForbidsItsPair requests.now) kept.now }
{
    for k in kept {
        if permits(&requests[usize::from(k.place)].tuple, &k.pair) {
            return false;
        }
    }
    true
}

/// The third condition: the first request that forbids the pairs of two kept entries.
fn first_forbidding_two(requests: &[Request], kept: &[Kept]) -> Option<usize>
    ensures { MatchOption result (EachIndex requests.now (ForbidsOnePairAt requests.now kept.now))
        (FailsFirstAt requests.now (ForbidsOnePairAt requests.now kept.now)) }
{
    for place in 0..requests.len() {
        if !forbids_one_pair(&requests[place], kept) {
            return Some(place);
        }
    }
    None
}

/// Whether the request forbids no two of the pairs.
fn forbids_one_pair(request: &Request, kept: &[Kept]) -> bool
    ensures { IsTrue result ↔ ForbidsOnePair kept.now request.now }
{
    for k in 0..kept.len() {
        if !permits(&request.tuple, &kept[k].pair) {
            for j in 0..k {
                if !permits(&request.tuple, &kept[j].pair) {
                    return false;
                }
            }
        }
    }
    true
}

/// The fourth condition: the first request that an entry names without implying it.
fn first_not_implied(requests: &[Request], implied: &[Implied]) -> Option<usize>
    requires { All (IsInRange requests.now) implied.now }
    ensures { MatchOption result (EachIndex requests.now (IsImpliedAt requests.now implied.now))
        (FailsFirstAt requests.now (IsImpliedAt requests.now implied.now)) }
{
    for place in 0..requests.len() {
        if !is_implied_at(requests, implied, place) {
            return Some(place);
        }
    }
    None
}

/// Whether the entries that name the place imply its request.
fn is_implied_at(requests: &[Request], implied: &[Implied], place: usize) -> bool
    requires { All (IsInRange requests.now) implied.now }
    ensures { IsTrue result ↔ IsImpliedAt requests.now implied.now place }
{
    for i in implied {
        if !is_implied_if_at(requests, place, i) {
            return false;
        }
    }
    true
}

fn is_implied_if_at(requests: &[Request], place: usize, entry: &Implied) -> bool
    requires { IsInRange requests.now entry.now }
    ensures { IsTrue result ↔ IsImpliedIfAt requests.now place entry.now }
{
    usize::from(entry.place) != place || is_implied(requests, entry)
}

/// Whether the entry's request follows from its two neighbours.
fn is_implied(requests: &[Request], entry: &Implied) -> bool
    requires { IsInRange requests.now entry.now }
    ensures { IsTrue result ↔ IsImplied requests.now entry.now }
{
    let a = &requests[usize::from(entry.a)];
    let b = &requests[usize::from(entry.b)];
    let request = &requests[usize::from(entry.place)];
    implies(a, b, request, entry)
}

/// Whether `p` times `a` and `q` times `b` are as strict as `r` times the request.
fn implies(a: &Request, b: &Request, request: &Request, entry: &Implied) -> bool
    ensures { IsTrue result ↔ Implies a.now b.now request.now entry.now }
{
    let (p, q, r) = (
        u128::from(entry.p),
        u128::from(entry.q),
        u128::from(entry.r),
    );
    let overheads = p * u128::from(a.tuple.overhead) + q * u128::from(b.tuple.overhead);
    let rates = p * a.tuple.rate() + q * b.tuple.rate();
    1 <= r
        && r <= p + q
        && r * u128::from(request.tuple.overhead) <= overheads
        && rates <= r * request.tuple.rate()
}

/// The fifth condition: the first request that is neither kept nor implied.
fn first_missing(requests: &[Request], kept: &[Kept], implied: &[Implied]) -> Option<usize>
    requires kept_fit { length kept.now ≤ MAX_REQUESTS }
    requires implied_fit { length implied.now ≤ MAX_REQUESTS }
    ensures { MatchOption result (EachIndex requests.now (IsNamed kept.now implied.now))
        (FailsFirstAt requests.now (IsNamed kept.now implied.now)) }
{
    let named = named(kept, implied);
    let places = named.as_slice();
    for place in 0..requests.len() {
        if !has_place(places, place) {
            return Some(place);
        }
    }
    None
}
