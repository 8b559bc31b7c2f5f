//! How a dropped request follows from the kept ones.

ghost use Rattle.std.specs.Prelude.{◌≡◌, ◌<◌, ◌≤◌, ◌∷◌, List, length, AllPairs, slice_index_or};
ghost use Rattle.std.specs.List.{AllWithin};
ghost use Rattle.rate_cert.specs.declared.request.Request.{Request as RateRequest};
ghost use Rattle.bounding_set.specs.Announced.{Follows};
ghost use Rattle.bounding_set.specs.Certificate.{Listed, implied_above, implied_by};
ghost use Rattle.bounding_set.specs.Kept.{Lists};

use rate_cert::{Implied, Kept, Request};

/// How a request follows from the first kept one, if its overhead isn't greater, or from others.
/// The announced requests are given by rising overhead, with the entries that keep them.
pub fn implied_by(announced: &[Request], kept: &[Kept], place: u16, overhead: u16) -> Implied
    requires as_many { length kept.now ≡ length announced.now }
    requires in_order { AllPairs Follows announced.now }
    ensures { (listed : List Listed) → Lists announced.now kept.now listed
        → result ≡ implied_by listed place overhead }
{
    if kept.is_empty() {
        return Implied {
            place,
            a: 0,
            b: 0,
            p: 0,
            q: 0,
            r: 0,
        };
    }
    let first = kept[0].place;
    if overhead <= announced[0].tuple.overhead {
        return Implied {
            place,
            a: first,
            b: first,
            p: 1,
            q: 0,
            r: 1,
        };
    }
    implied_above(announced, kept, place, overhead)
}

/// How a request of greater overhead than the first kept one follows from its two neighbours, or
/// from the last kept one.
fn implied_above(announced: &[Request], kept: &[Kept], place: u16, overhead: u16) -> Implied
    requires as_many { length kept.now ≡ length announced.now }
    requires in_order { AllPairs Follows announced.now }
    requires some { 0 < length announced.now }
    requires above { (d : RateRequest)
        → (slice_index_or announced.now 0 d).tuple.overhead < overhead }
    ensures { (first : Listed) (behind : List Listed)
        → Lists announced.now kept.now (first ∷ behind)
        → result ≡ implied_above place overhead first behind }
{
    let next = count_upto(announced, overhead);
    let a = kept[next - 1].place;
    let below = announced[next - 1].tuple.overhead;
    if next == kept.len() {
        return Implied {
            place,
            a,
            b: a,
            p: overhead,
            q: 0,
            r: below,
        };
    }
    let above = announced[next].tuple.overhead;
    Implied {
        place,
        a,
        b: kept[next].place,
        p: above - overhead,
        q: overhead - below,
        r: above - below,
    }
}

/// How many of the announced requests have no more overhead than this.
fn count_upto(announced: &[Request], overhead: u16) -> usize
    requires { AllPairs Follows announced.now }
    ensures within { result ≤ length announced.now }
    ensures upto { AllWithin (λ l. l.tuple.overhead ≤ overhead) announced.now 0 result }
    ensures above { AllWithin (λ l. overhead < l.tuple.overhead) announced.now
        result (length announced.now) }
{
    announced.partition_point(|line| line.tuple.overhead <= overhead)
}
