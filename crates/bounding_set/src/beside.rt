//! Which lines of an envelope are essential beside one more.

ghost use Rattle.std.specs.Prelude.{◌≡◌, ℕ, ◌<◌, ◌≤◌, ◌+◌, ◌-◌, ◌^◌, ◌↔◌, length, All, IsTrue, slice_index_or};
ghost use Rattle.std.specs.List.{AllWithin};
ghost use Rattle.tmmbr_tuple.specs.Tuple.{rate_of};
ghost use Rattle.tmmbr_tuple.specs.RatePair.{RatePair, Permits};
ghost use Rattle.rate_cert.specs.declared.request.Request.{Request as RateRequest};
ghost use Rattle.rate_cert.specs.Requests.{IsFeasible};
ghost use Rattle.bounding_set.specs.Canonical.{StopsMedia};
ghost use Rattle.bounding_set.specs.Envelope.{ReachesBeyond, IsBehind, Crosses, Turns, IsHull};
ghost use Rattle.bounding_set.specs.Spliced.{ImplyTogether};
ghost use Rattle.bounding_set.specs.Tests.{CountsDropped};

use crate::implies::implies;
use rate_cert::Request;

/// How many of the lines, from the first on, are essential beside one that they reach beyond.
///
/// `count` grows by one for each test whether two lines imply a third.
pub fn needed_before(lines: &[Request], x: &Request, count: &mut u32) -> usize
    requires hull { IsHull lines.now }
    requires beyond { All (ReachesBeyond x.now) lines.now }
    requires countable { count.old + length lines.now + 1 < 2 ^ 32 }
    ensures within { result ≤ length lines.now }
    ensures covers { (p : RatePair) → AllWithin (λ l. Permits l.tuple p) lines.now 0 result
        → Permits x.now.tuple p → IsFeasible lines.now p }
    ensures rates { AllWithin (λ l. rate_of l.tuple < rate_of x.now.tuple) lines.now 0 result }
    ensures turns { (i j : ℕ) (d : RateRequest) → i < j → j < result
        → Turns (slice_index_or lines.now i d) (slice_index_or lines.now j d) x.now }
    ensures tests { CountsDropped count.old count.new (length lines.now) (length lines.now - result) }
{
    let mut needed = lines.len();
    while is_needless_before(lines, needed, x, count) {
        needed -= 1;
    }
    needed
}

/// From which of the lines on they are essential beside one that stands before them.
///
/// `count` grows by one for each test whether two lines imply a third.
pub fn needed_behind(lines: &[Request], x: &Request, count: &mut u32) -> usize
    requires hull { IsHull lines.now }
    requires behind { All (IsBehind x.now) lines.now }
    requires sends { ¬ StopsMedia x.now }
    requires countable { count.old + length lines.now + 1 < 2 ^ 32 }
    ensures within { result ≤ length lines.now }
    ensures covers { (p : RatePair)
        → AllWithin (λ l. Permits l.tuple p) lines.now result (length lines.now)
        → Permits x.now.tuple p → IsFeasible lines.now p }
    ensures crosses { AllWithin (Crosses x.now) lines.now result (length lines.now) }
    ensures turns { (i j : ℕ) (d : RateRequest) → result ≤ i → i < j → j < length lines.now
        → Turns x.now (slice_index_or lines.now i d) (slice_index_or lines.now j d) }
    ensures tests { CountsDropped count.old count.new (length lines.now) result }
{
    let mut first = 0;
    while is_needless_behind(lines, first, x, count) {
        first += 1;
    }
    first
}

/// Whether the line before it, or x if there is none, and x imply the last of so many lines.
fn is_needless_before(lines: &[Request], needed: usize, x: &Request, count: &mut u32) -> bool
    requires within { needed ≤ length lines.now }
    requires countable { count.old + 1 < 2 ^ 32 }
    ensures some { IsTrue result → 0 < needed }
    ensures one { (d : RateRequest) → needed ≡ 1
        → (IsTrue result
        ↔ ImplyTogether x.now.tuple x.now.tuple (slice_index_or lines.now 0 d).tuple) }
    ensures more { (d : RateRequest) → 1 < needed
        → (IsTrue result
        ↔ ImplyTogether (slice_index_or lines.now (needed - 2) d).tuple x.now.tuple
        (slice_index_or lines.now (needed - 1) d).tuple) }
    ensures counted { count.old ≤ count.new }
    ensures asked { 0 < needed → count.new ≡ count.old + 1 }
    ensures few { count.new ≤ count.old + 1 }
{
    match needed {
        0 => false,
        1 => implies(&x.tuple, &lines[0].tuple, &x.tuple, count),
        _ => implies(
            &lines[needed - 2].tuple,
            &lines[needed - 1].tuple,
            &x.tuple,
            count,
        ),
    }
}

/// Whether x and the line after it, or x alone if there is none, imply the line at this place.
fn is_needless_behind(lines: &[Request], place: usize, x: &Request, count: &mut u32) -> bool
    requires within { place ≤ length lines.now }
    requires countable { count.old + 1 < 2 ^ 32 }
    ensures some { IsTrue result → place < length lines.now }
    ensures last { (d : RateRequest) → place + 1 ≡ length lines.now
        → (IsTrue result
        ↔ ImplyTogether x.now.tuple x.now.tuple (slice_index_or lines.now place d).tuple) }
    ensures more { (d : RateRequest) → place + 1 < length lines.now
        → (IsTrue result
        ↔ ImplyTogether x.now.tuple (slice_index_or lines.now (place + 1) d).tuple
        (slice_index_or lines.now place d).tuple) }
    ensures counted { count.old ≤ count.new }
    ensures asked { place < length lines.now → count.new ≡ count.old + 1 }
    ensures few { count.new ≤ count.old + 1 }
{
    match lines.len() - place {
        0 => false,
        1 => implies(&x.tuple, &lines[place].tuple, &x.tuple, count),
        _ => implies(
            &x.tuple,
            &lines[place].tuple,
            &lines[place + 1].tuple,
            count,
        ),
    }
}
