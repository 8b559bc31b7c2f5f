//! One more line is put into an envelope.

ghost use Rattle.std.specs.Prelude.{◌≡◌, ◌+◌, ◌-◌, ◌^◌, ◌<◌, ◌≤◌, ◌∷◌, ◌++◌, length, take, drop, IsTrue, false};
ghost use Rattle.std.specs.List.{AllWithin};
ghost use Rattle.bounding_set.specs.Canonical.{StopsMedia};
ghost use Rattle.bounding_set.specs.Envelope.{IsNotAfter, IsHull, IsSendingHull, Covers, KeepsLeastOwner};
ghost use Rattle.bounding_set.specs.Place.{IsPlaceOf, IsNeededAt, StandsAround};
ghost use Rattle.bounding_set.specs.Spliced.{HasRoomToSplice, IsSplicedEnvelope};
ghost use Rattle.bounding_set.specs.Tests.{CountsBeside, CountsSplice};

use crate::beside::{needed_before, needed_behind};
use crate::implies::implies;
use arrayvec::ArrayVec;
use rate_cert::{MAX_REQUESTS, Request};

/// Puts a line into an envelope, unless its neighbours imply it, and drops the lines that it makes
/// needless. Of one line, the least owner stays. True where the line stands there now.
///
/// `count` grows by one for each test whether two lines imply a third.
pub fn splice(lines: &mut ArrayVec<Request, MAX_REQUESTS>, x: &Request, count: &mut u32) -> bool
    requires hull { IsSendingHull lines.old.items }
    requires sends { ¬ StopsMedia x.now }
    requires room { HasRoomToSplice lines.old.items count.old }
    ensures envelope { IsSplicedEnvelope lines.old.items x.now result lines.new.items
        (count.new - count.old) }
    ensures tests { CountsSplice count.old count.new lines.old.items lines.new.items result }
{
    let at = lines_before(lines.as_slice(), x);
    let from = lines_upto(lines.as_slice(), x);
    if is_needless(lines.as_slice(), at, from, x, count) {
        return false;
    }
    let (low, high) = needless_beside(lines.as_slice(), at, from, x, count);
    replace(lines, low, high, x);
    true
}

/// How many lines have less overhead than x.
pub fn lines_before(lines: &[Request], x: &Request) -> usize
    requires { IsHull lines.now }
    ensures within { result ≤ length lines.now }
    ensures before { AllWithin (λ l. l.tuple.overhead < x.now.tuple.overhead) lines.now 0 result }
    ensures behind { AllWithin (λ l. x.now.tuple.overhead
        ≤ l.tuple.overhead) lines.now result (length lines.now) }
{
    lines.partition_point(|line| line.tuple.overhead < x.tuple.overhead)
}

/// How many lines have no more overhead than x.
fn lines_upto(lines: &[Request], x: &Request) -> usize
    requires { IsHull lines.now }
    ensures within { result ≤ length lines.now }
    ensures before { AllWithin (λ l. l.tuple.overhead ≤ x.now.tuple.overhead) lines.now 0 result }
    ensures behind { AllWithin (λ l. x.now.tuple.overhead
        < l.tuple.overhead) lines.now result (length lines.now) }
{
    lines.partition_point(|line| line.tuple.overhead <= x.tuple.overhead)
}

/// Whether x isn't needed at its place: a line of its overhead is as strict, or its neighbours imply it.
fn is_needless(lines: &[Request], at: usize, from: usize, x: &Request, count: &mut u32) -> bool
    requires hull { IsSendingHull lines.now }
    requires place { IsPlaceOf lines.now x.now at from }
    requires countable { count.old + 1 < 2 ^ 32 }
    ensures covered { IsTrue result → Covers lines.now x.now }
    ensures least { IsTrue result → KeepsLeastOwner lines.now x.now }
    ensures needed { result ≡ false → IsNeededAt lines.now x.now at from }
    ensures counted { count.old ≤ count.new }
    ensures few { count.new ≤ count.old + 1 }
{
    if at < from {
        comes_first(&lines[at], x)
    } else {
        is_implied(lines, at, x, count)
    }
}

/// Whether of two lines of one overhead the first has the lesser rate, or the same and no greater
/// owner.
fn comes_first(line: &Request, other: &Request) -> bool
    requires { line.now.tuple.overhead ≡ other.now.tuple.overhead }
    ensures first { IsTrue result → IsNotAfter line.now other.now }
    ensures second { result ≡ false → IsNotAfter other.now line.now }
{
    (line.tuple.rate(), line.owner.0) <= (other.tuple.rate(), other.owner.0)
}

/// Whether the neighbours of x, whose overhead no line has, imply it. At an end there is one neighbour.
fn is_implied(lines: &[Request], at: usize, x: &Request, count: &mut u32) -> bool
    requires hull { IsSendingHull lines.now }
    requires place { IsPlaceOf lines.now x.now at at }
    requires countable { count.old + 1 < 2 ^ 32 }
    ensures covered { IsTrue result → Covers lines.now x.now }
    ensures needed { result ≡ false → IsNeededAt lines.now x.now at at }
    ensures counted { count.old ≤ count.new }
    ensures few { count.new ≤ count.old + 1 }
{
    if lines.is_empty() {
        return false;
    }
    let before = &lines[at.saturating_sub(1)].tuple;
    let behind = &lines[at.min(lines.len() - 1)].tuple;
    implies(before, &x.tuple, behind, count)
}

/// From where to where x makes lines needless.
fn needless_beside(
    lines: &[Request],
    at: usize,
    from: usize,
    x: &Request,
    count: &mut u32,
) -> (usize, usize)
    requires hull { IsHull lines.now }
    requires sends { ¬ StopsMedia x.now }
    requires place { IsPlaceOf lines.now x.now at from }
    requires needed { IsNeededAt lines.now x.now at from }
    requires countable { count.old + length lines.now + 2 < 2 ^ 32 }
    ensures stands { StandsAround lines.now x.now at from result.0 result.1 }
    ensures tests { CountsBeside count.old count.new (length lines.now) at from result.0 result.1 }
{
    let low = needed_before(&lines[..at], x, count);
    let high = from + needed_behind(&lines[from..], x, count);
    (low, high)
}

/// Puts x in place of the lines from `low` to `high`.
fn replace(lines: &mut ArrayVec<Request, MAX_REQUESTS>, low: usize, high: usize, x: &Request)
    requires room { length lines.old.items < MAX_REQUESTS }
    requires rising { low ≤ high }
    requires in_range { high ≤ length lines.old.items }
    ensures { lines.new.items ≡ take low lines.old.items ++ x.now ∷ drop high lines.old.items }
{
    lines.drain(low..high);
    lines.insert(low, *x);
}
