//! The pairs of the kept entries, of which a change makes only those beside it anew.

ghost use Rattle.std.specs.Prelude.{◌≡◌, ◌+◌, ◌-◌, ◌<◌, ◌≤◌, ◌++◌, length, take, drop, AllPairs};
ghost use Rattle.bounding_set.specs.Announced.{Follows};
ghost use Rattle.bounding_set.specs.Certificate.{start_end, pairs_from, kept_pairs};
ghost use Rattle.bounding_set.specs.Kept.{HasLeftEnd, end_of, pairs_of};

use crate::line_end::LineEnd;
use arrayvec::ArrayVec;
use rate_cert::{Kept, MAX_REQUESTS, Request};

/// How many more requests may be announced than before for the entries that stand after the change to be moved:
/// each one more moves them all by one.
const MOST_MORE: usize = 4;

/// Gives the kept entries the pairs between the ends of the announced requests' lines. They had
/// those of the requests that were announced before; if no such are given, they had any.
pub fn mend_pairs(
    before: &[Request],
    announced: &[Request],
    kept: &mut ArrayVec<Kept, MAX_REQUESTS>,
)
    requires few { length announced.now ≤ MAX_REQUESTS }
    requires in_order { AllPairs Follows announced.now }
    requires had { 0 < length before.now → pairs_of kept.old.items ≡ kept_pairs before.now }
    ensures as_many { length kept.new.items ≡ length announced.now }
    ensures pairs { pairs_of kept.new.items ≡ pairs_from start_end announced.now }
{
    let (low, behind) = shared_ends(before, announced);
    resize(kept, low, behind, announced.len());
    make_pairs(
        announced,
        low,
        announced.len() - behind,
        kept.as_mut_slice(),
    );
}

/// A count of pairs that are the same at the beginning of both lists of requests, and one at the end. A
/// pair depends on its request and on the two beside it.
fn shared_ends(before: &[Request], announced: &[Request]) -> (usize, usize)
    ensures within_before { result.0 + result.1 ≤ length before.now }
    ensures within { result.0 + result.1 ≤ length announced.now }
    ensures beginning { 0 < result.0 → take result.0 (kept_pairs before.now)
        ≡ take result.0 (pairs_from start_end announced.now) }
    ensures end { 0 < result.1 → drop (length before.now - result.1) (kept_pairs before.now)
        ≡ drop (length announced.now - result.1) (pairs_from start_end announced.now) }
{
    // Two may be a stop and another request, whose pairs are their own.
    if before.len() <= 2 {
        return (0, 0);
    }
    let low = same_before(before, announced).saturating_sub(1);
    if announced.len() > before.len() + MOST_MORE {
        return (low, 0);
    }
    let most = before.len().min(announced.len()) - low;
    let behind = same_behind(before, announced, most).saturating_sub(1);
    (low, behind)
}

/// How many requests are the same at the beginning of both lists.
fn same_before(a: &[Request], b: &[Request]) -> usize
    ensures within_a { result ≤ length a.now }
    ensures within_b { result ≤ length b.now }
    ensures same { take result a.now ≡ take result b.now }
{
    let most = a.len().min(b.len());
    let mut count = 0;
    while count < most && a[count] == b[count] {
        count += 1;
    }
    count
}

/// How many requests, of so many at most, are the same at the end of both lists.
fn same_behind(a: &[Request], b: &[Request], most: usize) -> usize
    requires within_a { most ≤ length a.now }
    requires within_b { most ≤ length b.now }
    ensures within { result ≤ most }
    ensures same { drop (length a.now - result) a.now ≡ drop (length b.now - result) b.now }
{
    let mut count = 0;
    while count < most && a[a.len() - 1 - count] == b[b.len() - 1 - count] {
        count += 1;
    }
    count
}

/// Makes so many entries of them. The first `low` stay, and the last `behind`.
fn resize(kept: &mut ArrayVec<Kept, MAX_REQUESTS>, low: usize, behind: usize, len: usize)
    requires in_range { low + behind ≤ length kept.old.items }
    requires room { low + behind ≤ len }
    requires few { len ≤ MAX_REQUESTS }
    ensures len { length kept.new.items ≡ len }
    ensures beginning { take low kept.new.items ≡ take low kept.old.items }
    ensures end { drop (len - behind) kept.new.items
        ≡ drop (length kept.old.items - behind) kept.old.items }
{
    if len <= kept.len() {
        cut(kept, low, low + (kept.len() - len));
    } else {
        grow(kept, low, behind, len);
    }
}

/// Takes the entries out from `low` to `high`.
fn cut(kept: &mut ArrayVec<Kept, MAX_REQUESTS>, low: usize, high: usize)
    requires rising { low ≤ high }
    requires in_range { high ≤ length kept.old.items }
    ensures { kept.new.items ≡ take low kept.old.items ++ drop high kept.old.items }
{
    kept.drain(low..high);
}

/// Inserts entries before the last `behind` until there are so many.
fn grow(kept: &mut ArrayVec<Kept, MAX_REQUESTS>, low: usize, behind: usize, len: usize)
    requires in_range { low + behind ≤ length kept.old.items }
    requires fewer { length kept.old.items ≤ len }
    requires few { len ≤ MAX_REQUESTS }
    ensures len { length kept.new.items ≡ len }
    ensures beginning { take low kept.new.items ≡ take low kept.old.items }
    ensures end { drop (len - behind) kept.new.items
        ≡ drop (length kept.old.items - behind) kept.old.items }
{
    for count in kept.len()..len {
        kept.insert(count - behind, Kept::default());
    }
}

/// Makes the pairs from `low` to `high`; the others are those of the announced requests.
fn make_pairs(announced: &[Request], low: usize, high: usize, kept: &mut [Kept])
    requires rising { low ≤ high }
    requires in_range { high ≤ length announced.now }
    requires as_many { length kept.old ≡ length announced.now }
    requires in_order { AllPairs Follows announced.now }
    requires beginning { take low (pairs_of kept.old)
        ≡ take low (pairs_from start_end announced.now) }
    requires end { drop high (pairs_of kept.old) ≡ drop high (pairs_from start_end announced.now) }
    ensures as_many { length kept.new ≡ length announced.now }
    ensures pairs { pairs_of kept.new ≡ pairs_from start_end announced.now }
{
    let mut left = left_end(announced, low);
    for place in low..high {
        let x = &announced[place];
        let right = LineEnd::right_of(x, &announced[place + 1..]);
        kept[place].pair = left.pair_to(right, x);
        left = right;
    }
}

/// Where the line of the request at this place begins.
fn left_end(announced: &[Request], place: usize) -> LineEnd
    requires in_range { place ≤ length announced.now }
    requires in_order { AllPairs Follows announced.now }
    ensures begins { HasLeftEnd (end_of result) (drop place announced.now) }
    ensures pairs { pairs_from (end_of result) (drop place announced.now)
        ≡ drop place (pairs_from start_end announced.now) }
{
    match place {
        0 => LineEnd::start(),
        _ => LineEnd::right_of(&announced[place - 1], &announced[place..]),
    }
}
