//! The certificate for the announced set.

ghost use Rattle.std.specs.Prelude.{◌≡◌, ◌<◌, ◌≤◌, length, map, false, All, AllPairs, Contains, slice_index_or};
ghost use Rattle.rate_cert.specs.declared.request.Request.{Request};
ghost use Rattle.rate_cert.specs.Choice.{IsChoice, chosen_requests};
ghost use Rattle.rate_cert.specs.Certificate.{kept_places, places_of};
ghost use Rattle.bounding_set.specs.Rows.{HasRisingOwners};
ghost use Rattle.bounding_set.specs.Announced.{AnnouncesList, Follows};
ghost use Rattle.bounding_set.specs.Certificate.{kept_pairs, implied_by, dropped_places};
ghost use Rattle.bounding_set.specs.Kept.{KeepsRequests, IsMarked, pairs_of, listed_of};
ghost use Rattle.bounding_set.specs.State.{AnnouncesFor};

use crate::neighbours::implied_by;
use crate::pairs::mend_pairs;
use crate::places::{find_places, place_in};
use arrayvec::ArrayVec;
use rate_cert::{Cert, Implied, Kept, MAX_REQUESTS, Request};
use tmmbr_tuple::Pair;

/// Makes the certificate of the announced requests, which are given by rising overhead, from that of
/// those that were announced before; if none such are given, it was any.
pub fn certify(rows: &[Request], before: &[Request], announced: &[Request], cert: &mut Cert)
    requires rising { HasRisingOwners rows.now }
    requires within { length rows.now ≤ MAX_REQUESTS }
    requires announced { AnnouncesList rows.now announced.now }
    requires had { 0 < length before.now → pairs_of cert.old.kept.items ≡ kept_pairs before.now }
    ensures announced { AnnouncesFor rows.now cert.new }
    ensures chosen { chosen_requests rows.now (kept_places cert.new) ≡ announced.now }
{
    keep(rows, before, announced, &mut cert.kept);
    let entries = cert.kept.as_slice();
    let mut marks = [false; MAX_REQUESTS];
    mark_kept(entries, &mut marks);
    imply_others(rows, announced, entries, &marks, &mut cert.implied);
}

/// Keeps the announced requests, each with a pair that no other of them forbids.
fn keep(
    rows: &[Request],
    before: &[Request],
    announced: &[Request],
    kept: &mut ArrayVec<Kept, MAX_REQUESTS>,
)
    requires rising { HasRisingOwners rows.now }
    requires within { length rows.now ≤ MAX_REQUESTS }
    requires few { length announced.now ≤ MAX_REQUESTS }
    requires are_rows { All (Contains rows.now) announced.now }
    requires in_order { AllPairs Follows announced.now }
    requires had { 0 < length before.now → pairs_of kept.old.items ≡ kept_pairs before.now }
    ensures requests { KeepsRequests rows.now announced.now kept.new.items }
    ensures pairs { pairs_of kept.new.items ≡ kept_pairs announced.now }
{
    match announced {
        [stop, reach] if stop.tuple.rate() == 0 => {
            kept.clear();
            kept.push(Kept {
                place: place_in(rows, stop),
                pair: Pair {
                    packets: 0,
                    bits: 1,
                    seconds: 1,
                },
            });
            kept.push(Kept {
                place: place_in(rows, reach),
                pair: Pair {
                    packets: reach.tuple.rate() + 1,
                    bits: 0,
                    seconds: 8 * u128::from(reach.tuple.overhead),
                },
            });
        }
        _ => {
            mend_pairs(before, announced, kept);
            find_places(rows, announced, kept.as_mut_slice());
        }
    }
}

/// Marks the places of the kept entries.
fn mark_kept(kept: &[Kept], marks: &mut [bool])
    requires in_range { All (λ k. k.place < length marks.old) kept.now }
    requires unmarked { All (λ mark. mark ≡ false) marks.old }
    ensures { IsMarked kept.now marks.new }
{
    for entry in kept {
        marks[usize::from(entry.place)] = true;
    }
}

/// Says how each row that isn't kept follows from the kept ones, by rising place.
fn imply_others(
    rows: &[Request],
    announced: &[Request],
    kept: &[Kept],
    marks: &[bool],
    implied: &mut ArrayVec<Implied, MAX_REQUESTS>,
)
    requires within { length rows.now ≤ MAX_REQUESTS }
    requires keeps { KeepsRequests rows.now announced.now kept.now }
    requires in_order { AllPairs Follows announced.now }
    requires room { length rows.now ≤ length marks.now }
    requires marked { IsMarked kept.now marks.now }
    ensures { (d : Request) → implied.new.items
        ≡ map (λ place. implied_by (listed_of rows.now d kept.now) place
        (slice_index_or rows.now place d).tuple.overhead)
        (dropped_places (length rows.now) (places_of kept.now)) }
{
    implied.clear();
    for (place, row) in rows.iter().enumerate() {
        if !marks[place] {
            implied.push(implied_by(announced, kept, place as u16, row.tuple.overhead));
        }
    }
}

/// The requests that a certificate keeps, in its order.
pub fn chosen(rows: &[Request], cert: &Cert) -> ArrayVec<Request, MAX_REQUESTS>
    requires { IsChoice rows.now (kept_places cert.now) }
    ensures { result.items ≡ chosen_requests rows.now (kept_places cert.now) }
{
    let mut requests = ArrayVec::new();
    let kept = cert.kept.as_slice();
    for entry in kept {
        requests.push(rows[usize::from(entry.place)]);
    }
    requests
}
