//! The live requests of one media sender, from a list of requests.

ghost use Rattle.std.specs.Prelude.{◌≡◌, ◌<◌, ◌≤◌, [], length, All};
ghost use Rattle.std.specs.List.{HoldsAt};
ghost use Rattle.rate_cert.specs.declared.request.Request.{Request as RateRequest};
ghost use Rattle.rate_cert.specs.Owners.{OwnersRise};
ghost use Rattle.tmmbr_c.specs.Order.{ordered};

use crate::order::OwnerPlace;
use arrayvec::ArrayVec;
use bounding_set::Bounds;
use rate_cert::{MAX_REQUESTS, Request};

/// Makes the requests of these owners, which are given by rising SSRC, the live ones.
pub fn put_requests(bounds: &mut Bounds, requests: &[Request], order: &[OwnerPlace])
    requires few { length order.now ≤ MAX_REQUESTS }
    requires rising { OwnersRise (λ o. o.ssrc) order.now }
    requires in_range { All (λ o. o.place < length requests.now) order.now }
    requires owns { All (λ o. HoldsAt (λ r. r.owner.0 ≡ o.ssrc) requests.now o.place) order.now }
    ensures { (d : RateRequest) → bounds.new.rows ≡ ordered requests.now d order.now }
{
    let mut rows = ArrayVec::new();
    put_in_order(&mut rows, requests, order);
    let _put = bounds.set_all(rows.as_slice());
}

/// Puts the requests of these owners in their order.
fn put_in_order(
    rows: &mut ArrayVec<Request, MAX_REQUESTS>,
    requests: &[Request],
    order: &[OwnerPlace],
)
    requires empty { rows.old.items ≡ [] }
    requires few { length order.now ≤ MAX_REQUESTS }
    requires in_range { All (λ o. o.place < length requests.now) order.now }
    ensures { (d : RateRequest) → rows.new.items ≡ ordered requests.now d order.now }
{
    for owner in order {
        rows.push(requests[usize::from(owner.place)]);
    }
}
