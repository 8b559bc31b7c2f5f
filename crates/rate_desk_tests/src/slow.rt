//! The canonical choice as its definition says it, plainly and slowly: for tests.

use rate_cert::Request;
use std::alloc::{AllocError, Global};

/// The places of the announced requests, by rising overhead.
pub fn canonical_places(alloc: Global, requests: &[Request]) -> Result<Vec<usize>, AllocError> {
    let mut places = Vec::new(alloc);
    let one_stops_everything = requests.iter().any(stops_everything);
    let one_stops_media = requests.iter().any(stops_media);
    for (place, x) in requests.iter().enumerate() {
        let is_announced = if one_stops_everything {
            is_strictest_stop(requests, x)
        } else if one_stops_media {
            is_first_stop(requests, x) || is_of_least_reach(requests, x)
        } else {
            is_first_of_line(requests, x) && is_essential(alloc, requests, x)?
        };
        if is_announced {
            places.push(place)?;
        }
    }
    places.sort_by_key(|place| requests.get(*place).map_or(0, |r| r.tuple.overhead))?;
    Ok(places)
}

fn stops_everything(x: &Request) -> bool {
    x.tuple.rate() == 0 && x.tuple.overhead > 0
}

fn stops_media(x: &Request) -> bool {
    x.tuple.rate() == 0
}

/// Whether x stops everything, and is kept before each other that does: by overhead, then by owner.
fn is_strictest_stop(requests: &[Request], x: &Request) -> bool {
    let is_before = |y: &Request| (y.tuple.overhead, x.owner) <= (x.tuple.overhead, y.owner);
    stops_everything(x)
        && requests
            .iter()
            .all(|y| !stops_everything(y) || is_before(y))
}

fn is_first_stop(requests: &[Request], x: &Request) -> bool {
    stops_media(x)
        && requests
            .iter()
            .all(|y| !stops_media(y) || x.owner <= y.owner)
}

fn is_of_least_reach(requests: &[Request], x: &Request) -> bool {
    x.tuple.overhead > 0
        && requests
            .iter()
            .all(|y| y.tuple.overhead == 0 || reaches_first(x, y))
}

fn is_first_of_line(requests: &[Request], x: &Request) -> bool {
    requests
        .iter()
        .all(|y| !is_same_line(x, y) || x.owner <= y.owner)
}

fn is_same_line(x: &Request, y: &Request) -> bool {
    x.tuple.rate() == y.tuple.rate() && x.tuple.overhead == y.tuple.overhead
}

/// Whether x is kept before y beside a stop of the media: by rate over overhead, overhead, owner.
fn reaches_first(x: &Request, y: &Request) -> bool {
    let far = |a: &Request, b: &Request| a.tuple.rate() * u128::from(b.tuple.overhead);
    (far(x, y), x.tuple.overhead, x.owner) <= (far(y, x), y.tuple.overhead, y.owner)
}

/// A bound on a packet rate t, in eighths of a packet per second: `a * t < b`, or `a * t <= b`.
#[derive(Clone, Copy)]
struct Bound {
    a: i128,
    b: i128,
    strict: bool,
}

/// Whether some pair is forbidden by x and permitted by every request with another line.
///
/// At a packet rate t a line leaves `rate - overhead * t` for media. A pair that x alone forbids has
/// more media than x leaves, no less than none, and no more than any other line leaves.
fn is_essential(alloc: Global, requests: &[Request], x: &Request) -> Result<bool, AllocError> {
    let mut some_left = Vec::new(alloc);
    let mut none_left = Vec::new(alloc);
    let (rate, overhead) = line(x);
    some_left.push(Bound {
        a: overhead,
        b: rate,
        strict: false,
    })?;
    none_left.push(Bound {
        a: overhead.wrapping_neg(),
        b: rate.wrapping_neg(),
        strict: true,
    })?;
    for y in requests.iter() {
        if is_same_line(x, y) {
            continue;
        }
        let (other_rate, other_overhead) = line(y);
        some_left.push(Bound {
            a: other_overhead.wrapping_sub(overhead),
            b: other_rate.wrapping_sub(rate),
            strict: true,
        })?;
        none_left.push(Bound {
            a: other_overhead,
            b: other_rate,
            strict: false,
        })?;
    }
    let from_zero = Bound {
        a: -1,
        b: 0,
        strict: false,
    };
    some_left.push(from_zero)?;
    none_left.push(from_zero)?;
    Ok(is_solvable(some_left.as_slice()) || is_solvable(none_left.as_slice()))
}

fn line(r: &Request) -> (i128, i128) {
    (r.tuple.rate() as i128, i128::from(r.tuple.overhead))
}

/// Whether some t meets all bounds: no lower bound is above an upper one.
fn is_solvable(bounds: &[Bound]) -> bool {
    for p in bounds {
        if p.a == 0 && (p.b < 0 || p.strict && p.b == 0) {
            return false;
        }
        for q in bounds {
            // q.b / q.a is below t, and t below p.b / p.a.
            if p.a > 0 && q.a < 0 {
                let above = p.b.wrapping_mul(q.a);
                let below = q.b.wrapping_mul(p.a);
                if above > below || above == below && (p.strict || q.strict) {
                    return false;
                }
            }
        }
    }
    true
}
