//! The certificate of a choice by the formulas of `docs/FORMATS.md`, one by one: for tests.

use rate_cert::{Cert, Implied, Kept, Request};
use std::test::Fail;
use tmmbr_tuple::Pair;

/// The certificate of the requests at these places, which are listed by rising overhead.
pub fn certificate(requests: &[Request], places: &[usize]) -> Result<Cert, Fail> {
    let mut cert = Cert::default();
    put_kept(requests, places, &mut cert)?;
    put_implied(requests, places, &mut cert)?;
    Ok(cert)
}

/// Puts the kept ones.
fn put_kept(requests: &[Request], places: &[usize], cert: &mut Cert) -> Result<(), Fail> {
    for j in 0..places.len() {
        let place = u16::try_from(places[j])?;
        let pair = pair_of_kept(requests, places, j).ok_or("in range")?;
        cert.kept.try_push(Kept { place, pair })?;
    }
    Ok(())
}

/// Puts those that follow from them.
fn put_implied(requests: &[Request], places: &[usize], cert: &mut Cert) -> Result<(), Fail> {
    for (place, request) in requests.iter().enumerate() {
        if !places.contains(&place) {
            let entry = implied_entry(requests, places, place, request).ok_or("in range")?;
            cert.implied.try_push(entry)?;
        }
    }
    Ok(())
}

/// The rate and overhead of the kept request of number j; `None` past the last one.
fn kept_line(requests: &[Request], places: &[usize], j: usize) -> Option<(u128, u128)> {
    let request = requests.get(*places.get(j)?)?;
    Some((request.tuple.rate(), u128::from(request.tuple.overhead)))
}

/// The pair of the kept request of number j.
fn pair_of_kept(requests: &[Request], places: &[usize], j: usize) -> Option<Pair> {
    let (rate, overhead) = kept_line(requests, places, j)?;
    let (first_rate, _) = kept_line(requests, places, 0)?;
    if places.len() == 2 && first_rate == 0 {
        return match j {
            0 => Pair::new(0, 1, 1),
            _ => Pair::new(rate.wrapping_add(1), 0, overhead.wrapping_mul(8)),
        };
    }
    let left = left_end(requests, places, j)?;
    let right = match left_end(requests, places, j.wrapping_add(1)) {
        Some(end) => end,
        None => (rate, overhead.wrapping_mul(8)),
    };
    let packets = left.0.wrapping_add(right.0);
    let seconds = left.1.wrapping_add(right.1);
    let headers = overhead.wrapping_mul(8).wrapping_mul(packets);
    let bits = rate.wrapping_mul(seconds).wrapping_sub(headers);
    Pair::new(packets, bits.wrapping_add(1), seconds)
}

/// The left end of the kept request of number j: upper and lower part.
fn left_end(requests: &[Request], places: &[usize], j: usize) -> Option<(u128, u128)> {
    let (rate, overhead) = kept_line(requests, places, j)?;
    if j == 0 {
        return Some((0, 1));
    }
    let (rate_before, overhead_before) = kept_line(requests, places, j.wrapping_sub(1))?;
    let lower = overhead.wrapping_sub(overhead_before).wrapping_mul(8);
    Some((rate.wrapping_sub(rate_before), lower))
}

/// The overhead of the request at this place; 0 if there is none.
fn overhead_at(requests: &[Request], place: usize) -> u16 {
    requests.get(place).map_or(0, |r| r.tuple.overhead)
}

/// The entry of the request at this place, which follows from those at two others, by these multipliers.
fn entry_by(place: usize, a: usize, b: usize, p: u16, q: u16, r: u16) -> Option<Implied> {
    let (place, a, b) = (
        u16::try_from(place).ok()?,
        u16::try_from(a).ok()?,
        u16::try_from(b).ok()?,
    );
    Some(Implied {
        place,
        a,
        b,
        p,
        q,
        r,
    })
}

/// How the request, which stands at this place and isn't kept, follows from kept ones.
fn implied_entry(
    requests: &[Request],
    places: &[usize],
    place: usize,
    request: &Request,
) -> Option<Implied> {
    let overhead = request.tuple.overhead;
    let (first, last) = (*places.first()?, *places.last()?);
    let farthest = overhead_at(requests, last);
    if overhead <= overhead_at(requests, first) {
        return entry_by(place, first, first, 1, 0, 1);
    }
    if overhead >= farthest {
        return entry_by(place, last, last, overhead, 0, farthest);
    }
    entry_between(requests, places, place, overhead)
}

/// The same of one whose overhead lies between those of kept ones: by its neighbours among these.
fn entry_between(
    requests: &[Request],
    places: &[usize],
    place: usize,
    overhead: u16,
) -> Option<Implied> {
    let behind = places
        .iter()
        .position(|k| overhead < overhead_at(requests, *k))?;
    let a = *places.get(behind.wrapping_sub(1))?;
    let b = *places.get(behind)?;
    let (before, after) = (overhead_at(requests, a), overhead_at(requests, b));
    entry_by(
        place,
        a,
        b,
        after.wrapping_sub(overhead),
        overhead.wrapping_sub(before),
        after.wrapping_sub(before),
    )
}
