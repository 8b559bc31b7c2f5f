//! The envelope that is changed in place beside the plain walk over all rows.
ghost use Rattle.std.specs.Prelude.{◌≡◌, false, All};
ghost use Rattle.bounding_set.specs.Canonical.{StopsMedia};

use crate::lists::{Generator, KINDS, Kind};
use crate::set_tests::{Step, assert_as_defined, play, says_change, sixty_four, tuple_of_64};
use crate::slow::canonical_places;
use crate::slow_certificate::certificate;
use arrayvec::ArrayVec;
use bounding_set::Bounds;
use bounding_set::laws::{implies, walk};
use rate_cert::{Cert, Implied, Kept, MAX_REQUESTS, Request};
use std::alloc::Global;
use std::process::Abort;
use std::test::Fail;
use tmmbr_tuple::{Ssrc, Tuple};

/// Whether a rate is 0.
fn has_stop(rows: &[Request]) -> bool
    ensures { result ≡ false → All (λ r. ¬ StopsMedia r) rows.now }
{
    for row in rows {
        if row.tuple.rate() == 0 {
            return true;
        }
    }
    false
}

/// The announced requests by the definition, to an empty list.
fn put_defined(
    alloc: Global,
    rows: &[Request],
    lines: &mut ArrayVec<Request, MAX_REQUESTS>,
) -> Result<(), Fail> {
    let places = canonical_places(alloc, rows)?;
    for place in places.as_slice() {
        lines.try_push(*rows.get(*place).ok_or("no row")?)?;
    }
    Ok(())
}

/// The places of these requests among the rows.
fn places_of(alloc: Global, rows: &[Request], lines: &[Request]) -> Result<Vec<usize>, Fail> {
    let mut places = Vec::new(alloc);
    for line in lines {
        let place = rows.binary_search_by_key(&line.owner.0, |row| row.owner.0);
        places.push(place.map_err(|_| Fail::from("no row"))?)?;
    }
    Ok(places)
}

/// Whether these requests are announced, with their certificate.
fn announces(alloc: Global, bounds: &Bounds, lines: &[Request]) -> Result<bool, Fail> {
    let places = places_of(alloc, bounds.rows(), lines)?;
    let wanted = certificate(bounds.rows(), places.as_slice())?;
    Ok(bounds.announced().as_slice() == lines && *bounds.cert() == wanted)
}

/// How many tests the plain walk takes over all rows; `None` if a rate is 0, and the definition is asked
/// instead. That way finds the announced requests, and their certificate is the same.
fn assert_as_walked(rt: &impl Abort, alloc: Global, bounds: &Bounds) -> Result<Option<u32>, Fail> {
    let mut lines = ArrayVec::new();
    let mut count = 0;
    let is_stopped = has_stop(bounds.rows());
    if is_stopped {
        put_defined(alloc, bounds.rows(), &mut lines)?;
    } else {
        walk(bounds.rows(), &mut lines, &mut count);
    }
    let is_so = announces(alloc, bounds, lines.as_slice())?;
    assert!(rt; is_so, "{:?}", bounds.rows());
    Ok(if is_stopped { None } else { Some(count) })
}

/// Puts or removes a request, and says truly whether the announced set changed.
fn change(bounds: &mut Bounds, asked: &Request, goes: bool) -> Result<(), Fail> {
    if goes {
        let _removed = bounds.remove(asked.owner);
    } else if !says_change(bounds, asked)? {
        return Err(Fail::from("a change, or none, that isn't said"));
    }
    Ok(())
}

/// The call of this number: first each of 256 owners comes, then they change and go. In each second
/// hundred one of eight owners asks now and then for something that hides most of the others; then
/// these eight go.
fn call(generator: &mut Generator, number: usize) -> (Request, bool) {
    let hides = number / 100 % 2 == 1 && generator.once_in(20);
    let mut asked = match hides {
        true => generator.request_of(8, KINDS[number % 5]),
        false => generator.request_of(256, Kind::ManyLines),
    };
    let mut goes = generator.once_in(16);
    match (number, number % 200) {
        (0..256, _) => (asked.owner, goes) = (Ssrc(number as u32), false),
        (_, 0..8) => (asked.owner, goes) = (Ssrc((number % 200) as u32), true),
        _ => {}
    }
    (asked, goes)
}

#[test]
fn in_place_equals_plain(rt: HostRuntime) -> Result<(), Fail> {
    let mut generator = Generator::new();
    let mut bounds = Bounds::new();
    let (mut walked, mut most_live, mut most_kept) = (0_u32, 0, 0);
    for number in 0..2000_usize {
        let (asked, goes) = call(&mut generator, number);
        change(&mut bounds, &asked, goes)?;
        if assert_as_walked(&rt, rt.alloc(), &bounds)?.is_some() {
            walked = walked.saturating_add(1);
        }
        most_live = most_live.max(bounds.rows().len());
        most_kept = most_kept.max(bounds.cert().kept.len());
    }
    assert!(rt;
        walked > 1000,
        "{walked} of 2,000 were compared with the walk"
    );
    assert_eq!(rt; most_live, 256);
    assert!(rt; most_kept > 100, "{most_kept} were kept");
    Ok(())
}

/// In example 4 owners 18 and 17 imply what 19 asks for; in example 5 it is one bit per second less, and they don't. Each test counts.
#[test]
fn implied_as_in_examples_4_and_5(rt: HostRuntime) {
    let (first, second) = (Tuple::from_word(0x01d4_c014), Tuple::from_word(0x01f4_0028));
    let mut count = 7;
    let touches = implies(&first, &Tuple::from_word(0x01e4_601e), &second, &mut count);
    let cuts_off = implies(&first, &Tuple::from_word(0x01e4_5e1e), &second, &mut count);
    assert!(rt; (touches, cuts_off, count) == (true, false, 9));
}

/// Whether the row at this place is kept, with this pair.
fn keeps(kept: &Kept, place: u16, pair: (u128, u128, u128)) -> bool {
    kept.place == place && (kept.pair.packets, kept.pair.bits, kept.pair.seconds) == pair
}

/// Whether owner 64 hides all but the farthest of the others, by this certificate.
fn hides_all_but_one(cert: &Cert) -> bool {
    let first = Implied {
        place: 0,
        a: 63,
        b: 62,
        p: 62,
        q: 1,
        r: 63,
    };
    match cert.kept.as_slice() {
        [last, farthest] => {
            keeps(last, 63, (8_968, 506, 505))
                && keeps(farthest, 62, (17_937, 505, 1_008))
                && cert.implied.len() == 62
                && cert.implied.first() == Some(&first)
        }
        _ => false,
    }
}

/// The last comes after the others and hides none: one test of it, and one of the line before it. The walk looks at each.
fn come_in_few_steps(rt: &impl Abort, alloc: Global, bounds: &Bounds) -> Result<(), Fail> {
    let walk_steps = assert_as_walked(rt, alloc, bounds)?;
    assert!(rt; bounds.steps() == 2 && walk_steps.is_some_and(|steps| steps >= 62));
    Ok(())
}

/// One bit per second without overhead: only the farthest of the others still bounds. It goes from its place after all others, which
/// hides nothing. Then one test of it, 62 of lines that it hides, and one of the line that it doesn't.
fn hides_the_others(rt: &impl Abort, alloc: Global, bounds: &mut Bounds) -> Result<(), Fail> {
    let one_bit = Tuple::from_word(0x0000_0200);
    play(
        rt,
        bounds,
        &[Step::Set(64, one_bit, Ok(true)), Step::Steps(64)],
    );
    assert!(rt; hides_all_but_one(bounds.cert()));
    assert_as_defined(rt, alloc, bounds)
}

/// Nothing is left of that once it asks for what it did before. The 62 that were hidden came back from the least overhead on: two tests
/// of the first, which has no line before it, and three of each other one. Then two of owner 64. Nobody to be removed leaves that.
fn comes_back(rt: &impl Abort, bounds: &mut Bounds) {
    let steps = [
        Step::Set(64, tuple_of_64(64), Ok(true)),
        Step::Steps(2 + 61 * 3 + 2),
        Step::Remove(65, None),
        Step::Steps(187),
    ];
    play(rt, bounds, &steps);
}

#[test]
fn steps_of_sixty_four_owners(rt: HostRuntime) -> Result<(), Fail> {
    let mut bounds = Bounds::new();
    play(&rt, &mut bounds, &[Step::Steps(0)]);
    bounds = sixty_four()?;
    come_in_few_steps(&rt, rt.alloc(), &bounds)?;
    hides_the_others(&rt, rt.alloc(), &mut bounds)?;
    comes_back(&rt, &mut bounds);
    assert_as_defined(&rt, rt.alloc(), &bounds)?;
    let steps = [
        // Asking for the same again takes no test, nor does the removal of the one after all others.
        Step::Set(64, tuple_of_64(64), Ok(false)),
        Step::Steps(0),
        Step::Remove(64, Some(tuple_of_64(64))),
        Step::Steps(0),
        // One from among them hides nothing either, and no row is looked at between its neighbours.
        Step::Remove(32, Some(tuple_of_64(32))),
        Step::Steps(0),
    ];
    play(&rt, &mut bounds, &steps);
    Ok(())
}
