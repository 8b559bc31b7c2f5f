//! The definition on many lists, and the steps that tests are written in.
use crate::lists::{Generator, KINDS, Kind};
use crate::slow::canonical_places;
use crate::slow_certificate::certificate;
use bounding_set::{Bounds, Full};
use rate_cert::{Request, check};
use std::alloc::Global;
use std::process::Abort;
use std::test::Fail;
use tmmbr_tuple::{Ssrc, Tuple};

/// A call with what it answers, or what is then seen.
#[derive(Clone, Copy)]
pub enum Step {
    /// An owner asks for this: whether the announced set changes.
    Set(u32, Tuple, Result<bool, Full>),
    /// An owner's request goes: what it was.
    Remove(u32, Option<Tuple>),
    /// So many tests were made.
    Steps(u32),
}

/// Takes a step, and says whether all is as it says.
fn takes(bounds: &mut Bounds, step: &Step) -> bool {
    match *step {
        Step::Set(owner, tuple, answer) => bounds.set(Ssrc(owner), tuple) == answer,
        Step::Remove(owner, gone) => bounds.remove(Ssrc(owner)) == gone,
        Step::Steps(count) => bounds.steps() == count,
    }
}

/// The place of the first step after which something isn't as it says.
fn first_wrong(bounds: &mut Bounds, steps: &[Step]) -> Option<usize> {
    for (place, step) in steps.iter().enumerate() {
        if !takes(bounds, step) {
            return Some(place);
        }
    }
    None
}

/// Takes the steps.
pub fn play(rt: &impl Abort, bounds: &mut Bounds, steps: &[Step]) {
    assert_eq!(rt; first_wrong(bounds, steps), None);
}

/// Whether the rows at these places are kept, and announced.
fn announces_places(bounds: &Bounds, places: &[usize]) -> bool {
    let kept = bounds.cert().kept.as_slice();
    let announced = bounds.announced();
    let announced = announced.as_slice();
    for (at, place) in places.iter().enumerate() {
        let kept_place = kept.get(at).map(|k| usize::from(k.place));
        if kept_place != Some(*place) || announced.get(at) != bounds.rows().get(*place) {
            return false;
        }
    }
    kept.len() == places.len() && announced.len() == places.len()
}

/// Whether the announced requests are those of the definition, the certificate is the one of the formulas, and `check` accepts it.
fn is_as_defined(alloc: Global, bounds: &Bounds) -> Result<bool, Fail> {
    let rows = bounds.rows();
    let places = canonical_places(alloc, rows)?;
    let wanted = certificate(rows, places.as_slice())?;
    Ok(
        announces_places(bounds, places.as_slice())
            && *bounds.cert() == wanted
            && check(rows, bounds.cert()) == Ok(()),
    )
}

/// All of that is so.
pub fn assert_as_defined(rt: &impl Abort, alloc: Global, bounds: &Bounds) -> Result<(), Fail> {
    let is_so = is_as_defined(alloc, bounds)?;
    assert!(rt; is_so, "{:?}", bounds.rows());
    Ok(())
}

/// What owner i of 64 asks for: 5,000 + i * i bits per second, with i bytes per packet.
pub fn tuple_of_64(i: u16) -> Tuple {
    let number = u32::from(i % 128);
    Tuple::new(0, 5000 + number * number, i % 128).unwrap_or_default()
}

/// 64 owners ask, each of whom changes the announced set.
pub fn sixty_four() -> Result<Bounds, Fail> {
    let mut bounds = Bounds::new();
    for i in 1..=64_u16 {
        if !bounds.set(Ssrc(u32::from(i)), tuple_of_64(i))? {
            return Err(Fail::from("no change"));
        }
    }
    Ok(bounds)
}

/// Whether the rows of these bounds, taken all at once, are the rows then.
fn takes_all(at_once: &mut Bounds, bounds: &Bounds) -> bool {
    at_once.set_all(bounds.rows()) == Ok(()) && at_once.rows() == bounds.rows()
}

/// Puts a request by chance, and says whether it is truly said if the announced set changed.
pub fn says_change(bounds: &mut Bounds, asked: &Request) -> Result<bool, Full> {
    let before = bounds.announced();
    let changed = bounds.set(asked.owner, asked.tuple)?;
    Ok(changed == (bounds.announced() != before))
}

/// The bounds of a list by chance of this kind; of one in four an owner goes in the end.
fn drawn(generator: &mut Generator, kind: Kind) -> Result<Bounds, Fail> {
    let mut bounds = Bounds::new();
    for _ in 0..generator.count() {
        let asked = generator.request(kind);
        if !says_change(&mut bounds, &asked)? {
            return Err(Fail::from("a change, or none, that isn't said"));
        }
    }
    if generator.once_in(4) {
        let gone = generator.request(kind);
        let _removed = bounds.remove(gone.owner);
    }
    Ok(bounds)
}

/// A list by chance is shown as the definition says, put one after the other, and all at once.
fn list_as_defined(
    rt: &impl Abort,
    alloc: Global,
    at_once: &mut Bounds,
    bounds: &Bounds,
) -> Result<(), Fail> {
    assert_as_defined(rt, alloc, bounds)?;
    let takes = takes_all(at_once, bounds);
    assert!(rt; takes);
    assert_as_defined(rt, alloc, at_once)
}

#[test]
fn lists_as_defined(rt: HostRuntime) -> Result<(), Fail> {
    let mut generator = Generator::new();
    let mut at_once = Bounds::new();
    for number in 0..1000_usize {
        let bounds = drawn(&mut generator, KINDS[number % 5])?;
        list_as_defined(&rt, rt.alloc(), &mut at_once, &bounds)?;
    }
    Ok(())
}
