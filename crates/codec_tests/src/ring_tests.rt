//! Packets in, packets found and pushed out.
ghost use Rattle.std.specs.Prelude.{◌≤◌};

use resend_ring::*;
use std::alloc::{AllocError, Global};
use std::process::Abort;
use std::test::Fail;

/// A packet that consists of this number.
fn packet(alloc: Global, number: u64) -> Result<Vec<u8>, AllocError> {
    number.to_be_bytes().as_slice().to_vec(alloc)
}

/// Whether the packet consists of this number.
fn has(packet: &[u8], number: u64) -> bool {
    packet == number.to_be_bytes().as_slice()
}

/// Keeps a packet that consists of its number.
fn keep(ring: &mut Ring, alloc: Global, number: u64) -> Result<(), AllocError> {
    let _left = ring.keep(number, packet(alloc, number)?);
    Ok(())
}

/// Whether the packet with this sequence number is found, and consists of this number.
fn finds(ring: &Ring, seq: u16, number: u64) -> bool {
    match ring.find(seq) {
        Some(packet) => has(packet, number),
        None => false,
    }
}

/// Numbers that a ring of this capacity keeps in turn, in packets that consist of them; those that it pushes out; those that it
/// has then; and sequence numbers that it finds nothing for.
#[derive(Drop)]
struct Case<'a> {
    capacity: usize,
    numbers: &'a [u64],
    left: &'a [u64],
    kept: &'a [u64],
    missing: &'a [u16],
}

/// The numbers that the ring pushes out while it keeps these.
fn pushed_out(alloc: Global, ring: &mut Ring, numbers: &[u64]) -> Result<Vec<u64>, AllocError> {
    let mut left = Vec::new(alloc);
    for number in numbers {
        if let Some((number, _)) = ring.keep(*number, packet(alloc, *number)?) {
            left.push(number)?;
        }
    }
    Ok(left)
}

/// Finds these numbers, and nothing for those.
fn finds_all(rt: &impl Abort, ring: &Ring, kept: &[u64], missing: &[u16]) {
    for number in kept {
        assert!(rt; finds(ring, (number % 65536) as u16, *number), "{number}");
    }
    for seq in missing {
        assert!(rt; ring.find(*seq).is_none(), "{seq}");
    }
}

/// The ring does so.
fn keeps(
    rt: &impl Abort,
    alloc: Global,
    ring: &mut Ring,
    case: &Case<'_>,
) -> Result<(), AllocError> {
    let left = pushed_out(alloc, ring, case.numbers)?;
    assert_eq!(rt; left.as_slice(), case.left);
    finds_all(rt, ring, case.kept, case.missing);
    Ok(())
}

/// A new ring does so.
fn assert_keeps(rt: &impl Abort, alloc: Global, case: &Case<'_>) -> Result<(), Fail> {
    if case.capacity == 0 || case.capacity > MAX_CAPACITY {
        return Err(Fail::from("capacity"));
    }
    let mut ring = Ring::new(alloc, case.capacity)?;
    Ok(keeps(rt, alloc, &mut ring, case)?)
}

#[test]
fn finds_of_example_15(rt: HostRuntime) -> Result<(), Fail> {
    let case = Case {
        capacity: 2,
        numbers: &[65534, 65535, 65536],
        left: &[65534],
        kept: &[65535, 65536],
        missing: &[65534],
    };
    assert_keeps(&rt, rt.alloc(), &case)
}

#[test]
fn finds_the_latest_of_two(rt: HostRuntime) -> Result<(), Fail> {
    let case = Case {
        capacity: 2,
        numbers: &[100, 101],
        left: &[],
        kept: &[],
        missing: &[102],
    };
    assert_keeps(&rt, rt.alloc(), &case)?;
    // 65638 is 102 after a wrap.
    let case = Case {
        numbers: &[100, 101, 102, 65638],
        left: &[100, 101],
        kept: &[65638],
        missing: &[],
        ..case
    };
    assert_keeps(&rt, rt.alloc(), &case)
}

/// Of the numbers from the place `from` on, the place of the last that has these low 16 bits.
fn last_with(numbers: &[u64], from: usize, seq: u16) -> Option<usize> {
    let mut last = None;
    for (place, number) in numbers.iter().enumerate() {
        if place >= from && number % 65536 == u64::from(seq) {
            last = Some(place);
        }
    }
    last
}

/// Whether a ring that kept these numbers in turn, in packets that consist of their places, finds each of the sequence numbers as a look
/// through them from the place `from` on does.
fn finds_last(ring: &Ring, numbers: &[u64], from: usize, asked: &[u16]) -> bool {
    for seq in asked {
        let is_right = match (ring.find(*seq), last_with(numbers, from, *seq)) {
            (None, None) => true,
            (Some(packet), Some(last)) => has(packet, last as u64),
            (None, Some(_)) | (Some(_), None) => false,
        };
        if !is_right {
            return false;
        }
    }
    true
}

/// Whether a ring that kept these numbers in turn, in packets that consist of their places, finds each of the sequence
/// numbers as a look through the list of the last ones does: after each packet, from the place `from` on.
fn agrees(
    alloc: Global,
    capacity: usize,
    numbers: &[u64],
    from: usize,
    asked: &[u16],
) -> Result<bool, Fail>
    requires { 1 ≤ capacity × capacity ≤ MAX_CAPACITY }
{
    let mut ring = Ring::new(alloc, capacity)?;
    Ok(agrees_in(alloc, &mut ring, capacity, numbers, from, asked)?)
}

/// The same of this ring, which is new.
fn agrees_in(
    alloc: Global,
    ring: &mut Ring,
    capacity: usize,
    numbers: &[u64],
    from: usize,
    asked: &[u16],
) -> Result<bool, AllocError> {
    for (place, number) in numbers.iter().enumerate() {
        let _left = ring.keep(*number, packet(alloc, place as u64)?);
        let oldest = (place + 1).saturating_sub(capacity);
        if place >= from && !finds_last(ring, &numbers[..=place], oldest, asked) {
            return Ok(false);
        }
    }
    Ok(true)
}

/// Numbers by chance, of few chains, in rings on both sides of the capacity from which there are more chains.
#[test]
fn agrees_with_a_list(rt: HostRuntime) -> Result<(), Fail> {
    let mut numbers = Vec::new(rt.alloc());
    let mut asked = Vec::new(rt.alloc());
    let mut chance = 1u64;
    for _ in 0..3000 {
        chance = chance
            .wrapping_mul(6364136223846793005)
            .wrapping_add(1442695040888963407);
        let drawn = chance >> 33;
        numbers.push((drawn % 80) * 1024 + drawn / 80 % 5)?;
    }
    for row in 0u16..64 {
        for column in 0u16..5 {
            asked.push(row * 1024 + column)?;
        }
    }
    for capacity in [1, 7, 64, 65, 512] {
        let holds = agrees(
            rt.alloc(),
            capacity,
            numbers.as_slice(),
            2900,
            asked.as_slice(),
        )?;
        assert!(rt; holds, "in a ring of {capacity}");
    }
    Ok(())
}

/// Whichever growth is refused, the ring is made at the first try or at the second.
#[test]
fn ring_with_each_growth_refused(rt: HostRuntime) {
    let is_made = Ring::new(rt.alloc(), 100).is_ok() || Ring::new(rt.alloc(), 100).is_ok();
    assert!(rt; is_made);
}
