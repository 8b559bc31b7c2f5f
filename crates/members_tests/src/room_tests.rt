//! Who comes and goes in, orders out; packets in, blocks out.
use crate::scripts::plays;
use crate::settings_tests::{found_parts, leg};
use members::*;
use std::alloc::{AllocError, Global};
use std::process::Abort;
use std::test::Fail;

/// The room of these parts.
fn room_of(alloc: Global, parts: &Parts) -> Result<Room, SettingsFault> {
    let settings = Settings::new(alloc, parts)?;
    Room::new(alloc, &settings).map_err(|_| SettingsFault::NoMemory)
}

/// The room of the examples.
fn small_room(alloc: Global) -> Result<Room, SettingsFault> {
    let parts = found_parts(alloc).map_err(|_| SettingsFault::NoMemory)?;
    room_of(alloc, &parts)
}

/// The parts of a room of three endpoints whose legs are 1 of 0, 2 of 0, 0 of 1 and 0 of 2; the second is
/// off.
fn larger_parts(alloc: Global) -> Result<Parts, AllocError> {
    let mut p = found_parts(alloc)?;
    p.endpoints.push(Some(18))?;
    let mut second = leg(2, 0, 258);
    second.on = Some(false);
    p.legs.push(second)?;
    p.legs.push(leg(0, 1, 259))?;
    p.legs.push(leg(0, 2, 260))?;
    Ok(p)
}

/// The room of these parts.
pub(crate) fn larger_room(alloc: Global) -> Result<Room, SettingsFault> {
    let parts = larger_parts(alloc).map_err(|_| SettingsFault::NoMemory)?;
    room_of(alloc, &parts)
}

/// Each line of the script gives of the room of the examples what it says.
fn small_plays(rt: &impl Abort, alloc: Global, script: &str) -> Result<(), Fail> {
    plays(rt, alloc, &mut small_room(alloc)?, script)
}

/// A refusal leaves the moment as it was.
#[test]
fn stays_of_example_17(rt: HostRuntime) -> Result<(), Fail> {
    let script = "hear 0 0 16:\n\
        hear 0 1 17: arrive 0 1 route 0 1 1 on\n\
        hear 500 0 16:\n\
        tick 999:\n\
        tick 1000: route 0 0 1 off depart 0 1\n\
        hear 1000 1 17: arrive 0 2 route 0 2 2 on\n\
        refuses 1000 1 18: 2\n\
        hear 1000 1 18: refused 2\n\
        moment: 1000\n\
        stay 0: 2\n\
        bye 1100 1: route 0 0 2 off depart 0 2\n\
        bye 1100 1:\n\
        hear 1200 1 17: arrive 0 3 route 0 3 3 on\n\
        off 1300 0: route 0 3 3 off\n\
        off 1300 0:\n\
        on 1400 0: route 0 3 4 on\n\
        tick 1499:\n\
        tick 1500: route 0 0 4 off depart 0 3\n\
        on 1500 1: refused 3\n\
        hear 1500 2 16: refused 1\n\
        bye 1600 2: refused 1\n\
        refuses 1600 65535 16: 1\n\
        hear 1600 65535 16: refused 1\n\
        refuses 1600 0 16: 0\n\
        on 1600 65535: refused 3\n\
        moment: 1500\n";
    small_plays(&rt, rt.alloc(), script)
}

/// 1 and 2 leave together: first the legs of 1, then those of 2. A leg is switched on while no stay stands: that is noted, and no
/// number is drawn. In the end an endpoint that is heard too late leaves first, and comes anew.
#[test]
fn endpoint_by_endpoint_and_leg_by_leg(rt: HostRuntime) -> Result<(), Fail> {
    let script = "hear 0 2 18:\n\
        hear 1 1 17:\n\
        hear 10 0 16: arrive 0 1 route 0 1 1 on arrive 1 2 route 1 2 0 off arrive 2 3 route 2 3 3 on \
        arrive 3 4 route 3 4 4 on\n\
        tick 1001: route 0 0 1 off depart 0 1 route 2 0 3 off depart 2 3 route 1 0 0 off depart 1 2 \
        route 3 0 4 off depart 3 4\n\
        on 1001 1:\n\
        hear 1002 2 18: arrive 1 5 route 1 5 5 on arrive 3 6 route 3 6 6 on\n\
        hear 1010 0 16: route 1 0 5 off depart 1 5 route 3 0 6 off depart 3 6 arrive 1 7 route 1 7 7 on \
        arrive 3 8 route 3 8 8 on\n";
    plays(&rt, rt.alloc(), &mut larger_room(rt.alloc())?, script)
}

/// One of four lost, which is 64 of 256; transits 0, 0 and -900, so 900 / 16 of jitter.
#[test]
fn block_of_example_19(rt: HostRuntime) -> Result<(), Fail> {
    let script = "hear 0 0 16:\n\
        packet 0 10 0:\n\
        hear 20 0 16:\n\
        packet 0 11 1800:\n\
        hear 50 0 16:\n\
        packet 0 13 5400:\n\
        block 0: 16 64 1 13 56 0 0\n";
    small_plays(&rt, rt.alloc(), script)
}

/// Transits are -3000 and -300, which is 2700 apart, 168 of jitter; 80 ms are 5242.88 units of 1/65536 s. The other endpoint sent no
/// report. In its next interval one of two packets was lost, and 60 ms are 5,400 units of 1/90000 s.
#[test]
fn block_of_a_room(rt: HostRuntime) -> Result<(), Fail> {
    let script = "hear 0 0 16:\n\
        packet 0 7 3000:\n\
        last 0: none\n\
        hear 20 0 16:\n\
        report 0 45097156608 3000:\n\
        hear 30 0 16:\n\
        packet 0 8 3000:\n\
        hear 40 1 17: arrive 0 1 route 0 1 1 on\n\
        packet 1 40 0:\n\
        tick 100:\n\
        last 0: 45097156608 3000\n\
        block 0: 16 0 0 8 168 688128 5242\n\
        last 1: none\n\
        block 1: 17 0 0 40 0 0 0\n\
        packet 1 42 5400:\n\
        block 1: 17 128 1 42 0 0 0\n\
        block 1: 17 0 1 42 0 0 0\n";
    small_plays(&rt, rt.alloc(), script)
}

/// It says goodbye and comes again. Heard in time it goes on: 999 ms are 65,470.464 units of 1/65536 s. Heard too late it leaves and
/// comes anew.
#[test]
fn reception_begins_anew(rt: HostRuntime) -> Result<(), Fail> {
    let script = "hear 0 0 16:\n\
        packet 0 7 3000:\n\
        report 0 1 2:\n\
        bye 10 0:\n\
        last 0: none\n\
        block 0: none\n\
        packet 0 8 3000:\n\
        report 0 3 4:\n\
        hear 20 0 16:\n\
        last 0: none\n\
        block 0: none\n\
        packet 0 500 0:\n\
        report 0 327680 6:\n\
        hear 1019 0 16:\n\
        last 0: 327680 6\n\
        block 0: 16 0 0 500 0 5 65470\n\
        hear 2019 0 16:\n\
        last 0: none\n\
        block 0: none\n";
    small_plays(&rt, rt.alloc(), script)
}
