//! As many endpoints and legs as there may be, and the limits that no call reaches. What settings accept at the edges of each limit are
//! cases of `cases/`.
use crate::scripts::write_orders;
use crate::settings_tests::{found_parts, leg};
use members::*;
use std::alloc::{AllocError, Global};
use std::fmt::Write;
use std::process::Abort;
use std::test::Fail;
use tmmbr_tuple::Ssrc;

/// So many endpoints, with the sources 10,000, 10,001 and so on.
fn endpoints(alloc: Global, count: u16) -> Result<Vec<Option<i64>>, AllocError> {
    let mut endpoints = Vec::new(alloc);
    for k in 0..count {
        endpoints.push(Some(10_000 + i64::from(k)))?;
    }
    Ok(endpoints)
}

/// The parts of a room of 256 endpoints and 4,096 legs: each endpoint sends to the 16 after it, round the end.
fn full_parts(alloc: Global) -> Result<Parts, AllocError> {
    let mut parts = found_parts(alloc)?;
    parts.endpoints = endpoints(alloc, 256)?;
    parts.legs.clear();
    for publisher in 0u16..256 {
        for distance in 1u16..17 {
            let subscriber = i64::from((publisher % 256 + distance % 17) % 256);
            let publisher = i64::from(publisher);
            let out_ssrc = 20_000 + publisher * 16 + i64::from(distance);
            parts.legs.push(leg(subscriber, publisher, out_ssrc))?;
        }
    }
    Ok(parts)
}

/// An endpoint of the full room is heard.
fn hear(room: &mut Room, endpoint: u16, orders: &mut Vec<Order>) -> Result<(), RoomFault> {
    room.hear(0, endpoint, Ssrc(10_000 + u32::from(endpoint)), orders)
}

/// Writes how many orders there are, the first two and the last two, and how many legs have a stay.
fn write_state(text: &mut String, room: &Room, orders: &[Order]) -> Result<(), AllocError> {
    let mut stays = 0u16;
    for leg in 0u16..4096 {
        if room.stay(leg) != 0 {
            stays = stays.wrapping_add(1);
        }
    }
    write!(text, "{}", orders.len())?;
    write_orders(text, &orders[..orders.len().min(2)])?;
    write_orders(text, &orders[orders.len().saturating_sub(2)..])?;
    write!(text, " {stays} stays\n")
}

/// All endpoints come, the last one after the others, and leave in one call.
fn come_and_leave(alloc: Global, room: &mut Room) -> Result<String, Fail> {
    let mut text = String::new(alloc);
    let mut orders = Vec::new(alloc);
    for endpoint in 0u16..255 {
        hear(room, endpoint, &mut orders)?;
    }
    write_state(&mut text, room, orders.as_slice())?;
    orders.clear();
    hear(room, 255, &mut orders)?;
    write_state(&mut text, room, orders.as_slice())?;
    orders.clear();
    room.tick(1000, &mut orders)?;
    write_state(&mut text, room, orders.as_slice())?;
    Ok(text)
}

/// At first all legs but those of the last endpoint begin: 16 that it is sent, and 16 that it sends. The last of the others to begin is
/// the one on which endpoint 14 is sent what 254 publishes.
const STATES: &str =
    "8128 arrive 0 1 route 0 1 1 on arrive 4079 4064 route 4079 4064 4064 on 4064 stays\n\
    64 arrive 3839 4065 route 3839 4065 4065 on arrive 4095 4096 route 4095 4096 4096 on 4096 stays\n\
    8192 route 0 0 1 off depart 0 1 route 4064 0 4080 off depart 4064 4080 0 stays\n";

/// How many endpoints and legs these settings have, and the last of each.
fn last_of(alloc: Global, settings: &Settings) -> Result<String, Fail> {
    let endpoint = settings.endpoints().last().ok_or("an endpoint")?;
    let leg = settings.legs().last().ok_or("a leg")?;
    let (endpoints, legs) = (settings.endpoints().len(), settings.legs().len());
    Ok(format!(in alloc;
        "{endpoints} {}; {legs} from {} to {}",
        endpoint.0, leg.publisher, leg.subscriber
    )?)
}

/// The endpoints of a full room come and leave.
fn is_full(rt: &impl Abort, alloc: Global, settings: &Settings) -> Result<(), Fail> {
    let last = last_of(alloc, settings)?;
    assert_eq!(rt; last.as_str(), "256 10255; 4096 from 255 to 15");
    let states = come_and_leave(alloc, &mut Room::new(alloc, settings)?)?;
    assert_eq!(rt; states.as_str(), STATES);
    Ok(())
}

#[test]
fn as_many_endpoints_and_legs_as_may_be(rt: HostRuntime) -> Result<(), Fail> {
    let parts = full_parts(rt.alloc())?;
    is_full(&rt, rt.alloc(), &Settings::new(rt.alloc(), &parts)?)
}

/// 2^62 and 2^47.
#[test]
fn limits_that_no_call_reaches(rt: HostRuntime) {
    assert!(rt; [MAX_STAY, COUNTED_PACKETS] == [4_611_686_018_427_387_904, 140_737_488_355_328]);
}
