//! Each prefix of the datagrams of the examples, from the empty one on.

use crate::steps::{
    Hear, PACKET, REPORT, bytes_of, do_events, do_step, refusal_parts, settings, settle, shown,
};
use core_steps::*;
use rtcp_compound::{RtcpView, split};
use rtcp_feedback::read_feedback;
use rtp_packet::RtpView;
use std::alloc::Global;
use std::fmt::Write;
use std::test::Fail;

/// What is refused and the number of the fault, or that it is read.
type Outcome = (&'static str, u8);

const READ: Outcome = ("read", 0);

/// Who sends a datagram, its digits, and what its prefixes come to, in turn: how many of them, and to what.
type Cut = (u16, &'static str, &'static str);

/// Up to 1 byte a datagram is no RTCP; a header of RTP has 12 bytes and one of RTCP 4, which count the words after them.
const CUTS: [Cut; 25] = [
    // Example 1: a TMMBR about no leg, and a TMMBN of another.
    (
        1,
        "83cd00040000001100000000000000010007d028",
        "2 rtp 1, 2 rtcp 1, 16 rtcp 3, 1 room 3",
    ),
    (
        1,
        "84cd00040000000100000000000000110007d028",
        "2 rtp 1, 2 rtcp 1, 16 rtcp 3, 1 room 2",
    ),
    // Example 12, without those of example 1: TMMBRs of 17 about no leg and of others, the BYE of another, and a TMMBN of another.
    (
        1,
        "83cd000400000011000000000000000101f40028",
        "2 rtp 1, 2 rtcp 1, 16 rtcp 3, 1 room 3",
    ),
    (
        1,
        "83cd000400000012000000000000000101d4c014",
        "2 rtp 1, 2 rtcp 1, 16 rtcp 3, 1 room 2",
    ),
    (
        1,
        "83cd000400000013000000000000000101e4601e",
        "2 rtp 1, 2 rtcp 1, 16 rtcp 3, 1 room 2",
    ),
    (1, "81cb000100000012", "2 rtp 1, 2 rtcp 1, 4 rtcp 3, 1 read"),
    (
        1,
        "84cd000600000001000000000000001301e4601e0000001101f40028",
        "2 rtp 1, 2 rtcp 1, 24 rtcp 3, 1 room 2",
    ),
    // Example 13: half an entry, and headers without what they count.
    (
        1,
        "83cd0003000000110000000000000001",
        "2 rtp 1, 2 rtcp 1, 12 rtcp 3, 1 feedback 2",
    ),
    (1, "83cd0004000000", "2 rtp 1, 2 rtcp 1, 4 rtcp 3"),
    (1, "83cd00", "2 rtp 1, 2 rtcp 1"),
    // Example 18: RTP of 17 and of another, a padding of no bytes, and no source where one is counted.
    (1, "8060000700000bb800000011aabb", "12 rtp 1, 3 read"),
    (1, "8060006600000bb800000101aabb", "12 rtp 1, 3 room 2"),
    (1, "a060000700000bb80000001100", "12 rtp 1, 2 rtp 5"),
    (1, "8160000700000bb800000011", "12 rtp 1, 1 rtp 3"),
    // Examples 20 to 23: what the two endpoints send.
    (0, "8060000700000bb800000010aabb", "12 rtp 1, 3 read"),
    (0, "8060000800000bb800000010aabb", "12 rtp 1, 3 read"),
    (1, "80c9000100000011", "2 rtp 1, 2 rtcp 1, 4 rtcp 3, 1 read"),
    (
        1,
        "83cd00040000001100000000000001010007d028",
        "2 rtp 1, 2 rtcp 1, 16 rtcp 3, 1 read",
    ),
    (1, "81cb000100000011", "2 rtp 1, 2 rtcp 1, 4 rtcp 3, 1 read"),
    (
        1,
        "81cd0003000000110000010100640001",
        "2 rtp 1, 2 rtcp 1, 12 rtcp 3, 1 read",
    ),
    // What the unit sends in them, from the side that it goes to.
    (
        0,
        "80c900010000000981ca000300000009010373667500000083cd00040000001100000000000000100007d028",
        "2 rtp 1, 2 rtcp 1, 4 rtcp 3, 1 room 2, 3 rtcp 1, 12 rtcp 3, 1 room 2, 3 rtcp 1, 16 rtcp 3, 1 room 2",
    ),
    (
        1,
        "80c900010000000981ca000300000009010373667500000084cd00040000010100000000000000110007d028",
        "2 rtp 1, 2 rtcp 1, 4 rtcp 3, 1 room 2, 3 rtcp 1, 12 rtcp 3, 1 room 2, 3 rtcp 1, 16 rtcp 3, 1 room 2",
    ),
    (1, "8060006400000bb800000101aabb", "12 rtp 1, 3 room 2"),
    (
        0,
        "80c900010000000981ca000300000009010373667500000083cd0004000000110000000000000010fffffe00",
        "2 rtp 1, 2 rtcp 1, 4 rtcp 3, 1 room 2, 3 rtcp 1, 12 rtcp 3, 1 room 2, 3 rtcp 1, 16 rtcp 3, 1 room 2",
    ),
    (
        0,
        "84cd00020000001000000000",
        "2 rtp 1, 2 rtcp 1, 8 rtcp 3, 1 read",
    ),
];

/// What the readers of packets say.
fn parsed(datagram: &[u8]) -> Outcome {
    let (rtp, rtcp) = (rtp_outcome(datagram), rtcp_outcome(datagram));
    match datagram.get(1) {
        Some(192..=223) => rtcp,
        _ => rtp,
    }
}

fn rtp_outcome(datagram: &[u8]) -> Outcome {
    match RtpView::parse(datagram) {
        Ok(_) => READ,
        Err(fault) => ("rtp", fault.number()),
    }
}

/// What `split` says, or the first feedback that can't be read.
fn rtcp_outcome(datagram: &[u8]) -> Outcome {
    let packets = match split(datagram) {
        Ok(packets) => packets,
        Err(fault) => return ("rtcp", fault.number()),
    };
    for packet in packets {
        if let RtcpView::Feedback { fmt, kind, body } = packet {
            if let Err(fault) = read_feedback(fmt, kind, body) {
                return ("feedback", fault.number());
            }
        }
    }
    READ
}

/// What the machine says.
fn heard(
    alloc: Global,
    world: &mut World,
    endpoint: u16,
    datagram: &[u8],
) -> Result<Outcome, Fail> {
    let mut outs = Vec::new(alloc);
    let event = Event::Hear(0, endpoint, Bytes::copy_of(alloc, datagram)?);
    do_events(world, &[event], &mut outs)?;
    Ok(match outs.as_slice() {
        [] => READ,
        [Out::Refused(refusal)] => refusal_parts(*refusal),
        _ => ("more", 0),
    })
}

/// What this comes to. The readers say the same, but for what the room refuses; a refusal leaves rows, what waits and all desks as
/// they were. What is read is done.
fn outcome(
    alloc: Global,
    world: &mut World,
    endpoint: u16,
    datagram: &[u8],
) -> Result<Outcome, Fail> {
    let before = shown(alloc, world)?;
    let came = heard(alloc, world, endpoint, datagram)?;
    let is_left = shown(alloc, world)?.as_str() == before.as_str();
    let is_readable = came.0 == "room" || came == READ;
    let wanted = if is_readable { READ } else { came };
    if parsed(datagram) != wanted {
        return Ok(("read otherwise", came.1));
    }
    if came != READ && !is_left {
        return Ok(("changed", came.1));
    }
    settle(world, &mut Vec::new(alloc))?;
    Ok(came)
}

/// Writes that so many came to this.
fn write_run(text: &mut String, count: u32, outcome: Outcome) -> Result<(), Fail> {
    if count > 0 {
        let (what, number) = outcome;
        let comma = if text.is_empty() { "" } else { ", " };
        write!(text, "{comma}{count} {what}")?;
        if number > 0 {
            write!(text, " {number}")?;
        }
    }
    Ok(())
}

/// What the prefixes come to, one after the other in one world.
fn outcomes(
    alloc: Global,
    world: &mut World,
    endpoint: u16,
    datagram: &[u8],
) -> Result<String, Fail> {
    let mut text = String::new(alloc);
    let (mut count, mut last): (u32, Outcome) = (0, READ);
    for end in 0..datagram.len() + 1 {
        let came = outcome(alloc, world, endpoint, &datagram[..end])?;
        if came != last {
            write_run(&mut text, count, last)?;
            (count, last) = (0, came);
        }
        count = count.wrapping_add(1);
    }
    write_run(&mut text, count, last)?;
    Ok(text)
}

/// The same in a new world in which both endpoints are present.
fn outcomes_of(alloc: Global, endpoint: u16, digits: &str) -> Result<String, Fail> {
    let datagram = bytes_of(alloc, digits)?;
    let settings = settings(alloc)?;
    let mut world = World::new(alloc, &settings)?;
    both_come(alloc, &mut world)?;
    outcomes(alloc, &mut world, endpoint, datagram.as_slice())
}

fn both_come(alloc: Global, world: &mut World) -> Result<(), Fail> {
    let mut outs = Vec::new(alloc);
    for step in &[Hear(0, 0, PACKET), Hear(0, 1, REPORT)] {
        do_step(alloc, world, step, &mut outs)?;
        settle(world, &mut outs)?;
    }
    Ok(())
}

#[test]
fn every_cut(rt: HostRuntime) -> Result<(), Fail> {
    for (endpoint, digits, wanted) in &CUTS {
        let text = outcomes_of(rt.alloc(), *endpoint, digits)?;
        assert_eq!(rt; text.as_str(), *wanted);
    }
    Ok(())
}
