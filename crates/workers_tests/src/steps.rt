//! What tests do with the machine step by step, and what it shows: the settings and the first steps of the examples.

ghost use Rattle.std.specs.Prelude.{◌<◌};

use core_steps::*;
use settings::{LegParts, Parts, Settings, SettingsFault};
use std::alloc::{AllocError, Global};
use std::fmt::{self, Write};
use std::test::Fail;

/// What is done with the machine.
#[derive(Clone, Copy)]
pub(crate) enum Step<'a> {
    Hear(u64, u16, &'a str),
    Tick(u64),
    Ingress,
    Work(u16),
}

pub(crate) use Step::{Hear, Ingress, Tick, Work};

/// A packet of the publisher, 16.
pub(crate) const PACKET: &str = "8060000700000bb800000010aabb";

/// A receiver report of the subscriber, 17.
pub(crate) const REPORT: &str = "80c9000100000011";

/// A TMMBR of the subscriber about its leg.
pub(crate) const REQUEST: &str = "83cd00040000001100000000000001010007d028";

/// The settings of the examples: endpoints 16 and 17, and a leg of what the first publishes to the second.
pub(crate) fn settings(alloc: Global) -> Result<Settings, SettingsFault> {
    let parts = parts(alloc).map_err(|_| SettingsFault::NoMemory)?;
    Settings::new(alloc, &parts)
}

/// The same, with requests that age in a second, and endpoints that leave after five.
pub(crate) fn ageing_settings(alloc: Global) -> Result<Settings, SettingsFault> {
    let mut parts = parts(alloc).map_err(|_| SettingsFault::NoMemory)?;
    parts.timeout_ms = Some(5_000);
    parts.request_ms = Some(1_000);
    Settings::new(alloc, &parts)
}

/// What they are made of.
fn parts(alloc: Global) -> Result<Parts, AllocError> {
    let leg = LegParts {
        subscriber: Some(1),
        publisher: Some(0),
        out_ssrc: Some(257),
        first_seq: Some(100),
        on: None,
    };
    let mut parts = Parts::example(alloc)?;
    parts.endpoints = [Some(16), Some(17)].to_vec(alloc)?;
    parts.legs = [leg].to_vec(alloc)?;
    Ok(parts)
}

fn digit(byte: u8) -> u8
    ensures { result < 16 }
{
    match byte {
        b'0'..=b'9' => byte - b'0',
        b'a'..=b'f' => byte - b'a' + 10,
        _ => 0,
    }
}

/// The bytes that these hexadecimal digits spell.
pub(crate) fn bytes_of(alloc: Global, hex: &str) -> Result<Vec<u8>, AllocError> {
    let mut bytes = Vec::new(alloc);
    for pair in hex.as_bytes().chunks(2) {
        if let [high, low] = pair {
            bytes.push(digit(*high) * 16 + digit(*low))?;
        }
    }
    Ok(bytes)
}

/// Does the events. It promises nothing, so that who calls it is proved without what `run` says.
pub(crate) fn do_events(
    world: &mut World,
    events: &[Event],
    outs: &mut Vec<Out>,
) -> Result<(), RunFault> {
    run(world, events, outs)
}

/// The ingress until nothing waits for it, then each worker until it is idle.
pub(crate) fn settle(world: &mut World, outs: &mut Vec<Out>) -> Result<(), Fail> {
    for _ in 0..10_000 {
        if world.waiting().tasks == 0 {
            break;
        }
        do_events(world, &[Event::Ingress], outs)?;
    }
    for worker in 0..2 {
        for _ in 0..10_000 {
            do_events(world, &[Event::Work(worker)], outs)?;
            if let Some(Out::Idle) = outs.last() {
                let _idle = outs.pop();
                break;
            }
        }
    }
    Ok(())
}

/// The event of a step.
pub(crate) fn event_of(alloc: Global, step: &Step<'_>) -> Result<Event, AllocError> {
    Ok(match *step {
        Hear(moment, endpoint, hex) => Event::Hear(
            moment,
            endpoint,
            Bytes::new(bytes_of(alloc, hex)?),
        ),
        Tick(moment) => Event::Tick(moment),
        Ingress => Event::Ingress,
        Work(worker) => Event::Work(worker),
    })
}

/// Does a step.
pub(crate) fn do_step(
    alloc: Global,
    world: &mut World,
    step: &Step<'_>,
    outs: &mut Vec<Out>,
) -> Result<(), Fail> {
    let event = event_of(alloc, step)?;
    do_events(world, &[event], outs)?;
    Ok(())
}

/// What was given out, a line each.
pub(crate) fn lines(alloc: Global, outs: &[Out]) -> Result<String, fmt::Error> {
    let mut text = String::new(alloc);
    for out in outs {
        write_out(&mut text, out)?;
        text.push_str("\n")?;
    }
    Ok(text)
}

/// Writes one of these: `send ENDPOINT HEX`, `refused WHAT NUMBER`, `busy`, `lost WORKER`, `skip LEG NUMBER`, `miss LEG SEQ` or `idle`.
fn write_out(text: &mut String, out: &Out) -> Result<(), fmt::Error> {
    match out {
        Out::Send { endpoint, bytes } => write_send(text, *endpoint, bytes.as_slice())?,
        Out::Refused(refusal) => {
            let (what, number) = refusal_parts(*refusal);
            write!(text, "refused {what} {number}")?;
        }
        Out::Busy => text.push_str("busy")?,
        Out::Lost(worker) => write!(text, "lost {worker}")?,
        Out::Skip(leg, skip) => {
            let number = skip.number();
            write!(text, "skip {leg} {number}")?;
        }
        Out::Miss(leg, seq) => write!(text, "miss {leg} {seq}")?,
        Out::Idle => text.push_str("idle")?,
    }
    Ok(())
}

/// Writes a datagram as its digits.
fn write_send(text: &mut String, endpoint: u16, bytes: &[u8]) -> Result<(), fmt::Error> {
    write!(text, "send {endpoint} ")?;
    for byte in bytes {
        write!(text, "{byte:02x}")?;
    }
    Ok(())
}

/// What was refused, and the number of the cause.
pub(crate) fn refusal_parts(refusal: Refusal) -> (&'static str, u8) {
    match refusal {
        Refusal::Rtp(fault) => ("rtp", fault.number()),
        Refusal::Rtcp(fault) => ("rtcp", fault.number()),
        Refusal::Feedback(fault) => ("feedback", fault.number()),
        Refusal::Room(fault) => ("room", fault.number()),
        Refusal::Desk(refusal) => ("desk", refusal.number()),
    }
}

/// What the world shows: rows, what waits, counts, and the calls, live requests and announced set of each desk.
pub(crate) fn shown(alloc: Global, world: &World) -> Result<String, fmt::Error> {
    let mut text = String::new(alloc);
    write!(text, "{:?} {:?}", world.rows(), world.waiting())?;
    write!(text, " lost {} heard {}", world.lost(), world.tmmbn_heard())?;
    for publisher in 0u16..256 {
        if usize::from(publisher) < world.publishers() {
            let desk = world.desk(publisher);
            let announced = desk.announced();
            write!(
                text,
                "; {} {:?} {:?}",
                desk.calls(),
                desk.live(),
                announced.as_slice()
            )?;
        }
    }
    Ok(text)
}
