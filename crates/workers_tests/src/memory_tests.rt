//! Growths that are refused, and a stream that needs none. `rt try --test --fail-alloc N` refuses the Nth growth.

ghost use Rattle.std.specs.Prelude.{◌≡◌};

use crate::doubles::MemorySink;
use crate::expected::same;
use crate::rooms::{TWO_SUBSCRIBERS, is, on, packet, rtp};
use crate::tables::publish_orders;
use events::{Job, SharedPacket};
use routes::{Blank, Naming, RouteReader, RouteWriter, RoutesFault, routes};
use std::alloc::{AllocError, Global};
use std::marker::Brand;
use std::process::Abort;
use std::sync::Wait;
use std::test::Fail;
use workers::*;

/// A packet went to two subscribers.
const BOTH: Forwarded = Forwarded {
    sent: 2,
    failed: 0,
    skipped: 0,
    missed: 0,
};

/// So many packets fill the rings of the room's legs, which keep 8, and bring their lists to the length that they need.
const FIRST: u16 = 12;

/// So many packets come after those.
const STEADY: u16 = 1_000;

/// The only worker of a room with two subscribers.
fn worker(alloc: Global) -> Option<Forwarder> {
    let settings = TWO_SUBSCRIBERS.settings(alloc).ok()?;
    Forwarder::new(alloc, &settings, 0).ok()
}

/// The same, made again if memory was refused for it.
fn worker_at_last(alloc: Global) -> Option<Forwarder> {
    match worker(alloc) {
        Some(made) => Some(made),
        None => worker(alloc),
    }
}

/// A job that a packet makes, made again if memory was refused for it.
fn packet_at_last(alloc: Global, seq: u8) -> Result<Job, AllocError> {
    match packet(alloc, seq) {
        Ok(job) => Ok(job),
        Err(AllocError) => packet(alloc, seq),
    }
}

/// Does the job with a note of all that is published.
fn forward<J: Naming, S: Sink>(
    writer: &RouteWriter<J>,
    reader: &mut RouteReader<J>,
    worker: &mut Forwarder,
    job: &Job,
    sink: &mut S,
) -> Result<Forwarded, ForwardFault> {
    worker.forward(reader, writer.note(), job, sink)
}

/// Does the job until memory is there for it, each time with another note; a refusal sends nothing.
fn until_done<J: Naming>(
    rt: &impl Abort,
    writer: &RouteWriter<J>,
    reader: &mut RouteReader<J>,
    worker: &mut Forwarder,
    job: &Job,
    sink: &mut MemorySink,
) -> Option<Forwarded> {
    for _ in 0..9 {
        let before = sink.handed.len();
        match forward(writer, reader, worker, job, sink) {
            Ok(done) => return Some(done),
            Err(fault) => {
                same(rt, &fault, &ForwardFault::NoMemory);
                same(rt, &sink.handed.len(), &before);
            }
        }
    }
    None
}

/// Two packets go to two subscribers, whichever growth is refused.
fn sends_four<J: Naming>(
    rt: &impl Abort,
    alloc: Global,
    writer: &RouteWriter<J>,
    reader: &mut RouteReader<J>,
) -> Result<(), Fail> {
    let mut worker = worker_at_last(alloc).ok_or("a worker")?;
    let mut sink = MemorySink::failing(alloc, 0);
    for seq in [8, 9] {
        let job = packet_at_last(alloc, seq)?;
        let done = until_done(rt, writer, reader, &mut worker, &job, &mut sink);
        same(rt, &done, &Some(BOTH));
    }
    assert!(rt; holds_four(&sink));
    Ok(())
}

/// Whether the sink was handed both packets for the first subscriber and for the second, with rising numbers.
fn holds_four(sink: &MemorySink) -> bool {
    match sink.handed.as_slice() {
        [first, second, third, fourth] => {
            is(first, 1, &rtp(100, [1, 1]))
                && is(second, 2, &rtp(200, [1, 2]))
                && is(third, 1, &rtp(101, [1, 1]))
                && is(fourth, 2, &rtp(201, [1, 2]))
        }
        _ => false,
    }
}

/// A sink that keeps nothing, so that it takes no memory.
#[derive(Drop)]
struct CountingSink {
    handed: u64,
}

impl Sink for CountingSink {
    ghost use Rattle.std.specs.Prelude.{None};

    ghost shown = { λ s. record { handed = None; failures = 0 } };

    fn send(&mut self, _endpoint: u16, _bytes: &[u8]) -> Result<(), SendFault> {
        self.handed = self.handed.saturating_add(1);
        Ok(())
    }
}

/// The job of the packet with this sequence number.
fn packet_of(alloc: Global, seq: u16) -> Result<Job, AllocError> {
    let mut bytes = rtp(0, [0, 16]);
    bytes[2..4].copy_from_slice(&seq.to_be_bytes());
    Ok(Job::Packet {
        publisher: 0,
        bytes: SharedPacket::copy_of(alloc, &bytes)?,
    })
}

/// The same, made again if memory was refused for it.
fn packet_of_at_last(alloc: Global, seq: u16) -> Result<Job, AllocError> {
    match packet_of(alloc, seq) {
        Ok(job) => Ok(job),
        Err(AllocError) => packet_of(alloc, seq),
    }
}

/// The first packets take memory, and a refused one goes out when it comes again; each one after them goes out at once,
/// whichever growth is refused.
fn streams<J: Naming>(
    rt: &impl Abort,
    alloc: Global,
    writer: &RouteWriter<J>,
    reader: &mut RouteReader<J>,
) -> Result<(), Fail> {
    let mut worker = worker_at_last(alloc).ok_or("a worker")?;
    let mut sink = CountingSink { handed: 0 };
    for seq in 0..FIRST + STEADY {
        let job = packet_of_at_last(alloc, seq)?;
        let mut done = forward(writer, reader, &mut worker, &job, &mut sink);
        if seq < FIRST && done.is_err() {
            done = forward(writer, reader, &mut worker, &job, &mut sink);
        }
        same(rt, &done, &Ok(BOTH));
    }
    same(rt, &sink.handed, &(2 * u64::from(FIRST + STEADY)));
    Ok(())
}

fn sends_in<J: Naming, R: Wait + Abort>(rt: &R, alloc: Global, blank: Blank) -> Result<(), Fail>
    requires { (blank.book ≡ J.book) × (blank.legs ≡ J.legs) }
{
    let (mut writer, mut readers) = match routes::<J, R>(rt, alloc, blank, 2) {
        Ok(made) => made,
        Err(fault) => {
            same(rt, &fault, &RoutesFault::NoMemory);
            return Ok(());
        }
    };
    let noted = publish_orders(rt, &mut writer, &[on(0), on(1)]);
    let result = sends_four(rt, alloc, &writer, &mut readers[0]).and_then(|()| streams(
        rt,
        alloc,
        &writer,
        &mut readers[1],
    ));
    writer.end(rt);
    assert!(rt; noted);
    result
}

/// A refused job leaves its legs and the sink as they were: done again it sends what it would have sent. A steady stream
/// takes no memory.
#[test]
fn forward_with_each_growth_refused(rt: HostRuntime) -> Result<(), Fail> {
    sends_in::<Brand, _>(&rt, rt.alloc(), Blank::new(2))
}
