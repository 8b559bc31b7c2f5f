//! Jobs on a worker's legs.

ghost use Rattle.std.specs.Prelude.{◌≡◌};

use crate::doubles::MemorySink;
use crate::expected::same;
use crate::rooms::{ONE_IDLE, Room, TWO_SUBSCRIBERS, is, on, packet, rtp};
use crate::tables::publish_orders;
use events::{Job, SharedPacket};
use routes::{Blank, Naming, RouteReader, RouteWriter, routes};
use rtcp_feedback::Nack;
use std::alloc::Global;
use std::marker::Brand;
use std::process::Abort;
use std::sync::Wait;
use std::test::Fail;
use workers::*;

const NOTHING: Forwarded = Forwarded {
    sent: 0,
    failed: 0,
    skipped: 0,
    missed: 0,
};

/// A sender report of the source 257, which sent one packet of two octets, and its CNAME.
const REPORT: [u8; 44] = [
    0x80, 0xc8, 0, 6, 0, 0, 1, 1, 0, 0, 0, 0x0a, 0x80, 0, 0, 0, 0, 0, 0x0b, 0xb8, 0, 0, 0, 1, 0, 0,
    0, 2, 0x81, 0xca, 0, 3, 0, 0, 1, 1, 1, 3, 0x73, 0x66, 0x75, 0, 0, 0,
];

/// One worker, with a reader of a table and a sink in memory.
#[derive(Drop)]
struct Bench<'a, J: Naming> {
    writer: &'a RouteWriter<J>,
    reader: &'a mut RouteReader<J>,
    sink: MemorySink,
    worker: Forwarder,
}

impl<J: Naming> Bench<'_, J> {
    fn forward(&mut self, job: &Job) -> Result<Forwarded, ForwardFault> {
        let note = self.writer.note();
        self.worker.forward(self.reader, note, job, &mut self.sink)
    }

    /// Whether three datagrams were handed to the sink, and one miss and one skip told, both of leg 0.
    fn told_once(&self) -> bool {
        self.sink.handed.len() == 3
            && self.sink.missed.as_slice() == [0].as_slice()
            && self.sink.skipped.as_slice() == [0].as_slice()
    }

    /// Whether the last datagram went to this endpoint.
    fn sent_last(&self, endpoint: u16, bytes: &[u8]) -> bool {
        self.sink
            .handed
            .last()
            .is_some_and(|datagram| is(datagram, endpoint, bytes))
    }
}

/// What was lost from this number on (RFC 4585, section 6.2.1).
const fn resend(leg: u16, stay: u64, pid: u16, blp: u16) -> Job {
    Job::Resend {
        leg,
        stay,
        nack: Nack { pid, blp },
    }
}

/// The worker of this number in a room, and a sink whose first sends fail, so many.
fn make_bench<'a, J: Naming>(
    alloc: Global,
    writer: &'a RouteWriter<J>,
    reader: &'a mut RouteReader<J>,
    room: &Room,
    number: u16,
    to_fail: u64,
) -> Result<Bench<'a, J>, Fail> {
    let settings = room.settings(alloc)?;
    let worker = Forwarder::new(alloc, &settings, number)?;
    Ok(Bench {
        writer,
        reader,
        sink: MemorySink::failing(alloc, to_fail),
        worker,
    })
}

/// Does a job that comes to this, and whose last datagram is this one, to this endpoint.
fn sends<J: Naming>(
    rt: &impl Abort,
    bench: &mut Bench<'_, J>,
    job: &Job,
    wanted: Forwarded,
    endpoint: u16,
    bytes: &[u8],
) {
    same(rt, &bench.forward(job), &Ok(wanted));
    assert!(rt; bench.sent_last(endpoint, bytes));
}

/// The second worker of the worked examples, the only one that has a leg.
fn does_examples<J: Naming>(
    rt: &impl Abort,
    alloc: Global,
    writer: &RouteWriter<J>,
    reader: &mut RouteReader<J>,
) -> Result<(), Fail> {
    let (first, older) = (packet(alloc, 8)?, packet(alloc, 7)?);
    let mut bench = make_bench(alloc, writer, reader, &ONE_IDLE, 1, 0)?;
    does_jobs(rt, &mut bench, &first, &older);
    Ok(())
}

/// A packet, a report, the packet once more, and one from before it.
fn does_jobs<J: Naming>(rt: &impl Abort, bench: &mut Bench<'_, J>, first: &Job, older: &Job) {
    let sent = Forwarded { sent: 1, ..NOTHING };
    sends(rt, bench, first, sent, 1, &rtp(100, [1, 1]));
    let report = Job::Report {
        leg: 0,
        stay: 1,
        sr: Some((0x0000_000a_8000_0000, 3000)),
    };
    sends(rt, bench, &report, sent, 1, &REPORT);
    let again = Forwarded { missed: 1, ..sent };
    sends(
        rt,
        bench,
        &resend(0, 1, 100, 1),
        again,
        1,
        &rtp(100, [1, 1]),
    );
    let old = Forwarded {
        skipped: 1,
        ..NOTHING
    };
    same(rt, &bench.forward(older), &Ok(old));
    assert!(rt; bench.told_once());
}

/// Jobs that the worker has nothing to do for: for a desk, of a stay, a leg or a publisher that isn't there, of another
/// worker's leg.
fn does_nothing<J: Naming>(
    rt: &impl Abort,
    alloc: Global,
    writer: &RouteWriter<J>,
    reader: &mut RouteReader<J>,
) -> Result<(), Fail> {
    let request = Job::Request {
        leg: 0,
        stay: 1,
        word: 0x0007_d028,
    };
    let nowhere = Job::Packet {
        publisher: 2,
        bytes: SharedPacket::copy_of(alloc, &rtp(8, [0, 16]))?,
    };
    let own = [
        request,
        Job::Pli { leg: 0, moment: 0 },
        resend(0, 2, 100, 0),
        resend(0, 0, 100, 0),
        resend(1, 1, 100, 0),
        nowhere,
    ];
    does_in_vain(rt, alloc, writer, reader, 1, &own)
}

/// The same of the worker that has no leg.
fn has_no_leg<J: Naming>(
    rt: &impl Abort,
    alloc: Global,
    writer: &RouteWriter<J>,
    reader: &mut RouteReader<J>,
) -> Result<(), Fail> {
    let others = [packet(alloc, 8)?, resend(0, 1, 100, 0)];
    does_in_vain(rt, alloc, writer, reader, 0, &others)
}

/// The worker of this number does jobs that send nothing.
fn does_in_vain<J: Naming>(
    rt: &impl Abort,
    alloc: Global,
    writer: &RouteWriter<J>,
    reader: &mut RouteReader<J>,
    number: u16,
    jobs: &[Job],
) -> Result<(), Fail> {
    let mut bench = make_bench(alloc, writer, reader, &ONE_IDLE, number, 0)?;
    for job in jobs {
        same(rt, &bench.forward(job), &Ok(NOTHING));
    }
    assert!(rt; bench.sink.handed.is_empty());
    Ok(())
}

/// The worker with a leg, and the one without.
fn do_nothing<J: Naming>(
    rt: &impl Abort,
    alloc: Global,
    writer: &RouteWriter<J>,
    reader: &mut RouteReader<J>,
) -> Result<(), Fail> {
    does_nothing(rt, alloc, writer, reader)?;
    has_no_leg(rt, alloc, writer, reader)
}

fn forwards_in<J: Naming, R: Wait + Abort>(rt: &R, alloc: Global, blank: Blank) -> Result<(), Fail>
    requires { (blank.book ≡ J.book) × (blank.legs ≡ J.legs) }
{
    let (mut writer, mut readers) = routes::<J, R>(rt, alloc, blank, 2)?;
    let noted = publish_orders(rt, &mut writer, &[on(0)]);
    let done = does_examples(rt, alloc, &writer, &mut readers[0]).and_then(|()| do_nothing(
        rt,
        alloc,
        &writer,
        &mut readers[1],
    ));
    writer.end(rt);
    assert!(rt; noted);
    done
}

#[test]
fn forwards_as_in_the_examples(rt: HostRuntime) -> Result<(), Fail> {
    forwards_in::<Brand, _>(&rt, rt.alloc(), Blank::new(1))
}

/// A packet goes to two subscribers, and the first send fails.
fn fails_once<J: Naming>(
    rt: &impl Abort,
    alloc: Global,
    writer: &RouteWriter<J>,
    reader: &mut RouteReader<J>,
) -> Result<(), Fail> {
    let job = packet(alloc, 8)?;
    let mut bench = make_bench(alloc, writer, reader, &TWO_SUBSCRIBERS, 0, 1)?;
    fails_and_goes_out(rt, &mut bench, &job);
    Ok(())
}

/// The first of the packet's two sends fails, and the packet goes out once it is wanted again.
fn fails_and_goes_out<J: Naming>(rt: &impl Abort, bench: &mut Bench<'_, J>, packet: &Job) {
    let one = Forwarded { sent: 1, ..NOTHING };
    let failed = Forwarded { failed: 1, ..one };
    sends(rt, bench, packet, failed, 2, &rtp(200, [1, 2]));
    same(rt, &bench.sink.handed.len(), &2);
    sends(rt, bench, &resend(0, 1, 100, 0), one, 1, &rtp(100, [1, 1]));
}

fn fails_once_in<J: Naming, R: Wait + Abort>(
    rt: &R,
    alloc: Global,
    blank: Blank,
) -> Result<(), Fail>
    requires { (blank.book ≡ J.book) × (blank.legs ≡ J.legs) }
{
    let (mut writer, mut readers) = routes::<J, R>(rt, alloc, blank, 1)?;
    let noted = publish_orders(rt, &mut writer, &[on(0), on(1)]);
    let result = fails_once(rt, alloc, &writer, &mut readers[0]);
    writer.end(rt);
    assert!(rt; noted);
    result
}

/// A datagram that couldn't be sent keeps its number, and is sent again when it is asked for.
#[test]
fn one_send_fails(rt: HostRuntime) -> Result<(), Fail> {
    fails_once_in::<Brand, _>(&rt, rt.alloc(), Blank::new(2))
}
