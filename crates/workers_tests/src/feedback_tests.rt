//! Jobs that ask a desk.

ghost use Rattle.std.specs.Prelude.{◌≡◌, ◌<◌};

use crate::doubles::MemorySink;
use crate::expected::same;
use crate::rooms::{HEAD, ONE_IDLE, is, on};
use crate::tables::publish_orders;
use desk::{Call, Change};
use desk_calls::Question;
use events::{DeskRefusal, Job, Refusal};
use rate_desk::{DeskCalls, DeskSeat, House, SeatCalls};
use routes::{Naming, RouteReader, RouteWriter, routes};
use rtcp_feedback::Nack;
use std::alloc::{AllocError, Global};
use std::marker::Brand;
use std::process::Abort;
use std::sync::Wait;
use std::sync::ledger::Blank;
use std::test::Fail;
use tmmbr_tuple::Ssrc;
use workers::*;

/// A TMMBR of 17 that asks 16 for 1,000 bits per second with an overhead of 40 bytes.
const TMMBR: [u8; 20] = [
    0x83, 0xcd, 0, 4, 0, 0, 0, 0x11, 0, 0, 0, 0, 0, 0, 0, 0x10, 0, 0x07, 0xd0, 0x28,
];
/// A TMMBN of 257 that names 17 with the same.
const TMMBN: [u8; 20] = [
    0x84, 0xcd, 0, 4, 0, 0, 1, 1, 0, 0, 0, 0, 0, 0, 0, 0x11, 0, 0x07, 0xd0, 0x28,
];

/// A TMMBR of 17 that lifts its bound on 16.
const LIFTED: [u8; 20] = [
    0x83, 0xcd, 0, 4, 0, 0, 0, 0x11, 0, 0, 0, 0, 0, 0, 0, 0x10, 0xff, 0xff, 0xfe, 0,
];
/// A TMMBN of 257 that names nobody.
const NOBODY: [u8; 12] = [0x84, 0xcd, 0, 2, 0, 0, 1, 1, 0, 0, 0, 0];
/// A PLI of 9 about 16.
const PLI: [u8; 12] = [0x81, 0xce, 0, 2, 0, 0, 0, 9, 0, 0, 0, 0x10];

const NOTHING: Forwarded = Forwarded {
    sent: 0,
    failed: 0,
    skipped: 0,
    missed: 0,
};

/// What a worker, by its number, or the ingress does.
#[derive(Clone, Copy)]
enum Deed {
    /// The worker is fed a request of the subscriber of this leg in this stay.
    Ask(u16, u16, u64),
    /// The worker is fed a job for its legs.
    Resend(u16),
    /// The worker is fed the wish for a picture.
    Wish(u16),
    /// The ingress ends the stay 1 of 17 at the first publisher.
    Depart,
    /// The ingress asks the first publisher for a picture.
    Picture,
}

/// How many calls the seat made to the first publisher, how many datagrams the sink was handed, and of how many refusals it was told.
type Counts = (u64, usize, usize);

/// What is done in turn, how many datagrams it sends, and the counts after it.
const DEEDS: [(Deed, u64, Counts); 9] = [
    // The worker of another subscriber's leg, an absent leg, no stay, and a job for the legs: nobody is asked.
    (Deed::Ask(0, 0, 1), 0, (1, 0, 0)),
    (Deed::Ask(1, 1, 1), 0, (1, 0, 0)),
    (Deed::Ask(1, 0, 0), 0, (1, 0, 0)),
    (Deed::Resend(1), 0, (1, 0, 0)),
    // An accepted request is told to the publisher and to who asked.
    (Deed::Ask(1, 0, 1), 2, (2, 2, 0)),
    // One in another stay is told to nobody; the sink is told that the desk refuses it.
    (Deed::Ask(1, 0, 2), 0, (3, 2, 1)),
    // A picture that is wanted is told to the publisher, by a worker and by the ingress; that a request is gone, to all.
    (Deed::Wish(1), 1, (4, 3, 1)),
    (Deed::Depart, 2, (5, 5, 1)),
    (Deed::Picture, 1, (5, 6, 1)),
];

/// The subscriber of a leg asks for this in a stay.
const fn request(leg: u16, stay: u64) -> Job {
    Job::Request {
        leg,
        stay,
        word: 0x0007_d028,
    }
}

/// The subscriber of the leg asks for a packet again, which is no desk's matter.
const fn again() -> Job {
    Job::Resend {
        leg: 0,
        stay: 1,
        nack: Nack { pid: 0, blp: 0 },
    }
}

/// The subscriber of the leg wants a picture.
const fn wish() -> Job {
    Job::Pli { leg: 0, moment: 0 }
}

/// The head, and these bytes.
fn compound(alloc: Global, bytes: &[u8]) -> Result<Vec<u8>, AllocError> {
    let mut all = HEAD.to_vec(alloc)?;
    all.extend_from_slice(bytes)?;
    Ok(all)
}

/// Whether the datagram went to this endpoint, with these bytes after the head.
fn goes(alloc: Global, datagram: &Datagram, endpoint: u16, bytes: &[u8]) -> bool {
    match compound(alloc, bytes) {
        Ok(all) => is(datagram, endpoint, all.as_slice()),
        Err(_) => false,
    }
}

/// Whether the sink was handed what follows from all that is done.
fn is_told(alloc: Global, sink: &MemorySink) -> bool {
    match sink.handed.as_slice() {
        [asked, answered, wished, lifted, ended, pictured] => {
            goes(alloc, asked, 0, &TMMBR)
                && goes(alloc, answered, 1, &TMMBN)
                && goes(alloc, wished, 0, &PLI)
                && goes(alloc, lifted, 0, &LIFTED)
                && goes(alloc, ended, 1, &NOBODY)
                && goes(alloc, pictured, 0, &PLI)
        }
        _ => false,
    }
}

/// Whether it was told that the desk refused the subscriber's request in another stay.
fn is_refused(sink: &MemorySink) -> bool {
    let refusal = Refusal::Desk(DeskRefusal::NotPresent);
    sink.refused.as_slice() == [(Some(1), refusal)].as_slice()
}

/// The worker of this number, in the room of the worked examples.
fn worker(alloc: Global, number: u16) -> Result<Forwarder, Fail> {
    let settings = ONE_IDLE.settings(alloc)?;
    Ok(Forwarder::new(alloc, &settings, number)?)
}

/// What its ingress notifies by.
fn notifier(alloc: Global) -> Result<Notifier, Fail> {
    let settings = ONE_IDLE.settings(alloc)?;
    Ok(Notifier::new(alloc, &settings)?)
}

/// A house with a seat, a reader of a table and a sink in memory.
#[derive(Drop)]
struct Bench<'a, J: Naming, D: DeskCalls, C: SeatCalls> {
    house: &'a House<D, C>,
    seat: &'a mut DeskSeat<C>,
    writer: &'a RouteWriter<J>,
    reader: &'a mut RouteReader<J>,
    sink: MemorySink,
}

impl<J: Naming, D: DeskCalls, C: SeatCalls> Bench<'_, J, D, C> {
    /// The worker of this number is fed the job.
    fn feed<R: Wait>(
        &mut self,
        rt: &R,
        alloc: Global,
        number: u16,
        job: &Job,
    ) -> Result<Forwarded, Fail> {
        let mut worker = worker(alloc, number)?;
        let note = self.writer.note();
        let done = worker.feedback(
            rt,
            self.house,
            self.seat,
            self.reader,
            note,
            job,
            &mut self.sink,
        )?;
        Ok(done)
    }

    /// The stay 1 of 17 at the first publisher ends.
    fn depart<R: Wait>(&mut self, rt: &R, alloc: Global) -> Result<Forwarded, Fail> {
        let mut notifier = notifier(alloc)?;
        let question = Question {
            publisher: 0,
            asked_by: None,
            call: Call::Stay {
                owner: Ssrc(17),
                stay: 1,
                change: Change::Depart,
            },
        };
        let note = self.writer.note();
        let done = notifier.ask(
            rt,
            self.house,
            self.seat,
            self.reader,
            note,
            &question,
            Some(1),
            &mut self.sink,
        )?;
        Ok(done)
    }

    fn ask_for_picture(&mut self, alloc: Global) -> Result<Forwarded, Fail> {
        let notifier = notifier(alloc)?;
        let note = self.writer.note();
        let done = notifier.ask_for_picture(self.reader, note, 0, &mut self.sink)?;
        Ok(done)
    }

    /// Does this.
    fn does<R: Wait>(&mut self, rt: &R, alloc: Global, deed: Deed) -> Result<Forwarded, Fail> {
        match deed {
            Deed::Ask(number, leg, stay) => self.feed(rt, alloc, number, &request(leg, stay)),
            Deed::Resend(number) => self.feed(rt, alloc, number, &again()),
            Deed::Wish(number) => self.feed(rt, alloc, number, &wish()),
            Deed::Depart => self.depart(rt, alloc),
            Deed::Picture => self.ask_for_picture(alloc),
        }
    }

    fn counts(&self) -> Counts {
        let (handed, refused) = (self.sink.handed.len(), self.sink.refused.len());
        (self.seat.calls(0), handed, refused)
    }
}

/// Does all, and each comes to what it has to.
fn does_all<J: Naming, D: DeskCalls, C: SeatCalls, R: Wait + Abort>(
    rt: &R,
    alloc: Global,
    bench: &mut Bench<'_, J, D, C>,
) -> Result<(), Fail> {
    for (deed, sent, counts) in &DEEDS {
        let done = bench.does(rt, alloc, *deed)?;
        let wanted = Forwarded {
            sent: *sent,
            ..NOTHING
        };
        same(rt, &(done, bench.counts()), &(wanted, *counts));
    }
    Ok(())
}

/// Does all with these, and the sink is told of it.
fn does_by<J: Naming, D: DeskCalls, C: SeatCalls, R: Wait + Abort>(
    rt: &R,
    alloc: Global,
    house: &House<D, C>,
    seat: &mut DeskSeat<C>,
    writer: &RouteWriter<J>,
    reader: &mut RouteReader<J>,
) -> Result<(), Fail> {
    let mut bench = Bench {
        house,
        seat,
        writer,
        reader,
        sink: MemorySink::failing(alloc, 0),
    };
    does_all(rt, alloc, &mut bench)?;
    assert!(rt; is_told(alloc, &bench.sink) && is_refused(&bench.sink));
    Ok(())
}

/// Does all by a new table, in which packets are sent on.
fn tells_by<J: Naming, D: DeskCalls, C: SeatCalls, R: Wait + Abort>(
    rt: &R,
    alloc: Global,
    blank: routes::Blank,
    house: &House<D, C>,
    seat: &mut DeskSeat<C>,
) -> Result<(), Fail>
    requires { (blank.book ≡ J.book) × (blank.legs ≡ J.legs) }
{
    let (mut writer, mut readers) = routes::<J, R>(rt, alloc, blank, 1)?;
    let noted = publish_orders(rt, &mut writer, &[on(0)]);
    let result = does_by(rt, alloc, house, seat, &writer, &mut readers[0]);
    writer.end(rt);
    assert!(rt; noted);
    result
}

/// The stay 1 of 17 at the first publisher begins, and all is done by one of these seats.
fn tells_with<J: Naming, D: DeskCalls, C: SeatCalls, R: Wait + Abort>(
    rt: &R,
    alloc: Global,
    blank: routes::Blank,
    house: &House<D, C>,
    seats: Vec<DeskSeat<C>>,
) -> Result<(), Fail>
    requires table { (blank.book ≡ J.book) × (blank.legs ≡ J.legs) }
    requires publisher { 0 < C.publishers }
{
    let mut seats = seats;
    let mut seat = seats.pop().ok_or("a seat")?;
    let arrived = house.arrive(rt, &mut seat, 0, Ssrc(17), 1).is_ok();
    let result = tells_by::<J, D, C, R>(rt, alloc, blank, house, &mut seat);
    assert!(rt; arrived);
    result
}

fn tells_in<J: Naming, D: DeskCalls, C: SeatCalls, R: Wait + Abort>(
    rt: &R,
    alloc: Global,
    blank: routes::Blank,
    recorded: Blank,
    made: Blank,
) -> Result<(), Fail>
    requires table { (blank.book ≡ J.book) × (blank.legs ≡ J.legs) }
    requires names { (recorded.name ≡ D.name) × (made.name ≡ C.name) }
    requires parts { (recorded.parts ≡ D.parts) × (made.parts ≡ C.parts) }
    requires counts { (C.publishers ≡ 2) × (D.parts ≡ 2) × (C.parts ≡ 1) × (C.seats ≡ 1) }
    requires numbers { (D.gap ≡ 500) × (D.request_ms ≡ 0) }
{
    let (house, seats) = House::<D, C>::new(alloc, recorded, made, 2, 1, 500, 0)?;
    tells_with::<J, D, C, R>(rt, alloc, blank, &house, seats)
}

#[test]
fn feedback_as_row_21(rt: HostRuntime) -> Result<(), Fail> {
    let table = routes::Blank::new(1);
    tells_in::<Brand, Brand, Brand, _>(&rt, rt.alloc(), table, Blank::new(2), Blank::new(1))
}
