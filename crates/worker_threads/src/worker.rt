//! A worker in a thread: it does the jobs of its ring, one after the other, until it is stopped.

use crate::counts::{Station, outcome_of};
use crate::gear::Gear;
use crate::item::Item;
use crate::recess::Recess;
use events::Job;
use forwarding::{ForwardFault, Forwarded, Forwarder};
use ports::{Gate, Sink};
use rate_desk::{DeskCalls, DeskSeat, House, SeatCalls};
use routes::{Naming, RouteNote};
use rtrb::Consumer;
use std::alloc::Global;
use std::sync::Wait;

/// What the thread of a worker owns, and what it shares with others.
#[derive(Drop)]
pub(crate) struct WorkerThread<'a, D: DeskCalls, C: SeatCalls, J: Naming, S: Drop, G> {
    pub(crate) ring: Consumer<Item<J>, Global>,
    pub(crate) forwarder: Forwarder,
    pub(crate) gear: Gear<C, J, S>,
    pub(crate) house: &'a House<D, C>,
    pub(crate) gate: &'a G,
    pub(crate) station: &'a Station,
    pub(crate) recess: &'a Recess,
}

impl<'a, D: DeskCalls, C: SeatCalls, J: Naming, S: Sink + Drop, G: Gate> WorkerThread<
    'a,
    D,
    C,
    J,
    S,
    G,
> {
    /// Does all jobs before the stop, and hands its seat back.
    pub(crate) fn run<R: Wait>(self, rt: &R) -> DeskSeat<C> {
        let mut worker = self;
        worker.work_all(rt);
        let WorkerThread { gear, .. } = worker;
        gear.into_seat()
    }

    /// Does all jobs before the stop.
    fn work_all<R: Wait>(&mut self, rt: &R) {
        for _ in rt.forever() {
            match self.ring.pop() {
                Ok(Item::Work { job, note }) => self.work(rt, &job, note),
                Ok(Item::Stop) => return,
                Err(_) => {
                    self.recess.note_idle();
                    self.station.parker.park(rt);
                }
            }
        }
        unreachable!()
    }

    /// Does a job between the two calls of the gate.
    fn work<R: Wait>(&mut self, rt: &R, job: &Job, note: RouteNote<J>) {
        self.gate.hold(self.station.number);
        let done = self.forward(rt, job, note);
        self.station.tally.add(outcome_of(done));
        self.gate.done(self.station.number);
        self.station.note_done();
    }

    /// The one step of a job.
    fn forward<R: Wait>(
        &mut self,
        rt: &R,
        job: &Job,
        note: RouteNote<J>,
    ) -> Result<Forwarded, ForwardFault> {
        let Gear { seat, reader, sink } = &mut self.gear;
        if job.leg_asking().is_some() {
            self.forwarder
                .feedback(rt, self.house, seat, reader, note, job, sink)
        } else {
            self.forwarder.forward(reader, note, job, sink)
        }
    }
}
