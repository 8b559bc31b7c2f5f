//! The ingress: it takes in what comes, and does what follows, in the thread that runs the unit.

ghost use Rattle.std.specs.Prelude.{◌≡◌, ◌<◌, ◌++◌, [], ℕ, List, IfOk, OnOk, OnErr};
ghost use Rattle.datagram.specs.Reads.{IsPacketRead, admission_of};
ghost use Rattle.ports.specs.Ticks.{is_due};
ghost use Rattle.core_steps.specs.Hearing.{SaysTaken};
ghost use Rattle.desk.specs.Call.{HasStay};
ghost use Rattle.events.specs.declared.event.Event.TheVariants.{Hear, Select, Tick};
ghost use Rattle.core_steps.specs.Rule.{Does};
ghost use Rattle.core_steps.specs.Run.{Leaves};
ghost use Rattle.members.specs.Rows.{changes_by};
ghost use Rattle.worker_threads.specs.Counted.{counted_of};
ghost use Rattle.worker_threads.specs.Room.{may_wait};

use crate::counts::{Counts, Outcome, outcome_of};
use crate::gear::Gear;
use crate::item::Item;
use crate::lane::Crew;
use crate::settling::{Patience, settle};
use core_steps::{Duty, IngressCore, Taking};
use desk::{Answer, Call, Change, Signal};
use desk_calls::{Question, stay_call};
use events::{DeskRefusal, Job, Out, Refusal};
use forwarding::{ForwardFault, Forwarded, Notifier, send_all};
use members::Order;
use ports::{Look, Sink, Ticks, Watch};
use rate_desk::{DeskCalls, DeskSeat, House, HouseFault, SeatCalls};
use routes::{Naming, RouteWriter};
use settings::Settings;
use std::alloc::{AllocError, Global};
use std::sync::Wait;
use std::thread::Threads;

/// What the ingress owns: the room with what waits, its gear, and the workers that were started. It alone writes the routes,
/// and puts jobs into the rings.
#[derive(Drop)]
pub(crate) struct Ingress<'a, D: DeskCalls, C: SeatCalls, J: Naming, S: Drop> {
    pub(crate) core: IngressCore,
    pub(crate) notifier: Notifier,
    pub(crate) house: &'a House<D, C>,
    pub(crate) counts: &'a Counts,
    pub(crate) writer: &'a mut RouteWriter<J>,
    pub(crate) gear: Gear<C, J, S>,
    pub(crate) crew: Crew<J, C>,
    pub(crate) ticks: Ticks,
    /// How many endpoints are present at this tick, of those that were counted.
    pub(crate) present: u64,
    /// Whether a packet was put into a ring since the workers were waited for.
    pub(crate) is_unsettled: bool,
    pub(crate) patience: Patience,
    /// What was refused of what came last.
    pub(crate) refusals: Vec<Out>,
    /// Whose datagram is being done, if one is.
    pub(crate) endpoint: Option<u16>,
}

/// The ingress's own machine, and what asks desks for it.
pub(crate) fn core_and_notifier(
    alloc: Global,
    settings: &Settings,
) -> Result<(IngressCore, Notifier), AllocError> {
    let notifier = Notifier::new(alloc, settings)?;
    Ok((IngressCore::new(alloc, settings)?, notifier))
}

impl<'a, D: DeskCalls, C: SeatCalls, J: Naming, S: Sink + Drop> Ingress<'a, D, C, J, S> {
    /// Stops and joins the workers, and hands all seats back.
    pub(crate) fn end<R: Threads + Wait>(self, rt: &R) -> Result<Vec<DeskSeat<C>>, AllocError> {
        let Ingress {
            crew,
            gear,
            counts,
            ..
        } = self;
        crew.join(rt, counts, gear.into_seat())
    }

    /// What a datagram of an endpoint says is taken in, and what follows is done.
    pub(crate) fn take<R: Wait>(
        &mut self,
        rt: &R,
        moment: u64,
        taking: Taking<'_>,
    ) -> Result<(), AllocError>
        requires read { IsPacketRead taking.bytes.now taking.what }
    {
        self.counts.add_heard();
        self.endpoint = Some(taking.endpoint);
        take_one(&mut self.core, moment, taking, &mut self.refusals)?;
        self.tell_refusals();
        self.do_duties(rt)
    }

    /// The leg is selected or not from now on, and what follows is done. A leg that isn't there is passed over.
    pub(crate) fn select<R: Wait>(
        &mut self,
        rt: &R,
        moment: u64,
        leg: u16,
        on: bool,
    ) -> Result<(), AllocError> {
        self.endpoint = None;
        select_one(&mut self.core, moment, leg, on, &mut self.refusals)?;
        self.tell_refusals();
        self.do_duties(rt)
    }

    /// It is this moment: if a tick is due it is made, and what follows is done. Says whether it was.
    pub(crate) fn tick<R: Wait>(&mut self, rt: &R, moment: u64) -> Result<bool, AllocError>
        ensures { IfOk result (λ is_made. is_made ≡ is_due self.old.ticks moment) }
    {
        if !self.ticks.take(moment) {
            return Ok(false);
        }
        self.present = 0;
        self.endpoint = None;
        tick_once(&mut self.core, moment, &mut self.refusals)?;
        self.do_duties(rt)?;
        self.counts.note_present(self.present);
        Ok(true)
    }

    /// What is wanted of the room. Who calls a desk that is shown waits until it has been.
    pub(crate) fn show_room<R: Wait, W: Watch>(&self, rt: &R, watch: &mut W) {
        match watch.look() {
            Look::Nothing => return,
            Look::Presence => {
                for endpoint in 0..u16::try_from(self.house.publishers()).unwrap_or(u16::MAX) {
                    watch.show_endpoint(endpoint, self.core.is_present(endpoint));
                }
            }
            Look::Stays => {
                for leg in 0..u16::try_from(self.core.links().legs().len()).unwrap_or(u16::MAX) {
                    watch.show_stay(leg, self.core.stay(leg));
                }
            }
            Look::Desk(publisher) => {
                let place = usize::from(publisher);
                if place < self.house.publishers() {
                    watch.show_desk(publisher, self.house.hold(rt, place).desk());
                }
            }
        }
        watch.end_look();
    }

    /// Tells the sink what was refused of what came.
    fn tell_refusals(&mut self) {
        for out in self.refusals.iter() {
            if let Out::Refused(refusal) = out {
                self.gear.sink.refused(self.endpoint, *refusal);
            }
        }
    }

    /// Does all that waits; then workers that have something to do are woken, each once.
    fn do_duties<R: Wait>(&mut self, rt: &R) -> Result<(), AllocError> {
        for _ in rt.forever() {
            match self.core.next_duty()? {
                Some(duty) => self.do_duty(rt, duty)?,
                None => break,
            }
        }
        self.crew.wake(self.counts);
        Ok(())
    }

    fn do_duty<R: Wait>(&mut self, rt: &R, duty: Duty) -> Result<(), AllocError> {
        match duty {
            Duty::Order(order) => self.do_order(rt, order),
            Duty::Push { worker, job } => {
                self.make_room(rt, worker, &job);
                self.push(worker, job);
                Ok(())
            }
            Duty::Pulse(publisher) => self.pulse(rt, publisher),
            Duty::Expire(publisher) => self.expire(rt, publisher),
            Duty::Report(publisher) => self.report(publisher),
        }
    }

    /// A stay begins or ends at the publisher's desk, or a row is published.
    fn do_order<R: Wait>(&mut self, rt: &R, order: Order) -> Result<(), AllocError> {
        match order {
            Order::Arrive { leg, stay } => self.ask_in_stay(rt, leg, stay, Change::Arrive),
            Order::Depart { leg, stay } => self.ask_in_stay(rt, leg, stay, Change::Depart),
            Order::Route { .. } => {
                self.settle(rt);
                publish(rt, self.writer, &order)
            }
        }
    }

    /// The subscriber of a leg begins or ends a stay at its publisher's desk.
    fn ask_in_stay<R: Wait>(
        &mut self,
        rt: &R,
        leg: u16,
        stay: u64,
        change: Change,
    ) -> Result<(), AllocError> {
        match stay_call(self.core.links(), leg, stay, change) {
            Some((publisher, call)) => self.ask(rt, publisher, call),
            None => Ok(()),
        }
    }

    /// Asks the publisher's desk, and tells what follows.
    fn ask<R: Wait>(&mut self, rt: &R, publisher: u16, call: Call) -> Result<(), AllocError>
        requires { HasStay call }
    {
        let question = Question {
            publisher,
            asked_by: None,
            call,
        };
        let note = self.writer.note();
        let Gear { seat, reader, sink } = &mut self.gear;
        let told = self.notifier.ask(
            rt,
            self.house,
            seat,
            reader,
            note,
            &question,
            self.endpoint,
            sink,
        );
        self.count(told)
    }

    /// Waits, for a little, until the packets that were heard are sent on, by the rows as they are.
    fn settle<R: Wait>(&mut self, rt: &R) {
        if self.is_unsettled {
            self.wait_for_workers(rt);
            self.is_unsettled = false;
        }
    }

    /// Waits, for a little, until the workers are done, if this is a report and the ring that it is for is mostly full: a round of
    /// reports in a full room may be longer than a ring.
    fn make_room<R: Wait>(&mut self, rt: &R, worker: u16, job: &Job) {
        if may_wait(job) && self.crew.is_crowded(worker) {
            self.wait_for_workers(rt);
        }
    }

    /// Waits, for a little, until the workers have done all that they were given.
    fn wait_for_workers<R: Wait>(&mut self, rt: &R) {
        self.crew.wake(self.counts);
        let moment = self.core.moment();
        settle(rt, &self.crew, self.counts, &mut self.patience, moment);
    }

    /// Puts a job into the worker's ring; it is lost where the ring is full.
    fn push(&mut self, worker: u16, job: Job) {
        let note = self.writer.note();
        self.is_unsettled = self.is_unsettled || matches!(job, Job::Packet { .. });
        if self
            .crew
            .push(self.counts, worker, Item::Work { job, note })
            .is_some()
        {
            self.counts.add_lost();
        }
    }

    /// Tells the publisher's desk the moment.
    fn pulse<R: Wait>(&mut self, rt: &R, publisher: u16) -> Result<(), AllocError> {
        self.present = self.present.saturating_add(1);
        let at = usize::from(publisher);
        if at >= self.house.publishers() {
            return Ok(());
        }
        let moment = self.core.moment();
        match self.house.pulse(rt, &mut self.gear.seat, at, moment) {
            Ok(receipt) if wants_pli(&receipt.answer) => self.ask_for_picture(publisher),
            Err(HouseFault::HistoryFull) => {
                let refusal = Refusal::Desk(DeskRefusal::HistoryFull);
                self.gear.sink.refused(self.endpoint, refusal);
                Ok(())
            }
            _ => Ok(()),
        }
    }

    /// A picture is wanted of the publisher.
    fn ask_for_picture(&mut self, publisher: u16) -> Result<(), AllocError> {
        let note = self.writer.note();
        let Gear { reader, sink, .. } = &mut self.gear;
        let told = self.notifier.ask_for_picture(reader, note, publisher, sink);
        self.count(told)
    }

    /// The publisher's desk takes requests away that are too old.
    fn expire<R: Wait>(&mut self, rt: &R, publisher: u16) -> Result<(), AllocError> {
        let moment = self.core.moment();
        self.ask(
            rt,
            publisher,
            Call::Time {
                moment,
                signal: Signal::Expire,
            },
        )
    }

    /// Sends the publisher a report.
    fn report(&mut self, publisher: u16) -> Result<(), AllocError> {
        let bytes = self.core.report(publisher)?;
        let out = Out::Send {
            endpoint: publisher,
            bytes,
        };
        let done = send_all(&[out], &mut self.gear.sink);
        self.count(Ok(done))
    }

    /// Counts what was sent. Without a view it was given up; want of memory is handed on.
    fn count(&self, told: Result<Forwarded, ForwardFault>) -> Result<(), AllocError> {
        self.counts.of_ingress().add(counted(told)?);
        Ok(())
    }
}

/// What is counted of what was told: what was sent, or that it was given up for want of a view. Want of memory isn't counted.
fn counted(told: Result<Forwarded, ForwardFault>) -> Result<Outcome, AllocError>
    ensures { result ≡ counted_of told }
{
    match told {
        Ok(_) | Err(ForwardFault::NoView) => Ok(outcome_of(told)),
        Err(ForwardFault::NoMemory) => Err(AllocError),
    }
}

/// Publishes the row of this order. Refused for want of memory alone; then nothing is noted.
fn publish<J: Naming, R: Wait>(
    rt: &R,
    writer: &mut RouteWriter<J>,
    order: &Order,
) -> Result<(), AllocError>
    ensures ok { OnOk result (writer.new.published
        ≡ writer.old.published ++ (writer.old.noted ++ changes_by J.legs order.now)) }
    ensures err { OnErr result ((writer.new.published ≡ writer.old.published)
        × (writer.new.noted ≡ writer.old.noted)) }
{
    let Ok(()) = writer.change(order) else {
        return Err(AllocError);
    };
    writer.publish(rt);
    Ok(())
}

/// Whether a job may wait until its ring has room: a report, and never a packet.
fn may_wait(job: &Job) -> bool
    ensures { result ≡ may_wait job.now }
{
    matches!(job, Job::Report { .. })
}

/// The core takes in what a datagram says; what was refused of it alone is listed.
fn take_one(
    core: &mut IngressCore,
    moment: u64,
    taking: Taking<'_>,
    refusals: &mut Vec<Out>,
) -> Result<(), AllocError>
    requires read { IsPacketRead taking.bytes.now taking.what }
    ensures { (bytes : List ℕ) → SaysTaken core.old (admission_of taking.entry) bytes
        → OnOk result (Leaves (Does core.old (Hear moment taking.entry.endpoint bytes)) core.old []
        core.new refusals.new.items) }
{
    refusals.clear();
    core.take(moment, taking, refusals)
}

/// The core selects a leg or not; what was refused of it alone is listed.
fn select_one(
    core: &mut IngressCore,
    moment: u64,
    leg: u16,
    on: bool,
    refusals: &mut Vec<Out>,
) -> Result<(), AllocError>
    ensures { OnOk result (Leaves (Does core.old (Select moment leg on)) core.old []
        core.new refusals.new.items) }
{
    refusals.clear();
    core.select(moment, leg, on, refusals)
}

/// The core ticks; what was refused then alone is listed.
fn tick_once(core: &mut IngressCore, moment: u64, refusals: &mut Vec<Out>) -> Result<(), AllocError>
    ensures { OnOk result (Leaves (Does core.old (Tick moment)) core.old []
        core.new refusals.new.items) }
{
    refusals.clear();
    core.tick(moment, refusals)
}

/// Whether a desk answered that a picture is wanted upstream.
fn wants_pli(answer: &Answer) -> bool {
    match answer {
        Answer::Done { pli, .. } => *pli,
        _ => false,
    }
}
