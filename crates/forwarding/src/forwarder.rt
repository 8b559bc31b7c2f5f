//! What one worker does with its jobs.

ghost use Rattle.std.specs.Prelude.{◌≡◌, IfSome, option_map};
ghost use Rattle.desk.specs.Call.{HasStay};
ghost use Rattle.forwarding.specs.Asking.{is_owned, is_asking, QuestionOf, subscriber_asking, subscriber_of};

use crate::NoMemory;
use crate::done::{ForwardFault, Forwarded};
use crate::notifier::Notifier;
use crate::sending::send_all;
use desk_calls::{Asks, Question, asked_by};
use events::{Job, Out};
use legs::{Legs, Plan};
use ports::Sink;
use rate_desk::{DeskCalls, DeskSeat, House, SeatCalls};
use routes::{Naming, RouteNote, RouteReader};
use settings::Settings;
use std::alloc::Global;
use std::marker::Model;
use std::sync::Wait;

/// What a worker does its jobs with: the legs to the subscribers whose number, modulo the number of workers, is its own, and who tells
/// what follows from a desk's call.
#[derive(Drop)]
pub struct Forwarder {
    notifier: Notifier,
    worker: u16,
    legs: Legs,
    /// Where a job is planned.
    plan: Plan,
    /// What a job gives out.
    outs: Vec<Out>,
}

impl Model for Forwarder {
    ghost use Rattle.forwarding.specs.Forwarding.{ForwarderState};

    ghost Value = { ForwarderState };

    ghost view = { λ f. record { notifier = f.notifier; worker = f.worker; legs = f.legs } };
}

impl Forwarder {
    ghost use Rattle.std.specs.Prelude.{◌≡◌, IfOk, IfErr, OnOk, OnErr};
    ghost use mathlib.Core.List.{IsPrefix};
    ghost use Rattle.forwarding.specs.Sending.{Sends};
    ghost use Rattle.forwarding.specs.Forwarding.{new_forwarder, given_by, after_job, IsView, LeavesRows};
    ghost use Rattle.forwarding.specs.Asking.{Feeds, asking, telling, terms};

    /// The worker of these settings with this number, which has sent nothing yet.
    pub fn new(alloc: Global, settings: &Settings, worker: u16) -> Result<Forwarder, NoMemory>
        ensures { IfOk result (λ f. f ≡ new_forwarder settings.now worker) }
    {
        let notifier = Notifier::new(alloc, settings)?;
        let ring = settings.ring() as usize;
        let legs = Legs::new(alloc, &notifier.links, ring, worker)?;
        Ok(Forwarder {
            notifier,
            worker,
            legs,
            plan: Plan::new(alloc),
            outs: Vec::new(alloc),
        })
    }

    /// Does a job on the worker's legs: it learns the note, enters, and sends. A datagram that couldn't be sent counts as
    /// handed out; it keeps its number, and may be asked for again. A job for a desk does nothing, nor does one of a leg, a
    /// publisher or a stay that isn't there, or of another worker's leg.
    ///
    /// A fault comes before anything is sent or any leg changes; the note is learnt, and the view entered if there was one.
    pub fn forward<J: Naming, S: Sink>(
        &mut self,
        reader: &mut RouteReader<J>,
        note: RouteNote<J>,
        job: &Job,
        sink: &mut S,
    ) -> Result<Forwarded, ForwardFault>
        ensures known { IsPrefix reader.old.known reader.new.known }
        ensures note { IsPrefix note reader.new.known }
        ensures view { OnOk result (IsView J.legs reader.new) }
        ensures handed { IfOk result (Sends (given_by self.old reader.new.rows job.now)
            (S.shown sink.old) (S.shown sink.new)) }
        ensures legs { OnOk result (self.new ≡ after_job self.old reader.new.rows job.now) }
        ensures fault { IfErr result (LeavesRows J.legs reader.old.rows reader.new) }
        ensures unchanged { OnErr result ((self.new ≡ self.old) × (sink.new ≡ sink.old)) }
    {
        reader.learn(note);
        if !reader.take() {
            return Err(ForwardFault::NoView);
        }
        let alloc = self.notifier.alloc;
        let (plan, outs) = (&mut self.plan, &mut self.outs);
        outs.clear();
        let Ok(()) = self.legs.do_job(alloc, reader.rows(), job, plan, outs) else {
            return Err(ForwardFault::NoMemory);
        };
        let done = send_all(outs.as_slice(), sink);
        plan.take_back(outs);
        Ok(done)
    }

    /// Asks a publisher's desk for a subscriber, as the job says, then learns the note, and where there is anything to
    /// tell enters and tells it. A call that the desk refuses or doesn't record sends nothing and is Ok. A job for the legs
    /// asks nothing, nor does one of a leg or a publisher that isn't there, of another worker's leg, or of the stay 0.
    ///
    /// After a fault the desk's call stands, nothing was sent, and the note is learnt.
    #[tactic(auto, using(crate::proofs::AskingLemmas::nothing_asked, crate::proofs::AskingLemmas::something_asked))]
    pub fn feedback<J: Naming, D: DeskCalls, C: SeatCalls, R: Wait, S: Sink>(
        &mut self,
        rt: &R,
        house: &House<D, C>,
        seat: &mut DeskSeat<C>,
        reader: &mut RouteReader<J>,
        note: RouteNote<J>,
        job: &Job,
        sink: &mut S,
    ) -> Result<Forwarded, ForwardFault>
        ensures worker { self.new ≡ self.old }
        ensures known { IsPrefix reader.old.known reader.new.known }
        ensures note { IsPrefix note reader.new.known }
        ensures feeds { Feeds (terms D.gap D.request_ms C.publishers J.legs) self.old job.now
            (asking seat.old seat.new (telling reader.old.rows reader.new
            (S.shown sink.old) (S.shown sink.new))) result }
    {
        match self.question(job) {
            Some((question, endpoint)) => self
                .notifier
                .ask(rt, house, seat, reader, note, &question, endpoint, sink),
            None => {
                reader.learn(note);
                Ok(Forwarded::default())
            }
        }
    }

    /// What the job asks of a desk, and for whom.
    fn question(&self, job: &Job) -> Option<(Question, Option<u16>)>
        ensures names { QuestionOf self.now job.now (option_map (λ q. q.0) result) }
        ensures endpoint { IfSome result (λ q. q.1 ≡ subscriber_asking self.now job.now) }
        ensures stay { IfSome result (λ q. HasStay q.0.call) }
    {
        if !self.is_asking(job) {
            return None;
        }
        match asked_by(&self.notifier.links, job) {
            Asks::Desk(question) => Some((question, self.subscriber_asking(job))),
            Asks::Nobody | Asks::Legs => None,
        }
    }

    /// Whether the job is one for a desk, of a leg that is the worker's.
    fn is_asking(&self, job: &Job) -> bool
        ensures { result ≡ is_asking self.now job.now }
    {
        match job.leg_asking() {
            Some(leg) => self.owns(leg),
            None => false,
        }
    }

    /// The subscriber of the job's leg, for whom a desk is asked.
    fn subscriber_asking(&self, job: &Job) -> Option<u16>
        ensures { result ≡ subscriber_asking self.now job.now }
    {
        self.subscriber_of(job.leg_asking()?)
    }

    /// The subscriber of a leg.
    fn subscriber_of(&self, leg: u16) -> Option<u16>
        ensures { result ≡ subscriber_of self.now leg }
    {
        match self.notifier.links.leg(leg) {
            Some(leg) => Some(leg.subscriber),
            None => None,
        }
    }

    /// Whether the leg is the worker's.
    fn owns(&self, leg: u16) -> bool
        ensures { result ≡ is_owned self.now leg }
    {
        let links = &self.notifier.links;
        match links.leg(leg) {
            Some(leg) => links.worker_of(leg) == self.worker,
            None => false,
        }
    }
}
