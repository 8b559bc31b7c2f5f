//! What the ingress takes in, for a driver that does itself what follows.

ghost use Rattle.std.specs.Prelude.{◌≡◌, ℕ, List, IfOk, OnOk, OnErr};
ghost use Rattle.datagram.specs.Reads.{IsPacketRead, admission_of};
ghost use Rattle.core_steps.specs.Hearing.{SaysTaken};
ghost use Rattle.events.specs.declared.event.Event.TheVariants.{Hear, Tick, Select};
ghost use Rattle.core_steps.specs.declared.tasks.NextTask.TheVariants.{FollowUp as AFollowUp};
ghost use Rattle.core_steps.specs.Duties.{task_by};
ghost use Rattle.core_steps.specs.Machine.{alone, task_in};
ghost use Rattle.core_steps.specs.Rule.{Does};
ghost use Rattle.core_steps.specs.Run.{Leaves, Stays};

use crate::front::Front;
use crate::hearing::{hear, select, take};
use crate::ingress::report_on;
use crate::runner::busy;
use crate::seed::job_of;
use crate::tasks::{FollowUp, NextTask};
use crate::ticking::tick;
use crate::world::standing;
use datagram::{Reading, Taking};
use desk_calls::Head;
use events::{Bytes, Job, Out, SharedPacket};
use members::{Order, RoomView};
use settings::{Links, Settings};
use std::alloc::{AllocError, Global};
use std::marker::Model;

/// What the ingress has to do: one task of the machine.
#[derive(Drop)]
pub enum Duty {
    /// An order of the room: a stay begins or ends at the publisher's desk, or a row is published.
    Order(Order),
    /// The worker of this number gets this job.
    Push { worker: u16, job: Job },
    /// The desk of this publisher is told the room's moment, for its PLIs.
    Pulse(u16),
    /// The desk of this publisher is told the room's moment, for requests that are too old.
    Expire(u16),
    /// This publisher is sent a report.
    Report(u16),
}

/// The room, and what waits for the ingress; its driver has the desks, rows and workers. Contracts see it as a world of the machine
/// that has none of these.
#[derive(Drop)]
pub struct IngressCore {
    front: Front,
    /// Where a datagram is read.
    reading: Reading,
}

impl Model for IngressCore {
    ghost use Rattle.core_steps.specs.World.{WorldState};
    ghost use Rattle.core_steps.specs.Machine.{alone};

    ghost Value = { WorldState };

    ghost view = { λ i. alone i.front };
}

impl IngressCore {
    ghost use Rattle.std.specs.Prelude.{◌≡◌, ◌≢◌, ℕ, List, IfOk, OnOk, OnErr, MatchOption};
    ghost use Rattle.datagram.specs.Reads.{IsPacketRead, admission_of};
    ghost use Rattle.core_steps.specs.Hearing.{SaysTaken};
    ghost use Rattle.members.specs.Presence.{is_present_at};
    ghost use Rattle.members.specs.Room.{leg_at};
    ghost use Rattle.events.specs.declared.event.Event.TheVariants.{Hear, Tick, Select};
    ghost use Rattle.core_steps.specs.Duties.{new_ingress, HandsOut, Reports};
    ghost use Rattle.core_steps.specs.Rule.{Does};
    ghost use Rattle.core_steps.specs.Run.{Leaves, Stays};

    /// Nobody is present, and nothing waits. Refused for want of memory alone.
    pub fn new(alloc: Global, settings: &Settings) -> Result<IngressCore, AllocError>
        ensures { IfOk result (λ i. i ≡ new_ingress settings.now) }
    {
        Ok(IngressCore {
            front: Front::new(alloc, settings)?,
            reading: Reading::new(alloc),
        })
    }

    /// A datagram came from this endpoint at this moment, in milliseconds. Appends what was
    /// refused of it; `Busy` alone if a duty waits. Refused for want of memory alone; then nothing was done.
    pub fn hear(
        &mut self,
        moment: u64,
        endpoint: u16,
        bytes: &[u8],
        outs: &mut Vec<Out>,
    ) -> Result<(), AllocError>
        ensures ok { OnOk result (Leaves (Does self.old (Hear moment endpoint bytes.now))
            self.old outs.old.items self.new outs.new.items) }
        ensures err { OnErr result (Stays self.old outs.old.items self.new outs.new.items) }
    {
        hear_or_busy(
            &mut self.front,
            &mut self.reading,
            moment,
            endpoint,
            bytes,
            outs,
        )
    }

    /// What a datagram of an endpoint says is taken in at this moment: what `hear` does of each datagram that says it. Appends what was refused of
    /// it; `Busy` alone if a duty waits. Refused for want of memory alone; then nothing was done.
    pub fn take(
        &mut self,
        moment: u64,
        taking: Taking<'_>,
        outs: &mut Vec<Out>,
    ) -> Result<(), AllocError>
        requires read { IsPacketRead taking.bytes.now taking.what }
        ensures ok { (bytes : List ℕ) → SaysTaken self.old (admission_of taking.entry) bytes
            → OnOk result (Leaves (Does self.old (Hear moment taking.entry.endpoint bytes))
            self.old outs.old.items self.new outs.new.items) }
        ensures err { OnErr result (Stays self.old outs.old.items self.new outs.new.items) }
    {
        take_or_busy(&mut self.front, moment, taking, outs)
    }

    /// It is this moment. Appends nothing, but `Busy` if a duty waits. Refused for want of memory alone; then nothing
    /// was done.
    pub fn tick(&mut self, moment: u64, outs: &mut Vec<Out>) -> Result<(), AllocError>
        ensures ok { OnOk result (Leaves (Does self.old (Tick moment))
            self.old outs.old.items self.new outs.new.items) }
        ensures err { OnErr result (Stays self.old outs.old.items self.new outs.new.items) }
    {
        tick_or_busy(&mut self.front, moment, outs)
    }

    /// The leg is selected or not from this moment on. Appends what was refused; `Busy` alone if a duty waits. Refused
    /// for want of memory alone; then nothing was done.
    pub fn select(
        &mut self,
        moment: u64,
        leg: u16,
        on: bool,
        outs: &mut Vec<Out>,
    ) -> Result<(), AllocError>
        ensures ok { OnOk result (Leaves (Does self.old (Select moment leg on))
            self.old outs.old.items self.new outs.new.items) }
        ensures err { OnErr result (Stays self.old outs.old.items self.new outs.new.items) }
    {
        select_or_busy(&mut self.front, moment, leg, on, outs)
    }

    /// Takes the oldest duty; `None` if none waits. Refused if a packet's bytes have too many holders; then it still waits.
    pub fn next_duty(&mut self) -> Result<Option<Duty>, AllocError>
        ensures ok { IfOk result (HandsOut self.old self.new) }
        ensures err { OnErr result (self.new ≡ self.old) }
    {
        let front = &mut self.front;
        let Some(next) = front.tasks.oldest() else {
            return Ok(None);
        };
        let duty = duty_of(&front.tasks.datagram, next)?;
        front.tasks.finish();
        Ok(Some(duty))
    }

    /// The report to a publisher, with the block about it, if a packet of it was received. The next block's interval
    /// begins where this one's ends. Refused for want of memory alone; then nothing was done.
    pub fn report(&mut self, publisher: u16) -> Result<Bytes, AllocError>
        ensures ok { IfOk result (Reports self.old publisher self.new) }
        ensures err { OnErr result (self.new ≡ self.old) }
    {
        report_on(&mut self.front, publisher)
    }

    /// The room's moment: the greatest that was handed in.
    pub fn moment(&self) -> u64
        ensures { result ≡ self.now.room.moment }
    {
        self.front.room.moment()
    }

    /// Whether this endpoint is present.
    pub fn is_present(&self, endpoint: u16) -> bool
        ensures { result ≡ is_present_at self.now.room.endpoints endpoint }
    {
        self.front.room.is_present(endpoint)
    }

    /// The stay that stands for this leg; `None` if none does.
    pub fn stay(&self, leg: u16) -> Option<u64>
        ensures { MatchOption result ((leg_at self.now.room.legs leg).stay ≡ 0)
            (λ s. (s ≢ 0) × ((leg_at self.now.room.legs leg).stay ≡ s)) }
    {
        standing(self.front.room.stay(leg))
    }

    /// The room as it is, and how its legs are found.
    pub fn view(&self) -> RoomView<'_>
        ensures links { result.links.now ≡ self.now.setup.table }
        ensures room { result.room.now ≡ self.now.room }
    {
        RoomView {
            links: &self.front.setup.links,
            room: &self.front.room,
        }
    }

    /// The legs.
    pub fn links(&self) -> &Links
        ensures { result.now ≡ self.now.setup.table }
    {
        &self.front.setup.links
    }

    /// What the unit's compounds begin with.
    pub fn head(&self) -> &Head
        ensures { result.now ≡ self.now.setup.unit }
    {
        &self.front.setup.head
    }

    /// How many TMMBNs were heard; it stays at `u64::MAX` once there.
    pub fn tmmbn_heard(&self) -> u64
        ensures { result ≡ self.now.tmmbns }
    {
        self.front.tmmbns
    }
}

/// A datagram came from this endpoint; `Busy` if a duty waits.
fn hear_or_busy(
    front: &mut Front,
    reading: &mut Reading,
    moment: u64,
    endpoint: u16,
    bytes: &[u8],
    outs: &mut Vec<Out>,
) -> Result<(), AllocError>
    ensures ok { OnOk result (Leaves (Does (alone front.old) (Hear moment endpoint bytes.now))
        (alone front.old) outs.old.items (alone front.new) outs.new.items) }
    ensures err { OnErr result (Stays (alone front.old) outs.old.items
        (alone front.new) outs.new.items) }
{
    if front.is_busy() {
        return busy(front, outs);
    }
    hear(front, reading, moment, endpoint, bytes, outs)
}

/// What a datagram says is taken in; `Busy` if a duty waits.
fn take_or_busy(
    front: &mut Front,
    moment: u64,
    taking: Taking<'_>,
    outs: &mut Vec<Out>,
) -> Result<(), AllocError>
    requires read { IsPacketRead taking.bytes.now taking.what }
    ensures ok { (bytes : List ℕ) → SaysTaken (alone front.old) (admission_of taking.entry) bytes
        → OnOk result (Leaves (Does (alone front.old) (Hear moment taking.entry.endpoint bytes))
        (alone front.old) outs.old.items (alone front.new) outs.new.items) }
    ensures err { OnErr result (Stays (alone front.old) outs.old.items
        (alone front.new) outs.new.items) }
{
    if front.is_busy() {
        return busy(front, outs);
    }
    take(front, moment, taking, outs)
}

/// It is this moment; `Busy` if a duty waits.
fn tick_or_busy(front: &mut Front, moment: u64, outs: &mut Vec<Out>) -> Result<(), AllocError>
    ensures ok { OnOk result (Leaves (Does (alone front.old) (Tick moment))
        (alone front.old) outs.old.items (alone front.new) outs.new.items) }
    ensures err { OnErr result (Stays (alone front.old) outs.old.items
        (alone front.new) outs.new.items) }
{
    if front.is_busy() {
        return busy(front, outs);
    }
    tick(front, moment)
}

/// The leg is selected or not; `Busy` if a duty waits.
fn select_or_busy(
    front: &mut Front,
    moment: u64,
    leg: u16,
    on: bool,
    outs: &mut Vec<Out>,
) -> Result<(), AllocError>
    ensures ok { OnOk result (Leaves (Does (alone front.old) (Select moment leg on))
        (alone front.old) outs.old.items (alone front.new) outs.new.items) }
    ensures err { OnErr result (Stays (alone front.old) outs.old.items
        (alone front.new) outs.new.items) }
{
    if front.is_busy() {
        return busy(front, outs);
    }
    select(front, moment, leg, on, outs)
}

/// The duty that this task is, if the datagram has these bytes.
fn duty_of(datagram: &SharedPacket, next: NextTask) -> Result<Duty, AllocError>
    ensures { IfOk result (λ duty. task_by duty ≡ task_in datagram.now next) }
{
    match next {
        NextTask::Order(order) => Ok(Duty::Order(order)),
        NextTask::FollowUp(next) => duty_that_follows(datagram, next),
    }
}

/// The duty that this follow-up is, if the datagram has these bytes.
fn duty_that_follows(datagram: &SharedPacket, next: FollowUp) -> Result<Duty, AllocError>
    ensures { IfOk result (λ duty. task_by duty ≡ task_in datagram.now (AFollowUp next)) }
{
    Ok(match next {
        FollowUp::Push { worker, seed } => Duty::Push {
            worker,
            job: job_of(datagram, seed)?,
        },
        FollowUp::Pulse(publisher) => Duty::Pulse(publisher),
        FollowUp::Expire(publisher) => Duty::Expire(publisher),
        FollowUp::Report(publisher) => Duty::Report(publisher),
    })
}
