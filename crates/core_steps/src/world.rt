//! The unit as one machine.

ghost use Rattle.std.specs.Prelude.{◌≡◌, ◌≢◌, ◌≤◌, ◌<◌, [], All, length, map, sum_by, IfOk, slice_get, Some, MatchOption};
ghost use Rattle.members.specs.Rows.{opening_rows};
ghost use Rattle.desk.specs.declared.effect.Effect.{Effect as EffectValue};
ghost use Rattle.settings.specs.Links.{table_of};
ghost use Rattle.core_steps.specs.Machine.{state_of, worker_state, hand_in};
ghost use Rattle.core_steps.specs.Waits.{as_counted, hand_count};
ghost use Rattle.core_steps.specs.Opening.{IsNewDesk, IsNewWorker, AreNewWorkers, IsNewWorld};

use crate::NoMemory;
use crate::front::Front;
use crate::machine::{Hand, Machine, Worker};
use crate::ring::JobRing;
use datagram::Reading;
use desk::{Desk, Effect};
use events::Out;
use legs::Legs;
use members::{RoomView, Row};
use settings::{Links, Settings};
use std::alloc::Global;
use std::marker::Model;

/// The unit as one machine: the room, the tasks of the ingress, the desks, the route table, and the workers with their
/// rings of jobs and their legs.
#[derive(Drop)]
pub struct World {
    pub(crate) machine: Machine,
    /// Where a datagram is read.
    pub(crate) reading: Reading,
}

impl Model for World {
    ghost use Rattle.core_steps.specs.World.{WorldState};
    ghost use Rattle.core_steps.specs.Machine.{state_of};

    ghost Value = { WorldState };

    ghost view = { λ w. state_of w.machine };
}

/// What waits: tasks and the notification of the ingress, jobs in all rings, and workers with a job or a notification in hand.
#[derive(Clone, Copy, Debug, PartialEq, Eq)]
pub struct Waiting {
    pub tasks: usize,
    pub jobs: usize,
    pub hands: usize,
}

/// A desk with an empty history.
fn new_desk(alloc: Global, settings: &Settings) -> Result<Desk, NoMemory>
    ensures { IfOk result (IsNewDesk settings.now) }
{
    Desk::new(alloc, settings.pli_gap_ms(), settings.request_ms())
}

/// A desk for each endpoint.
fn new_desks(alloc: Global, settings: &Settings) -> Result<Vec<Desk>, NoMemory>
    ensures count { IfOk result (λ desks. length desks.items ≡ length settings.now.endpoints) }
    ensures each { IfOk result (λ desks. All (IsNewDesk settings.now) desks.items) }
{
    let count = settings.endpoints().len();
    let mut desks = Vec::with_capacity(alloc, count)?;
    for made in 0..count {
        desks.push(new_desk(alloc, settings)?)?;
    }
    Ok(desks)
}

/// The worker with this number, which has nothing to do.
fn new_worker(
    alloc: Global,
    settings: &Settings,
    links: &Links,
    number: u16,
) -> Result<Worker, NoMemory>
    requires { links.now ≡ table_of settings.now }
    ensures { IfOk result (λ w. IsNewWorker settings.now number (worker_state w)) }
{
    let ring = settings.ring() as usize;
    Ok(Worker {
        jobs: JobRing::new(alloc)?,
        hand: Hand::Free,
        effect: Effect::new(),
        legs: Legs::new(alloc, links, ring, number)?,
    })
}

/// The workers of these settings.
fn new_workers(alloc: Global, settings: &Settings, links: &Links) -> Result<Vec<Worker>, NoMemory>
    requires { links.now ≡ table_of settings.now }
    ensures { IfOk result
        (λ workers. AreNewWorkers settings.now links.now.workers (map worker_state workers.items)) }
{
    let mut workers = Vec::new(alloc);
    for number in 0..links.workers() {
        workers.push(new_worker(alloc, settings, links, number)?)?;
    }
    Ok(workers)
}

/// A row for each of so many legs, on which nothing stands.
fn new_rows(alloc: Global, legs: usize) -> Result<Vec<Row>, NoMemory>
    ensures { IfOk result (λ rows. rows.items ≡ opening_rows legs) }
{
    let row = Row {
        stay: 0,
        turn: 0,
        on: false,
    };
    let rows = vec![in alloc; row; legs]?;
    Ok(rows)
}

/// The machine of these settings.
fn new_machine(alloc: Global, settings: &Settings) -> Result<Machine, NoMemory>
    ensures { IfOk result (λ m. IsNewWorld settings.now (state_of m)) }
{
    let front = Front::new(alloc, settings)?;
    let links = &front.setup.links;
    let workers = new_workers(alloc, settings, links)?;
    let rows = new_rows(alloc, links.legs().len())?;
    let desks = new_desks(alloc, settings)?;
    Ok(Machine {
        front,
        pending: None,
        effect: Effect::new(),
        desks,
        rows,
        workers,
        lost: 0,
    })
}

/// How many jobs wait in the rings of these workers, as far as that can be counted.
fn jobs_waiting(workers: &[Worker]) -> usize
    ensures { result ≡ as_counted (sum_by (λ s. length s.jobs) (map worker_state workers.now)) }
{
    let mut jobs: usize = 0;
    for worker in workers {
        let more = worker.jobs.len();
        jobs = jobs.saturating_add(more);
    }
    jobs
}

/// Whether anything is in the hand: 1 or 0.
fn hand_full(hand: &Hand) -> usize
    ensures value { (e : EffectValue) → result ≡ hand_count (hand_in e hand.now) }
    ensures limit { result ≤ 1 }
{
    match hand {
        Hand::Free => 0,
        Hand::Doing(_) => 1,
        Hand::Telling(_) => 1,
    }
}

/// How many of these workers have something in hand, as far as that can be counted.
fn hands_full(workers: &[Worker]) -> usize
    ensures { result ≡ as_counted (sum_by (λ s. hand_count s.hand) (map worker_state workers.now)) }
{
    let mut hands: usize = 0;
    for worker in workers {
        let more = hand_full(&worker.hand);
        hands = hands.saturating_add(more);
    }
    hands
}

/// The stay that a leg's number names: 0 is none.
pub(crate) fn standing(stay: u64) -> Option<u64>
    ensures { MatchOption result (stay ≡ 0) (λ s. (s ≢ 0) × (stay ≡ s)) }
{
    if stay == 0 { None } else { Some(stay) }
}

impl World {
    ghost use Rattle.members.specs.Presence.{is_present_at};
    ghost use Rattle.members.specs.Room.{leg_at};
    ghost use Rattle.core_steps.specs.Rule.{is_busy};
    ghost use Rattle.core_steps.specs.Waits.{has_work, waiting_in};

    /// The world of these settings: nobody is present, and nothing waits. Refused for want of memory alone.
    pub fn new(alloc: Global, settings: &Settings) -> Result<World, NoMemory>
        ensures { IfOk result (IsNewWorld settings.now) }
    {
        Ok(World {
            machine: new_machine(alloc, settings)?,
            reading: Reading::new(alloc),
        })
    }

    /// How many publishers have a desk: each endpoint.
    pub fn publishers(&self) -> usize
        ensures { result ≡ length self.now.desks }
    {
        self.machine.desks.len()
    }

    /// The desk of this publisher.
    pub fn desk(&self, publisher: u16) -> &Desk
        requires { publisher < length self.now.desks }
        ensures { slice_get self.now.desks publisher ≡ Some result.now }
    {
        &self.machine.desks[usize::from(publisher)]
    }

    /// The desks of all publishers, by their numbers, of a world that is done with.
    pub fn into_desks(self) -> Vec<Desk>
        ensures { result.items ≡ self.desks }
    {
        let World { machine, .. } = self;
        let Machine { desks, .. } = machine;
        desks
    }

    /// Whether this endpoint is present.
    pub fn is_present(&self, endpoint: u16) -> bool
        ensures { result ≡ is_present_at self.now.room.endpoints endpoint }
    {
        self.machine.front.room.is_present(endpoint)
    }

    /// The room as it is, and how its legs are found.
    pub fn view(&self) -> RoomView<'_>
        ensures links { result.links.now ≡ self.now.setup.table }
        ensures room { result.room.now ≡ self.now.room }
    {
        let front = &self.machine.front;
        RoomView {
            links: &front.setup.links,
            room: &front.room,
        }
    }

    /// The stay that stands for this leg; `None` if none does.
    pub fn stay(&self, leg: u16) -> Option<u64>
        ensures { MatchOption result ((leg_at self.now.room.legs leg).stay ≡ 0)
            (λ s. (s ≢ 0) × ((leg_at self.now.room.legs leg).stay ≡ s)) }
    {
        standing(self.machine.front.room.stay(leg))
    }

    /// The published rows, one for each leg.
    pub fn rows(&self) -> &[Row]
        ensures { result.now ≡ self.now.rows }
    {
        self.machine.rows.as_slice()
    }

    /// Takes back the buffers of what was given out, for what goes out next: nothing is left of that.
    pub fn take_back(&mut self, outs: &mut Vec<Out>)
        ensures world { self.new ≡ self.old }
        ensures none { outs.new.items ≡ [] }
    {
        self.machine.front.plan.take_back(outs);
    }

    /// What waits.
    pub fn waiting(&self) -> Waiting
        ensures { result ≡ waiting_in self.now }
    {
        let m = &self.machine;
        let workers = m.workers.as_slice();
        let pending = if m.pending.is_some() { 1 } else { 0 };
        Waiting {
            tasks: m.front.tasks.count() + pending,
            jobs: jobs_waiting(workers),
            hands: hands_full(workers),
        }
    }

    /// Whether a task or a notification waits for the ingress.
    pub fn is_busy(&self) -> bool
        ensures { result ≡ is_busy self.now }
    {
        self.machine.is_busy()
    }

    /// Whether a job waits in the ring of this worker, or anything is in its hand.
    pub fn has_work(&self, worker: u16) -> bool
        ensures { result ≡ has_work self.now worker }
    {
        match self.machine.workers.get(usize::from(worker)) {
            Some(worker) => worker.has_work(),
            None => false,
        }
    }

    /// How many jobs were given up, since their worker's ring was full; it stays at `u64::MAX` once there.
    pub fn lost(&self) -> u64
        ensures { result ≡ self.now.lost }
    {
        self.machine.lost
    }

    /// How many TMMBNs were heard; it stays at `u64::MAX` once there.
    pub fn tmmbn_heard(&self) -> u64
        ensures { result ≡ self.now.tmmbns }
    {
        self.machine.front.tmmbns
    }
}
