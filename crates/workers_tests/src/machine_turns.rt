//! The machine on the turns of a test: what it gives out for sinks, by whose sink is told.

use crate::random_turns::{Coming, Turn, WORKERS};
use crate::told::Told;
use core_steps::{World, run};
use events::{Bytes, Event, Out, RunFault};
use ports::Ticks;
use settings::Settings;
use std::alloc::{AllocError, Global};
use std::test::Fail;

/// Each turn makes a tick, as in `run_unit`.
pub(super) const TICK_MS: u64 = 0;

/// What sinks are told: that of each worker, and last that of the ingress.
pub(super) type Tellings = Vec<Vec<Told>>;

/// The machine while it plays turns.
#[derive(Drop)]
struct Player {
    alloc: Global,
    world: World,
    ticks: Ticks,
    /// The number of the turn that is played.
    turn: u64,
    told: Tellings,
}

/// Plays the turns, and notes how many jobs must be done before each, unless it and the one before are calm; what sinks are told.
pub(super) fn play(
    alloc: Global,
    settings: &Settings,
    turns: &mut Vec<Turn>,
) -> Result<Tellings, Fail> {
    let told = nothing_told(alloc)?;
    let mut player = Player {
        alloc,
        world: World::new(alloc, settings)?,
        ticks: Ticks::new(TICK_MS),
        turn: 0,
        told,
    };
    player.play_all(turns)?;
    let Player { told, .. } = player;
    Ok(told)
}

/// No sink was told anything.
fn nothing_told(alloc: Global) -> Result<Tellings, AllocError> {
    let mut told = Vec::new(alloc);
    for _sink in 0..WORKERS + 1 {
        told.push(Vec::new(alloc))?;
    }
    Ok(told)
}

impl Player {
    /// Whether what comes is of an endpoint that is present.
    fn is_known(&self, turn: &Turn) -> bool {
        match &turn.arrival {
            Some(Coming::Datagram { endpoint, .. }) => self.world.is_present(*endpoint),
            Some(Coming::Select { .. }) | None => false,
        }
    }

    /// The turns, one after the other.
    fn play_all(&mut self, turns: &mut Vec<Turn>) -> Result<(), Fail> {
        let mut jobs: u64 = 0;
        let mut was_calm = false;
        for turn in turns.iter_mut() {
            let is_calm = turn.is_calm && self.is_known(turn);
            turn.jobs_before = if was_calm && is_calm { 0 } else { jobs };
            jobs = jobs.wrapping_add(self.play(turn)?);
            self.turn = self.turn.wrapping_add(1);
            was_calm = is_calm;
        }
        Ok(())
    }

    /// One turn, with a tick if one is due; says how many jobs workers did.
    fn play(&mut self, turn: &Turn) -> Result<u64, Fail> {
        let heard = match event_of(self.alloc, turn)? {
            Some(event) => self.take_in(event)?,
            None => 0,
        };
        if !self.ticks.take(turn.moment) {
            return Ok(heard);
        }
        let tick = Event::Tick(turn.moment);
        Ok(heard.wrapping_add(self.take_in(tick)?))
    }

    /// Takes something in, and does what follows; says how many jobs workers did.
    fn take_in(&mut self, event: Event) -> Result<u64, Fail> {
        self.step(event, WORKERS)?;
        self.settle()
    }

    /// Lets the ingress and then each worker do what waits, and says how many jobs workers did.
    fn settle(&mut self) -> Result<u64, Fail> {
        for _ in 0..10_000 {
            if !self.world.is_busy() {
                break;
            }
            self.step(Event::Ingress, WORKERS)?;
        }
        let jobs = self.world.waiting().jobs;
        for worker in 0..WORKERS {
            self.work(worker)?;
        }
        Ok(jobs as u64)
    }

    /// Lets a worker do what waits for it.
    fn work(&mut self, worker: u8) -> Result<(), Fail> {
        for _ in 0..10_000 {
            if !self.world.has_work(u16::from(worker)) {
                break;
            }
            self.step(Event::Work(u16::from(worker)), worker)?;
        }
        Ok(())
    }

    /// Does one event, and notes what the sink with this number is told of it.
    fn step(&mut self, event: Event, sink: u8) -> Result<(), Fail> {
        let mut outs = Vec::new(self.alloc);
        do_event(&mut self.world, event, &mut outs)?;
        let told = self.told.get_mut(usize::from(sink)).ok_or("sinks")?;
        note_outs(self.alloc, self.turn, outs, told)?;
        Ok(())
    }
}

/// Does one event. It promises nothing, so that who calls it is proved without what `run` says.
fn do_event(world: &mut World, event: Event, outs: &mut Vec<Out>) -> Result<(), RunFault> {
    run(world, &[event], outs)
}

/// Notes what a sink is told of these in this turn.
fn note_outs(
    alloc: Global,
    turn: u64,
    outs: Vec<Out>,
    told: &mut Vec<Told>,
) -> Result<(), AllocError> {
    for out in outs {
        if let Some(one) = Told::of(alloc, turn, out) {
            told.push(one)?;
        }
    }
    Ok(())
}

/// What comes on this turn.
fn event_of(alloc: Global, turn: &Turn) -> Result<Option<Event>, AllocError> {
    match &turn.arrival {
        None => Ok(None),
        Some(Coming::Select { leg, on }) => Ok(Some(Event::Select(turn.moment, *leg, *on))),
        Some(Coming::Datagram { endpoint, bytes }) => Ok(Some(Event::Hear(
            turn.moment,
            *endpoint,
            Bytes::copy_of(alloc, bytes.as_slice())?,
        ))),
    }
}
