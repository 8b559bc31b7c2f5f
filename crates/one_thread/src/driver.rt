//! The unit in one thread, from a new world on.

ghost use Rattle.std.specs.Prelude.{◌≡◌, ◌<◌, length, [], IfErr, IfOk, OnOk};
ghost use Rattle.rate_desk.specs.Gathered.{AreDesksOf};
ghost use Rattle.ports.specs.Ticks.{new_ticks};
ghost use Rattle.ports.specs.declared.source.TheConstants.{MAX_FAULTS};
ghost use Rattle.core_steps.specs.Opening.{IsNewWorld};
ghost use Rattle.settings.specs.Settings.{IsInRange};
ghost use Rattle.one_thread.specs.declared.driver.DriveFault.TheVariants.{NoMemory};
ghost use Rattle.one_thread.specs.Driver.{EndsEarly, HasDriven, StopsEarly};
ghost use Rattle.one_thread.specs.Driving.{IsIdle};
ghost use Rattle.one_thread.specs.Turns.{HasEnded, view_of};

use crate::tally::Tally;
use crate::turn::{Engine, turn};
use core_steps::World;
use desk::Desk;
use entrance::{Direct, Entrance, Kept};
use ports::{Feed, MAX_FAULTS, Pace, Sink, Ticks, Timekeeper, Watch};
use settings::Settings;
use std::alloc::{AllocError, Global};
use thiserror::Error;

/// What a run came to.
#[derive(Drop)]
pub struct Report {
    pub counts: Tally,
    /// The desk of each publisher, by its number.
    pub desks: Vec<Desk>,
}

/// Why a run ended before its turns did.
#[derive(Clone, Copy, Debug, PartialEq, Eq, Error)]
pub enum DriveFault {
    /// There was no memory.
    #[error("no memory")]
    NoMemory,
    /// As many receives in a row failed as may not.
    #[error("receives fail")]
    Receive,
}

/// The machine of these settings, before its first turn.
fn new_engine(alloc: Global, settings: &Settings, tick_ms: u64) -> Result<Engine, AllocError>
    ensures world { IfOk result (λ e. IsNewWorld settings.now e.world) }
    ensures empty { IfOk result (λ e. e.outs.items ≡ []) }
    ensures ticks { IfOk result (λ e. e.ticks ≡ new_ticks tick_ms) }
    ensures counts { IfOk result (λ e. (e.faults ≡ 0)
        × (e.tally ≡ record { heard = 0; sent = 0; failed = 0 })) }
{
    let world = World::new(alloc, settings)?;
    Ok(Engine {
        world,
        outs: Vec::new(alloc),
        ticks: Ticks::new(tick_ms),
        faults: 0,
        is_stopped: false,
        tally: Tally::default(),
    })
}

/// The same, with the fault of a run.
fn open_engine(alloc: Global, settings: &Settings, tick_ms: u64) -> Result<Engine, DriveFault>
    ensures world { IfOk result (λ e. IsNewWorld settings.now e.world) }
    ensures empty { IfOk result (λ e. e.outs.items ≡ []) }
    ensures ticks { IfOk result (λ e. e.ticks ≡ new_ticks tick_ms) }
    ensures counts { IfOk result (λ e. (e.faults ≡ 0)
        × (e.tally ≡ record { heard = 0; sent = 0; failed = 0 })) }
    ensures range { IfOk result (λ _. IsInRange settings.now) }
    ensures err { IfErr result (λ fault. fault ≡ NoMemory) }
{
    let _workers = settings.workers();
    match new_engine(alloc, settings, tick_ms) {
        Ok(engine) => Ok(engine),
        Err(_) => Err(DriveFault::NoMemory),
    }
}

/// Makes so many turns, fewer if a stop comes: then that turn is the last.
#[tactic(auto, using(crate::proofs::TurnLemmas::made_nothing, crate::proofs::TurnLemmas::made_more, crate::proofs::TurnLemmas::ends_whole, crate::proofs::TurnLemmas::ends_stopped, crate::proofs::TurnLemmas::stops_in, crate::proofs::TurnLemmas::fails_in))]
fn run_turns<E: Entrance, Snk: Sink, W: Watch>(
    engine: &mut Engine,
    turns: u64,
    entrance: &mut E,
    sink: &mut Snk,
    watch: &mut W,
) -> Result<(), DriveFault>
    requires one { length engine.old.world.workers ≡ 1 }
    requires idle { IsIdle engine.old.world }
    requires empty { engine.old.outs.items ≡ [] }
    requires faults { engine.old.faults ≡ 0 }
    requires tally { engine.old.tally ≡ record { heard = 0; sent = 0; failed = 0 } }
    ensures ok { OnOk result (HasEnded engine.old.world engine.old.ticks turns
        engine.new.world engine.new.faults engine.new.tally
        (view_of (E.given entrance.old) (E.told entrance.old) (Snk.shown sink.old))
        (view_of (E.given entrance.new) (E.told entrance.new) (Snk.shown sink.new))) }
    ensures few { OnOk result (engine.new.faults < MAX_FAULTS) }
    ensures idle { OnOk result (IsIdle engine.new.world) }
    ensures err { IfErr result (StopsEarly engine.old.world engine.old.ticks
        (view_of (E.given entrance.old) (E.told entrance.old) (Snk.shown sink.old))
        (view_of (E.given entrance.new) (E.told entrance.new) (Snk.shown sink.new))) }
    ensures names { E.names entrance.new ≡ E.names entrance.old }
{
    for _turn in 0..turns {
        let Ok(()) = turn(engine, entrance, sink, watch) else {
            return Err(DriveFault::NoMemory);
        };
        if engine.faults >= MAX_FAULTS {
            return Err(DriveFault::Receive);
        }
        if engine.is_stopped {
            return Ok(());
        }
    }
    Ok(())
}

/// The counts, and the desks of the world that is done with.
fn report_of(engine: Engine) -> Report
    ensures counts { result.counts ≡ engine.tally }
    ensures desks { result.desks.items ≡ engine.world.desks }
{
    let Engine { world, tally, .. } = engine;
    Report {
        counts: tally,
        desks: world.into_desks(),
    }
}

/// Runs the unit of these settings in this thread for so many turns, from a new world on. In a turn it takes in what the entrance lets in, a
/// datagram or a selection, and ticks if a tick is due, each with all that follows from it; and hands what
/// the machine gives out to the sink, in order. A turn in which a stop came is the last. No job is ever given up. What the machine's laws say holds of all that was let in (`ok`).
///
/// Refused as `NoMemory` if there is no memory, and then what the machine gave out in this turn isn't handed over; as `Receive`
/// after 100 receives in a row that fail (`err`).
#[tactic(auto, using(crate::proofs::DriverLemmas::never_began, crate::proofs::DriverLemmas::ends_early))]
pub fn run_through<E: Entrance, Snk: Sink, W: Watch>(
    alloc: Global,
    settings: &Settings,
    entrance: &mut E,
    sink: &mut Snk,
    watch: &mut W,
    pace: Pace,
) -> Result<Report, DriveFault>
    requires one { settings.now.workers ≡ 1 }
    ensures ok { IfOk result (HasDriven settings.now pace.tick_ms pace.turns
        (view_of (E.given entrance.old) (E.told entrance.old) (Snk.shown sink.old))
        (view_of (E.given entrance.new) (E.told entrance.new) (Snk.shown sink.new))) }
    ensures err { IfErr result (EndsEarly settings.now pace.tick_ms
        (view_of (E.given entrance.old) (E.told entrance.old) (Snk.shown sink.old))
        (view_of (E.given entrance.new) (E.told entrance.new) (Snk.shown sink.new))) }
    ensures desks { IfOk result (λ r. AreDesksOf settings.now.pli_gap_ms settings.now.request_ms
        (length settings.now.endpoints) r.desks.items) }
    ensures names { E.names entrance.new ≡ E.names entrance.old }
{
    let mut engine = open_engine(alloc, settings, pace.tick_ms)?;
    run_turns(&mut engine, pace.turns, entrance, sink, watch)?;
    Ok(report_of(engine))
}

/// Runs the unit of these settings in this thread, as `run_through` does, with all that the feed gives, at the moments that the clock tells.
#[tactic(auto, using(crate::proofs::NameLemmas::first_name, crate::proofs::NameLemmas::second_name))]
pub fn run_one_thread<F: Feed, Snk: Sink, Clk: Timekeeper, W: Watch>(
    alloc: Global,
    settings: &Settings,
    feed: &mut F,
    sink: &mut Snk,
    clock: &mut Clk,
    watch: &mut W,
    pace: Pace,
) -> Result<Report, DriveFault>
    requires one { settings.now.workers ≡ 1 }
    ensures ok { IfOk result (HasDriven settings.now pace.tick_ms pace.turns
        (view_of (F.given feed.old) (Clk.told clock.old) (Snk.shown sink.old))
        (view_of (F.given feed.new) (Clk.told clock.new) (Snk.shown sink.new))) }
    ensures err { IfErr result (EndsEarly settings.now pace.tick_ms
        (view_of (F.given feed.old) (Clk.told clock.old) (Snk.shown sink.old))
        (view_of (F.given feed.new) (Clk.told clock.new) (Snk.shown sink.new))) }
    ensures desks { IfOk result (λ r. AreDesksOf settings.now.pli_gap_ms settings.now.request_ms
        (length settings.now.endpoints) r.desks.items) }
{
    let Ok(mut kept) = Kept::new(alloc) else {
        return Err(DriveFault::NoMemory);
    };
    let mut entrance = Direct::new(feed, clock, &mut kept);
    run_through(alloc, settings, &mut entrance, sink, watch, pace)
}
