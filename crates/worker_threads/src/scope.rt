//! The threads of a run: they are started, work beside the ingress, and are joined.

ghost use Rattle.std.specs.Prelude.{◌≡◌, IfErr, OnOk, MatchResult};

use crate::counts::{Counts, Station};
use crate::fault::UnitFault;
use crate::gear::{Gear, gears_of};
use crate::ingress::{Ingress, core_and_notifier};
use crate::lane::{Crew, Lane, RingEnds, new_ring};
use crate::settling::Patience;
use crate::turns::Inlet;
use crate::worker::WorkerThread;
use core_steps::IngressCore;
use entrance::Entrance;
use forwarding::{Forwarder, Notifier};
use ports::{Gate, Pace, Sink, Ticks, Watch};
use rate_desk::{DeskCalls, DeskSeat, House, SeatCalls};
use routes::{Blank, Naming, RouteReader, RouteWriter, routes};
use settings::Settings;
use std::alloc::{AllocError, Global};
use std::sync::Wait;
use std::thread;
use std::thread::{JoinHandle, Scope, Threads};

/// What the threads of a run share.
#[derive(Drop)]
pub struct Shared<'a, D: DeskCalls, C: SeatCalls, G> {
    pub alloc: Global,
    pub settings: &'a Settings,
    pub house: &'a House<D, C>,
    pub gate: &'a G,
    pub counts: &'a Counts,
}

/// Runs the unit's threads for so many turns, and joins them; hands the seats back. There is a sink for each worker, by its number, and last
/// one for the ingress, which runs in this thread.
pub fn run_scoped<
    'a,
    D: DeskCalls + Send + Sync + 'a,
    C: SeatCalls + Send + Sync + 'a,
    J: Naming + Send + Sync + 'a,
    R: Threads + Wait + Sync + 'a,
    E: Entrance + Drop,
    S: Sink + Send + Drop + 'a,
    W: Watch + Drop,
    G: Gate + Sync + 'a,
>(
    rt: &'a R,
    shared: &'a Shared<'a, D, C, G>,
    table: Blank,
    seats: Vec<DeskSeat<C>>,
    sinks: Vec<S>,
    inlet: Inlet<E, W>,
    pace: Pace,
) -> Result<Vec<DeskSeat<C>>, UnitFault>
    requires table { (table.book ≡ J.book) × (table.legs ≡ J.legs) }
{
    thread::scope(
        thread::scope_env(),
        rt,
        move |scope| -> Result<Vec<DeskSeat<C>>, UnitFault>
            requires { (table.book ≡ J.book) × (table.legs ≡ J.legs) }
        {
            run_in_scope::<D, C, J, R, E, S, W, G>(
                scope, rt, shared, table, seats, sinks, inlet, pace,
            )
        },
    )
}

/// Makes the routes, and runs the threads beside their writer.
fn run_in_scope<
    's,
    'a: 's,
    D: DeskCalls + Send + Sync + 'a,
    C: SeatCalls + Send + Sync + 'a,
    J: Naming + Send + Sync + 'a,
    R: Threads + Wait + Sync + 'a,
    E: Entrance + Drop,
    S: Sink + Send + Drop + 'a,
    W: Watch + Drop,
    G: Gate + Sync + 'a,
>(
    scope: &'s Scope<'s, &'a ()>,
    rt: &'a R,
    shared: &'a Shared<'a, D, C, G>,
    table: Blank,
    seats: Vec<DeskSeat<C>>,
    sinks: Vec<S>,
    inlet: Inlet<E, W>,
    pace: Pace,
) -> Result<Vec<DeskSeat<C>>, UnitFault>
    requires table { (table.book ≡ J.book) × (table.legs ≡ J.legs) }
{
    let readers = shared.settings.workers() as usize + 1;
    let (mut writer, readers) = routes::<J, R>(rt, shared.alloc, table, readers)?;
    let ran = run_equipped(
        scope,
        rt,
        shared,
        &mut writer,
        readers,
        seats,
        sinks,
        inlet,
        pace,
    );
    writer.end(rt);
    ran
}

/// Equips each thread, and runs them.
fn run_equipped<
    's,
    'a: 's,
    D: DeskCalls + Send + Sync + 'a,
    C: SeatCalls + Send + Sync + 'a,
    J: Naming + Send + Sync + 'a,
    R: Threads + Wait + Sync + 'a,
    E: Entrance + Drop,
    S: Sink + Send + Drop + 'a,
    W: Watch + Drop,
    G: Gate + Sync + 'a,
>(
    scope: &'s Scope<'s, &'a ()>,
    rt: &'a R,
    shared: &'a Shared<'a, D, C, G>,
    writer: &mut RouteWriter<J>,
    readers: Vec<RouteReader<J>>,
    seats: Vec<DeskSeat<C>>,
    sinks: Vec<S>,
    inlet: Inlet<E, W>,
    pace: Pace,
) -> Result<Vec<DeskSeat<C>>, UnitFault> {
    let gears = gears_of(shared.alloc, seats, readers, sinks)?;
    run_beside(scope, rt, shared, writer, gears, inlet, pace)
}

/// Starts the workers, makes the turns of the ingress, and joins all that were started; hands the seats back.
fn run_beside<
    's,
    'a: 's,
    D: DeskCalls + Send + Sync + 'a,
    C: SeatCalls + Send + Sync + 'a,
    J: Naming + Send + Sync + 'a,
    R: Threads + Wait + Sync + 'a,
    E: Entrance + Drop,
    S: Sink + Send + Drop + 'a,
    W: Watch + Drop,
    G: Gate + Sync + 'a,
>(
    scope: &'s Scope<'s, &'a ()>,
    rt: &'a R,
    shared: &'a Shared<'a, D, C, G>,
    writer: &mut RouteWriter<J>,
    gears: Vec<Gear<C, J, S>>,
    inlet: Inlet<E, W>,
    pace: Pace,
) -> Result<Vec<DeskSeat<C>>, UnitFault> {
    let mut gears = gears;
    let Some(own) = gears.pop() else {
        return Err(UnitFault::Start);
    };
    let parts = ingress_parts(shared.alloc, shared.settings)?;
    run_manned(scope, rt, shared, writer, gears, own, parts, inlet, pace)
}

/// What an ingress is made of for which memory is wanted: its machine, what asks desks for it, and room for the workers.
type IngressParts<J, C> = (IngressCore, Notifier, Crew<J, C>);

/// Makes them.
fn ingress_parts<J: Naming, C: SeatCalls>(
    alloc: Global,
    settings: &Settings,
) -> Result<IngressParts<J, C>, AllocError> {
    let crew = Crew::new(alloc, settings.workers() as usize)?;
    let (core, notifier) = core_and_notifier(alloc, settings)?;
    Ok((core, notifier, crew))
}

/// The same, once all is there that wants memory.
fn run_manned<
    's,
    'a: 's,
    D: DeskCalls + Send + Sync + 'a,
    C: SeatCalls + Send + Sync + 'a,
    J: Naming + Send + Sync + 'a,
    R: Threads + Wait + Sync + 'a,
    E: Entrance + Drop,
    S: Sink + Send + Drop + 'a,
    W: Watch + Drop,
    G: Gate + Sync + 'a,
>(
    scope: &'s Scope<'s, &'a ()>,
    rt: &'a R,
    shared: &'a Shared<'a, D, C, G>,
    writer: &mut RouteWriter<J>,
    gears: Vec<Gear<C, J, S>>,
    own: Gear<C, J, S>,
    parts: IngressParts<J, C>,
    inlet: Inlet<E, W>,
    pace: Pace,
) -> Result<Vec<DeskSeat<C>>, UnitFault> {
    let mut inlet = inlet;
    let (core, notifier, mut crew) = parts;
    let started = start_all(scope, rt, shared, gears, &mut crew);
    let mut ingress = Ingress {
        core,
        notifier,
        house: shared.house,
        counts: shared.counts,
        writer,
        gear: own,
        crew,
        ticks: Ticks::new(pace.tick_ms),
        present: 0,
        is_unsettled: false,
        patience: Patience::new(0),
        refusals: Vec::new(shared.alloc),
        endpoint: None,
    };
    let ran = inlet.run_started(rt, &mut ingress, started, pace.turns);
    settled(ran, ingress.end(rt))
}

/// The fault of the run, and else what was joined.
fn settled<T: Drop>(
    ran: Result<(), UnitFault>,
    joined: Result<T, AllocError>,
) -> Result<T, UnitFault>
    ensures ran { IfErr ran (λ fault. result ≡ Err fault) }
    ensures joined { OnOk ran (MatchResult joined (λ all. result ≡ Ok all)
        (λ _. result ≡ Err UnitFault.NoMemory)) }
{
    match ran {
        Ok(()) => match joined {
            Ok(all) => Ok(all),
            Err(_) => Err(UnitFault::NoMemory),
        },
        Err(fault) => Err(fault),
    }
}

/// Starts a worker at each station, by their numbers. Those that were started are of the crew, after a fault, too.
fn start_all<
    's,
    'a: 's,
    D: DeskCalls + Send + Sync + 'a,
    C: SeatCalls + Send + Sync + 'a,
    J: Naming + Send + Sync + 'a,
    R: Threads + Wait + Sync + 'a,
    S: Sink + Send + Drop + 'a,
    G: Gate + Sync + 'a,
>(
    scope: &'s Scope<'s, &'a ()>,
    rt: &'a R,
    shared: &'a Shared<'a, D, C, G>,
    gears: Vec<Gear<C, J, S>>,
    crew: &mut Crew<J, C>,
) -> Result<(), UnitFault> {
    for (station, gear) in shared.counts.stations().iter().zip(gears) {
        let lane = start(scope, rt, shared, &**station, gear)?;
        crew.add(rt, &**station, lane)?;
    }
    Ok(())
}

/// Starts the worker of this station.
fn start<
    's,
    'a: 's,
    D: DeskCalls + Send + Sync + 'a,
    C: SeatCalls + Send + Sync + 'a,
    J: Naming + Send + Sync + 'a,
    R: Threads + Wait + Sync + 'a,
    S: Sink + Send + Drop + 'a,
    G: Gate + Sync + 'a,
>(
    scope: &'s Scope<'s, &'a ()>,
    rt: &'a R,
    shared: &'a Shared<'a, D, C, G>,
    station: &'a Station,
    gear: Gear<C, J, S>,
) -> Result<Lane<J, C>, UnitFault> {
    let ((ring, jobs), forwarder) = worker_parts(shared.alloc, shared.settings, station.number)?;
    let worker = WorkerThread {
        ring: jobs,
        forwarder,
        gear,
        house: shared.house,
        gate: shared.gate,
        station,
        recess: shared.counts.recess(),
    };
    let thread = spawn(scope, rt, worker)?;
    Ok(Lane {
        ring,
        put: 0,
        unwoken: 0,
        thread,
    })
}

/// The ring of the worker with this number, and what forwards for it.
fn worker_parts<J: Naming>(
    alloc: Global,
    settings: &Settings,
    number: u16,
) -> Result<(RingEnds<J>, Forwarder), AllocError> {
    let ring = new_ring(alloc)?;
    Ok((ring, Forwarder::new(alloc, settings, number)?))
}

/// Runs a worker in a thread of its own.
fn spawn<
    's,
    'a: 's,
    D: DeskCalls + Send + Sync + 'a,
    C: SeatCalls + Send + Sync + 'a,
    J: Naming + Send + Sync + 'a,
    R: Threads + Wait + Sync + 'a,
    S: Sink + Send + Drop + 'a,
    G: Gate + Sync + 'a,
>(
    scope: &'s Scope<'s, &'a ()>,
    rt: &'a R,
    worker: WorkerThread<'a, D, C, J, S, G>,
) -> Result<JoinHandle<DeskSeat<C>>, UnitFault> {
    match scope.spawn(move || worker.run(rt)) {
        Ok(thread) => Ok(thread),
        Err(_) => Err(UnitFault::Start),
    }
}
