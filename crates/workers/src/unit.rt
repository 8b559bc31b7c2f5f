//! The unit that runs: workers in threads of their own, beside the ingress in this one.

ghost use Rattle.std.specs.Prelude.{◌≡◌, ◌+◌, length, vec_len, IfOk};
ghost use Rattle.rate_desk.specs.Gathered.{AreDesksOf};

use crate::given::Outside;
use desk::Desk;
use entrance::{Direct, Entrance, Kept};
use ports::{
    Clock, Fed, Feed, Gate, Pace, Sink, Source, Status, Timed, Timekeeper, Unwatched, Watch,
};
use rate_desk::{DeskCalls, House, SeatCalls};
use routes::Naming;
use settings::Settings;
use std::alloc::Global;
use std::marker::Brand;
use std::sync::Wait;
use std::sync::ledger::Blank;
use std::thread::Threads;
use worker_threads::{Counts, Inlet, Shared, UnitFault, run_scoped};

/// What a run came to. Each count stays at `u64::MAX` once there.
#[derive(Drop)]
pub struct Report {
    /// How many datagrams came from endpoints.
    pub heard: u64,
    /// How many datagrams were sent.
    pub sent: u64,
    /// How many datagrams couldn't be sent.
    pub failed: u64,
    /// How many jobs no worker got, since its ring was full.
    pub lost: u64,
    /// How many jobs were taken and given up, and how many notifications, for want of a view or of memory.
    pub dropped: u64,
    /// The desk of each publisher, by its number.
    pub desks: Vec<Desk>,
}

/// Each turn makes a tick, unless the moment fell.
const TICK_MS: u64 = 0;

/// Runs the unit for so many turns, each one receive and one tick, with all that follows. Each worker sends on its legs in
/// a thread of its own, and calls the gate before and after each job. After the turns each worker does the jobs that wait,
/// all threads end, and the desks are gathered.
///
/// Refused with the first fault that comes: `Receive` if 100 receives in a row failed; `Start` if no thread could be
/// started, or a reader of the routes found no place; `Gather` if the desks don't agree with what was counted;
/// `NoMemory` if memory was wanting, but in a worker. All threads end then, too.
pub fn run_unit<
    R: Threads + Wait + Sync,
    Src: Source + Drop,
    Snk: Sink + Send + Drop,
    Clk: Clock + Drop,
    G: Gate + Sync,
>(
    rt: &R,
    alloc: Global,
    settings: &Settings,
    source: Src,
    sinks: Vec<Snk>,
    clock: Clk,
    gate: &G,
    turns: u64,
) -> Result<Report, UnitFault>
    requires { vec_len sinks ≡ settings.now.workers + 1 }
    ensures { IfOk result (λ r. AreDesksOf settings.now.pli_gap_ms settings.now.request_ms
        (length settings.now.endpoints) r.desks.items) }
{
    let outside = Outside {
        feed: Fed::by(source),
        sinks,
        clock: Timed::by(clock),
        watch: Unwatched,
    };
    let pace = Pace {
        turns,
        tick_ms: TICK_MS,
    };
    run_watched(rt, alloc, settings, outside, gate, pace)
}

/// `run_unit`, while somebody watches, at a pace, with a feed in place of a source: what comes may be a leg that is switched, too, and
/// a turn in which a stop came is the last.
pub fn run_watched<
    R: Threads + Wait + Sync,
    F: Feed + Drop,
    Snk: Sink + Send + Drop,
    Clk: Timekeeper + Drop,
    W: Watch + Drop,
    G: Gate + Sync,
>(
    rt: &R,
    alloc: Global,
    settings: &Settings,
    outside: Outside<F, Snk, Clk, W>,
    gate: &G,
    pace: Pace,
) -> Result<Report, UnitFault>
    requires { vec_len outside.sinks ≡ settings.now.workers + 1 }
    ensures { IfOk result (λ r. AreDesksOf settings.now.pli_gap_ms settings.now.request_ms
        (length settings.now.endpoints) r.desks.items) }
{
    let Outside {
        feed,
        sinks,
        clock,
        watch,
    } = outside;
    let (mut feed, mut clock) = (feed, clock);
    let mut kept = Kept::new(alloc)?;
    let entrance = Direct::new(&mut feed, &mut clock, &mut kept);
    run_through(rt, alloc, settings, entrance, sinks, watch, gate, pace)
}

/// The same, with all that an entrance lets in. There is a sink for each worker, by its number, and last one for the ingress, which runs in
/// this thread, with the entrance and the watch.
pub fn run_through<
    R: Threads + Wait + Sync,
    E: Entrance + Drop,
    Snk: Sink + Send + Drop,
    W: Watch + Drop,
    G: Gate + Sync,
>(
    rt: &R,
    alloc: Global,
    settings: &Settings,
    entrance: E,
    sinks: Vec<Snk>,
    watch: W,
    gate: &G,
    pace: Pace,
) -> Result<Report, UnitFault>
    requires { vec_len sinks ≡ settings.now.workers + 1 }
    ensures { IfOk result (λ r. AreDesksOf settings.now.pli_gap_ms settings.now.request_ms
        (length settings.now.endpoints) r.desks.items) }
{
    let endpoints = settings.endpoints().len();
    let workers = settings.workers();
    let legs = settings.legs().len() as u16;
    let counts = Counts::new(alloc, workers as u16)?;
    run_named::<Brand, Brand, Brand, R, E, Snk, W, G>(
        rt,
        alloc,
        settings,
        Blank::new(endpoints as u64),
        Blank::new(workers + 1),
        routes::Blank::new(legs),
        sinks,
        Inlet::new(entrance, watch),
        gate,
        &counts,
        pace,
    )
}

/// Runs the unit, whose ledgers and table are named.
fn run_named<
    D: DeskCalls + Send + Sync,
    C: SeatCalls + Send + Sync,
    J: Naming + Send + Sync,
    R: Threads + Wait + Sync,
    E: Entrance + Drop,
    Snk: Sink + Send + Drop,
    W: Watch + Drop,
    G: Gate + Sync,
>(
    rt: &R,
    alloc: Global,
    settings: &Settings,
    recorded: Blank,
    made: Blank,
    table: routes::Blank,
    sinks: Vec<Snk>,
    inlet: Inlet<E, W>,
    gate: &G,
    counts: &Counts,
    pace: Pace,
) -> Result<Report, UnitFault>
    requires recorded { (recorded.name ≡ D.name) × (recorded.parts ≡ D.parts) }
    requires made { (made.name ≡ C.name) × (made.parts ≡ C.parts) }
    requires desks { (recorded.parts ≡ length settings.now.endpoints)
        × (C.publishers ≡ length settings.now.endpoints) }
    requires seats { (made.parts ≡ settings.now.workers + 1)
        × (C.seats ≡ settings.now.workers + 1) }
    requires periods { (D.gap ≡ settings.now.pli_gap_ms)
        × (D.request_ms ≡ settings.now.request_ms) }
    requires table { (table.book ≡ J.book) × (table.legs ≡ J.legs) }
    requires sinks { vec_len sinks ≡ settings.now.workers + 1 }
    ensures { IfOk result (λ r. AreDesksOf settings.now.pli_gap_ms settings.now.request_ms
        (length settings.now.endpoints) r.desks.items) }
{
    let (house, seats) = House::<D, C>::new(
        alloc,
        recorded,
        made,
        settings.endpoints().len(),
        settings.workers() as usize + 1,
        settings.pli_gap_ms(),
        settings.request_ms(),
    )?;
    let shared = Shared {
        alloc,
        settings,
        house: &house,
        gate,
        counts,
    };
    let seats = run_scoped::<D, C, J, R, E, Snk, W, G>(
        rt, &shared, table, seats, sinks, inlet, pace,
    )?;
    let desks = house.gather(seats, &[])?;
    Ok(report_of(&counts.status(), desks))
}

/// The report of a unit with these totals and desks.
fn report_of(status: &Status, desks: Vec<Desk>) -> Report
    ensures { result ≡ record {
      heard = status.now.heard;
      sent = status.now.sent;
      failed = status.now.failed;
      lost = status.now.lost;
      dropped = status.now.dropped;
      desks = desks;
    } }
{
    Report {
        heard: status.heard,
        sent: status.sent,
        failed: status.failed,
        lost: status.lost,
        dropped: status.dropped,
        desks,
    }
}
