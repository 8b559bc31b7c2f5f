//! A run of the unit on UDP sockets: in one thread, or with a thread for each worker.

ghost use Rattle.std.specs.Prelude.{◌≡◌, ◌+◌, length, vec_len, IfOk};
ghost use Rattle.settings.specs.Settings.{IsInRange};
ghost use Rattle.rate_desk.specs.Gathered.{AreDesksOf};
ghost use Rattle.serving.specs.DrivenReport.{IsDrivenReport};

use crate::ends::{Common, Ends, door_on, watch_on};
use crate::serve_fault::ServeFault;
use addresses::Client;
use entrance::Entrance;
use operations::RunStatus;
use policy::Rules;
use settings::Settings;
use std::alloc::Global;
use std::sync::Wait;
use std::thread::Threads;
use std::time;
use udp::{SocketSink, Sockets, say_goodbyes, socket_sinks};
use workers::{Open, Pace, Report, Watch};

/// Runs the unit on the sockets for so many turns: in this thread if there is one worker, else with a thread for each. If somebody has it
/// stopped, each endpoint that is present is sent a BYE of the unit and of the legs to it (`goodbye_of`), which isn't counted in the
/// report.
pub fn run_on<R: AllocGlobal + Threads + Wait + Sync + time::Clock, W: Watch + Drop>(
    rt: &R,
    sockets: Sockets<'_>,
    settings: &Settings,
    clients: &[Client],
    rules: Rules,
    pace: Pace,
    run_status: &RunStatus,
    watch: W,
) -> Result<Report, ServeFault>
    ensures report { IfOk result (λ r. AreDesksOf settings.now.pli_gap_ms settings.now.request_ms
        (length settings.now.endpoints) r.desks.items) }
    ensures range { IfOk result (λ _. IsInRange settings.now) }
    ensures driven { settings.now.workers ≡ 1
        → IfOk result (IsDrivenReport settings.now pace.tick_ms pace.turns) }
{
    if !sockets.waits_a_little() {
        return Err(ServeFault::Socket);
    }
    let alloc = rt.alloc();
    let common = Common::new(alloc, settings, clients, rules)?;
    let ends = Ends {
        sockets,
        clients,
        rules,
        common: &common,
    };
    let report = run_by_workers(rt, ends, settings, pace, run_status, watch)?;
    leave(alloc, sockets, settings, run_status, &common);
    Ok(report)
}

/// Notes the last numbers of the legs, and sends BYEs to who was present when somebody had the unit stopped.
fn leave(
    alloc: Global,
    sockets: Sockets<'_>,
    settings: &Settings,
    run_status: &RunStatus,
    common: &Common,
) {
    run_status.note_numbers(run_status.moment_ms.get(), &common.traffic);
    if let Some(present) = run_status.present_at_stop() {
        let mut sink = SocketSink::new(alloc, sockets, &common.directory, &common.traffic);
        say_goodbyes(alloc, settings, present.as_slice(), &mut sink);
    }
}

/// Runs the unit over these ends: in this thread if there is one worker, else with a thread for each.
fn run_by_workers<R: AllocGlobal + Threads + Wait + Sync + time::Clock, W: Watch + Drop>(
    rt: &R,
    ends: Ends<'_>,
    settings: &Settings,
    pace: Pace,
    run_status: &RunStatus,
    watch: W,
) -> Result<Report, ServeFault>
    ensures report { IfOk result (λ r. AreDesksOf settings.now.pli_gap_ms settings.now.request_ms
        (length settings.now.endpoints) r.desks.items) }
    ensures range { IfOk result (λ _. IsInRange settings.now) }
    ensures driven { settings.now.workers ≡ 1
        → IfOk result (IsDrivenReport settings.now pace.tick_ms pace.turns) }
{
    if settings.workers() == 1 {
        run_in_this_thread(rt, ends, settings, pace, run_status, watch)
    } else {
        run_on_threads(rt, ends, settings, pace, run_status, watch)
    }
}

/// Runs the machine itself: what it gives out for what comes to the sockets goes out there.
fn run_in_this_thread<R: AllocGlobal + time::Clock, W: Watch + Drop>(
    rt: &R,
    ends: Ends<'_>,
    settings: &Settings,
    pace: Pace,
    run_status: &RunStatus,
    watch: W,
) -> Result<Report, ServeFault>
    requires { settings.now.workers ≡ 1 }
    ensures report { IfOk result (λ r. AreDesksOf settings.now.pli_gap_ms settings.now.request_ms
        (length settings.now.endpoints) r.desks.items) }
    ensures driven { IfOk result (IsDrivenReport settings.now pace.tick_ms pace.turns) }
{
    let watch = watch_on(rt.alloc(), ends, settings, run_status, watch)?;
    run_watched_here(rt, ends, settings, pace, run_status, watch)
}

/// The same, once there is who looks at it all.
fn run_watched_here<R: AllocGlobal + time::Clock, W: Watch + Drop>(
    rt: &R,
    ends: Ends<'_>,
    settings: &Settings,
    pace: Pace,
    run_status: &RunStatus,
    watch: W,
) -> Result<Report, ServeFault>
    requires { settings.now.workers ≡ 1 }
    ensures report { IfOk result (λ r. AreDesksOf settings.now.pli_gap_ms settings.now.request_ms
        (length settings.now.endpoints) r.desks.items) }
    ensures driven { IfOk result (IsDrivenReport settings.now pace.tick_ms pace.turns) }
{
    let door = door_on(rt, ends, settings, run_status)?;
    drive(rt.alloc(), ends, settings, pace, door, watch)
}

/// Drives the machine through this entrance, with this watch.
fn drive<E: Entrance + Drop, W: Watch + Drop>(
    alloc: Global,
    ends: Ends<'_>,
    settings: &Settings,
    pace: Pace,
    entrance: E,
    watch: W,
) -> Result<Report, ServeFault>
    requires { settings.now.workers ≡ 1 }
    ensures report { IfOk result (λ r. AreDesksOf settings.now.pli_gap_ms settings.now.request_ms
        (length settings.now.endpoints) r.desks.items) }
    ensures driven { IfOk result (IsDrivenReport settings.now pace.tick_ms pace.turns) }
{
    let Common {
        directory,
        traffic,
        ..
    } = ends.common;
    let (mut entrance, mut watch) = (entrance, watch);
    let mut sink = SocketSink::new(alloc, ends.sockets, directory, traffic);
    match one_thread::run_through(alloc, settings, &mut entrance, &mut sink, &mut watch, pace) {
        Ok(report) => Ok(report_of(report)),
        Err(fault) => Err(ServeFault::from(fault)),
    }
}

/// What a run in one thread came to; no job is ever lost or dropped there.
fn report_of(report: one_thread::Report) -> Report
    ensures desks { result.desks ≡ report.desks }
    ensures counts { (result.heard ≡ report.counts.heard) × (result.sent ≡ report.counts.sent)
        × (result.failed ≡ report.counts.failed) }
    ensures none { (result.lost ≡ 0) × (result.dropped ≡ 0) }
{
    let one_thread::Report { counts, desks } = report;
    Report {
        heard: counts.heard,
        sent: counts.sent,
        failed: counts.failed,
        lost: 0,
        dropped: 0,
        desks,
    }
}

/// Runs the unit with a thread for each worker.
fn run_on_threads<R: AllocGlobal + Threads + Wait + Sync + time::Clock, W: Watch + Drop>(
    rt: &R,
    ends: Ends<'_>,
    settings: &Settings,
    pace: Pace,
    run_status: &RunStatus,
    watch: W,
) -> Result<Report, ServeFault>
    ensures report { IfOk result (λ r. AreDesksOf settings.now.pli_gap_ms settings.now.request_ms
        (length settings.now.endpoints) r.desks.items) }
    ensures range { IfOk result (λ _. IsInRange settings.now) }
{
    let watch = watch_on(rt.alloc(), ends, settings, run_status, watch)?;
    run_watched_on_threads(rt, ends, settings, pace, run_status, watch)
}

/// The same, once there is who looks at it all.
fn run_watched_on_threads<R: AllocGlobal + Threads + Wait + Sync + time::Clock, W: Watch + Drop>(
    rt: &R,
    ends: Ends<'_>,
    settings: &Settings,
    pace: Pace,
    run_status: &RunStatus,
    watch: W,
) -> Result<Report, ServeFault>
    ensures report { IfOk result (λ r. AreDesksOf settings.now.pli_gap_ms settings.now.request_ms
        (length settings.now.endpoints) r.desks.items) }
    ensures range { IfOk result (λ _. IsInRange settings.now) }
{
    let alloc = rt.alloc();
    let count = settings.workers() as usize + 1;
    let Common {
        directory,
        traffic,
        ..
    } = ends.common;
    let sinks = socket_sinks(alloc, ends.sockets, directory, traffic, count)?;
    let door = door_on(rt, ends, settings, run_status)?;
    match workers::run_through(rt, alloc, settings, door, sinks, watch, &Open, pace) {
        Ok(report) => Ok(report),
        Err(fault) => Err(ServeFault::from(fault)),
    }
}
