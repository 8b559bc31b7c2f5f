//! Runs of the unit. Each of its calls stands in one function, which promises nothing, so that no test is proved beside what they promise.

ghost use Rattle.std.specs.Prelude.{◌+◌};

use one_thread::run_one_thread;
use settings::Settings;
use std::alloc::Global;
use std::sync::Wait;
use std::test::Fail;
use std::thread::Threads;
use workers::*;

/// What was heard, sent, failed, lost and dropped, and how many desks there are.
pub(super) type Counts = [u64; 6];

fn counts_of(ran: Result<Report, UnitFault>) -> Result<Counts, UnitFault> {
    let report = ran?;
    Ok([
        report.heard,
        report.sent,
        report.failed,
        report.lost,
        report.dropped,
        report.desks.len() as u64,
    ])
}

/// Runs the unit in threads over a source, for so many turns. There has to be a sink for each worker, and one for the ingress.
pub(super) fn run_by_source<
    R: Threads + Wait + Sync,
    Src: Source + Drop,
    Snk: Sink + Send + Drop,
    Clk: Clock + Drop,
    G: Gate + Sync,
>(
    rt: &R,
    alloc: Global,
    settings: &Settings,
    source: Src,
    sinks: Vec<Snk>,
    clock: Clk,
    gate: &G,
    turns: u64,
) -> Result<Result<Counts, UnitFault>, Fail> {
    if sinks.len() as u64 != settings.workers() + 1 {
        return Err("sinks".into());
    }
    let ran = run_unit(rt, alloc, settings, source, sinks, clock, gate, turns);
    Ok(counts_of(ran))
}

/// The same over a feed, at a pace, while somebody watches.
pub(super) fn run_in_threads<
    R: Threads + Wait + Sync,
    F: Feed + Drop,
    Snk: Sink + Send + Drop,
    Clk: Timekeeper + Drop,
    W: Watch + Drop,
    G: Gate + Sync,
>(
    rt: &R,
    alloc: Global,
    settings: &Settings,
    outside: Outside<F, Snk, Clk, W>,
    gate: &G,
    pace: Pace,
) -> Result<Result<Counts, UnitFault>, Fail> {
    if outside.sinks.len() as u64 != settings.workers() + 1 {
        return Err("sinks".into());
    }
    let ran = run_watched(rt, alloc, settings, outside, gate, pace);
    Ok(counts_of(ran))
}

/// The same in one thread, which has one worker. What was heard, sent and failed, and how many desks there are.
pub(super) fn run_in_one<F: Feed, Snk: Sink, Clk: Timekeeper, W: Watch>(
    alloc: Global,
    settings: &Settings,
    feed: &mut F,
    sink: &mut Snk,
    clock: &mut Clk,
    watch: &mut W,
    pace: Pace,
) -> Result<[u64; 4], Fail> {
    if settings.workers() != 1 {
        return Err("workers".into());
    }
    match run_one_thread(alloc, settings, feed, sink, clock, watch, pace) {
        Ok(report) => {
            let counts = &report.counts;
            let desks = report.desks.len() as u64;
            Ok([counts.heard, counts.sent, counts.failed, desks])
        }
        Err(_) => Err("a run".into()),
    }
}
