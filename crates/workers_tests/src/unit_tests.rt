//! Whole runs of the unit, on threads.

ghost use Rattle.std.specs.Prelude.{◌+◌};

use crate::doubles::{
    Cue, Datagrams, OpenGate, Pairing, RisingClock, Script, StoppedClock, Until, sinks_of,
};
use crate::expected::same;
use crate::rooms::{ONE_IDLE, ONE_WORKER, Room, TIMES, TWO_WORKERS, Times};
use crate::runs::{Counts, run_by_source, run_in_threads};
use std::alloc::Global;
use std::sync::Wait;
use std::sync::atomic::{AtomicBool, Ordering};
use std::test::Fail;
use std::thread::Threads;
use workers::*;

/// Runs a room over the datagrams of a script, for so many turns.
fn run_room<R: Threads + Wait + Sync, C: Clock + Drop, G: Gate + Sync>(
    rt: &R,
    alloc: Global,
    room: &Room,
    script: Script<'_>,
    clock: C,
    gate: &G,
    turns: u64,
) -> Result<Result<Counts, UnitFault>, Fail> {
    let settings = room.settings(alloc)?;
    let sinks = sinks_of(alloc, settings.workers() + 1, room.to_fail)?;
    let source = Datagrams { script };
    run_by_source(rt, alloc, &settings, source, sinks, clock, gate, turns)
}

#[test]
fn gate_two_workers(rt: HostRuntime) -> Result<(), Fail> {
    let (is_played, gate) = (AtomicBool::new(false), Pairing::new());
    let cues = [
        (1, Cue::Report(0)),
        (1, Cue::Report(1)),
        (1, Cue::Media(2, 7)),
    ];
    let script = Script::of(&cues, &is_played);
    let ran = run_room(
        &rt,
        rt.alloc(),
        &TWO_WORKERS,
        script,
        StoppedClock,
        &gate,
        3,
    )?;
    same(&rt, &ran, &Ok([3, 2, 0, 0, 0, 3]));
    assert!(rt; gate.all_met());
    Ok(())
}

#[test]
fn stop_behind_full_ring(rt: HostRuntime) -> Result<(), Fail> {
    let is_played = AtomicBool::new(false);
    let gate = Until {
        has_come: &is_played,
    };
    let cues = [(1, Cue::Report(1)), (2_000, Cue::Media(0, 0))];
    let script = Script::of(&cues, &is_played);
    let ran = run_room(
        &rt,
        rt.alloc(),
        &ONE_WORKER,
        script,
        StoppedClock,
        &gate,
        2_002,
    )?;
    let [heard, sent, failed, lost, dropped, _] = ran?;
    assert!(rt; lost == 975 || lost == 976, "{lost}");
    let counts = [heard, sent.wrapping_add(lost), failed, dropped];
    same(&rt, &counts, &[2_001, 2_000, 0, 0]);
    Ok(())
}

/// Runs a room over a whole script, for so many turns.
fn run_script<R: Threads + Wait + Sync>(
    rt: &R,
    alloc: Global,
    room: &Room,
    script: Script<'_>,
    turns: u64,
) -> Result<Result<Counts, UnitFault>, Fail> {
    let settings = room.settings(alloc)?;
    let sinks = sinks_of(alloc, settings.workers() + 1, room.to_fail)?;
    let outside = Outside {
        feed: script,
        sinks,
        clock: Timed::by(StoppedClock),
        watch: Unwatched,
    };
    let pace = Pace { turns, tick_ms: 0 };
    run_in_threads(rt, alloc, &settings, outside, &OpenGate, pace)
}

/// A stop ends the run: what came before is sent, and what comes after isn't heard.
#[test]
fn stops_on_threads(rt: HostRuntime) -> Result<(), Fail> {
    let is_played = AtomicBool::new(false);
    let cues = [
        (1, Cue::Report(1)),
        (1, Cue::Media(0, 7)),
        (1, Cue::Stop),
        (1, Cue::Media(0, 8)),
    ];
    let script = Script::of(&cues, &is_played);
    let ran = run_script(&rt, rt.alloc(), &ONE_IDLE, script, 200)?;
    same(&rt, &ran, &Ok([2, 1, 0, 0, 0, 2]));
    assert!(rt; !is_played.load(Ordering::SeqCst));
    Ok(())
}

/// So many receives fail, and then a datagram comes.
fn run_faults<R: Threads + Wait + Sync>(
    rt: &R,
    alloc: Global,
    faults: u16,
) -> Result<Result<Counts, UnitFault>, Fail> {
    let is_played = AtomicBool::new(false);
    let cues = [(faults, Cue::Fault), (1, Cue::Report(1))];
    let script = Script::of(&cues, &is_played);
    run_room(rt, alloc, &ONE_IDLE, script, StoppedClock, &OpenGate, 200)
}

#[test]
fn receive_faults(rt: HostRuntime) -> Result<(), Fail> {
    let runs = [
        run_faults(&rt, rt.alloc(), 99)?,
        run_faults(&rt, rt.alloc(), 100)?,
    ];
    same(
        &rt,
        &runs,
        &[Ok([1, 0, 0, 0, 0, 2]), Err(UnitFault::Receive)],
    );
    same(&rt, &UnitFault::Receive.number(), &2);
    Ok(())
}

/// Two endpoints say that they are there, and the third sends six packets. Of the twelve datagrams that two workers send, the first two
/// of one and the first three of the other fail.
#[test]
fn each_count_by_its_name(rt: HostRuntime) -> Result<(), Fail> {
    let room = Room {
        to_fail: &[2, 3, 1],
        ..TWO_WORKERS
    };
    let is_played = AtomicBool::new(false);
    let cues = [
        (1, Cue::Report(0)),
        (1, Cue::Report(1)),
        (6, Cue::Media(2, 0)),
    ];
    let script = Script::of(&cues, &is_played);
    let ran = run_room(&rt, rt.alloc(), &room, script, StoppedClock, &OpenGate, 8)?;
    same(&rt, &ran, &Ok([8, 7, 5, 0, 0, 3]));
    Ok(())
}

/// How many datagrams the unit sends if a publisher comes, and so many receives fail after that. A report is due each second.
fn sent_beside_faults<R: Threads + Wait + Sync>(
    rt: &R,
    alloc: Global,
    faults: u16,
) -> Result<u64, Fail> {
    let room = Room {
        times: Times {
            timeout: 60_000,
            report: 1_000,
            ..TIMES
        },
        ..ONE_WORKER
    };
    let is_played = AtomicBool::new(false);
    let cues = [(1, Cue::Media(0, 7)), (faults, Cue::Fault)];
    let script = Script::of(&cues, &is_played);
    let clock = RisingClock { moment: 0 };
    let turns = u64::from(faults) + 1;
    let [_, sent, ..] = run_room(rt, alloc, &room, script, clock, &OpenGate, turns)??;
    Ok(sent)
}

/// A report to the publisher that is due while receives fail goes out then: a turn whose receive failed has its tick.
#[test]
fn reports_while_receives_fail(rt: HostRuntime) -> Result<(), Fail> {
    let sent = [
        sent_beside_faults(&rt, rt.alloc(), 0)?,
        sent_beside_faults(&rt, rt.alloc(), 60)?,
    ];
    same(&rt, &sent, &[0, 1]);
    Ok(())
}
