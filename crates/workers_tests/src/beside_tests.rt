//! The unit in threads, the unit in one thread and the machine beside each other: the same events, and sinks that are told the same.

ghost use Rattle.std.specs.Prelude.{◌+◌, None};

use crate::doubles::Moved;
use crate::machine_turns::{TICK_MS, Tellings, play};
use crate::random_turns::{Plan, Turn, WORKERS, make_turns, room, room_with};
use crate::runs::{Counts, run_in_one, run_in_threads};
use crate::told::Told;
use crate::turn_doubles::{Counting, ROOM, RingSink, Stage, Turned, sink_and_end};
use ports::{Pace, Timed, Unwatched};
use rtrb::Consumer;
use settings::Settings;
use std::alloc::{AllocError, Global};
use std::sync::Wait;
use std::test::Fail;
use std::thread::Threads;
use workers::Outside;

/// Turns that are never calm.
const RESTLESS: Plan = Plan {
    turns: 2_000,
    restless_each: 1,
    least_sent: 1,
};

/// Turns that are calm but for each 128th: those between fit a worker's ring.
const CALM: Plan = Plan {
    turns: 6_000,
    restless_each: 128,
    least_sent: 0,
};

/// A tick at each of the turns.
fn pace_of(turns: &[Turn]) -> Pace {
    Pace {
        turns: turns.len() as u64,
        tick_ms: TICK_MS,
    }
}

/// Runs the unit over the turns, in threads.
fn run_turns<R: Threads + Wait + Sync>(
    rt: &R,
    alloc: Global,
    settings: &Settings,
    turns: &[Turn],
    stage: &Stage,
    sinks: Vec<RingSink<'_>>,
) -> Result<Counts, Fail> {
    let clock = Moved {
        moment: &stage.moment,
    };
    let outside = Outside {
        feed: Turned::new(turns, stage),
        sinks,
        clock: Timed::by(clock),
        watch: Unwatched,
    };
    let gate = Counting { stage };
    let ran = run_in_threads(rt, alloc, settings, outside, &gate, pace_of(turns))?;
    Ok(ran?)
}

/// The same in one thread, which has one worker. Says how many datagrams were sent.
fn run_alone(
    alloc: Global,
    turns: &[Turn],
    stage: &Stage,
    sink: &mut RingSink<'_>,
) -> Result<u64, Fail> {
    let settings = room_with(alloc, 1)?;
    let mut feed = Turned::new(turns, stage);
    let mut clock = Timed::by(Moved {
        moment: &stage.moment,
    });
    let [_heard, sent, ..] = run_in_one(
        alloc,
        &settings,
        &mut feed,
        sink,
        &mut clock,
        &mut Unwatched,
        pace_of(turns),
    )?;
    Ok(sent)
}

/// What a sink handed on is this, in order. Says how many datagrams are in it.
fn count_same(told: &[Told], handed: &mut Consumer<Told, Global>) -> Option<u64> {
    let mut datagrams: u64 = 0;
    for one in told {
        if !handed.pop().ok()?.is(one) {
            return None;
        }
        if one.is_datagram() {
            datagrams = datagrams.wrapping_add(1);
        }
    }
    if handed.pop().is_ok() {
        return None;
    }
    Some(datagrams)
}

/// The same of each sink, each of whom was handed at least so many datagrams. Says how many are in all of it.
fn count_all(
    told: &Tellings,
    handed: &mut Vec<Consumer<Told, Global>>,
    least_sent: u64,
) -> Option<u64> {
    let mut datagrams: u64 = 0;
    for (list, end) in told.iter().zip(handed) {
        let same = count_same(list.as_slice(), end)?;
        if same < least_sent {
            return None;
        }
        datagrams = datagrams.wrapping_add(same);
    }
    Some(datagrams)
}

/// Whether what one sink handed on is what these were told, each in its turn, that of each of them in its order.
fn is_merged(
    alloc: Global,
    told: &Tellings,
    handed: &mut Consumer<Told, Global>,
) -> Result<bool, AllocError> {
    let mut counts: Vec<usize> = vec![in alloc; 0; told.len()]?;
    for _one in 0..ROOM {
        let Ok(one) = handed.pop() else {
            break;
        };
        if !takes_next(told, counts.as_mut_slice(), &one) {
            return Ok(false);
        }
    }
    for (list, count) in told.iter().zip(counts.iter()) {
        if list.len() != *count {
            return Ok(false);
        }
    }
    Ok(true)
}

/// Counts one more of those that were told this next, if there is one.
fn takes_next(told: &Tellings, counts: &mut [usize], one: &Told) -> bool {
    for (list, count) in told.iter().zip(counts.iter_mut()) {
        if let Some(next) = list.get(*count) {
            if next.turn == one.turn && next.is(one) {
                *count = count.wrapping_add(1);
                return true;
            }
        }
    }
    false
}

/// So many sinks, and where what each is told comes out.
type Ends<'a> = (Vec<RingSink<'a>>, Vec<Consumer<Told, Global>>);

fn sinks_and_ends(alloc: Global, stage: &Stage) -> Result<Ends<'_>, AllocError> {
    let (mut sinks, mut ends) = (Vec::new(alloc), Vec::new(alloc));
    for _sink in 0..WORKERS + 1 {
        let (sink, end) = sink_and_end(alloc, stage)?;
        sinks.push(sink)?;
        ends.push(end)?;
    }
    Ok((sinks, ends))
}

/// Plays the turns in threads, where sinks are told the same. Says how many datagrams were sent.
fn in_threads<R: Threads + Wait + Sync>(
    rt: &R,
    alloc: Global,
    settings: &Settings,
    turns: &[Turn],
    told: &Tellings,
    least_sent: u64,
) -> Result<u64, Fail> {
    let stage = Stage::new(0);
    let (sinks, mut ends) = sinks_and_ends(alloc, &stage)?;
    let [_heard, sent, failed, lost, dropped, _desks] = run_turns(
        rt, alloc, settings, turns, &stage, sinks,
    )?;
    if count_all(told, &mut ends, least_sent) != Some(sent)
        || (failed, lost, dropped) != (0, 0, 0)
    {
        return Err("sinks are told other things in threads, or other counts".into());
    }
    Ok(sent)
}

/// Plays the turns in one thread, where the sink is told the same, and so many datagrams are sent.
fn in_one_thread(alloc: Global, turns: &[Turn], told: &Tellings, sent: u64) -> Result<(), Fail> {
    let stage = Stage::new(u64::MAX);
    let (mut sink, mut end) = sink_and_end(alloc, &stage)?;
    let sent_alone = run_alone(alloc, turns, &stage, &mut sink)?;
    if sent_alone != sent || !is_merged(alloc, told, &mut end)? {
        return Err("the sink is told other things in one thread, or another count".into());
    }
    Ok(())
}

/// Both.
fn in_both<R: Threads + Wait + Sync>(
    rt: &R,
    alloc: Global,
    settings: &Settings,
    turns: &[Turn],
    told: &Tellings,
    least_sent: u64,
) -> Result<(), Fail> {
    let sent = in_threads(rt, alloc, settings, turns, told, least_sent)?;
    in_one_thread(alloc, turns, told, sent)
}

/// Plays the turns of a seed three times: with the machine, in threads and in one thread.
fn play_beside<R: Threads + Wait + Sync>(
    rt: &R,
    alloc: Global,
    settings: &Settings,
    seed: u64,
    plan: Plan,
) -> Result<(), Fail> {
    let mut turns = make_turns(alloc, seed, plan)?;
    let told = play(alloc, settings, &mut turns)?;
    in_both(
        rt,
        alloc,
        settings,
        turns.as_slice(),
        &told,
        plan.least_sent,
    )
}

#[test]
fn unit_beside_machine(rt: HostRuntime) -> Result<(), Fail> {
    let alloc = rt.alloc();
    let settings = room(alloc)?;
    for seed in 0..4 {
        play_beside(&rt, alloc, &settings, seed, RESTLESS)?;
    }
    for seed in 1_000..1_002 {
        play_beside(&rt, alloc, &settings, seed, CALM)?;
    }
    Ok(())
}
