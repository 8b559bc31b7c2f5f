//! What is live once nothing waits, and what needn't be if a job was given up.

use crate::steps::{
    Hear, Ingress, PACKET, REPORT, REQUEST, Step, Tick, ageing_settings, do_step, lines, settings,
    settle,
};
use core_steps::*;
use settings::Settings;
use std::alloc::Global;
use std::fmt::Write;
use std::test::Fail;

/// A step, after which all is done that waits, and who then asks publisher 0 for what.
type Settled = (Step<'static>, &'static str);

/// Examples 21 to 23: a request, a packet and a NACK, a goodbye.
const ONE_AFTER_THE_OTHER: [Settled; 6] = [
    (Hear(0, 0, PACKET), "none"),
    (Hear(0, 1, REPORT), "none"),
    (Hear(10, 1, REQUEST), "17 0007d028"),
    (Hear(30, 0, "8060000800000bb800000010aabb"), "17 0007d028"),
    (
        Hear(40, 1, "81cd0003000000110000010100640001"),
        "17 0007d028",
    ),
    (Hear(50, 1, "81cb000100000011"), "none"),
];

/// Example 44: two entries for one leg, of which the second was heard last.
const TWICE: [Settled; 3] = [
    (Hear(0, 0, PACKET), "none"),
    (Hear(0, 1, REPORT), "none"),
    (
        Hear(
            10,
            1,
            "83cd00060000001100000000000001010007d028000001010007d00a",
        ),
        "17 0007d00a",
    ),
];

/// Example 47: a request that grows too old.
const TOO_OLD: [Settled; 5] = [
    (Hear(0, 0, PACKET), "none"),
    (Hear(0, 1, REPORT), "none"),
    (Hear(10, 1, REQUEST), "17 0007d028"),
    (Tick(999), "17 0007d028"),
    (Tick(1_000), "none"),
];

/// Who asks publisher 0 for what.
fn live_text(alloc: Global, world: &World) -> Result<String, Fail> {
    let mut text = String::new(alloc);
    if world.publishers() == 0 {
        return Err("no publisher".into());
    }
    for request in world.desk(0).live() {
        let word = request.tuple.to_word();
        write!(text, "{} {word:08x}", request.owner.0)?;
    }
    if text.is_empty() {
        text.push_str("none")?;
    }
    Ok(text)
}

/// Whether nothing waits: no task, no job, and nothing in a worker's hand.
fn is_idle(world: &World) -> bool {
    let waiting = world.waiting();
    (waiting.tasks, waiting.jobs, waiting.hands) == (0, 0, 0)
}

/// Whether nothing waits, no job was given up, and nothing was refused.
fn is_quiet(world: &World, outs: &[Out]) -> bool {
    let is_refused = outs.iter().any(|out| matches!(out, Out::Refused(_)));
    is_idle(world) && world.lost() == 0 && !is_refused
}

/// Does these steps, settles after each, and says after which the world isn't quiet, or other requests are live.
fn first_other(alloc: Global, world: &mut World, steps: &[Settled]) -> Result<Option<usize>, Fail> {
    let mut outs = Vec::new(alloc);
    for (place, (step, live)) in steps.iter().enumerate() {
        do_step(alloc, world, step, &mut outs)?;
        settle(world, &mut outs)?;
        let is_live = live_text(alloc, world)?.as_str() == *live;
        if !is_live || !is_quiet(world, outs.as_slice()) {
            return Ok(Some(place));
        }
    }
    Ok(None)
}

/// The same in a new world with these settings.
fn first_other_of(
    alloc: Global,
    settings: &Settings,
    steps: &[Settled],
) -> Result<Option<usize>, Fail> {
    first_other(alloc, &mut World::new(alloc, settings)?, steps)
}

#[test]
fn quiet(rt: HostRuntime) -> Result<(), Fail> {
    let alloc = rt.alloc();
    let (room, ageing) = (settings(alloc)?, ageing_settings(alloc)?);
    let others = [
        first_other_of(alloc, &room, &ONE_AFTER_THE_OTHER)?,
        first_other_of(alloc, &room, &TWICE)?,
        first_other_of(alloc, &ageing, &TOO_OLD)?,
    ];
    assert_eq!(rt; others, [None, None, None]);
    Ok(())
}

/// Both come, and so many jobs wait for worker 1 as may.
fn fill(alloc: Global, world: &mut World, outs: &mut Vec<Out>) -> Result<(), Fail> {
    for step in &[Hear(0, 0, PACKET), Hear(0, 1, REPORT)] {
        do_step(alloc, world, step, outs)?;
        settle(world, outs)?;
    }
    for _job in 0..JOB_LIMIT {
        do_step(alloc, world, &Hear(0, 0, PACKET), outs)?;
        do_step(alloc, world, &Ingress, outs)?;
    }
    Ok(())
}

/// A request comes after that. What its `Ingress` gives out, how many jobs were given up once all is settled, and what is live then.
fn given_up(alloc: Global, world: &mut World) -> Result<String, Fail> {
    let mut outs = Vec::new(alloc);
    fill(alloc, world, &mut outs)?;
    outs.clear();
    do_step(alloc, world, &Hear(0, 1, REQUEST), &mut outs)?;
    do_step(alloc, world, &Ingress, &mut outs)?;
    let mut text = lines(alloc, outs.as_slice())?;
    settle(world, &mut outs)?;
    write!(text, "idle {} lost {}", is_idle(world), world.lost())?;
    write!(text, " live {}", live_text(alloc, world)?)?;
    Ok(text)
}

/// Example 49: the last that was heard in the stay that stands is no request of the desk, since its job was given up.
#[test]
fn premise_needed(rt: HostRuntime) -> Result<(), Fail> {
    let settings = settings(rt.alloc())?;
    let text = given_up(rt.alloc(), &mut World::new(rt.alloc(), &settings)?)?;
    assert_eq!(rt; text.as_str(), "lost 1\nidle true lost 1 live none");
    Ok(())
}
