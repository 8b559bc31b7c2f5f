//! Growths that are refused. Run with `rt try --test --fail-alloc 1.. -- each_growth_refused`, which refuses each in turn.

use crate::steps::{Hear, Ingress, Step, Work, do_events, event_of, lines, settings, shown};
use core_steps::*;
use std::alloc::Global;
use std::process::Abort;
use std::test::Fail;

/// Examples 21 to 23, step by step, and in the end a worker that isn't there, which has nothing to do.
const STEPS: [Step<'static>; 22] = [
    Hear(0, 0, "8060000700000bb800000010aabb"),
    Hear(0, 1, "80c9000100000011"),
    Ingress,
    Ingress,
    Hear(10, 1, "83cd00040000001100000000000001010007d028"),
    Ingress,
    Work(1),
    Work(1),
    Work(1),
    Hear(30, 0, "8060000800000bb800000010aabb"),
    Ingress,
    Work(1),
    Work(1),
    Hear(40, 1, "81cd0003000000110000010100640001"),
    Ingress,
    Work(1),
    Work(1),
    Hear(50, 1, "81cb000100000011"),
    Ingress,
    Ingress,
    Ingress,
    Work(2),
];

/// The events of the examples.
fn events(alloc: Global) -> Option<Vec<Event>> {
    let mut events = Vec::new(alloc);
    for step in &STEPS {
        events.push(event_of(alloc, step).ok()?).ok()?;
    }
    Some(events)
}

fn new_world(alloc: Global) -> Option<World> {
    let settings = settings(alloc).ok()?;
    World::new(alloc, &settings).ok()
}

/// What was given out, and what the world shows.
fn text_of(alloc: Global, world: &World, outs: &[Out]) -> Option<String> {
    let mut text = lines(alloc, outs).ok()?;
    let shown = shown(alloc, world).ok()?;
    text.push_str(shown.as_str()).ok()?;
    Some(text)
}

/// What these events give out in this world, and what it shows after them.
fn after_in(alloc: Global, world: &mut World, events: &[Event]) -> Option<String> {
    let mut outs = Vec::new(alloc);
    do_events(world, events, &mut outs).ok()?;
    text_of(alloc, world, outs.as_slice())
}

/// The same in a new world.
fn after(alloc: Global, events: &[Event]) -> Option<String> {
    let mut world = new_world(alloc)?;
    after_in(alloc, &mut world, events)
}

/// The events of the examples, a world, and what it gave out.
#[derive(Drop)]
struct Trial {
    events: Vec<Event>,
    world: World,
    outs: Vec<Out>,
}

/// The events and a new world, made again if memory was refused for them.
fn begin(alloc: Global) -> Option<Trial> {
    let events = match events(alloc) {
        Some(made) => made,
        None => events(alloc)?,
    };
    let world = match new_world(alloc) {
        Some(world) => world,
        None => new_world(alloc)?,
    };
    let outs = Vec::new(alloc);
    Some(Trial {
        events,
        world,
        outs,
    })
}

/// Does the events. If a growth is refused, outs and world are those of the events before, and the others are done again.
fn go_through(
    rt: &impl Abort,
    alloc: Global,
    world: &mut World,
    events: &[Event],
    outs: &mut Vec<Out>,
) -> Result<(), Fail> {
    if let Err(RunFault::NoMemory { done }) = do_events(world, events, outs) {
        let (before, rest) = events.split_at(done.min(events.len()));
        assert!(rt; !rest.is_empty());
        let (left, wanted) = (text_of(alloc, world, outs.as_slice()), after(alloc, before));
        assert!(rt; left.is_some() && left == wanted, "behind {done} events");
        do_events(world, rest, outs)?;
    }
    Ok(())
}

/// What they left, as text; made again if memory was refused for it.
fn left_by(alloc: Global, world: &World, outs: &[Out]) -> Option<String> {
    match text_of(alloc, world, outs) {
        Some(text) => Some(text),
        None => text_of(alloc, world, outs),
    }
}

/// What they have to leave, likewise.
fn wanted_of(alloc: Global, events: &[Event]) -> Option<String> {
    match after(alloc, events) {
        Some(text) => Some(text),
        None => after(alloc, events),
    }
}

/// They left what they have to leave.
fn is_left(
    rt: &impl Abort,
    alloc: Global,
    world: &World,
    events: &[Event],
    outs: &[Out],
) -> Result<(), Fail> {
    let left = left_by(alloc, world, outs).ok_or("no memory")?;
    let wanted = wanted_of(alloc, events).ok_or("no memory")?;
    assert_eq!(rt; left.as_str(), wanted.as_str());
    assert!(rt; left.as_str().starts_with("send 0 80c9") && left.as_str().contains("\nidle\n"));
    Ok(())
}

/// The events are done, and leave what they have to leave.
fn ends_well(rt: &impl Abort, alloc: Global, trial: &mut Trial) -> Result<(), Fail> {
    let events = trial.events.as_slice();
    go_through(rt, alloc, &mut trial.world, events, &mut trial.outs)?;
    is_left(rt, alloc, &trial.world, events, trial.outs.as_slice())
}

/// Whichever growth is refused, the events of the examples end in what they end in without a refusal.
#[test]
fn each_growth_refused(rt: HostRuntime) -> Result<(), Fail> {
    let mut trial = begin(rt.alloc()).ok_or("no memory")?;
    ends_well(&rt, rt.alloc(), &mut trial)
}
