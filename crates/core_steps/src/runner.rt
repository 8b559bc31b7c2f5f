//! Events in order, each an atomic step.

ghost use Rattle.std.specs.Prelude.{◌≡◌, ℕ, List, ◌<◌, ◌^◌, ◌∷◌, [], length, take, OnOk, OnErr, IfErr};
ghost use Rattle.core_steps.specs.Machine.{Rest, whole, state_of};
ghost use Rattle.events.specs.declared.event.Event.TheVariants.{Hear};
ghost use Rattle.events.specs.declared.output.Out.TheVariants.{Busy};
ghost use Rattle.datagram.specs.Reads.{IsPacketRead, admission_of};
ghost use Rattle.core_steps.specs.Happening.{giving};
ghost use Rattle.core_steps.specs.Hearing.{SaysTaken};
ghost use Rattle.core_steps.specs.OverRuns.{AnnouncesOverRuns, EndsStaysOverRuns, events_done};
ghost use Rattle.core_steps.specs.Quiet.{ObeysQuietLaw};
ghost use Rattle.core_steps.specs.Rule.{Does};
ghost use Rattle.core_steps.specs.Run.{HasRun, Leaves, Stays};
ghost use Rattle.events.specs.RunFaults.{done_of};

use crate::front::Front;
use crate::hearing;
use crate::hearing::select;
use crate::ingress::do_next;
use crate::machine::Machine;
use crate::ticking::tick;
use crate::working::work;
use crate::world::World;
use datagram::{Reading, Taking};
use events::{Event, Out, RunFault};
use std::alloc::AllocError;

/// Does the events in order, and appends what goes out. For want of memory it stops before an event, and nothing of that one was
/// done. Whatever was done since the world was new, in however many calls: each publisher's desk announces the smallest set of the
/// requests that all its calls leave live, and so do the effects that are told (`announced`); once the depart of a stay is done,
/// nothing that was asked for in it is live (`ended`); and if nothing is left to do, no job was given up and no history was full,
/// each live request is the word that was heard last in the stay that stands (`quiet`).
pub fn run(world: &mut World, events: &[Event], outs: &mut Vec<Out>) -> Result<(), RunFault>
    ensures ok { OnOk result (HasRun events.now world.old outs.old.items world.new outs.new.items) }
    ensures announced { AnnouncesOverRuns (events_done result events.now) world.old outs.old.items
        world.new outs.new.items }
    ensures ended { EndsStaysOverRuns (events_done result events.now) world.old outs.old.items
        world.new outs.new.items }
    ensures quiet { ObeysQuietLaw (events_done result events.now) world.old world.new }
    ensures err { IfErr result (λ fault. (done_of fault < length events.now)
        × HasRun (take (done_of fault) events.now) world.old outs.old.items world.new
        outs.new.items) }
{
    run_machine(&mut world.machine, &mut world.reading, events, outs)
}

/// A datagram came from this endpoint at this moment: what `run` does of one `Hear`, without an event that holds its bytes. They are lent, and
/// copied once if a leg may keep them. Refused for want of memory alone; then nothing was done (`err`).
pub fn hear(
    world: &mut World,
    moment: u64,
    endpoint: u16,
    bytes: &[u8],
    outs: &mut Vec<Out>,
) -> Result<(), AllocError>
    ensures ok { OnOk result (HasRun (Hear moment endpoint bytes.now ∷ []) world.old outs.old.items
        world.new outs.new.items) }
    ensures announced { OnOk result (AnnouncesOverRuns (Hear moment endpoint bytes.now ∷ [])
        world.old outs.old.items world.new outs.new.items) }
    ensures ended { OnOk result (EndsStaysOverRuns (Hear moment endpoint bytes.now ∷ [])
        world.old outs.old.items world.new outs.new.items) }
    ensures quiet { OnOk result (ObeysQuietLaw (Hear moment endpoint bytes.now ∷ [])
        world.old world.new) }
    ensures err { OnErr result (Stays world.old outs.old.items world.new outs.new.items) }
{
    hear_or_busy(
        &mut world.machine,
        &mut world.reading,
        moment,
        endpoint,
        bytes,
        outs,
    )
}

/// What a datagram of an endpoint says is taken in at this moment: for each datagram that says it, this is what `hear` does of that. So nothing
/// that is taken in does what no datagram could. Of what no datagram says nothing is promised. Refused for want of memory alone; then nothing was done (`err`).
pub fn take(
    world: &mut World,
    moment: u64,
    taking: Taking<'_>,
    outs: &mut Vec<Out>,
) -> Result<(), AllocError>
    requires read { IsPacketRead taking.bytes.now taking.what }
    ensures ok { (bytes : List ℕ) → SaysTaken world.old (admission_of taking.entry) bytes
        → OnOk result (HasRun (Hear moment taking.entry.endpoint bytes ∷ []) world.old outs.old.items
        world.new outs.new.items) }
    ensures announced { (bytes : List ℕ) → SaysTaken world.old (admission_of taking.entry) bytes
        → OnOk result (AnnouncesOverRuns (Hear moment taking.entry.endpoint bytes ∷ [])
        world.old outs.old.items world.new outs.new.items) }
    ensures ended { (bytes : List ℕ) → SaysTaken world.old (admission_of taking.entry) bytes
        → OnOk result (EndsStaysOverRuns (Hear moment taking.entry.endpoint bytes ∷ [])
        world.old outs.old.items world.new outs.new.items) }
    ensures quiet { (bytes : List ℕ) → SaysTaken world.old (admission_of taking.entry) bytes
        → OnOk result (ObeysQuietLaw (Hear moment taking.entry.endpoint bytes ∷ []) world.old world.new) }
    ensures err { OnErr result (Stays world.old outs.old.items world.new outs.new.items) }
{
    take_or_busy(&mut world.machine, moment, taking, outs)
}

/// Does the events in order on the machine's parts.
fn run_machine(
    m: &mut Machine,
    reading: &mut Reading,
    events: &[Event],
    outs: &mut Vec<Out>,
) -> Result<(), RunFault>
    ensures ok { OnOk result (HasRun events.now (state_of m.old) outs.old.items
        (state_of m.new) outs.new.items) }
    ensures err { IfErr result (λ fault. (done_of fault < length events.now)
        × HasRun (take (done_of fault) events.now) (state_of m.old) outs.old.items
        (state_of m.new) outs.new.items) }
{
    for (done, event) in events.iter().enumerate() {
        if step(m, reading, event, outs).is_err() {
            return Err(RunFault::NoMemory { done });
        }
    }
    Ok(())
}

/// Does one event. Refused for want of memory alone; then nothing was done.
fn step(
    m: &mut Machine,
    reading: &mut Reading,
    event: &Event,
    outs: &mut Vec<Out>,
) -> Result<(), AllocError>
    ensures ok { OnOk result (Leaves (Does (state_of m.old) event.now)
        (state_of m.old) outs.old.items (state_of m.new) outs.new.items) }
    ensures err { OnErr result (Stays (state_of m.old) outs.old.items
        (state_of m.new) outs.new.items) }
{
    m.knows_counts();
    match event {
        Event::Ingress => do_next(m, outs),
        Event::Work(worker) => work(m, *worker, outs),
        Event::Hear(moment, endpoint, bytes) => {
            hear_or_busy(m, reading, *moment, *endpoint, bytes.as_slice(), outs)
        }
        Event::Tick(moment) => {
            if m.is_busy() {
                return busy(&m.front, outs);
            }
            tick(&mut m.front, *moment)
        }
        Event::Select(moment, leg, on) => {
            if m.is_busy() {
                return busy(&m.front, outs);
            }
            select(&mut m.front, *moment, *leg, *on, outs)
        }
    }
}

/// A datagram came from this endpoint; `Busy` if something waits.
fn hear_or_busy(
    m: &mut Machine,
    reading: &mut Reading,
    moment: u64,
    endpoint: u16,
    bytes: &[u8],
    outs: &mut Vec<Out>,
) -> Result<(), AllocError>
    ensures ok { OnOk result (Leaves (Does (state_of m.old) (Hear moment endpoint bytes.now))
        (state_of m.old) outs.old.items (state_of m.new) outs.new.items) }
    ensures err { OnErr result (Stays (state_of m.old) outs.old.items
        (state_of m.new) outs.new.items) }
{
    m.knows_counts();
    if m.is_busy() {
        return busy(&m.front, outs);
    }
    hearing::hear(&mut m.front, reading, moment, endpoint, bytes, outs)
}

/// What a datagram says is taken in; `Busy` if something waits.
fn take_or_busy(
    m: &mut Machine,
    moment: u64,
    taking: Taking<'_>,
    outs: &mut Vec<Out>,
) -> Result<(), AllocError>
    requires read { IsPacketRead taking.bytes.now taking.what }
    ensures ok { (bytes : List ℕ) → SaysTaken (state_of m.old) (admission_of taking.entry) bytes
        → OnOk result (Leaves (Does (state_of m.old) (Hear moment taking.entry.endpoint bytes))
        (state_of m.old) outs.old.items (state_of m.new) outs.new.items) }
    ensures err { OnErr result (Stays (state_of m.old) outs.old.items
        (state_of m.new) outs.new.items) }
{
    m.knows_counts();
    if m.is_busy() {
        return busy(&m.front, outs);
    }
    hearing::take(&mut m.front, moment, taking, outs)
}

/// Nothing is taken in, whatever stands beside the front.
pub(crate) fn busy(front: &Front, outs: &mut Vec<Out>) -> Result<(), AllocError>
    ensures ok { (rest : Rest) → rest.lost < 2 ^ 64
        → OnOk result (Leaves (λ h. h ≡ giving (whole front.now rest) (Busy ∷ []))
        (whole front.now rest) outs.old.items (whole front.now rest) outs.new.items) }
    ensures err { OnErr result (outs.new.items ≡ outs.old.items) }
{
    front.knows_count();
    outs.push(Out::Busy)?;
    Ok(())
}
