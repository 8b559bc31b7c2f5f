//! An event from outside, and all that follows from it.

ghost use Rattle.std.specs.Prelude.{◌≡◌, ◌∷◌, [], true, false, length, ℕ, List, OnOk, OnErr};
ghost use Rattle.datagram.specs.Reads.{IsPacketRead, admission_of};
ghost use Rattle.core_steps.specs.Hearing.{SaysTaken};
ghost use Rattle.events.specs.declared.event.Event.TheVariants.{Hear};
ghost use Rattle.core_steps.specs.Run.{HasRun, Stays};
ghost use Rattle.core_steps.specs.Waits.{has_work};
ghost use Rattle.core_steps.specs.Settling.{ingress_left};
ghost use Rattle.one_thread.specs.Driving.{Drives, DrivesSome, IsIdle, is_from_outside};

use core_steps::{Taking, World, run, take};
use events::{Event, Out};
use std::alloc::AllocError;

/// The number of the one worker.
const WORKER: u16 = 0;

/// Does one event. Refused for want of memory alone; then nothing was done.
#[tactic(auto, using(crate::proofs::DrivingLemmas::nothing_run))]
pub fn step(world: &mut World, event: Event, outs: &mut Vec<Out>) -> Result<(), AllocError>
    ensures ok { OnOk result (HasRun (event ∷ []) world.old outs.old.items
        world.new outs.new.items) }
    ensures err { OnErr result (Stays world.old outs.old.items world.new outs.new.items) }
{
    match run(world, [event].as_slice(), outs) {
        Ok(()) => Ok(()),
        Err(_) => Err(AllocError),
    }
}

/// The worker works until it has nothing to do.
#[tactic(auto, using(crate::proofs::DrivingLemmas::drives_stays))]
fn drain_worker(world: &mut World, outs: &mut Vec<Out>) -> Result<(), AllocError>
    requires one { length world.old.workers ≡ 1 }
    ensures drives { Drives [] world.old outs.old.items world.new outs.new.items }
    ensures drained { OnOk result (has_work world.new 0 ≡ false) }
    ensures one { length world.new.workers ≡ 1 }
    ensures ingress { ingress_left world.new ≡ ingress_left world.old }
{
    while world.has_work(WORKER) {
        step(world, Event::Work(WORKER), outs)?;
    }
    Ok(())
}

/// What waits is done: the worker works until it has nothing to do; then, as long as anything waits for the ingress, that does one
/// step, and the worker works again. So the worker's ring is empty whenever the ingress gives it a job, and none is given up.
#[tactic(auto, using(crate::proofs::DrivingLemmas::settle_on, crate::proofs::DrivingLemmas::drives_stays, crate::proofs::DrivingLemmas::idle_of, crate::proofs::DrivingLemmas::same_count))]
pub fn settle(world: &mut World, outs: &mut Vec<Out>) -> Result<(), AllocError>
    requires one { length world.old.workers ≡ 1 }
    ensures drives { Drives [] world.old outs.old.items world.new outs.new.items }
    ensures idle { OnOk result (IsIdle world.new) }
    ensures one { length world.new.workers ≡ 1 }
{
    drain_worker(world, outs)?;
    while world.is_busy() {
        step(world, Event::Ingress, outs)?;
        drain_worker(world, outs)?;
    }
    Ok(())
}

/// An event from outside, which finds nothing waiting, and all that follows from it.
#[tactic(auto, using(crate::proofs::DrivingLemmas::taken_in, crate::proofs::DrivingLemmas::taken_some, crate::proofs::DrivingLemmas::some_none, crate::proofs::DrivingLemmas::same_count))]
pub(crate) fn take_in(
    world: &mut World,
    event: Event,
    outs: &mut Vec<Out>,
) -> Result<(), AllocError>
    requires outside { is_from_outside event ≡ true }
    requires one { length world.old.workers ≡ 1 }
    requires idle { IsIdle world.old }
    ensures ok { OnOk result (Drives (event ∷ []) world.old outs.old.items
        world.new outs.new.items) }
    ensures err { OnErr result (DrivesSome (event ∷ []) world.old outs.old.items
        world.new outs.new.items) }
    ensures idle { OnOk result (IsIdle world.new) }
    ensures one { length world.new.workers ≡ 1 }
{
    step(world, event, outs)?;
    settle(world, outs)
}

/// What a datagram of an endpoint says, which finds nothing waiting, and all that follows from it.
#[tactic(auto, using(crate::proofs::DrivingLemmas::taken_in, crate::proofs::DrivingLemmas::taken_some, crate::proofs::DrivingLemmas::some_none, crate::proofs::DrivingLemmas::same_count))]
pub(crate) fn take_one(
    world: &mut World,
    moment: u64,
    taking: Taking<'_>,
    outs: &mut Vec<Out>,
) -> Result<(), AllocError>
    requires read { IsPacketRead taking.bytes.now taking.what }
    requires said { (bytes : List ℕ) × SaysTaken world.old (admission_of taking) bytes }
    requires one { length world.old.workers ≡ 1 }
    requires idle { IsIdle world.old }
    ensures ok { (bytes : List ℕ) → SaysTaken world.old (admission_of taking.entry) bytes
        → OnOk result (Drives (Hear moment taking.entry.endpoint bytes ∷ [])
        world.old outs.old.items world.new outs.new.items) }
    ensures err { (bytes : List ℕ) → SaysTaken world.old (admission_of taking.entry) bytes
        → OnErr result (DrivesSome (Hear moment taking.entry.endpoint bytes ∷ [])
        world.old outs.old.items world.new outs.new.items) }
    ensures idle { OnOk result (IsIdle world.new) }
    ensures one { length world.new.workers ≡ 1 }
{
    take(world, moment, taking, outs)?;
    settle(world, outs)
}
