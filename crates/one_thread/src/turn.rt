//! A turn: a receive, what came of it, a tick if one is due, and what goes out.

ghost use Rattle.std.specs.Prelude.{◌≡◌, ◌<◌, ◌∷◌, ◌++◌, [], List, ℕ, length, slice_get, None, Some, MatchOption, IfOk, OnOk, OnErr};
ghost use Rattle.events.specs.declared.event.Event.TheVariants.{Select};
ghost use Rattle.events.specs.declared.output.Out.TheVariants.{Send};
ghost use Rattle.datagram.specs.Reads.{IsPacketRead, admission_of};
ghost use Rattle.core_steps.specs.Hearing.{SaysTaken};
ghost use Rattle.ports.specs.Outside.{is_stop};
ghost use Rattle.entrance.specs.Entrance.{IfTaken, arrival_by};
ghost use Rattle.ports.specs.Ticks.{is_due, ticks_after};
ghost use Rattle.ports.specs.declared.source.TheConstants.{MAX_FAULTS};
ghost use Rattle.one_thread.specs.Driving.{Drives, DrivesSome, DrivesBoth, IsIdle};
ghost use Rattle.one_thread.specs.Turns.{BreaksOff, SendsCounted, MakesTurn, Raises, faults_with, brought_at, heard_count, tick_at, view_of, who_came};

use crate::settle::{take_in, take_one};
use crate::tally::Tally;
use core_steps::{Taking, World};
use desk::Desk;
use entrance::{Admitted, Came, Entrance};
use events::{Event, Out};
use ports::{Look, ReceiveFault, Sink, Status, Ticks, Watch};
use std::alloc::AllocError;

/// What was let in, or that a receive failed.
type Receipt = Result<Admitted, ReceiveFault>;

/// The machine with what comes in and goes out, and the counts of a run.
#[derive(Drop)]
pub(crate) struct Engine {
    pub(crate) world: World,
    /// What the machine gave out in this turn; empty between turns.
    pub(crate) outs: Vec<Out>,
    pub(crate) ticks: Ticks,
    /// How many receives failed since the last one that didn't.
    pub(crate) faults: u64,
    /// Whether a stop came.
    pub(crate) is_stopped: bool,
    pub(crate) tally: Tally,
}

/// What was let in of a datagram is taken in, and a selection made.
#[tactic(auto, using(crate::proofs::DrivingLemmas::drives_nothing))]
fn take_admitted(
    world: &mut World,
    moment: u64,
    admitted: Receipt,
    taking: Taking<'_>,
    outs: &mut Vec<Out>,
) -> Result<(), AllocError>
    requires read { IfTaken admitted (IsPacketRead taking.bytes.now taking.what) }
    requires said { IfTaken admitted
        ((bytes : List ℕ) × SaysTaken world.old (admission_of taking) bytes) }
    requires one { length world.old.workers ≡ 1 }
    requires idle { IsIdle world.old }
    ensures ok { (datagram : List ℕ)
        → IfTaken admitted (SaysTaken world.old (admission_of taking.entry) datagram)
        → OnOk result (Drives
        (brought_at moment (arrival_by admitted taking.entry.endpoint datagram))
        world.old outs.old.items world.new outs.new.items) }
    ensures err { (datagram : List ℕ)
        → IfTaken admitted (SaysTaken world.old (admission_of taking.entry) datagram)
        → OnErr result (DrivesSome
        (brought_at moment (arrival_by admitted taking.entry.endpoint datagram))
        world.old outs.old.items world.new outs.new.items) }
    ensures idle { OnOk result (IsIdle world.new) }
    ensures one { length world.new.workers ≡ 1 }
{
    match admitted {
        Ok(Admitted::Taking) => take_one(world, moment, taking, outs),
        Ok(Admitted::Select { leg, on }) => { take_in(world, Event::Select(moment, leg, on), outs) }
        Ok(Admitted::Nothing | Admitted::Stop) | Err(_) => Ok(()),
    }
}

/// A tick is made if one is due. Says whether it was.
#[tactic(auto, using(crate::proofs::DrivingLemmas::drives_nothing))]
fn tick(
    world: &mut World,
    moment: u64,
    ticks: &mut Ticks,
    outs: &mut Vec<Out>,
) -> Result<bool, AllocError>
    requires one { length world.old.workers ≡ 1 }
    requires idle { IsIdle world.old }
    ensures due { IfOk result (λ is_made. is_made ≡ is_due ticks.old moment) }
    ensures ok { OnOk result (Drives (tick_at ticks.old moment)
        world.old outs.old.items world.new outs.new.items) }
    ensures err { OnErr result (DrivesSome (tick_at ticks.old moment)
        world.old outs.old.items world.new outs.new.items) }
    ensures noted { ticks.new ≡ ticks_after ticks.old moment }
    ensures idle { OnOk result (IsIdle world.new) }
    ensures one { length world.new.workers ≡ 1 }
{
    if !ticks.take(moment) {
        return Ok(false);
    }
    take_in(world, Event::Tick(moment), outs)?;
    Ok(true)
}

/// How many receives in a row failed, with this one.
fn faults_with(faults: u64, admitted: Receipt) -> u64
    requires few { faults < MAX_FAULTS }
    ensures { (endpoint : ℕ) (datagram : List ℕ)
        → result ≡ faults_with faults (arrival_by admitted endpoint datagram) }
{
    match admitted {
        Ok(_) => 0,
        Err(_) => faults + 1,
    }
}

/// The count of datagrams that came, with this receive.
fn heard_with(heard: u64, admitted: Receipt) -> u64
    ensures { (endpoint : ℕ) (datagram : List ℕ)
        → Raises heard (heard_count (arrival_by admitted endpoint datagram)) result }
{
    match admitted {
        Ok(Admitted::Taking) => heard.saturating_add(1),
        Ok(Admitted::Nothing | Admitted::Select { .. } | Admitted::Stop) | Err(_) => heard,
    }
}

/// Whether the run ends with this turn.
fn is_stop(admitted: Receipt) -> bool
    ensures { (endpoint : ℕ) (datagram : List ℕ)
        → result ≡ is_stop (arrival_by admitted endpoint datagram) }
{
    match admitted {
        Ok(Admitted::Stop) => true,
        Ok(Admitted::Nothing | Admitted::Taking | Admitted::Select { .. }) | Err(_) => false,
    }
}

/// What was done in a turn.
#[derive(Clone, Copy)]
struct Done {
    /// How much of what is given out by then came before the tick.
    before: usize,
    /// Whether a tick was made.
    is_ticked: bool,
}

/// What came is taken in, then a tick is made if one is due.
#[tactic(auto, using(crate::proofs::DrivingLemmas::drives_on, crate::proofs::DrivingLemmas::drives_both, crate::proofs::DrivingLemmas::some_first, crate::proofs::DrivingLemmas::some_after))]
fn take_turn(
    world: &mut World,
    ticks: &mut Ticks,
    came: Came,
    taking: Taking<'_>,
    outs: &mut Vec<Out>,
) -> Result<Done, AllocError>
    requires read { IfTaken came.admitted (IsPacketRead taking.bytes.now taking.what) }
    requires said { IfTaken came.admitted
        ((bytes : List ℕ) × SaysTaken world.old (admission_of taking) bytes) }
    requires one { length world.old.workers ≡ 1 }
    requires idle { IsIdle world.old }
    ensures ok { (datagram : List ℕ)
        → IfTaken came.admitted (SaysTaken world.old (admission_of taking.entry) datagram)
        → OnOk result (Drives
        (brought_at came.moment (arrival_by came.admitted taking.entry.endpoint datagram)
        ++ tick_at ticks.old came.moment) world.old outs.old.items world.new outs.new.items) }
    ensures before { (datagram : List ℕ)
        → IfTaken came.admitted (SaysTaken world.old (admission_of taking.entry) datagram)
        → IfOk result (λ done. DrivesBoth
        (brought_at came.moment (arrival_by came.admitted taking.entry.endpoint datagram))
        (tick_at ticks.old came.moment) world.old outs.old.items world.new outs.new.items
        done.before) }
    ensures due { IfOk result (λ done. done.is_ticked ≡ is_due ticks.old came.moment) }
    ensures err { (datagram : List ℕ)
        → IfTaken came.admitted (SaysTaken world.old (admission_of taking.entry) datagram)
        → OnErr result (DrivesSome
        (brought_at came.moment (arrival_by came.admitted taking.entry.endpoint datagram)
        ++ tick_at ticks.old came.moment) world.old outs.old.items world.new outs.new.items) }
    ensures noted { OnOk result (ticks.new ≡ ticks_after ticks.old came.moment) }
    ensures idle { OnOk result (IsIdle world.new) }
    ensures one { length world.new.workers ≡ 1 }
{
    take_admitted(world, came.moment, came.admitted, taking, outs)?;
    let before = outs.as_slice().len();
    let is_ticked = tick(world, came.moment, ticks, outs)?;
    Ok(Done { before, is_ticked })
}

/// Whose datagram came.
fn who_came(admitted: Receipt, endpoint: u16) -> Option<u16>
    ensures { (datagram : List ℕ) → result ≡ who_came (arrival_by admitted endpoint datagram) }
{
    match admitted {
        Ok(Admitted::Taking) => Some(endpoint),
        Ok(Admitted::Nothing | Admitted::Select { .. } | Admitted::Stop) | Err(_) => None,
    }
}

/// Of whose datagram what is given out in a turn is: so many from the first on of this endpoint's, and the rest, since it is of the
/// tick, of none.
#[derive(Clone, Copy)]
struct Origin {
    endpoint: Option<u16>,
    before: usize,
}

impl Origin {
    ghost use Rattle.std.specs.Prelude.{◌≡◌};
    ghost use Rattle.one_thread.specs.Turns.{whose};

    /// Of whose datagram what stands at this place is.
    fn at(self, place: usize) -> Option<u16>
        ensures { result ≡ whose self.endpoint self.before place }
    {
        if place < self.before {
            self.endpoint
        } else {
            None
        }
    }
}

/// Hands a datagram to the sink, and counts it.
fn hand_over<S: Sink>(sink: &mut S, endpoint: u16, bytes: &[u8], tally: &mut Tally)
    ensures { SendsCounted (Send endpoint bytes.now ∷ []) (S.shown sink.old) (S.shown sink.new)
        tally.old tally.new }
{
    match sink.send(endpoint, bytes) {
        Ok(()) => tally.sent = tally.sent.saturating_add(1),
        Err(_) => tally.failed = tally.failed.saturating_add(1),
    }
}

/// Hands what the machine gave out to the sink, if it is a datagram; tells it a miss and a skip, and what was refused of whose datagram.
#[tactic(auto, using(crate::proofs::TurnLemmas::counted_none))]
fn give<S: Sink>(out: &Out, endpoint: Option<u16>, sink: &mut S, tally: &mut Tally)
    ensures { SendsCounted (out.now ∷ []) (S.shown sink.old) (S.shown sink.new) tally.old tally.new }
{
    match out {
        Out::Send { endpoint, bytes } => hand_over(sink, *endpoint, bytes.as_slice(), tally),
        Out::Miss(leg, _) => sink.missed(*leg),
        Out::Skip(leg, _) => sink.skipped(*leg),
        Out::Refused(refusal) => sink.refused(endpoint, *refusal),
        Out::Busy | Out::Lost(_) | Out::Idle => {}
    }
}

/// Hands the datagrams among what the machine gave out to the sink, in order.
fn give_all<S: Sink>(outs: &[Out], origin: Origin, sink: &mut S, tally: &mut Tally)
    ensures { SendsCounted outs.now (S.shown sink.old) (S.shown sink.new) tally.old tally.new }
{
    for (place, out) in outs.iter().enumerate() {
        give(out, origin.at(place), sink, tally);
    }
}

/// The totals, once they are to be shown.
fn show<W: Watch>(world: &World, moment: u64, tally: &Tally, watch: &mut W) {
    if watch.is_due(moment) {
        let status = Status {
            present: count_present(world),
            heard: tally.heard,
            sent: tally.sent,
            failed: tally.failed,
            lost: world.lost(),
            dropped: 0,
        };
        watch.show(moment, &status);
    }
}

/// What is wanted of the room.
fn show_room<W: Watch>(world: &World, watch: &mut W) {
    let look = watch.look();
    match look {
        Look::Nothing => return,
        Look::Presence => {
            for endpoint in 0..u16::try_from(world.publishers()).unwrap_or(u16::MAX) {
                watch.show_endpoint(endpoint, world.is_present(endpoint));
            }
        }
        Look::Stays => {
            for leg in 0..u16::try_from(world.rows().len()).unwrap_or(u16::MAX) {
                watch.show_stay(leg, world.stay(leg));
            }
        }
        Look::Desk(publisher) => {
            if let Some(desk) = desk_at(world, publisher) {
                watch.show_desk(publisher, desk);
            }
        }
    }
    watch.end_look();
}

/// The desk of the publisher with this number, if it is there.
fn desk_at(world: &World, publisher: u16) -> Option<&Desk>
    ensures { MatchOption result (slice_get world.now.desks publisher ≡ None)
        (λ desk. slice_get world.now.desks publisher ≡ Some desk.now) }
{
    if usize::from(publisher) < world.publishers() {
        Some(world.desk(publisher))
    } else {
        None
    }
}

/// How many endpoints are present.
fn count_present(world: &World) -> u64 {
    let mut present: u64 = 0;
    for endpoint in 0..u16::try_from(world.publishers()).unwrap_or(u16::MAX) {
        if world.is_present(endpoint) {
            present = present.saturating_add(1);
        }
    }
    present
}

/// Tells the entrance of a tick that was made at this moment, if one was.
fn tell<E: Entrance>(entrance: &mut E, moment: u64, is_ticked: bool)
    ensures given { E.given entrance.new ≡ E.given entrance.old }
    ensures told { E.told entrance.new ≡ E.told entrance.old }
    ensures names { E.names entrance.new ≡ E.names entrance.old }
{
    if is_ticked {
        entrance.ticked(moment);
    }
}

/// Takes in what the entrance lets in next and ticks if a tick is due, with all that follows, and hands what comes out to
/// the sink. For want of memory it stops; then what the machine gave out in this turn isn't handed over.
pub(crate) fn turn<E: Entrance, Snk: Sink, W: Watch>(
    engine: &mut Engine,
    entrance: &mut E,
    sink: &mut Snk,
    watch: &mut W,
) -> Result<(), AllocError>
    requires one { length engine.old.world.workers ≡ 1 }
    requires idle { IsIdle engine.old.world }
    requires empty { engine.old.outs.items ≡ [] }
    requires few { engine.old.faults < MAX_FAULTS }
    ensures ok { OnOk result (MakesTurn engine.old.ticks engine.new.ticks engine.old.faults
        engine.new.faults engine.new.is_stopped engine.old.world engine.new.world
        (view_of (E.given entrance.old) (E.told entrance.old) (Snk.shown sink.old))
        (view_of (E.given entrance.new) (E.told entrance.new) (Snk.shown sink.new))
        engine.old.tally engine.new.tally) }
    ensures err { OnErr result (BreaksOff engine.old.ticks engine.old.world
        (view_of (E.given entrance.old) (E.told entrance.old) (Snk.shown sink.old))
        (view_of (E.given entrance.new) (E.told entrance.new) (Snk.shown sink.new))) }
    ensures one { OnOk result (length engine.new.world.workers ≡ 1) }
    ensures idle { OnOk result (IsIdle engine.new.world) }
    ensures empty { OnOk result (engine.new.outs.items ≡ []) }
    ensures names { E.names entrance.new ≡ E.names entrance.old }
{
    let came = entrance.receive(engine.world.view())?;
    let taking = entrance.taking();
    let done = take_turn(
        &mut engine.world,
        &mut engine.ticks,
        came,
        taking,
        &mut engine.outs,
    )?;
    let Came { moment, admitted } = came;
    let endpoint = who_came(admitted, taking.endpoint);
    tell(entrance, moment, done.is_ticked);
    let origin = Origin {
        endpoint,
        before: done.before,
    };
    engine.faults = faults_with(engine.faults, admitted);
    engine.is_stopped = is_stop(admitted);
    engine.tally.heard = heard_with(engine.tally.heard, admitted);
    give_all(engine.outs.as_slice(), origin, sink, &mut engine.tally);
    engine.world.take_back(&mut engine.outs);
    show(&engine.world, moment, &engine.tally, watch);
    show_room(&engine.world, watch);
    Ok(())
}
