//! What the ingress does: the notification that waits, or the oldest task.

ghost use Rattle.std.specs.Prelude.{◌≡◌, ◌<◌, ◌++◌, ◌∷◌, [], None, Some, nat_le, length, if◌then◌else◌, map, slice_get, slice_set, vec_len, vec_capacity, IfOk, OnOk, OnErr};
ghost use Rattle.desk.specs.Call.{HasStay};
ghost use Rattle.desk.specs.declared.call.Call.TheVariants.{Time};
ghost use Rattle.desk_calls.specs.DeskCalls.{stay_call};
ghost use Rattle.core_steps.specs.Duties.{Reports};
ghost use Rattle.core_steps.specs.Machine.{state_of, alone, task_of, task_in, worker_state};
ghost use Rattle.desk_calls.specs.Notification.{pending_with};
ghost use Rattle.core_steps.specs.Pushing.{Pushed};
ghost use Rattle.core_steps.specs.Rule.{AsksDesk, OrderAsks, DoesTask, DoesNext, IsReporting, pushing};
ghost use Rattle.core_steps.specs.Run.{Leaves, Stays};
ghost use Rattle.core_steps.specs.Seed.{job_of};
ghost use Rattle.core_steps.specs.World.{Task, order as ordering};

use crate::asking::ask;
use crate::front::Front;
use crate::machine::{Machine, Worker};
use crate::ring::{JOB_LIMIT, JobRing};
use crate::seed::{Seed, job_of};
use crate::tasks::{FollowUp, NextTask};
use desk::{Call, Change, Signal};
use desk_calls::{Notification, Question, notify, stay_call};
use events::{Bytes, Job, Out};
use members::{Order, Row};
use std::alloc::AllocError;

/// One step of the ingress.
pub(crate) fn do_next(m: &mut Machine, outs: &mut Vec<Out>) -> Result<(), AllocError>
    ensures ok { OnOk result (Leaves
        (DoesNext (state_of m.old) (state_of m.old).pending (state_of m.old).tasks)
        (state_of m.old) outs.old.items (state_of m.new) outs.new.items) }
    ensures err { OnErr result (Stays (state_of m.old) outs.old.items
        (state_of m.new) outs.new.items) }
{
    match m.pending {
        Some(notification) => tell(m, notification, outs),
        None => do_oldest(m, outs),
    }
}

/// Tells the notification that waits.
fn tell(m: &mut Machine, notification: Notification, outs: &mut Vec<Out>) -> Result<(), AllocError>
    requires { m.old.pending ≡ Some notification }
    ensures ok { OnOk result (Leaves
        (DoesNext (state_of m.old) (Some (pending_with m.old.effect notification))
        (state_of m.old).tasks)
        (state_of m.old) outs.old.items (state_of m.new) outs.new.items) }
    ensures err { OnErr result (Stays (state_of m.old) outs.old.items
        (state_of m.new) outs.new.items) }
{
    m.knows_counts();
    notify(
        m.front.alloc,
        &m.front.setup.links,
        &m.front.setup.head,
        m.rows.as_slice(),
        &notification,
        &m.effect,
        outs,
    )?;
    m.pending = None;
    Ok(())
}

/// Does the oldest task, if one waits.
fn do_oldest(m: &mut Machine, outs: &mut Vec<Out>) -> Result<(), AllocError>
    requires { m.old.pending ≡ None }
    ensures ok { OnOk result (Leaves (DoesNext (state_of m.old) None (state_of m.old).tasks)
        (state_of m.old) outs.old.items (state_of m.new) outs.new.items) }
    ensures err { OnErr result (Stays (state_of m.old) outs.old.items
        (state_of m.new) outs.new.items) }
{
    m.knows_counts();
    outs.reserve(1)?;
    match m.front.tasks.oldest() {
        Some(next) => do_task(m, next, outs),
        None => {
            outs.push_reserved(Out::Idle);
            Ok(())
        }
    }
}

/// Does this task, the oldest.
fn do_task(m: &mut Machine, next: NextTask, outs: &mut Vec<Out>) -> Result<(), AllocError>
    requires idle { m.old.pending ≡ None }
    requires room { vec_len outs.old < vec_capacity outs.old }
    ensures ok { OnOk result (Leaves
        (DoesTask (state_of m.old) (task_in m.old.front.tasks.datagram next))
        (state_of m.old) outs.old.items (state_of m.new) outs.new.items) }
    ensures err { OnErr result (Stays (state_of m.old) outs.old.items
        (state_of m.new) outs.new.items) }
{
    match next {
        NextTask::Order(order) => {
            do_order(m, order, outs);
            Ok(())
        }
        NextTask::FollowUp(next) => do_follow_up(m, next, outs),
    }
}

/// An order of the room: a stay begins or ends at the publisher's desk, or a row is published.
fn do_order(m: &mut Machine, order: Order, outs: &mut Vec<Out>)
    requires idle { m.old.pending ≡ None }
    requires room { vec_len outs.old < vec_capacity outs.old }
    ensures { Leaves (DoesTask (state_of m.old) (ordering order))
        (state_of m.old) outs.old.items (state_of m.new) outs.new.items }
{
    match order {
        Order::Arrive { leg, stay } => ask_in_stay(m, leg, stay, Change::Arrive, outs),
        Order::Depart { leg, stay } => ask_in_stay(m, leg, stay, Change::Depart, outs),
        Order::Route {
            leg,
            stay,
            turn,
            on,
        } => {
            m.knows_counts();
            put_row(m.rows.as_mut_slice(), leg, Row { stay, turn, on });
            m.front.tasks.finish();
        }
    }
}

/// The row of the leg is this one from then on, if there is such a leg.
fn put_row(rows: &mut [Row], leg: u16, row: Row)
    ensures { rows.new ≡ slice_set rows.old leg row }
{
    let at = usize::from(leg);
    if at < rows.len() {
        rows[at] = row;
    }
}

/// The subscriber of a leg begins or ends a stay at its publisher's desk.
fn ask_in_stay(m: &mut Machine, leg: u16, stay: u64, change: Change, outs: &mut Vec<Out>)
    requires idle { m.old.pending ≡ None }
    requires room { vec_len outs.old < vec_capacity outs.old }
    ensures { (t : Task) → Leaves
        (OrderAsks (state_of m.old) t (stay_call m.old.front.setup.links leg stay change))
        (state_of m.old) outs.old.items (state_of m.new) outs.new.items }
{
    match stay_call(&m.front.setup.links, leg, stay, change) {
        Some((publisher, call)) => ask_desk(m, publisher, &call, outs),
        None => {
            m.knows_counts();
            m.front.tasks.finish();
        }
    }
}

/// Asks the publisher's desk, and the task is done; what is to be told waits for the next step.
fn ask_desk(m: &mut Machine, publisher: u16, call: &Call, outs: &mut Vec<Out>)
    requires idle { m.old.pending ≡ None }
    requires stay { HasStay call.now }
    requires room { vec_len outs.old < vec_capacity outs.old }
    ensures { (t : Task) → Leaves (AsksDesk (state_of m.old) t publisher call.now)
        (state_of m.old) outs.old.items (state_of m.new) outs.new.items }
{
    m.knows_counts();
    let question = Question {
        publisher,
        asked_by: None,
        call: *call,
    };
    m.pending = ask(m.desks.as_mut_slice(), &question, &mut m.effect, outs);
    m.front.tasks.finish();
}

/// What follows from a datagram or a moment.
fn do_follow_up(m: &mut Machine, next: FollowUp, outs: &mut Vec<Out>) -> Result<(), AllocError>
    requires idle { m.old.pending ≡ None }
    requires room { vec_len outs.old < vec_capacity outs.old }
    ensures ok { OnOk result (Leaves
        (DoesTask (state_of m.old) (task_of m.old.front.tasks.datagram next))
        (state_of m.old) outs.old.items (state_of m.new) outs.new.items) }
    ensures err { OnErr result (Stays (state_of m.old) outs.old.items
        (state_of m.new) outs.new.items) }
{
    match next {
        FollowUp::Push { worker, seed } => return push_seed(m, worker, seed, outs),
        FollowUp::Report(publisher) => return report(m, publisher, outs),
        FollowUp::Pulse(publisher) => signal(m, publisher, Signal::Tick, outs),
        FollowUp::Expire(publisher) => signal(m, publisher, Signal::Expire, outs),
    }
    Ok(())
}

/// The publisher's desk is told the moment.
fn signal(m: &mut Machine, publisher: u16, signal: Signal, outs: &mut Vec<Out>)
    requires idle { m.old.pending ≡ None }
    requires room { vec_len outs.old < vec_capacity outs.old }
    ensures { (t : Task) → Leaves
        (AsksDesk (state_of m.old) t publisher (Time m.old.front.room.moment signal))
        (state_of m.old) outs.old.items (state_of m.new) outs.new.items }
{
    let moment = m.front.room.moment();
    ask_desk(m, publisher, &Call::Time { moment, signal }, outs);
}

/// The worker gets the job of this seed.
fn push_seed(
    m: &mut Machine,
    worker: u16,
    seed: Seed,
    outs: &mut Vec<Out>,
) -> Result<(), AllocError>
    requires idle { m.old.pending ≡ None }
    requires room { vec_len outs.old < vec_capacity outs.old }
    ensures ok { OnOk result (Leaves
        (λ h. h ≡ pushing (state_of m.old) worker (job_of m.old.front.tasks.datagram seed)
        (slice_get (state_of m.old).workers worker))
        (state_of m.old) outs.old.items (state_of m.new) outs.new.items) }
    ensures err { OnErr result (Stays (state_of m.old) outs.old.items
        (state_of m.new) outs.new.items) }
{
    let job = job_of(&m.front.tasks.datagram, seed)?;
    push(m, worker, job, outs);
    Ok(())
}

/// Puts a job into its worker's ring; it is given up if the ring is full.
fn push(m: &mut Machine, worker: u16, job: Job, outs: &mut Vec<Out>)
    requires idle { m.old.pending ≡ None }
    requires room { vec_len outs.old < vec_capacity outs.old }
    ensures { Leaves
        (λ h. h ≡ pushing (state_of m.old) worker job (slice_get (state_of m.old).workers worker))
        (state_of m.old) outs.old.items (state_of m.new) outs.new.items }
{
    m.knows_counts();
    m.front.tasks.finish();
    if is_given_up(m.workers.as_mut_slice(), worker, job) {
        m.lost = m.lost.saturating_add(1);
        outs.push_reserved(Out::Lost(worker));
    }
}

/// Puts the job into the ring of its worker; answers whether it was given up.
fn is_given_up(workers: &mut [Worker], worker: u16, job: Job) -> bool
    ensures { Pushed worker job (map worker_state workers.old)
        (slice_get (map worker_state workers.old) worker) result (map worker_state workers.new) }
{
    let at = usize::from(worker);
    if at < workers.len() {
        put(&mut workers[at].jobs, job)
    } else {
        false
    }
}

/// Puts the job after those in the ring; answers whether the ring was full.
fn put(ring: &mut JobRing, job: Job) -> bool
    ensures full { result ≡ nat_le JOB_LIMIT (length ring.old) }
    ensures jobs { ring.new ≡ (if result then ring.old else ring.old ++ job ∷ []) }
{
    match ring.push(job) {
        Ok(()) => false,
        Err(_) => true,
    }
}

/// Sends the publisher a report with the block about it.
fn report(m: &mut Machine, publisher: u16, outs: &mut Vec<Out>) -> Result<(), AllocError>
    requires idle { m.old.pending ≡ None }
    requires room { vec_len outs.old < vec_capacity outs.old }
    ensures ok { OnOk result (Leaves (IsReporting (state_of m.old) publisher)
        (state_of m.old) outs.old.items (state_of m.new) outs.new.items) }
    ensures err { OnErr result (Stays (state_of m.old) outs.old.items
        (state_of m.new) outs.new.items) }
{
    m.knows_counts();
    let bytes = report_on(&mut m.front, publisher)?;
    outs.push_reserved(Out::Send {
        endpoint: publisher,
        bytes,
    });
    m.front.tasks.finish();
    Ok(())
}

/// The report to the publisher, with the block about it.
pub(crate) fn report_on(front: &mut Front, publisher: u16) -> Result<Bytes, AllocError>
    ensures ok { IfOk result (Reports (alone front.old) publisher (alone front.new)) }
    ensures err { OnErr result (alone front.new ≡ alone front.old) }
{
    let draft = front.setup.head.draft(front.alloc)?;
    let block = front.room.block(publisher);
    Ok(Bytes::new(front.setup.head.fill(draft, block)))
}
