//! What a worker does: it takes a job, does the job in its hand, or sends a notification.

ghost use Rattle.std.specs.Prelude.{◌≡◌, ◌<◌, slice_get, vec_len, vec_capacity, OnOk, OnErr};
ghost use Rattle.desk.specs.Call.{HasStay};
ghost use Rattle.core_steps.specs.Machine.{state_of, setup_of, worker_state};
ghost use Rattle.core_steps.specs.Rule.{Works};
ghost use Rattle.core_steps.specs.Run.{Leaves, Stays};
ghost use Rattle.core_steps.specs.WorkerSteps.{IsDeskTold, StepsWorker};

use crate::asking::ask;
use crate::front::Setup;
use crate::machine::{Hand, Machine, Worker};
use desk::Desk;
use desk_calls::{Asks, Question, asked_by, notify};
use events::Out;
use legs::Plan;
use members::Row;
use std::alloc::{AllocError, Global};

/// One step of the worker of this number.
pub(crate) fn work(m: &mut Machine, worker: u16, outs: &mut Vec<Out>) -> Result<(), AllocError>
    ensures ok { OnOk result (Leaves
        (Works (state_of m.old) worker (slice_get (state_of m.old).workers worker))
        (state_of m.old) outs.old.items (state_of m.new) outs.new.items) }
    ensures err { OnErr result (Stays (state_of m.old) outs.old.items
        (state_of m.new) outs.new.items) }
{
    m.knows_counts();
    outs.reserve(1)?;
    let at = usize::from(worker);
    let workers = m.workers.as_mut_slice();
    if at < workers.len() {
        let (desks, rows) = (m.desks.as_mut_slice(), m.rows.as_slice());
        step(
            m.front.alloc,
            &m.front.setup,
            desks,
            rows,
            &mut m.front.plan,
            &mut workers[at],
            outs,
        )
    } else {
        outs.push_reserved(Out::Idle);
        Ok(())
    }
}

/// What the worker does with its hand; there is room for one thing to give out.
fn step(
    alloc: Global,
    setup: &Setup,
    desks: &mut [Desk],
    rows: &[Row],
    plan: &mut Plan,
    w: &mut Worker,
    outs: &mut Vec<Out>,
) -> Result<(), AllocError>
    requires { vec_len outs.old < vec_capacity outs.old }
    ensures ok { OnOk result (StepsWorker (setup_of setup.now) rows.now desks.old desks.new
        (worker_state w.old) (worker_state w.new) outs.old.items outs.new.items) }
    ensures err { OnErr result ((desks.new ≡ desks.old) × (worker_state w.new ≡ worker_state w.old)
        × (outs.new.items ≡ outs.old.items)) }
{
    match &w.hand {
        Hand::Telling(notification) => {
            notify(
                alloc,
                &setup.links,
                &setup.head,
                rows,
                notification,
                &w.effect,
                outs,
            )?;
            w.hand = Hand::Free;
            Ok(())
        }
        Hand::Doing(job) => match asked_by(&setup.links, job) {
            Asks::Desk(question) => {
                ask_desk(desks, &question, w, outs);
                Ok(())
            }
            Asks::Nobody => {
                w.hand = Hand::Free;
                Ok(())
            }
            Asks::Legs => {
                w.legs.do_job(alloc, rows, job, plan, outs)?;
                w.hand = Hand::Free;
                Ok(())
            }
        },
        Hand::Free => match w.jobs.pop() {
            Some(job) => {
                w.hand = Hand::Doing(job);
                Ok(())
            }
            None => {
                outs.push_reserved(Out::Idle);
                Ok(())
            }
        },
    }
}

/// Asks the desk; what is to be told stays in the worker's hand.
fn ask_desk(desks: &mut [Desk], question: &Question, w: &mut Worker, outs: &mut Vec<Out>)
    requires stay { HasStay question.now.call }
    requires room { vec_len outs.old < vec_capacity outs.old }
    ensures { IsDeskTold question.now desks.old desks.new
        (worker_state w.old) (worker_state w.new) outs.old.items outs.new.items }
{
    match ask(desks, question, &mut w.effect, outs) {
        Some(notification) => w.hand = Hand::Telling(notification),
        None => w.hand = Hand::Free,
    }
}
