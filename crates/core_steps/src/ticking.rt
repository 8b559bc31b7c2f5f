//! What the ingress takes in of a moment, and what is due to those present then.

ghost use Rattle.std.specs.Prelude.{◌≡◌, ◌==◌, ◌+◌, ◌≤◌, ℕ, false, [], List, None, Some, OnErr, if◌then◌else◌, vec_len, vec_capacity};
ghost use Rattle.members.specs.Presence.{is_present_at};
ghost use Rattle.events.specs.declared.output.Out.{Out as Given};
ghost use Rattle.core_steps.specs.Machine.{alone, task_of};
ghost use Rattle.core_steps.specs.FollowUps.{AddsTasks, IsTask, task_due, tasks_due};
ghost use Rattle.core_steps.specs.Hearing.{ticking};
ghost use Rattle.core_steps.specs.Rule.{is_busy};
ghost use Rattle.core_steps.specs.TakingIn.{TakesIn};

use crate::follow_ups::push_some;
use crate::front::{Front, Setup};
use crate::order_follow_ups::push_after;
use crate::reporting::{push_reports, round_after, slots_now};
use crate::tasks::FollowUp;
use members::Room;
use std::alloc::AllocError;

/// It is this moment, and nothing waits.
pub(crate) fn tick(front: &mut Front, moment: u64) -> Result<(), AllocError>
    requires { is_busy (alone front.old) ≡ false }
    ensures ok { (outs : List Given) → TakesIn front.old (λ w h. h ≡ ticking w moment) front.new
        outs outs result }
    ensures err { OnErr result (alone front.new ≡ alone front.old) }
{
    front.knows_count();
    let endpoints = front.setup.links.endpoints().len() as u16;
    let legs = front.setup.links.legs().len();
    let most = front.room.most_orders() + 3 * usize::from(endpoints) + legs;
    front.tasks.prepare(most)?;
    front
        .room
        .tick_or_no_memory(moment, &mut front.tasks.orders)?;
    push_after(
        &front.setup,
        &front.room,
        front.tasks.orders.as_slice(),
        &mut front.tasks.follow_ups,
    );
    push_due(
        &front.room,
        endpoints,
        Due::Pulse,
        &mut front.tasks.follow_ups,
    );
    push_expiring(
        &front.setup,
        &front.room,
        endpoints,
        &mut front.tasks.follow_ups,
    );
    let slots = slots_now(&front.setup, &front.room, front.round);
    push_reports(
        &front.setup,
        &front.room,
        slots,
        endpoints,
        &mut front.tasks.follow_ups,
    );
    front.round = round_after(&front.setup, &front.room, front.round, slots);
    Ok(())
}

/// What is due to those present.
#[derive(Clone, Copy)]
enum Due {
    /// Their desks are told the moment.
    Pulse,
    /// Their desks take requests away that are too old.
    Expire,
}

/// This is due to those present of so many endpoints.
fn push_due(room: &Room, endpoints: u16, due: Due, follow_ups: &mut Vec<FollowUp>)
    requires { vec_len follow_ups.old + endpoints ≤ vec_capacity follow_ups.old }
    ensures items { AddsTasks follow_ups.old.items follow_ups.new.items
        (λ bytes. tasks_due due room.now endpoints) }
    ensures len { vec_len follow_ups.new ≤ vec_len follow_ups.old + endpoints }
    ensures capacity { vec_capacity follow_ups.new ≡ vec_capacity follow_ups.old }
{
    for endpoint in 0..endpoints {
        push_some(due_to(room, due, endpoint), follow_ups);
    }
}

/// This is due to an endpoint, if it is present.
fn due_to(room: &Room, due: Due, endpoint: u16) -> Option<FollowUp>
    ensures { IsTask result (if is_present_at room.now.endpoints endpoint
        then Some (task_due due endpoint) else None) }
{
    if room.is_present(endpoint) {
        Some(due_at(due, endpoint))
    } else {
        None
    }
}

/// This is due to an endpoint.
fn due_at(due: Due, endpoint: u16) -> FollowUp
    ensures { (bytes : List ℕ) → task_of bytes result ≡ task_due due endpoint }
{
    match due {
        Due::Pulse => FollowUp::Pulse(endpoint),
        Due::Expire => FollowUp::Expire(endpoint),
    }
}

/// Requests that are too old are taken away, if the settings say so.
fn push_expiring(setup: &Setup, room: &Room, endpoints: u16, follow_ups: &mut Vec<FollowUp>)
    requires { vec_len follow_ups.old + endpoints ≤ vec_capacity follow_ups.old }
    ensures items { AddsTasks follow_ups.old.items follow_ups.new.items
        (λ bytes. if setup.now.request_ms == 0 then []
        else tasks_due Due.Expire room.now endpoints) }
    ensures len { vec_len follow_ups.new ≤ vec_len follow_ups.old + endpoints }
    ensures capacity { vec_capacity follow_ups.new ≡ vec_capacity follow_ups.old }
{
    if setup.request_ms != 0 {
        push_due(room, endpoints, Due::Expire, follow_ups);
    }
}
