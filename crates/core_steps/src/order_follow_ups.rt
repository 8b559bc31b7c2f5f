//! What follows from the orders of the room themselves, as legs begin and end.

ghost use Rattle.std.specs.Prelude.{◌≡◌, ◌+◌, ◌≤◌, length, vec_len, vec_capacity};
ghost use Rattle.std.specs.List.{filter_map};
ghost use Rattle.core_steps.specs.FollowUps.{AddsTasks, IsTask};
ghost use Rattle.core_steps.specs.Hearing.{goodbye_task, is_left, picture_task, task_after};
ghost use Rattle.core_steps.specs.Machine.{setup_of};

use crate::follow_ups::{owner_of, push_some};
use crate::front::Setup;
use crate::seed::Seed;
use crate::tasks::FollowUp;
use members::{Order, Room};
use settings::Links;

/// What follows from these orders, in their order.
pub(crate) fn push_after(
    setup: &Setup,
    room: &Room,
    orders: &[Order],
    follow_ups: &mut Vec<FollowUp>,
)
    requires { vec_len follow_ups.old + length orders.now ≤ vec_capacity follow_ups.old }
    ensures items { AddsTasks follow_ups.old.items follow_ups.new.items
        (λ bytes. filter_map (task_after (setup_of setup.now) room.now) orders.now) }
    ensures len { vec_len follow_ups.new ≤ vec_len follow_ups.old + length orders.now }
    ensures capacity { vec_capacity follow_ups.new ≡ vec_capacity follow_ups.old }
{
    for order in orders {
        push_some(follow_up_after(setup, room, *order), follow_ups);
    }
}

/// What follows from an order.
fn follow_up_after(setup: &Setup, room: &Room, order: Order) -> Option<FollowUp>
    ensures { IsTask result (task_after (setup_of setup.now) room.now order) }
{
    match order {
        Order::Arrive { .. } => None,
        Order::Depart { leg, .. } => goodbye_after(setup, room, leg),
        Order::Route { leg, on, .. } => picture_after(setup, room, leg, on),
    }
}

/// A leg that is sent from now on asks for a picture, if the settings say so.
fn picture_after(setup: &Setup, room: &Room, leg: u16, on: bool) -> Option<FollowUp>
    ensures { IsTask result (picture_task (setup_of setup.now) room.now leg on) }
{
    if on && setup.rules.early_pictures {
        Some(FollowUp::Push {
            worker: owner_of(&setup.links, leg),
            seed: Seed::Pli {
                leg,
                moment: room.moment(),
            },
        })
    } else {
        None
    }
}

/// The subscriber of a leg that is left behind is told so, if the settings say so.
fn goodbye_after(setup: &Setup, room: &Room, leg: u16) -> Option<FollowUp>
    ensures { IsTask result (goodbye_task (setup_of setup.now) room.now leg) }
{
    if setup.rules.leg_goodbyes && is_left(&setup.links, room, leg) {
        Some(FollowUp::Push {
            worker: owner_of(&setup.links, leg),
            seed: Seed::Goodbye { leg },
        })
    } else {
        None
    }
}

/// Whether the leg's publisher is gone, and its subscriber is there.
fn is_left(links: &Links, room: &Room, leg: u16) -> bool
    ensures { result ≡ is_left links.now room.now leg }
{
    match links.leg(leg) {
        Some(link) => !room.is_present(link.publisher) && room.is_present(link.subscriber),
        None => false,
    }
}
