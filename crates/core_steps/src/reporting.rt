//! Which reports are due: in a round of them each endpoint and each leg has its slot (RFC 3550, section 6.2).

ghost use Rattle.std.specs.Prelude.{◌≡◌, ◌+◌, ◌-◌, ◌≤◌, ◌<◌, ◌^◌, ◌&&◌, ℕ, List, length, map, None, Some, if◌then◌else◌, vec_len, vec_capacity};
ghost use Rattle.std.specs.List.{enumerate_from, flat_map};
ghost use Rattle.std.specs.Option.{option_to_list};
ghost use Rattle.members.specs.Presence.{is_present_at};
ghost use Rattle.core_steps.specs.FollowUps.{AddsTasks, IsTask};
ghost use Rattle.core_steps.specs.Hearing.{leg_report, leg_report_if, reports_due, upstream_reports};
ghost use Rattle.core_steps.specs.Machine.{setup_of, task_of};
ghost use Rattle.core_steps.specs.Rounds.{comes_between, round_with, slots_come};
ghost use Rattle.core_steps.specs.World.{report};

use crate::follow_ups::push_some;
use crate::front::Setup;
use crate::rounds::Round;
use crate::seed::Seed;
use crate::tasks::FollowUp;
use members::Room;
use settings::{LegSettings, Links};

/// Slots of a round that come at one moment.
#[derive(Clone, Copy)]
pub(crate) struct Slots {
    /// How many came before.
    pub(crate) done: u64,
    /// How many have come now.
    pub(crate) come: u64,
}

/// The slots of the round that come now.
pub(crate) fn slots_now(setup: &Setup, room: &Room, round: Round) -> Slots
    ensures done { result.done ≡ round.done }
    ensures come { result.come ≡ slots_come (setup_of setup.now) (room.now.moment - round.began) }
{
    let since = room.moment().saturating_sub(round.began);
    Slots {
        done: round.done,
        come: slots_come(setup, since),
    }
}

/// So many slots have come, so long after a round began.
fn slots_come(setup: &Setup, since: u64) -> u64
    ensures { result ≡ slots_come (setup_of setup.now) since }
{
    let pace = setup.pace;
    if since >= pace.period_ms {
        pace.slots
    } else {
        since * pace.slots / pace.period_ms
    }
}

/// The round from then on: the same one, or the next, if all slots have come.
pub(crate) fn round_after(setup: &Setup, room: &Room, round: Round, slots: Slots) -> Round
    ensures { result ≡ round_with (setup_of setup.now) room.now.moment round slots.come }
{
    if slots.come == setup.pace.slots {
        Round {
            began: room.moment(),
            done: 0,
        }
    } else {
        Round {
            began: round.began,
            done: slots.come,
        }
    }
}

/// Whether the slot of the endpoint or leg of this number is one of these.
fn is_due(setup: &Setup, slots: Slots, number: u16) -> bool
    ensures { result ≡ comes_between (setup_of setup.now) slots.done slots.come number }
{
    let slot = u64::from(number) % setup.pace.slots;
    slots.done <= slot && slot < slots.come
}

/// Those present of so many endpoints are sent a report, then the subscriber of each leg in which a stay stands, if its slot is one
/// of these.
pub(crate) fn push_reports(
    setup: &Setup,
    room: &Room,
    slots: Slots,
    endpoints: u16,
    follow_ups: &mut Vec<FollowUp>,
)
    requires { vec_len follow_ups.old + endpoints + length setup.now.links.legs
        ≤ vec_capacity follow_ups.old }
    ensures { AddsTasks follow_ups.old.items follow_ups.new.items
        (λ bytes. reports_due setup.now.links room.now
        (comes_between (setup_of setup.now) slots.done slots.come) endpoints) }
{
    if slots.done < slots.come {
        push_upstream_reports(setup, room, slots, endpoints, follow_ups);
        push_leg_reports(setup, room, slots, setup.links.legs(), follow_ups);
    }
}

/// Those present of so many endpoints are sent a report, if their slot is one of these.
fn push_upstream_reports(
    setup: &Setup,
    room: &Room,
    slots: Slots,
    endpoints: u16,
    follow_ups: &mut Vec<FollowUp>,
)
    requires { vec_len follow_ups.old + endpoints ≤ vec_capacity follow_ups.old }
    ensures items { AddsTasks follow_ups.old.items follow_ups.new.items
        (λ bytes. upstream_reports room.now
        (comes_between (setup_of setup.now) slots.done slots.come) endpoints) }
    ensures len { vec_len follow_ups.new ≤ vec_len follow_ups.old + endpoints }
    ensures capacity { vec_capacity follow_ups.new ≡ vec_capacity follow_ups.old }
{
    for endpoint in 0..endpoints {
        push_some(upstream_report(setup, room, slots, endpoint), follow_ups);
    }
}

/// The report to an endpoint, if it is present and its slot is one of these.
fn upstream_report(setup: &Setup, room: &Room, slots: Slots, endpoint: u16) -> Option<FollowUp>
    ensures { IsTask result (if is_present_at room.now.endpoints endpoint
        && comes_between (setup_of setup.now) slots.done slots.come endpoint
        then Some (report endpoint) else None) }
{
    if room.is_present(endpoint) && is_due(setup, slots, endpoint) {
        Some(FollowUp::Report(endpoint))
    } else {
        None
    }
}

/// The subscriber of each of these legs in which a stay stands is sent a report, if its slot is one of these.
fn push_leg_reports(
    setup: &Setup,
    room: &Room,
    slots: Slots,
    legs: &[LegSettings],
    follow_ups: &mut Vec<FollowUp>,
)
    requires few { length legs.now < 2 ^ 16 }
    requires room { vec_len follow_ups.old + length legs.now ≤ vec_capacity follow_ups.old }
    ensures { AddsTasks follow_ups.old.items follow_ups.new.items
        (λ bytes. flat_map (leg_report_if setup.now.links room.now
        (comes_between (setup_of setup.now) slots.done slots.come)) (enumerate_from 0 legs.now)) }
{
    for (number, leg) in legs.iter().enumerate() {
        push_some(
            leg_report_if(setup, room, slots, number as u16, leg),
            follow_ups,
        );
    }
}

/// The report for the subscriber of a leg, if its slot is one of these.
fn leg_report_if(
    setup: &Setup,
    room: &Room,
    slots: Slots,
    leg: u16,
    settings: &LegSettings,
) -> Option<FollowUp>
    ensures { (bytes : List ℕ) → map (task_of bytes) (option_to_list result)
        ≡ leg_report_if setup.now.links room.now
        (comes_between (setup_of setup.now) slots.done slots.come) (leg, settings.now) }
{
    if is_due(setup, slots, leg) {
        leg_report(&setup.links, room, leg, settings)
    } else {
        None
    }
}

/// The report for the subscriber of a leg.
fn leg_report(links: &Links, room: &Room, leg: u16, settings: &LegSettings) -> Option<FollowUp>
    ensures { (bytes : List ℕ) → map (task_of bytes) (option_to_list result)
        ≡ leg_report links.now room.now (leg, settings.now) }
{
    let stay = room.stay(leg);
    if stay == 0 {
        return None;
    }
    let sr = room.last_sr(settings.publisher);
    Some(FollowUp::Push {
        worker: links.worker_of(settings),
        seed: Seed::Report { leg, stay, sr },
    })
}
