//! What follows from a datagram: a packet for each worker that serves its publisher, and jobs for what is asked for.

ghost use Rattle.std.specs.Prelude.{◌≡◌, ◌+◌, ◌≤◌, ◌<◌, ◌++◌, ℕ, List, length, map, filter, None, Some, option_map, vec_len, vec_capacity, if◌then◌else◌};
ghost use Rattle.std.specs.List.{filter_map, flat_map};
ghost use Rattle.std.specs.Option.{option_to_list};
ghost use Rattle.events.specs.declared.job.Job.TheVariants.{Packet};
ghost use Rattle.core_steps.specs.FollowUps.{AddsTasks, IsTask};
ghost use Rattle.core_steps.specs.Hearing.{is_served_by, job_by, media_of, numbers_below, owner_of, refusal_for, task_for};
ghost use Rattle.core_steps.specs.Machine.{task_of};
ghost use Rattle.core_steps.specs.Seed.{job_of};
ghost use Rattle.core_steps.specs.World.{push};

use crate::seed::Seed;
use crate::tasks::FollowUp;
use datagram::Ask;
use events::{Out, Refusal};
use members::Room;
use settings::{Links, RoomFault};
use tmmbr_tuple::Ssrc;

/// The datagram is for each worker that serves the publisher.
pub(crate) fn push_packet(
    links: &Links,
    room: &Room,
    publisher: u16,
    workers: u16,
    follow_ups: &mut Vec<FollowUp>,
)
    requires { vec_len follow_ups.old + workers ≤ vec_capacity follow_ups.old }
    ensures { AddsTasks follow_ups.old.items follow_ups.new.items
        (λ bytes. map (λ worker. push worker (Packet publisher bytes))
        (filter (is_served_by links.now room.now publisher) (numbers_below workers))) }
{
    for worker in 0..workers {
        push_some(packet_to(links, room, publisher, worker), follow_ups);
    }
}

/// The datagram for a worker that serves the publisher.
fn packet_to(links: &Links, room: &Room, publisher: u16, worker: u16) -> Option<FollowUp>
    ensures { (bytes : List ℕ) → option_map (task_of bytes) result
        ≡ (if is_served_by links.now room.now publisher worker
        then Some (push worker (Packet publisher bytes)) else None) }
{
    if is_served_by(links, room, publisher, worker) {
        Some(FollowUp::Push {
            worker,
            seed: Seed::Packet { publisher },
        })
    } else {
        None
    }
}

/// Whether the worker owns one of this publisher's legs that has a stay.
fn is_served_by(links: &Links, room: &Room, publisher: u16, worker: u16) -> bool
    ensures { result ≡ is_served_by links.now room.now publisher worker }
{
    links.of_publisher(publisher).iter().any(|leg| room.stay(*leg) != 0
        && owner_of(links, *leg) == worker)
}

/// The worker that owns the leg of this number.
pub(crate) fn owner_of(links: &Links, leg: u16) -> u16
    ensures { result ≡ owner_of links.now leg }
{
    match links.leg(leg) {
        Some(link) => links.worker_of(link),
        None => 0,
    }
}

/// What is asked for becomes jobs; an ask about no leg of the endpoint, or one without a stay, is refused by itself.
pub(crate) fn push_asks(
    links: &Links,
    room: &Room,
    endpoint: u16,
    asks: &[Ask],
    follow_ups: &mut Vec<FollowUp>,
    outs: &mut Vec<Out>,
)
    requires follow_ups { vec_len follow_ups.old + length asks.now ≤ vec_capacity follow_ups.old }
    requires outs { vec_len outs.old + length asks.now ≤ vec_capacity outs.old }
    ensures follow_ups { AddsTasks follow_ups.old.items follow_ups.new.items
        (λ bytes. filter_map (task_for links.now room.now endpoint) asks.now) }
    ensures outs { outs.new.items ≡ outs.old.items
        ++ flat_map (λ a. refusal_for (task_for links.now room.now endpoint a)) asks.now }
{
    for ask in asks {
        push_or_refuse(follow_up(links, room, endpoint, ask), follow_ups, outs);
    }
}

/// Puts a follow-up after those that wait, or says that there is none; there is room for it.
fn push_or_refuse(next: Option<FollowUp>, follow_ups: &mut Vec<FollowUp>, outs: &mut Vec<Out>)
    requires follow_ups { vec_len follow_ups.old < vec_capacity follow_ups.old }
    requires outs { vec_len outs.old < vec_capacity outs.old }
    ensures follow_ups { follow_ups.new.items ≡ follow_ups.old.items ++ option_to_list next }
    ensures outs { outs.new.items ≡ outs.old.items ++ refusal_for next }
    ensures len { vec_len follow_ups.new ≤ vec_len follow_ups.old + 1 }
    ensures outs_len { vec_len outs.new ≤ vec_len outs.old + 1 }
    ensures capacity { vec_capacity follow_ups.new ≡ vec_capacity follow_ups.old }
    ensures outs_capacity { vec_capacity outs.new ≡ vec_capacity outs.old }
{
    match next {
        Some(next) => follow_ups.push_reserved(next),
        None => outs.push_reserved(Out::Refused(Refusal::Room(RoomFault::UnknownLeg))),
    }
}

/// The job for an ask.
fn follow_up(links: &Links, room: &Room, endpoint: u16, ask: &Ask) -> Option<FollowUp>
    ensures { IsTask result (task_for links.now room.now endpoint ask.now) }
{
    let leg = links.leg_to(endpoint, media_of(ask))?;
    let stay = room.stay(leg);
    if stay == 0 {
        return None;
    }
    Some(FollowUp::Push {
        worker: owner_of(links, leg),
        seed: seed_by(room.moment(), leg, stay, ask),
    })
}

/// Whose media an ask is about.
fn media_of(ask: &Ask) -> Ssrc
    ensures { result.0 ≡ media_of ask.now }
{
    match ask {
        Ask::Rate { media, .. } => *media,
        Ask::Resend { media, .. } => *media,
        Ask::Picture { media } => *media,
    }
}

/// What an ask about a leg in which this stay stands becomes.
fn seed_by(moment: u64, leg: u16, stay: u64, ask: &Ask) -> Seed
    ensures { (bytes : List ℕ) → job_of bytes result ≡ job_by moment leg stay ask.now }
{
    match ask {
        Ask::Rate { word, .. } => Seed::Request {
            leg,
            stay,
            word: *word,
        },
        Ask::Resend { nack, .. } => Seed::Resend {
            leg,
            stay,
            nack: *nack,
        },
        Ask::Picture { .. } => Seed::Pli { leg, moment },
    }
}

/// Puts a follow-up after those that wait, if there is one; there is room for it.
pub(crate) fn push_some(next: Option<FollowUp>, follow_ups: &mut Vec<FollowUp>)
    requires { vec_len follow_ups.old < vec_capacity follow_ups.old }
    ensures items { follow_ups.new.items ≡ follow_ups.old.items ++ option_to_list next }
    ensures len { vec_len follow_ups.new ≤ vec_len follow_ups.old + 1 }
    ensures capacity { vec_capacity follow_ups.new ≡ vec_capacity follow_ups.old }
{
    if let Some(next) = next {
        follow_ups.push_reserved(next);
    }
}
