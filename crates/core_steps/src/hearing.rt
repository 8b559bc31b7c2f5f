//! What the ingress takes in: datagrams and selections. A moment is taken in by `ticking`. What is stated holds whatever stands beside
//! the front.

ghost use Rattle.std.specs.Prelude.{◌≡◌, ◌≢◌, ◌<◌, ℕ, false, [], ◌∷◌, ◌++◌, List, OnOk, OnErr, vec_len, vec_capacity};
ghost use Rattle.std.specs.List.{last_or};
ghost use Rattle.events.specs.declared.output.Out.TheVariants.{Refused};
ghost use Rattle.events.specs.declared.output.Refusal.TheVariants.{Room as ByRoom};
ghost use Rattle.core_steps.specs.Machine.{alone};
ghost use Rattle.desk_calls.specs.DeskCalls.{source_of};
ghost use Rattle.core_steps.specs.FollowUps.{room_with_report};
ghost use Rattle.core_steps.specs.Hearing.{IsHearing, SaysTaken, hearing, selecting};
ghost use Rattle.shared_packet.specs.Rtp.{IsReadAs};
ghost use Rattle.datagram.specs.Reads.{IsPacketRead, admission_of};
ghost use Rattle.datagram.specs.Saying.{media as Packet, leaves as Leaving, control as Controls};
ghost use Rattle.core_steps.specs.Rule.{is_busy};
ghost use Rattle.core_steps.specs.Run.{Stays};
ghost use Rattle.core_steps.specs.TakingIn.{TakesIn};

use crate::follow_ups::{push_asks, push_packet};
use crate::front::Front;
use crate::order_follow_ups::push_after;
use datagram::{Ask, Control, Media, Reading, Taking, What, read};
use events::{Out, Refusal};
use members::Room;
use settings::{Links, RoomFault};
use std::alloc::AllocError;
use tmmbr_tuple::Ssrc;

/// A datagram came from this endpoint, while nothing waits: it is read, and what it says is taken in.
pub(crate) fn hear(
    front: &mut Front,
    reading: &mut Reading,
    moment: u64,
    endpoint: u16,
    bytes: &[u8],
    outs: &mut Vec<Out>,
) -> Result<(), AllocError>
    requires { is_busy (alone front.old) ≡ false }
    ensures ok { TakesIn front.old (λ w. IsHearing w moment endpoint bytes.now) front.new
        outs.old.items outs.new.items result }
    ensures err { OnErr result (Stays (alone front.old) outs.old.items
        (alone front.new) outs.new.items) }
{
    let own = own_source(&front.setup.links, endpoint);
    read(bytes, own, None, reading)?;
    take(front, moment, reading.taking(endpoint, bytes), outs)
}

/// What a datagram of an endpoint says is taken in, while nothing waits.
pub(crate) fn take(
    front: &mut Front,
    moment: u64,
    taking: Taking<'_>,
    outs: &mut Vec<Out>,
) -> Result<(), AllocError>
    requires idle { is_busy (alone front.old) ≡ false }
    requires read { IsPacketRead taking.bytes.now taking.what }
    ensures ok { (bytes : List ℕ) → SaysTaken (alone front.old) (admission_of taking.entry) bytes
        → TakesIn front.old (λ w. IsHearing w moment taking.entry.endpoint bytes) front.new
        outs.old.items outs.new.items result }
    ensures err { OnErr result (Stays (alone front.old) outs.old.items
        (alone front.new) outs.new.items) }
{
    front.knows_count();
    let Taking {
        endpoint,
        what,
        asks,
        bytes,
    } = taking;
    match what {
        What::Media(packet) => hear_media(front, moment, endpoint, bytes, packet, outs),
        What::Goodbye => hear_goodbye(front, moment, endpoint, outs),
        What::Control(control) => hear_control(front, moment, endpoint, &control, asks, outs),
        What::Refused(refusal) => {
            outs.push(Out::Refused(refusal))?;
            Ok(())
        }
    }
}

/// The source of an endpoint.
fn own_source(links: &Links, endpoint: u16) -> Ssrc
    ensures { result ≡ source_of links.now endpoint }
{
    links.ssrc_of(endpoint).unwrap_or(Ssrc(0))
}

/// An RTP packet, which these bytes were read as: each worker that serves the publisher gets it. It is copied once for all, and not
/// before the room would take it in, and nobody reads it again.
fn hear_media(
    front: &mut Front,
    moment: u64,
    endpoint: u16,
    bytes: &[u8],
    packet: Media,
    outs: &mut Vec<Out>,
) -> Result<(), AllocError>
    requires idle { is_busy (alone front.old) ≡ false }
    requires read { IsReadAs bytes.now packet.parts }
    ensures ok { TakesIn front.old (λ w h. h ≡ hearing w moment endpoint bytes.now
        (Ok (Packet packet.ssrc.0 packet.parts.sequence_number packet.timestamp packet.parts.octets)))
        front.new outs.old.items outs.new.items result }
    ensures err { OnErr result (Stays (alone front.old) outs.old.items
        (alone front.new) outs.new.items) }
{
    front.knows_count();
    let Media {
        ssrc,
        timestamp,
        parts,
    } = packet;
    outs.reserve(1)?;
    if let Some(fault) = front.room.refuses(moment, endpoint, ssrc) {
        return refuse(fault, outs);
    }
    let workers = front.setup.links.workers();
    front
        .tasks
        .prepare(front.room.most_orders() + usize::from(workers))?;
    front
        .tasks
        .copy_datagram(front.alloc, bytes, parts, &mut front.plan)?;
    match front
        .room
        .hear(moment, endpoint, ssrc, &mut front.tasks.orders)
    {
        Ok(()) => {
            push_after(
                &front.setup,
                &front.room,
                front.tasks.orders.as_slice(),
                &mut front.tasks.follow_ups,
            );
            push_packet(
                &front.setup.links,
                &front.room,
                endpoint,
                workers,
                &mut front.tasks.follow_ups,
            );
            front
                .room
                .received(endpoint, parts.sequence_number, timestamp);
            Ok(())
        }
        Err(fault) => refuse(fault, outs),
    }
}

/// The endpoint says goodbye.
fn hear_goodbye(
    front: &mut Front,
    moment: u64,
    endpoint: u16,
    outs: &mut Vec<Out>,
) -> Result<(), AllocError>
    requires { is_busy (alone front.old) ≡ false }
    ensures ok { (bytes : List ℕ) → TakesIn front.old
        (λ w h. h ≡ hearing w moment endpoint bytes (Ok Leaving)) front.new
        outs.old.items outs.new.items result }
    ensures err { OnErr result (Stays (alone front.old) outs.old.items
        (alone front.new) outs.new.items) }
{
    front.knows_count();
    outs.reserve(1)?;
    front.tasks.prepare(front.room.most_orders())?;
    match front.room.bye(moment, endpoint, &mut front.tasks.orders) {
        Ok(()) => {
            push_after(
                &front.setup,
                &front.room,
                front.tasks.orders.as_slice(),
                &mut front.tasks.follow_ups,
            );
            Ok(())
        }
        Err(fault) => refuse(fault, outs),
    }
}

/// Other RTCP packets, and what they ask for.
fn hear_control(
    front: &mut Front,
    moment: u64,
    endpoint: u16,
    control: &Control,
    asks: &[Ask],
    outs: &mut Vec<Out>,
) -> Result<(), AllocError>
    requires { is_busy (alone front.old) ≡ false }
    ensures ok { (bytes : List ℕ) (reports : List (ℕ × ℕ))
        → control.now.report ≡ last_or None reports
        → TakesIn front.old (λ w h. h ≡ hearing w moment endpoint bytes
        (Ok (Controls control.now.speaker.0 reports control.now.tmmbns asks.now)))
        front.new outs.old.items outs.new.items result }
    ensures err { OnErr result (Stays (alone front.old) outs.old.items
        (alone front.new) outs.new.items) }
{
    front.knows_count();
    outs.reserve(asks.len().max(1))?;
    if let Some(fault) = front.room.refuses(moment, endpoint, control.speaker) {
        return refuse(fault, outs);
    }
    front.tasks.prepare(front.room.most_orders() + asks.len())?;
    match front
        .room
        .hear(moment, endpoint, control.speaker, &mut front.tasks.orders)
    {
        Ok(()) => {
            push_after(
                &front.setup,
                &front.room,
                front.tasks.orders.as_slice(),
                &mut front.tasks.follow_ups,
            );
            push_asks(
                &front.setup.links,
                &front.room,
                endpoint,
                asks,
                &mut front.tasks.follow_ups,
                outs,
            );
            note_report(&mut front.room, endpoint, control.report);
            front.tmmbns = front.tmmbns.saturating_add(control.tmmbns);
            Ok(())
        }
        Err(fault) => refuse(fault, outs),
    }
}

/// The endpoint's sender report, if there is one, came at the room's moment.
fn note_report(room: &mut Room, endpoint: u16, report: Option<(u64, u32)>)
    ensures { room.new ≡ room_with_report room.old endpoint report }
{
    if let Some((ntp, rtp)) = report {
        room.sender_report(endpoint, ntp, rtp);
    }
}

/// The leg is selected or not, and nothing waits.
pub(crate) fn select(
    front: &mut Front,
    moment: u64,
    leg: u16,
    on: bool,
    outs: &mut Vec<Out>,
) -> Result<(), AllocError>
    requires { is_busy (alone front.old) ≡ false }
    ensures ok { TakesIn front.old (λ w h. h ≡ selecting w moment leg on) front.new
        outs.old.items outs.new.items result }
    ensures err { OnErr result (Stays (alone front.old) outs.old.items
        (alone front.new) outs.new.items) }
{
    front.knows_count();
    outs.reserve(1)?;
    front.tasks.prepare(front.room.most_orders())?;
    match front.room.select(moment, leg, on, &mut front.tasks.orders) {
        Ok(()) => {
            push_after(
                &front.setup,
                &front.room,
                front.tasks.orders.as_slice(),
                &mut front.tasks.follow_ups,
            );
            Ok(())
        }
        Err(fault) => refuse(fault, outs),
    }
}

/// Says that the room refused; there is room for it.
fn refuse(fault: RoomFault, outs: &mut Vec<Out>) -> Result<(), AllocError>
    requires { vec_len outs.old < vec_capacity outs.old }
    ensures ok { OnOk result ((fault ≢ RoomFault.NoMemory)
        × (outs.new.items ≡ outs.old.items ++ Refused (ByRoom fault) ∷ [])) }
    ensures err { OnErr result (outs.new.items ≡ outs.old.items) }
{
    match fault {
        RoomFault::NoMemory => Err(AllocError),
        fault => {
            outs.push_reserved(Out::Refused(Refusal::Room(fault)));
            Ok(())
        }
    }
}
