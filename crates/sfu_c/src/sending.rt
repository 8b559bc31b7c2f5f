//! What a conference has to send is handed out.

ghost use Rattle.std.specs.Prelude.{◌≡◌, ◌≢◌, ◌↔◌, ◌≤◌, None, length};
ghost use Rattle.conference.specs.Conference.{datagram_of};
ghost use Rattle.sfu_c.specs.Serving.{OnHeld, limit_in};
ghost use Rattle.sfu_c.specs.Sending.{AnswersNext, HandsOut, PutsInFront, WritesDatagram};

use crate::faults::{CLOSED, DONE, NO_ROOM, NOTHING};
use crate::numbers::SfuNext;
use crate::slot::SfuConference;
use conference::{Conference, Delivery};
use std::alloc::Global;

/// Writes these bytes to the front.
fn put_front(bytes: &[u8], room: &mut [u8])
    requires { length bytes.now ≤ length room.old }
    ensures { PutsInFront bytes.now room.old room.new }
{
    room[..bytes.len()].copy_from_slice(bytes);
}

/// Writes the datagram, if there is room for it.
fn write_datagram(next: &Delivery<'_>, room: &mut [u8]) -> SfuNext
    ensures { WritesDatagram (datagram_of next.now) room.old room.new result }
{
    let mut answer = SfuNext {
        fault: NO_ROOM,
        endpoint: u32::from(next.endpoint),
        size: next.bytes.len(),
    };
    if next.bytes.len() <= room.len() {
        put_front(next.bytes, room);
        answer.fault = DONE;
    }
    answer
}

/// Writes the oldest datagram that waits.
#[tactic(auto, using(crate::proofs::SendingLemmas::answers_datagram, crate::proofs::SendingLemmas::answers_nothing))]
fn write_next(conference: &Conference, room: &mut [u8]) -> SfuNext
    ensures { AnswersNext conference.now.waiting room.old room.new result }
{
    match conference.next() {
        Some(next) => write_datagram(&next, room),
        None => SfuNext {
            fault: NOTHING,
            endpoint: 0,
            size: 0,
        },
    }
}

/// Writes the oldest datagram that waits, and takes it if it was written.
fn hand_out(conference: &mut Conference, room: &mut [u8]) -> SfuNext
    ensures answers { HandsOut room.old room.new result conference.old conference.new }
    ensures limit { conference.new.limit ≡ conference.old.limit }
{
    let answer = write_next(conference, room);
    if answer.fault == DONE {
        conference.take_next();
    }
    answer
}

/// Writes the datagram that is to be sent next to the front of the buffer, and takes it: the next call gives the one after it.
///
/// Refused as `CLOSED`; as `NOTHING`, if none is to be sent; as `NO_ROOM`, if the buffer is too short: then the answer says how many
/// bytes the datagram has, and it is still the next. A refusal leaves the buffer as it was.
#[unsafe(no_mangle)]
pub extern "C" fn sfu_next_out(
    alloc: Global,
    conference: &mut SfuConference,
    room: &mut [u8],
) -> SfuNext
    ensures answers { result.fault ≢ CLOSED → OnHeld (HandsOut room.old room.new result)
        conference.old.handle.held conference.new.handle.held }
    ensures closed { (result.fault ≡ CLOSED) ↔ (conference.old.handle.held ≡ None) }
    ensures unchanged { result.fault ≡ CLOSED
        → (conference.new.handle.held ≡ None) × (room.new ≡ room.old) }
    ensures none { result.fault ≡ CLOSED → (result.endpoint ≡ 0) × (result.size ≡ 0) }
    ensures limit { limit_in conference.new.handle.held ≡ limit_in conference.old.handle.held }
{
    let Some(mut held) = conference.take(alloc) else {
        return SfuNext {
            fault: CLOSED,
            endpoint: 0,
            size: 0,
        };
    };
    let answer = hand_out(&mut held, room);
    conference.put(held);
    answer
}
