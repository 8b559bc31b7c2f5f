//! The announced set of an endpoint's media.

ghost use Rattle.std.specs.Prelude.{◌≡◌, ◌≢◌, ◌↔◌, ◌≤◌, ◌⊎◌, None, Some, drop, length, map, slice_get, take};
ghost use Rattle.bounding_set.specs.State.{announced_of};
ghost use Rattle.desk.specs.State.{DeskState};
ghost use Rattle.conference.specs.Conference.{ConferenceState};
ghost use Rattle.sfu_c.specs.Announcing.{TellsRequests, told_request};

use crate::faults::{CLOSED, DONE, NO_ENDPOINT, NO_ROOM};
use crate::numbers::{SfuAnnounced, SfuRequest};
use crate::slot::SfuConference;
use conference::Conference;
use rate_cert::Request;
use std::alloc::Global;

/// The numbers of a request.
fn told_request(request: &Request) -> SfuRequest
    ensures { result ≡ told_request request.now }
{
    SfuRequest {
        ssrc: request.owner.0,
        exponent: u32::from(request.tuple.exp),
        mantissa: request.tuple.mantissa,
        overhead: u32::from(request.tuple.overhead),
    }
}

/// Writes the numbers of these requests to the front.
pub fn write_requests(set: &[Request], room: &mut [SfuRequest])
    requires { length set.now ≤ length room.old }
    ensures written { take (length set.now) room.new ≡ map told_request set.now }
    ensures rest { drop (length set.now) room.new ≡ drop (length set.now) room.old }
{
    for (k, request) in set.iter().enumerate() {
        room[k] = told_request(request);
    }
}

/// Writes these requests, if there is room for them.
fn tell_requests(set: &[Request], room: &mut [SfuRequest]) -> SfuAnnounced
    ensures { TellsRequests set.now room.old room.new result }
{
    let mut answer = SfuAnnounced {
        fault: NO_ROOM,
        count: set.len(),
    };
    if set.len() <= room.len() {
        write_requests(set, room);
        answer.fault = DONE;
    }
    answer
}

/// Writes what is announced for the publisher, if there is room for it.
fn tell_announced(conference: &Conference, publisher: u16, room: &mut [SfuRequest]) -> SfuAnnounced
    ensures announced { (d : DeskState) → slice_get conference.now.world.desks publisher ≡ Some d
        → TellsRequests (announced_of d.bounds) room.old room.new result }
    ensures no_endpoint { (result.fault ≡ NO_ENDPOINT)
        ↔ (length conference.now.world.desks ≤ publisher) }
    ensures unchanged { result.fault ≡ NO_ENDPOINT → (room.new ≡ room.old) × (result.count ≡ 0) }
    ensures open { result.fault ≢ CLOSED }
{
    match conference.announced(publisher) {
        Some(set) => tell_requests(set.as_slice(), room),
        None => SfuAnnounced {
            fault: NO_ENDPOINT,
            count: 0,
        },
    }
}

/// Writes the requests that are announced for the endpoint of this number, by rising overhead: the smallest set of those that are live
/// for its media which permits what all of them together permit.
///
/// Refused as `CLOSED`; as `NO_ENDPOINT`; as `NO_ROOM`, if the array is too short: then the answer says how many requests there are. A
/// refusal leaves the array as it was.
#[unsafe(no_mangle)]
pub extern "C" fn sfu_announced(
    alloc: Global,
    conference: &mut SfuConference,
    endpoint: u16,
    room: &mut [SfuRequest],
) -> SfuAnnounced
    ensures announced { (c : ConferenceState) (d : DeskState)
        → conference.old.handle.held ≡ Some c → slice_get c.world.desks endpoint ≡ Some d
        → TellsRequests (announced_of d.bounds) room.old room.new result }
    ensures no_endpoint { (c : ConferenceState) → conference.old.handle.held ≡ Some c
        → ((result.fault ≡ NO_ENDPOINT) ↔ (length c.world.desks ≤ endpoint)) }
    ensures closed { (result.fault ≡ CLOSED) ↔ (conference.old.handle.held ≡ None) }
    ensures same { conference.new.handle.held ≡ conference.old.handle.held }
    ensures unchanged { (result.fault ≡ CLOSED) ⊎ (result.fault ≡ NO_ENDPOINT)
        → (room.new ≡ room.old) × (result.count ≡ 0) }
{
    let Some(held) = conference.take(alloc) else {
        return SfuAnnounced {
            fault: CLOSED,
            count: 0,
        };
    };
    let answer = tell_announced(&held, endpoint, room);
    conference.put(held);
    answer
}
