//! The live requests for an endpoint's media, and the certificate of the set that is announced for them.

ghost use Rattle.std.specs.Prelude.{◌≡◌, ◌≢◌, ◌↔◌, ◌≤◌, ◌⊎◌, ◌/◌, ◌%◌, ◌^◌, None, Some, drop, length, map, slice_get, take};
ghost use Rattle.desk.specs.State.{DeskState};
ghost use Rattle.conference.specs.Conference.{ConferenceState};
ghost use Rattle.sfu_c.specs.Certifying.{TellsCertificate, tells_nothing, told_implied, told_kept};

use crate::announcing::write_requests;
use crate::faults::{CLOSED, DONE, NO_ENDPOINT, NO_ROOM};
use crate::numbers::{SfuCertified, SfuImplied, SfuKept, SfuRequest};
use crate::slot::SfuConference;
use conference::Conference;
use rate_cert::{Cert, Implied, Kept, Request};
use std::alloc::Global;

fn upper_half(number: u128) -> u64
    ensures { result ≡ number / 2 ^ 64 }
{
    (number >> 64) as u64
}

fn lower_half(number: u128) -> u64
    ensures { result ≡ number % 2 ^ 64 }
{
    (number % (1 << 64)) as u64
}

/// The numbers of a kept entry.
fn told_kept(entry: &Kept) -> SfuKept
    ensures { result ≡ told_kept entry.now }
{
    SfuKept {
        packets_high: upper_half(entry.pair.packets),
        packets_low: lower_half(entry.pair.packets),
        bits_high: upper_half(entry.pair.bits),
        bits_low: lower_half(entry.pair.bits),
        seconds: entry.pair.seconds as u32,
        place: u32::from(entry.place),
    }
}

/// The numbers of an implied entry.
fn told_implied(entry: &Implied) -> SfuImplied
    ensures { result ≡ told_implied entry.now }
{
    SfuImplied {
        place: u32::from(entry.place),
        a: u32::from(entry.a),
        b: u32::from(entry.b),
        p: u32::from(entry.p),
        q: u32::from(entry.q),
        r: u32::from(entry.r),
    }
}

/// Writes the numbers of these entries to the front.
fn write_kept(entries: &[Kept], room: &mut [SfuKept])
    requires { length entries.now ≤ length room.old }
    ensures written { take (length entries.now) room.new ≡ map told_kept entries.now }
    ensures rest { drop (length entries.now) room.new ≡ drop (length entries.now) room.old }
{
    for (k, entry) in entries.iter().enumerate() {
        room[k] = told_kept(entry);
    }
}

/// Writes these likewise.
fn write_implied(entries: &[Implied], room: &mut [SfuImplied])
    requires { length entries.now ≤ length room.old }
    ensures written { take (length entries.now) room.new ≡ map told_implied entries.now }
    ensures rest { drop (length entries.now) room.new ≡ drop (length entries.now) room.old }
{
    for (k, entry) in entries.iter().enumerate() {
        room[k] = told_implied(entry);
    }
}

/// Writes these requests with the certificate, if there is room for all.
fn tell_certificate(
    requests: &[Request],
    cert: &Cert,
    live: &mut [SfuRequest],
    kept: &mut [SfuKept],
    implied: &mut [SfuImplied],
) -> SfuCertified
    ensures { TellsCertificate requests.now cert.now live.old live.new kept.old kept.new
        implied.old implied.new result }
{
    let kept_entries = cert.kept.as_slice();
    let implied_entries = cert.implied.as_slice();
    let mut answer = SfuCertified {
        fault: NO_ROOM,
        live: requests.len(),
        kept: kept_entries.len(),
        implied: implied_entries.len(),
    };
    if answer.live <= live.len() && answer.kept <= kept.len() && answer.implied <= implied.len() {
        write_requests(requests, live);
        write_kept(kept_entries, kept);
        write_implied(implied_entries, implied);
        answer.fault = DONE;
    }
    answer
}

/// The answer if nothing is told.
fn told_nothing(fault: u32) -> SfuCertified
    ensures { result ≡ tells_nothing fault }
{
    SfuCertified {
        fault,
        live: 0,
        kept: 0,
        implied: 0,
    }
}

/// Writes what is live for the publisher and the certificate, if there is room for all.
fn tell_certified(
    conference: &Conference,
    publisher: u16,
    live: &mut [SfuRequest],
    kept: &mut [SfuKept],
    implied: &mut [SfuImplied],
) -> SfuCertified
    ensures certified { (d : DeskState) → slice_get conference.now.world.desks publisher ≡ Some d
        → TellsCertificate d.bounds.rows d.bounds.cert live.old live.new kept.old kept.new
        implied.old implied.new result }
    ensures no_endpoint { (result.fault ≡ NO_ENDPOINT)
        ↔ (length conference.now.world.desks ≤ publisher) }
    ensures unchanged { result.fault ≡ NO_ENDPOINT → (result ≡ tells_nothing NO_ENDPOINT)
        × (live.new ≡ live.old) × (kept.new ≡ kept.old) × (implied.new ≡ implied.old) }
    ensures open { result.fault ≢ CLOSED }
{
    match conference.certified(publisher) {
        Some(shown) => tell_certificate(shown.live, shown.cert, live, kept, implied),
        None => told_nothing(NO_ENDPOINT),
    }
}

/// Writes the requests that are live for the media of the endpoint of this number, by rising owner, and the certificate of the set that
/// is announced for them, whose places count these requests from 0: kept entries by rising overhead, implied ones by rising place.
///
/// Refused as `CLOSED`; as `NO_ENDPOINT`; as `NO_ROOM`, if one of the arrays is too short: then the answer says how many there are of
/// each. A refusal leaves the arrays as they were.
#[unsafe(no_mangle)]
pub extern "C" fn sfu_certified(
    alloc: Global,
    conference: &mut SfuConference,
    endpoint: u16,
    live: &mut [SfuRequest],
    kept: &mut [SfuKept],
    implied: &mut [SfuImplied],
) -> SfuCertified
    ensures certified { (c : ConferenceState) (d : DeskState)
        → conference.old.handle.held ≡ Some c → slice_get c.world.desks endpoint ≡ Some d
        → TellsCertificate d.bounds.rows d.bounds.cert live.old live.new kept.old kept.new
        implied.old implied.new result }
    ensures no_endpoint { (c : ConferenceState) → conference.old.handle.held ≡ Some c
        → ((result.fault ≡ NO_ENDPOINT) ↔ (length c.world.desks ≤ endpoint)) }
    ensures closed { (result.fault ≡ CLOSED) ↔ (conference.old.handle.held ≡ None) }
    ensures same { conference.new.handle.held ≡ conference.old.handle.held }
    ensures unchanged { (result.fault ≡ CLOSED) ⊎ (result.fault ≡ NO_ENDPOINT)
        → (result ≡ tells_nothing result.fault)
        × (live.new ≡ live.old) × (kept.new ≡ kept.old) × (implied.new ≡ implied.old) }
{
    let Some(held) = conference.take(alloc) else {
        return told_nothing(CLOSED);
    };
    let answer = tell_certified(&held, endpoint, live, kept, implied);
    conference.put(held);
    answer
}
