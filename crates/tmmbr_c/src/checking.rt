//! The checker of certificates.

ghost use Rattle.std.specs.Prelude.{◌≡◌, ◌≢◌, ℕ, ◌<◌, ◌≤◌, ◌↔◌, ◌⊎◌, length, map, IsTrue};
ghost use Rattle.rate_cert.specs.Choice.{IsChoice, IsSmallest};
ghost use Rattle.rate_cert.specs.Certificate.{IsCertified, kept_places, places_of};
ghost use Rattle.tmmbr_c.specs.Numbers.{asked_request, kept_entry, implied_entry};
ghost use Rattle.tmmbr_c.specs.Verdict.{HasTooMany, CanBeRead, IsCertificateFor, IsUnreadRequest, IsUnreadKept, IsUnreadImplied, TellsFault, TellsFirstFault, place_of_fault};

use crate::faults::{
    DONE, IMPLIED_RANGE, KEPT_RANGE, NOT_IMPLIED, NOT_NAMED, PAIR_PERMITTED, PLACE, REQUEST_RANGE,
    TOO_MANY, TWO_PAIRS,
};
use crate::numbers::{TmmbrImplied, TmmbrKept, TmmbrRequest, TmmbrVerdict};
use crate::reading::{read_implied_entries, read_kept_entries, read_requests};
use rate_cert::{Cert, CertFault, MAX_REQUESTS, Request, check};

/// Whether a certificate holds of these requests, in any order, whoever made it; else the first
/// condition that fails, with its least place.
///
/// Refused as `TOO_MANY`, `REQUEST_RANGE`, `KEPT_RANGE` and `IMPLIED_RANGE`, in this order.
#[unsafe(no_mangle)]
pub extern "C" fn tmmbr_check(
    asked: &[TmmbrRequest],
    kept: &[TmmbrKept],
    implied: &[TmmbrImplied],
) -> TmmbrVerdict
    ensures readable { (result.fault ≤ NOT_NAMED) ↔ CanBeRead asked.now kept.now implied.now }
    ensures certified { CanBeRead asked.now kept.now implied.now
        → ((result.fault ≡ DONE) ↔ IsCertificateFor asked.now kept.now implied.now) }
    ensures first_fault { CanBeRead asked.now kept.now implied.now → result.fault ≢ DONE
        → TellsFirstFault (map asked_request asked.now) (map kept_entry kept.now)
        (map implied_entry implied.now) result }
    ensures choice { result.fault ≡ DONE
        → IsChoice (map asked_request asked.now) (places_of (map kept_entry kept.now)) }
    ensures smallest { result.fault ≡ DONE
        → IsSmallest (map asked_request asked.now) (places_of (map kept_entry kept.now)) }

    ensures too_many { (result.fault ≡ TOO_MANY) ↔ HasTooMany asked.now kept.now implied.now }
    ensures request_range { (place : ℕ)
        → (((result.fault ≡ REQUEST_RANGE) × (result.place ≡ place))
        ↔ IsUnreadRequest asked.now kept.now implied.now place) }
    ensures kept_range { (place : ℕ)
        → (((result.fault ≡ KEPT_RANGE) × (result.place ≡ place))
        ↔ IsUnreadKept asked.now kept.now implied.now place) }
    ensures implied_range { (place : ℕ)
        → (((result.fault ≡ IMPLIED_RANGE) × (result.place ≡ place))
        ↔ IsUnreadImplied asked.now kept.now implied.now place) }
    ensures no_place { ((result.fault ≡ DONE) ⊎ (result.fault ≡ TOO_MANY)) → result.place ≡ 0 }
{
    if has_too_many(asked, kept, implied) {
        return unread(TOO_MANY, 0);
    }
    let requests = match read_requests(asked) {
        Ok(requests) => requests,
        Err(place) => return unread(REQUEST_RANGE, place),
    };
    let kept = match read_kept_entries(kept) {
        Ok(kept) => kept,
        Err(place) => return unread(KEPT_RANGE, place),
    };
    let implied = match read_implied_entries(implied) {
        Ok(implied) => implied,
        Err(place) => return unread(IMPLIED_RANGE, place),
    };
    judge(requests.as_slice(), &Cert { kept, implied })
}

fn has_too_many(asked: &[TmmbrRequest], kept: &[TmmbrKept], implied: &[TmmbrImplied]) -> bool
    ensures { IsTrue result ↔ HasTooMany asked.now kept.now implied.now }
{
    asked.len() > MAX_REQUESTS || kept.len() > MAX_REQUESTS || implied.len() > MAX_REQUESTS
}

/// A refusal of what stands at this place.
fn unread(fault: u32, place: usize) -> TmmbrVerdict
    requires { place ≤ MAX_REQUESTS }
    ensures fault { result.fault ≡ fault }
    ensures place { result.place ≡ place }
{
    TmmbrVerdict {
        fault,
        place: place as u32,
    }
}

/// The verdict on a certificate that was read.
fn judge(requests: &[Request], cert: &Cert) -> TmmbrVerdict
    requires { length requests.now ≤ MAX_REQUESTS }
    ensures numbered { result.fault ≤ NOT_NAMED }
    ensures certified { (result.fault ≡ DONE) ↔ IsCertified requests.now cert.now }
    ensures first_fault { result.fault ≢ DONE
        → TellsFirstFault requests.now cert.now.kept.items cert.now.implied.items result }
    ensures choice { result.fault ≡ DONE → IsChoice requests.now (kept_places cert.now) }
    ensures smallest { result.fault ≡ DONE → IsSmallest requests.now (kept_places cert.now) }
    ensures no_place { result.fault ≡ DONE → result.place ≡ 0 }
{
    match check(requests, cert) {
        Ok(()) => TmmbrVerdict {
            fault: DONE,
            place: 0,
        },
        Err(fault) => said(fault),
    }
}

/// The fault as numbers.
fn said(fault: CertFault) -> TmmbrVerdict
    requires { place_of_fault fault < MAX_REQUESTS }
    ensures said { TellsFault result fault }
    ensures numbered { (PLACE ≤ result.fault) × (result.fault ≤ NOT_NAMED) }
{
    let (fault, place) = match fault {
        CertFault::Place => (PLACE, 0),
        CertFault::PairNotForbidden => (PAIR_PERMITTED, 0),
        CertFault::TwoPairsForbidden(place) => (TWO_PAIRS, place),
        CertFault::NotImplied(place) => (NOT_IMPLIED, place),
        CertFault::Missing(place) => (NOT_NAMED, place),
    };
    TmmbrVerdict {
        fault,
        place: place as u32,
    }
}
