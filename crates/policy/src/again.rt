//! What is heard once more as a publisher comes.

ghost use Rattle.std.specs.Prelude.{◌≡◌, ◌<◌, IfSome, length};
ghost use Rattle.policy.specs.Again.{asked_again, asked_on, again_from, held_in, is_live, is_young, next_again, still_held, terms};

use crate::last_heard::LastHeard;
use crate::presence::is_there;
use crate::requests::{HeldRequest, LegRequest, Requests};
use members::RoomView;
use settings::Links;
use tmmbr_tuple::Ssrc;

/// A request for a greatest rate that is heard once more (RFC 5104, section 4.2.1).
#[derive(Clone, Copy, PartialEq, Eq)]
pub struct Again {
    /// The number of the endpoint that asks.
    pub endpoint: u16,
    /// Its source.
    pub speaker: Ssrc,
    /// The source of which it asks.
    pub media: Ssrc,
    /// What it asks for (RFC 5104, section 4.2.1.1).
    pub word: u32,
}

/// What is held by now, and who is there.
#[derive(Clone, Copy)]
pub(crate) struct Holdings<'a> {
    pub(crate) requests: &'a Requests,
    pub(crate) heard: &'a LastHeard,
    pub(crate) view: RoomView<'a>,
    /// The age at which a request is given up, in milliseconds; 0 if it never is.
    pub(crate) request_ms: u64,
    /// After how long a silence an endpoint is gone, in milliseconds.
    pub(crate) timeout_ms: u64,
    /// The moment, in milliseconds.
    pub(crate) moment: u64,
}

/// What is held for a leg, if its subscriber is there and spoke within the timeout, and it isn't too old.
fn held_on(holdings: Holdings<'_>, leg: u16) -> Option<HeldRequest>
    ensures { result ≡ still_held (terms holdings.entry) leg }
{
    match holdings.requests.at(leg) {
        Some(place) => held_in(holdings, place),
        None => None,
    }
}

fn held_in(holdings: Holdings<'_>, place: LegRequest) -> Option<HeldRequest>
    ensures { result ≡ held_in (terms holdings.entry) place }
{
    let request = place.request?;
    if is_young(holdings, request) && is_live(holdings, place.subscriber) {
        Some(request)
    } else {
        None
    }
}

/// Whether an endpoint is there, and not only since something was heard in its name: it spoke within the timeout.
fn is_live(holdings: Holdings<'_>, endpoint: u16) -> bool
    ensures { result ≡ is_live (terms holdings.entry) endpoint }
{
    is_there(holdings.view, endpoint, holdings.moment)
        && holdings
            .heard
            .is_within(endpoint, holdings.moment, holdings.timeout_ms)
}

/// Whether a request isn't too old.
fn is_young(holdings: Holdings<'_>, request: HeldRequest) -> bool
    ensures { result ≡ is_young (terms holdings.entry) request }
{
    let age = holdings.moment.saturating_sub(request.moment);
    holdings.request_ms == 0 || age < holdings.request_ms
}

/// What is held for a leg, as its subscriber asks for it.
fn asked_again(holdings: Holdings<'_>, number: u16) -> Option<Again>
    ensures { result ≡ asked_again (terms holdings.entry) number }
{
    let request = held_on(holdings, number)?;
    asked_on(holdings.view.links, number, request.word)
}

/// The subscriber of the leg with this number asks, of what it is sent on it, for this word.
pub(crate) fn asked_on(links: &Links, number: u16, word: u32) -> Option<Again>
    ensures { result ≡ asked_on links.now number word }
{
    let leg = links.leg(number).copied()?;
    let speaker = links.ssrc_of(leg.subscriber)?;
    Some(Again {
        endpoint: leg.subscriber,
        speaker,
        media: leg.out_ssrc,
        word,
    })
}

/// The same, if the leg's place is looked at from `from` on.
fn again_from(holdings: Holdings<'_>, leg: u16, place: usize, from: usize) -> Option<Again>
    ensures { result ≡ again_from (terms holdings.entry) from place leg }
{
    if place < from {
        return None;
    }
    asked_again(holdings, leg)
}

/// Of these legs, which are given by their numbers, the first from this place on for which a request is held: its place, and what is asked for.
pub(crate) fn next_again(
    holdings: Holdings<'_>,
    legs: &[u16],
    from: usize,
) -> Option<(usize, Again)>
    ensures found { result ≡ next_again (terms holdings.entry) from 0 legs.now }
    ensures within { IfSome result (λ next. next.0 < length legs.now) }
{
    for (place, leg) in legs.iter().enumerate() {
        if let Some(again) = again_from(holdings, *leg, place, from) {
            return Some((place, again));
        }
    }
    None
}
