//! What an endpoint asks for: it is held, and what can't be asked for yet is left out.

ghost use Rattle.std.specs.Prelude.{◌≡◌, filter, fold, not};
ghost use Rattle.policy.specs.Asking.{asking, is_left, is_moot, is_moot_leg};
ghost use Rattle.policy.specs.Requests.{ask_in, asked_by};

use crate::again::Again;
use crate::announced_sets::AnnouncedSets;
use crate::presence::is_there;
use crate::requests::{HeldRequest, Requests};
use datagram::Ask;
use members::RoomView;
use settings::{LegSettings, Links};
use std::cell::RefCell;
use tmmbr_tuple::Ssrc;

/// Who asks, and the room as it is then.
#[derive(Clone, Copy)]
pub(crate) struct Asker<'a> {
    pub(crate) view: RoomView<'a>,
    /// The number of the endpoint.
    pub(crate) endpoint: u16,
    /// The moment, in milliseconds.
    pub(crate) moment: u64,
}

/// The leg that the endpoint asks about, and for which word; nothing if it doesn't ask for a rate on a leg that leads to it.
pub(crate) fn asked_by(links: &Links, endpoint: u16, ask: Ask) -> Option<(u16, u32)>
    ensures { result ≡ asked_by links.now endpoint ask }
{
    match ask {
        Ask::Rate { media, word } => match links.leg_to(endpoint, media) {
            Some(leg) => Some((leg, word)),
            None => None,
        },
        Ask::Resend { .. } => None,
        Ask::Picture { .. } => None,
    }
}

/// Holds what is asked for.
pub(crate) fn hold_all(requests: &mut Requests, asker: Asker<'_>, asks: &[Ask])
    ensures { requests.new
        ≡ fold (ask_in asker.entry.view.links.now asker.entry.endpoint asker.entry.moment) requests.old asks.now }
{
    for ask in asks {
        hold_one(requests, asker, *ask);
    }
}

fn hold_one(requests: &mut Requests, asker: Asker<'_>, ask: Ask)
    ensures { requests.new
        ≡ ask_in asker.entry.view.links.now asker.entry.endpoint asker.entry.moment requests.old ask }
{
    let moment = asker.moment;
    if let Some((leg, word)) = asked_by(asker.view.links, asker.endpoint, ask) {
        requests.ask(leg, HeldRequest { word, moment });
    }
}

/// Says which publishers were asked for a rate, and by whom.
pub(crate) fn tell_all(sets: &RefCell<AnnouncedSets>, asker: Asker<'_>, asks: &[Ask]) {
    for ask in asks {
        tell_one(sets, asker, *ask);
    }
}

fn tell_one(sets: &RefCell<AnnouncedSets>, asker: Asker<'_>, ask: Ask) {
    let Some((leg, _word)) = asked_by(asker.view.links, asker.endpoint, ask) else {
        return;
    };
    if let Some(owner) = asker.view.links.ssrc_of(asker.endpoint) {
        tell_on(sets, asker.view.links, leg, owner);
    }
}

/// Says which publisher this owner asked for a rate, on a leg with this number.
fn tell_on(sets: &RefCell<AnnouncedSets>, links: &Links, leg: u16, owner: Ssrc) {
    if let Some(leg) = links.leg(leg) {
        tell_asked(sets, leg.publisher, owner);
    }
}

/// Says which publisher is asked for a rate by what is heard that was asked for before.
pub(crate) fn tell_again(sets: &RefCell<AnnouncedSets>, links: &Links, again: Again) {
    if let Some(leg) = links.leg_to(again.endpoint, again.media) {
        tell_on(sets, links, leg, again.speaker);
    }
}

/// Says that this owner asked the publisher for a rate.
pub(crate) fn tell_asked(sets: &RefCell<AnnouncedSets>, publisher: u16, owner: Ssrc) {
    if let Ok(mut sets) = sets.try_borrow_mut() {
        let _ = sets.ask(publisher, owner);
    }
}

/// Leaves out what asks publishers for a rate that aren't there.
pub(crate) fn leave_out(asks: &mut Vec<Ask>, asker: Asker<'_>)
    ensures { asks.new.items ≡ filter (is_left (asking asker.entry)) asks.old.items }
{
    asks.retain(|ask| !is_moot(asker, *ask));
}

/// Whether a rate is asked for on a leg to who asks whose publisher isn't there.
fn is_moot(asker: Asker<'_>, ask: Ask) -> bool
    ensures { result ≡ is_moot (asking asker.entry) ask }
{
    match asked_by(asker.view.links, asker.endpoint, ask) {
        Some((leg, _word)) => is_moot_leg(asker, asker.view.links.leg(leg).copied()),
        None => false,
    }
}

/// Whether the publisher of a leg isn't there.
fn is_moot_leg(asker: Asker<'_>, leg: Option<LegSettings>) -> bool
    ensures { result ≡ is_moot_leg (asking asker.entry) leg }
{
    match leg {
        Some(leg) => !is_there(asker.view, leg.publisher, asker.moment),
        None => false,
    }
}
