//! What is printed of what a script gives.

ghost use Rattle.std.specs.Prelude.{◌≡◌, length};
ghost use Rattle.replay.specs.Shown.{all_shown, an_event, an_out, goes_to, is_chosen, is_chosen_leg, is_leg_chosen, is_leg_to, is_leg_to_chosen, is_missing, is_named, is_of_chosen_endpoint, is_of_chosen_leg, is_of_endpoint, is_of_leg, is_on_chosen, is_on_leg, is_selection, is_to_chosen, names_source, shows_event, unknown_in};

use crate::latest::Incoming;
use datagram::{first_size, source_named};
use events::Out;
use rtcp_compound::is_rtcp;
use settings::{LegSettings, Links, Settings};

/// What is printed of what a script gives. The script is played to its end whatever this is.
#[derive(Clone, Copy, PartialEq, Eq)]
pub struct Shown {
    /// The number of a leg: of what the machine gives out only datagrams to its subscriber that name its `out_ssrc`, what isn't sent on it,
    /// and what is refused of its ends or of selections of it. Such selections beside.
    pub only_leg: Option<u32>,
    /// The number of an endpoint: of what the machine gives out only datagrams to it, what isn't sent on legs to it, and what is refused of
    /// its datagrams or of selections of such legs. Such selections beside.
    pub only_endpoint: Option<u32>,
    /// Nothing that follows from an event before this moment, in milliseconds.
    pub from_ms: u64,
    /// Whether the lines of events are printed, each before what follows from it.
    pub events: bool,
    /// For how many milliseconds nothing goes out on a leg where a line says so.
    pub gaps_ms: Option<u64>,
    /// Whether moments are those of the wall clock, if the script says what that was.
    pub utc: bool,
}

/// Whom the settings lack.
#[derive(Clone, Copy, PartialEq, Eq)]
pub enum Unknown {
    Endpoint,
    Leg,
}

impl Shown {
    /// All of it, and nothing besides.
    pub fn all() -> Shown
        ensures { result ≡ all_shown }
    {
        Shown {
            only_leg: None,
            only_endpoint: None,
            from_ms: 0,
            events: false,
            gaps_ms: None,
            utc: false,
        }
    }

    /// An endpoint that is to be shown and isn't there, or else such a leg.
    pub fn unknown_in(&self, settings: &Settings) -> Option<Unknown>
        ensures { result ≡ unknown_in settings.now self.now }
    {
        if is_missing(self.only_endpoint, settings.endpoints().len()) {
            Some(Unknown::Endpoint)
        } else if is_missing(self.only_leg, settings.legs().len()) {
            Some(Unknown::Leg)
        } else {
            None
        }
    }

    /// Whether this is to be shown, which the machine gives out after such an event, whenever that is.
    pub(crate) fn is_chosen(&self, links: &Links, incoming: Incoming, out: &Out) -> bool
        ensures { result ≡ is_chosen links.now self.now incoming (an_out out.now) }
    {
        is_to_chosen(links, self.only_endpoint, incoming, out)
            && is_on_chosen(links, self.only_leg, incoming, out)
    }

    /// Whether the line of such an event is to be shown, whatever follows from it.
    pub(crate) fn is_event_chosen(&self, links: &Links, incoming: Incoming) -> bool
        ensures { result ≡ is_chosen links.now self.now incoming an_event }
    {
        self.shows_event(incoming)
            && (is_of_chosen_endpoint(links, self.only_endpoint, incoming)
                && is_of_chosen_leg(links, self.only_leg, incoming))
    }

    /// Whether events are shown, of whomever they are; of a leg or an endpoint that is chosen, selections are.
    fn shows_event(&self, incoming: Incoming) -> bool
        ensures { result ≡ shows_event self.now incoming }
    {
        self.events
            || (is_selection(incoming) && (self.only_leg.is_some() || self.only_endpoint.is_some()))
    }

    /// Whether a leg is to be shown.
    pub(crate) fn is_leg_chosen(&self, links: &Links, leg: u16) -> bool
        ensures { result ≡ is_leg_chosen links.now self.now leg }
    {
        is_leg_to_chosen(links, self.only_endpoint, leg) && is_chosen_leg(self.only_leg, leg)
    }
}

/// Whether a number is given that isn't below the count.
fn is_missing(number: Option<u32>, count: usize) -> bool
    ensures { result ≡ is_missing number count }
{
    match number {
        Some(number) => count <= number as usize,
        None => false,
    }
}

fn is_selection(incoming: Incoming) -> bool
    ensures { result ≡ is_selection incoming }
{
    match incoming {
        Incoming::Selection(_) => true,
        Incoming::Moment | Incoming::Datagram(_) => false,
    }
}

/// Whether there is a leg of this number, to this endpoint.
fn is_leg_to(links: &Links, number: u32, leg: u16) -> bool
    ensures { result ≡ is_leg_to links.now number leg }
{
    match links.legs().get(usize::from(leg)) {
        Some(leg) => u32::from(leg.subscriber) == number,
        None => false,
    }
}

/// Whether an event is a datagram of this endpoint, or a selection of a leg to it.
fn is_of_endpoint(links: &Links, number: u32, incoming: Incoming) -> bool
    ensures { result ≡ is_of_endpoint links.now number incoming }
{
    match incoming {
        Incoming::Moment => false,
        Incoming::Datagram(endpoint) => u32::from(endpoint) == number,
        Incoming::Selection(leg) => is_leg_to(links, number, leg),
    }
}

/// Whether an event is a datagram of an end of this leg, or a selection of it.
fn is_of_leg(number: u32, leg: &LegSettings, incoming: Incoming) -> bool
    ensures { result ≡ is_of_leg number leg.now incoming }
{
    match incoming {
        Incoming::Moment => false,
        Incoming::Datagram(endpoint) => endpoint == leg.publisher || endpoint == leg.subscriber,
        Incoming::Selection(other) => u32::from(other) == number,
    }
}

/// Whether an event is of the endpoint, if one is chosen.
fn is_of_chosen_endpoint(links: &Links, endpoint: Option<u32>, incoming: Incoming) -> bool
    ensures { result ≡ is_of_chosen_endpoint links.now endpoint incoming }
{
    match endpoint {
        Some(number) => is_of_endpoint(links, number, incoming),
        None => true,
    }
}

/// Whether an event is of the leg, if one is chosen.
fn is_of_chosen_leg(links: &Links, leg: Option<u32>, incoming: Incoming) -> bool
    ensures { result ≡ is_of_chosen_leg links.now leg incoming }
{
    let Some(number) = leg else {
        return true;
    };
    match links.legs().get(number as usize) {
        Some(leg) => is_of_leg(number, leg, incoming),
        None => false,
    }
}

/// Whether a leg goes to the endpoint, if one is chosen.
fn is_leg_to_chosen(links: &Links, endpoint: Option<u32>, leg: u16) -> bool
    ensures { result ≡ is_leg_to_chosen links.now endpoint leg }
{
    match endpoint {
        Some(number) => is_leg_to(links, number, leg),
        None => true,
    }
}

/// Whether a leg is the one that is chosen, if one is.
fn is_chosen_leg(chosen: Option<u32>, leg: u16) -> bool
    ensures { result ≡ is_chosen_leg chosen leg }
{
    match chosen {
        Some(number) => u32::from(leg) == number,
        None => true,
    }
}

/// Whether what follows from such an event is of the endpoint, if one is chosen.
fn is_to_chosen(links: &Links, endpoint: Option<u32>, incoming: Incoming, out: &Out) -> bool
    ensures { result ≡ is_to_chosen links.now endpoint incoming out.now }
{
    match endpoint {
        Some(number) => goes_to(links, number, incoming, out),
        None => true,
    }
}

/// Whether it is a datagram to the endpoint, isn't sent on a leg to it, or is refused of an event of it.
fn goes_to(links: &Links, number: u32, incoming: Incoming, out: &Out) -> bool
    ensures { result ≡ goes_to links.now number incoming out.now }
{
    match out {
        Out::Send { endpoint, .. } => u32::from(*endpoint) == number,
        Out::Refused(_) => is_of_endpoint(links, number, incoming),
        Out::Skip(leg, _) => is_leg_to(links, number, *leg),
        Out::Miss(leg, _) => is_leg_to(links, number, *leg),
        Out::Busy => false,
        Out::Lost(_) => false,
        Out::Idle => false,
    }
}

/// Whether what follows from such an event is of the leg, if one is chosen.
fn is_on_chosen(links: &Links, leg: Option<u32>, incoming: Incoming, out: &Out) -> bool
    ensures { result ≡ is_on_chosen links.now leg incoming out.now }
{
    let Some(number) = leg else {
        return true;
    };
    match links.legs().get(number as usize) {
        Some(leg) => is_on_leg(number, leg, incoming, out),
        None => false,
    }
}

/// Whether it is a datagram to the leg's subscriber that names the leg's source, isn't sent on the leg, or is refused of an event of it.
fn is_on_leg(number: u32, leg: &LegSettings, incoming: Incoming, out: &Out) -> bool
    ensures { result ≡ is_on_leg number leg.now incoming out.now }
{
    match out {
        Out::Send { endpoint, bytes } => {
            *endpoint == leg.subscriber && is_source_of(leg.out_ssrc.0, bytes.as_slice())
        }
        Out::Refused(_) => is_of_leg(number, leg, incoming),
        Out::Skip(other, _) => u32::from(*other) == number,
        Out::Miss(other, _) => u32::from(*other) == number,
        Out::Busy => false,
        Out::Lost(_) => false,
        Out::Idle => false,
    }
}

/// Whether a datagram names the source: RTP by its SSRC (RFC 3550, section 5.1), RTCP by the word after the header of one of its
/// packets (RFC 3550, section 6.1).
fn is_source_of(source: u32, datagram: &[u8]) -> bool
    ensures { result ≡ names_source (length datagram.now) source datagram.now }
{
    names_source(datagram.len(), source, datagram)
}

/// The same, if so many packets are looked at.
fn names_source(left: usize, source: u32, datagram: &[u8]) -> bool
    ensures { result ≡ names_source left source datagram.now }
{
    if left == 0 {
        return false;
    }
    if is_named(source, source_named(datagram)) {
        return true;
    }
    if is_rtcp(datagram) {
        return names_source(left - 1, source, &datagram[first_size(datagram)..]);
    }
    false
}

/// Whether a source is named, and is this one.
fn is_named(source: u32, named: Option<u32>) -> bool
    ensures { result ≡ is_named source named }
{
    match named {
        Some(other) => source == other,
        None => false,
    }
}
