//! The resends on all legs of a unit, bounded.

ghost use Rattle.std.specs.Prelude.{◌≡◌, ◌≤◌, length, replicate, slice_get, take, IfOk, Some};
ghost use Rattle.std.specs.Option.{option_map};
ghost use Rattle.policy.specs.ResendLimiter.{AdmitsResends, counted_by, empty_book, idle_resends, remembered_by, resends_without, terms_of};
ghost use Rattle.policy.specs.Nacks.{IsLookedUp, allowance_on, allowance_to, ask_left, asks_left, book_noted_on, books_after, books_on, books_with, entry_left, entry_on, most_by, most_on, trip_on};

use crate::leg_resends::{Allowance, Flow, LegResends, REMEMBERED, ResendBounds, gap_by};
use crate::nacks::admit_resends;
use crate::trips::note_trips;
use datagram::{Ask, Sent};
use rtcp_feedback::Nack;
use settings::{LegSettings, Links, Settings};
use stats::Traffic;
use std::alloc::{AllocError, Global};
use std::cell::Cell;
use std::marker::Model;
use tmmbr_tuple::Ssrc;

/// What came of each endpoint, and what was admitted on each leg.
#[derive(Drop)]
pub(crate) struct ResendLimiter {
    links: Links,
    bounds: ResendBounds,
    /// What came of each endpoint, by its number.
    flows: Vec<Flow>,
    /// What was admitted on each leg, by its number.
    books: Vec<LegResends>,
    /// The round trip on each leg in milliseconds, by its number, as it was known when it was looked up last.
    trips: Vec<Option<u32>>,
}

impl Model for ResendLimiter {
    ghost use Rattle.policy.specs.ResendLimiter.{ResendState};

    ghost Value = { ResendState };

    ghost view = { λ r. record {
      table = r.links;
      bounds = r.bounds;
      flows = r.flows.items;
      books = r.books.items;
    } };
}

/// What is looked up while asks are looked at.
#[derive(Clone, Copy)]
pub(crate) struct LegLookup<'a> {
    links: &'a Links,
    bounds: ResendBounds,
    flows: &'a [Flow],
    trips: &'a [Option<u32>],
    /// How many NACKed packets weren't admitted.
    held: &'a Cell<u64>,
}

/// What was looked up last: a source, and what may be admitted on the leg on which who asks is sent it, if there is one. A NACK asks for packets
/// of one source by many entries.
#[derive(Clone, Copy)]
pub(crate) struct LookedUp {
    media: Ssrc,
    allowance: Option<Allowance>,
}

impl ResendLimiter {
    /// Nothing came and nothing was admitted in a unit of these settings. If no gap is wanted nothing is remembered of numbers.
    pub(crate) fn new(
        alloc: Global,
        settings: &Settings,
        bounds: ResendBounds,
    ) -> Result<ResendLimiter, AllocError>
        ensures { IfOk result (λ r. r ≡ idle_resends settings.now bounds) }
    {
        let idle = Flow::new();
        let remembered = remembered_by(bounds);
        Ok(ResendLimiter {
            links: Links::new(alloc, settings)?,
            bounds,
            flows: vec![in alloc; idle; settings.endpoints().len()]?,
            books: books_of(alloc, settings.legs().len(), remembered)?,
            trips: vec![in alloc; None; settings.legs().len()]?,
        })
    }

    /// A packet came of this endpoint at this moment.
    pub(crate) fn count(&mut self, endpoint: u16, moment: u64)
        ensures { self.new ≡ counted_by self.old endpoint moment }
    {
        let at = usize::from(endpoint);
        if at < self.flows.len() {
            self.flows[at] = self.flows[at].with(moment);
        }
    }

    /// Nothing came of this endpoint. What was admitted on the legs to it stays, as their packets do: else a BYE would be a way to be sent
    /// them all once more.
    pub(crate) fn forget(&mut self, endpoint: u16)
        ensures { self.new ≡ resends_without self.old endpoint }
    {
        let at = usize::from(endpoint);
        if at < self.flows.len() {
            self.flows[at] = Flow::new();
        }
    }

    /// Keeps of what the endpoint asks for what is admitted, by the round trips that are known now, and raises `held` for each packet that
    /// isn't.
    pub(crate) fn admit_resends(
        &mut self,
        sent: Sent,
        asks: &mut Vec<Ask>,
        traffic: &Traffic,
        held: &Cell<u64>,
    )
        ensures { AdmitsResends sent self.old self.new asks.old.items asks.new.items }
    {
        if self.bounds.gap_ms > 0 {
            note_trips(&mut self.trips, &self.links, sent.endpoint, asks, traffic);
        }
        let known = LegLookup {
            links: &self.links,
            bounds: self.bounds,
            flows: &self.flows,
            trips: &self.trips,
            held,
        };
        let left = keep_asks(asks, &mut self.books, known, sent);
        asks.truncate(left);
    }
}

/// How many numbers of a leg are remembered.
fn remembered_by(bounds: ResendBounds) -> usize
    ensures { result ≡ remembered_by bounds }
{
    if bounds.gap_ms == 0 {
        0
    } else {
        usize::from(REMEMBERED)
    }
}

/// Books of so many legs, of each of which so many numbers will be remembered.
fn books_of(alloc: Global, legs: usize, remembered: usize) -> Result<Vec<LegResends>, AllocError>
    ensures { IfOk result (λ books. books.items ≡ replicate legs (empty_book remembered)) }
{
    let mut books = Vec::with_capacity(alloc, legs)?;
    for _leg in 0..legs {
        books.push(LegResends::new(alloc, remembered)?)?;
    }
    Ok(books)
}

/// Moves what is left of what is asked for to the front, in its order, and says how much that is.
fn keep_asks(asks: &mut [Ask], books: &mut [LegResends], known: LegLookup<'_>, sent: Sent) -> usize
    ensures left { take result asks.new
        ≡ asks_left (terms_of known.entry) sent books.old asks.old }
    ensures noted { books.new ≡ books_after (terms_of known.entry) sent books.old asks.old }
    ensures fewer { result ≤ length asks.new }
    ensures length { length asks.new ≡ length asks.old }
{
    let mut kept: usize = 0;
    let mut last = None;
    for at in 0..asks.len() {
        if let Some(left) = ask_left(books, known, sent, &mut last, asks[at]) {
            asks[kept] = left;
            kept += 1;
        }
    }
    kept
}

/// What is left of an ask, by what is known of the leg on which who asks is sent that source.
fn ask_left(
    books: &mut [LegResends],
    known: LegLookup<'_>,
    sent: Sent,
    last: &mut Option<LookedUp>,
    ask: Ask,
) -> Option<Ask>
    requires { IsLookedUp (terms_of known) sent last.old }
    ensures left { result ≡ ask_left (terms_of known.entry) sent books.old ask }
    ensures noted { books.new ≡ books_with (terms_of known.entry) sent books.old ask }
    ensures last { IsLookedUp (terms_of known.entry) sent last.new }
{
    match ask {
        Ask::Resend { media, nack } => {
            let allowance = look_up(known, sent, *last, media);
            *last = Some(LookedUp { media, allowance });
            resend_left(books, allowance, media, nack, known.held)
        }
        Ask::Rate { .. } | Ask::Picture { .. } => Some(ask),
    }
}

/// What may be admitted on the leg on which who asks is sent this source, if there is one: as it was looked up last, if it was that source.
fn look_up(
    known: LegLookup<'_>,
    sent: Sent,
    last: Option<LookedUp>,
    media: Ssrc,
) -> Option<Allowance>
    requires { IsLookedUp (terms_of known) sent last }
    ensures { result ≡ allowance_to (terms_of known.entry) sent media.0 }
{
    match last {
        Some(found) => {
            if found.media.0 == media.0 {
                found.allowance
            } else {
                allowance_to(known, sent, media)
            }
        }
        None => allowance_to(known, sent, media),
    }
}

/// The same, looked up.
fn allowance_to(known: LegLookup<'_>, sent: Sent, media: Ssrc) -> Option<Allowance>
    ensures { result ≡ allowance_to (terms_of known.entry) sent media.0 }
{
    match known.links.leg_to(sent.endpoint, media) {
        Some(leg) => Some(allowance_on(known, sent.moment, leg)),
        None => None,
    }
}

/// What is left of an ask for packets of this source by this entry.
fn resend_left(
    books: &mut [LegResends],
    allowance: Option<Allowance>,
    media: Ssrc,
    entry: Nack,
    held: &Cell<u64>,
) -> Option<Ask>
    ensures left { result
        ≡ option_map (Ask.Resend media) (entry_on books.old entry allowance) }
    ensures noted { books.new ≡ books_on books.old entry allowance }
{
    match entry_to(books, allowance, entry, held) {
        Some(nack) => Some(Ask::Resend { media, nack }),
        None => None,
    }
}

/// What is left of an entry, if so much may be admitted on its leg; all of it if it has none.
fn entry_to(
    books: &mut [LegResends],
    allowance: Option<Allowance>,
    entry: Nack,
    held: &Cell<u64>,
) -> Option<Nack>
    ensures left { result ≡ entry_on books.old entry allowance }
    ensures noted { books.new ≡ books_on books.old entry allowance }
{
    match allowance {
        Some(allowance) => entry_on(books, allowance.leg, allowance, entry, held),
        None => Some(entry),
    }
}

/// What is left of an entry for this leg.
fn entry_on(
    books: &mut [LegResends],
    leg: u16,
    allowance: Allowance,
    entry: Nack,
    held: &Cell<u64>,
) -> Option<Nack>
    ensures left { result ≡ entry_left (slice_get books.old leg) allowance entry }
    ensures noted { books.new
        ≡ book_noted_on books.old leg allowance entry (slice_get books.old leg) }
{
    let at = usize::from(leg);
    if at >= books.len() {
        return Some(entry);
    }
    let before = books[at].held();
    let left = admit_resends(&mut books[at], allowance, entry);
    let more = books[at].held().saturating_sub(before);
    held.set(held.get().saturating_add(more));
    left
}

/// What may be admitted on a leg.
fn allowance_on(known: LegLookup<'_>, moment: u64, leg: u16) -> Allowance
    ensures { result ≡ allowance_on (terms_of known.entry) moment leg }
{
    Allowance {
        leg,
        moment,
        gap_ms: gap_by(known.bounds.gap_ms, trip_on(known, leg)),
        most: most_on(known, moment, known.links.leg(leg).copied()),
    }
}

/// The round trip on a leg, if it is known.
fn trip_on(known: LegLookup<'_>, leg: u16) -> Option<u32>
    ensures { result ≡ trip_on (terms_of known.entry) leg }
{
    known.trips.get(usize::from(leg)).copied().unwrap_or(None)
}

/// How many may be admitted on a leg in the second of this moment.
fn most_on(known: LegLookup<'_>, moment: u64, leg: Option<LegSettings>) -> u64
    ensures { result ≡ most_on (terms_of known.entry) moment leg }
{
    match leg {
        Some(leg) => most_by(known, moment, leg.publisher),
        None => 0,
    }
}

/// How many may be admitted on a leg of this publisher.
fn most_by(known: LegLookup<'_>, moment: u64, publisher: u16) -> u64
    ensures { result ≡ most_by (terms_of known.entry) moment
        (slice_get known.entry.flows.now publisher) }
{
    match known.flows.get(usize::from(publisher)).copied() {
        Some(flow) => flow.most(known.bounds.share, moment),
        None => 0,
    }
}
