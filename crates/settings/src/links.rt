//! The legs as they are set up, found by publisher, by subscriber and by number.

ghost use Rattle.std.specs.Prelude.{◌≡◌, ◌≤◌, ℕ, length, nat_eq, IfOk};
ghost use Rattle.std.specs.HashMap.{get};
ghost use Rattle.std.specs.List.{enumerate_from};
ghost use Rattle.settings.specs.Links.{leg_numbers_of, first_to};
ghost use Rattle.settings.specs.Places.{ListsLegs, FindsLegs};

use crate::cname::Cname;
use crate::limits::MAX_LEGS;
use crate::settings::{LegSettings, Settings};
use rtcp_compound::CNAME_LIMIT;
use std::alloc::{AllocError, Global};
use std::collections::HashMap;
use std::marker::Model;
use tmmbr_tuple::Ssrc;

/// How many workers, endpoints and legs there are, what is said of each endpoint, and what each leg joins. No look-up passes over
/// all legs.
#[derive(Drop)]
pub struct Links {
    workers: u16,
    endpoints: Vec<Ssrc>,
    /// The canonical name that is said of what each endpoint publishes.
    cnames: Vec<Cname>,
    legs: Vec<LegSettings>,
    /// Of each endpoint, the numbers of the legs that it publishes, rising.
    published: Vec<Vec<u16>>,
    /// Of each endpoint, the number of the leg on which it is sent a source.
    sent: Vec<HashMap<u32, u16>>,
}

impl Model for Links {
    ghost use Rattle.std.specs.Prelude.{length};
    ghost use Rattle.settings.specs.Links.{LinkTable, IsLinkTable};
    ghost use Rattle.settings.specs.Places.{ListsLegs, FindsLegs};

    ghost Value = { LinkTable };

    ghost view = { λ l. record {
      workers = l.workers;
      endpoints = l.endpoints.items;
      cnames = l.cnames.items;
      legs = l.legs.items;
    } };

    ghost invariant = { λ l.
        IsLinkTable (record {
          workers = l.workers;
          endpoints = l.endpoints.items;
          cnames = l.cnames.items;
          legs = l.legs.items;
        })
        × ListsLegs l.published.items (length l.endpoints.items) l.legs.items
        × FindsLegs l.sent.items (length l.endpoints.items) l.legs.items };
}

/// The numbers of the legs of a publisher.
fn published_by(
    alloc: Global,
    legs: &[LegSettings],
    publisher: usize,
) -> Result<Vec<u16>, AllocError>
    requires { length legs.now ≤ MAX_LEGS }
    ensures { IfOk result (λ v. v.items ≡ leg_numbers_of publisher (enumerate_from 0 legs.now)) }
{
    let mut numbers = Vec::new(alloc);
    for (number, leg) in legs.iter().enumerate() {
        if usize::from(leg.publisher) == publisher {
            numbers.push(number as u16)?;
        }
    }
    Ok(numbers)
}

/// The legs to a subscriber, by the sources that it is sent on them.
fn sent_to(
    alloc: Global,
    legs: &[LegSettings],
    subscriber: usize,
) -> Result<HashMap<u32, u16>, AllocError>
    requires { length legs.now ≤ MAX_LEGS }
    ensures { IfOk result (λ m. (source : ℕ)
        → get nat_eq m source ≡ first_to subscriber source (enumerate_from 0 legs.now)) }
{
    let mut sources = HashMap::new(alloc);
    // From the last leg to the first, so that the first one with a source stays.
    let mut number = legs.len();
    while number > 0 {
        number -= 1;
        let leg = &legs[number];
        if usize::from(leg.subscriber) == subscriber {
            sources.insert(leg.out_ssrc.0, number as u16)?;
        }
    }
    Ok(sources)
}

/// The legs that each of so many endpoints publishes.
fn published(
    alloc: Global,
    legs: &[LegSettings],
    endpoints: usize,
) -> Result<Vec<Vec<u16>>, AllocError>
    requires { length legs.now ≤ MAX_LEGS }
    ensures { IfOk result (λ v. ListsLegs v.items endpoints legs.now) }
{
    let mut lists = Vec::new(alloc);
    for publisher in 0..endpoints {
        lists.push(published_by(alloc, legs, publisher)?)?;
    }
    Ok(lists)
}

/// What each of so many endpoints is sent.
fn sent(
    alloc: Global,
    legs: &[LegSettings],
    endpoints: usize,
) -> Result<Vec<HashMap<u32, u16>>, AllocError>
    requires { length legs.now ≤ MAX_LEGS }
    ensures { IfOk result (λ v. FindsLegs v.items endpoints legs.now) }
{
    let mut maps = Vec::new(alloc);
    for subscriber in 0..endpoints {
        maps.push(sent_to(alloc, legs, subscriber)?)?;
    }
    Ok(maps)
}

/// A copy of these names.
fn copied_names(alloc: Global, names: &[Cname]) -> Result<Vec<Cname>, AllocError>
    ensures { IfOk result (λ copies. copies.items ≡ names.now) }
{
    let mut copies = Vec::with_capacity(alloc, names.len())?;
    for name in names {
        copies.push(Cname::new(alloc, name.as_str())?)?;
    }
    Ok(copies)
}

impl Links {
    ghost use Rattle.std.specs.Prelude.{◌<◌, option_copied, slice_get};
    ghost use Rattle.settings.specs.Links.{IsLinkTable, table_of, cname_of, legs_of, leg_to, worker_of};

    /// The links of these settings.
    pub fn new(alloc: Global, settings: &Settings) -> Result<Links, AllocError>
        ensures { IfOk result (λ links. links ≡ table_of settings.now) }
    {
        let (endpoints, legs) = (settings.endpoints(), settings.legs());
        Ok(Links {
            workers: settings.workers() as u16,
            endpoints: endpoints.to_vec(alloc)?,
            cnames: copied_names(alloc, settings.cnames())?,
            legs: legs.to_vec(alloc)?,
            published: published(alloc, legs, endpoints.len())?,
            sent: sent(alloc, legs, endpoints.len())?,
        })
    }

    /// How many workers there are, at least 1.
    pub fn workers(&self) -> u16
        ensures value { result ≡ self.now.workers }
        ensures table { IsLinkTable self.now }
    {
        self.workers
    }

    /// The source of each endpoint, by its number.
    pub fn endpoints(&self) -> &[Ssrc]
        ensures value { result.now ≡ self.now.endpoints }
        ensures table { IsLinkTable self.now }
    {
        self.endpoints.as_slice()
    }

    /// The source of an endpoint, if there is one with this number.
    pub fn ssrc_of(&self, endpoint: u16) -> Option<Ssrc>
        ensures { result ≡ slice_get self.now.endpoints endpoint }
    {
        self.endpoints.get(usize::from(endpoint)).copied()
    }

    /// The canonical name that is said of what an endpoint publishes; an empty one if there is no such endpoint.
    pub fn cname_of(&self, endpoint: u16) -> &str
        ensures value { result.now ≡ cname_of self.now endpoint }
        ensures limit { length result.now ≤ CNAME_LIMIT }
    {
        match self.cnames.get(usize::from(endpoint)) {
            Some(cname) => cname.as_str(),
            None => "",
        }
    }

    /// The legs, by their numbers.
    pub fn legs(&self) -> &[LegSettings]
        ensures value { result.now ≡ self.now.legs }
        ensures table { IsLinkTable self.now }
    {
        self.legs.as_slice()
    }

    /// The leg with this number, if there is one.
    pub fn leg(&self, leg: u16) -> Option<&LegSettings>
        ensures value { option_copied result ≡ slice_get self.now.legs leg }
        ensures table { IsLinkTable self.now }
    {
        self.legs.get(usize::from(leg))
    }

    /// The numbers of the legs of this publisher, rising; none if there is no such endpoint.
    pub fn of_publisher(&self, publisher: u16) -> &[u16]
        ensures { result.now ≡ legs_of self.now publisher }
    {
        match self.published.get(usize::from(publisher)) {
            Some(numbers) => numbers.as_slice(),
            None => &[],
        }
    }

    /// The number of the leg on which this subscriber is sent this source, if there is one; the first of them.
    pub fn leg_to(&self, subscriber: u16, out_ssrc: Ssrc) -> Option<u16>
        ensures { result ≡ leg_to self.now subscriber out_ssrc.0 }
    {
        let sources = self.sent.get(usize::from(subscriber))?;
        sources.get(&out_ssrc.0).copied()
    }

    /// The number of the worker that owns a leg.
    pub fn worker_of(&self, leg: &LegSettings) -> u16
        ensures value { result ≡ worker_of self.now leg.now }
        ensures within { result < self.now.workers }
    {
        leg.subscriber % self.workers
    }
}
