//! The settings of a room, each number in its range.

ghost use Rattle.std.specs.Prelude.{◌≡◌, ◌≤◌, ◌<◌, ℕ, length, map, IfOk, OnErr, None, Err, string_bytes};
ghost use Rattle.settings.specs.Settings.{name_of, first_fault, additions_of, ssrc_of, said_name, said_names, leg_of, configuration_of, AreNumbersOf, checks};

use crate::checks::{Numbers, checked, number_or_none, own_name};
use crate::cname::Cname;
use crate::fault::SettingsFault;
use crate::limits::{MAX_ENDPOINTS, SSRCS};
use crate::parts::{Extras, LegParts, Parts};
use crate::rules::LegRules;
use rewrite::SEQ_CYCLE;
use rtcp_compound::CNAME_LIMIT;
use std::alloc::{AllocError, Global};
use std::marker::Model;
use tmmbr_tuple::Ssrc;

/// A leg: what one endpoint publishes, sent on to another.
#[derive(Clone, Copy, PartialEq, Eq)]
pub struct LegSettings {
    /// The number of the endpoint that is sent to.
    pub subscriber: u16,
    /// The number of the endpoint whose packets these are.
    pub publisher: u16,
    /// The source of what is sent on.
    pub out_ssrc: Ssrc,
    /// The sequence number of the first packet sent on.
    pub first_seq: u16,
    /// Whether the leg is selected from the start.
    pub on: bool,
}

/// The settings of a room. All sources are distinct, and no two legs have one pair of endpoints.
#[derive(Drop)]
pub struct Settings {
    numbers: Numbers,
    unit_ssrc: Ssrc,
    cname: String,
    rules: LegRules,
    endpoints: Vec<Ssrc>,
    cnames: Vec<Cname>,
    legs: Vec<LegSettings>,
}

impl Model for Settings {
    ghost use Rattle.std.specs.Prelude.{string_bytes};
    ghost use Rattle.settings.specs.Settings.{Configuration, IsInRange};

    ghost Value = { Configuration };

    ghost view = { λ s. record {
      workers = s.numbers.workers;
      ring = s.numbers.ring;
      history = s.numbers.history;
      timeout_ms = s.numbers.timeout_ms;
      report_ms = s.numbers.report_ms;
      report_slots = s.numbers.report_slots;
      request_ms = s.numbers.request_ms;
      pli_gap_ms = s.numbers.pli_gap_ms;
      unit_ssrc = s.unit_ssrc;
      cname = string_bytes s.cname;
      rules = s.rules;
      endpoints = s.endpoints.items;
      cnames = s.cnames.items;
      legs = s.legs.items;
    } };

    ghost invariant = { λ s. IsInRange (record {
      workers = s.numbers.workers;
      ring = s.numbers.ring;
      history = s.numbers.history;
      timeout_ms = s.numbers.timeout_ms;
      report_ms = s.numbers.report_ms;
      report_slots = s.numbers.report_slots;
      request_ms = s.numbers.request_ms;
      pli_gap_ms = s.numbers.pli_gap_ms;
      unit_ssrc = s.unit_ssrc;
      cname = string_bytes s.cname;
      rules = s.rules;
      endpoints = s.endpoints.items;
      cnames = s.cnames.items;
      legs = s.legs.items;
    }) };
}

/// A source, if the parts have it; else source 0.
fn source_of(value: Option<i64>) -> Ssrc
    ensures { result ≡ ssrc_of value }
{
    Ssrc(number_or_none(value, SSRCS) as u32)
}

/// The settings of a leg between so many endpoints.
fn leg_settings(leg: &LegParts, endpoints: u64) -> LegSettings
    requires least { 1 ≤ endpoints }
    requires most { endpoints ≤ MAX_ENDPOINTS }
    ensures { result ≡ leg_of endpoints leg.now }
{
    LegSettings {
        subscriber: number_or_none(leg.subscriber, endpoints) as u16,
        publisher: number_or_none(leg.publisher, endpoints) as u16,
        out_ssrc: source_of(leg.out_ssrc),
        first_seq: number_or_none(leg.first_seq, SEQ_CYCLE) as u16,
        on: leg.on.unwrap_or(true),
    }
}

/// What the extras say of legs that begin and end.
fn rules_in(extras: &Extras) -> LegRules
    ensures { result ≡ (additions_of extras.now).rules }
{
    LegRules {
        early_pictures: extras.early_pictures.unwrap_or(false),
        leg_goodbyes: extras.leg_goodbyes.unwrap_or(false),
    }
}

/// The canonical name.
fn copied_name(alloc: Global, cname: &Option<String>) -> Result<String, AllocError>
    ensures { IfOk result (λ name. string_bytes name ≡ name_of cname.now) }
{
    match cname {
        Some(text) => String::from_str(alloc, text.as_str()),
        None => Ok(String::new(alloc)),
    }
}

/// The sources of the endpoints.
fn copied_endpoints(alloc: Global, parts: &Parts) -> Result<Vec<Ssrc>, AllocError>
    ensures { IfOk result (λ v. v.items ≡ map ssrc_of parts.now.endpoints.items) }
{
    let endpoints = &parts.endpoints;
    endpoints.iter().map(|ssrc| source_of(*ssrc)).collect(alloc)
}

/// The name that is said of what the endpoint with this number publishes.
fn said_name<'a>(parts: &'a Parts, extras: &'a Extras, k: usize) -> &'a str
    ensures { result.now ≡ said_name parts.now (additions_of extras.now) k }
{
    match own_name(extras, k) {
        Some(own) => own,
        None => match &parts.cname {
            Some(unit) => unit.as_str(),
            None => "",
        },
    }
}

/// The names that are said of what the endpoints publish.
fn copied_cnames(alloc: Global, parts: &Parts, extras: &Extras) -> Result<Vec<Cname>, AllocError>
    requires { (k : ℕ) → k < length parts.now.endpoints.items
        → length (said_name parts.now (additions_of extras.now) k) ≤ CNAME_LIMIT }
    ensures { IfOk result (λ v. v.items
        ≡ said_names parts.now (additions_of extras.now) 0 parts.now.endpoints.items) }
{
    let count = parts.endpoints.len();
    let mut cnames = Vec::with_capacity(alloc, count)?;
    for k in 0..count {
        cnames.push(Cname::new(alloc, said_name(parts, extras, k))?)?;
    }
    Ok(cnames)
}

/// The legs.
fn copied_legs(alloc: Global, parts: &Parts) -> Result<Vec<LegSettings>, AllocError>
    requires least { 1 ≤ length parts.now.endpoints.items }
    requires most { length parts.now.endpoints.items ≤ MAX_ENDPOINTS }
    ensures { IfOk result (λ v. v.items
        ≡ map (leg_of (length parts.now.endpoints.items)) parts.now.legs.items) }
{
    let endpoints = parts.endpoints.len() as u64;
    let mut legs = Vec::with_capacity(alloc, parts.legs.len())?;
    for leg in &parts.legs {
        legs.push(leg_settings(leg, endpoints))?;
    }
    Ok(legs)
}

/// The settings of parts that passed every check.
fn copied(
    alloc: Global,
    parts: &Parts,
    extras: &Extras,
    numbers: Numbers,
) -> Result<Settings, AllocError>
    requires numbers { AreNumbersOf parts.now (additions_of extras.now) numbers }
    requires passes { first_fault (checks parts.now (additions_of extras.now)) ≡ None }
    ensures { IfOk result (λ s. s ≡ configuration_of parts.now (additions_of extras.now)) }
{
    let cname = copied_name(alloc, &parts.cname)?;
    let endpoints = copied_endpoints(alloc, parts)?;
    let cnames = copied_cnames(alloc, parts, extras)?;
    let legs = copied_legs(alloc, parts)?;
    Ok(Settings {
        numbers,
        unit_ssrc: source_of(parts.unit_ssrc),
        cname,
        rules: rules_in(extras),
        endpoints,
        cnames,
        legs,
    })
}

impl Settings {
    ghost use Rattle.std.specs.Prelude.{IfSome, OnErr};
    ghost use Rattle.settings.specs.Settings.{checks, configuration_of, no_additions, additions_of, IsInRange};

    /// The settings that these parts spell, with nothing asked beyond them. Refused with the first fault by the order of
    /// the checks, and as `NoMemory` only if every check passes.
    pub fn new(alloc: Global, parts: &Parts) -> Result<Settings, SettingsFault>
        ensures ok { IfOk result (λ s. (first_fault (checks parts.now no_additions) ≡ None)
            × (s ≡ configuration_of parts.now no_additions)) }
        ensures fault { IfSome (first_fault (checks parts.now no_additions)) (λ f. result ≡ Err f) }
        ensures no_memory { first_fault (checks parts.now no_additions) ≡ None
            → OnErr result (result ≡ Err SettingsFault.NoMemory) }
    {
        Settings::new_with(alloc, parts, &Extras::none(alloc))
    }

    /// The settings that these parts and extras spell. Refused with the first fault by the order of the checks, an endpoint's
    /// name before its source, and as `NoMemory` only if every check passes.
    pub fn new_with(
        alloc: Global,
        parts: &Parts,
        extras: &Extras,
    ) -> Result<Settings, SettingsFault>
        ensures ok { IfOk result
            (λ s. (first_fault (checks parts.now (additions_of extras.now)) ≡ None)
            × (s ≡ configuration_of parts.now (additions_of extras.now))) }
        ensures fault { IfSome (first_fault (checks parts.now (additions_of extras.now)))
            (λ f. result ≡ Err f) }
        ensures no_memory { first_fault (checks parts.now (additions_of extras.now)) ≡ None
            → OnErr result (result ≡ Err SettingsFault.NoMemory) }
    {
        match checked(parts, extras) {
            Ok(numbers) => match copied(alloc, parts, extras, numbers) {
                Ok(settings) => Ok(settings),
                Err(_) => Err(SettingsFault::NoMemory),
            },
            Err(fault) => Err(fault),
        }
    }

    /// How many threads forward.
    pub fn workers(&self) -> u64
        ensures value { result ≡ self.now.workers }
        ensures range { IsInRange self.now }
    {
        self.numbers.workers
    }

    /// How many packets a leg keeps for resending.
    pub fn ring(&self) -> u64
        ensures value { result ≡ self.now.ring }
        ensures range { IsInRange self.now }
    {
        self.numbers.ring
    }

    /// How many calls a desk keeps.
    pub fn history(&self) -> u64
        ensures value { result ≡ self.now.history }
        ensures range { IsInRange self.now }
    {
        self.numbers.history
    }

    /// The silence after which an endpoint leaves, in milliseconds, at least 1.
    pub fn timeout_ms(&self) -> u64
        ensures value { result ≡ self.now.timeout_ms }
        ensures range { IsInRange self.now }
    {
        self.numbers.timeout_ms
    }

    /// The time between two reports, in milliseconds, at least 1.
    pub fn report_ms(&self) -> u64
        ensures value { result ≡ self.now.report_ms }
        ensures range { IsInRange self.now }
    {
        self.numbers.report_ms
    }

    /// In how many slots the reports of a period go out, at least 1; all at once, if it is 1.
    pub fn report_slots(&self) -> u64
        ensures value { result ≡ self.now.report_slots }
        ensures range { IsInRange self.now }
    {
        self.numbers.report_slots
    }

    /// The age at which a request is given up, in milliseconds; 0 if it never is.
    pub fn request_ms(&self) -> u64
        ensures value { result ≡ self.now.request_ms }
        ensures range { IsInRange self.now }
    {
        self.numbers.request_ms
    }

    /// The least time between two picture loss indications to a publisher, in milliseconds.
    pub fn pli_gap_ms(&self) -> u64
        ensures value { result ≡ self.now.pli_gap_ms }
        ensures range { IsInRange self.now }
    {
        self.numbers.pli_gap_ms
    }

    /// What the unit does of its own accord as legs begin and end.
    pub fn rules(&self) -> LegRules
        ensures { result ≡ self.now.rules }
    {
        self.rules
    }

    /// The unit's own source.
    pub fn unit_ssrc(&self) -> Ssrc
        ensures value { result ≡ self.now.unit_ssrc }
        ensures range { IsInRange self.now }
    {
        self.unit_ssrc
    }

    /// The unit's canonical name, ASCII.
    pub fn cname(&self) -> &[u8]
        ensures value { result.now ≡ self.now.cname }
        ensures range { IsInRange self.now }
    {
        self.cname.as_bytes()
    }

    /// The source of each endpoint, by its number.
    pub fn endpoints(&self) -> &[Ssrc]
        ensures value { result.now ≡ self.now.endpoints }
        ensures range { IsInRange self.now }
    {
        self.endpoints.as_slice()
    }

    /// The canonical name that is said of what each endpoint publishes, by its number: its own, or else the unit's.
    pub fn cnames(&self) -> &[Cname]
        ensures value { result.now ≡ self.now.cnames }
        ensures range { IsInRange self.now }
    {
        self.cnames.as_slice()
    }

    /// The legs, by their numbers.
    pub fn legs(&self) -> &[LegSettings]
        ensures value { result.now ≡ self.now.legs }
        ensures range { IsInRange self.now }
    {
        self.legs.as_slice()
    }
}
