//! The checks of settings, in their order, and the plain numbers that pass them.

ghost use Rattle.std.specs.Prelude.{◌≡◌, ◌+◌, ◌<◌, ◌≤◌, ◌^◌, length, drop, flat_map, MatchResult, IfSome, Some, None, nat_lt, true, false, not, ◌==◌, slice_index, slice_index_or, option_map};
ghost use Rattle.std.specs.List.{list_all, list_any, enumerate_from};
ghost use Rattle.settings.specs.Settings.{number_within, number_below, or_one, or_zero, is_same, name_of, is_cname, is_cname_or_none, own_name, additions_of, top_checks, endpoint_checks, leg_checks, has_pair, sources, number_or_zero, are_distinct, first_fault, AreNumbersOf, checks};

use crate::fault::{Key, SettingsFault};
use crate::limits::{
    LEAST_HISTORY, MAX_ENDPOINTS, MAX_HISTORY, MAX_LEGS, MAX_PERIOD_MS, MAX_REPORT_SLOTS, MAX_RING,
    MAX_WORKERS, SSRCS,
};
use crate::parts::{Extras, LegParts, Parts};
use rewrite::SEQ_CYCLE;
use rtcp_compound::CNAME_LIMIT;

/// The plain numbers of settings.
#[derive(Clone, Copy)]
pub struct Numbers {
    pub workers: u64,
    pub ring: u64,
    pub history: u64,
    pub timeout_ms: u64,
    pub report_ms: u64,
    pub report_slots: u64,
    pub request_ms: u64,
    pub pli_gap_ms: u64,
}

/// The number, if it is there and lies from `least` to `most`.
fn number_in(value: Option<i64>, least: u64, most: u64) -> Option<u64>
    ensures { result ≡ number_within value least most }
{
    let value = value?;
    if value < 0 {
        return None;
    }
    let number = value as u64;
    if least <= number && number <= most {
        Some(number)
    } else {
        None
    }
}

/// The number, if it is there and lies from 0 to below the limit.
fn number_under(value: Option<i64>, limit: u64) -> Option<u64>
    ensures value { result ≡ number_below value limit }
    ensures bound { IfSome result (λ n. n < limit) }
{
    let value = value?;
    if value < 0 {
        return None;
    }
    let number = value as u64;
    if number < limit { Some(number) } else { None }
}

/// A number that may be absent: 0 then.
fn or_zero(value: Option<i64>) -> Option<i64>
    ensures { result ≡ or_zero value }
{
    Some(value.unwrap_or(0))
}

/// A number that may be absent: 1 then.
fn or_one(value: Option<i64>) -> Option<i64>
    ensures { result ≡ or_one value }
{
    Some(value.unwrap_or(1))
}

/// Whether both are there and equal.
fn are_same(a: Option<u64>, b: Option<u64>) -> bool
    ensures { result ≡ is_same a b }
{
    match (a, b) {
        (Some(a), Some(b)) => a == b,
        _ => false,
    }
}

/// Whether these bytes are ASCII.
fn are_ascii(bytes: &[u8]) -> bool
    ensures { result ≡ list_all (λ b. nat_lt b 128) bytes.now }
{
    bytes.iter().all(|b| *b < 128)
}

/// Whether these bytes are a canonical name.
fn is_cname(bytes: &[u8]) -> bool
    ensures { result ≡ is_cname bytes.now }
{
    1 <= bytes.len() && bytes.len() <= CNAME_LIMIT && are_ascii(bytes)
}

/// Whether this is a canonical name.
fn is_name(cname: &Option<String>) -> bool
    ensures { result ≡ is_cname (name_of cname.now) }
{
    match cname {
        Some(text) => is_cname(text.as_bytes()),
        None => false,
    }
}

/// The name of its own of the endpoint with this number.
pub fn own_name(extras: &Extras, k: usize) -> Option<&str>
    ensures { option_map (λ name. name.now) result ≡ own_name (additions_of extras.now) k }
{
    match extras.cnames.get(k) {
        Some(Some(name)) => Some(name.as_str()),
        _ => None,
    }
}

/// Whether the endpoint with this number has a canonical name, or none of its own.
fn has_name_or_none(extras: &Extras, k: usize) -> bool
    ensures { result ≡ is_cname_or_none (own_name (additions_of extras.now) k) }
{
    match own_name(extras, k) {
        Some(name) => is_cname(name.as_bytes()),
        None => true,
    }
}

/// The fault, unless the check passes.
fn require(passes: bool, fault: SettingsFault) -> Result<(), SettingsFault>
    ensures { MatchResult result (λ _. passes ≡ true) (λ f. (passes ≡ false) × (f ≡ fault)) }
{
    if passes { Ok(()) } else { Err(fault) }
}

impl Numbers {
    /// The plain numbers, if every key of the table passes; else the first fault.
    #[tactic(auto, unfolding(crate::specs::Settings::top_checks))]
    fn read(parts: &Parts, extras: &Extras) -> Result<Numbers, SettingsFault>
        ensures { MatchResult result
            (λ n. (first_fault (top_checks parts.now (additions_of extras.now)) ≡ None)
            × AreNumbersOf parts.now (additions_of extras.now) n)
            (λ f. first_fault (top_checks parts.now (additions_of extras.now)) ≡ Some f) }
    {
        let top = SettingsFault::Top;
        require(is_name(&parts.cname), top(Key::Cname))?;
        let endpoints = parts.endpoints.len();
        require(
            1 <= endpoints && endpoints <= MAX_ENDPOINTS,
            top(Key::Endpoint),
        )?;
        let history = number_in(parts.history, LEAST_HISTORY, MAX_HISTORY);
        let history = history.ok_or(top(Key::History))?;
        require(parts.legs.len() <= MAX_LEGS, top(Key::Leg))?;
        let pli_gap_ms = number_in(parts.pli_gap_ms, 0, MAX_PERIOD_MS);
        let pli_gap_ms = pli_gap_ms.ok_or(top(Key::PliGapMs))?;
        let report_ms = number_in(parts.report_ms, 1, MAX_PERIOD_MS);
        let report_ms = report_ms.ok_or(top(Key::ReportMs))?;
        let report_slots = number_in(or_one(extras.report_slots), 1, MAX_REPORT_SLOTS);
        let report_slots = report_slots.ok_or(top(Key::ReportSlots))?;
        let request_ms = number_in(or_zero(parts.request_ms), 0, MAX_PERIOD_MS);
        let request_ms = request_ms.ok_or(top(Key::RequestMs))?;
        let ring = number_in(parts.ring, 1, MAX_RING).ok_or(top(Key::Ring))?;
        let timeout_ms = number_in(parts.timeout_ms, 1, MAX_PERIOD_MS);
        let timeout_ms = timeout_ms.ok_or(top(Key::TimeoutMs))?;
        number_under(parts.unit_ssrc, SSRCS).ok_or(top(Key::UnitSsrc))?;
        let workers = number_in(parts.workers, 1, MAX_WORKERS).ok_or(top(Key::Workers))?;
        Ok(Numbers {
            workers,
            ring,
            history,
            timeout_ms,
            report_ms,
            report_slots,
            request_ms,
            pli_gap_ms,
        })
    }
}

/// Whether one of the legs has this subscriber and this publisher.
fn is_taken(
    legs: &[LegParts],
    endpoints: u64,
    subscriber: Option<u64>,
    publisher: Option<u64>,
) -> bool
    ensures { result ≡ has_pair legs.now endpoints subscriber publisher }
{
    legs.iter().any(|leg| {
        are_same(number_under(leg.subscriber, endpoints), subscriber)
            && are_same(number_under(leg.publisher, endpoints), publisher)
    })
}

/// The first fault of the endpoint with this number.
fn check_endpoint(extras: &Extras, k: usize, ssrc: Option<i64>) -> Result<(), SettingsFault>
    ensures { MatchResult result
        (λ _. first_fault (endpoint_checks (additions_of extras.now) (k, ssrc)) ≡ None)
        (λ f. first_fault (endpoint_checks (additions_of extras.now) (k, ssrc)) ≡ Some f) }
{
    let is_named = has_name_or_none(extras, k);
    require(is_named, SettingsFault::Endpoint(k, Key::Cname))?;
    let ssrc = number_under(ssrc, SSRCS);
    require(ssrc.is_some(), SettingsFault::Endpoint(k, Key::Ssrc))
}

/// The first fault of the endpoints.
fn check_endpoints(parts: &Parts, extras: &Extras) -> Result<(), SettingsFault>
    ensures { MatchResult result
        (λ _. first_fault (flat_map (endpoint_checks (additions_of extras.now))
        (enumerate_from 0 parts.now.endpoints.items)) ≡ None)
        (λ f. first_fault (flat_map (endpoint_checks (additions_of extras.now))
        (enumerate_from 0 parts.now.endpoints.items)) ≡ Some f) }
{
    for k in 0..parts.endpoints.len() {
        check_endpoint(extras, k, parts.endpoints[k])?;
    }
    Ok(())
}

/// The first fault of the leg of this number.
fn check_leg(parts: &Parts, k: usize) -> Result<(), SettingsFault>
    requires { k < length parts.now.legs.items }
    ensures { MatchResult result
        (λ _. (d : LegParts) → first_fault
        (leg_checks parts.now (k, slice_index_or parts.now.legs.items k d)) ≡ None)
        (λ f. (d : LegParts) → first_fault
        (leg_checks parts.now (k, slice_index_or parts.now.legs.items k d)) ≡ Some f) }
{
    let leg = parts.legs[k];
    let endpoints = parts.endpoints.len() as u64;
    let subscriber = number_under(leg.subscriber, endpoints);
    let publisher = number_under(leg.publisher, endpoints);
    let first_seq = number_under(or_zero(leg.first_seq), SEQ_CYCLE);
    require(first_seq.is_some(), SettingsFault::Leg(k, Key::FirstSeq))?;
    let out_ssrc = number_under(leg.out_ssrc, SSRCS);
    require(out_ssrc.is_some(), SettingsFault::Leg(k, Key::OutSsrc))?;
    let is_other = publisher.is_some()
        && !are_same(subscriber, publisher)
        && !is_taken(&parts.legs[..k], endpoints, subscriber, publisher);
    require(is_other, SettingsFault::Leg(k, Key::Publisher))?;
    require(subscriber.is_some(), SettingsFault::Leg(k, Key::Subscriber))
}

/// The first fault of the legs.
fn check_legs(parts: &Parts) -> Result<(), SettingsFault>
    ensures { MatchResult result
        (λ _. first_fault
        (flat_map (leg_checks parts.now) (enumerate_from 0 parts.now.legs.items)) ≡ None)
        (λ f. first_fault
        (flat_map (leg_checks parts.now) (enumerate_from 0 parts.now.legs.items)) ≡ Some f) }
{
    for k in 0..parts.legs.len() {
        check_leg(parts, k)?;
    }
    Ok(())
}

/// The number, if it is there and below the limit; else 0.
pub fn number_or_none(value: Option<i64>, limit: u64) -> u64
    requires { 1 ≤ limit }
    ensures value { result ≡ number_or_zero value limit }
    ensures bound { result < limit }
{
    number_under(value, limit).unwrap_or(0)
}

/// The source at this place among all of them.
fn source_at(parts: &Parts, place: usize) -> u64
    requires { place < 1 + length parts.now.endpoints.items + length parts.now.legs.items }
    ensures { result ≡ slice_index (sources parts.now) place }
{
    if place == 0 {
        return number_or_none(parts.unit_ssrc, SSRCS);
    }
    let place = place - 1;
    let endpoints = parts.endpoints.len();
    if place < endpoints {
        return number_or_none(parts.endpoints[place], SSRCS);
    }
    number_or_none(parts.legs[place - endpoints].out_ssrc, SSRCS)
}

/// Whether no source after this place is the same.
fn is_single(parts: &Parts, place: usize, count: usize) -> bool
    requires within { place < count }
    requires counted { count ≡ 1 + length parts.now.endpoints.items + length parts.now.legs.items }
    ensures { result ≡ not (list_any (λ y. y == slice_index (sources parts.now) place)
        (drop (place + 1) (sources parts.now))) }
{
    let source = source_at(parts, place);
    for other in place + 1..count {
        if source_at(parts, other) == source {
            return false;
        }
    }
    true
}

/// Whether all sources are distinct.
fn are_all_distinct(parts: &Parts) -> bool
    requires { length parts.now.endpoints.items + length parts.now.legs.items < 2 ^ 32 }
    ensures { result ≡ are_distinct (sources parts.now) }
{
    let count = 1 + parts.endpoints.len() + parts.legs.len();
    for place in 0..count {
        if !is_single(parts, place, count) {
            return false;
        }
    }
    true
}

/// The plain numbers, if every check passes; else the first fault.
pub fn checked(parts: &Parts, extras: &Extras) -> Result<Numbers, SettingsFault>
    ensures { MatchResult result
        (λ n. (first_fault (checks parts.now (additions_of extras.now)) ≡ None)
        × AreNumbersOf parts.now (additions_of extras.now) n)
        (λ f. first_fault (checks parts.now (additions_of extras.now)) ≡ Some f) }
{
    let numbers = Numbers::read(parts, extras)?;
    check_endpoints(parts, extras)?;
    check_legs(parts)?;
    if !are_all_distinct(parts) {
        return Err(SettingsFault::SameSsrc);
    }
    Ok(numbers)
}
