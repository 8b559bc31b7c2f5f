//! What a unit would be by its settings: how many endpoints and legs it has, and how much memory it takes.

ghost use Rattle.std.specs.Prelude.{◌≡◌, ◌<◌, ◌≤◌, ◌+◌, ◌*◌, ◌^◌, ◌==◌, IfOk, if◌then◌else◌};
ghost use Rattle.std.specs.List.{list_any};
ghost use Rattle.std.specs.String.{string_bytes};
ghost use Rattle.cli.specs.Plan.{count_publishers, memory_of, plan_of, plan_text};

use settings::{LegSettings, Settings};
use std::alloc::{AllocError, Global};

/// Bytes that a unit takes whatever its settings are: 3 MiB.
const UNIT_BYTES: u64 = 3_145_728;

/// Bytes for each endpoint: a tenth of a mebibyte.
const ENDPOINT_BYTES: u64 = 104_858;

/// Bytes for each packet that is kept of a publisher: 1,200 of a packet of video, and 80 beside them.
const PACKET_BYTES: u64 = 1_280;

/// Bytes for each packet of each leg.
const LEG_PACKET_BYTES: u64 = 40;

/// What a unit would be.
#[derive(Clone, Copy, Debug, PartialEq, Eq)]
pub struct Plan {
    pub endpoints: u16,
    /// How many of these some leg forwards.
    pub publishers: u16,
    pub legs: u16,
    /// How many packets each leg keeps for resending.
    pub ring: u16,
}

/// What a unit with these settings would be.
pub fn plan_of(settings: &Settings) -> Plan
    ensures { result ≡ plan_of settings.now }
{
    let endpoints = settings.endpoints().len() as u16;
    let legs = settings.legs();
    Plan {
        endpoints,
        publishers: count_publishers(legs, endpoints),
        legs: legs.len() as u16,
        ring: settings.ring() as u16,
    }
}

/// How many of so many endpoints, by their numbers, some leg forwards.
fn count_publishers(legs: &[LegSettings], endpoints: u16) -> u16
    ensures value { result ≡ count_publishers legs.now endpoints }
    ensures bound { result ≤ endpoints }
{
    let mut count = 0;
    for endpoint in 0..endpoints {
        count = counted(legs, endpoint, count);
    }
    count
}

/// One more, if some leg forwards this endpoint.
fn counted(legs: &[LegSettings], endpoint: u16, count: u16) -> u16
    requires { count < 65535 }
    ensures value { result ≡ (if list_any (λ leg. leg.publisher == endpoint) legs.now
        then count + 1 else count) }
    ensures bound { result ≤ count + 1 }
{
    if publishes(legs, endpoint) {
        count + 1
    } else {
        count
    }
}

/// Whether some leg forwards this endpoint.
fn publishes(legs: &[LegSettings], endpoint: u16) -> bool
    ensures { result ≡ list_any (λ leg. leg.publisher == endpoint) legs.now }
{
    legs.iter().any(|leg| leg.publisher == endpoint)
}

/// The lines that say what a unit would be, with its memory in bytes.
pub fn plan_text(alloc: Global, plan: Plan) -> Result<String, AllocError>
    ensures { IfOk result (λ text. string_bytes text ≡ plan_text plan) }
{
    let endpoints = plan.endpoints;
    let legs = plan.legs;
    let memory = memory_of(plan);
    format!(in alloc; "endpoints {endpoints}\nlegs {legs}\nmemory {memory}\n")
}

/// How many bytes of memory the unit takes.
fn memory_of(plan: Plan) -> u64
    ensures { result ≡ memory_of plan }
{
    let endpoints = u64::from(plan.endpoints) * ENDPOINT_BYTES;
    let ring = u64::from(plan.ring);
    let packets = product(u64::from(plan.publishers), ring, PACKET_BYTES);
    let of_legs = product(u64::from(plan.legs), ring, LEG_PACKET_BYTES);
    UNIT_BYTES + endpoints + packets + of_legs
}

/// So many times so many times these bytes.
fn product(count: u64, each: u64, bytes: u64) -> u64
    requires count { count < 2 ^ 16 }
    requires each { each < 2 ^ 16 }
    requires bytes { bytes < 2 ^ 20 }
    ensures value { result ≡ count * each * bytes }
    ensures bound { result < 2 ^ 52 }
{
    let packets = count * each;
    packets * bytes
}
