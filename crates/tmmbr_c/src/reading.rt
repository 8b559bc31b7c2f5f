//! Requests and certificates, read from the numbers that C gives.

ghost use Rattle.std.specs.Prelude.{◌≡◌, ◌≤◌, ◌↔◌, length, map, All, IsSome, IfSome, OnOk, IfOk, IfErr};
ghost use Rattle.tmmbr_c.specs.First.{IsFirstFailing};
ghost use Rattle.tmmbr_c.specs.Numbers.{IsRequestInRange, IsKeptInRange, IsImpliedInRange, asked_request, kept_entry, implied_entry, joined};

use crate::numbers::{TmmbrImplied, TmmbrKept, TmmbrRequest};
use arrayvec::ArrayVec;
use rate_cert::{Implied, Kept, MAX_REQUESTS, Request};
use tmmbr_tuple::{Pair, Ssrc, Tuple};

/// The requests of these numbers; else the first place where one is out of range.
pub fn read_requests(asked: &[TmmbrRequest]) -> Result<ArrayVec<Request, MAX_REQUESTS>, usize>
    requires { length asked.now ≤ MAX_REQUESTS }
    ensures read { IfOk result (λ requests. requests.items ≡ map asked_request asked.now) }
    ensures in_range { OnOk result (All IsRequestInRange asked.now) }
    ensures first { IfErr result (IsFirstFailing IsRequestInRange asked.now) }
{
    let mut requests = ArrayVec::new();
    for (place, numbers) in asked.iter().enumerate() {
        match read_request(numbers) {
            Some(request) => requests.push(request),
            None => return Err(place),
        }
    }
    Ok(requests)
}

/// The kept entries of these numbers; else the first place where one is out of range.
pub fn read_kept_entries(entries: &[TmmbrKept]) -> Result<ArrayVec<Kept, MAX_REQUESTS>, usize>
    requires { length entries.now ≤ MAX_REQUESTS }
    ensures read { IfOk result (λ kept. kept.items ≡ map kept_entry entries.now) }
    ensures in_range { OnOk result (All IsKeptInRange entries.now) }
    ensures first { IfErr result (IsFirstFailing IsKeptInRange entries.now) }
{
    let mut kept = ArrayVec::new();
    for (place, numbers) in entries.iter().enumerate() {
        match read_kept(numbers) {
            Some(entry) => kept.push(entry),
            None => return Err(place),
        }
    }
    Ok(kept)
}

/// The implied entries of these numbers; else the first place where one is out of range.
pub fn read_implied_entries(
    entries: &[TmmbrImplied],
) -> Result<ArrayVec<Implied, MAX_REQUESTS>, usize>
    requires { length entries.now ≤ MAX_REQUESTS }
    ensures read { IfOk result (λ implied. implied.items ≡ map implied_entry entries.now) }
    ensures in_range { OnOk result (All IsImpliedInRange entries.now) }
    ensures first { IfErr result (IsFirstFailing IsImpliedInRange entries.now) }
{
    let mut implied = ArrayVec::new();
    for (place, numbers) in entries.iter().enumerate() {
        match read_implied(numbers) {
            Some(entry) => implied.push(entry),
            None => return Err(place),
        }
    }
    Ok(implied)
}

/// The request of these numbers; `None` exactly if one is out of range.
pub fn read_request(asked: &TmmbrRequest) -> Option<Request>
    ensures in_range { IsSome result ↔ IsRequestInRange asked.now }
    ensures value { IfSome result (λ r. r ≡ asked_request asked.now) }
{
    let exp = u8::try_from(asked.exponent).ok()?;
    let overhead = u16::try_from(asked.overhead).ok()?;
    let tuple = Tuple::new(exp, asked.mantissa, overhead)?;
    Some(Request {
        owner: Ssrc(asked.ssrc),
        tuple,
    })
}

/// The kept entry of these numbers; `None` exactly if one is out of range.
pub fn read_kept(entry: &TmmbrKept) -> Option<Kept>
    ensures in_range { IsSome result ↔ IsKeptInRange entry.now }
    ensures value { IfSome result (λ k. k ≡ kept_entry entry.now) }
{
    let packets = join(entry.packets_high, entry.packets_low);
    let bits = join(entry.bits_high, entry.bits_low);
    let pair = Pair::new(packets, bits, u128::from(entry.seconds))?;
    let place = u16::try_from(entry.place).ok()?;
    Some(Kept { place, pair })
}

/// The implied entry of these numbers; `None` exactly if one is out of range.
pub fn read_implied(entry: &TmmbrImplied) -> Option<Implied>
    ensures in_range { IsSome result ↔ IsImpliedInRange entry.now }
    ensures value { IfSome result (λ i. i ≡ implied_entry entry.now) }
{
    Some(Implied {
        place: u16::try_from(entry.place).ok()?,
        a: u16::try_from(entry.a).ok()?,
        b: u16::try_from(entry.b).ok()?,
        p: u16::try_from(entry.p).ok()?,
        q: u16::try_from(entry.q).ok()?,
        r: u16::try_from(entry.r).ok()?,
    })
}

/// The number of which these are the upper and the lower 64 bits.
fn join(high: u64, low: u64) -> u128
    ensures { result ≡ joined high low }
{
    u128::from(high) << 64 | u128::from(low)
}
