//! A certificate, written as the numbers that C takes.

ghost use Rattle.std.specs.Prelude.{◌≡◌, ◌/◌, ◌%◌, ◌^◌, ◌<◌, ◌≤◌, length, map, take, drop, All};
ghost use Rattle.tmmbr_c.specs.Numbers.{IsKeptInRange, IsImpliedInRange, kept_entry, implied_entry};
ghost use Rattle.tmmbr_c.specs.Order.{place_in};
ghost use Rattle.tmmbr_c.specs.Renumbering.{IsMovable, moved_kept, moved_implied};

use crate::numbers::{TmmbrImplied, TmmbrKept};
use crate::order::OwnerPlace;
use rate_cert::{Implied, Kept};

/// Writes kept entries for the places that their requests have in the list, to the front of the
/// array.
pub fn write_kept_entries(entries: &[Kept], order: &[OwnerPlace], kept: &mut [TmmbrKept])
    requires room { length entries.now ≤ length kept.old }
    requires in_range { All (λ k. k.place < length order.now) entries.now }
    ensures written { map kept_entry (take (length entries.now) kept.new)
        ≡ map (moved_kept (place_in order.now)) entries.now }
    ensures in_range { All IsKeptInRange (take (length entries.now) kept.new) }
    ensures rest { drop (length entries.now) kept.new ≡ drop (length entries.now) kept.old }
{
    for (k, entry) in entries.iter().enumerate() {
        kept[k] = write_kept(entry, order);
    }
}

/// Writes implied entries likewise.
pub fn write_implied_entries(
    entries: &[Implied],
    order: &[OwnerPlace],
    implied: &mut [TmmbrImplied],
)
    requires room { length entries.now ≤ length implied.old }
    requires in_range { All (IsMovable order.now) entries.now }
    ensures written { map implied_entry (take (length entries.now) implied.new)
        ≡ map (moved_implied (place_in order.now)) entries.now }
    ensures in_range { All IsImpliedInRange (take (length entries.now) implied.new) }
    ensures rest { drop (length entries.now) implied.new
        ≡ drop (length entries.now) implied.old }
{
    for (k, entry) in entries.iter().enumerate() {
        implied[k] = write_implied(entry, order);
    }
}

/// The numbers of a kept entry.
fn write_kept(entry: &Kept, order: &[OwnerPlace]) -> TmmbrKept
    requires { entry.now.place < length order.now }
    ensures in_range { IsKeptInRange result }
    ensures value { kept_entry result ≡ moved_kept (place_in order.now) entry.now }
{
    TmmbrKept {
        packets_high: upper_half(entry.pair.packets),
        packets_low: lower_half(entry.pair.packets),
        bits_high: upper_half(entry.pair.bits),
        bits_low: lower_half(entry.pair.bits),
        seconds: entry.pair.seconds as u32,
        place: moved(entry.place, order),
    }
}

/// The numbers of an implied entry.
fn write_implied(entry: &Implied, order: &[OwnerPlace]) -> TmmbrImplied
    requires { IsMovable order.now entry.now }
    ensures in_range { IsImpliedInRange result }
    ensures value { implied_entry result ≡ moved_implied (place_in order.now) entry.now }
{
    TmmbrImplied {
        place: moved(entry.place, order),
        a: moved(entry.a, order),
        b: moved(entry.b, order),
        p: u32::from(entry.p),
        q: u32::from(entry.q),
        r: u32::from(entry.r),
    }
}

/// The place in the list of the request whose owner has this number.
fn moved(number: u16, order: &[OwnerPlace]) -> u32
    requires { number < length order.now }
    ensures value { result ≡ place_in order.now number }
    ensures in_range { result < 2 ^ 16 }
{
    widened(order[usize::from(number)].place)
}

fn widened(number: u16) -> u32
    ensures value { result ≡ number }
    ensures in_range { result < 2 ^ 16 }
{
    u32::from(number)
}

fn upper_half(number: u128) -> u64
    ensures { result ≡ number / 2 ^ 64 }
{
    (number >> 64) as u64
}

fn lower_half(number: u128) -> u64
    ensures { result ≡ number % 2 ^ 64 }
{
    (number % (1 << 64)) as u64
}
