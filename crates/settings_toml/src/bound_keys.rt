//! The keys of bounds: what one client may cost the others, how often a publisher is asked again, and how much of a stall counts.

ghost use Rattle.std.specs.Prelude.{◌≡◌, ◌<◌, ◌≤◌, IfSome};
ghost use Rattle.settings.specs.Settings.{number_below, number_or_zero};
ghost use Rattle.settings_toml.specs.SettingsFile.{bounds_in, integer_in, repeat_of, stall_of, zero_or_from};
ghost use Rattle.settings_toml.specs.SettingsFaults.{is_repeat, is_stall, is_under};
ghost use Rattle.toml.specs.Data.{get_member};
ghost use Rattle.toml.specs.View.{table_view, view};

use crate::values::integer_at;
use toml::{Table, Value};

/// One more than the greatest gap between two resends of a packet, in milliseconds.
pub const GAPS_MS: u64 = 60_001;

/// One more than the greatest share of resends, in percent.
pub const SHARES: u64 = 101;

/// One more than the greatest number of entries of a datagram.
pub const ENTRIES: u64 = 65_536;

/// One more than the greatest number of datagrams a millisecond.
pub const FLOODS: u64 = 1_000_001;

/// The least time between two repeats of what a publisher is asked for, in milliseconds, if it isn't 0.
pub const LEAST_REPEAT_MS: u64 = 100;

/// One more than the greatest such time.
pub const REPEATS_MS: u64 = 60_001;

/// The least time that counts between two looks at the clock, in milliseconds, if it isn't 0.
pub const LEAST_STALL_MS: u64 = 100;

/// One more than the greatest such time.
pub const STALLS_MS: u64 = 60_001;

/// What a settings file says of bounds; each is 0, which bounds and repeats nothing, if the file says
/// nothing.
#[derive(Clone, Copy, PartialEq, Eq)]
pub struct BoundKeys {
    /// How many entries of a datagram's feedback are heard.
    pub entry_limit: u32,
    /// How many datagrams of one endpoint are heard a millisecond, beside what it didn't send in the last second.
    pub flood_limit: u32,
    /// How many milliseconds there are between two repeats of what a publisher is asked for.
    pub repeat_ms: u64,
    /// How many milliseconds there are at least between two requests for a greatest rate that are heard of one leg.
    pub request_gap_ms: u64,
    /// Within how many milliseconds a packet isn't sent again twice on a leg.
    pub resend_gap_ms: u64,
    /// How many packets are sent again on a leg, in percent of those that came.
    pub resend_share: u8,
    /// How many milliseconds count at most between two looks at the clock.
    pub stall_ms: u64,
}

/// The bounds that a table spells.
pub(crate) fn bounds_at(table: &Table) -> BoundKeys
    ensures { result ≡ bounds_in (table_view table.now) }
{
    BoundKeys {
        entry_limit: bound_at(table, "entry_limit", ENTRIES) as u32,
        flood_limit: bound_at(table, "flood_limit", FLOODS) as u32,
        repeat_ms: repeat_of(integer_at(table, "repeat_ms")).unwrap_or(0),
        request_gap_ms: bound_at(table, "request_gap_ms", GAPS_MS),
        resend_gap_ms: bound_at(table, "resend_gap_ms", GAPS_MS),
        resend_share: bound_at(table, "resend_share", SHARES) as u8,
        stall_ms: stall_of(integer_at(table, "stall_ms")).unwrap_or(0),
    }
}

/// The number at a key, below this limit; 0 if there is none.
fn bound_at(table: &Table, key: &str, limit: u64) -> u64
    requires { 1 ≤ limit }
    ensures value { result
        ≡ number_or_zero (integer_in (get_member key.now (table_view table.now))) limit }
    ensures bound { result < limit }
{
    number_under(integer_at(table, key), limit).unwrap_or(0)
}

/// Whether the value is a whole number from 0 to below this limit.
pub(crate) fn is_under(value: &Value, limit: u64) -> bool
    ensures { result ≡ is_under limit (view value.now) }
{
    number_under(value.as_integer(), limit).is_some()
}

/// Whether the value is a time between two repeats.
pub(crate) fn is_repeat(value: &Value) -> bool
    ensures { result ≡ is_repeat (view value.now) }
{
    repeat_of(value.as_integer()).is_some()
}

/// Whether the value is a time that counts between two looks at the clock.
pub(crate) fn is_stall(value: &Value) -> bool
    ensures { result ≡ is_stall (view value.now) }
{
    stall_of(value.as_integer()).is_some()
}

/// The time between two repeats that a number is, if it is there: 0, or from the least to the greatest.
fn repeat_of(value: Option<i64>) -> Option<u64>
    ensures { result ≡ repeat_of value }
{
    zero_or_from(LEAST_REPEAT_MS, number_under(value, REPEATS_MS))
}

/// The time that counts between two looks at the clock that a number is, if it is there: 0, or from the least to the greatest.
fn stall_of(value: Option<i64>) -> Option<u64>
    ensures { result ≡ stall_of value }
{
    zero_or_from(LEAST_STALL_MS, number_under(value, STALLS_MS))
}

/// The number, if it is there and is 0 or from the least on.
fn zero_or_from(least: u64, number: Option<u64>) -> Option<u64>
    ensures { result ≡ zero_or_from least number }
{
    let number = number?;
    if number == 0 || least <= number {
        Some(number)
    } else {
        None
    }
}

/// The number, if it is there and lies from 0 to below the limit.
pub(crate) fn number_under(value: Option<i64>, limit: u64) -> Option<u64>
    ensures value { result ≡ number_below value limit }
    ensures bound { IfSome result (λ n. n < limit) }
{
    let value = value?;
    if value < 0 {
        return None;
    }
    let number = value as u64;
    if number < limit { Some(number) } else { None }
}
