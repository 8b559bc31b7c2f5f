//! The key of the unit's pace.

ghost use Rattle.std.specs.Prelude.{◌≡◌};
ghost use Rattle.settings.specs.Settings.{number_within};
ghost use Rattle.settings_toml.specs.SettingsFile.{tick_in};
ghost use Rattle.settings_toml.specs.SettingsFaults.{is_tick};
ghost use Rattle.toml.specs.View.{table_view, view};

use crate::values::integer_at;
use toml::{Table, Value};

/// The time between two ticks if a file says nothing of it, in milliseconds. Each present endpoint's desk records the moment at each: so it
/// lives for years, and a room of 256 costs little while nobody speaks.
pub const TICK_MS: u64 = 50;

/// The greatest such time that a file may say; the least is 1.
pub const MOST_TICK_MS: u64 = 1_000;

/// The time between two ticks that a table spells.
pub(crate) fn tick_at(table: &Table) -> u64
    ensures { result ≡ tick_in (table_view table.now) }
{
    tick_of(integer_at(table, "tick_ms")).unwrap_or(TICK_MS)
}

/// Whether the value is a time between two ticks.
pub(crate) fn is_tick(value: &Value) -> bool
    ensures { result ≡ is_tick (view value.now) }
{
    tick_of(value.as_integer()).is_some()
}

/// The time between two ticks that a number is, if it is there.
fn tick_of(value: Option<i64>) -> Option<u64>
    ensures { result ≡ number_within value 1 MOST_TICK_MS }
{
    let value = value?;
    if value < 0 {
        return None;
    }
    let number = value as u64;
    if 1 <= number && number <= MOST_TICK_MS {
        Some(number)
    } else {
        None
    }
}
