//! The settings of a room whose legs begin with other numbers than the text says.

ghost use Rattle.std.specs.Prelude.{◌≡◌, IfOk, slice_get};
ghost use Rattle.toml.specs.View.{table_view};
ghost use Rattle.settings_toml.specs.Begun.{BeginsWith, TableBegins, begun_leg, begun_legs};

use crate::settings_file::{SettingsProblem, extras_of, parts_of};
use settings::{LegParts, Settings};
use std::alloc::{AllocError, Global};
use toml::Table;

/// The settings of the room that a text spells, but that its legs begin with these numbers, by the legs' own numbers; a leg without one begins
/// as the text says. A text that spells no room is refused as want of memory, or as no document: `read_settings` says what is wrong with it.
pub fn read_begun(alloc: Global, text: &[u8], numbers: &[u16]) -> Result<Settings, SettingsProblem>
    ensures { IfOk result (BeginsWith text.now numbers.now) }
{
    match toml::table_from_slice(alloc, text) {
        Ok(table) => begun_settings(alloc, &table, numbers),
        Err(error) if error.is_memory() => Err(SettingsProblem::NoMemory),
        Err(_) => Err(SettingsProblem::Toml),
    }
}

/// The settings that a table spells, but for these numbers.
fn begun_settings(
    alloc: Global,
    table: &Table,
    numbers: &[u16],
) -> Result<Settings, SettingsProblem>
    ensures { IfOk result (TableBegins (table_view table.now) numbers.now) }
{
    let mut parts = parts_of(alloc, table)?;
    let extras = extras_of(alloc, table)?;
    parts.legs = begun_legs(alloc, parts.legs.as_slice(), numbers)?;
    match Settings::new_with(alloc, &parts, &extras) {
        Ok(settings) => Ok(settings),
        Err(_) => Err(SettingsProblem::NoMemory),
    }
}

/// The legs, each with the number at its place.
fn begun_legs(
    alloc: Global,
    legs: &[LegParts],
    numbers: &[u16],
) -> Result<Vec<LegParts>, AllocError>
    ensures { IfOk result (λ begun. begun.items ≡ begun_legs numbers.now 0 legs.now) }
{
    let mut begun = Vec::with_capacity(alloc, legs.len())?;
    for k in 0..legs.len() {
        begun.push(begun_leg(number_at(numbers, k), legs[k]))?;
    }
    Ok(begun)
}

/// The number at a place, if there is one.
fn number_at(numbers: &[u16], place: usize) -> Option<u16>
    ensures { result ≡ slice_get numbers.now place }
{
    numbers.get(place).copied()
}

/// The leg, if it begins with this number.
fn begun_leg(number: Option<u16>, leg: LegParts) -> LegParts
    ensures { result ≡ begun_leg number leg }
{
    match number {
        Some(number) => LegParts {
            first_seq: Some(i64::from(number)),
            ..leg
        },
        None => leg,
    }
}
