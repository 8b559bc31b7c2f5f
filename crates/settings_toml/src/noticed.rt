//! What a settings file has at the place of a fault, by its document: a key that there isn't, a leg's end that is no endpoint, and formats that are
//! texts.

ghost use Rattle.std.specs.Prelude.{◌≡◌, IfOk, map, option_and_then, option_map, slice_get};
ghost use Rattle.toml.specs.Data.{get};
ghost use Rattle.toml.specs.View.{table_view, view};
ghost use Rattle.settings_toml.specs.Noticed.{absent_among, absent_at, absent_of, are_formats_at, are_formats_of, holds_texts, end_in, is_end, is_known, nth_table, table_at, unknown_at, unknown_of};
ghost use Rattle.settings_toml.specs.SettingsFaults.{misfit_in, spot_of};
ghost use Rattle.settings_toml.specs.SettingsFile.{text_bytes};

use crate::bound_keys::number_under;
use crate::settings_keys::{Place, has_texts, items_at};
use crate::values::{copied, integer_in};
use crate::wanted::is_known;
use std::alloc::{AllocError, Global};
use toml::{Table, Value};

/// The first key, by its name, of this place's table that there isn't; none if the text is no document.
pub(crate) fn unknown_key(
    alloc: Global,
    text: &str,
    place: Place<'_>,
) -> Result<Option<String>, AllocError>
    ensures { IfOk result (λ key. text_bytes key ≡ unknown_of text.now (spot_of place.entry)) }
{
    match toml::table_from_str(alloc, text) {
        Ok(table) => copied(alloc, unknown_at(&table, place)),
        Err(error) => {
            if error.is_memory() {
                Err(AllocError)
            } else {
                Ok(None)
            }
        }
    }
}

/// The same in a document's table.
fn unknown_at<'a>(table: &'a Table, place: Place<'_>) -> Option<&'a str>
    ensures { option_map (λ k. k.now) result
        ≡ unknown_at (spot_of place.entry) (table_view table.now) }
{
    match table_at(table, place) {
        Some(table) => unknown_in(table, place),
        None => None,
    }
}

/// The first key, by its name, of a table that there isn't where this place is.
fn unknown_in<'a>(table: &'a Table, place: Place<'_>) -> Option<&'a str>
    ensures { option_map (λ k. k.now) result
        ≡ misfit_in (λ key value. is_known (spot_of place.entry) key) (table_view table.now) }
{
    for (key, _) in table.iter() {
        if !is_known(place, key.as_str()) {
            return Some(key.as_str());
        }
    }
    None
}

/// The table that has the keys of this place.
fn table_at<'a>(table: &'a Table, place: Place<'_>) -> Option<&'a Table>
    ensures { option_map (λ t. table_view t.now) result
        ≡ table_at (spot_of place.entry) (table_view table.now) }
{
    match place {
        Place::Top(_) => Some(table),
        Place::Endpoint(number, _) => nth_table(items_at(table, "endpoint"), number),
        Place::Leg(number, _) => nth_table(items_at(table, "leg"), number),
        Place::Sources => None,
    }
}

/// The table of this number, if there are so many.
fn nth_table(items: &[Value], number: usize) -> Option<&Table>
    ensures { option_map (λ t. table_view t.now) result ≡ nth_table (map view items.now) number }
{
    match items.get(number) {
        Some(item) => item.as_table(),
        None => None,
    }
}

/// How many endpoints there are, if this place is the end of a leg and has the number of none; none if the text is no document.
pub(crate) fn absent_end(
    alloc: Global,
    text: &str,
    place: Place<'_>,
) -> Result<Option<usize>, AllocError>
    ensures { IfOk result (λ count. count ≡ absent_of text.now (spot_of place.entry)) }
{
    match toml::table_from_str(alloc, text) {
        Ok(table) => Ok(absent_at(&table, place)),
        Err(error) => {
            if error.is_memory() {
                Err(AllocError)
            } else {
                Ok(None)
            }
        }
    }
}

/// The same in a document's table.
fn absent_at(table: &Table, place: Place<'_>) -> Option<usize>
    ensures { result ≡ absent_at (spot_of place.entry) (table_view table.now) }
{
    match place {
        Place::Leg(number, key) => {
            if is_end(key) {
                let number = end_in(items_at(table, "leg"), number, key);
                absent_among(items_at(table, "endpoint").len(), number)
            } else {
                None
            }
        }
        Place::Top(_) => None,
        Place::Endpoint(_, _) => None,
        Place::Sources => None,
    }
}

/// Whether this is the key of one of a leg's two ends.
fn is_end(key: &str) -> bool
    ensures { result ≡ is_end key.now }
{
    matches!(key, "publisher" | "subscriber")
}

/// The number at a key of the leg of this number.
fn end_in(legs: &[Value], number: usize, key: &str) -> Option<i64>
    ensures { result ≡ end_in (map view legs.now) number key.now }
{
    match legs.get(number) {
        Some(leg) => integer_in(leg.get(key)),
        None => None,
    }
}

/// How many endpoints there are, if this number is there and is that of none.
fn absent_among(count: usize, number: Option<i64>) -> Option<usize>
    ensures { result ≡ absent_among count number }
{
    let number = number?;
    if number_under(Some(number), count as u64).is_some() {
        None
    } else {
        Some(count)
    }
}

/// Whether this is the place of formats, which are texts; not if the text is no document.
pub(crate) fn are_formats(alloc: Global, text: &str, place: Place<'_>) -> Result<bool, AllocError>
    ensures { IfOk result (λ are. are ≡ are_formats_of text.now (spot_of place.entry)) }
{
    match toml::table_from_str(alloc, text) {
        Ok(table) => Ok(are_formats_at(&table, place)),
        Err(error) => {
            if error.is_memory() {
                Err(AllocError)
            } else {
                Ok(false)
            }
        }
    }
}

/// The same in a document's table.
fn are_formats_at(table: &Table, place: Place<'_>) -> bool
    ensures { result ≡ are_formats_at (spot_of place.entry) (table_view table.now) }
{
    match place {
        Place::Endpoint(number, key) => {
            key == "fmtp" && has_texts_at(items_at(table, "endpoint"), number, key)
        }
        Place::Top(_) => false,
        Place::Leg(_, _) => false,
        Place::Sources => false,
    }
}

/// Whether texts stand at a key of the item of this number.
fn has_texts_at(items: &[Value], number: usize, key: &str) -> bool
    ensures { result
        ≡ holds_texts (option_and_then (get key.now) (slice_get (map view items.now) number)) }
{
    match items.get(number) {
        Some(item) => match item.get(key) {
            Some(value) => has_texts(value),
            None => false,
        },
        None => false,
    }
}
