//! The keys of a settings file: which there are, of which kind those that may be absent are, and in which order faults
//! are given.

ghost use Rattle.std.specs.Prelude.{◌≡◌, Some, map, option_map};
ghost use Rattle.std.specs.List.{list_all};
ghost use Rattle.toml.specs.Data.{as_table, get_member};
ghost use Rattle.toml.specs.View.{table_view, view};
ghost use Rattle.settings_toml.specs.SettingsFaults.{endpoint, has_tables, has_texts, is_required, is_table, is_text, leg, list_misfit, misfit_in, misfit_of, spot_of, table_misfit, takes_endpoint, takes_leg, takes_top};
ghost use Rattle.settings_toml.specs.SettingsFile.{items_in};

use crate::bound_keys::{ENTRIES, FLOODS, GAPS_MS, SHARES, is_repeat, is_stall, is_under};
use crate::name_key::holds_name;
use crate::tick_key::is_tick;
use toml::{Table, Value};

/// Where a fault of settings stands. Faults are given in the order of these places: the keys of the table by their names,
/// the endpoints and the legs by their numbers with their keys by name, and then the sources.
#[derive(Clone, Copy, PartialEq, Eq, PartialOrd, Ord)]
pub enum Place<'a> {
    Top(&'a str),
    Endpoint(usize, &'a str),
    Leg(usize, &'a str),
    Sources,
}

/// The first place whose key is unknown, or may be absent and is of the wrong kind.
pub fn first_misfit(table: &Table) -> Option<Place<'_>>
    ensures { option_map spot_of result ≡ misfit_of (table_view table.now) }
{
    match top_misfit(table) {
        Some(key) => Some(Place::Top(key)),
        None => match endpoint_misfit(items_at(table, "endpoint")) {
            Some(place) => Some(place),
            None => leg_misfit(items_at(table, "leg")),
        },
    }
}

/// The first such key of the settings themselves.
fn top_misfit(table: &Table) -> Option<&str>
    ensures { option_map (λ k. k.now) result ≡ misfit_in takes_top (table_view table.now) }
{
    for (key, value) in table.iter() {
        if !takes_top(key.as_str(), value) {
            return Some(key.as_str());
        }
    }
    None
}

/// Whether settings may have this key, and may have this value there. A required one may have any: it is missed if it
/// isn't of its kind.
fn takes_top(key: &str, value: &Value) -> bool
    ensures { result ≡ takes_top key.now (view value.now) }
{
    match key {
        "endpoint" => has_tables(value),
        "leg" => has_tables(value),
        "listen" => value.is_str(),
        "listen_rtcp" => value.is_str(),
        "early_pictures" | "leg_goodbyes" => value.is_bool(),
        "new_starts" | "strict_ssrc" => value.is_bool(),
        "report_slots" | "request_ms" => value.is_integer(),
        "entry_limit" => is_under(value, ENTRIES),
        "flood_limit" => is_under(value, FLOODS),
        "repeat_ms" => is_repeat(value),
        "request_gap_ms" => is_under(value, GAPS_MS),
        "resend_gap_ms" => is_under(value, GAPS_MS),
        "resend_share" => is_under(value, SHARES),
        "stall_ms" => is_stall(value),
        "tick_ms" => is_tick(value),
        _ => is_required(key),
    }
}

/// Whether settings have to have this key.
fn is_required(key: &str) -> bool
    ensures { result ≡ is_required key.now }
{
    matches!(
        key,
        "cname"
            | "history"
            | "pli_gap_ms"
            | "report_ms"
            | "ring"
            | "timeout_ms"
            | "unit_ssrc"
            | "workers"
    )
}

/// Whether the value is a list of tables.
fn has_tables(value: &Value) -> bool
    ensures { result ≡ has_tables (view value.now) }
{
    match value.as_array() {
        Some(items) => are_tables(items.as_slice()),
        None => false,
    }
}

/// Whether each of these is a table.
fn are_tables(items: &[Value]) -> bool
    ensures { result ≡ list_all is_table (map view items.now) }
{
    for item in items {
        if !item.is_table() {
            return false;
        }
    }
    true
}

/// Whether the value is a list of texts.
pub(crate) fn has_texts(value: &Value) -> bool
    ensures { result ≡ has_texts (view value.now) }
{
    match value.as_array() {
        Some(items) => are_texts(items.as_slice()),
        None => false,
    }
}

/// Whether each of these is a text.
fn are_texts(items: &[Value]) -> bool
    ensures { result ≡ list_all is_text (map view items.now) }
{
    for item in items {
        if !item.is_str() {
            return false;
        }
    }
    true
}

/// The first such key of the endpoints' tables.
fn endpoint_misfit(endpoints: &[Value]) -> Option<Place<'_>>
    ensures { option_map spot_of result
        ≡ list_misfit takes_endpoint endpoint 0 (map view endpoints.now) }
{
    for (number, item) in endpoints.iter().enumerate() {
        if let Some(key) = endpoint_key(item) {
            return Some(Place::Endpoint(number, key));
        }
    }
    None
}

/// The first such key of the legs' tables.
fn leg_misfit(legs: &[Value]) -> Option<Place<'_>>
    ensures { option_map spot_of result ≡ list_misfit takes_leg leg 0 (map view legs.now) }
{
    for (number, item) in legs.iter().enumerate() {
        if let Some(key) = leg_key(item) {
            return Some(Place::Leg(number, key));
        }
    }
    None
}

/// The first such key of an endpoint's table.
fn endpoint_key(item: &Value) -> Option<&str>
    ensures { option_map (λ k. k.now) result
        ≡ table_misfit takes_endpoint (as_table (view item.now)) }
{
    let table = item.as_table()?;
    for (key, value) in table.iter() {
        if !takes_endpoint(key.as_str(), value) {
            return Some(key.as_str());
        }
    }
    None
}

/// The first such key of a leg's table.
fn leg_key(item: &Value) -> Option<&str>
    ensures { option_map (λ k. k.now) result ≡ table_misfit takes_leg (as_table (view item.now)) }
{
    let table = item.as_table()?;
    for (key, value) in table.iter() {
        if !takes_leg(key.as_str(), value) {
            return Some(key.as_str());
        }
    }
    None
}

/// Whether an endpoint may have this key, and may have this value there.
fn takes_endpoint(key: &str, value: &Value) -> bool
    ensures { result ≡ takes_endpoint key.now (view value.now) }
{
    match key {
        "address" | "cname" | "learn_from" => value.is_str(),
        "fmtp" | "rtpmap" => has_texts(value),
        "name" => holds_name(value),
        "receive_only" => value.is_bool(),
        "rtcp_address" => value.is_str(),
        "ssrc" => true,
        _ => false,
    }
}

/// Whether a leg may have this key, and may have this value there.
fn takes_leg(key: &str, value: &Value) -> bool
    ensures { result ≡ takes_leg key.now (view value.now) }
{
    match key {
        "first_seq" => value.is_integer(),
        "on" => value.is_bool(),
        "out_ssrc" | "publisher" | "subscriber" => true,
        _ => false,
    }
}

/// The items of the list at a key; none if there is no list.
pub fn items_at<'a>(table: &'a Table, key: &str) -> &'a [Value]
    ensures { map view result.now ≡ items_in (get_member key.now (table_view table.now)) }
{
    match table.get(key) {
        Some(value) => items_in(value),
        None => &[],
    }
}

/// The items of a list; none if the value is none.
pub(crate) fn items_in(value: &Value) -> &[Value]
    ensures { map view result.now ≡ items_in (Some (view value.now)) }
{
    match value.as_array() {
        Some(items) => items.as_slice(),
        None => &[],
    }
}
