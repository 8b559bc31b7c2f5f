//! The values of a table, by their keys and kinds.

ghost use Rattle.std.specs.Prelude.{◌≡◌, IfOk, option_map};
ghost use Rattle.settings_toml.specs.SettingsFile.{bool_in, integer_in, text_bytes, text_in, text_of};
ghost use Rattle.toml.specs.Data.{get_member};
ghost use Rattle.toml.specs.View.{table_view, view};

use std::alloc::{AllocError, Global};
use toml::{Table, Value};

/// The value at a key of the table.
pub(crate) fn value_at<'a>(table: &'a Table, key: &str) -> Option<&'a Value>
    ensures { option_map (λ v. view v.now) result ≡ get_member key.now (table_view table.now) }
{
    table.get(key)
}

/// The integer at a key of the table, if one is there.
pub(crate) fn integer_at(table: &Table, key: &str) -> Option<i64>
    ensures { result ≡ integer_in (get_member key.now (table_view table.now)) }
{
    integer_in(value_at(table, key))
}

/// The truth value at a key of the table, if one is there.
pub(crate) fn bool_at(table: &Table, key: &str) -> Option<bool>
    ensures { result ≡ bool_in (get_member key.now (table_view table.now)) }
{
    bool_in(value_at(table, key))
}

/// The integer, if a value is one.
pub(crate) fn integer_in(value: Option<&Value>) -> Option<i64>
    ensures { result ≡ integer_in (option_map (λ v. view v.now) value.entry) }
{
    match value {
        Some(value) => value.as_integer(),
        None => None,
    }
}

/// The truth value, if a value is one.
pub(crate) fn bool_in(value: Option<&Value>) -> Option<bool>
    ensures { result ≡ bool_in (option_map (λ v. view v.now) value.entry) }
{
    match value {
        Some(value) => value.as_bool(),
        None => None,
    }
}

/// A copy of the text, if a value is one.
pub(crate) fn text_in(alloc: Global, value: Option<&Value>) -> Result<Option<String>, AllocError>
    ensures { IfOk result
        (λ text. text_bytes text ≡ text_in (option_map (λ v. view v.now) value.entry)) }
{
    match value {
        Some(value) => copied(alloc, value.as_str()),
        None => Ok(None),
    }
}

/// The text that an item is; nothing if it is none.
pub(crate) fn text_of(item: &Value) -> &str
    ensures { result.now ≡ text_of (view item.now) }
{
    match item.as_str() {
        Some(text) => text,
        None => "",
    }
}

/// A copy of the text, if there is one.
pub(crate) fn copied(alloc: Global, text: Option<&str>) -> Result<Option<String>, AllocError>
    ensures { IfOk result (λ copy. text_bytes copy ≡ option_map (λ t. t.now) text.entry) }
{
    match text {
        Some(text) => Ok(Some(String::from_str(alloc, text)?)),
        None => Ok(None),
    }
}
