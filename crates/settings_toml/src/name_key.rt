//! The key of what people call an endpoint.

ghost use Rattle.std.specs.Prelude.{◌≡◌};
ghost use Rattle.std.specs.List.{list_all};
ghost use Rattle.settings_toml.specs.SettingsFaults.{is_name_byte, is_name_text, holds_name};
ghost use Rattle.toml.specs.View.{view};

use crate::values::text_of;
use toml::Value;

/// The greatest number of characters of a name.
pub const MOST_NAME: usize = 32;

/// Whether the value is a name.
pub(crate) fn holds_name(value: &Value) -> bool
    ensures { result ≡ holds_name (view value.now) }
{
    is_name_text(text_of(value))
}

/// Whether a text is a name: one to so many letters, digits, dots, hyphens and underscores.
fn is_name_text(text: &str) -> bool
    ensures { result ≡ is_name_text text.now }
{
    !text.is_empty() && text.len() <= MOST_NAME && are_name_bytes(text.as_bytes())
}

/// Whether each of these may stand in a name.
fn are_name_bytes(bytes: &[u8]) -> bool
    ensures { result ≡ list_all is_name_byte bytes.now }
{
    bytes.iter().all(|byte| is_name_byte(*byte))
}

fn is_name_byte(byte: u8) -> bool
    ensures { result ≡ is_name_byte byte }
{
    byte.is_ascii_alphanumeric() || byte == b'.' || byte == b'-' || byte == b'_'
}
