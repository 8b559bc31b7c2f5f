//! The SSRCs of endpoints whose clients' own ones are learned.

ghost use Rattle.std.specs.Prelude.{◌≡◌, option_map};
ghost use Rattle.toml.specs.View.{view};
ghost use Rattle.settings_toml.specs.SettingsFile.{learns_ssrc, says_learn, seat_name, source_in};

use crate::bound_keys::number_under;
use crate::values::integer_in;
use toml::Value;

/// How many SSRCs there are (RFC 3550, section 3).
const SSRCS: u64 = 4_294_967_296;

/// Whether an endpoint's table says that the SSRC of its client is learned.
pub fn learns_ssrc(endpoint: &Value) -> bool
    ensures { result ≡ learns_ssrc (view endpoint.now) }
{
    says_learn(endpoint.get("ssrc"))
}

/// Whether a value is the text that says so.
fn says_learn(value: Option<&Value>) -> bool
    ensures { result ≡ says_learn (option_map (λ v. view v.now) value.entry) }
{
    match value {
        Some(value) => match value.as_str() {
            Some(text) => text == "learn",
            None => false,
        },
        None => false,
    }
}

/// The source of the endpoint with this number, of a unit with this one: as its table says, or the name of its seat if its client's is learned.
pub(crate) fn source_in(unit: Option<i64>, number: usize, endpoint: &Value) -> Option<i64>
    ensures { result ≡ source_in unit number (view endpoint.now) }
{
    if learns_ssrc(endpoint) {
        seat_name(unit, number)
    } else {
        integer_in(endpoint.get("ssrc"))
    }
}

/// The name of the seat with this number, counted from the unit's source on; none if that is none.
fn seat_name(unit: Option<i64>, number: usize) -> Option<i64>
    ensures { result ≡ seat_name unit number }
{
    let unit = number_under(unit, SSRCS)?;
    let name = (unit + 1 + number as u64 % SSRCS) % SSRCS;
    Some(name as i64)
}
