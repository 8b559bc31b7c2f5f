//! The clock of what an endpoint publishes, by the first of its encodings (RFC 8866, section 6.6).

ghost use Rattle.std.specs.Prelude.{◌≡◌, ◌==◌};
ghost use Rattle.std.specs.List.{after_first, before_first};
ghost use Rattle.operations.specs.ClockRates.{clock_rate, first_clock};

use request_text::number_u32;

/// The clock of the first of these encodings, in hertz; `None` if there is none, or if it says no number.
pub(crate) fn first_clock(rtpmap: &[String]) -> Option<u32>
    ensures { result ≡ first_clock rtpmap.now }
{
    match rtpmap.first() {
        Some(first) => clock_rate(first.as_str()),
        None => None,
    }
}

/// The clock of an encoding: what stands behind the first slash, and before the next one.
fn clock_rate(encoding: &str) -> Option<u32>
    ensures { result ≡ clock_rate encoding.now }
{
    number_u32(before_slash(behind_slash(encoding)).as_bytes())
}

/// What stands behind the first slash; nothing if there is none.
fn behind_slash(text: &str) -> &str
    ensures { result.now ≡ after_first (λ b. b == 47) text.now }
{
    match text.split_once('/') {
        Some((_, behind)) => behind,
        None => "",
    }
}

/// What stands before the first slash; all if there is none.
fn before_slash(text: &str) -> &str
    ensures { result.now ≡ before_first (λ b. b == 47) text.now }
{
    match text.split_once('/') {
        Some((front, _)) => front,
        None => text,
    }
}
