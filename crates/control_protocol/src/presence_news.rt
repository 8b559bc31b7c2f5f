//! What those who follow are told of who came and went.

ghost use Rattle.std.specs.Prelude.{◌≡◌, ◌++◌, OnOk, false, slice_index_or};
ghost use Rattle.std.specs.String.{string_bytes};
ghost use Rattle.control_protocol.specs.PresenceNews.{change_line, presence_news};

use std::alloc::AllocError;

/// Appends a line for each endpoint that is present after a while and wasn't before, or was and isn't any more, by rising number. One that wasn't
/// known before wasn't present. Refused for want of memory alone; then part of it may stand there.
pub fn push_presence_news(
    text: &mut String,
    before: &[bool],
    after: &[bool],
) -> Result<(), AllocError>
    ensures { OnOk result (string_bytes text.new
        ≡ string_bytes text.old ++ presence_news 0 before.now after.now) }
{
    for (endpoint, is_present) in after.iter().enumerate() {
        push_change(text, endpoint, was_present(before, endpoint), *is_present)?;
    }
    Ok(())
}

/// The line of this endpoint, if it came or went.
fn push_change(
    text: &mut String,
    endpoint: usize,
    was_present: bool,
    is_present: bool,
) -> Result<(), AllocError>
    ensures { OnOk result (string_bytes text.new
        ≡ string_bytes text.old ++ change_line endpoint was_present is_present) }
{
    match (was_present, is_present) {
        (false, true) => write!(text, "joined {endpoint}\n"),
        (true, false) => write!(text, "left {endpoint}\n"),
        (true, true) => Ok(()),
        (false, false) => Ok(()),
    }
}

/// Whether this endpoint was present.
fn was_present(before: &[bool], endpoint: usize) -> bool
    ensures { result ≡ slice_index_or before.now endpoint false }
{
    if endpoint < before.len() {
        before[endpoint]
    } else {
        false
    }
}
