//! The lines of each event that a unit takes in: the event, and what follows from it.

ghost use Rattle.std.specs.Prelude.{◌≡◌, ◌++◌, IfOk, OnOk};
ghost use Rattle.std.specs.String.{string_bytes};
ghost use Rattle.events.specs.declared.event.Event.TheVariants.{Hear, Tick, Select};
ghost use Rattle.recording.specs.Lines.{after_came, begun_line, event_lines, heard_head, made_mark, stranger_line, switch_word};

use crate::strangers::UnknownSender;
use std::alloc::{AllocError, Global};
use std::fmt::Write;

/// The lines of a datagram that an endpoint's number sent, heard at this moment in milliseconds; none of one without bytes, which does
/// nothing. Refused for want of memory alone.
pub(crate) fn heard_lines(
    alloc: Global,
    moment: u64,
    endpoint: u16,
    bytes: &[u8],
) -> Result<String, AllocError>
    ensures { IfOk result (λ text. string_bytes text
        ≡ event_lines (Hear moment endpoint bytes.now)) }
{
    if bytes.is_empty() {
        return Ok(String::new(alloc));
    }
    let hex = hex::encode(alloc, bytes)?;
    format!(in alloc; "hear {moment} {endpoint} {hex}\nfollow\n")
}

/// Writes the beginning of a datagram's line, before its digits, in place of what the text was. Refused for want of memory alone.
pub(crate) fn write_heard_head(
    text: &mut String,
    moment: u64,
    endpoint: u16,
) -> Result<(), AllocError>
    ensures { OnOk result (string_bytes text.new ≡ heard_head moment endpoint) }
{
    text.clear();
    write!(text, "hear {moment} {endpoint} ")
}

/// The lines of a datagram that the unit made in an endpoint's name: a comment that says so, and at which moment in milliseconds one of its own
/// came last, if one did; then those of a datagram from it. Refused for want of memory alone.
pub(crate) fn made_lines(
    alloc: Global,
    moment: u64,
    endpoint: u16,
    bytes: &[u8],
    heard_ms: Option<u64>,
) -> Result<String, AllocError>
    ensures { IfOk result (λ text. string_bytes text
        ≡ made_mark heard_ms ++ event_lines (Hear moment endpoint bytes.now)) }
{
    let lines = heard_lines(alloc, moment, endpoint, bytes)?;
    let mut text = made_mark(alloc, heard_ms)?;
    text.push_str(lines.as_str())?;
    Ok(text)
}

/// The comment before a datagram that the unit made in the name of an endpoint of which one came last at this moment in milliseconds, if one
/// did.
fn made_mark(alloc: Global, heard_ms: Option<u64>) -> Result<String, AllocError>
    ensures { IfOk result (λ text. string_bytes text ≡ made_mark heard_ms) }
{
    match heard_ms {
        Some(heard_ms) => format!(in alloc; "# made in its name, heard at {heard_ms}\n"),
        None => String::from_str(alloc, "# made in its name\n"),
    }
}

/// The lines of a datagram that a policy made of what an endpoint sent: its own, after a comment with what came. Refused for want of memory
/// alone.
pub(crate) fn changed_lines(
    alloc: Global,
    moment: u64,
    endpoint: u16,
    bytes: &[u8],
    came: &[u8],
) -> Result<String, AllocError>
    ensures { IfOk result (λ text. string_bytes text
        ≡ after_came came.now (event_lines (Hear moment endpoint bytes.now))) }
{
    let heard = heard_lines(alloc, moment, endpoint, bytes)?;
    let hex = hex::encode(alloc, came)?;
    format!(in alloc; "# came {hex}\n{heard}")
}

/// The comment for an unknown sender, who comes at this moment in milliseconds. Refused for want of memory alone.
pub(crate) fn stranger_line(
    alloc: Global,
    moment: u64,
    sender: UnknownSender,
) -> Result<String, AllocError>
    ensures { IfOk result (λ text. string_bytes text ≡ stranger_line moment sender) }
{
    let UnknownSender { address, source } = sender;
    format!(in alloc; "# stranger {address} ssrc {source} at {moment}\n")
}

/// The comment after the head of a record that begins at this moment in milliseconds, in the middle of a run. Refused for want of memory
/// alone.
pub fn begun_line(alloc: Global, moment: u64) -> Result<String, AllocError>
    ensures { IfOk result (λ text. string_bytes text ≡ begun_line moment) }
{
    format!(in alloc; "# begins in the middle of a run, at moment {moment}\n")
}

/// The lines of a tick at this moment in milliseconds. Refused for want of memory alone.
pub(crate) fn ticked_lines(alloc: Global, moment: u64) -> Result<String, AllocError>
    ensures { IfOk result (λ text. string_bytes text ≡ event_lines (Tick moment)) }
{
    format!(in alloc; "tick {moment}\nfollow\n")
}

/// The lines of a leg that is selected or not from this moment in milliseconds on. Refused for want of memory alone.
pub(crate) fn selected_lines(
    alloc: Global,
    moment: u64,
    leg: u16,
    on: bool,
) -> Result<String, AllocError>
    ensures { IfOk result (λ text. string_bytes text ≡ event_lines (Select moment leg on)) }
{
    let switch = switch_word(on);
    format!(in alloc; "select {moment} {leg} {switch}\nfollow\n")
}

/// `on` or `off`.
fn switch_word(on: bool) -> &'static str
    ensures { result.now ≡ switch_word on }
{
    if on { "on" } else { "off" }
}
