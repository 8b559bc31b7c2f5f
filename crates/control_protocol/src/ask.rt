//! The other end: an answer is taken apart.

ghost use Rattle.std.specs.Prelude.{◌≡◌, option_map};
ghost use Rattle.control_protocol.specs.Asking.{answered_by, are_lines, begins_in, ends_in, refused_by, verdict_of};

use request_text::is_word;

/// How an answer ends.
#[derive(Clone, Copy, Debug, PartialEq, Eq)]
pub enum Answered<'a> {
    /// The request was done: the lines before the last one.
    Done(&'a [u8]),
    /// It was refused for this.
    Refused(&'a [u8]),
}

/// What the last line of an answer is, if the request was done.
const DONE: &[u8] = b"ok\n";

/// The answer that the text is, once all of it is there; `None` before.
pub fn read_answer(text: &[u8]) -> Option<Answered<'_>>
    ensures { option_map verdict_of result ≡ answered_by text.now }
{
    let lines = &text[..text.len().saturating_sub(3)];
    if ends_in(text, DONE) && are_lines(lines) {
        Some(Answered::Done(lines))
    } else {
        refused_by(text)
    }
}

/// The refusal that the text is.
fn refused_by(text: &[u8]) -> Option<Answered<'_>>
    ensures { option_map verdict_of result ≡ refused_by text.now }
{
    if text.len() < 9 {
        return None;
    }
    if begins_in(text, b"refused ") && ends_in(text, b"\n") {
        let why = &text[8..];
        Some(Answered::Refused(&why[..why.len().saturating_sub(1)]))
    } else {
        None
    }
}

/// Whether these are whole lines.
fn are_lines(text: &[u8]) -> bool
    ensures { result ≡ are_lines text.now }
{
    text.is_empty() || ends_in(text, b"\n")
}

/// Whether the text ends so.
fn ends_in(text: &[u8], end: &[u8]) -> bool
    ensures { result ≡ ends_in text.now end.now }
{
    text.len() >= end.len() && is_word(&text[text.len() - end.len()..], end)
}

/// Whether the text begins so.
fn begins_in(text: &[u8], start: &[u8]) -> bool
    ensures { result ≡ begins_in text.now start.now }
{
    text.len() >= start.len() && is_word(&text[..start.len()], start)
}
