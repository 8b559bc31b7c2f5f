//! The words of the unit's lines, by their places.

ghost use Rattle.std.specs.Prelude.{◌≡◌, ◌<◌, map, option_map};
ghost use Rattle.std.specs.Char.{is_ascii_graphic};
ghost use Rattle.std.specs.List.{list_all};
ghost use Rattle.web.specs.Words.{is_plain, is_plain_byte, is_printed, name_word, plain_word, printed_word, refused_word, without_end, without_start};

use request_text::{is_word, word_at};

/// How often something was refused of an endpoint, by the words of its line.
pub(crate) fn refused_word<'a>(words: &[&'a [u8]]) -> &'a [u8]
    ensures { result.now ≡ refused_word (map (λ x. x.now) words.now) }
{
    if is_word(word_at(words, 6), b"never") {
        word_at(words, 9)
    } else {
        word_at(words, 11)
    }
}

/// What an endpoint is called, by the words of its line; no byte if the line doesn't end so.
pub(crate) fn name_word<'a>(words: &[&'a [u8]]) -> &'a [u8]
    ensures { result.now ≡ name_word (map (λ x. x.now) words.now) }
{
    let (label, name) = (words.len().saturating_sub(2), words.len().saturating_sub(1));
    if is_word(word_at(words, label), b"name") {
        word_at(words, name)
    } else {
        b""
    }
}

/// The word, if each of its bytes is printed, else nothing.
pub(crate) fn printed_word(word: &[u8]) -> Option<&str>
    ensures { option_map (λ text. text.now) result ≡ printed_word word.now }
{
    if !is_printed(word) {
        return None;
    }
    match str::from_utf8(word) {
        Ok(text) => Some(text),
        Err(_) => None,
    }
}

/// Whether there is a byte, and each is a character of ASCII that is printed and no space.
fn is_printed(word: &[u8]) -> bool
    ensures { result ≡ is_printed word.now }
{
    !word.is_empty() && are_graphic(word)
}

fn are_graphic(word: &[u8]) -> bool
    ensures { result ≡ list_all is_ascii_graphic word.now }
{
    word.iter().all(|byte| byte.is_ascii_graphic())
}

/// The word, if it is plain, else a question mark. What is plain has small letters, digits, dots, slashes, colons and brackets
/// alone: it stands in HTML and in JSON as it is.
pub(crate) fn plain_word(word: &[u8]) -> &str
    ensures { result.now ≡ plain_word word.now }
{
    if !is_plain(word) {
        return "?";
    }
    match str::from_utf8(word) {
        Ok(text) => text,
        Err(_) => "?",
    }
}

/// Whether each byte is plain.
fn is_plain(word: &[u8]) -> bool
    ensures { result ≡ is_plain word.now }
{
    word.iter().all(|byte| is_plain_byte(*byte))
}

fn is_plain_byte(byte: u8) -> bool
    ensures { result ≡ is_plain_byte byte }
{
    byte <= b'z' && (byte >= b'a' || (byte >= b'.' && byte <= b':') || byte == b'[' || byte == b']')
}

/// What stands after this start, if it begins so.
pub(crate) fn without_start<'a>(path: &'a [u8], start: &[u8]) -> Option<&'a [u8]>
    ensures { option_map (λ x. x.now) result ≡ without_start start.now path.now }
{
    path.strip_prefix(start)
}

/// What stands before this end, if it ends so.
pub(crate) fn without_end<'a>(path: &'a [u8], end: &[u8]) -> Option<&'a [u8]>
    ensures { option_map (λ x. x.now) result ≡ without_end end.now path.now }
{
    path.strip_suffix(end)
}
