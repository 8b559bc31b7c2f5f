//! The words of a line, and the numbers that they spell.

ghost use Rattle.std.specs.Prelude.{◌≡◌, ◌<◌, ◌^◌, [], IfOk, get_or, map, nat_lt};
ghost use Rattle.std.specs.Char.{digit_value};
ghost use Rattle.std.specs.List.{list_all};
ghost use Rattle.std.specs.Str.{bytes_eq};
ghost use Rattle.request_text.specs.Words.{number_under, words_in};

use std::alloc::{AllocError, Global};

/// What stands between the spaces of a line.
pub fn words_of(alloc: Global, line: &[u8]) -> Result<Vec<&[u8]>, AllocError>
    ensures { IfOk result (λ words. map (λ x. x.now) words.items ≡ words_in line.now) }
{
    line.split(|b| *b == b' ').collect(alloc)
}

/// The word at a place from 0 on; an empty one if there is none.
pub fn word_at<'a>(words: &[&'a [u8]], place: usize) -> &'a [u8]
    ensures { result.now ≡ get_or (map (λ x. x.now) words.now) place [] }
{
    match words.get(place) {
        Some(word) => word,
        None => b"",
    }
}

/// Whether a word is this name.
pub fn is_word(word: &[u8], name: &[u8]) -> bool
    ensures { result ≡ bytes_eq word.now name.now }
{
    word == name
}

/// The number of 16 bits that decimal digits spell; no sign is read.
pub fn number_u16(word: &[u8]) -> Option<u16>
    ensures { result ≡ number_under (2 ^ 16) word.now }
{
    u16::try_from(number(word)?).ok()
}

/// The same of 32 bits.
pub fn number_u32(word: &[u8]) -> Option<u32>
    ensures { result ≡ number_under (2 ^ 32) word.now }
{
    u32::try_from(number(word)?).ok()
}

/// The same of 64 bits.
pub fn number_u64(word: &[u8]) -> Option<u64>
    ensures { result ≡ number_under (2 ^ 64) word.now }
{
    u64::try_from(number(word)?).ok()
}

/// The same below a limit.
pub fn number_under(word: &[u8], limit: u128) -> Option<u128>
    ensures { result ≡ number_under limit word.now }
{
    let number = number(word)?;
    if number < limit { Some(number) } else { None }
}

fn number(word: &[u8]) -> Option<u128>
    ensures { result ≡ number_under (2 ^ 128) word.now }
{
    if !are_digits(word) {
        return None;
    }
    match str::from_utf8(word) {
        Ok(digits) => digits.parse().ok(),
        Err(_) => None,
    }
}

/// Whether each byte is a decimal digit.
fn are_digits(word: &[u8]) -> bool
    ensures { result ≡ list_all (λ d. nat_lt (digit_value d) 10) word.now }
{
    word.iter().all(|byte| byte.is_ascii_digit())
}
