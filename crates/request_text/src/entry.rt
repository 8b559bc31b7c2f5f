//! The lines of a certificate, as `sfu bound` prints them.

ghost use Rattle.std.specs.Prelude.{◌≡◌, IfOk, map, option_map};
ghost use Rattle.tmmbr_tuple.specs.RatePair.{pair_of};
ghost use Rattle.request_text.specs.CheckFile.{ask_spelled, asked_of, claim_in, implied_words, kept_words, line_of, live_words, or_unreadable, pair_in, said_by, said_of, word_in, words_line};

use crate::words::{is_word, number_u16, number_u32, number_under, words_of};
use rate_cert::Request;
use std::alloc::{AllocError, Global};
use tmmbr_tuple::{Pair, Ssrc, Tuple};

/// How many requests a file may have.
pub const MAX_LINES: usize = 65_535;

/// What a line says of a request.
#[derive(Clone, Copy, Debug, PartialEq, Eq)]
pub enum Entry {
    /// `live OWNER WORD`: it is live, and nothing else is said of it.
    Live(Request),
    /// `kept OWNER WORD pair N M D`: it is kept, and forbids this pair.
    Kept(Request, Pair),
    /// `implied OWNER WORD by A B times P Q R`: two kept requests imply it.
    Implied(Request, Claim),
}

/// How two owners' kept requests imply another: `p` times the one and `q` times the other are at least as
/// strict as `r` times it.
#[derive(Clone, Copy, Debug, Default, PartialEq, Eq)]
pub struct Claim {
    pub a: Ssrc,
    pub b: Ssrc,
    pub p: u16,
    pub q: u16,
    pub r: u16,
}

/// What a line is.
#[derive(Clone, Copy, Debug, PartialEq, Eq)]
pub enum Reading {
    /// It is empty, or begins with another word.
    Skipped,
    Entry(Entry),
    /// It begins as an entry, and is none.
    Unreadable,
}

/// What the line is. Its words are parted by single spaces.
pub fn read_line(alloc: Global, line: &[u8]) -> Result<Reading, AllocError>
    ensures { IfOk result (λ r. said_by r ≡ line_of line.now) }
{
    let words = words_of(alloc, line)?;
    Ok(read_words(words.as_slice()))
}

/// What the line of these words is.
fn read_words(words: &[&[u8]]) -> Reading
    ensures { said_by result ≡ words_line (map (λ x. x.now) words.now) }
{
    let Some((first, others)) = words.split_first() else {
        return Reading::Skipped;
    };
    let first = *first;
    if is_word(first, b"live") {
        entry_or_not(live_entry(others))
    } else if is_word(first, b"kept") {
        entry_or_not(kept_entry(others))
    } else if is_word(first, b"implied") {
        entry_or_not(implied_entry(others))
    } else {
        Reading::Skipped
    }
}

/// A line that begins as an entry.
fn entry_or_not(entry: Option<Entry>) -> Reading
    ensures { said_by result ≡ or_unreadable (option_map said_of entry) }
{
    match entry {
        Some(entry) => Reading::Entry(entry),
        None => Reading::Unreadable,
    }
}

/// `OWNER WORD`.
fn live_entry(words: &[&[u8]]) -> Option<Entry>
    ensures { option_map said_of result ≡ live_words (map (λ x. x.now) words.now) }
{
    match words {
        [owner, word] => Some(Entry::Live(request(owner, word)?)),
        _ => None,
    }
}

/// `OWNER WORD pair N M D`.
fn kept_entry(words: &[&[u8]]) -> Option<Entry>
    ensures { option_map said_of result ≡ kept_words (map (λ x. x.now) words.now) }
{
    match words {
        [owner, word, name, n, m, d] => {
            if is_word(name, b"pair") {
                Some(Entry::Kept(request(owner, word)?, read_pair(n, m, d)?))
            } else {
                None
            }
        }
        _ => None,
    }
}

/// `OWNER WORD by A B times P Q R`.
fn implied_entry(words: &[&[u8]]) -> Option<Entry>
    ensures { option_map said_of result ≡ implied_words (map (λ x. x.now) words.now) }
{
    if words.len() != 9 {
        return None;
    }
    if !is_word(words[2], b"by") || !is_word(words[5], b"times") {
        return None;
    }
    Some(Entry::Implied(
        request(words[0], words[1])?,
        read_claim(words[3], words[4], words[6], words[7], words[8])?,
    ))
}

/// A request by its owner, in decimal, and its word, in eight hexadecimal digits.
fn request(owner: &[u8], word: &[u8]) -> Option<Request>
    ensures { option_map asked_of result ≡ ask_spelled owner.now word.now }
{
    let owner = Ssrc(number_u32(owner)?);
    let tuple = Tuple::from_word(word_value(word)?);
    Some(Request { owner, tuple })
}

/// The word that eight hexadecimal digits spell.
fn word_value(digits: &[u8]) -> Option<u32>
    ensures { result ≡ word_in digits.now }
{
    let mut bytes = [0; 4];
    match hex::decode_to_slice(digits, &mut bytes) {
        Ok(()) => Some(u32::from_be_bytes(bytes)),
        Err(_) => None,
    }
}

/// A pair by its packets, bits and seconds.
fn read_pair(n: &[u8], m: &[u8], d: &[u8]) -> Option<Pair>
    ensures { option_map pair_of result ≡ pair_in n.now m.now d.now }
{
    let packets = number_under(n, 1 << 100)?;
    let bits = number_under(m, 1 << 100)?;
    let seconds = number_under(d, 1 << 14)?;
    Pair::new(packets, bits, seconds)
}

/// `A B` and `P Q R`.
fn read_claim(a: &[u8], b: &[u8], p: &[u8], q: &[u8], r: &[u8]) -> Option<Claim>
    ensures { result ≡ claim_in a.now b.now p.now q.now r.now }
{
    Some(Claim {
        a: Ssrc(number_u32(a)?),
        b: Ssrc(number_u32(b)?),
        p: number_u16(p)?,
        q: number_u16(q)?,
        r: number_u16(r)?,
    })
}
