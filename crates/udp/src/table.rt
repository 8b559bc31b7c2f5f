//! The rows of the system's table.

ghost use Rattle.std.specs.Prelude.{◌≡◌, ◌-◌, ◌^◌, IfOk, map, flat_map, min, sum_by};
ghost use Rattle.udp.specs.Rows.{drops_of_row, drops_of_words, dropped_in, full_word};

use request_text::{is_word, lines, number_u64, word_at, words_of};
use std::alloc::{AllocError, Global};

/// The place of the socket's own address among the words of its row.
const ADDRESS: usize = 1;
/// The place of how many datagrams it dropped.
const DROPS: usize = 12;

/// How many datagrams the system dropped, by its table of UDP sockets, at those whose rows name this address (`address_word`), since they were
/// made; at most 2^64 - 1. What is no row counts nothing. Refused for want of memory alone.
pub(crate) fn dropped_at(alloc: Global, table: &[u8], address: &[u8]) -> Result<u64, AllocError>
    ensures { IfOk result (λ n. n ≡ dropped_in address.now table.now) }
{
    let lines = lines(alloc, table)?;
    sum_of_rows(alloc, lines.as_slice(), address)
}

/// The sum of what rows say.
fn sum_of_rows(alloc: Global, lines: &[&[u8]], address: &[u8]) -> Result<u64, AllocError>
    ensures { IfOk result (λ n. n
        ≡ min (sum_by (drops_of_row address.now) (map (λ x. x.now) lines.now)) (2 ^ 64 - 1)) }
{
    let mut total: u64 = 0;
    for line in lines {
        total = total.saturating_add(drops_of_row(alloc, line, address)?);
    }
    Ok(total)
}

/// What a row says, if it is of that address.
#[tactic(auto, unfolding(crate::specs::Rows::drops_of_row))]
fn drops_of_row(alloc: Global, line: &[u8], address: &[u8]) -> Result<u64, AllocError>
    ensures { IfOk result (λ n. n ≡ drops_of_row address.now line.now) }
{
    let words = words_of(alloc, line)?;
    let words = full_words(alloc, words.as_slice())?;
    Ok(drops_of_words(words.as_slice(), address))
}

/// The words that have a byte.
fn full_words<'a>(alloc: Global, words: &[&'a [u8]]) -> Result<Vec<&'a [u8]>, AllocError>
    ensures { IfOk result
        (λ full. map (λ x. x.now) full.items ≡ flat_map full_word (map (λ x. x.now) words.now)) }
{
    let mut full = Vec::new(alloc);
    for word in words {
        if !word.is_empty() {
            full.push(*word)?;
        }
    }
    Ok(full)
}

/// What the words of a row say.
fn drops_of_words(words: &[&[u8]], address: &[u8]) -> u64
    ensures { result ≡ drops_of_words address.now (map (λ x. x.now) words.now) }
{
    if is_word(word_at(words, ADDRESS), address) {
        number_u64(word_at(words, DROPS)).unwrap_or(0)
    } else {
        0
    }
}
