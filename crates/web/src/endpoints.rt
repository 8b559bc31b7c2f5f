//! Which endpoints there are.

ghost use Rattle.std.specs.Prelude.{◌≡◌, ◌++◌, IfOk, OnOk, flat_map, map};
ghost use Rattle.web.specs.Endpoints.{line_numbers, numbers_in, words_number};

use request_text::{is_word, lines, number_u16, word_at, words_of};
use std::alloc::{AllocError, Global};

/// The numbers of the endpoints that an answer to `present` tells of, in its order. Refused for want of memory alone.
pub fn numbers_in(alloc: Global, text: &[u8]) -> Result<Vec<u16>, AllocError>
    ensures { IfOk result (λ numbers. numbers.items ≡ numbers_in text.now) }
{
    let lines = lines(alloc, text)?;
    numbers_of(alloc, lines.as_slice())
}

fn numbers_of(alloc: Global, lines: &[&[u8]]) -> Result<Vec<u16>, AllocError>
    ensures { IfOk result
        (λ numbers. numbers.items ≡ flat_map (λ x. line_numbers x.now) lines.now) }
{
    let mut numbers = Vec::new(alloc);
    for line in lines {
        push_number(alloc, &mut numbers, line)?;
    }
    Ok(numbers)
}

fn push_number(alloc: Global, numbers: &mut Vec<u16>, line: &[u8]) -> Result<(), AllocError>
    ensures { OnOk result (numbers.new.items ≡ numbers.old.items ++ line_numbers line.now) }
{
    let words = words_of(alloc, line)?;
    match number_of(words.as_slice()) {
        Some(number) => Ok(numbers.push(number)?),
        None => Ok(()),
    }
}

/// The number of the endpoint that these words tell of.
fn number_of(words: &[&[u8]]) -> Option<u16>
    ensures { result ≡ words_number (map (λ x. x.now) words.now) }
{
    if is_word(word_at(words, 1), b"ssrc") {
        number_u16(word_at(words, 0))
    } else {
        None
    }
}
