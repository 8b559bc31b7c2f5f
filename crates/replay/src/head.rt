//! What the head of a record says: the comment that its first lines are.

ghost use Rattle.std.specs.Prelude.{◌≡◌, IfOk, map, not};
ghost use Rattle.std.specs.Str.{bytes_eq};
ghost use Rattle.request_text.specs.Words.{words_in};
ghost use Rattle.replay.specs.Head.{clock_in, clock_said, head_clock, is_head_of_others, is_of_others, marks_clock, marks_settings, names_others, names_program, number_if};

use request_text::{is_word, lines, number_u64, words_of};
use std::alloc::{AllocError, Global};

/// Whether a script is the record of a unit that had other settings than those whose bytes have this SHA-256.
pub(crate) fn is_of_others(alloc: Global, digest: &[u8], script: &[u8]) -> Result<bool, AllocError>
    ensures { IfOk result (λ others. others ≡ is_of_others digest.now script.now) }
{
    let lines = lines(alloc, script)?;
    is_head_of_others(alloc, digest, lines.as_slice())
}

/// The same of these lines.
fn is_head_of_others(alloc: Global, digest: &[u8], lines: &[&[u8]]) -> Result<bool, AllocError>
    ensures { IfOk result (λ others. others
        ≡ is_head_of_others digest.now (map (λ x. x.now) lines.now)) }
{
    match lines {
        [program, settings, ..] => {
            let of_record = is_program(alloc, program)?;
            let of_others = is_settings_of_others(alloc, digest, settings)?;
            Ok(of_record && of_others)
        }
        _ => Ok(false),
    }
}

/// Whether a line is the one of a record for the program.
fn is_program(alloc: Global, line: &[u8]) -> Result<bool, AllocError>
    ensures { IfOk result (λ is. is ≡ names_program (words_in line.now)) }
{
    let words = words_of(alloc, line)?;
    Ok(names_program(words.as_slice()))
}

/// `# sfu VERSION`.
fn names_program(words: &[&[u8]]) -> bool
    ensures { result ≡ names_program (map (λ x. x.now) words.now) }
{
    match words {
        [mark, name, _] => is_word(mark, b"#") && is_word(name, b"sfu"),
        _ => false,
    }
}

/// Whether a line is the one of a record for settings, and for others than those of this digest.
fn is_settings_of_others(alloc: Global, digest: &[u8], line: &[u8]) -> Result<bool, AllocError>
    ensures { IfOk result (λ is. is ≡ names_others digest.now (words_in line.now)) }
{
    let words = words_of(alloc, line)?;
    names_others(alloc, digest, words.as_slice())
}

/// `# settings DIGEST`, with another digest.
fn names_others(alloc: Global, digest: &[u8], words: &[&[u8]]) -> Result<bool, AllocError>
    ensures { IfOk result (λ is. is ≡ names_others digest.now (map (λ x. x.now) words.now)) }
{
    match words {
        [mark, name, said] => {
            let own = hex::encode(alloc, digest)?;
            Ok(marks_settings(mark, name) && is_other(said, own.as_bytes()))
        }
        _ => Ok(false),
    }
}

/// `# settings`.
fn marks_settings(mark: &[u8], name: &[u8]) -> bool
    ensures { result ≡ marks_settings mark.now name.now }
{
    is_word(mark, b"#") && is_word(name, b"settings")
}

fn is_other(said: &[u8], own: &[u8]) -> bool
    ensures { result ≡ not (bytes_eq said.now own.now) }
{
    !is_word(said, own)
}

/// What the wall clock said at moment 0, in milliseconds since the beginning of 1970, if that is asked for and the script's head says it.
pub(crate) fn clock_in(
    alloc: Global,
    is_asked: bool,
    script: &[u8],
) -> Result<Option<u64>, AllocError>
    ensures { IfOk result (λ clock. clock ≡ clock_in is_asked script.now) }
{
    if !is_asked {
        return Ok(None);
    }
    let lines = lines(alloc, script)?;
    head_clock(alloc, lines.as_slice())
}

/// The same of these lines.
fn head_clock(alloc: Global, lines: &[&[u8]]) -> Result<Option<u64>, AllocError>
    ensures { IfOk result (λ clock. clock ≡ head_clock (map (λ x. x.now) lines.now)) }
{
    match lines {
        [program, _, clock, ..] => {
            let of_record = is_program(alloc, program)?;
            let said = clock_of(alloc, clock)?;
            Ok(if of_record { said } else { None })
        }
        _ => Ok(None),
    }
}

/// What a line says of the wall clock.
fn clock_of(alloc: Global, line: &[u8]) -> Result<Option<u64>, AllocError>
    ensures { IfOk result (λ clock. clock ≡ clock_said (words_in line.now)) }
{
    let words = words_of(alloc, line)?;
    Ok(clock_said(words.as_slice()))
}

/// `# moment 0 unix_ms MS`.
fn clock_said(words: &[&[u8]]) -> Option<u64>
    ensures { result ≡ clock_said (map (λ x. x.now) words.now) }
{
    match words {
        [mark, word, moment, unit, ms] => number_if(marks_clock(mark, word, moment, unit), ms),
        _ => None,
    }
}

/// `# moment 0 unix_ms`.
fn marks_clock(mark: &[u8], word: &[u8], moment: &[u8], unit: &[u8]) -> bool
    ensures { result ≡ marks_clock mark.now word.now moment.now unit.now }
{
    (is_word(mark, b"#") && is_word(word, b"moment"))
        && (is_word(moment, b"0") && is_word(unit, b"unix_ms"))
}

/// The number that a word spells, if it is to.
fn number_if(is_said: bool, word: &[u8]) -> Option<u64>
    ensures { result ≡ number_if is_said word.now }
{
    if is_said { number_u64(word) } else { None }
}
