//! The lines of a script of `sfu replay`.

ghost use Rattle.std.specs.Prelude.{◌≡◌, ◌^◌, IfOk, map, option_and_then, option_map};
ghost use Rattle.request_text.specs.Words.{number_under, words_in};
ghost use Rattle.replay.specs.Script.{command_or_not, datagram_in, hear_words, no_words, script_line_of, select_words, show_words, switch_in, tick_words, words_command, work_words};

use events::{Bytes, Event};
use hex::FromHexError;
use request_text::{is_word, number_u16, number_u64, words_of};
use std::alloc::{AllocError, Global};

/// What a line of a script asks for.
#[derive(Drop)]
pub enum Command {
    /// `hear MOMENT ENDPOINT HEX`, `tick MOMENT`, `select MOMENT LEG on`, `select MOMENT LEG off`, `ingress` or `work W`: one
    /// event of the machine.
    Do(Event),
    /// `settle`: the ingress until nothing waits for it, then each worker until it has nothing to do.
    Settle,
    /// `follow`: each worker until it has nothing to do; then, as long as anything waits for the ingress, one step of it, and each
    /// worker again. A unit with one worker does so after each event.
    Follow,
    /// `show P`: what is announced to this publisher.
    Show(u16),
}

/// What a line is.
#[derive(Drop)]
pub enum ScriptLine {
    /// It is empty, or begins with `#`.
    Skipped,
    Command(Command),
    /// It is none of the commands, or names an endpoint or a worker that isn't there.
    Unreadable,
}

/// How many endpoints and workers there are.
#[derive(Clone, Copy, PartialEq, Eq)]
pub struct Numbers {
    pub endpoints: u16,
    pub workers: u16,
}

/// What the line is. Its words are parted by single spaces.
pub fn read_line(alloc: Global, numbers: Numbers, line: &[u8]) -> Result<ScriptLine, AllocError>
    ensures { IfOk result (λ r. r ≡ script_line_of numbers line.now) }
{
    if line.is_empty() || line[0] == b'#' {
        return Ok(ScriptLine::Skipped);
    }
    read_text(alloc, numbers, line)
}

/// What a line is that isn't skipped.
fn read_text(alloc: Global, numbers: Numbers, line: &[u8]) -> Result<ScriptLine, AllocError>
    ensures { IfOk result
        (λ r. r ≡ command_or_not (words_command numbers (words_in line.now))) }
{
    let words = words_of(alloc, line)?;
    match read_words(alloc, numbers, words.as_slice())? {
        Some(command) => Ok(ScriptLine::Command(command)),
        None => Ok(ScriptLine::Unreadable),
    }
}

/// The command of these words.
fn read_words(
    alloc: Global,
    numbers: Numbers,
    words: &[&[u8]],
) -> Result<Option<Command>, AllocError>
    ensures { IfOk result (λ c. c ≡ words_command numbers (map (λ x. x.now) words.now)) }
{
    let Some((first, others)) = words.split_first() else {
        return Ok(None);
    };
    let first = *first;
    if is_word(first, b"hear") {
        heard(alloc, numbers, others)
    } else if is_word(first, b"tick") {
        Ok(ticked(others))
    } else if is_word(first, b"select") {
        Ok(selected(others))
    } else if is_word(first, b"ingress") {
        Ok(alone(others, Command::Do(Event::Ingress)))
    } else if is_word(first, b"work") {
        Ok(worked(numbers, others))
    } else if is_word(first, b"settle") {
        Ok(alone(others, Command::Settle))
    } else if is_word(first, b"follow") {
        Ok(alone(others, Command::Follow))
    } else if is_word(first, b"show") {
        Ok(shown(numbers, others))
    } else {
        Ok(None)
    }
}

/// `MOMENT ENDPOINT HEX`.
fn heard(alloc: Global, numbers: Numbers, words: &[&[u8]]) -> Result<Option<Command>, AllocError>
    ensures { IfOk result (λ c. c ≡ hear_words numbers (map (λ x. x.now) words.now)) }
{
    match words {
        [moment, endpoint, hex] => match datagram(alloc, hex)? {
            Some(bytes) => Ok(heard_by(numbers, moment, endpoint, bytes)),
            None => Ok(None),
        },
        _ => Ok(None),
    }
}

/// A datagram that is heard at this moment, of this endpoint.
fn heard_by(numbers: Numbers, moment: &[u8], endpoint: &[u8], bytes: Bytes) -> Option<Command>
    ensures { result
        ≡ option_and_then
        (λ m. option_map (λ e. Command.Do (Event.Hear m e bytes))
        (number_under numbers.endpoints endpoint.now))
        (number_under (2 ^ 64) moment.now) }
{
    Some(Command::Do(Event::Hear(
        number_u64(moment)?,
        number_below(endpoint, numbers.endpoints)?,
        bytes,
    )))
}

/// `MOMENT`.
fn ticked(words: &[&[u8]]) -> Option<Command>
    ensures { result ≡ tick_words (map (λ x. x.now) words.now) }
{
    match words {
        [moment] => Some(Command::Do(Event::Tick(number_u64(moment)?))),
        _ => None,
    }
}

/// `MOMENT LEG on` or `MOMENT LEG off`. A leg may be one that isn't there: the machine refuses it then.
fn selected(words: &[&[u8]]) -> Option<Command>
    ensures { result ≡ select_words (map (λ x. x.now) words.now) }
{
    match words {
        [moment, leg, on] => Some(Command::Do(Event::Select(
            number_u64(moment)?,
            number_u16(leg)?,
            switch(on)?,
        ))),
        _ => None,
    }
}

/// `W`.
fn worked(numbers: Numbers, words: &[&[u8]]) -> Option<Command>
    ensures { result ≡ work_words numbers (map (λ x. x.now) words.now) }
{
    match words {
        [worker] => Some(Command::Do(Event::Work(number_below(worker, numbers.workers)?))),
        _ => None,
    }
}

/// `P`.
fn shown(numbers: Numbers, words: &[&[u8]]) -> Option<Command>
    ensures { result ≡ show_words numbers (map (λ x. x.now) words.now) }
{
    match words {
        [publisher] => Some(Command::Show(number_below(publisher, numbers.endpoints)?)),
        _ => None,
    }
}

/// The command, if no word stands after it.
fn alone(words: &[&[u8]], command: Command) -> Option<Command>
    ensures { result ≡ no_words command (map (λ x. x.now) words.now) }
{
    if words.is_empty() {
        Some(command)
    } else {
        None
    }
}

/// `on` or `off`.
fn switch(word: &[u8]) -> Option<bool>
    ensures { result ≡ switch_in word.now }
{
    match word {
        b"on" => Some(true),
        b"off" => Some(false),
        _ => None,
    }
}

/// The bytes that hexadecimal digits spell: at least one.
fn datagram(alloc: Global, word: &[u8]) -> Result<Option<Bytes>, AllocError>
    ensures { IfOk result (λ bytes. bytes ≡ datagram_in word.now) }
{
    if word.is_empty() {
        return Ok(None);
    }
    match hex::decode(alloc, word) {
        Ok(bytes) => Ok(Some(Bytes::new(bytes))),
        Err(FromHexError::OutOfMemory) => Err(AllocError),
        Err(_) => Ok(None),
    }
}

fn number_below(word: &[u8], limit: u16) -> Option<u16>
    ensures { result ≡ number_under limit word.now }
{
    let number = number_u16(word)?;
    if number < limit { Some(number) } else { None }
}
