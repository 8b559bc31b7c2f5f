//! The language of a desk's tests: a script has a call a line, and after a colon what it gives.
//!
//! | Line | What is done |
//! |---|---|
//! | `arrive OWNER STAY`, `depart OWNER STAY`, `ask OWNER STAY WORD` | an owner's call; the word is hexadecimal |
//! | `pli MOMENT`, `tick MOMENT`, `expire MOMENT` | a call at a moment |
//! | `ticks COUNT` | so many ticks at the moment 0, of which nothing is said |
//! | `look` | none: it gives the base, how many calls are listed and how many there were, and what is live |
//!
//! A call that is done gives `done` or, with a PLI upstream, `sent`, and the bits of the rows that are announced; then the announced
//! set, whose bounds are lifted, and what is fresh, each if there is any.

use crate::calls::{ask, at, by_desk, of};
use rate_cert::Request;
use rate_desk::*;
use std::alloc::{AllocError, Global};
use std::fmt::Write;
use std::process::Abort;
use std::test::Fail;
use tmmbr_tuple::Ssrc;

/// The number that hexadecimal digits spell.
fn word_of(digits: &str) -> u32 {
    let mut word: u32 = 0;
    for byte in digits.as_bytes() {
        let digit = match *byte {
            b'0'..=b'9' => *byte - b'0',
            b'a'..=b'f' => *byte - b'a' + 10,
            _ => 0,
        };
        word = word.wrapping_mul(16).wrapping_add(u32::from(digit));
    }
    word
}

/// The call of these words, if it is one.
fn call_of(name: &str, words: &str) -> Option<Call> {
    let signal = match name {
        "pli" => Signal::Pli,
        "tick" => Signal::Tick,
        "expire" => Signal::Expire,
        _ => return change_of(name, words),
    };
    Some(at(words.parse().ok()?, signal))
}

/// `arrive OWNER STAY`, `depart OWNER STAY` or `ask OWNER STAY WORD`.
fn change_of(name: &str, words: &str) -> Option<Call> {
    let (owner, words) = words.split_once(' ')?;
    let (stay, word) = words.split_once(' ').unwrap_or((words, ""));
    let change = match name {
        "arrive" => Change::Arrive,
        "depart" => Change::Depart,
        "ask" => ask(word_of(word)),
        _ => return None,
    };
    Some(of(owner.parse().ok()?, stay.parse().ok()?, change))
}

/// Writes these requests with their owners.
fn write_requests(text: &mut String, name: &str, requests: &[Request]) -> Result<(), AllocError> {
    if !requests.is_empty() {
        write!(text, " {name}")?;
    }
    for request in requests {
        let word = request.tuple.to_word();
        write!(text, " {} {word:08x}", request.owner.0)?;
    }
    Ok(())
}

/// Writes these owners.
fn write_owners(text: &mut String, owners: &[Ssrc]) -> Result<(), AllocError> {
    if !owners.is_empty() {
        text.push_str(" lifted")?;
    }
    for owner in owners {
        write!(text, " {}", owner.0)?;
    }
    Ok(())
}

/// Writes that a call was done, and the bits of the first 64 live requests; that others are announced, too, if some are.
fn write_done(text: &mut String, pli: bool, kept: [u64; 4]) -> Result<(), AllocError> {
    let [first, second, third, fourth] = kept;
    let done = if pli { "sent" } else { "done" };
    write!(text, " {done} {first:b}")?;
    if (second | third | fourth) != 0 {
        text.push_str(" and more")?;
    }
    Ok(())
}

/// Writes an answer.
fn write_answer(text: &mut String, answer: &Answer) -> Result<(), AllocError> {
    match *answer {
        Answer::Done { pli, kept } => write_done(text, pli, kept),
        Answer::NotPresent(stay) => write!(text, " not present {stay}"),
        Answer::AlreadyPresent(stay) => write!(text, " already present {stay}"),
        Answer::Full => text.push_str(" full"),
    }
}

/// Writes what a desk replied to a call.
fn write_reply(text: &mut String, reply: &Reply) -> Result<(), AllocError> {
    write_answer(text, &reply.answer)?;
    write_requests(text, "set", reply.effect.set.as_slice())?;
    write_owners(text, reply.effect.lifted.as_slice())?;
    write_requests(text, "fresh", reply.effect.fresh.as_slice())
}

/// Writes what the calls that are listed no more come to.
fn write_base(text: &mut String, base: &Base) -> Result<(), AllocError> {
    write!(text, " calls {} words {}", base.calls, base.words)?;
    write!(text, " greatest {} wanted {}", base.greatest, base.wanted)?;
    if let Some(moment) = base.last_up {
        write!(text, " last up {moment}")?;
    }
    for present in base.present.as_slice() {
        write_present(text, present)?;
    }
    Ok(())
}

/// Writes who is present, with which stay, and what it asks for, with its stamp.
fn write_present(text: &mut String, present: &Present) -> Result<(), AllocError> {
    write!(text, " present {} {}", present.owner.0, present.stay)?;
    if let Some(asked) = present.asked {
        write!(text, " asks {:08x} {}", asked.tuple.to_word(), asked.stamp)?;
    }
    Ok(())
}

/// Writes what a desk shows.
fn write_desk(text: &mut String, desk: &Desk) -> Result<(), AllocError> {
    write_base(text, desk.base())?;
    write!(text, " listed {} of {}", desk.history().len(), desk.calls())?;
    write_requests(text, "live", desk.live())
}

/// Makes so many ticks.
fn ticks(desk: &mut Desk, words: &str) -> Result<(), Fail> {
    let count: u32 = words.parse()?;
    for _ in 0..count {
        let _reply = desk.tick(0)?;
    }
    Ok(())
}

/// Makes a call, and writes what it gives.
fn call(desk: &mut Desk, name: &str, words: &str, text: &mut String) -> Result<(), Fail> {
    let call = call_of(name, words).ok_or("a call")?;
    let reply = by_desk(desk, call).ok_or("a reply")?;
    write_reply(text, &reply)?;
    Ok(())
}

/// Does what a line says, and writes it and what it gives.
fn play_line(desk: &mut Desk, line: &str, text: &mut String) -> Result<(), Fail> {
    let (step, _) = line.split_once(':').ok_or("a line")?;
    let (name, words) = step.split_once(' ').unwrap_or((step, ""));
    write!(text, "{step}:")?;
    match name {
        "look" => write_desk(text, desk)?,
        "ticks" => ticks(desk, words)?,
        _ => call(desk, name, words, text)?,
    }
    text.push('\n')?;
    Ok(())
}

/// Does what these lines say, and writes each, and what it gives.
fn play_lines(desk: &mut Desk, script: &str, text: &mut String) -> Result<(), Fail> {
    for line in script.lines() {
        play_line(desk, line, text)?;
    }
    Ok(())
}

/// The script again, with what its lines gave of a new desk with this gap and age of requests.
fn played(alloc: Global, gap: u64, request_ms: u64, script: &str) -> Result<String, Fail> {
    let mut text = String::new(alloc);
    let mut desk = Desk::new(alloc, gap, request_ms)?;
    play_lines(&mut desk, script, &mut text)?;
    Ok(text)
}

/// Each line of the script gives of a new desk what it says.
pub(crate) fn assert_plays(
    rt: &impl Abort,
    alloc: Global,
    request_ms: u64,
    script: &str,
) -> Result<(), Fail> {
    let text = played(alloc, 500, request_ms, script)?;
    assert_eq!(rt; text.as_str(), script);
    Ok(())
}
