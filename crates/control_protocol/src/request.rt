//! What a peer asks for.

ghost use Rattle.std.specs.Prelude.{◌≡◌, IfOk, map};
ghost use Rattle.control_protocol.specs.Requests.{alone_words, record_asked, record_named, request_in, request_words, select_asked, show_asked, switched, why_asked};

use crate::records::RecordKind;
use request_text::{is_word, number_u16, words_of};
use std::alloc::{AllocError, Global};

/// What a peer asks for, in one line.
#[derive(Clone, Copy, Debug, PartialEq, Eq)]
pub enum Request {
    /// `select LEG on` or `select LEG off`: the leg is sent on from now on, or not.
    Select { leg: u16, on: bool },
    /// `present`: which endpoints are present.
    Present,
    /// `legs`: who is sent on to whom, and what went out on each leg.
    Legs,
    /// `counts`: the totals of the unit.
    Counts,
    /// `metrics`: the counts of endpoints and of legs, in the text format of Prometheus.
    Metrics,
    /// `reports`: what receivers report of each leg, and what the unit reports of each publisher.
    Reports,
    /// `refusals`: what was refused of what came, of whom, why and how often.
    Refusals,
    /// `strangers`: who came last of those who are nobody.
    Strangers,
    /// `record`: what the unit takes in from now on is written to who asks.
    Record,
    /// `record off file`, `record off peer`: this record ends; `record off`: one does.
    EndRecord(Option<RecordKind>),
    /// `events`: who asks is told what happens, as it happens.
    Follow,
    /// `stay`: who asks isn't let go, however long it asks nothing.
    Stay,
    /// `why LEG`: why the leg's subscriber sees nothing, or what it is sent; `why`: the same of each leg.
    Why(Option<u16>),
    /// `show P`: what is announced to this publisher, with its certificate.
    Show(u16),
    /// `stop`: the unit ends.
    Stop,
}

/// What the line asks for, without its end; `None` if it asks for nothing. Its words are parted by single spaces. Refused for want
/// of memory alone.
pub fn read_request(alloc: Global, line: &[u8]) -> Result<Option<Request>, AllocError>
    ensures { IfOk result (λ r. r ≡ request_in line.now) }
{
    let words = words_of(alloc, line)?;
    Ok(request_of(words.as_slice()))
}

/// What these words ask for.
fn request_of(words: &[&[u8]]) -> Option<Request>
    ensures { result ≡ request_words (map (λ x. x.now) words.now) }
{
    let (first, others) = words.split_first()?;
    let first = *first;
    if is_word(first, b"select") {
        selected(others)
    } else if is_word(first, b"present") {
        alone(others, Request::Present)
    } else if is_word(first, b"legs") {
        alone(others, Request::Legs)
    } else if is_word(first, b"counts") {
        alone(others, Request::Counts)
    } else if is_word(first, b"metrics") {
        alone(others, Request::Metrics)
    } else if is_word(first, b"reports") {
        alone(others, Request::Reports)
    } else if is_word(first, b"refusals") {
        alone(others, Request::Refusals)
    } else if is_word(first, b"strangers") {
        alone(others, Request::Strangers)
    } else if is_word(first, b"record") {
        recorded(others)
    } else if is_word(first, b"events") {
        alone(others, Request::Follow)
    } else if is_word(first, b"stay") {
        alone(others, Request::Stay)
    } else if is_word(first, b"why") {
        asked_why(others)
    } else if is_word(first, b"show") {
        shown(others)
    } else if is_word(first, b"stop") {
        alone(others, Request::Stop)
    } else {
        None
    }
}

/// `LEG on` or `LEG off`.
fn selected(words: &[&[u8]]) -> Option<Request>
    ensures { result ≡ select_asked (map (λ x. x.now) words.now) }
{
    match words {
        [leg, on] => Some(Request::Select {
            leg: number_u16(leg)?,
            on: switch(on)?,
        }),
        _ => None,
    }
}

/// Nothing, `off`, or `off` and which record.
fn recorded(words: &[&[u8]]) -> Option<Request>
    ensures { result ≡ record_asked (map (λ x. x.now) words.now) }
{
    match words {
        [] => Some(Request::Record),
        [off] if is_word(off, b"off") => Some(Request::EndRecord(None)),
        [off, which] if is_word(off, b"off") => {
            Some(Request::EndRecord(Some(record_named(which)?)))
        }
        _ => None,
    }
}

/// `file` or `peer`.
fn record_named(word: &[u8]) -> Option<RecordKind>
    ensures { result ≡ record_named word.now }
{
    match word {
        b"file" => Some(RecordKind::File),
        b"peer" => Some(RecordKind::Peer),
        _ => None,
    }
}

/// Nothing, or `LEG`.
fn asked_why(words: &[&[u8]]) -> Option<Request>
    ensures { result ≡ why_asked (map (λ x. x.now) words.now) }
{
    match words {
        [] => Some(Request::Why(None)),
        [leg] => Some(Request::Why(Some(number_u16(leg)?))),
        _ => None,
    }
}

/// `P`.
fn shown(words: &[&[u8]]) -> Option<Request>
    ensures { result ≡ show_asked (map (λ x. x.now) words.now) }
{
    match words {
        [publisher] => Some(Request::Show(number_u16(publisher)?)),
        _ => None,
    }
}

/// The request, if no word comes after it.
fn alone(words: &[&[u8]], request: Request) -> Option<Request>
    ensures { result ≡ alone_words request (map (λ x. x.now) words.now) }
{
    if words.is_empty() {
        Some(request)
    } else {
        None
    }
}

/// `on` or `off`.
fn switch(word: &[u8]) -> Option<bool>
    ensures { result ≡ switched word.now }
{
    match word {
        b"on" => Some(true),
        b"off" => Some(false),
        _ => None,
    }
}
