//! Which request is answered by what.

ghost use Rattle.std.specs.Prelude.{◌≡◌, IfOk};
ghost use Rattle.web.specs.Answers.{IsAnswer, IsPictureAnswer, IsSetAnswer, IsShown, answer_seen, asked_by, page_answer, picture_number, picture_place, place_of, plain_answer, silent_answer};

use crate::page::PAGE_TEXT;
use crate::said::Said;
use crate::sets::{media_of, picture_in, set_for};
use crate::state::state_text;
use crate::words::{without_end, without_start};
use request_text::{is_word, number_u16};
use std::alloc::{AllocError, Global};

/// What is said instead of a unit that doesn't answer.
const UNANSWERED: &[u8] = b"the unit does not answer\n";

/// What is shown of a unit.
#[derive(Clone, Copy)]
pub enum View {
    /// `/`: the page for people, which asks for the state itself.
    Page,
    /// `/metrics`: the counts in the text format of Prometheus.
    Metrics,
    /// `/state.json`: what the unit is like, for programs.
    State,
    /// `/why`: why subscribers see nothing, in lines for people.
    Why,
    /// `/publishers/N.svg`: the picture of the set that is announced to publisher N.
    Picture(u16),
}

/// What a client asks for.
#[derive(Clone, Copy)]
pub enum Target {
    Shown(View),
    /// What isn't there.
    Absent,
    /// By a method other than `GET` and `HEAD`.
    Unallowed,
    /// Of a host that this isn't.
    Misdirected,
}

/// How a request is answered (RFC 9110, section 15).
#[derive(Clone, Copy)]
pub enum Verdict {
    /// 200.
    Fine,
    /// 404.
    Absent,
    /// 405.
    Unallowed,
    /// 421: the client means another host.
    Misdirected,
    /// 502: what the unit says of a set is none.
    Unreadable,
    /// 503: the unit says nothing.
    Silent,
}

/// What an answer is written in.
#[derive(Clone, Copy)]
pub enum Kind {
    Html,
    /// The text format of Prometheus, version 0.0.4.
    Metrics,
    Json,
    Svg,
    Plain,
}

/// An answer without its header fields.
#[derive(Drop)]
pub struct Answer {
    pub verdict: Verdict,
    pub kind: Kind,
    pub body: Vec<u8>,
}

/// What a client asks for by a method and a path. Another method than `GET` and `HEAD` is unallowed whatever the path.
pub fn asked_for(method: &[u8], path: &[u8]) -> Target
    ensures { result ≡ asked_by method.now path.now }
{
    if is_word(method, b"GET") || is_word(method, b"HEAD") {
        place_of(path)
    } else {
        Target::Unallowed
    }
}

/// What is at a path.
fn place_of(path: &[u8]) -> Target
    ensures { result ≡ place_of path.now }
{
    if is_word(path, b"/") {
        Target::Shown(View::Page)
    } else if is_word(path, b"/metrics") {
        Target::Shown(View::Metrics)
    } else if is_word(path, b"/state.json") {
        Target::Shown(View::State)
    } else if is_word(path, b"/why") {
        Target::Shown(View::Why)
    } else {
        picture_of(path)
    }
}

/// The picture that is at a path, if one is.
fn picture_of(path: &[u8]) -> Target
    ensures { result ≡ picture_place (picture_number path.now) }
{
    match picture_number(path) {
        Some(number) => Target::Shown(View::Picture(number)),
        None => Target::Absent,
    }
}

/// N of `/publishers/N.svg`.
fn picture_number(path: &[u8]) -> Option<u16>
    ensures { result ≡ picture_number path.now }
{
    let rest = without_start(path, b"/publishers/")?;
    let number = without_end(rest, b".svg")?;
    number_u16(number)
}

/// The answer to what is asked, by what the unit said last; `None` if it says nothing. Refused for want of memory alone.
pub fn answer_to(alloc: Global, asked: Target, said: &Option<Said>) -> Result<Answer, AllocError>
    ensures { IfOk result (λ a. IsAnswer asked said.now (answer_seen a)) }
{
    match asked {
        Target::Absent => plain(alloc, Verdict::Absent, b"not found\n"),
        Target::Unallowed => plain(alloc, Verdict::Unallowed, b"method not allowed\n"),
        Target::Misdirected => plain(alloc, Verdict::Misdirected, b"not this host\n"),
        Target::Shown(view) => match said {
            Some(said) => shown(alloc, view, said),
            None => silent(alloc, view),
        },
    }
}

/// What is shown if the unit says nothing.
fn silent(alloc: Global, view: View) -> Result<Answer, AllocError>
    ensures { IfOk result (λ a. answer_seen a ≡ silent_answer view) }
{
    match view {
        View::Page => page(alloc),
        View::Metrics => plain(alloc, Verdict::Silent, UNANSWERED),
        View::State => plain(alloc, Verdict::Silent, UNANSWERED),
        View::Why => plain(alloc, Verdict::Silent, UNANSWERED),
        View::Picture(_) => plain(alloc, Verdict::Silent, UNANSWERED),
    }
}

/// What is shown of a unit that said this.
fn shown(alloc: Global, view: View, said: &Said) -> Result<Answer, AllocError>
    ensures { IfOk result (λ a. IsShown view said.now (answer_seen a)) }
{
    match view {
        View::Page => page(alloc),
        View::Metrics => Ok(Answer {
            verdict: Verdict::Fine,
            kind: Kind::Metrics,
            body: copy_of(alloc, said.metrics.as_slice())?,
        }),
        View::State => Ok(Answer {
            verdict: Verdict::Fine,
            kind: Kind::Json,
            body: state_text(alloc, said)?,
        }),
        View::Why => plain(alloc, Verdict::Fine, said.why.as_slice()),
        View::Picture(publisher) => picture(alloc, publisher, said),
    }
}

/// The picture of the set of a publisher of whom the unit told.
fn picture(alloc: Global, publisher: u16, said: &Said) -> Result<Answer, AllocError>
    ensures { IfOk result (λ a. IsPictureAnswer publisher said.now (answer_seen a)) }
{
    let Some(media) = media_of(alloc, said.present.as_slice(), publisher)? else {
        return plain(alloc, Verdict::Absent, b"not found\n");
    };
    let Some(text) = set_for(said.sets.as_slice(), publisher) else {
        return plain(alloc, Verdict::Silent, UNANSWERED);
    };
    set_answer(alloc, media, text)
}

/// The picture of the set that these lines tell of, if they tell of one.
fn set_answer(alloc: Global, media: u32, text: &[u8]) -> Result<Answer, AllocError>
    ensures { IfOk result (λ a. IsSetAnswer media text.now (answer_seen a)) }
{
    match picture_in(alloc, media, text)? {
        Some(body) => Ok(Answer {
            verdict: Verdict::Fine,
            kind: Kind::Svg,
            body,
        }),
        None => plain(alloc, Verdict::Unreadable, b"no set\n"),
    }
}

/// The page for people, which is the same whatever the unit said.
fn page(alloc: Global) -> Result<Answer, AllocError>
    ensures { IfOk result (λ a. answer_seen a ≡ page_answer) }
{
    Ok(Answer {
        verdict: Verdict::Fine,
        kind: Kind::Html,
        body: copy_of(alloc, PAGE_TEXT.as_bytes())?,
    })
}

/// A line for people.
fn plain(alloc: Global, verdict: Verdict, text: &[u8]) -> Result<Answer, AllocError>
    ensures { IfOk result (λ a. answer_seen a ≡ plain_answer verdict text.now) }
{
    Ok(Answer {
        verdict,
        kind: Kind::Plain,
        body: copy_of(alloc, text)?,
    })
}

fn copy_of(alloc: Global, text: &[u8]) -> Result<Vec<u8>, AllocError>
    ensures { IfOk result (λ copy. copy.items ≡ text.now) }
{
    let mut copy = Vec::new(alloc);
    copy.extend_from_slice(text)?;
    Ok(copy)
}
