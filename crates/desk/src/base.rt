//! What the calls of a desk come to.

ghost use Rattle.std.specs.Prelude.{◌≡◌, ◌≤◌};
ghost use Rattle.desk.specs.Trace.{is_due};
ghost use Rattle.desk.specs.Standing.{count_by, IsDepart};

use crate::call::{Answer, Call, Change, Entry};
use crate::presence::{PRESENT_LIMIT, Present, refusal, take_in};
use arrayvec::ArrayVec;
use rate_cert::MAX_REQUESTS;

/// How many calls a desk records in its life, owners that are present counted in.
pub const CALL_LIMIT: u64 = 1 << 31;

/// What calls come to: who is present and asks for what, and whether a PLI is wanted and when the last one
/// was sent upstream. It stands for the calls of a desk that its history lists no more.
#[derive(Drop)]
pub struct Base {
    /// By rising owner, each owner once.
    pub present: ArrayVec<Present, MAX_REQUESTS>,
    /// Somebody wants a picture, and no PLI was sent upstream since.
    pub wanted: bool,
    /// The greatest moment, in milliseconds; 0 before any.
    pub greatest: u64,
    /// The greatest moment when the last PLI was sent upstream; `None` before the first.
    pub last_up: Option<u64>,
    /// How many calls there were.
    pub calls: u64,
    /// The sum of the words that they requested, accepted or refused.
    pub words: u128,
}

impl Base {
    ghost use Rattle.std.specs.Prelude.{◌≡◌, ℕ, ◌<◌, ◌≤◌, length};
    ghost use Rattle.desk.specs.Call.{HasStay, moment_after};
    ghost use Rattle.desk.specs.Presence.{refusal_of};
    ghost use Rattle.desk.specs.History.{Follows};
    ghost use Rattle.desk.specs.Trace.{IsBase, empty_base, base_with, goes_up, present_with};

    /// No calls: nobody is present, and no picture is wanted.
    pub(crate) fn new() -> Base
        ensures value { result ≡ empty_base }
        ensures base { IsBase result }
    {
        Base {
            present: ArrayVec::new(),
            wanted: false,
            greatest: 0,
            last_up: None,
            calls: 0,
            words: 0,
        }
    }

    /// Why a call isn't done after these; `None` if it is.
    pub(crate) fn refusal(&self, call: &Call) -> Option<Answer>
        requires { IsBase self.now }
        ensures { result ≡ refusal_of self.now.present.items call.now }
    {
        refusal(self.present.as_slice(), call)
    }

    /// How many are present after a call.
    pub(crate) fn count_behind(&self, call: &Call) -> usize
        requires base { IsBase self.now }
        requires stays { HasStay call.now }
        ensures count { (request_ms : ℕ)
            → result ≡ length (present_with request_ms self.now call.now) }
        ensures few { result ≤ PRESENT_LIMIT }
    {
        let count = self.present.len();
        match self.refusal(call) {
            Some(_) => count,
            None => count_by(count, call),
        }
    }

    /// The greatest moment, once this call is made.
    pub(crate) fn moment_after(&self, call: &Call) -> u64
        ensures { result ≡ moment_after self.now.greatest call.now }
    {
        match *call {
            Call::Stay { .. } => self.greatest,
            Call::Time { moment, .. } => self.greatest.max(moment),
        }
    }

    /// Whether a PLI is sent upstream at a call after these: one is wanted, and either none was sent
    /// before, or the last one at least so many milliseconds ago.
    pub(crate) fn goes_up(&self, gap: u64, call: &Call) -> bool
        ensures { result ≡ goes_up gap self.now call.now }
    {
        let now = self.moment_after(call);
        call.can_send() && (call.wishes() || self.wanted) && is_due(gap, self.last_up, now)
    }

    /// Takes one call more in, with its answer.
    pub(crate) fn take_in(&mut self, request_ms: u64, entry: &Entry)
        requires base { IsBase self.old }
        requires follows { Follows self.old entry.now }
        requires room { self.old.calls < CALL_LIMIT }
        ensures { self.new ≡ base_with request_ms self.old entry.now }
    {
        let now = self.moment_after(&entry.call);
        let (is_done, went_up) = match entry.answer {
            Answer::Done { pli, .. } => (true, pli),
            _ => (false, false),
        };
        if is_done {
            take_in(&mut self.present, request_ms, now, &entry.call);
        }
        self.wanted = !went_up && (entry.call.wishes() || self.wanted);
        if went_up {
            self.last_up = Some(now);
        }
        self.greatest = now;
        self.calls += 1;
        self.words += entry.call.requested_word() as u128;
    }
}

/// How many are present after a call that isn't refused, of so many before it.
fn count_by(count: usize, call: &Call) -> usize
    requires few { count ≤ PRESENT_LIMIT }
    requires some { IsDepart call.now → 1 ≤ count }
    ensures { result ≡ count_by call.now count }
{
    match call {
        Call::Stay {
            change: Change::Arrive,
            ..
        } => count + 1,
        Call::Stay {
            change: Change::Request(_),
            ..
        } => count,
        Call::Stay {
            change: Change::Depart,
            ..
        } => count - 1,
        Call::Time { .. } => count,
    }
}

/// Whether the last PLI was sent upstream at least so many milliseconds ago, if there was one.
fn is_due(gap: u64, last_up: Option<u64>, now: u64) -> bool
    ensures { result ≡ is_due gap last_up now }
{
    match last_up {
        Some(up) => up <= now && now - up >= gap,
        None => true,
    }
}
