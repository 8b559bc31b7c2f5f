//! What a desk can be asked, and what it answers.

ghost use Rattle.std.specs.Prelude.{◌≡◌};
ghost use Rattle.desk.specs.Call.{can_send, may_change, requested_word, wishes};

use tmmbr_tuple::{Ssrc, Tuple};

/// A call of a desk: of an owner in a stay of its, or at a moment.
#[derive(Clone, Copy, Debug, PartialEq, Eq)]
pub enum Call {
    /// An owner begins, changes or ends a stay. Stays are numbered from 1.
    Stay {
        owner: Ssrc,
        stay: u64,
        change: Change,
    },
    /// It is this moment, in milliseconds.
    Time {
        moment: u64,
        signal: Signal,
    },
}

impl Call {
    /// Whether somebody wants a picture.
    pub(crate) fn wishes(&self) -> bool
        ensures { result ≡ wishes self.now }
    {
        matches!(
            self,
            Call::Time {
                signal: Signal::Pli,
                ..
            }
        )
    }

    /// Whether a PLI may be sent upstream at it.
    pub(crate) fn can_send(&self) -> bool
        ensures { result ≡ can_send self.now }
    {
        matches!(
            self,
            Call::Time {
                signal: Signal::Pli | Signal::Tick,
                ..
            }
        )
    }

    /// Whether requests may come or go by it.
    pub(crate) fn may_change(&self) -> bool
        ensures { result ≡ may_change self.now }
    {
        match self {
            Call::Stay { change, .. } => !matches!(change, Change::Arrive),
            Call::Time { signal, .. } => matches!(signal, Signal::Expire),
        }
    }

    /// The word that it requests, 0 if it is no request.
    pub fn requested_word(&self) -> u32
        ensures { result ≡ requested_word self.now }
    {
        match *self {
            Call::Stay {
                change: Change::Request(tuple),
                ..
            } => tuple.to_word(),
            _ => 0,
        }
    }
}

/// What an owner does in its stay.
#[derive(Clone, Copy, Debug, PartialEq, Eq)]
pub enum Change {
    /// The owner comes to ask the publisher for rates: the stay begins.
    Arrive,
    /// The owner asks for this tuple (RFC 5104, section 4.2.1).
    Request(Tuple),
    /// The stay ends, and the owner's request with it.
    Depart,
}

/// What is to be seen to at a moment.
#[derive(Clone, Copy, Debug, PartialEq, Eq)]
pub enum Signal {
    /// Somebody wants a picture from the publisher (RFC 4585, section 6.3.1).
    Pli,
    /// A PLI that is wanted may be due.
    Tick,
    /// Requests may be too old.
    Expire,
}

/// How many words hold a bit for each live request.
pub const KEPT_WORDS: usize = 4;

/// What a desk answers: done, or the refusal of least number that applies.
#[derive(Clone, Copy, Debug, PartialEq, Eq)]
pub enum Answer {
    /// The call was done. `pli` says that a PLI is to be sent upstream now. `kept` has a bit for each live
    /// request, by rising owner from 0: that of number i, which is bit i modulo 64 of word i / 64, says
    /// that it is announced.
    Done { pli: bool, kept: [u64; KEPT_WORDS] },
    /// 1: the owner isn't present with the stay that was named. Shows the stay with which it is; 0 if it
    /// isn't present.
    NotPresent(u64),
    /// 2: the owner that arrives is present. Shows its stay.
    AlreadyPresent(u64),
    /// 3: as many others are present as may be.
    Full,
}

/// A recorded call, with its answer.
#[derive(Clone, Copy, Debug, PartialEq, Eq)]
pub struct Entry {
    pub call: Call,
    pub answer: Answer,
}
