//! What the calls of a desk come to, found by going over all of them: for tests.

ghost use Rattle.std.specs.Prelude.{IsTrue, All};
ghost use Rattle.bounding_set.specs.Canonical.{StopsMedia};

use arrayvec::ArrayVec;
use bounding_set::Bounds;
use bounding_set::laws::walk;
use rate_cert::{MAX_REQUESTS, Request};
use rate_desk::*;
use std::alloc::{AllocError, Global};
use tmmbr_tuple::Ssrc;

/// The calls of a desk that were gone over so far, the first one first.
#[derive(Drop)]
pub struct Walk {
    /// What is known of the owner of each number; a stay of 0 if it isn't present.
    known: Vec<Present>,
    /// The greatest moment at the last expire.
    expired: Option<u64>,
    wanted: bool,
    greatest: u64,
    last_up: Option<u64>,
    calls: u64,
    words: u128,
}

impl Walk {
    /// No calls yet. The owners are those below this number.
    pub fn new(alloc: Global, owners: usize) -> Result<Walk, AllocError> {
        Ok(Walk {
            known: vec![in alloc; Present::default(); owners]?,
            expired: None,
            wanted: false,
            greatest: 0,
            last_up: None,
            calls: 0,
            words: 0,
        })
    }

    /// Goes over these calls, which follow the ones before.
    pub fn go_over(&mut self, entries: &[Entry]) {
        for entry in entries {
            self.calls = self.calls.wrapping_add(1);
            self.words = self.words.wrapping_add(entry.call.requested_word() as u128);
            let Answer::Done { pli, .. } = entry.answer else {
                continue;
            };
            match entry.call {
                Call::Stay {
                    owner,
                    stay,
                    change,
                } => self.note_change(owner, stay, change),
                Call::Time { moment, signal } => self.note_moment(moment, signal, pli),
            }
        }
    }

    /// An owner's change that was done.
    fn note_change(&mut self, owner: Ssrc, stay: u64, change: Change) {
        let stamp = self.greatest;
        if let Some(known) = self.known.get_mut(owner.0 as usize) {
            known.owner = owner;
            known.stay = stay;
            known.asked = None;
            match change {
                Change::Arrive => {},
                Change::Request(tuple) => known.asked = Some(Asked { tuple, stamp }),
                Change::Depart => known.stay = 0,
            }
        }
    }

    /// A call at a moment, and whether a PLI was sent upstream at it.
    fn note_moment(&mut self, moment: u64, signal: Signal, pli: bool) {
        self.greatest = moment.max(self.greatest);
        match signal {
            Signal::Pli => self.wanted = true,
            Signal::Tick => {},
            Signal::Expire => self.expired = Some(self.greatest),
        }
        if pli {
            self.wanted = false;
            self.last_up = Some(self.greatest);
        }
    }

    /// What the calls come to. A request is taken by an expire that finds it too old; of those after it
    /// the last one has the greatest moment, and one before it has none that is later than its stamp.
    pub fn come_to(&self, request_ms: u64) -> Base {
        let mut present = ArrayVec::new();
        for known in self.known.as_slice() {
            if known.stay != 0 {
                let is_taken = match (known.asked, self.expired) {
                    (Some(asked), Some(expired)) => {
                        request_ms > 0 && expired.saturating_sub(asked.stamp) >= request_ms
                    },
                    _ => false,
                };
                let asked = if is_taken { None } else { known.asked };
                let _full = present.try_push(Present { asked, ..*known });
            }
        }
        Base {
            present,
            wanted: self.wanted,
            greatest: self.greatest,
            last_up: self.last_up,
            calls: self.calls,
            words: self.words,
        }
    }
}

/// What those present ask for, by rising owner.
pub fn live_of(base: &Base) -> ArrayVec<Request, MAX_REQUESTS> {
    let mut rows = ArrayVec::new();
    for present in base.present.as_slice() {
        if let Some(asked) = present.asked {
            let _full = rows.try_push(Request {
                owner: present.owner,
                tuple: asked.tuple,
            });
        }
    }
    rows
}

/// What is announced for these requests: by the plain walk over all of them, or made anew if one has
/// the rate 0.
pub fn announced_for(rows: &ArrayVec<Request, MAX_REQUESTS>) -> ArrayVec<Request, MAX_REQUESTS> {
    let rows = rows.as_slice();
    if all_send(rows) {
        let (mut lines, mut tests) = (ArrayVec::new(), 0);
        walk(rows, &mut lines, &mut tests);
        return lines;
    }
    let mut bounds = Bounds::new();
    for row in rows {
        let _changed = bounds.set(row.owner, row.tuple);
    }
    bounds.announced()
}

/// Whether no request has the rate 0.
fn all_send(rows: &[Request]) -> bool
    ensures { IsTrue result → All (λ r. ¬ StopsMedia r) rows.now }
{
    for row in rows {
        if row.tuple.rate() == 0 {
            return false;
        }
    }
    true
}

/// The bits of those of the rows, by rising owner, that are announced.
pub fn bits_for(rows: &[Request], announced: &[Request]) -> [u64; KEPT_WORDS] {
    let mut bits = [0; KEPT_WORDS];
    for request in announced {
        if let Ok(place) = rows.binary_search_by_key(&request.owner.0, |row| row.owner.0) {
            if let Some(word) = bits.get_mut(place / 64) {
                *word |= 1 << (place % 64);
            }
        }
    }
    bits
}

/// Why a call isn't done after calls that come to this; `None` if it is.
pub fn refusal_after(base: &Base, call: &Call) -> Option<Answer> {
    let Call::Stay {
        owner,
        stay,
        change,
    } = *call
    else {
        return None;
    };
    let mut is: u64 = 0;
    for present in base.present.as_slice() {
        if present.owner == owner {
            is = present.stay;
        }
    }
    match change {
        Change::Arrive if is != 0 => Some(Answer::AlreadyPresent(is)),
        Change::Arrive if base.present.len() == 256 => Some(Answer::Full),
        Change::Arrive => None,
        Change::Request(_) | Change::Depart if is != stay => Some(Answer::NotPresent(is)),
        Change::Request(_) | Change::Depart => None,
    }
}

/// Whether a PLI is to be sent upstream at a call after calls that come to this.
pub fn is_sent(gap: u64, base: &Base, call: &Call) -> bool {
    let Call::Time { moment, signal } = *call else {
        return false;
    };
    let is_wanted = match signal {
        Signal::Pli => true,
        Signal::Tick => base.wanted,
        Signal::Expire => false,
    };
    let now = moment.max(base.greatest);
    is_wanted && base.last_up.is_none_or(|up| now.saturating_sub(up) >= gap)
}
