//! What each publisher is asked again, and when it is looked at.

ghost use Rattle.std.specs.Prelude.{◌≡◌, ◌<◌, ◌≤◌, IfOk, IfSome, length, replicate};
ghost use Rattle.policy.specs.AnnouncedSets.{new_set, next_watched};

use crate::publisher_set::PublisherSet;
use crate::said::SaidAgain;
use rtcp_feedback::TmmbrEntry;
use std::alloc::{AllocError, Global};
use std::marker::Model;
use tmmbr_tuple::Ssrc;

/// What is looked at next.
#[derive(Clone, Copy, Debug, PartialEq, Eq)]
pub enum DueLook {
    /// Who is present.
    Presence,
    /// The desk of the publisher with this number.
    Desk(usize),
}

/// What is known of each publisher, by its number, and what is to be looked at. Looks are made in rounds, one in each call: first at who is
/// present, then at the desk of each publisher that was asked for a rate or notified, by rising number.
#[derive(Drop)]
pub struct AnnouncedSets {
    publishers: Vec<PublisherSet>,
    /// How far rounds are apart, in milliseconds; there are none if that is 0.
    every_ms: u64,
    /// The moment from which on the next round begins.
    due_ms: u64,
    /// In a round: the least number whose turn it wasn't.
    next: Option<usize>,
}

impl Model for AnnouncedSets {
    ghost use Rattle.policy.specs.AnnouncedSets.{SetsState};

    ghost Value = { SetsState };

    ghost view = { λ s. record {
      publishers = s.publishers.items;
      every_ms = s.every_ms;
      due_ms = s.due_ms;
      next = s.next;
    } };
}

impl AnnouncedSets {
    ghost use Rattle.std.specs.Prelude.{◌≡◌, ◌≤◌, ◌+◌, nat_lt, None, IfOk, OnOk, length, option_map, replicate};
    ghost use Rattle.policy.specs.AnnouncedSets.{after_look, look_at_desk, look_due, look_in, new_set, next_watched, said_to, set_acknowledged, set_asked, set_looked, sets_after, with_presence, with_set};

    /// Nobody asked any of so many endpoints yet. Rounds of looks are so many milliseconds apart, and the first is due at once; there are
    /// none if that is 0. Refused for want of memory alone.
    pub fn new(alloc: Global, endpoints: usize, every_ms: u64) -> Result<AnnouncedSets, AllocError>
        ensures { IfOk result (λ s. s ≡ record {
          publishers = replicate endpoints new_set;
          every_ms = every_ms;
          due_ms = 0;
          next = None;
        }) }
    {
        Ok(AnnouncedSets {
            publishers: new_sets(alloc, endpoints)?,
            every_ms,
            due_ms: 0,
            next: None,
        })
    }

    /// This owner asked the publisher with this number for a rate. Refused for want of memory alone; then the publisher was asked by nobody that
    /// is known.
    pub fn ask(&mut self, publisher: u16, owner: Ssrc) -> Result<(), AllocError>
        ensures { OnOk result (self.new ≡ with_set self.old publisher (set_asked owner)) }
    {
        let at = usize::from(publisher);
        if at >= self.publishers.len() {
            return Ok(());
        }
        self.publishers[at].ask(owner)
    }

    /// The publisher came anew, or left: nothing is known of it.
    pub fn forget(&mut self, publisher: u16)
        ensures { self.new ≡ with_set self.old publisher (λ _. new_set) }
    {
        let at = usize::from(publisher);
        if at < self.publishers.len() {
            self.publishers[at].forget();
        }
    }

    /// The publisher notified of these entries (RFC 5104, section 4.2.2). Refused for want of memory alone; then it notified of some of them.
    pub fn acknowledge(&mut self, publisher: u16, notice: &[TmmbrEntry]) -> Result<(), AllocError>
        ensures { OnOk result (self.new ≡ with_set self.old publisher (set_acknowledged notice.now)) }
    {
        let at = usize::from(publisher);
        if at >= self.publishers.len() {
            return Ok(());
        }
        self.publishers[at].acknowledge(notice)
    }

    /// What is said again to the publisher with this number at a look at its announced set and its live requests, in a unit whose endpoints have
    /// these sources. The set is sent again if it isn't empty, was seen at the last look, and the publisher's last TMMBN since it came doesn't
    /// list all of it. A source that the set doesn't name is lifted again, each time, if the set was seen at the last look and that TMMBN names
    /// it. If there was no TMMBN, it is lifted at the two looks after the set named it last, or may have: it asked, or it was live, and somebody
    /// asked or left. The publisher's own never is. The set is what was seen last from now on. Refused for want of memory alone.
    pub fn look(
        &mut self,
        alloc: Global,
        publisher: u16,
        set: &[TmmbrEntry],
        live: &[TmmbrEntry],
        sources: &[Ssrc],
    ) -> Result<SaidAgain, AllocError>
        ensures again { IfOk result
            (λ said. said ≡ said_to self.old publisher set.now live.now sources.now) }
        ensures few { IfOk result (λ said. length said.lifted ≤ length sources.now) }
        ensures seen { OnOk result
            (self.new ≡ with_set self.old publisher (set_looked set.now live.now)) }
    {
        let at = usize::from(publisher);
        if at >= self.publishers.len() {
            return Ok(SaidAgain::nothing(alloc));
        }
        self.publishers[at].look(alloc, at, set, live, sources)
    }

    /// The endpoint was looked at. If it isn't present, nothing is known of it.
    pub fn note_presence(&mut self, endpoint: u16, is_present: bool)
        ensures { self.new ≡ with_presence self.old endpoint is_present }
    {
        if !is_present {
            self.forget(endpoint);
        }
    }

    /// What is to be looked at at this moment, in milliseconds: the next desk of the round, or who is present if a round is due. Then it had its turn.
    pub fn look_due(&mut self, moment: u64) -> Option<DueLook>
        ensures look { result ≡ look_due self.old moment }
        ensures after { self.new ≡ sets_after self.old moment }
    {
        if self.every_ms == 0 {
            return None;
        }
        match self.next {
            Some(from) => self.next_desk(from),
            None => self.begin_round(moment),
        }
    }

    /// The next desk of the round, from this number on.
    fn next_desk(&mut self, from: usize) -> Option<DueLook>
        ensures look { result ≡ look_at_desk (next_watched from 0 self.old.publishers) }
        ensures after { self.new ≡ record self.old {
          next = option_map (λ number. number + 1) (next_watched from 0 self.old.publishers);
        } }
    {
        match next_watched(self.publishers.as_slice(), from) {
            Some(number) => {
                self.next = Some(number + 1);
                Some(DueLook::Desk(number))
            }
            None => {
                self.next = None;
                None
            }
        }
    }

    /// A round begins, unless it is too early.
    fn begin_round(&mut self, moment: u64) -> Option<DueLook>
        requires { self.old.next ≡ None }
        ensures look { result ≡ look_in None (nat_lt moment self.old.due_ms) self.old.publishers }
        ensures after { self.new ≡ after_look self.old moment }
    {
        if moment < self.due_ms {
            return None;
        }
        self.due_ms = moment.saturating_add(self.every_ms);
        self.next = Some(0);
        Some(DueLook::Presence)
    }
}

/// So many publishers of which nothing is known.
fn new_sets(alloc: Global, count: usize) -> Result<Vec<PublisherSet>, AllocError>
    ensures { IfOk result (λ sets. sets.items ≡ replicate count new_set) }
{
    let mut sets = Vec::with_capacity(alloc, count)?;
    for _publisher in 0..count {
        sets.push(PublisherSet::new(alloc))?;
    }
    Ok(sets)
}

/// The least number from this one on of a publisher that is looked at.
fn next_watched(publishers: &[PublisherSet], from: usize) -> Option<usize>
    ensures found { result ≡ next_watched from 0 publishers.now }
    ensures within { IfSome result (λ number. number < length publishers.now) }
{
    for (number, publisher) in publishers.iter().enumerate() {
        if from <= number && publisher.is_watched() {
            return Some(number);
        }
    }
    None
}
