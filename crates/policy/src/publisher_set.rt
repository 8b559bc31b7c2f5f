//! What a publisher is asked again: which announced set, and whose bounds are lifted.

ghost use Rattle.std.specs.Prelude.{◌≡◌, ◌≤◌, IfOk, OnOk, filter, length, map, slice_get};
ghost use Rattle.std.specs.Cmp.Lexicographic.{pointwise};
ghost use Rattle.std.specs.List.{list_all, list_any};
ghost use Rattle.policy.specs.AnnouncedSets.{has_left, is_among, is_lifted_again, is_own, is_same, names_owner, owner_of, with_owner};

use crate::said::SaidAgain;
use rtcp_feedback::TmmbrEntry;
use std::alloc::{AllocError, Global};
use std::marker::Model;
use std::mem;
use tmmbr_tuple::Ssrc;

/// What is known of a publisher since it came last. An entry is an owner with its word.
#[derive(Drop)]
pub(crate) struct PublisherSet {
    /// Whether anybody asked it for a rate.
    is_asked: bool,
    /// Whether anybody did since its set was seen last.
    has_asked_since: bool,
    /// The announced set that was seen last.
    seen: Vec<TmmbrEntry>,
    /// The owners whose requests were live then.
    live: Vec<Ssrc>,
    /// The owners that it named then, and those that it may have named since.
    recent: Vec<Ssrc>,
    /// The same of the look before, up to that one.
    earlier: Vec<Ssrc>,
    /// Whether it notified (RFC 5104, section 4.2.2).
    has_acknowledged: bool,
    /// What it notified of last.
    acknowledged: Vec<TmmbrEntry>,
}

impl Model for PublisherSet {
    ghost use Rattle.policy.specs.AnnouncedSets.{SetState};

    ghost Value = { SetState };

    ghost view = { λ p. record {
      is_asked = p.is_asked;
      has_asked_since = p.has_asked_since;
      seen = p.seen.items;
      live = p.live.items;
      recent = p.recent.items;
      earlier = p.earlier.items;
      has_acknowledged = p.has_acknowledged;
      acknowledged = p.acknowledged.items;
    } };
}

impl PublisherSet {
    ghost use Rattle.std.specs.Prelude.{◌≡◌, ◌≤◌, OnOk, IfOk, length, slice_get};
    ghost use Rattle.policy.specs.AnnouncedSets.{asks_again, is_lifted_again, is_watched, may_hold, new_set, said_again, set_acknowledged, set_asked, set_looked, set_seen, with_passers};

    /// Nobody asked it yet.
    pub(crate) fn new(alloc: Global) -> PublisherSet
        ensures { result ≡ new_set }
    {
        PublisherSet {
            is_asked: false,
            has_asked_since: false,
            seen: Vec::new(alloc),
            live: Vec::new(alloc),
            recent: Vec::new(alloc),
            earlier: Vec::new(alloc),
            has_acknowledged: false,
            acknowledged: Vec::new(alloc),
        }
    }

    /// Whether its desk is looked at: it was asked for a rate, or notified.
    pub(crate) fn is_watched(&self) -> bool
        ensures { result ≡ is_watched self.now }
    {
        self.is_asked || self.has_acknowledged
    }

    /// This owner asked it for a rate. Refused for want of memory alone.
    pub(crate) fn ask(&mut self, owner: Ssrc) -> Result<(), AllocError>
        ensures { OnOk result (self.new ≡ set_asked owner self.old) }
    {
        self.is_asked = true;
        self.has_asked_since = true;
        note_owner(&mut self.recent, owner)
    }

    /// It came anew.
    pub(crate) fn forget(&mut self)
        ensures { self.new ≡ new_set }
    {
        self.is_asked = false;
        self.has_asked_since = false;
        self.seen.clear();
        self.live.clear();
        self.recent.clear();
        self.earlier.clear();
        self.has_acknowledged = false;
        self.acknowledged.clear();
    }

    /// It notified of these entries.
    pub(crate) fn acknowledge(&mut self, notice: &[TmmbrEntry]) -> Result<(), AllocError>
        ensures { OnOk result (self.new ≡ set_acknowledged notice.now self.old) }
    {
        self.has_acknowledged = true;
        self.acknowledged.clear();
        self.acknowledged.extend_from_slice(notice)
    }

    /// What is said again at a look at this announced set and these live requests, by the sources of the unit's endpoints, of which this
    /// publisher has that number. Then they are what was seen last.
    pub(crate) fn look(
        &mut self,
        alloc: Global,
        number: usize,
        set: &[TmmbrEntry],
        live: &[TmmbrEntry],
        sources: &[Ssrc],
    ) -> Result<SaidAgain, AllocError>
        ensures again { IfOk result (λ said. said
            ≡ said_again (with_passers live.now self.old) set.now (slice_get sources.now number) sources.now) }
        ensures few { IfOk result (λ said. length said.lifted ≤ length sources.now) }
        ensures seen { OnOk result (self.new ≡ set_looked set.now live.now self.old) }
    {
        self.note_passers(live)?;
        let own = source_at(sources, number);
        let said = self.said_again(alloc, set, own, sources)?;
        self.see(set, live)?;
        Ok(said)
    }

    /// If anybody asked or left since the last look, those whose requests were live then are noted like those that asked.
    fn note_passers(&mut self, live: &[TmmbrEntry]) -> Result<(), AllocError>
        ensures { OnOk result (self.new ≡ with_passers live.now self.old) }
    {
        if self.has_asked_since || has_left(live, self.live.as_slice()) {
            return self.recent.extend_from_slice(self.live.as_slice());
        }
        Ok(())
    }

    fn said_again(
        &self,
        alloc: Global,
        set: &[TmmbrEntry],
        own: Option<Ssrc>,
        sources: &[Ssrc],
    ) -> Result<SaidAgain, AllocError>
        ensures again { IfOk result (λ said. said ≡ said_again self.now set.now own sources.now) }
        ensures few { IfOk result (λ said. length said.lifted ≤ length sources.now) }
    {
        let asks = self.asks_again(set);
        let lifted = lifted_again(alloc, self, set, own, sources)?;
        Ok(SaidAgain { asks, lifted })
    }

    /// The set is the one that was seen last, with these live requests.
    fn see(&mut self, set: &[TmmbrEntry], live: &[TmmbrEntry]) -> Result<(), AllocError>
        ensures { OnOk result (self.new ≡ set_seen set.now live.now self.old) }
    {
        self.has_asked_since = false;
        mem::swap(&mut self.earlier, &mut self.recent);
        note_owners(&mut self.recent, set)?;
        note_owners(&mut self.live, live)?;
        self.seen.clear();
        self.seen.extend_from_slice(set)
    }

    /// Whether this announced set is sent again: it isn't empty, it was seen at the last look, and the publisher's last TMMBN doesn't list all
    /// of it.
    fn asks_again(&self, set: &[TmmbrEntry]) -> bool
        ensures { result ≡ asks_again self.now set.now }
    {
        !set.is_empty()
            && are_same(set, self.seen.as_slice())
            && !are_acknowledged(self.acknowledged.as_slice(), set)
    }

    /// Whether this owner, which the set doesn't name, is lifted again. If the publisher sent a TMMBN, the last one names the owner, and the set
    /// was seen at the last look. If not, the set named the owner then or at the look before, or may have named it since.
    fn is_lifted_again(&self, set: &[TmmbrEntry], own: Option<Ssrc>, owner: Ssrc) -> bool
        ensures { result ≡ is_lifted_again self.now set.now own owner }
    {
        !is_own(own, owner) && !names_owner(set, owner) && self.may_hold(set, owner)
    }

    /// Whether the publisher may still keep to a bound of this owner.
    fn may_hold(&self, set: &[TmmbrEntry], owner: Ssrc) -> bool
        ensures { result ≡ may_hold self.now set.now owner }
    {
        if self.has_acknowledged {
            return names_owner(self.acknowledged.as_slice(), owner)
                && are_same(set, self.seen.as_slice());
        }
        is_among(self.recent.as_slice(), owner) || is_among(self.earlier.as_slice(), owner)
    }
}

/// Of these sources those that are lifted again at a look at this set.
fn lifted_again(
    alloc: Global,
    publisher: &PublisherSet,
    set: &[TmmbrEntry],
    own: Option<Ssrc>,
    sources: &[Ssrc],
) -> Result<Vec<Ssrc>, AllocError>
    ensures lifted { IfOk result
        (λ owners. owners.items ≡ filter (is_lifted_again publisher.now set.now own) sources.now) }
    ensures few { IfOk result (λ owners. length owners.items ≤ length sources.now) }
{
    let mut lifted = Vec::new(alloc);
    for source in sources {
        if publisher.is_lifted_again(set, own, *source) {
            lifted.push(*source)?;
        }
    }
    Ok(lifted)
}

/// Whether this is the publisher's own source.
fn is_own(own: Option<Ssrc>, owner: Ssrc) -> bool
    ensures { result ≡ is_own own owner }
{
    match own {
        Some(own) => own.0 == owner.0,
        None => false,
    }
}

/// The source at this place, if there is one.
fn source_at(sources: &[Ssrc], at: usize) -> Option<Ssrc>
    ensures { result ≡ slice_get sources.now at }
{
    sources.get(at).copied()
}

/// Whether these entries name this owner.
fn names_owner(entries: &[TmmbrEntry], owner: Ssrc) -> bool
    ensures { result ≡ names_owner entries.now owner }
{
    entries.iter().any(|entry| entry.ssrc == owner)
}

/// Whether this owner is among these.
fn is_among(owners: &[Ssrc], owner: Ssrc) -> bool
    ensures { result ≡ is_among owners.now owner }
{
    owners.iter().any(|other| other.0 == owner.0)
}

/// This owner is one of these from now on.
fn note_owner(owners: &mut Vec<Ssrc>, owner: Ssrc) -> Result<(), AllocError>
    ensures { OnOk result (owners.new.items ≡ with_owner owner owners.old.items) }
{
    if is_among(owners.as_slice(), owner) {
        return Ok(());
    }
    owners.push(owner)?;
    Ok(())
}

/// Whether one of these owners left: none of its requests is live any more.
fn has_left(live: &[TmmbrEntry], owners: &[Ssrc]) -> bool
    ensures { result ≡ has_left live.now owners.now }
{
    owners.iter().any(|owner| !names_owner(live, *owner))
}

/// These are the owners of a list.
fn note_owners(owners: &mut Vec<Ssrc>, set: &[TmmbrEntry]) -> Result<(), AllocError>
    ensures { OnOk result (owners.new.items ≡ map owner_of set.now) }
{
    owners.clear();
    for entry in set {
        owners.push(entry.ssrc)?;
    }
    Ok(())
}

/// Whether two entries have the same owner and word.
fn is_same(entry: TmmbrEntry, other: TmmbrEntry) -> bool
    ensures { result ≡ is_same entry other }
{
    entry.ssrc.0 == other.ssrc.0 && entry.word == other.word
}

/// Whether two sets have the same entries in the same order.
fn are_same(set: &[TmmbrEntry], other: &[TmmbrEntry]) -> bool
    ensures { result ≡ pointwise is_same set.now other.now }
{
    let (mut left, mut right) = (set, other);
    loop {
        match (left, right) {
            ([], []) => return true,
            ([entry, entries @ ..], [seen, others @ ..]) => {
                if !is_same(*entry, *seen) {
                    return false;
                }
                left = entries;
                right = others;
            }
            ([], [_, ..]) => return false,
            ([_, ..], []) => return false,
        }
    }
}

/// Whether each entry of the set is among these.
fn are_acknowledged(acknowledged: &[TmmbrEntry], set: &[TmmbrEntry]) -> bool
    ensures { result ≡ list_all (λ e. list_any (is_same e) acknowledged.now) set.now }
{
    for entry in set {
        if !is_acknowledged(acknowledged, *entry) {
            return false;
        }
    }
    true
}

/// Whether the entry is among these.
fn is_acknowledged(acknowledged: &[TmmbrEntry], entry: TmmbrEntry) -> bool
    ensures { result ≡ list_any (is_same entry) acknowledged.now }
{
    for other in acknowledged {
        if is_same(entry, *other) {
            return true;
        }
    }
    false
}
