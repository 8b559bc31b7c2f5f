//! Publishers that came, and how far what is held for their legs was heard again.

ghost use Rattle.std.specs.Prelude.{◌≡◌, ◌≤◌, ◌^◌, length, map};
ghost use Rattle.std.specs.List.{list_any};
ghost use Rattle.policy.specs.JoinedPublishers.{just_joined, first_due, is_due, ticked_in};

use std::alloc::{AllocError, Global};
use std::marker::Model;

/// What of a publisher's legs is heard again.
#[derive(Clone, Copy)]
pub(crate) enum JoinedPublisher {
    /// Nothing: it didn't come, or left, or all of them were looked at.
    Over,
    /// Nothing until a tick is made, after which it is due.
    Waits,
    /// What is held for them, from this place among them on.
    Due { from: usize },
}

/// How a publisher comes. If requests of this age are given up it waits for a tick. A desk counts the age of a request from the last moment that
/// it was told, and a tick tells the desks of present publishers.
pub(crate) fn just_joined(request_ms: u64) -> JoinedPublisher
    ensures { result ≡ just_joined request_ms }
{
    if request_ms == 0 {
        JoinedPublisher::Due { from: 0 }
    } else {
        JoinedPublisher::Waits
    }
}

impl JoinedPublisher {
    ghost use Rattle.std.specs.Prelude.{◌≡◌};
    ghost use Rattle.policy.specs.JoinedPublishers.{due_from, is_due, ticked_in};

    fn is_due(&self) -> bool
        ensures { result ≡ is_due self.now }
    {
        match self {
            JoinedPublisher::Due { .. } => true,
            JoinedPublisher::Over | JoinedPublisher::Waits => false,
        }
    }

    /// From which place on its legs are looked at, if it is due.
    fn due_from(&self) -> Option<usize>
        ensures { result ≡ due_from self.now }
    {
        match self {
            JoinedPublisher::Due { from } => Some(*from),
            JoinedPublisher::Over | JoinedPublisher::Waits => None,
        }
    }

    /// A tick was made.
    fn ticked(self) -> JoinedPublisher
        ensures { result ≡ ticked_in self }
    {
        match self {
            JoinedPublisher::Waits => JoinedPublisher::Due { from: 0 },
            JoinedPublisher::Over | JoinedPublisher::Due { .. } => self,
        }
    }
}

/// Which publishers came, by their numbers.
#[derive(Drop)]
pub(crate) struct JoinedPublishers {
    list: Vec<JoinedPublisher>,
    /// Whether any is due.
    is_waiting: bool,
}

impl Model for JoinedPublishers {
    ghost use Rattle.std.specs.Prelude.{◌≡◌, ◌≤◌, ◌^◌, List, length};
    ghost use Rattle.std.specs.List.{list_any};
    ghost use Rattle.policy.specs.JoinedPublishers.{is_due};
    ghost use Rattle.policy.specs.declared.joined_publishers.JoinedPublisher.{JoinedPublisher as Comer};

    ghost Value = { List Comer };

    ghost view = { λ c. c.list.items };

    ghost invariant = { λ c. (c.is_waiting ≡ list_any is_due c.list.items)
        × (length c.list.items ≤ 2 ^ 16) };
}

impl JoinedPublishers {
    ghost use Rattle.std.specs.Prelude.{◌≡◌, ◌≤◌, ◌^◌, false, None, IfOk, map, replicate, slice_set};
    ghost use Rattle.std.specs.List.{list_any};
    ghost use Rattle.policy.specs.JoinedPublishers.{first_due, is_due, ticked_in};

    /// None of so many endpoints came.
    pub(crate) fn new(alloc: Global, endpoints: usize) -> Result<JoinedPublishers, AllocError>
        requires { endpoints ≤ 2 ^ 16 }
        ensures { IfOk result (λ c. c ≡ replicate endpoints JoinedPublisher.Over) }
    {
        let list = vec![in alloc; JoinedPublisher::Over; endpoints]?;
        let is_waiting = any_due(list.as_slice());
        Ok(JoinedPublishers { list, is_waiting })
    }

    /// Whether any is due.
    pub(crate) fn is_waiting(&self) -> bool
        ensures { result ≡ list_any is_due self.now }
    {
        self.is_waiting
    }

    /// So it is with this publisher from now on.
    pub(crate) fn note(&mut self, publisher: u16, coming: JoinedPublisher)
        ensures { self.new ≡ slice_set self.old publisher coming }
    {
        let at = usize::from(publisher);
        if at < self.list.len() {
            self.list[at] = coming;
            self.is_waiting = any_due(self.list.as_slice());
        }
    }

    /// A tick was made.
    pub(crate) fn ticked(&mut self)
        ensures { self.new ≡ map ticked_in self.old }
    {
        tick_all(self.list.as_mut_slice());
        self.is_waiting = any_due(self.list.as_slice());
    }

    /// The first that is due, and from which place on its legs are looked at.
    #[tactic(auto, using(crate::proofs::JoinedLemmas::nobody_due))]
    pub(crate) fn first_due(&self) -> Option<(u16, usize)>
        ensures due { result ≡ first_due 0 self.now }
        ensures nobody { list_any is_due self.now ≡ false → result ≡ None }
    {
        if !self.is_waiting {
            return None;
        }
        first_due(self.list.as_slice())
    }
}

/// Whether any is due.
fn any_due(list: &[JoinedPublisher]) -> bool
    ensures { result ≡ list_any is_due list.now }
{
    for coming in list {
        if coming.is_due() {
            return true;
        }
    }
    false
}

/// A tick was made.
fn tick_all(list: &mut [JoinedPublisher])
    ensures { list.new ≡ map ticked_in list.old }
{
    for coming in list.iter_mut() {
        *coming = coming.ticked();
    }
}

/// The first that is due, and from which place on its legs are looked at.
fn first_due(list: &[JoinedPublisher]) -> Option<(u16, usize)>
    requires { length list.now ≤ 2 ^ 16 }
    ensures { result ≡ first_due 0 list.now }
{
    for (publisher, coming) in list.iter().enumerate() {
        if let Some(from) = coming.due_from() {
            return Some((publisher as u16, from));
        }
    }
    None
}
