//! What is known of each endpoint's numbers.

use crate::sequence_tracker::{Placement, SequenceTracker, Stamp};
use std::alloc::{AllocError, Global};
use std::marker::Model;

/// The numbers of each endpoint's packets since it began, by the endpoint's number.
#[derive(Drop)]
pub struct SequenceTrackers {
    runs: Vec<Option<SequenceTracker>>,
}

impl Model for SequenceTrackers {
    ghost use Rattle.std.specs.Prelude.{List, Option};
    ghost use Rattle.policy.specs.declared.sequence_tracker.SequenceTracker.{SequenceTracker};

    ghost Value = { List (Option SequenceTracker) };

    ghost view = { λ s. s.runs.items };
}

impl SequenceTrackers {
    ghost use Rattle.std.specs.Prelude.{◌≡◌, None, IfOk, replicate};
    ghost use Rattle.policy.specs.SequenceTrackers.{placement_at, trackers_with, trackers_without};

    /// No packet of any of so many endpoints came yet.
    pub fn new(alloc: Global, endpoints: usize) -> Result<SequenceTrackers, AllocError>
        ensures { IfOk result (λ s. s ≡ replicate endpoints None) }
    {
        Ok(SequenceTrackers {
            runs: vec![in alloc; None; endpoints]?,
        })
    }

    /// Where this packet of the endpoint stands, which is noted: `InSequence` for its first one, and for an endpoint that isn't there.
    pub fn note(&mut self, endpoint: u16, stamp: Stamp) -> Placement
        ensures placement { result ≡ placement_at self.old endpoint stamp }
        ensures noted { self.new ≡ trackers_with self.old endpoint stamp }
    {
        let at = usize::from(endpoint);
        if at >= self.runs.len() {
            return Placement::InSequence;
        }
        match self.runs[at] {
            Some(run) => {
                self.runs[at] = Some(run.with(stamp));
                run.placement(stamp)
            }
            None => {
                self.runs[at] = Some(SequenceTracker::new(stamp));
                Placement::InSequence
            }
        }
    }

    /// Nothing is known of the endpoint's numbers any more.
    pub fn forget(&mut self, endpoint: u16)
        ensures { self.new ≡ trackers_without self.old endpoint }
    {
        let at = usize::from(endpoint);
        if at < self.runs.len() {
            self.runs[at] = None;
        }
    }
}
