//! The machine's parts.

ghost use Rattle.std.specs.Prelude.{◌≡◌, ◌<◌, ◌^◌, false};

use crate::front::Front;
use crate::ring::JobRing;
use desk::{Desk, Effect};
use desk_calls::Notification;
use events::Job;
use legs::Legs;
use members::Row;

/// The machine's parts. Contracts see them as `state_of` says.
#[derive(Drop)]
pub(crate) struct Machine {
    /// The room, and what waits for the ingress.
    pub(crate) front: Front,
    /// The notification that waits for the ingress.
    pub(crate) pending: Option<Notification>,
    /// What it tells.
    pub(crate) effect: Effect,
    /// The desk of each endpoint.
    pub(crate) desks: Vec<Desk>,
    /// The published row of each leg.
    pub(crate) rows: Vec<Row>,
    pub(crate) workers: Vec<Worker>,
    /// Jobs given up since their worker's ring was full.
    pub(crate) lost: u64,
}

/// A worker.
#[derive(Drop)]
pub(crate) struct Worker {
    pub(crate) jobs: JobRing,
    pub(crate) hand: Hand,
    /// What the notification in its hand tells.
    pub(crate) effect: Effect,
    pub(crate) legs: Legs,
}

/// What a worker has in hand.
#[derive(Drop)]
pub(crate) enum Hand {
    Free,
    Doing(Job),
    Telling(Notification),
}

impl Worker {
    ghost use Rattle.core_steps.specs.Machine.{worker_state};
    ghost use Rattle.core_steps.specs.Waits.{works_more};

    /// Whether a job waits in its ring, or anything is in its hand.
    pub(crate) fn has_work(&self) -> bool
        ensures { result ≡ works_more (worker_state self.now).hand (worker_state self.now).jobs }
    {
        match self.hand {
            Hand::Free => self.jobs.len() > 0,
            Hand::Doing(_) | Hand::Telling(_) => true,
        }
    }
}

impl Machine {
    ghost use Rattle.core_steps.specs.Machine.{IsIdle, alone, rest_of, state_of};
    ghost use Rattle.core_steps.specs.Rule.{is_busy};

    /// The counts fit their types, which a contract that spells a count's limit wants to know.
    pub(crate) fn knows_counts(&self)
        ensures lost { self.now.lost < 2 ^ 64 }
        ensures tmmbns { self.now.front.tmmbns < 2 ^ 64 }
    {
        let (_lost, _tmmbns) = (self.lost, self.front.tmmbns);
    }

    /// Whether the ingress has something to do. If it hasn't, its front may take something in.
    pub(crate) fn is_busy(&self) -> bool
        ensures value { result ≡ is_busy (state_of self.now) }
        ensures front { result ≡ false → is_busy (alone self.now.front) ≡ false }
        ensures rest { result ≡ false → IsIdle (rest_of self.now) }
    {
        self.knows_counts();
        self.pending.is_some() || !self.front.tasks.is_empty()
    }
}
