//! The ring of a worker's jobs.

use events::Job;
use std::alloc::{AllocError, Global};
use std::collections::VecDeque;
use std::marker::Model;

/// How many jobs wait in a ring at the most.
pub const JOB_LIMIT: usize = 1024;

/// The jobs that wait for a worker, oldest first. Its memory is taken when it is made.
#[derive(Drop)]
pub(crate) struct JobRing {
    jobs: VecDeque<Job>,
}

impl Model for JobRing {
    ghost use Rattle.std.specs.Prelude.{List, ◌≤◌, length};
    ghost use Rattle.std.specs.VecDeque.{deque_capacity};
    ghost use Rattle.events.specs.declared.job.Job.{Job};
    ghost use Rattle.core_steps.specs.declared.ring.TheConstants.{JOB_LIMIT};

    ghost Value = { List Job };

    ghost view = { λ r. r.jobs.items };

    ghost invariant = { λ r. (JOB_LIMIT ≤ deque_capacity r.jobs)
        × (length r.jobs.items ≤ JOB_LIMIT) };
}

impl JobRing {
    ghost use Rattle.std.specs.Prelude.{◌≡◌, ◌<◌, ◌≤◌, ◌↔◌, ◌++◌, ◌∷◌, [], length, IfOk, IsOk, OnOk, OnErr, MatchOption};

    /// A ring with room for `JOB_LIMIT` jobs.
    pub(crate) fn new(alloc: Global) -> Result<JobRing, AllocError>
        ensures { IfOk result (λ ring. ring ≡ []) }
    {
        Ok(JobRing {
            jobs: VecDeque::with_capacity(alloc, JOB_LIMIT)?,
        })
    }

    /// How many jobs wait.
    pub(crate) fn len(&self) -> usize
        ensures value { result ≡ length self.now }
        ensures limit { result ≤ JOB_LIMIT }
    {
        self.jobs.len()
    }

    /// Puts a job after those that wait; a full ring hands it back.
    pub(crate) fn push(&mut self, job: Job) -> Result<(), Job>
        ensures room { IsOk result ↔ (length self.old < JOB_LIMIT) }
        ensures put { OnOk result (self.new ≡ self.old ++ job ∷ []) }
        ensures full { OnErr result (self.new ≡ self.old) }
    {
        if self.jobs.len() >= JOB_LIMIT {
            return Err(job);
        }
        self.jobs.push_back_reserved(job);
        Ok(())
    }

    /// Takes the oldest job.
    pub(crate) fn pop(&mut self) -> Option<Job>
        ensures { MatchOption result ((self.old ≡ []) × (self.new ≡ []))
            (λ job. self.old ≡ job ∷ self.new) }
    {
        self.jobs.pop_front()
    }
}
