//! When each endpoint spoke last.

use std::alloc::{AllocError, Global};
use std::marker::Model;

/// When each endpoint was heard last under its own source, by its number: a moment in milliseconds, `None` before the first. What is heard once
/// more in its name doesn't count.
#[derive(Drop)]
pub(crate) struct LastHeard {
    moments: Vec<Option<u64>>,
}

impl Model for LastHeard {
    ghost use Rattle.std.specs.Prelude.{ℕ, List, Option};

    ghost Value = { List (Option ℕ) };

    ghost view = { λ h. h.moments.items };
}

impl LastHeard {
    ghost use Rattle.std.specs.Prelude.{◌≡◌, None, Some, IfOk, replicate, slice_get, slice_set};
    ghost use Rattle.policy.specs.Again.{is_within};

    /// None of so many endpoints spoke. Refused for want of memory alone.
    pub(crate) fn new(alloc: Global, endpoints: usize) -> Result<LastHeard, AllocError>
        ensures { IfOk result (λ h. h ≡ replicate endpoints None) }
    {
        let moments = vec![in alloc; None; endpoints]?;
        Ok(LastHeard { moments })
    }

    /// The endpoint spoke at this moment.
    pub(crate) fn note(&mut self, endpoint: u16, moment: u64)
        ensures { self.new ≡ slice_set self.old endpoint (Some moment) }
    {
        let at = usize::from(endpoint);
        if at < self.moments.len() {
            self.moments[at] = Some(moment);
        }
    }

    /// Whether the endpoint spoke within so many milliseconds before this moment.
    pub(crate) fn is_within(&self, endpoint: u16, moment: u64, within_ms: u64) -> bool
        ensures { result ≡ is_within within_ms moment (slice_get self.now endpoint) }
    {
        match self.moments.get(usize::from(endpoint)) {
            Some(Some(heard)) => moment.saturating_sub(*heard) < within_ms,
            Some(None) => false,
            None => false,
        }
    }
}
