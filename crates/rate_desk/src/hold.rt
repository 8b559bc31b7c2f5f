//! A publisher's desk while one thread has it.

ghost use Rattle.std.specs.Prelude.{◌≡◌};

use crate::held::HeldDesk;
use crate::ledger::DeskCalls;
use desk::{CALL_LIMIT, Desk};
use std::marker::Model;
use std::sync::MutexGuard;

/// A publisher's desk, which nobody else calls until this is dropped. So what its last call changed can be told before another call
/// changes it again. Contracts see whose desk it is, and the desk.
#[derive(Drop)]
pub struct Hold<'a, D: DeskCalls> {
    pub(crate) publisher: usize,
    pub(crate) guard: MutexGuard<'a, HeldDesk<D>>,
}

impl<'a, D: DeskCalls> Model for Hold<'a, D> {
    ghost use Rattle.std.specs.Sync.Mutex.{mutex_guard_value};
    ghost use Rattle.rate_desk.specs.Shares.{HoldState};

    ghost Value = { HoldState };

    ghost view = { λ h. record {
      publisher = h.publisher;
      desk = (mutex_guard_value h.guard).desk;
    } };
}

impl<'a, D: DeskCalls> Hold<'a, D> {
    ghost use Rattle.rate_desk.specs.Shares.{IsDeskOf};

    /// The desk that is held: a legal one, with the house's gap and age of requests.
    pub fn desk(&self) -> &Desk
        ensures value { result.now ≡ self.now.desk }
        ensures legal { IsDeskOf D.gap D.request_ms result.now }
    {
        let held = &*self.guard;
        prove!(held.desk.calls() <= CALL_LIMIT);
        &held.desk
    }
}
