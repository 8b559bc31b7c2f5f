//! A desk's lock, which says whose desk lies under it.

ghost use Rattle.std.specs.Prelude.{◌≡◌};

use crate::held::HeldDesk;
use crate::hold::Hold;
use crate::ledger::DeskCalls;
use desk::Desk;
use std::marker::Model;
use std::sync::ledger::Share;
use std::sync::{Mutex, Wait};

/// A publisher's desk under its lock, which it never leaves while threads call it. So the lock says whose desk it is: contracts see it
/// as the number of its publisher, and know of the desk what its type says.
#[derive(Drop)]
pub(crate) struct DeskLock<D: DeskCalls> {
    publisher: usize,
    held: Mutex<HeldDesk<D>>,
}

impl<D: DeskCalls> Model for DeskLock<D> {
    ghost use Rattle.std.specs.Prelude.{ℕ};

    ghost Value = { ℕ };

    ghost view = { λ lock. lock.publisher };
}

impl<D: DeskCalls> DeskLock<D> {
    ghost use Rattle.std.specs.Prelude.{◌≡◌};
    ghost use Rattle.desk.specs.State.{call_count};
    ghost use Rattle.rate_desk.specs.Shares.{IsDeskOf};

    /// This publisher's desk, put under a lock with its share of the ledger.
    pub(crate) fn new(publisher: usize, desk: Desk, share: Share<D>) -> DeskLock<D>
        requires one_part { share.parts ≡ 1 }
        requires counted { share.amount ≡ call_count desk }
        requires gap { desk.gap ≡ D.gap }
        requires request_ms { desk.request_ms ≡ D.request_ms }
        ensures { result ≡ publisher }
    {
        DeskLock {
            publisher,
            held: Mutex::new(HeldDesk { desk, share }),
        }
    }

    /// The desk, which nobody else calls until the hold is dropped: who waits for it waits so long.
    pub(crate) fn hold<R: Wait>(&self, rt: &R) -> Hold<'_, D>
        ensures { result.publisher ≡ self.now }
    {
        Hold {
            publisher: self.publisher,
            guard: self.held.lock(rt),
        }
    }

    /// The desk, once no thread can lock it any more.
    pub(crate) fn into_desk(self) -> Desk
        ensures { IsDeskOf D.gap D.request_ms result }
    {
        let DeskLock { publisher: _, held } = self;
        held.into_inner().into_desk()
    }
}
