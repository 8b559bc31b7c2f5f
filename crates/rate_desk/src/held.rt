//! What lies under a publisher's lock.

ghost use Rattle.std.specs.Prelude.{◌≡◌};
ghost use Rattle.desk.specs.State.{call_count};

use crate::ledger::DeskCalls;
use desk::{CALL_LIMIT, Desk};
use std::sync::ledger::Share;

/// A desk, whose type keeps that its history is legal and its announced set the smallest; and its share of the ledger of recorded
/// calls. Its gap and the age of its requests are the house's.
#[derive(Drop)]
pub struct HeldDesk<D: DeskCalls> {
    pub desk: Desk,
    pub share: Share<D>,
    pub ghost one_part: { share.parts ≡ 1 },
    pub ghost counted: { share.amount ≡ call_count desk },
    pub ghost gap: { desk.gap ≡ D.gap },
    pub ghost request_ms: { desk.request_ms ≡ D.request_ms },
}

impl<D: DeskCalls> HeldDesk<D> {
    ghost use Rattle.rate_desk.specs.Shares.{IsDeskOf};

    /// The desk, once no thread can lock it any more.
    pub fn into_desk(self) -> Desk
        ensures { IsDeskOf D.gap D.request_ms result }
    {
        let HeldDesk { desk, share: _ } = self;
        prove!(desk.calls() <= CALL_LIMIT);
        desk
    }
}
