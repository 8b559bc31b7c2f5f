//! Where threads count what was refused: any raises, any reads.

ghost use Rattle.std.specs.Prelude.{IfOk, IsSome, OnOk};
ghost use Rattle.stats.specs.Refusals.{AreCounted};

use crate::refusals::{REFUSALS, RefusedCount, reason_number};
use events::Refusal;
use std::alloc::{AllocError, Global};
use std::array::from_fn;
use std::sync::atomic::{AtomicU64, Ordering};

/// How often each reason refused what came of one endpoint: a cell for each number of a kind.
#[derive(Drop)]
pub(crate) struct RefusalCells {
    rtp: [AtomicU64; 6],
    rtcp: [AtomicU64; 7],
    feedback: [AtomicU64; 2],
    room: [AtomicU64; 5],
    desk: [AtomicU64; 4],
}

impl RefusalCells {
    pub(crate) fn new() -> RefusalCells {
        RefusalCells {
            rtp: from_fn(|_| AtomicU64::new(0)),
            rtcp: from_fn(|_| AtomicU64::new(0)),
            feedback: from_fn(|_| AtomicU64::new(0)),
            room: from_fn(|_| AtomicU64::new(0)),
            desk: from_fn(|_| AtomicU64::new(0)),
        }
    }

    /// Something was refused for this.
    pub(crate) fn add(&self, refusal: Refusal) {
        if let Some(cell) = self.cell(refusal) {
            let _ = cell.fetch_add(1, Ordering::SeqCst);
        }
    }

    /// How often anything was.
    pub(crate) fn total(&self) -> u64 {
        let mut total: u64 = 0;
        for refusal in &REFUSALS {
            total = total.saturating_add(self.seen(*refusal));
        }
        total
    }

    /// Appends how often each reason refused what came of this endpoint, of those that did. Refused for want of memory alone.
    #[tactic(auto, using(crate::proofs::RefusalLemmas::counted_more))]
    pub(crate) fn push_counts(
        &self,
        endpoint: Option<u16>,
        all: &mut Vec<RefusedCount>,
    ) -> Result<(), AllocError>
        requires { AreCounted all.old.items }
        ensures { OnOk result (AreCounted all.new.items) }
    {
        for refusal in &REFUSALS {
            let count = self.seen(*refusal);
            if count > 0 {
                all.push(RefusedCount {
                    endpoint,
                    refusal: *refusal,
                    count,
                })?;
            }
        }
        Ok(())
    }

    /// How often each reason refused what came of this endpoint, of those that did. Refused for want of memory alone.
    pub(crate) fn counts(
        &self,
        alloc: Global,
        endpoint: Option<u16>,
    ) -> Result<Vec<RefusedCount>, AllocError>
        ensures { IfOk result (λ all. AreCounted all.items) }
    {
        let mut all = Vec::new(alloc);
        self.push_counts(endpoint, &mut all)?;
        Ok(all)
    }

    fn seen(&self, refusal: Refusal) -> u64 {
        match self.cell(refusal) {
            Some(cell) => cell.load(Ordering::SeqCst),
            None => 0,
        }
    }

    /// The cell of a reason. Each has one.
    fn cell(&self, refusal: Refusal) -> Option<&AtomicU64>
        ensures { IsSome result }
    {
        let cells: &[AtomicU64] = match refusal {
            Refusal::Rtp(_) => &self.rtp,
            Refusal::Rtcp(_) => &self.rtcp,
            Refusal::Feedback(_) => &self.feedback,
            Refusal::Room(_) => &self.room,
            Refusal::Desk(_) => &self.desk,
        };
        cells.get(usize::from(reason_number(refusal)).checked_sub(1)?)
    }
}
