//! Where threads leave what reports say: one writes, any reads.

use crate::reports::{ReceptionReport, SentReport, WORD_VALUES};
use rtcp_compound::Block;
use std::sync::atomic::{AtomicI32, AtomicU8, AtomicU32, AtomicU64, Ordering};

/// The cells of what was last reported of a stream. Who reads while another thread writes may see parts of two reports.
#[derive(Drop)]
pub(crate) struct ReportCells {
    fraction: AtomicU8,
    lost: AtomicI32,
    jitter: AtomicU32,
    /// One more than the round trip; 0 before one is known.
    after_trip_ms: AtomicU64,
    /// One more than the moment; 0 before the first report.
    after_ms: AtomicU64,
    interval_ms: AtomicU64,
}

impl ReportCells {
    pub(crate) fn new() -> ReportCells {
        ReportCells {
            fraction: AtomicU8::new(0),
            lost: AtomicI32::new(0),
            jitter: AtomicU32::new(0),
            after_trip_ms: AtomicU64::new(0),
            after_ms: AtomicU64::new(0),
            interval_ms: AtomicU64::new(0),
        }
    }

    /// The report that was noted last, if any was.
    pub(crate) fn seen(&self) -> Option<ReceptionReport> {
        let moment = self.after_ms.load(Ordering::SeqCst).checked_sub(1)?;
        Some(ReceptionReport {
            fraction: self.fraction.load(Ordering::SeqCst),
            lost: self.lost.load(Ordering::SeqCst),
            jitter: self.jitter.load(Ordering::SeqCst),
            round_trip_ms: word_before(self.after_trip_ms.load(Ordering::SeqCst)),
            moment,
            interval_ms: self.interval_ms.load(Ordering::SeqCst),
        })
    }

    /// Nothing was reported.
    pub(crate) fn forget(&self) {
        clear(&self.after_trip_ms);
        clear(&self.after_ms);
    }

    /// Notes what this block says, at this moment; `sent` is the last sender report of the stream, and such reports are `each_ms`
    /// milliseconds apart, if that is known beforehand.
    pub(crate) fn note(
        &self,
        block: &Block,
        sent: Option<SentReport>,
        each_ms: Option<u64>,
        moment: u64,
    ) {
        let report = ReceptionReport::after(self.seen(), block, sent, each_ms, moment);
        self.fraction.store(report.fraction, Ordering::SeqCst);
        self.lost.store(report.lost, Ordering::SeqCst);
        self.jitter.store(report.jitter, Ordering::SeqCst);
        self.after_trip_ms
            .store(word_after(report.round_trip_ms), Ordering::SeqCst);
        self.interval_ms.store(report.interval_ms, Ordering::SeqCst);
        self.after_ms
            .store(report.moment.saturating_add(1), Ordering::SeqCst);
    }
}

/// The cell of the last sender report of a stream: its LSR in the upper half, its moment in the lower. 0 before the first; a report whose LSR
/// is 0 is none that a block names.
#[derive(Drop)]
pub(crate) struct SentCell {
    both: AtomicU64,
}

impl SentCell {
    pub(crate) fn new() -> SentCell {
        SentCell {
            both: AtomicU64::new(0),
        }
    }

    /// The last sender report, if there was one.
    pub(crate) fn seen(&self) -> Option<SentReport> {
        let both = self.both.load(Ordering::SeqCst);
        if both == 0 {
            return None;
        }
        Some(SentReport {
            lsr: (both / WORD_VALUES) as u32,
            moment: (both % WORD_VALUES) as u32,
        })
    }

    pub(crate) fn set(&self, sent: SentReport) {
        let both = u64::from(sent.lsr) * WORD_VALUES + u64::from(sent.moment);
        self.both.store(both, Ordering::SeqCst);
    }

    /// There was none.
    pub(crate) fn forget(&self) {
        clear(&self.both);
    }
}

/// Nothing stands in the cell. If nothing does it isn't written, which costs more than a look.
fn clear(cell: &AtomicU64) {
    if cell.load(Ordering::SeqCst) != 0 {
        cell.store(0, Ordering::SeqCst);
    }
}

/// The number of which this is one more; `None` of 0.
fn word_before(after: u64) -> Option<u32> {
    u32::try_from(after.checked_sub(1)?).ok()
}

/// One more than a number; 0 of none.
fn word_after(number: Option<u32>) -> u64 {
    match number {
        Some(number) => u64::from(number) + 1,
        None => 0,
    }
}
