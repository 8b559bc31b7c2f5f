//! The cells of the counts of an endpoint and of a leg, which threads raise.

ghost use Rattle.std.specs.Prelude.{◌≡◌, length, vec_len, IfOk};

use crate::endpoint_count::EndpointCount;
use crate::leg_count::LegCount;
use crate::refusal_cells::RefusalCells;
use crate::report_cells::{ReportCells, SentCell};
use datagram::Kinds;
use settings::LegSettings;
use std::alloc::{AllocError, Global};
use std::sync::atomic::{AtomicU64, Ordering};
use tmmbr_tuple::Ssrc;

/// The cells of an endpoint's counts.
#[derive(Drop)]
pub(crate) struct EndpointCells {
    /// The source that it sends with.
    pub(crate) source: Ssrc,
    pub(crate) heard_rtp: AtomicU64,
    pub(crate) heard_rtcp: AtomicU64,
    heard_octets: AtomicU64,
    /// One more than the moment; 0 before the first.
    heard_after_ms: AtomicU64,
    pub(crate) asked: KindCells,
    pub(crate) sent: AtomicU64,
    pub(crate) sent_octets: AtomicU64,
    pub(crate) failed: AtomicU64,
    pub(crate) told: KindCells,
    /// What was refused of what came from it.
    pub(crate) refused: RefusalCells,
    /// What the unit reported of it.
    pub(crate) reported: ReportCells,
}

/// The cells of counts of feedback.
#[derive(Drop)]
pub(crate) struct KindCells {
    nacks: AtomicU64,
    plis: AtomicU64,
    tmmbrs: AtomicU64,
    tmmbns: AtomicU64,
}

/// The cells of a leg's counts, which the worker that owns the leg raises, and of what its subscriber reported.
#[derive(Drop)]
pub(crate) struct LegCells {
    /// The endpoint that it is sent to.
    pub(crate) subscriber: u16,
    packets: AtomicU64,
    octets: AtomicU64,
    resent: AtomicU64,
    pub(crate) missed: AtomicU64,
    pub(crate) skipped: AtomicU64,
    /// One more than the next number; 0 before the first packet.
    after_next: AtomicU64,
    /// The last sender report on it.
    pub(crate) sent_report: SentCell,
    pub(crate) reported: ReportCells,
}

impl EndpointCells {
    fn new(source: Ssrc) -> EndpointCells {
        EndpointCells {
            source,
            heard_rtp: AtomicU64::new(0),
            heard_rtcp: AtomicU64::new(0),
            heard_octets: AtomicU64::new(0),
            heard_after_ms: AtomicU64::new(0),
            asked: KindCells::new(),
            sent: AtomicU64::new(0),
            sent_octets: AtomicU64::new(0),
            failed: AtomicU64::new(0),
            told: KindCells::new(),
            refused: RefusalCells::new(),
            reported: ReportCells::new(),
        }
    }

    /// So many bytes came from it at this moment.
    pub(crate) fn heard(&self, size: usize, moment: u64) {
        add(&self.heard_octets, size as u64);
        self.heard_after_ms
            .store(moment.saturating_add(1), Ordering::SeqCst);
    }

    pub(crate) fn seen(&self) -> EndpointCount {
        EndpointCount {
            heard_rtp: self.heard_rtp.load(Ordering::SeqCst),
            heard_rtcp: self.heard_rtcp.load(Ordering::SeqCst),
            heard_octets: self.heard_octets.load(Ordering::SeqCst),
            heard_ms: self.heard_after_ms.load(Ordering::SeqCst).checked_sub(1),
            asked: self.asked.seen(),
            sent: self.sent.load(Ordering::SeqCst),
            sent_octets: self.sent_octets.load(Ordering::SeqCst),
            failed: self.failed.load(Ordering::SeqCst),
            told: self.told.seen(),
            refused: self.refused.total(),
        }
    }
}

impl KindCells {
    fn new() -> KindCells {
        KindCells {
            nacks: AtomicU64::new(0),
            plis: AtomicU64::new(0),
            tmmbrs: AtomicU64::new(0),
            tmmbns: AtomicU64::new(0),
        }
    }

    pub(crate) fn add(&self, kinds: Kinds) {
        add(&self.nacks, kinds.nacks);
        add(&self.plis, kinds.plis);
        add(&self.tmmbrs, kinds.tmmbrs);
        add(&self.tmmbns, kinds.tmmbns);
    }

    fn seen(&self) -> Kinds {
        Kinds {
            nacks: self.nacks.load(Ordering::SeqCst),
            plis: self.plis.load(Ordering::SeqCst),
            tmmbrs: self.tmmbrs.load(Ordering::SeqCst),
            tmmbns: self.tmmbns.load(Ordering::SeqCst),
        }
    }
}

impl LegCells {
    fn new(subscriber: u16) -> LegCells {
        LegCells {
            subscriber,
            packets: AtomicU64::new(0),
            octets: AtomicU64::new(0),
            resent: AtomicU64::new(0),
            missed: AtomicU64::new(0),
            skipped: AtomicU64::new(0),
            after_next: AtomicU64::new(0),
            sent_report: SentCell::new(),
            reported: ReportCells::new(),
        }
    }

    pub(crate) fn seen(&self) -> LegCount {
        LegCount {
            packets: self.packets.load(Ordering::SeqCst),
            octets: self.octets.load(Ordering::SeqCst),
            resent: self.resent.load(Ordering::SeqCst),
            missed: self.missed.load(Ordering::SeqCst),
            skipped: self.skipped.load(Ordering::SeqCst),
            next: number_before(self.after_next.load(Ordering::SeqCst)),
        }
    }

    /// Shows what changed.
    pub(crate) fn set(&self, before: LegCount, after: LegCount) {
        show(&self.packets, before.packets, after.packets);
        show(&self.octets, before.octets, after.octets);
        show(&self.resent, before.resent, after.resent);
        let (next, former) = (number_after(after.next), number_after(before.next));
        show(&self.after_next, former, next);
    }
}

/// Cells for these endpoints.
pub(crate) fn endpoint_cells(
    alloc: Global,
    sources: &[Ssrc],
) -> Result<Vec<EndpointCells>, AllocError>
    ensures { IfOk result (λ all. vec_len all ≡ length sources.now) }
{
    let mut all = Vec::with_capacity(alloc, sources.len())?;
    for source in sources {
        all.push(EndpointCells::new(*source))?;
    }
    Ok(all)
}

/// Cells for these legs.
pub(crate) fn leg_cells(alloc: Global, legs: &[LegSettings]) -> Result<Vec<LegCells>, AllocError>
    ensures { IfOk result (λ all. vec_len all ≡ length legs.now) }
{
    let mut all = Vec::with_capacity(alloc, legs.len())?;
    for leg in legs {
        all.push(LegCells::new(leg.subscriber))?;
    }
    Ok(all)
}

/// Shows a count. One that stays as it was isn't written, which costs more than a look.
fn show(count: &AtomicU64, before: u64, after: u64) {
    if before != after {
        count.store(after, Ordering::SeqCst);
    }
}

/// Raises a count.
pub(crate) fn add(count: &AtomicU64, more: u64) {
    if more > 0 {
        let _ = count.fetch_add(more, Ordering::SeqCst);
    }
}

/// The number of which this is one more; `None` of 0.
fn number_before(after: u64) -> Option<u16> {
    u16::try_from(after.checked_sub(1)?).ok()
}

/// One more than a number; 0 of none.
fn number_after(number: Option<u16>) -> u64 {
    match number {
        Some(number) => u64::from(number) + 1,
        None => 0,
    }
}
