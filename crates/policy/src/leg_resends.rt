//! Which NACKed packets are admitted on a leg: not too soon, and not too many in a second.

ghost use Rattle.std.specs.Prelude.{◌≡◌, ◌*◌, slice_get, slice_set, IfOk, Some};
ghost use Rattle.policy.specs.LegResends.{flow_at, gap_by, is_due, most_at, most_of, place_of, second_of};

use std::alloc::{AllocError, Global};
use std::marker::Model;

/// How many numbers of a leg are remembered, each at the place that it has modulo this. A leg keeps no more packets, so that of numbers
/// that follow each other none that is still kept is forgotten.
pub const REMEMBERED: u16 = 512;

/// Of a round trip that is longer only so many milliseconds count: it follows from what the subscriber says itself.
pub const MAX_TRIP_MS: u32 = 1000;

/// The length of the second in which resends are counted, in milliseconds.
const SECOND_MS: u64 = 1000;

/// How resends are bounded, on each leg by itself.
#[derive(Clone, Copy, PartialEq, Eq)]
pub struct ResendBounds {
    /// How many milliseconds lie at least between two admitted resends of a packet; the round trip to the subscriber, if that is known and
    /// longer. 0: none.
    pub gap_ms: u64,
    /// In a second no more are admitted than so many percent of the packets that came. 0: any number.
    pub share: u8,
}

/// A number that was admitted, and the moment, in milliseconds.
#[derive(Clone, Copy, PartialEq, Eq)]
pub(crate) struct Passed {
    pub(crate) seq: u16,
    pub(crate) moment: u64,
}

/// What may be admitted on a leg at a moment.
#[derive(Clone, Copy, PartialEq, Eq)]
pub(crate) struct Allowance {
    /// The number of the leg.
    pub(crate) leg: u16,
    /// The moment, in milliseconds.
    pub(crate) moment: u64,
    /// How long a number has to be admitted before, in milliseconds.
    pub(crate) gap_ms: u64,
    /// How many may be admitted in this second.
    pub(crate) most: u64,
}

/// How long a number has to be admitted before, if this gap is wanted and this round trip is known.
pub(crate) fn gap_by(gap_ms: u64, trip: Option<u32>) -> u64
    ensures { result ≡ gap_by gap_ms trip }
{
    match trip {
        Some(trip) => {
            if gap_ms == 0 {
                0
            } else {
                gap_ms.max(u64::from(trip.min(MAX_TRIP_MS)))
            }
        }
        None => gap_ms,
    }
}

/// How many packets came of a publisher, in a second and in the one before. Each count stays at its greatest.
#[derive(Clone, Copy, PartialEq, Eq)]
pub(crate) struct Flow {
    /// The second, from the beginning of the clock.
    pub(crate) second: u64,
    /// How many came in it.
    pub(crate) packets: u32,
    /// How many came in the second before.
    pub(crate) before: u32,
}

impl Flow {
    ghost use Rattle.std.specs.Prelude.{◌≡◌};
    ghost use Rattle.policy.specs.LegResends.{flow_at, flow_with, most_at};

    /// Nothing came.
    pub(crate) fn new() -> Flow
        ensures { result ≡ record { second = 0; packets = 0; before = 0 } }
    {
        Flow {
            second: 0,
            packets: 0,
            before: 0,
        }
    }

    /// As it stands in this second.
    fn at(self, second: u64) -> Flow
        ensures { result ≡ flow_at self second }
    {
        if self.second == second {
            return self;
        }
        Flow {
            second,
            packets: 0,
            before: if second.saturating_sub(self.second) == 1 {
                self.packets
            } else {
                0
            },
        }
    }

    /// One packet more came at this moment.
    pub(crate) fn with(self, moment: u64) -> Flow
        ensures { result ≡ flow_with self moment }
    {
        let now = self.at(second_of(moment));
        Flow {
            second: now.second,
            packets: now.packets.saturating_add(1),
            before: now.before,
        }
    }

    /// How many may be admitted in the second of this moment on a leg of this publisher, at most so many percent.
    pub(crate) fn most(self, share: u8, moment: u64) -> u64
        ensures { result ≡ most_at share self moment }
    {
        if share == 0 {
            return u64::MAX;
        }
        most_of(share, self.at(second_of(moment)))
    }
}

/// So many percent of the packets that came.
fn most_of(share: u8, flow: Flow) -> u64
    ensures { result ≡ most_of share flow }
{
    percent(share, flow.packets.max(flow.before)) / 100
}

/// So many hundredths of so many packets.
fn percent(share: u8, packets: u32) -> u64
    ensures { result ≡ share * packets }
{
    u64::from(share) * u64::from(packets)
}

/// The second that a moment is in.
fn second_of(moment: u64) -> u64
    ensures { result ≡ second_of moment }
{
    moment / SECOND_MS
}

/// What was admitted on a leg.
#[derive(Drop)]
pub(crate) struct LegResends {
    /// By number modulo `REMEMBERED` the last one that was admitted; no places if nothing is remembered.
    last: Vec<Option<Passed>>,
    /// In which second the last one was admitted, and how many in it.
    second: u64,
    count: u64,
    /// How many were held back.
    held: u64,
}

impl Model for LegResends {
    ghost use Rattle.policy.specs.LegResends.{Book};

    ghost Value = { Book };

    ghost view = { λ b.
        record { last = b.last.items; second = b.second; count = b.count; held = b.held } };
}

impl LegResends {
    ghost use Rattle.std.specs.Prelude.{◌≡◌, IfOk, None, replicate};
    ghost use Rattle.policy.specs.LegResends.{book_noted, count_at, is_resend_admitted};

    /// Nothing was admitted; so many numbers will be remembered.
    pub(crate) fn new(alloc: Global, remembered: usize) -> Result<LegResends, AllocError>
        ensures { IfOk result (λ b. b
            ≡ record { last = replicate remembered None; second = 0; count = 0; held = 0 }) }
    {
        Ok(LegResends {
            last: vec![in alloc; None; remembered]?,
            second: 0,
            count: 0,
            held: 0,
        })
    }

    /// How many were held back.
    pub(crate) fn held(&self) -> u64
        ensures { result ≡ self.now.held }
    {
        self.held
    }

    /// How many were admitted in this second.
    fn count_at(&self, second: u64) -> u64
        ensures { result ≡ count_at self.now second }
    {
        if second == self.second { self.count } else { 0 }
    }

    /// Whether the packet with this number, which is asked for now, is admitted; that is noted.
    pub(crate) fn ask(&mut self, allowance: Allowance, seq: u16) -> bool
        ensures passed { result ≡ is_resend_admitted self.old allowance seq }
        ensures noted { self.new ≡ book_noted result self.old allowance seq }
    {
        let count = self.count_at(second_of(allowance.moment));
        if count >= allowance.most || !is_due(&self.last, allowance, seq) {
            self.held = self.held.saturating_add(1);
            return false;
        }
        remember(
            &mut self.last,
            Passed {
                seq,
                moment: allowance.moment,
            },
        );
        self.second = second_of(allowance.moment);
        self.count = count + 1;
        true
    }
}

/// The place of a number.
fn place_of(seq: u16) -> usize
    ensures { result ≡ place_of seq }
{
    usize::from(seq % REMEMBERED)
}

/// Whether the number is due.
fn is_due(last: &[Option<Passed>], allowance: Allowance, seq: u16) -> bool
    ensures { result ≡ is_due (slice_get last.now (place_of seq)) allowance seq }
{
    let Some(place) = last.get(place_of(seq)).copied() else {
        return true;
    };
    match place {
        Some(passed) => {
            passed.seq != seq || allowance.moment.saturating_sub(passed.moment) >= allowance.gap_ms
        }
        None => true,
    }
}

/// Notes that this one was admitted, if there is a place for it.
fn remember(last: &mut [Option<Passed>], passed: Passed)
    ensures { last.new ≡ slice_set last.old (place_of passed.seq) (Some passed) }
{
    let place = place_of(passed.seq);
    if place < last.len() {
        last[place] = Some(passed);
    }
}
