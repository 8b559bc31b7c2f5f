//! What report blocks say of the reception of a stream, and the round trip by them (RFC 3550, section 6.4.1).

ghost use Rattle.std.specs.Prelude.{◌≡◌};
ghost use Rattle.rtcp_compound.specs.Report.{block_of};
ghost use Rattle.stats.specs.Reports.{held_ms, interval_after, lsr_of, newer_trip, round_trip, shown_for, trip_by, trip_in};

use rtcp_compound::Block;

/// So many milliseconds a report is shown at least.
pub const SHOWN_MS: u64 = 15_000;

/// So many values has a word of 32 bits.
pub(crate) const WORD_VALUES: u64 = 1 << 32;

/// A sender report that was sent.
#[derive(Clone, Copy, PartialEq, Eq)]
pub struct SentReport {
    /// By what report blocks name it, as LSR: the middle 32 bits of its NTP timestamp.
    pub lsr: u32,
    /// When it was sent, in milliseconds modulo 2^32.
    pub moment: u32,
}

/// What was last reported of the reception of a stream.
#[derive(Clone, Copy, Debug, PartialEq, Eq)]
pub struct ReceptionReport {
    /// The share of packets lost since the report before, in 256ths. 0 if none was lost, or more came than were expected.
    pub fraction: u8,
    /// Packets lost since reception began, -8,388,608 to 8,388,607. Below 0 if more came than were expected.
    pub lost: i32,
    /// How much the time between packets varies, in units of the RTP timestamp.
    pub jitter: u32,
    /// The round trip in milliseconds; `None` before one is known.
    pub round_trip_ms: Option<u32>,
    /// When the report passed, in milliseconds.
    pub moment: u64,
    /// How many milliseconds lie between two such reports: between the last two, or as the unit makes its own. 0 if there was one alone.
    pub interval_ms: u64,
}

impl ReceptionReport {
    ghost use Rattle.std.specs.Prelude.{◌≡◌};
    ghost use Rattle.rtcp_compound.specs.Report.{block_of};
    ghost use Rattle.stats.specs.Reports.{age_of, is_shown, report_after};

    /// What is known after this block, which passes at this moment, if `before` was known, and `sent` is the last sender report that was
    /// sent on the stream. Such reports are `each_ms` milliseconds apart, or `None` if that has to be seen.
    pub fn after(
        before: Option<ReceptionReport>,
        block: &Block,
        sent: Option<SentReport>,
        each_ms: Option<u64>,
        moment: u64,
    ) -> ReceptionReport
        ensures { result ≡ report_after before (block_of block.now) sent each_ms moment }
    {
        ReceptionReport {
            fraction: block.fraction,
            lost: block.lost,
            jitter: block.jitter,
            round_trip_ms: newer_trip(trip_by(sent, block, moment), trip_in(before)),
            moment,
            interval_ms: interval_after(each_ms, before, moment),
        }
    }

    /// How many milliseconds before this moment the report passed.
    pub fn age_ms(&self, moment: u64) -> u64
        ensures { result ≡ age_of self.now moment }
    {
        moment.saturating_sub(self.moment)
    }

    /// Whether the report is still shown at this moment: for three of its intervals, and for `SHOWN_MS` at least.
    pub fn is_shown(&self, moment: u64) -> bool
        ensures { result ≡ is_shown self.now moment }
    {
        u128::from(self.age_ms(moment)) <= shown_for(self)
    }
}

/// For how many milliseconds a report is shown.
fn shown_for(report: &ReceptionReport) -> u128
    ensures { result ≡ shown_for report.now }
{
    u128::from(SHOWN_MS).max(3 * u128::from(report.interval_ms))
}

/// How many milliseconds lie between two reports, if one passes at this moment: so many, or since the one before.
fn interval_after(each_ms: Option<u64>, before: Option<ReceptionReport>, moment: u64) -> u64
    ensures { result ≡ interval_after each_ms before moment }
{
    match each_ms {
        Some(each_ms) => each_ms,
        None => match before {
            Some(report) => report.age_ms(moment),
            None => 0,
        },
    }
}

/// The round trip by this block, if `sent` is the last sender report.
fn trip_by(sent: Option<SentReport>, block: &Block, moment: u64) -> Option<u32>
    ensures { result ≡ trip_by sent (block_of block.now) moment }
{
    match sent {
        Some(sent) => round_trip(sent, block, (moment % WORD_VALUES) as u32),
        None => None,
    }
}

/// The round trip that is known of a report.
fn trip_in(report: Option<ReceptionReport>) -> Option<u32>
    ensures { result ≡ trip_in report }
{
    match report {
        Some(report) => report.round_trip_ms,
        None => None,
    }
}

/// The newer of two round trips, if it is known.
fn newer_trip(newer: Option<u32>, before: Option<u32>) -> Option<u32>
    ensures { result ≡ newer_trip newer before }
{
    match newer {
        Some(trip) => Some(trip),
        None => before,
    }
}

/// The round trip by this block, which comes at this moment modulo 2^32, if it names this sender report.
fn round_trip(sent: SentReport, block: &Block, moment: u32) -> Option<u32>
    ensures { result ≡ round_trip sent (block_of block.now) moment }
{
    if block.last_sr != 0 && block.last_sr == sent.lsr {
        moment
            .wrapping_sub(sent.moment)
            .checked_sub(held_ms(block.delay))
    } else {
        None
    }
}

/// How long the receiver had the sender report by then, in whole milliseconds.
fn held_ms(delay: u32) -> u32
    ensures { result ≡ held_ms delay }
{
    (u64::from(delay) * 1000 / 65536) as u32
}

/// By what report blocks name a sender report with this NTP timestamp.
pub(crate) fn lsr_of(ntp: u64) -> u32
    ensures { result ≡ lsr_of ntp }
{
    (ntp / (1 << 16) % WORD_VALUES) as u32
}
