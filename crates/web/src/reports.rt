//! What reports say of loss, jitter and round trip, by a unit's lines for `reports`.

ghost use Rattle.std.specs.Prelude.{◌≡◌, ◌++◌, IfOk, OnOk, flat_map, map};
ghost use Rattle.web.specs.Reports.{ago_of, fraction_in, fraction_of, is_about, jitter_of, leg_report, leg_reported, line_reports, publisher_report, publisher_reported, report_of, reports_in, trip_of, words_report};

use request_text::{is_word, lines, number_u16, number_u64, word_at, words_of};
use std::alloc::{AllocError, Global};

/// What a report is about.
#[derive(Clone, Copy)]
pub(crate) enum About {
    /// What the subscriber of the leg with this number receives on it.
    Leg(u16),
    /// What the unit receives from the publisher at the endpoint with this number.
    Publisher(u16),
}

/// The last report block about somebody (RFC 3550, section 6.4.1).
#[derive(Clone, Copy)]
pub(crate) struct ReceptionLine {
    pub about: About,
    /// The share lost since the block before, of 256.
    pub fraction: u8,
    /// In units of the RTP timestamp.
    pub jitter: u64,
    /// In milliseconds; `None` before any is known.
    pub round_trip_ms: Option<u64>,
    /// How many milliseconds before the answer it passed.
    pub ago_ms: Option<u64>,
}

/// The reports that an answer to `reports` tells of. A line that tells of none is passed over.
pub(crate) fn reports_in(alloc: Global, text: &[u8]) -> Result<Vec<ReceptionLine>, AllocError>
    ensures { IfOk result (λ reports. reports.items ≡ reports_in text.now) }
{
    let lines = lines(alloc, text)?;
    reports_of(alloc, lines.as_slice())
}

fn reports_of(alloc: Global, lines: &[&[u8]]) -> Result<Vec<ReceptionLine>, AllocError>
    ensures { IfOk result
        (λ reports. reports.items ≡ flat_map (λ x. line_reports x.now) lines.now) }
{
    let mut reports = Vec::new(alloc);
    for line in lines {
        push_report(alloc, &mut reports, line)?;
    }
    Ok(reports)
}

fn push_report(
    alloc: Global,
    reports: &mut Vec<ReceptionLine>,
    line: &[u8],
) -> Result<(), AllocError>
    ensures { OnOk result (reports.new.items ≡ reports.old.items ++ line_reports line.now) }
{
    let words = words_of(alloc, line)?;
    match words_report(words.as_slice()) {
        Some(report) => Ok(reports.push(report)?),
        None => Ok(()),
    }
}

/// The report that these words tell of.
fn words_report(words: &[&[u8]]) -> Option<ReceptionLine>
    ensures { result ≡ words_report (map (λ x. x.now) words.now) }
{
    if is_word(word_at(words, 0), b"leg") {
        leg_report(words)
    } else if is_word(word_at(words, 0), b"publisher") {
        publisher_report(words)
    } else {
        None
    }
}

fn leg_report(words: &[&[u8]]) -> Option<ReceptionLine>
    ensures { result ≡ leg_report (map (λ x. x.now) words.now) }
{
    Some(ReceptionLine {
        about: About::Leg(number_u16(word_at(words, 1))?),
        fraction: fraction_in(word_at(words, 7))?,
        jitter: number_u64(word_at(words, 11))?,
        round_trip_ms: number_u64(word_at(words, 13)),
        ago_ms: number_u64(word_at(words, 15)),
    })
}

fn publisher_report(words: &[&[u8]]) -> Option<ReceptionLine>
    ensures { result ≡ publisher_report (map (λ x. x.now) words.now) }
{
    Some(ReceptionLine {
        about: About::Publisher(number_u16(word_at(words, 1))?),
        fraction: fraction_in(word_at(words, 3))?,
        jitter: number_u64(word_at(words, 7))?,
        round_trip_ms: None,
        ago_ms: number_u64(word_at(words, 9)),
    })
}

fn fraction_in(word: &[u8]) -> Option<u8>
    ensures { result ≡ fraction_in word.now }
{
    let number = number_u64(word)?;
    u8::try_from(number).ok()
}

/// The report about this, if there is one.
fn report_of(reports: &[ReceptionLine], about: About) -> Option<ReceptionLine>
    ensures { result ≡ report_of reports.now about }
{
    for report in reports {
        if is_about(about, report.about) {
            return Some(*report);
        }
    }
    None
}

/// The report about the leg with this number, if it is one.
pub(crate) fn leg_reported(reports: &[ReceptionLine], number: Option<u16>) -> Option<ReceptionLine>
    ensures { result ≡ leg_reported reports.now number }
{
    report_of(reports, About::Leg(number?))
}

/// The report about the publisher with this number, if it is one.
pub(crate) fn publisher_reported(
    reports: &[ReceptionLine],
    number: Option<u16>,
) -> Option<ReceptionLine>
    ensures { result ≡ publisher_reported reports.now number }
{
    report_of(reports, About::Publisher(number?))
}

/// The round trip, if it is known.
pub(crate) fn trip_of(report: Option<ReceptionLine>) -> Option<u64>
    ensures { result ≡ trip_of report }
{
    report?.round_trip_ms
}

/// How long ago it passed.
pub(crate) fn ago_of(report: Option<ReceptionLine>) -> Option<u64>
    ensures { result ≡ ago_of report }
{
    report?.ago_ms
}

/// The share that was lost, of 256.
pub(crate) fn fraction_of(report: Option<ReceptionLine>) -> Option<u64>
    ensures { result ≡ fraction_of report }
{
    Some(u64::from(report?.fraction))
}

/// The jitter.
pub(crate) fn jitter_of(report: Option<ReceptionLine>) -> Option<u64>
    ensures { result ≡ jitter_of report }
{
    Some(report?.jitter)
}

fn is_about(one: About, other: About) -> bool
    ensures { result ≡ is_about one other }
{
    match one {
        About::Leg(number) => is_leg(other, number),
        About::Publisher(number) => is_publisher(other, number),
    }
}

fn is_leg(about: About, number: u16) -> bool
    ensures { result ≡ is_about (About.Leg number) about }
{
    match about {
        About::Leg(it) => it == number,
        About::Publisher(_) => false,
    }
}

fn is_publisher(about: About, number: u16) -> bool
    ensures { result ≡ is_about (About.Publisher number) about }
{
    match about {
        About::Leg(_) => false,
        About::Publisher(it) => it == number,
    }
}
