//! The lines of reports for people.

ghost use Rattle.std.specs.Prelude.{◌≡◌, ◌++◌, IfOk, OnOk};
ghost use Rattle.std.specs.String.{string_bytes};
ghost use Rattle.stats.specs.ReportLines.{ago_part, line_of_leg_report, line_of_publisher_report, reception_part, reported_leg, trip_part};

use crate::lines::LegLine;
use crate::reports::ReceptionReport;
use std::alloc::{AllocError, Global};

/// The line of what the subscriber of this leg reported: the loss, the jitter, the round trip if it is known, and how many milliseconds before
/// this moment that was. Refused for want of memory alone.
pub fn leg_report_line(
    alloc: Global,
    line: LegLine,
    report: &ReceptionReport,
    moment: u64,
) -> Result<String, AllocError>
    ensures { IfOk result (λ text. string_bytes text ≡ line_of_leg_report line report.now moment) }
{
    let mut text = reported_leg(alloc, line)?;
    push_reception(&mut text, report)?;
    push_trip(&mut text, report.round_trip_ms)?;
    text.push_str(" heard ")?;
    push_ago(&mut text, report, moment)?;
    Ok(text)
}

/// The line of what the unit reported to this publisher: the loss, the jitter, and how many milliseconds before this moment that was. Refused
/// for want of memory alone.
pub fn publisher_report_line(
    alloc: Global,
    publisher: u16,
    report: &ReceptionReport,
    moment: u64,
) -> Result<String, AllocError>
    ensures { IfOk result (λ text. string_bytes text
        ≡ line_of_publisher_report publisher report.now moment) }
{
    let mut text = format!(in alloc; "publisher {publisher}")?;
    push_reception(&mut text, report)?;
    text.push_str(" sent ")?;
    push_ago(&mut text, report, moment)?;
    Ok(text)
}

/// Which leg it is.
fn reported_leg(alloc: Global, line: LegLine) -> Result<String, AllocError>
    ensures { IfOk result (λ text. string_bytes text ≡ reported_leg line) }
{
    format!(in alloc;
        "leg {} from {} to {}",
        line.leg, line.publisher, line.subscriber
    )
}

/// What was lost, and the jitter.
fn push_reception(text: &mut String, report: &ReceptionReport) -> Result<(), AllocError>
    ensures { OnOk result
        (string_bytes text.new ≡ string_bytes text.old ++ reception_part report.now) }
{
    write!(
        text,
        " fraction {} lost {} jitter {}",
        report.fraction, report.lost, report.jitter,
    )
}

/// The round trip.
fn push_trip(text: &mut String, trip: Option<u32>) -> Result<(), AllocError>
    ensures { OnOk result (string_bytes text.new ≡ string_bytes text.old ++ trip_part trip) }
{
    match trip {
        Some(trip) => write!(text, " round_trip_ms {trip}"),
        None => text.push_str(" round_trip_ms none"),
    }
}

/// How long ago the report passed.
fn push_ago(text: &mut String, report: &ReceptionReport, moment: u64) -> Result<(), AllocError>
    ensures { OnOk result
        (string_bytes text.new ≡ string_bytes text.old ++ ago_part report.now moment) }
{
    let ago_ms = report.age_ms(moment);
    write!(text, "{ago_ms} ms ago\n")
}
