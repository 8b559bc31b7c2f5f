//! What is answered to who asks for reports, refusals or strangers.

use addresses::Strangers;
use control_protocol::stranger_line;
use stats::{LegLine, Traffic, leg_report_line, publisher_report_line, push_refusal_lines};
use std::alloc::{AllocError, Global};

/// What was refused of what came: a line for each endpoint and reason.
pub(crate) fn refusals_text(alloc: Global, traffic: &Traffic) -> Result<String, AllocError> {
    let mut text = String::new(alloc);
    let counts = traffic.refusals(alloc)?;
    push_refusal_lines(&mut text, counts.as_slice())?;
    Ok(text)
}

/// What reports say that are shown at this moment: a line for each leg that was reported on, then one for each publisher.
pub(crate) fn reports_text(
    alloc: Global,
    legs: &[LegLine],
    traffic: &Traffic,
    moment: u64,
) -> Result<String, AllocError> {
    let mut text = String::new(alloc);
    push_leg_reports(alloc, &mut text, legs, traffic, moment)?;
    push_publisher_reports(alloc, &mut text, traffic, moment)?;
    Ok(text)
}

/// A line for each leg that was reported on.
fn push_leg_reports(
    alloc: Global,
    text: &mut String,
    legs: &[LegLine],
    traffic: &Traffic,
    moment: u64,
) -> Result<(), AllocError> {
    let reports = traffic.leg_reports(alloc, moment)?;
    for numbered in reports.iter() {
        if let Some(line) = legs.get(usize::from(numbered.number)) {
            let told = leg_report_line(alloc, *line, &numbered.report, moment)?;
            text.push_str(told.as_str())?;
        }
    }
    Ok(())
}

/// A line for each publisher that the unit reported on.
fn push_publisher_reports(
    alloc: Global,
    text: &mut String,
    traffic: &Traffic,
    moment: u64,
) -> Result<(), AllocError> {
    let reports = traffic.publisher_reports(alloc, moment)?;
    for numbered in reports.iter() {
        let told = publisher_report_line(alloc, numbered.number, &numbered.report, moment)?;
        text.push_str(told.as_str())?;
    }
    Ok(())
}

/// A line for each stranger, the latest first.
pub(crate) fn strangers_text(
    alloc: Global,
    strangers: &Strangers,
    moment: u64,
) -> Result<String, AllocError> {
    let mut text = String::new(alloc);
    for stranger in strangers.latest() {
        let ago_ms = moment.saturating_sub(stranger.moment);
        let line = stranger_line(alloc, stranger.address, stranger.count, ago_ms)?;
        text.push_str(line.as_str())?;
    }
    Ok(text)
}
