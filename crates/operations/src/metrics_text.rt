//! The metrics of a unit: what is looked at for them, and their text.

use crate::record_file::VERSION;
use crate::unit_info::UnitInfo;
use control_protocol::{Screened, Unheard};
use ports::Status;
use stats::{
    LegState, Metric, MetricType, Sample, Subject, Subjects, Traffic, UnitFigure, push_build_info,
    push_figures, push_leg_states, push_metric, push_refusal_figures, push_report_figures,
    push_start_time, push_total,
};
use std::alloc::{AllocError, Global};

/// What was seen of a unit.
#[derive(Clone, Copy)]
pub(crate) struct Seen<'a> {
    /// Its totals, if they were shown.
    pub status: Option<Status>,
    /// Whether each endpoint is present, by its number.
    pub present: &'a [bool],
    pub legs: &'a [LegState],
    /// How many datagrams of each endpoint came beyond the limit.
    pub flooded: &'a [u64],
    pub unheard: &'a Unheard,
    pub screened: &'a Screened,
}

/// The metrics of a unit by what was seen of it, what went in and out, and what reports say at this moment. Refused for want of memory alone.
pub(crate) fn metrics_text(
    alloc: Global,
    unit: &UnitInfo,
    seen: &Seen<'_>,
    traffic: &Traffic,
    moment: u64,
) -> Result<String, AllocError> {
    let mut text = String::new(alloc);
    let subjects = unit.subjects();
    push_build_info(&mut text, VERSION)?;
    push_start_time(&mut text, unit.began_ms)?;
    push_present(alloc, &mut text, subjects.endpoints, seen.present)?;
    push_counts(alloc, &mut text, subjects, traffic)?;
    push_leg_states(alloc, &mut text, subjects.legs, seen.legs)?;
    push_reports(alloc, &mut text, subjects, traffic, moment)?;
    let refusals = traffic.refusals(alloc)?;
    push_refusal_figures(&mut text, subjects.endpoints, refusals.as_slice())?;
    push_jobs(&mut text, seen.status)?;
    push_unheard(&mut text, seen.unheard)?;
    push_screened(&mut text, seen.screened)?;
    push_flooded(alloc, &mut text, subjects.endpoints, seen.flooded)?;
    Ok(text)
}

/// Which endpoints are present.
fn push_present(
    alloc: Global,
    text: &mut String,
    subjects: &[Subject],
    present: &[bool],
) -> Result<(), AllocError> {
    let mut samples = Vec::new(alloc);
    for (number, is_present) in present.iter().enumerate() {
        samples.push(Sample {
            number: u16::try_from(number).unwrap_or(u16::MAX),
            value: u64::from(*is_present),
        })?;
    }
    let metric = Metric {
        name: "sfu_endpoint_present",
        help: "Whether the endpoint is present.",
        kind: MetricType::Gauge,
    };
    push_metric(text, &metric, subjects, samples.as_slice())
}

/// What went in and out.
fn push_counts(
    alloc: Global,
    text: &mut String,
    subjects: Subjects<'_>,
    traffic: &Traffic,
) -> Result<(), AllocError> {
    let endpoints = traffic.endpoints(alloc)?;
    let legs = traffic.legs(alloc)?;
    push_figures(alloc, text, subjects, endpoints.as_slice(), legs.as_slice())
}

/// What reports say that are shown at this moment.
fn push_reports(
    alloc: Global,
    text: &mut String,
    subjects: Subjects<'_>,
    traffic: &Traffic,
    moment: u64,
) -> Result<(), AllocError> {
    let legs = traffic.leg_reports(alloc, moment)?;
    let publishers = traffic.publisher_reports(alloc, moment)?;
    push_report_figures(
        text,
        subjects,
        legs.as_slice(),
        publishers.as_slice(),
        moment,
    )
}

/// The jobs that were lost or given up.
fn push_jobs(text: &mut String, status: Option<Status>) -> Result<(), AllocError> {
    match status {
        Some(status) => {
            push_total(text, UnitFigure::JobsLost, status.lost)?;
            push_total(text, UnitFigure::JobsDropped, status.dropped)
        }
        None => Ok(()),
    }
}

/// What came and wasn't heard.
fn push_unheard(text: &mut String, unheard: &Unheard) -> Result<(), AllocError> {
    push_total(text, UnitFigure::Strangers, unheard.strangers)?;
    match unheard.unread {
        Some(unread) => push_total(text, UnitFigure::Unread, unread),
        None => Ok(()),
    }
}

/// What was kept from the machine.
fn push_screened(text: &mut String, screened: &Screened) -> Result<(), AllocError> {
    push_total(text, UnitFigure::Far, screened.far)?;
    push_total(text, UnitFigure::ResendsHeld, screened.held)?;
    push_total(text, UnitFigure::EntriesBeyond, screened.beyond)?;
    push_total(text, UnitFigure::Stalled, screened.stalled)
}

/// What came of each endpoint beyond the limit.
fn push_flooded(
    alloc: Global,
    text: &mut String,
    subjects: &[Subject],
    flooded: &[u64],
) -> Result<(), AllocError> {
    let mut samples = Vec::new(alloc);
    for (number, count) in flooded.iter().enumerate() {
        samples.push(Sample {
            number: u16::try_from(number).unwrap_or(u16::MAX),
            value: *count,
        })?;
    }
    let metric = Metric {
        name: "sfu_endpoint_flooded_total",
        help: "Datagrams beyond the limit of their endpoint, which weren't heard.",
        kind: MetricType::Counter,
    };
    push_metric(text, &metric, subjects, samples.as_slice())
}
