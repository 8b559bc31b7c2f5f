//! Metrics of a unit as a whole.

ghost use Rattle.std.specs.Prelude.{◌≡◌, ◌++◌, OnOk};
ghost use Rattle.std.specs.String.{string_bytes};
ghost use Rattle.stats.specs.UnitFigures.{build_text, start_line, start_text, total_line, total_text, unit_head, unit_help, unit_kind, unit_name, version_line};

use crate::metrics::{Metric, MetricType, push_help, push_type};
use crate::report_figures::push_seconds;
use std::alloc::AllocError;

/// A figure of a unit.
#[derive(Clone, Copy, PartialEq, Eq)]
pub enum UnitFigure {
    /// The version of its program; its value is 1.
    BuildInfo,
    /// When it began.
    StartTime,
    JobsLost,
    JobsDropped,
    Strangers,
    Unread,
    Far,
    ResendsHeld,
    EntriesBeyond,
    Stalled,
}

impl UnitFigure {
    /// The metric's name.
    pub fn name(self) -> &'static str
        ensures { result.now ≡ unit_name self }
    {
        match self {
            UnitFigure::BuildInfo => "sfu_build_info",
            UnitFigure::StartTime => "process_start_time_seconds",
            UnitFigure::JobsLost => "sfu_jobs_lost_total",
            UnitFigure::JobsDropped => "sfu_jobs_dropped_total",
            UnitFigure::Strangers => "sfu_strangers_total",
            UnitFigure::Unread => "sfu_unread_total",
            UnitFigure::Far => "sfu_far_total",
            UnitFigure::ResendsHeld => "sfu_resends_held_total",
            UnitFigure::EntriesBeyond => "sfu_entries_beyond_total",
            UnitFigure::Stalled => "sfu_stalled_milliseconds_total",
        }
    }

    /// What the metric is.
    pub fn help(self) -> &'static str
        ensures { result.now ≡ unit_help self }
    {
        match self {
            UnitFigure::BuildInfo => "The version of the program.",
            UnitFigure::StartTime => "When the unit began, in seconds since 1970 (UTC).",
            UnitFigure::JobsLost => "Jobs for which a worker's ring had no room.",
            UnitFigure::JobsDropped => {
                "Jobs and notifications that were given up for want of memory or of a view."
            }
            UnitFigure::Strangers => "Datagrams, or packets of one, that came from nobody.",
            UnitFigure::Unread => "Datagrams that the system dropped at the unit's sockets.",
            UnitFigure::Far => "Packets whose number was far from the highest of their source.",
            UnitFigure::ResendsHeld => "Packets that were asked for again, too soon or too many.",
            UnitFigure::EntriesBeyond => {
                "Entries of feedback beyond those that may be asked for in a datagram."
            }
            UnitFigure::Stalled => "Milliseconds that the unit slept through, and doesn't count.",
        }
    }

    /// What its value does.
    pub fn kind(self) -> MetricType
        ensures { result ≡ unit_kind self }
    {
        match self {
            UnitFigure::BuildInfo => MetricType::Gauge,
            UnitFigure::StartTime => MetricType::Gauge,
            UnitFigure::JobsLost => MetricType::Counter,
            UnitFigure::JobsDropped => MetricType::Counter,
            UnitFigure::Strangers => MetricType::Counter,
            UnitFigure::Unread => MetricType::Counter,
            UnitFigure::Far => MetricType::Counter,
            UnitFigure::ResendsHeld => MetricType::Counter,
            UnitFigure::EntriesBeyond => MetricType::Counter,
            UnitFigure::Stalled => MetricType::Counter,
        }
    }
}

/// Appends a figure with this value as a metric. Refused for want of memory alone; then part of it may stand there.
pub fn push_total(text: &mut String, figure: UnitFigure, value: u64) -> Result<(), AllocError>
    ensures { OnOk result
        (string_bytes text.new ≡ string_bytes text.old ++ total_text figure value) }
{
    push_head(text, figure)?;
    push_total_line(text, figure.name(), value)
}

/// Appends the version of the unit's program as a metric. Refused for want of memory alone; then part of it may stand there.
pub fn push_build_info(text: &mut String, version: &str) -> Result<(), AllocError>
    ensures { OnOk result (string_bytes text.new ≡ string_bytes text.old ++ build_text version.now) }
{
    push_head(text, UnitFigure::BuildInfo)?;
    push_version(text, UnitFigure::BuildInfo.name(), version)
}

/// Appends when the unit began, in milliseconds since 1970 (UTC), as a metric. Refused for want of memory alone; then part of it may stand
/// there.
pub fn push_start_time(text: &mut String, unix_ms: u64) -> Result<(), AllocError>
    ensures { OnOk result (string_bytes text.new ≡ string_bytes text.old ++ start_text unix_ms) }
{
    push_head(text, UnitFigure::StartTime)?;
    push_start_line(text, UnitFigure::StartTime.name(), unix_ms)
}

fn push_start_line(text: &mut String, name: &str, unix_ms: u64) -> Result<(), AllocError>
    ensures { OnOk result
        (string_bytes text.new ≡ string_bytes text.old ++ start_line name.now unix_ms) }
{
    text.push_str(name)?;
    text.push_str(" ")?;
    push_seconds(text, unix_ms)?;
    text.push_str("\n")
}

/// What the metric is, and what its value does.
fn push_head(text: &mut String, figure: UnitFigure) -> Result<(), AllocError>
    ensures { OnOk result (string_bytes text.new ≡ string_bytes text.old ++ unit_head figure) }
{
    let metric = Metric {
        name: figure.name(),
        help: figure.help(),
        kind: figure.kind(),
    };
    push_help(text, &metric)?;
    push_type(text, &metric)
}

fn push_total_line(text: &mut String, name: &str, value: u64) -> Result<(), AllocError>
    ensures { OnOk result
        (string_bytes text.new ≡ string_bytes text.old ++ total_line name.now value) }
{
    write!(text, "{name} {value}\n")
}

fn push_version(text: &mut String, name: &str, version: &str) -> Result<(), AllocError>
    ensures { OnOk result
        (string_bytes text.new ≡ string_bytes text.old ++ version_line name.now version.now) }
{
    write!(text, "{name}{{version=\"{version}\"}} 1\n")
}
