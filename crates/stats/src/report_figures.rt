//! What reports say, as metrics.

ghost use Rattle.std.specs.Prelude.{◌≡◌, ◌++◌, flat_map, option_map, OnOk};
ghost use Rattle.std.specs.String.{string_bytes};
ghost use Rattle.stats.specs.ReportFigures.{clock_us, four_digits, jitter_value, microseconds_text, ratio_text, metric_value_line, metric_value_of, reading_start, metric_value_text, report_figure_help, report_figure_name, report_figure_text, report_figures_text, report_line, seconds_text, three_digits};
ghost use Rattle.stats.specs.Subjects.{clock_at, labels_at};
ghost use Rattle.stats.specs.declared.report_figures.MetricValue.TheVariants.{Milliseconds};

use crate::metrics::{Metric, MetricType, push_help, push_type};
use crate::numbered_report::NumberedReport;
use crate::reports::ReceptionReport;
use crate::subjects::{Subject, Subjects, clock_at, labels_at};
use std::alloc::AllocError;

/// A figure of a report: of a leg, by its subscriber; or of a publisher, by the unit.
#[derive(Clone, Copy, PartialEq, Eq)]
pub enum ReportFigure {
    LegLossRatio,
    LegLostPackets,
    LegJitter,
    LegRoundTrip,
    LegReportAge,
    PublisherLossRatio,
    PublisherLostPackets,
    PublisherJitter,
    PublisherReportAge,
}

/// A value of a figure.
#[derive(Clone, Copy, Debug, PartialEq, Eq)]
pub enum MetricValue {
    /// So many 256ths of 1.
    Parts(u8),
    /// So many packets; below 0 if more came than were expected.
    Packets(i32),
    /// So many microseconds, told in seconds.
    Microseconds(u64),
    /// So many milliseconds, told in seconds.
    Milliseconds(u64),
}

/// The figures of a leg, in the order in which they are told.
const LEG_FIGURES: [ReportFigure; 5] = [
    ReportFigure::LegLossRatio,
    ReportFigure::LegLostPackets,
    ReportFigure::LegJitter,
    ReportFigure::LegRoundTrip,
    ReportFigure::LegReportAge,
];

/// Those of a publisher.
const PUBLISHER_FIGURES: [ReportFigure; 4] = [
    ReportFigure::PublisherLossRatio,
    ReportFigure::PublisherLostPackets,
    ReportFigure::PublisherJitter,
    ReportFigure::PublisherReportAge,
];

impl ReportFigure {
    /// What it is by this report of media with this clock, at this moment; `None` if that isn't known.
    pub fn of(
        self,
        report: &ReceptionReport,
        clock_rate: Option<u32>,
        moment: u64,
    ) -> Option<MetricValue>
        ensures { result ≡ metric_value_of self report.now clock_rate moment }
    {
        match self {
            ReportFigure::LegLossRatio => Some(MetricValue::Parts(report.fraction)),
            ReportFigure::LegLostPackets => Some(MetricValue::Packets(report.lost)),
            ReportFigure::LegJitter => jitter_value(report.jitter, clock_rate),
            ReportFigure::LegRoundTrip => trip_value(report.round_trip_ms),
            ReportFigure::LegReportAge => Some(MetricValue::Milliseconds(report.age_ms(moment))),
            ReportFigure::PublisherLossRatio => Some(MetricValue::Parts(report.fraction)),
            ReportFigure::PublisherLostPackets => Some(MetricValue::Packets(report.lost)),
            ReportFigure::PublisherJitter => jitter_value(report.jitter, clock_rate),
            ReportFigure::PublisherReportAge => Some(MetricValue::Milliseconds(report.age_ms(
                moment,
            ))),
        }
    }

    /// The metric's name.
    pub fn name(self) -> &'static str
        ensures { result.now ≡ report_figure_name self }
    {
        match self {
            ReportFigure::LegLossRatio => "sfu_leg_reported_loss_ratio",
            ReportFigure::LegLostPackets => "sfu_leg_reported_lost_packets",
            ReportFigure::LegJitter => "sfu_leg_reported_jitter_seconds",
            ReportFigure::LegRoundTrip => "sfu_leg_round_trip_seconds",
            ReportFigure::LegReportAge => "sfu_leg_report_age_seconds",
            ReportFigure::PublisherLossRatio => "sfu_publisher_reported_loss_ratio",
            ReportFigure::PublisherLostPackets => "sfu_publisher_reported_lost_packets",
            ReportFigure::PublisherJitter => "sfu_publisher_reported_jitter_seconds",
            ReportFigure::PublisherReportAge => "sfu_publisher_report_age_seconds",
        }
    }

    /// What the metric is.
    pub fn help(self) -> &'static str
        ensures { result.now ≡ report_figure_help self }
    {
        match self {
            ReportFigure::LegLossRatio => {
                "The share of packets lost that the subscriber reported last."
            }
            ReportFigure::LegLostPackets => "The packets lost that the subscriber reported last.",
            ReportFigure::LegJitter => "The jitter that the subscriber reported last.",
            ReportFigure::LegRoundTrip => "The round trip to the subscriber, by its reports.",
            ReportFigure::LegReportAge => "How long ago the subscriber reported last.",
            ReportFigure::PublisherLossRatio => {
                "The share of packets lost that the unit reported last."
            }
            ReportFigure::PublisherLostPackets => "The packets lost that the unit reported last.",
            ReportFigure::PublisherJitter => "The jitter that the unit reported last.",
            ReportFigure::PublisherReportAge => "How long ago the unit reported last.",
        }
    }
}

/// A round trip as a value.
fn trip_value(trip_ms: Option<u32>) -> Option<MetricValue>
    ensures { result ≡ option_map Milliseconds trip_ms }
{
    match trip_ms {
        Some(trip) => Some(MetricValue::Milliseconds(u64::from(trip))),
        None => None,
    }
}

/// A jitter as a value, by the clock whose units it is in.
fn jitter_value(units: u32, clock_rate: Option<u32>) -> Option<MetricValue>
    ensures { result ≡ jitter_value units clock_rate }
{
    let microseconds = clock_us(units, clock_rate?)?;
    Some(MetricValue::Microseconds(microseconds))
}

/// So many units of a clock in microseconds, rounded down; none of a clock that stands still.
fn clock_us(units: u32, rate: u32) -> Option<u64>
    ensures { result ≡ clock_us units rate }
{
    if rate == 0 {
        return None;
    }
    Some(u64::from(units) * 1_000_000 / u64::from(rate))
}

/// Appends every figure of these reports, at this moment, as a metric: what subscribers report of legs, and what the unit reports of
/// publishers. Refused for want of memory alone; then part of them may stand there.
pub fn push_report_figures(
    text: &mut String,
    subjects: Subjects<'_>,
    legs: &[NumberedReport],
    publishers: &[NumberedReport],
    moment: u64,
) -> Result<(), AllocError>
    ensures { OnOk result (string_bytes text.new ≡ string_bytes text.old
        ++ report_figures_text moment subjects.entry.endpoints.now subjects.entry.legs.now legs.now publishers.now) }
{
    push_each_figure(text, &LEG_FIGURES, subjects.legs, legs, moment)?;
    push_each_figure(
        text,
        &PUBLISHER_FIGURES,
        subjects.endpoints,
        publishers,
        moment,
    )
}

/// These figures of these reports.
fn push_each_figure(
    text: &mut String,
    figures: &[ReportFigure],
    subjects: &[Subject],
    reports: &[NumberedReport],
    moment: u64,
) -> Result<(), AllocError>
    ensures { OnOk result (string_bytes text.new ≡ string_bytes text.old
        ++ flat_map (λ f. report_figure_text f moment subjects.now reports.now) figures.now) }
{
    for figure in figures {
        push_figure(text, *figure, subjects, reports, moment)?;
    }
    Ok(())
}

/// A figure of these reports.
fn push_figure(
    text: &mut String,
    figure: ReportFigure,
    subjects: &[Subject],
    reports: &[NumberedReport],
    moment: u64,
) -> Result<(), AllocError>
    ensures { OnOk result (string_bytes text.new
        ≡ string_bytes text.old ++ report_figure_text figure moment subjects.now reports.now) }
{
    let metric = Metric {
        name: figure.name(),
        help: figure.help(),
        kind: MetricType::Gauge,
    };
    push_help(text, &metric)?;
    push_type(text, &metric)?;
    push_readings(text, figure, subjects, reports, moment)
}

/// Its values.
fn push_readings(
    text: &mut String,
    figure: ReportFigure,
    subjects: &[Subject],
    reports: &[NumberedReport],
    moment: u64,
) -> Result<(), AllocError>
    ensures { OnOk result (string_bytes text.new
        ≡ string_bytes text.old ++ flat_map (report_line figure moment subjects.now) reports.now) }
{
    for numbered in reports {
        push_reading(text, figure, subjects, *numbered, moment)?;
    }
    Ok(())
}

/// Its value of one leg, or of one publisher, by its last report.
fn push_reading(
    text: &mut String,
    figure: ReportFigure,
    subjects: &[Subject],
    numbered: NumberedReport,
    moment: u64,
) -> Result<(), AllocError>
    ensures { OnOk result (string_bytes text.new
        ≡ string_bytes text.old ++ report_line figure moment subjects.now numbered) }
{
    let clock_rate = clock_at(subjects, numbered.number);
    let reading = figure.of(&numbered.report, clock_rate, moment);
    push_line(text, figure, labels_at(subjects, numbered.number), reading)
}

/// The line of a value, if there is one.
fn push_line(
    text: &mut String,
    figure: ReportFigure,
    labels: &str,
    reading: Option<MetricValue>,
) -> Result<(), AllocError>
    ensures { OnOk result (string_bytes text.new
        ≡ string_bytes text.old ++ metric_value_line figure labels.now reading) }
{
    match reading {
        Some(reading) => {
            push_start(text, figure, labels)?;
            push_metric_value(text, reading)?;
            text.push_str("\n")
        }
        None => Ok(()),
    }
}

/// The metric, and of whom it is.
fn push_start(text: &mut String, figure: ReportFigure, labels: &str) -> Result<(), AllocError>
    ensures { OnOk result
        (string_bytes text.new ≡ string_bytes text.old ++ reading_start figure labels.now) }
{
    write!(text, "{}{{{labels}}} ", figure.name())
}

/// A value.
fn push_metric_value(text: &mut String, reading: MetricValue) -> Result<(), AllocError>
    ensures { OnOk result
        (string_bytes text.new ≡ string_bytes text.old ++ metric_value_text reading) }
{
    match reading {
        MetricValue::Parts(parts) => push_ratio(text, parts),
        MetricValue::Packets(packets) => write!(text, "{packets}"),
        MetricValue::Microseconds(us) => push_microseconds(text, us),
        MetricValue::Milliseconds(ms) => push_seconds(text, ms),
    }
}

/// So many 256ths of 1.
fn push_ratio(text: &mut String, parts: u8) -> Result<(), AllocError>
    ensures { OnOk result (string_bytes text.new ≡ string_bytes text.old ++ ratio_text parts) }
{
    let digits = u32::from(parts) * 390_625;
    text.push_str("0.")?;
    push_four(text, digits / 10_000)?;
    push_four(text, digits % 10_000)
}

/// So many microseconds in seconds.
fn push_microseconds(text: &mut String, us: u64) -> Result<(), AllocError>
    ensures { OnOk result (string_bytes text.new ≡ string_bytes text.old ++ microseconds_text us) }
{
    write!(text, "{}.", us / 1_000_000)?;
    push_three(text, us / 1000)?;
    push_three(text, us)
}

/// So many milliseconds in seconds.
pub(crate) fn push_seconds(text: &mut String, ms: u64) -> Result<(), AllocError>
    ensures { OnOk result (string_bytes text.new ≡ string_bytes text.old ++ seconds_text ms) }
{
    write!(text, "{}.", ms / 1000)?;
    push_three(text, ms)
}

/// The last four digits of a number.
fn push_four(text: &mut String, number: u32) -> Result<(), AllocError>
    ensures { OnOk result (string_bytes text.new ≡ string_bytes text.old ++ four_digits number) }
{
    write!(text, "{}", number / 1000 % 10)?;
    push_three(text, u64::from(number))
}

/// The last three digits of a number.
fn push_three(text: &mut String, number: u64) -> Result<(), AllocError>
    ensures { OnOk result (string_bytes text.new ≡ string_bytes text.old ++ three_digits number) }
{
    write!(
        text,
        "{}{}{}",
        number / 100 % 10,
        number / 10 % 10,
        number % 10
    )
}
