//! Metrics in the text format of Prometheus.

ghost use Rattle.std.specs.Prelude.{◌≡◌, ◌++◌, flat_map, OnOk};
ghost use Rattle.std.specs.String.{string_bytes};
ghost use Rattle.stats.specs.Metrics.{help_line, metric_text, sample_line, type_line, type_word, value_line};

use crate::subjects::{Subject, labels_at};
use std::alloc::AllocError;

/// What a metric's value does.
#[derive(Clone, Copy, PartialEq, Eq)]
pub enum MetricType {
    /// It only rises.
    Counter,
    /// It rises and falls.
    Gauge,
}

/// A metric.
#[derive(Clone, Copy)]
pub struct Metric {
    /// Its name, with its unit, and with `_total` at its end if it only rises.
    pub name: &'static str,
    /// What it is, in a line.
    pub help: &'static str,
    pub kind: MetricType,
}

/// What a metric was of one endpoint, or of one leg.
#[derive(Clone, Copy, PartialEq, Eq)]
pub struct Sample {
    /// The number of the endpoint, or of the leg.
    pub number: u16,
    pub value: u64,
}

/// Appends a metric with what it was of these endpoints, or legs. Refused for want of memory alone; then part of it may stand there.
pub fn push_metric(
    text: &mut String,
    metric: &Metric,
    subjects: &[Subject],
    samples: &[Sample],
) -> Result<(), AllocError>
    ensures { OnOk result (string_bytes text.new
        ≡ string_bytes text.old ++ metric_text metric.now.name.now metric.now.help.now metric.now.kind
        subjects.now samples.now) }
{
    push_help(text, metric)?;
    push_type(text, metric)?;
    push_samples(text, metric, subjects, samples)
}

/// What it is.
pub(crate) fn push_help(text: &mut String, metric: &Metric) -> Result<(), AllocError>
    ensures { OnOk result (string_bytes text.new ≡ string_bytes text.old ++ help_line metric.now.name.now metric.now.help.now) }
{
    write!(text, "# HELP {} {}\n", metric.name, metric.help)
}

/// What its value does.
pub(crate) fn push_type(text: &mut String, metric: &Metric) -> Result<(), AllocError>
    ensures { OnOk result (string_bytes text.new ≡ string_bytes text.old ++ type_line metric.now.name.now metric.now.kind) }
{
    write!(text, "# TYPE {} {}\n", metric.name, word_of(metric.kind))
}

/// The word for a type.
fn word_of(kind: MetricType) -> &'static str
    ensures { result.now ≡ type_word kind }
{
    match kind {
        MetricType::Counter => "counter",
        MetricType::Gauge => "gauge",
    }
}

/// The samples, in order.
fn push_samples(
    text: &mut String,
    metric: &Metric,
    subjects: &[Subject],
    samples: &[Sample],
) -> Result<(), AllocError>
    ensures { OnOk result (string_bytes text.new ≡ string_bytes text.old
        ++ flat_map (sample_line metric.now.name.now subjects.now) samples.now) }
{
    for sample in samples {
        push_sample(text, metric, subjects, *sample)?;
    }
    Ok(())
}

/// The value of one endpoint, or of one leg.
fn push_sample(
    text: &mut String,
    metric: &Metric,
    subjects: &[Subject],
    sample: Sample,
) -> Result<(), AllocError>
    ensures { OnOk result (string_bytes text.new
        ≡ string_bytes text.old ++ sample_line metric.now.name.now subjects.now sample) }
{
    let labels = labels_at(subjects, sample.number);
    push_value(text, metric.name, labels, sample.value)
}

/// A value under these labels.
fn push_value(text: &mut String, name: &str, labels: &str, value: u64) -> Result<(), AllocError>
    ensures { OnOk result (string_bytes text.new
        ≡ string_bytes text.old ++ value_line name.now labels.now value) }
{
    write!(text, "{name}{{{labels}}} {value}\n")
}
