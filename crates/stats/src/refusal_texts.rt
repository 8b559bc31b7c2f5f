//! How it is told what was refused: lines for people, and a metric.

ghost use Rattle.std.specs.Prelude.{◌≡◌, ◌++◌, flat_map, OnOk};
ghost use Rattle.std.specs.String.{string_bytes};
ghost use Rattle.stats.specs.Refusals.{reason_labels, reason_part, refused_end, refused_figures, refused_help, refused_line, refused_name, refused_sample, refused_start, whose_labels, whose_word};
ghost use Rattle.stats.specs.declared.metrics.MetricType.TheVariants.{Counter};

use crate::metrics::{Metric, MetricType, push_help, push_type};
use crate::refusals::{RefusedCount, kind_word, reason_number, reason_words};
use crate::subjects::{Subject, labels_at};
use events::Refusal;
use std::alloc::AllocError;

/// Appends a line for each count: whose datagrams, what refused them, the reason's number, how often, and the reason in words. Refused
/// for want of memory alone; then part of them may stand there.
pub fn push_refusal_lines(text: &mut String, counts: &[RefusedCount]) -> Result<(), AllocError>
    ensures { OnOk result (string_bytes text.new
        ≡ string_bytes text.old ++ flat_map refused_line counts.now) }
{
    for count in counts {
        push_line(text, *count)?;
    }
    Ok(())
}

/// Appends these counts as a metric, with whose datagrams, what refused them and the reason's number as labels. Refused for want of memory
/// alone; then part of it may stand there.
pub fn push_refusal_figures(
    text: &mut String,
    subjects: &[Subject],
    counts: &[RefusedCount],
) -> Result<(), AllocError>
    ensures { OnOk result (string_bytes text.new
        ≡ string_bytes text.old ++ refused_figures subjects.now counts.now) }
{
    let metric = refused_metric();
    push_help(text, &metric)?;
    push_type(text, &metric)?;
    push_samples(text, subjects, counts)
}

#[tactic(auto, unfolding(crate::specs::Refusals::refused_name, crate::specs::Refusals::refused_help))]
fn refused_metric() -> Metric
    ensures name { result.name.now ≡ refused_name }
    ensures help { result.help.now ≡ refused_help }
    ensures kind { result.kind ≡ Counter }
{
    Metric {
        name: "sfu_refused_total",
        help: "What was refused of what came from the endpoint.",
        kind: MetricType::Counter,
    }
}

/// The samples, in order.
fn push_samples(
    text: &mut String,
    subjects: &[Subject],
    counts: &[RefusedCount],
) -> Result<(), AllocError>
    ensures { OnOk result (string_bytes text.new
        ≡ string_bytes text.old ++ flat_map (refused_sample subjects.now) counts.now) }
{
    for count in counts {
        push_sample(text, subjects, *count)?;
    }
    Ok(())
}

#[tactic(auto, unfolding(crate::specs::Refusals::refused_sample))]
fn push_sample(
    text: &mut String,
    subjects: &[Subject],
    count: RefusedCount,
) -> Result<(), AllocError>
    ensures { OnOk result (string_bytes text.new
        ≡ string_bytes text.old ++ refused_sample subjects.now count) }
{
    text.push_str("sfu_refused_total{")?;
    push_whose_labels(text, subjects, count.endpoint)?;
    push_labels(text, count.refusal)?;
    write!(text, "{}\n", count.count)
}

/// Whose datagrams they are, as labels.
fn push_whose_labels(
    text: &mut String,
    subjects: &[Subject],
    endpoint: Option<u16>,
) -> Result<(), AllocError>
    ensures { OnOk result (string_bytes text.new
        ≡ string_bytes text.old ++ whose_labels subjects.now endpoint) }
{
    match endpoint {
        Some(number) => text.push_str(labels_at(subjects, number)),
        None => text.push_str("endpoint=\"none\""),
    }
}

/// What refused it, and the reason's number, as labels.
fn push_labels(text: &mut String, refusal: Refusal) -> Result<(), AllocError>
    ensures { OnOk result (string_bytes text.new ≡ string_bytes text.old ++ reason_labels refusal) }
{
    let kind = kind_word(refusal);
    let number = reason_number(refusal);
    write!(text, ",kind=\"{kind}\",reason=\"{number}\"}} ")
}

fn push_line(text: &mut String, count: RefusedCount) -> Result<(), AllocError>
    ensures { OnOk result (string_bytes text.new ≡ string_bytes text.old ++ refused_line count) }
{
    push_start(text, count)?;
    push_end(text, count)
}

/// Whose datagrams, what refused them, and the reason's number.
fn push_start(text: &mut String, count: RefusedCount) -> Result<(), AllocError>
    ensures { OnOk result (string_bytes text.new ≡ string_bytes text.old ++ refused_start count) }
{
    text.push_str("endpoint ")?;
    push_whose(text, count.endpoint)?;
    push_reason(text, count.refusal)
}

/// How often, and the reason in words.
fn push_end(text: &mut String, count: RefusedCount) -> Result<(), AllocError>
    ensures { OnOk result (string_bytes text.new ≡ string_bytes text.old ++ refused_end count) }
{
    write!(text, " times {}: ", count.count)?;
    text.push_str(reason_words(count.refusal))?;
    text.push_str("\n")
}

pub(crate) fn push_whose(text: &mut String, endpoint: Option<u16>) -> Result<(), AllocError>
    ensures { OnOk result (string_bytes text.new ≡ string_bytes text.old ++ whose_word endpoint) }
{
    match endpoint {
        Some(number) => write!(text, "{number}"),
        None => text.push_str("none"),
    }
}

pub(crate) fn push_reason(text: &mut String, refusal: Refusal) -> Result<(), AllocError>
    ensures { OnOk result (string_bytes text.new ≡ string_bytes text.old ++ reason_part refusal) }
{
    let kind = kind_word(refusal);
    let number = reason_number(refusal);
    write!(text, " {kind} {number}")
}
