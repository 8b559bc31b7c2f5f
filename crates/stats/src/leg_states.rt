//! Whether legs are selected, and the stays that stand on them, as metrics.

ghost use Rattle.std.specs.Prelude.{◌≡◌, ◌++◌, flat_map, IfOk, OnOk};
ghost use Rattle.std.specs.String.{string_bytes};
ghost use Rattle.stats.specs.LegStates.{leg_states_text, state_help, state_name, state_sample, state_text, state_value};

use crate::metrics::{Metric, MetricType, Sample, push_metric};
use crate::subjects::Subject;
use std::alloc::{AllocError, Global};

/// What a leg is like.
#[derive(Clone, Copy, PartialEq, Eq)]
pub struct LegState {
    /// Its number.
    pub leg: u16,
    /// Whether it is selected.
    pub on: bool,
    /// The number of the stay that stands on it, if one does.
    pub stay: Option<u64>,
}

/// A figure of what a leg is like.
#[derive(Clone, Copy, PartialEq, Eq)]
pub enum StateFigure {
    On,
    Stay,
}

/// The figures, in the order in which they are told.
const STATE_FIGURES: [StateFigure; 2] = [StateFigure::On, StateFigure::Stay];

impl StateFigure {
    /// What it is of this leg; `None` if the leg has none.
    pub fn of(self, state: LegState) -> Option<u64>
        ensures { result ≡ state_value self state }
    {
        match self {
            StateFigure::On => Some(u64::from(state.on)),
            StateFigure::Stay => state.stay,
        }
    }

    /// The metric's name.
    pub fn name(self) -> &'static str
        ensures { result.now ≡ state_name self }
    {
        match self {
            StateFigure::On => "sfu_leg_on",
            StateFigure::Stay => "sfu_leg_stay",
        }
    }

    /// What the metric is.
    pub fn help(self) -> &'static str
        ensures { result.now ≡ state_help self }
    {
        match self {
            StateFigure::On => "Whether the leg is selected.",
            StateFigure::Stay => "The number of the stay that stands on the leg.",
        }
    }
}

/// Appends what these legs are like as metrics. Refused for want of memory alone; then part of them may stand there.
pub fn push_leg_states(
    alloc: Global,
    text: &mut String,
    subjects: &[Subject],
    states: &[LegState],
) -> Result<(), AllocError>
    ensures { OnOk result (string_bytes text.new
        ≡ string_bytes text.old ++ leg_states_text subjects.now states.now) }
{
    push_state_figures(alloc, text, &STATE_FIGURES, subjects, states)
}

/// These figures of legs.
fn push_state_figures(
    alloc: Global,
    text: &mut String,
    figures: &[StateFigure],
    subjects: &[Subject],
    states: &[LegState],
) -> Result<(), AllocError>
    ensures { OnOk result (string_bytes text.new ≡ string_bytes text.old
        ++ flat_map (λ f. state_text f subjects.now states.now) figures.now) }
{
    for figure in figures {
        push_state_figure(alloc, text, *figure, subjects, states)?;
    }
    Ok(())
}

/// A figure of legs.
fn push_state_figure(
    alloc: Global,
    text: &mut String,
    figure: StateFigure,
    subjects: &[Subject],
    states: &[LegState],
) -> Result<(), AllocError>
    ensures { OnOk result (string_bytes text.new
        ≡ string_bytes text.old ++ state_text figure subjects.now states.now) }
{
    let samples = state_samples(alloc, figure, states)?;
    let metric = Metric {
        name: figure.name(),
        help: figure.help(),
        kind: MetricType::Gauge,
    };
    push_metric(text, &metric, subjects, samples.as_slice())
}

/// What a figure is of each leg that has it.
fn state_samples(
    alloc: Global,
    figure: StateFigure,
    states: &[LegState],
) -> Result<Vec<Sample>, AllocError>
    ensures { IfOk result
        (λ samples. samples.items ≡ flat_map (state_sample figure) states.now) }
{
    let mut samples = Vec::new(alloc);
    for state in states {
        push_state(&mut samples, figure, *state)?;
    }
    Ok(samples)
}

/// Puts what a figure is of a leg after others, if the leg has it.
fn push_state(
    samples: &mut Vec<Sample>,
    figure: StateFigure,
    state: LegState,
) -> Result<(), AllocError>
    ensures { OnOk result (samples.new.items ≡ samples.old.items ++ state_sample figure state) }
{
    match figure.of(state) {
        Some(value) => {
            samples.push(Sample {
                number: state.leg,
                value,
            })?;
            Ok(())
        }
        None => Ok(()),
    }
}
