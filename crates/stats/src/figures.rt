//! Each figure of the counts as a metric.

ghost use Rattle.std.specs.Prelude.{◌≡◌, ◌++◌, flat_map, map, IfOk, OnOk};
ghost use Rattle.std.specs.String.{string_bytes};
ghost use Rattle.stats.specs.Figures.{endpoint_help, endpoint_name, endpoint_sample, endpoint_text, endpoint_value, figures_text, leg_help, leg_name, leg_sample, leg_text, leg_value};
ghost use Rattle.stats.specs.declared.metrics.MetricType.TheVariants.{Counter};

use crate::endpoint_count::EndpointCount;
use crate::leg_count::LegCount;
use crate::metrics::{Metric, MetricType, Sample, push_metric};
use crate::subjects::{Subject, Subjects};
use std::alloc::{AllocError, Global};

/// A figure of an endpoint.
#[derive(Clone, Copy, PartialEq, Eq)]
pub enum EndpointFigure {
    HeardRtp,
    HeardRtcp,
    HeardBytes,
    HeardNacks,
    HeardPlis,
    HeardTmmbrs,
    HeardTmmbns,
    Sent,
    SentBytes,
    Failed,
    SentPlis,
    SentTmmbrs,
    SentTmmbns,
}

/// A figure of a leg.
#[derive(Clone, Copy, PartialEq, Eq)]
pub enum LegFigure {
    Packets,
    Bytes,
    Resent,
    Missed,
    Skipped,
}

/// The figures of an endpoint, in the order in which they are told.
const ENDPOINT_FIGURES: [EndpointFigure; 13] = [
    EndpointFigure::HeardRtp,
    EndpointFigure::HeardRtcp,
    EndpointFigure::HeardBytes,
    EndpointFigure::HeardNacks,
    EndpointFigure::HeardPlis,
    EndpointFigure::HeardTmmbrs,
    EndpointFigure::HeardTmmbns,
    EndpointFigure::Sent,
    EndpointFigure::SentBytes,
    EndpointFigure::Failed,
    EndpointFigure::SentPlis,
    EndpointFigure::SentTmmbrs,
    EndpointFigure::SentTmmbns,
];

/// Those of a leg.
const LEG_FIGURES: [LegFigure; 5] = [
    LegFigure::Packets,
    LegFigure::Bytes,
    LegFigure::Resent,
    LegFigure::Missed,
    LegFigure::Skipped,
];

impl EndpointFigure {
    /// What it is of this endpoint.
    pub fn of(self, count: &EndpointCount) -> u64
        ensures { result ≡ endpoint_value self count.now }
    {
        match self {
            EndpointFigure::HeardRtp => count.heard_rtp,
            EndpointFigure::HeardRtcp => count.heard_rtcp,
            EndpointFigure::HeardBytes => count.heard_octets,
            EndpointFigure::HeardNacks => count.asked.nacks,
            EndpointFigure::HeardPlis => count.asked.plis,
            EndpointFigure::HeardTmmbrs => count.asked.tmmbrs,
            EndpointFigure::HeardTmmbns => count.asked.tmmbns,
            EndpointFigure::Sent => count.sent,
            EndpointFigure::SentBytes => count.sent_octets,
            EndpointFigure::Failed => count.failed,
            EndpointFigure::SentPlis => count.told.plis,
            EndpointFigure::SentTmmbrs => count.told.tmmbrs,
            EndpointFigure::SentTmmbns => count.told.tmmbns,
        }
    }

    /// The metric's name.
    pub fn name(self) -> &'static str
        ensures { result.now ≡ endpoint_name self }
    {
        match self {
            EndpointFigure::HeardRtp => "sfu_rtp_packets_received_total",
            EndpointFigure::HeardRtcp => "sfu_rtcp_datagrams_received_total",
            EndpointFigure::HeardBytes => "sfu_received_bytes_total",
            EndpointFigure::HeardNacks => "sfu_nacks_received_total",
            EndpointFigure::HeardPlis => "sfu_plis_received_total",
            EndpointFigure::HeardTmmbrs => "sfu_tmmbrs_received_total",
            EndpointFigure::HeardTmmbns => "sfu_tmmbns_received_total",
            EndpointFigure::Sent => "sfu_datagrams_sent_total",
            EndpointFigure::SentBytes => "sfu_sent_bytes_total",
            EndpointFigure::Failed => "sfu_send_failures_total",
            EndpointFigure::SentPlis => "sfu_plis_sent_total",
            EndpointFigure::SentTmmbrs => "sfu_tmmbrs_sent_total",
            EndpointFigure::SentTmmbns => "sfu_tmmbns_sent_total",
        }
    }

    /// What the metric is.
    pub fn help(self) -> &'static str
        ensures { result.now ≡ endpoint_help self }
    {
        match self {
            EndpointFigure::HeardRtp => "RTP packets that came from the endpoint.",
            EndpointFigure::HeardRtcp => "RTCP datagrams that came from the endpoint.",
            EndpointFigure::HeardBytes => { "Bytes of the datagrams that came from the endpoint." }
            EndpointFigure::HeardNacks => "Generic NACKs that came from the endpoint.",
            EndpointFigure::HeardPlis => { "Picture loss indications that came from the endpoint." }
            EndpointFigure::HeardTmmbrs => "TMMBR packets that came from the endpoint.",
            EndpointFigure::HeardTmmbns => "TMMBN packets that came from the endpoint.",
            EndpointFigure::Sent => "Datagrams that were sent to the endpoint.",
            EndpointFigure::SentBytes => {
                "Bytes of the datagrams that were sent to the endpoint."
            }
            EndpointFigure::Failed => { "Datagrams that couldn't be sent to the endpoint." }
            EndpointFigure::SentPlis => {
                "Picture loss indications that were sent to the endpoint."
            }
            EndpointFigure::SentTmmbrs => "TMMBR packets that were sent to the endpoint.",
            EndpointFigure::SentTmmbns => "TMMBN packets that were sent to the endpoint.",
        }
    }
}

impl LegFigure {
    /// What it is of this leg.
    pub fn of(self, count: &LegCount) -> u64
        ensures { result ≡ leg_value self count.now }
    {
        match self {
            LegFigure::Packets => count.packets,
            LegFigure::Bytes => count.octets,
            LegFigure::Resent => count.resent,
            LegFigure::Missed => count.missed,
            LegFigure::Skipped => count.skipped,
        }
    }

    /// The metric's name.
    pub fn name(self) -> &'static str
        ensures { result.now ≡ leg_name self }
    {
        match self {
            LegFigure::Packets => "sfu_leg_packets_sent_total",
            LegFigure::Bytes => "sfu_leg_payload_bytes_sent_total",
            LegFigure::Resent => "sfu_leg_packets_resent_total",
            LegFigure::Missed => "sfu_leg_packets_missed_total",
            LegFigure::Skipped => "sfu_leg_packets_skipped_total",
        }
    }

    /// What the metric is.
    pub fn help(self) -> &'static str
        ensures { result.now ≡ leg_help self }
    {
        match self {
            LegFigure::Packets => "RTP packets that were sent on the leg, repeated ones too.",
            LegFigure::Bytes => "Payload bytes that were sent on the leg.",
            LegFigure::Resent => "RTP packets that were sent on the leg once more.",
            LegFigure::Missed => "RTP packets that were asked for on the leg and not kept.",
            LegFigure::Skipped => "RTP packets that were too old to be sent on on the leg.",
        }
    }
}

/// What was counted of the endpoint, or of the leg, with this number.
#[derive(Clone, Copy, PartialEq, Eq)]
pub struct Numbered<T> {
    pub number: u16,
    pub count: T,
}

/// Appends every figure of these endpoints and legs as a metric. Refused for want of memory alone; then part of them may stand there.
pub fn push_figures(
    alloc: Global,
    text: &mut String,
    subjects: Subjects<'_>,
    endpoints: &[Numbered<EndpointCount>],
    legs: &[Numbered<LegCount>],
) -> Result<(), AllocError>
    ensures { OnOk result (string_bytes text.new ≡ string_bytes text.old
        ++ figures_text subjects.entry.endpoints.now subjects.entry.legs.now endpoints.now legs.now) }
{
    push_endpoint_figures(
        alloc,
        text,
        &ENDPOINT_FIGURES,
        subjects.endpoints,
        endpoints,
    )?;
    push_leg_figures(alloc, text, &LEG_FIGURES, subjects.legs, legs)
}

/// These figures of endpoints.
fn push_endpoint_figures(
    alloc: Global,
    text: &mut String,
    figures: &[EndpointFigure],
    subjects: &[Subject],
    endpoints: &[Numbered<EndpointCount>],
) -> Result<(), AllocError>
    ensures { OnOk result (string_bytes text.new ≡ string_bytes text.old
        ++ flat_map (λ f. endpoint_text f subjects.now endpoints.now) figures.now) }
{
    for figure in figures {
        push_endpoint_figure(alloc, text, *figure, subjects, endpoints)?;
    }
    Ok(())
}

/// These figures of legs.
fn push_leg_figures(
    alloc: Global,
    text: &mut String,
    figures: &[LegFigure],
    subjects: &[Subject],
    legs: &[Numbered<LegCount>],
) -> Result<(), AllocError>
    ensures { OnOk result (string_bytes text.new ≡ string_bytes text.old
        ++ flat_map (λ f. leg_text f subjects.now legs.now) figures.now) }
{
    for figure in figures {
        push_leg_figure(alloc, text, *figure, subjects, legs)?;
    }
    Ok(())
}

/// A figure of the endpoints.
fn push_endpoint_figure(
    alloc: Global,
    text: &mut String,
    figure: EndpointFigure,
    subjects: &[Subject],
    endpoints: &[Numbered<EndpointCount>],
) -> Result<(), AllocError>
    ensures { OnOk result (string_bytes text.new
        ≡ string_bytes text.old ++ endpoint_text figure subjects.now endpoints.now) }
{
    let samples = endpoint_samples(alloc, figure, endpoints)?;
    let metric = Metric {
        name: figure.name(),
        help: figure.help(),
        kind: MetricType::Counter,
    };
    push_metric(text, &metric, subjects, samples.as_slice())
}

/// What a figure was of each endpoint.
fn endpoint_samples(
    alloc: Global,
    figure: EndpointFigure,
    endpoints: &[Numbered<EndpointCount>],
) -> Result<Vec<Sample>, AllocError>
    ensures { IfOk result
        (λ samples. samples.items ≡ map (endpoint_sample figure) endpoints.now) }
{
    let mut samples = Vec::with_capacity(alloc, endpoints.len())?;
    for seen in endpoints {
        samples.push(Sample {
            number: seen.number,
            value: figure.of(&seen.count),
        })?;
    }
    Ok(samples)
}

/// A figure of the legs.
fn push_leg_figure(
    alloc: Global,
    text: &mut String,
    figure: LegFigure,
    subjects: &[Subject],
    legs: &[Numbered<LegCount>],
) -> Result<(), AllocError>
    ensures { OnOk result (string_bytes text.new
        ≡ string_bytes text.old ++ leg_text figure subjects.now legs.now) }
{
    let samples = leg_samples(alloc, figure, legs)?;
    let metric = Metric {
        name: figure.name(),
        help: figure.help(),
        kind: MetricType::Counter,
    };
    push_metric(text, &metric, subjects, samples.as_slice())
}

/// What a figure was of each leg.
fn leg_samples(
    alloc: Global,
    figure: LegFigure,
    legs: &[Numbered<LegCount>],
) -> Result<Vec<Sample>, AllocError>
    ensures { IfOk result (λ samples. samples.items ≡ map (leg_sample figure) legs.now) }
{
    let mut samples = Vec::with_capacity(alloc, legs.len())?;
    for seen in legs {
        samples.push(Sample {
            number: seen.number,
            value: figure.of(&seen.count),
        })?;
    }
    Ok(samples)
}
