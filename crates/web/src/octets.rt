//! How many octets came from each endpoint and went to it, by a unit's lines for `metrics`.

ghost use Rattle.std.specs.Prelude.{◌≡◌, ◌≤◌, ◌++◌, IfOk, OnOk, flat_map, length, map};
ghost use Rattle.web.specs.Octets.{before_quote, endpoint_labelled, flow_called, flows_in, is_same_flow, is_same_way, line_flows, octets_of, quote_place, sent_called, words_flow};

use crate::words::without_start;
use request_text::{lines, number_u16, number_u64, word_at, words_of};
use std::alloc::{AllocError, Global};

/// Up to the number of an endpoint in the line that says how many octets came from it.
const HEARD: &[u8] = b"sfu_received_bytes_total{endpoint=\"";

/// Up to the number of an endpoint in the line that says how many octets were sent to it.
const SENT: &[u8] = b"sfu_sent_bytes_total{endpoint=\"";

/// Which way octets went.
#[derive(Clone, Copy)]
pub(crate) enum Way {
    /// To the unit.
    Heard,
    /// From the unit.
    Sent,
}

/// What is counted by itself.
#[derive(Clone, Copy)]
pub(crate) struct Flow {
    /// The number of the endpoint.
    pub endpoint: u16,
    pub way: Way,
}

/// How many octets went so far.
#[derive(Clone, Copy)]
pub(crate) struct FlowCount {
    pub flow: Flow,
    /// Since the unit began; at most 2^64 - 1.
    pub octets: u64,
}

/// What an answer to `metrics` tells of octets, in its order. A line that tells of none is passed over.
pub(crate) fn flows_in(alloc: Global, metrics: &[u8]) -> Result<Vec<FlowCount>, AllocError>
    ensures { IfOk result (λ flows. flows.items ≡ flows_in metrics.now) }
{
    let lines = lines(alloc, metrics)?;
    flows_of(alloc, lines.as_slice())
}

fn flows_of(alloc: Global, lines: &[&[u8]]) -> Result<Vec<FlowCount>, AllocError>
    ensures { IfOk result
        (λ flows. flows.items ≡ flat_map (λ x. line_flows x.now) lines.now) }
{
    let mut flows = Vec::new(alloc);
    for line in lines {
        push_flow(alloc, &mut flows, line)?;
    }
    Ok(flows)
}

fn push_flow(alloc: Global, flows: &mut Vec<FlowCount>, line: &[u8]) -> Result<(), AllocError>
    ensures { OnOk result (flows.new.items ≡ flows.old.items ++ line_flows line.now) }
{
    let words = words_of(alloc, line)?;
    match flow_of(words.as_slice()) {
        Some(count) => Ok(flows.push(count)?),
        None => Ok(()),
    }
}

/// The count that these words tell of.
fn flow_of(words: &[&[u8]]) -> Option<FlowCount>
    ensures { result ≡ words_flow (map (λ x. x.now) words.now) }
{
    Some(FlowCount {
        flow: flow_called(word_at(words, 0))?,
        octets: number_u64(word_at(words, 1))?,
    })
}

/// The flow that the name of a metric and its label say.
fn flow_called(name: &[u8]) -> Option<Flow>
    ensures { result ≡ flow_called name.now }
{
    match endpoint_labelled(name, HEARD) {
        Some(endpoint) => Some(Flow {
            endpoint,
            way: Way::Heard,
        }),
        None => sent_called(name),
    }
}

fn sent_called(name: &[u8]) -> Option<Flow>
    ensures { result ≡ sent_called name.now }
{
    Some(Flow {
        endpoint: endpoint_labelled(name, SENT)?,
        way: Way::Sent,
    })
}

/// The number between this start and the quotation mark behind it.
fn endpoint_labelled(name: &[u8], start: &[u8]) -> Option<u16>
    ensures { result ≡ endpoint_labelled start.now name.now }
{
    let rest = without_start(name, start)?;
    number_u16(before_quote(rest))
}

/// What stands before the first quotation mark; all if there is none.
fn before_quote(text: &[u8]) -> &[u8]
    ensures { result.now ≡ before_quote text.now }
{
    &text[..quote_place(text)]
}

fn quote_place(text: &[u8]) -> usize
    ensures value { result ≡ quote_place text.now }
    ensures within { result ≤ length text.now }
{
    text.iter().take_while(|byte| **byte != b'"').count()
}

/// How many octets of this flow were counted, if they were.
pub(crate) fn octets_of(flows: &[FlowCount], flow: Flow) -> Option<u64>
    ensures { result ≡ octets_of flows.now flow }
{
    for count in flows {
        if is_same_flow(flow, count.flow) {
            return Some(count.octets);
        }
    }
    None
}

fn is_same_flow(one: Flow, other: Flow) -> bool
    ensures { result ≡ is_same_flow one other }
{
    is_same_way(one.way, other.way) && one.endpoint == other.endpoint
}

fn is_same_way(one: Way, other: Way) -> bool
    ensures { result ≡ is_same_way one other }
{
    match one {
        Way::Heard => matches!(other, Way::Heard),
        Way::Sent => matches!(other, Way::Sent),
    }
}
