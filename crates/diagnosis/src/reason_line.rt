//! The lines that say why a subscriber sees nothing, for people.

ghost use Rattle.std.specs.Prelude.{◌≡◌, ◌++◌, IfOk, OnOk};
ghost use Rattle.std.specs.String.{string_bytes};
ghost use Rattle.diagnosis.specs.ReasonLine.{detail_words, endpoint_words, heard_words, last_words, leg_words, line_of_reason, line_of_stray, lines_of_reason, place_words, rate_words, reported_line, source_words, unit_reported_line};

use crate::reasons::Reason;
use crate::sightings::StraySource;
use stats::{LegLine, LegNames, ReceptionReport, leg_report_line, publisher_report_line};
use std::alloc::{AllocError, Global};
use std::net::SocketAddr;
use tmmbr_tuple::Ssrc;

/// The line of a leg: between whom it is, by their names, and the reason. Refused for want of memory alone.
pub fn line_of_reason(
    alloc: Global,
    leg: u16,
    names: LegNames<'_>,
    reason: Reason,
) -> Result<String, AllocError>
    ensures { IfOk result (λ text. string_bytes text ≡ line_of_reason leg
        names.entry.publisher.now names.entry.subscriber.now reason) }
{
    let mut text = leg_words(alloc, leg, names.publisher, names.subscriber)?;
    text.push_str(reason.kind().words())?;
    push_detail(&mut text, reason)?;
    text.push_str("\n")?;
    Ok(text)
}

/// The same line. If the leg's subscriber reports, it is followed by what that reported last, and how many milliseconds before this moment;
/// if packets are lost on the way from the publisher, by what the unit reported to that. Refused for want of memory alone.
pub fn reason_lines(
    alloc: Global,
    line: LegLine,
    names: LegNames<'_>,
    reason: Reason,
    moment: u64,
) -> Result<String, AllocError>
    ensures { IfOk result (λ text. string_bytes text ≡ lines_of_reason line
        names.entry.publisher.now names.entry.subscriber.now reason moment) }
{
    let mut text = line_of_reason(alloc, line.leg, names, reason)?;
    push_report(alloc, &mut text, line, reason.report(), moment)?;
    push_unit_report(
        alloc,
        &mut text,
        line.publisher,
        reason.unit_report(),
        moment,
    )?;
    Ok(text)
}

/// What was reported of a leg.
fn push_report(
    alloc: Global,
    text: &mut String,
    line: LegLine,
    report: Option<ReceptionReport>,
    moment: u64,
) -> Result<(), AllocError>
    ensures { OnOk result
        (string_bytes text.new ≡ string_bytes text.old ++ reported_line line report moment) }
{
    match report {
        Some(report) => {
            let reported = leg_report_line(alloc, line, &report, moment)?;
            text.push_str(reported.as_str())
        }
        None => Ok(()),
    }
}

/// What the unit reported to a publisher.
fn push_unit_report(
    alloc: Global,
    text: &mut String,
    publisher: u16,
    report: Option<ReceptionReport>,
    moment: u64,
) -> Result<(), AllocError>
    ensures { OnOk result
        (string_bytes text.new ≡ string_bytes text.old ++ unit_reported_line publisher report moment) }
{
    match report {
        Some(report) => {
            let reported = publisher_report_line(alloc, publisher, &report, moment)?;
            text.push_str(reported.as_str())
        }
        None => Ok(()),
    }
}

/// Which leg it is.
fn leg_words(
    alloc: Global,
    leg: u16,
    publisher: &str,
    subscriber: &str,
) -> Result<String, AllocError>
    ensures { IfOk result (λ text. string_bytes text
        ≡ leg_words leg publisher.now subscriber.now) }
{
    format!(in alloc; "leg {leg} from {publisher} to {subscriber}: ")
}

/// What is said of it more closely.
fn push_detail(text: &mut String, reason: Reason) -> Result<(), AllocError>
    ensures { OnOk result
        (string_bytes text.new ≡ string_bytes text.old ++ detail_words reason) }
{
    match reason {
        Reason::Off => Ok(()),
        Reason::OtherSource(source, ago_ms) => push_source(text, source, ago_ms),
        Reason::OtherPlace(address, ago_ms) => push_place(text, address, ago_ms),
        Reason::PublisherAbsent(ago_ms) => push_heard(text, ago_ms),
        Reason::NoMedia(ago_ms) => push_last(text, ago_ms),
        Reason::SubscriberAbsent(ago_ms) => push_heard(text, ago_ms),
        Reason::Skipped(rate) => write!(text, "{rate} a second"),
        Reason::Lossy(rate, _) => push_rate(text, rate),
        Reason::Reported(rate, _) => push_rate(text, rate),
        Reason::OnlyListens(rate, ago_ms) => push_heard_and_rate(text, rate, ago_ms),
        Reason::Unreported(rate, ago_ms) => push_last_and_rate(text, rate, ago_ms),
    }
}

/// Under which SSRC packets come.
fn push_source(text: &mut String, source: Ssrc, ago_ms: u64) -> Result<(), AllocError>
    ensures { OnOk result
        (string_bytes text.new ≡ string_bytes text.old ++ source_words source ago_ms) }
{
    write!(text, "{}, the last {ago_ms} ms ago", source.0)
}

/// From which address packets come.
fn push_place(text: &mut String, address: SocketAddr, ago_ms: u64) -> Result<(), AllocError>
    ensures { OnOk result
        (string_bytes text.new ≡ string_bytes text.old ++ place_words address ago_ms) }
{
    write!(text, "{address}, the last {ago_ms} ms ago")
}

/// How long ago the last came, if one did.
fn push_last(text: &mut String, ago_ms: Option<u64>) -> Result<(), AllocError>
    ensures { OnOk result (string_bytes text.new ≡ string_bytes text.old ++ last_words ago_ms) }
{
    match ago_ms {
        Some(ago_ms) => write!(text, ", the last {ago_ms} ms ago"),
        None => Ok(()),
    }
}

/// How long ago an endpoint was heard.
fn push_heard(text: &mut String, ago_ms: Option<u64>) -> Result<(), AllocError>
    ensures { OnOk result (string_bytes text.new ≡ string_bytes text.old ++ heard_words ago_ms) }
{
    match ago_ms {
        Some(ago_ms) => write!(text, ", heard {ago_ms} ms ago"),
        None => text.push_str(", never heard"),
    }
}

/// How long ago an endpoint was heard, and how much is sent.
fn push_heard_and_rate(text: &mut String, rate: u64, ago_ms: Option<u64>) -> Result<(), AllocError>
    ensures { OnOk result (string_bytes text.new
        ≡ string_bytes text.old ++ (heard_words ago_ms ++ rate_words rate)) }
{
    push_heard(text, ago_ms)?;
    push_rate(text, rate)
}

/// How long ago the last came, and how much is sent.
fn push_last_and_rate(text: &mut String, rate: u64, ago_ms: Option<u64>) -> Result<(), AllocError>
    ensures { OnOk result (string_bytes text.new
        ≡ string_bytes text.old ++ (last_words ago_ms ++ rate_words rate)) }
{
    push_last(text, ago_ms)?;
    push_rate(text, rate)
}

/// How much is sent.
fn push_rate(text: &mut String, rate: u64) -> Result<(), AllocError>
    ensures { OnOk result (string_bytes text.new ≡ string_bytes text.old ++ rate_words rate) }
{
    write!(text, "; {rate} packets a second")
}

/// The line that says under which SSRC, which isn't the endpoint's, an RTP packet came from its address last, and how many milliseconds before
/// this moment. Refused for want of memory alone.
pub fn stray_line(
    alloc: Global,
    endpoint: u16,
    stray: StraySource,
    moment: u64,
) -> Result<String, AllocError>
    ensures { IfOk result (λ text. string_bytes text ≡ line_of_stray endpoint stray moment) }
{
    let ago_ms = moment.saturating_sub(stray.moment);
    let mut text = endpoint_words(alloc, endpoint)?;
    push_source(&mut text, stray.source, ago_ms)?;
    text.push_str("\n")?;
    Ok(text)
}

/// Whose packets they are.
fn endpoint_words(alloc: Global, endpoint: u16) -> Result<String, AllocError>
    ensures { IfOk result (λ text. string_bytes text ≡ endpoint_words endpoint) }
{
    format!(in alloc; "endpoint {endpoint} under SSRC ")
}
