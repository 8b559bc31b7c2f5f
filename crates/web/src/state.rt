//! What a unit is like, as JSON (RFC 8259).

ghost use Rattle.std.specs.Prelude.{◌≡◌, IfOk, flat_map, map};
ghost use Rattle.json.specs.Print.{print};
ghost use Rattle.request_text.specs.Lines.{lines_of};
ghost use Rattle.web.specs.State.{Tells, ago_member, array_begun, array_member, called_members, counts_begun, counts_member, endpoint_members, endpoint_octets, endpoint_words, flow_members, heard_members, known_tokens, leg_ends, leg_members, leg_words, line_tokens, losses_members, measured_members, octets_members, passed_member, publisher_member, received_members, reception_members, refused_member, report_members, reported_members, state_parts, state_tokens, subscriber_member, totals_members, totals_words, trip_members, who_members, words_tokens};

use crate::members::{push_called, push_known, push_number, push_switch, push_text};
use crate::octets::{Flow, FlowCount, Way, flows_in, octets_of};
use crate::reports::{
    ReceptionLine, ago_of, fraction_of, jitter_of, leg_reported, publisher_reported, reports_in,
    trip_of,
};
use crate::said::Said;
use crate::words::{name_word, refused_word};
use json::Writer;
use request_text::{is_word, lines, number_u16, word_at, words_of};
use std::alloc::{AllocError, Global};

/// What a unit is like, by what it said, as a JSON object. `moment_ms` is a number, `endpoints` and `legs` are arrays of objects, `counts` is an
/// object. Where a number should stand and none does, there is null. A line that tells of none of these is passed over. Refused for want of
/// memory alone.
pub fn state_text(alloc: Global, said: &Said) -> Result<Vec<u8>, AllocError>
    ensures { IfOk result (λ text. text.items ≡ print (state_tokens said.now)) }
{
    let flows = flows_in(alloc, said.metrics.as_slice())?;
    let reports = reports_in(alloc, said.reports.as_slice())?;
    state_with(alloc, said, flows.as_slice(), reports.as_slice())
}

fn state_with(
    alloc: Global,
    said: &Said,
    flows: &[FlowCount],
    reports: &[ReceptionLine],
) -> Result<Vec<u8>, AllocError>
    ensures { IfOk result (λ text. text.items
        ≡ print (known_tokens said.now flows.now reports.now)) }
{
    let mut writer = Writer::new(Vec::new(alloc));
    push_state(alloc, &mut writer, said, flows, reports)?;
    Ok(writer.into_inner())
}

/// What the lines of an answer tell of.
#[derive(Clone, Copy)]
enum Rows {
    Endpoints,
    Legs,
    Totals,
}

fn push_state(
    alloc: Global,
    writer: &mut Writer,
    said: &Said,
    flows: &[FlowCount],
    reports: &[ReceptionLine],
) -> Result<(), AllocError>
    ensures { Tells result writer.old writer.new (known_tokens said.now flows.now reports.now) }
{
    writer.begin_object()?;
    push_parts(alloc, writer, said, flows, reports)?;
    writer.end_object()
}

#[tactic(auto, unfolding(crate::specs::State::state_parts))]
fn push_parts(
    alloc: Global,
    writer: &mut Writer,
    said: &Said,
    flows: &[FlowCount],
    reports: &[ReceptionLine],
) -> Result<(), AllocError>
    ensures { Tells result writer.old writer.new (state_parts said.now flows.now reports.now) }
{
    push_known(writer, "moment_ms", Some(said.moment_ms))?;
    let present = said.present.as_slice();
    let legs = said.legs.as_slice();
    push_array(
        alloc,
        writer,
        "endpoints",
        Rows::Endpoints,
        present,
        flows,
        reports,
    )?;
    push_array(alloc, writer, "legs", Rows::Legs, legs, flows, reports)?;
    push_counts(alloc, writer, said.counts.as_slice(), flows, reports)
}

/// A member that is an array, with an object for each line that tells of one.
#[tactic(auto, unfolding(crate::specs::State::array_member))]
fn push_array(
    alloc: Global,
    writer: &mut Writer,
    name: &str,
    rows: Rows,
    text: &[u8],
    flows: &[FlowCount],
    reports: &[ReceptionLine],
) -> Result<(), AllocError>
    ensures { Tells result writer.old writer.new
        (array_member name.now rows flows.now reports.now text.now) }
{
    begin_array(writer, name)?;
    push_rows(alloc, writer, rows, text, flows, reports)?;
    writer.end_array()
}

#[tactic(auto, unfolding(crate::specs::State::array_begun))]
fn begin_array(writer: &mut Writer, name: &str) -> Result<(), AllocError>
    ensures { Tells result writer.old writer.new (array_begun name.now) }
{
    writer.key(name)?;
    writer.begin_array()
}

/// `counts`.
#[tactic(auto, unfolding(crate::specs::State::counts_member))]
fn push_counts(
    alloc: Global,
    writer: &mut Writer,
    text: &[u8],
    flows: &[FlowCount],
    reports: &[ReceptionLine],
) -> Result<(), AllocError>
    ensures { Tells result writer.old writer.new
        (counts_member flows.now reports.now text.now) }
{
    begin_counts(writer)?;
    push_rows(alloc, writer, Rows::Totals, text, flows, reports)?;
    writer.end_object()
}

#[tactic(auto, unfolding(crate::specs::State::counts_begun))]
fn begin_counts(writer: &mut Writer) -> Result<(), AllocError>
    ensures { Tells result writer.old writer.new counts_begun }
{
    writer.key("counts")?;
    writer.begin_object()
}

/// What each line of a text tells of.
fn push_rows(
    alloc: Global,
    writer: &mut Writer,
    rows: Rows,
    text: &[u8],
    flows: &[FlowCount],
    reports: &[ReceptionLine],
) -> Result<(), AllocError>
    ensures { Tells result writer.old writer.new
        (flat_map (line_tokens rows flows.now reports.now) (lines_of text.now)) }
{
    let lines = lines(alloc, text)?;
    push_lines(alloc, writer, rows, lines.as_slice(), flows, reports)
}

fn push_lines(
    alloc: Global,
    writer: &mut Writer,
    rows: Rows,
    lines: &[&[u8]],
    flows: &[FlowCount],
    reports: &[ReceptionLine],
) -> Result<(), AllocError>
    ensures { Tells result writer.old writer.new
        (flat_map (λ x. line_tokens rows flows.now reports.now x.now) lines.now) }
{
    for line in lines {
        push_line(alloc, writer, rows, line, flows, reports)?;
    }
    Ok(())
}

/// What a line tells of.
fn push_line(
    alloc: Global,
    writer: &mut Writer,
    rows: Rows,
    line: &[u8],
    flows: &[FlowCount],
    reports: &[ReceptionLine],
) -> Result<(), AllocError>
    ensures { Tells result writer.old writer.new
        (line_tokens rows flows.now reports.now line.now) }
{
    let words = words_of(alloc, line)?;
    push_words(writer, rows, words.as_slice(), flows, reports)
}

/// What these words tell of.
fn push_words(
    writer: &mut Writer,
    rows: Rows,
    words: &[&[u8]],
    flows: &[FlowCount],
    reports: &[ReceptionLine],
) -> Result<(), AllocError>
    ensures { Tells result writer.old writer.new
        (words_tokens rows flows.now reports.now (map (λ x. x.now) words.now)) }
{
    match rows {
        Rows::Endpoints => push_endpoint(writer, words, flows, reports),
        Rows::Legs => push_leg(writer, words, reports),
        Rows::Totals => push_total(writer, words),
    }
}

/// The object of the endpoint that these words tell of.
fn push_endpoint(
    writer: &mut Writer,
    words: &[&[u8]],
    flows: &[FlowCount],
    reports: &[ReceptionLine],
) -> Result<(), AllocError>
    ensures { Tells result writer.old writer.new
        (endpoint_words flows.now reports.now (map (λ x. x.now) words.now)) }
{
    if !is_word(word_at(words, 1), b"ssrc") {
        return Ok(());
    }
    writer.begin_object()?;
    push_who(writer, words)?;
    let number = number_u16(word_at(words, 0));
    push_measured(writer, flows, reports, number, refused_word(words))?;
    writer.end_object()
}

/// How often something was refused of the endpoint with this number, how many octets went, and what reports say of it.
#[tactic(auto, unfolding(crate::specs::State::measured_members))]
fn push_measured(
    writer: &mut Writer,
    flows: &[FlowCount],
    reports: &[ReceptionLine],
    number: Option<u16>,
    refused: &[u8],
) -> Result<(), AllocError>
    ensures { Tells result writer.old writer.new
        (measured_members flows.now reports.now number refused.now) }
{
    push_refused(writer, refused)?;
    push_endpoint_octets(writer, flows, number)?;
    push_received(writer, publisher_reported(reports, number))
}

/// What the unit reported of a publisher, and how long ago.
#[tactic(auto, unfolding(crate::specs::State::received_members))]
fn push_received(writer: &mut Writer, report: Option<ReceptionLine>) -> Result<(), AllocError>
    ensures { Tells result writer.old writer.new (received_members report) }
{
    push_reception(writer, report)?;
    push_passed(writer, report)
}

/// How long ago a report passed.
#[tactic(auto, unfolding(crate::specs::State::passed_member))]
fn push_passed(writer: &mut Writer, report: Option<ReceptionLine>) -> Result<(), AllocError>
    ensures { Tells result writer.old writer.new (passed_member report) }
{
    push_ago(writer, ago_of(report))
}

#[tactic(auto, unfolding(crate::specs::State::ago_member))]
fn push_ago(writer: &mut Writer, ago_ms: Option<u64>) -> Result<(), AllocError>
    ensures { Tells result writer.old writer.new (ago_member ago_ms) }
{
    push_known(writer, "reported_ago_ms", ago_ms)
}

/// What a report says of loss and jitter.
fn push_reception(writer: &mut Writer, report: Option<ReceptionLine>) -> Result<(), AllocError>
    ensures { Tells result writer.old writer.new (reception_members report) }
{
    push_reported(writer, fraction_of(report), jitter_of(report))
}

/// The share that was lost, of 256, and the jitter, as far as they are known.
#[tactic(auto, unfolding(crate::specs::State::reported_members))]
fn push_reported(
    writer: &mut Writer,
    fraction: Option<u64>,
    jitter: Option<u64>,
) -> Result<(), AllocError>
    ensures { Tells result writer.old writer.new (reported_members fraction jitter) }
{
    push_known(writer, "fraction_lost", fraction)?;
    push_known(writer, "jitter", jitter)
}

/// The octets that came from the endpoint with this number, and went to it.
fn push_endpoint_octets(
    writer: &mut Writer,
    flows: &[FlowCount],
    number: Option<u16>,
) -> Result<(), AllocError>
    ensures { Tells result writer.old writer.new (endpoint_octets flows.now number) }
{
    match number {
        Some(endpoint) => push_octets(writer, flows, endpoint),
        None => Ok(()),
    }
}

#[tactic(auto, unfolding(crate::specs::State::octets_members))]
fn push_octets(writer: &mut Writer, flows: &[FlowCount], endpoint: u16) -> Result<(), AllocError>
    ensures { Tells result writer.old writer.new (octets_members flows.now endpoint) }
{
    let heard = Flow {
        endpoint,
        way: Way::Heard,
    };
    let sent = Flow {
        endpoint,
        way: Way::Sent,
    };
    push_known(writer, "heard_octets", octets_of(flows, heard))?;
    push_known(writer, "sent_octets", octets_of(flows, sent))
}

/// Which endpoint it is, and what it is called.
#[tactic(auto, unfolding(crate::specs::State::who_members))]
fn push_who(writer: &mut Writer, words: &[&[u8]]) -> Result<(), AllocError>
    ensures { Tells result writer.old writer.new (who_members (map (λ x. x.now) words.now)) }
{
    push_endpoint_members(writer, words)?;
    push_called(writer, "name", name_word(words))
}

#[tactic(auto, unfolding(crate::specs::State::endpoint_members))]
fn push_endpoint_members(writer: &mut Writer, words: &[&[u8]]) -> Result<(), AllocError>
    ensures { Tells result writer.old writer.new (endpoint_members (map (λ x. x.now) words.now)) }
{
    push_number(writer, "number", word_at(words, 0))?;
    push_number(writer, "ssrc", word_at(words, 2))?;
    push_text(writer, "address", word_at(words, 4))?;
    push_switch(writer, "present", word_at(words, 5), b"present")?;
    push_number(writer, "heard_ago_ms", word_at(words, 7))
}

/// How often something was refused of it.
#[tactic(auto, unfolding(crate::specs::State::refused_member))]
fn push_refused(writer: &mut Writer, word: &[u8]) -> Result<(), AllocError>
    ensures { Tells result writer.old writer.new (refused_member word.now) }
{
    push_number(writer, "refused", word)
}

/// The object of the leg that these words tell of.
fn push_leg(
    writer: &mut Writer,
    words: &[&[u8]],
    reports: &[ReceptionLine],
) -> Result<(), AllocError>
    ensures { Tells result writer.old writer.new
        (leg_words reports.now (map (λ x. x.now) words.now)) }
{
    if !is_word(word_at(words, 1), b"from") {
        return Ok(());
    }
    writer.begin_object()?;
    push_leg_ends(writer, words)?;
    push_flow_members(writer, words)?;
    push_heard(writer, reports, number_u16(word_at(words, 0)))?;
    writer.end_object()
}

/// What its subscriber reports of the leg with this number.
#[tactic(auto, unfolding(crate::specs::State::heard_members))]
fn push_heard(
    writer: &mut Writer,
    reports: &[ReceptionLine],
    number: Option<u16>,
) -> Result<(), AllocError>
    ensures { Tells result writer.old writer.new (heard_members reports.now number) }
{
    push_report(writer, leg_reported(reports, number))
}

#[tactic(auto, unfolding(crate::specs::State::report_members))]
fn push_report(writer: &mut Writer, report: Option<ReceptionLine>) -> Result<(), AllocError>
    ensures { Tells result writer.old writer.new (report_members report) }
{
    push_trip(writer, report)?;
    push_passed(writer, report)
}

/// Loss, jitter and round trip.
#[tactic(auto, unfolding(crate::specs::State::trip_members))]
fn push_trip(writer: &mut Writer, report: Option<ReceptionLine>) -> Result<(), AllocError>
    ensures { Tells result writer.old writer.new (trip_members report) }
{
    push_reception(writer, report)?;
    push_known(writer, "round_trip_ms", trip_of(report))
}

#[tactic(auto, unfolding(crate::specs::State::leg_members))]
fn push_leg_members(writer: &mut Writer, words: &[&[u8]]) -> Result<(), AllocError>
    ensures { Tells result writer.old writer.new (leg_members (map (λ x. x.now) words.now)) }
{
    push_number(writer, "leg", word_at(words, 0))?;
    push_number(writer, "publisher", word_at(words, 2))?;
    push_number(writer, "subscriber", word_at(words, 4))?;
    push_switch(writer, "on", word_at(words, 5), b"on")?;
    push_number(writer, "stay", word_at(words, 7))
}

/// Which leg it is, and what its ends are called.
#[tactic(auto, unfolding(crate::specs::State::leg_ends))]
fn push_leg_ends(writer: &mut Writer, words: &[&[u8]]) -> Result<(), AllocError>
    ensures { Tells result writer.old writer.new (leg_ends (map (λ x. x.now) words.now)) }
{
    push_leg_members(writer, words)?;
    push_called_ends(writer, words)
}

/// What the ends of a leg are called.
#[tactic(auto, unfolding(crate::specs::State::called_members))]
fn push_called_ends(writer: &mut Writer, words: &[&[u8]]) -> Result<(), AllocError>
    ensures { Tells result writer.old writer.new (called_members (map (λ x. x.now) words.now)) }
{
    push_publisher(writer, word_at(words, 21))?;
    push_subscriber(writer, word_at(words, 23))
}

#[tactic(auto, unfolding(crate::specs::State::publisher_member))]
fn push_publisher(writer: &mut Writer, word: &[u8]) -> Result<(), AllocError>
    ensures { Tells result writer.old writer.new (publisher_member word.now) }
{
    push_called(writer, "publisher_name", word)
}

#[tactic(auto, unfolding(crate::specs::State::subscriber_member))]
fn push_subscriber(writer: &mut Writer, word: &[u8]) -> Result<(), AllocError>
    ensures { Tells result writer.old writer.new (subscriber_member word.now) }
{
    push_called(writer, "subscriber_name", word)
}

/// What went out on a leg.
#[tactic(auto, unfolding(crate::specs::State::flow_members))]
fn push_flow_members(writer: &mut Writer, words: &[&[u8]]) -> Result<(), AllocError>
    ensures { Tells result writer.old writer.new (flow_members (map (λ x. x.now) words.now)) }
{
    push_number(writer, "packets", word_at(words, 9))?;
    push_number(writer, "octets", word_at(words, 11))?;
    push_number(writer, "resent", word_at(words, 13))?;
    push_number(writer, "missed", word_at(words, 15))?;
    push_number(writer, "next", word_at(words, 17))
}

/// The members of the totals that these words tell of.
fn push_total(writer: &mut Writer, words: &[&[u8]]) -> Result<(), AllocError>
    ensures { Tells result writer.old writer.new (totals_words (map (λ x. x.now) words.now)) }
{
    if !is_word(word_at(words, 0), b"present") {
        return Ok(());
    }
    push_totals_members(writer, words)?;
    push_losses_members(writer, words)
}

#[tactic(auto, unfolding(crate::specs::State::totals_members))]
fn push_totals_members(writer: &mut Writer, words: &[&[u8]]) -> Result<(), AllocError>
    ensures { Tells result writer.old writer.new (totals_members (map (λ x. x.now) words.now)) }
{
    push_number(writer, "present", word_at(words, 1))?;
    push_number(writer, "heard", word_at(words, 3))?;
    push_number(writer, "sent", word_at(words, 5))?;
    push_number(writer, "failed", word_at(words, 7))
}

/// What was lost, and what came from nobody.
#[tactic(auto, unfolding(crate::specs::State::losses_members))]
fn push_losses_members(writer: &mut Writer, words: &[&[u8]]) -> Result<(), AllocError>
    ensures { Tells result writer.old writer.new (losses_members (map (λ x. x.now) words.now)) }
{
    push_number(writer, "lost", word_at(words, 9))?;
    push_number(writer, "dropped", word_at(words, 11))?;
    push_number(writer, "strangers", word_at(words, 13))?;
    push_number(writer, "unread", word_at(words, 15))
}
