//! What reports say and what is refused, as it is counted and told.

use crate::expected::same;
use crate::loopback::settings_in;
use datagram::{Notes, Reading, read_noting};
use events::{DeskRefusal, Refusal};
use rtcp_compound::{Block, RtcpFault, write_rr, write_sr};
use rtp_packet::RtpFault;
use settings::RoomFault;
use stats::{
    NumberedReport, ReceptionReport, Subject, Traffic, endpoint_labels, push_refusal_figures,
    push_refusal_lines,
};
use std::alloc::{AllocError, Global};
use std::process::Abort;
use std::test::Fail;
use tmmbr_tuple::Ssrc;

/// The report block of RFC 3550, section 6.4.1, figure 2: of what was sent at 46,853.125 s, it came at 46,864.5 s from who had had that for
/// 5.25 s.
const fn block_of_the_figure() -> Block {
    block_about(257, 0xb705_2000, 0x0005_4000)
}

/// A report block about this source, with this LSR and DLSR.
const fn block_about(source: u32, last_sr: u32, delay: u32) -> Block {
    Block {
        source: Ssrc(source),
        fraction: 64,
        lost: -2,
        highest: 7,
        jitter: 90,
        last_sr,
        delay,
    }
}

/// A room of three, in which the first is sent on to the others.
const ROOM: &str =
    "workers = 1\nring = 8\nhistory = 128\ntimeout_ms = 1000\nreport_ms = 1000\npli_gap_ms = 500\nunit_ssrc = 9\n\
cname = \"sfu\"\n[[endpoint]]\nssrc = 16\n[[endpoint]]\nssrc = 17\n[[endpoint]]\nssrc = 18\n\
[[leg]]\nsubscriber = 2\npublisher = 0\nout_ssrc = 258\n[[leg]]\nsubscriber = 1\npublisher = 0\nout_ssrc = 257\n";

/// The counts of that room.
fn room_traffic(alloc: Global) -> Result<Traffic, Fail> {
    let settings = settings_in(alloc, ROOM)?;
    Ok(Traffic::new(alloc, &settings)?)
}

/// What is noted of a datagram of an endpoint.
fn notes_of(alloc: Global, datagram: &[u8]) -> Result<Notes, Fail> {
    let mut notes = Notes::with_room(alloc, 1, 1)?;
    read_noting(
        datagram,
        Ssrc(17),
        None,
        &mut Reading::new(alloc),
        &mut notes,
    )?;
    Ok(notes)
}

/// A receiver report of this sender with this block.
fn receiver_report(alloc: Global, sender: u32, block: Block) -> Result<Vec<u8>, Fail> {
    let mut bytes = Vec::new(alloc);
    write_rr(&mut bytes, Ssrc(sender), &[block])?;
    Ok(bytes)
}

/// At 1,000 ms a sender report of leg 1 goes to its subscriber.
fn send_report(alloc: Global, traffic: &Traffic) -> Result<(), Fail> {
    let mut report = Vec::new(alloc);
    write_sr(&mut report, Ssrc(257), 0x1234_b705_2000_5678, 0, 0, 0, &[])?;
    traffic.turned(1000);
    traffic.sent(1, report.as_slice());
    traffic.turned(6300);
    Ok(())
}

/// At 6,300 ms this endpoint reports of leg 1 what the figure says.
fn hear_report(alloc: Global, traffic: &Traffic, endpoint: u16) -> Result<(), Fail> {
    let answer = receiver_report(alloc, 17, block_of_the_figure())?;
    let notes = notes_of(alloc, answer.as_slice())?;
    traffic.heard_control(endpoint, answer.len(), &notes, 6300);
    Ok(())
}

/// The unit reports the same of the publisher to this endpoint.
fn send_upstream(alloc: Global, traffic: &Traffic, endpoint: u16) -> Result<(), Fail> {
    let upstream = receiver_report(alloc, 9, block_about(16, 0, 0))?;
    traffic.sent(endpoint, upstream.as_slice());
    Ok(())
}

/// What is said of that then, with this round trip.
const fn reported(round_trip_ms: Option<u32>, interval_ms: u64) -> ReceptionReport {
    ReceptionReport {
        fraction: 64,
        lost: -2,
        jitter: 90,
        round_trip_ms,
        moment: 6300,
        interval_ms,
    }
}

/// The subscriber of leg 1 answers: its report is noted, with the round trip; that of another endpoint about the same leg isn't.
fn note_answer(rt: &impl Abort, alloc: Global, traffic: &Traffic) -> Result<(), Fail> {
    send_report(alloc, traffic)?;
    hear_report(alloc, traffic, 2)?;
    same(rt, &traffic.leg_report(1), &None);
    hear_report(alloc, traffic, 1)?;
    same(rt, &traffic.leg_report(1), &Some(reported(Some(50), 0)));
    same(rt, &traffic.leg_report(0), &None);
    let listed = traffic.leg_reports(alloc, 6300)?;
    let of_leg_1 = NumberedReport {
        number: 1,
        report: reported(Some(50), 0),
    };
    assert!(rt; listed.as_slice() == [of_leg_1].as_slice());
    Ok(())
}

/// What the unit reports of a publisher is noted as it is sent to it.
fn note_upstream(rt: &impl Abort, alloc: Global, traffic: &Traffic) -> Result<(), Fail> {
    send_upstream(alloc, traffic, 1)?;
    same(rt, &traffic.publisher_report(1), &None);
    send_upstream(alloc, traffic, 0)?;
    same(
        rt,
        &traffic.publisher_report(0),
        &Some(reported(None, 1000)),
    );
    let listed = traffic.publisher_reports(alloc, 6300)?;
    same(rt, &listed.len(), &1);
    Ok(())
}

/// A sender report of leg 1 goes to its subscriber, which answers: its report is noted, with the round trip; that of another endpoint about
/// the same leg isn't. What the unit reports of a publisher is noted as it is sent.
#[test]
fn reports_of_a_room(rt: HostRuntime) -> Result<(), Fail> {
    let traffic = room_traffic(rt.alloc())?;
    note_answer(&rt, rt.alloc(), &traffic)?;
    note_upstream(&rt, rt.alloc(), &traffic)
}

/// What was refused, endpoint by endpoint: the same twice, reasons of one endpoint, the last of their kinds, one of no datagram, and one of
/// an endpoint that isn't there.
const REFUSED: [(Option<u16>, Refusal); 7] = [
    (Some(2), Refusal::Rtp(RtpFault::Version)),
    (None, Refusal::Desk(DeskRefusal::HistoryFull)),
    (Some(2), Refusal::Rtcp(RtcpFault::SdesUnended)),
    (Some(0), Refusal::Room(RoomFault::UnknownLeg)),
    (Some(2), Refusal::Rtp(RtpFault::Version)),
    (Some(2), Refusal::Rtcp(RtcpFault::Version)),
    (Some(3), Refusal::Rtp(RtpFault::Short)),
];

/// What is told of it in words,
const TOLD: &str =
    "endpoint 0 room 3 times 1: no such leg, or no stay on it\nendpoint 2 rtp 2 times 2: an RTP packet of another version than 2\nendpoint 2 rtcp 2 times 1: an RTCP packet of another version than 2\nendpoint 2 rtcp 7 times 1: a source description that doesn't end\nendpoint none desk 4 times 1: a desk that has no call left\n";

/// and as a metric.
const MEASURED: &str =
    "# HELP sfu_refused_total What was refused of what came from the endpoint.\n# TYPE sfu_refused_total counter\nsfu_refused_total{endpoint=\"0\",name=\"ann\",kind=\"room\",reason=\"3\"} 1\nsfu_refused_total{endpoint=\"2\",name=\"c\\\\\\\"@2\",kind=\"rtp\",reason=\"2\"} 2\nsfu_refused_total{endpoint=\"2\",name=\"c\\\\\\\"@2\",kind=\"rtcp\",reason=\"2\"} 1\nsfu_refused_total{endpoint=\"2\",name=\"c\\\\\\\"@2\",kind=\"rtcp\",reason=\"7\"} 1\nsfu_refused_total{endpoint=\"none\",kind=\"desk\",reason=\"4\"} 1\n";

/// All of it is refused.
fn refuse_all(traffic: &Traffic) {
    for (endpoint, refusal) in REFUSED {
        traffic.refused(endpoint, refusal);
    }
}

/// What the endpoints are called.
const NAMES: [(u16, &str); 3] = [(0, "ann"), (1, "1"), (2, "c\\\"@2")];

/// Of whom the metric is.
fn subjects_of(alloc: Global) -> Result<Vec<Subject>, AllocError> {
    let mut all = Vec::new(alloc);
    for (endpoint, name) in NAMES {
        all.push(Subject {
            labels: endpoint_labels(alloc, endpoint, name)?,
            clock_rate: None,
        })?;
    }
    Ok(all)
}

/// The lines about it, and the metric.
fn push_told(
    alloc: Global,
    traffic: &Traffic,
    lines: &mut String,
    figures: &mut String,
) -> Result<(), Fail> {
    let counts = traffic.refusals(alloc)?;
    push_refusal_lines(lines, counts.as_slice())?;
    let subjects = subjects_of(alloc)?;
    push_refusal_figures(figures, subjects.as_slice(), counts.as_slice())?;
    Ok(())
}

/// How much was refused of this endpoint.
fn refused_of(traffic: &Traffic, endpoint: u16) -> Option<u64> {
    let count = traffic.endpoint(endpoint)?;
    Some(count.refused)
}

/// It is told so, and counted of each endpoint.
fn tell_refused(rt: &impl Abort, alloc: Global, traffic: &Traffic) -> Result<(), Fail> {
    let (mut lines, mut figures) = (String::new(alloc), String::new(alloc));
    push_told(alloc, traffic, &mut lines, &mut figures)?;
    same(rt, &lines.as_str(), &TOLD);
    same(rt, &figures.as_str(), &MEASURED);
    let refused = [
        refused_of(traffic, 0),
        refused_of(traffic, 1),
        refused_of(traffic, 2),
    ];
    same(rt, &refused, &[Some(1), Some(0), Some(4)]);
    Ok(())
}

/// What was refused is counted by endpoint and by reason, and told in words and as a metric.
#[test]
fn refusals_of_a_room(rt: HostRuntime) -> Result<(), Fail> {
    let traffic = room_traffic(rt.alloc())?;
    refuse_all(&traffic);
    tell_refused(&rt, rt.alloc(), &traffic)
}
