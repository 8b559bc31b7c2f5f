//! Whole runs of the unit in one thread: what goes out, and what a watch and a sink are told meanwhile.

use crate::doubles::{Cue, Looker, MemorySink, Moved, Played, RisingClock, Script, Shown, Slow};
use crate::expected::same;
use crate::rooms::{Link, ONE_WORKER, Room, is, rtp};
use crate::runs::run_in_one;
use events::Refusal;
use ports::{Look, Pace, Status, Timed, Unwatched};
use rtp_packet::RtpFault;
use settings::RoomFault;
use std::alloc::Global;
use std::sync::atomic::{AtomicBool, AtomicU64};
use std::test::Fail;

/// Endpoint 0 sends to endpoint 2, which never comes, and to endpoint 1.
const ONE_NEVER_COMES: Room = Room {
    endpoints: 3,
    links: &[
        Link {
            subscriber: 2,
            publisher: 0,
            out_ssrc: 258,
            first_seq: 100,
        },
        Link {
            subscriber: 1,
            publisher: 0,
            out_ssrc: 257,
            first_seq: 100,
        },
    ],
    ..ONE_WORKER
};

/// Both come, and the publisher sends a packet.
const THREE: [Played; 3] = [
    (1, Cue::Report(0)),
    (1, Cue::Report(1)),
    (1, Cue::Media(0, 7)),
];

/// Runs five turns: what was heard, sent and failed, and how many desks there are.
fn run_five(alloc: Global, sink: &mut MemorySink) -> Result<[u64; 4], Fail> {
    let settings = ONE_WORKER.settings(alloc)?;
    let is_played = AtomicBool::new(false);
    let mut feed = Script::of(&THREE, &is_played);
    let mut clock = Timed::by(RisingClock { moment: 0 });
    let pace = Pace {
        turns: 5,
        tick_ms: 10,
    };
    run_in_one(
        alloc,
        &settings,
        &mut feed,
        sink,
        &mut clock,
        &mut Unwatched,
        pace,
    )
}

/// Whether the packet was sent on, and nothing else was sent.
fn is_sent_on(sink: &MemorySink) -> bool {
    match sink.handed.as_slice() {
        [only] => is(only, 1, &rtp(100, [1, 1])),
        _ => false,
    }
}

/// Both come, and a packet goes to the subscriber under the leg's source and its first number.
#[test]
fn sends_in_one_thread(rt: HostRuntime) -> Result<(), Fail> {
    let mut sink = MemorySink::failing(rt.alloc(), 0);
    let counts = run_five(rt.alloc(), &mut sink)?;
    same(&rt, &counts, &[3, 1, 0, 2]);
    assert!(rt; is_sent_on(&sink));
    Ok(())
}

/// A NACK of 17 about source 257: packet 5 (RFC 4585, section 6.2.1).
const NACK: [u8; 16] = [0x81, 205, 0, 3, 0, 0, 0, 17, 0, 0, 1, 1, 0, 5, 0, 0];

/// A packet of version 1.
const VERSION_1: [u8; 14] = [0x40, 0x60, 0, 7, 0, 0, 0x0b, 0xb8, 0, 0, 0, 17, 0xaa, 0xbb];

/// Both come; three packets are sent on, one from before them isn't, and one that never was is asked for again; then comes what is no
/// packet, and a leg that isn't there is selected.
const ODD: [Played; 7] = [
    (1, Cue::Report(0)),
    (1, Cue::Report(1)),
    (3, Cue::Media(0, 7)),
    (1, Cue::Media(0, 6)),
    (1, Cue::Bytes(1, &NACK)),
    (1, Cue::Bytes(1, &VERSION_1)),
    (1, Cue::Select(7, true)),
];

/// Runs ten turns, whose receives take 10 ms each, and the last of which brings nothing. The first leg is to who never comes.
fn run_watched(alloc: Global, sink: &mut MemorySink, shown: &mut Shown) -> Result<(), Fail> {
    let settings = ONE_NEVER_COMES.settings(alloc)?;
    let (is_played, moment) = (AtomicBool::new(false), AtomicU64::new(0));
    let mut feed = Slow {
        script: Script::of(&ODD, &is_played),
        moment: &moment,
    };
    let mut clock = Timed::by(Moved { moment: &moment });
    let mut watch = Looker {
        wanted: [Look::Presence, Look::Stays, Look::Desk(0), Look::Desk(7)],
        shown,
    };
    let pace = Pace {
        turns: 10,
        tick_ms: 10,
    };
    let _counts = run_in_one(
        alloc, &settings, &mut feed, sink, &mut clock, &mut watch, pace,
    )?;
    Ok(())
}

/// The moment of each turn; who is present then, and what was heard, sent and failed by then.
const TOTALS: [(u64, [u64; 6]); 10] = [
    (10, [1, 1, 0, 0, 0, 0]),
    (20, [2, 2, 0, 0, 0, 0]),
    (30, [2, 3, 0, 1, 0, 0]),
    (40, [2, 4, 1, 1, 0, 0]),
    (50, [2, 5, 2, 1, 0, 0]),
    (60, [2, 6, 2, 1, 0, 0]),
    (70, [2, 7, 2, 1, 0, 0]),
    (80, [2, 8, 2, 1, 0, 0]),
    (90, [2, 8, 2, 1, 0, 0]),
    (100, [2, 8, 2, 1, 0, 0]),
];

/// Whether these totals were shown; nothing was lost or dropped.
fn has_totals(totals: &[(u64, Status)]) -> bool {
    for ((moment, status), (at, numbers)) in totals.iter().zip(&TOTALS) {
        let shown = [
            status.present,
            status.heard,
            status.sent,
            status.failed,
            status.lost,
            status.dropped,
        ];
        if *moment != *at || shown != *numbers {
            return false;
        }
    }
    totals.len() == TOTALS.len()
}

/// Whether the sink was told so of a miss, of a skip and of refusals.
fn is_told(sink: &MemorySink) -> bool {
    let refused = [
        (Some(1), Refusal::Rtp(RtpFault::Version)),
        (None, Refusal::Room(RoomFault::UnknownLeg)),
    ];
    sink.missed.as_slice() == [1].as_slice()
        && sink.skipped.as_slice() == [1].as_slice()
        && sink.refused.as_slice() == refused.as_slice()
}

/// Whether the watch was shown so who is present, stays and desks.
fn is_shown(shown: &Shown) -> bool {
    shown.present.as_slice() == [(0, true), (1, false), (2, false)].as_slice()
        && shown.stays.as_slice() == [(0, None), (1, Some(1))].as_slice()
        && shown.desks.as_slice() == [0].as_slice()
        && shown.ended == 4
}

/// The moment of a turn is that after its receive; its totals have what the turn itself did; a miss and a skip are told of their leg, and a refusal of
/// whose datagram it is; of each endpoint it is shown whether it is present, of each leg its stay, a desk if it is there; and each look ends.
#[test]
fn shows_what_each_turn_came_to(rt: HostRuntime) -> Result<(), Fail> {
    let mut shown = Shown::nothing(rt.alloc());
    let mut sink = MemorySink::failing(rt.alloc(), 1);
    run_watched(rt.alloc(), &mut sink, &mut shown)?;
    let is_so = [
        has_totals(shown.totals.as_slice()),
        is_told(&sink),
        is_shown(&shown),
    ];
    assert!(rt; is_so == [true; 3], "{is_so:?}");
    Ok(())
}
