//! What a watch is shown, and a sink told of refusals, while the unit runs.

ghost use Rattle.std.specs.Prelude.{◌+◌};

use crate::doubles::{Cue, Looker, OpenGate, Played, RisingClock, Script, Shown};
use crate::expected::same;
use crate::rooms::TWO_WORKERS;
use crate::runs::run_in_threads;
use events::Refusal;
use rtp_packet::RtpFault;
use std::alloc::{AllocError, Global};
use std::sync::Wait;
use std::sync::atomic::{AtomicBool, AtomicU64, Ordering};
use std::test::Fail;
use std::thread::Threads;
use workers::*;

/// How often something was refused: packets of the endpoint 1 for their version, and all else.
#[derive(Drop)]
struct Refused {
    versions: AtomicU64,
    others: AtomicU64,
}

/// A sink that counts what was refused.
#[derive(Drop)]
struct Refusing<'a> {
    refused: &'a Refused,
}

impl Sink for Refusing<'_> {
    ghost use Rattle.std.specs.Prelude.{None};

    ghost shown = { λ _. record { handed = None; failures = 0 } };

    fn send(&mut self, _endpoint: u16, _bytes: &[u8]) -> Result<(), SendFault> {
        Ok(())
    }

    fn refused(&mut self, endpoint: Option<u16>, refusal: Refusal) {
        let is_version = endpoint == Some(1) && refusal == Refusal::Rtp(RtpFault::Version);
        let count = if is_version {
            &self.refused.versions
        } else {
            &self.refused.others
        };
        count.fetch_add(1, Ordering::SeqCst);
    }
}

/// So many sinks that count together.
fn refusing_sinks(
    alloc: Global,
    refused: &Refused,
    count: u64,
) -> Result<Vec<Refusing<'_>>, AllocError> {
    let mut sinks = Vec::new(alloc);
    for _sink in 0..count {
        sinks.push(Refusing { refused })?;
    }
    Ok(sinks)
}

/// A packet of version 1.
const VERSION_1: [u8; 12] = [0x40, 0x60, 0, 7, 0, 0, 0x0b, 0xb8, 0, 0, 0, 17];

/// A subscriber comes, then the publisher, then the other subscriber, then a packet of version 1, and a stop.
const CUES: [Played; 5] = [
    (1, Cue::Report(1)),
    (1, Cue::Report(2)),
    (1, Cue::Report(0)),
    (1, Cue::Bytes(1, &VERSION_1)),
    (1, Cue::Stop),
];

/// Runs these on threads, and says whether a report came.
fn run_looked_at<R: Threads + Wait + Sync>(
    rt: &R,
    alloc: Global,
    shown: &mut Shown,
    refused: &Refused,
) -> Result<bool, Fail> {
    let settings = TWO_WORKERS.settings(alloc)?;
    let is_played = AtomicBool::new(false);
    let sinks = refusing_sinks(alloc, refused, settings.workers() + 1)?;
    let outside = Outside {
        feed: Script::of(&CUES, &is_played),
        sinks,
        clock: Timed::by(RisingClock { moment: 0 }),
        watch: Looker {
            wanted: [Look::Presence, Look::Stays, Look::Desk(2), Look::Desk(3)],
            shown,
        },
    };
    let pace = Pace {
        turns: 9,
        tick_ms: 1,
    };
    let ran = run_in_threads(rt, alloc, &settings, outside, &OpenGate, pace)?;
    Ok(ran.is_ok())
}

/// Whether these moments were shown, with so many endpoints that are present, and so many datagrams that came by then.
fn has_totals(shown: &[(u64, Status)], wanted: &[(u64, u64, u64)]) -> bool {
    for ((moment, status), total) in shown.iter().zip(wanted) {
        if (*moment, status.present, status.heard) != *total {
            return false;
        }
    }
    shown.len() == wanted.len()
}

/// The moment of each turn, how many endpoints are present then, and how many datagrams came by then.
const TOTALS: [(u64, u64, u64); 5] = [(20, 1, 1), (40, 2, 2), (60, 3, 3), (80, 3, 4), (100, 3, 4)];

/// Whether the watch was shown so who is present, stays and desks.
fn is_shown(shown: &Shown) -> bool {
    shown.present.as_slice() == [(0, false), (1, true), (2, false)].as_slice()
        && shown.stays.as_slice() == [(0, None), (1, Some(1))].as_slice()
        && shown.desks.as_slice() == [2].as_slice()
        && shown.ended == 4
}

/// After each turn the totals are shown, after that of the stop, too; of each endpoint whether it is present, of each leg its stay, a
/// desk if it is there; and each look ends. What is refused is told once, of whose datagram it is.
#[test]
fn watch_sees_each_turn(rt: HostRuntime) -> Result<(), Fail> {
    let alloc = rt.alloc();
    let mut shown = Shown::nothing(alloc);
    let refused = Refused {
        versions: AtomicU64::new(0),
        others: AtomicU64::new(0),
    };
    let ran = run_looked_at(&rt, alloc, &mut shown, &refused)?;
    let counts = [
        refused.versions.load(Ordering::SeqCst),
        refused.others.load(Ordering::SeqCst),
    ];
    let is_so = [
        ran,
        has_totals(shown.totals.as_slice(), &TOTALS),
        is_shown(&shown),
    ];
    same(&rt, &(is_so, counts), &([true; 3], [1, 0]));
    Ok(())
}
