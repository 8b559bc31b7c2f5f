//! What stands for the outside of a unit in tests: a script of arrivals, clocks, gates, sinks in memory, and a watch.

ghost use Rattle.std.specs.Prelude.{◌≡◌, ◌<◌, length};
ghost use Rattle.ports.specs.Outside.{FitsIn};

use crate::rooms::{media_packet, receiver_report};
use desk::Desk;
use events::{Bytes, Refusal};
use ports::written;
use std::alloc::{AllocError, Global};
use std::sync::atomic::{AtomicBool, AtomicU64, Ordering};
use std::thread;
use workers::*;

/// So often a gate looks before it gives up.
const PATIENCE: u32 = 10_000_000;

/// What a receive comes to. The endpoint 0 has the source 16, and so on.
#[derive(Clone, Copy)]
pub(super) enum Cue {
    /// A receiver report of this endpoint.
    Report(u8),
    /// A packet of this endpoint with this sequence number.
    Media(u8, u16),
    /// Other bytes from this endpoint.
    Bytes(u16, &'static [u8]),
    Select(u16, bool),
    Stop,
    Fault,
}

/// A cue, with how often it is played. A packet comes with the next number each time.
pub(super) type Played = (u16, Cue);

/// A feed that plays its cues one after the other; after them nothing comes, and it says so.
#[derive(Drop)]
pub(super) struct Script<'a> {
    cues: &'a [Played],
    /// The place of the next cue, and how often it was played.
    place: usize,
    played: u16,
    failures: u64,
    is_played: &'a AtomicBool,
}

impl<'a> Script<'a> {
    ghost use Rattle.std.specs.Prelude.{◌≡◌};

    pub(super) fn of(cues: &'a [Played], is_played: &'a AtomicBool) -> Script<'a> {
        Script {
            cues,
            place: 0,
            played: 0,
            failures: 0,
            is_played,
        }
    }

    /// The next cue, and how often it was played before.
    fn next_cue(&mut self) -> Option<(Cue, u16)>
        ensures failures { self.new.failures ≡ self.old.failures }
    {
        let (times, cue) = *self.cues.get(self.place)?;
        let before = self.played;
        self.played = before.wrapping_add(1);
        if self.played >= times {
            self.played = 0;
            self.place = self.place.wrapping_add(1);
        }
        Some((cue, before))
    }
}

/// The bytes come from this endpoint, if there is room for them.
fn datagram(endpoint: u16, bytes: &[u8], out: &mut [u8]) -> Received
    ensures { FitsIn (length out.new) result }
{
    match written(bytes, out) {
        Some(length) => Received::Datagram { endpoint, length },
        None => Received::Nothing,
    }
}

/// What comes by a cue that was played so often before, and is no fault.
fn received(cue: Cue, before: u16, out: &mut [u8]) -> Received
    ensures { FitsIn (length out.new) result }
{
    match cue {
        Cue::Report(endpoint) => {
            let report = receiver_report(endpoint.wrapping_add(16));
            datagram(u16::from(endpoint), report.as_slice(), out)
        }
        Cue::Media(endpoint, seq) => {
            let packet = media_packet(endpoint.wrapping_add(16), seq.wrapping_add(before));
            datagram(u16::from(endpoint), packet.as_slice(), out)
        }
        Cue::Bytes(endpoint, bytes) => datagram(endpoint, bytes, out),
        Cue::Select(leg, on) => Received::Select { leg, on },
        Cue::Stop => Received::Stop,
        Cue::Fault => Received::Nothing,
    }
}

impl<'a> Feed for Script<'a> {
    ghost use Rattle.std.specs.Prelude.{None};

    ghost failures = { λ s. s.failures };

    ghost given = { λ _. None };

    fn receive(&mut self, out: &mut [u8]) -> Result<Received, ReceiveFault> {
        let Some((cue, before)) = self.next_cue() else {
            self.is_played.store(true, Ordering::SeqCst);
            return Ok(Received::Nothing);
        };
        if matches!(cue, Cue::Fault) && self.failures < u64::MAX {
            self.failures += 1;
            return Err(ReceiveFault);
        }
        Ok(received(cue, before, out))
    }
}

/// The datagrams of a script, and its faults, as a source; any other cue is silence.
#[derive(Drop)]
pub(super) struct Datagrams<'a> {
    pub(super) script: Script<'a>,
}

impl<'a> Source for Datagrams<'a> {
    ghost failures = { λ s. s.script.failures };

    fn receive(&mut self, out: &mut [u8]) -> Result<Option<(u16, usize)>, ReceiveFault> {
        match self.script.receive(out)? {
            Received::Datagram { endpoint, length } => Ok(Some((endpoint, length))),
            Received::Nothing | Received::Select { .. } | Received::Stop => Ok(None),
        }
    }
}

/// A feed that plays its script; each receive takes 10 ms, by which a clock that is asked after it is later.
#[derive(Drop)]
pub(super) struct Slow<'a> {
    pub(super) script: Script<'a>,
    pub(super) moment: &'a AtomicU64,
}

impl<'a> Feed for Slow<'a> {
    ghost use Rattle.std.specs.Prelude.{None};

    ghost failures = { λ s. s.script.failures };

    ghost given = { λ _. None };

    fn receive(&mut self, out: &mut [u8]) -> Result<Received, ReceiveFault> {
        self.moment.fetch_add(10, Ordering::SeqCst);
        self.script.receive(out)
    }
}

/// A clock that stands still.
#[derive(Drop)]
pub(super) struct StoppedClock;

impl Clock for StoppedClock {
    fn moment(&mut self) -> u64 {
        0
    }
}

/// A clock that rises by 20 ms each time it is asked.
#[derive(Drop)]
pub(super) struct RisingClock {
    pub(super) moment: u64,
}

impl Clock for RisingClock {
    fn moment(&mut self) -> u64 {
        self.moment = self.moment.saturating_add(20);
        self.moment
    }
}

/// A clock that somebody else moves.
#[derive(Drop)]
pub(super) struct Moved<'a> {
    pub(super) moment: &'a AtomicU64,
}

impl<'a> Clock for Moved<'a> {
    fn moment(&mut self) -> u64 {
        self.moment.load(Ordering::SeqCst)
    }
}

/// A gate that holds nobody.
#[derive(Drop)]
pub(super) struct OpenGate;

impl Gate for OpenGate {
    fn hold(&self, _worker: u16) {}

    fn done(&self, _worker: u16) {}
}

/// Holds the first job of each of two workers until the other worker holds its own.
#[derive(Drop)]
pub(super) struct Pairing {
    came: [AtomicBool; 2],
    met: [AtomicBool; 2],
}

impl Pairing {
    pub(super) fn new() -> Pairing {
        Pairing {
            came: [AtomicBool::new(false), AtomicBool::new(false)],
            met: [AtomicBool::new(false), AtomicBool::new(false)],
        }
    }

    /// Whether each worker held its first job while the other held its own.
    pub(super) fn all_met(&self) -> bool {
        self.met[0].load(Ordering::SeqCst) && self.met[1].load(Ordering::SeqCst)
    }
}

impl Gate for Pairing {
    fn hold(&self, worker: u16) {
        let me = usize::from(worker) % 2;
        if self.came[me].swap(true, Ordering::SeqCst) {
            return;
        }
        for _look in 0..PATIENCE {
            if self.came[1 - me].load(Ordering::SeqCst) {
                self.met[me].store(true, Ordering::SeqCst);
                return;
            }
            thread::yield_now();
        }
    }

    fn done(&self, _worker: u16) {}
}

/// Holds jobs until something has come about.
#[derive(Drop)]
pub(super) struct Until<'a> {
    pub(super) has_come: &'a AtomicBool,
}

impl<'a> Gate for Until<'a> {
    fn hold(&self, _worker: u16) {
        for _look in 0..PATIENCE {
            if self.has_come.load(Ordering::SeqCst) {
                return;
            }
            thread::yield_now();
        }
    }

    fn done(&self, _worker: u16) {}
}

/// A sink in memory, which promises nothing of its lists: tests read them. Its first sends fail, so many as it was made with.
#[derive(Drop)]
pub(super) struct MemorySink {
    alloc: Global,
    pub(super) handed: Vec<Datagram>,
    to_fail: u64,
    failures: u64,
    /// The legs of packets that were asked for again in vain.
    pub(super) missed: Vec<u16>,
    pub(super) skipped: Vec<u16>,
    /// What was refused, and of whose datagram.
    pub(super) refused: Vec<(Option<u16>, Refusal)>,
}

impl MemorySink {
    ghost use Rattle.std.specs.Prelude.{◌≡◌};

    /// A sink whose first sends fail.
    pub(super) fn failing(alloc: Global, to_fail: u64) -> MemorySink {
        MemorySink {
            alloc,
            handed: Vec::new(alloc),
            to_fail,
            failures: 0,
            missed: Vec::new(alloc),
            skipped: Vec::new(alloc),
            refused: Vec::new(alloc),
        }
    }

    fn keep(&mut self, endpoint: u16, bytes: &[u8]) -> Result<(), AllocError>
        ensures failures { self.new.failures ≡ self.old.failures }
    {
        let bytes = Bytes::copy_of(self.alloc, bytes)?;
        self.handed.push(Datagram { endpoint, bytes })?;
        Ok(())
    }
}

impl Sink for MemorySink {
    ghost use Rattle.std.specs.Prelude.{None};

    ghost shown = { λ s. record { handed = None; failures = s.failures } };

    fn send(&mut self, endpoint: u16, bytes: &[u8]) -> Result<(), SendFault> {
        if self.keep(endpoint, bytes).is_err() {
            let _again = self.keep(endpoint, bytes);
        }
        if self.failures >= self.to_fail {
            return Ok(());
        }
        self.failures += 1;
        Err(SendFault)
    }

    fn missed(&mut self, leg: u16) {
        let _ = self.missed.push(leg);
    }

    fn skipped(&mut self, leg: u16) {
        let _ = self.skipped.push(leg);
    }

    fn refused(&mut self, endpoint: Option<u16>, refusal: Refusal) {
        let _ = self.refused.push((endpoint, refusal));
    }
}

/// So many sinks in memory. Of the first one so many sends fail as `to_fail` says first, and so on.
pub(super) fn sinks_of(
    alloc: Global,
    count: u64,
    to_fail: &[u64],
) -> Result<Vec<MemorySink>, AllocError> {
    let mut sinks = Vec::new(alloc);
    for sink in 0..count as usize {
        let fails = to_fail.get(sink).copied().unwrap_or(0);
        sinks.push(MemorySink::failing(alloc, fails))?;
    }
    Ok(sinks)
}

/// What was shown, and how many looks ended.
#[derive(Drop)]
pub(super) struct Shown {
    pub(super) present: Vec<(u16, bool)>,
    pub(super) stays: Vec<(u16, Option<u64>)>,
    pub(super) desks: Vec<u16>,
    /// The moment of each turn, and the totals then.
    pub(super) totals: Vec<(u64, Status)>,
    pub(super) ended: usize,
}

impl Shown {
    pub(super) fn nothing(alloc: Global) -> Shown {
        Shown {
            present: Vec::new(alloc),
            stays: Vec::new(alloc),
            desks: Vec::new(alloc),
            totals: Vec::new(alloc),
            ended: 0,
        }
    }
}

/// A watch that is due after each turn, and looks at one thing after the other.
#[derive(Drop)]
pub(super) struct Looker<'a> {
    pub(super) wanted: [Look; 4],
    pub(super) shown: &'a mut Shown,
}

impl Watch for Looker<'_> {
    fn is_due(&self, _moment: u64) -> bool {
        true
    }

    fn show(&mut self, moment: u64, status: &Status) {
        let _ = self.shown.totals.push((moment, *status));
    }

    fn look(&self) -> Look {
        self.wanted
            .get(self.shown.ended)
            .copied()
            .unwrap_or(Look::Nothing)
    }

    fn show_endpoint(&mut self, endpoint: u16, is_present: bool) {
        let _ = self.shown.present.push((endpoint, is_present));
    }

    fn show_stay(&mut self, leg: u16, stay: Option<u64>) {
        let _ = self.shown.stays.push((leg, stay));
    }

    fn show_desk(&mut self, publisher: u16, _desk: &Desk) {
        let _ = self.shown.desks.push(publisher);
    }

    fn end_look(&mut self) {
        self.shown.ended = self.shown.ended.saturating_add(1);
    }
}
