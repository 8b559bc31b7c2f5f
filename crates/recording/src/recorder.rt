//! Who writes down what a unit takes in: it makes the lines, and hands them on to the thread that writes them.

ghost use Rattle.std.specs.Prelude.{◌≡◌, true, false, None, if◌then◌else◌};
ghost use Rattle.std.specs.String.{string_bytes};
ghost use Rattle.events.specs.declared.event.Event.TheVariants.{Tick};
ghost use Rattle.recording.specs.Lines.{event_lines};
ghost use Rattle.recording.specs.Taken.{taken_lines};
ghost use Rattle.recording.specs.Tapes.{IsMadeAndPut, IsPut, ended, new_tape};
ghost use Rattle.recording.specs.HandedOn.{IsHandedOn, IsWritten};
ghost use Rattle.recording.specs.NotedStrangers.{IsStrangerNoted, is_stranger_due, none_noted};

use crate::line::begun_line;
use crate::record_target::{RecordTarget, Written};
use crate::strangers::{NotedStrangers, UnknownSender};
use crate::taken::Taken;
use crate::tape::{End, Tape};
use crate::writer_thread::Outlet;
use std::alloc::Global;
use std::os::unix::net::UnixStream;
use std::thread::{JoinHandle, Threads};
use std::time::Duration;

/// How many bytes a record has at most, unless it is said: 1 GiB.
pub const RECORD_LIMIT: u64 = 1_073_741_824;

/// From so many bytes on what waits is handed on. So waking the thread that writes, and its call of the system, cost little for each packet.
const BLOCK: usize = 262_144;

/// So many milliseconds pass at most until what waits is handed on.
const FLUSH_MS: u64 = 1000;

/// What a peer that asks for a record is told before it.
const DONE: &[u8] = b"ok\n";

/// Who asked for a record may leave it unread for so many seconds; then it ends.
const PATIENCE_S: u64 = 10;

/// A leg that is sent on or not, unlike at the start of its unit.
#[derive(Clone, Copy, PartialEq, Eq)]
pub struct Switched {
    pub leg: u16,
    pub on: bool,
}

/// Writes down what a unit takes in, each event with the moment at which the unit takes it in, while somebody wants it.
#[derive(Drop)]
pub struct Recorder {
    alloc: Global,
    /// The lines with which each record of this unit begins.
    head: String,
    /// Where its records go, as people are told.
    place: String,
    tape: Tape,
    /// Of which unknown senders it has a line.
    strangers: NotedStrangers,
    /// How much of it stands where it is written.
    written: Written,
    /// Whether somebody wanted a record so far.
    has_begun: bool,
    /// Whether what is handed on is written to somewhere.
    is_open: bool,
    /// Whether somebody was told that the record ended.
    is_told: bool,
    /// The moment from which on what waits is handed on.
    due_ms: u64,
    /// The way to the thread that writes: blocks of whole lines.
    outlet: Outlet<RecordTarget>,
    thread: JoinHandle<()>,
}

impl Recorder {
    /// Of a unit for which nobody wants a record yet. Each record begins with these lines, and goes to this place, as people are told; where
    /// the first is written counts so.
    pub fn new(
        alloc: Global,
        head: String,
        place: String,
        written: Written,
        outlet: Outlet<RecordTarget>,
        thread: JoinHandle<()>,
    ) -> Recorder
        ensures head { (result.head ≡ head) × (result.place ≡ place) }
        ensures idle { (result.has_begun ≡ false) × (result.is_open ≡ false) }
        ensures told { result.is_told ≡ true }
    {
        let mut nothing = Tape::new(alloc, 0);
        nothing.end(End::Off);
        Recorder {
            alloc,
            head,
            place,
            tape: nothing,
            strangers: NotedStrangers::new(alloc),
            written,
            has_begun: false,
            is_open: false,
            is_told: true,
            due_ms: 0,
            outlet,
            thread,
        }
    }

    /// A record of at most so many bytes begins.
    pub fn begin(&mut self, limit: u64)
        ensures tape { IsPut (new_tape limit) (string_bytes self.old.head) self.new.tape }
        ensures begun { (self.new.has_begun ≡ true) × (self.new.is_open ≡ true) }
        ensures untold { self.new.is_told ≡ false }
        ensures strangers { self.new.strangers ≡ none_noted }
        ensures place { self.new.place ≡ self.old.place }
    {
        self.tape = Tape::new(self.alloc, limit);
        self.strangers = NotedStrangers::new(self.alloc);
        self.tape.put(self.head.as_str());
        self.has_begun = true;
        self.is_open = true;
        self.is_told = false;
    }

    /// A record begins at this moment in the middle of a run, for this peer, with these legs as they are. A peer for whom it can't begin is
    /// let go.
    pub fn begin_for(&mut self, peer: UnixStream, moment: u64, switched: &[Switched]) {
        let patience = Some(Duration::from_secs(PATIENCE_S));
        let Ok(written) = Written::new(self.alloc, DONE.len() as u64) else {
            return;
        };
        let Ok(count) = written.shared() else {
            return;
        };
        if peer.set_nonblocking(false).is_err()
            || peer.set_write_timeout(patience).is_err()
            || !self.outlet.turn_to(RecordTarget::Peer(peer, count))
        {
            return;
        }
        self.written = written;
        self.hand_on_done();
        self.begin(RECORD_LIMIT);
        match begun_line(self.alloc, moment) {
            Ok(line) => self.tape.put(line.as_str()),
            Err(_) => self.tape.end(End::Memory),
        }
        for Switched { leg, on } in switched {
            let (leg, on) = (*leg, *on);
            self.tape.put_taken(moment, Taken::Select { leg, on });
        }
    }

    /// Tells the peer that its request is done; what comes after that is its record.
    fn hand_on_done(&mut self) {
        let mut block = Vec::new(self.alloc);
        if block.extend_from_slice(DONE).is_ok() {
            let _ = self.outlet.hand_on(block);
        }
    }

    /// The record ends, since somebody wants it to.
    pub fn end(&mut self) {
        self.tape.end(End::Off);
    }

    /// Whether a record is being made. One that has ended is until the next turn.
    pub fn is_on(&self) -> bool
        ensures { result ≡ self.now.is_open }
    {
        self.is_open
    }

    /// In a turn this was taken in at this moment, in milliseconds since the run began. What waits is handed on if it is due.
    pub fn note(&mut self, moment: u64, taken: Taken<'_>)
        ensures off { self.old.is_open ≡ false → self.new.tape ≡ self.old.tape }
        ensures on { self.old.is_open ≡ true
            → IsWritten self.old.tape (taken_lines moment taken.entry) self.new.tape }
    {
        if !self.is_open {
            return;
        }
        self.tape.put_taken(moment, taken);
        if self.tape.why_ended().is_some() {
            self.close();
        } else if self.tape.waiting() >= BLOCK || moment >= self.due_ms {
            self.due_ms = moment.saturating_add(FLUSH_MS);
            self.hand_on();
        }
    }

    /// What was taken in can't be written down, for want of memory: the record ends.
    pub fn lacks_memory(&mut self)
        ensures { self.new.tape ≡ ended End.Memory self.old.tape }
    {
        self.tape.end(End::Memory);
    }

    /// The unit made a tick at this moment.
    pub fn ticked(&mut self, moment: u64)
        ensures off { self.old.is_open ≡ false → self.new.tape ≡ self.old.tape }
        ensures on { self.old.is_open ≡ true
            → IsMadeAndPut self.old.tape (event_lines (Tick moment)) self.new.tape }
    {
        if self.is_open {
            self.tape.put_ticked(moment);
        }
    }

    /// A datagram came from an unknown sender at this moment, in milliseconds since the run began. The record has a line of it the first time,
    /// and of no two within a second; for want of memory it has none.
    pub fn note_stranger(&mut self, moment: u64, sender: UnknownSender)
        ensures off { self.old.is_open ≡ false → (self.new.strangers ≡ self.old.strangers)
            × (self.new.tape ≡ self.old.tape) }
        ensures known { is_stranger_due ⟦<UnknownSender as PartialEq>⟧.eq self.old.strangers sender
            moment ≡ false → (self.new.strangers ≡ self.old.strangers)
            × (self.new.tape ≡ self.old.tape) }
        ensures noted { self.old.is_open ≡ true
            → is_stranger_due ⟦<UnknownSender as PartialEq>⟧.eq self.old.strangers sender moment ≡ true
            → IsStrangerNoted self.old.strangers sender moment self.new.strangers self.old.tape
            self.new.tape }
    {
        if self.is_open && self.strangers.is_due(sender, moment) {
            self.put_stranger(moment, sender);
        }
    }

    /// The record has a line of this unknown sender.
    fn put_stranger(&mut self, moment: u64, sender: UnknownSender)
        ensures { IsStrangerNoted self.old.strangers sender moment self.new.strangers self.old.tape
            self.new.tape }
    {
        if self.strangers.note(sender, moment).is_ok() {
            self.tape.put_stranger(moment, sender);
        }
    }

    /// The record has ended: hands on what waits, and lets go of where it is written. If the thread has no room to be told so, the
    /// next turn tries again.
    fn close(&mut self)
        ensures { IsHandedOn self.old.tape self.new.tape }
    {
        self.hand_on();
        self.is_open = !self.outlet.turn_to(RecordTarget::Nobody);
    }

    /// Hands on what waits. Nobody is waited for: if the ring is full, who writes is too slow, and the record ends.
    fn hand_on(&mut self)
        ensures { IsHandedOn self.old.tape self.new.tape }
    {
        if self.outlet.has_failed() {
            self.tape.end(End::Failed);
            return;
        }
        if self.tape.waiting() == 0 {
            return;
        }
        let spare = self.outlet.spare().unwrap_or(Vec::new(self.alloc));
        let block = self.tape.take(spare);
        if !self.outlet.hand_on(block) {
            self.tape.end(End::Slow);
        }
    }

    /// Where its records go, as people are told.
    pub fn place(&self) -> &str
        ensures { result.now ≡ string_bytes self.now.place }
    {
        self.place.as_str()
    }

    /// Why the record ended, if it did and nobody was told so.
    pub fn untold_end(&self) -> Option<End>
        ensures { result ≡ (if self.now.is_told then None else self.now.tape.end) }
    {
        if self.is_told {
            return None;
        }
        self.tape.why_ended()
    }

    /// Somebody is told that the record ended.
    pub fn note_told(&mut self)
        ensures told { self.new.is_told ≡ true }
        ensures tape { self.new.tape ≡ self.old.tape }
    {
        self.is_told = true;
    }

    /// How many bytes of the record stand where it is written, and why it ended, if it did; `None` if nobody wanted one so far.
    pub fn state(&self) -> Option<(u64, Option<End>)> {
        if !self.has_begun {
            return None;
        }
        Some((self.written.bytes(), self.tape.why_ended()))
    }

    /// The unit has ended: hands on what waits, and waits until it is written.
    pub fn finish<R: Threads>(self, rt: &R) {
        let mut last = self;
        if last.is_open {
            last.hand_on();
        }
        let Recorder { outlet, thread, .. } = last;
        outlet.close();
        thread.join(rt);
    }
}
