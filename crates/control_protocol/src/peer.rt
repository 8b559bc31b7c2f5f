//! One who asks: what came from it and isn't read yet, and what of its answer it didn't take yet.

use crate::answer::{Refused, refused_text};
use crate::inbox::{Inbox, MAX_INBOX};
use crate::patience::is_let_go;
use crate::request::{Request, read_request};
use std::alloc::Global;
use std::io::{ErrorKind, Read, Write};

/// A peer: where it is read and answered, what came from it, and what of its answer it didn't take yet.
#[derive(Drop)]
pub(crate) struct Peer<S: Drop> {
    pub(crate) stream: S,
    inbox: Inbox,
    /// The moment of its last line, or at which it came.
    pub(crate) since_ms: u64,
    /// Whether it said that it stays, however long it is silent.
    pub(crate) stays: bool,
    unsaid: Vec<u8>,
    /// How many bytes of that it took since.
    said: usize,
}

/// What came of a read.
#[derive(Clone, Copy)]
enum Came {
    Nothing,
    Bytes,
    /// Nothing more will come, or there is no memory for it.
    End,
}

/// What came of a look at a peer.
#[derive(Clone, Copy)]
pub(crate) enum Heard {
    Nothing,
    /// It is let go.
    Gone,
    Asked(Request),
}

impl<S: Read + Write + Drop> Peer<S> {
    ghost use Rattle.std.specs.Prelude.{◌≡◌, ◌⊎◌, false};
    ghost use Rattle.control_protocol.specs.Places.{peer_of, silence_at};

    /// One that came at this moment, and was neither heard nor told anything yet.
    pub(crate) fn new(alloc: Global, stream: S, moment: u64) -> Peer<S>
        ensures { (result.since_ms ≡ moment) × (result.stays ≡ false) }
    {
        Peer {
            stream,
            inbox: Inbox::new(alloc),
            since_ms: moment,
            stays: false,
            unsaid: Vec::new(alloc),
            said: 0,
        }
    }

    /// Reads once, if no line waits, and takes a line. A line that asks for nothing is answered here. Nothing is read before the peer
    /// took its last answer.
    pub(crate) fn hear(&mut self, alloc: Global, moment: u64) -> Heard {
        if !self.goes_on() {
            return Heard::Gone;
        }
        if !self.unsaid.is_empty() {
            return self.wait(moment);
        }
        match self.inbox.next_line() {
            Ok(Some(line)) => self.read_line(alloc, moment, line.as_slice()),
            Ok(None) => self.read_more(alloc, moment),
            Err(_) => Heard::Gone,
        }
    }

    /// Reads once, and takes a line if one has ended. Who sends too much without an end, or nothing for long, is let go.
    fn read_more(&mut self, alloc: Global, moment: u64) -> Heard {
        match self.read() {
            Came::Bytes => self.take_line(alloc, moment),
            Came::Nothing => self.wait(moment),
            Came::End => Heard::Gone,
        }
    }

    /// Reads once, if there is room, and keeps what came.
    fn read(&mut self) -> Came
        ensures { (self.new.since_ms ≡ self.old.since_ms) × (self.new.stays ≡ self.old.stays) }
    {
        let mut bytes = [0; MAX_INBOX];
        let room = self.inbox.room().min(MAX_INBOX);
        if room == 0 {
            return Came::Bytes;
        }
        match self.stream.read(&mut bytes[..room]) {
            Ok(0) => Came::End,
            Ok(count) => match self.inbox.take_in(&bytes[..count.min(MAX_INBOX)]) {
                Ok(()) => Came::Bytes,
                Err(_) => Came::End,
            },
            Err(error) if error.kind() == ErrorKind::WouldBlock => Came::Nothing,
            Err(error) if error.kind() == ErrorKind::Interrupted => Came::Nothing,
            Err(_) => Came::End,
        }
    }

    /// Whether the peer is there. If no line of it waits it is read for that; a line that waits then was said by this moment.
    pub(crate) fn is_there(&mut self, moment: u64) -> bool
        ensures since { (self.new.since_ms ≡ self.old.since_ms) ⊎ (self.new.since_ms ≡ moment) }
        ensures stays { self.new.stays ≡ self.old.stays }
    {
        if !self.unsaid.is_empty() {
            return true;
        }
        if !self.inbox.has_line() && matches!(self.read(), Came::End) {
            return false;
        }
        if self.inbox.has_line() {
            self.since_ms = moment;
        }
        true
    }

    fn take_line(&mut self, alloc: Global, moment: u64) -> Heard {
        match self.inbox.next_line() {
            Ok(Some(line)) => self.read_line(alloc, moment, line.as_slice()),
            Ok(None) if self.inbox.room() == 0 => {
                let _ = self.say(refused_text(Refused::Long).as_bytes());
                Heard::Gone
            }
            Ok(None) => self.wait(moment),
            Err(_) => Heard::Gone,
        }
    }

    fn read_line(&mut self, alloc: Global, moment: u64, line: &[u8]) -> Heard {
        self.since_ms = moment;
        match read_request(alloc, line) {
            Ok(Some(request)) => Heard::Asked(request),
            Ok(None) if self.say(refused_text(Refused::Unknown).as_bytes()) => Heard::Nothing,
            Ok(None) | Err(_) => Heard::Gone,
        }
    }

    fn wait(&self, moment: u64) -> Heard {
        if is_let_go(self.stays, self.unsaid.is_empty(), self.since_ms, moment) {
            Heard::Gone
        } else {
            Heard::Nothing
        }
    }

    /// For how many milliseconds it has said no whole line by this moment; one that stays is never silent.
    pub(crate) fn silence(&self, moment: u64) -> u64
        ensures { result ≡ silence_at moment (peer_of self.now.since_ms self.now.stays) }
    {
        if self.stays {
            0
        } else {
            moment.saturating_sub(self.since_ms)
        }
    }

    /// Writes as much of this as the peer takes now, and keeps the rest. Says whether the peer is there.
    pub(crate) fn say(&mut self, text: &[u8]) -> bool {
        self.said = 0;
        self.unsaid.clear();
        self.unsaid.extend_from_slice(text).is_ok() && self.goes_on()
    }

    /// Writes as much of what is unsaid as the peer takes now. Says whether the peer is there.
    fn goes_on(&mut self) -> bool {
        let Some(rest) = self.unsaid.as_slice().get(self.said..) else {
            return false;
        };
        if rest.is_empty() {
            return true;
        }
        match self.stream.write(rest) {
            Ok(0) => false,
            Ok(count) => {
                self.said = self.said.saturating_add(count);
                if self.said >= self.unsaid.len() {
                    self.unsaid.clear();
                    self.said = 0;
                }
                true
            }
            Err(error) => matches!(error.kind(), ErrorKind::WouldBlock | ErrorKind::Interrupted),
        }
    }
}
