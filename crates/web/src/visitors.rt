//! Those who came, each of whom is looked at in turn and none waited for.

ghost use Rattle.std.specs.Prelude.{◌<◌, ◌≤◌, ◌↔◌, IsTrue, vec_len};
ghost use Rattle.web.specs.declared.visitors.TheConstants.{MAX_VISITORS};

use crate::teller::Teller;
use http_server::{Config, Connection};
use http1::Limits;
use std::alloc::Global;
use std::hash::RandomState;
use std::io::{self, ErrorKind, Read, Write};
use std::marker::Model;

/// So many visitors there are at most.
pub const MAX_VISITORS: usize = 64;

/// So many milliseconds a visitor may take to ask and to take the answer.
const PATIENCE_MS: u64 = 10_000;

/// So many pieces of an answer a visitor is given at one look.
const PIECES: u32 = 64;

/// How long the head of a request may be, and its body; how much of an answer may wait.
const CONFIG: Config = Config {
    limits: Limits {
        max_head_len: 8_192,
        max_extensions_len: 256,
        max_trailers_len: 256,
    },
    max_body_len: 1_024,
    max_pending: 65_536,
    read_size: 4_096,
};

/// A visitor: one request and its answer.
#[derive(Drop)]
struct Visitor<S: Drop> {
    stream: S,
    connection: Connection,
    /// The moment at which it came.
    since_ms: u64,
}

impl<S: Read + Write + Drop> Visitor<S> {
    /// Reads once, answers, and writes what is taken now. Says whether the visitor stays.
    fn look(&mut self, teller: &mut Teller, moment: u64) -> bool {
        if moment.saturating_sub(self.since_ms) >= PATIENCE_MS {
            return false;
        }
        if self.connection.wants_read() && !self.read_once() {
            return false;
        }
        self.connection.advance(teller);
        for _piece in 0..PIECES {
            if !self.connection.wants_write() {
                break;
            }
            match self.connection.write_to(&mut self.stream) {
                Ok(0) => return false,
                Ok(_) => self.connection.advance(teller),
                Err(error) if waits(&error) => return true,
                Err(_) => return false,
            }
        }
        !self.connection.is_done()
    }

    /// Reads once. Says whether the visitor is there.
    fn read_once(&mut self) -> bool {
        match self.connection.read_from(&mut self.stream) {
            Ok(_) => true,
            Err(error) => waits(&error),
        }
    }
}

/// Whether nothing more can be read or written for now.
fn waits(error: &io::Error) -> bool {
    matches!(error.kind(), ErrorKind::WouldBlock | ErrorKind::Interrupted)
}

/// A visitor that came at this moment, with whom nothing was said yet.
fn visitor_of<S: Drop>(alloc: Global, keys: RandomState, stream: S, since_ms: u64) -> Visitor<S> {
    Visitor {
        stream,
        connection: Connection::new(alloc, keys, CONFIG),
        since_ms,
    }
}

/// Whether so many are as many as may be.
fn is_full(count: usize) -> bool
    ensures { IsTrue result ↔ (MAX_VISITORS ≤ count) }
{
    count >= MAX_VISITORS
}

/// Lets the one that came first go, if there are as many as may be.
fn make_room<S: Drop>(visitors: &mut Vec<Visitor<S>>)
    ensures kept { vec_len visitors.new ≤ vec_len visitors.old }
    ensures full { MAX_VISITORS ≤ vec_len visitors.old → vec_len visitors.new < vec_len visitors.old }
{
    if is_full(visitors.len()) {
        let _first = visitors.remove(0);
    }
}

/// The visitors. Contracts see how many they are.
#[derive(Drop)]
pub struct Visitors<S: Drop> {
    alloc: Global,
    keys: RandomState,
    visitors: Vec<Visitor<S>>,
}

impl<S: Drop> Model for Visitors<S> {
    ghost use Rattle.std.specs.Prelude.{ℕ, vec_len};

    ghost Value = { ℕ };

    ghost view = { λ v. vec_len v.visitors };
}

impl<S: Read + Write + Drop> Visitors<S> {
    ghost use Rattle.std.specs.Prelude.{◌≡◌, ◌<◌, ◌≤◌, ◌+◌};
    ghost use Rattle.web.specs.declared.visitors.TheConstants.{MAX_VISITORS};

    /// Nobody. The keys are secret: they say where the names of header fields are kept.
    pub fn new(alloc: Global, keys: RandomState) -> Visitors<S>
        ensures { result ≡ 0 }
    {
        Visitors {
            alloc,
            keys,
            visitors: Vec::new(alloc),
        }
    }

    /// How many they are.
    pub fn count(&self) -> usize
        ensures { result ≡ self.now }
    {
        self.visitors.len()
    }

    /// A visitor came at this moment. If there are as many as may be, the one that came first is let go; for want of memory the new one is.
    pub fn admit(&mut self, stream: S, moment: u64)
        ensures room { self.new ≤ self.old + 1 }
        ensures full { MAX_VISITORS ≤ self.old → self.new ≤ self.old }
    {
        make_room(&mut self.visitors);
        let visitor = visitor_of(self.alloc, self.keys, stream, moment);
        let _ = self.visitors.push(visitor);
    }

    /// Each visitor is looked at once, in the order in which they came; who is done, or takes too long, is let go.
    pub fn look(&mut self, teller: &mut Teller, moment: u64)
        ensures { self.new ≤ self.old }
    {
        self.visitors
            .retain_mut(|visitor| visitor.look(teller, moment));
    }
}
