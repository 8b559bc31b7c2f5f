//! What stands for the outside of a unit that plays the turns of a test: a feed that moves the clock, a count of the jobs
//! that are done, and sinks that hand on what they are told. All of them share a `Stage`.

ghost use Rattle.std.specs.Prelude.{◌+◌, None};

use crate::random_turns::{Coming, Turn};
use crate::told::{Told, What};
use events::{Bytes, Refusal};
use rtrb::{Consumer, Producer, RingBuffer};
use std::alloc::{AllocError, Global};
use std::sync::atomic::{AtomicU64, Ordering};
use std::thread;
use workers::*;

/// So much a sink hands on.
pub(super) const ROOM: usize = 1 << 15;

/// So often the feed looks whether the workers are done, before it gives up.
const PATIENCE: u32 = 100_000_000;

/// Where a unit that plays turns stands.
#[derive(Drop)]
pub(super) struct Stage {
    /// The number of the turn that is played.
    turn: AtomicU64,
    /// The moment of it.
    pub(super) moment: AtomicU64,
    /// How many jobs workers have done.
    done: AtomicU64,
}

impl Stage {
    /// No turn was played; so many jobs are taken for done.
    pub(super) fn new(done: u64) -> Stage {
        Stage {
            turn: AtomicU64::new(0),
            moment: AtomicU64::new(0),
            done: AtomicU64::new(done),
        }
    }
}

/// A feed that waits until the workers are done with what came before; it moves the clock.
#[derive(Drop)]
pub(super) struct Turned<'a> {
    turns: &'a [Turn],
    next: usize,
    stage: &'a Stage,
}

impl<'a> Turned<'a> {
    pub(super) fn new(turns: &'a [Turn], stage: &'a Stage) -> Turned<'a> {
        Turned {
            turns,
            next: 0,
            stage,
        }
    }

    /// Waits until the workers have done so many jobs; says whether they have.
    fn waits_for(&self, jobs: u64) -> bool {
        for _look in 0..PATIENCE {
            if self.stage.done.load(Ordering::SeqCst) >= jobs {
                return true;
            }
            thread::yield_now();
        }
        false
    }
}

impl<'a> Feed for Turned<'a> {
    ghost use Rattle.std.specs.Prelude.{None};

    ghost failures = { λ s. 0 };

    ghost given = { λ _. None };

    fn receive(&mut self, out: &mut [u8]) -> Result<Received, ReceiveFault> {
        let at = self.next;
        if at >= self.turns.len() {
            return Ok(Received::Nothing);
        }
        self.next = at + 1;
        let turn = &self.turns[at];
        if !self.waits_for(turn.jobs_before) {
            return Ok(Received::Stop);
        }
        self.stage.turn.store(at as u64, Ordering::SeqCst);
        self.stage.moment.store(turn.moment, Ordering::SeqCst);
        match &turn.arrival {
            None => Ok(Received::Nothing),
            Some(Coming::Select { leg, on }) => Ok(Received::Select { leg: *leg, on: *on }),
            Some(Coming::Datagram { endpoint, bytes }) => {
                let length = bytes.len();
                if length > out.len() {
                    return Ok(Received::Nothing);
                }
                out[..length].copy_from_slice(bytes.as_slice());
                Ok(Received::Datagram {
                    endpoint: *endpoint,
                    length,
                })
            }
        }
    }
}

/// Counts the jobs that are done.
#[derive(Drop)]
pub(super) struct Counting<'a> {
    pub(super) stage: &'a Stage,
}

impl<'a> Gate for Counting<'a> {
    fn hold(&self, _worker: u16) {}

    fn done(&self, _worker: u16) {
        self.stage.done.fetch_add(1, Ordering::SeqCst);
    }
}

/// A sink that hands on what it is told.
#[derive(Drop)]
pub(super) struct RingSink<'a> {
    alloc: Global,
    stage: &'a Stage,
    ring: Producer<Told, Global>,
}

impl RingSink<'_> {
    fn tell(&mut self, what: What, bytes: &[u8]) {
        let turn = self.stage.turn.load(Ordering::SeqCst);
        if let Ok(bytes) = Bytes::copy_of(self.alloc, bytes) {
            let _ = self.ring.push(Told { turn, what, bytes });
        }
    }
}

impl Sink for RingSink<'_> {
    ghost use Rattle.std.specs.Prelude.{None};

    ghost shown = { λ s. record { handed = None; failures = 0 } };

    fn send(&mut self, endpoint: u16, bytes: &[u8]) -> Result<(), SendFault> {
        self.tell(What::Sent(endpoint), bytes);
        Ok(())
    }

    fn missed(&mut self, leg: u16) {
        self.tell(What::Missed(leg), &[]);
    }

    fn skipped(&mut self, leg: u16) {
        self.tell(What::Skipped(leg), &[]);
    }

    fn refused(&mut self, _endpoint: Option<u16>, refusal: Refusal) {
        self.tell(What::Refused(refusal), &[]);
    }
}

/// A sink, and where what it is told comes out.
pub(super) fn sink_and_end<'a>(
    alloc: Global,
    stage: &'a Stage,
) -> Result<(RingSink<'a>, Consumer<Told, Global>), AllocError> {
    let (ring, end) = RingBuffer::new(alloc, ROOM)?;
    Ok((RingSink { alloc, stage, ring }, end))
}
