//! Lanes: workers in threads of their own, and the ends of their rings where the ingress puts jobs.

ghost use Rattle.std.specs.Prelude.{◌≡◌, ◌<◌, ◌++◌, ◌∷◌, [], IfNone, IfSome, IfOk, nat_lt};
ghost use Rattle.rtrb.specs.Ring.{known_free, sent, producer_capacity};

use crate::counts::{Counts, Station};
use crate::fault::UnitFault;
use crate::item::Item;
use core_steps::JOB_LIMIT;
use rate_desk::{DeskSeat, SeatCalls};
use routes::Naming;
use rtrb::{Consumer, Producer, PushError, RingBuffer};
use std::alloc::{AllocError, Global};
use std::sync::Wait;
use std::thread;
use std::thread::{JoinHandle, Threads};

/// A ring that has fewer free places is mostly full.
const FEW_SLOTS: usize = JOB_LIMIT / 4;

/// Once so many items were put into a ring, its worker is woken, whatever else is to be put there.
const MOST_UNWOKEN: u32 = 32;

/// The two ends of a worker's ring: where items are put, and where they are taken.
pub(crate) type RingEnds<J> = (Producer<Item<J>, Global>, Consumer<Item<J>, Global>);

/// The two ends of a worker's ring.
pub(crate) fn new_ring<J: Naming>(alloc: Global) -> Result<RingEnds<J>, AllocError>
    ensures { IfOk result (λ ends. producer_capacity ends.0 ≡ 1024) }
{
    RingBuffer::new(alloc, JOB_LIMIT)
}

/// What the ingress has of a worker that was started.
#[derive(Drop)]
pub(crate) struct Lane<J: Naming, C: SeatCalls> {
    pub(crate) ring: Producer<Item<J>, Global>,
    /// How many items were put into the ring.
    pub(crate) put: u64,
    /// How many of them were put there since the worker was last woken.
    pub(crate) unwoken: u32,
    pub(crate) thread: JoinHandle<DeskSeat<C>>,
}

impl<J: Naming, C: SeatCalls> Lane<J, C> {
    /// Puts an item into the ring, and wakes the worker at this station if many were put there since it was woken; a full ring hands it
    /// back.
    fn push(&mut self, station: &Station, item: Item<J>) -> Option<Item<J>>
        ensures put { IfNone result (sent self.new.ring ≡ sent self.old.ring ++ item ∷ []) }
        ensures back { IfSome result (λ i. i ≡ item) }
        ensures few { self.old.unwoken < 32 → self.new.unwoken < 32 }
    {
        match self.ring.push(item) {
            Ok(()) => {
                self.put = self.put.saturating_add(1);
                self.unwoken = self.unwoken.saturating_add(1);
                if self.unwoken >= MOST_UNWOKEN {
                    self.wake(station);
                }
                None
            }
            Err(PushError::Full(item)) => Some(item),
        }
    }

    /// Wakes the worker at this station, if anything was put into its ring since it was woken.
    fn wake(&mut self, station: &Station)
        ensures none { self.new.unwoken ≡ 0 }
        ensures ring { self.new.ring ≡ self.old.ring }
    {
        if self.unwoken > 0 {
            self.unwoken = 0;
            station.parker.unpark();
        }
    }

    /// Whether the ring is mostly full, as far as the ingress knows just now.
    fn is_crowded(&mut self) -> bool
        ensures { result ≡ nat_lt (known_free self.new.ring) 256 }
    {
        self.ring.slots() < FEW_SLOTS
    }

    /// Puts the stop after all jobs, as soon as the ring has a place for it.
    fn stop<R: Wait>(&mut self, rt: &R, station: &Station) {
        for _ in rt.forever() {
            if self.push(station, Item::Stop).is_none() {
                self.wake(station);
                return;
            }
            thread::yield_now();
        }
        unreachable!()
    }

    /// The worker's seat, once it has ended.
    fn join<R: Threads>(self, rt: &R) -> DeskSeat<C> {
        let Lane {
            ring: _,
            put: _,
            unwoken: _,
            thread,
        } = self;
        thread.join(rt)
    }
}

/// The workers that were started, by their numbers, and room for the seats that come back.
#[derive(Drop)]
pub(crate) struct Crew<J: Naming, C: SeatCalls> {
    lanes: Vec<Lane<J, C>>,
    seats: Vec<DeskSeat<C>>,
}

impl<J: Naming, C: SeatCalls> Crew<J, C> {
    /// Room for so many workers, none of whom was started.
    pub(crate) fn new(alloc: Global, workers: usize) -> Result<Crew<J, C>, AllocError> {
        let lanes = Vec::with_capacity(alloc, workers)?;
        let seats = Vec::with_capacity(alloc, workers + 1)?;
        Ok(Crew { lanes, seats })
    }

    /// Takes in the worker at this station; one that finds no room is stopped and joined.
    pub(crate) fn add<R: Threads + Wait>(
        &mut self,
        rt: &R,
        station: &Station,
        lane: Lane<J, C>,
    ) -> Result<(), UnitFault> {
        match self.lanes.push(lane) {
            Ok(()) => Ok(()),
            Err(unlisted) => {
                let mut lane = unlisted.value;
                lane.stop(rt, station);
                lane.join(rt);
                Err(UnitFault::NoMemory)
            }
        }
    }

    /// Puts an item into this worker's ring, and into no other; it is handed back if there is no such worker, or its ring is full. The
    /// worker is woken by `wake`, and by the last of many.
    pub(crate) fn push(&mut self, counts: &Counts, worker: u16, item: Item<J>) -> Option<Item<J>>
        ensures back { IfSome result (λ i. i ≡ item) }
    {
        let at = usize::from(worker);
        if at >= self.lanes.len() {
            return Some(item);
        }
        match counts.station(worker) {
            Some(station) => self.lanes[at].push(station, item),
            None => Some(item),
        }
    }

    /// Wakes each worker into whose ring anything was put since it was woken.
    pub(crate) fn wake(&mut self, counts: &Counts) {
        for (lane, station) in self.lanes.iter_mut().zip(counts.stations()) {
            lane.wake(&**station);
        }
    }

    /// Whether this worker's ring is mostly full.
    pub(crate) fn is_crowded(&mut self, worker: u16) -> bool {
        match self.lanes.get_mut(usize::from(worker)) {
            Some(lane) => lane.is_crowded(),
            None => false,
        }
    }

    /// Whether each worker has done all that was put into its ring.
    pub(crate) fn is_done(&self, counts: &Counts) -> bool {
        for (lane, station) in self.lanes.iter().zip(counts.stations()) {
            if !station.has_done(lane.put) {
                return false;
            }
        }
        true
    }

    /// Stops all workers, and takes their seats once they have ended, and the ingress's last.
    pub(crate) fn join<R: Threads + Wait>(
        self,
        rt: &R,
        counts: &Counts,
        own: DeskSeat<C>,
    ) -> Result<Vec<DeskSeat<C>>, AllocError> {
        let mut crew = self;
        crew.stop_all(rt, counts);
        let Crew { lanes, seats } = crew;
        join_all(rt, lanes, seats, own)
    }

    /// Stops all workers.
    fn stop_all<R: Wait>(&mut self, rt: &R, counts: &Counts) {
        for (lane, station) in self.lanes.iter_mut().zip(counts.stations()) {
            lane.stop(rt, &**station);
        }
    }
}

/// Takes the workers' seats once they have ended, and the ingress's last. There is room for all of them.
fn join_all<J: Naming, C: SeatCalls, R: Threads>(
    rt: &R,
    lanes: Vec<Lane<J, C>>,
    seats: Vec<DeskSeat<C>>,
    own: DeskSeat<C>,
) -> Result<Vec<DeskSeat<C>>, AllocError> {
    let mut seats = seats;
    let mut is_short = false;
    for lane in lanes {
        is_short = seats.push(lane.join(rt)).is_err() || is_short;
    }
    is_short = seats.push(own).is_err() || is_short;
    if is_short {
        return Err(AllocError);
    }
    Ok(seats)
}
