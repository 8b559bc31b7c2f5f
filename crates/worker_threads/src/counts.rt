//! What the unit did so far, for whoever watches it while it runs.

ghost use Rattle.std.specs.Prelude.{◌≡◌, IfSome};
ghost use Rattle.core_steps.specs.Happening.{capped_count};
ghost use Rattle.worker_threads.specs.Counted.{outcome_of};

use crate::recess::Recess;
use crossbeam_utils::CachePadded;
use forwarding::{ForwardFault, Forwarded};
use ports::Status;
use std::alloc::{AllocError, Global};
use std::sync::atomic::{AtomicU64, Ordering};
use std::thread::Parker;

/// The counts of the unit so far, which its threads raise.
#[derive(Drop)]
pub struct Counts {
    present: AtomicU64,
    heard: AtomicU64,
    lost: AtomicU64,
    ingress: Tally,
    stations: Vec<CachePadded<Station>>,
    recess: Recess,
}

impl Counts {
    /// The counts of a unit with so many workers, which did nothing yet.
    pub fn new(alloc: Global, workers: u16) -> Result<Counts, AllocError> {
        let mut stations = Vec::with_capacity(alloc, usize::from(workers))?;
        for number in 0..workers {
            stations.push(CachePadded::new(Station::new(number)))?;
        }
        Ok(Counts {
            present: AtomicU64::new(0),
            heard: AtomicU64::new(0),
            lost: AtomicU64::new(0),
            ingress: Tally::new(),
            stations,
            recess: Recess::new(),
        })
    }

    /// The counts now. No thread waits for another, so those of one thread may be read before those of another rise.
    pub fn status(&self) -> Status {
        let mut status = Status {
            present: self.present.load(Ordering::SeqCst),
            heard: self.heard.load(Ordering::SeqCst),
            sent: 0,
            failed: 0,
            lost: self.lost.load(Ordering::SeqCst),
            dropped: 0,
        };
        add_up(&mut status, self.ingress.seen());
        for station in &self.stations {
            add_up(&mut status, station.tally.seen());
        }
        status
    }

    /// So many endpoints are present. The ingress alone calls this and the next two.
    pub(crate) fn note_present(&self, endpoints: u64) {
        self.present.store(endpoints, Ordering::SeqCst);
    }

    /// A datagram was heard.
    pub(crate) fn add_heard(&self) {
        raise(&self.heard, 1);
    }

    /// A job found no room.
    pub(crate) fn add_lost(&self) {
        raise(&self.lost, 1);
    }

    /// What the ingress sends itself.
    pub(crate) fn of_ingress(&self) -> &Tally {
        &self.ingress
    }

    /// The station of the worker of this number.
    pub(crate) fn station(&self, worker: u16) -> Option<&Station>
        ensures { IfSome result (λ station. station.now.number ≡ worker) }
    {
        let station = self.stations.get(usize::from(worker))?;
        if station.number == worker {
            Some(&**station)
        } else {
            None
        }
    }

    /// Where the ingress sleeps until the workers are done.
    pub(crate) fn recess(&self) -> &Recess {
        &self.recess
    }

    /// The workers' stations, by their numbers.
    pub(crate) fn stations(&self) -> &[CachePadded<Station>] {
        self.stations.as_slice()
    }
}

/// What a worker shows to others: its number, where it sleeps while its ring is empty, its tally, and how many jobs it has done.
#[derive(Drop)]
pub(crate) struct Station {
    pub(crate) number: u16,
    pub(crate) parker: Parker,
    pub(crate) tally: Tally,
    done: AtomicU64,
}

impl Station {
    /// The station of the worker of this number, which did nothing yet.
    fn new(number: u16) -> Station {
        Station {
            number,
            parker: Parker::new(),
            tally: Tally::new(),
            done: AtomicU64::new(0),
        }
    }

    /// The worker has done one job more. It alone calls this.
    pub(crate) fn note_done(&self) {
        raise(&self.done, 1);
    }

    /// Whether the worker has done so many jobs.
    pub(crate) fn has_done(&self, jobs: u64) -> bool {
        self.done.load(Ordering::SeqCst) >= jobs
    }
}

/// What one thread of the unit handed over and gave up. It alone raises these.
#[derive(Drop)]
pub(crate) struct Tally {
    sent: AtomicU64,
    failed: AtomicU64,
    dropped: AtomicU64,
}

impl Tally {
    fn new() -> Tally {
        Tally {
            sent: AtomicU64::new(0),
            failed: AtomicU64::new(0),
            dropped: AtomicU64::new(0),
        }
    }

    /// What a job or a notification came to.
    pub(crate) fn add(&self, outcome: Outcome) {
        raise(&self.sent, outcome.sent);
        raise(&self.failed, outcome.failed);
        raise(&self.dropped, outcome.dropped);
    }

    /// What it comes to now.
    fn seen(&self) -> Outcome {
        Outcome {
            sent: self.sent.load(Ordering::SeqCst),
            failed: self.failed.load(Ordering::SeqCst),
            dropped: self.dropped.load(Ordering::SeqCst),
        }
    }
}

/// What jobs and notifications came to: datagrams that were sent, datagrams that couldn't be, and how many jobs and notifications were
/// given up.
#[derive(Clone, Copy, PartialEq, Eq)]
pub(crate) struct Outcome {
    sent: u64,
    failed: u64,
    dropped: u64,
}

/// What a job or a notification came to: what was sent of it, or that it was given up.
pub(crate) fn outcome_of(done: Result<Forwarded, ForwardFault>) -> Outcome
    ensures { result ≡ outcome_of done }
{
    match done {
        Ok(done) => Outcome {
            sent: done.sent,
            failed: done.failed,
            dropped: 0,
        },
        Err(_) => Outcome {
            sent: 0,
            failed: 0,
            dropped: 1,
        },
    }
}

/// Adds to the totals what one more thread did.
fn add_up(status: &mut Status, seen: Outcome)
    ensures { status.new ≡ record status.old {
      sent = capped_count status.old.sent seen.sent;
      failed = capped_count status.old.failed seen.failed;
      dropped = capped_count status.old.dropped seen.dropped;
    } }
{
    status.sent = raised(status.sent, seen.sent);
    status.failed = raised(status.failed, seen.failed);
    status.dropped = raised(status.dropped, seen.dropped);
}

/// Raises a count that one thread alone raises.
fn raise(count: &AtomicU64, more: u64) {
    if more > 0 {
        count.store(raised(count.load(Ordering::SeqCst), more), Ordering::SeqCst);
    }
}

/// A count that is so many more; it stays at its greatest once there.
fn raised(count: u64, more: u64) -> u64
    ensures { result ≡ capped_count count more }
{
    count.saturating_add(more)
}
