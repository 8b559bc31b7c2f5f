//! What an entrance is told of ticks, by the unit in one thread and by the one with workers.

ghost use Rattle.std.specs.Prelude.{◌+◌};

use crate::doubles::{MemorySink, OpenGate, sinks_of};
use crate::rooms::{ONE_WORKER, TWO_WORKERS};
use datagram::{Taking, What};
use entrance::{Admitted, Came, Entrance};
use members::RoomView;
use std::alloc::{AllocError, Global};
use std::cell::RefCell;
use std::sync::Wait;
use std::test::Fail;
use std::thread::Threads;
use workers::{Pace, Unwatched, run_through};

/// An entrance that nothing comes to, each 10 ms. It lists the ticks that it is told of.
#[derive(Drop)]
struct Silent<'a> {
    moment: u64,
    ticks: &'a RefCell<Vec<u64>>,
}

impl Entrance for Silent<'_> {
    ghost use Rattle.std.specs.Prelude.{None, []};
    ghost use Rattle.datagram.specs.declared.reading.What.TheVariants.{Goodbye};

    ghost given = { λ _. None };

    ghost told = { λ _. None };

    ghost current = { λ _. record { endpoint = 0; what = Goodbye; asks = []; bytes = [] } };

    ghost datagram = { λ _. [] };

    ghost names = { λ _. [] };

    fn receive(&mut self, _view: RoomView<'_>) -> Result<Came, AllocError> {
        self.moment = self.moment.wrapping_add(10);
        Ok(Came {
            moment: self.moment,
            admitted: Ok(Admitted::Nothing),
        })
    }

    fn taking(&self) -> Taking<'_> {
        Taking {
            endpoint: 0,
            what: What::Goodbye,
            asks: &[],
            bytes: &[],
        }
    }

    fn ticked(&mut self, moment: u64) {
        if let Ok(mut ticks) = self.ticks.try_borrow_mut() {
            let _ = ticks.push(moment);
        }
    }
}

/// Seven turns, in which a tick is due each 25 ms.
const PACE: Pace = Pace {
    turns: 7,
    tick_ms: 25,
};

/// The moments of their ticks.
const TICKS: [u64; 3] = [10, 40, 70];

/// What the entrance is told in one thread.
fn run_one(alloc: Global, ticks: &RefCell<Vec<u64>>) -> Result<bool, Fail> {
    let settings = ONE_WORKER.settings(alloc)?;
    if settings.workers() != 1 {
        return Err("workers".into());
    }
    let mut entrance = Silent { moment: 0, ticks };
    let mut sink = MemorySink::failing(alloc, 0);
    let ran = one_thread::run_through(
        alloc,
        &settings,
        &mut entrance,
        &mut sink,
        &mut Unwatched,
        PACE,
    );
    Ok(ran.is_ok())
}

/// What it is told beside two workers.
fn run_two<R: Threads + Wait + Sync>(
    rt: &R,
    alloc: Global,
    ticks: &RefCell<Vec<u64>>,
) -> Result<bool, Fail> {
    let settings = TWO_WORKERS.settings(alloc)?;
    let sinks = sinks_of(alloc, settings.workers() + 1, &[])?;
    if sinks.len() as u64 != settings.workers() + 1 {
        return Err("sinks".into());
    }
    let entrance = Silent { moment: 0, ticks };
    let ran = run_through(
        rt, alloc, &settings, entrance, sinks, Unwatched, &OpenGate, PACE,
    );
    Ok(ran.is_ok())
}

/// Whether these ticks were told, and no other.
fn has_ticks(ticks: &RefCell<Vec<u64>>) -> bool {
    match ticks.try_borrow() {
        Ok(ticks) => ticks.as_slice() == TICKS.as_slice(),
        Err(_) => false,
    }
}

/// An entrance is told of each tick, with its moment, and of nothing else.
#[test]
fn tells_of_each_tick(rt: HostRuntime) -> Result<(), Fail> {
    let alloc = rt.alloc();
    let one = RefCell::new(Vec::new(alloc));
    let two = RefCell::new(Vec::new(alloc));
    let ran = [run_one(alloc, &one)?, run_two(&rt, alloc, &two)?];
    let told = [has_ticks(&one), has_ticks(&two)];
    assert!(rt; (ran, told) == ([true; 2], [true; 2]), "{ran:?} {told:?}");
    Ok(())
}
