//! What time it is.

ghost use Rattle.std.specs.Prelude.{◌≡◌, ◌≤◌, ◌+◌, None};
ghost use Rattle.udp.specs.Sockets.{Looks, later_moment, reached, stalled_after};

use std::cell::Cell;
use std::time::{self, Instant};

/// The system's monotonic clock, in milliseconds since it was asked first. Of what goes by between two looks at most `stall_ms` count; all of
/// it, if that is 0. It shows others the last moment that it told, and how much didn't count.
#[derive(Drop)]
pub struct RunClock<'a, R: time::Clock> {
    rt: &'a R,
    start: Option<Instant>,
    stall_ms: u64,
    /// The last moment that it told.
    told: u64,
    /// How many milliseconds went by that it didn't live.
    stalled: u64,
    shown: &'a Cell<u64>,
    shown_stalled: &'a Cell<u64>,
}

impl<'a, R: time::Clock> RunClock<'a, R> {
    /// A clock that wasn't asked yet.
    pub fn new(
        rt: &'a R,
        stall_ms: u64,
        shown: &'a Cell<u64>,
        shown_stalled: &'a Cell<u64>,
    ) -> RunClock<'a, R>
        ensures begins { (result.start ≡ None) × (result.told ≡ 0) × (result.stalled ≡ 0) }
        ensures stall { result.stall_ms ≡ stall_ms }
        ensures shown { (result.shown ≡ shown.entry) × (result.shown_stalled ≡ shown_stalled.entry) }
    {
        RunClock {
            rt,
            start: None,
            stall_ms,
            told: 0,
            stalled: 0,
            shown,
            shown_stalled,
        }
    }

    /// The last moment that it told.
    pub fn told(&self) -> u64
        ensures { result ≡ self.now.told }
    {
        self.told
    }

    /// What time it is.
    pub fn ask(&mut self) -> u64
        ensures told { self.new.told ≡ result }
        ensures later { self.old.told ≤ result }
        ensures looks { Looks self.old.stall_ms self.old.told self.old.stalled result
            self.new.stalled }
        ensures stall { (1 ≤ self.old.stall_ms → result ≤ self.old.told + self.old.stall_ms)
            × (self.new.stall_ms ≡ self.old.stall_ms) }
        ensures off { self.old.stall_ms ≡ 0 → self.new.stalled ≡ self.old.stalled }
    {
        let elapsed_ms = self.elapsed_ms();
        self.told = later_moment(self.stall_ms, self.told, self.stalled, elapsed_ms);
        self.stalled = stalled_after(self.told, self.stalled, elapsed_ms);
        self.shown.set(self.told);
        self.shown_stalled.set(self.stalled);
        self.told
    }

    /// How many milliseconds went by since the clock was asked first, if the system says so.
    fn elapsed_ms(&mut self) -> Option<u64>
        ensures { (self.new.told ≡ self.old.told) × (self.new.stalled ≡ self.old.stalled)
            × (self.new.stall_ms ≡ self.old.stall_ms) }
    {
        let now = Instant::now(self.rt).ok()?;
        let start = *self.start.get_or_insert(now);
        u64::try_from(now.saturating_duration_since(start).as_millis()).ok()
    }
}

/// The moment that a clock tells which told this one last, when so many milliseconds went by if the system says so.
fn later_moment(stall_ms: u64, told: u64, stalled: u64, elapsed_ms: Option<u64>) -> u64
    ensures value { result ≡ later_moment stall_ms told stalled elapsed_ms }
    ensures later { told ≤ result }
    ensures stall { 1 ≤ stall_ms → result ≤ told + stall_ms }
{
    match elapsed_ms {
        Some(elapsed_ms) => told.max(reached(stall_ms, told, elapsed_ms.saturating_sub(stalled))),
        None => told,
    }
}

/// How much of what went by until now counts.
fn reached(stall_ms: u64, told: u64, now: u64) -> u64
    ensures value { result ≡ reached stall_ms told now }
    ensures stall { 1 ≤ stall_ms → result ≤ told + stall_ms }
{
    if stall_ms == 0 {
        now
    } else {
        now.min(told.saturating_add(stall_ms))
    }
}

/// What a clock that tells this one didn't live of what went by, if the system says so.
fn stalled_after(told: u64, stalled: u64, elapsed_ms: Option<u64>) -> u64
    ensures { result ≡ stalled_after told stalled elapsed_ms }
{
    match elapsed_ms {
        Some(elapsed_ms) => stalled.max(elapsed_ms.saturating_sub(told)),
        None => stalled,
    }
}
