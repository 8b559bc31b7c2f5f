//! The ingress waits for its workers, for a little: what was heard before a row is published is done before, and a round of reports finds
//! room in their rings.

ghost use Rattle.std.specs.Prelude.{◌≡◌};
ghost use Rattle.worker_threads.specs.Patience.{is_later};

use crate::counts::Counts;
use crate::lane::Crew;
use rate_desk::SeatCalls;
use routes::Naming;
use std::sync::Wait;
use std::sync::atomic::Ordering;
use std::time::Duration;

/// How often the ingress looks, at most, whether its workers are done, before it publishes a row.
const LOOKS: u32 = 20;
/// How often it looks in a second, at most.
pub const LOOKS_A_SECOND: u32 = 100;
/// How long it sleeps between two looks, at most, in milliseconds.
const LOOK_MS: u64 = 1;
/// How many milliseconds a second has.
const SECOND_MS: u64 = 1_000;

/// How often the ingress may still look in a second, which began at this moment, in milliseconds.
#[derive(Clone, Copy, PartialEq, Eq)]
pub(crate) struct Patience {
    since: u64,
    left: u32,
}

impl Patience {
    ghost use Rattle.std.specs.Prelude.{◌≡◌, nat_lt};
    ghost use Rattle.worker_threads.specs.Patience.{patience_after, patience_at};

    /// That of the second which begins at this moment.
    pub(crate) fn new(moment: u64) -> Patience
        ensures { result ≡ record { since = moment; left = LOOKS_A_SECOND } }
    {
        Patience {
            since: moment,
            left: LOOKS_A_SECOND,
        }
    }

    /// Whether it may look once more at this moment; that look is taken off what is left then.
    fn take(&mut self, moment: u64) -> bool
        ensures may { result ≡ nat_lt 0 (patience_at self.old moment).left }
        ensures taken { self.new ≡ patience_after self.old moment }
    {
        if has_passed(self.since, moment) {
            *self = Patience::new(moment);
        }
        if self.left == 0 {
            return false;
        }
        self.left -= 1;
        true
    }
}

/// Whether the second that began then has passed; a moment before it is of another one, too.
fn has_passed(since: u64, moment: u64) -> bool
    ensures { result ≡ is_later since moment }
{
    match moment.checked_sub(since) {
        Some(passed) => passed >= SECOND_MS,
        None => true,
    }
}

/// Waits until the workers have done what they were given, `LOOKS` milliseconds at most, and no longer than there is patience for at
/// this moment.
pub(crate) fn settle<J: Naming, C: SeatCalls, R: Wait>(
    rt: &R,
    crew: &Crew<J, C>,
    counts: &Counts,
    patience: &mut Patience,
    moment: u64,
) {
    let recess = counts.recess();
    recess.is_awaited.store(true, Ordering::SeqCst);
    for _look in 0..LOOKS {
        if crew.is_done(counts) || !patience.take(moment) {
            break;
        }
        recess
            .parker
            .park_timeout(rt, Duration::from_millis(LOOK_MS));
    }
    recess.is_awaited.store(false, Ordering::SeqCst);
}
