//! When a tick is due.

ghost use Rattle.std.specs.Prelude.{◌≡◌, ◌+◌, nat_le};

use std::marker::Model;

/// How far the moment rises between ticks, and the moment of the last one.
#[derive(Drop)]
pub struct Ticks {
    step_ms: u64,
    last: Option<u64>,
}

impl Model for Ticks {
    ghost use Rattle.ports.specs.Ticks.{TicksState};

    ghost Value = { TicksState };

    ghost view = { λ t. record { step_ms = t.step_ms; last = t.last } };
}

impl Ticks {
    ghost use Rattle.std.specs.Prelude.{◌≡◌};
    ghost use Rattle.ports.specs.Ticks.{new_ticks, is_due, ticks_after};

    /// No tick was made yet. From one to the next the moment rises by so many milliseconds at least; at 0 a tick is due
    /// whenever the moment didn't fall.
    pub fn new(step_ms: u64) -> Ticks
        ensures { result ≡ new_ticks step_ms }
    {
        Ticks {
            step_ms,
            last: None,
        }
    }

    /// Whether a tick is due at this moment: none was made yet, or the moment rose by the step at least since the last one. Then
    /// the moment is noted as that of the last tick; else nothing changes.
    pub fn take(&mut self, moment: u64) -> bool
        ensures due { result ≡ is_due self.old moment }
        ensures noted { self.new ≡ ticks_after self.old moment }
    {
        let is_due = match self.last {
            None => true,
            Some(last) => has_risen(last, self.step_ms, moment),
        };
        if is_due {
            self.last = Some(moment);
        }
        is_due
    }
}

/// Whether the moment is so many milliseconds after the last at least.
fn has_risen(last: u64, step_ms: u64, moment: u64) -> bool
    ensures { result ≡ nat_le (last + step_ms) moment }
{
    match moment.checked_sub(last) {
        Some(rise) => rise >= step_ms,
        None => false,
    }
}
