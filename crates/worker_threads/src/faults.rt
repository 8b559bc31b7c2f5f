//! How many receives failed in a row.

use entrance::Admitted;
use ports::{MAX_FAULTS, ReceiveFault};
use std::marker::Model;

/// How many receives failed since the last one that didn't. Contracts see it as that number.
#[derive(Drop)]
pub(crate) struct Faults {
    in_a_row: u64,
}

impl Model for Faults {
    ghost use Rattle.std.specs.Prelude.{ℕ};

    ghost Value = { ℕ };

    ghost view = { λ f. f.in_a_row };
}

impl Faults {
    ghost use Rattle.std.specs.Prelude.{◌≡◌, ◌≤◌, ◌↔◌, IsTrue, is_ok};
    ghost use Rattle.worker_threads.specs.Faults.{faults_after};

    /// No receive failed yet.
    pub(crate) fn new() -> Faults
        ensures { result ≡ 0 }
    {
        Faults { in_a_row: 0 }
    }

    /// One more receive ended so.
    pub(crate) fn note(&mut self, admitted: &Result<Admitted, ReceiveFault>)
        ensures { self.new ≡ faults_after self.old (is_ok admitted.now) }
    {
        match admitted {
            Ok(_) => self.in_a_row = 0,
            Err(_) => self.in_a_row = self.in_a_row.saturating_add(1),
        }
    }

    /// Whether so many failed that the run ends.
    pub(crate) fn are_too_many(&self) -> bool
        ensures { IsTrue result ↔ (100 ≤ self.now) }
    {
        self.in_a_row >= MAX_FAULTS
    }
}
