//! What time it is.

/// What time it is.
pub trait Clock {
    /// How many milliseconds went by since the run began.
    fn moment(&mut self) -> u64;
}

/// What time it is, from who may know what it told.
pub trait Timekeeper {
    ghost use Rattle.std.specs.Prelude.{◌∷◌, [], List, Option, ℕ};
    ghost use Rattle.ports.specs.Outside.{Grows};

    /// The moments that it told, in order, if that is known. The system's clock doesn't know them.
    ghost told: { Self → Option (List ℕ) };

    /// How many milliseconds went by since the run began.
    fn moment(&mut self) -> u64
        ensures told { Grows (told self.old) (result ∷ []) (told self.new) };
}

/// A clock as a timekeeper. What it told isn't known, since a clock doesn't say it.
#[derive(Drop)]
pub struct Timed<C: Drop> {
    clock: C,
}

impl<C: Clock + Drop> Timed<C> {
    ghost use Rattle.std.specs.Prelude.{◌≡◌};

    /// The moments that this clock tells from now on.
    pub fn by(clock: C) -> Timed<C>
        ensures { result.clock ≡ clock }
    {
        Timed { clock }
    }
}

impl<C: Clock + Drop> Timekeeper for Timed<C> {
    ghost use Rattle.std.specs.Prelude.{None};

    ghost told = { λ _. None };

    fn moment(&mut self) -> u64 {
        self.clock.moment()
    }
}
