//! What comes to a unit.

use datagram::Taking;
use members::RoomView;
use ports::ReceiveFault;
use std::alloc::AllocError;

/// What was let in.
#[derive(Clone, Copy)]
pub enum Admitted {
    /// Nothing came.
    Nothing,
    /// What a datagram of an endpoint says: `Entrance::taking` lends it.
    Taking,
    /// The leg with this number is to be switched on or off.
    Select { leg: u16, on: bool },
    /// The run is to end with this turn.
    Stop,
}

/// What came, or that a receive failed, and the moment at which it came, in milliseconds since the run began.
#[derive(Clone, Copy)]
pub struct Came {
    pub moment: u64,
    pub admitted: Result<Admitted, ReceiveFault>,
}

/// Where what comes to a unit is let in. It waits, asks the clock, and reads what came; then it may look at the room as it is, to say what of it is
/// taken in. It is told of each tick.
pub trait Entrance {
    ghost use Rattle.std.specs.Prelude.{◌≡◌, ◌∷◌, [], List, Option, ℕ, IfOk, OnErr};
    ghost use Rattle.std.specs.Borrow.{GName};
    ghost use Rattle.datagram.specs.Reads.{Admission, admission_of};
    ghost use Rattle.ports.specs.Outside.{Arrival, Grows};
    ghost use Rattle.entrance.specs.Entrance.{ComesInVain, IfTaken, IsTakenFrom, arrival_by};

    /// What came, in order, if that is known; of a datagram one that says what was taken in.
    ghost given: { Self → Option (List Arrival) };

    /// The moments at which it came, in order, if that is known.
    ghost told: { Self → Option (List ℕ) };

    /// What is taken in.
    ghost current: { Self → Admission };

    /// A datagram that says it.
    ghost datagram: { Self → List ℕ };

    /// The references that it goes by, which stay.
    ghost names: { Self → List GName };

    /// What comes next, into a room that is so. Refused for want of memory alone; then something came, and isn't taken in.
    fn receive(&mut self, view: RoomView<'_>) -> Result<Came, AllocError>
        ensures given { IfOk result (λ c. Grows (given self.old)
            (arrival_by c.admitted (current self.new).endpoint (datagram self.new) ∷ [])
            (given self.new)) }
        ensures told { IfOk result (λ c. Grows (told self.old) (c.moment ∷ []) (told self.new)) }
        ensures taken { IfOk result (λ c. IfTaken c.admitted
            (IsTakenFrom view.entry.links.now (current self.new) (datagram self.new))) }
        ensures err { OnErr result (ComesInVain (given self.old) (told self.old) (given self.new)
            (told self.new)) }
        ensures names { names self.new ≡ names self.old };

    /// What was let in last, if it is to be taken in.
    fn taking(&self) -> Taking<'_>
        ensures { admission_of result ≡ current self.now };

    /// A tick was made at this moment, after what came then was taken in.
    fn ticked(&mut self, moment: u64)
        ensures given { given self.new ≡ given self.old }
        ensures told { told self.new ≡ told self.old }
        ensures current { current self.new ≡ current self.old }
        ensures datagram { datagram self.new ≡ datagram self.old }
        ensures names { names self.new ≡ names self.old };
}
