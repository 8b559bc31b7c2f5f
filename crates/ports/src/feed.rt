//! What comes next to a unit: a datagram, a leg that is switched, a stop, or nothing.

use crate::source::{ReceiveFault, Source};

/// What a receive gave.
#[derive(Clone, Copy, Debug, PartialEq, Eq)]
pub enum Received {
    /// Nothing came.
    Nothing,
    /// A datagram of the endpoint with this number. So many bytes of it stand at the beginning of the buffer.
    Datagram { endpoint: u16, length: usize },
    /// The leg with this number is to be switched on or off.
    Select { leg: u16, on: bool },
    /// The run is to end with this turn.
    Stop,
}

impl Received {
    ghost use Rattle.std.specs.Prelude.{◌≡◌, List, ℕ};
    ghost use Rattle.ports.specs.Outside.{arrival_in, is_stop, received_of};

    /// What a receive of a source gave: a datagram of this endpoint that is so long, or nothing.
    fn of_source(came: Option<(u16, usize)>) -> Received
        ensures { result ≡ received_of came }
    {
        match came {
            Some((endpoint, length)) => Received::Datagram { endpoint, length },
            None => Received::Nothing,
        }
    }

    /// Whether the run is to end with this turn.
    pub fn is_stop(self) -> bool
        ensures { (buffer : List ℕ) → result ≡ is_stop (arrival_in buffer self) }
    {
        match self {
            Received::Stop => true,
            Received::Nothing | Received::Datagram { .. } | Received::Select { .. } => false,
        }
    }
}

/// What comes next to a unit while it runs: datagrams, and what else is wished of it.
pub trait Feed {
    ghost use Rattle.std.specs.Prelude.{◌≡◌, ◌+◌, ◌∷◌, [], List, Option, ℕ, length, IfOk, OnOk, OnErr};
    ghost use Rattle.ports.specs.Outside.{Arrival, FitsIn, Grows, arrival_of};

    /// How many receives failed. A count that can't rise any more answers Ok.
    ghost failures: { Self → ℕ };

    /// What each receive gave, in order, if that is known. A socket doesn't know it.
    ghost given: { Self → Option (List Arrival) };

    /// What comes next. The bytes of a datagram are written to the beginning of `out`.
    fn receive(&mut self, out: &mut [u8]) -> Result<Received, ReceiveFault>
        ensures within { IfOk result (FitsIn (length out.new)) }
        ensures given { Grows (given self.old) (arrival_of out.new result ∷ []) (given self.new) }
        ensures ok { OnOk result (failures self.new ≡ failures self.old) }
        ensures err { OnErr result (failures self.new ≡ failures self.old + 1) };
}

/// The datagrams of a source, and nothing beside. What it gave isn't known, since a source doesn't say it.
#[derive(Drop)]
pub struct Fed<S: Drop> {
    source: S,
}

impl<S: Source + Drop> Fed<S> {
    ghost use Rattle.std.specs.Prelude.{◌≡◌};

    /// What this source gives from now on.
    pub fn by(source: S) -> Fed<S>
        ensures { result.source ≡ source }
    {
        Fed { source }
    }
}

impl<S: Source + Drop> Feed for Fed<S> {
    ghost use Rattle.std.specs.Prelude.{None};

    ghost failures = { λ fed. S.failures fed.source };

    ghost given = { λ _. None };

    fn receive(&mut self, out: &mut [u8]) -> Result<Received, ReceiveFault> {
        let came = self.source.receive(out)?;
        Ok(Received::of_source(came))
    }
}
