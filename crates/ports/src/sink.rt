//! Where datagrams go.

use events::Refusal;
use thiserror::Error;

/// A datagram couldn't be sent.
#[derive(Clone, Copy, Debug, PartialEq, Eq, Error)]
#[error("a send failed")]
pub struct SendFault;

/// Where datagrams go.
pub trait Sink {
    ghost use Rattle.std.specs.Prelude.{◌≡◌, ◌+◌, ◌∷◌, [], OnOk, OnErr};
    ghost use Rattle.ports.specs.Outside.{SinkView, Grows};

    /// What was handed over, failed sends too, if that is known, and how many sends failed. A socket doesn't know what
    /// it was handed, nor does a list in memory that found no room. A count that can't rise any more answers Ok.
    ghost shown: { Self → SinkView };

    /// Sends these bytes to the endpoint with this number.
    fn send(&mut self, endpoint: u16, bytes: &[u8]) -> Result<(), SendFault>
        ensures handed { Grows (shown self.old).handed
            (record { endpoint = endpoint; bytes = bytes.now } ∷ []) (shown self.new).handed }
        ensures ok { OnOk result ((shown self.new).failures ≡ (shown self.old).failures) }
        ensures err { OnErr result ((shown self.new).failures ≡ (shown self.old).failures + 1) };

    /// A packet was asked for again on the leg with this number, and isn't kept any more (RFC 4585, section 6.2.1): nothing is sent.
    fn missed(&mut self, _leg: u16)
        ensures { shown self.new ≡ shown self.old }
    {}

    /// A packet isn't sent on on the leg with this number: it is too old for it, or the leg's numbers are spent. Nothing is sent.
    fn skipped(&mut self, _leg: u16)
        ensures { shown self.new ≡ shown self.old }
    {}

    /// Something was refused: of a datagram of the endpoint with this number, or of none, if it is `None`. Nothing is sent.
    fn refused(&mut self, _endpoint: Option<u16>, _refusal: Refusal)
        ensures { shown self.new ≡ shown self.old }
    {}
}
