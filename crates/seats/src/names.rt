//! The name of a seat, and the names of the client that sits there.

ghost use Rattle.std.specs.Prelude.{◌≡◌};
ghost use Rattle.seats.specs.Names.{exchanged, renamed};

use tmmbr_tuple::Ssrc;

/// Under which names (SSRCs, RFC 3550, section 3) a client is known: to the machine under its seat's, elsewhere under its own, once they are known.
#[derive(Clone, Copy, Debug, PartialEq, Eq)]
pub struct Names {
    /// The seat's.
    pub seat: Ssrc,
    /// Under which the client sends media and sender reports.
    pub sends: Option<Ssrc>,
    /// Under which it reported as a receiver, or asked for something, last.
    pub asks: Option<Ssrc>,
}

impl Names {
    ghost use Rattle.std.specs.Prelude.{◌≡◌};
    ghost use Rattle.seats.specs.Names.{asks_as, leaves_as, nameless, sends_as};

    /// Those of a seat whose client said nothing yet.
    pub fn of_seat(seat: Ssrc) -> Names
        ensures { result ≡ nameless seat }
    {
        Names {
            seat,
            sends: None,
            asks: None,
        }
    }

    /// Under which name the client sends; the seat's while that isn't known.
    pub(crate) fn sends_as(self) -> Ssrc
        ensures { result ≡ sends_as self }
    {
        self.sends.unwrap_or(self.seat)
    }

    /// Under which name it asks; under which it sends while that isn't known.
    pub(crate) fn asks_as(self) -> Ssrc
        ensures { result ≡ asks_as self }
    {
        self.asks.unwrap_or(self.sends_as())
    }

    /// Under which name it leaves: under which it sends, else under which it asks.
    pub(crate) fn leaves_as(self) -> Ssrc
        ensures { result ≡ leaves_as self }
    {
        self.sends.unwrap_or(self.asks.unwrap_or(self.seat))
    }
}

/// What becomes of a name that stands somewhere.
#[derive(Clone, Copy)]
pub(crate) enum Renaming {
    /// Each of these two becomes the other one; any other stays.
    Exchange(Ssrc, Ssrc),
    /// Whichever it is, it becomes this one.
    Put(Ssrc),
}

/// What becomes of this name.
pub(crate) fn renamed(by: Renaming, name: Ssrc) -> Ssrc
    ensures { result.0 ≡ renamed by name.0 }
{
    match by {
        Renaming::Exchange(one, other) => exchanged(one, other, name),
        Renaming::Put(put) => put,
    }
}

/// The other of two names, if this is one of them; else this one.
fn exchanged(one: Ssrc, other: Ssrc, name: Ssrc) -> Ssrc
    ensures { result.0 ≡ exchanged one.0 other.0 name.0 }
{
    if name.0 == one.0 {
        other
    } else if name.0 == other.0 {
        one
    } else {
        name
    }
}
