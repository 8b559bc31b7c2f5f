//! What a publisher is asked again.

use std::alloc::Global;
use std::marker::Model;
use tmmbr_tuple::Ssrc;

/// What is said again to a publisher (RFC 5104, section 4.2.1.2).
#[derive(Drop)]
pub struct SaidAgain {
    /// Whether it is asked again for its whole announced set.
    pub(crate) asks: bool,
    /// The owners whose bounds are lifted again.
    pub(crate) lifted: Vec<Ssrc>,
}

impl Model for SaidAgain {
    ghost use Rattle.policy.specs.AnnouncedSets.{SaidState};

    ghost Value = { SaidState };

    ghost view = { λ s. record {
      asks = s.asks;
      lifted = s.lifted.items;
    } };
}

impl SaidAgain {
    ghost use Rattle.std.specs.Prelude.{◌≡◌, length};
    ghost use Rattle.policy.specs.AnnouncedSets.{said_nothing};

    /// Nothing is.
    pub(crate) fn nothing(alloc: Global) -> SaidAgain
        ensures value { result ≡ said_nothing }
        ensures none { length result.lifted ≡ 0 }
    {
        SaidAgain {
            asks: false,
            lifted: Vec::new(alloc),
        }
    }

    /// Whether it is asked again for its whole announced set.
    pub fn asks(&self) -> bool
        ensures { result ≡ self.now.asks }
    {
        self.asks
    }

    /// The owners whose bounds are lifted again, by a TMMBR without limit of each (RFC 5104, section 4.2.1.1).
    pub fn lifted(&self) -> &[Ssrc]
        ensures { result.now ≡ self.now.lifted }
    {
        self.lifted.as_slice()
    }
}
