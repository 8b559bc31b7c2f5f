//! The outgoing numbers of one leg.

ghost use Rattle.std.specs.Prelude.{◌≡◌, ◌<◌, ◌^◌, OnErr, IfOk};

use crate::segment::{NUMBER_LIMIT, Segment};
use crate::skip::Skip;
use std::cmp::Ordering;
use std::marker::Model;

/// The numbers of what one subscriber is sent of one publisher. What is sent carries their low 16 bits.
#[derive(Clone, Copy)]
pub struct Leg {
    /// The number of the very first packet.
    first: u16,
    /// The packets of the latest turn; `None` before any packet.
    segment: Option<Segment>,
}

impl Model for Leg {
    ghost use Rattle.std.specs.Option.{ForSome};
    ghost use Rattle.rewrite.specs.Leg.{Held, IsWithinLimit};

    ghost Value = { Held };

    ghost view = { λ l. record { first = l.first; segment = l.segment } };

    ghost inverse = { λ h. record { first = h.first; segment = h.segment } };

    ghost invariant = { λ l. ForSome l.segment IsWithinLimit };
}

impl Leg {
    ghost use Rattle.rewrite.specs.Leg.{new_leg, answer_to, held_with, first_segment};

    /// A leg whose first packet gets this number.
    pub fn new(first: u16) -> Self
        ensures { result ≡ new_leg first }
    {
        Leg {
            first,
            segment: None,
        }
    }

    /// The number of the packet with this sequence number that came on this turn.
    ///
    /// The first packet of all, and the first of each greater turn, begins a segment: it gets the
    /// number one above all given, or the leg's first. A packet of the same turn gets a number as far
    /// above as its sequence number is, across wraps, so that a repeated packet gets its number again.
    ///
    /// `Old` if the turn is a lesser one, or the packet stands before the first of its turn; `Spent`
    /// if the number would be `NUMBER_LIMIT` or more. A `Skip` changes nothing.
    pub fn next(&mut self, turn: u64, seq: u16) -> Result<u64, Skip>
        ensures answer { result ≡ answer_to self.old turn seq }
        ensures kept { self.new ≡ held_with self.old turn seq result }
        ensures unchanged { OnErr result (self.new ≡ self.old) }
        ensures bound { IfOk result (λ number. number < 2 ^ 62) }
    {
        let Some(mut segment) = self.segment else {
            return Ok(self.begin(turn, seq, u64::from(self.first)));
        };
        match turn.cmp(&segment.turn) {
            Ordering::Less => Err(Skip::Old),
            Ordering::Equal => {
                let number = segment.take(seq)?;
                self.segment = Some(segment);
                Ok(number)
            }
            Ordering::Greater => {
                let start = segment.last_number() + 1;
                if start == NUMBER_LIMIT {
                    return Err(Skip::Spent);
                }
                Ok(self.begin(turn, seq, start))
            }
        }
    }

    /// Begins a segment with this packet, which gets the number `start`.
    fn begin(&mut self, turn: u64, seq: u16, start: u64) -> u64
        requires { start < NUMBER_LIMIT }
        ensures value { result ≡ start }
        ensures kept { self.new
            ≡ record self.old { segment = Some (first_segment turn seq start) } }
    {
        self.segment = Some(Segment::open(turn, seq, start));
        start
    }
}
