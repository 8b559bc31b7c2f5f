//! Packets of one turn, numbered from the first of them.

ghost use Rattle.std.specs.Prelude.{◌≡◌, ◌<◌, MatchResult};
ghost use Rattle.rewrite.specs.Leg.{IsWithinLimit, first_segment, last_number, answer_in, with_number};

use crate::sequence::{SEQ_CYCLE, extended_number};
use crate::skip::Skip;

/// Outgoing numbers are below this.
pub const NUMBER_LIMIT: u64 = 1 << 62;

/// The packets of one turn. Their extended numbers count on when sequence numbers wrap (RFC 3550,
/// appendix A.1), and begin one cycle up, so that those before the first are whole numbers too.
#[derive(Clone, Copy)]
pub struct Segment {
    /// The turn of its packets.
    pub turn: u64,
    /// The extended number of its first packet.
    pub base: u64,
    /// The outgoing number of its first packet.
    pub start: u64,
    /// The highest extended number so far.
    pub highest: u64,
}

impl Segment {
    /// The segment that begins with this packet, which gets the number `start`.
    pub fn open(turn: u64, seq: u16, start: u64) -> Segment
        ensures { result ≡ first_segment turn seq start }
    {
        let base = SEQ_CYCLE + u64::from(seq);
        Segment {
            turn,
            base,
            start,
            highest: base,
        }
    }

    /// The number of its highest packet.
    pub fn last_number(&self) -> u64
        requires { IsWithinLimit self.now }
        ensures value { result ≡ last_number self.now }
        ensures bound { result < NUMBER_LIMIT }
    {
        self.start + (self.highest - self.base)
    }

    /// The number of a packet of this turn, which may be the highest from now on. A `Skip` changes
    /// nothing.
    pub fn take(&mut self, seq: u16) -> Result<u64, Skip>
        requires { IsWithinLimit self.old }
        ensures answer { result ≡ answer_in self.old seq }
        ensures kept { MatchResult result (λ number. self.new
            ≡ with_number self.old number) (λ _. self.new ≡ self.old) }
        ensures within { IsWithinLimit self.new }
    {
        let extended = extended_number(self.highest, seq);
        if extended < self.base {
            return Err(Skip::Old);
        }
        let number = self.start + (extended - self.base);
        if number >= NUMBER_LIMIT {
            return Err(Skip::Spent);
        }
        self.highest = self.highest.max(extended);
        Ok(number)
    }
}
