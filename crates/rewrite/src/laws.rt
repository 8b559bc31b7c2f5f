//! What a leg's numbers are over every list of packets. These functions do nothing: their contracts
//! are the laws.

ghost use Rattle.std.specs.Prelude.{ℕ, ◌<◌, List, All, flat_map};
ghost use Rattle.rewrite.specs.Numbering.{IncomingPacket, Renumbers, AreApart, entry_numbers};
ghost use Rattle.rewrite.specs.Leg.{new_leg, history_of, held_after, IsHeldBy};

use crate::sequence::SEQ_CYCLE;

/// What a new leg answers to packets one after another is what the whole list before each says. The
/// numbers of two segments never meet: those of the later one are greater.
pub fn renumbers()
    ensures numbers { (first : ℕ) (packets : List IncomingPacket) → first < SEQ_CYCLE
        → All (λ p. p.seq < SEQ_CYCLE) packets
        → Renumbers first (history_of (new_leg first) packets) }
    ensures apart { (first : ℕ) (packets : List IncomingPacket) → first < SEQ_CYCLE
        → All (λ p. p.seq < SEQ_CYCLE) packets
        → AreApart (flat_map entry_numbers (history_of (new_leg first) packets)) }
{}

/// What a new leg holds after any list of packets is what the packets that got a number say: its first
/// number, and the segment of the greatest turn. So a copy of a leg numbers as the leg would.
pub fn holds()
    ensures { (first : ℕ) (packets : List IncomingPacket) → first < SEQ_CYCLE
        → All (λ p. p.seq < SEQ_CYCLE) packets
        → IsHeldBy first (flat_map entry_numbers (history_of (new_leg first) packets))
        (held_after (new_leg first) packets) }
{}
