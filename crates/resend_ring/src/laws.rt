//! What a ring keeps over every list of packets. These functions do nothing: their contracts are the
//! laws.

ghost use Rattle.std.specs.Prelude.{ℕ, ◌≡◌, List, []};
ghost use Rattle.circular_buffer.specs.Buffer.{keep_last};
ghost use Rattle.resend_ring.specs.Kept.{SentPacket, kept_in_turn, last_kept_with};

/// Of all packets that a new ring was given, it keeps the last ones, as many as its capacity; and what
/// it finds is the latest of these.
pub fn keeps_the_last<T>()
    ensures kept { (capacity : ℕ) (packets : List (SentPacket T))
        → kept_in_turn capacity [] packets ≡ keep_last capacity packets }
    ensures found { (capacity seq : ℕ) (packets : List (SentPacket T))
        → last_kept_with (kept_in_turn capacity [] packets) seq
        ≡ last_kept_with (keep_last capacity packets) seq }
{}
