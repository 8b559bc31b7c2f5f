//! Extended sequence numbers, which count on when sequence numbers wrap (RFC 3550, appendix A.1).

ghost use Rattle.std.specs.Prelude.{◌≡◌, ◌+◌, ◌^◌, ◌≤◌};
ghost use Rattle.rewrite.specs.Sequence.{IsExtendedNumber, extended_number};

/// How many sequence numbers there are (RFC 3550, section 5.1).
pub const SEQ_CYCLE: u64 = 1 << 16;

/// How far below the highest packet a packet may stand; above it one less.
pub const SEQ_REACH: u64 = SEQ_CYCLE / 2;

/// The extended number of a packet: the one with its sequence number that stands from `SEQ_REACH` below the highest to less
/// than `SEQ_REACH` above it (RFC 3550, appendix A.1).
pub fn extended_number(highest: u64, seq: u16) -> u64
    requires reach { SEQ_REACH ≤ highest }
    requires room { highest + SEQ_REACH ≤ 2 ^ 64 }
    ensures value { result ≡ extended_number highest seq }
    ensures nearest { IsExtendedNumber highest seq result }
{
    let lowest = highest - SEQ_REACH;
    lowest + u64::from(seq.wrapping_sub((lowest % SEQ_CYCLE) as u16))
}
