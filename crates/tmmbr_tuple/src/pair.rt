//! A packet rate and a net media rate, which make a pair.

ghost use Rattle.std.specs.Prelude.{◌≡◌, ◌^◌, ◌<◌, ◌≤◌, ◌↔◌, IsSome, IfSome};

/// A sender's operating point, in whole numbers: `packets / seconds` packets and `bits / seconds`
/// bits of net media per second (RFC 5104, section 2.2: net media bit rate and packet rate).
#[derive(Clone, Copy, Debug, PartialEq, Eq)]
pub struct Pair {
    /// Packets in `seconds`, below 2^100.
    pub packets: u128,
    /// Bits of media, without any header, in `seconds`; below 2^100.
    pub bits: u128,
    /// The length of time, 1 to 2^14 - 1; never 0.
    pub seconds: u128,
    pub ghost packets_in_range: { packets < 2 ^ 100 },
    pub ghost bits_in_range: { bits < 2 ^ 100 },
    pub ghost some_time: { 1 ≤ seconds },
    pub ghost seconds_in_range: { seconds < 2 ^ 14 },
}

impl Pair {
    /// The pair of these three numbers; `None` exactly if one of them is out of its range.
    pub fn new(packets: u128, bits: u128, seconds: u128) -> Option<Pair>
        ensures in_range { IsSome result
            ↔ ((packets < 2 ^ 100) × (bits < 2 ^ 100) × (1 ≤ seconds) × (seconds < 2 ^ 14)) }
        ensures value { IfSome result (λ p. (p.packets ≡ packets) × (p.bits ≡ bits)
            × (p.seconds ≡ seconds)) }
    {
        if packets < 1 << 100 && bits < 1 << 100 && 1 <= seconds && seconds < 1 << 14 {
            Some(Pair {
                packets,
                bits,
                seconds,
            })
        } else {
            None
        }
    }
}

/// Nothing sent in one second.
impl Default for Pair {
    ghost is_default = { λ p. (p.packets ≡ 0) × (p.bits ≡ 0) × (p.seconds ≡ 1) };

    fn default() -> Self {
        Pair {
            packets: 0,
            bits: 0,
            seconds: 1,
        }
    }
}
