//! The tuple of a rate request: a media rate and the overhead that it is asked with.

ghost use Rattle.std.specs.Prelude.{◌≡◌, ◌*◌, ◌^◌, ◌<◌, ◌↔◌, IsSome, IfSome};

/// What one request allows (RFC 5104, section 4.2.1.1): a total rate of `mantissa * 2^exp` bits per
/// second, of which each packet takes `overhead` bytes for its headers.
///
/// A rate of 0 asks for no media at all. Two tuples may spell one rate; they are equal only if
/// all three numbers are.
#[derive(Clone, Copy, Debug, PartialEq, Eq)]
pub struct Tuple {
    /// The exponent of the rate, below 64.
    pub exp: u8,
    /// The mantissa of the rate, below 131,072.
    pub mantissa: u32,
    /// Bytes of header per packet, below 512.
    pub overhead: u16,
    pub ghost exp_in_range: { exp < 64 },
    pub ghost mantissa_in_range: { mantissa < 131072 },
    pub ghost overhead_in_range: { overhead < 512 },
}

impl Tuple {
    ghost use Rattle.tmmbr_tuple.specs.Tuple.{rate_of, word_of};

    /// The tuple of these three numbers; `None` exactly if one of them is out of its range.
    pub fn new(exp: u8, mantissa: u32, overhead: u16) -> Option<Tuple>
        ensures in_range { IsSome result ↔ ((exp < 64) × (mantissa < 131072) × (overhead < 512)) }
        ensures value { IfSome result (λ t. (t.exp ≡ exp) × (t.mantissa ≡ mantissa)
            × (t.overhead ≡ overhead)) }
    {
        if exp < 64 && mantissa < 131_072 && overhead < 512 {
            Some(Tuple {
                exp,
                mantissa,
                overhead,
            })
        } else {
            None
        }
    }

    /// The tuple that a word of an FCI entry spells: exponent in 6 bits, mantissa in 17, overhead
    /// in 9, from the top (RFC 5104, section 4.2.1.1). Each word spells one.
    pub fn from_word(word: u32) -> Tuple
        ensures spelled { word_of result ≡ word }
        ensures only { (t : Tuple) → word_of t ≡ word → t ≡ result }
    {
        Tuple {
            exp: (word >> 26) as u8,
            mantissa: (word >> 9) & 0x1_ffff,
            overhead: (word & 0x1ff) as u16,
        }
    }

    /// The word that spells this tuple, as `from_word` reads it.
    pub fn to_word(self) -> u32
        ensures { result ≡ word_of self }
    {
        (((u32::from(self.exp) << 17) | self.mantissa) << 9) | u32::from(self.overhead)
    }

    /// The rate in bits per second, at most 131,071 * 2^63.
    pub fn rate(self) -> u128
        ensures value { result ≡ rate_of self }
        ensures bound { result < 2 ^ 80 }
    {
        u128::from(self.mantissa) << self.exp
    }

    /// The overhead in bytes per packet, 0 to 511.
    pub fn overhead(self) -> u16
        ensures { result ≡ self.overhead }
    {
        self.overhead
    }
}

/// The rate 0 without overhead, spelled by the word 0: it asks for no media at all.
impl Default for Tuple {
    ghost use Rattle.std.specs.Prelude.{◌≡◌};
    ghost use Rattle.tmmbr_tuple.specs.Tuple.{word_of};

    ghost is_default = { λ t. word_of t ≡ 0 };

    fn default() -> Self {
        Tuple {
            exp: 0,
            mantissa: 0,
            overhead: 0,
        }
    }
}
