//! Where the line of a kept request begins and ends, and the pair between.

ghost use Rattle.std.specs.Prelude.{◌^◌, ◌<◌};

use rate_cert::Request;
use tmmbr_tuple::Pair;

/// A packet rate: `upper / lower` packets per second, or no bound if `lower` is 0.
#[derive(Clone, Copy)]
pub struct LineEnd {
    /// Packets in `lower` seconds, below 2^80.
    upper: u128,
    /// Seconds, below 2^12.
    lower: u128,
    ghost upper_in_range: { upper < 2 ^ 80 },
    ghost lower_in_range: { lower < 2 ^ 12 },
}

impl LineEnd {
    ghost use Rattle.std.specs.Prelude.{◌≡◌, ◌≤◌, All};
    ghost use Rattle.tmmbr_tuple.specs.RatePair.{pair_of};
    ghost use Rattle.bounding_set.specs.Announced.{Follows};
    ghost use Rattle.bounding_set.specs.Certificate.{start_end, right_end, pair_between};
    ghost use Rattle.bounding_set.specs.Kept.{end_of, IsEndOf};

    /// No packets: there the first line begins.
    pub fn start() -> LineEnd
        ensures { end_of result ≡ start_end }
    {
        LineEnd { upper: 0, lower: 1 }
    }

    /// Where the request's line crosses that of the next one, or where the last one leaves no media.
    pub fn right_of(x: &Request, behind: &[Request]) -> LineEnd
        requires { All (Follows x.now) behind.now }
        ensures { end_of result ≡ right_end x.now behind.now }
    {
        let rate = x.tuple.rate();
        let overhead = u128::from(x.tuple.overhead);
        match behind {
            [next, ..] => LineEnd {
                upper: next.tuple.rate() - rate,
                lower: 8 * (u128::from(next.tuple.overhead) - overhead),
            },
            [] => LineEnd {
                upper: rate,
                lower: 8 * overhead,
            },
        }
    }

    /// The pair between this end of a line and the right one, one bit above the line.
    pub fn pair_to(self, right: LineEnd, x: &Request) -> Pair
        requires some_time { 1 ≤ self.lower }
        requires left { IsEndOf x.now (end_of self) }
        requires right { IsEndOf x.now (end_of right) }
        ensures { pair_of result ≡ pair_between x.now (end_of self) (end_of right) }
    {
        let packets = self.upper + right.upper;
        let seconds = self.lower + right.lower;
        let headers = 8 * u128::from(x.tuple.overhead) * packets;
        Pair {
            packets,
            bits: x.tuple.rate() * seconds - headers + 1,
            seconds,
        }
    }
}
