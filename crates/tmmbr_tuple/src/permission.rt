//! What a tuple permits.

ghost use Rattle.std.specs.Prelude.{◌↔◌, IsTrue};
ghost use Rattle.tmmbr_tuple.specs.RatePair.{Permits, pair_of};

use crate::pair::Pair;
use crate::tuple::Tuple;

/// Whether the tuple permits the pair: media and headers together stay within its rate (RFC 5104,
/// section 3.5.4).
pub fn permits(tuple: &Tuple, pair: &Pair) -> bool
    ensures { IsTrue result ↔ Permits tuple.now (pair_of pair.now) }
{
    pair.bits + 8 * u128::from(tuple.overhead) * pair.packets <= tuple.rate() * pair.seconds
}
