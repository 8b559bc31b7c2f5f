//! Which rows are announced, as bits.

ghost use Rattle.std.specs.Prelude.{◌<◌, List, All};
ghost use Rattle.rate_cert.specs.declared.request.Request.{Request};
ghost use Rattle.rate_cert.specs.Certificate.{kept_places};
ghost use Rattle.bounding_set.specs.Canonical.{IsCanonical};
ghost use Rattle.bounding_set.specs.declared.rows.TheConstants.{LIVE_LIMIT};
ghost use Rattle.desk.specs.Kept.{KeepsRows};

use crate::call::KEPT_WORDS;
use rate_cert::Cert;

/// How many rows have their bits in one word.
pub const WORD_BITS: usize = u64::BITS as usize;

/// The rows that a certificate keeps: bit i modulo 64 of word i / 64 says that row i is kept.
pub fn kept_bits(cert: &Cert) -> [u64; KEPT_WORDS]
    requires { All (λ k. k.place < LIVE_LIMIT) cert.now.kept.items }
    ensures { (rows : List Request) → IsCanonical rows (kept_places cert.now)
        → KeepsRows rows result }
{
    let mut words = [0; KEPT_WORDS];
    for kept in cert.kept.as_slice() {
        let place = kept.place as usize;
        words[place / WORD_BITS] |= 1 << (place % WORD_BITS);
    }
    words
}
