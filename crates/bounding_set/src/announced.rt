//! The announced set of live requests, with its certificate.

ghost use Rattle.std.specs.Prelude.{◌≡◌, ◌<◌, ◌≤◌, length};
ghost use Rattle.rate_cert.specs.Choice.{chosen_requests};
ghost use Rattle.rate_cert.specs.Certificate.{kept_places};
ghost use Rattle.bounding_set.specs.Rows.{HasRisingOwners};
ghost use Rattle.bounding_set.specs.Announced.{HoldsStops, announced_among};
ghost use Rattle.bounding_set.specs.Envelope.{IsEnvelopeOf};
ghost use Rattle.bounding_set.specs.Certificate.{kept_pairs};
ghost use Rattle.bounding_set.specs.Kept.{pairs_of};
ghost use Rattle.bounding_set.specs.State.{AnnouncesFor};

use crate::certificate::certify;
use arrayvec::ArrayVec;
use rate_cert::{Cert, MAX_REQUESTS, Request};

/// How many requests are announced at most for the pairs of their certificate to be made anew at each
/// change.
const MADE_ANEW: usize = 16;

/// Keeps a copy of what is announced, if these are many: their certificate is mended once they have
/// changed. Of few, and beside a rate of 0, it keeps none.
pub fn remember(lines: &[Request], stops: &[Request], before: &mut ArrayVec<Request, MAX_REQUESTS>)
    ensures { 0 < length before.new.items → before.new.items ≡ announced_among stops.now lines.now }
{
    before.clear();
    if stops.is_empty() && lines.len() > MADE_ANEW {
        let _full = before.try_extend_from_slice(lines);
    }
}

/// Makes the certificate of the set that is announced for these rows: the lines of their envelope, or
/// what stands for them if a rate is 0. It was that of the requests before, if they are given.
pub fn announce(
    rows: &[Request],
    before: &[Request],
    lines: &[Request],
    stops: &[Request],
    cert: &mut Cert,
)
    requires rising { HasRisingOwners rows.now }
    requires within { length rows.now ≤ MAX_REQUESTS }
    requires envelope { IsEnvelopeOf rows.now lines.now }
    requires holds { HoldsStops rows.now stops.now }
    requires had { 0 < length before.now → pairs_of cert.old.kept.items ≡ kept_pairs before.now }
    ensures announced { AnnouncesFor rows.now cert.new }
    ensures chosen { chosen_requests rows.now (kept_places cert.new)
        ≡ announced_among stops.now lines.now }
{
    if stops.is_empty() {
        certify(rows, before, lines, cert);
    } else {
        certify(rows, before, stops, cert);
    }
}
