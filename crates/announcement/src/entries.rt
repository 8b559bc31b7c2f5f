//! The entries that tell a set of requests.

ghost use Rattle.std.specs.Prelude.{◌≡◌, IfOk};
ghost use Rattle.announcement.specs.Entries.{entries_of};

use rate_cert::Request;
use rtcp_feedback::TmmbrEntry;
use std::alloc::{AllocError, Global};

/// The entries of a TMMBN that announces these requests: one for each, in their order. Refused only if there
/// is no memory for them.
pub fn entries_of(alloc: Global, set: &[Request]) -> Result<Vec<TmmbrEntry>, AllocError>
    ensures { IfOk result (λ entries. entries.items ≡ entries_of set.now) }
{
    set.iter()
        .map(|request| TmmbrEntry {
            ssrc: request.owner,
            word: request.tuple.to_word(),
        })
        .collect(alloc)
}
