//! When something is said of a leg unasked.

ghost use Rattle.std.specs.Prelude.{◌≡◌, ◌≤◌, ◌+◌, ◌↔◌, IsTrue};
ghost use Rattle.diagnosis.specs.Remarks.{IsRemarkDue};

use crate::kinds::ReasonKind;

/// So many milliseconds lie at least between two lines about a leg, and before the first.
pub const REMARK_EACH_MS: u64 = 1_000;

/// What was said of a leg last.
#[derive(Clone, Copy, PartialEq, Eq)]
pub struct Remark {
    pub kind: ReasonKind,
    /// When it was said, in milliseconds since the start.
    pub moment: u64,
}

/// Whether a reason of this kind is to be said of a leg at this moment, if this was said of it last: nothing within the first second, and the
/// same never twice in a row.
pub fn is_remark_due(said: Option<Remark>, kind: ReasonKind, moment: u64) -> bool
    ensures { IsTrue result ↔ IsRemarkDue said kind moment }
{
    match said {
        Some(said) => said.kind != kind && is_old(said.moment, moment),
        None => is_old(0, moment),
    }
}

/// Whether something is a second old at this moment.
fn is_old(then_ms: u64, moment: u64) -> bool
    ensures { IsTrue result ↔ then_ms + REMARK_EACH_MS ≤ moment }
{
    moment.saturating_sub(then_ms) >= REMARK_EACH_MS
}
