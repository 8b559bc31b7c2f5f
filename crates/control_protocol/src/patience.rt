//! For how long a peer is waited for.

ghost use Rattle.std.specs.Prelude.{◌≡◌};
ghost use Rattle.control_protocol.specs.Patience.{is_let_go};

/// A peer that says no whole line, or takes nothing of what waits for it, for so many milliseconds is let go.
const PATIENCE_MS: u64 = 10_000;

/// Whether a peer is let go at this moment, in milliseconds, that was heard last at that one: if it has been silent for too long, unless it
/// stays and took all that it was told.
pub(crate) fn is_let_go(stays: bool, has_taken: bool, since_ms: u64, moment: u64) -> bool
    ensures { result ≡ is_let_go stays has_taken since_ms moment }
{
    if stays && has_taken {
        return false;
    }
    moment.saturating_sub(since_ms) >= PATIENCE_MS
}
