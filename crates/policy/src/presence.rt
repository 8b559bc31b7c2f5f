//! Who is there, by the room as it is.

ghost use Rattle.std.specs.Prelude.{◌≡◌};
ghost use Rattle.policy.specs.Presence.{is_there};

use members::RoomView;

/// Whether the endpoint is present at this moment, in milliseconds.
#[tactic(auto, unfolding(crate::specs::Presence::is_there))]
pub(crate) fn is_there(view: RoomView<'_>, endpoint: u16, moment: u64) -> bool
    ensures { result ≡ is_there view.entry.room.now endpoint moment }
{
    view.room.is_present_by(endpoint, moment)
}
