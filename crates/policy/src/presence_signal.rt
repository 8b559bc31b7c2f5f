//! What is said of who sent a datagram.

ghost use Rattle.std.specs.Prelude.{◌≡◌};
ghost use Rattle.policy.specs.PresenceSignal.{signal_in};

use datagram::{Media, What};
use tmmbr_tuple::Ssrc;

/// What a datagram says of the endpoint that sent it.
#[derive(Clone, Copy)]
pub(crate) enum PresenceSignal {
    /// Nothing that the unit hears under the endpoint's own source.
    Nothing,
    /// It is there, asks for what is listed, and notifies of requests or doesn't.
    Speaks { notifies: bool },
    /// It leaves.
    Leaves,
}

/// What is said of the endpoint with this source.
pub(crate) fn signal_in(what: What, own: Ssrc) -> PresenceSignal
    ensures { result ≡ signal_in own.0 what }
{
    match what {
        What::Media(Media { ssrc, .. }) => {
            if ssrc.0 == own.0 {
                PresenceSignal::Speaks { notifies: false }
            } else {
                PresenceSignal::Nothing
            }
        }
        What::Control(rtcp) => {
            if rtcp.speaker.0 == own.0 {
                let notifies = rtcp.tmmbns > 0;
                PresenceSignal::Speaks { notifies }
            } else {
                PresenceSignal::Nothing
            }
        }
        What::Goodbye => PresenceSignal::Leaves,
        What::Refused(_) => PresenceSignal::Nothing,
    }
}
