//! What holds of a conference over several calls. These functions do nothing: their contracts are the laws.

ghost use Rattle.std.specs.Prelude.{◌≡◌, ◌∷◌, List};
ghost use Rattle.events.specs.declared.event.Event.{Event};
ghost use Rattle.ports.specs.declared.datagram.Datagram.{Datagram};
ghost use Rattle.conference.specs.Conference.{ConferenceState, HandsNext, Serves, ServesOn};

/// Whatever a conference has served since it was opened, with what a call serves it has served that, too, after it: so the
/// machine's laws hold of all its calls together, after each of them and after each event in them.
pub fn serves_after_serving()
    ensures { (outside : List Event) (old new : ConferenceState)
        → Serves outside old new → ServesOn outside old new }
{}

/// And with a datagram that is taken, that datagram was taken after those before it.
pub fn takes_in_order()
    ensures { (d : Datagram) (old new : ConferenceState) → old.waiting ≡ d ∷ new.waiting
        → new.world ≡ old.world → HandsNext d old new }
{}
