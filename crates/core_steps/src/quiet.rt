//! What is live once nothing waits. This function does nothing: its contract is the law.

ghost use Rattle.std.specs.Prelude.{List};
ghost use Rattle.settings.specs.Settings.{Configuration, IsInRange};
ghost use Rattle.events.specs.declared.event.Event.{Event};
ghost use Rattle.core_steps.specs.Happening.{Happening};
ghost use Rattle.core_steps.specs.Opening.{IsNewWorld};
ghost use Rattle.core_steps.specs.Quiet.{HeardRate, HeardIn, IsQuiet, LastHeardIsLive};
ghost use Rattle.core_steps.specs.Run.{Runs, worlds_after};
ghost use Rattle.core_steps.specs.World.{WorldState};

/// After a run that begins with a new world and leaves nothing to do, gave up no job and met no full history, each live
/// request is the word that was heard last in the stay that stands; if one was heard, it is live, unless it was asked for in
/// that stay and an expire took it; and if no stay stands, nothing is live.
pub fn last_heard_is_live()
    ensures { (c : Configuration) (w : WorldState) (events : List Event) (history : List Happening)
        (rates : List HeardRate)
        → IsInRange c → IsNewWorld c w → Runs w events history → HeardIn w events history rates
        → IsQuiet history (worlds_after w history)
        → LastHeardIsLive c history rates (worlds_after w history) }
{}
