//! What holds of a room, and of a reception, over every list of calls. These functions do nothing: their contracts are the
//! laws. A call that was refused for want of memory changed nothing, so lists leave it out.

ghost use Rattle.std.specs.Prelude.{◌≡◌, ◌≢◌, All, ℕ, ◌<◌, List, length};
ghost use Rattle.members.specs.Presence.{is_present_at};
ghost use Rattle.settings.specs.Settings.{Configuration, IsInRange};
ghost use Rattle.members.specs.Room.{new_room, leg_at, reception_at};
ghost use Rattle.members.specs.Calls.{Call, room_after, orders_after, accepted_calls, greatest_moment, is_present_after, arrivals, departures, received_in_presence, RiseWithin, StandsByPresence, StandsNowhere};
ghost use Rattle.members.specs.Calls.{drawn_numbers, RunsFrom, stay_after, IsOnePresence};
ghost use Rattle.std.specs.Prelude.{Option, ◌∷◌, ◌++◌, ◌↔◌};
ghost use Rattle.tmmbr_tuple.specs.declared.ssrc.Ssrc.{Ssrc};
ghost use Rattle.members.specs.Reception.{Block, ReceptionCall, Arrival, reception_of, IsBlockAfter, IsHighest, greatest_number};
ghost use Rattle.members.specs.Stream.{heard_after, IsBlockAnswer};

use rewrite::SEQ_CYCLE;

/// Who is present after any calls of a new room is what the whole list of its accepted calls says: the
/// last hear of each endpoint, a goodbye after it, and the greatest moment. The room's moment is that
/// greatest one.
pub fn present_by_last_hears()
    ensures present { (s : Configuration) (calls : List Call) (endpoint : ℕ)
        → IsInRange s → endpoint < length s.endpoints
        → is_present_at (room_after (new_room s) calls).endpoints endpoint
        ≡ is_present_after s.timeout_ms endpoint (accepted_calls (new_room s) calls) }
    ensures moment { (s : Configuration) (calls : List Call) → IsInRange s
        → (room_after (new_room s) calls).moment
        ≡ greatest_moment 0 (accepted_calls (new_room s) calls) }
{}

/// The stays that begin are numbered by rising numbers, from 1 on: no number is drawn twice.
pub fn stays_rise()
    ensures { (s : Configuration) (calls : List Call) → RiseWithin 1
        (arrivals (orders_after (new_room s) calls)) (room_after (new_room s) calls).next }
{}

/// The numbers that are drawn for stays and turns, in the order of the orders, are 1, 2, 3 and so on: one
/// counter gives both, and no number is drawn twice.
pub fn numbers_run()
    ensures { (s : Configuration) (calls : List Call) → RunsFrom 1
        (drawn_numbers (orders_after (new_room s) calls)) (room_after (new_room s) calls).next }
{}

/// A stay's number is that of one presence of its leg's subscriber and of one of its publisher: if
/// a stay stands after some calls, it is the same after more of them exactly if each is in the presence
/// that it was in.
pub fn stays_number_presences()
    ensures { (s : Configuration) (before after : List Call) (leg : ℕ)
        → IsInRange s → leg < length s.legs
        → stay_after s before leg ≢ 0
        → (stay_after s (before ++ after) leg ≡ stay_after s before leg)
        ↔ (IsOnePresence s (leg_at (new_room s).legs leg).subscriber before (before ++ after)
        × IsOnePresence s (leg_at (new_room s).legs leg).publisher before (before ++ after)) }
{}

/// A stay that ended never stands again: no leg has its number after any further calls.
pub fn ended_stays_never_stand()
    ensures { (s : Configuration) (before after : List Call)
        → All (StandsNowhere (room_after (new_room s) (before ++ after)).legs)
        (departures (orders_after (new_room s) before)) }
{}

/// After any calls of a new room the stay of each leg stands exactly while its subscriber and its
/// publisher are both present.
pub fn stand_by_presence()
    ensures { (s : Configuration) (calls : List Call) → IsInRange s
        → All (StandsByPresence (room_after (new_room s) calls).endpoints)
        (room_after (new_room s) calls).legs }
{}

/// After every list of calls a new reception holds what the whole list says of the packets that count,
/// and answers a wish for a block by that. The highest number is the greatest of those that the packets
/// stand for.
pub fn receives()
    ensures values { (calls : List ReceptionCall) → heard_after calls ≡ reception_of calls }
    ensures answers { (calls : List ReceptionCall)
        (moment : ℕ) (source : Ssrc) (answer : Option Block)
        → IsBlockAnswer (heard_after calls) moment source answer
        → IsBlockAfter calls moment source answer }
    ensures highest { (first : Arrival) (rest : List Arrival)
        → All (λ p. p.seq < SEQ_CYCLE) (first ∷ rest)
        → IsHighest (first ∷ rest) (greatest_number (first ∷ rest)) }
{}

/// After any calls of a new room what it holds of an endpoint's reception, and the answer to a wish for a
/// block about it, are what the reception calls of the endpoint in its present presence come to: those since
/// it last came, each at the greatest moment handed in before it; none if it is absent.
pub fn receives_since_it_came()
    ensures values { (s : Configuration) (calls : List Call) (endpoint : ℕ)
        → IsInRange s → endpoint < length s.endpoints
        → reception_at (room_after (new_room s) calls) endpoint
        ≡ reception_of
        (received_in_presence s.timeout_ms endpoint (accepted_calls (new_room s) calls)) }
    ensures answers { (s : Configuration) (calls : List Call)
        (endpoint moment : ℕ) (source : Ssrc) (answer : Option Block)
        → IsInRange s → endpoint < length s.endpoints
        → IsBlockAnswer (reception_at (room_after (new_room s) calls) endpoint) moment source answer
        → IsBlockAfter
        (received_in_presence s.timeout_ms endpoint (accepted_calls (new_room s) calls))
        moment source answer }
{}
