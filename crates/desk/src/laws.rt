//! What holds of a desk's history, over every base and list of entries. These functions do nothing: their
//! contracts are the laws.

ghost use Rattle.std.specs.Prelude.{◌≡◌, ◌≤◌, ◌+◌, ◌↔◌, ◌∷◌, ◌++◌, ℕ, List, None, Some, length};
ghost use Rattle.tmmbr_tuple.specs.declared.ssrc.Ssrc.{Ssrc};
ghost use Rattle.tmmbr_tuple.specs.declared.tuple.Tuple.{Tuple};
ghost use Rattle.bounding_set.specs.Rows.{tuple_of};
ghost use Rattle.desk.specs.declared.call.Answer.TheVariants.{Full};
ghost use Rattle.desk.specs.declared.call.Call.TheVariants.{Stay};
ghost use Rattle.desk.specs.declared.call.Change.TheVariants.{Arrive};
ghost use Rattle.desk.specs.declared.call.Entry.{Entry};
ghost use Rattle.desk.specs.declared.base.Base.{Base};
ghost use Rattle.desk.specs.declared.presence.TheConstants.{PRESENT_LIMIT};
ghost use Rattle.desk.specs.Answer.{IsAnswerTo};
ghost use Rattle.desk.specs.Others.{HasOthers};
ghost use Rattle.desk.specs.Presence.{stay_in};
ghost use Rattle.desk.specs.Trace.{IsBase, base_with, base_after, live_after, words_of};
ghost use Rattle.desk.specs.Places.{IsPresent, IsPresentFrom, IsLiveFrom, greatest_until};
ghost use Rattle.desk.specs.History.{IsLegalHistory, IsLegalTrace};
ghost use Rattle.desk.specs.Schedule.{IsGreatestUntil, IsPliSchedule, WentUpAt, calls_in};

/// Folding the first entries into the base, early or late, changes nothing of what a trace comes to, and a
/// legal history stays legal. Calls and words of the base count on.
pub fn folding_keeps_the_trace()
    ensures whole { (ms : ℕ) (base : Base) (first rest : List Entry)
        → base_after ms base (first ++ rest) ≡ base_after ms (base_after ms base first) rest }
    ensures legal { (gap ms : ℕ) (base : Base) (e : Entry) (rest : List Entry)
        → IsLegalHistory gap ms base (e ∷ rest) → IsLegalHistory gap ms (base_with ms base e) rest }
    ensures calls { (ms : ℕ) (base : Base) (entries : List Entry)
        → (base_after ms base entries).calls ≡ base.calls + length entries }
    ensures words { (ms : ℕ) (base : Base) (entries : List Entry)
        → (base_after ms base entries).words ≡ base.words + words_of entries }
{}

/// After every legal history an owner is present with a stay exactly if it is in the base or arrived
/// with it, and no depart of it was done since.
pub fn present_since_arrival()
    ensures { (gap ms : ℕ) (base : Base) (entries : List Entry) (owner stay : ℕ)
        → IsLegalHistory gap ms base entries → 1 ≤ stay
        → stay_in (base_after ms base entries).present.items owner ≡ stay
        ↔ IsPresent base entries owner stay }
{}

/// What the calls of a legal history come to is a base as it should be: owners rise, so that nobody is present twice. So if an
/// arrive is answered `Full`, as many others are present as may be, by the trace.
pub fn full_where_others_present()
    ensures base { (gap ms : ℕ) (base : Base) (entries : List Entry)
        → IsLegalTrace gap ms base entries → IsBase (base_after ms base entries) }
    ensures full { (gap ms : ℕ) (base : Base) (entries : List Entry) (owner : Ssrc) (stay : ℕ)
        → IsLegalTrace gap ms base entries
        → IsAnswerTo gap ms (base_after ms base entries) (Stay owner stay Arrive) Full
        → HasOthers base entries owner.0 PRESENT_LIMIT }
{}

/// What an owner asks for that is present is the last request of it that was done since it arrived, or what
/// it asks for in the base if none was, unless an expire took it: one at which the greatest moment is
/// that of the request and `ms` milliseconds more. One that isn't present asks for nothing.
pub fn live_since_request()
    ensures absent { (gap ms : ℕ) (base : Base) (entries : List Entry) (owner : ℕ)
        → IsLegalTrace gap ms base entries
        → stay_in (base_after ms base entries).present.items owner ≡ 0
        → tuple_of (live_after ms base entries) owner ≡ None }
    ensures live { (gap ms : ℕ) (base : Base) (entries : List Entry)
        (owner stay from : ℕ) (tuple : Tuple)
        → IsLegalTrace gap ms base entries → 1 ≤ stay → IsPresentFrom base entries owner stay from
        → tuple_of (live_after ms base entries) owner ≡ Some tuple
        ↔ IsLiveFrom ms base entries owner from tuple }
{}

/// In every legal history, PLIs are sent upstream by the schedule: at a `pli` or a `tick`, if a picture
/// is still wanted and the last PLI was sent at least the gap ago (RFC 4585, section 6.3.1). It is always
/// as late as the greatest moment that a call showed.
pub fn plis_on_schedule()
    ensures schedule { (gap ms : ℕ) (base : Base) (entries : List Entry)
        → IsLegalHistory gap ms base entries → IsPliSchedule gap base entries }
    ensures greatest { (base : Base) (entries : List Entry) (place : ℕ)
        → IsGreatestUntil base entries place (greatest_until base entries place) }
{}

/// There is one such schedule: the base and the calls alone decide it. If the same calls are answered in
/// two ways, and both keep to the schedule, PLIs go upstream at the same places, whatever else is answered.
pub fn one_pli_schedule()
    ensures { (gap : ℕ) (base : Base) (entries others : List Entry) (place : ℕ)
        → calls_in entries ≡ calls_in others → IsPliSchedule gap base entries
        → IsPliSchedule gap base others
        → WentUpAt entries place ↔ WentUpAt others place }
{}
