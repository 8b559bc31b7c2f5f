//! What is so of every list of a source's packets, of every list of numbers, of all that comes of an endpoint, and of every list of happenings. These functions do nothing: their contracts are the laws.

ghost use Rattle.std.specs.Prelude.{◌≡◌, ◌≤◌, ◌∷◌, ℕ, List, Option, None, Some, true, false, slice_get};
ghost use Rattle.datagram.specs.declared.reading.Sent.{Sent};
ghost use Rattle.members.specs.Room.{RoomState};
ghost use Rattle.policy.specs.FloodLimiter.{AreInOrder, KeepsWithin};
ghost use Rattle.policy.specs.Nacks.{NamesJust};
ghost use Rattle.policy.specs.Presence.{is_there};
ghost use Rattle.policy.specs.IngressFilter.{PlacesOwn, welcomed};
ghost use Rattle.policy.specs.SequenceTrackers.{FollowsFar, first_or_placed, goes_on, tracker_of};
ghost use Rattle.policy.specs.declared.sequence_tracker.Stamp.{Stamp};
ghost use Rattle.policy.specs.declared.sequence_tracker.SequenceTracker.{SequenceTracker};
ghost use Rattle.policy.specs.declared.sequence_tracker.Placement.TheVariants.{InSequence, Restart};
ghost use Rattle.policy.specs.declared.ingress_filter.Judged.{Judged};
ghost use Rattle.policy.specs.declared.ingress_filter.Judged.TheVariants.{Take};
ghost use Rattle.policy.specs.declared.ingress_filter.IngressFilter.{IngressFilter};
ghost use Rattle.std.specs.List.{list_any};
ghost use Rattle.rtcp_feedback.specs.declared.tmmb.TmmbrEntry.{TmmbrEntry};
ghost use Rattle.settings.specs.declared.settings.LegSettings.{LegSettings};
ghost use Rattle.policy.specs.Again.{HoldTerms, IsOfTheLive, next_again};
ghost use Rattle.policy.specs.JoinedPublishers.{is_due};
ghost use Rattle.policy.specs.HeldRequests.{HearsAgain};
ghost use Rattle.policy.specs.Requests.{Happening, HoldsLast};
ghost use Rattle.policy.specs.RequestGaps.{AreGapsApart, GapHappening, IsHeardInTheEnd, IsNotLost, is_past, last_moment, word_asked_last, words_heard};
ghost use Rattle.policy.specs.AnnouncedSets.{IsHeldInVain, IsUnacknowledged, SetHappening, asks_again, is_lifted_again, set_after, with_passers};
ghost use Rattle.tmmbr_tuple.specs.declared.ssrc.Ssrc.{Ssrc};
ghost use Rattle.policy.specs.declared.again.Again.{Again};
ghost use Rattle.policy.specs.declared.held_requests.HeldRequests.{HeldRequests};

/// A source begins anew only with a packet that follows another far one: that one had the number before, and was far from the highest, too. One
/// odd packet never suffices.
#[tactic(auto, using(crate::proofs::TrackerLemmas::anew_follows))]
pub fn anew_follows_far()
    ensures { (packets : List Stamp) (stamp : Stamp)
        → first_or_placed (tracker_of packets) stamp ≡ Restart → FollowsFar packets stamp.seq }
{}

/// A source doesn't begin anew with a packet that goes on with the clock, whatever came before it, even a far packet that this one follows. An
/// outage is no new start.
#[tactic(auto, using(crate::proofs::TrackerLemmas::goes_on_in_sequence))]
pub fn outage_is_no_start()
    ensures { (packets : List Stamp) (run : SequenceTracker) (stamp : Stamp)
        → tracker_of packets ≡ Some run → goes_on run stamp ≡ true
        → first_or_placed (tracker_of packets) stamp ≡ InSequence }
{}

/// Who isn't there by the room, as after a BYE or a timeout, begins with its first packet: that is taken in, whatever was known of it.
#[tactic(auto, using(crate::proofs::TrackerLemmas::begins_in_sequence))]
pub fn who_left_begins()
    ensures { (before after : IngressFilter) (sent : Sent) (room : RoomState) (stamp : Stamp)
        (judged : Judged) → is_there room sent.endpoint sent.moment ≡ false
        → PlacesOwn (welcomed before sent room) after sent stamp judged → judged ≡ Take }
{}

/// An entry of a NACK that is written for some numbers names just these (RFC 4585, section 6.2.1). The first of them is PID. Each bit of BLP is
/// set exactly if the number so far after it is among the others.
#[tactic(auto, using(crate::proofs::EntryLemmas::names_just))]
pub fn entries_name_numbers()
    ensures { (seq : ℕ) (seqs : List ℕ) → NamesJust seq seqs }
{}

/// In whatever bursts datagrams of an endpoint come, of those in the last k milliseconds no more are heard than may be in k and a second more.
/// One is ignored only if it were too many so, for some k.
#[tactic(auto, using(crate::proofs::FloodLemmas::keeps_within))]
pub fn hears_as_many_as_the_limit_leaves()
    ensures { (limit moment : ℕ) (earlier : List ℕ) → 1 ≤ limit → AreInOrder (moment ∷ earlier)
        → KeepsWithin limit moment earlier }
{}

/// What is held for a leg is what its subscriber asked for last on it since it left last, whatever else was asked for and whoever else left.
#[tactic(auto, using(crate::proofs::RequestLemmas::holds_last))]
pub fn holds_what_was_asked_last()
    ensures { (legs : List LegSettings) (happenings : List Happening) (leg : ℕ) (s : LegSettings)
        → slice_get legs leg ≡ Some s → HoldsLast legs happenings leg s }
{}

/// What a subscriber asked for last on a leg is never lost: it waits, or nothing waits and it is what was heard last.
#[tactic(auto, using(crate::proofs::GapLemmas::is_not_lost))]
pub fn last_request_is_not_lost()
    ensures { (gap : ℕ) (leg : LegSettings) (happenings : List GapHappening) (word : ℕ)
        → word_asked_last happenings ≡ Some word → IsNotLost gap leg happenings word }
{}

/// Once a gap is over since what was heard last of a leg, and the leg is looked at, what was heard last is what was asked last.
#[tactic(auto, using(crate::proofs::GapLemmas::is_heard_in_the_end))]
pub fn last_request_is_heard_in_the_end()
    ensures { (gap : ℕ) (leg : LegSettings) (moment : ℕ) (earlier : List GapHappening) (word : ℕ)
        → is_past gap moment (last_moment (words_heard gap leg earlier)) ≡ true
        → word_asked_last earlier ≡ Some word → IsHeardInTheEnd gap leg moment earlier word }
{}

/// Whatever is asked for, and however often: of a leg nothing is heard within a gap of what was heard before.
#[tactic(auto, using(crate::proofs::GapLemmas::gaps_apart))]
pub fn requests_are_a_gap_apart()
    ensures { (gap : ℕ) (leg : LegSettings) (happenings : List GapHappening)
        → AreGapsApart gap (words_heard gap leg happenings) }
{}

/// A set is sent again only if it isn't empty and its publisher's last TMMBN, since it came, doesn't list all of it.
#[tactic(auto, using(crate::proofs::SetLemmas::asks_untold))]
pub fn asks_for_what_was_not_acknowledged()
    ensures { (happenings : List SetHappening) (set : List TmmbrEntry)
        → asks_again (set_after happenings) set ≡ true → IsUnacknowledged happenings set }
{}

/// An owner is lifted again only if the set doesn't name it and it isn't the publisher itself. If the publisher sent a TMMBN since it came, the
/// last one has to name the owner, too. If not, one of the last two sets that were seen since named it, or it asked or left since the earlier.
#[tactic(auto, using(crate::proofs::SetLemmas::lifts_the_gone))]
pub fn lifts_who_is_held_in_vain()
    ensures { (happenings : List SetHappening) (set live : List TmmbrEntry) (own : Option Ssrc) (owner : Ssrc)
        → is_lifted_again (with_passers live (set_after happenings)) set own owner ≡ true
        → IsHeldInVain happenings set live own owner }
{}

/// What is heard once more is what a subscriber asked for that spoke within the timeout itself: so nobody stays for what is heard in its name
/// alone.
#[tactic(auto, using(crate::proofs::AgainLemmas::is_of_the_live))]
pub fn is_heard_for_the_live()
    ensures { (t : HoldTerms) (from n : ℕ) (legs : List ℕ) (next : ℕ × Again)
        → next_again t from n legs ≡ Some next → IsOfTheLive t next.1 }
{}

/// While nobody is due, nothing is heard once more.
#[tactic(auto, using(crate::proofs::JoinedLemmas::hears_of_nobody))]
pub fn nothing_is_heard_of_nobody()
    ensures { (h k : HeldRequests) (t : HoldTerms) (again : Option Again)
        → list_any is_due h.joined_publishers ≡ false → HearsAgain h k t again → again ≡ None }
{}
