//! What is so of whatever is heard. These functions do nothing: their contracts are the laws.

ghost use Rattle.std.specs.Prelude.{◌≤◌, ℕ, List, length, map, slice_range};
ghost use Rattle.rtcp_compound.specs.Content.{packet_content};
ghost use Rattle.rtcp_compound.specs.Grammar.{ReadsRtcp, RtcpPacket};
ghost use Rattle.datagram.specs.Notes.{AreNoted};
ghost use Rattle.datagram.specs.declared.notes.Notes.{Notes};
ghost use Rattle.datagram.specs.declared.reading.Sent.{Sent};
ghost use Rattle.entrance.specs.declared.entrance.Admitted.{Admitted};
ghost use Rattle.members.specs.declared.view.RoomView.{RoomView};
ghost use Rattle.udp.specs.Hearing.{AsksNothing, HearsRead, Stand, TakesAll};
ghost use Rattle.udp.specs.Noted.{HasRoom, NotesAll};
ghost use Rattle.udp.specs.declared.hearing.Hearing.{Hearing};

/// If no rule asks for anything, what came is taken in as it was read, with all that it asks for.
#[tactic(auto, using(crate::proofs::PolicyLemmas::takes_what_came))]
pub fn takes_what_came()
    ensures { (sent : Sent) (stand : Stand) (view : RoomView) (from to : ℕ) (hearing : Hearing)
        (admitted : Admitted) → AsksNothing stand.ruling
        → HearsRead sent stand view from to hearing admitted
        → TakesAll sent (slice_range stand.bytes from to) hearing admitted }
{}

/// Of a datagram of RTCP packets all report blocks are noted, and all entries of its last TMMBN: there is room for as many as the longest has.
pub(crate) fn notes_all()
    ensures { (datagram : List ℕ) (packets : List RtcpPacket) (n : Notes)
        → ReadsRtcp datagram packets → length datagram ≤ 65535 → HasRoom n
        → AreNoted n (map packet_content packets) → NotesAll n (map packet_content packets) }
{}
