//! What is so of all names, and what is read of datagrams once names in them are exchanged. These functions do nothing: their contracts are the laws.

ghost use Rattle.std.specs.Prelude.{◌≡◌, ℕ, List, true, map, Ok};
ghost use Rattle.rtcp_compound.specs.Fault.{Refuses};
ghost use Rattle.rtcp_compound.specs.Grammar.{ReadsRtcp, RtcpPacket};
ghost use Rattle.rtcp_compound.specs.Mux.{is_rtcp};
ghost use Rattle.rtcp_compound.specs.declared.fault.RtcpFault.{RtcpFault as Fault};
ghost use Rattle.datagram.specs.Saying.{Gist, JoinsPackets};
ghost use Rattle.seats.specs.Exchange.{IsHeardAs, IsToldAs};
ghost use Rattle.seats.specs.Names.{exchanged};
ghost use Rattle.seats.specs.Places.{told_packet};
ghost use Rattle.seats.specs.Reread.{AreFit, AreOctets, IsHeardOf};
ghost use Rattle.seats.specs.declared.names.Names.{Names as Named};

/// Exchanging two names twice undoes it.
#[tactic(auto, using(crate::proofs::NameLemmas::back))]
pub fn exchanges_back()
    ensures { (one other name : ℕ) → exchanged one other (exchanged one other name) ≡ name }
{}

/// What two names become is one name only if they are one.
#[tactic(auto, using(crate::proofs::NameLemmas::apart))]
pub fn names_stay_apart()
    ensures { (one other a b : ℕ) → exchanged one other a ≡ exchanged one other b → a ≡ b }
{}

/// What is told is read as packets again, one for each that was given out: the same but for names (RFC 3550, section 6.1).
#[tactic(auto, using(crate::proofs::WholeLemmas::told_reads))]
pub fn tells_the_same()
    ensures { (n : Named) (before after : List ℕ) (packets : List RtcpPacket)
        → IsToldAs n before after → is_rtcp before ≡ true → ReadsRtcp before packets
        → ReadsRtcp after (map (told_packet n) packets) }
{}

/// What is heard of RTCP under a seat's name is what its client says under its own: it leaves if it says so, else who speaks is who its sender reports say,
/// and all else is the same (RFC 3550, section 6). What is faulty is faulty as before.
pub fn says_the_same()
    ensures said { (n : Named) (before after : List ℕ) (g : Gist) → AreFit n → AreOctets before
        → IsHeardAs n before after → is_rtcp before ≡ true → JoinsPackets before (Ok g)
        → IsHeardOf n g after }
    ensures faulty { (n : Named) (before after : List ℕ) (fault : Fault) → IsHeardAs n before after
        → is_rtcp before ≡ true → Refuses before fault → Refuses after fault }
{}
