//! What joined packets are read as. These functions do nothing: their contracts are the laws.

ghost use Rattle.std.specs.Prelude.{ℕ, ◌≡◌, ◌<◌, List, [], ◌∷◌, ◌++◌, length};
ghost use Rattle.std.specs.List.{flat_map};
ghost use Rattle.rtcp_compound.specs.Content.{Content};
ghost use Rattle.rtcp_compound.specs.Grammar.{RtcpPacket, packet_bytes, HasChunks, ReadsRtcp};
ghost use Rattle.rtcp_compound.specs.Fault.{AreUnpadded};
ghost use Rattle.rtcp_compound.specs.Written.{Appends};

/// Whole packets without padding are read as themselves, alone or in front of any datagram, whose packets
/// then follow; so what writers append is read again as what it says, whatever stands after it.
pub fn reads_in_front()
    ensures alone { (packets : List RtcpPacket) → AreUnpadded packets → 0 < length packets
        → ReadsRtcp (flat_map packet_bytes packets) packets }
    ensures front { (packets others : List RtcpPacket) (datagram : List ℕ) → AreUnpadded packets
        → ReadsRtcp datagram others
        → ReadsRtcp (flat_map packet_bytes packets ++ datagram) (packets ++ others) }
    ensures written { (packet : RtcpPacket) (content : Content) (appended datagram : List ℕ)
        (others : List RtcpPacket)
        → Appends [] appended packet content → ReadsRtcp datagram others
        → ReadsRtcp (appended ++ datagram) (packet ∷ others) }
{}

/// A body holds one list of so many chunks at most: their sources, items and filling are the only ones.
pub fn reads_chunks_one_way()
    ensures { (count : ℕ) (body : List ℕ) (found other : HasChunks count body)
        → found.chunks ≡ other.chunks }
{}
