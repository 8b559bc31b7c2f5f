//! What the words for RTP datagrams say by the grammar of packets. This function does nothing: its contract is the law.

ghost use Rattle.std.specs.Prelude.{ℕ, List, ◌≡◌, false};
ghost use Rattle.rtp_packet.specs.Fault.{HasRtpFault};
ghost use Rattle.rtp_packet.specs.Grammar.{RtpPacket, ReadsRtp};
ghost use Rattle.rtp_packet.specs.declared.fault.RtpFault.{RtpFault as Fault};
ghost use Rattle.shared_packet.specs.Rtp.{is_rtp, SaysAs};

/// Of a datagram that is a packet the words say what the packet has; one that the reader refuses is none.
pub fn says_as_the_grammar()
    ensures packet { (datagram : List ℕ) (packet : RtpPacket)
        → ReadsRtp datagram packet → SaysAs datagram packet }
    ensures refused { (datagram : List ℕ) (fault : Fault)
        → HasRtpFault datagram fault → is_rtp datagram ≡ false }
{}
