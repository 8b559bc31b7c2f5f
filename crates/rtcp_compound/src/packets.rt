//! A datagram as the packets that it joins.

ghost use Rattle.std.specs.Prelude.{◌≡◌, List, IfOk, IfErr, IsOkAnd, Err};
ghost use Rattle.rtcp_compound.specs.Grammar.{RtcpPacket, ReadsRtcp};
ghost use Rattle.rtcp_compound.specs.declared.fault.RtcpFault.{RtcpFault};
ghost use Rattle.rtcp_compound.specs.Fault.{Refuses};
ghost use Rattle.rtcp_compound.specs.Left.{packets_left};

use crate::fault::RtcpFault;
use crate::packet::read_packet;
use crate::unread::Packets;

/// The packets that a datagram joins (RFC 3550, section 6.1).
pub fn split(datagram: &[u8]) -> Result<Packets<'_>, RtcpFault>
    ensures ok { IfOk result (λ found. ReadsRtcp datagram.now (packets_left found)) }
    ensures refused { IfErr result (λ fault. Refuses datagram.now fault) }
    ensures only { (ps : List RtcpPacket) → ReadsRtcp datagram.now ps
        → IsOkAnd result (λ found. packets_left found ≡ ps) }
    ensures first { (fault : RtcpFault) → Refuses datagram.now fault → result ≡ Err fault }
{
    let mut rest = datagram;
    loop {
        let (_, behind) = read_packet(rest)?;
        if behind.is_empty() {
            return Ok(Packets { rest: datagram });
        }
        rest = behind;
    }
}
