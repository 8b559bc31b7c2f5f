//! What is heard of what a client sent, and what it is told.

ghost use Rattle.std.specs.Prelude.{◌≡◌, true, false, List};
ghost use Rattle.rtcp_compound.specs.Fault.{Refuses};
ghost use Rattle.rtcp_compound.specs.Grammar.{ReadsRtcp, RtcpPacket};
ghost use Rattle.rtcp_compound.specs.declared.fault.RtcpFault.{RtcpFault};
ghost use Rattle.seats.specs.Exchange.{AreRenamed, IsHeardAs, IsToldAs, heard_media, packet_as};

use crate::names::{Names, Renaming};
use crate::renaming::{Way, rename_packets, rename_word};
use rtcp_compound::{is_rtcp, split};

/// Where the source stands in an RTP packet (RFC 3550, section 5.1).
const RTP_SOURCE: usize = 8;

/// How many bytes a header of RTP has (RFC 3550, section 5.1).
const RTP_HEADER: usize = 12;

/// Writes over a datagram of a client what is heard of it: its own names become its seat's, and the seat's its own (RFC 7667, section 3.7). Of a
/// receiver report and of feedback the seat is the sender, whoever is named. RTCP that joins no packets stays as it is.
pub fn heard_as(names: Names, datagram: &mut [u8])
    ensures { IsHeardAs names datagram.old datagram.new }
{
    if is_rtcp(datagram) {
        rename_rtcp(Way::Heard, names, datagram);
    } else {
        rename_media(names, datagram);
    }
}

/// Writes over a datagram for a client what it is told: where RTCP names its seat, it names the client by its own name. RTP stays as it is, and so
/// does RTCP that joins no packets.
pub fn told_as(names: Names, datagram: &mut [u8])
    ensures { IsToldAs names datagram.old datagram.new }
{
    if is_rtcp(datagram) {
        rename_rtcp(Way::Told, names, datagram);
    }
}

/// Renames what stands in RTCP that joins packets.
fn rename_rtcp(way: Way, names: Names, datagram: &mut [u8])
    ensures { AreRenamed (packet_as way names) datagram.old datagram.new }
{
    if is_joined(datagram) {
        rename_packets(way, names, datagram);
    }
}

/// Renames the source of an RTP packet.
fn rename_media(names: Names, datagram: &mut [u8])
    ensures { datagram.new ≡ heard_media names datagram.old }
{
    if datagram.len() >= RTP_HEADER {
        let by = Renaming::Exchange(names.seat, names.sends_as());
        rename_word(by, &mut datagram[RTP_SOURCE..]);
    }
}

/// Whether RTCP joins packets (RFC 3550, section 6.1).
fn is_joined(datagram: &[u8]) -> bool
    ensures joined { result ≡ true
        → (packets : List RtcpPacket) × ReadsRtcp datagram.now packets }
    ensures refused { result ≡ false → (fault : RtcpFault) × Refuses datagram.now fault }
{
    match split(datagram) {
        Ok(_) => true,
        Err(_) => false,
    }
}
