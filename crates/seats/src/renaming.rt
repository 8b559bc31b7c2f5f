//! Other names in packets, written over those that stand there.

ghost use Rattle.std.specs.Prelude.{◌≡◌, ◌≤◌, ◌<◌, ◌+◌, ◌*◌, ◌++◌, ℕ, List, length};
ghost use Rattle.rtcp_compound.specs.Grammar.{RtcpPacket, packet_bytes};
ghost use Rattle.seats.specs.Exchange.{Fits, IsJoined, packet_as, places_in, renamed_packets};
ghost use Rattle.seats.specs.Frame.{StandsFirst, packet_size};
ghost use Rattle.seats.specs.Names.{renamed};
ghost use Rattle.seats.specs.Places.{body_as, entries_as, word_as};

use crate::frame::{Frame, frame_of};
use crate::names::{Names, Renaming, renamed};
use crate::places::{Places, heard_places, told_places};
use byteorder::{BigEndian, ByteOrder};
use rtcp_compound::WORD_BYTES;
use tmmbr_tuple::Ssrc;

/// Which way names are exchanged: in what comes, or in what leaves.
#[derive(Clone, Copy)]
pub(crate) enum Way {
    Heard,
    Told,
}

/// Renames what stands in these packets, one after the other.
pub(crate) fn rename_packets(way: Way, names: Names, packets: &mut [u8])
    requires { IsJoined packets.old }
    ensures { packets.new ≡ renamed_packets (packet_as way names) packets.old }
{
    let mut at = 0;
    while at < packets.len() {
        at += rename_packet(way, names, &mut packets[at..]);
    }
}

/// Renames what stands in the packet at the front of these, and says how many bytes it has.
fn rename_packet(way: Way, names: Names, packets: &mut [u8]) -> usize
    requires { (p : RtcpPacket) × (rest : List ℕ) × StandsFirst packets.old p rest }
    ensures { (p : RtcpPacket) (rest : List ℕ) → StandsFirst packets.old p rest
        → (result ≡ packet_size p) × (packets.new ≡ packet_bytes (packet_as way names p) ++ rest) }
{
    let frame = frame_of(packets);
    let places = places_in(way, names, frame);
    rename_body(places, &mut packets[WORD_BYTES..WORD_BYTES + frame.body]);
    frame.size
}

/// Where names stand in a packet that comes or leaves.
fn places_in(way: Way, names: Names, frame: Frame) -> Places
    ensures { result ≡ places_in way names frame.kind frame.count frame.body }
{
    match way {
        Way::Heard => heard_places(names, frame),
        Way::Told => told_places(names, frame),
    }
}

/// Renames what stands at these places of a body.
fn rename_body(places: Places, body: &mut [u8])
    requires size { 4 ≤ places.size }
    requires fits { Fits places (length body.old) }
    ensures { body.new ≡ body_as places body.old }
{
    let mut at = places.from;
    let mut left = places.count;
    while left > 0 {
        rename_word(places.by, &mut body[at..at + places.size]);
        at += places.size;
        left -= 1;
    }
}

/// Renames what stands at the front of these bytes.
pub(crate) fn rename_word(by: Renaming, bytes: &mut [u8])
    requires { 4 ≤ length bytes.old }
    ensures { bytes.new ≡ word_as (renamed by) bytes.old }
{
    let name = Ssrc(BigEndian::read_u32(bytes));
    BigEndian::write_u32(bytes, renamed(by, name).0);
}
