//! Reads a datagram of an endpoint.

ghost use Rattle.std.specs.Prelude.{◌≡◌, List, [], ℕ, OnErr, OnOk, IfOk, Result, Ok};
ghost use Rattle.rtcp_compound.specs.Left.{contents_left};
ghost use Rattle.datagram.specs.Notes.{HasSameRoom, IsNoted, IsRtcpNoted};
ghost use Rattle.datagram.specs.Reads.{AsksFor, IsClocked, IsListed, IsPacketRead, IsReadUpTo, PacketsMean, ReadsBy, ReadsOr, Surveys};
ghost use Rattle.datagram.specs.Saying.{JoinsPackets, PacketsSay, Said, Says, SaysRtcp, SaysRtp};
ghost use Rattle.events.specs.declared.output.Refusal.{Refusal as RefusedBy};

use crate::asks::collect;
use crate::notes::Notes;
use crate::reading::{Media, Reading, What};
use crate::survey::{Survey, note_packets, survey_packets};
use events::Refusal;
use rtcp_compound::{Packets, is_rtcp, split};
use rtcp_feedback::FbFault;
use rtp_packet::RtpView;
use shared_packet::PacketParts;
use std::alloc::AllocError;
use tmmbr_tuple::Ssrc;

/// Reads a datagram of the endpoint with this source: RTCP if the second byte is 192 to 223 (RFC
/// 5761, section 4), else RTP. Says what it says, and what it asks for in the order of packets
/// and entries, all of it, or no more than `most`, the first, and how much there is beyond; a NACK or a TMMBR without entries asks for nothing.
/// All of it is read before memory is wanted, so a refusal comes before want of memory, and then nothing was read.
pub fn read(
    datagram: &[u8],
    own: Ssrc,
    most: Option<usize>,
    reading: &mut Reading,
) -> Result<(), AllocError>
    ensures ok { OnOk result (IsReadUpTo own.0 datagram.now most reading.new) }
    ensures clocked { OnOk result (IsClocked own.0 (λ gist. JoinsPackets datagram.now (Ok gist))
        reading.new.what reading.new.clocked.0) }
    ensures packet { OnOk result (IsPacketRead datagram.now reading.new.what) }
    ensures err { OnErr result (AsksFor own.0 datagram.now most) }
{
    reading.asks.clear();
    reading.beyond = 0;
    let heard = read_into(datagram, own, most, reading)?;
    reading.what = heard.what;
    reading.clocked = heard.clocked;
    Ok(())
}

/// Reads a datagram as `read` does, and notes it, be its feedback faulty or not.
pub fn read_noting(
    datagram: &[u8],
    own: Ssrc,
    most: Option<usize>,
    reading: &mut Reading,
    notes: &mut Notes,
) -> Result<(), AllocError>
    ensures ok { OnOk result (IsReadUpTo own.0 datagram.now most reading.new) }
    ensures clocked { OnOk result (IsClocked own.0 (λ gist. JoinsPackets datagram.now (Ok gist))
        reading.new.what reading.new.clocked.0) }
    ensures packet { OnOk result (IsPacketRead datagram.now reading.new.what) }
    ensures err { OnErr result (AsksFor own.0 datagram.now most) }
    ensures noted { IsNoted datagram.now notes.new }
    ensures room { HasSameRoom notes.old notes.new }
{
    reading.asks.clear();
    reading.beyond = 0;
    let heard = note_into(datagram, own, most, reading, notes)?;
    reading.what = heard.what;
    reading.clocked = heard.clocked;
    Ok(())
}

/// What a datagram says, but for what it asks for.
#[derive(Clone, Copy)]
struct Heard {
    what: What,
    /// Who speaks if only sender reports say so.
    clocked: Ssrc,
}

/// Reads a datagram, and lists what it asks for.
fn read_into(
    datagram: &[u8],
    own: Ssrc,
    most: Option<usize>,
    reading: &mut Reading,
) -> Result<Heard, AllocError>
    requires { IsListed most [] reading.old }
    ensures heard { ReadsOr (Says own.0 datagram.now) most reading.new result }
    ensures clocked { IfOk result (λ h. IsClocked own.0
        (λ gist. JoinsPackets datagram.now (Ok gist)) h.what h.clocked.0) }
{
    if is_rtcp(datagram) {
        read_rtcp(datagram, own, most, reading)
    } else {
        let what = read_rtp(datagram);
        Ok(Heard { what, clocked: own })
    }
}

/// Reads a datagram, lists what it asks for, and notes it.
fn note_into(
    datagram: &[u8],
    own: Ssrc,
    most: Option<usize>,
    reading: &mut Reading,
    notes: &mut Notes,
) -> Result<Heard, AllocError>
    requires { IsListed most [] reading.old }
    ensures heard { ReadsOr (Says own.0 datagram.now) most reading.new result }
    ensures clocked { IfOk result (λ h. IsClocked own.0
        (λ gist. JoinsPackets datagram.now (Ok gist)) h.what h.clocked.0) }
    ensures noted { IsNoted datagram.now notes.new }
    ensures room { HasSameRoom notes.old notes.new }
{
    if is_rtcp(datagram) {
        note_rtcp(datagram, own, most, reading, notes)
    } else {
        notes.clear();
        let what = read_rtp(datagram);
        Ok(Heard { what, clocked: own })
    }
}

/// Reads an RTP packet.
fn read_rtp(datagram: &[u8]) -> What
    ensures { ReadsBy (SaysRtp datagram.now) [] result }
{
    match RtpView::parse(datagram) {
        Ok(view) => {
            let RtpView {
                ssrc,
                sequence_number,
                timestamp,
                payload,
                ..
            } = view;
            What::Media(Media {
                ssrc,
                timestamp,
                parts: PacketParts {
                    sequence_number,
                    octets: payload.len() as u64,
                },
            })
        }
        Err(fault) => What::Refused(Refusal::Rtp(fault)),
    }
}

/// Reads RTCP packets.
fn read_rtcp(
    datagram: &[u8],
    own: Ssrc,
    most: Option<usize>,
    reading: &mut Reading,
) -> Result<Heard, AllocError>
    requires { IsListed most [] reading.old }
    ensures heard { ReadsOr (SaysRtcp own.0 datagram.now) most reading.new result }
    ensures clocked { IfOk result (λ h. IsClocked own.0
        (λ gist. JoinsPackets datagram.now (Ok gist)) h.what h.clocked.0) }
{
    match split(datagram) {
        Ok(packets) => read_packets(packets, survey_packets(packets, own), own, most, reading),
        Err(fault) => Ok(Heard {
            what: What::Refused(Refusal::Rtcp(fault)),
            clocked: own,
        }),
    }
}

/// Reads RTCP packets, and notes them.
fn note_rtcp(
    datagram: &[u8],
    own: Ssrc,
    most: Option<usize>,
    reading: &mut Reading,
    notes: &mut Notes,
) -> Result<Heard, AllocError>
    requires { IsListed most [] reading.old }
    ensures heard { ReadsOr (SaysRtcp own.0 datagram.now) most reading.new result }
    ensures clocked { IfOk result (λ h. IsClocked own.0
        (λ gist. JoinsPackets datagram.now (Ok gist)) h.what h.clocked.0) }
    ensures noted { IsRtcpNoted datagram.now notes.new }
    ensures room { HasSameRoom notes.old notes.new }
{
    match split(datagram) {
        Ok(packets) => {
            let surveyed = note_packets(packets, own, notes);
            read_packets(packets, surveyed, own, most, reading)
        }
        Err(fault) => {
            notes.clear();
            Ok(Heard {
                what: What::Refused(Refusal::Rtcp(fault)),
                clocked: own,
            })
        }
    }
}

/// Reads the packets of a datagram, of which this was read first: those that ask for something are read once more.
fn read_packets(
    packets: Packets<'_>,
    surveyed: Result<Survey, FbFault>,
    own: Ssrc,
    most: Option<usize>,
    reading: &mut Reading,
) -> Result<Heard, AllocError>
    requires surveyed { Surveys own.0 (PacketsSay (contents_left packets)) surveyed }
    requires listed { IsListed most [] reading.old }
    ensures heard { ReadsOr (PacketsMean own.0 (contents_left packets.entry)) most reading.new
        result }
    ensures clocked { IfOk result (λ h. IsClocked own.0
        (λ gist. PacketsSay (contents_left packets.entry) (Ok gist)) h.what h.clocked.0) }
{
    match surveyed {
        Ok(survey) => {
            if survey.goodbye {
                return Ok(Heard {
                    what: What::Goodbye,
                    clocked: survey.clocked,
                });
            }
            let heard = Heard {
                what: What::Control(survey.control),
                clocked: survey.clocked,
            };
            if !survey.asking {
                return Ok(heard);
            }
            match collect(packets, most, reading) {
                Ok(()) => Ok(heard),
                Err(error) => Err(error),
            }
        }
        Err(fault) => Ok(Heard {
            what: What::Refused(Refusal::Feedback(fault)),
            clocked: own,
        }),
    }
}

/// A datagram says one thing. This function does nothing: its contract is the law.
pub fn says_one_thing()
    ensures { (own : ℕ) (datagram : List ℕ) (one other : Result Said RefusedBy)
        → Says own datagram one → Says own datagram other → one ≡ other }
{}
