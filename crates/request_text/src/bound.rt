//! The requests that the lines of `sfu bound` leave.

ghost use Rattle.std.specs.Prelude.{◌≡◌, List, IfOk, map, All, MatchResult};
ghost use Rattle.rtcp_compound.specs.Content.{content_of, sources_left};
ghost use Rattle.rtcp_compound.specs.Left.{contents_left};
ghost use Rattle.rtcp_feedback.specs.Reading.{entries_left};
ghost use Rattle.request_text.specs.Asked.{AskTogether, Asks, Change, FailsFirst, HasAskFault, IsReadable, asks, leaves, requests_of};
ghost use Rattle.request_text.specs.Lines.{Asked, AreRowsOf, after_change, after_changes, lines_of};
ghost use Rattle.request_text.specs.Outcome.{HasRowsOf, Leaves, LeavesDatagram, LeavesLine, LeavesText, undecoded_at};

use crate::fault::LineFault;
use crate::meter::{Meter, line_count};
use bounding_set::Bounds;
use hex::FromHexError;
use rtcp_compound::{Packets, RtcpView, Sources, split};
use rtcp_feedback::{FbFault, Feedback, TmmbEntries, read_feedback};
use std::alloc::{AllocError, Global};
use tmmbr_tuple::{Ssrc, Tuple};

/// Why a text leaves no requests: want of memory, or its first line that is refused, counted from 1.
#[derive(Clone, Copy, Debug, PartialEq, Eq)]
pub enum Refusal {
    NoMemory,
    Line { line: u64, fault: LineFault },
}

impl From<AllocError> for Refusal {
    ghost use Rattle.std.specs.Prelude.{◌≡◌};
    ghost use Rattle.request_text.specs.declared.bound.Refusal.TheVariants.{NoMemory};

    ghost from_gives = { λ _ e. e ≡ NoMemory };

    fn from(_e: AllocError) -> Refusal {
        Refusal::NoMemory
    }
}

/// The live requests for the media sender that the lines of the text leave. The meter is shown each line.
pub fn read_lines(alloc: Global, text: &[u8], media: Ssrc, meter: &Meter) -> Result<Bounds, Refusal>
    ensures { LeavesText media.0 text.now result }
{
    let mut bounds = Bounds::new();
    let lines = lines(alloc, text)?;
    let count = line_count(lines.as_slice());
    let mut number = 0;
    for line in lines.iter() {
        number += 1;
        meter.show(number, count);
        take_line(alloc, &mut bounds, line, media, number)?;
    }
    Ok(bounds)
}

/// The lines of a text, without their newlines.
pub fn lines(alloc: Global, text: &[u8]) -> Result<Vec<&[u8]>, AllocError>
    ensures { IfOk result (λ v. map (λ x. x.now) v.items ≡ lines_of text.now) }
{
    text.split(|b| *b == b'\n').collect(alloc)
}

/// Does what the line with this number asks for.
fn take_line(
    alloc: Global,
    bounds: &mut Bounds,
    line: &[u8],
    media: Ssrc,
    number: u64,
) -> Result<(), Refusal>
    ensures { (live : List Asked) → AreRowsOf live bounds.old.rows
        → LeavesLine media.0 number line.now live bounds.new.rows result }
{
    if line.is_empty() || line[0] == b'#' {
        return Ok(());
    }
    match hex::decode(alloc, line) {
        Ok(datagram) => {
            take_datagram(bounds, datagram.as_slice(), media).map_err(|fault| Refusal::Line {
                line: number,
                fault,
            })
        }
        Err(error) => Err(undecoded(number, error)),
    }
}

/// Why the line with this number isn't decoded: for want of memory, or since it is no hexadecimal text.
fn undecoded(line: u64, error: FromHexError) -> Refusal
    ensures { result ≡ undecoded_at line error }
{
    match error {
        FromHexError::OutOfMemory => Refusal::NoMemory,
        _ => Refusal::Line {
            line,
            fault: LineFault::Hex,
        },
    }
}

/// Does what a datagram asks for. All its feedback is read before the first of it is done.
fn take_datagram(bounds: &mut Bounds, datagram: &[u8], media: Ssrc) -> Result<(), LineFault>
    ensures { (live : List Asked) → AreRowsOf live bounds.old.rows
        → LeavesDatagram media.0 datagram.now live bounds.new.rows result }
{
    match split(datagram) {
        Ok(packets) => match check_feedback(packets) {
            Ok(()) => take_packets(bounds, packets, media),
            Err(fault) => Err(LineFault::Feedback(fault)),
        },
        Err(fault) => Err(LineFault::Rtcp(fault)),
    }
}

/// Reads all feedback of these packets, and does nothing of it.
fn check_feedback(packets: Packets<'_>) -> Result<(), FbFault>
    ensures { MatchResult result (λ _. All IsReadable (contents_left packets.entry))
        (FailsFirst (contents_left packets.entry)) }
{
    for packet in packets {
        check_packet(packet)?;
    }
    Ok(())
}

/// Reads the packet if it is feedback.
fn check_packet(packet: RtcpView<'_>) -> Result<(), FbFault>
    ensures { MatchResult result (λ _. IsReadable (content_of packet.entry))
        (HasAskFault (content_of packet.entry)) }
{
    match packet {
        RtcpView::Feedback { fmt, kind, body } => match read_feedback(fmt, kind, body) {
            Ok(_) => Ok(()),
            Err(fault) => Err(fault),
        },
        _ => Ok(()),
    }
}

/// Does what packets ask for, in order.
fn take_packets(bounds: &mut Bounds, packets: Packets<'_>, media: Ssrc) -> Result<(), LineFault>
    ensures { (changes : List Change) (live : List Asked)
        → AskTogether media.0 (contents_left packets.entry) changes
        → AreRowsOf live bounds.old.rows
        → Leaves (after_changes changes live) bounds.new.rows result }
{
    for packet in packets {
        take_packet(bounds, packet, media)?;
    }
    Ok(())
}

/// Does what a packet asks for.
fn take_packet(bounds: &mut Bounds, packet: RtcpView<'_>, media: Ssrc) -> Result<(), LineFault>
    ensures { (changes : List Change) (live : List Asked)
        → Asks media.0 (content_of packet.entry) changes
        → AreRowsOf live bounds.old.rows
        → Leaves (after_changes changes live) bounds.new.rows result }
{
    match packet {
        RtcpView::Bye { sources } => {
            take_goodbye(bounds, sources);
            Ok(())
        }
        RtcpView::Feedback { fmt, kind, body } => match read_feedback(fmt, kind, body) {
            Ok(Feedback::Tmmbr { sender, entries }) => {
                take_entries(bounds, sender, entries, media)
            }
            Ok(_) => Ok(()),
            Err(fault) => Err(LineFault::Feedback(fault)),
        },
        _ => Ok(()),
    }
}

/// Takes out the requests of the sources that leave.
fn take_goodbye(bounds: &mut Bounds, sources: Sources<'_>)
    ensures { (live : List Asked) → AreRowsOf live bounds.old.rows
        → HasRowsOf (after_changes (map leaves (sources_left sources.entry)) live) bounds.new.rows }
{
    for source in sources {
        let _ = bounds.remove(source);
    }
}

/// Does the entries of a TMMBR that ask the media sender.
fn take_entries(
    bounds: &mut Bounds,
    owner: Ssrc,
    entries: TmmbEntries<'_>,
    media: Ssrc,
) -> Result<(), LineFault>
    ensures { (live : List Asked) → AreRowsOf live bounds.old.rows
        → Leaves (after_changes (requests_of media.0 owner.0 (entries_left entries.entry)) live)
        bounds.new.rows result }
{
    for entry in entries {
        if entry.ssrc == media {
            take_request(bounds, owner, entry.word)?;
        }
    }
    Ok(())
}

/// Takes in one request.
fn take_request(bounds: &mut Bounds, owner: Ssrc, word: u32) -> Result<(), LineFault>
    ensures { (live : List Asked) → AreRowsOf live bounds.old.rows
        → Leaves (after_change (asks owner.0 word) live) bounds.new.rows result }
{
    match bounds.set(owner, Tuple::from_word(word)) {
        Ok(_) => Ok(()),
        Err(_) => Err(LineFault::Full),
    }
}
