//! Where no packet goes out on a leg for a while.

ghost use Rattle.std.specs.Prelude.{◌≡◌, length, string_bytes, IfOk, OnOk};
ghost use Rattle.std.specs.Io.KnownBytes.{Appends};
ghost use Rattle.datagram.specs.Naming.{source_named};
ghost use Rattle.replay.specs.Printing.{scene_of};
ghost use Rattle.replay.specs.Shown.{cause_of, ended_gap, gap_before, gap_line, is_gap, is_long, leg_sent, leg_taken, open_gap, open_gaps};

use crate::last_packets::{LastPacket, LastPackets};
use crate::latest::Latest;
use crate::printing::Choice;
use crate::utc::moment_text;
use datagram::source_named;
use events::Out;
use rtcp_compound::is_rtcp;
use settings::Links;
use std::alloc::{AllocError, Global};
use std::io::{self, Write};
use tmmbr_tuple::Ssrc;

/// The leg on which a packet goes out, if this is one.
pub(crate) fn leg_sent(links: &Links, out: &Out) -> Option<u16>
    ensures { result ≡ leg_sent links.now out.now }
{
    match out {
        Out::Send { endpoint, bytes } => leg_taken(links, *endpoint, bytes.as_slice()),
        Out::Refused(_) => None,
        Out::Busy => None,
        Out::Lost(_) => None,
        Out::Skip(..) => None,
        Out::Miss(..) => None,
        Out::Idle => None,
    }
}

/// The leg on which this datagram goes to the endpoint: RTP under the leg's source.
fn leg_taken(links: &Links, endpoint: u16, bytes: &[u8]) -> Option<u16>
    ensures { result ≡ leg_taken links.now endpoint bytes.now (source_named bytes.now) }
{
    let source = source_named(bytes)?;
    if is_rtcp(bytes) {
        return None;
    }
    links.leg_to(endpoint, Ssrc(source))
}

/// Prints the line of the gap that ends with the packet on this leg that follows from the latest event, if one does.
pub(crate) fn print_gap_before<O: Write>(
    alloc: Global,
    choice: Choice<'_>,
    latest: Latest<'_>,
    packets: &LastPackets,
    leg: Option<u16>,
    writer: &mut O,
) -> io::Result<()>
    ensures printed { OnOk result (Appends (O.contents writer.old) (O.contents writer.new)
        (gap_before (scene_of choice.entry) packets.now (cause_of latest.entry) leg)) }
{
    match leg {
        Some(leg) => print_ended(alloc, choice, latest, leg, packets.of_leg(leg), writer),
        None => Ok(()),
    }
}

/// The same of a leg whose last packet was this. There is no gap before its first.
fn print_ended<O: Write>(
    alloc: Global,
    choice: Choice<'_>,
    latest: Latest<'_>,
    leg: u16,
    last: LastPacket,
    writer: &mut O,
) -> io::Result<()>
    ensures printed { OnOk result (Appends (O.contents writer.old) (O.contents writer.new)
        (ended_gap (scene_of choice.entry) (cause_of latest.entry) leg last)) }
{
    if last.number == 0 {
        return Ok(());
    }
    if !is_gap(choice, latest, leg, last) {
        return Ok(());
    }
    print_gap(alloc, choice, latest, leg, last, writer)
}

/// Prints the lines of the gaps that last at the latest event, by rising leg.
pub(crate) fn print_open_gaps<O: Write>(
    alloc: Global,
    choice: Choice<'_>,
    latest: Latest<'_>,
    packets: &LastPackets,
    writer: &mut O,
) -> io::Result<()>
    ensures printed { OnOk result (Appends (O.contents writer.old) (O.contents writer.new)
        (open_gaps (scene_of choice.entry) packets.now (cause_of latest.entry)
        (length choice.entry.links.now.legs))) }
{
    let count = choice.links.legs().len() as u16;
    for leg in 0..count {
        print_open(alloc, choice, latest, leg, packets.of_leg(leg), writer)?;
    }
    Ok(())
}

/// The same of one leg.
fn print_open<O: Write>(
    alloc: Global,
    choice: Choice<'_>,
    latest: Latest<'_>,
    leg: u16,
    last: LastPacket,
    writer: &mut O,
) -> io::Result<()>
    ensures printed { OnOk result (Appends (O.contents writer.old) (O.contents writer.new)
        (open_gap (scene_of choice.entry) (cause_of latest.entry) leg last)) }
{
    if !is_gap(choice, latest, leg, last) {
        return Ok(());
    }
    print_gap(alloc, choice, latest, leg, last, writer)
}

/// Whether a gap is shown that lies between the last packet of a leg and the latest event.
fn is_gap(choice: Choice<'_>, latest: Latest<'_>, leg: u16, last: LastPacket) -> bool
    ensures { result ≡ is_gap (scene_of choice.entry) (cause_of latest.entry) leg last }
{
    is_long(
        choice.shown.gaps_ms,
        latest.input.moment.saturating_sub(last.moment),
    ) && (choice.shown.from_ms <= latest.input.moment
        && choice.shown.is_leg_chosen(choice.links, leg))
}

/// Whether so many milliseconds are a gap.
fn is_long(least: Option<u64>, gap: u64) -> bool
    ensures { result ≡ is_long least gap }
{
    match least {
        Some(least) => least <= gap,
        None => false,
    }
}

fn print_gap<O: Write>(
    alloc: Global,
    choice: Choice<'_>,
    latest: Latest<'_>,
    leg: u16,
    last: LastPacket,
    writer: &mut O,
) -> io::Result<()>
    ensures printed { OnOk result (Appends (O.contents writer.old) (O.contents writer.new)
        (gap_line (scene_of choice.entry) (cause_of latest.entry) leg last)) }
{
    let line = gap_line(alloc, choice, latest, leg, last)?;
    writer.write_all(line.as_bytes())?;
    Ok(())
}

/// The line of a gap: the leg, the moments between which no packet went out on it, and the number of the line from which the last one followed.
fn gap_line(
    alloc: Global,
    choice: Choice<'_>,
    latest: Latest<'_>,
    leg: u16,
    last: LastPacket,
) -> Result<String, AllocError>
    ensures { IfOk result (λ text. string_bytes text
        ≡ gap_line (scene_of choice.entry) (cause_of latest.entry) leg last) }
{
    let from = moment_text(alloc, choice.clock, last.moment)?;
    let to = moment_text(alloc, choice.clock, latest.input.moment)?;
    let number = last.number;
    format!(in alloc; "gap {leg} {from} {to} line {number}\n")
}
