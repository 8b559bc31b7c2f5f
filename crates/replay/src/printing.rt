//! The text of what a script gives.

ghost use Rattle.std.specs.Prelude.{◌≡◌, ◌++◌, ◌∷◌, ℕ, [], List, IfOk, OnOk, map};
ghost use Rattle.std.specs.Io.KnownBytes.{Appends};
ghost use Rattle.replay.specs.OutText.{out_line};
ghost use Rattle.replay.specs.Printing.{PrintsGiven, scene_of};
ghost use Rattle.replay.specs.Shown.{a_set, an_event, an_out, cause_of, comment_line, comment_told, dated_line, event_line, event_told, given_at, heading, is_shown, mark_line, new_line, said_after, shown_line, the_end, trail};
ghost use Rattle.replay.specs.declared.last_packets.LastPacket.{LastPacket};

use crate::gaps::{leg_sent, print_gap_before, print_open_gaps};
use crate::last_packets::LastPackets;
use crate::latest::Latest;
use crate::marks::is_stranger_line;
use crate::out_text::out_line;
use crate::shown::Shown;
use crate::utc::clock_text;
use events::Out;
use settings::{Links, Settings};
use std::alloc::Global;
use std::io::{self, Write};

/// What is shown of what a script gives by these settings, whose links these are; with what the wall clock said at moment 0, in milliseconds
/// since the beginning of 1970, if moments are shown by it.
#[derive(Clone, Copy)]
pub struct Choice<'c> {
    pub settings: &'c Settings,
    pub links: &'c Links,
    pub shown: Shown,
    pub clock: Option<u64>,
}

/// Prints the line of the latest event, if this is new and it is shown. What stands before it follows from the event of the number `said`;
/// answers the number of the one from which the last line follows then.
#[tactic(auto, using(crate::proofs::ShownLemmas::event_printed, crate::proofs::ShownLemmas::event_hidden, crate::proofs::ShownLemmas::event_passed))]
pub fn print_event<O: Write>(
    alloc: Global,
    choice: Choice<'_>,
    latest: Latest<'_>,
    said: u64,
    is_new: bool,
    writer: &mut O,
) -> io::Result<u64>
    ensures printed { IfOk result (λ behind. (last : List LastPacket) → PrintsGiven
        (scene_of choice.entry) (trail said last)
        (given_at (cause_of latest.entry) (event_told is_new)) (trail behind last)
        (O.contents writer.old) (O.contents writer.new)) }
{
    if !is_new {
        return Ok(said);
    }
    if !is_event_shown(choice, latest) {
        return Ok(said);
    }
    print_new_line(alloc, choice, latest, said, writer)?;
    Ok(latest.number)
}

/// Prints the lines of what is shown of these, which the machine gave out and which follow from the latest event. What stands before
/// them follows from the event of the number `said`; answers the number of the one from which the last line follows then.
pub fn print_outs<O: Write>(
    alloc: Global,
    choice: Choice<'_>,
    latest: Latest<'_>,
    said: u64,
    outs: &[Out],
    packets: &mut LastPackets,
    writer: &mut O,
) -> io::Result<u64>
    ensures printed { IfOk result (λ behind. PrintsGiven (scene_of choice.entry) (trail said packets.old)
        (given_at (cause_of latest.entry) (map an_out outs.now)) (trail behind packets.new)
        (O.contents writer.old) (O.contents writer.new)) }
{
    let mut behind = said;
    for out in outs {
        behind = print_one(alloc, choice, latest, behind, out, packets, writer)?;
    }
    Ok(behind)
}

/// The same of one of these, after the line of the gap that ends with it.
fn print_one<O: Write>(
    alloc: Global,
    choice: Choice<'_>,
    latest: Latest<'_>,
    said: u64,
    out: &Out,
    packets: &mut LastPackets,
    writer: &mut O,
) -> io::Result<u64>
    ensures printed { IfOk result (λ behind. PrintsGiven (scene_of choice.entry) (trail said packets.old)
        (record { cause = cause_of latest.entry; told = an_out out.now } ∷ [])
        (trail behind packets.new) (O.contents writer.old) (O.contents writer.new)) }
{
    let leg = leg_sent(choice.links, out);
    print_gap_before(alloc, choice, latest, packets, leg, writer)?;
    packets.note(leg, latest.packet());
    let behind = print_shown(alloc, choice, latest, said, out, writer)?;
    Ok(behind)
}

/// The line of something that the machine gave out, if it is shown.
fn print_shown<O: Write>(
    alloc: Global,
    choice: Choice<'_>,
    latest: Latest<'_>,
    said: u64,
    out: &Out,
    writer: &mut O,
) -> io::Result<u64>
    ensures text { OnOk result (Appends (O.contents writer.old) (O.contents writer.new)
        (shown_line (scene_of choice.entry) said
        (record { cause = cause_of latest.entry; told = an_out out.now }))) }
    ensures behind { IfOk result (λ behind. behind ≡ said_after (scene_of choice.entry) said
        (record { cause = cause_of latest.entry; told = an_out out.now })) }
{
    if !is_shown(choice, latest, out) {
        return Ok(said);
    }
    print_out(alloc, choice, latest, said, out, writer)?;
    Ok(latest.number)
}

/// Prints the line of a set that the script shows, as `print_event` does.
#[tactic(auto, using(crate::proofs::ShownLemmas::set_printed, crate::proofs::ShownLemmas::set_hidden))]
pub fn print_set<O: Write>(
    alloc: Global,
    choice: Choice<'_>,
    latest: Latest<'_>,
    said: u64,
    text: &str,
    writer: &mut O,
) -> io::Result<u64>
    ensures printed { IfOk result (λ behind. (last : List LastPacket) → PrintsGiven
        (scene_of choice.entry) (trail said last)
        (given_at (cause_of latest.entry) (a_set text.now ∷ [])) (trail behind last)
        (O.contents writer.old) (O.contents writer.new)) }
{
    if latest.input.moment < choice.shown.from_ms {
        return Ok(said);
    }
    print_line(alloc, choice, latest, said, text.as_bytes(), writer)?;
    Ok(latest.number)
}

/// Prints a line that is no command, if it is a comment that is shown.
#[tactic(auto, using(crate::proofs::ShownLemmas::comment_printed, crate::proofs::ShownLemmas::comment_passed))]
pub(crate) fn print_comment<O: Write>(
    choice: Choice<'_>,
    latest: Latest<'_>,
    line: &[u8],
    writer: &mut O,
) -> io::Result<()>
    ensures printed { OnOk result ((said : ℕ) (last : List LastPacket) → PrintsGiven
        (scene_of choice.entry) (trail said last)
        (given_at (cause_of latest.entry) (comment_told line.now)) (trail said last)
        (O.contents writer.old) (O.contents writer.new)) }
{
    if !is_stranger_line(line) {
        return Ok(());
    }
    print_comment_line(choice, latest, line, writer)?;
    Ok(())
}

/// Prints a comment, if it is shown.
fn print_comment_line<O: Write>(
    choice: Choice<'_>,
    latest: Latest<'_>,
    line: &[u8],
    writer: &mut O,
) -> io::Result<()>
    ensures printed { OnOk result (Appends (O.contents writer.old) (O.contents writer.new)
        (comment_line (scene_of choice.entry) (cause_of latest.entry) line.now)) }
{
    let is_shown = choice.shown.events && choice.shown.from_ms <= latest.input.moment;
    if !is_shown {
        return Ok(());
    }
    writer.write_all(line)?;
    writer.write_all(b"\n")?;
    Ok(())
}

/// Prints the lines of the gaps that last when the script is over.
#[tactic(auto, using(crate::proofs::ShownLemmas::end_printed))]
pub fn print_end<O: Write>(
    alloc: Global,
    choice: Choice<'_>,
    latest: Latest<'_>,
    packets: &LastPackets,
    writer: &mut O,
) -> io::Result<()>
    ensures printed { OnOk result ((said : ℕ) → PrintsGiven (scene_of choice.entry)
        (trail said packets.now) (given_at (cause_of latest.entry) (the_end ∷ []))
        (trail said packets.now) (O.contents writer.old) (O.contents writer.new)) }
{
    print_open_gaps(alloc, choice, latest, packets, writer)?;
    Ok(())
}

/// Whether something is shown that the machine gave out and that follows from the latest event.
fn is_shown(choice: Choice<'_>, latest: Latest<'_>, out: &Out) -> bool
    ensures { result ≡ is_shown (scene_of choice.entry)
        (record { cause = cause_of latest.entry; told = an_out out.now }) }
{
    choice.shown.from_ms <= latest.input.moment
        && choice
            .shown
            .is_chosen(choice.links, latest.input.incoming, out)
}

/// Whether the line of the latest event is shown, whatever follows from it.
fn is_event_shown(choice: Choice<'_>, latest: Latest<'_>) -> bool
    ensures { result ≡ is_shown (scene_of choice.entry)
        (record { cause = cause_of latest.entry; told = an_event }) }
{
    choice.shown.from_ms <= latest.input.moment
        && choice
            .shown
            .is_event_chosen(choice.links, latest.input.incoming)
}

/// The line for something that the machine gave out.
fn print_out<O: Write>(
    alloc: Global,
    choice: Choice<'_>,
    latest: Latest<'_>,
    said: u64,
    out: &Out,
    writer: &mut O,
) -> io::Result<()>
    ensures printed { OnOk result (Appends (O.contents writer.old) (O.contents writer.new)
        (heading (scene_of choice.entry) said (cause_of latest.entry) ++ out_line out.now)) }
{
    let line = out_line(alloc, out)?;
    print_line(alloc, choice, latest, said, line.as_bytes(), writer)
}

/// A line that follows from the latest event, after what follows from the event of the number `said`.
fn print_line<O: Write>(
    alloc: Global,
    choice: Choice<'_>,
    latest: Latest<'_>,
    said: u64,
    line: &[u8],
    writer: &mut O,
) -> io::Result<()>
    ensures printed { OnOk result (Appends (O.contents writer.old) (O.contents writer.new)
        (heading (scene_of choice.entry) said (cause_of latest.entry) ++ line.now)) }
{
    print_heading(alloc, choice, latest, said, writer)?;
    writer.write_all(line)?;
    Ok(())
}

/// The line of the latest event, if events are to stand before what follows from them and it doesn't stand there.
fn print_heading<O: Write>(
    alloc: Global,
    choice: Choice<'_>,
    latest: Latest<'_>,
    said: u64,
    writer: &mut O,
) -> io::Result<()>
    ensures printed { OnOk result (Appends (O.contents writer.old) (O.contents writer.new)
        (heading (scene_of choice.entry) said (cause_of latest.entry))) }
{
    if !choice.shown.events {
        return Ok(());
    }
    print_new_line(alloc, choice, latest, said, writer)
}

/// The line of the latest event, if it doesn't stand there.
fn print_new_line<O: Write>(
    alloc: Global,
    choice: Choice<'_>,
    latest: Latest<'_>,
    said: u64,
    writer: &mut O,
) -> io::Result<()>
    ensures printed { OnOk result (Appends (O.contents writer.old) (O.contents writer.new)
        (new_line (scene_of choice.entry) said (cause_of latest.entry))) }
{
    if said == latest.number {
        return Ok(());
    }
    print_event_line(alloc, choice, latest, writer)
}

/// The line of the latest event, after the comment before it.
fn print_event_line<O: Write>(
    alloc: Global,
    choice: Choice<'_>,
    latest: Latest<'_>,
    writer: &mut O,
) -> io::Result<()>
    ensures printed { OnOk result (Appends (O.contents writer.old) (O.contents writer.new)
        (event_line (scene_of choice.entry) (cause_of latest.entry))) }
{
    print_mark(latest.mark, writer)?;
    print_dated_line(alloc, choice, latest, writer)?;
    Ok(())
}

/// The line of the latest event alone.
fn print_dated_line<O: Write>(
    alloc: Global,
    choice: Choice<'_>,
    latest: Latest<'_>,
    writer: &mut O,
) -> io::Result<()>
    ensures printed { OnOk result (Appends (O.contents writer.old) (O.contents writer.new)
        (dated_line (scene_of choice.entry) (cause_of latest.entry))) }
{
    let clock = clock_text(alloc, choice.clock, latest.input.moment)?;
    writer.write_all(clock.as_bytes())?;
    writer.write_all(latest.line)?;
    writer.write_all(b"\n")?;
    Ok(())
}

/// The comment before an event, if there is one.
fn print_mark<O: Write>(mark: &[u8], writer: &mut O) -> io::Result<()>
    ensures printed { OnOk result (Appends (O.contents writer.old) (O.contents writer.new)
        (mark_line mark.now)) }
{
    if mark.is_empty() {
        return Ok(());
    }
    writer.write_all(mark)?;
    writer.write_all(b"\n")
}
