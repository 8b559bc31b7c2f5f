//! Lists what packets ask for, in the order of packets and entries.

ghost use Rattle.std.specs.Prelude.{◌≡◌, [], ◌∷◌, map, Ok};
ghost use Rattle.rtcp_compound.specs.Content.{content_of};
ghost use Rattle.rtcp_compound.specs.Left.{contents_left};
ghost use Rattle.rtcp_feedback.specs.Reading.{entries_left, message_of, nacks_left};
ghost use Rattle.datagram.specs.Reads.{Lists, is_full};
ghost use Rattle.datagram.specs.Saying.{Gist, PacketSays, PacketsSay, gist_of};

use crate::reading::{Ask, Reading};
use rtcp_compound::{Packets, RtcpView};
use rtcp_feedback::{Feedback, Nacks, TmmbEntries, read_feedback};
use std::alloc::AllocError;
use tmmbr_tuple::Ssrc;

/// Lists what packets ask for.
pub(crate) fn collect(
    packets: Packets<'_>,
    most: Option<usize>,
    reading: &mut Reading,
) -> Result<(), AllocError>
    ensures { (gist : Gist) → PacketsSay (contents_left packets.entry) (Ok gist)
        → Lists most reading.old reading.new gist.asks result }
{
    for packet in packets {
        collect_packet(packet, most, reading)?;
    }
    Ok(())
}

/// Lists what a packet asks for.
fn collect_packet(
    packet: RtcpView<'_>,
    most: Option<usize>,
    reading: &mut Reading,
) -> Result<(), AllocError>
    ensures { (gist : Gist) → PacketSays (content_of packet.entry) (Ok gist)
        → Lists most reading.old reading.new gist.asks result }
{
    match packet {
        RtcpView::Feedback { fmt, kind, body } => match read_feedback(fmt, kind, body) {
            Ok(feedback) => collect_feedback(feedback, most, reading),
            Err(_) => Ok(()),
        },
        _ => Ok(()),
    }
}

/// Lists what a feedback packet asks for.
fn collect_feedback(
    feedback: Feedback<'_>,
    most: Option<usize>,
    reading: &mut Reading,
) -> Result<(), AllocError>
    ensures { Lists most reading.old reading.new (gist_of (message_of feedback.entry)).asks
        result }
{
    match feedback {
        Feedback::Nack { media, entries, .. } => collect_resends(media, entries, most, reading),
        Feedback::Pli { media, .. } => list(Ask::Picture { media }, most, reading),
        Feedback::Tmmbr { entries, .. } => collect_rates(entries, most, reading),
        Feedback::Tmmbn { .. } => Ok(()),
        Feedback::Unknown { .. } => Ok(()),
    }
}

/// Lists the entries of a NACK.
fn collect_resends(
    media: Ssrc,
    entries: Nacks<'_>,
    most: Option<usize>,
    reading: &mut Reading,
) -> Result<(), AllocError>
    ensures { Lists most reading.old reading.new
        (map (λ n. Ask.Resend media n) (nacks_left entries.entry)) result }
{
    for nack in entries {
        list(Ask::Resend { media, nack }, most, reading)?;
    }
    Ok(())
}

/// Lists the entries of a TMMBR.
fn collect_rates(
    entries: TmmbEntries<'_>,
    most: Option<usize>,
    reading: &mut Reading,
) -> Result<(), AllocError>
    ensures { Lists most reading.old reading.new
        (map (λ e. Ask.Rate e.ssrc e.word) (entries_left entries.entry)) result }
{
    for entry in entries {
        let ask = Ask::Rate {
            media: entry.ssrc,
            word: entry.word,
        };
        list(ask, most, reading)?;
    }
    Ok(())
}

/// Lists an ask, or counts it if there are as many as may be.
fn list(ask: Ask, most: Option<usize>, reading: &mut Reading) -> Result<(), AllocError>
    ensures { Lists most reading.old reading.new (ask ∷ []) result }
{
    if is_full(reading.asks.len(), most) {
        reading.beyond = reading.beyond.saturating_add(1);
        return Ok(());
    }
    reading.asks.push(ask)?;
    Ok(())
}

/// Whether as many are listed as may be.
fn is_full(listed: usize, most: Option<usize>) -> bool
    ensures { result ≡ is_full listed most }
{
    match most {
        Some(most) => listed >= most,
        None => false,
    }
}
