//! A datagram that says a value, whoever made that.

ghost use Rattle.std.specs.Prelude.{◌≡◌, ℕ, ◌+◌, ◌*◌, ◌≤◌, List, [], ◌++◌, All, length, map, replicate, Option, Result, Ok, OnOk, OnErr, MatchResult};
ghost use Rattle.std.specs.List.{flat_map};
ghost use Rattle.rtcp_compound.specs.Grammar.{packet_bytes};
ghost use Rattle.datagram.specs.Reads.{IsReadUpTo, IsSaidIn, WasRead};
ghost use Rattle.datagram.specs.Spelling.{IsAsHeard, IsAskInRange, IsHeardInRange, PutsBytes, ask_packet, control_packets, notice_packet, speaking_packet, spelling};
ghost use Rattle.datagram.specs.declared.reading.Ask.{Ask as Asked};
ghost use Rattle.datagram.specs.declared.reading.Control.{Control as Controlled};
ghost use Rattle.datagram.specs.declared.reading.Reading.{Reading as Read};
ghost use Rattle.datagram.specs.declared.reading.What.{What as Value};

use crate::reading::{Ask, Control, What};
use rtcp_compound::{write_bye, write_rr, write_sr};
use rtcp_feedback::{TmmbrEntry, write_nack, write_pli, write_tmmbn, write_tmmbr};
use std::alloc::AllocError;
use tmmbr_tuple::Ssrc;

/// A value as it may be read is said by its spelling, with all that it asks for. This function does nothing: its contract is
/// the law.
pub fn sayable()
    ensures { (own : ℕ) (what : Value) (asks : List Asked) (came : List ℕ)
        → IsAsHeard own what asks came → IsHeardInRange own what → All IsAskInRange asks
        → IsSaidIn own (spelling own what asks came) (record { what = what; asks = asks }) }
{}

/// What is read may be spelled, also if not all that it asks for was listed, and still may with fewer or other asks, no more than there were;
/// so may any goodbye, and any control with any asks, whoever speaks.
pub fn stays_as_heard()
    ensures read { (own : ℕ) (what : Value) (asks : List Asked) (came : List ℕ)
        → IsSaidIn own came (record { what = what; asks = asks }) → IsAsHeard own what asks came }
    ensures read_up_to { (own : ℕ) (came : List ℕ) (most : Option ℕ) (r : Read)
        → IsReadUpTo own came most r → IsAsHeard own r.what r.asks.items came }
    ensures fewer { (own : ℕ) (what : Value) (asks fewer : List Asked) (came : List ℕ)
        → IsAsHeard own what asks came → length fewer ≤ length asks
        → IsAsHeard own what fewer came }
    ensures goodbye { (own : ℕ) (came : List ℕ) → IsAsHeard own What.Goodbye [] came }
    ensures control { (own : ℕ) (control : Controlled) (asks : List Asked) (came : List ℕ)
        → IsAsHeard own (What.Control control) asks came }
{}

/// What is read of a datagram is one value. So `read` gives a value again that was spelled, unless memory is wanting.
pub fn read_one_way()
    ensures { (own : ℕ) (datagram : List ℕ) (one other : WasRead) → IsSaidIn own datagram one
        → IsSaidIn own datagram other → other ≡ one }
{}

/// How many bytes a value is spelled by at most, but for media and what is refused, which are spelled as they came.
pub fn spelled_in_so_much()
    ensures goodbye { (own : ℕ) (asks : List Asked) (came : List ℕ)
        → length (spelling own What.Goodbye asks came) ≡ 8 }
    ensures control { (own : ℕ) (control : Controlled) (asks : List Asked) (came : List ℕ)
        → length (spelling own (What.Control control) asks came)
        ≤ 28 + 12 * control.tmmbns + 20 * length asks }
{}

/// A value as it may be read, whose types say that each number is within its field, is said by its spelling (`sayable`).
pub fn is_sayable(own: Ssrc, what: What, asks: &[Ask], came: &[u8])
    requires { IsAsHeard own.0 what asks.now came.now }
    ensures { IsSaidIn own.0 (spelling own.0 what asks.now came.now)
        (record { what = what; asks = asks.now }) }
{
    what_in_range(own, what);
    for ask in asks {
        ask_in_range(*ask);
    }
}

/// The numbers of a value are within their fields.
fn what_in_range(own: Ssrc, what: What)
    ensures { IsHeardInRange own.0 what }
{}

/// The numbers of an ask are within their fields.
fn ask_in_range(ask: Ask)
    ensures { IsAskInRange ask }
{}

/// Appends the datagram that says a value of the endpoint with this source: media and what is refused as they came (`came`, which counts for
/// nothing else); a goodbye of that source; or a report of who speaks, then a packet for each TMMBN and each ask (RFC 3550, section 6.1).
/// With media or a goodbye no asks are written. Refused only if memory is wanted and there is none; then `out` is as it was.
pub fn spell(
    own: Ssrc,
    what: What,
    asks: &[Ask],
    came: &[u8],
    out: &mut Vec<u8>,
) -> Result<(), AllocError>
    ensures written { OnOk result
        (out.new.items ≡ out.old.items ++ spelling own.0 what asks.now came.now) }
    ensures unchanged { OnErr result (out.new.items ≡ out.old.items) }
{
    let before = out.len();
    match push_spelling(own, what, asks, came, out) {
        Ok(()) => Ok(()),
        Err(error) => {
            out.truncate(before);
            Err(error)
        }
    }
}

/// Appends it, as much as there is room for.
#[tactic(auto, unfolding(crate::specs::Spelling::spelling))]
fn push_spelling(
    own: Ssrc,
    what: What,
    asks: &[Ask],
    came: &[u8],
    out: &mut Vec<u8>,
) -> Result<(), AllocError>
    ensures { PutsBytes out.old.items out.new.items (spelling own.0 what asks.now came.now)
        result }
{
    match what {
        What::Media(_) | What::Refused(_) => {
            out.extend_from_slice(came)?;
            Ok(())
        }
        What::Goodbye => write_bye(out, &[own]),
        What::Control(control) => push_packets(control, asks, out),
    }
}

/// Appends packets, as many as there is room for.
fn push_packets(control: Control, asks: &[Ask], out: &mut Vec<u8>) -> Result<(), AllocError>
    ensures { PutsBytes out.old.items out.new.items
        (flat_map packet_bytes (control_packets control asks.now)) result }
{
    push_report(control.speaker, control.report, out)?;
    push_notices(control.speaker, control.tmmbns, out)?;
    push_asks(control.speaker, asks, out)
}

/// Appends a report without blocks.
fn push_report(
    speaker: Ssrc,
    report: Option<(u64, u32)>,
    out: &mut Vec<u8>,
) -> Result<(), AllocError>
    ensures written { OnOk result
        (out.new.items ≡ out.old.items ++ packet_bytes (speaking_packet speaker.0 report)) }
    ensures unchanged { OnErr result (out.new.items ≡ out.old.items) }
{
    match report {
        Some((ntp, rtp)) => write_sr(out, speaker, ntp, rtp, 0, 0, &[]),
        None => write_rr(out, speaker, &[]),
    }
}

/// Appends so many TMMBNs without entries, as many as there is room for.
fn push_notices(speaker: Ssrc, count: u64, out: &mut Vec<u8>) -> Result<(), AllocError>
    ensures { PutsBytes out.old.items out.new.items
        (flat_map packet_bytes (replicate count (notice_packet speaker.0))) result }
{
    for _notice in 0..count {
        push_notice(speaker, out)?;
    }
    Ok(())
}

/// Appends a TMMBN without entries.
fn push_notice(speaker: Ssrc, out: &mut Vec<u8>) -> Result<(), AllocError>
    ensures written { OnOk result
        (out.new.items ≡ out.old.items ++ packet_bytes (notice_packet speaker.0)) }
    ensures unchanged { OnErr result (out.new.items ≡ out.old.items) }
{
    write_tmmbn(out, speaker, &[])
}

/// Appends a packet for each ask, as many as there is room for.
fn push_asks(speaker: Ssrc, asks: &[Ask], out: &mut Vec<u8>) -> Result<(), AllocError>
    ensures { PutsBytes out.old.items out.new.items
        (flat_map packet_bytes (map (ask_packet speaker.0) asks.now)) result }
{
    for ask in asks {
        push_ask(speaker, *ask, out)?;
    }
    Ok(())
}

/// Appends a packet that asks for this.
fn push_ask(speaker: Ssrc, ask: Ask, out: &mut Vec<u8>) -> Result<(), AllocError>
    ensures written { OnOk result
        (out.new.items ≡ out.old.items ++ packet_bytes (ask_packet speaker.0 ask)) }
    ensures unchanged { OnErr result (out.new.items ≡ out.old.items) }
{
    match ask {
        Ask::Rate { media, word } => {
            write_tmmbr(out, speaker, &[TmmbrEntry { ssrc: media, word }])
        }
        Ask::Resend { media, nack } => write_nack(out, speaker, media, &[nack]),
        Ask::Picture { media } => write_pli(out, speaker, media),
    }
}
