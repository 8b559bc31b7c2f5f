//! The text of announced sets, with their certificates, and of refused lines.

ghost use Rattle.std.specs.Prelude.{◌≡◌, ◌<◌, ◌≤◌, ◌++◌, length, IfOk, OnOk, All, flat_map};
ghost use Rattle.std.specs.String.{string_bytes};
ghost use Rattle.rate_cert.specs.Certificate.{IsInRange};
ghost use Rattle.request_text.specs.BoundText.{announced_line, announcement, answer_text, bound_text, refused_text, implied_line, kept_line, owner_at, row_text};

use crate::fault::LineFault;
use announcement::entries_of;
use bounding_set::Bounds;
use desk::Desk;
use rate_cert::{CertFault, Implied, Kept, Request};
use rtcp_feedback::{MAX_ENTRIES, write_tmmbn};
use std::alloc::{AllocError, Global};
use tmmbr_tuple::Ssrc;

/// The announced set as a TMMBN of this sender, and its certificate.
pub fn bound_text(alloc: Global, media: Ssrc, bounds: &Bounds) -> Result<String, AllocError>
    ensures { IfOk result (λ text. string_bytes text ≡ bound_text media.0 bounds.now) }
{
    let announced = bounds.announced();
    let packet = tmmbn(alloc, media, announced.as_slice())?;
    let mut text = hex::encode(alloc, packet.as_slice())?;
    text.push('\n')?;
    let rows = bounds.rows();
    let cert = bounds.cert();
    push_kept(alloc, &mut text, rows, cert.kept.as_slice())?;
    push_implied(alloc, &mut text, rows, cert.implied.as_slice())?;
    Ok(text)
}

/// The set that a desk announces as a TMMBN of this sender, and its certificate: the same text for what is live there. Refused for
/// want of memory alone.
pub fn desk_text(alloc: Global, media: Ssrc, desk: &Desk) -> Result<String, AllocError>
    ensures { IfOk result (λ text. string_bytes text ≡ bound_text media.0 desk.now.bounds) }
{
    let announced = desk.announced();
    let packet = tmmbn(alloc, media, announced.as_slice())?;
    let mut text = hex::encode(alloc, packet.as_slice())?;
    text.push('\n')?;
    let rows = desk.live();
    let cert = desk.cert();
    push_kept(alloc, &mut text, rows, cert.kept.as_slice())?;
    push_implied(alloc, &mut text, rows, cert.implied.as_slice())?;
    Ok(text)
}

/// A TMMBN (RFC 5104, section 4.2.2) whose entries are these requests.
pub fn tmmbn(alloc: Global, sender: Ssrc, announced: &[Request]) -> Result<Vec<u8>, AllocError>
    requires { length announced.now ≤ MAX_ENTRIES }
    ensures { IfOk result (λ packet. packet.items ≡ announcement sender.0 announced.now) }
{
    let entries = entries_of(alloc, announced)?;
    let mut packet = Vec::new(alloc);
    write_tmmbn(&mut packet, sender, entries.as_slice())?;
    Ok(packet)
}

/// The line with the TMMBN of this sender that announces these requests.
pub fn announced_line(
    alloc: Global,
    sender: Ssrc,
    announced: &[Request],
) -> Result<String, AllocError>
    requires { length announced.now ≤ MAX_ENTRIES }
    ensures { IfOk result (λ text. string_bytes text ≡ announced_line sender.0 announced.now) }
{
    let packet = tmmbn(alloc, sender, announced)?;
    let mut text = hex::encode(alloc, packet.as_slice())?;
    text.push('\n')?;
    Ok(text)
}

/// A line for each kept entry.
fn push_kept(
    alloc: Global,
    text: &mut String,
    rows: &[Request],
    kept: &[Kept],
) -> Result<(), AllocError>
    requires { All (λ k. k.place < length rows.now) kept.now }
    ensures { OnOk result
        (string_bytes text.new ≡ string_bytes text.old ++ flat_map (kept_line rows.now) kept.now) }
{
    for entry in kept {
        push_kept_line(alloc, text, rows, entry)?;
    }
    Ok(())
}

fn push_kept_line(
    alloc: Global,
    text: &mut String,
    rows: &[Request],
    entry: &Kept,
) -> Result<(), AllocError>
    requires { entry.now.place < length rows.now }
    ensures { OnOk result
        (string_bytes text.new ≡ string_bytes text.old ++ kept_line rows.now entry.now) }
{
    let row = row_text(alloc, rows, usize::from(entry.place))?;
    let pair = &entry.pair;
    write!(
        text,
        "kept {row} pair {} {} {}\n",
        pair.packets, pair.bits, pair.seconds
    )
}

/// A line for each implied entry.
fn push_implied(
    alloc: Global,
    text: &mut String,
    rows: &[Request],
    implied: &[Implied],
) -> Result<(), AllocError>
    requires { All (IsInRange rows.now) implied.now }
    ensures { OnOk result (string_bytes text.new ≡ string_bytes text.old
        ++ flat_map (implied_line rows.now) implied.now) }
{
    for entry in implied {
        push_implied_line(alloc, text, rows, entry)?;
    }
    Ok(())
}

fn push_implied_line(
    alloc: Global,
    text: &mut String,
    rows: &[Request],
    entry: &Implied,
) -> Result<(), AllocError>
    requires { IsInRange rows.now entry.now }
    ensures { OnOk result
        (string_bytes text.new ≡ string_bytes text.old ++ implied_line rows.now entry.now) }
{
    let row = row_text(alloc, rows, usize::from(entry.place))?;
    let a = owner_at(rows, usize::from(entry.a));
    let b = owner_at(rows, usize::from(entry.b));
    write!(
        text,
        "implied {row} by {a} {b} times {} {} {}\n",
        entry.p, entry.q, entry.r
    )
}

/// The owner of the row at this place.
fn owner_at(rows: &[Request], place: usize) -> u32
    requires { place < length rows.now }
    ensures { result ≡ owner_at rows.now place }
{
    rows[place].owner.0
}

/// The row at this place: its owner in decimal, and its word in eight hexadecimal digits.
fn row_text(alloc: Global, rows: &[Request], place: usize) -> Result<String, AllocError>
    requires { place < length rows.now }
    ensures { IfOk result (λ text. string_bytes text ≡ row_text rows.now place) }
{
    let owner = owner_at(rows, place);
    let bytes = rows[place].tuple.to_word().to_be_bytes();
    let word = hex::encode(alloc, bytes.as_slice())?;
    format!(in alloc; "{owner} {word}")
}

/// The line for a refused line of input.
pub fn refused_text(alloc: Global, line: u64, fault: LineFault) -> Result<String, AllocError>
    ensures { IfOk result
        (λ text. string_bytes text ≡ refused_text (record { line = line; fault = fault })) }
{
    match fault {
        LineFault::Hex => format!(in alloc; "line {line}: hex\n"),
        LineFault::Rtcp(fault) => format!(in alloc; "line {line}: rtcp {}\n", fault.number()),
        LineFault::Feedback(fault) => format!(in alloc;
            "line {line}: feedback {}\n",
            fault.number()
        ),
        LineFault::Full => format!(in alloc; "line {line}: full\n"),
        LineFault::Text => format!(in alloc; "line {line}: text\n"),
    }
}

/// The line that `sfu check` prints for an answer of `check`.
pub fn answer_text(alloc: Global, answer: Result<(), CertFault>) -> Result<String, AllocError>
    ensures { IfOk result (λ text. string_bytes text ≡ answer_text answer) }
{
    match answer {
        Ok(()) => String::from_str(alloc, "yes\n"),
        Err(CertFault::Place) => String::from_str(alloc, "no 1\n"),
        Err(CertFault::PairNotForbidden) => String::from_str(alloc, "no 2\n"),
        Err(CertFault::TwoPairsForbidden(place)) => format!(in alloc; "no 3 {place}\n"),
        Err(CertFault::NotImplied(place)) => format!(in alloc; "no 4 {place}\n"),
        Err(CertFault::Missing(place)) => format!(in alloc; "no 5 {place}\n"),
    }
}
