//! The picture of a set of requests.

ghost use Rattle.std.specs.Prelude.{◌≡◌, ◌<◌, ◌++◌, length, IfOk, OnOk, All};
ghost use Rattle.std.specs.String.{string_bytes};
ghost use Rattle.drawing.specs.Scale.{IsUsable};
ghost use Rattle.drawing.specs.Picture.{HasEachLineOnce, counts_text, description_text, figures_part, forbidden_part, ground_part, heading_text, lines_part, marks_part, more_text, names_part, picture_text, picture_with, points_part};

use crate::scale::{Scale, scale_of};
use crate::shapes::{
    NAMED, push_forbidden, push_implied, push_kept, push_mark, push_names, push_points,
};
use crate::style::{
    CLOSING, COUNTS, DESCRIPTION, FORBIDDEN, FRAME, GROUP_END, HEADING, HEADING_END, IMPLIED, KEPT,
    MARKS, NAMES, OPENING, POINTS,
};
use bounding_set::Bounds;
use rate_cert::{Implied, Kept, Request};
use std::alloc::{AllocError, Global};
use tmmbr_tuple::Ssrc;

/// The picture of the live requests to a media sender and of the set that is announced for them, as the text of an SVG.
///
/// Packets per second go across and bits of media per second up, in whole tenths of a pixel, rounded towards the axes. Shaded is
/// what no request forbids. Each live request has one line, where its rate and overhead leave so much for media: a strong one if it
/// is announced, else a thin one; each announced request has a point at its pair of the certificate, and the first eighteen are named
/// by their owners.
pub fn set_picture(alloc: Global, media: Ssrc, bounds: &Bounds) -> Result<String, AllocError>
    ensures text { IfOk result (λ text. string_bytes text ≡ picture_text media.0 bounds.now) }
    ensures each { HasEachLineOnce bounds.now }
{
    let rows = bounds.rows();
    let cert = bounds.cert();
    let (kept, implied) = (cert.kept.as_slice(), cert.implied.as_slice());
    draw(alloc, media, rows, kept, implied)
}

/// The picture of these requests, by the entries of their certificate.
#[tactic(auto, unfolding(crate::specs::Picture::picture_with))]
fn draw(
    alloc: Global,
    media: Ssrc,
    rows: &[Request],
    kept: &[Kept],
    implied: &[Implied],
) -> Result<String, AllocError>
    requires kept { All (λ k. k.place < length rows.now) kept.now }
    requires implied { All (λ i. i.place < length rows.now) implied.now }
    ensures { IfOk result
        (λ text. string_bytes text ≡ picture_with media.0 rows.now kept.now implied.now) }
{
    let scale = scale_of(rows);
    let mut text = String::new(alloc);
    push_ground(alloc, &mut text, scale, media, rows, kept)?;
    push_figures(&mut text, scale, rows, kept, implied)?;
    Ok(text)
}

/// The heading, what is permitted, and the axes.
#[tactic(auto, unfolding(crate::specs::Picture::ground_part))]
fn push_ground(
    alloc: Global,
    text: &mut String,
    scale: Scale,
    media: Ssrc,
    rows: &[Request],
    kept: &[Kept],
) -> Result<(), AllocError>
    requires { IsUsable scale }
    ensures { OnOk result (string_bytes text.new
        ≡ string_bytes text.old ++ ground_part scale media.0 rows.now kept.now) }
{
    push_description(text, media, rows.len(), kept.len())?;
    push_heading(text, media, rows.len(), kept.len())?;
    push_forbidden_part(text, scale, rows)?;
    push_marks(alloc, text, scale)
}

/// The names, the lines and the points.
#[tactic(auto, unfolding(crate::specs::Picture::figures_part))]
fn push_figures(
    text: &mut String,
    scale: Scale,
    rows: &[Request],
    kept: &[Kept],
    implied: &[Implied],
) -> Result<(), AllocError>
    requires usable { IsUsable scale }
    requires kept { All (λ k. k.place < length rows.now) kept.now }
    requires implied { All (λ i. i.place < length rows.now) implied.now }
    ensures { OnOk result (string_bytes text.new
        ≡ string_bytes text.old ++ figures_part scale rows.now kept.now implied.now) }
{
    push_names_part(text, scale, rows, kept)?;
    push_lines(text, scale, rows, kept, implied)?;
    push_points_part(text, scale, kept)?;
    text.push_str(CLOSING)
}

/// How the picture begins, and what it says to who can't see it.
#[tactic(auto, unfolding(crate::specs::Picture::description_text))]
fn push_description(
    text: &mut String,
    media: Ssrc,
    live: usize,
    kept: usize,
) -> Result<(), AllocError>
    ensures { OnOk result
        (string_bytes text.new ≡ string_bytes text.old ++ description_text media.0 live kept) }
{
    text.push_str(OPENING)?;
    write!(text, "{}", media.0)?;
    text.push_str(DESCRIPTION)?;
    push_counts(text, live, kept)
}

/// Whose set it is, and how many of its requests are kept.
#[tactic(auto, unfolding(crate::specs::Picture::heading_text))]
fn push_heading(text: &mut String, media: Ssrc, live: usize, kept: usize) -> Result<(), AllocError>
    ensures { OnOk result
        (string_bytes text.new ≡ string_bytes text.old ++ heading_text media.0 live kept) }
{
    text.push_str(HEADING)?;
    write!(text, "{}", media.0)?;
    text.push_str(COUNTS)?;
    push_counts(text, live, kept)?;
    text.push_str(HEADING_END)
}

#[tactic(auto, unfolding(crate::specs::Picture::counts_text))]
fn push_counts(text: &mut String, live: usize, kept: usize) -> Result<(), AllocError>
    ensures { OnOk result
        (string_bytes text.new ≡ string_bytes text.old ++ counts_text live kept) }
{
    write!(text, "{kept} of {live} live requests")
}

#[tactic(auto, unfolding(crate::specs::Picture::forbidden_part))]
fn push_forbidden_part(text: &mut String, scale: Scale, rows: &[Request]) -> Result<(), AllocError>
    requires { IsUsable scale }
    ensures { OnOk result
        (string_bytes text.new ≡ string_bytes text.old ++ forbidden_part scale rows.now) }
{
    text.push_str(FORBIDDEN)?;
    push_forbidden(text, scale, rows)?;
    text.push_str(GROUP_END)
}

#[tactic(auto, unfolding(crate::specs::Picture::marks_part))]
fn push_marks(alloc: Global, text: &mut String, scale: Scale) -> Result<(), AllocError>
    requires { IsUsable scale }
    ensures { OnOk result (string_bytes text.new ≡ string_bytes text.old ++ marks_part scale) }
{
    text.push_str(MARKS)?;
    push_mark(alloc, text, scale, 1)?;
    push_mark(alloc, text, scale, 2)?;
    push_mark(alloc, text, scale, 3)?;
    push_mark(alloc, text, scale, 4)?;
    text.push_str(GROUP_END)?;
    text.push_str(FRAME)
}

#[tactic(auto, unfolding(crate::specs::Picture::lines_part))]
fn push_lines(
    text: &mut String,
    scale: Scale,
    rows: &[Request],
    kept: &[Kept],
    implied: &[Implied],
) -> Result<(), AllocError>
    requires usable { IsUsable scale }
    requires kept { All (λ k. k.place < length rows.now) kept.now }
    requires implied { All (λ i. i.place < length rows.now) implied.now }
    ensures { OnOk result (string_bytes text.new
        ≡ string_bytes text.old ++ lines_part scale rows.now kept.now implied.now) }
{
    text.push_str(IMPLIED)?;
    push_implied(text, scale, rows, implied)?;
    text.push_str(GROUP_END)?;
    text.push_str(KEPT)?;
    push_kept(text, scale, rows, kept)?;
    text.push_str(GROUP_END)
}

#[tactic(auto, unfolding(crate::specs::Picture::points_part))]
fn push_points_part(text: &mut String, scale: Scale, kept: &[Kept]) -> Result<(), AllocError>
    requires { IsUsable scale }
    ensures { OnOk result
        (string_bytes text.new ≡ string_bytes text.old ++ points_part scale kept.now) }
{
    text.push_str(POINTS)?;
    push_points(text, scale, kept)?;
    text.push_str(GROUP_END)
}

#[tactic(auto, unfolding(crate::specs::Picture::names_part))]
fn push_names_part(
    text: &mut String,
    scale: Scale,
    rows: &[Request],
    kept: &[Kept],
) -> Result<(), AllocError>
    requires usable { IsUsable scale }
    requires in_range { All (λ k. k.place < length rows.now) kept.now }
    ensures { OnOk result (string_bytes text.new
        ≡ string_bytes text.old ++ names_part scale rows.now kept.now) }
{
    text.push_str(NAMES)?;
    push_names(text, scale, rows, kept)?;
    push_more(text, kept.len())?;
    text.push_str(GROUP_END)
}

/// How many kept requests had no room for their names.
#[tactic(auto, unfolding(crate::specs::Picture::more_text))]
fn push_more(text: &mut String, kept: usize) -> Result<(), AllocError>
    ensures { OnOk result (string_bytes text.new ≡ string_bytes text.old ++ more_text kept) }
{
    if kept > NAMED as usize {
        write!(
            text,
            "<text x='6860' y='4800'>and {} more</text>\n",
            kept - NAMED as usize
        )
    } else {
        Ok(())
    }
}
