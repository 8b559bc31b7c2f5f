//! What is written of each request and of each pair.

ghost use Rattle.std.specs.Prelude.{◌≡◌, ◌<◌, ◌≤◌, ◌^◌, ◌++◌, length, IfOk, OnOk, All, flat_map};
ghost use Rattle.std.specs.String.{string_bytes};
ghost use Rattle.drawing.specs.Scale.{IsUsable};
ghost use Rattle.drawing.specs.Picture.{above_text, across_text, asked_text, circle_text, each_row, forbidden_text, grid_text, hundredths_text, line_at, line_text, mark_text, name_at, name_part, name_text, named_text, pair_text, path_text, point_text, spot_text, thread_text, up_text};

use crate::line::{Line, plotted_line};
use crate::scale::{BOTTOM, LEFT, Scale, column, row};
use crate::style::{ACROSS, LINE_END, NAME, NAME_END, PAIR, POINT_END, UP, WHOSE};
use rate_cert::{Implied, Kept, Request};
use std::alloc::{AllocError, Global};
use tmmbr_tuple::Pair;

/// How many kept requests are named beside the plot.
pub const NAMED: u64 = 18;

/// What lies above each request's line: it isn't permitted.
pub fn push_forbidden(text: &mut String, scale: Scale, rows: &[Request]) -> Result<(), AllocError>
    requires { IsUsable scale }
    ensures { OnOk result
        (string_bytes text.new ≡ string_bytes text.old ++ flat_map (forbidden_text scale) rows.now) }
{
    for request in rows {
        push_forbidden_by(text, scale, request)?;
    }
    Ok(())
}

#[tactic(auto, unfolding(crate::specs::Picture::forbidden_text))]
fn push_forbidden_by(text: &mut String, scale: Scale, request: &Request) -> Result<(), AllocError>
    requires { IsUsable scale }
    ensures { OnOk result
        (string_bytes text.new ≡ string_bytes text.old ++ forbidden_text scale request.now) }
{
    push_above(text, plotted_line(scale, request.tuple))
}

#[tactic(auto, unfolding(crate::specs::Picture::above_text))]
fn push_above(text: &mut String, line: Line) -> Result<(), AllocError>
    ensures { OnOk result (string_bytes text.new ≡ string_bytes text.old ++ above_text line) }
{
    write!(
        text,
        "<path d='M{} {}L{} {}H6500V900H{}Z'/>\n",
        line.left, line.upper, line.right, line.lower, line.left
    )
}

/// The lines of the implied requests.
pub fn push_implied(
    text: &mut String,
    scale: Scale,
    rows: &[Request],
    implied: &[Implied],
) -> Result<(), AllocError>
    requires usable { IsUsable scale }
    requires in_range { All (λ i. i.place < length rows.now) implied.now }
    ensures { OnOk result (string_bytes text.new ≡ string_bytes text.old
        ++ flat_map (λ i. line_at scale rows.now i.place) implied.now) }
{
    for entry in implied {
        push_line_at(text, scale, rows, usize::from(entry.place))?;
    }
    Ok(())
}

/// The lines of the kept requests.
pub fn push_kept(
    text: &mut String,
    scale: Scale,
    rows: &[Request],
    kept: &[Kept],
) -> Result<(), AllocError>
    requires usable { IsUsable scale }
    requires in_range { All (λ k. k.place < length rows.now) kept.now }
    ensures { OnOk result (string_bytes text.new ≡ string_bytes text.old
        ++ flat_map (λ k. line_at scale rows.now k.place) kept.now) }
{
    for entry in kept {
        push_line_at(text, scale, rows, usize::from(entry.place))?;
    }
    Ok(())
}

/// The line of the request at this place.
fn push_line_at(
    text: &mut String,
    scale: Scale,
    rows: &[Request],
    place: usize,
) -> Result<(), AllocError>
    requires usable { IsUsable scale }
    requires in_range { place < length rows.now }
    ensures { OnOk result
        (string_bytes text.new ≡ string_bytes text.old ++ line_at scale rows.now place) }
{
    push_line(text, scale, &rows[place])
}

#[tactic(auto, unfolding(crate::specs::Picture::line_text))]
fn push_line(text: &mut String, scale: Scale, request: &Request) -> Result<(), AllocError>
    requires { IsUsable scale }
    ensures { OnOk result
        (string_bytes text.new ≡ string_bytes text.old ++ line_text scale request.now) }
{
    push_path(text, plotted_line(scale, request.tuple))?;
    text.push_str(WHOSE)?;
    push_asked(text, request)?;
    text.push_str(LINE_END)
}

#[tactic(auto, unfolding(crate::specs::Picture::path_text))]
fn push_path(text: &mut String, line: Line) -> Result<(), AllocError>
    ensures { OnOk result (string_bytes text.new ≡ string_bytes text.old ++ path_text line) }
{
    write!(
        text,
        "<path d='M{} {}L{} {}",
        line.left, line.upper, line.right, line.lower
    )
}

/// Whose request it is, and what it asks for.
#[tactic(auto, unfolding(crate::specs::Picture::asked_text))]
fn push_asked(text: &mut String, request: &Request) -> Result<(), AllocError>
    ensures { OnOk result
        (string_bytes text.new ≡ string_bytes text.old ++ asked_text request.now) }
{
    let rate = request.tuple.rate();
    write!(
        text,
        "owner {}: {rate} bit/s, {} bytes",
        request.owner.0, request.tuple.overhead
    )
}

/// A point for each kept request, at its pair.
pub fn push_points(text: &mut String, scale: Scale, kept: &[Kept]) -> Result<(), AllocError>
    requires { IsUsable scale }
    ensures { OnOk result
        (string_bytes text.new ≡ string_bytes text.old ++ flat_map (point_text scale) kept.now) }
{
    for entry in kept {
        push_point(text, scale, entry.pair)?;
    }
    Ok(())
}

#[tactic(auto, unfolding(crate::specs::Picture::spot_text))]
fn push_point(text: &mut String, scale: Scale, pair: Pair) -> Result<(), AllocError>
    requires { IsUsable scale }
    ensures { OnOk result (string_bytes text.new ≡ string_bytes text.old ++ spot_text scale pair) }
{
    let x = column(scale, pair.packets, pair.seconds);
    let y = row(scale, pair.bits, pair.seconds);
    push_circle(text, x, y)?;
    text.push_str(PAIR)?;
    push_pair(text, pair)?;
    text.push_str(POINT_END)
}

#[tactic(auto, unfolding(crate::specs::Picture::circle_text))]
fn push_circle(text: &mut String, x: u128, y: u128) -> Result<(), AllocError>
    ensures { OnOk result (string_bytes text.new ≡ string_bytes text.old ++ circle_text x y) }
{
    write!(text, "<circle cx='{x}' cy='{y}' ")
}

#[tactic(auto, unfolding(crate::specs::Picture::pair_text))]
fn push_pair(text: &mut String, pair: Pair) -> Result<(), AllocError>
    ensures { OnOk result (string_bytes text.new ≡ string_bytes text.old ++ pair_text pair) }
{
    write!(
        text,
        "{} packets, {} bits, {}",
        pair.packets, pair.bits, pair.seconds
    )
}

/// The kept requests by name, one below the other, each with a thread to its point; as many as there is room for.
pub fn push_names(
    text: &mut String,
    scale: Scale,
    rows: &[Request],
    kept: &[Kept],
) -> Result<(), AllocError>
    requires usable { IsUsable scale }
    requires in_range { All (λ k. k.place < length rows.now) kept.now }
    ensures { OnOk result (string_bytes text.new ≡ string_bytes text.old
        ++ each_row (named_text scale rows.now) 0 kept.now) }
{
    let mut number = 0;
    for entry in kept {
        push_named(text, scale, rows, entry, number)?;
        number += 1;
    }
    Ok(())
}

/// The name with this number and its thread, if there is room.
#[tactic(auto, unfolding(crate::specs::Picture::named_text))]
fn push_named(
    text: &mut String,
    scale: Scale,
    rows: &[Request],
    entry: &Kept,
    number: u64,
) -> Result<(), AllocError>
    requires usable { IsUsable scale }
    requires in_range { entry.now.place < length rows.now }
    ensures { OnOk result (string_bytes text.new
        ≡ string_bytes text.old ++ named_text scale rows.now number entry.now) }
{
    if number < NAMED {
        push_name(text, scale, rows, entry, number)
    } else {
        Ok(())
    }
}

#[tactic(auto, unfolding(crate::specs::Picture::name_part))]
fn push_name(
    text: &mut String,
    scale: Scale,
    rows: &[Request],
    entry: &Kept,
    number: u64,
) -> Result<(), AllocError>
    requires usable { IsUsable scale }
    requires in_range { entry.now.place < length rows.now }
    requires few { number < NAMED }
    ensures { OnOk result (string_bytes text.new
        ≡ string_bytes text.old ++ name_part scale rows.now number entry.now) }
{
    push_thread(text, scale, entry.pair, number)?;
    push_name_at(text, rows, usize::from(entry.place), number)
}

/// The thread from a pair to the name with this number.
#[tactic(auto, unfolding(crate::specs::Picture::thread_text))]
fn push_thread(text: &mut String, scale: Scale, pair: Pair, number: u64) -> Result<(), AllocError>
    requires usable { IsUsable scale }
    requires few { number < NAMED }
    ensures { OnOk result
        (string_bytes text.new ≡ string_bytes text.old ++ thread_text scale number pair) }
{
    let x = column(scale, pair.packets, pair.seconds);
    let y = row(scale, pair.bits, pair.seconds);
    write!(text, "<path d='M{x} {y}L6800 {}'/>\n", 1010 + 205 * number)
}

/// The name with this number: that of the request at this place.
fn push_name_at(
    text: &mut String,
    rows: &[Request],
    place: usize,
    number: u64,
) -> Result<(), AllocError>
    requires in_range { place < length rows.now }
    requires few { number < NAMED }
    ensures { OnOk result
        (string_bytes text.new ≡ string_bytes text.old ++ name_at rows.now number place) }
{
    push_name_of(text, &rows[place], number)
}

#[tactic(auto, unfolding(crate::specs::Picture::name_text))]
fn push_name_of(text: &mut String, request: &Request, number: u64) -> Result<(), AllocError>
    requires { number < NAMED }
    ensures { OnOk result
        (string_bytes text.new ≡ string_bytes text.old ++ name_text number request.now) }
{
    text.push_str(NAME)?;
    write!(text, "{}'>", 1060 + 205 * number)?;
    push_asked(text, request)?;
    text.push_str(NAME_END)
}

/// A mark on each axis, at so many quarters of the scale's rates.
#[tactic(auto, unfolding(crate::specs::Picture::mark_text))]
pub fn push_mark(
    alloc: Global,
    text: &mut String,
    scale: Scale,
    quarters: u128,
) -> Result<(), AllocError>
    requires usable { IsUsable scale }
    requires few { quarters ≤ 4 }
    ensures { OnOk result
        (string_bytes text.new ≡ string_bytes text.old ++ mark_text scale quarters) }
{
    let x = LEFT + 1100 * quarters;
    let y = BOTTOM - 800 * quarters;
    push_grid(text, x, y)?;
    push_across(alloc, text, scale, quarters)?;
    push_up(alloc, text, scale, quarters)
}

/// A line up and one across, through a mark of each axis.
#[tactic(auto, unfolding(crate::specs::Picture::grid_text))]
fn push_grid(text: &mut String, x: u128, y: u128) -> Result<(), AllocError>
    ensures { OnOk result (string_bytes text.new ≡ string_bytes text.old ++ grid_text x y) }
{
    write!(text, "<path d='M{x} 900V4900M1000 {y}H6500'/>\n")
}

/// The packet rate of a mark.
#[tactic(auto, unfolding(crate::specs::Picture::across_text))]
fn push_across(
    alloc: Global,
    text: &mut String,
    scale: Scale,
    quarters: u128,
) -> Result<(), AllocError>
    requires usable { IsUsable scale }
    requires few { quarters ≤ 4 }
    ensures { OnOk result
        (string_bytes text.new ≡ string_bytes text.old ++ across_text scale quarters) }
{
    let x = LEFT + 1100 * quarters;
    let packets = hundredths(alloc, quarters * scale.packets, 4 * scale.seconds)?;
    text.push_str(ACROSS)?;
    write!(text, "{x}'>{packets}</text>\n")
}

/// The media rate of a mark.
#[tactic(auto, unfolding(crate::specs::Picture::up_text))]
fn push_up(alloc: Global, text: &mut String, scale: Scale, quarters: u128) -> Result<(), AllocError>
    requires usable { IsUsable scale }
    requires few { quarters ≤ 4 }
    ensures { OnOk result
        (string_bytes text.new ≡ string_bytes text.old ++ up_text scale quarters) }
{
    let y = BOTTOM - 800 * quarters + 50;
    let bits = hundredths(alloc, quarters * scale.bits, 4)?;
    text.push_str(UP)?;
    write!(text, "{y}'>{bits}</text>\n")
}

/// A fraction, rounded down to hundredths; without them if it is whole.
#[tactic(auto, unfolding(crate::specs::Picture::hundredths_text))]
fn hundredths(alloc: Global, amount: u128, parts: u128) -> Result<String, AllocError>
    requires amount { amount < 2 ^ 100 }
    requires some { 1 ≤ parts }
    ensures { IfOk result (λ text. string_bytes text ≡ hundredths_text amount parts) }
{
    let all = 100 * amount / parts;
    if all % 100 == 0 {
        format!(in alloc; "{}", all / 100)
    } else {
        format!(in alloc; "{}.{}{}", all / 100, all / 10 % 10, all % 10)
    }
}
