//! Where a request's line runs.

ghost use Rattle.std.specs.Prelude.{◌≡◌};
ghost use Rattle.drawing.specs.Scale.{IsUsable};
ghost use Rattle.drawing.specs.Line.{left_of, plotted_line, lower_of, right_of};

use crate::scale::{LEFT, RIGHT, Scale, column, row};
use tmmbr_tuple::Tuple;

/// The part of a request's line that is in the plot: from a place on its left or upper edge to one on its lower or right edge, in
/// tenths of a pixel. A line that runs above the plot is the upper right corner twice, or lies on the upper edge.
#[derive(Clone, Copy, PartialEq, Eq)]
pub struct Line {
    pub left: u128,
    pub upper: u128,
    pub right: u128,
    pub lower: u128,
}

/// The line of a tuple of rate R and overhead H: R - 8 H n bits of media beside n packets per second.
pub fn plotted_line(scale: Scale, tuple: Tuple) -> Line
    requires { IsUsable scale }
    ensures { result ≡ plotted_line scale tuple }
{
    Line {
        left: left_of(scale, tuple),
        upper: row(scale, tuple.rate(), 1),
        right: right_of(scale, tuple),
        lower: lower_of(scale, tuple),
    }
}

/// Where the line comes into the plot: at no packets, or at those that leave five fourths of the scale's rate.
fn left_of(scale: Scale, tuple: Tuple) -> u128
    requires { IsUsable scale }
    ensures { result ≡ left_of scale tuple }
{
    if tuple.overhead == 0 {
        LEFT
    } else {
        let above = (4 * tuple.rate()).saturating_sub(5 * scale.bits);
        column(scale, above, 32 * u128::from(tuple.overhead))
    }
}

/// Where the line leaves the plot: at the packets that leave nothing, or at its right edge.
fn right_of(scale: Scale, tuple: Tuple) -> u128
    requires { IsUsable scale }
    ensures { result ≡ right_of scale tuple }
{
    if tuple.overhead == 0 {
        RIGHT
    } else {
        column(scale, tuple.rate(), 8 * u128::from(tuple.overhead))
    }
}

/// What the line leaves for media where it leaves the plot: nothing, or what it does at five fourths of the scale's packets.
fn lower_of(scale: Scale, tuple: Tuple) -> u128
    requires { IsUsable scale }
    ensures { result ≡ lower_of scale tuple }
{
    let whole = 4 * tuple.rate() * scale.seconds;
    let headers = 40 * u128::from(tuple.overhead) * scale.packets;
    row(scale, whole.saturating_sub(headers), 4 * scale.seconds)
}
