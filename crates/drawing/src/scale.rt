//! How long the axes are, and where rates stand on them.

ghost use Rattle.std.specs.Prelude.{◌≡◌, ◌≤◌, ◌<◌, ◌^◌, IfSome};
ghost use Rattle.drawing.specs.Scale.{HasEnd, IsUsable, column, ends_sooner, first_end, has_end, least_rate, lesser, nearer, row, scale_of};

use rate_cert::Request;
use tmmbr_tuple::Tuple;

/// The left edge of the plot, in tenths of a pixel from the picture's.
pub const LEFT: u128 = 1_000;

/// The right edge of the plot.
pub const RIGHT: u128 = 6_500;

/// The upper edge of the plot, from the picture's.
pub const TOP: u128 = 900;

/// The lower edge of the plot: no media.
pub const BOTTOM: u128 = 4_900;

/// How wide the plot is.
pub const WIDTH: u128 = 5_500;

/// How high the plot is.
pub const HEIGHT: u128 = 4_000;

/// Where the scale's packet rate stands, from the plot's left edge: four fifths of its width.
pub const REACH: u128 = 4_400;

/// Where the scale's media rate stands, above the plot's lower edge: four fifths of its height.
pub const LEVEL: u128 = 3_200;

/// The packet rate and the media rate at four fifths of the axes.
#[derive(Clone, Copy, PartialEq, Eq)]
pub struct Scale {
    /// Packets in `seconds`, 1 to 2^80 - 1.
    pub packets: u128,
    /// 1 to 4,088.
    pub seconds: u128,
    /// Bits of media in one second, 1 to 2^80 - 1.
    pub bits: u128,
}

/// The scale for these requests: the least packet rate at which one of them leaves nothing for media, and the least rate of one,
/// of those that ask for some rate. If there is none, 100 packets and 100,000 bits per second.
pub fn scale_of(rows: &[Request]) -> Scale
    ensures value { result ≡ scale_of rows.now }
    ensures usable { IsUsable result }
{
    let bits = least_rate(rows).unwrap_or(100_000);
    match first_end(rows) {
        Some(tuple) => Scale {
            packets: tuple.rate(),
            seconds: 8 * u128::from(tuple.overhead),
            bits,
        },
        None => Scale {
            packets: 100,
            seconds: 1,
            bits,
        },
    }
}

/// The tuple whose line ends first, of those that have a rate and an overhead.
fn first_end(rows: &[Request]) -> Option<Tuple>
    ensures value { result ≡ first_end rows.now }
    ensures ends { IfSome result HasEnd }
{
    let mut best = None;
    for request in rows {
        best = nearer(best, request.tuple);
    }
    best
}

/// The one of two lines that ends first.
fn nearer(best: Option<Tuple>, tuple: Tuple) -> Option<Tuple>
    ensures value { result ≡ nearer best tuple }
    ensures ends { IfSome best HasEnd → IfSome result HasEnd }
{
    match best {
        Some(before) => {
            if has_end(tuple) && ends_sooner(tuple, before) {
                Some(tuple)
            } else {
                Some(before)
            }
        }
        None => { if has_end(tuple) { Some(tuple) } else { None } }
    }
}

/// Whether there is a packet rate at which the tuple leaves nothing for media, and fewer packets leave something.
fn has_end(tuple: Tuple) -> bool
    ensures { result ≡ has_end tuple }
{
    0 < tuple.rate() && 0 < tuple.overhead
}

/// Whether a line reaches the rate 0 at fewer packets than another one.
fn ends_sooner(tuple: Tuple, before: Tuple) -> bool
    ensures { result ≡ ends_sooner tuple before }
{
    tuple.rate() * u128::from(before.overhead) < before.rate() * u128::from(tuple.overhead)
}

/// The least rate that isn't 0.
fn least_rate(rows: &[Request]) -> Option<u128>
    ensures value { result ≡ least_rate rows.now }
    ensures some { IfSome result (λ r. (1 ≤ r) × (r < 2 ^ 80)) }
{
    let mut best = None;
    for request in rows {
        best = lesser(best, request.tuple);
    }
    best
}

/// The lesser of two rates, of which the second counts if it isn't 0.
fn lesser(best: Option<u128>, tuple: Tuple) -> Option<u128>
    ensures value { result ≡ lesser best tuple }
    ensures some { IfSome best (λ r. (1 ≤ r) × (r < 2 ^ 80))
        → IfSome result (λ r. (1 ≤ r) × (r < 2 ^ 80)) }
{
    let rate = tuple.rate();
    match best {
        Some(before) => {
            if 0 < rate && rate < before {
                Some(rate)
            } else {
                Some(before)
            }
        }
        None => { if 0 < rate { Some(rate) } else { None } }
    }
}

/// Where a packet rate stands, of so many packets in so many seconds: at the plot's right edge if it's beyond that.
pub fn column(scale: Scale, packets: u128, seconds: u128) -> u128
    requires usable { IsUsable scale }
    requires packets { packets < 2 ^ 100 }
    requires some_time { 1 ≤ seconds }
    requires seconds { seconds < 2 ^ 14 }
    ensures value { result ≡ column scale packets seconds }
    ensures within { (LEFT ≤ result) × (result ≤ RIGHT) }
{
    let across = REACH * packets * scale.seconds / (seconds * scale.packets);
    LEFT + across.min(WIDTH)
}

/// Where a rate of media stands, of so many bits in so many seconds: at the plot's upper edge if it's beyond that.
pub fn row(scale: Scale, bits: u128, seconds: u128) -> u128
    requires usable { IsUsable scale }
    requires bits { bits < 2 ^ 100 }
    requires some_time { 1 ≤ seconds }
    requires seconds { seconds < 2 ^ 14 }
    ensures value { result ≡ row scale bits seconds }
    ensures within { (TOP ≤ result) × (result ≤ BOTTOM) }
{
    let up = LEVEL * bits / (seconds * scale.bits);
    BOTTOM - up.min(HEIGHT)
}
