//! Whether two lines imply a third.

ghost use Rattle.std.specs.Prelude.{◌≡◌, ◌+◌, ◌^◌, ◌<◌, ◌↔◌, IsTrue};
ghost use Rattle.bounding_set.specs.Spliced.{ImplyTogether, ImpliesAlone, StandsAbove};

use tmmbr_tuple::Tuple;

/// Whether `x` permits each pair that `a` and `b` both permit, of packet rate and net media rate. Adds
/// one to `count`, which the caller keeps below `u32::MAX`.
pub fn implies(a: &Tuple, x: &Tuple, b: &Tuple, count: &mut u32) -> bool
    requires { count.old + 1 < 2 ^ 32 }
    ensures exact { IsTrue result ↔ ImplyTogether a.now b.now x.now }
    ensures counted { count.new ≡ count.old + 1 }
{
    *count += 1;
    implies_alone(a, x) || implies_alone(b, x) || is_above_chord(a, x, b) || is_above_chord(b, x, a)
}

/// Whether `x` permits each pair that `a` permits: at no packets, and where `a` leaves no media.
fn implies_alone(a: &Tuple, x: &Tuple) -> bool
    ensures { IsTrue result ↔ ImpliesAlone a.now x.now }
{
    a.rate() <= x.rate()
        && a.rate() * u128::from(x.overhead) <= x.rate() * u128::from(a.overhead)
        && (a.overhead > 0 || x.overhead == 0)
}

/// Whether the overhead of `x` is between those of `a` and `b`, and its line isn't below the chord
/// from `a` to `b`.
fn is_above_chord(a: &Tuple, x: &Tuple, b: &Tuple) -> bool
    ensures { IsTrue result ↔ StandsAbove a.now b.now x.now }
{
    let (at_a, at_x, at_b) = (
        u128::from(a.overhead),
        u128::from(x.overhead),
        u128::from(b.overhead),
    );
    at_a < at_x
        && at_x < at_b
        && at_b * a.rate() + at_x * b.rate() + at_a * x.rate()
            <= at_b * x.rate() + at_x * a.rate() + at_a * b.rate()
}
