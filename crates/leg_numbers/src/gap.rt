//! How far beyond the numbers that were given a leg begins after the next start.

ghost use Rattle.std.specs.Prelude.{◌≡◌};
ghost use Rattle.leg_numbers.specs.Numbers.{first_after, gap_after};

/// So many numbers are left out at least.
pub const LEAST_GAP: u16 = 1024;

/// So many are left out at most: a receiver takes a number for a later one if it is fewer than 32,768 ahead (RFC 3550, appendix A.1).
pub const MOST_GAP: u16 = 16_384;

/// The number with which a leg begins after the next start, modulo 65,536. `next` is the number after its newest, and `given` is how many
/// numbers were given since the note before, so that by the next note twice as many may be.
pub fn first_after(next: u16, given: u16) -> u16
    ensures { result ≡ first_after next given }
{
    next.wrapping_add(gap_after(given))
}

/// How many numbers are left out.
fn gap_after(given: u16) -> u16
    ensures { result ≡ gap_after given }
{
    if given <= LEAST_GAP / 2 {
        LEAST_GAP
    } else if given <= MOST_GAP / 2 {
        2 * given
    } else {
        MOST_GAP
    }
}
