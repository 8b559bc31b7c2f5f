//! What of an entry of a NACK is admitted on a leg.

ghost use Rattle.std.specs.Prelude.{◌≡◌, ◌∷◌, []};
ghost use Rattle.rtcp_feedback.specs.Nack.{lost_numbers};
ghost use Rattle.policy.specs.Nacks.{bit_behind, entry_of, joined};
ghost use Rattle.policy.specs.LegResends.{book_after, numbers_passed};

use crate::leg_resends::{Allowance, LegResends};
use rtcp_feedback::{Nack, lost};

/// How many packets an entry may name after its first.
const FOLLOWING: u16 = 16;

/// The entry that names what is admitted of the numbers of this one, by what is noted of its leg; `None` if none is.
#[tactic(auto, using(crate::proofs::NackLemmas::one_lost))]
pub(crate) fn admit_resends(
    book: &mut LegResends,
    allowance: Allowance,
    entry: Nack,
) -> Option<Nack>
    ensures entry { result ≡ entry_of (numbers_passed book.old allowance (lost_numbers entry)) }
    ensures noted { book.new ≡ book_after book.old allowance (lost_numbers entry) }
{
    if entry.blp == 0 {
        return admit_one(book, allowance, entry.pid);
    }
    part_due(book, allowance, lost(entry).as_slice())
}

/// The entry that names this number alone; `None` if it isn't admitted.
fn admit_one(book: &mut LegResends, allowance: Allowance, seq: u16) -> Option<Nack>
    ensures entry { result ≡ entry_of (numbers_passed book.old allowance (seq ∷ [])) }
    ensures noted { book.new ≡ book_after book.old allowance (seq ∷ []) }
{
    if book.ask(allowance, seq) {
        Some(Nack { pid: seq, blp: 0 })
    } else {
        None
    }
}

/// The entry that names those of the numbers that are admitted; `None` if none is.
fn part_due(book: &mut LegResends, allowance: Allowance, numbers: &[u16]) -> Option<Nack>
    ensures entry { result ≡ entry_of (numbers_passed book.old allowance numbers.now) }
    ensures noted { book.new ≡ book_after book.old allowance numbers.now }
{
    let mut part = None;
    for number in numbers {
        if book.ask(allowance, *number) {
            part = Some(joined(part, *number));
        }
    }
    part
}

/// The entry that names this number, too.
fn joined(part: Option<Nack>, seq: u16) -> Nack
    ensures { result ≡ joined part seq }
{
    match part {
        Some(Nack { pid, blp }) => Nack {
            pid,
            blp: blp | bit_behind(pid, seq),
        },
        None => Nack { pid: seq, blp: 0 },
    }
}

/// The bit that stands for a number in an entry that begins with that one; 0 if there is none.
fn bit_behind(pid: u16, seq: u16) -> u16
    ensures { result ≡ bit_behind pid seq }
{
    let behind = seq.wrapping_sub(pid);
    if behind == 0 || behind > FOLLOWING {
        0
    } else {
        1 << (behind - 1)
    }
}
