//! Source descriptions (RFC 3550, section 6.5).

ghost use Rattle.std.specs.Prelude.{◌≡◌, Some, None, MatchOption};
ghost use Rattle.rtcp_compound.specs.Reading.{after_items, after_chunk, after_chunks};

use crate::sizes::{SOURCE_BYTES, WORD_BYTES};

/// The bytes after so many chunks, if they end within the body.
pub fn after_chunks(count: usize, body: &[u8]) -> Option<&[u8]>
    ensures { MatchOption result (after_chunks count body.now ≡ None)
        (λ x. after_chunks count body.now ≡ Some x.now) }
{
    let mut rest = body;
    let mut left = count;
    while left > 0 {
        rest = after_chunk(rest)?;
        left -= 1;
    }
    Some(rest)
}

/// The bytes after the chunk at the front, in a body that ends at a word boundary.
#[tactic(auto, unfolding(crate::specs::Reading::after_chunk))]
fn after_chunk(body: &[u8]) -> Option<&[u8]>
    ensures { MatchOption result (after_chunk body.now ≡ None)
        (λ x. after_chunk body.now ≡ Some x.now) }
{
    if body.len() < SOURCE_BYTES {
        return None;
    }
    let rest = after_items(&body[SOURCE_BYTES..])?;
    Some(&rest[rest.len() % WORD_BYTES..])
}

/// The bytes after the zero byte that ends the items.
#[tactic(auto, using(crate::proofs::SdesLemmas::items_end, crate::proofs::SdesLemmas::items_single, crate::proofs::SdesLemmas::items_cut))]
fn after_items(items: &[u8]) -> Option<&[u8]>
    ensures { MatchOption result (after_items 0 items.now ≡ None)
        (λ x. after_items 0 items.now ≡ Some x.now) }
{
    let mut rest = items;
    while !rest.is_empty() {
        if rest[0] == 0 {
            return Some(&rest[1..]);
        }
        if rest.len() < 2 {
            return None;
        }
        let end = 2 + usize::from(rest[1]);
        if rest.len() < end {
            return None;
        }
        rest = &rest[end..];
    }
    None
}
