//! Goodbyes (RFC 3550, section 6.6).

use crate::sizes::SOURCE_BYTES;
use byteorder::{BigEndian, ByteOrder};
use tmmbr_tuple::Ssrc;

/// The sources that a goodbye names, each four bytes of the datagram.
#[derive(Clone, Copy)]
pub struct Sources<'a> {
    pub(crate) bytes: &'a [u8],
}

impl Iterator for Sources<'_> {
    ghost use Rattle.std.specs.Iterator.{YieldsFirstBy, item_count};
    ghost use Rattle.rtcp_compound.specs.Content.{sources_left};

    type Item = Ssrc;

    ghost next_gives = { YieldsFirstBy (λ source. source.0) sources_left };

    ghost remaining = { item_count sources_left };

    #[tactic(auto, using(crate::proofs::EntryLemmas::sources_more, crate::proofs::EntryLemmas::sources_none))]
    fn next(&mut self) -> Option<Ssrc> {
        if self.bytes.len() < SOURCE_BYTES {
            return None;
        }
        let (source, others) = self.bytes.split_at(SOURCE_BYTES);
        self.bytes = others;
        Some(Ssrc(BigEndian::read_u32(source)))
    }
}
