//! The packets of a datagram that are left to be looked at.

ghost use Rattle.rtcp_compound.specs.Reading.{IsReadWhole};

use crate::packet::read_again;
use crate::view::{RtcpView, view_of};

/// The packets of a datagram.
#[derive(Clone, Copy)]
pub struct Packets<'a> {
    /// What is left, of which every packet was read.
    pub(crate) rest: &'a [u8],
    ghost whole: { IsReadWhole rest.now },
}

impl<'a> Iterator for Packets<'a> {
    ghost use Rattle.std.specs.Iterator.{YieldsFirstBy, item_count};
    ghost use Rattle.rtcp_compound.specs.Content.{content_of};
    ghost use Rattle.rtcp_compound.specs.Left.{contents_left};

    type Item = RtcpView<'a>;

    ghost next_gives = { YieldsFirstBy content_of contents_left };

    ghost remaining = { item_count contents_left };

    #[tactic(auto, using(crate::proofs::DatagramLemmas::contents_more, crate::proofs::DatagramLemmas::contents_none))]
    fn next(&mut self) -> Option<RtcpView<'a>> {
        match read_again(self.rest) {
            Ok((packet, behind)) => {
                self.rest = behind;
                Some(view_of(packet))
            }
            Err(_) => None,
        }
    }
}
