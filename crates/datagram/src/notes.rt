//! What is noted of a datagram beside what it says.

ghost use Rattle.std.specs.Prelude.{◌≤◌, vec_capacity};

use crate::blocks::note_blocks;
use crate::kinds::Kinds;
use crate::notice::note_notice;
use rtcp_compound::{Block, RtcpView};
use rtcp_feedback::TmmbrEntry;
use std::alloc::{AllocError, Global};

/// What is noted of a datagram, be its feedback faulty or not: nothing of one that isn't RTCP packets. As many blocks and entries are noted as there is
/// room for, the first, so that noting takes no memory.
#[derive(Drop)]
pub struct Notes {
    /// How many packets there are of each kind of feedback.
    pub kinds: Kinds,
    /// The report blocks of sender and receiver reports, in order (RFC 3550, section 6.4).
    pub blocks: Vec<Block>,
    /// The entries of the last TMMBN, none if there is no TMMBN (RFC 5104, section 4.2.2).
    pub notice: Vec<TmmbrEntry>,
    /// For how many blocks there is room.
    pub most_blocks: usize,
    /// For how many entries there is room.
    pub most_entries: usize,
    pub ghost room_of_blocks: { most_blocks ≤ vec_capacity blocks },
    pub ghost room_of_entries: { most_entries ≤ vec_capacity notice },
}

impl Notes {
    ghost use Rattle.std.specs.Prelude.{◌≡◌, ◌∷◌, ◌++◌, [], List, IfOk};
    ghost use Rattle.rtcp_compound.specs.Content.{Content, content_of};
    ghost use Rattle.datagram.specs.Notes.{AreNoted, HasSameRoom};

    /// Nothing is noted, and there is room for so many blocks and entries. Refused for want of memory alone.
    pub fn with_room(alloc: Global, blocks: usize, entries: usize) -> Result<Notes, AllocError>
        ensures nothing { IfOk result (λ n. AreNoted n []) }
        ensures room { IfOk result (λ n. (n.most_blocks ≡ blocks) × (n.most_entries ≡ entries)) }
    {
        Ok(Notes {
            kinds: Kinds::none(),
            blocks: Vec::with_capacity(alloc, blocks)?,
            notice: Vec::with_capacity(alloc, entries)?,
            most_blocks: blocks,
            most_entries: entries,
        })
    }

    /// Nothing is noted.
    pub(crate) fn clear(&mut self)
        ensures nothing { AreNoted self.new [] }
        ensures room { HasSameRoom self.old self.new }
    {
        self.kinds = Kinds::none();
        self.blocks.clear();
        self.notice.clear();
    }

    /// Notes a packet, too.
    pub(crate) fn note(&mut self, packet: RtcpView<'_>)
        ensures noted { (done : List Content) → AreNoted self.old done
            → AreNoted self.new (done ++ content_of packet.entry ∷ []) }
        ensures room { HasSameRoom self.old self.new }
    {
        self.kinds = self.kinds.with(packet);
        note_blocks(&mut self.blocks, self.most_blocks, packet);
        note_notice(&mut self.notice, self.most_entries, packet);
    }
}
