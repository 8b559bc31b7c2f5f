//! The report blocks of a datagram (RFC 3550, section 6.4).

ghost use Rattle.std.specs.Prelude.{◌≡◌, ◌≤◌, ◌∷◌, ◌++◌, [], List, map, take, vec_capacity, MatchOption};
ghost use Rattle.rtcp_compound.specs.Content.{content_of};
ghost use Rattle.rtcp_compound.specs.Report.{ReportBlock, block_of, blocks_left};
ghost use Rattle.datagram.specs.Blocks.{blocks_said};

use rtcp_compound::{Block, Blocks, RtcpView};

/// Notes the report blocks of a packet behind those before, if it is a report.
pub(crate) fn note_blocks(blocks: &mut Vec<Block>, most: usize, packet: RtcpView<'_>)
    requires { most ≤ vec_capacity blocks.old }
    ensures noted { (done : List ReportBlock) → map block_of blocks.old.items ≡ take most done
        → map block_of blocks.new.items
        ≡ take most (done ++ blocks_said (content_of packet.entry)) }
    ensures room { most ≤ vec_capacity blocks.new }
{
    match blocks_of(packet) {
        Some(more) => push_blocks(blocks, most, more),
        None => {}
    }
}

/// The report blocks of a packet, if it is a report.
pub fn blocks_of(packet: RtcpView<'_>) -> Option<Blocks<'_>>
    ensures { MatchOption result (blocks_said (content_of packet.entry) ≡ [])
        (λ blocks. blocks_left blocks ≡ blocks_said (content_of packet.entry)) }
{
    match packet {
        RtcpView::Sr { blocks, .. } => Some(blocks),
        RtcpView::Rr { blocks, .. } => Some(blocks),
        RtcpView::Sdes { .. } => None,
        RtcpView::Bye { .. } => None,
        RtcpView::Feedback { .. } => None,
        RtcpView::Other { .. } => None,
    }
}

/// Appends blocks, while there is room.
fn push_blocks(blocks: &mut Vec<Block>, most: usize, more: Blocks<'_>)
    requires { most ≤ vec_capacity blocks.old }
    ensures noted { (done : List ReportBlock) → map block_of blocks.old.items ≡ take most done
        → map block_of blocks.new.items ≡ take most (done ++ blocks_left more.entry) }
    ensures room { most ≤ vec_capacity blocks.new }
{
    for block in more {
        push_block(blocks, most, block);
    }
}

/// Appends a block, if there is room.
fn push_block(blocks: &mut Vec<Block>, most: usize, block: Block)
    requires { most ≤ vec_capacity blocks.old }
    ensures noted { (done : List ReportBlock) → map block_of blocks.old.items ≡ take most done
        → map block_of blocks.new.items ≡ take most (done ++ block_of block ∷ []) }
    ensures room { most ≤ vec_capacity blocks.new }
{
    if blocks.len() < most {
        let _ = blocks.push(block);
    }
}
