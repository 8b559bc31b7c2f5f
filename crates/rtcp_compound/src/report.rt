//! Report blocks (RFC 3550, section 6.4.1).

ghost use Rattle.std.specs.Prelude.{◌≡◌, ◌≤◌, pos, negsuc, ◌≤ℤ◌, length};
ghost use Rattle.byteorder.specs.Endian.{big_number, twos_complement};

use crate::sizes::BLOCK_BYTES;
use byteorder::{BigEndian, ByteOrder};
use tmmbr_tuple::Ssrc;

/// What a receiver reports of one source (RFC 3550, section 6.4.1).
#[derive(Clone, Copy, PartialEq, Eq)]
pub struct Block {
    /// The source that is reported, any 32 bits.
    pub source: Ssrc,
    /// The share of its packets lost since the last report, in 256ths. 0 if none was lost, or more
    /// came than were expected.
    pub fraction: u8,
    /// Packets lost since its reception began, -8,388,608 to 8,388,607: those expected less those that
    /// came. Below 0 if more came than were expected.
    pub lost: i32,
    /// The highest sequence number that came, extended: how often the numbers began anew in the upper 16
    /// bits, the number in the lower. 0 is a number like any other.
    pub highest: u32,
    /// How much the time between packets varies, in units of the source's RTP timestamp. 0 if it
    /// doesn't.
    pub jitter: u32,
    /// Of the source's last sender report: the NTP timestamp's 32 bits in the middle. 0 if none came.
    pub last_sr: u32,
    /// The time since that report came, in 65,536ths of a second. 0 if none came.
    pub delay: u32,
    pub ghost lost_low: { negsuc 8388607 ≤ℤ lost },
    pub ghost lost_high: { lost ≤ℤ pos 8388607 },
}

impl Block {
    ghost use Rattle.rtcp_compound.specs.Report.{block_of, block_in};

    /// The block that these bytes begin with.
    fn read(bytes: &[u8]) -> Block
        requires { BLOCK_BYTES ≤ length bytes.now }
        ensures { block_of result ≡ block_in bytes.now }
    {
        Block {
            source: Ssrc(BigEndian::read_u32(bytes)),
            fraction: bytes[4],
            lost: read_lost(&bytes[5..]),
            highest: BigEndian::read_u32(&bytes[8..]),
            jitter: BigEndian::read_u32(&bytes[12..]),
            last_sr: BigEndian::read_u32(&bytes[16..]),
            delay: BigEndian::read_u32(&bytes[20..]),
        }
    }
}

/// The packets lost, in 24 bits of two's complement.
fn read_lost(bytes: &[u8]) -> i32
    requires { 3 ≤ length bytes.now }
    ensures value { result ≡ twos_complement 3 (big_number 3 bytes.now) }
    ensures low { negsuc 8388607 ≤ℤ result }
    ensures high { result ≤ℤ pos 8388607 }
{
    BigEndian::read_i24(bytes)
}

/// The blocks of a report, as they stand in the datagram.
#[derive(Clone, Copy)]
pub struct Blocks<'a> {
    pub(crate) bytes: &'a [u8],
}

impl Iterator for Blocks<'_> {
    ghost use Rattle.std.specs.Iterator.{YieldsFirstBy, item_count};
    ghost use Rattle.rtcp_compound.specs.Report.{block_of, blocks_left};

    type Item = Block;

    ghost next_gives = { YieldsFirstBy block_of blocks_left };

    ghost remaining = { item_count blocks_left };

    #[tactic(auto, using(crate::proofs::EntryLemmas::blocks_more, crate::proofs::EntryLemmas::blocks_none))]
    fn next(&mut self) -> Option<Block> {
        if self.bytes.len() < BLOCK_BYTES {
            return None;
        }
        let block = Block::read(self.bytes);
        let (_, others) = self.bytes.split_at(BLOCK_BYTES);
        self.bytes = others;
        Some(block)
    }
}
