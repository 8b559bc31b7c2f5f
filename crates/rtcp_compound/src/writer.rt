//! The packets that are sent: each is appended to a `Vec`, after room is reserved once.

ghost use Rattle.std.specs.Prelude.{◌≡◌, ◌≤◌, ◌<◌, ◌+◌, ◌*◌, ◌/◌, ◌%◌, ◌^◌, ◌≤ℤ◌, pos, negsuc, ◌++◌, ◌∷◌, length, map, All, replicate, vec_len, vec_capacity, OnOk, OnErr};
ghost use Rattle.std.specs.List.{flat_map};
ghost use Rattle.byteorder.specs.Endian.{big_bytes};
ghost use Rattle.rtcp_compound.specs.Content.{sender_report, receiver_report, description, goodbye};
ghost use Rattle.rtcp_compound.specs.Grammar.{packet_bytes, chunk_bytes};
ghost use Rattle.rtcp_compound.specs.Report.{block_of, block_bytes, lost_word, IsReportBlock};
ghost use Rattle.rtcp_compound.specs.Written.{Appends, sr_packet, rr_packet, cname_packet, cname_chunk, bye_packet};

use crate::NoMemory;
use crate::packet::{BYE, RR, SDES, SR};
use crate::report::Block;
use crate::sizes::{BLOCK_BYTES, SENDER_BYTES, SOURCE_BYTES, WORD_BYTES};
use byteorder::{BigEndian, ByteOrder};
use std::alloc::Allocator;
use tmmbr_tuple::Ssrc;

/// The most blocks of one report, and sources of one goodbye: five bits count them (RFC 3550, section
/// 6.4.1).
pub const ENTRY_LIMIT: usize = 31;
/// The longest CNAME in bytes: one byte says how long it is (RFC 3550, section 6.5).
pub const CNAME_LIMIT: usize = 255;

/// The version 2, without padding and with a count of 0 (RFC 3550, section 6.4.1).
const VERSION: u8 = 0x80;
/// The type of an item that is a CNAME (RFC 3550, section 6.5.1).
const CNAME: u8 = 1;

/// Appends a sender report (RFC 3550, section 6.4.1): its sender, the NTP timestamp in 2^-32 seconds, the
/// RTP timestamp, the packets and payload octets that it sent, and what it reports of others. Refused for
/// want of memory alone; then nothing was appended.
pub fn write_sr<A: Allocator>(
    out: &mut Vec<u8, A>,
    sender: Ssrc,
    ntp: u64,
    rtp: u32,
    packets: u32,
    octets: u32,
    blocks: &[Block],
) -> Result<(), NoMemory>
    requires { length blocks.now ≤ ENTRY_LIMIT }
    ensures ok { OnOk result (Appends out.old.items out.new.items
        (sr_packet sender.0 ntp rtp packets octets (map block_of blocks.now))
        (sender_report sender.0 ntp rtp packets octets (map block_of blocks.now))) }
    ensures unchanged { OnErr result (out.new.items ≡ out.old.items) }
    ensures no_memory { OnErr result (vec_capacity out.old
        < vec_len out.old
        + length (packet_bytes
        (sr_packet sender.0 ntp rtp packets octets (map block_of blocks.now)))) }
{
    let words = (SENDER_BYTES + BLOCK_BYTES * blocks.len()) / WORD_BYTES;
    out.reserve(WORD_BYTES + WORD_BYTES * words)?;
    put_header(out, blocks.len(), SR, words);
    put_u32(out, sender.0);
    put_u64(out, ntp);
    put_u32(out, rtp);
    put_u32(out, packets);
    put_u32(out, octets);
    put_blocks(out, blocks);
    Ok(())
}

/// Appends a receiver report (RFC 3550, section 6.4.2): its sender, and what it reports of others. Refused
/// for want of memory alone; then nothing was appended.
pub fn write_rr<A: Allocator>(
    out: &mut Vec<u8, A>,
    sender: Ssrc,
    blocks: &[Block],
) -> Result<(), NoMemory>
    requires { length blocks.now ≤ ENTRY_LIMIT }
    ensures ok { OnOk result (Appends out.old.items out.new.items
        (rr_packet sender.0 (map block_of blocks.now))
        (receiver_report sender.0 (map block_of blocks.now))) }
    ensures unchanged { OnErr result (out.new.items ≡ out.old.items) }
    ensures no_memory { OnErr result (vec_capacity out.old
        < vec_len out.old + length (packet_bytes (rr_packet sender.0 (map block_of blocks.now)))) }
{
    let words = (SOURCE_BYTES + BLOCK_BYTES * blocks.len()) / WORD_BYTES;
    out.reserve(WORD_BYTES + WORD_BYTES * words)?;
    put_header(out, blocks.len(), RR, words);
    put_u32(out, sender.0);
    put_blocks(out, blocks);
    Ok(())
}

/// Appends a source description of one source (RFC 3550, section 6.5): its CNAME, ended by a zero byte and
/// filled with zeros. Refused for want of memory alone; then nothing was appended.
pub fn write_sdes_cname<A: Allocator>(
    out: &mut Vec<u8, A>,
    source: Ssrc,
    cname: &[u8],
) -> Result<(), NoMemory>
    requires { length cname.now ≤ CNAME_LIMIT }
    ensures ok { OnOk result (Appends out.old.items out.new.items (cname_packet source.0 cname.now)
        (description 1 (chunk_bytes (cname_chunk source.0 cname.now)))) }
    ensures unchanged { OnErr result (out.new.items ≡ out.old.items) }
    ensures no_memory { OnErr result (vec_capacity out.old
        < vec_len out.old + length (packet_bytes (cname_packet source.0 cname.now))) }
{
    let item = 2 + cname.len();
    let words = 2 + item / WORD_BYTES;
    out.reserve(WORD_BYTES + WORD_BYTES * words)?;
    put_header(out, 1, SDES, words);
    put_u32(out, source.0);
    put(out, &[CNAME, cname.len() as u8]);
    put(out, cname);
    put_zeros(out, WORD_BYTES - item % WORD_BYTES);
    Ok(())
}

/// Appends a goodbye of these sources, without a reason (RFC 3550, section 6.6). Refused for want of memory
/// alone; then nothing was appended.
pub fn write_bye<A: Allocator>(out: &mut Vec<u8, A>, sources: &[Ssrc]) -> Result<(), NoMemory>
    requires { length sources.now ≤ ENTRY_LIMIT }
    ensures ok { OnOk result (Appends out.old.items out.new.items
        (bye_packet (map (λ source. source.0) sources.now))
        (goodbye (map (λ source. source.0) sources.now))) }
    ensures unchanged { OnErr result (out.new.items ≡ out.old.items) }
    ensures no_memory { OnErr result (vec_capacity out.old
        < vec_len out.old
        + length (packet_bytes (bye_packet (map (λ source. source.0) sources.now)))) }
{
    out.reserve(WORD_BYTES + WORD_BYTES * sources.len())?;
    put_header(out, sources.len(), BYE, sources.len());
    put_sources(out, sources);
    Ok(())
}

/// Appends a header without padding: how many entries, the type, and how many words follow.
fn put_header<A: Allocator>(out: &mut Vec<u8, A>, count: usize, kind: u8, words: usize)
    requires counted { count < 32 }
    requires fits { words < 65536 }
    requires room { vec_len out.old + 4 ≤ vec_capacity out.old }
    ensures items { out.new.items ≡ out.old.items ++ ((128 + count) ∷ (kind ∷ big_bytes 2 words)) }
    ensures len { vec_len out.new ≡ vec_len out.old + 4 }
    ensures capacity { vec_capacity out.old ≤ vec_capacity out.new }
{
    let mut length = [0; 2];
    BigEndian::write_u16(&mut length, words as u16);
    put(out, &[VERSION + count as u8, kind, length[0], length[1]]);
}

/// Appends these blocks.
fn put_blocks<A: Allocator>(out: &mut Vec<u8, A>, blocks: &[Block])
    requires room { vec_len out.old + BLOCK_BYTES * length blocks.now ≤ vec_capacity out.old }
    ensures items { out.new.items ≡ out.old.items
        ++ flat_map block_bytes (map block_of blocks.now) }
    ensures each { All IsReportBlock (map block_of blocks.now) }
{
    for block in blocks {
        put_block(out, *block);
    }
}

/// Appends a block.
fn put_block<A: Allocator>(out: &mut Vec<u8, A>, block: Block)
    requires room { vec_len out.old + BLOCK_BYTES ≤ vec_capacity out.old }
    ensures items { out.new.items ≡ out.old.items ++ block_bytes (block_of block) }
    ensures block { IsReportBlock (block_of block) }
    ensures len { vec_len out.new ≡ vec_len out.old + BLOCK_BYTES }
    ensures capacity { vec_capacity out.old ≤ vec_capacity out.new }
{
    put_u32(out, block.source.0);
    put(out, &[block.fraction]);
    put_lost(out, block.lost);
    put_u32(out, block.highest);
    put_u32(out, block.jitter);
    put_u32(out, block.last_sr);
    put_u32(out, block.delay);
}

/// Appends these sources.
fn put_sources<A: Allocator>(out: &mut Vec<u8, A>, sources: &[Ssrc])
    requires room { vec_len out.old + SOURCE_BYTES * length sources.now ≤ vec_capacity out.old }
    ensures items { out.new.items ≡ out.old.items
        ++ flat_map (big_bytes 4) (map (λ source. source.0) sources.now) }
    ensures each { All (λ source. source < 2 ^ 32) (map (λ source. source.0) sources.now) }
{
    for source in sources {
        put_u32(out, source.0);
    }
}

/// Appends a number of packets lost, in 24 bits of two's complement.
fn put_lost<A: Allocator>(out: &mut Vec<u8, A>, lost: i32)
    requires low { negsuc 8388607 ≤ℤ lost }
    requires high { lost ≤ℤ pos 8388607 }
    requires room { vec_len out.old + 3 ≤ vec_capacity out.old }
    ensures items { out.new.items ≡ out.old.items ++ big_bytes 3 (lost_word lost) }
    ensures len { vec_len out.new ≡ vec_len out.old + 3 }
    ensures capacity { vec_capacity out.old ≤ vec_capacity out.new }
{
    let mut bytes = [0; 3];
    BigEndian::write_i24(&mut bytes, lost);
    put(out, &bytes);
}

/// Appends a number in 32 bits.
fn put_u32<A: Allocator>(out: &mut Vec<u8, A>, number: u32)
    requires room { vec_len out.old + 4 ≤ vec_capacity out.old }
    ensures items { out.new.items ≡ out.old.items ++ big_bytes 4 number }
    ensures bits { number < 2 ^ 32 }
    ensures len { vec_len out.new ≡ vec_len out.old + 4 }
    ensures capacity { vec_capacity out.old ≤ vec_capacity out.new }
{
    let mut bytes = [0; 4];
    BigEndian::write_u32(&mut bytes, number);
    put(out, &bytes);
}

/// Appends a number in 64 bits.
fn put_u64<A: Allocator>(out: &mut Vec<u8, A>, number: u64)
    requires room { vec_len out.old + 8 ≤ vec_capacity out.old }
    ensures items { out.new.items ≡ out.old.items ++ big_bytes 8 number }
    ensures bits { number < 2 ^ 64 }
    ensures len { vec_len out.new ≡ vec_len out.old + 8 }
    ensures capacity { vec_capacity out.old ≤ vec_capacity out.new }
{
    let mut bytes = [0; 8];
    BigEndian::write_u64(&mut bytes, number);
    put(out, &bytes);
}

/// Appends zeros, at most a word of them.
fn put_zeros<A: Allocator>(out: &mut Vec<u8, A>, count: usize)
    requires word { count ≤ 4 }
    requires room { vec_len out.old + count ≤ vec_capacity out.old }
    ensures items { out.new.items ≡ out.old.items ++ replicate count 0 }
    ensures len { vec_len out.new ≡ vec_len out.old + count }
    ensures capacity { vec_capacity out.old ≤ vec_capacity out.new }
{
    put(out, &[0; WORD_BYTES][..count]);
}

/// Appends bytes for which there is room.
fn put<A: Allocator>(out: &mut Vec<u8, A>, bytes: &[u8])
    requires room { vec_len out.old + length bytes.now ≤ vec_capacity out.old }
    ensures items { out.new.items ≡ out.old.items ++ bytes.now }
    ensures len { vec_len out.new ≡ vec_len out.old + length bytes.now }
    ensures capacity { vec_capacity out.old ≤ vec_capacity out.new }
{
    let _ = out.extend_from_slice(bytes);
}
