//! Generic NACKs (RFC 4585, section 6.2.1).

ghost use Rattle.std.specs.Prelude.{◌≡◌, ◌+◌, ◌*◌, ◌≤◌, ◌++◌, length, vec_len, vec_capacity, OnOk, OnErr, IsOk};
ghost use Rattle.rtcp_feedback.specs.Nack.{lost_numbers};
ghost use Rattle.rtcp_feedback.specs.Writing.{nack_body, packet_bytes};

use crate::fault::FbFault;
use crate::packet::{FMT_NACK, FRONT_BYTES, RTPFB, put_front, put_u16};
use arrayvec::ArrayVec;
use byteorder::{BigEndian, ByteOrder};
use std::alloc::{AllocError, Allocator};
use tmmbr_tuple::Ssrc;

/// The length of an entry in bytes (RFC 4585, section 6.2.1).
pub const NACK_BYTES: usize = 4;

/// How many entries a written NACK may have: its length, in words, then is 65,535.
pub const MAX_NACKS: usize = 65_533;

/// How many packets an entry may name after its first.
const FOLLOWING: u16 = 16;

/// One entry of a generic NACK (RFC 4585, section 6.2.1): a lost packet, and which of the 16 after it are
/// lost too.
#[derive(Clone, Copy, PartialEq, Eq)]
pub struct Nack {
    /// The sequence number of a lost packet.
    pub pid: u16,
    /// A bit for each packet after it, from the next one, the least significant bit, on; 0 for none.
    pub blp: u16,
}

/// The entries of a generic NACK, in order; a slice of the body.
#[derive(Clone, Copy, PartialEq, Eq)]
pub struct Nacks<'a> {
    rest: &'a [u8],
}

impl<'a> Nacks<'a> {
    ghost use Rattle.std.specs.Prelude.{◌↔◌, ◌%◌, length, IfOk, IsOk, IsOkUnless};
    ghost use Rattle.rtcp_feedback.specs.Reading.{nacks_in, nacks_left};

    /// The entries that an FCI consists of; `OddFci` if it ends within one.
    pub(crate) fn read(fci: &'a [u8]) -> Result<Nacks<'a>, FbFault>
        ensures whole { IsOk result ↔ (length fci.now % 4 ≡ 0) }
        ensures entries { IfOk result (λ found. nacks_left found ≡ nacks_in fci.now) }
        ensures fault { IsOkUnless result FbFault.OddFci }
    {
        if fci.len() % NACK_BYTES != 0 {
            return Err(FbFault::OddFci);
        }
        Ok(Nacks { rest: fci })
    }
}

impl<'a> Iterator for Nacks<'a> {
    ghost use Rattle.std.specs.Iterator.{YieldsFirst, item_count};
    ghost use Rattle.rtcp_feedback.specs.Reading.{nacks_left};

    type Item = Nack;

    ghost next_gives = { YieldsFirst nacks_left };

    ghost remaining = { item_count nacks_left };

    #[tactic(auto, using(crate::proofs::EntryLemmas::nacks_next, crate::proofs::EntryLemmas::nacks_end))]
    fn next(&mut self) -> Option<Nack> {
        let (entry, rest) = self.rest.split_at_checked(NACK_BYTES)?;
        self.rest = rest;
        Some(Nack {
            pid: BigEndian::read_u16(entry),
            blp: BigEndian::read_u16(&entry[2..]),
        })
    }
}

/// The sequence numbers that an entry says are lost: its `pid`, then by rising i from 1 to 16 the i-th
/// after it, modulo 65,536, if the i-th bit of `blp` is set, counted from the least significant.
pub fn lost(nack: Nack) -> ArrayVec<u16, 17>
    ensures { result.items ≡ lost_numbers nack }
{
    let mut numbers = ArrayVec::new();
    numbers.push(nack.pid);
    for i in 1..FOLLOWING + 1 {
        if (nack.blp >> (i - 1)) & 1 == 1 {
            numbers.push(nack.pid.wrapping_add(i));
        }
    }
    numbers
}

/// Appends a NACK of this sender about this source of media with these entries, a whole RTCP packet (RFC
/// 4585, section 6.2.1). Refused only if memory is wanted and there is none; then `out` is as it was.
pub fn write_nack<A: Allocator>(
    out: &mut Vec<u8, A>,
    sender: Ssrc,
    media: Ssrc,
    entries: &[Nack],
) -> Result<(), AllocError>
    requires { length entries.now ≤ MAX_NACKS }
    ensures written { OnOk result (out.new.items ≡ out.old.items
        ++ packet_bytes 1 205 (nack_body sender.0 media.0 entries.now)) }
    ensures unchanged { OnErr result (out.new.items ≡ out.old.items) }
    ensures succeeds { vec_len out.old + (12 + 4 * length entries.now) ≤ vec_capacity out.old
        → IsOk result }
{
    out.reserve(FRONT_BYTES + NACK_BYTES * entries.len())?;
    let words = 2 + entries.len() as u16;
    put_front(out, FMT_NACK, RTPFB, words, sender, media);
    for entry in entries {
        put_u16(out, entry.pid);
        put_u16(out, entry.blp);
    }
    Ok(())
}
