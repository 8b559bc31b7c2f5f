//! Requests for a greatest rate, and the notifications of them (RFC 5104, sections 4.2.1 and 4.2.2).

ghost use Rattle.std.specs.Prelude.{◌≡◌, ◌+◌, ◌*◌, ◌≤◌, ◌<◌, ◌++◌, length, vec_len, vec_capacity, OnOk, OnErr, IsOk};
ghost use Rattle.rtcp_feedback.specs.Writing.{packet_bytes, tmmb_body};

use crate::NoMemory;
use crate::fault::FbFault;
use crate::packet::{FMT_TMMBN, FMT_TMMBR, FRONT_BYTES, RTPFB, put_front, put_u32};
use byteorder::{BigEndian, ByteOrder};
use std::alloc::Allocator;
use tmmbr_tuple::Ssrc;

/// The length of an entry of a TMMBR or a TMMBN in bytes (RFC 5104, section 4.2.1.1).
pub const ENTRY_BYTES: usize = 8;

/// How many entries a packet may have: its length, in words, then is 65,534.
pub const MAX_ENTRIES: usize = 32_766;

/// One entry of a TMMBR or a TMMBN (RFC 5104, section 4.2.1.1).
#[derive(Clone, Copy, PartialEq, Eq)]
pub struct TmmbrEntry {
    /// Of a TMMBR the media sender whose rate is meant; of a TMMBN the owner, who asked for it.
    pub ssrc: Ssrc,
    /// The rate and the overhead: exponent, mantissa and overhead in 6, 17 and 9 bits.
    pub word: u32,
}

/// The entries of a TMMBR or a TMMBN, in order; a slice of the body.
#[derive(Clone, Copy, PartialEq, Eq)]
pub struct TmmbEntries<'a> {
    rest: &'a [u8],
}

impl<'a> TmmbEntries<'a> {
    ghost use Rattle.std.specs.Prelude.{◌↔◌, ◌%◌, IfOk, IsOkUnless};
    ghost use Rattle.rtcp_feedback.specs.Reading.{entries_in, entries_left};

    /// The entries that an FCI consists of; `OddFci` if it ends within one.
    pub(crate) fn read(fci: &'a [u8]) -> Result<TmmbEntries<'a>, FbFault>
        ensures whole { IsOk result ↔ (length fci.now % 8 ≡ 0) }
        ensures entries { IfOk result (λ found. entries_left found ≡ entries_in fci.now) }
        ensures fault { IsOkUnless result FbFault.OddFci }
    {
        if fci.len() % ENTRY_BYTES != 0 {
            return Err(FbFault::OddFci);
        }
        Ok(TmmbEntries { rest: fci })
    }
}

impl<'a> Iterator for TmmbEntries<'a> {
    ghost use Rattle.std.specs.Iterator.{YieldsFirst, item_count};
    ghost use Rattle.rtcp_feedback.specs.Reading.{entries_left};

    type Item = TmmbrEntry;

    ghost next_gives = { YieldsFirst entries_left };

    ghost remaining = { item_count entries_left };

    #[tactic(auto, using(crate::proofs::EntryLemmas::entries_next, crate::proofs::EntryLemmas::entries_end))]
    fn next(&mut self) -> Option<TmmbrEntry> {
        let (entry, rest) = self.rest.split_at_checked(ENTRY_BYTES)?;
        self.rest = rest;
        Some(TmmbrEntry {
            ssrc: Ssrc(BigEndian::read_u32(entry)),
            word: BigEndian::read_u32(&entry[4..]),
        })
    }
}

/// Appends a TMMBR of this sender with these entries, a whole RTCP packet (RFC 5104, section 4.2.1).
/// Refused only if memory is wanted and there is none; then `out` is as it was.
pub fn write_tmmbr<A: Allocator>(
    out: &mut Vec<u8, A>,
    sender: Ssrc,
    entries: &[TmmbrEntry],
) -> Result<(), NoMemory>
    requires { length entries.now ≤ MAX_ENTRIES }
    ensures written { OnOk result (out.new.items ≡ out.old.items
        ++ packet_bytes 3 205 (tmmb_body sender.0 entries.now)) }
    ensures unchanged { OnErr result (out.new.items ≡ out.old.items) }
    ensures succeeds { vec_len out.old + (12 + 8 * length entries.now) ≤ vec_capacity out.old
        → IsOk result }
{
    write_entries(out, FMT_TMMBR, sender, entries)
}

/// Appends a TMMBN of this sender with these entries, a whole RTCP packet (RFC 5104, section 4.2.2).
/// Refused only if memory is wanted and there is none; then `out` is as it was.
pub fn write_tmmbn<A: Allocator>(
    out: &mut Vec<u8, A>,
    sender: Ssrc,
    entries: &[TmmbrEntry],
) -> Result<(), NoMemory>
    requires { length entries.now ≤ MAX_ENTRIES }
    ensures written { OnOk result (out.new.items ≡ out.old.items
        ++ packet_bytes 4 205 (tmmb_body sender.0 entries.now)) }
    ensures unchanged { OnErr result (out.new.items ≡ out.old.items) }
    ensures succeeds { vec_len out.old + (12 + 8 * length entries.now) ≤ vec_capacity out.old
        → IsOk result }
{
    write_entries(out, FMT_TMMBN, sender, entries)
}

/// Appends a packet of this FMT whose source of media is written as 0.
fn write_entries<A: Allocator>(
    out: &mut Vec<u8, A>,
    fmt: u8,
    sender: Ssrc,
    entries: &[TmmbrEntry],
) -> Result<(), NoMemory>
    requires fmt { fmt < 32 }
    requires count { length entries.now ≤ MAX_ENTRIES }
    ensures written { OnOk result (out.new.items ≡ out.old.items
        ++ packet_bytes fmt 205 (tmmb_body sender.0 entries.now)) }
    ensures unchanged { OnErr result (out.new.items ≡ out.old.items) }
    ensures succeeds { vec_len out.old + (12 + 8 * length entries.now) ≤ vec_capacity out.old
        → IsOk result }
{
    out.reserve(FRONT_BYTES + ENTRY_BYTES * entries.len())?;
    let words = 2 + 2 * entries.len() as u16;
    put_front(out, fmt, RTPFB, words, sender, Ssrc(0));
    for entry in entries {
        put_u32(out, entry.ssrc.0);
        put_u32(out, entry.word);
    }
    Ok(())
}
