//! What the unit's compounds begin with, and its reports to publishers.

ghost use Rattle.std.specs.Prelude.{◌≡◌, ◌≤◌, ◌+◌, ◌++◌, [], length, map, vec_len, vec_capacity};
ghost use Rattle.rtcp_compound.specs.Grammar.{packet_bytes};
ghost use Rattle.rtcp_compound.specs.Report.{block_of};
ghost use Rattle.rtcp_compound.specs.Written.{rr_packet};
ghost use Rattle.desk_calls.specs.Head.{blocks_of};

use rtcp_compound::{
    BLOCK_BYTES, Block, CNAME_LIMIT, SOURCE_BYTES, WORD_BYTES, write_rr, write_sdes_cname,
};
use std::alloc::{AllocError, Global};
use std::marker::Model;
use tmmbr_tuple::Ssrc;

/// The length of a receiver report with one block in bytes (RFC 3550, section 6.4.2).
const REPORT_BYTES: usize = WORD_BYTES + SOURCE_BYTES + BLOCK_BYTES;

/// What each compound of the unit begins with: a receiver report without blocks, and a description with its CNAME
/// (RFC 3550, section 6.1).
#[derive(Drop)]
pub struct Head {
    unit_ssrc: Ssrc,
    cname: Vec<u8>,
    bytes: Vec<u8>,
}

impl Model for Head {
    ghost use Rattle.std.specs.Prelude.{◌≡◌, ◌≤◌, length};
    ghost use Rattle.rtcp_compound.specs.declared.writer.TheConstants.{CNAME_LIMIT as LIMIT};
    ghost use Rattle.desk_calls.specs.Head.{Identity, report_head};

    ghost Value = { Identity };

    ghost view = { λ h. record { ssrc = h.unit_ssrc.0; cname = h.cname.items } };

    ghost invariant = { λ h. (length h.cname.items ≤ LIMIT)
        × (h.bytes.items ≡ report_head (record { ssrc = h.unit_ssrc.0; cname = h.cname.items })) };
}

impl Head {
    ghost use Rattle.std.specs.Prelude.{◌≡◌, ◌≤◌, ◌<◌, ◌^◌, length, IfOk};
    ghost use Rattle.desk_calls.specs.Head.{report_head, report_bytes, blocks_of};
    ghost use Rattle.desk_calls.specs.Drafts.{IsDraft};

    /// What the compounds of the unit with this source and this canonical name begin with. Refused for want of
    /// memory alone.
    pub fn new(alloc: Global, unit_ssrc: Ssrc, cname: &[u8]) -> Result<Head, AllocError>
        requires { length cname.now ≤ CNAME_LIMIT }
        ensures { IfOk result (λ head. head ≡ record { ssrc = unit_ssrc.0; cname = cname.now }) }
    {
        let mut bytes = Vec::new(alloc);
        write_rr(&mut bytes, unit_ssrc, &[])?;
        write_sdes_cname(&mut bytes, unit_ssrc, cname)?;
        Ok(Head {
            unit_ssrc,
            cname: cname.to_vec(alloc)?,
            bytes,
        })
    }

    /// The unit's source.
    pub fn unit_ssrc(&self) -> Ssrc
        ensures { result.0 ≡ self.now.ssrc }
    {
        self.unit_ssrc
    }

    /// A datagram that begins so, with room for so many bytes more.
    pub(crate) fn begin(&self, alloc: Global, more: usize) -> Result<Vec<u8>, AllocError>
        requires { more < 2 ^ 32 }
        ensures { IfOk result (λ bytes. bytes.items ≡ report_head self.now) }
    {
        let mut bytes = Vec::with_capacity(alloc, self.bytes.len() + more)?;
        bytes.extend_from_slice(self.bytes.as_slice())?;
        Ok(bytes)
    }

    /// Memory for a receiver report of the unit and the description; all that may fail of one.
    pub fn draft(&self, alloc: Global) -> Result<Draft, AllocError>
        ensures { IfOk result (IsDraft self.now) }
    {
        let mut description = Vec::new(alloc);
        write_sdes_cname(&mut description, self.unit_ssrc, self.cname.as_slice())?;
        Ok(Draft {
            report: Vec::with_capacity(alloc, REPORT_BYTES)?,
            datagram: Vec::with_capacity(alloc, REPORT_BYTES + description.len())?,
            description,
        })
    }

    /// A receiver report of the unit with this block, if any, and the description.
    pub fn fill(&self, draft: Draft, block: Option<Block>) -> Vec<u8>
        requires { IsDraft self.now draft }
        ensures { result.items ≡ report_bytes self.now (blocks_of block) }
    {
        let Draft {
            mut report,
            mut datagram,
            description,
        } = draft;
        put_report(&mut report, self.unit_ssrc, block);
        put(&mut datagram, report.as_slice());
        put(&mut datagram, description.as_slice());
        datagram
    }
}

/// A report upstream in the making: where the receiver report and the whole datagram will be written, and the
/// description.
#[derive(Drop)]
pub struct Draft {
    report: Vec<u8>,
    datagram: Vec<u8>,
    description: Vec<u8>,
}

/// If there is room for it, appends a receiver report with this block, if any.
fn put_report(out: &mut Vec<u8>, sender: Ssrc, block: Option<Block>)
    requires empty { out.old.items ≡ [] }
    requires len { vec_len out.old ≡ 0 }
    requires room { 32 ≤ vec_capacity out.old }
    ensures items { out.new.items ≡ packet_bytes (rr_packet sender.0 (blocks_of block)) }
    ensures short { length out.new.items ≤ 32 }
{
    match block {
        Some(block) => put_reports(out, sender, &[block]),
        None => put_reports(out, sender, &[]),
    }
}

/// Appends a receiver report with these blocks, if there is room for it.
fn put_reports(out: &mut Vec<u8>, sender: Ssrc, blocks: &[Block])
    requires empty { out.old.items ≡ [] }
    requires len { vec_len out.old ≡ 0 }
    requires few { length blocks.now ≤ 1 }
    requires room { 32 ≤ vec_capacity out.old }
    ensures items { out.new.items ≡ packet_bytes (rr_packet sender.0 (map block_of blocks.now)) }
    ensures short { length out.new.items ≤ 32 }
{
    match write_rr(out, sender, blocks) {
        Ok(()) => {}
        Err(AllocError) => {}
    }
}

/// Appends bytes, if there is room for them.
fn put(out: &mut Vec<u8>, bytes: &[u8])
    requires { vec_len out.old + length bytes.now ≤ vec_capacity out.old }
    ensures items { out.new.items ≡ out.old.items ++ bytes.now }
    ensures len { vec_len out.new ≡ vec_len out.old + length bytes.now }
    ensures capacity { vec_capacity out.old ≤ vec_capacity out.new }
{
    match out.extend_from_slice(bytes) {
        Ok(()) => {}
        Err(AllocError) => {}
    }
}
