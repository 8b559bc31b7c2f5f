//! Picture loss indications (RFC 4585, section 6.3.1).

ghost use Rattle.std.specs.Prelude.{◌≡◌, ◌+◌, ◌≤◌, ◌++◌, vec_len, vec_capacity, OnOk, OnErr, IsOk};
ghost use Rattle.rtcp_feedback.specs.Writing.{packet_bytes, pli_body};

use crate::NoMemory;
use crate::packet::{FMT_PLI, FRONT_BYTES, PSFB, put_front};
use std::alloc::Allocator;
use tmmbr_tuple::Ssrc;

/// Appends a PLI of this sender about this source of media, a whole RTCP packet without FCI. Refused only
/// if memory is wanted and there is none; then `out` is as it was.
pub fn write_pli<A: Allocator>(
    out: &mut Vec<u8, A>,
    sender: Ssrc,
    media: Ssrc,
) -> Result<(), NoMemory>
    ensures written { OnOk result (out.new.items ≡ out.old.items
        ++ packet_bytes 1 206 (pli_body sender.0 media.0)) }
    ensures unchanged { OnErr result (out.new.items ≡ out.old.items) }
    ensures succeeds { vec_len out.old + 12 ≤ vec_capacity out.old → IsOk result }
{
    out.reserve(FRONT_BYTES)?;
    put_front(out, FMT_PLI, PSFB, 2, sender, media);
    Ok(())
}
