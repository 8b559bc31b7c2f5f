//! A leg that a worker owns.

ghost use Rattle.std.specs.Prelude.{◌≡◌, ◌≤◌, ◌+◌, ◌%◌, ◌^◌, ◌<◌, length, IfOk};

use resend_ring::{MAX_CAPACITY, Ring};
use rewrite::Leg;
use rtcp_compound::CNAME_LIMIT;
use settings::{Cname, LegSettings};
use shared_packet::Readdressed;
use std::alloc::{AllocError, Global};

/// The counts of what was handed out go round at this number (RFC 3550, section 6.4.1).
const COUNTS: u64 = 1 << 32;

/// A leg that a worker owns: all that what it gives out depends on, beside its row.
#[derive(Drop)]
pub struct LegState {
    /// Its number.
    pub number: u16,
    /// What it joins.
    pub link: LegSettings,
    /// The canonical name that is said of its source: that of whose packets these are (RFC 3550, section 6.5.1).
    pub cname: Cname,
    /// Its outgoing sequence numbers.
    pub numbers: Leg,
    /// The last packets that went out on it.
    pub kept: Ring<Readdressed>,
    /// How many packets were handed out on it, repeated ones too, modulo 2^32.
    pub packets: u32,
    /// How many octets their payloads have, modulo 2^32.
    pub octets: u32,
}

/// A count that goes round, once so many more came.
fn counted(count: u32, more: u64) -> u32
    ensures { result ≡ (count + more) % 2 ^ 32 }
{
    ((u64::from(count) + more % COUNTS) % COUNTS) as u32
}

impl LegState {
    ghost use Rattle.legs.specs.Legs.{new_state, handed_out, leg_after_packet};

    /// The leg with this number and this name before its first packet, which keeps so many packets.
    pub(crate) fn new(
        alloc: Global,
        ring: usize,
        number: u16,
        link: &LegSettings,
        cname: &str,
    ) -> Result<LegState, AllocError>
        requires least { 1 ≤ ring }
        requires most { ring ≤ MAX_CAPACITY }
        requires name { length cname.now ≤ CNAME_LIMIT }
        ensures { IfOk result (λ leg. leg ≡ new_state ring number link.now cname.now) }
    {
        Ok(LegState {
            number,
            link: *link,
            cname: Cname::new(alloc, cname)?,
            numbers: Leg::new(link.first_seq),
            kept: Ring::with_capacity(alloc, ring)?,
            packets: 0,
            octets: 0,
        })
    }

    /// A packet with so many octets of payload was handed out.
    pub(crate) fn hand_out(&mut self, octets: u64)
        ensures { self.new ≡ handed_out self.old octets }
    {
        self.packets = counted(self.packets, 1);
        self.octets = counted(self.octets, octets);
    }

    /// A packet was handed out under a new number, and is kept. Answers the one that isn't kept any more for it.
    pub(crate) fn keep(
        &mut self,
        numbers: Leg,
        number: u64,
        octets: u64,
        packet: Readdressed,
    ) -> Option<Readdressed>
        ensures { self.new ≡ leg_after_packet self.old numbers number octets packet }
    {
        self.hand_out(octets);
        self.numbers = numbers;
        let (_, left) = self.kept.keep(number, packet)?;
        Some(left)
    }
}
