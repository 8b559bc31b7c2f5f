//! What a job is about to do on the legs of a worker.

ghost use Rattle.std.specs.Prelude.{◌≡◌, ◌-◌, ◌+◌, ◌<◌, ◌≤◌, ◌++◌, ◌∷◌, [], length, take, slice_index_or, vec_len, vec_capacity, ℕ, IfOk, OnOk, OnErr};
ghost use Rattle.std.specs.Global.{Vec as Buffer};
ghost use Rattle.legs.specs.Legs.{leg_after_packet, handed_out};
ghost use Rattle.legs.specs.Plan.{changed_at, changed_by, legs_after_plan, plan_outs};

use crate::leg::LegState;
use events::Out;
use rewrite::Leg;
use shared_packet::{Readdressed, SharedBytes};
use std::alloc::{AllocError, Global};
use std::marker::Model;

/// The most buffers that are kept for what goes out next.
const SPARE_LIMIT: usize = 1_024;

/// The most that are kept for packets that come: each that comes lets one go, once rings are full.
const SPARE_PACKETS: usize = 16;

/// One thing that is planned.
#[derive(Drop)]
pub struct Planned {
    /// What is given out.
    pub out: Out,
    /// What becomes of the legs.
    pub change: Change,
}

/// What becomes of a worker's legs. The place of a leg is the one among them.
#[derive(Drop)]
pub enum Change {
    /// They stay as they are.
    Nothing,
    /// The leg at this place keeps a packet that goes out under a new number, and counts it.
    Keep {
        place: u16,
        /// The leg's numbers from then on.
        numbers: Leg,
        number: u64,
        /// The octets of its payload.
        octets: u64,
        packet: Readdressed,
    },
    /// The leg at this place counts a packet that goes out again, with so many octets of payload.
    Count {
        place: u16,
        octets: u64,
    },
}

/// A plan: what is planned, in order. It takes its bytes from buffers that were used before.
#[derive(Drop)]
pub struct Plan {
    planned: Vec<Planned>,
    /// Buffers of what went out, which nobody needs; a plan is the same whatever they are.
    spare: Vec<Vec<u8>>,
    /// Packets that nobody else holds, since no leg keeps them any more.
    spare_packets: Vec<SharedBytes>,
}

impl Model for Plan {
    ghost use Rattle.std.specs.Prelude.{List};
    ghost use Rattle.legs.specs.declared.plan.Planned.{Planned};

    ghost Value = { List Planned };

    ghost view = { λ p. p.planned.items };
}

/// A packet goes out on the leg at a place, if there is one. Answers the one that isn't kept any more for it.
fn keep_at(
    legs: &mut [LegState],
    place: usize,
    numbers: Leg,
    number: u64,
    octets: u64,
    packet: Readdressed,
) -> Option<Readdressed>
    ensures { legs.new
        ≡ changed_at legs.old place (λ s. leg_after_packet s numbers number octets packet) }
{
    if place < legs.len() {
        legs[place].keep(numbers, number, octets, packet)
    } else {
        None
    }
}

/// A packet goes out again on the leg at a place, if there is one.
fn hand_out_at(legs: &mut [LegState], place: usize, octets: u64)
    ensures { legs.new ≡ changed_at legs.old place (λ s. handed_out s octets) }
{
    if place < legs.len() {
        legs[place].hand_out(octets);
    }
}

/// Makes one change on these legs. Answers the packet that isn't kept any more for it.
fn make(change: Change, legs: &mut [LegState]) -> Option<Readdressed>
    ensures { legs.new ≡ changed_by legs.old change }
{
    match change {
        Change::Nothing => None,
        Change::Keep {
            place,
            numbers,
            number,
            octets,
            packet,
        } => keep_at(legs, usize::from(place), numbers, number, octets, packet),
        Change::Count { place, octets } => {
            hand_out_at(legs, usize::from(place), octets);
            None
        }
    }
}

/// Puts a buffer by for the next packet, if there is room for it.
fn save(spare: &mut Vec<Vec<u8>>, buffer: Vec<u8>)
    ensures { vec_len spare.old < vec_capacity spare.old → vec_len spare.old < SPARE_LIMIT
        → spare.new.items ≡ spare.old.items ++ buffer ∷ [] }
{
    if spare.len() < SPARE_LIMIT {
        let _ = spare.push(buffer);
    }
}

/// Puts a packet by if it is one, nobody else holds it, and there is room for it.
fn save_packet(spare: &mut Vec<SharedBytes>, packet: Option<Readdressed>) {
    let Some(packet) = packet else {
        return;
    };
    if let Some(bytes) = packet.into_packet().alone() {
        if spare.len() < SPARE_PACKETS {
            let _ = spare.push(bytes);
        }
    }
}

/// The buffer that was put by last, which is then no spare one; a new one if there is none.
fn taken(spare: &mut Vec<Vec<u8>>, alloc: Global) -> Vec<u8>
    ensures last { (d : Buffer ℕ) → 0 < vec_len spare.old
        → result ≡ slice_index_or spare.old.items (vec_len spare.old - 1) d }
    ensures rest { spare.new.items ≡ take (vec_len spare.old - 1) spare.old.items }
{
    match spare.pop() {
        Some(buffer) => buffer,
        None => Vec::new(alloc),
    }
}

impl Plan {
    /// Nothing is planned.
    pub fn new(alloc: Global) -> Plan
        ensures { result ≡ [] }
    {
        Plan {
            planned: Vec::new(alloc),
            spare: Vec::new(alloc),
            spare_packets: Vec::new(alloc),
        }
    }

    /// How much is planned.
    pub(crate) fn len(&self) -> usize
        ensures { result ≡ length self.now }
    {
        self.planned.len()
    }

    /// Nothing is planned any more.
    pub(crate) fn clear(&mut self)
        ensures { self.new ≡ [] }
    {
        self.planned.clear();
    }

    /// One thing more is planned.
    pub(crate) fn push(&mut self, planned: Planned) -> Result<(), AllocError>
        ensures ok { OnOk result (self.new ≡ self.old ++ planned ∷ []) }
        ensures err { OnErr result (self.new ≡ self.old) }
    {
        self.planned.push(planned)?;
        Ok(())
    }

    /// A buffer of so many bytes, whatever they are.
    pub(crate) fn buffer(&mut self, alloc: Global, size: usize) -> Result<Vec<u8>, AllocError>
        ensures size { IfOk result (λ buffer. length buffer.items ≡ size) }
        ensures plan { self.new ≡ self.old }
    {
        let mut buffer = taken(&mut self.spare, alloc);
        buffer.resize(size, 0)?;
        Ok(buffer)
    }

    /// Makes on these legs the changes that are planned, appends what is given out, and plans nothing any more.
    pub(crate) fn apply_to(&mut self, legs: &mut [LegState], outs: &mut Vec<Out>)
        requires room { vec_len outs.old + length self.old ≤ vec_capacity outs.old }
        ensures legs { legs.new ≡ legs_after_plan legs.old self.old }
        ensures outs { outs.new.items ≡ outs.old.items ++ plan_outs self.old }
        ensures done { self.new ≡ [] }
    {
        self.planned.reverse();
        while let Some(planned) = self.planned.pop() {
            let Planned { out, change } = planned;
            let left = make(change, legs);
            save_packet(&mut self.spare_packets, left);
            outs.push_reserved(out);
        }
    }

    /// Takes back the buffers of what was given out, for the next packets: nothing is left of that.
    pub fn take_back(&mut self, outs: &mut Vec<Out>)
        ensures plan { self.new ≡ self.old }
        ensures none { outs.new.items ≡ [] }
    {
        while let Some(out) = outs.pop() {
            if let Out::Send { bytes, .. } = out {
                save(&mut self.spare, bytes.into_vec());
            }
        }
    }

    /// A copy of a packet that came, in the memory of the former one, if nobody else holds that, or of one that no leg keeps any more. Refused
    /// for want of memory alone.
    pub fn copy_packet(
        &mut self,
        alloc: Global,
        bytes: &[u8],
        former: SharedBytes,
    ) -> Result<SharedBytes, AllocError>
        ensures copy { IfOk result (λ copy. copy ≡ bytes.now) }
        ensures plan { self.new ≡ self.old }
    {
        let spare = match former.alone() {
            Some(former) => Some(former),
            None => self.spare_packets.pop(),
        };
        if let Some(spare) = spare {
            if let Some(copy) = spare.refill(bytes)? {
                return Ok(copy);
            }
        }
        SharedBytes::copy_of(alloc, bytes)
    }
}
