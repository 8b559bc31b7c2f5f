//! From which event the last packet of each leg followed.

use std::alloc::{AllocError, Global};
use std::marker::Model;

/// The event from which the last packet of a leg followed: the number of its line, or 0 before the first, and its moment, in
/// milliseconds.
#[derive(Clone, Copy, PartialEq, Eq)]
pub struct LastPacket {
    pub number: u64,
    pub moment: u64,
}

/// The same of each leg, by its number.
#[derive(Drop)]
pub struct LastPackets {
    legs: Vec<LastPacket>,
}

impl Model for LastPackets {
    ghost use Rattle.std.specs.Prelude.{List};
    ghost use Rattle.replay.specs.declared.last_packets.LastPacket.{LastPacket};

    ghost Value = { List LastPacket };

    ghost view = { λ p. p.legs.items };
}

impl LastPackets {
    ghost use Rattle.std.specs.Prelude.{◌≡◌, IfOk, replicate, slice_index_or};
    ghost use Rattle.replay.specs.LastPackets.{no_packet, packets_after};

    /// No packet went out on any of so many legs. Refused for want of memory alone.
    pub fn new(alloc: Global, legs: usize) -> Result<LastPackets, AllocError>
        ensures { IfOk result (λ packets. packets ≡ replicate legs no_packet) }
    {
        let none = LastPacket {
            number: 0,
            moment: 0,
        };
        let legs = vec![in alloc; none; legs]?;
        Ok(LastPackets { legs })
    }

    /// A packet went out on the leg, if there is one.
    pub(crate) fn note(&mut self, leg: Option<u16>, packet: LastPacket)
        ensures { self.new ≡ packets_after self.old leg packet }
    {
        let Some(leg) = leg else {
            return;
        };
        let at = usize::from(leg);
        if at < self.legs.len() {
            self.legs[at] = packet;
        }
    }

    /// The last packet of the leg.
    pub(crate) fn of_leg(&self, leg: u16) -> LastPacket
        ensures { result ≡ slice_index_or self.now leg no_packet }
    {
        match self.legs.get(usize::from(leg)) {
            Some(packet) => *packet,
            None => LastPacket {
                number: 0,
                moment: 0,
            },
        }
    }
}
