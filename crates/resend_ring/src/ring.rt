//! A ring of kept packets.

ghost use Rattle.std.specs.Prelude.{◌≡◌, ◌≤◌, [], ◌∷◌, ◌++◌, IfOk, option_map, option_copied};
ghost use Rattle.std.specs.Option.{option_to_list};
ghost use Rattle.circular_buffer.specs.Buffer.{keep_last};

use crate::NoMemory;
use crate::chains::Chains;
use crate::packets::{MAX_CAPACITY, Packets, SEQ_CYCLE};
use circular_buffer::HeapCircularBuffer;
use std::alloc::{Allocator, Global};
use std::marker::Model;

/// The last packets of a leg, each with its outgoing number: their bytes, or whatever stands for them.
#[derive(Drop)]
pub struct Ring<T = Vec<u8>, A: Allocator = Global> {
    packets: Packets<T, A>,
    /// The same packets by their sequence numbers.
    chains: Chains<A>,
}

impl<T, A: Allocator> Model for Ring<T, A> {
    ghost use Rattle.std.specs.Prelude.{◌≤◌, map, reverse};
    ghost use Rattle.resend_ring.specs.Kept.{Kept, sent_packet};
    ghost use Rattle.resend_ring.specs.Chains.{AreChains, sequence_numbers};

    ghost Value = { Kept T };

    ghost view = { λ r. record {
      capacity = r.packets.capacity;
      items = reverse (map sent_packet r.packets.items);
    } };

    ghost invariant = { λ r. (1 ≤ r.packets.capacity)
        × AreChains r.chains r.packets.capacity (sequence_numbers r.packets.items) };
}

impl<T: Drop, A: Allocator> Ring<T, A> {
    ghost use Rattle.resend_ring.specs.Kept.{sent_packet, last_kept_with};

    /// An empty ring that keeps this many packets, from 1 to `MAX_CAPACITY`, as whatever the caller has.
    pub fn with_capacity(alloc: A, capacity: usize) -> Result<Ring<T, A>, NoMemory>
    where
        A: Clone,
        requires least { 1 ≤ capacity }
        requires most { capacity ≤ MAX_CAPACITY }
        ensures { IfOk result (λ ring. ring ≡ record { capacity = capacity; items = [] }) }
    {
        let packets = HeapCircularBuffer::with_capacity(alloc.clone()?, capacity)?;
        let chains = Chains::new(alloc, capacity)?;
        Ok(Ring { packets, chains })
    }

    /// Keeps a packet as the newest. Answers the packet that it pushed out, the oldest of a full ring.
    pub fn keep(&mut self, number: u64, packet: T) -> Option<(u64, T)>
        ensures kept { self.new ≡ record self.old {
          items = keep_last self.old.capacity
              (self.old.items ++ record { number = number; packet = packet } ∷ []);
        } }
        ensures left { self.old.items ++ record { number = number; packet = packet } ∷ []
            ≡ option_to_list (option_map sent_packet result) ++ self.new.items }
    {
        self.chains.push(&self.packets, (number % SEQ_CYCLE) as u16);
        self.packets.push_front((number, packet))
    }

    /// The latest packet kept whose number has these low 16 bits.
    pub fn latest(&self, seq: u16) -> Option<&T>
        ensures { option_copied result ≡ last_kept_with self.now.items seq }
    {
        let back = self.chains.find(&self.packets, seq)?;
        let (_, packet) = self.packets.get(back)?;
        Some(packet)
    }
}

impl<A: Allocator> Ring<Vec<u8>, A> {
    ghost use Rattle.std.specs.Prelude.{◌≡◌, ◌≤◌, [], IfOk, option_map, option_copied};
    ghost use Rattle.resend_ring.specs.Kept.{last_kept_with};

    /// An empty ring that keeps the bytes of this many packets, from 1 to `MAX_CAPACITY`.
    pub fn new(alloc: A, capacity: usize) -> Result<Ring<Vec<u8>, A>, NoMemory>
    where
        A: Clone,
        requires least { 1 ≤ capacity }
        requires most { capacity ≤ MAX_CAPACITY }
        ensures { IfOk result (λ ring. ring ≡ record { capacity = capacity; items = [] }) }
    {
        Ring::with_capacity(alloc, capacity)
    }

    /// The bytes of the latest packet kept whose number has these low 16 bits.
    pub fn find(&self, seq: u16) -> Option<&[u8]>
        ensures { option_copied result ≡ option_map (λ bytes. bytes.items) (last_kept_with self.now.items seq) }
    {
        match self.latest(seq) {
            Some(bytes) => Some(bytes.as_slice()),
            None => None,
        }
    }
}
