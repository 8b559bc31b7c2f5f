//! Chains of packets, through which a packet is found by its sequence number in a bounded number of steps.

ghost use Rattle.std.specs.Prelude.{◌≡◌, ◌≢◌, ◌<◌, ◌≤◌, ◌%◌, ℕ, [], ◌∷◌, length, take, slice_index, IfOk, MatchOption};
ghost use Rattle.resend_ring.specs.Chains.{AreChains, AreLinks, IsChainCount, IsHead, IsFound, IsLatest, IsLatestWith, sequence_numbers};

use crate::packets::{MAX_CAPACITY, Packets, SEQ_CYCLE};
use circular_buffer::HeapCircularBuffer;
use std::alloc::{AllocError, Allocator};

/// The most packets that one chain has.
pub const MAX_CHAIN: usize = 64;

/// How many chains a ring has that keeps up to `MAX_CHAIN` packets.
pub const FEW_CHAINS: usize = 2 * MAX_CHAIN;

/// How many chains a greater ring has: of all sequence numbers `MAX_CHAIN` belong to one.
pub const MANY_CHAINS: usize = SEQ_CYCLE as usize / MAX_CHAIN;

/// The link of the oldest packet of a chain. It leads past every ring.
const END: u16 = u16::MAX;

/// The packets of a ring by their sequence numbers. A place is counted from the newest packet back.
#[derive(Drop)]
pub struct Chains<A: Allocator> {
    /// For each packet, from the newest to the oldest, how far behind it the next of its chain stands.
    pub links: HeapCircularBuffer<u16, A>,
    /// How many packets came so far, modulo 65,536.
    pub clock: u16,
    /// For each chain what the clock was as its newest packet came. That packet may have left since, so
    /// whoever follows a head looks whether the packet there is on the chain.
    pub heads: Vec<u16, A>,
}

/// Where a packet stands.
#[derive(Clone, Copy)]
struct Found {
    /// Its place.
    back: usize,
    /// The place from which a link leads there, unless it is the newest of its chain.
    newer: Option<usize>,
}

impl<A: Allocator> Chains<A> {
    /// The chains of a ring that keeps this many packets, all empty.
    pub fn new(alloc: A, capacity: usize) -> Result<Chains<A>, AllocError>
    where
        A: Clone,
        requires { capacity ≤ MAX_CAPACITY }
        ensures { IfOk result (λ chains. AreChains chains capacity []) }
    {
        let links = HeapCircularBuffer::with_capacity(alloc.clone()?, capacity)?;
        let count = if capacity <= MAX_CHAIN {
            FEW_CHAINS
        } else {
            MANY_CHAINS
        };
        let heads = vec![in alloc; 0; count]?;
        Ok(Chains {
            links,
            clock: 0,
            heads,
        })
    }

    /// Where the latest packet with this sequence number stands.
    pub fn find<T>(&self, packets: &Packets<T, A>, seq: u16) -> Option<usize>
        requires { AreChains self.now packets.now.capacity (sequence_numbers packets.now.items) }
        ensures { let seqs = sequence_numbers packets.now.items in
            MatchOption result ((k : ℕ) → k < length seqs → slice_index seqs k ≢ seq) (IsLatestWith seq seqs) }
    {
        let head = self.head(packets, seq)?;
        let found = self.along(packets, head, seq)?;
        Some(found.back)
    }

    /// Takes in a packet with this sequence number, which becomes the newest. As many packets stay as
    /// there is room for.
    pub fn push<T>(&mut self, packets: &Packets<T, A>, seq: u16)
        requires { AreChains self.old packets.now.capacity (sequence_numbers packets.now.items) }
        ensures { AreChains self.new packets.now.capacity
            (take packets.now.capacity (seq ∷ sequence_numbers packets.now.items)) }
    {
        let link = self.link_past(packets, seq);
        self.links.push_front(link);
        self.clock = self.clock.wrapping_add(1);
        let chain = self.chain(seq);
        self.heads[chain] = self.clock;
    }

    /// The chain of the packets with this sequence number.
    fn chain(&self, seq: u16) -> usize
        requires { IsChainCount (length self.now.heads.items) }
        ensures { result ≡ seq % length self.now.heads.items }
    {
        usize::from(seq) & (self.heads.len() - 1)
    }

    /// Where the newest packet of this sequence number's chain stands.
    fn head<T>(&self, packets: &Packets<T, A>, seq: u16) -> Option<usize>
        requires { AreChains self.now packets.now.capacity (sequence_numbers packets.now.items) }
        ensures { let chains = length self.now.heads.items in let seqs = sequence_numbers packets.now.items in
            MatchOption result ((k : ℕ) → k < length seqs → slice_index seqs k % chains ≢ seq % chains)
            (IsHead chains seq seqs) }
    {
        let chain = self.chain(seq);
        let back = usize::from(self.clock.wrapping_sub(self.heads[chain]));
        let (number, _) = packets.get(back)?;
        if self.chain((number % SEQ_CYCLE) as u16) == chain {
            Some(back)
        } else {
            None
        }
    }

    /// Finds the latest packet with this sequence number, from the head of its chain on.
    fn along<T>(&self, packets: &Packets<T, A>, head: usize, seq: u16) -> Option<Found>
        requires chains { AreChains self.now packets.now.capacity (sequence_numbers packets.now.items) }
        requires head { IsHead (length self.now.heads.items) seq (sequence_numbers packets.now.items) head }
        ensures { let seqs = sequence_numbers packets.now.items in
            MatchOption result ((k : ℕ) → k < length seqs → slice_index seqs k ≢ seq)
            (IsFound (length self.now.heads.items) seq self.now.links.items seqs head) }
    {
        let mut newer = None;
        let mut back = head;
        for _turn in 0..MAX_CHAIN {
            let (number, _) = packets.get(back)?;
            if number % SEQ_CYCLE == u64::from(seq) {
                return Some(Found { back, newer });
            }
            let link = self.links.get(back)?;
            newer = Some(back);
            back += usize::from(*link);
        }
        None
    }

    /// Takes the packet with this sequence number out of its chain, if there is one. Answers the link of
    /// the next packet that comes with it.
    fn link_past<T>(&mut self, packets: &Packets<T, A>, seq: u16) -> u16
        requires { AreChains self.old packets.now.capacity (sequence_numbers packets.now.items) }
        ensures same_heads { self.new.heads ≡ self.old.heads }
        ensures same_clock { self.new.clock ≡ self.old.clock }
        ensures same_capacity { self.new.links.capacity ≡ self.old.links.capacity }
        ensures as_many { length self.new.links.items ≡ length self.old.links.items }
        ensures links { let seqs = seq ∷ sequence_numbers packets.now.items in
            AreLinks (length self.old.heads.items) (IsLatest seqs) (result ∷ self.new.links.items) seqs }
    {
        let Some(head) = self.head(packets, seq) else {
            return END;
        };
        let link = head as u16 + 1;
        let Some(found) = self.along(packets, head, seq) else {
            return link;
        };
        let Some(past) = self.links.get(found.back).copied() else {
            return link;
        };
        let Some(newer) = found.newer else {
            return link.saturating_add(past);
        };
        if let Some(to_found) = self.links.get_mut(newer) {
            *to_found = to_found.saturating_add(past);
        }
        link
    }
}
