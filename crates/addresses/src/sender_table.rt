//! Who sent a datagram.

ghost use Rattle.std.specs.Prelude.{◌≡◌, ◌≤◌, ◌<◌, length, IfOk};
ghost use Rattle.addresses.specs.SenderTable.{addresses_of, alone_in, endpoint_named, front_length, is_shared, sender_of};
ghost use Rattle.addresses.specs.EndpointsByKey.{occupants_of};
ghost use Rattle.datagram.specs.Naming.{source_named};

use crate::endpoints_by_key::{EndpointsByKey, Occupants};
use datagram::{first_size, source_named};
use rtcp_compound::is_rtcp;
use std::alloc::{AllocError, Global};
use std::marker::Model;
use std::net::SocketAddr;

/// Where datagrams of an endpoint come from: an address, and the source that they name, any 32 bits.
#[derive(Clone, Copy, PartialEq, Eq, Hash)]
pub struct SourceAddress {
    pub address: SocketAddr,
    pub ssrc: u32,
}

/// What is heard at once at the front of a datagram.
#[derive(Clone, Copy, Debug, PartialEq, Eq)]
pub struct FirstPacket {
    /// Who sent it; `None` for a stranger.
    pub endpoint: Option<u16>,
    /// How many bytes it has. What stands after them is heard by itself.
    pub length: usize,
}

/// The endpoints by where their datagrams come from. Who sent one is found without a pass over all.
#[derive(Drop)]
pub struct SenderTable {
    origins: EndpointsByKey<SourceAddress>,
    addresses: EndpointsByKey<SocketAddr>,
}

impl Model for SenderTable {
    ghost use Rattle.std.specs.Prelude.{◌≡◌, List, ℕ};
    ghost use Rattle.addresses.specs.SenderTable.{addresses_of};
    ghost use Rattle.addresses.specs.declared.sender_table.SourceAddress.{SourceAddress as SentFrom};

    ghost Value = { List (SentFrom × ℕ) };

    ghost view = { λ s. s.origins };

    ghost invariant = { λ s. s.addresses ≡ addresses_of s.origins };
}

impl SenderTable {
    /// Those whose datagrams come from these origins, each with the number of its endpoint. Refused for want of memory alone.
    pub fn new(alloc: Global, entries: &[(SourceAddress, u16)]) -> Result<SenderTable, AllocError>
        ensures { IfOk result (λ senders. senders ≡ entries.now) }
    {
        let mut origins = EndpointsByKey::new(alloc);
        let mut addresses = EndpointsByKey::new(alloc);
        for entry in entries {
            origins.push(entry.0, entry.1)?;
            addresses.push(entry.0.address, entry.1)?;
        }
        Ok(SenderTable { origins, addresses })
    }

    /// Who sent a datagram that came from this address and names this source: the endpoint with that origin; else the one that is
    /// alone at the address, whatever it names.
    pub fn sender(&self, address: SocketAddr, source: Option<u32>) -> Option<u16>
        ensures { result ≡ sender_of ⟦<SourceAddress as PartialEq>⟧.eq ⟦<SocketAddr as PartialEq>⟧.eq
            self.now address source }
    {
        match self.named(address, source) {
            Some(endpoint) => Some(endpoint),
            None => alone(self.addresses.at(address)),
        }
    }

    /// What is heard at once at the front of a datagram from this address, and who sent it. RTCP from an address that several
    /// endpoints share is heard packet by packet, since each may be of another one; anything else as a whole.
    pub fn front(&self, address: SocketAddr, datagram: &[u8]) -> FirstPacket
        ensures sender { result.endpoint
            ≡ sender_of ⟦<SourceAddress as PartialEq>⟧.eq ⟦<SocketAddr as PartialEq>⟧.eq self.now address
            (source_named datagram.now) }
        ensures size { result.length
            ≡ front_length ⟦<SocketAddr as PartialEq>⟧.eq self.now address datagram.now }
        ensures within { result.length ≤ length datagram.now }
        ensures goes_on { 0 < length datagram.now → 0 < result.length }
    {
        FirstPacket {
            endpoint: self.sender(address, source_named(datagram)),
            length: self.front_length(address, datagram),
        }
    }

    /// How many bytes are heard at once.
    fn front_length(&self, address: SocketAddr, datagram: &[u8]) -> usize
        ensures size { result
            ≡ front_length ⟦<SocketAddr as PartialEq>⟧.eq self.now address datagram.now }
        ensures within { result ≤ length datagram.now }
        ensures goes_on { 0 < length datagram.now → 0 < result }
    {
        if is_rtcp(datagram) && self.is_shared(address) {
            first_size(datagram)
        } else {
            datagram.len()
        }
    }

    /// Whether several endpoints are at this address.
    fn is_shared(&self, address: SocketAddr) -> bool
        ensures { result
            ≡ is_shared (occupants_of ⟦<SocketAddr as PartialEq>⟧.eq (addresses_of self.now) address) }
    {
        matches!(self.addresses.at(address), Some(Occupants::Several))
    }

    /// The endpoint with this origin.
    fn named(&self, address: SocketAddr, source: Option<u32>) -> Option<u16>
        ensures { result ≡ endpoint_named ⟦<SourceAddress as PartialEq>⟧.eq self.now address source }
    {
        match source {
            Some(ssrc) => alone(self.origins.at(SourceAddress { address, ssrc })),
            None => None,
        }
    }
}

/// The endpoint that is alone there.
fn alone(occupants: Option<Occupants>) -> Option<u16>
    ensures { result ≡ alone_in occupants }
{
    match occupants {
        Some(Occupants::Alone(endpoint)) => Some(endpoint),
        Some(Occupants::Several) => None,
        None => None,
    }
}
