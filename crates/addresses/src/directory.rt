//! Where datagrams for endpoints go, and under which names their clients are told of themselves, for each thread that sends.

ghost use Rattle.std.specs.Prelude.{◌≡◌, map, IfOk};
ghost use Rattle.addresses.specs.Places.{fixed_at, fixed_in, is_learned_sign, learns_at};

use crate::clients::{Addresses, Client, Location};
use crate::learned_address::{Kind, LearnedAddress};
use seats::Names;
use std::alloc::{AllocError, Global};
use std::net::SocketAddr;
use std::sync::RwLock;
use tmmbr_tuple::Ssrc;

/// So often somebody who sends looks at a seat that is being changed, before the datagram is given up.
const LOOKS: u32 = 1000;

/// Where each endpoint is, by its number, and under which names its client is told of itself. The thread that receives changes where endpoints
/// were learned to be, and which names; all threads that send look there, and wait for nobody.
#[derive(Drop)]
pub struct Directory {
    entries: Vec<Entry>,
    signs: Vec<Sign>,
}

/// Where an endpoint is.
#[derive(Drop)]
enum Entry {
    Fixed(Addresses),
    Learned(RwLock<LearnedAddress>),
}

/// Under which names the client of an endpoint is told of itself.
#[derive(Drop)]
enum Sign {
    /// Under the endpoint's own, as it is given out.
    Given,
    /// Under those that were learned.
    Learned(RwLock<Names>),
}

/// Under which names a client is told of itself.
#[derive(Clone, Copy, PartialEq, Eq)]
pub enum Naming {
    /// As it is given out.
    Given,
    /// Under its own.
    Own(Names),
    /// That is being changed just now.
    Changing,
}

impl Naming {
    ghost use Rattle.std.specs.Prelude.{◌≡◌};
    ghost use Rattle.addresses.specs.Places.{asker_in, sender_in};

    /// Under which SSRC the client sends, if that is learned and known.
    pub fn sends(self) -> Option<Ssrc>
        ensures { result ≡ sender_in self }
    {
        match self {
            Naming::Own(names) => names.sends,
            Naming::Given | Naming::Changing => None,
        }
    }

    /// Under which it asked last, if that is learned and known.
    pub fn asks(self) -> Option<Ssrc>
        ensures { result ≡ asker_in self }
    {
        match self {
            Naming::Own(names) => names.asks,
            Naming::Given | Naming::Changing => None,
        }
    }
}

impl Directory {
    ghost use Rattle.std.specs.Prelude.{◌≡◌, ◌≤◌, ℕ, false, None, Some, length, map, slice_get, IfOk};
    ghost use Rattle.addresses.specs.Places.{fixed_at, fixed_in, is_learned_sign, learns_at, place_for};
    ghost use Rattle.addresses.specs.declared.clients.Addresses.{Addresses as Places};
    ghost use Rattle.addresses.specs.declared.directory.Entry.TheVariants.{Fixed};
    ghost use Rattle.addresses.specs.declared.directory.Naming.{Naming as Named};
    ghost use Rattle.addresses.specs.declared.directory.Naming.TheVariants as naming;
    ghost use Rattle.addresses.specs.declared.directory.Sign.TheVariants as sign;

    /// The endpoints with these sources and these clients. Nothing is learned yet.
    pub fn new(alloc: Global, sources: &[Ssrc], clients: &[Client]) -> Result<Directory, AllocError>
        ensures places { IfOk result (λ directory. map fixed_in directory.entries.items
            ≡ map fixed_at clients.now) }
        ensures signs { IfOk result (λ directory. map is_learned_sign directory.signs.items
            ≡ map learns_at clients.now) }
    {
        Ok(Directory {
            entries: entries_of(alloc, clients)?,
            signs: signs_of(alloc, sources, clients)?,
        })
    }

    /// Under which names the client of an endpoint is told of itself.
    pub fn naming(&self, endpoint: u16) -> Naming
        ensures given { slice_get self.now.signs.items endpoint ≡ Some sign.Given
            → result ≡ naming.Given }
        ensures absent { length self.now.signs.items ≤ endpoint → result ≡ naming.Given }
    {
        let Some(Sign::Learned(names)) = self.signs.get(usize::from(endpoint)) else {
            return Naming::Given;
        };
        match names_in(names) {
            Some(names) => Naming::Own(names),
            None => Naming::Changing,
        }
    }

    /// The endpoint's client has these names from now on, if they are learned. Whether all see that: else somebody looked just now.
    pub fn show(&self, endpoint: u16, names: Names) -> bool
        ensures given { slice_get self.now.signs.items endpoint ≡ Some sign.Given
            → result ≡ false }
        ensures absent { length self.now.signs.items ≤ endpoint → result ≡ false }
    {
        let Some(Sign::Learned(lock)) = self.signs.get(usize::from(endpoint)) else {
            return false;
        };
        match lock.try_write() {
            Some(mut held) => {
                *held = names;
                true
            }
            None => false,
        }
    }

    /// Where what is of this kind goes, if that is known.
    pub fn address(&self, endpoint: u16, kind: Kind) -> Option<SocketAddr>
        ensures fixed { (places : Places)
            → slice_get self.now.entries.items endpoint ≡ Some (Fixed places)
            → result ≡ Some (place_for kind places) }
        ensures absent { length self.now.entries.items ≤ endpoint → result ≡ None }
    {
        match self.entries.get(usize::from(endpoint))? {
            Entry::Fixed(addresses) => match kind {
                Kind::Rtp => Some(addresses.media),
                Kind::Rtcp => Some(addresses.rtcp),
            },
            Entry::Learned(seat) => seat_in(seat)?.address(kind),
        }
    }

    /// The endpoint is there from now on, if its address is learned. Whether all see that: else somebody looked just now.
    pub fn sit(&self, endpoint: u16, seat: LearnedAddress) -> bool
        ensures fixed { (places : Places)
            → slice_get self.now.entries.items endpoint ≡ Some (Fixed places) → result ≡ false }
        ensures absent { length self.now.entries.items ≤ endpoint → result ≡ false }
    {
        let Some(Entry::Learned(lock)) = self.entries.get(usize::from(endpoint)) else {
            return false;
        };
        match lock.try_write() {
            Some(mut held) => {
                *held = seat;
                true
            }
            None => false,
        }
    }
}

/// Where each of these clients is.
fn entries_of(alloc: Global, clients: &[Client]) -> Result<Vec<Entry>, AllocError>
    ensures { IfOk result (λ entries. map fixed_in entries.items ≡ map fixed_at clients.now) }
{
    let mut entries = Vec::with_capacity(alloc, clients.len())?;
    for client in clients {
        entries.push(entry_of(*client))?;
    }
    Ok(entries)
}

/// Where a client is, of whom nothing is learned yet.
fn entry_of(client: Client) -> Entry
    ensures { fixed_in result ≡ fixed_at client }
{
    match client.location {
        Location::Fixed(addresses) => Entry::Fixed(addresses),
        Location::Learned(_) => Entry::Learned(RwLock::new(LearnedAddress::empty())),
    }
}

/// Under which names each of these clients is told of itself. None is learned yet.
fn signs_of(alloc: Global, sources: &[Ssrc], clients: &[Client]) -> Result<Vec<Sign>, AllocError>
    ensures { IfOk result (λ signs. map is_learned_sign signs.items ≡ map learns_at clients.now) }
{
    let mut signs = Vec::with_capacity(alloc, clients.len())?;
    for (number, client) in clients.iter().enumerate() {
        signs.push(sign_of(sources.get(number).copied(), *client))?;
    }
    Ok(signs)
}

/// Under which names a client is told of itself whose seat has this name.
fn sign_of(source: Option<Ssrc>, client: Client) -> Sign
    ensures { is_learned_sign result ≡ learns_at client }
{
    if client.learns_ssrc {
        Sign::Learned(RwLock::new(Names::of_seat(source.unwrap_or(Ssrc(0)))))
    } else {
        Sign::Given
    }
}

/// The names that are learned.
fn names_in(lock: &RwLock<Names>) -> Option<Names> {
    for _look in 0..LOOKS {
        if let Some(names) = lock.try_read() {
            return Some(*names);
        }
    }
    None
}

/// What is known of a seat.
fn seat_in(lock: &RwLock<LearnedAddress>) -> Option<LearnedAddress> {
    for _look in 0..LOOKS {
        if let Some(seat) = lock.try_read() {
            return Some(*seat);
        }
    }
    None
}
