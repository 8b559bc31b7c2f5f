//! Who came from nobody's address.

ghost use Rattle.std.specs.Prelude.{◌≡◌, slice_get};
ghost use Rattle.addresses.specs.Strangers.{count_of, place_in};

use std::alloc::{AllocError, Global};
use std::marker::Model;
use std::net::SocketAddr;

/// So many strangers are listed.
pub const MAX_STRANGERS: usize = 16;

/// An address from which datagrams came that are nobody's.
#[derive(Clone, Copy, PartialEq, Eq)]
pub struct Stranger {
    pub address: SocketAddr,
    /// How many came since it is listed.
    pub count: u64,
    /// When the last came, in milliseconds.
    pub moment: u64,
}

/// The strangers who came last, the latest first.
#[derive(Drop)]
pub struct Strangers {
    latest: Vec<Stranger>,
}

impl Model for Strangers {
    ghost use Rattle.std.specs.Prelude.{List};
    ghost use Rattle.addresses.specs.declared.latest.Stranger.{Stranger};

    ghost Value = { List Stranger };

    ghost view = { λ s. s.latest.items };
}

impl Strangers {
    ghost use Rattle.std.specs.Prelude.{◌≡◌, [], OnOk, OnErr};
    ghost use Rattle.addresses.specs.Strangers.{with_stranger};

    /// Nobody came.
    pub fn new(alloc: Global) -> Strangers
        ensures { result ≡ [] }
    {
        Strangers {
            latest: Vec::new(alloc),
        }
    }

    /// A datagram came from this address at this moment, in milliseconds. Who came longest ago is listed no more if there are too many.
    /// Refused for want of memory alone; then nothing was noted.
    pub fn note(&mut self, address: SocketAddr, moment: u64) -> Result<(), AllocError>
        ensures noted { OnOk result
            (self.new ≡ with_stranger ⟦<SocketAddr as PartialEq>⟧.eq self.old address moment) }
        ensures unchanged { OnErr result (self.new ≡ self.old) }
    {
        let place = place_of(self.latest.as_slice(), address);
        let is_known = place < self.latest.len();
        let stranger = Stranger {
            address,
            count: count_at(self.latest.as_slice(), place).saturating_add(1),
            moment,
        };
        self.latest.insert(0, stranger)?;
        if is_known {
            self.latest.remove(place + 1);
        } else {
            self.latest.truncate(MAX_STRANGERS);
        }
        Ok(())
    }

    /// The strangers, the latest first.
    pub fn latest(&self) -> &[Stranger]
        ensures { result.now ≡ self.now }
    {
        self.latest.as_slice()
    }
}

/// The place of an address among them; as many as there are if it isn't.
fn place_of(strangers: &[Stranger], address: SocketAddr) -> usize
    ensures { result ≡ place_in ⟦<SocketAddr as PartialEq>⟧.eq strangers.now address }
{
    for place in 0..strangers.len() {
        if strangers[place].address == address {
            return place;
        }
    }
    strangers.len()
}

/// How many came from the one at this place; 0 of none.
fn count_at(strangers: &[Stranger], place: usize) -> u64
    ensures { result ≡ count_of (slice_get strangers.now place) }
{
    match strangers.get(place) {
        Some(stranger) => stranger.count,
        None => 0,
    }
}
