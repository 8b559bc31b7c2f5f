//! Who is at a key, found without a pass over all.

ghost use Rattle.std.specs.Prelude.{◌≡◌, ◌∷◌, ◌++◌, [], OnOk, OnErr};
ghost use Rattle.addresses.specs.EndpointsByKey.{beside, occupants_of};

use std::alloc::{AllocError, Global};
use std::collections::HashMap;
use std::hash::Hash;
use std::marker::Model;

/// Who is at a key.
#[derive(Clone, Copy, Debug, PartialEq, Eq)]
pub enum Occupants {
    /// The endpoint with this number, and no other.
    Alone(u16),
    /// Two endpoints or more.
    Several,
}

/// Who is there once this endpoint came, too.
fn beside(before: Option<Occupants>, endpoint: u16) -> Occupants
    ensures { result ≡ beside before endpoint }
{
    match before {
        None => Occupants::Alone(endpoint),
        Some(Occupants::Alone(other)) => {
            if other == endpoint {
                Occupants::Alone(other)
            } else {
                Occupants::Several
            }
        }
        Some(Occupants::Several) => Occupants::Several,
    }
}

/// Endpoints at keys, in the order in which they came. Who is at a key is found without a pass over all.
#[derive(Drop)]
pub struct EndpointsByKey<K: Copy + Eq + Hash> {
    entries: Vec<(K, u16)>,
    occupants: HashMap<K, Occupants>,
}

impl<K: Copy + Eq + Hash> Model for EndpointsByKey<K> {
    ghost use Rattle.std.specs.Prelude.{◌≡◌, List, ℕ};
    ghost use Rattle.std.specs.HashMap.{get};
    ghost use Rattle.addresses.specs.EndpointsByKey.{occupants_of};

    ghost Value = { List (K × ℕ) };

    ghost view = { λ o. o.entries.items };

    ghost invariant = { λ o. (key : K)
        → get K.eq o.occupants key ≡ occupants_of K.eq o.entries.items key };
}

impl<K: Copy + Eq + Hash> EndpointsByKey<K> {
    /// Nobody is anywhere.
    pub fn new(alloc: Global) -> EndpointsByKey<K>
        ensures { result ≡ [] }
    {
        EndpointsByKey {
            entries: Vec::new(alloc),
            occupants: HashMap::new(alloc),
        }
    }

    /// The endpoint with this number is at this key, too. Refused for want of memory alone; then all is as it was.
    pub fn push(&mut self, key: K, endpoint: u16) -> Result<(), AllocError>
        ensures ok { OnOk result (self.new ≡ self.old ++ (key, endpoint) ∷ []) }
        ensures unchanged { OnErr result (self.new ≡ self.old) }
    {
        let occupants = beside(self.occupants.get(&key).copied(), endpoint);
        let Ok(()) = self.entries.push((key, endpoint)) else {
            return Err(AllocError);
        };
        let Ok(_) = self.occupants.insert(key, occupants) else {
            let _ = self.entries.pop();
            return Err(AllocError);
        };
        Ok(())
    }

    /// Who is at the key; `None` if nobody is.
    pub fn at(&self, key: K) -> Option<Occupants>
        ensures { result ≡ occupants_of K.eq self.now key }
    {
        self.occupants.get(&key).copied()
    }
}
