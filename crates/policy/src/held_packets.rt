//! Packets that are held, since their sources may have begun anew.
ghost use Rattle.std.specs.Prelude.{◌≡◌, ◌⊎◌, []};

use std::alloc::{AllocError, Global};
use std::marker::Model;

/// The last far packet of each endpoint, by its number; empty if there is none, or no memory for it.
#[derive(Drop)]
pub struct HeldPackets {
    odd: Vec<Vec<u8>>,
}

impl Model for HeldPackets {
    ghost use Rattle.std.specs.Prelude.{ℕ, List};
    ghost use Rattle.policy.specs.HeldPackets.{packets_of};

    ghost Value = { List (List ℕ) };

    ghost view = { λ p. packets_of p.odd.items };
}

impl HeldPackets {
    ghost use Rattle.std.specs.Prelude.{◌≡◌, ◌⊎◌, [], IfOk, replicate, slice_get, slice_set, unwrap_or};

    /// Nothing of so many endpoints.
    pub fn new(alloc: Global, endpoints: usize) -> Result<HeldPackets, AllocError>
        ensures { IfOk result (λ p. p ≡ replicate endpoints []) }
    {
        let mut odd = Vec::with_capacity(alloc, endpoints)?;
        for _endpoint in 0..endpoints {
            odd.push(Vec::new(alloc))?;
        }
        Ok(HeldPackets { odd })
    }

    /// Puts a far packet of the endpoint by, in place of the one before; if there is no memory for it, there is none.
    pub fn keep(&mut self, endpoint: u16, packet: &[u8])
        ensures { (self.new ≡ slice_set self.old endpoint packet.now)
            ⊎ (self.new ≡ slice_set self.old endpoint []) }
    {
        let at = usize::from(endpoint);
        if at < self.odd.len() {
            copy(&mut self.odd[at], packet);
        }
    }

    /// The last far packet of the endpoint; empty if there is none.
    pub fn at(&self, endpoint: u16) -> &[u8]
        ensures { result.now ≡ unwrap_or (slice_get self.now endpoint) [] }
    {
        match self.odd.get(usize::from(endpoint)) {
            Some(odd) => odd.as_slice(),
            None => &[],
        }
    }
}

/// Writes bytes in place of those that stand there; none if there is no memory for them.
fn copy(odd: &mut Vec<u8>, packet: &[u8])
    ensures { (odd.new.items ≡ packet.now) ⊎ (odd.new.items ≡ []) }
{
    odd.clear();
    if odd.extend_from_slice(packet).is_err() {
        odd.clear();
    }
}
