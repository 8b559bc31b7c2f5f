//! The bytes of a datagram that many hold.

ghost use Rattle.std.specs.Prelude.{◌≡◌, [], IfOk, IfSome};

use std::alloc::{AllocError, Global};
use std::marker::Model;
use std::sync::Arc;

/// The bytes of a datagram, kept once for all that hold them: jobs of several workers, and packets that legs keep. Contracts see
/// them as a list. The last holder that lets go of them frees them.
#[derive(Drop)]
pub struct SharedBytes {
    /// Where they are; `None` of no bytes.
    bytes: Option<Arc<Vec<u8>>>,
}

impl Model for SharedBytes {
    ghost use Rattle.std.specs.Prelude.{List, ℕ};
    ghost use Rattle.shared_packet.specs.Shared.{shared_bytes};

    ghost Value = { List ℕ };

    ghost view = { λ s. shared_bytes s.bytes };
}

impl SharedBytes {
    /// No bytes.
    pub fn none() -> SharedBytes
        ensures { result ≡ [] }
    {
        SharedBytes { bytes: None }
    }

    /// These bytes, which aren't copied.
    pub fn new(alloc: Global, bytes: Vec<u8>) -> Result<SharedBytes, AllocError>
        ensures { IfOk result (λ shared. shared ≡ bytes.items) }
    {
        Ok(SharedBytes {
            bytes: Some(Arc::new(alloc, bytes)?),
        })
    }

    /// A copy of these bytes.
    pub fn copy_of(alloc: Global, bytes: &[u8]) -> Result<SharedBytes, AllocError>
        ensures { IfOk result (λ shared. shared ≡ bytes.now) }
    {
        SharedBytes::new(alloc, bytes.to_vec(alloc)?)
    }

    /// The same bytes for one holder more; no byte is copied, unless they have as many holders as can be counted. Refused for want of
    /// memory alone.
    pub fn share(&self) -> Result<SharedBytes, AllocError>
        ensures { IfOk result (λ shared. shared ≡ self.now) }
    {
        let Some(bytes) = &self.bytes else {
            return Ok(SharedBytes::none());
        };
        match Arc::try_clone(bytes) {
            Ok(held) => Ok(SharedBytes { bytes: Some(held) }),
            Err(_) => SharedBytes::copy_of(*bytes.allocator(), bytes.as_slice()),
        }
    }

    /// These bytes.
    pub fn as_slice(&self) -> &[u8]
        ensures { result.now ≡ self.now }
    {
        match &self.bytes {
            Some(bytes) => bytes.as_slice(),
            None => &[],
        }
    }

    /// The same, if nobody else holds them any more.
    pub fn alone(self) -> Option<SharedBytes>
        ensures { IfSome result (λ alone. alone ≡ self) }
    {
        let holders = match &self.bytes {
            Some(bytes) => Arc::strong_count(bytes),
            None => 0,
        };
        if holders == 1 { Some(self) } else { None }
    }

    /// These bytes in the memory of those, if nobody else holds them; `None` if others do.
    pub fn refill(self, bytes: &[u8]) -> Result<Option<SharedBytes>, AllocError>
        ensures { IfOk result (λ filled. IfSome filled (λ shared. shared ≡ bytes.now)) }
    {
        let SharedBytes { bytes: Some(held) } = self else {
            return Ok(None);
        };
        let mut held = held;
        if let Some(memory) = Arc::get_mut(&mut held) {
            memory.clear();
            memory.extend_from_slice(bytes)?;
            return Ok(Some(SharedBytes { bytes: Some(held) }));
        }
        Ok(None)
    }
}
