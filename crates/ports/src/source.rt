//! Where datagrams come from.

ghost use Rattle.std.specs.Prelude.{◌≡◌, ◌<◌, ◌≤◌, length, take, IfNone, IfSome};

use thiserror::Error;

/// The longest datagram in bytes.
pub const MAX_DATAGRAM: usize = 65_535;

/// So many receives that fail in a row end a run.
pub const MAX_FAULTS: u64 = 100;

/// A datagram couldn't be received.
#[derive(Clone, Copy, Debug, PartialEq, Eq, Error)]
#[error("a receive failed")]
pub struct ReceiveFault;

/// Where datagrams come from.
pub trait Source {
    ghost use Rattle.std.specs.Prelude.{◌≡◌, ◌≤◌, ◌+◌, ℕ, length, IfOk, IfSome, OnOk, OnErr};

    /// How many receives failed. A count that can't rise any more answers Ok.
    ghost failures: { Self → ℕ };

    /// The endpoint whose datagram came, by its number, and how many bytes of it stand at the beginning of `out`; `None` if nothing came.
    fn receive(&mut self, out: &mut [u8]) -> Result<Option<(u16, usize)>, ReceiveFault>
        ensures within { IfOk result (λ came. IfSome came (λ c. c.1 ≤ length out.new)) }
        ensures ok { OnOk result (failures self.new ≡ failures self.old) }
        ensures err { OnErr result (failures self.new ≡ failures self.old + 1) };
}

/// Writes the bytes of a datagram to the beginning of `out`, and says how many; `None` if there is no room, and then nothing is written.
pub fn written(bytes: &[u8], out: &mut [u8]) -> Option<usize>
    ensures none { IfNone result (length out.old < length bytes.now) }
    ensures unchanged { IfNone result (out.new ≡ out.old) }
    ensures within { IfSome result (λ written. written ≤ length out.new) }
    ensures size { IfSome result (λ written. written ≡ length bytes.now) }
    ensures bytes { IfSome result (λ written. take written out.new ≡ bytes.now) }
{
    if out.len() < bytes.len() {
        return None;
    }
    out[..bytes.len()].copy_from_slice(bytes);
    Some(bytes.len())
}
