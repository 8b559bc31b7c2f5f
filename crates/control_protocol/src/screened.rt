//! The line of `counts` that says what was kept from the machine.

ghost use Rattle.std.specs.Prelude.{◌≡◌, IfOk};
ghost use Rattle.std.specs.String.{string_bytes};
ghost use Rattle.control_protocol.specs.Screened.{screened_line};

use std::alloc::{AllocError, Global};

/// What came from endpoints and was kept from the machine, and how much of its time.
#[derive(Clone, Copy, PartialEq, Eq)]
pub struct Screened {
    /// Packets whose number was far from the highest of their source.
    pub far: u64,
    /// Packets that were NACKed too soon, or too many.
    pub held: u64,
    /// Datagrams beyond the limit of their endpoint.
    pub flooded: u64,
    /// Entries of feedback beyond those that may be asked for in a datagram.
    pub beyond: u64,
    /// Milliseconds that went by and weren't lived.
    pub stalled: u64,
}

/// The second line of `counts`: what was kept from the machine. Refused for want of memory alone.
pub fn screened_text(alloc: Global, screened: &Screened) -> Result<String, AllocError>
    ensures { IfOk result (λ text. string_bytes text ≡ screened_line screened.now) }
{
    format!(in alloc;
        "far {} held {} flooded {} beyond {} stalled {}\n",
        screened.far, screened.held, screened.flooded, screened.beyond, screened.stalled,
    )
}
