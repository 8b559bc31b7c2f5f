//! What a sink is told, as tests keep and compare it.

use events::{Bytes, Out, Refusal};
use std::alloc::Global;

/// What it is about.
#[derive(Clone, Copy, PartialEq, Eq)]
pub(super) enum What {
    /// A datagram goes to the endpoint with this number.
    Sent(u16),
    /// A packet was asked for again on the leg with this number, and isn't kept any more.
    Missed(u16),
    /// A packet isn't sent on on the leg with this number.
    Skipped(u16),
    /// Something was refused.
    Refused(Refusal),
}

/// One thing that a sink is told.
#[derive(Drop)]
pub(super) struct Told {
    /// The number of the turn that was played as it was told.
    pub(super) turn: u64,
    pub(super) what: What,
    /// The bytes of a datagram; none of anything else.
    pub(super) bytes: Bytes,
}

impl Told {
    /// What a sink is told in this turn of what the machine gives out, if it is told anything.
    pub(super) fn of(alloc: Global, turn: u64, out: Out) -> Option<Told> {
        let (what, bytes) = match out {
            Out::Send { endpoint, bytes } => (What::Sent(endpoint), bytes),
            Out::Miss(leg, _) => (What::Missed(leg), no_bytes(alloc)),
            Out::Skip(leg, _) => (What::Skipped(leg), no_bytes(alloc)),
            Out::Refused(refusal) => (What::Refused(refusal), no_bytes(alloc)),
            Out::Busy | Out::Lost(_) | Out::Idle => return None,
        };
        Some(Told { turn, what, bytes })
    }

    /// Whether it is about a datagram.
    pub(super) fn is_datagram(&self) -> bool {
        matches!(self.what, What::Sent(_))
    }

    /// Whether the two are the same, told in whichever turns.
    pub(super) fn is(&self, other: &Told) -> bool {
        self.what == other.what && self.bytes.as_slice() == other.bytes.as_slice()
    }
}

fn no_bytes(alloc: Global) -> Bytes {
    Bytes::new(Vec::new(alloc))
}
