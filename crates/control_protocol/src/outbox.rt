//! What waits for a peer that follows what happens.

ghost use Rattle.std.specs.Prelude.{◌≡◌, ◌+◌, nat_le};
ghost use Rattle.control_protocol.specs.declared.outbox.TheConstants.{MAX_OUTBOX};

use std::alloc::{AllocError, Global};
use std::marker::Model;

/// So many bytes of lines wait for a peer at most, those counted that it took since it last had all.
pub const MAX_OUTBOX: usize = 16_384;

/// The last line of a peer that doesn't take its lines as fast as they come.
const LAST: &str = "ended slow\n";

/// Lines that wait for a peer. Contracts see what was put since the peer last had all, how many bytes of that it took, and whether the
/// last line was put. It takes memory once, for all that may wait.
#[derive(Drop)]
pub(crate) struct Outbox {
    bytes: Vec<u8>,
    taken: usize,
    is_over: bool,
}

impl Model for Outbox {
    ghost use Rattle.std.specs.Prelude.{◌≡◌, ◌≤◌, ◌+◌, false, length, vec_capacity, vec_len};
    ghost use Rattle.control_protocol.specs.Outboxes.{OutboxState, last_line};
    ghost use Rattle.control_protocol.specs.declared.outbox.TheConstants.{MAX_OUTBOX};

    ghost Value = { OutboxState };

    ghost view = { λ o. record { lines = o.bytes.items; taken = o.taken; is_over = o.is_over } };

    ghost invariant = { λ o. (o.taken ≤ vec_len o.bytes)
        × ((o.is_over ≡ false → vec_len o.bytes ≤ MAX_OUTBOX)
        × ((vec_len o.bytes ≤ MAX_OUTBOX + length last_line)
        × (MAX_OUTBOX + length last_line ≤ vec_capacity o.bytes))) };
}

impl Outbox {
    ghost use Rattle.std.specs.Prelude.{◌≡◌, ◌≤◌, ◌+◌, IfOk, drop, length};
    ghost use Rattle.control_protocol.specs.Outboxes.{last_line, new_outbox, with_put, with_taken};
    ghost use Rattle.control_protocol.specs.declared.outbox.TheConstants.{MAX_OUTBOX};

    /// One in which nothing waits. Refused for want of memory alone.
    pub(crate) fn new(alloc: Global) -> Result<Outbox, AllocError>
        ensures { IfOk result (λ o. o ≡ new_outbox) }
    {
        Ok(Outbox {
            bytes: Vec::with_capacity(alloc, MAX_OUTBOX + LAST.len())?,
            taken: 0,
            is_over: false,
        })
    }

    /// These lines wait, too. If there is no room for them the last line waits in their place, and nothing is put any more.
    pub(crate) fn put(&mut self, lines: &str)
        ensures put { self.new ≡ with_put self.old lines.now }
        ensures few { length self.new.lines ≤ MAX_OUTBOX + length last_line }
    {
        if self.is_over {
            return;
        }
        if has_room(self.bytes.len(), lines.len()) {
            let _ = self.bytes.extend_from_slice(lines.as_bytes());
        } else {
            let _ = self.bytes.extend_from_slice(LAST.as_bytes());
            self.is_over = true;
        }
    }

    /// What the peer didn't take yet.
    pub(crate) fn rest(&self) -> &[u8]
        ensures { result.now ≡ drop self.now.taken self.now.lines }
    {
        let (_, rest) = self.bytes.as_slice().split_at(self.taken);
        rest
    }

    /// The peer took so many bytes more.
    pub(crate) fn take(&mut self, count: usize)
        ensures { self.new ≡ with_taken self.old count }
    {
        if self.bytes.len() - self.taken <= count {
            self.bytes.clear();
            self.taken = 0;
        } else {
            self.taken += count;
        }
    }

    /// Whether the last line was put.
    pub(crate) fn is_over(&self) -> bool
        ensures { result ≡ self.now.is_over }
    {
        self.is_over
    }
}

/// Whether so many bytes may wait behind so many.
fn has_room(waiting: usize, more: usize) -> bool
    ensures { result ≡ nat_le (waiting + more) MAX_OUTBOX }
{
    waiting.saturating_add(more) <= MAX_OUTBOX
}
