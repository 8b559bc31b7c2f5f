//! What came from a peer and isn't read yet.

ghost use Rattle.std.specs.Prelude.{MatchOption};
ghost use Rattle.control_protocol.specs.Inboxes.{IsLineOf, IsOpen};

use memchr::memchr;
use std::alloc::{AllocError, Global};
use std::marker::Model;

/// So many bytes of a peer are kept at most.
pub const MAX_INBOX: usize = 128;

/// The bytes that came from a peer and were not read yet. Contracts see them as a list.
#[derive(Drop)]
pub struct Inbox {
    alloc: Global,
    bytes: Vec<u8>,
}

impl Model for Inbox {
    ghost use Rattle.std.specs.Prelude.{ℕ, List};

    ghost Value = { List ℕ };

    ghost view = { λ i. i.bytes.items };
}

impl Inbox {
    ghost use Rattle.std.specs.Prelude.{◌≡◌, ◌≤◌, ◌<◌, ◌+◌, ◌++◌, ℕ, List, [], length, IfOk, MatchBool, MatchOption, OnErr, OnOk};
    ghost use Rattle.control_protocol.specs.Inboxes.{IsLineOf, IsOpen};
    ghost use Rattle.control_protocol.specs.declared.inbox.TheConstants.{MAX_INBOX};

    /// One to which nothing came.
    pub fn new(alloc: Global) -> Inbox
        ensures { result ≡ [] }
    {
        Inbox {
            alloc,
            bytes: Vec::new(alloc),
        }
    }

    /// How many bytes it has room for.
    pub fn room(&self) -> usize
        ensures room { length self.now ≤ MAX_INBOX → result + length self.now ≡ MAX_INBOX }
        ensures none { MAX_INBOX ≤ length self.now → result ≡ 0 }
    {
        MAX_INBOX.saturating_sub(self.bytes.len())
    }

    /// These bytes come after the others. Refused for want of memory alone; then nothing changes.
    pub fn take_in(&mut self, bytes: &[u8]) -> Result<(), AllocError>
        ensures ok { OnOk result (self.new ≡ self.old ++ bytes.now) }
        ensures unchanged { OnErr result (self.new ≡ self.old) }
    {
        self.bytes.extend_from_slice(bytes)
    }

    /// Whether a line has ended.
    pub fn has_line(&self) -> bool
        ensures { MatchBool result ((line : List ℕ) × (rest : List ℕ) × IsLineOf self.now line rest)
            (IsOpen self.now) }
    {
        first_line(self.bytes.as_slice()).is_some()
    }

    /// The first line, without its end, if it has ended; it is taken out. Refused for want of memory alone; then nothing changes.
    pub fn next_line(&mut self) -> Result<Option<Vec<u8>>, AllocError>
        ensures line { IfOk result (λ next. MatchOption next
            ((self.new ≡ self.old) × IsOpen self.old)
            (λ line. IsLineOf self.old line.items self.new)) }
        ensures unchanged { OnErr result (self.new ≡ self.old) }
    {
        let Some((line, rest)) = first_line(self.bytes.as_slice()) else {
            return Ok(None);
        };
        let line = line.to_vec(self.alloc)?;
        let rest = rest.to_vec(self.alloc)?;
        self.bytes = rest;
        Ok(Some(line))
    }
}

/// The first line, without its end, and what comes after it, if it has ended.
#[tactic(auto, using(crate::proofs::InboxLemmas::open_at, crate::proofs::InboxLemmas::line_at))]
fn first_line(bytes: &[u8]) -> Option<(&[u8], &[u8])>
    ensures { MatchOption result (IsOpen bytes.now)
        (λ parts. IsLineOf bytes.now parts.0.now parts.1.now) }
{
    let end = memchr(b'\n', bytes)?;
    Some((&bytes[..end], &bytes[end + 1..]))
}
