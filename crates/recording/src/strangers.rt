//! Of which unknown senders a record has a line.

ghost use Rattle.std.specs.Prelude.{◌≡◌};
ghost use Rattle.std.specs.List.{list_any};

use std::alloc::{AllocError, Global};
use std::marker::Model;
use std::net::SocketAddr;

/// So many unknown senders are remembered of a record.
pub const MAX_NOTED: usize = 16;

/// So many milliseconds lie at least between two lines of a record about unknown senders.
pub const STRANGER_EACH_MS: u64 = 1_000;

/// From where a datagram came that is nobody's, and the SSRC that it names.
#[derive(Clone, Copy, PartialEq, Eq)]
pub struct UnknownSender {
    pub address: SocketAddr,
    pub source: u32,
}

/// Of which unknown senders a record has a line, the latest first, and when it may have the next.
#[derive(Drop)]
pub struct NotedStrangers {
    noted: Vec<UnknownSender>,
    due_ms: u64,
}

impl Model for NotedStrangers {
    ghost use Rattle.recording.specs.NotedStrangers.{NotedState};

    ghost Value = { NotedState };

    ghost view = { λ n. record { senders = n.noted.items; due = n.due_ms } };
}

impl NotedStrangers {
    ghost use Rattle.std.specs.Prelude.{◌≡◌, OnErr, OnOk};
    ghost use Rattle.recording.specs.NotedStrangers.{is_stranger_due, none_noted, with_noted};

    /// The record has no line of any.
    pub fn new(alloc: Global) -> NotedStrangers
        ensures { result ≡ none_noted }
    {
        NotedStrangers {
            noted: Vec::new(alloc),
            due_ms: 0,
        }
    }

    /// Whether the record is to have a line of this one, who comes at this moment, in milliseconds.
    pub fn is_due(&self, sender: UnknownSender, moment: u64) -> bool
        ensures { result
            ≡ is_stranger_due ⟦<UnknownSender as PartialEq>⟧.eq self.now sender moment }
    {
        self.due_ms <= moment && !is_among(self.noted.as_slice(), sender)
    }

    /// The record has a line of this one, who came at this moment, in milliseconds. Who came longest ago is forgotten if there are too many.
    /// Refused for want of memory alone; then nothing was noted.
    pub fn note(&mut self, sender: UnknownSender, moment: u64) -> Result<(), AllocError>
        ensures noted { OnOk result (self.new ≡ with_noted self.old sender moment) }
        ensures unchanged { OnErr result (self.new ≡ self.old) }
    {
        self.noted.insert(0, sender)?;
        self.noted.truncate(MAX_NOTED);
        self.due_ms = moment.saturating_add(STRANGER_EACH_MS);
        Ok(())
    }
}

/// Whether this one is among them.
fn is_among(noted: &[UnknownSender], sender: UnknownSender) -> bool
    ensures { result
        ≡ list_any (λ known. ⟦<UnknownSender as PartialEq>⟧.eq known sender) noted.now }
{
    noted.iter().any(|known| *known == sender)
}
