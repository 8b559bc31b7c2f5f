//! The endpoints that are present whatever they say, and when a report is to be made in their name.

ghost use Rattle.std.specs.Prelude.{◌≡◌, ◌&&◌, ◌<◌, IfOk, IfSome, length, nat_le};
ghost use Rattle.addresses.specs.Listeners.{after_hearing, listeners_after, listens, new_listeners, next_listener, report_due, standing_at_first};

use std::alloc::{AllocError, Global};
use std::marker::Model;

/// What is known of an endpoint.
#[derive(Clone, Copy, PartialEq, Eq)]
pub enum Standing {
    /// It speaks for itself.
    Speaks,
    /// It only listens: reports are made in its name.
    Listens,
    /// It only listens, and sent a BYE: no report is made until it is heard again.
    Left,
}

impl Standing {
    ghost use Rattle.std.specs.Prelude.{◌≡◌};
    ghost use Rattle.addresses.specs.Listeners.{listens, standing_after};

    /// Whether reports are made in its name.
    fn listens(self) -> bool
        ensures { result ≡ listens self }
    {
        match self {
            Standing::Listens => true,
            Standing::Speaks => false,
            Standing::Left => false,
        }
    }

    /// What is known once the endpoint was heard: whether it sent a BYE.
    fn after(self, is_goodbye: bool) -> Standing
        ensures { result ≡ standing_after self is_goodbye }
    {
        match self {
            Standing::Speaks => Standing::Speaks,
            Standing::Listens | Standing::Left => {
                if is_goodbye {
                    Standing::Left
                } else {
                    Standing::Listens
                }
            }
        }
    }
}

/// What is known of each endpoint, by its number, and when reports are made. They are made in rounds: one for each endpoint that only
/// listens, by rising number, one in each call.
#[derive(Drop)]
pub struct Listeners {
    standings: Vec<Standing>,
    /// How far rounds are apart, in milliseconds.
    every_ms: u64,
    /// The moment from which on the next round begins.
    due_ms: u64,
    /// In a round: the least number whose turn it wasn't.
    next: Option<usize>,
}

impl Model for Listeners {
    ghost use Rattle.addresses.specs.Listeners.{ListenersState};

    ghost Value = { ListenersState };

    ghost view = { λ l. record {
      standings = l.standings.items;
      every_ms = l.every_ms;
      due_ms = l.due_ms;
      next = l.next;
    } };
}

impl Listeners {
    /// By number whether an endpoint only listens, and how far rounds of reports are apart, in milliseconds. The first round is due
    /// at once. Refused for want of memory alone.
    pub fn new(alloc: Global, receive_only: &[bool], every_ms: u64) -> Result<Listeners, AllocError>
        ensures { IfOk result (λ l. l ≡ new_listeners receive_only.now every_ms) }
    {
        let mut standings = Vec::new(alloc);
        for only_listens in receive_only {
            standings.push(standing_at_first(*only_listens))?;
        }
        Ok(Listeners {
            standings,
            every_ms,
            due_ms: 0,
            next: None,
        })
    }

    /// The endpoint with this number was heard: whether it sent a BYE. Who only listens and sent a BYE is left alone until it is
    /// heard again; of any other endpoint nothing changes.
    pub fn heard(&mut self, endpoint: usize, is_goodbye: bool)
        ensures { self.new ≡ after_hearing self.old endpoint is_goodbye }
    {
        if endpoint < self.standings.len() {
            self.standings[endpoint] = self.standings[endpoint].after(is_goodbye);
        }
    }

    /// The endpoint in whose name a report is to be made at this moment, in milliseconds: the next one of the round, or the first if
    /// a round is due. Then it had its turn.
    pub fn report_due(&mut self, moment: u64) -> Option<usize>
        ensures report { result ≡ report_due self.old moment }
        ensures after { self.new ≡ listeners_after self.old moment }
    {
        let from = match self.next {
            Some(from) => from,
            None => {
                if moment < self.due_ms {
                    return None;
                }
                self.due_ms = moment.saturating_add(self.every_ms);
                0
            }
        };
        let found = next_listener(self.standings.as_slice(), from);
        self.next = match found {
            Some(number) => Some(number + 1),
            None => None,
        };
        found
    }
}

/// What is known of an endpoint that wasn't heard yet.
fn standing_at_first(only_listens: bool) -> Standing
    ensures { result ≡ standing_at_first only_listens }
{
    if only_listens {
        Standing::Listens
    } else {
        Standing::Speaks
    }
}

/// The least number from this one on in whose name reports are made.
fn next_listener(standings: &[Standing], from: usize) -> Option<usize>
    ensures found { result ≡ next_listener from 0 standings.now }
    ensures within { IfSome result (λ number. number < length standings.now) }
{
    for (number, standing) in standings.iter().enumerate() {
        if has_turn(*standing, number, from) {
            return Some(number);
        }
    }
    None
}

/// Whether a report is made in this endpoint's name in the rest of a round that goes on at the number `from`.
fn has_turn(standing: Standing, number: usize, from: usize) -> bool
    ensures { result ≡ (nat_le from number && listens standing) }
{
    from <= number && standing.listens()
}
