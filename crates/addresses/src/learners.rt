//! The endpoints whose addresses are learned from what they send.

ghost use Rattle.std.specs.Prelude.{◌≡◌, ◌∷◌, ◌++◌, [], Some, None, OnOk};
ghost use Rattle.addresses.specs.Learners.{after_word, claim_at, claim_of, learner_at, may_come, named_in, with_seat};
ghost use Rattle.addresses.specs.LearnedAddress.{empty_seat};

use crate::endpoints_by_key::{EndpointsByKey, Occupants};
use crate::learned_address::{Kind, LearnedAddress};
use crate::network::Network;
use std::alloc::{AllocError, Global};
use std::marker::Model;
use std::net::{IpAddr, SocketAddr};

/// An endpoint whose address is learned.
#[derive(Clone, Copy, Debug, PartialEq, Eq)]
pub struct Learner {
    /// Where its datagrams may come from; from anywhere if there is no network.
    pub within: Option<Network>,
    pub seat: LearnedAddress,
}

/// What came from where: datagrams are told apart by the source that they name, and by their kind.
#[derive(Clone, Copy, PartialEq, Eq)]
pub struct Arrived {
    /// The source, any 32 bits, if the datagram names one.
    pub source: Option<u32>,
    pub kind: Kind,
    pub from: SocketAddr,
    /// When it came, in milliseconds.
    pub moment: u64,
}

/// The endpoints by their numbers: whose address is learned, and who has its seat.
#[derive(Drop)]
pub struct Learners {
    /// The source of each endpoint that learns.
    sources: EndpointsByKey<u32>,
    learners: Vec<Option<Learner>>,
    /// How long a seat is kept after its endpoint was heard, in milliseconds.
    keep_ms: u64,
}

impl Model for Learners {
    ghost use Rattle.addresses.specs.Learners.{LearnersState};

    ghost Value = { LearnersState };

    ghost view = { λ l. record {
      sources = l.sources;
      learners = l.learners.items;
      keep_ms = l.keep_ms;
    } };
}

impl Learners {
    /// No endpoint. A seat is kept for so many milliseconds after its endpoint was heard.
    pub fn new(alloc: Global, keep_ms: u64) -> Learners
        ensures { result ≡ record {
          sources = [];
          learners = [];
          keep_ms = keep_ms;
        } }
    {
        Learners {
            sources: EndpointsByKey::new(alloc),
            learners: Vec::new(alloc),
            keep_ms,
        }
    }

    /// The next endpoint has this number and this source, and its address is learned from what comes from this network. Refused for
    /// want of memory alone.
    pub fn push_learner(
        &mut self,
        endpoint: u16,
        ssrc: u32,
        within: Option<Network>,
    ) -> Result<(), AllocError>
        ensures { OnOk result (self.new ≡ record {
          sources = self.old.sources ++ (ssrc, endpoint) ∷ [];
          learners = self.old.learners ++ Some (record { within = within; seat = empty_seat }) ∷ [];
          keep_ms = self.old.keep_ms;
        }) }
    {
        self.sources.push(ssrc, endpoint)?;
        self.learners.push(Some(Learner {
            within,
            seat: LearnedAddress::empty(),
        }))?;
        Ok(())
    }

    /// The next endpoint has an address of its own. Refused for want of memory alone.
    pub fn push_other(&mut self) -> Result<(), AllocError>
        ensures { OnOk result (self.new ≡ record {
          sources = self.old.sources;
          learners = self.old.learners ++ None ∷ [];
          keep_ms = self.old.keep_ms;
        }) }
    {
        self.learners.push(None)?;
        Ok(())
    }

    /// The endpoint with this number, if its address is learned.
    pub fn learner(&self, endpoint: u16) -> Option<Learner>
        ensures { result ≡ learner_at self.now endpoint }
    {
        match self.learners.get(usize::from(endpoint)) {
            Some(learner) => *learner,
            None => None,
        }
    }

    /// The endpoint whose datagram this is, by its source, and its seat from then on. `None` if no endpoint that learns has the
    /// source, and for a stranger: who comes from outside of the network, or while somebody else has the seat.
    pub fn claim(&self, arrived: Arrived) -> Option<(u16, LearnedAddress)>
        ensures { result ≡ claim_of ⟦<u32 as PartialEq>⟧.eq ⟦<SocketAddr as PartialEq>⟧.eq
            ⟦<IpAddr as PartialEq>⟧.eq self.now arrived }
    {
        let Some(endpoint) = self.named(arrived.source) else {
            return None;
        };
        let Some(learner) = self.learner(endpoint) else {
            return None;
        };
        match claim_at(
            learner,
            arrived,
            arrived.moment.saturating_add(self.keep_ms),
        ) {
            Some(seat) => Some((endpoint, seat)),
            None => None,
        }
    }

    /// The seat of the endpoint with this number is this, if its address is learned.
    pub fn sit(&mut self, endpoint: u16, seat: LearnedAddress)
        ensures { self.new ≡ with_seat self.old endpoint seat }
    {
        let Some(learner) = self.learner(endpoint) else {
            return;
        };
        let Learner { within, .. } = learner;
        self.learners[usize::from(endpoint)] = Some(Learner { within, seat });
    }

    /// The endpoint with this number was heard at this moment: its seat is kept from now on, or is free if it sent a BYE.
    pub fn heard(&mut self, endpoint: u16, moment: u64, is_goodbye: bool)
        ensures { self.new ≡ after_word self.old endpoint moment is_goodbye }
    {
        let Some(learner) = self.learner(endpoint) else {
            return;
        };
        let until_ms = if is_goodbye {
            0
        } else {
            moment.saturating_add(self.keep_ms)
        };
        let LearnedAddress { rtp, rtcp, .. } = learner.seat;
        self.sit(
            endpoint,
            LearnedAddress {
                rtp,
                rtcp,
                until_ms,
            },
        );
    }

    /// The endpoint that learns and has this source.
    fn named(&self, source: Option<u32>) -> Option<u16>
        ensures { result ≡ named_in ⟦<u32 as PartialEq>⟧.eq self.now.sources source }
    {
        match source {
            Some(ssrc) => match self.sources.at(ssrc) {
                Some(Occupants::Alone(endpoint)) => Some(endpoint),
                Some(Occupants::Several) => None,
                None => None,
            },
            None => None,
        }
    }
}

/// The seat of an endpoint once a datagram with its source arrived; it is then kept until `until_ms`.
fn claim_at(learner: Learner, arrived: Arrived, until_ms: u64) -> Option<LearnedAddress>
    ensures { result ≡ claim_at ⟦<SocketAddr as PartialEq>⟧.eq ⟦<IpAddr as PartialEq>⟧.eq learner
        arrived until_ms }
{
    if !may_come(learner.within, arrived.from) {
        return None;
    }
    learner
        .seat
        .claimed(arrived.kind, arrived.from, arrived.moment, until_ms)
}

/// Whether something may come from this address.
fn may_come(within: Option<Network>, from: SocketAddr) -> bool
    ensures { result ≡ may_come within from }
{
    match within {
        Some(network) => network.contains(from.ip()),
        None => true,
    }
}
