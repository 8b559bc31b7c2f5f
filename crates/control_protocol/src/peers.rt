//! Who asks: a few peers, each with what came from it and isn't read yet.

ghost use Rattle.std.specs.Prelude.{◌≡◌, ◌<◌, ◌+◌, IfOk, length, map, slice_set};
ghost use Rattle.control_protocol.specs.Places.{LetsStay, peer_of, silences_at, staying};

use crate::answer::{Refused, refused_text};
use crate::peer::{Heard, Peer};
use crate::places::{MAX_PEERS, MAX_STAYING, Place, place_among};
use crate::request::Request;
use std::alloc::{AllocError, Global};
use std::io::{Read, Write};
use std::marker::Model;

/// The peers, each of which is looked at in turn. Contracts see of each when its last line came and whether it stays, in the order in which
/// they are looked at.
#[derive(Drop)]
pub struct Peers<S: Drop> {
    alloc: Global,
    peers: Vec<Peer<S>>,
}

impl<S: Drop> Model for Peers<S> {
    ghost use Rattle.std.specs.Prelude.{◌≤◌, List, map, vec_len};
    ghost use Rattle.control_protocol.specs.Places.{PeerState, peer_of};
    ghost use Rattle.control_protocol.specs.declared.places.TheConstants.{MAX_PEERS};

    ghost Value = { List PeerState };

    ghost view = { λ p. map (λ peer. peer_of peer.since_ms peer.stays) p.peers.items };

    ghost invariant = { λ p. vec_len p.peers ≤ MAX_PEERS };
}

impl<S: Read + Write + Drop> Peers<S> {
    ghost use Rattle.std.specs.Prelude.{◌≡◌, ◌≤◌, ◌+◌, [], length, IfOk, MatchOption};
    ghost use Rattle.control_protocol.specs.Places.{IsPlaceAmong, LetsStay, TakesPlace, may_stay, silences_at};
    ghost use Rattle.control_protocol.specs.declared.places.TheConstants.{MAX_PEERS};

    /// Nobody.
    pub fn new(alloc: Global) -> Peers<S>
        ensures { result ≡ [] }
    {
        Peers {
            alloc,
            peers: Vec::new(alloc),
        }
    }

    /// How many they are.
    pub fn count(&self) -> usize
        ensures count { result ≡ length self.now }
        ensures few { result ≤ MAX_PEERS }
    {
        self.peers.len()
    }

    /// One came at this moment, and is a peer from now on, if it is still there and finds a place: who made room for it is let go. If there
    /// is none it is told so and let go; so it is if there is no memory for it.
    pub fn admit(&mut self, stream: S, moment: u64)
        ensures place { TakesPlace self.old moment self.new }
        ensures few { length self.new ≤ MAX_PEERS }
        ensures one_more { length self.new ≤ length self.old + 1 }
        ensures others { length self.old ≤ length self.new }
    {
        let mut peer = Peer::new(self.alloc, stream, moment);
        if !peer.is_there(moment) {
            return;
        }
        match self.place_at(moment) {
            Ok(Place::Free) => {
                let _ = self.peers.push(peer);
            }
            Ok(Place::Of(number)) => take_place(self.peers.as_mut_slice(), number, peer),
            Ok(Place::Nowhere) | Err(_) => {
                let _ = peer.say(refused_text(Refused::Full).as_bytes());
            }
        }
    }

    /// Where one who comes at this moment finds a place.
    fn place_at(&self, moment: u64) -> Result<Place, AllocError>
        ensures { IfOk result (λ place. IsPlaceAmong (silences_at moment self.now) place) }
    {
        let silences = silences(self.alloc, self.peers.as_slice(), moment)?;
        Ok(place_among(silences.as_slice()))
    }

    /// Lets go of those who are gone, by this moment, if there are as many as there may be.
    pub fn let_go(&mut self, moment: u64)
        ensures { length self.new ≤ length self.old }
    {
        if self.peers.len() < MAX_PEERS {
            return;
        }
        for _peer in 0..self.peers.len() {
            let Some(mut peer) = self.take_first() else {
                return;
            };
            if peer.is_there(moment) {
                self.keep(peer);
            }
        }
    }

    /// The next request, of those that came by this moment. Each peer is looked at once at most, in turn; who asked is the last to be
    /// looked at again.
    pub fn next_request(&mut self, moment: u64) -> Option<Request>
        ensures { length self.new ≤ length self.old }
    {
        for _peer in 0..self.peers.len() {
            let Some(mut peer) = self.take_first() else {
                return None;
            };
            match peer.hear(self.alloc, moment) {
                Heard::Gone => {}
                Heard::Nothing => self.keep(peer),
                Heard::Asked(request) => {
                    self.keep(peer);
                    return Some(request);
                }
            }
        }
        None
    }

    /// Answers who asked last. What it doesn't take at once is written when it is looked at next, and it is heard again after that; who
    /// isn't there any more is let go.
    pub fn answer(&mut self, text: &[u8])
        ensures answered { length self.new ≤ length self.old }
        ensures others { length self.old ≤ length self.new + 1 }
    {
        let Some(mut peer) = self.peers.pop() else {
            return;
        };
        if peer.say(text) {
            let _ = self.peers.push(peer);
        }
    }

    /// Whether who asked last may stay: fewer of the others do than may.
    pub fn may_stay(&self) -> bool
        ensures { result ≡ may_stay self.now }
    {
        let others = self.peers.len().saturating_sub(1);
        count_staying(&self.peers.as_slice()[..others]) < MAX_STAYING
    }

    /// Who asked last stays from now on: it isn't let go for what it doesn't say, and makes room for nobody.
    pub fn let_stay(&mut self)
        ensures { LetsStay self.old self.new }
    {
        if let Some(last) = self.peers.len().checked_sub(1) {
            let_stay_at(self.peers.as_mut_slice(), last);
        }
    }

    /// Takes away who asked last: it is no peer any more, and what it said after its request is passed over.
    pub fn take_last(&mut self) -> Option<S>
        ensures { MatchOption result ((self.new ≡ self.old) × (length self.old ≡ 0))
            (λ _. length self.new + 1 ≡ length self.old) }
    {
        let Peer { stream, .. } = self.peers.pop()?;
        Some(stream)
    }

    /// The peer that is looked at next.
    fn take_first(&mut self) -> Option<Peer<S>>
        ensures { MatchOption result (self.new ≡ self.old) (λ _. length self.new + 1 ≡ length self.old) }
    {
        if self.peers.is_empty() {
            return None;
        }
        Some(self.peers.remove(0))
    }

    /// The peer is looked at again, after the others.
    fn keep(&mut self, peer: Peer<S>)
        ensures kept { length self.new ≤ length self.old + 1 }
        ensures others { length self.old ≤ length self.new }
    {
        if self.peers.len() < MAX_PEERS {
            let _ = self.peers.push(peer);
        }
    }
}

/// One has the place of the peer of this number from now on, which is let go.
#[tactic(auto, using(crate::proofs::PlaceLemmas::mapped_set))]
fn take_place<S: Drop>(peers: &mut [Peer<S>], number: usize, peer: Peer<S>)
    requires { number < length peers.old }
    ensures { map (λ peer. peer_of peer.since_ms peer.stays) peers.new ≡ slice_set
        (map (λ peer. peer_of peer.since_ms peer.stays) peers.old) number
        (peer_of peer.since_ms peer.stays) }
{
    peers[number] = peer;
}

/// The peer of this number, the last one, stays from now on.
fn let_stay_at<S: Drop>(peers: &mut [Peer<S>], number: usize)
    requires { number + 1 ≡ length peers.old }
    ensures { LetsStay (map (λ peer. peer_of peer.since_ms peer.stays) peers.old)
        (map (λ peer. peer_of peer.since_ms peer.stays) peers.new) }
{
    peers[number].stays = true;
}

/// How many of these stay.
fn count_staying<S: Drop>(peers: &[Peer<S>]) -> usize
    ensures { result ≡ staying (map (λ peer. peer_of peer.since_ms peer.stays) peers.now) }
{
    peers.iter().filter(|peer| peer.stays).count()
}

/// For how many milliseconds each of these peers has said no whole line by this moment.
fn silences<S: Read + Write + Drop>(
    alloc: Global,
    peers: &[Peer<S>],
    moment: u64,
) -> Result<Vec<u64>, AllocError>
    ensures { IfOk result (λ all. all.items
        ≡ silences_at moment (map (λ peer. peer_of peer.since_ms peer.stays) peers.now)) }
{
    let mut all = Vec::with_capacity(alloc, peers.len())?;
    for peer in peers {
        all.push(peer.silence(moment))?;
    }
    Ok(all)
}
