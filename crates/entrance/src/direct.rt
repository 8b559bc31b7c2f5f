//! The entrance of a feed and a timekeeper, which lets in all that comes, as it is.

ghost use Rattle.std.specs.Prelude.{◌≡◌, ◌≤◌, length};
ghost use Rattle.desk_calls.specs.DeskCalls.{source_of};

use crate::entrance::{Admitted, Came, Entrance};
use datagram::{Reading, Taking, read};
use members::RoomView;
use ports::{Feed, MAX_DATAGRAM, ReceiveFault, Received, Timekeeper};
use settings::Links;
use std::alloc::{AllocError, Global};
use tmmbr_tuple::Ssrc;

/// What an entrance keeps of what came last: where it is received, and what was read of it.
#[derive(Drop)]
pub struct Kept {
    buffer: Vec<u8>,
    /// Whose datagram it is, and how long.
    endpoint: u16,
    size: usize,
    reading: Reading,
    ghost fits: { size ≤ length buffer.items },
}

impl Kept {
    ghost use Rattle.std.specs.Prelude.{◌≡◌, ◌∷◌, [], length, IfOk, OnOk};
    ghost use Rattle.datagram.specs.Reads.{admission_of};
    ghost use Rattle.ports.specs.Outside.{Grows};
    ghost use Rattle.entrance.specs.Entrance.{IfTaken, IsTakenFrom, arrival_by};
    ghost use Rattle.entrance.specs.Kept.{admission_in, arrival_kept, datagram_in};

    /// Nothing came yet. There is room for the longest datagram.
    pub fn new(alloc: Global) -> Result<Kept, AllocError>
        ensures { IfOk result (λ k. length k.buffer.items ≡ 65535) }
    {
        Ok(Kept {
            buffer: vec![in alloc; 0; MAX_DATAGRAM]?,
            endpoint: 0,
            size: 0,
            reading: Reading::new(alloc),
        })
    }

    /// Receives what the feed gives next, and keeps a datagram.
    fn fill<F: Feed>(&mut self, feed: &mut F) -> Result<Received, ReceiveFault>
        ensures { Grows (F.given feed.old) (arrival_kept self.new result ∷ []) (F.given feed.new) }
    {
        let received = feed.receive(self.buffer.as_mut_slice());
        if let Ok(Received::Datagram { endpoint, length }) = received {
            self.endpoint = endpoint;
            self.size = length;
        }
        received
    }

    /// Lets in what was received: a datagram is read.
    fn admit(
        &mut self,
        links: &Links,
        received: Result<Received, ReceiveFault>,
    ) -> Result<Result<Admitted, ReceiveFault>, AllocError>
        ensures endpoint { self.new.endpoint ≡ self.old.endpoint }
        ensures datagram { datagram_in self.new ≡ datagram_in self.old }
        ensures arrival { IfOk result (λ a. arrival_by a self.old.endpoint (datagram_in self.old)
            ≡ arrival_kept self.old received) }
        ensures taken { IfOk result (λ a. IfTaken a
            (IsTakenFrom links.now (admission_in self.new) (datagram_in self.new))) }
    {
        match received {
            Ok(Received::Datagram { .. }) => {
                self.read(links)?;
                Ok(Ok(Admitted::Taking))
            }
            Ok(Received::Nothing) => Ok(Ok(Admitted::Nothing)),
            Ok(Received::Select { leg, on }) => Ok(Ok(Admitted::Select { leg, on })),
            Ok(Received::Stop) => Ok(Ok(Admitted::Stop)),
            Err(fault) => Ok(Err(fault)),
        }
    }

    /// Reads the datagram that is kept.
    fn read(&mut self, links: &Links) -> Result<(), AllocError>
        ensures endpoint { self.new.endpoint ≡ self.old.endpoint }
        ensures datagram { datagram_in self.new ≡ datagram_in self.old }
        ensures taken { OnOk result
            (IsTakenFrom links.now (admission_in self.new) (datagram_in self.new)) }
    {
        let own = own_source(links, self.endpoint);
        read(
            &self.buffer.as_slice()[..self.size],
            own,
            None,
            &mut self.reading,
        )
    }

    /// What was read, as it is taken in.
    fn taking(&self) -> Taking<'_>
        ensures { admission_of result ≡ admission_in self.now }
    {
        self.reading
            .taking(self.endpoint, &self.buffer.as_slice()[..self.size])
    }
}

/// The source of an endpoint; 0 if there is none with this number.
pub fn own_source(links: &Links, endpoint: u16) -> Ssrc
    ensures { result ≡ source_of links.now endpoint }
{
    links.ssrc_of(endpoint).unwrap_or(Ssrc(0))
}

/// A feed with a timekeeper.
#[derive(Drop)]
pub struct Direct<'f, 'c, 'k, F, C> {
    feed: &'f mut F,
    clock: &'c mut C,
    kept: &'k mut Kept,
}

impl<'f, 'c, 'k, F: Feed, C: Timekeeper> Direct<'f, 'c, 'k, F, C> {
    ghost use Rattle.std.specs.Prelude.{◌≡◌};

    /// Lets in what this feed gives, at the moments that this timekeeper tells.
    pub fn new(feed: &'f mut F, clock: &'c mut C, kept: &'k mut Kept) -> Direct<'f, 'c, 'k, F, C>
        ensures feed { result.feed.now ≡ feed.old }
        ensures clock { result.clock.now ≡ clock.old }
        ensures same_feed { result.feed.ghost_name ≡ feed.entry.ghost_name }
        ensures same_clock { result.clock.ghost_name ≡ clock.entry.ghost_name }
    {
        Direct { feed, clock, kept }
    }
}

impl<'f, 'c, 'k, F: Feed, C: Timekeeper> Entrance for Direct<'f, 'c, 'k, F, C> {
    ghost use Rattle.std.specs.Prelude.{◌∷◌, []};
    ghost use Rattle.entrance.specs.Kept.{admission_in, datagram_in};

    ghost given = { λ d. F.given d.feed.now };

    ghost told = { λ d. C.told d.clock.now };

    ghost current = { λ d. admission_in d.kept.now };

    ghost datagram = { λ d. datagram_in d.kept.now };

    ghost names = { λ d. d.feed.ghost_name ∷ d.clock.ghost_name ∷ [] };

    fn receive(&mut self, view: RoomView<'_>) -> Result<Came, AllocError> {
        let received = self.kept.fill(&mut *self.feed);
        let moment = self.clock.moment();
        let admitted = self.kept.admit(view.links, received)?;
        Ok(Came { moment, admitted })
    }

    fn taking(&self) -> Taking<'_> {
        self.kept.taking()
    }

    fn ticked(&mut self, _moment: u64) {}
}
