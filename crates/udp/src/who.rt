//! Who sends what comes to the unit's sockets: who is known by an address, whose address is learned, and in whose name reports are made,
//! since they only listen.

ghost use Rattle.std.specs.Prelude.{◌≡◌, ◌≤◌, ◌<◌, ◌⊎◌, ℕ, None, Some, length, slice_get, IfNone, IfOk, IfSome};
ghost use Rattle.addresses.specs.AddressBook.{senders_of};
ghost use Rattle.addresses.specs.Learners.{with_seat};
ghost use Rattle.addresses.specs.Listeners.{listeners_after, report_due};
ghost use Rattle.datagram.specs.Naming.{source_named};
ghost use Rattle.addresses.specs.SenderTable.{front_length, sender_of};
ghost use Rattle.udp.specs.Who.{MayLearn, after_note, first_learners, first_listeners, first_senders, is_same_place, kind_heard, address_book_of, setup_of};

use addresses::{
    Arrived, Client, Directory, FirstPacket, Kind, LearnedAddress, Learners, Listeners, Listening,
    SenderTable, SourceAddress, is_reachable, learners_of, listeners_of, senders_of,
};
use datagram::source_named;
use operations::RunStatus;
use rtcp_compound::is_rtcp;
use settings::Settings;
use std::alloc::{AllocError, Global};
use std::net::{IpAddr, SocketAddr};
use tmmbr_tuple::Ssrc;

/// Who sends to a unit, and in whose name reports are made.
#[derive(Drop)]
pub struct Who<'a> {
    alloc: Global,
    listening: Listening,
    senders: SenderTable,
    learners: Learners,
    listeners: Listeners,
    /// Where threads that send see what is learned.
    directory: &'a Directory,
    /// The source and the client of each endpoint, by its number.
    sources: &'a [Ssrc],
    clients: &'a [Client],
    run_status: &'a RunStatus,
}

impl<'a> Who<'a> {
    /// Nobody was heard yet by a unit that listens there, with these settings and these clients.
    pub fn new(
        alloc: Global,
        listening: Listening,
        settings: &'a Settings,
        clients: &'a [Client],
        directory: &'a Directory,
        run_status: &'a RunStatus,
    ) -> Result<Who<'a>, AllocError>
        ensures handed { IfOk result (λ w. (w.listening ≡ listening) × (w.clients ≡ clients.entry)
            × (w.directory ≡ directory.entry) × (w.run_status ≡ run_status.entry)) }
        ensures sources { IfOk result (λ w. w.sources.now ≡ settings.now.endpoints) }
        ensures learners { IfOk result (λ w. w.learners ≡ first_learners settings.now clients.now) }
        ensures senders { IfOk result (λ w. w.senders ≡ first_senders settings.now clients.now) }
        ensures listeners { IfOk result (λ w. w.listeners
            ≡ first_listeners settings.now clients.now) }
    {
        let (senders, learners) = known_of(alloc, settings, clients)?;
        let listeners = listeners_of(alloc, clients, settings.timeout_ms())?;
        Ok(Who {
            alloc,
            listening,
            senders,
            learners,
            listeners,
            directory,
            sources: settings.endpoints(),
            clients,
            run_status,
        })
    }

    /// A datagram came from this address at this moment, in milliseconds: an address may be learned of it. Who sent what is at its
    /// front, and how much of it is heard at once.
    pub fn arrive(&mut self, from: SocketAddr, datagram: &[u8], moment: u64) -> FirstPacket
        ensures sender { result.endpoint ≡ sender_of ⟦<SourceAddress as PartialEq>⟧.eq
            ⟦<SocketAddr as PartialEq>⟧.eq self.new.senders from (source_named datagram.now) }
        ensures size { result.length
            ≡ front_length ⟦<SocketAddr as PartialEq>⟧.eq self.new.senders from datagram.now }
        ensures within { result.length ≤ length datagram.now }
        ensures goes_on { 0 < length datagram.now → 0 < result.length }
        ensures learned { MayLearn (setup_of ⟦<u32 as PartialEq>⟧.eq ⟦<SocketAddr as PartialEq>⟧.eq
            ⟦<IpAddr as PartialEq>⟧.eq self.old) from datagram.now moment (address_book_of self.old)
            (address_book_of self.new) }
        ensures stays { (self.new.sources ≡ self.old.sources) × (self.new.clients ≡ self.old.clients)
            × (self.new.listening ≡ self.old.listening) }
    {
        self.learn(from, datagram, moment);
        self.front(from, datagram)
    }

    /// Who sent what is at the front of these packets, the rest of a datagram from this address, and how much of it is heard at once.
    pub fn front(&self, from: SocketAddr, packets: &[u8]) -> FirstPacket
        ensures sender { result.endpoint ≡ sender_of ⟦<SourceAddress as PartialEq>⟧.eq
            ⟦<SocketAddr as PartialEq>⟧.eq self.now.senders from (source_named packets.now) }
        ensures size { result.length
            ≡ front_length ⟦<SocketAddr as PartialEq>⟧.eq self.now.senders from packets.now }
        ensures within { result.length ≤ length packets.now }
        ensures goes_on { 0 < length packets.now → 0 < result.length }
    {
        self.senders.front(from, packets)
    }

    /// Learns the address of an endpoint from a datagram with its source, if it learns, and nobody else has its seat.
    #[tactic(auto, using(crate::proofs::SeatLemmas::sits_back))]
    fn learn(&mut self, from: SocketAddr, datagram: &[u8], moment: u64)
        ensures stays { (self.new.sources ≡ self.old.sources) × (self.new.clients ≡ self.old.clients)
            × (self.new.listening ≡ self.old.listening) }
        ensures learned { MayLearn (setup_of ⟦<u32 as PartialEq>⟧.eq ⟦<SocketAddr as PartialEq>⟧.eq
            ⟦<IpAddr as PartialEq>⟧.eq self.old) from datagram.now moment (address_book_of self.old)
            (address_book_of self.new) }
    {
        let arrived = Arrived {
            source: source_named(datagram),
            kind: self.kind_of(datagram),
            from,
            moment,
        };
        let Some((endpoint, seat)) = self.learners.claim(arrived) else {
            return;
        };
        let Some(learner) = self.learners.learner(endpoint) else {
            return;
        };
        if is_same_place(learner.seat, seat) {
            self.learners.sit(endpoint, seat);
        } else if is_reachable(self.listening, from) {
            self.move_to(endpoint, seat, learner.seat);
        }
    }

    /// An endpoint is at this seat from now on. If memory is wanting, or a thread looks at its seat just now, it stays where it was
    /// and is learned from a later datagram.
    fn move_to(&mut self, endpoint: u16, seat: LearnedAddress, before: LearnedAddress)
        ensures listeners { self.new.listeners ≡ self.old.listeners }
        ensures stays { (self.new.sources ≡ self.old.sources) × (self.new.clients ≡ self.old.clients)
            × (self.new.listening ≡ self.old.listening) }
        ensures moved { (self.new.learners ≡ with_seat self.old.learners endpoint seat)
            × (self.new.senders
            ≡ senders_of self.old.sources.now self.old.clients.now self.new.learners)
            ⊎ (self.new.learners
            ≡ with_seat (with_seat self.old.learners endpoint seat) endpoint before)
            × (self.new.senders ≡ self.old.senders) }
    {
        self.learners.sit(endpoint, seat);
        match senders_of(self.alloc, self.sources, self.clients, &self.learners) {
            Ok(senders) if self.directory.sit(endpoint, seat) => {
                self.senders = senders;
                if let Some(address) = seat.address(Kind::Rtp) {
                    self.run_status.show_moved(endpoint, address);
                }
            }
            _ => self.learners.sit(endpoint, before),
        }
    }

    /// What goes to one address and comes from it: RTCP, if it has a port of its own; else all is of one kind.
    fn kind_of(&self, datagram: &[u8]) -> Kind
        ensures { result ≡ kind_heard self.now.listening.rtcp datagram.now }
    {
        if self.listening.rtcp.is_some() && is_rtcp(datagram) {
            Kind::Rtcp
        } else {
            Kind::Rtp
        }
    }

    /// The endpoint was heard at this moment, and sent a BYE or didn't: for its seat, if its address is learned, and for reports, if it
    /// only listens.
    pub fn note(&mut self, endpoint: u16, moment: u64, is_goodbye: bool)
        ensures noted { address_book_of self.new
            ≡ after_note (address_book_of self.old) endpoint moment is_goodbye }
        ensures stays { (self.new.sources ≡ self.old.sources) × (self.new.clients ≡ self.old.clients)
            × (self.new.listening ≡ self.old.listening) }
    {
        self.listeners.heard(usize::from(endpoint), is_goodbye);
        self.learners.heard(endpoint, moment, is_goodbye);
    }

    /// In whose name a report is made at this moment, that it is there, since it only listens. It had its turn then.
    pub fn report_due(&mut self, moment: u64) -> Option<u16>
        ensures due { IfSome result (λ endpoint.
            report_due self.old.listeners moment ≡ Some endpoint) }
        ensures none { IfNone result ((endpoint : ℕ) → endpoint < 65536
            → report_due self.old.listeners moment ≡ Some endpoint → ⊥) }
        ensures turn { address_book_of self.new ≡ record (address_book_of self.old) {
          listeners = listeners_after self.old.listeners moment;
        } }
        ensures stays { (self.new.sources ≡ self.old.sources) × (self.new.clients ≡ self.old.clients)
            × (self.new.listening ≡ self.old.listening) }
    {
        let number = self.listeners.report_due(moment)?;
        u16::try_from(number).ok()
    }
}

/// Whether these seats have the same addresses.
fn is_same_place(seat: LearnedAddress, other: LearnedAddress) -> bool
    ensures { result ≡ is_same_place ⟦<SocketAddr as PartialEq>⟧.eq seat other }
{
    seat.rtp == other.rtp && seat.rtcp == other.rtcp
}

/// Who is known by an address, and whose is learned.
fn known_of(
    alloc: Global,
    settings: &Settings,
    clients: &[Client],
) -> Result<(SenderTable, Learners), AllocError>
    ensures senders { IfOk result (λ known. known.0 ≡ first_senders settings.now clients.now) }
    ensures learners { IfOk result (λ known. known.1 ≡ first_learners settings.now clients.now) }
{
    let sources = settings.endpoints();
    let learners = learners_of(alloc, sources, clients, settings.timeout_ms())?;
    let senders = senders_of(alloc, sources, clients, &learners)?;
    Ok((senders, learners))
}
