//! Where what comes to the sockets is let in.

ghost use Rattle.std.specs.Prelude.{◌≡◌, ◌⊎◌, ◌≤◌, ◌<◌, ℕ, [], false, true, None, Some, Ok, IfNone, IfOk, IfSome, is_some, length, replicate};
ghost use Rattle.entrance.specs.Entrance.{IfTaken};
ghost use Rattle.desk_calls.specs.DeskCalls.{source_of};
ghost use Rattle.addresses.specs.Listeners.{listeners_after, report_due};
ghost use Rattle.addresses.specs.Seating.{first_seats, seats_of};
ghost use Rattle.policy.specs.FloodLimiter.{empty_bucket};
ghost use Rattle.policy.specs.RateRequests.{BeginsBy};
ghost use Rattle.udp.specs.Door.{HearsAnew, HearsBefore, HearsElse, HearsExchanged, HearsLeft, HearsMore, IfLetIn, LetsGo, LetsWish, Waits, is_wish, wish_in};
ghost use Rattle.udp.specs.Kept.{IsSpokenBy, MayBeTaken, sent_by};
ghost use Rattle.udp.specs.Policies.{most_by};
ghost use Rattle.udp.specs.Who.{address_book_of, setup_of};
ghost use Rattle.udp.specs.declared.hearing.Anew.{Anew};
ghost use Rattle.udp.specs.declared.hearing.Leftover.{Leftover};

use crate::clock::RunClock;
use crate::hearing::Hearing;
use crate::inbox::{Inbox, is_silence};
use crate::scribe::Scribe;
use crate::socket::Sockets;
use addresses::{Client, Directory, Listening, Seating, SourceAddress};
use datagram::Taking;
use entrance::{Admitted, Came, Entrance};
use members::RoomView;
use operations::RunStatus;
use policy::{AnnouncedSets, Rules};
use ports::{ReceiveFault, Received};
use seats::Whose;
use settings::Settings;
use stats::Traffic;
use std::alloc::{AllocError, Global};
use std::cell::RefCell;
use std::net::{IpAddr, SocketAddr};
use std::time;

/// What all threads of a run look at: where endpoints are, what the run shows, what came and went, and which sets are asked for again.
#[derive(Clone, Copy)]
pub struct Outlook<'a> {
    pub directory: &'a Directory,
    pub run_status: &'a RunStatus,
    pub traffic: &'a Traffic,
    pub sets: &'a RefCell<AnnouncedSets>,
}

/// What comes to the sockets of a unit. Of each datagram it is known by its first bytes who sent it; those of unknown senders and floods are
/// counted and dropped. It is read once, into a value. On that value, at its moment and by the room as it is then, it is decided what the rules
/// hold, leave out or say in a client's name.
#[derive(Drop)]
pub struct Door<'a, R: time::Clock> {
    inbox: Inbox<'a>,
    clock: RunClock<'a, R>,
    hearing: Hearing<'a>,
    /// Under which names the clients of seats are known.
    seating: Seating<'a>,
    run_status: &'a RunStatus,
    traffic: &'a Traffic,
    scribe: Scribe,
}

impl<'a, R: time::Clock> Door<'a, R> {
    /// Nothing came yet to the sockets of a unit of these settings, which are bound there, by these rules.
    pub fn new(
        alloc: Global,
        rt: &'a R,
        sockets: Sockets<'a>,
        listening: Listening,
        settings: &'a Settings,
        clients: &'a [Client],
        rules: Rules,
        outlook: Outlook<'a>,
    ) -> Result<Door<'a, R>, AllocError>
        ensures floods { IfOk result (λ d. d.hearing.policies.floods ≡ (
          rules.flood_limit,
          replicate (length settings.now.endpoints) empty_bucket,
        )) }
        ensures rules { IfOk result (λ d. d.hearing.policies.ingress_filter.rules ≡ rules) }
        ensures stall { IfOk result (λ d. d.clock.stall_ms ≡ rules.stall_ms) }
        ensures holds { IfOk result
            (λ d. BeginsBy rules settings.now d.hearing.policies.requests) }
        ensures most { IfOk result (λ d. d.hearing.policies.most ≡ most_by rules.entry_limit) }
        ensures nothing { IfOk result (λ d. (d.hearing.rest ≡ None) × (d.hearing.anew ≡ None)) }
        ensures seats { IfOk result (λ d. seats_of d.seating ≡ first_seats settings.now clients.now) }
    {
        let (run_status, traffic) = (outlook.run_status, outlook.traffic);
        let seating = Seating::new(alloc, settings, clients, outlook.directory)?;
        Ok(Door {
            inbox: Inbox::new(sockets),
            clock: RunClock::new(
                rt,
                rules.stall_ms,
                &run_status.moment_ms,
                &run_status.stalled,
            ),
            hearing: Hearing::new(alloc, listening, settings, clients, rules, outlook)?,
            seating,
            run_status,
            traffic,
            scribe: Scribe::new(alloc),
        })
    }

    /// What comes next: what peers wish, else what is left in the buffer, else what is said in a client's name, else what the sockets
    /// have.
    fn next(&mut self, view: RoomView<'_>) -> Result<Came, AllocError>
        ensures taken { IfOk result
            (λ came. IfTaken came.admitted (MayBeTaken view.entry.links.now self.new.hearing.kept)) }
        ensures now { IfOk result (λ came. (came.moment ≡ self.new.clock.told)
            × (self.old.clock.told ≤ came.moment)) }
        ensures sent { IfOk result (λ came. IfTaken came.admitted
            (self.new.hearing.kept.sent.moment ≡ came.moment)) }
        ensures anew { (anew : Anew) → self.old.hearing.anew ≡ Some anew
            → IfOk result (λ came. LetsWish came self.old.hearing self.new.hearing
            ⊎ IfLetIn came.admitted (HearsAnew anew view.entry self.old.hearing self.new.hearing
            came.moment)) }
        ensures rest { (rest : Leftover) → self.old.hearing.anew ≡ None
            → self.old.hearing.rest ≡ Some rest
            → IfOk result (λ came. LetsWish came self.old.hearing self.new.hearing
            ⊎ IfLetIn came.admitted (HearsLeft rest (record {
              setup = setup_of ⟦<u32 as PartialEq>⟧.eq ⟦<SocketAddr as PartialEq>⟧.eq
                  ⟦<IpAddr as PartialEq>⟧.eq self.old.hearing.who;
              same_origin = ⟦<SourceAddress as PartialEq>⟧.eq;
              source = source_of view.entry.links.now;
            }) view.entry self.old.hearing self.new.hearing came.moment)) }
        ensures more { self.old.hearing.anew ≡ None → self.old.hearing.rest ≡ None
            → IfOk result (λ came. LetsWish came self.old.hearing self.new.hearing
            ⊎ HearsMore (λ who. record {
              setup = setup_of ⟦<u32 as PartialEq>⟧.eq ⟦<SocketAddr as PartialEq>⟧.eq
                  ⟦<IpAddr as PartialEq>⟧.eq who;
              same_origin = ⟦<SourceAddress as PartialEq>⟧.eq;
              source = source_of view.entry.links.now;
            }) view.entry self.old.hearing self.new.hearing self.old.clock.told came) }
    {
        if let Some(wish) = wish_in(self.run_status.wished()) {
            return Ok(self.at_once(wish));
        }
        let came = self.next_heard(view)?;
        Ok(came)
    }

    /// This is so, by now.
    fn at_once(&mut self, admitted: Admitted) -> Came
        ensures admitted { result.admitted ≡ Ok admitted }
        ensures now { (result.moment ≡ self.new.clock.told) × (self.old.clock.told ≤ result.moment) }
        ensures hearing { self.new.hearing ≡ self.old.hearing }
    {
        let moment = self.moment();
        let_in(moment, admitted)
    }

    /// What time it is.
    fn moment(&mut self) -> u64
        ensures now { (result ≡ self.new.clock.told) × (self.old.clock.told ≤ result) }
        ensures hearing { self.new.hearing ≡ self.old.hearing }
    {
        let moment = self.clock.ask();
        self.traffic.turned(moment);
        moment
    }

    /// What is heard next: what an endpoint that began anew sent, the rest of a datagram, what is said in a client's name, or else what
    /// the sockets have.
    fn next_heard(&mut self, view: RoomView<'_>) -> Result<Came, AllocError>
        ensures taken { IfOk result
            (λ came. IfTaken came.admitted (MayBeTaken view.entry.links.now self.new.hearing.kept)) }
        ensures now { IfOk result (λ came. (came.moment ≡ self.new.clock.told)
            × (self.old.clock.told ≤ came.moment)) }
        ensures sent { IfOk result (λ came. IfTaken came.admitted
            (self.new.hearing.kept.sent.moment ≡ came.moment)) }
        ensures anew { (anew : Anew) → self.old.hearing.anew ≡ Some anew
            → IfOk result (λ came. IfLetIn came.admitted
            (HearsAnew anew view.entry self.old.hearing self.new.hearing came.moment)) }
        ensures rest { (rest : Leftover) → self.old.hearing.anew ≡ None
            → self.old.hearing.rest ≡ Some rest → IfOk result (λ came. IfLetIn came.admitted
            (HearsLeft rest (record {
              setup = setup_of ⟦<u32 as PartialEq>⟧.eq ⟦<SocketAddr as PartialEq>⟧.eq
                  ⟦<IpAddr as PartialEq>⟧.eq self.old.hearing.who;
              same_origin = ⟦<SourceAddress as PartialEq>⟧.eq;
              source = source_of view.entry.links.now;
            }) view.entry self.old.hearing self.new.hearing came.moment)) }
        ensures more { self.old.hearing.anew ≡ None → self.old.hearing.rest ≡ None
            → IfOk result (λ came. HearsMore (λ who. record {
              setup = setup_of ⟦<u32 as PartialEq>⟧.eq ⟦<SocketAddr as PartialEq>⟧.eq
                  ⟦<IpAddr as PartialEq>⟧.eq who;
              same_origin = ⟦<SourceAddress as PartialEq>⟧.eq;
              source = source_of view.entry.links.now;
            }) view.entry self.old.hearing self.new.hearing self.old.clock.told came) }
    {
        if let Some(anew) = self.hearing.anew {
            let moment = self.moment();
            let admitted = self.hearing.hear_anew(view, moment, anew)?;
            return Ok(let_in(moment, admitted));
        }
        if let Some(rest) = self.hearing.rest {
            let moment = self.moment();
            let admitted = self.hearing.hear_rest(view, moment, rest)?;
            return Ok(let_in(moment, admitted));
        }
        match self.hear_before(view)? {
            Some(moment) => Ok(let_in(moment, Admitted::Taking)),
            None => {
                let came = self.report_or_wait(view)?;
                Ok(came)
            }
        }
    }

    /// A report that is due, or else what comes to the sockets next. Nothing of what came before is left.
    fn report_or_wait(&mut self, view: RoomView<'_>) -> Result<Came, AllocError>
        requires { (self.old.hearing.rest ≡ None) × (self.old.hearing.anew ≡ None) }
        ensures taken { IfOk result
            (λ came. IfTaken came.admitted (MayBeTaken view.entry.links.now self.new.hearing.kept)) }
        ensures now { IfOk result (λ came. (came.moment ≡ self.new.clock.told)
            × (self.old.clock.told ≤ came.moment)) }
        ensures sent { IfOk result (λ came. IfTaken came.admitted
            (self.new.hearing.kept.sent.moment ≡ came.moment)) }
        ensures goes { IfOk result (λ came. HearsElse false (λ who. record {
          setup = setup_of ⟦<u32 as PartialEq>⟧.eq ⟦<SocketAddr as PartialEq>⟧.eq
              ⟦<IpAddr as PartialEq>⟧.eq who;
          same_origin = ⟦<SourceAddress as PartialEq>⟧.eq;
          source = source_of view.entry.links.now;
        }) view.entry self.old.hearing self.new.hearing self.old.clock.told came) }
    {
        match self.report(view) {
            Some(moment) => Ok(let_in(moment, Admitted::Taking)),
            None => {
                let came = self.wait(view)?;
                Ok(came)
            }
        }
    }

    /// What was asked for before and is heard now, if anything is, and the moment at which it is taken in.
    fn hear_before(&mut self, view: RoomView<'_>) -> Result<Option<u64>, AllocError>
        ensures taken { IfOk result (λ made. IfSome made
            (λ _. MayBeTaken view.entry.links.now self.new.hearing.kept)) }
        ensures now { IfOk result (λ made. IfSome made (λ moment.
            (moment ≡ self.new.clock.told) × (self.new.hearing.kept.sent.moment ≡ moment))) }
        ensures later { self.old.clock.told ≤ self.new.clock.told }
        ensures before { IfOk result (λ made. HearsBefore self.old.hearing self.new.hearing view.entry
            self.old.clock.told self.new.clock.told (is_some made)) }
        ensures stays { (self.new.hearing.rest ≡ self.old.hearing.rest)
            × (self.new.hearing.anew ≡ self.old.hearing.anew) }
    {
        if !self.hearing.is_held() {
            return Ok(None);
        }
        let moment = self.moment();
        if self.hearing.ask_again(view, moment)? {
            Ok(Some(moment))
        } else {
            Ok(None)
        }
    }

    /// The report that is due in the name of an endpoint that only listens, if one is, and the moment at which it is taken in.
    fn report(&mut self, view: RoomView<'_>) -> Option<u64>
        ensures taken { IfSome result (λ _. MayBeTaken view.entry.links.now self.new.hearing.kept) }
        ensures due { IfSome result (λ _.
            (report_due self.old.hearing.who.listeners self.old.clock.told
            ≡ Some self.new.hearing.kept.sent.endpoint)
            × IsSpokenBy (source_of view.entry.links.now self.new.hearing.kept.sent.endpoint) []
            self.new.hearing.kept.reading) }
        ensures none { IfNone result ((endpoint : ℕ) → endpoint < 65536
            → report_due self.old.hearing.who.listeners self.old.clock.told ≡ Some endpoint → ⊥) }
        ensures turn { address_book_of self.new.hearing.who ≡ record (address_book_of self.old.hearing.who) {
          listeners = listeners_after self.old.hearing.who.listeners self.old.clock.told;
        } }
        ensures now { IfSome result (λ moment. (moment ≡ self.new.clock.told)
            × (self.new.hearing.kept.sent
            ≡ sent_by view.entry.links.now self.new.hearing.kept.sent.endpoint moment)) }
        ensures later { self.old.clock.told ≤ self.new.clock.told }
        ensures idle { IfNone result ((self.new.clock.told ≡ self.old.clock.told)
            × (self.new.hearing.policies ≡ self.old.hearing.policies)) }
        ensures stays { (self.new.hearing.rest ≡ self.old.hearing.rest)
            × (self.new.hearing.anew ≡ self.old.hearing.anew) }
    {
        let endpoint = self.hearing.report_due(self.clock.told())?;
        let moment = self.moment();
        self.hearing.say_present(view, endpoint, moment);
        Some(moment)
    }

    /// What comes to the sockets next, in time. Nothing of what came before is left.
    fn wait(&mut self, view: RoomView<'_>) -> Result<Came, AllocError>
        requires { (self.old.hearing.rest ≡ None) × (self.old.hearing.anew ≡ None) }
        ensures taken { IfOk result
            (λ came. IfTaken came.admitted (MayBeTaken view.entry.links.now self.new.hearing.kept)) }
        ensures now { IfOk result (λ came. (came.moment ≡ self.new.clock.told)
            × (self.old.clock.told ≤ came.moment)) }
        ensures sent { IfOk result (λ came. IfTaken came.admitted
            (self.new.hearing.kept.sent.moment ≡ came.moment)) }
        ensures waits { IfOk result (λ came. Waits (λ who. record {
          setup = setup_of ⟦<u32 as PartialEq>⟧.eq ⟦<SocketAddr as PartialEq>⟧.eq
              ⟦<IpAddr as PartialEq>⟧.eq who;
          same_origin = ⟦<SourceAddress as PartialEq>⟧.eq;
          source = source_of view.entry.links.now;
        }) view.entry self.old.hearing self.new.hearing came.moment came.admitted) }
    {
        let last = self.clock.told();
        let came = self.hearing.receive(&mut self.inbox, last);
        let moment = self.moment();
        let admitted = match came {
            Ok((size, address)) => Ok(self.hear_came(view, moment, address, size)?),
            Err(error) if is_silence(error.kind()) => Ok(Admitted::Nothing),
            Err(_) => Err(ReceiveFault),
        };
        Ok(Came { moment, admitted })
    }

    /// A datagram of so many bytes came from this address, at this moment. It is heard as of the seat of its client, if that has one; else as it is.
    /// What is nobody's is counted.
    fn hear_came(
        &mut self,
        view: RoomView<'_>,
        moment: u64,
        address: SocketAddr,
        size: usize,
    ) -> Result<Admitted, AllocError>
        requires { size ≤ length self.old.hearing.kept.buffer.items }
        ensures taken { IfOk result
            (λ admitted. IfTaken (Ok admitted) (MayBeTaken view.entry.links.now self.new.hearing.kept)) }
        ensures moment { IfOk result (λ admitted. IfTaken (Ok admitted)
            (self.new.hearing.kept.sent.moment ≡ moment)) }
        ensures hears { IfOk result (λ admitted. HearsExchanged ⟦<SocketAddr as PartialEq>⟧.eq
            (λ who. record {
              setup = setup_of ⟦<u32 as PartialEq>⟧.eq ⟦<SocketAddr as PartialEq>⟧.eq
                  ⟦<IpAddr as PartialEq>⟧.eq who;
              same_origin = ⟦<SourceAddress as PartialEq>⟧.eq;
              source = source_of view.entry.links.now;
            }) view.entry self.old.hearing self.new.hearing (seats_of self.old.seating)
            (seats_of self.new.seating) moment
            (record { address = address; from = 0; to = size }) admitted) }
        ensures clock { self.new.clock ≡ self.old.clock }
    {
        let whose = self
            .hearing
            .exchange(&mut self.seating, address, size, moment);
        match whose {
            Whose::Clients => {
                let admitted = self.hearing.hear_datagram(view, moment, address, size)?;
                self.let_go(admitted);
                Ok(admitted)
            }
            Whose::Ours | Whose::Others => {
                self.hearing.count_stranger(address, 0, size);
                Ok(Admitted::Nothing)
            }
        }
    }

    /// Who said goodbye in what was let in may come under another name.
    fn let_go(&mut self, admitted: Admitted)
        ensures seats { LetsGo (seats_of self.old.seating) (seats_of self.new.seating)
            self.old.hearing admitted }
        ensures stays { (self.new.hearing ≡ self.old.hearing) × (self.new.clock ≡ self.old.clock) }
    {
        if matches!(admitted, Admitted::Taking) && self.hearing.kept.has_left() {
            self.seating.left(self.hearing.kept.sent.endpoint);
        }
    }
}

/// What peers wish, as it is let in.
fn wish_in(received: Received) -> Option<Admitted>
    ensures wish { result ≡ wish_in received }
    ensures wished { IfSome result (λ admitted. is_wish (Ok admitted) ≡ true) }
{
    match received {
        Received::Select { leg, on } => Some(Admitted::Select { leg, on }),
        Received::Stop => Some(Admitted::Stop),
        Received::Nothing | Received::Datagram { .. } => None,
    }
}

/// This was let in at this moment.
fn let_in(moment: u64, admitted: Admitted) -> Came
    ensures { result ≡ record { moment = moment; admitted = Ok admitted } }
{
    Came {
        moment,
        admitted: Ok(admitted),
    }
}

impl<R: time::Clock> Entrance for Door<'_, R> {
    ghost use Rattle.std.specs.Prelude.{None, []};
    ghost use Rattle.udp.specs.Kept.{admission_in, datagram_in};

    ghost given = { λ _. None };

    ghost told = { λ _. None };

    ghost current = { λ d. admission_in d.hearing.kept };

    ghost datagram = { λ d. datagram_in d.hearing.kept };

    ghost names = { λ _. [] };

    fn receive(&mut self, view: RoomView<'_>) -> Result<Came, AllocError> {
        let came = self.next(view)?;
        if matches!(came.admitted, Ok(Admitted::Taking)) {
            self.hearing.kept.is_said();
        }
        self.scribe
            .note(self.run_status, self.traffic, came, &self.hearing.kept);
        Ok(came)
    }

    fn taking(&self) -> Taking<'_> {
        self.hearing.kept.taking()
    }

    fn ticked(&mut self, moment: u64) {
        self.hearing.ticked();
        self.scribe.ticked(self.run_status, moment);
    }
}
