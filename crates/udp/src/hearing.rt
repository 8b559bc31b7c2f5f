//! What is heard of what came: the packets of a datagram from its front on, each as of who sent it, by the rules of the unit.

ghost use Rattle.std.specs.Prelude.{◌≡◌, ◌≤◌, ◌<◌, ◌+◌, ◌∷◌, ℕ, [], false, true, None, Some, Ok, IfNone, IfOk, IfSome, OnOk, length, slice_get, slice_range, replicate};
ghost use Rattle.entrance.specs.Entrance.{IfTaken};
ghost use Rattle.desk_calls.specs.DeskCalls.{source_of};
ghost use Rattle.policy.specs.FloodLimiter.{buckets_with, empty_bucket, is_within};
ghost use Rattle.addresses.specs.Listeners.{listeners_after, report_due};
ghost use Rattle.addresses.specs.Seating.{Hears, seats_of};
ghost use Rattle.datagram.specs.Naming.{source_named};
ghost use Rattle.addresses.specs.SenderTable.{front_length, sender_of};
ghost use Rattle.udp.specs.Hearing.{HearsDatagram, HearsFar, HearsRead, HearsRest, IsNoted, IsPresentHeld, LetsIn, LooksAt, TakesIn, anew_after, packets_in, rest_behind, stand_of};
ghost use Rattle.udp.specs.Kept.{IsSpokenBy, MayBeTaken, bytes_of, is_there, sent_by};
ghost use Rattle.policy.specs.RateRequests.{BeginsBy, Ticks, is_due};
ghost use Rattle.udp.specs.Policies.{far_of, most_by, ruling_of};
ghost use Rattle.udp.specs.Who.{address_book_of, setup_of};

use crate::door::Outlook;
use crate::inbox::Inbox;
use crate::kept::Kept;
use crate::policies::Policies;
use crate::who::Who;
use addresses::{Client, FirstPacket, Listening, Seating, SourceAddress};
use datagram::{Sent, source_named};
use entrance::Admitted;
use members::RoomView;
use operations::RunStatus;
use policy::{Judged, Rules};
use ports::MAX_DATAGRAM;
use rtcp_compound::is_rtcp;
use seats::Whose;
use settings::Settings;
use stats::Traffic;
use std::alloc::{AllocError, Global};
use std::io;
use std::net::{IpAddr, SocketAddr};
use tmmbr_tuple::Ssrc;

/// How many entries of one datagram there is room for from the beginning.
const ENTRIES: usize = 256;

/// The version of RTP, in the first two bits of a packet.
const VERSION: u8 = 2;

/// The packets of a datagram, or those after what was heard of it.
#[derive(Clone, Copy)]
pub(crate) struct Leftover {
    /// Where the datagram came from.
    address: SocketAddr,
    /// Where they stand among the bytes that are kept.
    from: usize,
    to: usize,
}

/// What is heard of an endpoint that began anew, after a BYE in its name: its last far packet, and then the one that followed that.
#[derive(Clone, Copy)]
pub(crate) struct Anew {
    endpoint: u16,
    /// Whether the far one was heard.
    is_far_heard: bool,
    /// Where the other one stands among the bytes that are kept.
    from: usize,
    to: usize,
}

/// What is let in. Refused for want of memory alone.
type Receipt = Result<Admitted, AllocError>;

/// What came last, what of it is left to be heard, and what is known of who sends.
#[derive(Drop)]
pub(crate) struct Hearing<'a> {
    pub(crate) kept: Kept,
    pub(crate) rest: Option<Leftover>,
    pub(crate) anew: Option<Anew>,
    who: Who<'a>,
    policies: Policies<'a>,
    run_status: &'a RunStatus,
    traffic: &'a Traffic,
}

impl<'a> Hearing<'a> {
    ghost use Rattle.udp.specs.Hearing.{AsksAgain};

    /// Nothing came yet.
    pub(crate) fn new(
        alloc: Global,
        listening: Listening,
        settings: &'a Settings,
        clients: &'a [Client],
        rules: Rules,
        outlook: Outlook<'a>,
    ) -> Result<Hearing<'a>, AllocError>
        ensures floods { IfOk result (λ h. h.policies.floods ≡ (
          rules.flood_limit,
          replicate (length settings.now.endpoints) empty_bucket,
        )) }
        ensures rules { IfOk result (λ h. h.policies.ingress_filter.rules ≡ rules) }
        ensures holds { IfOk result (λ h. BeginsBy rules settings.now h.policies.requests) }
        ensures most { IfOk result (λ h. h.policies.most ≡ most_by rules.entry_limit) }
        ensures nothing { IfOk result (λ h. (h.rest ≡ None) × (h.anew ≡ None)) }
    {
        let Outlook {
            directory,
            run_status,
            traffic,
            sets,
        } = outlook;
        let who = Who::new(alloc, listening, settings, clients, directory, run_status)?;
        let policies = Policies::new(alloc, settings, rules, run_status, traffic, sets)?;
        Ok(Hearing {
            kept: Kept::new(alloc, policies.most.unwrap_or(ENTRIES))?,
            rest: None,
            anew: None,
            who,
            policies,
            run_status,
            traffic,
        })
    }

    /// What is heard next of an endpoint that began anew.
    pub(crate) fn hear_anew(&mut self, view: RoomView<'_>, moment: u64, anew: Anew) -> Receipt
        ensures taken { IfOk result
            (λ admitted. IfTaken (Ok admitted) (MayBeTaken view.entry.links.now self.new.kept)) }
        ensures sent { IfOk result (λ admitted. IfTaken (Ok admitted)
            (self.new.kept.sent ≡ sent_by view.entry.links.now anew.endpoint moment)) }
        ensures packet { anew.is_far_heard ≡ true → anew.from ≤ anew.to
            → anew.to ≤ length self.old.kept.buffer.items → IfOk result (λ admitted.
            TakesIn (sent_by view.entry.links.now anew.endpoint moment)
            self.old.kept.buffer.items (ruling_of self.old.policies) view.entry anew.from anew.to
            self.new admitted) }
        ensures far { anew.is_far_heard ≡ false
            → is_there (far_of self.old.policies.held_packets anew.endpoint) ≡ true
            → IfOk result (λ admitted. HearsFar
            (sent_by view.entry.links.now anew.endpoint moment) self.old self.new view.entry
            admitted) }
        ensures none { anew.is_far_heard ≡ false
            → is_there (far_of self.old.policies.held_packets anew.endpoint) ≡ false
            → IfOk result (λ admitted. admitted ≡ Admitted.Nothing) }
        ensures next { self.new.anew ≡ anew_after anew }
        ensures stays { (self.new.rest ≡ self.old.rest) × (self.new.who ≡ self.old.who)
            × (self.new.policies.floods ≡ self.old.policies.floods) }
    {
        let Anew {
            endpoint,
            is_far_heard,
            from,
            to,
        } = anew;
        if is_far_heard {
            self.anew = None;
            return self.hear_again(view, moment, endpoint, from, to);
        }
        self.anew = Some(Anew {
            is_far_heard: true,
            ..anew
        });
        let Some(to) = self.policies.take_far(&mut self.kept, endpoint, moment) else {
            return Ok(Admitted::Nothing);
        };
        self.hear_again(view, moment, endpoint, MAX_DATAGRAM, to)
    }

    /// A packet that was judged before is heard.
    fn hear_again(
        &mut self,
        view: RoomView<'_>,
        moment: u64,
        endpoint: u16,
        from: usize,
        to: usize,
    ) -> Receipt
        ensures taken { IfOk result
            (λ admitted. IfTaken (Ok admitted) (MayBeTaken view.entry.links.now self.new.kept)) }
        ensures sent { IfOk result (λ admitted. IfTaken (Ok admitted)
            (self.new.kept.sent ≡ sent_by view.entry.links.now endpoint moment)) }
        ensures packet { from ≤ to → to ≤ length self.old.kept.buffer.items → IfOk result
            (λ admitted. TakesIn (sent_by view.entry.links.now endpoint moment)
            self.old.kept.buffer.items (ruling_of self.old.policies) view.entry from to self.new
            admitted) }
        ensures stays { (self.new.rest ≡ self.old.rest) × (self.new.anew ≡ self.old.anew)
            × (self.new.who ≡ self.old.who)
            × (self.new.policies.floods ≡ self.old.policies.floods) }
    {
        if from > to || to > self.kept.buffer.len() {
            return Ok(Admitted::Nothing);
        }
        self.kept
            .read(view.links, moment, endpoint, from, to, self.policies.most)?;
        self.policies.hold(&mut self.kept, view);
        Ok(Admitted::Taking)
    }

    /// What is heard next of the rest of a datagram.
    pub(crate) fn hear_rest(&mut self, view: RoomView<'_>, moment: u64, rest: Leftover) -> Receipt
        ensures taken { IfOk result
            (λ admitted. IfTaken (Ok admitted) (MayBeTaken view.entry.links.now self.new.kept)) }
        ensures moment { IfOk result
            (λ admitted. IfTaken (Ok admitted) (self.new.kept.sent.moment ≡ moment)) }
        ensures floods { self.new.policies.floods ≡ self.old.policies.floods }
        ensures left { rest.from ≤ rest.to → rest.to ≤ length self.old.kept.buffer.items
            → self.new.rest ≡ rest_behind rest (front_length ⟦<SocketAddr as PartialEq>⟧.eq
            self.old.who.senders rest.address (packets_in self.old.kept rest)) }
        ensures hears { rest.from ≤ rest.to → rest.to ≤ length self.old.kept.buffer.items
            → IfOk result (λ admitted. HearsRest (record {
              setup = setup_of ⟦<u32 as PartialEq>⟧.eq ⟦<SocketAddr as PartialEq>⟧.eq
                  ⟦<IpAddr as PartialEq>⟧.eq self.old.who;
              same_origin = ⟦<SourceAddress as PartialEq>⟧.eq;
              source = source_of view.entry.links.now;
            }) view.entry self.old self.new moment rest admitted) }
    {
        let Leftover { address, from, to } = rest;
        if from > to || to > self.kept.buffer.len() {
            self.rest = None;
            return Ok(Admitted::Nothing);
        }
        let front = self
            .who
            .front(address, &self.kept.buffer.as_slice()[from..to]);
        let admitted = self.hear_front(view, moment, rest, front)?;
        Ok(admitted)
    }

    /// A datagram of so many bytes came from this address.
    pub(crate) fn hear_datagram(
        &mut self,
        view: RoomView<'_>,
        moment: u64,
        address: SocketAddr,
        size: usize,
    ) -> Receipt
        requires { size ≤ length self.old.kept.buffer.items }
        ensures taken { IfOk result
            (λ admitted. IfTaken (Ok admitted) (MayBeTaken view.entry.links.now self.new.kept)) }
        ensures moment { IfOk result
            (λ admitted. IfTaken (Ok admitted) (self.new.kept.sent.moment ≡ moment)) }
        ensures hears { IfOk result (λ admitted. HearsDatagram (record {
          setup = setup_of ⟦<u32 as PartialEq>⟧.eq ⟦<SocketAddr as PartialEq>⟧.eq
              ⟦<IpAddr as PartialEq>⟧.eq self.old.who;
          same_origin = ⟦<SourceAddress as PartialEq>⟧.eq;
          source = source_of view.entry.links.now;
        }) view.entry self.old self.new moment (record { address = address; from = 0; to = size })
            admitted) }
    {
        let whole = Leftover {
            address,
            from: 0,
            to: size,
        };
        let front = self
            .who
            .arrive(address, &self.kept.buffer.as_slice()[0..size], moment);
        let admitted = self.hear_arrived(view, moment, whole, front)?;
        Ok(admitted)
    }

    /// A datagram came, of which this is the front. If there is no room for one more of its endpoint, nothing of it is heard; else it is counted.
    fn hear_arrived(
        &mut self,
        view: RoomView<'_>,
        moment: u64,
        whole: Leftover,
        front: FirstPacket,
    ) -> Receipt
        requires { (whole.from + front.length ≤ whole.to)
            × (whole.to ≤ length self.old.kept.buffer.items) }
        ensures taken { IfOk result
            (λ admitted. IfTaken (Ok admitted) (MayBeTaken view.entry.links.now self.new.kept)) }
        ensures counted { (endpoint : ℕ) → front.endpoint ≡ Some endpoint → self.new.policies.floods
            ≡ (
              self.old.policies.floods.0,
              buckets_with self.old.policies.floods.0
                  self.old.policies.floods.1 endpoint moment,
            ) }
        ensures flood { (endpoint : ℕ) → front.endpoint ≡ Some endpoint
            → is_within self.old.policies.floods.0
            (slice_get self.old.policies.floods.1 endpoint) moment ≡ false
            → (result ≡ Ok Admitted.Nothing) × (self.new.rest ≡ None)
            × (address_book_of self.new.who ≡ address_book_of self.old.who)
            × (stand_of self.new ≡ stand_of self.old) }
        ensures moment { IfOk result
            (λ admitted. IfTaken (Ok admitted) (self.new.kept.sent.moment ≡ moment)) }
        ensures sender { (endpoint : ℕ) → front.endpoint ≡ Some endpoint
            → is_within self.old.policies.floods.0
            (slice_get self.old.policies.floods.1 endpoint) moment ≡ true
            → OnOk result (LooksAt self.old.kept self.new.kept whole front.length endpoint) }
        ensures noted { (endpoint : ℕ) → front.endpoint ≡ Some endpoint
            → is_within self.old.policies.floods.0
            (slice_get self.old.policies.floods.1 endpoint) moment ≡ true
            → OnOk result (IsNoted (source_of view.entry.links.now endpoint).0 endpoint moment
            (slice_range self.old.kept.buffer.items whole.from (whole.from + front.length))
            (address_book_of self.old.who) (address_book_of self.new.who)) }
        ensures judged { (endpoint : ℕ) → front.endpoint ≡ Some endpoint
            → is_within self.old.policies.floods.0
            (slice_get self.old.policies.floods.1 endpoint) moment ≡ true
            → IfOk result (λ admitted. HearsRead (sent_by view.entry.links.now endpoint moment)
            (stand_of self.old) view.entry whole.from (whole.from + front.length) self.new
            admitted) }
        ensures left { (endpoint : ℕ) → front.endpoint ≡ Some endpoint
            → is_within self.old.policies.floods.0
            (slice_get self.old.policies.floods.1 endpoint) moment ≡ true
            → self.new.rest ≡ rest_behind whole front.length }
        ensures stranger { front.endpoint ≡ None → (result ≡ Ok Admitted.Nothing)
            × (self.new.rest ≡ rest_behind whole front.length)
            × (address_book_of self.new.who ≡ address_book_of self.old.who)
            × (self.new.policies.floods ≡ self.old.policies.floods)
            × (stand_of self.new ≡ stand_of self.old) }
    {
        self.rest = None;
        if !self.admits(front.endpoint, moment) {
            return Ok(Admitted::Nothing);
        }
        self.hear_front(view, moment, whole, front)
    }

    /// Whether a datagram of this endpoint, or of a stranger, is looked at; if not, it is counted.
    fn admits(&mut self, endpoint: Option<u16>, moment: u64) -> bool
        ensures counted { (number : ℕ) → endpoint ≡ Some number
            → (result ≡ is_within self.old.policies.floods.0
            (slice_get self.old.policies.floods.1 number) moment)
            × (self.new.policies.floods
            ≡ (
              self.old.policies.floods.0,
              buckets_with self.old.policies.floods.0
                  self.old.policies.floods.1 number moment,
            )) }
        ensures strangers { endpoint ≡ None
            → (result ≡ true) × (self.new.policies.floods ≡ self.old.policies.floods) }
        ensures stays { (self.new.kept ≡ self.old.kept) × (self.new.rest ≡ self.old.rest)
            × (self.new.anew ≡ self.old.anew) × (self.new.who ≡ self.old.who) }
        ensures stand { stand_of self.new ≡ stand_of self.old }
    {
        let Some(endpoint) = endpoint else {
            return true;
        };
        let is_heard = self.policies.admit(endpoint, moment);
        if !is_heard {
            self.run_status.count_flooded(endpoint);
        }
        is_heard
    }

    /// What is at the front of these packets is heard, as of who sent it; what is behind it is left. A stranger's is counted.
    fn hear_front(
        &mut self,
        view: RoomView<'_>,
        moment: u64,
        packets: Leftover,
        front: FirstPacket,
    ) -> Receipt
        requires { (packets.from + front.length ≤ packets.to)
            × (packets.to ≤ length self.old.kept.buffer.items) }
        ensures taken { IfOk result
            (λ admitted. IfTaken (Ok admitted) (MayBeTaken view.entry.links.now self.new.kept)) }
        ensures left { self.new.rest ≡ rest_behind packets front.length }
        ensures floods { self.new.policies.floods ≡ self.old.policies.floods }
        ensures sender { (endpoint : ℕ) → front.endpoint ≡ Some endpoint
            → OnOk result (LooksAt self.old.kept self.new.kept packets front.length endpoint) }
        ensures noted { (endpoint : ℕ) → front.endpoint ≡ Some endpoint → OnOk result
            (IsNoted (source_of view.entry.links.now endpoint).0 endpoint moment
            (slice_range self.old.kept.buffer.items packets.from (packets.from + front.length))
            (address_book_of self.old.who) (address_book_of self.new.who)) }
        ensures judged { (endpoint : ℕ) → front.endpoint ≡ Some endpoint → IfOk result
            (λ admitted. HearsRead (sent_by view.entry.links.now endpoint moment)
            (stand_of self.old) view.entry packets.from (packets.from + front.length) self.new
            admitted) }
        ensures moment { IfOk result
            (λ admitted. IfTaken (Ok admitted) (self.new.kept.sent.moment ≡ moment)) }
        ensures stranger { front.endpoint ≡ None → (result ≡ Ok Admitted.Nothing)
            × (address_book_of self.new.who ≡ address_book_of self.old.who)
            × (stand_of self.new ≡ stand_of self.old) }
    {
        let Leftover { address, from, to } = packets;
        let end = from + front.length;
        self.rest = if end < to {
            Some(Leftover {
                address,
                from: end,
                to,
            })
        } else {
            None
        };
        match front.endpoint {
            Some(endpoint) => self.hear(view, moment, endpoint, from, end),
            None => {
                self.count_stranger(address, from, end);
                Ok(Admitted::Nothing)
            }
        }
    }

    /// Counts what came from nobody, at this address, and stands there.
    pub(crate) fn count_stranger(&self, address: SocketAddr, from: usize, to: usize)
        requires { (from ≤ to) × (to ≤ length self.now.kept.buffer.items) }
    {
        let packets = &self.kept.buffer.as_slice()[from..to];
        self.run_status
            .count_stranger(address, media_source(packets), source_named(packets));
    }

    /// What is heard of an endpoint's packets: they are read, their endpoint is welcomed, and they are counted and judged.
    fn hear(
        &mut self,
        view: RoomView<'_>,
        moment: u64,
        endpoint: u16,
        from: usize,
        to: usize,
    ) -> Receipt
        requires { (from ≤ to) × (to ≤ length self.old.kept.buffer.items) }
        ensures taken { IfOk result
            (λ admitted. IfTaken (Ok admitted) (MayBeTaken view.entry.links.now self.new.kept)) }
        ensures heard { OnOk result (bytes_of self.new.kept
            ≡ slice_range self.old.kept.buffer.items from to) }
        ensures sent { OnOk result (self.new.kept.sent
            ≡ sent_by view.entry.links.now endpoint moment) }
        ensures noted { OnOk result (IsNoted (source_of view.entry.links.now endpoint).0 endpoint moment
            (slice_range self.old.kept.buffer.items from to) (address_book_of self.old.who)
            (address_book_of self.new.who)) }
        ensures judged { IfOk result (λ admitted. HearsRead
            (sent_by view.entry.links.now endpoint moment) (stand_of self.old) view.entry from to
            self.new admitted) }
        ensures rest { (self.new.rest ≡ self.old.rest)
            × (self.new.policies.floods ≡ self.old.policies.floods) }
    {
        self.kept
            .read(view.links, moment, endpoint, from, to, self.policies.most)?;
        self.policies.welcome(&self.kept, view);
        count(&self.kept, self.traffic, self.run_status);
        self.who.note(endpoint, moment, self.kept.is_goodbye());
        let judged = self.policies.judge(&mut self.kept);
        let admitted = self.let_in(view, judged, from, to);
        Ok(admitted)
    }

    /// What is let in of what was read of the packets that stand there, and judged so.
    fn let_in(&mut self, view: RoomView<'_>, judged: Judged, from: usize, to: usize) -> Admitted
        ensures lets { LetsIn judged (ruling_of self.old.policies) (ruling_of self.new.policies)
            self.old.kept self.new.kept view.entry self.old.anew self.new.anew from to result }
        ensures taken { MayBeTaken view.entry.links.now self.old.kept
            → MayBeTaken view.entry.links.now self.new.kept }
        ensures stays { (self.new.rest ≡ self.old.rest) × (self.new.who ≡ self.old.who)
            × (self.new.policies.floods ≡ self.old.policies.floods) }
    {
        match judged {
            Judged::Take => {
                self.policies.hold(&mut self.kept, view);
                Admitted::Taking
            }
            Judged::HoldPacket => Admitted::Nothing,
            Judged::Anew => {
                self.anew = Some(Anew {
                    endpoint: self.kept.sent.endpoint,
                    is_far_heard: false,
                    from,
                    to,
                });
                self.kept.say_goodbye();
                self.policies.hold(&mut self.kept, view);
                Admitted::Taking
            }
        }
    }

    /// Whether a publisher came for whom requests are held.
    pub(crate) fn is_held(&self) -> bool
        ensures { result ≡ is_due self.now.policies.requests }
    {
        self.policies.is_waiting()
    }

    /// A request that is held is heard at this moment, if one is due.
    pub(crate) fn ask_again(&mut self, view: RoomView<'_>, moment: u64) -> Result<bool, AllocError>
        ensures taken { IfOk result
            (λ asked. asked ≡ true → MayBeTaken view.entry.links.now self.new.kept) }
        ensures hears { IfOk result (λ asked. AsksAgain self.old self.new view.entry moment asked) }
        ensures moment { IfOk result
            (λ asked. asked ≡ true → self.new.kept.sent.moment ≡ moment) }
        ensures stays { (self.new.rest ≡ self.old.rest) × (self.new.anew ≡ self.old.anew)
            × (self.new.who ≡ self.old.who)
            × (self.new.policies.floods ≡ self.old.policies.floods)
            × (self.new.policies.ingress_filter ≡ self.old.policies.ingress_filter)
            × (self.new.policies.held_packets ≡ self.old.policies.held_packets)
            × (self.new.policies.most ≡ self.old.policies.most) }
    {
        let Some(again) = self.policies.next_heard(view, moment) else {
            return Ok(false);
        };
        self.kept.ask_again(view.links, moment, again)?;
        Ok(true)
    }

    /// In whose name a report is due at this moment, since it only listens. It had its turn then.
    pub(crate) fn report_due(&mut self, moment: u64) -> Option<u16>
        ensures due { IfSome result (λ endpoint.
            report_due self.old.who.listeners moment ≡ Some endpoint) }
        ensures none { IfNone result ((endpoint : ℕ) → endpoint < 65536
            → report_due self.old.who.listeners moment ≡ Some endpoint → ⊥) }
        ensures turn { address_book_of self.new.who ≡ record (address_book_of self.old.who) {
          listeners = listeners_after self.old.who.listeners moment;
        } }
        ensures stays { (self.new.rest ≡ self.old.rest) × (self.new.anew ≡ self.old.anew)
            × (self.new.policies ≡ self.old.policies) × (self.new.kept ≡ self.old.kept) }
    {
        self.who.report_due(moment)
    }

    /// It is said in the endpoint's name that it is there.
    pub(crate) fn say_present(&mut self, view: RoomView<'_>, endpoint: u16, moment: u64)
        ensures taken { MayBeTaken view.entry.links.now self.new.kept }
        ensures says { IsSpokenBy (source_of view.entry.links.now endpoint) []
            self.new.kept.reading }
        ensures sent { self.new.kept.sent ≡ sent_by view.entry.links.now endpoint moment }
        ensures holds { IsPresentHeld self.old.policies.requests self.new.policies.requests
            (sent_by view.entry.links.now endpoint moment) view.entry self.new.kept.reading }
        ensures stays { (self.new.rest ≡ self.old.rest) × (self.new.anew ≡ self.old.anew)
            × (self.new.who ≡ self.old.who)
            × (self.new.policies.floods ≡ self.old.policies.floods)
            × (self.new.policies.ingress_filter ≡ self.old.policies.ingress_filter)
            × (self.new.policies.held_packets ≡ self.old.policies.held_packets)
            × (self.new.policies.most ≡ self.old.policies.most) }
    {
        self.kept.say_present(view.links, moment, endpoint);
        self.policies.hold(&mut self.kept, view);
    }

    /// A datagram of so many bytes came from this address at this moment: whose it is; if it is that of a seat's client, what is heard of it is
    /// written over it.
    pub(crate) fn exchange(
        &mut self,
        seating: &mut Seating<'_>,
        address: SocketAddr,
        size: usize,
        moment: u64,
    ) -> Whose
        requires { size ≤ length self.old.kept.buffer.items }
        ensures hears { Hears ⟦<SocketAddr as PartialEq>⟧.eq (seats_of seating.old) (seats_of seating.new)
            address (slice_range self.old.kept.buffer.items 0 size)
            (slice_range self.new.kept.buffer.items 0 size) moment result }
        ensures length { length self.new.kept.buffer.items ≡ length self.old.kept.buffer.items }
        ensures stays { (self.new.rest ≡ self.old.rest) × (self.new.anew ≡ self.old.anew)
            × (self.new.who ≡ self.old.who) × (self.new.policies ≡ self.old.policies) }
    {
        self.kept.exchange(seating, address, size, moment)
    }

    /// Receives the next datagram of an inbox: how long it is, and where it came from. The last moment that was told was this one.
    pub(crate) fn receive(
        &mut self,
        inbox: &mut Inbox<'_>,
        moment: u64,
    ) -> io::Result<(usize, SocketAddr)>
        ensures within { IfOk result (λ came. came.0 ≤ length self.new.kept.buffer.items) }
        ensures stays { (self.new.rest ≡ self.old.rest) × (self.new.anew ≡ self.old.anew)
            × (self.new.who ≡ self.old.who) × (self.new.policies ≡ self.old.policies) }
    {
        self.kept.receive(inbox, moment)
    }

    /// A tick was made.
    pub(crate) fn ticked(&mut self)
        ensures kept { self.new.kept ≡ self.old.kept }
        ensures ticks { Ticks self.old.policies.requests self.new.policies.requests }
        ensures stays { (self.new.rest ≡ self.old.rest) × (self.new.anew ≡ self.old.anew)
            × (self.new.who ≡ self.old.who)
            × (self.new.policies.floods ≡ self.old.policies.floods)
            × (self.new.policies.ingress_filter ≡ self.old.policies.ingress_filter)
            × (self.new.policies.held_packets ≡ self.old.policies.held_packets)
            × (self.new.policies.most ≡ self.old.policies.most) }
    {
        self.policies.ticked();
    }
}

/// Under which SSRC an RTP packet is, if these are one (RFC 3550, section 5.1).
fn media_source(packets: &[u8]) -> Option<Ssrc> {
    let first = packets.first()?;
    if *first / 64 != VERSION || is_rtcp(packets) {
        return None;
    }
    match source_named(packets) {
        Some(source) => Some(Ssrc(source)),
        None => None,
    }
}

/// Counts what was read.
fn count(kept: &Kept, traffic: &Traffic, run_status: &RunStatus) {
    let Sent {
        moment,
        endpoint,
        own,
    } = kept.sent;
    let bytes = kept.bytes();
    if is_rtcp(bytes) {
        traffic.heard_control(endpoint, bytes.len(), &kept.notes, moment);
    } else {
        traffic.heard_packet(endpoint, bytes.len(), moment);
        if let Some(source) = media_source(bytes) {
            run_status.note_packet(endpoint, own, source);
        }
    }
    let beyond = run_status.beyond.get();
    run_status
        .beyond
        .set(beyond.saturating_add(kept.reading.beyond));
}
