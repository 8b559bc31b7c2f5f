//! What came last, and what of it is taken in.

ghost use Rattle.std.specs.Prelude.{◌≡◌, ◌≤◌, length};

use crate::inbox::Inbox;
use addresses::Seating;
use datagram::{Ask, Control, Notes, Reading, Sent, Taking, What, is_sayable, read_noting};
use entrance::own_source;
use members::RoomView;
use policy::{Again, IngressFilter, Judged, RateRequests};
use ports::MAX_DATAGRAM;
use seats::Whose;
use settings::Links;
use std::alloc::{AllocError, Global};
use std::io;
use std::net::SocketAddr;
use tmmbr_tuple::Ssrc;

/// How many bytes there is room for: the longest datagram that came, and behind it the longest packet that was held.
const ROOM: usize = 2 * MAX_DATAGRAM;

/// How many report blocks there is room for: as many as the longest datagram has (RFC 3550, section 6.4.1).
const BLOCKS: usize = MAX_DATAGRAM / 24;

/// How many entries of a TMMBN: the same (RFC 5104, section 4.2.2.1).
const NOTICES: usize = MAX_DATAGRAM / 8;

/// The bytes that came, which of them are heard, who sent them, and what was read of them.
#[derive(Drop)]
pub(crate) struct Kept {
    pub(crate) buffer: Vec<u8>,
    from: usize,
    to: usize,
    pub(crate) sent: Sent,
    pub(crate) reading: Reading,
    /// What was noted of them beside.
    pub(crate) notes: Notes,
    /// Whether the unit itself says it, in the endpoint's name.
    pub(crate) is_made: bool,
    ghost fits: { (from ≤ to) × (to ≤ length buffer.items) × (length buffer.items ≡ 131070) },
}

impl Kept {
    ghost use Rattle.std.specs.Prelude.{◌≡◌, ◌≤◌, ◌+◌, ◌∷◌, [], true, false, IfNone, IfOk, IfSome, OnOk, length, slice_range};
    ghost use Rattle.addresses.specs.Seating.{Hears, seats_of};
    ghost use Rattle.desk_calls.specs.DeskCalls.{source_of};
    ghost use Rattle.datagram.specs.Notes.{AreNoted, HasSameRoom};
    ghost use Rattle.datagram.specs.Reads.{IsReadUpTo, admission_of};
    ghost use Rattle.datagram.specs.Spelling.{IsAsHeard};
    ghost use Rattle.entrance.specs.Entrance.{IsTakenFrom};
    ghost use Rattle.settings.specs.Links.{LinkTable};
    ghost use Rattle.policy.specs.IngressFilter.{IsAsItWas, Judges, LooksForNothing};
    ghost use Rattle.udp.specs.Kept.{IsOfSame, IsReadFrom, IsSpokenBy, MayBeTaken, SaysGoodbye, admission_in, bytes_of, datagram_in, is_there, sent_by, with_behind};
    ghost use Rattle.udp.specs.Hearing.{has_left, is_goodbye};
    ghost use Rattle.udp.specs.Noted.{HasRoom};
    ghost use Rattle.udp.specs.Policies.{IsHeld};

    /// Nothing came yet. There is room for what is asked for in so many entries, and to note each block, and each entry of a TMMBN, of the longest
    /// datagram.
    pub(crate) fn new(alloc: Global, entries: usize) -> Result<Kept, AllocError>
        ensures buffer { IfOk result (λ k. length k.buffer.items ≡ 131070) }
        ensures room { IfOk result (λ k. HasRoom k.notes) }
        ensures nothing { IfOk result (λ k. AreNoted k.notes []) }
    {
        Ok(Kept {
            buffer: vec![in alloc; 0; ROOM]?,
            from: 0,
            to: 0,
            sent: Sent {
                moment: 0,
                endpoint: 0,
                own: Ssrc(0),
            },
            reading: Reading::with_room(alloc, entries)?,
            notes: Notes::with_room(alloc, BLOCKS, NOTICES)?,
            is_made: false,
        })
    }

    /// The bytes that are heard.
    pub(crate) fn bytes(&self) -> &[u8]
        ensures { result.now ≡ bytes_of self.now }
    {
        &self.buffer.as_slice()[self.from..self.to]
    }

    /// Reads the bytes from a place to another, which are the endpoint's of this moment: what they ask for in so many entries at most.
    pub(crate) fn read(
        &mut self,
        links: &Links,
        moment: u64,
        endpoint: u16,
        from: usize,
        to: usize,
        most: Option<usize>,
    ) -> Result<(), AllocError>
        requires { (from ≤ to) × (to ≤ length self.old.buffer.items) }
        ensures taken { OnOk result (MayBeTaken links.now self.new) }
        ensures read { OnOk result (IsReadUpTo (source_of links.now endpoint).0
            (slice_range self.old.buffer.items from to) most self.new.reading) }
        ensures from { OnOk result (IsReadFrom (sent_by links.now endpoint moment)
            (slice_range self.old.buffer.items from to) most self.new) }
        ensures bytes { bytes_of self.new ≡ slice_range self.old.buffer.items from to }
        ensures sent { self.new.sent ≡ sent_by links.now endpoint moment }
        ensures room { HasSameRoom self.old.notes self.new.notes }
        ensures buffer { self.new.buffer ≡ self.old.buffer }
    {
        self.from = from;
        self.to = to;
        self.stand_for(links, moment, endpoint);
        self.is_made = false;
        read_noting(
            &self.buffer.as_slice()[from..to],
            self.sent.own,
            most,
            &mut self.reading,
            &mut self.notes,
        )
    }

    /// Whether its endpoint sends a BYE.
    pub(crate) fn is_goodbye(&self) -> bool
        ensures { result ≡ is_goodbye self.now.reading.what }
    {
        matches!(self.reading.what, What::Goodbye)
    }

    /// Judges what was read.
    pub(crate) fn judge(&mut self, ingress_filter: &mut IngressFilter<'_>) -> Judged
        ensures judged { Judges ingress_filter.old ingress_filter.new self.old.sent self.old.reading
            self.new.reading result }
        ensures off { LooksForNothing ingress_filter.old
            → IsAsItWas ingress_filter.old ingress_filter.new self.old.reading self.new.reading result }
        ensures taken { (table : LinkTable) → MayBeTaken table self.old → MayBeTaken table self.new }
        ensures same { IsOfSame self.old self.new }
    {
        ingress_filter.judge(self.sent, &mut self.reading)
    }

    /// Holds what is asked for in what was read, and leaves out what can't be asked for yet, or isn't heard at once.
    pub(crate) fn hold(&mut self, requests: &mut RateRequests<'_>, view: RoomView<'_>)
        ensures holds { IsHeld requests.old requests.new self.old.sent view.entry self.old.reading
            self.new.reading }
        ensures taken { (table : LinkTable) → MayBeTaken table self.old → MayBeTaken table self.new }
        ensures same { IsOfSame self.old self.new }
    {
        requests.hear(
            self.sent,
            view,
            &mut self.reading,
            self.notes.notice.as_slice(),
        );
    }

    /// Whether its endpoint sends a BYE itself.
    pub(crate) fn has_left(&self) -> bool
        ensures { result ≡ has_left self.now }
    {
        self.is_goodbye() && !self.is_made
    }

    /// A datagram of so many bytes came from this address at this moment: whose it is; if it is that of a seat's client, what is heard of it is
    /// written over it.
    pub(crate) fn exchange(
        &mut self,
        seating: &mut Seating<'_>,
        address: SocketAddr,
        size: usize,
        moment: u64,
    ) -> Whose
        requires { size ≤ length self.old.buffer.items }
        ensures hears { Hears ⟦<SocketAddr as PartialEq>⟧.eq (seats_of seating.old) (seats_of seating.new)
            address (slice_range self.old.buffer.items 0 size)
            (slice_range self.new.buffer.items 0 size) moment result }
        ensures length { length self.new.buffer.items ≡ length self.old.buffer.items }
    {
        seating.hear(address, &mut self.buffer.as_mut_slice()[0..size], moment)
    }

    /// Receives the next datagram of an inbox: how long it is, and where it came from. The last moment that was told was this one.
    pub(crate) fn receive(
        &mut self,
        inbox: &mut Inbox<'_>,
        moment: u64,
    ) -> io::Result<(usize, SocketAddr)>
        ensures within { IfOk result (λ came. came.0 ≤ length self.new.buffer.items) }
    {
        inbox.receive(moment, self.buffer.as_mut_slice())
    }

    /// What is read is of this endpoint and moment.
    fn stand_for(&mut self, links: &Links, moment: u64, endpoint: u16)
        ensures sent { self.new.sent ≡ sent_by links.now endpoint moment }
        ensures bytes { bytes_of self.new ≡ bytes_of self.old }
        ensures buffer { self.new.buffer ≡ self.old.buffer }
        ensures notes { self.new.notes ≡ self.old.notes }
    {
        self.sent = Sent {
            moment,
            endpoint,
            own: own_source(links, endpoint),
        };
    }

    /// Copies a packet that was held behind where datagrams come, and says where it ends. `None` if there is none.
    pub(crate) fn copy_behind(&mut self, packet: &[u8]) -> Option<usize>
        ensures some { IfSome result (λ to. (is_there packet.now ≡ true)
            × (to ≡ 65535 + length packet.now) × (self.new.buffer.items
            ≡ with_behind self.old.buffer.items packet.now)) }
        ensures within { IfSome result (λ to. (65535 ≤ to) × (to ≤ length self.new.buffer.items)) }
        ensures none { IfNone result (is_there packet.now ≡ false) }
    {
        if !Kept::is_there(packet) {
            return None;
        }
        Kept::put_behind(self.buffer.as_mut_slice(), packet);
        Some(MAX_DATAGRAM + packet.len())
    }

    /// Writes a packet behind where datagrams come.
    fn put_behind(out: &mut [u8], packet: &[u8])
        requires { 65535 + length packet.now ≤ length out.old }
        ensures put { out.new ≡ with_behind out.old packet.now }
        ensures length { length out.new ≡ length out.old }
    {
        out[MAX_DATAGRAM..MAX_DATAGRAM + packet.len()].copy_from_slice(packet);
    }

    /// Whether there is a packet, and it isn't longer than a datagram.
    fn is_there(packet: &[u8]) -> bool
        ensures { result ≡ is_there packet.now }
    {
        !packet.is_empty() && packet.len() <= MAX_DATAGRAM
    }

    /// The endpoint sends a BYE, in place of what was read.
    pub(crate) fn say_goodbye(&mut self)
        ensures says { SaysGoodbye self.new.reading }
        ensures taken { (table : LinkTable) → MayBeTaken table self.old → MayBeTaken table self.new }
        ensures same { IsOfSame self.old self.new }
    {
        self.reading.what = What::Goodbye;
        self.reading.asks.clear();
        self.is_made = true;
    }

    /// The endpoint says that it is there, and nothing more.
    pub(crate) fn say_present(&mut self, links: &Links, moment: u64, endpoint: u16)
        ensures taken { MayBeTaken links.now self.new }
        ensures says { IsSpokenBy (source_of links.now endpoint) [] self.new.reading }
        ensures sent { self.new.sent ≡ sent_by links.now endpoint moment }
    {
        self.stand_for(links, moment, endpoint);
        let own = self.sent.own;
        self.speak(own);
    }

    /// A subscriber asks for a rate once more. Refused for want of memory alone.
    pub(crate) fn ask_again(
        &mut self,
        links: &Links,
        moment: u64,
        again: Again,
    ) -> Result<(), AllocError>
        ensures taken { OnOk result (MayBeTaken links.now self.new) }
        ensures says { OnOk result (IsSpokenBy again.speaker
            (Ask.Rate again.media again.word ∷ []) self.new.reading) }
        ensures sent { self.new.sent ≡ sent_by links.now again.endpoint moment }
    {
        self.stand_for(links, moment, again.endpoint);
        self.speak(again.speaker);
        self.reading.asks.push(Ask::Rate {
            media: again.media,
            word: again.word,
        })?;
        Ok(())
    }

    /// Who speaks says nothing more.
    fn speak(&mut self, speaker: Ssrc)
        ensures taken { (table : LinkTable)
            → self.old.sent.own ≡ source_of table self.old.sent.endpoint
            → MayBeTaken table self.new }
        ensures says { IsSpokenBy speaker [] self.new.reading }
        ensures sent { self.new.sent ≡ self.old.sent }
    {
        self.reading.what = What::Control(Control {
            speaker,
            report: None,
            tmmbns: 0,
        });
        self.reading.asks.clear();
        self.is_made = true;
    }

    /// What is to be taken in.
    pub(crate) fn taking(&self) -> Taking<'_>
        ensures { admission_of result ≡ admission_in self.now }
    {
        self.reading.taking(self.sent.endpoint, self.bytes())
    }

    /// What may be taken in is said by a datagram. This compiles to nothing.
    #[tactic(auto, unfolding(datagram::specs::Spelling::spelling))]
    pub(crate) fn is_said(&self)
        requires { IsAsHeard self.now.sent.own.0 self.now.reading.what self.now.reading.asks.items
            (bytes_of self.now) }
        ensures { (table : LinkTable) → MayBeTaken table self.now
            → IsTakenFrom table (admission_in self.now) (datagram_in self.now) }
    {
        is_sayable(
            self.sent.own,
            self.reading.what,
            self.reading.asks.as_slice(),
            self.bytes(),
        );
    }
}
