//! What is held of a unit's legs, as what endpoints say is heard.

ghost use Rattle.std.specs.Prelude.{◌≡◌, ◌<◌, ◌-◌, ◌^◌, ℕ, List, false, None, fold, IfOk, IfSome};
ghost use Rattle.std.specs.List.{list_any};
ghost use Rattle.settings.specs.Links.{legs_of};
ghost use Rattle.datagram.specs.Spelling.{IsAsHeard};
ghost use Rattle.policy.specs.Again.{next_again};
ghost use Rattle.policy.specs.Asking.{asking};
ghost use Rattle.policy.specs.JoinedPublishers.{is_due};
ghost use Rattle.policy.specs.HeldRequests.{HasLeft, HearsAgain, HearsSignal, HoldsNothing, IsThere, Stays, Ticks, asks_left, joined_as_comes, asking_of, hold_terms, requests_as_comes};
ghost use Rattle.policy.specs.Requests.{ask_in};
ghost use Rattle.policy.specs.PresenceSignal.{signal_in};

use crate::again::{Again, Holdings, next_again};
use crate::announced_sets::AnnouncedSets;
use crate::asking::{Asker, hold_all, leave_out, tell_again, tell_all, tell_asked};
use crate::joined_publishers::{JoinedPublisher, JoinedPublishers, just_joined};
use crate::last_heard::LastHeard;
use crate::presence::is_there;
use crate::presence_signal::{PresenceSignal, signal_in};
use crate::requests::Requests;
use datagram::{Ask, Reading, Sent, What};
use members::RoomView;
use rtcp_feedback::TmmbrEntry;
use settings::Settings;
use std::alloc::{AllocError, Global};
use std::cell::RefCell;

/// What subscribers asked for last on the legs of a unit (RFC 5104, section 4.2.1), and which publishers came. For the legs of these it is heard
/// again. If requests grow too old, that waits for the next tick, so that their age counts from then on.
#[derive(Drop)]
pub struct HeldRequests<'a> {
    requests: Requests,
    joined_publishers: JoinedPublishers,
    heard: LastHeard,
    /// The age at which a request is given up, in milliseconds; 0 if it never is.
    request_ms: u64,
    /// After how long a silence an endpoint is gone, in milliseconds.
    timeout_ms: u64,
    /// Is told who is asked, who notifies of what, and who comes anew.
    sets: &'a RefCell<AnnouncedSets>,
}

impl<'a> HeldRequests<'a> {
    /// Nothing is held yet in a unit of these settings, and nobody came. Refused for want of memory alone.
    pub fn new(
        alloc: Global,
        settings: &Settings,
        sets: &'a RefCell<AnnouncedSets>,
    ) -> Result<HeldRequests<'a>, AllocError>
        ensures begins { IfOk result (HoldsNothing settings.now) }
        ensures tells { IfOk result (λ held. held.sets ≡ sets.entry) }
    {
        Ok(HeldRequests {
            requests: Requests::new(alloc, settings.legs())?,
            joined_publishers: JoinedPublishers::new(alloc, settings.endpoints().len())?,
            heard: LastHeard::new(alloc, settings.endpoints().len())?,
            request_ms: settings.request_ms(),
            timeout_ms: settings.timeout_ms(),
            sets,
        })
    }

    /// Notes what was read of a datagram that was sent into this room, with the entries of its last TMMBN. Leaves out each TMMBR entry whose
    /// publisher isn't present, since the unit would refuse it.
    pub fn hear(
        &mut self,
        sent: Sent,
        view: RoomView<'_>,
        reading: &mut Reading,
        notice: &[TmmbrEntry],
    )
        ensures hears { HearsSignal (signal_in sent.own.0 reading.old.what) self.old self.new
            (asking_of view.entry sent) reading.old.asks.items }
        ensures asks { reading.new.asks.items ≡ asks_left (signal_in sent.own.0 reading.old.what)
            (asking_of view.entry sent) reading.old.asks.items }
        ensures as_heard { (came : List ℕ)
            → IsAsHeard sent.own.0 reading.old.what reading.old.asks.items came
            → IsAsHeard sent.own.0 reading.new.what reading.new.asks.items came }
        ensures what { reading.new.what ≡ reading.old.what }
        ensures unchanged { (reading.new.clocked ≡ reading.old.clocked)
            × (reading.new.beyond ≡ reading.old.beyond) }
        ensures stays { Stays self.old self.new }
    {
        let asker = Asker {
            view,
            endpoint: sent.endpoint,
            moment: sent.moment,
        };
        self.note(
            signal_in(reading.what, sent.own),
            asker,
            &mut reading.asks,
            notice,
        );
    }

    /// Notes what is said of who sent a datagram, and leaves out of what it asks for what can't be asked for.
    fn note(
        &mut self,
        word: PresenceSignal,
        asker: Asker<'_>,
        asks: &mut Vec<Ask>,
        notice: &[TmmbrEntry],
    )
        ensures hears { HearsSignal word self.old self.new (asking asker.entry) asks.old.items }
        ensures asks { asks.new.items ≡ asks_left word (asking asker.entry) asks.old.items }
        ensures stays { Stays self.old self.new }
    {
        match word {
            PresenceSignal::Nothing => {}
            PresenceSignal::Leaves => self.leave(asker.endpoint),
            PresenceSignal::Speaks { notifies } => {
                self.come(asker);
                self.heard.note(asker.endpoint, asker.moment);
                if notifies {
                    self.note_notice(asker.endpoint, notice);
                }
                self.hold(asker, asks.as_slice());
                leave_out(asks, asker);
                tell_all(self.sets, asker, asks.as_slice());
            }
        }
    }

    /// The endpoint sends a BYE.
    fn leave(&mut self, endpoint: u16)
        ensures left { HasLeft self.old self.new endpoint }
        ensures stays { Stays self.old self.new }
    {
        self.requests.forget(endpoint);
        self.joined_publishers.note(endpoint, JoinedPublisher::Over);
        self.forget_set(endpoint);
    }

    /// The endpoint is there. If it comes, what is held for its legs is heard next; what it asked for itself before it was gone is forgotten.
    fn come(&mut self, asker: Asker<'_>)
        ensures requests { self.new.requests
            ≡ requests_as_comes (asking asker.entry) self.old.requests }
        ensures joined_publishers { self.new.joined_publishers
            ≡ joined_as_comes (asking asker.entry) self.old.request_ms self.old.joined_publishers }
        ensures heard { self.new.heard ≡ self.old.heard }
        ensures stays { Stays self.old self.new }
    {
        if is_there(asker.view, asker.endpoint, asker.moment) {
            return;
        }
        self.requests.forget(asker.endpoint);
        self.joined_publishers
            .note(asker.endpoint, just_joined(self.request_ms));
        self.forget_set(asker.endpoint);
    }

    fn forget_set(&self, endpoint: u16) {
        if let Ok(mut sets) = self.sets.try_borrow_mut() {
            sets.forget(endpoint);
        }
    }

    /// The endpoint notifies of these requests.
    fn note_notice(&self, endpoint: u16, notice: &[TmmbrEntry]) {
        if let Ok(mut sets) = self.sets.try_borrow_mut() {
            let _ = sets.acknowledge(endpoint, notice);
        }
    }

    /// Holds what is asked for.
    fn hold(&mut self, asker: Asker<'_>, asks: &[Ask])
        ensures requests { self.new.requests
            ≡ fold (ask_in asker.entry.view.links.now asker.entry.endpoint asker.entry.moment)
            self.old.requests asks.now }
        ensures joined_publishers { self.new.joined_publishers ≡ self.old.joined_publishers }
        ensures heard { self.new.heard ≡ self.old.heard }
        ensures stays { Stays self.old self.new }
    {
        hold_all(&mut self.requests, asker, asks);
    }

    /// Notes whom it is asked of what is heard that waited.
    pub(crate) fn note_asked(&self, view: RoomView<'_>, again: Again) {
        tell_again(self.sets, view.links, again);
    }

    /// A tick was made: what is held for who came before is due.
    pub fn ticked(&mut self)
        ensures { Ticks self.old self.new }
    {
        self.joined_publishers.ticked();
    }

    /// Whether what is held for any publisher is due.
    pub fn is_waiting(&self) -> bool
        ensures { result ≡ list_any is_due self.now.joined_publishers }
    {
        self.joined_publishers.is_waiting()
    }

    /// What is to be heard once more at this moment, in this room, before anything that comes. The first publisher that is due has a next leg
    /// with a held request that isn't too old and whose subscriber is present, and spoke within the timeout: that request. If it has none, that
    /// publisher is done with.
    pub fn next_held(&mut self, view: RoomView<'_>, moment: u64) -> Option<Again>
        ensures hears { HearsAgain self.old self.new
            (hold_terms self.old view.entry moment) result }
        ensures nobody { list_any is_due self.old.joined_publishers ≡ false → result ≡ None }
    {
        let Some((publisher, from)) = self.joined_publishers.first_due() else {
            return None;
        };
        let Some((place, again)) = self.next_of(publisher, from, view, moment) else {
            self.joined_publishers
                .note(publisher, JoinedPublisher::Over);
            return None;
        };
        self.joined_publishers
            .note(publisher, JoinedPublisher::Due { from: place + 1 });
        tell_asked(self.sets, publisher, again.speaker);
        Some(again)
    }

    /// Of the legs of a publisher the first from this place on for which something is held.
    fn next_of(
        &self,
        publisher: u16,
        from: usize,
        view: RoomView<'_>,
        moment: u64,
    ) -> Option<(usize, Again)>
        ensures next { result
            ≡ next_again (hold_terms self.now view.entry moment) from 0
            (legs_of view.entry.links.now publisher) }
        ensures few { IfSome result (λ next. next.0 < 2 ^ 64 - 1) }
    {
        let holdings = Holdings {
            requests: &self.requests,
            heard: &self.heard,
            view,
            request_ms: self.request_ms,
            timeout_ms: self.timeout_ms,
            moment,
        };
        next_again(holdings, view.links.of_publisher(publisher), from)
    }
}
