//! What becomes of requests for a greatest rate before the machine takes them in: they are held for publishers that come, and heard once in a gap.

ghost use Rattle.std.specs.Prelude.{◌≡◌, ℕ, List};
ghost use Rattle.datagram.specs.Spelling.{IsAsHeard};
ghost use Rattle.policy.specs.Asking.{asking};
ghost use Rattle.policy.specs.HeldRequests.{asking_of};
ghost use Rattle.policy.specs.RateRequests.{PacesWord};
ghost use Rattle.policy.specs.PresenceSignal.{signal_in};

use crate::again::Again;
use crate::announced_sets::AnnouncedSets;
use crate::asking::Asker;
use crate::held_requests::HeldRequests;
use crate::presence_signal::{PresenceSignal, signal_in};
use crate::request_gaps::RequestGaps;
use crate::rules::Rules;
use datagram::{Ask, Reading, Sent};
use members::RoomView;
use rtcp_feedback::TmmbrEntry;
use settings::Settings;
use std::alloc::{AllocError, Global};
use std::cell::RefCell;

/// What is held of the requests on the legs of a unit, and how often they are heard, by its rules.
#[derive(Drop)]
pub struct RateRequests<'a> {
    /// What is held for publishers that come, if requests are repeated.
    holding: Option<HeldRequests<'a>>,
    /// What was heard of each leg, if there is a gap.
    gaps: Option<RequestGaps>,
}

impl<'a> RateRequests<'a> {
    ghost use Rattle.std.specs.Prelude.{◌≡◌, ℕ, List, IfOk};
    ghost use Rattle.datagram.specs.Spelling.{IsAsHeard};
    ghost use Rattle.policy.specs.HeldRequests.{asking_of};
    ghost use Rattle.policy.specs.RateRequests.{BeginsBy, Hears, HearsDue, HearsHeld, HearsNext, Ticks, is_due, is_held, is_paced};
    ghost use Rattle.policy.specs.PresenceSignal.{signal_in};

    /// Nothing was asked for yet in a unit of these settings, by these rules. Refused for want of memory alone.
    pub fn new(
        alloc: Global,
        settings: &Settings,
        rules: Rules,
        sets: &'a RefCell<AnnouncedSets>,
    ) -> Result<RateRequests<'a>, AllocError>
        ensures begins { IfOk result (BeginsBy rules settings.now) }
    {
        let holding = if rules.repeat_ms == 0 {
            None
        } else {
            Some(HeldRequests::new(alloc, settings, sets)?)
        };
        let gaps = if rules.request_gap_ms == 0 {
            None
        } else {
            Some(RequestGaps::new(alloc, settings, rules.request_gap_ms)?)
        };
        Ok(RateRequests { holding, gaps })
    }

    /// Notes what was read of a datagram that was sent into a room that is so, with the entries of its last TMMBN. What can't be asked for yet is left
    /// out of it, and then what isn't heard at once.
    pub fn hear(
        &mut self,
        sent: Sent,
        view: RoomView<'_>,
        reading: &mut Reading,
        notice: &[TmmbrEntry],
    )
        ensures hears { Hears self.old self.new (signal_in sent.own.0 reading.old.what)
            (asking_of view.entry sent) reading.old reading.new }
        ensures as_heard { (came : List ℕ)
            → IsAsHeard sent.own.0 reading.old.what reading.old.asks.items came
            → IsAsHeard sent.own.0 reading.new.what reading.new.asks.items came }
    {
        if let Some(holding) = &mut self.holding {
            holding.hear(sent, view, reading, notice);
        }
        if let Some(gaps) = &mut self.gaps {
            pace(gaps, sent, view, reading);
        }
    }

    /// A tick was made.
    pub fn ticked(&mut self)
        ensures { Ticks self.old self.new }
    {
        if let Some(holding) = &mut self.holding {
            holding.ticked();
        }
        if let Some(gaps) = &mut self.gaps {
            gaps.ticked();
        }
    }

    /// Whether anything may be heard that was asked for before.
    pub fn is_waiting(&self) -> bool
        ensures { result ≡ is_due self.now }
    {
        self.is_held() || self.is_paced()
    }

    fn is_held(&self) -> bool
        ensures { result ≡ is_held self.now.holding }
    {
        match &self.holding {
            Some(holding) => holding.is_waiting(),
            None => false,
        }
    }

    fn is_paced(&self) -> bool
        ensures { result ≡ is_paced self.now.gaps }
    {
        match &self.gaps {
            Some(gaps) => gaps.is_waiting(),
            None => false,
        }
    }

    /// What was asked for before and is heard at this moment, in this room: what is held for a publisher that came, else what waited for a gap.
    pub fn next_heard(&mut self, view: RoomView<'_>, moment: u64) -> Option<Again>
        ensures hears { HearsNext self.old self.new view.entry moment result }
    {
        if let Some(again) = self.next_held(view, moment) {
            return Some(again);
        }
        let again = self.next_paced(view, moment)?;
        self.note_asked(view, again);
        Some(again)
    }

    fn note_asked(&self, view: RoomView<'_>, again: Again) {
        if let Some(holding) = &self.holding {
            holding.note_asked(view, again);
        }
    }

    fn next_held(&mut self, view: RoomView<'_>, moment: u64) -> Option<Again>
        ensures hears { HearsHeld self.old.holding self.new.holding view.entry moment result }
        ensures stays { self.new.gaps ≡ self.old.gaps }
    {
        match &mut self.holding {
            Some(holding) => holding.next_held(view, moment),
            None => None,
        }
    }

    fn next_paced(&mut self, view: RoomView<'_>, moment: u64) -> Option<Again>
        ensures hears { HearsDue self.old.gaps self.new.gaps view.entry moment result }
        ensures stays { self.new.holding ≡ self.old.holding }
    {
        match &mut self.gaps {
            Some(gaps) => gaps.next_due(view, moment),
            None => None,
        }
    }
}

/// Leaves out of what was read what isn't heard at once.
fn pace(gaps: &mut RequestGaps, sent: Sent, view: RoomView<'_>, reading: &mut Reading)
    ensures paces { PacesWord (signal_in sent.own.0 reading.old.what) gaps.old gaps.new
        (asking_of view.entry sent) reading.old.asks.items reading.new.asks.items }
    ensures as_heard { (came : List ℕ)
        → IsAsHeard sent.own.0 reading.old.what reading.old.asks.items came
        → IsAsHeard sent.own.0 reading.new.what reading.new.asks.items came }
    ensures what { reading.new.what ≡ reading.old.what }
    ensures unchanged { (reading.new.clocked ≡ reading.old.clocked)
        × (reading.new.beyond ≡ reading.old.beyond) }
{
    let asker = Asker {
        view,
        endpoint: sent.endpoint,
        moment: sent.moment,
    };
    pace_word(
        gaps,
        signal_in(reading.what, sent.own),
        asker,
        &mut reading.asks,
    );
}

/// What is said of who sent a datagram is heard, and of what it asks for what isn't heard at once is left out.
fn pace_word(gaps: &mut RequestGaps, word: PresenceSignal, asker: Asker<'_>, asks: &mut Vec<Ask>)
    ensures { PacesWord word gaps.old gaps.new (asking asker.entry) asks.old.items asks.new.items }
{
    match word {
        PresenceSignal::Nothing => {}
        PresenceSignal::Leaves => gaps.forget(asker.endpoint),
        PresenceSignal::Speaks { .. } => gaps.hear(asker, asks),
    }
}
