//! The live requests of one media sender.

ghost use Rattle.std.specs.Prelude.{◌≡◌, ◌≢◌, ◌<◌, ◌≤◌, ◌↔◌, [], length, All, Some, None, Err, IsTrue, IsErr, IfOk, OnOk, OnErr, OnSome, IfNone, IsNone, ◌+◌, ◌*◌};

use crate::announced::{announce, remember};
use crate::certificate::chosen;
use crate::live::{put_all, replace};
use crate::rows::{Full, LIVE_LIMIT, RowsFault, asked_by, check_rows, is_asked, take};
use crate::unsplice::unsplice;
use crate::zero_rates::{MAX_STOPS, update_stops};
use arrayvec::ArrayVec;
use rate_cert::{Cert, MAX_REQUESTS, Request};
use std::marker::Model;
use tmmbr_tuple::{Ssrc, Tuple};

/// The live requests for one media sender, the set that is announced for them, and its certificate.
#[derive(Drop)]
pub struct Bounds {
    /// By rising owner, each owner once.
    rows: ArrayVec<Request, MAX_REQUESTS>,
    /// The envelope of the rows whose rate isn't 0.
    lines: ArrayVec<Request, MAX_REQUESTS>,
    /// What is announced while a rate is 0; empty while none is.
    stops: ArrayVec<Request, MAX_STOPS>,
    /// What was announced before the last change, if these were many.
    before: ArrayVec<Request, MAX_REQUESTS>,
    cert: Cert,
    /// How many tests the last change took.
    steps: u32,
}

impl Model for Bounds {
    ghost use Rattle.std.specs.Prelude.{◌≡◌, ◌≤◌, length};
    ghost use Rattle.rate_cert.specs.Choice.{chosen_requests};
    ghost use Rattle.rate_cert.specs.Certificate.{kept_places};
    ghost use Rattle.bounding_set.specs.Rows.{HasRisingOwners};
    ghost use Rattle.bounding_set.specs.Announced.{HoldsStops, announced_among};
    ghost use Rattle.bounding_set.specs.Envelope.{IsEnvelopeOf};
    ghost use Rattle.bounding_set.specs.State.{State, AnnouncesFor};
    ghost use Rattle.bounding_set.specs.declared.rows.TheConstants.{LIVE_LIMIT};

    ghost Value = { State };

    ghost view = { λ b. record { rows = b.rows.items; cert = b.cert; steps = b.steps } };

    ghost invariant = { λ b. (length b.rows.items ≤ LIVE_LIMIT) × HasRisingOwners b.rows.items
        × IsEnvelopeOf b.rows.items b.lines.items × HoldsStops b.rows.items b.stops.items
        × AnnouncesFor b.rows.items b.cert
        × (chosen_requests b.rows.items (kept_places b.cert)
        ≡ announced_among b.stops.items b.lines.items) };
}

impl Bounds {
    ghost use Rattle.bounding_set.specs.Canonical.{StopsMedia};
    ghost use Rattle.bounding_set.specs.State.{AnnouncesSmallest, announced_of, dropped_count};
    ghost use Rattle.bounding_set.specs.Rows.{HasRisingOwners, Puts, tuple_of, count_with};

    /// No live request: nothing is announced, and every pair is permitted.
    pub fn new() -> Self
        ensures rows { result.rows ≡ [] }
        ensures steps { result.steps ≡ 0 }
    {
        Bounds {
            rows: ArrayVec::new(),
            lines: ArrayVec::new(),
            stops: ArrayVec::new(),
            before: ArrayVec::new(),
            cert: Cert::default(),
            steps: 0,
        }
    }

    /// Puts the owner's request, or replaces it. True if the announced set changed: other requests
    /// in it, or another spelling of one.
    ///
    /// Refused as `Full` exactly if the owner isn't live and as many others are as may be; then
    /// nothing changed.
    pub fn set(&mut self, owner: Ssrc, tuple: Tuple) -> Result<bool, Full>
        ensures full { IsErr result
            ↔ (IsNone (tuple_of self.old.rows owner.0) × (length self.old.rows ≡ LIVE_LIMIT)) }
        ensures unchanged { OnErr result (self.new ≡ self.old) }
        ensures put { OnOk result (Puts self.old.rows self.new.rows owner.0 (Some tuple)) }
        ensures grows { OnOk result (length self.new.rows ≡ count_with self.old.rows owner.0) }
        ensures changed { IfOk result (λ changed. IsTrue changed
            ↔ (announced_of self.new ≢ announced_of self.old)) }
        ensures rising { HasRisingOwners self.new.rows }
        ensures within { length self.new.rows ≤ LIVE_LIMIT }
        ensures announced { AnnouncesSmallest self.new }
        ensures steps { tuple_of self.old.rows owner.0 ≡ None
            → All (λ r. ¬ StopsMedia r) self.new.rows
            → OnOk result
            (self.new.steps ≤ dropped_count (announced_of self.old) (announced_of self.new) + 4) }
        ensures each_step { tuple_of self.old.rows owner.0 ≡ None
            → All (λ r. ¬ StopsMedia r) self.new.rows
            → OnOk result
            (dropped_count (announced_of self.old) (announced_of self.new) ≤ self.new.steps + 1) }
        ensures each_more { All (λ r. ¬ StopsMedia r) self.old.rows
            → All (λ r. ¬ StopsMedia r) self.new.rows
            → OnOk result
            (length (announced_of self.new) ≤ length (announced_of self.old) + self.new.steps + 1) }
        ensures no_step { tuple_of self.old.rows owner.0 ≡ Some tuple → self.new.steps ≡ 0 }
        ensures bounded { OnOk result
            (self.new.steps ≤ LIVE_LIMIT * (LIVE_LIMIT + 4) + LIVE_LIMIT + 4) }
    {
        let asked = asked_by(self.rows.as_slice(), owner);
        if asked.is_none() && self.rows.len() == LIVE_LIMIT {
            return Err(Full);
        }
        self.steps = 0;
        if is_asked(asked, tuple) {
            return Ok(false);
        }
        remember(
            self.lines.as_slice(),
            self.stops.as_slice(),
            &mut self.before,
        );
        let x = Request { owner, tuple };
        let lines_changed = replace(&mut self.rows, &mut self.lines, &x, &mut self.steps);
        let rows = self.rows.as_slice();
        let stops_changed = update_stops(rows, &mut self.stops, tuple.rate() == 0);
        let (lines, stops) = (self.lines.as_slice(), self.stops.as_slice());
        announce(rows, self.before.as_slice(), lines, stops, &mut self.cert);
        Ok(stops_changed || lines_changed && self.stops.is_empty())
    }

    /// Makes these requests, which are given by rising owner, the live ones in place of those that were.
    /// What is announced, with its certificate, is as if each had been put by `set`, but the certificate
    /// is made once. `steps` counts the tests of all together.
    ///
    /// Refused as `TooMany` exactly if they are more than may be live, else as `NotRising` exactly
    /// if their owners don't rise; then nothing changed.
    pub fn set_all(&mut self, requests: &[Request]) -> Result<(), RowsFault>
        ensures too_many { (result ≡ Err RowsFault.TooMany) ↔ (LIVE_LIMIT < length requests.now) }
        ensures not_rising { (result ≡ Err RowsFault.NotRising)
            ↔ ((length requests.now ≤ LIVE_LIMIT) × (¬ HasRisingOwners requests.now)) }
        ensures unchanged { OnErr result (self.new ≡ self.old) }
        ensures rows { OnOk result (self.new.rows ≡ requests.now) }
        ensures announced { OnOk result (AnnouncesSmallest self.new) }
        ensures each_more { All (λ r. ¬ StopsMedia r) requests.now
            → OnOk result (length (announced_of self.new) ≤ self.new.steps + 1) }
        ensures few { OnOk result (self.new.steps ≤ 5 * length requests.now) }
    {
        check_rows(requests)?;
        self.rows.clear();
        self.lines.clear();
        self.steps = 0;
        put_all(requests, &mut self.rows, &mut self.lines, &mut self.steps);
        let rows = self.rows.as_slice();
        update_stops(rows, &mut self.stops, true);
        let (lines, stops) = (self.lines.as_slice(), self.stops.as_slice());
        announce(rows, &[], lines, stops, &mut self.cert);
        Ok(())
    }

    /// Removes the owner's request, and answers what it asked for. `None` if it has none; then
    /// nothing changed.
    pub fn remove(&mut self, owner: Ssrc) -> Option<Tuple>
        ensures value { result ≡ tuple_of self.old.rows owner.0 }
        ensures unchanged { IfNone result (self.new ≡ self.old) }
        ensures removed { Puts self.old.rows self.new.rows owner.0 None }
        ensures shrinks { OnSome result (length self.new.rows + 1 ≡ length self.old.rows) }
        ensures no_step { All (λ r. ¬ StopsMedia r) self.old.rows
            → tuple_of (announced_of self.old) owner.0 ≡ None
            → OnSome result (self.new.steps ≡ 0) }
        ensures each_more { All (λ r. ¬ StopsMedia r) self.old.rows
            → OnSome result
            (length (announced_of self.new) ≤ length (announced_of self.old) + self.new.steps) }
        ensures bounded { OnSome result (self.new.steps ≤ length self.new.rows * (LIVE_LIMIT + 4)) }
        ensures rising { HasRisingOwners self.new.rows }
        ensures within { length self.new.rows ≤ LIVE_LIMIT }
        ensures announced { AnnouncesSmallest self.new }
    {
        let tuple = take(&mut self.rows, owner)?;
        self.steps = 0;
        remember(
            self.lines.as_slice(),
            self.stops.as_slice(),
            &mut self.before,
        );
        let gone = Request { owner, tuple };
        let rows = self.rows.as_slice();
        unsplice(&mut self.lines, &gone, rows, &mut self.steps);
        update_stops(rows, &mut self.stops, false);
        let (lines, stops) = (self.lines.as_slice(), self.stops.as_slice());
        announce(rows, self.before.as_slice(), lines, stops, &mut self.cert);
        Some(tuple)
    }

    /// The live requests by rising owner, each owner once.
    pub fn rows(&self) -> &[Request]
        ensures value { result.now ≡ self.now.rows }
        ensures rising { HasRisingOwners self.now.rows }
        ensures within { length self.now.rows ≤ LIVE_LIMIT }
    {
        &self.rows
    }

    /// The certificate of the announced set; its places count the rows from 0.
    pub fn cert(&self) -> &Cert
        ensures value { result.now ≡ self.now.cert }
        ensures announced { AnnouncesSmallest self.now }
    {
        &self.cert
    }

    /// The announced set, by rising overhead.
    pub fn announced(&self) -> ArrayVec<Request, MAX_REQUESTS>
        ensures value { result.items ≡ announced_of self.now }
        ensures announced { AnnouncesSmallest self.now }
    {
        chosen(self.rows.as_slice(), &self.cert)
    }

    /// How often the last `set`, `set_all` or `remove` asked whether two lines imply a third, of those that
    /// weren't refused; 0 before. A `remove` of an owner that isn't live counts as refused.
    pub fn steps(&self) -> u32
        ensures value { result ≡ self.now.steps }
    {
        self.steps
    }
}
