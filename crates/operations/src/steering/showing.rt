//! What those who wait for an answer are shown of the unit.

use super::{OpenQuestion, Steering};
use crate::metrics_text::{Seen, metrics_text};
use crate::report_answers::{refusals_text, reports_text};
use addresses::Naming;
use control_protocol::{EndpointLine, Screened, Unheard, counts_text, present_line, screened_text};
use desk::Desk;
use diagnosis::reason_lines;
use ports::{Look, Status};
use request_text::desk_text;
use stats::{LegLine, LegState, Traffic, leg_line};
use std::alloc::AllocError;

impl Steering {
    /// Whether somebody waits for the totals.
    pub(crate) fn wants_counts(&self) -> bool {
        self.asked == OpenQuestion::Counts || self.asked == OpenQuestion::Metrics
    }

    /// What somebody wants to see of the room at this moment.
    pub(crate) fn look(&mut self, moment: u64) -> Look {
        if self.asked == OpenQuestion::Nothing && self.following.is_due(moment) {
            self.begin(OpenQuestion::News);
        }
        match self.asked {
            OpenQuestion::Look(look) => look,
            OpenQuestion::Metrics
            | OpenQuestion::Reports
            | OpenQuestion::Refusals
            | OpenQuestion::Why(_)
            | OpenQuestion::News
            | OpenQuestion::Changes
            | OpenQuestion::Stop => Look::Presence,
            OpenQuestion::Legs | OpenQuestion::LegMetrics => Look::Stays,
            OpenQuestion::Nothing | OpenQuestion::Counts => Look::Nothing,
        }
    }

    /// The totals are shown to who waits for them.
    pub(crate) fn show_counts(&mut self, status: &Status, unheard: &Unheard, screened: &Screened) {
        if self.asked == OpenQuestion::Metrics {
            self.status = Some(*status);
            return;
        }
        let text = counts_text(self.alloc, status, unheard);
        self.push(text);
        let text = screened_text(self.alloc, screened);
        self.push(text);
        self.answer();
    }

    /// Whether this endpoint is present, at this moment, and under which names its client is told of itself.
    pub(crate) fn show_endpoint(
        &mut self,
        endpoint: u16,
        is_present: bool,
        naming: Naming,
        traffic: &Traffic,
        moment: u64,
    ) {
        if self.asked == OpenQuestion::Look(Look::Presence) {
            self.push_endpoint(endpoint, is_present, naming, traffic, moment);
        } else {
            let _ = self.present.push(is_present);
        }
    }

    /// The line of an endpoint.
    fn push_endpoint(
        &mut self,
        endpoint: u16,
        is_present: bool,
        naming: Naming,
        traffic: &Traffic,
        moment: u64,
    ) {
        if let Some(listed) = self.endpoints.get(usize::from(endpoint)) {
            let (heard_ago_ms, refused) = heard_of(traffic, endpoint, moment);
            let line = present_line(
                self.alloc,
                &EndpointLine {
                    endpoint,
                    source: listed.source,
                    address: listed.address,
                    is_present,
                    heard_ago_ms,
                    refused,
                    only_listens: listed.only_listens,
                    sends: naming.sends(),
                    asks: naming.asks(),
                    other_source: self.diagnosing.other_source(endpoint),
                    name: self.unit.name(endpoint),
                },
            );
            self.push(line);
        }
    }

    /// The stay that stands for this leg, and what went out on it.
    pub(crate) fn show_stay(&mut self, leg: u16, stay: Option<u64>, traffic: &Traffic) {
        let Some(line) = self.legs.get(usize::from(leg)).copied() else {
            return;
        };
        if self.asked == OpenQuestion::LegMetrics {
            let state = LegState {
                leg: line.leg,
                on: line.on,
                stay,
            };
            if self.states.push(state).is_err() {
                self.lines = None;
            }
        } else if let Some(count) = traffic.leg(line.leg) {
            let text = leg_line(self.alloc, line, self.unit.ends(line), stay, &count);
            self.push(text);
        }
    }

    /// What is announced to this publisher, and why.
    pub(crate) fn show_desk(&mut self, publisher: u16, desk: &Desk) {
        if let Some(listed) = self.endpoints.get(usize::from(publisher)) {
            let text = desk_text(self.alloc, listed.source, desk);
            self.push(text);
        }
    }

    /// The room was shown, at this moment: who asked for it is answered.
    pub(crate) fn end(
        &mut self,
        traffic: &Traffic,
        unheard: &Unheard,
        screened: &Screened,
        moment: u64,
    ) {
        match self.asked {
            OpenQuestion::Stop => {}
            OpenQuestion::Metrics => self.asked = OpenQuestion::LegMetrics,
            OpenQuestion::LegMetrics => {
                let text = self.metrics(traffic, unheard, screened, moment);
                self.push(text);
                self.answer();
            }
            OpenQuestion::Reports => {
                let text = reports_text(self.alloc, self.legs.as_slice(), traffic, moment);
                self.push(text);
                self.answer();
            }
            OpenQuestion::Refusals => {
                let text = refusals_text(self.alloc, traffic);
                self.push(text);
                let text = self.diagnosing.stray_lines(self.alloc, moment);
                self.push(text);
                self.answer();
            }
            OpenQuestion::Why(leg) => {
                let text = self.why_text(leg, traffic, moment);
                self.push(text);
                self.answer();
            }
            OpenQuestion::News => {
                self.asked = OpenQuestion::Nothing;
                let present = self.present.as_slice();
                self.following.tell(present, traffic, moment);
            }
            OpenQuestion::Changes => {
                self.asked = OpenQuestion::Nothing;
                let _ = self.note_changes(traffic, moment);
            }
            OpenQuestion::Nothing
            | OpenQuestion::Counts
            | OpenQuestion::Legs
            | OpenQuestion::Look(_) => self.answer(),
        }
    }

    /// The metrics, by what was shown for them.
    fn metrics(
        &self,
        traffic: &Traffic,
        unheard: &Unheard,
        screened: &Screened,
        moment: u64,
    ) -> Result<String, AllocError> {
        let seen = Seen {
            status: self.status,
            present: self.present.as_slice(),
            legs: self.states.as_slice(),
            flooded: self.flooded.as_slice(),
            unheard,
            screened,
        };
        metrics_text(self.alloc, &self.unit, &seen, traffic, moment)
    }

    /// The lines that say why the subscriber of this leg sees nothing, or of each.
    fn why_text(
        &self,
        leg: Option<u16>,
        traffic: &Traffic,
        moment: u64,
    ) -> Result<String, AllocError> {
        let mut text = String::new(self.alloc);
        for line in self.legs.iter() {
            if leg.is_none() || leg == Some(line.leg) {
                let lines = self.why_lines(*line, traffic, moment)?;
                text.push_str(lines.as_str())?;
            }
        }
        Ok(text)
    }

    /// The same of a leg.
    fn why_lines(
        &self,
        line: LegLine,
        traffic: &Traffic,
        moment: u64,
    ) -> Result<String, AllocError> {
        let (endpoints, present) = (self.endpoints.as_slice(), self.present.as_slice());
        match self
            .diagnosing
            .reason(line, endpoints, present, traffic, moment)
        {
            Some(reason) => reason_lines(self.alloc, line, self.unit.ends(line), reason, moment),
            None => Err(AllocError),
        }
    }

    /// Of each leg is noted why its subscriber sees nothing at this moment. If memory is wanting the rest is noted a second later.
    fn note_changes(&mut self, traffic: &Traffic, moment: u64) -> Result<(), AllocError> {
        for leg in 0..self.legs.len() {
            self.note_change(leg, traffic, moment)?;
        }
        Ok(())
    }

    /// The same of this leg.
    fn note_change(
        &mut self,
        leg: usize,
        traffic: &Traffic,
        moment: u64,
    ) -> Result<(), AllocError> {
        let Some(line) = self.legs.get(leg).copied() else {
            return Ok(());
        };
        let (endpoints, present) = (self.endpoints.as_slice(), self.present.as_slice());
        match self
            .diagnosing
            .reason(line, endpoints, present, traffic, moment)
        {
            Some(reason) => {
                self.changes
                    .note(self.alloc, line.leg, self.unit.ends(line), reason, moment)
            }
            None => Ok(()),
        }
    }

    /// Which endpoints were present when the unit was stopped; `None` if nobody has stopped it.
    pub(crate) fn take_present(&mut self) -> Option<Vec<bool>> {
        if self.asked != OpenQuestion::Stop {
            return None;
        }
        Some(std::mem::replace(&mut self.present, Vec::new(self.alloc)))
    }
}

/// How many milliseconds before this moment the endpoint was heard last, if ever, and how often something was refused of it.
fn heard_of(traffic: &Traffic, endpoint: u16, moment: u64) -> (Option<u64>, u64) {
    match traffic.endpoint(endpoint) {
        Some(count) => {
            let ago_ms = count
                .heard_ms
                .map(|heard_ms| moment.saturating_sub(heard_ms));
            (ago_ms, count.refused)
        }
        None => (None, 0),
    }
}
