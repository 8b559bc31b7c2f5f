//! What is known of why a subscriber sees nothing: what was seen of each endpoint's media, and what went out on each leg of late.

use crate::steering::EndpointInfo;
use diagnosis::{
    EndpointFacts, FlowLook, FlowWindow, LegFacts, LegFlow, Reason, Sighting, stray_line, why,
};
use stats::{LegCount, LegLine, Traffic};
use std::alloc::{AllocError, Global};
use std::net::SocketAddr;
use tmmbr_tuple::Ssrc;

/// So many milliseconds lie at least between two looks at what went out.
const FLOW_MS: u64 = 1_000;

/// What was seen of each endpoint, and the last looks at each leg.
#[derive(Drop)]
pub(crate) struct Diagnosing {
    sightings: Vec<Sighting>,
    windows: Vec<FlowWindow>,
    /// The moment from which on the legs are looked at next.
    due_ms: u64,
}

impl Diagnosing {
    /// Nothing came of so many endpoints, and nothing went out on so many legs.
    pub(crate) fn new(
        alloc: Global,
        endpoints: usize,
        legs: usize,
    ) -> Result<Diagnosing, AllocError> {
        let (sighting, window) = (Sighting::new(), FlowWindow::new());
        Ok(Diagnosing {
            sightings: vec![in alloc; sighting; endpoints]?,
            windows: vec![in alloc; window; legs]?,
            due_ms: FLOW_MS,
        })
    }

    /// An RTP packet came from this endpoint, under this SSRC; `own` is the endpoint's.
    pub(crate) fn note_packet(&mut self, endpoint: u16, own: Ssrc, source: Ssrc, moment: u64) {
        if let Some(sighting) = self.sightings.as_mut_slice().get_mut(usize::from(endpoint)) {
            sighting.note_packet(own, source, moment);
        }
    }

    /// An RTP packet under this SSRC came from this address, and is nobody's among these endpoints.
    pub(crate) fn note_stranger(
        &mut self,
        endpoints: &[EndpointInfo],
        source: Ssrc,
        from: SocketAddr,
        moment: u64,
    ) {
        for (place, info) in endpoints.iter().enumerate() {
            self.note_at(place, *info, source, from, moment);
        }
    }

    /// The same, as far as it concerns the endpoint at this place.
    fn note_at(
        &mut self,
        place: usize,
        info: EndpointInfo,
        source: Ssrc,
        from: SocketAddr,
        moment: u64,
    ) {
        if let Some(sighting) = self.sightings.as_mut_slice().get_mut(place) {
            sighting.note_stranger(info.source, info.address, source, from, moment);
        }
    }

    /// Looks at what went out on each leg, once a second.
    pub(crate) fn look(&mut self, traffic: &Traffic, moment: u64) {
        if moment < self.due_ms {
            return;
        }
        self.due_ms = moment.saturating_add(FLOW_MS);
        for leg in 0..self.windows.len() {
            self.look_at(leg, traffic, moment);
        }
    }

    fn look_at(&mut self, leg: usize, traffic: &Traffic, moment: u64) {
        let Some(count) = traffic.leg(u16::try_from(leg).unwrap_or(u16::MAX)) else {
            return;
        };
        if let Some(window) = self.windows.as_mut_slice().get_mut(leg) {
            *window = window.looked(look_of(&count, moment));
        }
    }

    /// Why the subscriber of this leg sees nothing, or what it is sent, at this moment, if these endpoints are present.
    pub(crate) fn reason(
        &self,
        line: LegLine,
        endpoints: &[EndpointInfo],
        present: &[bool],
        traffic: &Traffic,
        moment: u64,
    ) -> Option<Reason> {
        let facts = LegFacts {
            moment,
            is_on: line.on,
            publisher: self.facts_of(line.publisher, endpoints, present, traffic)?,
            subscriber: self.facts_of(line.subscriber, endpoints, present, traffic)?,
            flow: self.flow(line.leg, traffic, moment)?,
            report: traffic.leg_report(line.leg),
            unit_report: traffic.publisher_report(line.publisher),
        };
        Some(why(&facts))
    }

    /// What is known of an endpoint.
    fn facts_of(
        &self,
        endpoint: u16,
        endpoints: &[EndpointInfo],
        present: &[bool],
        traffic: &Traffic,
    ) -> Option<EndpointFacts> {
        let place = usize::from(endpoint);
        Some(EndpointFacts {
            is_present: *present.get(place)?,
            only_listens: endpoints.get(place)?.only_listens,
            heard_ms: traffic.endpoint(endpoint)?.heard_ms,
            sighting: *self.sightings.get(place)?,
        })
    }

    /// What went out on a leg of late.
    fn flow(&self, leg: u16, traffic: &Traffic, moment: u64) -> Option<LegFlow> {
        let count = traffic.leg(leg)?;
        let window = self.windows.get(usize::from(leg))?;
        Some(window.flow(look_of(&count, moment)))
    }

    /// A line for each endpoint from whose address an RTP packet came under another SSRC: the last one.
    pub(crate) fn stray_lines(&self, alloc: Global, moment: u64) -> Result<String, AllocError> {
        let mut text = String::new(alloc);
        for (place, sighting) in self.sightings.iter().enumerate() {
            if let Some(stray) = sighting.source {
                let endpoint = u16::try_from(place).unwrap_or(u16::MAX);
                let line = stray_line(alloc, endpoint, stray, moment)?;
                text.push_str(line.as_str())?;
            }
        }
        Ok(text)
    }

    /// Under which other SSRC an RTP packet came from this endpoint's address last.
    pub(crate) fn other_source(&self, endpoint: u16) -> Option<Ssrc> {
        Some(self.sightings.get(usize::from(endpoint))?.source?.source)
    }
}

/// What was counted on a leg by this moment.
fn look_of(count: &LegCount, moment: u64) -> FlowLook {
    FlowLook {
        packets: count.packets,
        skipped: count.skipped,
        moment,
    }
}
