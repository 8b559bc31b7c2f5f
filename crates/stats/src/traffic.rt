//! The counts of a unit's endpoints and legs, which the threads of the unit raise.

use crate::cells::{EndpointCells, LegCells, add, endpoint_cells, leg_cells};
use crate::endpoint_count::EndpointCount;
use crate::figures::Numbered;
use crate::leg_count::LegCount;
use crate::numbered_report::{NumberedReport, push_shown};
use crate::refusal_cells::RefusalCells;
use crate::refusals::RefusedCount;
use crate::reports::{ReceptionReport, SentReport, WORD_VALUES, lsr_of};
use datagram::{Notes, blocks_of, kinds_of};
use events::Refusal;
use rtcp_compound::{Block, RtcpView, is_rtcp, split};
use rtp_packet::RtpView;
use settings::{LegSettings, Settings};
use std::alloc::{AllocError, Global};
use std::sync::atomic::{AtomicU64, Ordering};
use tmmbr_tuple::Ssrc;

/// The counts of a unit, by endpoint and by leg, and what reports say. What comes is counted by one thread, which tells the moment of each
/// turn, too; what is sent by any.
#[derive(Drop)]
pub struct Traffic {
    /// The moment of the last turn, in milliseconds.
    moment_ms: AtomicU64,
    /// How many milliseconds lie between two reports of the unit.
    report_ms: u64,
    endpoints: Vec<EndpointCells>,
    /// What was refused of no datagram.
    refused: RefusalCells,
    legs: Vec<LegCells>,
    /// The SSRC that each leg's subscriber sees, rising, and the leg's number.
    sources: Vec<(Ssrc, u16)>,
}

impl Traffic {
    ghost use Rattle.std.specs.Prelude.{◌≡◌, ◌≤◌, ◌<◌, ◌+◌, length, vec_len, IfOk, IfSome, MatchOption};
    ghost use Rattle.stats.specs.Refusals.{AreCounted};
    ghost use Rattle.stats.specs.Reports.{AreShown};

    /// Nothing came or went yet in a unit of these settings. Refused for want of memory alone.
    pub fn new(alloc: Global, settings: &Settings) -> Result<Traffic, AllocError>
        ensures endpoints { IfOk result
            (λ t. vec_len t.endpoints ≡ length settings.now.endpoints) }
        ensures legs { IfOk result (λ t. vec_len t.legs ≡ length settings.now.legs) }
    {
        Ok(Traffic {
            moment_ms: AtomicU64::new(0),
            report_ms: settings.report_ms(),
            endpoints: endpoint_cells(alloc, settings.endpoints())?,
            refused: RefusalCells::new(),
            legs: leg_cells(alloc, settings.legs())?,
            sources: sources_of(alloc, settings.legs())?,
        })
    }

    /// An RTP packet of so many bytes came from this endpoint at this moment, in milliseconds.
    pub fn heard_packet(&self, endpoint: u16, size: usize, moment: u64) {
        if let Some(cells) = self.endpoints.get(usize::from(endpoint)) {
            cells.heard(size, moment);
            add(&cells.heard_rtp, 1);
        }
    }

    /// RTCP of so many bytes, of which this was noted, came from this endpoint at this moment, in milliseconds, which is that of this turn.
    pub fn heard_control(&self, endpoint: u16, size: usize, notes: &Notes, moment: u64) {
        if let Some(cells) = self.endpoints.get(usize::from(endpoint)) {
            cells.heard(size, moment);
            add(&cells.heard_rtcp, 1);
            cells.asked.add(notes.kinds);
        }
        for block in notes.blocks.as_slice() {
            self.heard_block(endpoint, block);
        }
    }

    /// It is this moment by now, in milliseconds.
    pub fn turned(&self, moment: u64) {
        if self.moment_ms.load(Ordering::SeqCst) != moment {
            self.moment_ms.store(moment, Ordering::SeqCst);
        }
    }

    /// An endpoint reported this. About a leg that isn't its own it says nothing.
    fn heard_block(&self, endpoint: u16, block: &Block) {
        if let Some(cells) = self.cells_by(block.source) {
            if cells.subscriber == endpoint {
                let moment = self.moment_ms.load(Ordering::SeqCst);
                let sent = cells.sent_report.seen();
                cells.reported.note(block, sent, None, moment);
            }
        }
    }

    /// This endpoint comes anew: what it reported of the legs to it is forgotten, and which sender reports it was sent on them, so that no
    /// round trip is known.
    pub fn came_anew(&self, endpoint: u16) {
        for cells in self.legs.as_slice() {
            if cells.subscriber == endpoint {
                cells.reported.forget();
                cells.sent_report.forget();
            }
        }
    }

    /// A datagram was sent to this endpoint.
    pub fn sent(&self, endpoint: u16, datagram: &[u8]) {
        let Some(cells) = self.endpoints.get(usize::from(endpoint)) else {
            return;
        };
        add(&cells.sent, 1);
        add(&cells.sent_octets, octets_of(datagram));
        if is_rtcp(datagram) {
            cells.told.add(kinds_of(datagram));
            self.sent_reports(cells, datagram);
        } else {
            self.sent_media(datagram);
        }
    }

    /// Notes what a datagram of RTCP reports of the endpoint that it was sent to, and the sender reports of legs in it.
    fn sent_reports(&self, cells: &EndpointCells, datagram: &[u8]) {
        let Ok(packets) = split(datagram) else {
            return;
        };
        let moment = self.moment_ms.load(Ordering::SeqCst);
        for packet in packets {
            self.sent_report(packet, moment);
            if let Some(blocks) = blocks_of(packet) {
                for block in blocks {
                    if block.source == cells.source {
                        let each_ms = Some(self.report_ms);
                        cells.reported.note(&block, None, each_ms, moment);
                    }
                }
            }
        }
    }

    /// A packet was sent: if it is the sender report of a leg, it is the leg's last one.
    fn sent_report(&self, packet: RtcpView<'_>, moment: u64) {
        if let RtcpView::Sr { sender, ntp, .. } = packet {
            if let Some(cells) = self.cells_by(sender) {
                cells.sent_report.set(SentReport {
                    lsr: lsr_of(ntp),
                    moment: (moment % WORD_VALUES) as u32,
                });
            }
        }
    }

    /// An RTP packet was sent.
    fn sent_media(&self, datagram: &[u8]) {
        let Ok(packet) = RtpView::parse(datagram) else {
            return;
        };
        if let Some(cells) = self.cells_by(packet.ssrc) {
            let octets = octets_of(packet.payload);
            let before = cells.seen();
            cells.set(before, before.with(packet.sequence_number, octets));
        }
    }

    /// The cells of the leg whose subscriber sees this source.
    fn cells_by(&self, source: Ssrc) -> Option<&LegCells> {
        let place = self
            .sources
            .as_slice()
            .binary_search_by_key(&source.0, |it| it.0.0)
            .ok()?;
        let (_, leg) = self.sources.get(place)?;
        self.legs.get(usize::from(*leg))
    }

    /// A packet was NACKed on this leg, and isn't kept any more.
    pub fn missed(&self, leg: u16) {
        if let Some(cells) = self.legs.get(usize::from(leg)) {
            add(&cells.missed, 1);
        }
    }

    /// A packet isn't sent on on this leg: it is too old for it, or the leg's numbers are spent.
    pub fn skipped(&self, leg: u16) {
        if let Some(cells) = self.legs.get(usize::from(leg)) {
            add(&cells.skipped, 1);
        }
    }

    /// Something was refused of a datagram of this endpoint, or, if it is `None`, of none.
    pub fn refused(&self, endpoint: Option<u16>, refusal: Refusal) {
        let Some(number) = endpoint else {
            return self.refused.add(refusal);
        };
        if let Some(cells) = self.endpoints.get(usize::from(number)) {
            cells.refused.add(refusal);
        }
    }

    /// A datagram couldn't be sent to this endpoint.
    pub fn failed(&self, endpoint: u16) {
        if let Some(cells) = self.endpoints.get(usize::from(endpoint)) {
            add(&cells.failed, 1);
        }
    }

    /// The counts of this endpoint now. `None` exactly if there is no such endpoint.
    pub fn endpoint(&self, endpoint: u16) -> Option<EndpointCount>
        ensures { MatchOption result (vec_len self.now.endpoints ≤ endpoint)
            (λ _. endpoint < vec_len self.now.endpoints) }
    {
        let cells = self.endpoints.get(usize::from(endpoint))?;
        Some(cells.seen())
    }

    /// The counts of this leg now. `None` exactly if there is no such leg.
    pub fn leg(&self, leg: u16) -> Option<LegCount>
        ensures { MatchOption result (vec_len self.now.legs ≤ leg) (λ _. leg < vec_len self.now.legs) }
    {
        let cells = self.legs.get(usize::from(leg))?;
        Some(cells.seen())
    }

    /// What this leg's subscriber reported last; `None` if it has reported nothing, or there is no such leg.
    pub fn leg_report(&self, leg: u16) -> Option<ReceptionReport>
        ensures { IfSome result (λ _. leg < vec_len self.now.legs) }
    {
        self.legs.get(usize::from(leg))?.reported.seen()
    }

    /// What the unit reported of this endpoint last; `None` if it has reported nothing, or there is no such endpoint.
    pub fn publisher_report(&self, endpoint: u16) -> Option<ReceptionReport>
        ensures { IfSome result (λ _. endpoint < vec_len self.now.endpoints) }
    {
        self.endpoints.get(usize::from(endpoint))?.reported.seen()
    }

    /// What subscribers reported last of each leg, by rising number, as far as it is still shown at this moment.
    pub fn leg_reports(&self, alloc: Global, moment: u64) -> Result<Vec<NumberedReport>, AllocError>
        ensures few { IfOk result (λ all. length all.items ≤ vec_len self.now.legs) }
        ensures shown { IfOk result (λ all. AreShown all.items moment) }
    {
        let mut all = Vec::new(alloc);
        for number in 0..self.legs.len() {
            let report = self.legs[number].reported.seen();
            push_shown(&mut all, number_of(number), report, moment)?;
        }
        Ok(all)
    }

    /// What the unit reported last of each endpoint, by rising number, as far as it is still shown at this moment.
    pub fn publisher_reports(
        &self,
        alloc: Global,
        moment: u64,
    ) -> Result<Vec<NumberedReport>, AllocError>
        ensures few { IfOk result (λ all. length all.items ≤ vec_len self.now.endpoints) }
        ensures shown { IfOk result (λ all. AreShown all.items moment) }
    {
        let mut all = Vec::new(alloc);
        for place in 0..self.endpoints.len() {
            let report = self.endpoints[place].reported.seen();
            push_shown(&mut all, number_of(place), report, moment)?;
        }
        Ok(all)
    }

    /// The counts of each endpoint now, by rising number. Those that one thread raises may be older than those of another.
    pub fn endpoints(&self, alloc: Global) -> Result<Vec<Numbered<EndpointCount>>, AllocError>
        ensures { IfOk result (λ all. length all.items ≡ vec_len self.now.endpoints) }
    {
        let mut all = Vec::new(alloc);
        for number in 0..self.endpoints.len() {
            all.push(Numbered {
                number: u16::try_from(number).unwrap_or(u16::MAX),
                count: self.endpoints[number].seen(),
            })?;
        }
        Ok(all)
    }

    /// How often each reason refused what came of each endpoint, then what no datagram led to; reasons that never did are left out. They rise by
    /// endpoint, by what refuses, and by the reason's number.
    pub fn refusals(&self, alloc: Global) -> Result<Vec<RefusedCount>, AllocError>
        ensures { IfOk result (λ all. AreCounted all.items) }
    {
        let mut all = Vec::new(alloc);
        for place in 0..self.endpoints.len() {
            let number = u16::try_from(place).unwrap_or(u16::MAX);
            self.endpoints[place]
                .refused
                .push_counts(Some(number), &mut all)?;
        }
        self.refused.push_counts(None, &mut all)?;
        Ok(all)
    }

    /// The same of each endpoint by its number, and then of what no datagram led to.
    pub fn refusals_by_endpoint(&self, alloc: Global) -> Result<Vec<Vec<RefusedCount>>, AllocError>
        ensures { IfOk result (λ all. length all.items ≡ vec_len self.now.endpoints + 1) }
    {
        let mut all = Vec::new(alloc);
        for place in 0..self.endpoints.len() {
            let counts = self.endpoints[place]
                .refused
                .counts(alloc, Some(number_of(place)))?;
            all.push(counts)?;
        }
        all.push(self.refused.counts(alloc, None)?)?;
        Ok(all)
    }

    /// The counts of each leg now, by rising number.
    pub fn legs(&self, alloc: Global) -> Result<Vec<Numbered<LegCount>>, AllocError>
        ensures { IfOk result (λ all. length all.items ≡ vec_len self.now.legs) }
    {
        let mut all = Vec::new(alloc);
        for number in 0..self.legs.len() {
            all.push(Numbered {
                number: u16::try_from(number).unwrap_or(u16::MAX),
                count: self.legs[number].seen(),
            })?;
        }
        Ok(all)
    }
}

/// The number of the leg or endpoint at this place.
fn number_of(place: usize) -> u16 {
    u16::try_from(place).unwrap_or(u16::MAX)
}

/// How many bytes these are.
fn octets_of(bytes: &[u8]) -> u64 {
    bytes.len() as u64
}

/// The source that each leg's subscriber sees, rising, and the leg's number.
fn sources_of(alloc: Global, legs: &[LegSettings]) -> Result<Vec<(Ssrc, u16)>, AllocError> {
    let mut sources = Vec::new(alloc);
    for (number, leg) in legs.iter().enumerate() {
        sources.push((leg.out_ssrc, u16::try_from(number).unwrap_or(u16::MAX)))?;
    }
    sources.sort_unstable_by_key(|it| it.0.0);
    Ok(sources)
}
