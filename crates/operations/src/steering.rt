//! The control of a unit that is served: peers at a Unix socket, who are looked at by the thread that receives.

ghost use Rattle.std.specs.Prelude.{◌≡◌, None, IfOk, length, map, replicate};

mod showing;

use crate::changes::ChangeLog;
use crate::diagnosing::Diagnosing;
use crate::following::Following;
use crate::report_answers::strangers_text;
use crate::unit_info::UnitInfo;
use addresses::Strangers;
use control_protocol::{
    Peers, RecordKind, Records, Refused, RequestAction, SHORTAGE_EACH_MS, TAKEN_IN, UnitState,
    action_for, done_text, refused_text, says_shortage,
};
use ports::{Look, Received, Status, Ticks};
use recording::{Recorder, Switched};
use stats::{LegLine, LegState, Traffic};
use std::alloc::{AllocError, Global};
use std::net::SocketAddr;
use std::os::unix::net::{UnixListener, UnixStream};
use tmmbr_tuple::Ssrc;

/// So many milliseconds lie at least between two looks at the peers.
const LOOK_MS: u64 = 10;

/// An endpoint as peers are told of it.
#[derive(Clone, Copy)]
pub struct EndpointInfo {
    pub source: Ssrc,
    pub address: SocketAddr,
    /// Whether it is present whatever it says.
    pub only_listens: bool,
}

/// Who steers the unit: the peers, and what one of them waits for.
#[derive(Drop)]
pub struct Steering {
    alloc: Global,
    /// Where peers come; `None` if nobody may.
    listener: Option<UnixListener>,
    peers: Peers<UnixStream>,
    legs: Vec<LegLine>,
    /// Whether each leg was selected at the start.
    began_on: Vec<bool>,
    endpoints: Vec<EndpointInfo>,
    unit: UnitInfo,
    /// The moment from which on peers are looked at next.
    due_ms: u64,
    /// When it was said last that no descriptor is left for who connects.
    said: Ticks,
    /// What was asked and isn't answered yet.
    asked: OpenQuestion,
    /// The lines of the answer so far; none once memory was wanting.
    lines: Option<String>,
    /// Which endpoints are present, by their numbers, as far as that was shown since it was asked.
    present: Vec<bool>,
    /// The totals, and what legs are like, as far as that was shown since metrics were asked for.
    status: Option<Status>,
    states: Vec<LegState>,
    /// Who came last of those who are nobody.
    strangers: Strangers,
    /// How many datagrams of each endpoint came beyond the limit, by its number.
    flooded: Vec<u64>,
    diagnosing: Diagnosing,
    /// Who follows what happens.
    following: Following<UnixStream>,
    changes: ChangeLog,
}

/// What a peer wants.
#[derive(Drop)]
pub(crate) enum PeerRequest {
    /// The unit is to do it.
    Unit(Received),
    /// From now on what the unit takes in is to be written to this peer.
    Record(UnixStream),
    /// This record is to end.
    EndRecord(RecordKind),
    /// It is to be said that no descriptor is left for who connects.
    SayShortage,
}

/// What a peer waits for.
#[derive(Clone, Copy, Debug, PartialEq, Eq)]
enum OpenQuestion {
    Nothing,
    Counts,
    Look(Look),
    Legs,
    Metrics,
    /// Metrics, for which totals and endpoints were shown, and legs weren't.
    LegMetrics,
    Reports,
    Refusals,
    /// Why the subscriber of this leg sees nothing, or of each.
    Why(Option<u16>),
    /// What happened since those who follow were told last.
    News,
    /// What is to be said of legs unasked: nobody waits for an answer.
    Changes,
    /// The unit stops: nobody waits for an answer, and who is present is to be known.
    Stop,
}

impl Steering {
    ghost use Rattle.std.specs.Prelude.{◌≡◌, None, IfOk, length, map, replicate};
    ghost use Rattle.ports.specs.Ticks.{new_ticks};
    ghost use Rattle.control_protocol.specs.declared.shortage.TheConstants.{SHORTAGE_EACH_MS};
    ghost use Rattle.operations.specs.declared.steering.OpenQuestion.TheVariants.{Nothing};

    /// Steers a unit with these legs and these endpoints, by those who come to the listener, if anybody may.
    pub fn new(
        alloc: Global,
        listener: Option<UnixListener>,
        legs: Vec<LegLine>,
        endpoints: Vec<EndpointInfo>,
        unit: UnitInfo,
    ) -> Result<Steering, AllocError>
        ensures legs { IfOk result (λ s. s.legs ≡ legs) }
        ensures endpoints { IfOk result (λ s. s.endpoints ≡ endpoints) }
        ensures unit { IfOk result (λ s. s.unit ≡ unit) }
        ensures began { IfOk result (λ s. s.began_on.items ≡ map (λ line. line.on) legs.items) }
        ensures idle { IfOk result
            (λ s. (s.due_ms ≡ 0) × (s.asked ≡ Nothing) × (s.lines ≡ None)) }
        ensures unsaid { IfOk result (λ s. s.said ≡ new_ticks SHORTAGE_EACH_MS) }
        ensures flooded { IfOk result
            (λ s. s.flooded.items ≡ replicate (length endpoints.items) 0) }
    {
        let began_on = selected_at_first(alloc, legs.as_slice())?;
        let flooded = vec![in alloc; 0; endpoints.len()]?;
        let diagnosing = Diagnosing::new(alloc, endpoints.len(), legs.len())?;
        let changes = ChangeLog::new(alloc, legs.len())?;
        Ok(Steering {
            alloc,
            listener,
            peers: Peers::new(alloc),
            legs,
            began_on,
            endpoints,
            unit,
            due_ms: 0,
            said: Ticks::new(SHORTAGE_EACH_MS),
            asked: OpenQuestion::Nothing,
            lines: None,
            present: Vec::new(alloc),
            status: None,
            states: Vec::new(alloc),
            strangers: Strangers::new(alloc),
            flooded,
            diagnosing,
            following: Following::new(alloc),
            changes,
        })
    }

    /// What peers want by this moment of a unit of which these records are being made. No peer is waited for.
    pub(crate) fn receive(&mut self, moment: u64, records: Records) -> PeerRequest {
        if moment < self.due_ms || self.asked != OpenQuestion::Nothing {
            return PeerRequest::Unit(Received::Nothing);
        }
        self.due_ms = moment.saturating_add(LOOK_MS);
        if self.admit(moment) {
            return PeerRequest::SayShortage;
        }
        match self.peers.next_request(moment) {
            Some(request) => self.act(action_for(request, self.state(records)), moment),
            None => PeerRequest::Unit(Received::Nothing),
        }
    }

    /// What requests go by, of a unit of which these records are being made.
    fn state(&self, records: Records) -> UnitState {
        UnitState {
            legs: u16::try_from(self.legs.len()).unwrap_or(u16::MAX),
            endpoints: u16::try_from(self.endpoints.len()).unwrap_or(u16::MAX),
            records,
            may_follow: self.following.may_follow(),
            may_stay: self.peers.may_stay(),
        }
    }

    /// Does what the last request leads to, as far as that is done here; the rest is wanted of the unit.
    fn act(&mut self, action: RequestAction, moment: u64) -> PeerRequest {
        match action {
            RequestAction::Refuse(why) => self.refuse(why),
            RequestAction::Do(received) => {
                self.note(received);
                self.peers.answer(b"ok\n");
                return PeerRequest::Unit(received);
            }
            RequestAction::Counts => self.begin(OpenQuestion::Counts),
            RequestAction::Look(look) => self.begin(OpenQuestion::Look(look)),
            RequestAction::Legs => self.begin(OpenQuestion::Legs),
            RequestAction::Metrics => self.begin(OpenQuestion::Metrics),
            RequestAction::Reports => self.begin(OpenQuestion::Reports),
            RequestAction::Refusals => self.begin(OpenQuestion::Refusals),
            RequestAction::Strangers => self.tell_strangers(moment),
            RequestAction::Why(leg) => self.begin(OpenQuestion::Why(leg)),
            RequestAction::Record => {
                if let Some(peer) = self.peers.take_last() {
                    return PeerRequest::Record(peer);
                }
            }
            RequestAction::Follow => {
                if let Some(peer) = self.peers.take_last() {
                    self.following.admit(peer, moment);
                }
            }
            RequestAction::Stay => {
                self.peers.let_stay();
                self.peers.answer(b"ok\n");
            }
            RequestAction::EndRecord(kind) => {
                self.peers.answer(b"ok\n");
                return PeerRequest::EndRecord(kind);
            }
        }
        PeerRequest::Unit(Received::Nothing)
    }

    /// The legs that are selected or not, unlike at the start.
    pub(crate) fn switched(&self) -> Vec<Switched> {
        let mut switched = Vec::new(self.alloc);
        for (line, was_on) in self.legs.iter().zip(self.began_on.iter()) {
            if line.on != *was_on {
                let _ = switched.push(Switched {
                    leg: line.leg,
                    on: line.on,
                });
            }
        }
        switched
    }

    /// Those who came are peers from now on, if they find a place; so many in one look. Whether it is to be said that no descriptor is left
    /// for who comes.
    fn admit(&mut self, moment: u64) -> bool {
        for _comer in 0..TAKEN_IN {
            let Some(listener) = &self.listener else {
                return false;
            };
            match listener.accept() {
                Ok((stream, _)) => self.take_in(stream, moment),
                Err(error) => return says_shortage(error.raw_os_error(), &mut self.said, moment),
            }
        }
        false
    }

    /// Who came is a peer from now on, if it finds a place.
    fn take_in(&mut self, stream: UnixStream, moment: u64) {
        if stream.set_nonblocking(true).is_ok() {
            self.peers.let_go(moment);
            self.peers.admit(stream, moment);
        }
    }

    /// What the unit is to do is noted, as far as it is told of.
    fn note(&mut self, received: Received) {
        match received {
            Received::Select { leg, on } => {
                if let Some(line) = self.legs.get_mut(usize::from(leg)) {
                    line.on = on;
                }
            }
            Received::Stop => self.begin(OpenQuestion::Stop),
            Received::Nothing | Received::Datagram { .. } => {}
        }
    }

    fn begin(&mut self, asked: OpenQuestion) {
        self.asked = asked;
        self.lines = Some(String::new(self.alloc));
        self.present.clear();
        self.status = None;
        self.states.clear();
    }

    /// One more line of the answer, or more.
    fn push(&mut self, line: Result<String, AllocError>) {
        let whole = match (&mut self.lines, line) {
            (Some(lines), Ok(line)) => lines.push_str(line.as_str()).is_ok(),
            _ => false,
        };
        if !whole {
            self.lines = None;
        }
    }

    /// Those who follow are told if the record ended that this one makes, once.
    pub(crate) fn tell_end(&mut self, recorder: &mut Recorder) {
        self.following.tell_end(recorder);
    }

    /// A datagram came from this address, which is nobody's: an RTP packet under this SSRC, if one is given. If memory is wanting it isn't
    /// listed.
    pub(crate) fn note_stranger(&mut self, from: SocketAddr, source: Option<Ssrc>, moment: u64) {
        let _ = self.strangers.note(from, moment);
        if let Some(source) = source {
            let endpoints = self.endpoints.as_slice();
            self.diagnosing
                .note_stranger(endpoints, source, from, moment);
        }
    }

    /// An RTP packet came from this endpoint, under this SSRC; `own` is the endpoint's.
    pub(crate) fn note_packet(&mut self, endpoint: u16, own: Ssrc, source: Ssrc, moment: u64) {
        self.diagnosing.note_packet(endpoint, own, source, moment);
    }

    /// Looks at what went out on each leg, if that is due. Unless somebody waits for an answer, what is to be said of legs is looked for, if that is
    /// due.
    pub(crate) fn look_at_legs(&mut self, traffic: &Traffic, moment: u64) {
        self.diagnosing.look(traffic, moment);
        if self.asked == OpenQuestion::Nothing && self.changes.take_due(moment) {
            self.begin(OpenQuestion::Changes);
        }
    }

    /// From now on it is said of a leg why nothing comes on it, or what is sent, when that changes.
    pub(crate) fn log_changes(&mut self) {
        self.changes.turn_on();
    }

    /// Whether that is to be said of a leg.
    pub(crate) fn has_changes(&self) -> bool {
        self.changes.has_lines()
    }

    /// The lines that say it. From now on they aren't to be said.
    pub(crate) fn take_changes(&mut self) -> Option<String> {
        self.changes.take_lines()
    }

    /// A datagram of this endpoint came beyond the limit.
    pub(crate) fn note_flooded(&mut self, endpoint: u16) {
        if let Some(count) = self.flooded.as_mut_slice().get_mut(usize::from(endpoint)) {
            *count = count.saturating_add(1);
        }
    }

    /// Who came last of those who are nobody is told.
    fn tell_strangers(&mut self, moment: u64) {
        self.begin(OpenQuestion::Nothing);
        let text = strangers_text(self.alloc, &self.strangers, moment);
        self.push(text);
        self.answer();
    }

    /// The endpoint is at this address by now.
    pub(crate) fn show_moved(&mut self, endpoint: u16, address: SocketAddr) {
        if let Some(listed) = self.endpoints.as_mut_slice().get_mut(usize::from(endpoint)) {
            listed.address = address;
        }
    }

    /// All lines are there: who asked is answered.
    fn answer(&mut self) {
        self.asked = OpenQuestion::Nothing;
        match self.lines.take() {
            Some(lines) => match done_text(self.alloc, lines.as_str()) {
                Ok(text) => self.peers.answer(text.as_bytes()),
                Err(_) => self.refuse(Refused::Memory),
            },
            None => self.refuse(Refused::Memory),
        }
    }

    fn refuse(&mut self, why: Refused) {
        self.peers.answer(refused_text(why).as_bytes());
    }
}

/// Whether each of these legs is selected.
fn selected_at_first(alloc: Global, legs: &[LegLine]) -> Result<Vec<bool>, AllocError>
    ensures { IfOk result (λ all. all.items ≡ map (λ line. line.on) legs.now) }
{
    let mut all = Vec::with_capacity(alloc, legs.len())?;
    for line in legs {
        all.push(line.on)?;
    }
    Ok(all)
}
