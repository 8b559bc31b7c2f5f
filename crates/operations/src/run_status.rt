//! What a run shows while it goes on, who steers it, and who records it.

ghost use Rattle.std.specs.Prelude.{◌≡◌, false, None, IsNone, IsSome};
ghost use Rattle.ports.specs.declared.feed.Received.TheVariants.{Nothing};

use crate::number_keeper::NumberKeeper;
use crate::steering::{PeerRequest, Steering};
use control_protocol::{RecordKind, Records, Screened, Unheard};
use ports::{Look, Received, Status};
use recording::{End, Recorder, UnknownSender};
use stats::Traffic;
use std::alloc::Global;
use std::cell::{Cell, RefCell, RefMut};
use std::net::SocketAddr;
use std::sync::Arc;
use std::sync::atomic::{AtomicU64, Ordering};
use std::thread::Threads;
use tmmbr_tuple::Ssrc;

/// So many milliseconds lie between two notes of the legs' numbers.
const NOTE_MS: u64 = 1000;

/// What is shown of a run while it goes on.
#[derive(Drop)]
pub struct RunStatus {
    /// How many datagrams, or packets of one, came from nobody; they are let go.
    pub strangers: Cell<u64>,
    /// How many packets were far from the highest number of their source, and weren't heard.
    pub far: Cell<u64>,
    /// How many NACKed packets were held back.
    pub held: Cell<u64>,
    /// How many datagrams came beyond the limit of their endpoint, and weren't heard.
    pub flooded: Cell<u64>,
    /// How many entries of feedback were beyond those that may be asked for in a datagram, and weren't heard.
    pub beyond: Cell<u64>,
    /// How many milliseconds went by that the run didn't live, by the last turn.
    pub stalled: Cell<u64>,
    /// How many milliseconds the run has lived since it began, at the last turn.
    pub moment_ms: Cell<u64>,
    /// Whether lines of counts begin with the time.
    pub log_time: Cell<bool>,
    /// Whether it is to be said that no descriptor is left for who connects to the control.
    shortage: Cell<bool>,
    /// Whether it is to be said that the numbers of legs couldn't be written.
    unwritten: Cell<bool>,
    /// One more than what the system dropped at the sockets, and 0 while that isn't known; nothing if nobody looks.
    unread: RefCell<Option<Arc<AtomicU64, Global>>>,
    /// Who steers the run, if anybody may.
    steering: Option<RefCell<Steering>>,
    /// Who records the run for peers, if anybody does.
    recorder: Option<RefCell<Recorder>>,
    /// Who records it in a file from its start on, if anybody does.
    file_recorder: Option<RefCell<Recorder>>,
    /// Who notes the numbers of its legs, if anybody does.
    keeper: Option<RefCell<NumberKeeper>>,
    /// The moment from which on they are noted next, in milliseconds.
    numbers_due_ms: Cell<u64>,
}

impl RunStatus {
    ghost use Rattle.std.specs.Prelude.{◌≡◌, ◌||◌, None, IsSome, is_some};

    /// Those of a run that begins.
    pub fn new() -> RunStatus
        ensures steering { result.steering ≡ None }
        ensures recorder { (result.recorder ≡ None) × (result.file_recorder ≡ None) }
        ensures keeper { result.keeper ≡ None }
    {
        RunStatus {
            strangers: Cell::new(0),
            far: Cell::new(0),
            held: Cell::new(0),
            flooded: Cell::new(0),
            beyond: Cell::new(0),
            stalled: Cell::new(0),
            moment_ms: Cell::new(0),
            log_time: Cell::new(false),
            shortage: Cell::new(false),
            unwritten: Cell::new(false),
            unread: RefCell::new(None),
            steering: None,
            recorder: None,
            file_recorder: None,
            keeper: None,
            numbers_due_ms: Cell::new(u64::MAX),
        }
    }

    /// Those of a run that begins, and is steered; it is recorded once a peer wants it.
    pub(crate) fn steered(steering: Steering, recorder: Recorder) -> RunStatus
        ensures steering { IsSome result.steering }
        ensures recorder { IsSome result.recorder }
    {
        let mut run_status = RunStatus::new();
        run_status.steering = Some(RefCell::new(steering));
        run_status.set_recorder(recorder);
        run_status
    }

    /// The run is recorded by this from now on, once a peer wants it.
    pub fn set_recorder(&mut self, recorder: Recorder)
        ensures recorder { IsSome self.new.recorder }
        ensures steering { self.new.steering ≡ self.old.steering }
    {
        self.recorder = Some(RefCell::new(recorder));
    }

    /// The run is recorded in a file from now on, whatever peers want beside.
    pub fn record_in_file(&mut self, recorder: Recorder)
        ensures recorder { IsSome self.new.file_recorder }
        ensures others { (self.new.recorder ≡ self.old.recorder)
            × (self.new.steering ≡ self.old.steering) }
    {
        self.file_recorder = Some(RefCell::new(recorder));
    }

    /// The numbers of the run's legs are noted from now on.
    pub fn keep_numbers(&mut self, keeper: NumberKeeper)
        ensures keeper { IsSome self.new.keeper }
        ensures others { (self.new.steering ≡ self.old.steering)
            × (self.new.recorder ≡ self.old.recorder) }
    {
        self.keeper = Some(RefCell::new(keeper));
        self.numbers_due_ms.set(NOTE_MS);
    }

    /// Whether the numbers of the run's legs are to be noted at this moment.
    pub(crate) fn are_numbers_due(&self, moment: u64) -> bool {
        moment >= self.numbers_due_ms.get()
    }

    /// The numbers of the run's legs are noted at this moment, if anybody does that.
    pub fn note_numbers(&self, moment: u64, traffic: &Traffic) {
        if let Some(keeper) = &self.keeper {
            self.numbers_due_ms.set(moment.saturating_add(NOTE_MS));
            if let Ok(mut keeper) = keeper.try_borrow_mut() {
                if keeper.note(traffic) {
                    self.unwritten.set(true);
                }
            }
        }
    }

    /// Who records the run for peers, if anybody may.
    pub fn recorder(&self) -> Option<RefMut<'_, Recorder>>
        ensures { self.now.recorder ≡ None → IsNone result }
    {
        let Some(recorder) = &self.recorder else {
            return None;
        };
        recorder.try_borrow_mut().ok()
    }

    /// Who records the run in a file, if anybody does.
    pub fn file_recorder(&self) -> Option<RefMut<'_, Recorder>>
        ensures { self.now.file_recorder ≡ None → IsNone result }
    {
        let Some(recorder) = &self.file_recorder else {
            return None;
        };
        recorder.try_borrow_mut().ok()
    }

    /// How many bytes of this record stand where it is written, and why it ended, if it did; `None` if nobody wanted one.
    pub(crate) fn record_state(&self, kind: RecordKind) -> Option<(u64, Option<End>)> {
        let recorder = self.recorder_of(kind)?;
        recorder.state()
    }

    /// Whether the run is recorded in a file from its start on, be it that this has ended.
    pub(crate) fn has_file(&self) -> bool {
        self.file_recorder.is_some()
    }

    /// Who makes this record of the run, if anybody may.
    fn recorder_of(&self, kind: RecordKind) -> Option<RefMut<'_, Recorder>> {
        match kind {
            RecordKind::File => self.file_recorder(),
            RecordKind::Peer => self.recorder(),
        }
    }

    /// The run has ended, and so have its records and the notes of its numbers.
    pub(crate) fn finish<R: Threads>(self, rt: &R) {
        let RunStatus {
            recorder,
            file_recorder,
            keeper,
            ..
        } = self;
        if let Some(recorder) = file_recorder {
            recorder.into_inner().finish(rt);
        }
        if let Some(recorder) = recorder {
            recorder.into_inner().finish(rt);
        }
        if let Some(keeper) = keeper {
            keeper.into_inner().finish(rt);
        }
    }

    /// Whether the run is being recorded for a peer.
    pub fn is_recorded(&self) -> bool
        ensures { self.now.recorder ≡ None → result ≡ false }
    {
        match self.recorder() {
            Some(recorder) => recorder.is_on(),
            None => false,
        }
    }

    /// Whether the run is being recorded in a file.
    pub fn is_recorded_in_file(&self) -> bool
        ensures { self.now.file_recorder ≡ None → result ≡ false }
    {
        match self.file_recorder() {
            Some(recorder) => recorder.is_on(),
            None => false,
        }
    }

    /// Whether anybody may steer the run.
    pub fn is_steered(&self) -> bool
        ensures { result ≡ is_some self.now.steering }
    {
        self.steering.is_some()
    }

    /// Whether the run may have something to say beside counts.
    pub fn has_lines(&self) -> bool
        ensures { result ≡ is_some self.now.steering || is_some self.now.keeper }
    {
        self.is_steered() || self.keeper.is_some()
    }

    /// Who steers the run.
    pub(crate) fn steering(&self) -> Option<RefMut<'_, Steering>>
        ensures { self.now.steering ≡ None → IsNone result }
    {
        let Some(steering) = &self.steering else {
            return None;
        };
        steering.try_borrow_mut().ok()
    }

    /// The endpoint is at this address by now, as was learned.
    pub fn show_moved(&self, endpoint: u16, address: SocketAddr) {
        if let Some(mut steering) = self.steering() {
            steering.show_moved(endpoint, address);
        }
    }

    /// What peers want of the unit by now: that a leg is switched, or that it stops; nothing, if nobody may steer it. What they want of its
    /// records is done here, and it is noted if the control has no descriptor left for them.
    pub fn wished(&self) -> Received
        ensures { self.now.steering ≡ None → result ≡ Nothing }
    {
        let moment = self.moment_ms.get();
        let records = Records {
            file: self.is_recorded_in_file(),
            peer: self.is_recorded(),
        };
        let Some(mut steering) = self.steering() else {
            return Received::Nothing;
        };
        for kind in [RecordKind::File, RecordKind::Peer] {
            if let Some(mut recorder) = self.recorder_of(kind) {
                steering.tell_end(&mut recorder);
            }
        }
        match steering.receive(moment, records) {
            PeerRequest::Unit(received) => return received,
            PeerRequest::Record(peer) => {
                if let Some(mut recorder) = self.recorder() {
                    recorder.begin_for(peer, moment, steering.switched().as_slice());
                }
            }
            PeerRequest::EndRecord(kind) => {
                if let Some(mut recorder) = self.recorder_of(kind) {
                    recorder.end();
                }
            }
            PeerRequest::SayShortage => self.shortage.set(true),
        }
        Received::Nothing
    }

    /// Whether anything is to be said beside counts: of the control, of the numbers of legs, or of why nothing comes on them.
    pub(crate) fn has_news(&self) -> bool {
        self.shortage.get() || self.unwritten.get() || self.has_changes()
    }

    /// Whether it is to be said that no descriptor is left for who connects to the control. From now on it isn't, until that is so again.
    pub(crate) fn take_shortage(&self) -> bool {
        let is_short = self.shortage.get();
        self.shortage.set(false);
        is_short
    }

    /// Whether it is to be said that the numbers of legs couldn't be written. From now on it isn't, until that is so again.
    pub(crate) fn take_unwritten(&self) -> bool {
        let is_unwritten = self.unwritten.get();
        self.unwritten.set(false);
        is_unwritten
    }

    /// From now on it is said of a leg why nothing comes on it, or what is sent, when that changes.
    pub fn log_changes(&self) {
        if let Some(mut steering) = self.steering() {
            steering.log_changes();
        }
    }

    /// Whether that is to be said of a leg.
    fn has_changes(&self) -> bool {
        match self.steering() {
            Some(steering) => steering.has_changes(),
            None => false,
        }
    }

    /// The lines that say it. From now on they aren't to be said.
    pub(crate) fn take_changes(&self) -> Option<String> {
        let mut steering = self.steering()?;
        steering.take_changes()
    }

    /// Whether somebody waits for the totals.
    pub(crate) fn wants_counts(&self) -> bool {
        match self.steering() {
            Some(steering) => steering.wants_counts(),
            None => false,
        }
    }

    /// What the system dropped is shown there from now on.
    pub fn show_unread(&self, unread: Arc<AtomicU64, Global>) {
        if let Ok(mut place) = self.unread.try_borrow_mut() {
            *place = Some(unread);
        }
    }

    /// What the system dropped at the sockets, in datagrams, if that is known.
    fn unread(&self) -> Option<u64> {
        let Ok(place) = self.unread.try_borrow() else {
            return None;
        };
        let Some(unread) = &*place else {
            return None;
        };
        unread.load(Ordering::SeqCst).checked_sub(1)
    }

    /// What came by now and wasn't heard.
    pub(crate) fn unheard(&self) -> Unheard {
        Unheard {
            strangers: self.strangers.get(),
            unread: self.unread(),
        }
    }

    /// What came by now and was kept from the machine, and how much of its time.
    pub(crate) fn screened(&self) -> Screened {
        Screened {
            far: self.far.get(),
            held: self.held.get(),
            flooded: self.flooded.get(),
            beyond: self.beyond.get(),
            stalled: self.stalled.get(),
        }
    }

    /// A datagram of this endpoint came beyond the limit.
    pub fn count_flooded(&self, endpoint: u16) {
        self.flooded.set(self.flooded.get().saturating_add(1));
        if let Some(mut steering) = self.steering() {
            steering.note_flooded(endpoint);
        }
    }

    /// A datagram, or a packet of one, came from nobody, at this address: an RTP packet under the first SSRC, if one is given; the other is what it
    /// names, RTCP too.
    pub fn count_stranger(&self, from: SocketAddr, media: Option<Ssrc>, named: Option<u32>) {
        self.strangers.set(self.strangers.get().saturating_add(1));
        let moment = self.moment_ms.get();
        if let Some(mut steering) = self.steering() {
            steering.note_stranger(from, media, moment);
        }
        if let Some(source) = named {
            let address = from;
            self.record_stranger(UnknownSender { address, source }, moment);
        }
    }

    /// Those who record the run may have a line of this one, who comes at this moment.
    fn record_stranger(&self, sender: UnknownSender, moment: u64) {
        for kind in [RecordKind::File, RecordKind::Peer] {
            if let Some(mut recorder) = self.recorder_of(kind) {
                recorder.note_stranger(moment, sender);
            }
        }
    }

    /// An RTP packet came from this endpoint, under this SSRC; `own` is the endpoint's.
    pub fn note_packet(&self, endpoint: u16, own: Ssrc, source: Ssrc) {
        if let Some(mut steering) = self.steering() {
            steering.note_packet(endpoint, own, source, self.moment_ms.get());
        }
    }

    /// The totals are shown to who waits for them.
    pub(crate) fn show_counts(&self, status: &Status) {
        if let Some(mut steering) = self.steering() {
            if steering.wants_counts() {
                steering.show_counts(status, &self.unheard(), &self.screened());
            }
        }
    }

    /// What somebody wants to see of the room. What went out on legs is looked at, and what is to be said of them, if that is due.
    pub(crate) fn look(&self, traffic: &Traffic) -> Look {
        match self.steering() {
            Some(mut steering) => {
                let moment = self.moment_ms.get();
                steering.look_at_legs(traffic, moment);
                steering.look(moment)
            }
            None => Look::Nothing,
        }
    }

    /// Which endpoints were present when somebody had the unit stopped, by their numbers; `None` if nobody did.
    pub fn present_at_stop(&self) -> Option<Vec<bool>>
        ensures { self.now.steering ≡ None → IsNone result }
    {
        let mut steering = self.steering()?;
        steering.take_present()
    }
}
