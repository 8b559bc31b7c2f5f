//! What is let in, as a record has it.

ghost use Rattle.std.specs.Prelude.{◌≡◌, ◌↔◌, IsTrue, true};
ghost use Rattle.datagram.specs.Reads.{was_read};
ghost use Rattle.events.specs.declared.event.Event.TheVariants.{Hear};
ghost use Rattle.recording.specs.HandedOn.{IsWritten};
ghost use Rattle.recording.specs.Lines.{event_lines};
ghost use Rattle.recording.specs.Taken.{with_origin};
ghost use Rattle.udp.specs.Scribe.{IsReadAgain};

use crate::kept::Kept;
use datagram::{Ask, Control, Reading, What, read, spell};
use entrance::{Admitted, Came};
use operations::RunStatus;
use recording::{Origin, Recorder, Taken};
use stats::Traffic;
use std::alloc::{AllocError, Global};
use std::marker::Model;
use tmmbr_tuple::Ssrc;

/// Tells those who record a run what is taken in. What the rules changed, or the unit says in a client's name, is spelled for that.
#[derive(Drop)]
pub(crate) struct Scribe {
    /// The datagram that was spelled last.
    spelled: Vec<u8>,
    /// What the datagram that came says, before the rules.
    heard: Reading,
}

impl Model for Scribe {
    ghost use Rattle.std.specs.Prelude.{ℕ, List};

    ghost Value = { List ℕ };

    ghost view = { λ s. s.spelled.items };
}

impl Scribe {
    ghost use Rattle.std.specs.Prelude.{◌≡◌, ◌↔◌, IsTrue, IfOk, OnOk, [], true, false};
    ghost use Rattle.datagram.specs.Reads.{IsSaidIn, was_read};
    ghost use Rattle.events.specs.declared.event.Event.TheVariants.{Hear};
    ghost use Rattle.recording.specs.Lines.{after_came, event_lines};
    ghost use Rattle.recording.specs.Taken.{with_origin};
    ghost use Rattle.udp.specs.Kept.{bytes_of, datagram_in};
    ghost use Rattle.udp.specs.Scribe.{IsKeptAsHeard, IsReadAgain, IsWhatCame, NotesDown, PutsOrEnds, TakesDown, spelled_lines};

    /// Nothing was spelled yet. It takes no memory.
    pub(crate) fn new(alloc: Global) -> Scribe
        ensures { result ≡ [] }
    {
        Scribe {
            spelled: Vec::new(alloc),
            heard: Reading::new(alloc),
        }
    }

    /// This is let in; what is taken in is kept there.
    pub(crate) fn note(
        &mut self,
        run_status: &RunStatus,
        traffic: &Traffic,
        came: Came,
        kept: &Kept,
    ) {
        let heard_ms = heard_before(traffic, kept);
        if let Some(mut recorder) = run_status.file_recorder() {
            self.note_in(&mut recorder, came, kept, heard_ms);
        }
        if let Some(mut recorder) = run_status.recorder() {
            self.note_in(&mut recorder, came, kept, heard_ms);
        }
    }

    /// A tick was made at this moment.
    pub(crate) fn ticked(&self, run_status: &RunStatus, moment: u64) {
        if let Some(mut recorder) = run_status.file_recorder() {
            recorder.ticked(moment);
        }
        if let Some(mut recorder) = run_status.recorder() {
            recorder.ticked(moment);
        }
    }

    /// Has this recorder write down what was let in. If the unit made it, one of the endpoint's own came last at `heard_ms`, if one did.
    fn note_in(&mut self, recorder: &mut Recorder, came: Came, kept: &Kept, heard_ms: Option<u64>)
        ensures off { recorder.old.is_open ≡ false → recorder.new.tape ≡ recorder.old.tape }
        ensures on { recorder.old.is_open ≡ true → IsKeptAsHeard kept.now
            → NotesDown came.moment came.admitted kept.now heard_ms recorder.old.tape
            recorder.new.tape }
    {
        if !recorder.is_on() {
            return;
        }
        let Came { moment, admitted } = came;
        match admitted {
            Ok(Admitted::Taking) => self.note_taken(recorder, moment, kept, heard_ms),
            Ok(Admitted::Select { leg, on }) => recorder.note(moment, Taken::Select { leg, on }),
            Ok(Admitted::Nothing) => recorder.note(moment, Taken::Nothing),
            Ok(Admitted::Stop) => recorder.note(moment, Taken::Nothing),
            Err(_) => recorder.note(moment, Taken::Nothing),
        }
    }

    /// What is kept is taken in at this moment.
    fn note_taken(
        &mut self,
        recorder: &mut Recorder,
        moment: u64,
        kept: &Kept,
        heard_ms: Option<u64>,
    )
        ensures { recorder.old.is_open ≡ true → IsKeptAsHeard kept.now
            → TakesDown moment kept.now heard_ms recorder.old.tape recorder.new.tape }
    {
        if kept.is_made {
            self.note_spelled(recorder, moment, kept, Origin::Made(heard_ms));
            return;
        }
        match self.is_what_came(kept) {
            Ok(is_what_came) => self.note_heard(recorder, moment, kept, is_what_came),
            Err(_) => recorder.lacks_memory(),
        }
    }

    /// What is kept is noted as it came, if it is what came; else it is spelled.
    fn note_heard(&mut self, recorder: &mut Recorder, moment: u64, kept: &Kept, is_what_came: bool)
        ensures came { is_what_came ≡ true → recorder.old.is_open ≡ true
            → PutsOrEnds recorder.old.tape
            (event_lines (Hear moment kept.now.sent.endpoint (bytes_of kept.now)))
            recorder.new.tape }
        ensures changed { is_what_came ≡ false → recorder.old.is_open ≡ true
            → PutsOrEnds recorder.old.tape
            (after_came (bytes_of kept.now) (spelled_lines moment kept.now)) recorder.new.tape }
    {
        if is_what_came {
            note_datagram(
                recorder,
                moment,
                kept.sent.endpoint,
                kept.bytes(),
                Origin::Came,
            );
            return;
        }
        self.note_spelled(recorder, moment, kept, Origin::Changed(kept.bytes()));
    }

    /// What is kept is spelled, and noted as of this origin.
    fn note_spelled(
        &mut self,
        recorder: &mut Recorder,
        moment: u64,
        kept: &Kept,
        origin: Origin<'_>,
    )
        ensures { recorder.old.is_open ≡ true → PutsOrEnds recorder.old.tape
            (with_origin origin.entry (spelled_lines moment kept.now)) recorder.new.tape }
    {
        match self.spell_kept(kept) {
            Ok(()) => note_datagram(
                recorder,
                moment,
                kept.sent.endpoint,
                self.spelled.as_slice(),
                origin,
            ),
            Err(_) => recorder.lacks_memory(),
        }
    }

    /// Spells what is kept, in place of what was spelled.
    fn spell_kept(&mut self, kept: &Kept) -> Result<(), AllocError>
        ensures { OnOk result (self.new ≡ datagram_in kept.now) }
    {
        self.spelled.clear();
        let Reading { what, asks, .. } = &kept.reading;
        spell(
            kept.sent.own,
            *what,
            asks.as_slice(),
            kept.bytes(),
            &mut self.spelled,
        )
    }

    /// Whether what is kept is what its bytes say. A packet is, and so is what is refused.
    fn is_what_came(&mut self, kept: &Kept) -> Result<bool, AllocError>
        ensures { IsKeptAsHeard kept.now → IfOk result (λ is. IsTrue is ↔ IsWhatCame kept.now) }
    {
        match kept.reading.what {
            What::Media(_) => Ok(true),
            What::Refused(_) => Ok(true),
            What::Goodbye => self.says(kept.bytes(), kept.sent.own, &kept.reading),
            What::Control(_) => self.says(kept.bytes(), kept.sent.own, &kept.reading),
        }
    }

    /// Whether these bytes of the endpoint with this source say this RTCP.
    fn says(&mut self, bytes: &[u8], own: Ssrc, kept: &Reading) -> Result<bool, AllocError>
        ensures { IsReadAgain kept.now.what
            → IfOk result (λ is. IsTrue is ↔ IsSaidIn own.0 bytes.now (was_read kept.now)) }
    {
        read(bytes, own, None, &mut self.heard)?;
        Ok(are_same(&self.heard, kept))
    }
}

/// When one of the endpoint's own came last, in milliseconds, if the unit made what is kept.
fn heard_before(traffic: &Traffic, kept: &Kept) -> Option<u64> {
    if kept.is_made {
        traffic.endpoint(kept.sent.endpoint)?.heard_ms
    } else {
        None
    }
}

/// A datagram of this origin is noted.
fn note_datagram(
    recorder: &mut Recorder,
    moment: u64,
    endpoint: u16,
    bytes: &[u8],
    origin: Origin<'_>,
)
    ensures { recorder.old.is_open ≡ true → IsWritten recorder.old.tape
        (with_origin origin.entry (event_lines (Hear moment endpoint bytes.now)))
        recorder.new.tape }
{
    recorder.note(
        moment,
        Taken::Datagram {
            endpoint,
            bytes,
            origin,
        },
    );
}

/// Whether what was read is this RTCP.
fn are_same(heard: &Reading, kept: &Reading) -> bool
    ensures { IsReadAgain kept.now.what
        → (IsTrue result ↔ (was_read heard.now ≡ was_read kept.now)) }
{
    let says_so = is_same_what(heard.what, kept.what);
    if says_so {
        ask_the_same(heard, kept)
    } else {
        false
    }
}

/// The same, but for what is asked for.
fn is_same_what(heard: What, kept: What) -> bool
    ensures { IsReadAgain kept → (IsTrue result ↔ (heard ≡ kept)) }
{
    match kept {
        What::Control(rtcp) => says_control(heard, rtcp),
        What::Goodbye => says_goodbye(heard),
        What::Media(_) => false,
        What::Refused(_) => false,
    }
}

/// Whether this is said by RTCP packets.
fn says_control(heard: What, rtcp: Control) -> bool
    ensures { IsTrue result ↔ (heard ≡ What.Control rtcp) }
{
    match heard {
        What::Control(other) => is_same_control(other, rtcp),
        What::Goodbye => false,
        What::Media(_) => false,
        What::Refused(_) => false,
    }
}

/// Whether it is a goodbye.
fn says_goodbye(heard: What) -> bool
    ensures { IsTrue result ↔ (heard ≡ What.Goodbye) }
{
    match heard {
        What::Goodbye => true,
        What::Control(_) => false,
        What::Media(_) => false,
        What::Refused(_) => false,
    }
}

/// Whether both say the same.
fn is_same_control(heard: Control, kept: Control) -> bool
    ensures { IsTrue result ↔ (heard ≡ kept) }
{
    heard == kept
}

/// Whether both ask for the same.
fn ask_the_same(heard: &Reading, kept: &Reading) -> bool
    ensures { IsTrue result ↔ (heard.now.asks.items ≡ kept.now.asks.items) }
{
    are_same_asks(heard.asks.as_slice(), kept.asks.as_slice())
}

/// Whether these are the same, in the same order.
fn are_same_asks(heard: &[Ask], kept: &[Ask]) -> bool
    ensures { IsTrue result ↔ (heard.now ≡ kept.now) }
{
    heard == kept
}
