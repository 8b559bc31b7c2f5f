//! What packets say, read in one walk, before anything that they ask for is listed.

ghost use Rattle.std.specs.Prelude.{◌≡◌, ◌==◌, ℕ, ◌+◌, ◌^◌, ◌<◌, ◌≤◌, List, [], ◌∷◌, ◌++◌, length, IfOk, Ok, if◌then◌else◌};
ghost use Rattle.std.specs.List.{list_any};
ghost use Rattle.rtcp_compound.specs.Content.{Content, content_of, sources_left};
ghost use Rattle.rtcp_compound.specs.Left.{contents_left};
ghost use Rattle.rtcp_feedback.specs.Reading.{message_of};
ghost use Rattle.datagram.specs.Notes.{AreNoted, HasSameRoom};
ghost use Rattle.datagram.specs.Reads.{IsSurveyOf, Surveys};
ghost use Rattle.datagram.specs.Saying.{Gist, PacketSays, PacketsSay, gist_of, joint_gist, empty_gist, sent_by};
ghost use Rattle.datagram.specs.declared.reading.Ask.{Ask as Asked};

use crate::notes::Notes;
use crate::reading::Control;
use rtcp_compound::{Packets, RtcpView, Sources};
use rtcp_feedback::{FbFault, Feedback, read_feedback};
use tmmbr_tuple::Ssrc;

/// What packets say, but for what they ask for.
#[derive(Clone, Copy)]
pub(crate) struct Survey {
    /// A goodbye names the endpoint's own source.
    pub(crate) goodbye: bool,
    /// There is a NACK, a PLI or a TMMBR.
    pub(crate) asking: bool,
    pub(crate) control: Control,
    /// Who speaks if only sender reports say so.
    pub(crate) clocked: Ssrc,
}

impl Survey {
    /// Of packets that say nothing.
    fn silent(own: Ssrc) -> Survey
        ensures { IsSurveyOf own.0 result empty_gist }
    {
        Survey {
            goodbye: false,
            asking: false,
            control: Control {
                speaker: own,
                report: None,
                tmmbns: 0,
            },
            clocked: own,
        }
    }

    /// Of a packet of this sender that says no more.
    fn of_sender(sender: Ssrc, own: Ssrc) -> Survey
        ensures { IsSurveyOf own.0 result (sent_by sender.0) }
    {
        let mut survey = Survey::silent(own);
        survey.control.speaker = sender;
        survey
    }

    /// Of a packet of this sender that may ask for something.
    fn of_asking(sender: Ssrc, own: Ssrc) -> Survey
        ensures { (asks : List Asked)
            → IsSurveyOf own.0 result (record (sent_by sender.0) { asks = asks }) }
    {
        let mut survey = Survey::of_sender(sender, own);
        survey.asking = true;
        survey
    }

    /// Of the packets before, then of these.
    fn then(self, next: Survey, own: Ssrc) -> Survey
        requires { self.control.tmmbns + next.control.tmmbns < 2 ^ 64 }
        ensures joined { (a b : Gist) → IsSurveyOf own.0 self a → IsSurveyOf own.0 next b
            → IsSurveyOf own.0 result (joint_gist a b) }
        ensures counted { result.control.tmmbns ≡ self.control.tmmbns + next.control.tmmbns }
    {
        Survey {
            goodbye: self.goodbye || next.goodbye,
            asking: self.asking || next.asking,
            control: Control {
                speaker: first_other(self.control.speaker, next.control.speaker, own),
                report: next.control.report.or(self.control.report),
                tmmbns: self.control.tmmbns + next.control.tmmbns,
            },
            clocked: first_other(self.clocked, next.clocked, own),
        }
    }
}

/// The first of two sources that isn't the endpoint's own, else that.
fn first_other(first: Ssrc, next: Ssrc, own: Ssrc) -> Ssrc
    ensures { result.0 ≡ (if first.0 == own.0 then next.0 else first.0) }
{
    if first == own { next } else { first }
}

/// Reads packets, up to the first fault.
pub(crate) fn survey_packets(packets: Packets<'_>, own: Ssrc) -> Result<Survey, FbFault>
    requires { length (contents_left packets) < 2 ^ 64 }
    ensures { Surveys own.0 (PacketsSay (contents_left packets.entry)) result }
{
    let mut all = Survey::silent(own);
    for packet in packets {
        all = all.then(survey_packet(packet, own)?, own);
    }
    Ok(all)
}

/// Reads packets, up to the first fault, and notes all of them.
pub(crate) fn note_packets(
    packets: Packets<'_>,
    own: Ssrc,
    notes: &mut Notes,
) -> Result<Survey, FbFault>
    requires { length (contents_left packets) < 2 ^ 64 }
    ensures surveyed { Surveys own.0 (PacketsSay (contents_left packets.entry)) result }
    ensures noted { AreNoted notes.new (contents_left packets.entry) }
    ensures room { HasSameRoom notes.old notes.new }
{
    notes.clear();
    let mut all = Ok(Survey::silent(own));
    for packet in packets {
        notes.note(packet);
        all = survey_further(all, packet, own);
    }
    all
}

/// What packets say, of which this was read, with one packet more.
fn survey_further(
    before: Result<Survey, FbFault>,
    packet: RtcpView<'_>,
    own: Ssrc,
) -> Result<Survey, FbFault>
    requires { IfOk before (λ s. s.control.tmmbns + 1 < 2 ^ 64) }
    ensures said { (done : List Content) → Surveys own.0 (PacketsSay done) before
        → Surveys own.0 (PacketsSay (done ++ content_of packet.entry ∷ [])) result }
    ensures counted { (most : ℕ) → IfOk before (λ s. s.control.tmmbns ≤ most)
        → IfOk result (λ s. s.control.tmmbns ≤ most + 1) }
{
    match before {
        Ok(survey) => survey_next(survey, packet, own),
        Err(fault) => Err(fault),
    }
}

/// What packets say that have no fault, with one packet more.
fn survey_next(before: Survey, packet: RtcpView<'_>, own: Ssrc) -> Result<Survey, FbFault>
    requires { before.control.tmmbns + 1 < 2 ^ 64 }
    ensures said { (done : List Content) (g : Gist) → PacketsSay done (Ok g)
        → IsSurveyOf own.0 before g
        → Surveys own.0 (PacketsSay (done ++ content_of packet.entry ∷ [])) result }
    ensures counted { IfOk result (λ s. s.control.tmmbns ≤ before.control.tmmbns + 1) }
{
    match survey_packet(packet, own) {
        Ok(next) => Ok(before.then(next, own)),
        Err(fault) => Err(fault),
    }
}

/// Reads a packet.
fn survey_packet(packet: RtcpView<'_>, own: Ssrc) -> Result<Survey, FbFault>
    ensures said { Surveys own.0 (PacketSays (content_of packet.entry)) result }
    ensures counted { IfOk result (λ s. s.control.tmmbns ≤ 1) }
{
    match packet {
        RtcpView::Sr {
            sender,
            ntp,
            rtp,
            ..
        } => {
            let mut said = Survey::of_sender(sender, own);
            said.control.report = Some((ntp, rtp));
            said.clocked = said.control.speaker;
            Ok(said)
        }
        RtcpView::Rr { sender, .. } => Ok(Survey::of_sender(sender, own)),
        RtcpView::Bye { sources } => {
            let mut said = Survey::silent(own);
            said.goodbye = names(sources, own);
            Ok(said)
        }
        RtcpView::Feedback { fmt, kind, body } => match read_feedback(fmt, kind, body) {
            Ok(feedback) => Ok(survey_feedback(feedback, own)),
            Err(fault) => Err(fault),
        },
        RtcpView::Sdes { .. } => Ok(Survey::silent(own)),
        RtcpView::Other { .. } => Ok(Survey::silent(own)),
    }
}

/// Whether this source is among these.
fn names(sources: Sources<'_>, own: Ssrc) -> bool
    ensures { result ≡ list_any (λ s. s == own.0) (sources_left sources.entry) }
{
    for source in sources {
        if source == own {
            return true;
        }
    }
    false
}

/// What a feedback packet says.
fn survey_feedback(feedback: Feedback<'_>, own: Ssrc) -> Survey
    ensures said { IsSurveyOf own.0 result (gist_of (message_of feedback.entry)) }
    ensures counted { result.control.tmmbns ≤ 1 }
{
    match feedback {
        Feedback::Nack { sender, .. } => Survey::of_asking(sender, own),
        Feedback::Pli { sender, .. } => Survey::of_asking(sender, own),
        Feedback::Tmmbr { sender, .. } => Survey::of_asking(sender, own),
        Feedback::Tmmbn { sender, .. } => {
            let mut said = Survey::of_sender(sender, own);
            said.control.tmmbns = 1;
            said
        }
        Feedback::Unknown { sender } => Survey::of_sender(sender, own),
    }
}
