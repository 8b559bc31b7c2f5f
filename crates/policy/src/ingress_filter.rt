//! What was read of a datagram, judged before the machine takes it in.

ghost use Rattle.std.specs.Prelude.{◌≡◌, ℕ, List, None, IfOk, length, replicate};
ghost use Rattle.datagram.specs.Reads.{IsPacketRead};
ghost use Rattle.datagram.specs.Spelling.{IsAsHeard};
ghost use Rattle.policy.specs.IngressFilter.{IsAsItWas, Judges, JudgesRtcp, JudgesPacket, AdmitsResendsIf, LooksForNothing, PlacesOwn, Stays, come_anew, rtcp_heard, counted_in, placement_by, resends_by, resends_left, trackers_by, trackers_left, stamp_in, welcomed};

use crate::leg_resends::ResendBounds;
use crate::presence::is_there;
use crate::resend_limiter::ResendLimiter;
use crate::rules::Rules;
use crate::sequence_tracker::{Placement, Stamp};
use crate::sequence_trackers::SequenceTrackers;
use datagram::{Ask, Control, Media, Reading, Sent, What};
use members::RoomView;
use settings::Settings;
use stats::Traffic;
use std::alloc::{AllocError, Global};
use std::cell::Cell;
use tmmbr_tuple::Ssrc;

/// What becomes of what was read of a datagram.
#[derive(Clone, Copy, PartialEq, Eq)]
pub enum Judged {
    /// It is taken in.
    Take,
    /// It is a packet that is far from the highest number of its endpoint: it is held, since it may be an odd one.
    HoldPacket,
    /// It is a packet with which its endpoint began anew. A BYE of it is taken in first (RFC 3550, section 6.6), then the packet that was held,
    /// then this one.
    Anew,
}

/// By which rules what was read is judged, and what is known of the endpoints.
#[derive(Drop)]
pub struct IngressFilter<'a> {
    rules: Rules,
    starts: SequenceTrackers,
    /// What is known of resends, if they are bounded.
    resends: Option<ResendLimiter>,
    /// What is known of the round trips on legs.
    traffic: &'a Traffic,
    /// How many packets were far from the highest number.
    far: &'a Cell<u64>,
    /// How many NACKed packets weren't admitted.
    held: &'a Cell<u64>,
}

impl<'a> IngressFilter<'a> {
    /// Nothing came and nothing was admitted in a unit of these settings. `traffic` says the round trips there; `far` is raised for each
    /// far packet, `held` for each NACKed packet that isn't admitted.
    pub fn new(
        alloc: Global,
        settings: &Settings,
        rules: Rules,
        traffic: &'a Traffic,
        far: &'a Cell<u64>,
        held: &'a Cell<u64>,
    ) -> Result<IngressFilter<'a>, AllocError>
        ensures rules { IfOk result (λ ingress_filter. ingress_filter.rules ≡ rules) }
        ensures starts { IfOk result
            (λ ingress_filter. ingress_filter.starts ≡ replicate (length settings.now.endpoints) None) }
        ensures resends { IfOk result
            (λ ingress_filter. ingress_filter.resends ≡ resends_by settings.now rules.resends) }
        ensures looks { IfOk result (λ ingress_filter. ingress_filter.traffic ≡ traffic.entry) }
        ensures counts { IfOk result
            (λ ingress_filter. (ingress_filter.far ≡ far.entry) × (ingress_filter.held ≡ held.entry)) }
    {
        Ok(IngressFilter {
            rules,
            starts: SequenceTrackers::new(alloc, settings.endpoints().len())?,
            resends: resends_by(alloc, settings, rules.resends)?,
            traffic,
            far,
            held,
        })
    }

    /// Who sent a datagram is heard: if it isn't there by the room as it is, as after a BYE or a timeout, it comes anew. What is known of its
    /// numbers is forgotten if new starts are looked for; and if resends are bounded, what came of it, and the round trips to it.
    pub fn welcome(&mut self, sent: Sent, view: RoomView<'_>)
        ensures welcomed { self.new ≡ welcomed self.old sent view.entry.room.now }
        ensures off { LooksForNothing self.old → self.new ≡ self.old }
    {
        if !is_there(view, sent.endpoint, sent.moment) {
            self.forget(sent.endpoint);
        }
    }

    /// Judges what was read of a datagram. RTCP is heard under the endpoint's own source, unless the rules are strict: who speaks is then whom
    /// its sender reports name, if they name another one. Of what that source asks for is left what may be sent again by now. A packet of
    /// the own source is placed and noted, and unless it is far it is counted of the endpoint.
    pub fn judge(&mut self, sent: Sent, reading: &mut Reading) -> Judged
        ensures judged { Judges self.old self.new sent reading.old reading.new result }
        ensures stays { Stays self.old self.new }
        ensures as_heard { (came : List ℕ)
            → IsAsHeard sent.own.0 reading.old.what reading.old.asks.items came
            → IsAsHeard sent.own.0 reading.new.what reading.new.asks.items came }
        ensures packet { (bytes : List ℕ) → IsPacketRead bytes reading.old.what
            → IsPacketRead bytes reading.new.what }
        ensures off { LooksForNothing self.old
            → IsAsItWas self.old self.new reading.old reading.new result }
    {
        match reading.what {
            What::Media(packet) => self.judge_packet(sent, packet),
            What::Control(rtcp) => self.judge_rtcp(sent, rtcp, reading),
            What::Goodbye | What::Refused(_) => Judged::Take,
        }
    }

    /// A packet of the endpoint that was held is taken in.
    pub fn count(&mut self, endpoint: u16, moment: u64)
        ensures counted { self.new.resends ≡ counted_in self.old.resends endpoint moment }
        ensures starts { self.new.starts ≡ self.old.starts }
        ensures stays { Stays self.old self.new }
    {
        if let Some(resends) = &mut self.resends {
            resends.count(endpoint, moment);
        }
    }

    /// What is known of an endpoint is forgotten.
    fn forget(&mut self, endpoint: u16)
        ensures { self.new ≡ come_anew self.old endpoint }
    {
        self.forget_numbers(endpoint);
        self.forget_resends(endpoint);
    }

    /// What is known of its numbers is, if new starts are looked for.
    fn forget_numbers(&mut self, endpoint: u16)
        ensures { self.new ≡ record self.old {
          starts = trackers_left self.old.rules.new_starts self.old.starts endpoint;
        } }
    {
        if self.rules.new_starts {
            self.starts.forget(endpoint);
        }
    }

    /// What came of it is, and the round trips to it are, if resends are bounded.
    fn forget_resends(&mut self, endpoint: u16)
        ensures { self.new ≡ record self.old { resends = resends_left self.old.resends endpoint } }
    {
        if let Some(resends) = &mut self.resends {
            resends.forget(endpoint);
            self.traffic.came_anew(endpoint);
        }
    }

    /// What becomes of a packet.
    fn judge_packet(&mut self, sent: Sent, packet: Media) -> Judged
        ensures judged { JudgesPacket self.old self.new sent (stamp_in sent packet) result }
        ensures stays { Stays self.old self.new }
    {
        match stamp_in(sent, packet) {
            Some(stamp) => self.judge_own(sent, stamp),
            None => Judged::Take,
        }
    }

    /// What becomes of a packet of the endpoint's own source.
    fn judge_own(&mut self, sent: Sent, stamp: Stamp) -> Judged
        ensures judged { PlacesOwn self.old self.new sent stamp result }
        ensures stays { Stays self.old self.new }
    {
        match self.place(sent.endpoint, stamp) {
            Placement::InSequence => {
                self.count(sent.endpoint, sent.moment);
                Judged::Take
            }
            Placement::Jump => {
                self.far.set(self.far.get().saturating_add(1));
                Judged::HoldPacket
            }
            Placement::Restart => {
                self.count(sent.endpoint, sent.moment);
                Judged::Anew
            }
        }
    }

    /// Where a packet of the endpoint's own source stands, which is noted if new starts are looked for.
    fn place(&mut self, endpoint: u16, stamp: Stamp) -> Placement
        ensures placement { result
            ≡ placement_by self.old.rules.new_starts self.old.starts endpoint stamp }
        ensures noted { self.new.starts
            ≡ trackers_by self.old.rules.new_starts self.old.starts endpoint stamp }
        ensures resends { self.new.resends ≡ self.old.resends }
        ensures stays { Stays self.old self.new }
    {
        if self.rules.new_starts {
            self.starts.note(endpoint, stamp)
        } else {
            Placement::InSequence
        }
    }

    /// What becomes of RTCP packets.
    fn judge_rtcp(&mut self, sent: Sent, rtcp: Control, reading: &mut Reading) -> Judged
        ensures judged { JudgesRtcp self.old self.new sent
            (rtcp_heard self.old.rules rtcp reading.old.clocked) reading.old reading.new
            result }
        ensures stays { Stays self.old self.new }
    {
        let heard = rtcp_heard(self.rules, rtcp, reading.clocked);
        reading.what = What::Control(heard);
        if heard.speaker == sent.own {
            self.admit_resends(sent, &mut reading.asks);
        }
        Judged::Take
    }

    /// Keeps of what the endpoint's own source asks for what is admitted, if resends are bounded.
    fn admit_resends(&mut self, sent: Sent, asks: &mut Vec<Ask>)
        ensures left { AdmitsResendsIf sent self.old.resends self.new.resends asks.old.items
            asks.new.items }
        ensures starts { self.new.starts ≡ self.old.starts }
        ensures stays { Stays self.old self.new }
    {
        if let Some(resends) = &mut self.resends {
            resends.admit_resends(sent, asks, self.traffic, self.held);
        }
    }
}

/// What is known of resends in a unit of these settings, if they are bounded.
fn resends_by(
    alloc: Global,
    settings: &Settings,
    bounds: ResendBounds,
) -> Result<Option<ResendLimiter>, AllocError>
    ensures { IfOk result (λ r. r ≡ resends_by settings.now bounds) }
{
    if bounds.gap_ms == 0 && bounds.share == 0 {
        return Ok(None);
    }
    Ok(Some(ResendLimiter::new(alloc, settings, bounds)?))
}

/// The number and timestamp of a packet and when it came, if it is of its endpoint's own source.
fn stamp_in(sent: Sent, packet: Media) -> Option<Stamp>
    ensures { result ≡ stamp_in sent packet }
{
    if packet.ssrc == sent.own {
        Some(Stamp {
            seq: packet.parts.sequence_number,
            timestamp: packet.timestamp,
            moment: sent.moment,
        })
    } else {
        None
    }
}

/// What RTCP packets say as it is heard: under this source, unless the rules are strict.
fn rtcp_heard(rules: Rules, rtcp: Control, clocked: Ssrc) -> Control
    ensures { result ≡ rtcp_heard rules rtcp clocked }
{
    Control {
        speaker: if rules.strict_ssrc {
            rtcp.speaker
        } else {
            clocked
        },
        report: rtcp.report,
        tmmbns: rtcp.tmmbns,
    }
}
