//! The rules of a unit: what becomes of what was read of its endpoints' packets.

ghost use Rattle.std.specs.Prelude.{◌≡◌, None};
ghost use Rattle.udp.specs.Policies.{most_by};

use crate::kept::Kept;
use members::RoomView;
use operations::RunStatus;
use policy::{
    Again, AnnouncedSets, FloodLimiter, HeldPackets, IngressFilter, Judged, RateRequests, Rules,
};
use settings::Settings;
use stats::Traffic;
use std::alloc::{AllocError, Global};
use std::cell::RefCell;

/// By which rules what comes is counted, judged and held, and what is known for that.
#[derive(Drop)]
pub(crate) struct Policies<'a> {
    floods: FloodLimiter,
    ingress_filter: IngressFilter<'a>,
    held_packets: HeldPackets,
    requests: RateRequests<'a>,
    /// How many entries of a datagram count, if that is bounded.
    pub(crate) most: Option<usize>,
}

impl<'a> Policies<'a> {
    ghost use Rattle.std.specs.Prelude.{◌≡◌, false, None, [], IfNone, IfOk, IfSome, length, replicate, slice_get, unwrap_or};
    ghost use Rattle.policy.specs.RateRequests.{BeginsBy, HearsNext, Ticks, is_due};
    ghost use Rattle.policy.specs.FloodLimiter.{buckets_with, empty_bucket, is_within};
    ghost use Rattle.settings.specs.Links.{LinkTable};
    ghost use Rattle.udp.specs.Kept.{IsOfSame, MayBeTaken, is_there};
    ghost use Rattle.udp.specs.Policies.{IsHeld, IsJudged, IsWelcomed, TakesFar, far_of, most_by, ruling_of};

    /// Nothing came yet in a unit of these settings, by these rules.
    pub(crate) fn new(
        alloc: Global,
        settings: &Settings,
        rules: Rules,
        run_status: &'a RunStatus,
        traffic: &'a Traffic,
        sets: &'a RefCell<AnnouncedSets>,
    ) -> Result<Policies<'a>, AllocError>
        ensures floods { IfOk result (λ p. p.floods ≡ (
          rules.flood_limit,
          replicate (length settings.now.endpoints) empty_bucket,
        )) }
        ensures rules { IfOk result (λ p. p.ingress_filter.rules ≡ rules) }
        ensures holds { IfOk result (λ p. BeginsBy rules settings.now p.requests) }
        ensures most { IfOk result (λ p. p.most ≡ most_by rules.entry_limit) }
    {
        let endpoints = settings.endpoints().len();
        Ok(Policies {
            floods: FloodLimiter::new(alloc, endpoints, rules.flood_limit)?,
            ingress_filter: IngressFilter::new(
                alloc,
                settings,
                rules,
                traffic,
                &run_status.far,
                &run_status.held,
            )?,
            held_packets: HeldPackets::new(alloc, endpoints)?,
            requests: RateRequests::new(alloc, settings, rules, sets)?,
            most: most_by(rules.entry_limit),
        })
    }

    /// Whether a datagram of this endpoint that came at this moment is heard. If it is, it is counted.
    pub(crate) fn admit(&mut self, endpoint: u16, moment: u64) -> bool
        ensures heard { result
            ≡ is_within self.old.floods.0 (slice_get self.old.floods.1 endpoint) moment }
        ensures counted { self.new.floods
            ≡ (self.old.floods.0, buckets_with self.old.floods.0 self.old.floods.1 endpoint moment) }
        ensures ruling { ruling_of self.new ≡ ruling_of self.old }
    {
        self.floods.admit(endpoint, moment)
    }

    /// Who sent what was read comes anew, if it isn't there by the room as it is. A packet of it that was held before is never taken in then, since
    /// none is awaited after it.
    pub(crate) fn welcome(&mut self, kept: &Kept, view: RoomView<'_>)
        ensures welcomes { IsWelcomed (ruling_of self.old) (ruling_of self.new) kept.now view.entry }
        ensures floods { self.new.floods ≡ self.old.floods }
    {
        self.ingress_filter.welcome(kept.sent, view);
    }

    /// Judges what was read. A packet that is far is held.
    pub(crate) fn judge(&mut self, kept: &mut Kept) -> Judged
        ensures judged { IsJudged (ruling_of self.old) (ruling_of self.new) kept.old kept.new result }
        ensures floods { self.new.floods ≡ self.old.floods }
        ensures taken { (table : LinkTable) → MayBeTaken table kept.old → MayBeTaken table kept.new }
    {
        let judged = kept.judge(&mut self.ingress_filter);
        if judged == Judged::HoldPacket {
            self.held_packets.keep(kept.sent.endpoint, kept.bytes());
        }
        judged
    }

    /// The far packet of the endpoint is taken in after all: it is counted of the endpoint, and copied behind what came. Where it ends; `None` if
    /// there is none.
    pub(crate) fn take_far(&mut self, kept: &mut Kept, endpoint: u16, moment: u64) -> Option<usize>
        ensures far { IfSome result (λ to. TakesFar (ruling_of self.old) (ruling_of self.new)
            kept.old kept.new endpoint moment to) }
        ensures none { IfNone result (is_there (far_of self.old.held_packets endpoint) ≡ false) }
        ensures floods { self.new.floods ≡ self.old.floods }
    {
        let to = kept.copy_behind(self.held_packets.at(endpoint))?;
        self.ingress_filter.count(endpoint, moment);
        Some(to)
    }

    /// Notes who sent what was read, holds what it asks for, and leaves out what can't be asked for yet, or isn't heard at once.
    pub(crate) fn hold(&mut self, kept: &mut Kept, view: RoomView<'_>)
        ensures holds { IsHeld self.old.requests self.new.requests kept.old.sent view.entry
            kept.old.reading kept.new.reading }
        ensures taken { (table : LinkTable) → MayBeTaken table kept.old → MayBeTaken table kept.new }
        ensures same { IsOfSame kept.old kept.new }
        ensures stays { (self.new.floods ≡ self.old.floods) × (self.new.ingress_filter ≡ self.old.ingress_filter)
            × (self.new.held_packets ≡ self.old.held_packets) × (self.new.most ≡ self.old.most) }
    {
        kept.hold(&mut self.requests, view);
    }

    /// Whether anything may be heard that was asked for before.
    pub(crate) fn is_waiting(&self) -> bool
        ensures { result ≡ is_due self.now.requests }
    {
        self.requests.is_waiting()
    }

    /// What is heard at this moment that was asked for before, in a room that is so.
    pub(crate) fn next_heard(&mut self, view: RoomView<'_>, moment: u64) -> Option<Again>
        ensures hears { HearsNext self.old.requests self.new.requests view.entry moment result }
        ensures stays { (self.new.floods ≡ self.old.floods) × (self.new.ingress_filter ≡ self.old.ingress_filter)
            × (self.new.held_packets ≡ self.old.held_packets) × (self.new.most ≡ self.old.most) }
    {
        self.requests.next_heard(view, moment)
    }

    /// A tick was made.
    pub(crate) fn ticked(&mut self)
        ensures ticks { Ticks self.old.requests self.new.requests }
        ensures stays { (self.new.floods ≡ self.old.floods) × (self.new.ingress_filter ≡ self.old.ingress_filter)
            × (self.new.held_packets ≡ self.old.held_packets) × (self.new.most ≡ self.old.most) }
    {
        self.requests.ticked();
    }
}

/// How many entries of a datagram count, by this limit.
fn most_by(limit: u32) -> Option<usize>
    ensures { result ≡ most_by limit }
{
    if limit == 0 {
        None
    } else {
        Some(limit as usize)
    }
}
