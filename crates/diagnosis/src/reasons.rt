//! Why a subscriber sees nothing, or what it is sent.

ghost use Rattle.std.specs.Prelude.{◌≡◌};
ghost use Rattle.diagnosis.specs.Reasons.{age_at, fell_silent, flow_rate, is_silent, loss_reason, lossy, no_media, off, other_place, other_source, place_reason, publisher_absent, publisher_trouble, report_reason, reported, silence_reason, skipped, source_reason, subscriber_absent, subscriber_listens, subscriber_state, unreported, why};

use crate::facts::LegFacts;
use crate::flow::each_second;
use crate::kinds::ReasonKind;
use crate::sightings::{StrayPlace, StraySource};
use stats::ReceptionReport;
use std::net::SocketAddr;
use tmmbr_tuple::Ssrc;

/// A publisher whose media come sends a packet at least once in so many milliseconds.
pub const LATELY_MS: u64 = 2_000;

/// Why a subscriber sees nothing, or what it is sent. How long ago something was is in milliseconds; `None` if it never was.
#[derive(Clone, Copy, PartialEq, Eq)]
pub enum Reason {
    /// The leg isn't selected.
    Off,
    /// Media come from the publisher's address under this SSRC, which isn't the publisher's, the last so long ago.
    OtherSource(Ssrc, u64),
    /// Media come under the publisher's SSRC from this address, which isn't the publisher's, the last so long ago.
    OtherPlace(SocketAddr, u64),
    /// The publisher is absent; it was heard so long ago.
    PublisherAbsent(Option<u64>),
    /// The publisher is present and sends no media; the last came so long ago.
    NoMedia(Option<u64>),
    /// The subscriber is absent; it was heard so long ago.
    SubscriberAbsent(Option<u64>),
    /// So many packets a second come and are skipped.
    Skipped(u64),
    /// So many packets a second are sent, and some are lost on the way from the publisher, to whom the unit reported this last.
    Lossy(u64, ReceptionReport),
    /// So many packets a second are sent, and the subscriber reported this last.
    Reported(u64, ReceptionReport),
    /// So many packets a second are sent to a subscriber that only listens, and was heard so long ago.
    OnlyListens(u64, Option<u64>),
    /// So many packets a second are sent, and the subscriber reports nothing; it did so long ago, or never.
    Unreported(u64, Option<u64>),
}

impl Reason {
    ghost use Rattle.std.specs.Prelude.{◌≡◌};
    ghost use Rattle.diagnosis.specs.Kinds.{kind_of};
    ghost use Rattle.diagnosis.specs.Reasons.{report_in, unit_report_in};

    /// Which of the reasons it is.
    pub fn kind(self) -> ReasonKind
        ensures { result ≡ kind_of self }
    {
        match self {
            Reason::Off => ReasonKind::Off,
            Reason::OtherSource(..) => ReasonKind::OtherSource,
            Reason::OtherPlace(..) => ReasonKind::OtherPlace,
            Reason::PublisherAbsent(_) => ReasonKind::PublisherAbsent,
            Reason::NoMedia(_) => ReasonKind::NoMedia,
            Reason::SubscriberAbsent(_) => ReasonKind::SubscriberAbsent,
            Reason::Skipped(_) => ReasonKind::Skipped,
            Reason::Lossy(..) => ReasonKind::Lossy,
            Reason::Reported(..) => ReasonKind::Reported,
            Reason::OnlyListens(..) => ReasonKind::OnlyListens,
            Reason::Unreported(..) => ReasonKind::Unreported,
        }
    }

    /// What the subscriber reported last, if that is the reason.
    pub fn report(self) -> Option<ReceptionReport>
        ensures { result ≡ report_in self }
    {
        match self {
            Reason::Reported(_, report) => Some(report),
            Reason::Off => None,
            Reason::OtherSource(..) => None,
            Reason::OtherPlace(..) => None,
            Reason::PublisherAbsent(_) => None,
            Reason::NoMedia(_) => None,
            Reason::SubscriberAbsent(_) => None,
            Reason::Skipped(_) => None,
            Reason::Lossy(..) => None,
            Reason::OnlyListens(..) => None,
            Reason::Unreported(..) => None,
        }
    }

    /// What the unit reported to the publisher last, if that is the reason.
    pub fn unit_report(self) -> Option<ReceptionReport>
        ensures { result ≡ unit_report_in self }
    {
        match self {
            Reason::Lossy(_, report) => Some(report),
            Reason::Off => None,
            Reason::OtherSource(..) => None,
            Reason::OtherPlace(..) => None,
            Reason::PublisherAbsent(_) => None,
            Reason::NoMedia(_) => None,
            Reason::SubscriberAbsent(_) => None,
            Reason::Skipped(_) => None,
            Reason::Reported(..) => None,
            Reason::OnlyListens(..) => None,
            Reason::Unreported(..) => None,
        }
    }
}

/// The first reason that applies: what keeps the publisher's media away, what the subscriber does with them, or else that it doesn't say.
pub fn why(facts: &LegFacts) -> Reason
    ensures { result ≡ why facts.now }
{
    match publisher_trouble(facts).or(subscriber_state(facts)) {
        Some(reason) => reason,
        None => unreported(facts),
    }
}

/// What keeps media from coming.
fn publisher_trouble(facts: &LegFacts) -> Option<Reason>
    ensures { result ≡ publisher_trouble facts.now }
{
    off(facts)
        .or(other_source(facts))
        .or(other_place(facts))
        .or(publisher_absent(facts))
        .or(no_media(facts))
}

/// What becomes of media that come.
fn subscriber_state(facts: &LegFacts) -> Option<Reason>
    ensures { result ≡ subscriber_state facts.now }
{
    subscriber_absent(facts)
        .or(skipped(facts))
        .or(fell_silent(facts))
        .or(lossy(facts))
        .or(reported(facts))
        .or(subscriber_listens(facts))
}

/// The leg isn't selected.
fn off(facts: &LegFacts) -> Option<Reason>
    ensures { result ≡ off facts.now }
{
    if facts.is_on { None } else { Some(Reason::Off) }
}

/// Media come from the publisher's address under another SSRC, in place of its own.
fn other_source(facts: &LegFacts) -> Option<Reason>
    ensures { result ≡ other_source facts.now }
{
    let stray = facts.publisher.sighting.source?;
    source_reason(stray, facts.publisher.sighting.media_ms, facts.moment)
}

fn source_reason(stray: StraySource, media_ms: Option<u64>, moment: u64) -> Option<Reason>
    ensures { result ≡ source_reason media_ms moment stray }
{
    if is_silent(media_ms, stray.moment) {
        Some(Reason::OtherSource(stray.source, moment.saturating_sub(stray.moment)))
    } else {
        None
    }
}

/// Media come from elsewhere under the publisher's SSRC, in place of its own.
fn other_place(facts: &LegFacts) -> Option<Reason>
    ensures { result ≡ other_place facts.now }
{
    let stray = facts.publisher.sighting.place?;
    place_reason(stray, facts.publisher.sighting.media_ms, facts.moment)
}

fn place_reason(stray: StrayPlace, media_ms: Option<u64>, moment: u64) -> Option<Reason>
    ensures { result ≡ place_reason media_ms moment stray }
{
    if is_silent(media_ms, stray.moment) {
        Some(Reason::OtherPlace(stray.address, moment.saturating_sub(stray.moment)))
    } else {
        None
    }
}

/// The publisher is absent.
fn publisher_absent(facts: &LegFacts) -> Option<Reason>
    ensures { result ≡ publisher_absent facts.now }
{
    if facts.publisher.is_present {
        None
    } else {
        let heard_ago_ms = age_at(facts.publisher.heard_ms, facts.moment);
        Some(Reason::PublisherAbsent(heard_ago_ms))
    }
}

/// The publisher is present, and its media don't come.
fn no_media(facts: &LegFacts) -> Option<Reason>
    ensures { result ≡ no_media facts.now }
{
    let media_ms = facts.publisher.sighting.media_ms;
    if is_silent(media_ms, facts.moment) {
        Some(Reason::NoMedia(age_at(media_ms, facts.moment)))
    } else {
        None
    }
}

/// The subscriber is absent.
fn subscriber_absent(facts: &LegFacts) -> Option<Reason>
    ensures { result ≡ subscriber_absent facts.now }
{
    if facts.subscriber.is_present {
        None
    } else {
        let heard_ago_ms = age_at(facts.subscriber.heard_ms, facts.moment);
        Some(Reason::SubscriberAbsent(heard_ago_ms))
    }
}

/// Media come, and none is sent on.
fn skipped(facts: &LegFacts) -> Option<Reason>
    ensures { result ≡ skipped facts.now }
{
    let flow = facts.flow;
    if flow.packets == 0 && flow.skipped > 0 {
        Some(Reason::Skipped(each_second(flow.skipped, flow.ms)))
    } else {
        None
    }
}

/// The subscriber reported, and does no more.
fn fell_silent(facts: &LegFacts) -> Option<Reason>
    ensures { result ≡ fell_silent facts.now }
{
    let report = facts.report?;
    silence_reason(report, flow_rate(facts), facts.moment)
}

fn silence_reason(report: ReceptionReport, rate: u64, moment: u64) -> Option<Reason>
    ensures { result ≡ silence_reason rate moment report }
{
    if !report.is_shown(moment) {
        Some(Reason::Unreported(rate, Some(report.age_ms(moment))))
    } else {
        None
    }
}

/// Packets are lost on the way from the publisher, by what the unit reported of late.
fn lossy(facts: &LegFacts) -> Option<Reason>
    ensures { result ≡ lossy facts.now }
{
    let report = facts.unit_report?;
    loss_reason(report, flow_rate(facts), facts.moment)
}

fn loss_reason(report: ReceptionReport, rate: u64, moment: u64) -> Option<Reason>
    ensures { result ≡ loss_reason rate moment report }
{
    if report.is_shown(moment) && report.fraction > 0 {
        Some(Reason::Lossy(rate, report))
    } else {
        None
    }
}

/// The subscriber reports, and did so of late.
fn reported(facts: &LegFacts) -> Option<Reason>
    ensures { result ≡ reported facts.now }
{
    let report = facts.report?;
    report_reason(report, flow_rate(facts), facts.moment)
}

fn report_reason(report: ReceptionReport, rate: u64, moment: u64) -> Option<Reason>
    ensures { result ≡ report_reason rate moment report }
{
    if report.is_shown(moment) {
        Some(Reason::Reported(rate, report))
    } else {
        None
    }
}

/// The subscriber only listens.
fn subscriber_listens(facts: &LegFacts) -> Option<Reason>
    ensures { result ≡ subscriber_listens facts.now }
{
    if facts.subscriber.only_listens {
        let heard_ago_ms = age_at(facts.subscriber.heard_ms, facts.moment);
        Some(Reason::OnlyListens(flow_rate(facts), heard_ago_ms))
    } else {
        None
    }
}

/// The subscriber never reported.
fn unreported(facts: &LegFacts) -> Reason
    ensures { result ≡ unreported facts.now }
{
    Reason::Unreported(flow_rate(facts), None)
}

/// How many packets a second went out on the leg of late.
fn flow_rate(facts: &LegFacts) -> u64
    ensures { result ≡ flow_rate facts.now }
{
    each_second(facts.flow.packets, facts.flow.ms)
}

/// Whether no media came for `LATELY_MS` by this moment, if the last did at `media_ms`.
fn is_silent(media_ms: Option<u64>, moment: u64) -> bool
    ensures { result ≡ is_silent media_ms moment }
{
    match media_ms {
        Some(media_ms) => moment.saturating_sub(media_ms) >= LATELY_MS,
        None => true,
    }
}

/// How long before this moment something was.
fn age_at(then_ms: Option<u64>, moment: u64) -> Option<u64>
    ensures { result ≡ age_at then_ms moment }
{
    match then_ms {
        Some(then_ms) => Some(moment.saturating_sub(then_ms)),
        None => None,
    }
}
