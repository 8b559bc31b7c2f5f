//! What follows from a desk's call: requests and PLIs to the publisher, notices to its subscribers.

ghost use Rattle.std.specs.Prelude.{◌≡◌, ◌≢◌, ◌≤◌, ◌↔◌, ◌++◌, [], ◌∷◌, List, false, length, flat_map, AllPairs, IfOk, OnOk, OnErr};
ghost use Rattle.std.specs.Option.{option_map_or};
ghost use Rattle.rate_cert.specs.declared.certificate.TheConstants.{MAX_REQUESTS as REQUESTS};
ghost use Rattle.rate_cert.specs.declared.request.Request.{Request};
ghost use Rattle.desk.specs.declared.effect.Effect.{Effect};
ghost use Rattle.desk.specs.Effect.{IsEffect};
ghost use Rattle.desk_calls.specs.Head.{report_head};
ghost use Rattle.events.specs.declared.output.Out.TheVariants.{Send};
ghost use Rattle.desk_calls.specs.Notification.{is_changed, HasSameMembers, is_other, has_stay, others_of, tmmbr_bytes, lifted_bytes, fresh_bytes, requests_bytes, notice_to, requests_upstream, picture_upstream, notification_datagrams};

use crate::head::Head;
use announcement::entries_of;
use desk::Effect;
use events::{Bytes, Out};
use members::Row;
use rate_cert::Request;
use rtcp_feedback::{ENTRY_BYTES, FRONT_BYTES, TmmbrEntry, write_pli, write_tmmbn, write_tmmbr};
use settings::Links;
use std::alloc::{AllocError, Global};
use tmmbr_tuple::Ssrc;

/// The word of the greatest rate that can be spelled, without overhead: it lifts a bound (RFC 5104, section 4.2.1.1).
const NO_LIMIT: u32 = 0xffff_fe00;

/// A desk's call that something follows from; its effect goes beside it.
#[derive(Clone, Copy, PartialEq, Eq)]
pub struct Notification {
    /// The number of the publisher whose desk was called.
    pub publisher: u16,
    /// The leg whose subscriber asked, if the call was a request and the desk accepted it.
    pub asked_by: Option<u16>,
    /// Whether the desk answered that a PLI is due upstream.
    pub pli: bool,
}

impl Notification {
    ghost use Rattle.std.specs.Prelude.{◌≡◌, ◌≢◌, [], List, true, false};
    ghost use Rattle.members.specs.declared.order.Row.{Row};
    ghost use Rattle.desk_calls.specs.Head.{Identity};
    ghost use Rattle.settings.specs.Links.{LinkTable};
    ghost use Rattle.desk_calls.specs.Notification.{tells, IsAmong, notification_datagrams};

    /// Whether there is anything to tell of the call with this effect.
    #[tactic(auto, using(crate::proofs::NotificationLemmas::something_told, crate::proofs::NotificationLemmas::nothing_told))]
    pub fn tells(&self, effect: &Effect) -> bool
        ensures value { result ≡ tells self.now effect.now }
        ensures something { (table : LinkTable) (unit : Identity) (rows : List Row)
            → IsAmong table self.now → result ≡ true
            → notification_datagrams table unit rows self.now effect.now ≢ [] }
        ensures nothing { (table : LinkTable) (unit : Identity) (rows : List Row) → result ≡ false
            → notification_datagrams table unit rows self.now effect.now ≡ [] }
    {
        self.asked_by.is_some() || is_changed(effect) || self.pli
    }
}

/// Appends the datagrams that follow from a desk's call with this effect, given the published rows: what the publisher
/// is asked for, the notice to who asked, the notices to the other legs in which a stay stands, by rising leg, and a
/// PLI to the publisher (RFC 5104, sections 4.2.1 and 4.2.2). Refused for want of memory alone; then nothing is
/// appended.
pub fn notify(
    alloc: Global,
    links: &Links,
    head: &Head,
    rows: &[Row],
    notification: &Notification,
    effect: &Effect,
    outs: &mut Vec<Out>,
) -> Result<(), AllocError>
    ensures ok { OnOk result (outs.new.items ≡ outs.old.items
        ++ notification_datagrams links.now head.now rows.now notification.now effect.now) }
    ensures unchanged { OnErr result (outs.new.items ≡ outs.old.items) }
{
    let entries = entries_of(alloc, effect.set.as_slice())?;
    let entries = entries.as_slice();
    let mut told = Vec::new(alloc);
    request_upstream(alloc, links, head, notification, effect, &mut told)?;
    notify_owner(alloc, links, head, notification, entries, &mut told)?;
    if is_changed(effect) {
        notify_others(alloc, links, head, rows, notification, entries, &mut told)?;
    }
    picture_upstream(alloc, links, head, notification, &mut told)?;
    outs.append(&mut told)
}

/// A law, and nothing to do: if nobody is lifted and nothing is fresh, and only then, the announced set has the
/// members that it had.
pub fn tells_each_change()
    ensures { (former : List Request) (e : Effect) → AllPairs (λ x y. x.owner.0 ≢ y.owner.0) former
        → IsEffect former e.set.items e
        → (is_changed e ≡ false ↔ HasSameMembers former e.set.items) }
{}

/// Whether the call changed the announced set.
fn is_changed(effect: &Effect) -> bool
    ensures { result ≡ is_changed effect.now }
{
    !effect.lifted.is_empty() || !effect.fresh.is_empty()
}

/// If the set changed, the publisher is asked for what is new in it.
fn request_upstream(
    alloc: Global,
    links: &Links,
    head: &Head,
    notification: &Notification,
    effect: &Effect,
    outs: &mut Vec<Out>,
) -> Result<(), AllocError>
    ensures { OnOk result (outs.new.items ≡ outs.old.items
        ++ requests_upstream links.now head.now notification.now effect.now) }
{
    if !is_changed(effect) {
        return Ok(());
    }
    match links.ssrc_of(notification.publisher) {
        Some(source) => {
            let bytes = requests(alloc, head, source, effect)?;
            send(notification.publisher, bytes, outs)
        }
        None => Ok(()),
    }
}

/// Who asked is notified of the set with these entries.
fn notify_owner(
    alloc: Global,
    links: &Links,
    head: &Head,
    notification: &Notification,
    entries: &[TmmbrEntry],
    outs: &mut Vec<Out>,
) -> Result<(), AllocError>
    requires { length entries.now ≤ REQUESTS }
    ensures { OnOk result (outs.new.items ≡ outs.old.items
        ++ option_map_or (notice_to links.now head.now entries.now) notification.now.asked_by []) }
{
    match notification.asked_by {
        Some(leg) => notify_leg(alloc, links, head, entries, leg, outs),
        None => Ok(()),
    }
}

/// The other legs of the publisher in which a stay stands are notified of the set with these entries.
fn notify_others(
    alloc: Global,
    links: &Links,
    head: &Head,
    rows: &[Row],
    notification: &Notification,
    entries: &[TmmbrEntry],
    outs: &mut Vec<Out>,
) -> Result<(), AllocError>
    requires { length entries.now ≤ REQUESTS }
    ensures { OnOk result (outs.new.items ≡ outs.old.items
        ++ flat_map (notice_to links.now head.now entries.now)
        (others_of links.now rows.now notification.now)) }
{
    for leg in links.of_publisher(notification.publisher) {
        if is_other(rows, notification.asked_by, *leg) {
            notify_leg(alloc, links, head, entries, *leg, outs)?;
        }
    }
    Ok(())
}

/// If a PLI is due, the publisher is sent one.
fn picture_upstream(
    alloc: Global,
    links: &Links,
    head: &Head,
    notification: &Notification,
    outs: &mut Vec<Out>,
) -> Result<(), AllocError>
    ensures { OnOk result (outs.new.items ≡ outs.old.items
        ++ picture_upstream links.now head.now notification.now) }
{
    if !notification.pli {
        return Ok(());
    }
    match links.ssrc_of(notification.publisher) {
        Some(source) => {
            let mut bytes = head.begin(alloc, FRONT_BYTES)?;
            write_pli(&mut bytes, head.unit_ssrc(), source)?;
            send(notification.publisher, bytes, outs)
        }
        None => Ok(()),
    }
}

/// The subscriber of the leg is notified of the set with these entries.
fn notify_leg(
    alloc: Global,
    links: &Links,
    head: &Head,
    entries: &[TmmbrEntry],
    leg: u16,
    outs: &mut Vec<Out>,
) -> Result<(), AllocError>
    requires { length entries.now ≤ REQUESTS }
    ensures { OnOk result (outs.new.items ≡ outs.old.items
        ++ notice_to links.now head.now entries.now leg) }
{
    let Some(leg) = links.leg(leg) else {
        return Ok(());
    };
    let mut bytes = head.begin(alloc, FRONT_BYTES + ENTRY_BYTES * entries.len())?;
    write_tmmbn(&mut bytes, leg.out_ssrc, entries)?;
    send(leg.subscriber, bytes, outs)
}

/// A datagram with the requests of this effect to the publisher with this source.
fn requests(
    alloc: Global,
    head: &Head,
    publisher: Ssrc,
    effect: &Effect,
) -> Result<Vec<u8>, AllocError>
    ensures { IfOk result (λ bytes. bytes.items
        ≡ report_head head.now ++ requests_bytes publisher effect.now) }
{
    let count = effect.lifted.len() + effect.fresh.len();
    let mut bytes = head.begin(alloc, (FRONT_BYTES + ENTRY_BYTES) * count)?;
    write_lifted(&mut bytes, publisher, effect.lifted.as_slice())?;
    write_fresh(&mut bytes, publisher, effect.fresh.as_slice())?;
    Ok(bytes)
}

/// Appends a TMMBR of each of these owners that lifts its bound.
fn write_lifted(bytes: &mut Vec<u8>, publisher: Ssrc, owners: &[Ssrc]) -> Result<(), AllocError>
    ensures { OnOk result (bytes.new.items ≡ bytes.old.items ++ lifted_bytes publisher owners.now) }
{
    for owner in owners {
        write_request(bytes, publisher, NO_LIMIT, *owner)?;
    }
    Ok(())
}

/// Appends a TMMBR for each of these requests.
fn write_fresh(bytes: &mut Vec<u8>, publisher: Ssrc, requests: &[Request]) -> Result<(), AllocError>
    ensures { OnOk result (bytes.new.items
        ≡ bytes.old.items ++ fresh_bytes publisher requests.now) }
{
    for request in requests {
        write_request(bytes, publisher, request.tuple.to_word(), request.owner)?;
    }
    Ok(())
}

/// Appends a TMMBR of this owner that asks the publisher with this source for this word.
fn write_request(
    bytes: &mut Vec<u8>,
    publisher: Ssrc,
    word: u32,
    owner: Ssrc,
) -> Result<(), AllocError>
    ensures { OnOk result (bytes.new.items ≡ bytes.old.items ++ tmmbr_bytes publisher word owner) }
{
    let entry = TmmbrEntry {
        ssrc: publisher,
        word,
    };
    write_tmmbr(bytes, owner, &[entry])
}

/// This datagram goes to the endpoint.
fn send(endpoint: u16, bytes: Vec<u8>, outs: &mut Vec<Out>) -> Result<(), AllocError>
    ensures { OnOk result (outs.new.items ≡ outs.old.items ++ Send endpoint bytes.items ∷ []) }
{
    let bytes = Bytes::new(bytes);
    outs.push(Out::Send { endpoint, bytes })?;
    Ok(())
}

/// Whether a stay stands in the leg, and it isn't the one that asked.
fn is_other(rows: &[Row], asked_by: Option<u16>, leg: u16) -> bool
    ensures { result ≡ is_other rows.now asked_by leg }
{
    has_stay(rows, leg) && asked_by != Some(leg)
}

/// Whether a stay stands in the leg, by these rows.
fn has_stay(rows: &[Row], leg: u16) -> bool
    ensures { result ≡ has_stay rows.now leg }
{
    match rows.get(usize::from(leg)) {
        Some(row) => row.stay > 0,
        None => false,
    }
}
