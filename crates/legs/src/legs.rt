//! The legs that one worker owns. A job is planned first, which may fail and changes no leg, and then applied, which
//! can't fail.

ghost use Rattle.std.specs.Prelude.{◌≡◌, ◌≤◌, ◌++◌, length, IfOk, OnOk, OnErr};
ghost use Rattle.std.specs.Prelude.{List};
ghost use Rattle.std.specs.List.{enumerate_from, flat_map};
ghost use Rattle.legs.specs.Legs.{new_legs, row_of};
ghost use Rattle.legs.specs.Planning.{publisher_places, plan_of, ListsPlaces, FindsPlaces};
ghost use Rattle.shared_packet.specs.Rtp.{IsReadAs};

use crate::leg::LegState;
use crate::plan::Plan;
use crate::planning::{plan_goodbye, plan_packet, plan_report, plan_resends};
use events::{Job, Out};
use members::Row;
use resend_ring::MAX_CAPACITY;
use rtcp_feedback::{Nack, lost};
use settings::{Links, MAX_LEGS};
use shared_packet::{PacketParts, SharedPacket};
use std::alloc::{AllocError, Global};
use std::collections::HashMap;
use std::marker::Model;

/// The legs that one worker owns, by rising number: those to the subscribers whose number, modulo the number of
/// workers, is the worker's. A leg's numbers, its kept packets and its counts outlive its stays.
#[derive(Drop)]
pub struct Legs {
    legs: Vec<LegState>,
    /// Of each endpoint, the places of the legs that it publishes.
    published: Vec<Vec<u16>>,
    /// The place of the leg with each number.
    places: HashMap<u16, u16>,
}

impl Model for Legs {
    ghost use Rattle.std.specs.Prelude.{List};
    ghost use Rattle.legs.specs.declared.leg.LegState.{LegState};
    ghost use Rattle.legs.specs.Planning.{AreFound};

    ghost Value = { List LegState };

    ghost view = { λ l. l.legs.items };

    ghost invariant = { λ l. AreFound l.published.items l.places l.legs.items };
}

/// The legs of a worker before their first packets.
fn owned(
    alloc: Global,
    links: &Links,
    ring: usize,
    worker: u16,
) -> Result<Vec<LegState>, AllocError>
    requires least { 1 ≤ ring }
    requires most { ring ≤ MAX_CAPACITY }
    ensures { IfOk result (λ legs. legs.items ≡ new_legs links.now ring worker) }
{
    let mut legs = Vec::new(alloc);
    for (number, link) in links.legs().iter().enumerate() {
        if links.worker_of(link) == worker {
            let cname = links.cname_of(link.publisher);
            legs.push(LegState::new(alloc, ring, number as u16, link, cname)?)?;
        }
    }
    Ok(legs)
}

/// The places of the legs of a publisher.
fn places_by(alloc: Global, legs: &[LegState], publisher: usize) -> Result<Vec<u16>, AllocError>
    requires { length legs.now ≤ MAX_LEGS }
    ensures { IfOk result (λ v. v.items ≡ publisher_places publisher (enumerate_from 0 legs.now)) }
{
    let mut places = Vec::new(alloc);
    for (place, leg) in legs.iter().enumerate() {
        if usize::from(leg.link.publisher) == publisher {
            places.push(place as u16)?;
        }
    }
    Ok(places)
}

/// The places of the legs that each of so many endpoints publishes.
fn published(
    alloc: Global,
    legs: &[LegState],
    endpoints: usize,
) -> Result<Vec<Vec<u16>>, AllocError>
    requires { length legs.now ≤ MAX_LEGS }
    ensures { IfOk result (λ v. ListsPlaces v.items endpoints legs.now) }
{
    let mut lists = Vec::new(alloc);
    for publisher in 0..endpoints {
        lists.push(places_by(alloc, legs, publisher)?)?;
    }
    Ok(lists)
}

/// The place of the leg with each number.
fn places(alloc: Global, legs: &[LegState]) -> Result<HashMap<u16, u16>, AllocError>
    requires { length legs.now ≤ MAX_LEGS }
    ensures { IfOk result (λ m. FindsPlaces m legs.now) }
{
    let mut places = HashMap::new(alloc);
    let mut place = legs.len();
    while place > 0 {
        place -= 1;
        let leg = &legs[place];
        places.insert(leg.number, place as u16)?;
    }
    Ok(places)
}

/// The row of a leg; nothing stands on a leg without a row.
fn row_of(rows: &[Row], leg: &LegState) -> Row
    ensures { result ≡ row_of rows.now leg.now }
{
    match rows.get(usize::from(leg.number)) {
        Some(row) => *row,
        None => Row {
            stay: 0,
            turn: 0,
            on: false,
        },
    }
}

/// Plans what the leg at a place does with a packet of its publisher, which was read so.
fn plan_place(
    legs: &[LegState],
    alloc: Global,
    place: u16,
    rows: &[Row],
    packet: &SharedPacket,
    reading: PacketParts,
    plan: &mut Plan,
) -> Result<(), AllocError>
    requires read { IsReadAs packet.now reading }
    ensures { OnOk result (plan.new
        ≡ plan.old ++ plan_of rows.now packet.now legs.now place) }
{
    let Some(leg) = legs.get(usize::from(place)) else {
        return Ok(());
    };
    let row = row_of(rows, leg);
    if !row.on {
        return Ok(());
    }
    let planned = plan_packet(leg, alloc, place, row.turn, packet, reading, plan)?;
    plan.push(planned)
}

/// Plans what the legs at these places do with a packet of their publisher, which was read so.
fn plan_places(
    legs: &[LegState],
    alloc: Global,
    places: &[u16],
    rows: &[Row],
    packet: &SharedPacket,
    reading: PacketParts,
    plan: &mut Plan,
) -> Result<(), AllocError>
    requires read { IsReadAs packet.now reading }
    ensures { OnOk result (plan.new
        ≡ plan.old ++ flat_map (plan_of rows.now packet.now legs.now) places.now) }
{
    for place in places {
        plan_place(legs, alloc, *place, rows, packet, reading, plan)?;
    }
    Ok(())
}

impl Legs {
    ghost use Rattle.std.specs.Prelude.{◌+◌, MatchOption, vec_len, vec_capacity};
    ghost use Rattle.legs.specs.Legs.{job_datagrams, legs_after};
    ghost use Rattle.legs.specs.Plan.{plan_outs, legs_after_plan};
    ghost use Rattle.legs.specs.Planning.{job_plan, HasNoNumber, IsNowhere, IsNumbered, IsStandingAt};
    ghost use Rattle.events.specs.declared.job.Job.TheVariants as job;
    ghost use Rattle.members.specs.declared.order.Row.{Row};

    /// The legs that this worker owns, none of which has sent a packet yet. Each keeps so many packets.
    pub fn new(alloc: Global, links: &Links, ring: usize, worker: u16) -> Result<Legs, AllocError>
        requires least { 1 ≤ ring }
        requires most { ring ≤ MAX_CAPACITY }
        ensures { IfOk result (λ legs. legs ≡ new_legs links.now ring worker) }
    {
        let legs = owned(alloc, links, ring, worker)?;
        let endpoints = links.endpoints().len();
        let owned = legs.as_slice();
        let published = published(alloc, owned, endpoints)?;
        let places = places(alloc, owned)?;
        Ok(Legs {
            legs,
            published,
            places,
        })
    }

    /// The legs, by rising number.
    pub fn as_slice(&self) -> &[LegState]
        ensures { result.now ≡ self.now }
    {
        self.legs.as_slice()
    }

    /// Does a job, and appends what it gives out. A job for the desk does nothing, nor does one that names a leg, a
    /// publisher or a stay that isn't there. Refused for want of memory alone; then nothing was done. What was planned before
    /// doesn't matter: the plan lends its memory.
    pub fn do_job(
        &mut self,
        alloc: Global,
        rows: &[Row],
        job: &Job,
        plan: &mut Plan,
        outs: &mut Vec<Out>,
    ) -> Result<(), AllocError>
        ensures outs { OnOk result (outs.new.items
            ≡ outs.old.items ++ job_datagrams rows.now self.old job.now) }
        ensures legs { OnOk result (self.new ≡ legs_after rows.now self.old job.now) }
        ensures err { OnErr result ((self.new ≡ self.old) × (outs.new.items ≡ outs.old.items)) }
    {
        self.plan(alloc, rows, job, plan)?;
        outs.reserve(plan.len())?;
        self.apply(plan, outs);
        Ok(())
    }

    /// Plans a job, in place of what was planned: all copies are made, and no leg changes. Refused for want of memory alone.
    fn plan(
        &self,
        alloc: Global,
        rows: &[Row],
        job: &Job,
        plan: &mut Plan,
    ) -> Result<(), AllocError>
        ensures outs { OnOk result (plan_outs plan.new ≡ job_datagrams rows.now self.now job.now) }
        ensures after { OnOk result (legs_after_plan self.now plan.new
            ≡ legs_after rows.now self.now job.now) }
    {
        plan.clear();
        self.plan_job(alloc, rows, job, plan)
    }

    /// Does what is planned on these legs: packets that go out are kept and count.
    fn apply(&mut self, plan: &mut Plan, outs: &mut Vec<Out>)
        requires room { vec_len outs.old + length plan.old ≤ vec_capacity outs.old }
        ensures legs { self.new ≡ legs_after_plan self.old plan.old }
        ensures outs { outs.new.items ≡ outs.old.items ++ plan_outs plan.old }
    {
        plan.apply_to(self.legs.as_mut_slice(), outs);
    }

    /// Appends what a job does.
    fn plan_job(
        &self,
        alloc: Global,
        rows: &[Row],
        job: &Job,
        plan: &mut Plan,
    ) -> Result<(), AllocError>
        ensures { OnOk result (plan.new
            ≡ plan.old ++ job_plan rows.now self.now job.now) }
    {
        match job {
            Job::Packet { publisher, bytes } => {
                self.plan_packets(alloc, rows, *publisher, bytes, plan)
            }
            Job::Resend { leg, stay, nack } => {
                self.plan_wanted(alloc, rows, *leg, *stay, *nack, plan)
            }
            Job::Report { leg, stay, sr } => {
                self.plan_reported(alloc, rows, *leg, *stay, *sr, plan)
            }
            Job::Goodbye { leg } => self.plan_left(alloc, *leg, plan),
            Job::Request { .. } => Ok(()),
            Job::Pli { .. } => Ok(()),
        }
    }

    /// Appends what a datagram of a publisher does.
    fn plan_packets(
        &self,
        alloc: Global,
        rows: &[Row],
        publisher: u16,
        packet: &SharedPacket,
        plan: &mut Plan,
    ) -> Result<(), AllocError>
        ensures { OnOk result (plan.new ≡ plan.old
            ++ job_plan rows.now self.now (job.Packet publisher packet.now)) }
    {
        let Some(places) = self.published.get(usize::from(publisher)) else {
            return Ok(());
        };
        let Some(reading) = packet.reading() else {
            return Ok(());
        };
        let (legs, places) = (self.legs.as_slice(), places.as_slice());
        plan_places(legs, alloc, places, rows, packet, reading, plan)
    }

    /// Appends what an entry of a NACK does.
    fn plan_wanted(
        &self,
        alloc: Global,
        rows: &[Row],
        leg: u16,
        stay: u64,
        nack: Nack,
        plan: &mut Plan,
    ) -> Result<(), AllocError>
        ensures { OnOk result (plan.new ≡ plan.old
            ++ job_plan rows.now self.now (job.Resend leg stay nack)) }
    {
        let Some((place, leg)) = self.standing(rows, leg, stay) else {
            return Ok(());
        };
        let numbers = lost(nack);
        plan_resends(leg, alloc, place, numbers.as_slice(), plan)
    }

    /// Appends a report.
    fn plan_reported(
        &self,
        alloc: Global,
        rows: &[Row],
        leg: u16,
        stay: u64,
        sr: Option<(u64, u32)>,
        plan: &mut Plan,
    ) -> Result<(), AllocError>
        ensures { OnOk result (plan.new
            ≡ plan.old ++ job_plan rows.now self.now (job.Report leg stay sr)) }
    {
        let Some((_, leg)) = self.standing(rows, leg, stay) else {
            return Ok(());
        };
        let planned = plan_report(leg, alloc, sr)?;
        plan.push(planned)
    }

    /// Appends a goodbye.
    fn plan_left(&self, alloc: Global, leg: u16, plan: &mut Plan) -> Result<(), AllocError>
        ensures { (rows : List Row) → OnOk result (plan.new
            ≡ plan.old ++ job_plan rows self.now (job.Goodbye leg)) }
    {
        let Some(leg) = self.numbered(leg) else {
            return Ok(());
        };
        let planned = plan_goodbye(leg, alloc)?;
        plan.push(planned)
    }

    /// The leg with this number.
    fn numbered(&self, number: u16) -> Option<&LegState>
        ensures { MatchOption result (HasNoNumber number self.now)
            (λ leg. IsNumbered number self.now leg.now) }
    {
        let Some(place) = self.places.get(&number) else {
            return None;
        };
        let Some(leg) = self.legs.get(usize::from(*place)) else {
            return None;
        };
        Some(leg)
    }

    /// The leg with this number and its place, if this stay stands on it.
    fn standing(&self, rows: &[Row], number: u16, stay: u64) -> Option<(u16, &LegState)>
        ensures { MatchOption result (IsNowhere rows.now number stay self.now)
            (λ found. IsStandingAt rows.now number stay self.now found.0 found.1.now) }
    {
        let Some(place) = self.places.get(&number) else {
            return None;
        };
        let Some(leg) = self.legs.get(usize::from(*place)) else {
            return None;
        };
        if stay == 0 {
            return None;
        }
        let row = row_of(rows, leg);
        if row.stay != stay {
            return None;
        }
        Some((*place, leg))
    }
}
