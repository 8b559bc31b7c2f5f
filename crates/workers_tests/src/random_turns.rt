//! Random turns for tests: what the endpoints of a room send, from a seed.

ghost use Rattle.std.specs.Prelude.{◌+◌, ◌<◌, ◌≤◌};

use crate::rooms::{Link, Times, settings_with};
use settings::{Settings, SettingsFault};
use std::alloc::{AllocError, Global};

const ENDPOINTS: u8 = 4;

pub(super) const WORKERS: u8 = 3;

/// Numbers that look random, and are the same in each run (a linear congruential generator).
#[derive(Drop)]
struct Dice {
    state: u64,
}

impl Dice {
    /// A number below the limit, which is at least 1.
    fn below(&mut self, limit: u32) -> u32
        requires { 1 ≤ limit }
        ensures { result < limit }
    {
        self.state = self
            .state
            .wrapping_mul(6_364_136_223_846_793_005)
            .wrapping_add(1_442_695_040_888_963_407);
        ((self.state >> 33) as u32) % limit
    }

    fn byte(&mut self) -> u8 {
        self.below(256) as u8
    }
}

/// What comes.
#[derive(Drop)]
pub(super) enum Coming {
    Datagram { endpoint: u16, bytes: Vec<u8> },
    Select { leg: u16, on: bool },
}

/// One turn: what comes at which moment.
#[derive(Drop)]
pub(super) struct Turn {
    pub(super) moment: u64,
    pub(super) arrival: Option<Coming>,
    /// Whether workers may do what follows while the next turns are played: the moment doesn't rise, no desk is asked and no leg selected.
    pub(super) is_calm: bool,
    /// How many jobs workers must have done before; 0 if they may still be at them.
    pub(super) jobs_before: u64,
}

/// How many turns are made, and that one is calm but for each so many'th.
#[derive(Clone, Copy)]
pub(super) struct Plan {
    pub(super) turns: u64,
    pub(super) restless_each: u64,
    /// How many datagrams each sink is handed at least: the ingress has none to send until the moment rose by enough.
    pub(super) least_sent: u64,
}

/// Each endpoint sends to each other one. The source that a subscriber is sent has 256 and the leg's number.
fn all_links(alloc: Global) -> Result<Vec<Link>, AllocError> {
    let mut links = Vec::new(alloc);
    let mut out_ssrc: i64 = 256;
    for subscriber in 0..ENDPOINTS {
        for publisher in 0..ENDPOINTS {
            if subscriber != publisher {
                links.push(Link {
                    subscriber: i64::from(subscriber),
                    publisher: i64::from(publisher),
                    out_ssrc,
                    first_seq: 100,
                })?;
                out_ssrc = out_ssrc.wrapping_add(1);
            }
        }
    }
    Ok(links)
}

/// What an endpoint sends. Feedback asks desks, so that its order among other calls matters: it comes only if `may_ask`.
fn datagram(
    alloc: Global,
    dice: &mut Dice,
    endpoint: u8,
    may_ask: bool,
) -> Result<Vec<u8>, AllocError>
    requires { endpoint < 4 }
{
    let source = 16 + endpoint;
    let leg = endpoint * 3 + dice.below(3) as u8;
    match dice.below(if may_ask { 12 } else { 6 }) {
        0..=3 => media(alloc, dice, source),
        4 => [0x80, 0xc9, 0, 1, 0, 0, 0, source].to_vec(alloc),
        5 => sender_report(alloc, dice, source),
        6 | 7 => rate_request(alloc, dice, source, leg),
        8 | 9 => resend_request(alloc, dice, source, leg),
        10 => [0x81, 0xce, 0, 2, 0, 0, 0, source, 0, 0, 1, leg].to_vec(alloc),
        _ => oddity(alloc, dice, source),
    }
}

/// What an endpoint sends that asks no desk: mostly packets.
fn calm_datagram(alloc: Global, dice: &mut Dice, endpoint: u8) -> Result<Vec<u8>, AllocError>
    requires { endpoint < 4 }
{
    let source = 16 + endpoint;
    let leg = endpoint * 3 + dice.below(3) as u8;
    match dice.below(16) {
        0 => [0x80, 0xc9, 0, 1, 0, 0, 0, source].to_vec(alloc),
        1 => sender_report(alloc, dice, source),
        2 => resend_request(alloc, dice, source, leg),
        _ => media(alloc, dice, source),
    }
}

/// An RTP packet (RFC 3550, section 5.1).
fn media(alloc: Global, dice: &mut Dice, source: u8) -> Result<Vec<u8>, AllocError> {
    let (seq, time, payload) = (dice.below(64) as u8, dice.byte(), dice.byte());
    [
        0x80, 0x60, 0, seq, 0, 0, time, 0xb8, 0, 0, 0, source, payload, 0xbb,
    ]
    .to_vec(alloc)
}

/// A sender report without blocks (RFC 3550, section 6.4.1).
fn sender_report(alloc: Global, dice: &mut Dice, source: u8) -> Result<Vec<u8>, AllocError> {
    let (ntp, rtp) = (dice.byte(), dice.byte());
    [
        0x80, 0xc8, 0, 6, 0, 0, 0, source, 0, 0, 0, 10, ntp, 0, 0, 0, 0, 0, 0x0b, rtp, 0, 0, 0, 1,
        0, 0, 0, 2,
    ]
    .to_vec(alloc)
}

/// A TMMBR of one entry (RFC 5104, section 4.2.1.1).
fn rate_request(
    alloc: Global,
    dice: &mut Dice,
    source: u8,
    leg: u8,
) -> Result<Vec<u8>, AllocError> {
    let (high, middle, low) = (dice.below(16) as u8, dice.byte(), dice.byte());
    [
        0x83,
        0xcd,
        0,
        4,
        0,
        0,
        0,
        source,
        0,
        0,
        0,
        0,
        0,
        0,
        1,
        leg,
        high,
        middle,
        low & 0xfe,
        40,
    ]
    .to_vec(alloc)
}

/// A NACK of one entry (RFC 4585, section 6.2.1).
fn resend_request(
    alloc: Global,
    dice: &mut Dice,
    source: u8,
    leg: u8,
) -> Result<Vec<u8>, AllocError> {
    let (pid, blp) = (dice.byte(), dice.byte());
    [
        0x81, 0xcd, 0, 3, 0, 0, 0, source, 0, 0, 1, leg, 0, pid, 0, blp,
    ]
    .to_vec(alloc)
}

/// A goodbye (RFC 3550, section 6.6), or something that can't be read.
fn oddity(alloc: Global, dice: &mut Dice, source: u8) -> Result<Vec<u8>, AllocError> {
    if dice.below(4) == 0 {
        [0x81, 0xcb, 0, 1, 0, 0, 0, source].to_vec(alloc)
    } else {
        [0x81, 0xcd, 0, 9, dice.byte()].to_vec(alloc)
    }
}

/// What comes in a turn: mostly a datagram, sometimes a selection of one of the twelve legs, sometimes nothing.
fn make_coming(
    alloc: Global,
    dice: &mut Dice,
    may_ask: bool,
) -> Result<Option<Coming>, AllocError> {
    match dice.below(16) {
        0 => Ok(None),
        1 => Ok(Some(Coming::Select {
            leg: u16::from(dice.below(12) as u8),
            on: dice.below(3) > 0,
        })),
        _ => {
            let endpoint = dice.below(4) as u8;
            let bytes = datagram(alloc, dice, endpoint, may_ask)?;
            Ok(Some(Coming::Datagram {
                endpoint: u16::from(endpoint),
                bytes,
            }))
        }
    }
}

/// What comes in a calm turn.
fn make_calm(alloc: Global, dice: &mut Dice) -> Result<Coming, AllocError> {
    let endpoint = dice.below(4) as u8;
    let bytes = calm_datagram(alloc, dice, endpoint)?;
    Ok(Coming::Datagram {
        endpoint: u16::from(endpoint),
        bytes,
    })
}

/// The turns of a seed, whose jobs before are not counted yet.
pub(super) fn make_turns(alloc: Global, seed: u64, plan: Plan) -> Result<Vec<Turn>, AllocError> {
    let mut dice = Dice { state: seed };
    let mut turns = Vec::new(alloc);
    let mut moment: u64 = 0;
    for number in 0..plan.turns {
        let is_calm = number.checked_rem(plan.restless_each).unwrap_or(0) > 0;
        let rises = !is_calm && dice.below(3) == 0;
        if rises {
            moment = moment.wrapping_add(1 + u64::from(dice.below(120)));
        }
        let arrival = if is_calm {
            Some(make_calm(alloc, &mut dice)?)
        } else {
            make_coming(alloc, &mut dice, !rises)?
        };
        turns.push(Turn {
            moment,
            arrival,
            is_calm,
            jobs_before: 0,
        })?;
    }
    Ok(turns)
}

/// The room in which all this comes: each endpoint sends to each other one.
pub(super) fn room(alloc: Global) -> Result<Settings, SettingsFault> {
    room_with(alloc, WORKERS)
}

/// The same, with so many workers.
pub(super) fn room_with(alloc: Global, workers: u8) -> Result<Settings, SettingsFault> {
    let Ok(links) = all_links(alloc) else {
        return Err(SettingsFault::NoMemory);
    };
    let times = Times {
        timeout: 1_000,
        report: 700,
        request: 900,
        gap: 200,
    };
    settings_with(
        alloc,
        i64::from(workers),
        ENDPOINTS,
        links.as_slice(),
        times,
    )
}
