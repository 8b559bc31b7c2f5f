//! Random calls of desks, from fixed seeds: a few owners, some, and more than may be present.

ghost use Rattle.std.specs.Prelude.{IsTrue};
ghost use Rattle.desk.specs.Call.{HasStay};

use rate_desk::*;
use tmmbr_tuple::{Ssrc, Tuple};

/// Numbers of a linear congruential generator.
#[derive(Drop)]
pub(crate) struct Draws(pub(crate) u64);

impl Draws {
    /// The next number, below 256.
    pub(crate) fn next(&mut self) -> u8 {
        self.0 = self
            .0
            .wrapping_mul(6_364_136_223_846_793_005)
            .wrapping_add(1_442_695_040_888_963_407);
        ((self.0 >> 40) & 255) as u8
    }

    /// The next number below 65,536.
    fn wide(&mut self) -> u32 {
        ((self.next() as u32) << 8) | (self.next() as u32)
    }
}

/// Who calls a desk, and what they ask for.
#[derive(Clone, Copy, PartialEq, Eq)]
pub(crate) enum Shape {
    /// Eight owners, who ask for anything of exponent 0, now and then for a rate of 0.
    Few,
    /// Forty, who ask for anything of exponent 0 with a rate.
    Some,
    /// More than may be present. The rates rise with the square of the overhead, but for one bit, so that
    /// most are announced.
    Many,
}

impl Shape {
    pub(crate) fn owners(self) -> u32 {
        match self {
            Shape::Few => 8,
            Shape::Some => 40,
            Shape::Many => 320,
        }
    }

    /// What the owner asks for.
    fn word(self, owner: u32, draws: &mut Draws) -> u32 {
        let (high, low) = (draws.next() as u32, draws.next() as u32);
        match self {
            Shape::Few if high < 8 => low,
            Shape::Few | Shape::Some => ((1 + high) << 9) | low,
            Shape::Many => {
                let overhead = 1 + owner % 256;
                let square = overhead.wrapping_mul(overhead);
                let rate = square.wrapping_add(65_500 + high % 2);
                rate.wrapping_mul(512) | overhead
            },
        }
    }
}

/// A desk, and who calls it.
#[derive(Clone, Copy)]
pub(crate) struct Plan {
    pub(crate) gap: u64,
    pub(crate) request_ms: u64,
    pub(crate) shape: Shape,
}

/// How the desk of this number is called.
pub(crate) fn plan_of(number: usize) -> Plan {
    Plan {
        gap: match number % 4 {
            0 => 0,
            1 => 1,
            2 => 20,
            _ => 500,
        },
        request_ms: match number / 4 % 4 {
            0 => 0,
            1 => 40,
            2 => 150,
            _ => 5000,
        },
        shape: match number % 5 {
            0 => Shape::Many,
            1 => Shape::Some,
            _ => Shape::Few,
        },
    }
}

/// The next call, around this moment. The first ones are an arrive of each owner, then a request of each.
pub(crate) fn draw(shape: Shape, draws: &mut Draws, number: u32, moment: u64) -> Call {
    let owners = shape.owners().max(1);
    let (drawn, kind) = (draws.wide() % owners, draws.next() % 32);
    let stay = 1 + (draws.next() % 4 / 3) as u64;
    let (owner, stay, kind) = match number / owners {
        0 => (Ssrc(number), 1, 0),
        1 => (Ssrc(number.wrapping_sub(owners)), 1, 10),
        _ => (Ssrc(drawn), stay, kind),
    };
    let signal = match kind {
        20 | 21 | 22 => Signal::Pli,
        23 | 24 | 25 | 26 | 27 => Signal::Tick,
        _ => Signal::Expire,
    };
    let change = match kind {
        0 | 1 | 2 | 3 | 4 => Change::Arrive,
        5 | 6 => Change::Depart,
        _ => Change::Request(Tuple::from_word(shape.word(owner.0, draws))),
    };
    if kind < 20 {
        return Call::Stay {
            owner,
            stay,
            change,
        };
    }
    // One in four moments lies behind.
    let behind = if draws.next() < 64 {
        draws.next() % 32
    } else {
        0
    };
    Call::Time {
        moment: moment.saturating_sub(behind as u64),
        signal,
    }
}

/// Whether the call names a stay from 1 on.
pub(crate) fn has_stay(call: &Call) -> bool
    ensures { IsTrue result → HasStay call.now }
{
    match *call {
        Call::Stay { stay, .. } => stay != 0,
        Call::Time { .. } => true,
    }
}
