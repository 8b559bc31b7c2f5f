//! Lists of requests from a fixed seed: for tests.

use rate_cert::Request;
use tmmbr_tuple::{Ssrc, Tuple};

/// A generator of numbers that look random: xorshift with shifts of 13, 7 and 17 bits.
#[derive(Drop)]
pub struct Generator {
    state: u64,
}

impl Generator {
    pub fn new() -> Self {
        Generator {
            state: 0x9e37_79b9_7f4a_7c15,
        }
    }

    /// A number from 0 to 65,535.
    fn next(&mut self) -> u16 {
        self.state ^= self.state << 13;
        self.state ^= self.state >> 7;
        self.state ^= self.state << 17;
        (self.state >> 48) as u16
    }

    /// One of these.
    fn choose<T: Copy>(&mut self, from: &[T], or_else: T) -> T {
        match u16::try_from(from.len()) {
            Ok(count) if count > 0 => {
                let place = usize::from(self.next() % count);
                from.get(place).copied().unwrap_or(or_else)
            }
            _ => or_else,
        }
    }

    /// How many requests a list has: 1 to 7, few lists are short.
    pub fn count(&mut self) -> u16 {
        self.choose(&[1, 2, 3, 4, 5, 6, 7, 7, 7, 7, 7, 7], 7)
    }

    /// True once in so many times.
    pub fn once_in(&mut self, times: u16) -> bool {
        self.next().checked_rem(times) == Some(0)
    }

    /// A request of one of twelve owners, of this kind.
    pub fn request(&mut self, kind: Kind) -> Request {
        self.request_of(12, kind)
    }

    /// A request of one of so many owners, of this kind.
    pub fn request_of(&mut self, owners: u16, kind: Kind) -> Request {
        let owner = Ssrc(u32::from(self.next().checked_rem(owners).unwrap_or(0)));
        let tuple = match kind {
            Kind::FewLines => self.few_lines(),
            Kind::MeetAtZero => self.meet_at_zero(),
            Kind::Stops => self.stops(),
            Kind::Extremes => self.extremes(),
            Kind::Rounded => self.rounded(),
            Kind::ManyLines => self.many_lines(),
        };
        Request { owner, tuple }
    }

    /// On the lines of rate 8 + 2 i and overhead i, all of which meet in one point, or 2 beside them;
    /// the rates are spelled by the exponents 0 and 1.
    fn few_lines(&mut self) -> Tuple {
        let overhead = self.next() % 4;
        let beside = self.choose(&[0, 1, 1, 2], 1);
        let half = u32::from(overhead).wrapping_add(beside).wrapping_add(3);
        let (exp, mantissa) = self.choose(&[(1, half), (0, half.wrapping_mul(2))], (1, half));
        Tuple::new(exp, mantissa, overhead).unwrap_or_default()
    }

    /// 100 bits per second for each byte of overhead, and sometimes more: many lines meet where nothing
    /// is left for media.
    fn meet_at_zero(&mut self) -> Tuple {
        let overhead = self.choose(&[5, 10, 20, 30, 40], 5);
        let more = self.choose(&[0, 0, 1, 50, 700, 2_000], 0);
        let mantissa = u32::from(overhead).wrapping_mul(100).wrapping_add(more);
        Tuple::new(0, mantissa, overhead).unwrap_or_default()
    }

    /// Each third rate is 0, and each third of those comes with overhead.
    fn stops(&mut self) -> Tuple {
        let exp = self.choose(&[0, 1, 63], 0);
        if self.once_in(3) {
            let overhead = self.choose(&[0, 0, 0, 0, 1, 2], 0);
            return Tuple::new(exp, 0, overhead).unwrap_or_default();
        }
        let mantissa = self.choose(&[1, 2, 3, 6], 0);
        let overhead = self.next() % 4;
        Tuple::new(exp, mantissa, overhead).unwrap_or_default()
    }

    /// The least and greatest exponents, mantissas and overheads, and their neighbours.
    fn extremes(&mut self) -> Tuple {
        let exp = self.choose(&[0, 62, 63, 63, 63], 0);
        let mantissa = self.choose(&[1, 65_535, 65_536, 98_303, 131_070, 131_071], 0);
        let overhead = self.choose(&[0, 1, 2, 255, 256, 510, 511], 0);
        Tuple::new(exp, mantissa, overhead).unwrap_or_default()
    }

    /// On or a little above the lines of rate 5,000 + i * i and overhead i, each of which bounds
    /// somewhere.
    fn rounded(&mut self) -> Tuple {
        let overhead = self.choose(&[0, 4, 8, 12, 16, 20, 24, 28], 0);
        let number = u32::from(overhead);
        let more = self.choose(&[0, 0, 0, 8, 16, 17], 0);
        let mantissa = number.wrapping_mul(number).wrapping_add(more);
        Tuple::new(0, mantissa.wrapping_add(5_000), overhead).unwrap_or_default()
    }

    /// On or a little above the lines of rate 65,500 + i * i and overhead i, each of which bounds
    /// somewhere.
    fn many_lines(&mut self) -> Tuple {
        let overhead = self.next() % 257;
        let number = u32::from(overhead);
        let more = self.choose(&[0, 0, 0, 1, 2, 3], 0);
        let mantissa = number.wrapping_mul(number).wrapping_add(more);
        Tuple::new(0, mantissa.wrapping_add(65_500), overhead).unwrap_or_default()
    }
}

/// What the requests of a list have in common.
#[derive(Clone, Copy)]
pub enum Kind {
    FewLines,
    MeetAtZero,
    Stops,
    Extremes,
    Rounded,
    ManyLines,
}

/// The kinds for lists of few requests.
pub const KINDS: [Kind; 5] = [
    Kind::FewLines,
    Kind::MeetAtZero,
    Kind::Stops,
    Kind::Extremes,
    Kind::Rounded,
];
