//! The packets received of one stream, as a few numbers under the names of RFC 3550, appendix A.1.

ghost use Rattle.std.specs.Prelude.{◌≡◌, ◌+◌, ◌-◌, ◌^◌, ◌<◌};
ghost use Rattle.members.specs.Reception.{transit_at, expected_in, lost_of, fraction_of};
ghost use Rattle.members.specs.Stream.{IsCounted, new_stream, counted_with, stream_after_block};

use rewrite::{SEQ_CYCLE, extended_number};

/// How many packets of a stream count. Each raises the highest number by less than 2^15, so that numbers
/// stay below 2^63.
pub const COUNTED_PACKETS: u64 = 1 << 47;

/// How many numbers 32 bits hold.
pub const WORD_VALUES: u64 = 1 << 32;

/// Ticks of the timestamps' clock in a millisecond: it runs at 90,000 Hz.
const TICKS: u64 = 90;

/// The least that a report block says to be lost, in 24 signed bits.
const LEAST_LOST: i64 = -(1 << 23);

/// The most that it says to be lost.
const MOST_LOST: i64 = (1 << 23) - 1;

/// The counted packets of one stream. Their extended numbers count on when sequence numbers wrap, and
/// begin one cycle up, so that those before the first packet's are whole numbers too.
#[derive(Clone, Copy)]
pub struct Stream {
    /// The extended number of the first packet.
    pub base_seq: u64,
    /// The highest extended number.
    pub max_seq: u64,
    /// How many packets were received.
    pub received: u64,
    /// How many packets were expected when the last block was made; 0 before any.
    pub expected_prior: u64,
    /// How many packets were received when the last block was made; 0 before any.
    pub received_prior: u64,
    /// The transit of the last packet.
    pub transit: u32,
    /// 16 times the jitter, in ticks.
    pub jitter: u64,
}

/// How long after its timestamp a packet came, in ticks modulo 2^32 (RFC 3550, appendix A.8).
pub fn transit(moment: u64, timestamp: u32) -> u32
    ensures { result ≡ transit_at moment timestamp }
{
    let arrival = (moment % WORD_VALUES * TICKS % WORD_VALUES) as u32;
    arrival.wrapping_sub(timestamp)
}

impl Stream {
    /// The stream that begins with this packet.
    pub fn begin(seq: u16, transit: u32) -> Stream
        ensures value { result ≡ new_stream seq transit }
        ensures within { IsCounted result }
    {
        let base_seq = SEQ_CYCLE + u64::from(seq);
        Stream {
            base_seq,
            max_seq: base_seq,
            received: 1,
            expected_prior: 0,
            received_prior: 0,
            transit,
            jitter: 0,
        }
    }

    /// Counts one more packet, unless as many as count were received already.
    pub fn count(&mut self, seq: u16, transit: u32)
        requires { IsCounted self.old }
        ensures value { self.new ≡ counted_with self.old seq transit }
        ensures within { IsCounted self.new }
    {
        if self.received == COUNTED_PACKETS {
            return;
        }
        self.max_seq = self.max_seq.max(extended_number(self.max_seq, seq));
        self.received += 1;
        let jump = transit
            .wrapping_sub(self.transit)
            .cast_signed()
            .unsigned_abs();
        self.jitter = self.jitter + u64::from(jump) - (self.jitter + 8) / 16;
        self.transit = transit;
    }

    /// How many packets were sent, from the first to the highest (RFC 3550, appendix A.3).
    pub fn expected(&self) -> u64
        requires { IsCounted self.now }
        ensures { result ≡ expected_in self.now.base_seq self.now.max_seq }
    {
        self.max_seq - self.base_seq + 1
    }

    /// Of the packets expected since the last block, how many were lost, in 256ths.
    pub fn fraction_lost(&self) -> u8
        requires { IsCounted self.now }
        ensures { result ≡ fraction_of
            (expected_in self.now.base_seq self.now.max_seq - self.now.expected_prior)
            (self.now.received - self.now.received_prior) }
    {
        fraction(
            self.expected() - self.expected_prior,
            self.received - self.received_prior,
        )
    }

    /// The next block's interval begins.
    pub fn close(&mut self)
        requires { IsCounted self.old }
        ensures value { self.new ≡ stream_after_block self.old }
        ensures within { IsCounted self.new }
    {
        self.expected_prior = self.expected();
        self.received_prior = self.received;
    }
}

/// Of so many packets expected how many were lost, in 256ths (RFC 3550, appendix A.3); 0 if none were
/// expected, or as many were received.
pub fn fraction(expected: u64, received: u64) -> u8
    ensures { result ≡ fraction_of expected received }
{
    if expected <= received {
        return 0;
    }
    (u128::from(expected - received) * 256 / u128::from(expected)).min(255) as u8
}

/// Of so many packets expected how many were lost, within 24 signed bits (RFC 3550, section 6.4.1).
pub fn lost(expected: u64, received: u64) -> i32
    requires expected_fits { expected < 2 ^ 63 }
    requires received_fits { received < 2 ^ 63 }
    ensures { result ≡ lost_of expected received }
{
    (expected as i64 - received as i64).clamp(LEAST_LOST, MOST_LOST) as i32
}
