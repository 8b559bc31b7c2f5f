//! Whether a packet goes on where its source was, or begins anew (RFC 3550, appendix A.1).

ghost use Rattle.std.specs.Prelude.{◌≡◌, ◌*◌};
ghost use Rattle.policy.specs.SequenceTrackers.{ahead_of, is_about, is_ahead, is_close, is_near, successor_of, ticks_ahead_of, ticks_with};

/// A packet goes on where its source was if fewer numbers than this were left out before it.
pub const MAX_DROPOUT: u16 = 3000;

/// A packet that comes late goes on where its source was if it is fewer numbers than this behind the highest, and its timestamp is close.
pub const MAX_MISORDER: u16 = 100;

/// The timestamp of a packet that comes late is close if it is fewer units than this from that of the packet with the highest number, before
/// or after it. In RTP timestamp units: 186 seconds at 90 kHz, 349 at 48 kHz.
pub const MAX_LATE_TICKS: u32 = 1 << 24;

/// A packet is ahead of the highest number if it is fewer numbers than this after it, half of all. Else it is behind, and legs take it for a
/// late one.
pub const MAX_AHEAD: u16 = 1 << 15;

/// A timestamp is after another one if it is fewer units than this ahead of it, half of all; else it is before.
const MAX_TICKS_AHEAD: u32 = 1 << 31;

/// Where the packet of a source stands.
#[derive(Clone, Copy, Debug, PartialEq, Eq)]
pub enum Placement {
    /// The source goes on with it, or begins.
    InSequence,
    /// It is far from the highest number. It may be an odd packet, or the first one of a source that begins anew.
    Jump,
    /// It is far from the highest number and follows the last far one: the source began anew.
    Restart,
}

/// What the header of a packet says of its place in its source (RFC 3550, section 5.1), and when it came.
#[derive(Clone, Copy, PartialEq, Eq)]
pub struct Stamp {
    /// The sequence number.
    pub seq: u16,
    /// The timestamp, in units of the payload's clock.
    pub timestamp: u32,
    /// The moment, in milliseconds.
    pub moment: u64,
}

/// The numbers of a source since it began.
#[derive(Clone, Copy, PartialEq, Eq)]
pub struct SequenceTracker {
    /// The number that is highest, with the timestamp and the moment of the last packet with it.
    pub highest: Stamp,
    /// When the first packet came, in milliseconds.
    pub began: u64,
    /// How many units the timestamps went on by since then, up to the highest number.
    pub ticks: u64,
    /// The number after that of the last packet that was far from the highest; `None` before any.
    pub awaited: Option<u16>,
}

impl SequenceTracker {
    ghost use Rattle.std.specs.Prelude.{◌≡◌, ◌<◌};
    ghost use Rattle.policy.specs.SequenceTrackers.{expected_ticks, goes_on, is_on_time, lasted, placement_in, tracker_from, tracker_up_to, tracker_with};

    /// A source begins with this packet.
    pub fn new(stamp: Stamp) -> SequenceTracker
        ensures { result ≡ tracker_from stamp }
    {
        SequenceTracker {
            highest: stamp,
            began: stamp.moment,
            ticks: 0,
            awaited: None,
        }
    }

    /// Where this packet stands.
    pub fn placement(self, stamp: Stamp) -> Placement
        ensures { result ≡ placement_in self stamp }
    {
        if is_near(self.highest, stamp) || self.goes_on(stamp) {
            return Placement::InSequence;
        }
        if self.awaited == Some(stamp.seq) {
            Placement::Restart
        } else {
            Placement::Jump
        }
    }

    /// The numbers, that of this packet too.
    pub fn with(self, stamp: Stamp) -> SequenceTracker
        ensures { result ≡ tracker_with self stamp }
    {
        match self.placement(stamp) {
            Placement::InSequence => {
                if is_ahead(self.highest, stamp) {
                    self.up_to(stamp)
                } else {
                    self
                }
            }
            Placement::Jump => SequenceTracker {
                awaited: Some(successor_of(stamp.seq)),
                ..self
            },
            Placement::Restart => SequenceTracker::new(stamp),
        }
    }

    /// The numbers once this packet has the highest.
    fn up_to(self, stamp: Stamp) -> SequenceTracker
        ensures { result ≡ tracker_up_to self stamp }
    {
        SequenceTracker {
            highest: stamp,
            ticks: ticks_with(self.ticks, self.highest.timestamp, stamp.timestamp),
            ..self
        }
    }

    /// Whether the source goes on with this packet after an outage: it is ahead, and on time.
    fn goes_on(self, stamp: Stamp) -> bool
        ensures { result ≡ goes_on self stamp }
    {
        is_ahead(self.highest, stamp) && self.is_on_time(stamp)
    }

    /// Whether the timestamp of this packet went on with the clock since the highest number.
    fn is_on_time(self, stamp: Stamp) -> bool
        ensures { result ≡ is_on_time self stamp }
    {
        if self.lasted() == 0 {
            return false;
        }
        is_about(
            self.expected_ticks(stamp.moment),
            ticks_ahead_of(self.highest.timestamp, stamp.timestamp),
        )
    }

    /// How many milliseconds there are from the first packet to the highest number.
    fn lasted(self) -> u64
        ensures { result ≡ lasted self }
    {
        self.highest.moment.saturating_sub(self.began)
    }

    /// By how many units timestamps go on from the highest number to this moment, at the rate at which they went on before.
    fn expected_ticks(self, moment: u64) -> u128
        requires { 0 < lasted self }
        ensures { result ≡ expected_ticks self moment }
    {
        let passed = moment.saturating_sub(self.highest.moment);
        product(self.ticks, passed) / u128::from(self.lasted())
    }
}

/// So many times so many.
fn product(left: u64, right: u64) -> u128
    ensures { result ≡ left * right }
{
    u128::from(left) * u128::from(right)
}

/// Whether a timestamp that is so far ahead is where one is expected, within a factor of two.
fn is_about(expected: u128, ahead: u32) -> bool
    ensures { result ≡ is_about expected ahead }
{
    let ahead = u128::from(ahead);
    expected > 0 && expected <= 2 * ahead && ahead <= 2 * expected
}

/// Whether the packet goes on where its source was: by its number alone if it isn't behind the highest, else by its timestamp, too.
fn is_near(highest: Stamp, stamp: Stamp) -> bool
    ensures { result ≡ is_near highest stamp }
{
    let ahead = ahead_of(highest.seq, stamp.seq);
    ahead < MAX_DROPOUT
        || ahead > u16::MAX - (MAX_MISORDER - 1) && is_close(highest.timestamp, stamp.timestamp)
}

/// Whether a timestamp is close to the one of the highest number, across the wrap.
fn is_close(highest: u32, timestamp: u32) -> bool
    ensures { result ≡ is_close highest timestamp }
{
    let after = ticks_ahead_of(highest, timestamp);
    after < MAX_LATE_TICKS || after > u32::MAX - (MAX_LATE_TICKS - 1)
}

/// Whether the number of a packet is ahead of the highest.
fn is_ahead(highest: Stamp, stamp: Stamp) -> bool
    ensures { result ≡ is_ahead highest stamp }
{
    ahead_of(highest.seq, stamp.seq) < MAX_AHEAD
}

/// How far a timestamp is after another one, across the wrap.
fn ticks_ahead_of(highest: u32, timestamp: u32) -> u32
    ensures { result ≡ ticks_ahead_of highest timestamp }
{
    timestamp.wrapping_sub(highest)
}

/// How many units timestamps went on by, once they went on from this one to that.
fn ticks_with(ticks: u64, before: u32, after: u32) -> u64
    ensures { result ≡ ticks_with ticks before after }
{
    let ahead = ticks_ahead_of(before, after);
    if ahead < MAX_TICKS_AHEAD {
        ticks.saturating_add(u64::from(ahead))
    } else {
        ticks.saturating_sub(u64::from(ticks_ahead_of(after, before)))
    }
}

/// How far a number is ahead of the highest, across the wrap.
fn ahead_of(highest: u16, seq: u16) -> u16
    ensures { result ≡ ahead_of highest seq }
{
    seq.wrapping_sub(highest)
}

/// The number after this one, across the wrap.
fn successor_of(seq: u16) -> u16
    ensures { result ≡ successor_of seq }
{
    seq.wrapping_add(1)
}
