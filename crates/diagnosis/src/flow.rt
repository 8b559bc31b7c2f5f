//! How much went out on a leg of late, between two looks.

ghost use Rattle.std.specs.Prelude.{◌≡◌};
ghost use Rattle.diagnosis.specs.Flow.{each_second};

/// The least time that a rate is of, in milliseconds.
const SECOND_MS: u64 = 1_000;

/// What was counted on a leg at one moment.
#[derive(Clone, Copy, PartialEq, Eq)]
pub struct FlowLook {
    /// How many packets went out on it so far.
    pub packets: u64,
    /// How many weren't sent on so far.
    pub skipped: u64,
    /// The moment, in milliseconds.
    pub moment: u64,
}

/// How much went out on a leg between two moments.
#[derive(Clone, Copy, Debug, PartialEq, Eq)]
pub struct LegFlow {
    pub packets: u64,
    pub skipped: u64,
    /// How many milliseconds lie between them.
    pub ms: u64,
}

/// The last two looks at a leg. If one is made each second, the older one is between one and two seconds old, once there were two.
#[derive(Clone, Copy, PartialEq, Eq)]
pub struct FlowWindow {
    pub before: FlowLook,
    pub last: FlowLook,
}

impl FlowWindow {
    ghost use Rattle.std.specs.Prelude.{◌≡◌};
    ghost use Rattle.diagnosis.specs.Flow.{flow_since, looked_at, unseen};

    /// Nothing went out by the moment 0.
    pub fn new() -> FlowWindow
        ensures { result ≡ unseen }
    {
        let nothing = FlowLook {
            packets: 0,
            skipped: 0,
            moment: 0,
        };
        FlowWindow {
            before: nothing,
            last: nothing,
        }
    }

    /// One more look.
    pub fn looked(self, look: FlowLook) -> FlowWindow
        ensures { result ≡ looked_at self look }
    {
        FlowWindow {
            before: self.last,
            last: look,
        }
    }

    /// What went out from the older look until this one.
    pub fn flow(self, now: FlowLook) -> LegFlow
        ensures { result ≡ flow_since self now }
    {
        LegFlow {
            packets: now.packets.saturating_sub(self.before.packets),
            skipped: now.skipped.saturating_sub(self.before.skipped),
            ms: now.moment.saturating_sub(self.before.moment),
        }
    }
}

/// So many in so many milliseconds, as so many a second. In less than a second they count as if in one.
pub(crate) fn each_second(count: u64, ms: u64) -> u64
    ensures { result ≡ each_second count ms }
{
    count.saturating_mul(SECOND_MS) / ms.max(SECOND_MS)
}
