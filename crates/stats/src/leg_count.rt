//! What went out on a leg.

ghost use Rattle.std.specs.Prelude.{◌≡◌};
ghost use Rattle.stats.specs.LegCounts.{is_new};

/// Half of the sequence numbers: one that is fewer ahead than these is newer (RFC 3550, section 5.1).
const HALF: u16 = 1 << 15;

/// What went out on a leg so far. Each count stays at `u64::MAX` once there.
#[derive(Clone, Copy, Debug, PartialEq, Eq)]
pub struct LegCount {
    /// How many packets, repeated ones too.
    pub packets: u64,
    /// How many bytes their payloads have.
    pub octets: u64,
    /// How many of the packets had gone out before.
    pub resent: u64,
    /// How many NACKed packets weren't kept any more.
    pub missed: u64,
    /// How many packets of the publisher weren't sent on, since they were too old for the leg, or its numbers are spent.
    pub skipped: u64,
    /// The sequence number after the newest; `None` before the first packet.
    pub next: Option<u16>,
}

impl LegCount {
    ghost use Rattle.std.specs.Prelude.{◌≡◌, None};
    ghost use Rattle.stats.specs.LegCounts.{count_with};

    /// Nothing went out.
    pub fn new() -> LegCount
        ensures { result ≡ record {
          packets = 0;
          octets = 0;
          resent = 0;
          missed = 0;
          skipped = 0;
          next = None;
        } }
    {
        LegCount {
            packets: 0,
            octets: 0,
            resent: 0,
            missed: 0,
            skipped: 0,
            next: None,
        }
    }

    /// The count, with a packet of this sequence number and so many bytes of payload. It had gone out before unless its number is the next
    /// or newer.
    pub fn with(self, seq: u16, octets: u64) -> LegCount
        ensures { result ≡ count_with self seq octets }
    {
        let is_new = is_new(self.next, seq);
        LegCount {
            packets: self.packets.saturating_add(1),
            octets: self.octets.saturating_add(octets),
            resent: if is_new {
                self.resent
            } else {
                self.resent.saturating_add(1)
            },
            missed: self.missed,
            skipped: self.skipped,
            next: if is_new {
                Some(seq.wrapping_add(1))
            } else {
                self.next
            },
        }
    }
}

/// Whether a number is the next one, or newer.
fn is_new(next: Option<u16>, seq: u16) -> bool
    ensures { result ≡ is_new next seq }
{
    match next {
        Some(next) => seq.wrapping_sub(next) < HALF,
        None => true,
    }
}
