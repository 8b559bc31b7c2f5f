//! What of an endpoint is looked at, how much of it, and what is asked for again.

ghost use Rattle.std.specs.Prelude.{◌≡◌, false, true};

use crate::leg_resends::ResendBounds;

/// What of a source is screened, what is asked for again, and how much of a stall counts.
#[derive(Clone, Copy, PartialEq, Eq)]
pub struct Rules {
    /// Whether a source that begins anew is noticed (RFC 3550, appendix A.1).
    pub new_starts: bool,
    /// Whether receiver reports and feedback of an endpoint are heard only under the endpoint's own source. If not, they are the
    /// endpoint's whatever sender they name: some clients make one up.
    pub strict_ssrc: bool,
    /// How often and how many packets are sent again on a leg.
    pub resends: ResendBounds,
    /// How many entries of a datagram's feedback are heard, the first; 0 for all. Who reads the datagram counts them.
    pub entry_limit: u32,
    /// How many datagrams of one endpoint are heard a millisecond, beside what it didn't send in the last second; 0 for any number.
    pub flood_limit: u32,
    /// How many milliseconds there are at least between two requests for a greatest rate that are heard of one leg; 0 for none.
    pub request_gap_ms: u64,
    /// How many milliseconds there are between two repeats of what a publisher is asked for; 0 for none. The filter repeats nothing.
    pub repeat_ms: u64,
    /// How many milliseconds count at most between two looks at the clock; 0 for any number. Who asks the clock bounds them.
    pub stall_ms: u64,
}

impl Rules {
    /// All is given as it comes.
    pub fn none() -> Rules
        ensures { result ≡ record {
          new_starts = false;
          strict_ssrc = true;
          resends = record { gap_ms = 0; share = 0 };
          entry_limit = 0;
          flood_limit = 0;
          request_gap_ms = 0;
          repeat_ms = 0;
          stall_ms = 0;
        } }
    {
        Rules {
            new_starts: false,
            strict_ssrc: true,
            resends: ResendBounds {
                gap_ms: 0,
                share: 0,
            },
            entry_limit: 0,
            flood_limit: 0,
            request_gap_ms: 0,
            repeat_ms: 0,
            stall_ms: 0,
        }
    }
}
