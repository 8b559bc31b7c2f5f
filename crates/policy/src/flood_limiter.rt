//! How many datagrams of one endpoint are heard: so many a millisecond, and what wasn't used of the last second.

ghost use Rattle.std.specs.Prelude.{◌≡◌, Some};
ghost use Rattle.policy.specs.FloodLimiter.{bucket_with, has_room, level_at};

use std::alloc::{AllocError, Global};
use std::marker::Model;

/// What an endpoint could have sent, but didn't, is kept for so many milliseconds.
pub const BURST_MS: u64 = 1_000;

/// A bucket into which each datagram of an endpoint goes that is heard, and out of which so many run in each millisecond. There is room in
/// it for what runs out in `BURST_MS`.
#[derive(Clone, Copy, PartialEq, Eq)]
pub(crate) struct Bucket {
    /// When it was looked at last.
    pub(crate) moment: u64,
    /// How many datagrams were in it then.
    pub(crate) level: u64,
}

/// The bucket of each endpoint.
#[derive(Drop)]
pub struct FloodLimiter {
    limit: u32,
    buckets: Vec<Bucket>,
}

impl Model for FloodLimiter {
    ghost use Rattle.std.specs.Prelude.{ℕ, List};
    ghost use Rattle.policy.specs.declared.flood_limiter.Bucket.{Bucket};

    ghost Value = { ℕ × List Bucket };

    ghost view = { λ f. (f.limit, f.buckets.items) };
}

impl FloodLimiter {
    ghost use Rattle.std.specs.Prelude.{◌≡◌, IfOk, replicate, slice_get};
    ghost use Rattle.policy.specs.FloodLimiter.{buckets_with, empty_bucket, is_within};

    /// Nothing came of any of so many endpoints. So many datagrams of each will be heard a millisecond, and what it didn't send in
    /// `BURST_MS`; any number if that is 0.
    pub fn new(alloc: Global, endpoints: usize, limit: u32) -> Result<FloodLimiter, AllocError>
        ensures { IfOk result (λ f. f ≡ (limit, replicate endpoints empty_bucket)) }
    {
        let empty = Bucket {
            moment: 0,
            level: 0,
        };
        Ok(FloodLimiter {
            limit,
            buckets: vec![in alloc; empty; endpoints]?,
        })
    }

    /// Whether a datagram of this endpoint that comes at this moment, in milliseconds, is heard. If it is, it is counted.
    pub fn admit(&mut self, endpoint: u16, moment: u64) -> bool
        ensures heard { result ≡ is_within self.old.0 (slice_get self.old.1 endpoint) moment }
        ensures counted { self.new
            ≡ (self.old.0, buckets_with self.old.0 self.old.1 endpoint moment) }
    {
        let at = usize::from(endpoint);
        if at >= self.buckets.len() {
            return true;
        }
        let bucket = self.buckets[at];
        self.buckets[at] = bucket.with(self.limit, moment);
        self.limit == 0 || bucket.has_room(self.limit, moment)
    }
}

impl Bucket {
    /// How many datagrams are in it at this moment, if so many run out in a millisecond.
    fn level_at(self, limit: u32, moment: u64) -> u64
        ensures { result ≡ level_at limit self moment }
    {
        let since = moment.saturating_sub(self.moment);
        self.level
            .saturating_sub(u64::from(limit).saturating_mul(since))
    }

    /// Whether there is room for one more.
    fn has_room(self, limit: u32, moment: u64) -> bool
        ensures { result ≡ has_room limit self moment }
    {
        self.level_at(limit, moment) < u64::from(limit) * BURST_MS
    }

    /// What it is once a datagram more came.
    fn with(self, limit: u32, moment: u64) -> Bucket
        ensures { result ≡ bucket_with limit self moment }
    {
        let level = self.level_at(limit, moment);
        let level = if self.has_room(limit, moment) {
            level + 1
        } else {
            level
        };
        Bucket { moment, level }
    }
}
