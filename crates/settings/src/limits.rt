//! The limits of settings: how many of each there may be, and how great a number.

/// How many endpoints there may be.
pub const MAX_ENDPOINTS: usize = 256;

/// How many legs there may be.
pub const MAX_LEGS: usize = 4096;

/// How many threads may forward.
pub const MAX_WORKERS: u64 = 8;

/// How many packets a leg may keep for resending.
pub const MAX_RING: u64 = 512;

/// How few calls a desk may keep.
pub const LEAST_HISTORY: u64 = 128;

/// How many calls a desk may keep.
pub const MAX_HISTORY: u64 = 65_536;

/// The longest time that settings name, in milliseconds: a day.
pub const MAX_PERIOD_MS: u64 = 86_400_000;

/// In how many slots the reports of a period may go out.
pub const MAX_REPORT_SLOTS: u64 = 1000;

/// How many sources there are (RFC 3550, section 5.1).
pub const SSRCS: u64 = 1 << 32;
