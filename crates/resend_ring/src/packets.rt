//! The packets that a ring keeps.

use circular_buffer::HeapCircularBuffer;

/// The most packets that a ring may keep.
pub const MAX_CAPACITY: usize = 512;

/// How many sequence numbers there are (RFC 3550, section 5.1).
pub const SEQ_CYCLE: u64 = 1 << 16;

/// Packets from the newest to the oldest, each with its outgoing number.
pub type Packets<T, A> = HeapCircularBuffer<(u64, T), A>;
