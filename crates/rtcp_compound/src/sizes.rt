//! How long the parts of a packet are, in bytes.

/// The length of a header in bytes, and of a word.
pub const WORD_BYTES: usize = 4;
/// The length of a source: all that a receiver report has before its blocks (RFC 3550, section 6.4.2).
pub const SOURCE_BYTES: usize = 4;
/// The length of what a sender report has before its blocks: its source, times and counts (RFC 3550, section 6.4.1).
pub const SENDER_BYTES: usize = 24;
/// The length of a report block (RFC 3550, section 6.4.1).
pub const BLOCK_BYTES: usize = 24;
