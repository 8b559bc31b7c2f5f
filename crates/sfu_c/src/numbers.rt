//! What crosses to C and back.

/// What `sfu_open` answers.
#[repr(C)]
#[derive(Clone, Copy, PartialEq, Eq)]
pub struct SfuOpened {
    pub fault: u32,
    /// The number that the fault tells; else 0.
    pub number: u64,
}

/// What `sfu_next_out` answers.
#[repr(C)]
#[derive(Clone, Copy, PartialEq, Eq)]
pub struct SfuNext {
    pub fault: u32,
    /// The endpoint that the datagram goes to; 0 if there is none.
    pub endpoint: u32,
    /// How many bytes the datagram has; 0 if there is none.
    pub size: usize,
}

/// A rate request by the parts of its word (RFC 5104, section 4.2.1.1).
#[repr(C)]
#[derive(Clone, Copy, Default, PartialEq, Eq)]
pub struct SfuRequest {
    pub ssrc: u32,
    pub exponent: u32,
    pub mantissa: u32,
    pub overhead: u32,
}

/// What `sfu_announced` answers.
#[repr(C)]
#[derive(Clone, Copy, PartialEq, Eq)]
pub struct SfuAnnounced {
    pub fault: u32,
    /// How many requests there are; 0 if there is no such endpoint.
    pub count: usize,
}

/// An entry of a certificate for a request that is announced, with a pair that it forbids and every other announced one permits: so
/// many packets and bits of net media in so many seconds (RFC 5104, section 2.2).
#[repr(C)]
#[derive(Clone, Copy, Default, PartialEq, Eq)]
pub struct SfuKept {
    /// The upper 64 bits of the pair's packets.
    pub packets_high: u64,
    /// The lower 64 bits.
    pub packets_low: u64,
    /// The upper 64 bits of the pair's bits of net media.
    pub bits_high: u64,
    /// The lower 64 bits.
    pub bits_low: u64,
    pub seconds: u32,
    /// The request's place among the live ones, from 0.
    pub place: u32,
}

/// An entry for a request that isn't announced, with two announced ones that imply it: `p` times the one and `q` times the other are
/// at least as strict as `r` times this one.
#[repr(C)]
#[derive(Clone, Copy, Default, PartialEq, Eq)]
pub struct SfuImplied {
    /// The request's place among the live ones, from 0.
    pub place: u32,
    /// The place of the one.
    pub a: u32,
    /// The place of the other, which may be the one again.
    pub b: u32,
    pub p: u32,
    pub q: u32,
    pub r: u32,
}

/// What `sfu_certified` answers.
#[repr(C)]
#[derive(Clone, Copy, PartialEq, Eq)]
pub struct SfuCertified {
    pub fault: u32,
    /// How many requests are live; 0 if there is no such endpoint.
    pub live: usize,
    /// How many of them are announced; 0 if there is no such endpoint.
    pub kept: usize,
    /// How many aren't; 0 if there is no such endpoint.
    pub implied: usize,
}

/// What `sfu_beyond` answers.
#[repr(C)]
#[derive(Clone, Copy, PartialEq, Eq)]
pub struct SfuBeyond {
    pub fault: u32,
    /// How many entries were passed over; 0 if the slot holds no conference.
    pub entries: u64,
}

/// What `sfu_waiting` answers.
#[repr(C)]
#[derive(Clone, Copy, PartialEq, Eq)]
pub struct SfuWaiting {
    pub fault: u32,
    pub tasks: usize,
    pub jobs: usize,
    pub hands: usize,
}
