//! What crosses to C and back: numbers of fixed width, side by side as the header has them.

/// A rate request by the parts of its word (RFC 5104, section 4.2.1.1).
#[repr(C)]
#[derive(Clone, Copy, Default)]
pub struct TmmbrRequest {
    /// The receiver that asks; any 32 bits.
    pub ssrc: u32,
    /// The rate is `mantissa * 2^exponent` bits per second. Below 64.
    pub exponent: u32,
    /// Below 131,072; 0 asks for no media at all.
    pub mantissa: u32,
    /// Bytes of header per packet, below 512.
    pub overhead: u32,
}

/// An entry of a certificate for a request that is announced, with a pair that it forbids and every
/// other announced one permits: so many packets and bits of net media in so many seconds (RFC 5104,
/// section 2.2).
#[repr(C)]
#[derive(Clone, Copy, Debug, Default, PartialEq, Eq)]
pub struct TmmbrKept {
    /// The upper 64 bits of the pair's packets, which are below 2^100.
    pub packets_high: u64,
    /// The lower 64 bits.
    pub packets_low: u64,
    /// The upper 64 bits of the pair's bits of net media, below 2^100.
    pub bits_high: u64,
    /// The lower 64 bits.
    pub bits_low: u64,
    /// The seconds of the pair, 1 to 16,383.
    pub seconds: u32,
    /// The request's place in the list of requests, from 0.
    pub place: u32,
}

/// An entry of a certificate for a request that isn't announced, with two announced ones that imply
/// it: `p` times the one and `q` times the other are at least as strict as `r` times this one. Each
/// number is below 65,536.
#[repr(C)]
#[derive(Clone, Copy, Debug, Default, PartialEq, Eq)]
pub struct TmmbrImplied {
    /// The request's place in the list of requests, from 0.
    pub place: u32,
    /// The place of the one.
    pub a: u32,
    /// The place of the other, which may be the one again.
    pub b: u32,
    /// How often the one counts.
    pub p: u32,
    /// How often the other counts.
    pub q: u32,
    /// How often this request counts; 0 proves nothing, and then the entry doesn't hold.
    pub r: u32,
}

/// What `tmmbr_announced` answers.
#[repr(C)]
#[derive(Clone, Copy)]
pub struct TmmbrAnswer {
    /// 0 if it is done; else the number of the refusal.
    pub fault: u32,
    /// The place of the request that is refused; 0 if none is.
    pub place: u32,
    /// How many kept entries there are, which is how many requests are announced; also if there is
    /// no room for them.
    pub kept: u32,
    /// How many implied entries there are; also if there is no room for them.
    pub implied: u32,
}

/// What `tmmbr_check` answers.
#[repr(C)]
#[derive(Clone, Copy)]
pub struct TmmbrVerdict {
    /// 0 if the certificate holds; else the number of the first condition that fails, or of the
    /// refusal.
    pub fault: u32,
    /// The least place where the condition fails, or of the request or entry that is refused; 0 if
    /// none is shown.
    pub place: u32,
}

/// What `tmmbr_set` answers.
#[repr(C)]
#[derive(Clone, Copy)]
pub struct TmmbrChange {
    /// 0 if it is done; else the number of the refusal.
    pub fault: u32,
    /// 1 if the announced set changed; else 0.
    pub changed: u32,
}

/// What `tmmbr_live` answers.
#[repr(C)]
#[derive(Clone, Copy)]
pub struct TmmbrLive {
    /// 0 if it is done; else the number of the refusal.
    pub fault: u32,
    /// How many requests are live; also if there is no room for them.
    pub count: u32,
}
