//! The parts of a room's settings, as they were found, and what may be asked of a room beyond them.

use std::alloc::{AllocError, Global};

/// What was found of the settings. A number is `None` if it is missing or of the wrong kind.
#[derive(Drop)]
pub struct Parts {
    /// Threads that forward, 1 to 8.
    pub workers: Option<i64>,
    /// Packets that a leg keeps for resending, 1 to 512.
    pub ring: Option<i64>,
    /// Calls that a desk keeps, 128 to 65,536.
    pub history: Option<i64>,
    /// Silence after which an endpoint leaves, in milliseconds, 1 to 86,400,000.
    pub timeout_ms: Option<i64>,
    /// Time between two reports, in milliseconds, 1 to 86,400,000.
    pub report_ms: Option<i64>,
    /// Age at which a request is given up, in milliseconds, 0 to 86,400,000; 0, which is never, if absent.
    pub request_ms: Option<i64>,
    /// Least time between two picture loss indications to a publisher, in milliseconds, 0 to 86,400,000.
    pub pli_gap_ms: Option<i64>,
    /// The unit's own source, 32 bits.
    pub unit_ssrc: Option<i64>,
    /// The unit's canonical name (RFC 3550, section 6.5.1), 1 to 255 bytes of ASCII. It is also said of what an endpoint without a
    /// name of its own publishes.
    pub cname: Option<String>,
    /// The source of each endpoint, 32 bits.
    pub endpoints: Vec<Option<i64>>,
    /// The legs.
    pub legs: Vec<LegParts>,
}

impl Parts {
    ghost use Rattle.std.specs.Prelude.{IfOk};
    ghost use Rattle.settings.specs.Example.{AreExamples};

    /// The parts of the first example's settings (`examples/room.toml`), before any endpoint and any leg. Tests and benchmarks begin
    /// with these, and put in what they are about.
    pub fn example(alloc: Global) -> Result<Parts, AllocError>
        ensures { IfOk result AreExamples }
    {
        Ok(Parts {
            workers: Some(2),
            ring: Some(8),
            history: Some(128),
            timeout_ms: Some(1000),
            report_ms: Some(60_000),
            request_ms: None,
            pli_gap_ms: Some(500),
            unit_ssrc: Some(9),
            cname: Some(String::from_str(alloc, "sfu")?),
            endpoints: Vec::new(alloc),
            legs: Vec::new(alloc),
        })
    }
}

/// What may be asked of a room beyond its `Parts`. Nothing of it has to be there.
#[derive(Drop)]
pub struct Extras {
    /// In how many slots of `report_ms` reports go out, 1 to 1,000; 1, which is all at once, if absent.
    pub report_slots: Option<i64>,
    /// Whether a leg that begins asks for a picture at once; false if absent.
    pub early_pictures: Option<bool>,
    /// Whether a leg's subscriber is told when its publisher is gone; false if absent.
    pub leg_goodbyes: Option<bool>,
    /// By the number of an endpoint the canonical name of whoever publishes it (RFC 3550, section 6.5.1), 1 to 255 bytes of ASCII; the
    /// unit's, if absent, as for each endpoint after the last one here. Endpoints of one participant have one name: their clock is one.
    pub cnames: Vec<Option<String>>,
}

impl Extras {
    ghost use Rattle.std.specs.Prelude.{◌≡◌};
    ghost use Rattle.settings.specs.Settings.{additions_of, no_additions};

    /// Nothing is asked for.
    pub fn none(alloc: Global) -> Extras
        ensures { additions_of result ≡ no_additions }
    {
        Extras {
            report_slots: None,
            early_pictures: None,
            leg_goodbyes: None,
            cnames: Vec::new(alloc),
        }
    }
}

/// What was found of a leg's settings.
#[derive(Clone, Copy)]
pub struct LegParts {
    /// The number of the endpoint that is sent to.
    pub subscriber: Option<i64>,
    /// The number of the endpoint whose packets these are, another one.
    pub publisher: Option<i64>,
    /// The source of what is sent on, 32 bits.
    pub out_ssrc: Option<i64>,
    /// The sequence number of the first packet sent on, 16 bits; 0 if absent.
    pub first_seq: Option<i64>,
    /// Whether the leg is selected from the start; true if absent.
    pub on: Option<bool>,
}
