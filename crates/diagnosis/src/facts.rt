//! What is known of a leg and of its ends.

use crate::flow::LegFlow;
use crate::sightings::Sighting;
use stats::ReceptionReport;

/// What is known of an endpoint. Moments are in milliseconds.
#[derive(Clone, Copy)]
pub struct EndpointFacts {
    pub is_present: bool,
    /// Whether it is present whatever it says (`receive_only`).
    pub only_listens: bool,
    /// When a datagram of it came last; `None` if none did.
    pub heard_ms: Option<u64>,
    pub sighting: Sighting,
}

/// What is known of a leg at a moment.
#[derive(Clone, Copy)]
pub struct LegFacts {
    /// The moment, in milliseconds.
    pub moment: u64,
    /// Whether the leg is selected.
    pub is_on: bool,
    pub publisher: EndpointFacts,
    pub subscriber: EndpointFacts,
    /// What went out on it of late.
    pub flow: LegFlow,
    /// What its subscriber reported of it last; `None` if it reported nothing.
    pub report: Option<ReceptionReport>,
    /// What the unit reported to its publisher last; `None` if it reported nothing.
    pub unit_report: Option<ReceptionReport>,
}
