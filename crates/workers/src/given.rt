//! What a run is given from outside.

/// What the unit needs from outside, with a feed and its clock. There is a sink for each worker, by its number, and last one for the ingress.
#[derive(Drop)]
pub struct Outside<F: Drop, Snk: Drop, Clk: Drop, W: Drop> {
    pub feed: F,
    pub sinks: Vec<Snk>,
    pub clock: Clk,
    pub watch: W,
}
