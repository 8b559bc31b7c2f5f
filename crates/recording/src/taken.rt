//! What a unit took in, of which a record has lines.

/// What a unit took in.
#[derive(Clone, Copy)]
pub enum Taken<'a> {
    /// Nothing of which a record has a line.
    Nothing,
    /// A leg was switched on or off.
    Select {
        leg: u16,
        on: bool,
    },
    /// A datagram of the endpoint with this number.
    Datagram {
        endpoint: u16,
        bytes: &'a [u8],
        origin: Origin<'a>,
    },
}

/// Where a datagram that was taken in is from.
#[derive(Clone, Copy)]
pub enum Origin<'a> {
    /// It is what came.
    Came,
    /// The unit made it, in the endpoint's name, of which one came last at this moment, in milliseconds, if one did.
    Made(Option<u64>),
    /// A policy made it of what came, which was this.
    Changed(&'a [u8]),
}
