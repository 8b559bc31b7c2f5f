//! What one thread of the unit works with.

use rate_desk::{DeskSeat, SeatCalls};
use routes::{Naming, RouteReader};
use std::alloc::{AllocError, Global};

/// What one thread works with: a seat of the house, a reader of the routes, and a sink.
#[derive(Drop)]
pub(crate) struct Gear<C: SeatCalls, J: Naming, S: Drop> {
    pub(crate) seat: DeskSeat<C>,
    pub(crate) reader: RouteReader<J>,
    pub(crate) sink: S,
}

impl<C: SeatCalls, J: Naming, S: Drop> Gear<C, J, S> {
    /// The seat, which is handed back at the end.
    pub(crate) fn into_seat(self) -> DeskSeat<C> {
        let Gear { seat, .. } = self;
        seat
    }
}

/// The gear of each thread, by its number.
pub(crate) fn gears_of<C: SeatCalls, J: Naming, S: Drop>(
    alloc: Global,
    seats: Vec<DeskSeat<C>>,
    readers: Vec<RouteReader<J>>,
    sinks: Vec<S>,
) -> Result<Vec<Gear<C, J, S>>, AllocError> {
    let threads = seats.into_iter().zip(readers.into_iter().zip(sinks));
    threads
        .map(|(seat, (reader, sink))| Gear { seat, reader, sink })
        .collect(alloc)
}
