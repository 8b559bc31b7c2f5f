//! The counts that several threads keep together: a ledger of the calls that the desks recorded, and one
//! of the calls that the seats made.

ghost use Rattle.std.specs.Prelude.{◌≡◌, ℕ, ◌+◌, ◌<◌};

use std::marker::Brand;
use std::sync::ledger::{Book, Ledger, Share};

/// The ledger of the calls that a house's desks recorded.
pub trait DeskCalls: Ledger {
    /// How many milliseconds at least lie between PLIs that a desk sends upstream.
    ghost gap: { ℕ };

    /// How many milliseconds old a request may grow; 0 for any age.
    ghost request_ms: { ℕ };
}

impl DeskCalls for Brand {
    ghost gap = { 0 };

    ghost request_ms = { 0 };
}

/// The ledger of the calls that a house's seats made.
pub trait SeatCalls: Ledger {
    /// How many publishers the house has a desk for.
    ghost publishers: { ℕ };

    /// How many seats it was made with.
    ghost seats: { ℕ };
}

impl SeatCalls for Brand {
    ghost publishers = { 0 };

    ghost seats = { 0 };
}

/// Both books. As many calls were recorded as were made.
#[derive(Drop)]
pub struct Tally<D: DeskCalls, S: SeatCalls> {
    pub recorded: Book<D>,
    pub made: Book<S>,
    pub ghost even: { recorded.total ≡ made.total },
}

impl<D: DeskCalls, S: SeatCalls> Tally<D, S> {
    /// Counts one call in the desk's share and in the seat's.
    pub fn count(&mut self, desk: &mut Share<D>, seat: &mut Share<S>)
        requires desk { 0 < desk.old.parts }
        requires seat { 0 < seat.old.parts }
        ensures desk { desk.new.amount ≡ desk.old.amount + 1 }
        ensures desk_parts { desk.new.parts ≡ desk.old.parts }
        ensures seat { seat.new.amount ≡ seat.old.amount + 1 }
        ensures seat_parts { seat.new.parts ≡ seat.old.parts }
    {
        let Tally { recorded, made } = self;
        recorded.add(desk, 1);
        made.add(seat, 1);
    }
}
