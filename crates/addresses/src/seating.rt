//! The seats whose clients' SSRCs are learned, by the addresses of these clients.

ghost use Rattle.std.specs.Prelude.{◌≡◌, [], false};
ghost use Rattle.seats.specs.Exchange.{IsHeardAs};
ghost use Rattle.seats.specs.declared.seat.Whose.TheVariants.{Clients};

use crate::clients::Client;
use crate::directory::Directory;
use crate::endpoints_by_key::{EndpointsByKey, Occupants};
use crate::seat_places::{empty_seats, is_used, places_in};
use seats::{Names, Seat, Whose, heard_as};
use settings::Settings;
use std::alloc::{AllocError, Global};
use std::net::SocketAddr;

/// So much longer than its endpoint is present a client keeps its name, in milliseconds: the unit looks at the time once in a turn.
const SPARE_MS: u64 = 1000;

/// The seats whose clients' names are learned, and what is known of each of these clients.
#[derive(Drop)]
pub struct Seating<'a> {
    settings: &'a Settings,
    /// Where threads that send see under which names clients are told of themselves.
    directory: &'a Directory,
    /// Whose seat an address is.
    places: EndpointsByKey<SocketAddr>,
    /// The seat of each endpoint, by its number.
    seats: Vec<Seat>,
    /// So long a client keeps its name that sends nothing under it, in milliseconds.
    keep_ms: u64,
    /// Whether any client's name is learned.
    is_used: bool,
    ghost unused: { is_used ≡ false → places ≡ [] },
}

impl<'a> Seating<'a> {
    ghost use Rattle.std.specs.Prelude.{◌≡◌, ◌⊎◌, ℕ, IfOk, map, slice_get};
    ghost use Rattle.addresses.specs.Seating.{Hears, HearsAt, first_seats, seats_left, seats_of, seats_with};

    /// The seats of a unit of these settings, with these clients. Nobody was heard yet.
    pub fn new(
        alloc: Global,
        settings: &'a Settings,
        clients: &[Client],
        directory: &'a Directory,
    ) -> Result<Seating<'a>, AllocError>
        ensures { IfOk result
            (λ seating. seats_of seating ≡ first_seats settings.now clients.now) }
    {
        Ok(Seating {
            settings,
            directory,
            places: places_in(alloc, clients)?,
            seats: empty_seats(alloc, settings.endpoints())?,
            keep_ms: settings.timeout_ms().saturating_add(SPARE_MS),
            is_used: is_used(clients),
        })
    }

    /// A datagram came from this address at this moment. If that is a seat's, it is learned which names the client has, and what is heard of the
    /// datagram is written over it, unless it is nobody's. Any other one stays as it is.
    pub fn hear(&mut self, from: SocketAddr, datagram: &mut [u8], moment: u64) -> Whose
        ensures { Hears ⟦<SocketAddr as PartialEq>⟧.eq (seats_of self.old) (seats_of self.new) from
            datagram.old datagram.new moment result }
    {
        if !self.is_used {
            return Whose::Clients;
        }
        match self.places.at(from) {
            Some(Occupants::Alone(endpoint)) => self.hear_at(endpoint, datagram, moment),
            Some(Occupants::Several) => Whose::Clients,
            None => Whose::Clients,
        }
    }

    /// The client of this endpoint's seat said goodbye.
    pub fn left(&mut self, endpoint: u16)
        ensures { seats_of self.new ≡ seats_left (seats_of self.old) endpoint }
    {
        let Some(seat) = self.seat(endpoint) else {
            return;
        };
        self.sit(endpoint, seat.left());
    }

    /// A datagram came from the address of this endpoint's seat.
    fn hear_at(&mut self, endpoint: u16, datagram: &mut [u8], moment: u64) -> Whose
        ensures { HearsAt (seats_of self.old) (seats_of self.new) endpoint
            (slice_get self.old.seats.items endpoint) datagram.old datagram.new moment result }
    {
        let Some(seat) = self.seat(endpoint) else {
            return Whose::Clients;
        };
        let until_ms = moment.saturating_add(self.keep_ms);
        let arrival = seat.arrive(self.settings, datagram, moment, until_ms);
        let kept = self.kept(endpoint, seat, arrival.seat);
        self.sit(endpoint, kept);
        hear_if(arrival.whose, kept.names, datagram);
        arrival.whose
    }

    /// The seat of this endpoint.
    fn seat(&self, endpoint: u16) -> Option<Seat>
        ensures { result ≡ slice_get self.now.seats.items endpoint }
    {
        self.seats.get(usize::from(endpoint)).copied()
    }

    /// A seat as it is from now on; as it was, if that can't be shown just now to those who send.
    fn kept(&self, endpoint: u16, before: Seat, after: Seat) -> Seat
        ensures either { (result ≡ after) ⊎ (result ≡ before) }
        ensures same { after.names ≡ before.names → result ≡ after }
    {
        if after.names == before.names || self.directory.show(endpoint, after.names) {
            after
        } else {
            before
        }
    }

    /// This is known of a seat from now on.
    fn sit(&mut self, endpoint: u16, seat: Seat)
        ensures { seats_of self.new ≡ seats_with (seats_of self.old) endpoint seat }
    {
        let at = usize::from(endpoint);
        if at < self.seats.len() {
            self.seats[at] = seat;
        }
    }
}

/// Writes over a datagram what is heard of it, if it is that of the client with these names.
fn hear_if(whose: Whose, names: Names, datagram: &mut [u8])
    ensures heard { whose ≡ Clients → IsHeardAs names datagram.old datagram.new }
    ensures nobodys { (whose ≡ Clients → ⊥) → datagram.new ≡ datagram.old }
{
    match whose {
        Whose::Clients => heard_as(names, datagram),
        Whose::Ours | Whose::Others => {}
    }
}
