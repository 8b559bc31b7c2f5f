//! Where the seats are whose clients' SSRCs are learned.

ghost use Rattle.std.specs.Prelude.{◌≡◌, ◌++◌, IfOk, OnOk, map};
ghost use Rattle.std.specs.List.{list_any};
ghost use Rattle.addresses.specs.SeatPlaces.{addresses_at, seats_at};
ghost use Rattle.seats.specs.Seat.{vacant_seat};

use crate::address_book::endpoint_at;
use crate::clients::{Addresses, Client, Location};
use crate::endpoints_by_key::EndpointsByKey;
use seats::Seat;
use std::alloc::{AllocError, Global};
use std::net::SocketAddr;
use tmmbr_tuple::Ssrc;

/// Whether any of these clients' names is learned.
pub(crate) fn is_used(clients: &[Client]) -> bool
    ensures { result ≡ list_any (λ client. client.learns_ssrc) clients.now }
{
    clients.iter().any(|client| client.learns_ssrc)
}

/// Seats in which nobody sits yet.
pub(crate) fn empty_seats(alloc: Global, sources: &[Ssrc]) -> Result<Vec<Seat>, AllocError>
    ensures { IfOk result (λ seats. seats.items ≡ map vacant_seat sources.now) }
{
    sources
        .iter()
        .map(|source| Seat::empty(*source))
        .collect(alloc)
}

/// Where those seats are whose clients' names are learned.
pub(crate) fn places_in(
    alloc: Global,
    clients: &[Client],
) -> Result<EndpointsByKey<SocketAddr>, AllocError>
    ensures { IfOk result (λ places. places ≡ seats_at clients.now) }
{
    let mut places = EndpointsByKey::new(alloc);
    for (number, client) in clients.iter().enumerate() {
        push_places(&mut places, endpoint_at(number), *client)?;
    }
    Ok(places)
}

/// Puts there the addresses of a client whose name is learned.
fn push_places(
    places: &mut EndpointsByKey<SocketAddr>,
    endpoint: u16,
    client: Client,
) -> Result<(), AllocError>
    ensures { OnOk result (places.new ≡ places.old ++ addresses_at endpoint client) }
{
    if !client.learns_ssrc {
        return Ok(());
    }
    match client.location {
        Location::Fixed(Addresses { media, rtcp }) => {
            places.push(media, endpoint)?;
            places.push(rtcp, endpoint)
        }
        Location::Learned(_) => Ok(()),
    }
}
