//! Who is known by an address, and whose address is learned, of endpoints with these sources and these clients.

ghost use Rattle.std.specs.Prelude.{◌≡◌, ◌++◌, ◌/◌, IfOk, OnOk, map, slice_get};
ghost use Rattle.addresses.specs.Listeners.{new_listeners};
ghost use Rattle.addresses.specs.AddressBook.{endpoint_at, learners_of, origin_at, origins_at, places_of, senders_of, with_client};

use crate::clients::{Addresses, Client, Location};
use crate::learners::{Learner, Learners};
use crate::listeners::Listeners;
use crate::sender_table::{SenderTable, SourceAddress};
use std::alloc::{AllocError, Global};
use std::net::SocketAddr;
use tmmbr_tuple::Ssrc;

/// So much longer than its endpoint is present a seat is kept, in milliseconds: the unit looks at the time once in a turn.
const SPARE_MS: u64 = 1000;

/// Who sent a datagram, for endpoints with these sources and these clients, by their numbers. Of a client whose address is learned
/// that is by its seat.
pub fn senders_of(
    alloc: Global,
    sources: &[Ssrc],
    clients: &[Client],
    learners: &Learners,
) -> Result<SenderTable, AllocError>
    ensures { IfOk result (λ senders. senders ≡ senders_of sources.now clients.now learners.now) }
{
    let origins = origins_of(alloc, sources, clients, learners)?;
    SenderTable::new(alloc, origins.as_slice())
}

/// Where datagrams of each endpoint come from, with its number.
fn origins_of(
    alloc: Global,
    sources: &[Ssrc],
    clients: &[Client],
    learners: &Learners,
) -> Result<Vec<(SourceAddress, u16)>, AllocError>
    ensures { IfOk result (λ origins. origins.items
        ≡ senders_of sources.now clients.now learners.now) }
{
    let mut origins = Vec::new(alloc);
    for (number, client) in clients.iter().enumerate() {
        let endpoint = endpoint_at(number);
        let places = places_of(client, learners.learner(endpoint));
        push_origins(&mut origins, endpoint, source_at(sources, number), places)?;
    }
    Ok(origins)
}

/// The endpoint with this number; all beyond 65535 are that one.
pub fn endpoint_at(number: usize) -> u16
    ensures { result ≡ endpoint_at number }
{
    u16::try_from(number).unwrap_or(u16::MAX)
}

/// The source of the endpoint with this number, if it has one.
fn source_at(sources: &[Ssrc], number: usize) -> Option<Ssrc>
    ensures { result ≡ slice_get sources.now number }
{
    sources.get(number).copied()
}

/// The addresses of a client as far as they are known: for all but RTCP, and for RTCP.
fn places_of(client: &Client, learner: Option<Learner>) -> (Option<SocketAddr>, Option<SocketAddr>)
    ensures { result ≡ places_of client.now.location learner }
{
    match client.location {
        Location::Fixed(Addresses { media, rtcp }) => (Some(media), Some(rtcp)),
        Location::Learned(_) => match learner {
            Some(learner) => (learner.seat.rtp, learner.seat.rtcp),
            None => (None, None),
        },
    }
}

/// Appends where datagrams of an endpoint come from, if it has a source.
fn push_origins(
    origins: &mut Vec<(SourceAddress, u16)>,
    endpoint: u16,
    source: Option<Ssrc>,
    places: (Option<SocketAddr>, Option<SocketAddr>),
) -> Result<(), AllocError>
    ensures { OnOk result (origins.new.items
        ≡ origins.old.items ++ origins_at endpoint source places) }
{
    let Some(source) = source else {
        return Ok(());
    };
    push_origin(origins, endpoint, source, places.0)?;
    push_origin(origins, endpoint, source, places.1)
}

/// Appends where datagrams with this source come from, if that is known.
fn push_origin(
    origins: &mut Vec<(SourceAddress, u16)>,
    endpoint: u16,
    source: Ssrc,
    place: Option<SocketAddr>,
) -> Result<(), AllocError>
    ensures { OnOk result (origins.new.items
        ≡ origins.old.items ++ origin_at endpoint source place) }
{
    let Some(address) = place else {
        return Ok(());
    };
    let origin = SourceAddress {
        address,
        ssrc: source.0,
    };
    origins.push((origin, endpoint))?;
    Ok(())
}

/// The endpoints whose addresses are learned, for endpoints with these sources and these clients. A seat is kept as long as its
/// endpoint is present, which is for `timeout_ms` after it was heard, and a second longer, so that nobody takes it before.
pub fn learners_of(
    alloc: Global,
    sources: &[Ssrc],
    clients: &[Client],
    timeout_ms: u64,
) -> Result<Learners, AllocError>
    ensures { IfOk result (λ learners. learners
        ≡ learners_of sources.now clients.now timeout_ms) }
{
    let mut learners = Learners::new(alloc, timeout_ms.saturating_add(SPARE_MS));
    for (number, client) in clients.iter().enumerate() {
        let source = source_at(sources, number);
        push_client(&mut learners, endpoint_at(number), source, client)?;
    }
    Ok(learners)
}

/// Puts the endpoint with this number after the others: one that is learned if it has a source, and its client is.
fn push_client(
    learners: &mut Learners,
    endpoint: u16,
    source: Option<Ssrc>,
    client: &Client,
) -> Result<(), AllocError>
    ensures { OnOk result (learners.new
        ≡ with_client learners.old endpoint source client.now.location) }
{
    match (client.location, source) {
        (Location::Learned(within), Some(source)) => {
            learners.push_learner(endpoint, source.0, within)
        }
        _ => learners.push_other(),
    }
}

/// The endpoints that only listen, with a round of reports twice in the time after which who says nothing is gone.
pub fn listeners_of(
    alloc: Global,
    clients: &[Client],
    timeout_ms: u64,
) -> Result<Listeners, AllocError>
    ensures { IfOk result (λ listeners. listeners
        ≡ new_listeners (map (λ client. client.receive_only) clients.now) (timeout_ms / 2)) }
{
    let mut receive_only = Vec::new(alloc);
    for client in clients {
        receive_only.push(client.receive_only)?;
    }
    Listeners::new(alloc, receive_only.as_slice(), timeout_ms / 2)
}
