//! What settings are refused for though each key has its value: an address that is another's for RTCP alone, a format of no listed payload type, and
//! an SSRC that is learned at another's address.

ghost use Rattle.std.specs.Prelude.{◌≡◌, option_map, position};
ghost use Rattle.std.specs.List.{list_any};
ghost use Rattle.addresses.specs.Mixed.{clients_there, first_taken, has_rtcp_alone, is_at, is_mixed, is_odd, is_taken, meets, mixed_spot};
ghost use Rattle.settings_toml.specs.SettingsFaults.{spot_of};

use crate::clients::{Client, Location};
use settings_toml::{ClientText, Place, has_stray};
use std::net::SocketAddr;

/// Where the first such fault of these clients and their texts stands.
pub(crate) fn mixed_place(clients: &[Client], texts: &[ClientText]) -> Option<Place<'static>>
    ensures { option_map spot_of result
        ≡ mixed_spot ⟦<SocketAddr as PartialEq>⟧.eq clients.now texts.now }
{
    match first_mixed(clients) {
        Some(number) => Some(Place::Endpoint(number, "address")),
        None => match first_odd(texts) {
            Some(number) => Some(Place::Endpoint(number, "fmtp")),
            None => match first_taken(clients) {
                Some(number) => Some(Place::Endpoint(number, "ssrc")),
                None => None,
            },
        },
    }
}

/// The first client whose SSRC is learned at an address where another client is, too. Nobody could say of a datagram from there whose it is.
fn first_taken(clients: &[Client]) -> Option<usize>
    ensures { result ≡ first_taken ⟦<SocketAddr as PartialEq>⟧.eq clients.now }
{
    clients.iter().position(|client| is_taken(clients, *client))
}

/// Whether the SSRC of a client is learned, and it isn't the only one at its addresses.
fn is_taken(clients: &[Client], client: Client) -> bool
    ensures { result ≡ is_taken ⟦<SocketAddr as PartialEq>⟧.eq clients.now client }
{
    client.learns_ssrc && clients_there(clients, client.location) > 1
}

/// How many clients are at one of these addresses.
fn clients_there(clients: &[Client], location: Location) -> usize
    ensures { result ≡ clients_there ⟦<SocketAddr as PartialEq>⟧.eq clients.now location }
{
    clients
        .iter()
        .filter(|client| meets(client.location, location))
        .count()
}

/// Whether both have an address in common.
fn meets(location: Location, other: Location) -> bool
    ensures { result ≡ meets ⟦<SocketAddr as PartialEq>⟧.eq location other }
{
    match location {
        Location::Fixed(addresses) => {
            is_at(addresses.media, other) || is_at(addresses.rtcp, other)
        }
        Location::Learned(_) => false,
    }
}

/// Whether this address is one of these.
fn is_at(address: SocketAddr, location: Location) -> bool
    ensures { result ≡ is_at ⟦<SocketAddr as PartialEq>⟧.eq address location }
{
    match location {
        Location::Fixed(addresses) => address == addresses.media || address == addresses.rtcp,
        Location::Learned(_) => false,
    }
}

/// The first client of which a format has the payload type of no encoding.
fn first_odd(texts: &[ClientText]) -> Option<usize>
    ensures { result ≡ position is_odd texts.now }
{
    texts.iter().position(|text| is_odd(text))
}

/// Whether one of its formats has the payload type of none of its encodings.
fn is_odd(text: &ClientText) -> bool
    ensures { result ≡ is_odd text.now }
{
    has_stray(text.rtpmap.as_slice(), text.fmtp.as_slice())
}

/// The first client whose address is another's for RTCP alone. Nobody could say of a datagram from there whose it is.
fn first_mixed(clients: &[Client]) -> Option<usize>
    ensures { result ≡ position
        (λ client. is_mixed ⟦<SocketAddr as PartialEq>⟧.eq clients.now client.location) clients.now }
{
    clients
        .iter()
        .position(|client| is_mixed(clients, client.location))
}

/// Whether a client here has its address, and some client has its RTCP alone there.
fn is_mixed(clients: &[Client], location: Location) -> bool
    ensures { result ≡ is_mixed ⟦<SocketAddr as PartialEq>⟧.eq clients.now location }
{
    match location {
        Location::Fixed(addresses) => is_rtcp_alone(clients, addresses.media),
        Location::Learned(_) => false,
    }
}

/// Whether some client has its RTCP alone at this address.
fn is_rtcp_alone(clients: &[Client], address: SocketAddr) -> bool
    ensures { result ≡ list_any (λ client. has_rtcp_alone ⟦<SocketAddr as PartialEq>⟧.eq address client.location) clients.now }
{
    clients
        .iter()
        .any(|client| has_rtcp_alone(address, client.location))
}

/// Whether RTCP of a client here, and nothing else, comes from this address.
fn has_rtcp_alone(address: SocketAddr, location: Location) -> bool
    ensures { result ≡ has_rtcp_alone ⟦<SocketAddr as PartialEq>⟧.eq address location }
{
    match location {
        Location::Fixed(addresses) => addresses.rtcp == address && addresses.media != address,
        Location::Learned(_) => false,
    }
}
