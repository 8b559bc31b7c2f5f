//! Where the endpoints' clients are, as a settings file spells it.

ghost use Rattle.std.specs.Prelude.{◌≡◌, ◌↔◌, ◌∷◌, ◌++◌, ◌/◌, [], Ok, IsTrue, IfErr, OnOk, MatchOption, MatchResult, length};
ghost use Rattle.addresses.specs.Clients.{AreSpelled, ClientFaults, FaultOfClient, IsApart, IsLearned, IsReachable, Spells, SpellsBound, SpellsClient, SpellsNoBound, SpellsNone, SpellsNoRtcp, SpellsNowhere, SpellsReachable, SpellsRtcp, client_at};

use crate::network::{Network, read_network};
use settings_toml::ClientText;
use std::alloc::Global;
use std::net::SocketAddr;

/// What stands in place of an address that is learned.
const LEARN: &str = "learn";

/// Where a unit listens.
#[derive(Clone, Copy, PartialEq, Eq)]
pub struct Listening {
    /// For all, or for all but RTCP.
    pub media: SocketAddr,
    /// For RTCP, if it has a port of its own.
    pub rtcp: Option<SocketAddr>,
}

/// Where the client is that an endpoint is, and whether it only listens.
#[derive(Clone, Copy)]
pub struct Client {
    pub location: Location,
    /// Whether the SSRC under which it sends is learned.
    pub learns_ssrc: bool,
    /// Whether it is present whatever it says.
    pub receive_only: bool,
}

/// Where a client is.
#[derive(Clone, Copy, PartialEq, Eq)]
pub enum Location {
    /// At these addresses.
    Fixed(Addresses),
    /// Where its datagrams come from (RFC 4961), anywhere or in this network.
    Learned(Option<Network>),
}

/// Where datagrams of a client come from and go to.
#[derive(Clone, Copy, PartialEq, Eq)]
pub struct Addresses {
    /// All but RTCP.
    pub media: SocketAddr,
    /// RTCP; the same unless it has a port of its own (RFC 3550, section 11).
    pub rtcp: SocketAddr,
}

impl Client {
    /// A client that has one address for all, and speaks for itself.
    pub fn at(address: SocketAddr) -> Client
        ensures { result ≡ client_at address }
    {
        Client {
            location: Location::Fixed(Addresses {
                media: address,
                rtcp: address,
            }),
            learns_ssrc: false,
            receive_only: false,
        }
    }
}

/// A key of an endpoint that says where its client is, or under which SSRC it sends.
#[derive(Clone, Copy, PartialEq, Eq)]
pub enum AddressKey {
    Address,
    LearnFrom,
    ReceiveOnly,
    RtcpAddress,
    Ssrc,
}

impl AddressKey {
    ghost use Rattle.std.specs.Prelude.{◌≡◌};
    ghost use Rattle.addresses.specs.Clients.{key_text};

    /// The key as the file has it.
    pub fn name(self) -> &'static str
        ensures { result.now ≡ key_text self }
    {
        match self {
            AddressKey::Address => "address",
            AddressKey::LearnFrom => "learn_from",
            AddressKey::ReceiveOnly => "receive_only",
            AddressKey::RtcpAddress => "rtcp_address",
            AddressKey::Ssrc => "ssrc",
        }
    }
}

/// Why texts say nothing of where clients are.
#[derive(Clone, Copy, PartialEq, Eq)]
pub enum ClientFault {
    NoMemory,
    /// The first wrong key of the endpoint with this number. It is missing when it is needed, stands where it can't, spells no address or
    /// network, or one that can't be reached.
    Endpoint(usize, AddressKey),
}

/// The clients that the endpoints' texts spell: an IP address and a port each, and one more for RTCP if there is such a text. Several may
/// have one address. Each can be reached by a unit that listens there.
pub fn read_clients(
    alloc: Global,
    listen: Listening,
    texts: &[ClientText],
) -> Result<Vec<Client>, ClientFault>
    ensures { MatchResult result (λ clients. AreSpelled ⟦<SocketAddr as PartialEq>⟧.eq listen
        texts.now (Ok clients.items)) (ClientFaults ⟦<SocketAddr as PartialEq>⟧.eq listen texts.now) }
{
    let mut clients = Vec::new(alloc);
    for text in texts {
        take_client(&mut clients, listen, text)?;
    }
    Ok(clients)
}

/// Appends the client that the texts of the next endpoint spell.
fn take_client(
    clients: &mut Vec<Client>,
    listen: Listening,
    text: &ClientText,
) -> Result<(), ClientFault>
    ensures ok { OnOk result ((client : _)
        × SpellsClient ⟦<SocketAddr as PartialEq>⟧.eq listen text.now client
        × (clients.new.items ≡ clients.old.items ++ client ∷ [])) }
    ensures err { IfErr result (FaultOfClient ⟦<SocketAddr as PartialEq>⟧.eq listen
        (length clients.old.items) text.now) }
{
    let number = clients.as_slice().len();
    match client_in(listen, text) {
        Ok(client) => match clients.push(client) {
            Ok(()) => Ok(()),
            Err(_) => Err(ClientFault::NoMemory),
        },
        Err(key) => Err(ClientFault::Endpoint(number, key)),
    }
}

/// The client that the texts of an endpoint spell; else the first key that is wrong.
pub(crate) fn client_in(listen: Listening, text: &ClientText) -> Result<Client, AddressKey>
    ensures { MatchResult result (SpellsClient ⟦<SocketAddr as PartialEq>⟧.eq listen text.now)
        (SpellsNone ⟦<SocketAddr as PartialEq>⟧.eq listen text.now) }
{
    if is_learned(&text.address) {
        learner_in(listen, text)
    } else {
        settled_in(listen, text)
    }
}

/// The client whose address is learned; else the first key that can't be said of one, or that spells no network. Its SSRC is said: by that it is
/// known who comes.
fn learner_in(listen: Listening, text: &ClientText) -> Result<Client, AddressKey>
    requires { IsLearned text.now.address }
    ensures { MatchResult result (SpellsClient ⟦<SocketAddr as PartialEq>⟧.eq listen text.now)
        (SpellsNone ⟦<SocketAddr as PartialEq>⟧.eq listen text.now) }
{
    let Some(within) = within_in(listen, &text.learn_from) else {
        return Err(AddressKey::LearnFrom);
    };
    if text.receive_only {
        return Err(AddressKey::ReceiveOnly);
    }
    if text.rtcp_address.is_some() {
        return Err(AddressKey::RtcpAddress);
    }
    if text.learns_ssrc {
        return Err(AddressKey::Ssrc);
    }
    Ok(Client {
        location: Location::Learned(within),
        learns_ssrc: false,
        receive_only: false,
    })
}

/// The client that has its address; else the first key that spells none that can be reached, or that is said of learning.
fn settled_in(listen: Listening, text: &ClientText) -> Result<Client, AddressKey>
    requires { ¬ (IsLearned text.now.address) }
    ensures { MatchResult result (SpellsClient ⟦<SocketAddr as PartialEq>⟧.eq listen text.now)
        (SpellsNone ⟦<SocketAddr as PartialEq>⟧.eq listen text.now) }
{
    let Some(media) = reachable_in(listen, &text.address) else {
        return Err(AddressKey::Address);
    };
    if text.learn_from.is_some() {
        return Err(AddressKey::LearnFrom);
    }
    let Some(rtcp) = rtcp_address_in(listen, &text.rtcp_address, media) else {
        return Err(AddressKey::RtcpAddress);
    };
    Ok(Client {
        location: Location::Fixed(Addresses { media, rtcp }),
        learns_ssrc: text.learns_ssrc,
        receive_only: text.receive_only,
    })
}

/// Whether the text says that the address is learned.
pub fn is_learned(text: &Option<String>) -> bool
    ensures { IsTrue result ↔ IsLearned text.now }
{
    match text {
        Some(text) => text.as_str() == LEARN,
        None => false,
    }
}

/// The network that an address is learned from: none if there is no text; `None` if the text spells none of the version that the
/// unit listens with.
fn within_in(listen: Listening, text: &Option<String>) -> Option<Option<Network>>
    ensures { MatchOption result (SpellsNoBound listen text.now) (SpellsBound listen text.now) }
{
    match text {
        Some(text) => match read_network(text.as_str()) {
            Some(network) => {
                if network.address.is_ipv4() == listen.media.is_ipv4() {
                    Some(Some(network))
                } else {
                    None
                }
            }
            None => None,
        },
        None => Some(None),
    }
}

/// The address that a text spells.
pub fn address_in(text: &Option<String>) -> Option<SocketAddr>
    ensures { MatchOption result ((address : _) → ¬ (Spells text.now address)) (Spells text.now) }
{
    match text {
        Some(text) => text.as_str().parse::<SocketAddr>().ok(),
        None => None,
    }
}

/// The address that a text spells, if a unit that listens there reaches it.
fn reachable_in(listen: Listening, text: &Option<String>) -> Option<SocketAddr>
    ensures { MatchOption result (SpellsNowhere ⟦<SocketAddr as PartialEq>⟧.eq listen text.now)
        (SpellsReachable ⟦<SocketAddr as PartialEq>⟧.eq listen text.now) }
{
    match address_in(text) {
        Some(address) => {
            if is_reachable(listen, address) {
                Some(address)
            } else {
                None
            }
        }
        None => None,
    }
}

/// The address that a text spells, if it can be reached; this one if there is no text.
fn rtcp_address_in(
    listen: Listening,
    text: &Option<String>,
    address: SocketAddr,
) -> Option<SocketAddr>
    ensures { MatchOption result
        (SpellsNoRtcp ⟦<SocketAddr as PartialEq>⟧.eq listen text.now)
        (SpellsRtcp ⟦<SocketAddr as PartialEq>⟧.eq listen text.now address) }
{
    match text {
        Some(_) => reachable_in(listen, text),
        None => Some(address),
    }
}

/// Whether a unit that listens there can send to this address: it has the same version of IP, a port and a host, and isn't where the unit
/// listens itself.
pub fn is_reachable(listen: Listening, address: SocketAddr) -> bool
    ensures { IsTrue result ↔ IsReachable ⟦<SocketAddr as PartialEq>⟧.eq listen address }
{
    address.is_ipv4() == listen.media.is_ipv4()
        && address.port() != 0
        && !address.ip().is_unspecified()
        && address != listen.media
        && is_apart(address, listen.rtcp)
}

/// Whether the address isn't the one for RTCP, if there is one.
fn is_apart(address: SocketAddr, rtcp: Option<SocketAddr>) -> bool
    ensures { IsTrue result ↔ IsApart ⟦<SocketAddr as PartialEq>⟧.eq address rtcp }
{
    match rtcp {
        Some(rtcp) => address != rtcp,
        None => true,
    }
}
