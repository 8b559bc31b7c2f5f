//! The settings of `sfu serve`: those of the room, and where the unit and its endpoints are.

ghost use Rattle.std.specs.Prelude.{◌≡◌, IfErr, IfOk, IfSome};
ghost use Rattle.addresses.specs.ServedFile.{GivesPlaces, IsPlacedFault, IsPlacedOr, IsServedFault, ListensApart, PlacesFile, rules_in};

use crate::clients::{
    AddressKey, Client, ClientFault, Listening, address_in, client_in, read_clients,
};
use crate::mixed::mixed_place;
use policy::{ResendBounds, Rules};
use settings::Settings;
use settings_toml::{
    BoundKeys, ClientText, FileSettings, Place, SettingsProblem, items_at, learns_ssrc, problem_at,
    read_settings,
};
use std::alloc::Global;
use std::net::SocketAddr;
use toml::{Table, Value};

/// What a settings file says to a unit that listens.
#[derive(Drop)]
pub struct ServedSettings {
    /// The settings of the room.
    pub settings: Settings,
    /// Where the unit listens.
    pub listen: Listening,
    /// What of a datagram is looked at before the machine hears it, and how much of a stall counts.
    pub rules: Rules,
    /// How many milliseconds there are at least between two ticks.
    pub tick_ms: u64,
    /// Where the clients of its endpoints are.
    pub clients: Vec<Client>,
    /// What the file says of each client.
    pub texts: Vec<ClientText>,
}

/// The settings that a text spells, with all addresses; else its first fault; an address that is missing, is none or can't be
/// reached is a fault of its key. Behind all these faults come addresses and formats that don't go together (`mixed_place`).
pub fn read_served(alloc: Global, text: &[u8]) -> Result<ServedSettings, SettingsProblem>
    ensures ok { IfOk result (GivesPlaces ⟦<SocketAddr as PartialEq>⟧.eq text.now) }
    ensures err { IfErr result (IsServedFault text.now) }
{
    match read_settings(alloc, text) {
        Ok(file) => placed(alloc, file),
        Err(problem) => Err(first_problem(alloc, text, problem)),
    }
}

/// The same settings with their addresses.
#[tactic(auto, using(crate::proofs::ServedLemmas::placed_fault))]
fn placed(alloc: Global, file: FileSettings) -> Result<ServedSettings, SettingsProblem>
    ensures ok { IfOk result (PlacesFile ⟦<SocketAddr as PartialEq>⟧.eq file) }
    ensures err { IfErr result IsPlacedFault }
{
    let Some(media) = address_in(&file.listen) else {
        return Err(problem_at(alloc, Place::Top("listen")));
    };
    let Some(rtcp) = apart_in(media, &file.listen_rtcp) else {
        return Err(problem_at(alloc, Place::Top("listen_rtcp")));
    };
    let listen = Listening { media, rtcp };
    match read_clients(alloc, listen, file.clients.as_slice()) {
        Ok(clients) => match mixed_place(clients.as_slice(), file.clients.as_slice()) {
            Some(place) => Err(problem_at(alloc, place)),
            None => Ok(ServedSettings {
                settings: file.settings,
                listen,
                rules: rules_in(file.new_starts, file.strict_ssrc, file.bounds),
                tick_ms: file.tick_ms,
                clients,
                texts: file.clients,
            }),
        },
        Err(ClientFault::NoMemory) => Err(SettingsProblem::NoMemory),
        Err(ClientFault::Endpoint(number, key)) => {
            Err(problem_at(alloc, Place::Endpoint(number, key.name())))
        }
    }
}

/// What a file says of the rules. If it says nothing, sources that begin anew go unnoticed, and feedback has to name the endpoint's own source.
/// It also says what one client may cost the others, how often a publisher is asked again, and how much of a stall counts.
fn rules_in(new_starts: Option<bool>, strict_ssrc: Option<bool>, bounds: BoundKeys) -> Rules
    ensures { result ≡ rules_in new_starts strict_ssrc bounds }
{
    Rules {
        new_starts: new_starts.unwrap_or(false),
        strict_ssrc: strict_ssrc.unwrap_or(true),
        resends: ResendBounds {
            gap_ms: bounds.resend_gap_ms,
            share: bounds.resend_share,
        },
        entry_limit: bounds.entry_limit,
        flood_limit: bounds.flood_limit,
        request_gap_ms: bounds.request_gap_ms,
        repeat_ms: bounds.repeat_ms,
        stall_ms: bounds.stall_ms,
    }
}

/// Where RTCP is listened for apart, if a text says so; `None` if the text spells no address, or one of the other version of IP.
fn apart_in(media: SocketAddr, text: &Option<String>) -> Option<Option<SocketAddr>>
    ensures { IfSome result (ListensApart media text.now) }
{
    match text {
        None => Some(None),
        Some(text) => match text.as_str().parse::<SocketAddr>() {
            Ok(address) => {
                if address.is_ipv4() == media.is_ipv4() {
                    Some(Some(address))
                } else {
                    None
                }
            }
            Err(_) => None,
        },
    }
}

/// The problem, or a fault of an address that comes before it in the order of the keys.
#[tactic(auto, using(crate::proofs::ServedLemmas::placed_or))]
fn first_problem(alloc: Global, text: &[u8], problem: SettingsProblem) -> SettingsProblem
    ensures { IsPlacedOr problem result }
{
    let Ok(table) = toml::table_from_slice(alloc, text) else {
        return problem;
    };
    match (misplaced(alloc, &table), place_of(&problem)) {
        (Some(place), Some(other)) if place < other => problem_at(alloc, place),
        _ => problem,
    }
}

/// Where a problem stands; want of memory and what is no TOML document stand nowhere.
fn place_of(problem: &SettingsProblem) -> Option<Place<'_>> {
    match problem {
        SettingsProblem::NoMemory | SettingsProblem::File | SettingsProblem::Toml => None,
        SettingsProblem::Top(key) => Some(Place::Top(key.as_str())),
        SettingsProblem::Endpoint(number, key) => Some(Place::Endpoint(*number, key.as_str())),
        SettingsProblem::Leg(number, key) => Some(Place::Leg(*number, key.as_str())),
        SettingsProblem::SameSsrc => Some(Place::Sources),
    }
}

/// The first key of a table that says wrongly where somebody is.
fn misplaced(alloc: Global, table: &Table) -> Option<Place<'static>> {
    let listen = copied(alloc, table.get("listen"));
    let Some(media) = address_in(&listen) else {
        return Some(Place::Top("listen"));
    };
    let listen_rtcp = copied(alloc, table.get("listen_rtcp"));
    if table.contains_key("listen_rtcp") && listen_rtcp.is_none() {
        return Some(Place::Top("listen_rtcp"));
    }
    let Some(rtcp) = apart_in(media, &listen_rtcp) else {
        return Some(Place::Top("listen_rtcp"));
    };
    for (number, endpoint) in items_at(table, "endpoint").iter().enumerate() {
        if let Some(key) = misplaced_key(alloc, Listening { media, rtcp }, endpoint) {
            return Some(Place::Endpoint(number, key.name()));
        }
    }
    None
}

/// The first such key of an endpoint's table.
fn misplaced_key(alloc: Global, listen: Listening, endpoint: &Value) -> Option<AddressKey> {
    let text = ClientText {
        name: None,
        cname: None,
        address: copied(alloc, endpoint.get("address")),
        learn_from: copied(alloc, endpoint.get("learn_from")),
        rtcp_address: copied(alloc, endpoint.get("rtcp_address")),
        learns_ssrc: learns_ssrc(endpoint),
        receive_only: truth_of(endpoint.get("receive_only")),
        rtpmap: Vec::new(alloc),
        fmtp: Vec::new(alloc),
    };
    client_in(listen, &text).err()
}

/// A copy of the text that a value is. One that memory is wanting for is an empty one, which spells nothing.
fn copied(alloc: Global, value: Option<&Value>) -> Option<String> {
    let text = value?.as_str()?;
    match String::from_str(alloc, text) {
        Ok(copy) => Some(copy),
        Err(_) => Some(String::new(alloc)),
    }
}

/// The truth value that a value is; false if it is none.
fn truth_of(value: Option<&Value>) -> bool {
    match value {
        Some(value) => value.as_bool().unwrap_or(false),
        None => false,
    }
}
