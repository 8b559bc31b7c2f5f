//! The settings of `sfu replay` and `sfu serve`: a TOML table in a file.

ghost use Rattle.std.specs.Prelude.{◌≡◌, ◌⊎◌, IfOk, Some, codes, map, option_map, string_bytes};
ghost use Rattle.toml.specs.Data.{get_member};
ghost use Rattle.toml.specs.View.{table_view, view};
ghost use Rattle.settings_toml.specs.SettingsFile.{AreExtrasOf, ArePartsOf, bool_in, bounds_in, client_in, client_says, cname_in, integer_in, items_in, leg_in, sources_from, text_bytes, tick_in, text_in, text_of, texts_in, texts_of};
ghost use Rattle.settings_toml.specs.SettingsFaults.{TableGives, TextGives, earlier, fault_spot, problem_spot, spot_of};

use crate::bound_keys::{BoundKeys, bounds_at};
use crate::seat_names::{learns_ssrc, source_in};
use crate::settings_keys::{Place, first_misfit, items_at, items_in};
use crate::tick_key::tick_at;
use crate::values::{bool_at, bool_in, integer_at, integer_in, text_in, text_of, value_at};
use settings::{Extras, LegParts, Parts, Settings, SettingsFault};
use std::alloc::{AllocError, Global};
use toml::{Table, Value};

/// What a settings file says.
#[derive(Drop)]
pub struct FileSettings {
    /// The settings of the room.
    pub settings: Settings,
    /// Where the unit listens, as the file spells it.
    pub listen: Option<String>,
    /// Whether sources that begin anew are noticed, if the file says so.
    pub new_starts: Option<bool>,
    /// Whether feedback has to name the endpoint's own source, if the file says so.
    pub strict_ssrc: Option<bool>,
    /// What one client may cost the others.
    pub bounds: BoundKeys,
    /// How many milliseconds there are at least between two ticks; `TICK_MS` if the file says nothing.
    pub tick_ms: u64,
    /// Where it listens for RTCP, as the file spells it; where it listens for all if the file says nothing.
    pub listen_rtcp: Option<String>,
    /// What the file says of each endpoint's client, by the endpoint's number.
    pub clients: Vec<ClientText>,
}

/// What a settings file says of the client that an endpoint is.
#[derive(Drop)]
pub struct ClientText {
    /// What people call it.
    pub name: Option<String>,
    /// The canonical name of what it publishes, if it has one of its own (RFC 3550, section 6.5.1).
    pub cname: Option<String>,
    /// Where its datagrams come from and go to, as the file spells it; or that this is learned.
    pub address: Option<String>,
    /// The network from which an address may be learned, as the file spells it.
    pub learn_from: Option<String>,
    /// Where its RTCP comes from and goes to, as the file spells it; the same as all else if the file says nothing.
    pub rtcp_address: Option<String>,
    /// Whether the SSRC under which it sends is learned.
    pub learns_ssrc: bool,
    /// Whether it only listens, and is present whatever it says.
    pub receive_only: bool,
    /// What it publishes, for session descriptions: each payload type with its encoding.
    pub rtpmap: Vec<String>,
    /// Each payload type with the parameters of its format.
    pub fmtp: Vec<String>,
}

/// Why a text isn't settings: the first fault in the order of `Place`.
#[derive(Drop)]
pub enum SettingsProblem {
    /// There is no memory.
    NoMemory,
    /// The file can't be read.
    File,
    /// It is no TOML document.
    Toml,
    /// A key that isn't there, isn't known, or has a value of another kind or beyond its range.
    Top(String),
    /// Such a key of the endpoint of this number.
    Endpoint(usize, String),
    /// Such a key of the leg of this number; a leg's publisher also if it is its subscriber, or if an earlier leg has
    /// the same two endpoints.
    Leg(usize, String),
    /// Two of the unit, the endpoints and the legs have one source.
    SameSsrc,
}

impl From<AllocError> for SettingsProblem {
    ghost use Rattle.std.specs.Prelude.{◌≡◌};
    ghost use Rattle.settings_toml.specs.declared.settings_file.SettingsProblem.TheVariants.{NoMemory};

    ghost from_gives = { λ _ e. e ≡ NoMemory };

    fn from(_e: AllocError) -> SettingsProblem {
        SettingsProblem::NoMemory
    }
}

/// The settings that a text spells; else its first fault. Want of memory comes only if there is no fault before it.
pub fn read_settings(alloc: Global, text: &[u8]) -> Result<FileSettings, SettingsProblem>
    ensures { TextGives text.now result }
{
    match toml::table_from_slice(alloc, text) {
        Ok(table) => settings_of(alloc, &table),
        Err(error) if error.is_memory() => Err(SettingsProblem::NoMemory),
        Err(_) => Err(SettingsProblem::Toml),
    }
}

/// The settings that a table spells.
fn settings_of(alloc: Global, table: &Table) -> Result<FileSettings, SettingsProblem>
    ensures { TableGives (table_view table.now) result }
{
    let parts = parts_of(alloc, table)?;
    let extras = extras_of(alloc, table)?;
    let misfit = first_misfit(table);
    match Settings::new_with(alloc, &parts, &extras) {
        Ok(settings) => match misfit {
            Some(place) => Err(problem_at(alloc, place)),
            None => Ok(file_of(alloc, table, settings)?),
        },
        Err(fault) => match earlier(misfit, place_of(fault)) {
            Some(place) => Err(problem_at(alloc, place)),
            None => Err(SettingsProblem::NoMemory),
        },
    }
}

/// What a table says besides these settings of the room.
fn file_of(alloc: Global, table: &Table, settings: Settings) -> Result<FileSettings, AllocError>
    ensures settings { IfOk result (λ f. f.settings ≡ settings) }
    ensures listen { IfOk result (λ f. text_bytes f.listen
        ≡ text_in (get_member (codes "listen") (table_view table.now))) }
    ensures new_starts { IfOk result (λ f. f.new_starts
        ≡ bool_in (get_member (codes "new_starts") (table_view table.now))) }
    ensures strict_ssrc { IfOk result (λ f. f.strict_ssrc
        ≡ bool_in (get_member (codes "strict_ssrc") (table_view table.now))) }
    ensures bounds { IfOk result (λ f. f.bounds ≡ bounds_in (table_view table.now)) }
    ensures tick_ms { IfOk result (λ f. f.tick_ms ≡ tick_in (table_view table.now)) }
    ensures listen_rtcp { IfOk result (λ f. text_bytes f.listen_rtcp
        ≡ text_in (get_member (codes "listen_rtcp") (table_view table.now))) }
    ensures clients { IfOk result (λ f. map client_says f.clients.items
        ≡ map client_in (items_in (get_member (codes "endpoint") (table_view table.now)))) }
{
    Ok(FileSettings {
        settings,
        listen: text_in(alloc, value_at(table, "listen"))?,
        new_starts: bool_at(table, "new_starts"),
        strict_ssrc: bool_at(table, "strict_ssrc"),
        bounds: bounds_at(table),
        tick_ms: tick_at(table),
        listen_rtcp: text_in(alloc, value_at(table, "listen_rtcp"))?,
        clients: clients_of(alloc, items_at(table, "endpoint"))?,
    })
}

/// The earlier of the places that are there.
fn earlier<'a>(a: Option<Place<'a>>, b: Option<Place<'a>>) -> Option<Place<'a>>
    ensures { option_map spot_of result
        ≡ earlier (option_map spot_of a.entry) (option_map spot_of b.entry) }
{
    match (a, b) {
        (Some(a), Some(b)) => Some(if b < a { b } else { a }),
        (Some(place), None) | (None, Some(place)) => Some(place),
        (None, None) => None,
    }
}

/// Where the fault of the parts stands; want of memory stands nowhere.
fn place_of(fault: SettingsFault) -> Option<Place<'static>>
    ensures { option_map spot_of result ≡ fault_spot fault }
{
    match fault {
        SettingsFault::Top(key) => Some(Place::Top(key.name())),
        SettingsFault::Endpoint(number, key) => Some(Place::Endpoint(number, key.name())),
        SettingsFault::Leg(number, key) => Some(Place::Leg(number, key.name())),
        SettingsFault::SameSsrc => Some(Place::Sources),
        SettingsFault::NoMemory => None,
    }
}

/// The problem at a place; want of memory, if there is none for its key.
pub fn problem_at(alloc: Global, place: Place<'_>) -> SettingsProblem
    ensures { (result ≡ SettingsProblem.NoMemory)
        ⊎ (problem_spot result ≡ Some (spot_of place.entry)) }
{
    match place {
        Place::Top(key) => match String::from_str(alloc, key) {
            Ok(key) => SettingsProblem::Top(key),
            Err(_) => SettingsProblem::NoMemory,
        },
        Place::Endpoint(number, key) => match String::from_str(alloc, key) {
            Ok(key) => SettingsProblem::Endpoint(number, key),
            Err(_) => SettingsProblem::NoMemory,
        },
        Place::Leg(number, key) => match String::from_str(alloc, key) {
            Ok(key) => SettingsProblem::Leg(number, key),
            Err(_) => SettingsProblem::NoMemory,
        },
        Place::Sources => SettingsProblem::SameSsrc,
    }
}

/// What a table says of the room's settings.
pub(crate) fn parts_of(alloc: Global, table: &Table) -> Result<Parts, AllocError>
    ensures { IfOk result (ArePartsOf (table_view table.now)) }
{
    let unit_ssrc = integer_at(table, "unit_ssrc");
    Ok(Parts {
        workers: integer_at(table, "workers"),
        ring: integer_at(table, "ring"),
        history: integer_at(table, "history"),
        timeout_ms: integer_at(table, "timeout_ms"),
        report_ms: integer_at(table, "report_ms"),
        request_ms: integer_at(table, "request_ms"),
        pli_gap_ms: integer_at(table, "pli_gap_ms"),
        unit_ssrc,
        cname: text_in(alloc, value_at(table, "cname"))?,
        endpoints: sources_of(alloc, unit_ssrc, items_at(table, "endpoint"))?,
        legs: legs_of(alloc, items_at(table, "leg"))?,
    })
}

/// What it asks of the room beyond these.
pub(crate) fn extras_of(alloc: Global, table: &Table) -> Result<Extras, AllocError>
    ensures { IfOk result (AreExtrasOf (table_view table.now)) }
{
    Ok(Extras {
        report_slots: integer_at(table, "report_slots"),
        early_pictures: bool_at(table, "early_pictures"),
        leg_goodbyes: bool_at(table, "leg_goodbyes"),
        cnames: cnames_of(alloc, items_at(table, "endpoint"))?,
    })
}

/// The source of each endpoint of a unit with this source.
fn sources_of(
    alloc: Global,
    unit: Option<i64>,
    endpoints: &[Value],
) -> Result<Vec<Option<i64>>, AllocError>
    ensures { IfOk result (λ v. v.items ≡ sources_from unit 0 (map view endpoints.now)) }
{
    let mut sources = Vec::new(alloc);
    for (number, endpoint) in endpoints.iter().enumerate() {
        sources.push(source_in(unit, number, endpoint))?;
    }
    Ok(sources)
}

/// The name of whoever publishes each endpoint.
fn cnames_of(alloc: Global, endpoints: &[Value]) -> Result<Vec<Option<String>>, AllocError>
    ensures { IfOk result
        (λ v. map text_bytes v.items ≡ map (λ x. cname_in (view x)) endpoints.now) }
{
    let mut cnames = Vec::new(alloc);
    for endpoint in endpoints {
        cnames.push(text_in(alloc, endpoint.get("cname"))?)?;
    }
    Ok(cnames)
}

/// The parts of each leg.
fn legs_of(alloc: Global, legs: &[Value]) -> Result<Vec<LegParts>, AllocError>
    ensures { IfOk result (λ v. v.items ≡ map (λ x. leg_in (view x)) legs.now) }
{
    let mut parts = Vec::new(alloc);
    for leg in legs {
        parts.push(leg_in(leg))?;
    }
    Ok(parts)
}

/// What a leg's table says.
fn leg_in(leg: &Value) -> LegParts
    ensures { result ≡ leg_in (view leg.now) }
{
    LegParts {
        subscriber: integer_in(leg.get("subscriber")),
        publisher: integer_in(leg.get("publisher")),
        out_ssrc: integer_in(leg.get("out_ssrc")),
        first_seq: integer_in(leg.get("first_seq")),
        on: bool_in(leg.get("on")),
    }
}

/// What is said of each endpoint's client.
fn clients_of(alloc: Global, endpoints: &[Value]) -> Result<Vec<ClientText>, AllocError>
    ensures { IfOk result
        (λ v. map client_says v.items ≡ map (λ x. client_in (view x)) endpoints.now) }
{
    let mut clients = Vec::new(alloc);
    for endpoint in endpoints {
        clients.push(client_in(alloc, endpoint)?)?;
    }
    Ok(clients)
}

/// What an endpoint's table says of its client.
fn client_in(alloc: Global, endpoint: &Value) -> Result<ClientText, AllocError>
    ensures { IfOk result (λ c. client_says c ≡ client_in (view endpoint.now)) }
{
    Ok(ClientText {
        name: text_in(alloc, endpoint.get("name"))?,
        cname: text_in(alloc, endpoint.get("cname"))?,
        address: text_in(alloc, endpoint.get("address"))?,
        learn_from: text_in(alloc, endpoint.get("learn_from"))?,
        rtcp_address: text_in(alloc, endpoint.get("rtcp_address"))?,
        learns_ssrc: learns_ssrc(endpoint),
        receive_only: bool_in(endpoint.get("receive_only")).unwrap_or(false),
        rtpmap: texts_in(alloc, endpoint.get("rtpmap"))?,
        fmtp: texts_in(alloc, endpoint.get("fmtp"))?,
    })
}

/// The texts of a list; none if there is no list.
fn texts_in(alloc: Global, value: Option<&Value>) -> Result<Vec<String>, AllocError>
    ensures { IfOk result (λ texts. map string_bytes texts.items
        ≡ texts_in (option_map (λ v. view v.now) value.entry)) }
{
    match value {
        Some(value) => texts_of(alloc, items_in(value)),
        None => Ok(Vec::new(alloc)),
    }
}

/// The texts of these items.
fn texts_of(alloc: Global, items: &[Value]) -> Result<Vec<String>, AllocError>
    ensures { IfOk result (λ texts. map string_bytes texts.items ≡ texts_of (map view items.now)) }
{
    let mut texts = Vec::new(alloc);
    for item in items {
        texts.push(String::from_str(alloc, text_of(item))?)?;
    }
    Ok(texts)
}
