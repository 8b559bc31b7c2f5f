//! The lines for people.

ghost use Rattle.std.specs.Prelude.{◌≡◌, ◌++◌, ◌⊎◌, [], codes, false, IfOk, IfSome, IsTrue};
ghost use Rattle.std.specs.String.{string_bytes};
ghost use Rattle.settings_toml.specs.SettingsFaults.{spot_of};
ghost use Rattle.settings_toml.specs.Advice.{bind_line, file_line, why_unbound, why_unreadable};
ghost use Rattle.settings_toml.specs.Noticed.{absent_of, are_formats_of, unknown_of};
ghost use Rattle.settings_toml.specs.Saying.{IsReason, IsSendable, SaysAt, SaysAtSpot, SaysMissing, SaysNoDocument, SaysOfKnown, SaysOfLine, SaysOfProblem, SaysOfValue, is_address_key, nobody_words, shared_words, spot_key};
ghost use Rattle.settings_toml.specs.Wanted.{wanted_words};

use crate::finding::{Found, Spotted, find, quoted, repeated, value_in};
use crate::lines::{spotted_line, unfound_line};
use crate::misspelt::names_advice;
use crate::noticed::{absent_end, are_formats, unknown_key};
use crate::reaching::why_unreachable;
use crate::settings_file::SettingsProblem;
use crate::settings_keys::Place;
use crate::wanted::{Wanted, counted, wanted_of, wanted_text};
use std::alloc::{AllocError, Global};
use std::io::ErrorKind;
use std::net::SocketAddr;

/// What is wrong with a settings file, and what may stand there. Nothing if memory is wanting, or the file can't be read.
pub fn settings_advice(
    alloc: Global,
    text: &str,
    problem: &SettingsProblem,
) -> Result<String, AllocError>
    ensures { IfOk result (λ line. SaysOfProblem ⟦<SocketAddr as PartialEq>⟧.eq text.now
        problem.now (string_bytes line)) }
{
    match problem {
        SettingsProblem::NoMemory | SettingsProblem::File => Ok(String::new(alloc)),
        SettingsProblem::Toml => toml_advice(alloc, text),
        SettingsProblem::Top(key) => place_advice(alloc, text, Place::Top(key.as_str())),
        SettingsProblem::Endpoint(number, key) => {
            place_advice(alloc, text, Place::Endpoint(*number, key.as_str()))
        }
        SettingsProblem::Leg(number, key) => {
            place_advice(alloc, text, Place::Leg(*number, key.as_str()))
        }
        SettingsProblem::SameSsrc => same_advice(alloc, text),
    }
}

/// Where a text stops to be TOML, and why.
fn toml_advice(alloc: Global, text: &str) -> Result<String, AllocError>
    ensures { IfOk result (λ line. SaysNoDocument (string_bytes line)) }
{
    match toml::table_from_slice(alloc, text.as_bytes()) {
        Ok(_) => Ok(String::new(alloc)),
        Err(error) => {
            let start = match error.span() {
                Some(span) => span.start,
                None => 0,
            };
            document_line(alloc, line_at(text, start), error.message())
        }
    }
}

/// That a line of the text isn't TOML, and why.
fn document_line(alloc: Global, number: usize, why: &str) -> Result<String, AllocError>
    ensures { IfOk result (λ line. SaysNoDocument (string_bytes line)) }
{
    format!(in alloc; "line {number}: no TOML: {why}\n")
}

/// The number of the line, from 1, in which this byte stands.
fn line_at(text: &str, place: usize) -> usize {
    let mut line: usize = 1;
    for (number, byte) in text.as_bytes().iter().enumerate() {
        if number >= place {
            return line;
        }
        if *byte == b'\n' {
            line = line.saturating_add(1);
        }
    }
    line
}

/// What is wrong at a key.
fn place_advice(alloc: Global, text: &str, place: Place<'_>) -> Result<String, AllocError>
    ensures { IfOk result (λ line. SaysAt ⟦<SocketAddr as PartialEq>⟧.eq text.now
        (spot_of place.entry) (string_bytes line)) }
{
    match wanted_of(place) {
        Some(wanted) => known_advice(alloc, text, place, wanted),
        None => names_advice(alloc, text, place, key_of(place)),
    }
}

/// What is wrong at a key that there is, and takes this.
fn known_advice(
    alloc: Global,
    text: &str,
    place: Place<'_>,
    wanted: Wanted,
) -> Result<String, AllocError>
    ensures { IfOk result (λ line. SaysOfKnown ⟦<SocketAddr as PartialEq>⟧.eq text.now
        (spot_of place.entry) wanted (absent_of text.now (spot_of place.entry))
        (string_bytes line)) }
{
    match absent_end(alloc, text, place)? {
        Some(count) => nobody_advice(alloc, text, place, count),
        None => value_advice(alloc, text, place, wanted),
    }
}

/// What is wrong at a key that takes this, and isn't a leg's end that is nobody.
fn value_advice(
    alloc: Global,
    text: &str,
    place: Place<'_>,
    wanted: Wanted,
) -> Result<String, AllocError>
    ensures { IfOk result (λ line. SaysOfValue ⟦<SocketAddr as PartialEq>⟧.eq text.now
        (spot_of place.entry) wanted (are_formats_of text.now (spot_of place.entry))
        (string_bytes line)) }
{
    if are_formats(alloc, text, place)? {
        spot_line(
            alloc,
            text,
            place,
            " has a payload type that rtpmap doesn't list",
        )
    } else {
        wanted_advice(alloc, text, place, wanted)
    }
}

/// That a leg's end is none of so many endpoints.
fn nobody_advice(
    alloc: Global,
    text: &str,
    place: Place<'_>,
    count: usize,
) -> Result<String, AllocError>
    ensures { IfOk result (λ line.
        SaysAtSpot (spot_of place.entry) (nobody_words count) (string_bytes line)) }
{
    let said = counted(
        alloc,
        " is no endpoint: the conference has ",
        count as u64,
        ", numbered from 0",
    )?;
    spot_line(alloc, text, place, said.as_str())
}

/// What is said of what stands at a key, in its line of the file if that is found.
fn spot_line(alloc: Global, text: &str, place: Place<'_>, said: &str) -> Result<String, AllocError>
    ensures { IfOk result (λ line.
        SaysAtSpot (spot_of place.entry) said.now (string_bytes line)) }
{
    match find(text, place) {
        Found::Key(spotted) => spotted_line(alloc, spotted.line, spotted.text, said),
        Found::Table(_) | Found::Nothing => unfound_line(alloc, key_of(place), said),
    }
}

/// What is wrong at a key that takes this.
fn wanted_advice(
    alloc: Global,
    text: &str,
    place: Place<'_>,
    wanted: Wanted,
) -> Result<String, AllocError>
    ensures { IfOk result (λ line. SaysOfValue ⟦<SocketAddr as PartialEq>⟧.eq text.now
        (spot_of place.entry) wanted false (string_bytes line)) }
{
    match find(text, place) {
        Found::Key(spotted) => match why_not(text, place, spotted.text) {
            Some(why) => unsendable_line(alloc, spotted, why),
            None => line_advice(alloc, text, place, spotted, wanted),
        },
        Found::Table(line) => missing_advice(alloc, text, place, line, wanted),
        Found::Nothing => missing_advice(alloc, text, place, 1, wanted),
    }
}

/// What is wrong in a line, if it isn't an address to which the unit can't send.
fn line_advice(
    alloc: Global,
    text: &str,
    place: Place<'_>,
    spotted: Spotted<'_>,
    wanted: Wanted,
) -> Result<String, AllocError>
    ensures { IfOk result (λ line. SaysOfValue ⟦<SocketAddr as PartialEq>⟧.eq text.now
        (spot_of place.entry) wanted false (string_bytes line)) }
{
    if is_sendable(text, place, spotted.text) {
        spotted_line(
            alloc,
            spotted.line,
            spotted.text,
            " is another endpoint's for RTCP alone",
        )
    } else {
        wrong_line(alloc, spotted, wanted)
    }
}

/// That nothing stands at a key, whose table begins in this line: that another key there may be misspelt, or that it is missing.
fn missing_advice(
    alloc: Global,
    text: &str,
    place: Place<'_>,
    number: usize,
    wanted: Wanted,
) -> Result<String, AllocError>
    ensures { IfOk result (λ line. SaysMissing (spot_of place.entry) wanted
        (unknown_of text.now (spot_of place.entry)) (string_bytes line)) }
{
    match unknown_key(alloc, text, place)? {
        Some(key) => names_advice(alloc, text, place, key.as_str()),
        None => missing_line(alloc, number, key_of(place), wanted),
    }
}

/// That what stands at a key isn't what the key takes.
fn wrong_line(alloc: Global, spotted: Spotted<'_>, wanted: Wanted) -> Result<String, AllocError>
    ensures { IfOk result (λ line.
        SaysOfLine (codes " is no " ++ wanted_words wanted) (string_bytes line)) }
{
    let wanted = wanted_text(alloc, wanted)?;
    let said = format!(in alloc; " is no {wanted}")?;
    spotted_line(alloc, spotted.line, spotted.text, said.as_str())
}

/// That nothing stands at a key, whose table begins in this line.
fn missing_line(
    alloc: Global,
    number: usize,
    key: &str,
    wanted: Wanted,
) -> Result<String, AllocError>
    ensures { IfOk result (λ line.
        SaysOfLine (codes " is missing: there is no " ++ wanted_words wanted) (string_bytes line)) }
{
    let wanted = wanted_text(alloc, wanted)?;
    let said = format!(in alloc; " is missing: there is no {wanted}")?;
    spotted_line(alloc, number, key, said.as_str())
}

/// Why a unit can't send to the address that stands in a line.
fn unsendable_line(alloc: Global, spotted: Spotted<'_>, why: &str) -> Result<String, AllocError>
    ensures { IfOk result (λ line.
        SaysOfLine (codes " is no address to send to: " ++ why.now) (string_bytes line)) }
{
    let said = format!(in alloc; " is no address to send to: {why}")?;
    spotted_line(alloc, spotted.line, spotted.text, said.as_str())
}

/// The key of a place.
fn key_of(place: Place<'_>) -> &str
    ensures { result.now ≡ spot_key (spot_of place.entry) }
{
    match place {
        Place::Top(key) => key,
        Place::Endpoint(_, key) => key,
        Place::Leg(_, key) => key,
        Place::Sources => "ssrc",
    }
}

/// Why the address that stands in a line can't be sent to, if it is one.
fn why_not(text: &str, place: Place<'_>, line: &str) -> Option<&'static str>
    ensures key { IfSome result (λ _. IsTrue (is_address_key (spot_of place.entry))) }
    ensures reason { IfSome result (λ why. IsReason ⟦<SocketAddr as PartialEq>⟧.eq why.now) }
{
    match place {
        Place::Endpoint(_, "address" | "rtcp_address") => {
            let address = address_in(line)?;
            why_unreachable(
                listen_in(text, "listen")?,
                listen_in(text, "listen_rtcp"),
                address,
            )
        }
        _ => None,
    }
}

/// Whether an address stands in a line to which the unit can send.
fn is_sendable(text: &str, place: Place<'_>, line: &str) -> bool
    ensures { IsTrue result → IsSendable ⟦<SocketAddr as PartialEq>⟧.eq (spot_of place.entry) }
{
    match place {
        Place::Endpoint(_, "address") => match (listen_in(text, "listen"), address_in(line)) {
            (Some(listen), Some(address)) => {
                match why_unreachable(listen, listen_in(text, "listen_rtcp"), address) {
                    Some(_) => false,
                    None => true,
                }
            }
            _ => false,
        },
        _ => false,
    }
}

/// Where the unit listens, by the key of that.
fn listen_in(text: &str, key: &str) -> Option<SocketAddr> {
    match find(text, Place::Top(key)) {
        Found::Key(spotted) => address_in(spotted.text),
        Found::Table(_) | Found::Nothing => None,
    }
}

/// The address that a line gives.
fn address_in(line: &str) -> Option<SocketAddr> {
    quoted(value_in(line))?.parse::<SocketAddr>().ok()
}

/// Which source is given twice.
fn same_advice(alloc: Global, text: &str) -> Result<String, AllocError>
    ensures { IfOk result (λ line.
        (string_bytes line ≡ []) ⊎ SaysOfLine shared_words (string_bytes line)) }
{
    match repeated(text) {
        Some(spotted) => spotted_line(
            alloc,
            spotted.line,
            spotted.text,
            " is another's: the unit, each endpoint and each leg have sources of their own",
        ),
        None => Ok(String::new(alloc)),
    }
}

/// The line for a file that can't be read.
pub fn file_advice(alloc: Global, file: &str, kind: ErrorKind) -> Result<String, AllocError>
    ensures { IfOk result (λ text. string_bytes text ≡ file_line file.now kind) }
{
    let why = why_unreadable(kind);
    format!(in alloc; "{file}: {why}\n")
}

/// Why a file can't be read.
fn why_unreadable(kind: ErrorKind) -> &'static str
    ensures { result.now ≡ why_unreadable kind }
{
    match kind {
        ErrorKind::NotFound => "there is no such file",
        ErrorKind::PermissionDenied => "it may not be read",
        ErrorKind::IsADirectory => "it is a folder",
        _ => "it can't be read",
    }
}

/// The line for an address at which a unit can't listen.
pub fn bind_advice(
    alloc: Global,
    address: SocketAddr,
    kind: ErrorKind,
) -> Result<String, AllocError>
    ensures { IfOk result (λ text. string_bytes text ≡ bind_line address kind) }
{
    let why = why_unbound(kind);
    format!(in alloc; "{address}: {why}\n")
}

/// Why a unit can't listen at an address: a taken port, a foreign address and a missing right are told apart.
fn why_unbound(kind: ErrorKind) -> &'static str
    ensures { result.now ≡ why_unbound kind }
{
    match kind {
        ErrorKind::AddrInUse => "somebody else listens there",
        ErrorKind::AddrNotAvailable => "it is no address of this machine",
        ErrorKind::PermissionDenied => "a right is missing: ports below 1024 are the system's",
        _ => "the system refuses it",
    }
}
