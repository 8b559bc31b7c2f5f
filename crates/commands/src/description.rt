//! `sfu sdp FILE ENDPOINT..`: what endpoints receive, as a session description.

ghost use Rattle.std.specs.Prelude.{◌≢◌, ◌≡◌, ◌<◌, IfOk, IsTrue};
ghost use Rattle.std.specs.Io.KnownBytes.{Keeps};
ghost use Rattle.cli.specs.Statuses.{SaysWhy};
ghost use Rattle.commands.specs.Describing.{is_sent_a_leg};
ghost use Rattle.settings_toml.specs.SettingsText.{SaysProblem};

use crate::served::served_in;
use addresses::{Location, ServedSettings};
use cli::{Session, Status, Stream, report_settings, say, say_no_memory, session_text};
use settings::LegSettings;
use settings_toml::{Place, SettingsProblem, problem_at};
use std::alloc::{AllocError, Global};
use std::convert::AsStr;
use std::io::Write;
use std::rt::Files;

/// Why there is no session description.
enum SdpFault {
    NoMemory,
    /// A word is no endpoint's number.
    Endpoint,
    /// The settings don't say what the endpoint is sent, or where it is, or what a publisher's packets hold.
    Settings(SettingsProblem),
}

impl From<AllocError> for SdpFault {
    fn from(_e: AllocError) -> SdpFault {
        SdpFault::NoMemory
    }
}

/// Prints the session description of what these endpoints receive, by the settings of the file: a media description for each leg to
/// one of them.
///
/// Ends as `Refused` if a word is no endpoint's number. Ends as `Settings` if no leg goes to one of them, if its address is learned, or a
/// publisher has no `rtpmap`.
pub fn run_sdp<R: AllocGlobal + Files, S: AsStr, O: Write, E: Write>(
    rt: &R,
    file: &str,
    endpoints: &[S],
    writer: &mut O,
    errors: &mut E,
) -> Status
    ensures refused { result ≡ Status.Refused
        → Keeps (O.contents writer.old) (O.contents writer.new) }
    ensures settings { result ≡ Status.Settings
        → Keeps (O.contents writer.old) (O.contents writer.new)
        × SaysProblem (E.contents errors.old) (E.contents errors.new) }
    ensures understood { result ≢ Status.CommandLine }
    ensures said { SaysWhy (E.contents errors.old) (E.contents errors.new) result }
{
    let alloc = rt.alloc();
    match served_in(rt, file) {
        Ok(file) => match description(alloc, &file.settings, endpoints) {
            Ok(text) => match writer.write_all(text.as_bytes()) {
                Ok(()) => Status::Done,
                Err(_) => say(errors, b"io\n", Status::Io),
            },
            Err(SdpFault::NoMemory) => say_no_memory(errors),
            Err(SdpFault::Endpoint) => say(errors, b"refused endpoint\n", Status::Refused),
            Err(SdpFault::Settings(problem)) => report_settings(alloc, errors, &problem),
        },
        Err(problem) => report_settings(alloc, errors, &problem),
    }
}

/// The session description of what these endpoints receive.
fn description<S: AsStr>(
    alloc: Global,
    file: &ServedSettings,
    endpoints: &[S],
) -> Result<String, SdpFault> {
    let mut streams = Vec::new(alloc);
    for word in endpoints {
        let endpoint = receiver_of(
            alloc,
            word.as_str(),
            file.settings.legs(),
            file.clients.len(),
        )?;
        push_streams(alloc, &mut streams, file, endpoint)?;
    }
    let session = Session {
        unit: file.listen.media.ip(),
        streams: streams.as_slice(),
    };
    Ok(session_text(alloc, &session)?)
}

/// The endpoint whose number a word is, of so many, if one of these legs goes to it.
fn receiver_of(
    alloc: Global,
    word: &str,
    legs: &[LegSettings],
    endpoints: usize,
) -> Result<u16, SdpFault>
    ensures known { IfOk result (λ endpoint. endpoint < endpoints) }
    ensures sent { IfOk result (λ endpoint. IsTrue (is_sent_a_leg legs.now endpoint)) }
{
    let endpoint = number_of(word, endpoints)?;
    if is_sent_a_leg(legs, endpoint) {
        Ok(endpoint)
    } else {
        Err(missing(alloc, endpoint, "leg"))
    }
}

/// Whether one of these legs goes to this endpoint.
fn is_sent_a_leg(legs: &[LegSettings], endpoint: u16) -> bool
    ensures { result ≡ is_sent_a_leg legs.now endpoint }
{
    legs.iter().any(|leg| leg.subscriber == endpoint)
}

/// The number that a word is, if there are more endpoints.
fn number_of(word: &str, endpoints: usize) -> Result<u16, SdpFault>
    ensures { IfOk result (λ endpoint. endpoint < endpoints) }
{
    if let Ok(endpoint) = word.parse::<u16>() {
        if usize::from(endpoint) < endpoints {
            return Ok(endpoint);
        }
    }
    Err(SdpFault::Endpoint)
}

/// Puts what an endpoint receives after the other streams, leg by leg.
fn push_streams<'a>(
    alloc: Global,
    streams: &mut Vec<Stream<'a>>,
    file: &'a ServedSettings,
    endpoint: u16,
) -> Result<(), SdpFault> {
    for leg in file.settings.legs() {
        if leg.subscriber == endpoint {
            let stream = stream_of(alloc, file, leg)?;
            if streams.push(stream).is_err() {
                return Err(SdpFault::NoMemory);
            }
        }
    }
    Ok(())
}

/// The stream of a leg.
fn stream_of<'a>(
    alloc: Global,
    file: &'a ServedSettings,
    leg: &LegSettings,
) -> Result<Stream<'a>, SdpFault> {
    let Some(client) = file.clients.get(usize::from(leg.subscriber)) else {
        return Err(SdpFault::Endpoint);
    };
    let Location::Fixed(addresses) = client.location else {
        return Err(missing(alloc, leg.subscriber, "address"));
    };
    let publisher = usize::from(leg.publisher);
    let Some(cname) = file.settings.cnames().get(publisher) else {
        return Err(SdpFault::Endpoint);
    };
    match file.texts.get(publisher) {
        Some(text) if !text.rtpmap.is_empty() => Ok(Stream {
            address: addresses.media,
            rtcp: addresses.rtcp,
            ssrc: leg.out_ssrc.0,
            cname: cname.as_str(),
            rtpmap: text.rtpmap.as_slice(),
            fmtp: text.fmtp.as_slice(),
        }),
        _ => Err(missing(alloc, leg.publisher, "rtpmap")),
    }
}

/// The settings don't say enough of the endpoint at this key.
fn missing(alloc: Global, endpoint: u16, key: &str) -> SdpFault {
    SdpFault::Settings(problem_at(alloc, Place::Endpoint(usize::from(endpoint), key)))
}
