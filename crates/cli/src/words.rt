//! What the words of a command line ask for.

ghost use Rattle.std.specs.Prelude.{◌≡◌, ◌≢◌, IfErr, IfOk, Some, map, option_map};
ghost use Rattle.clap.specs.Words.{found_of, kind_of, rows_of, subcommand_rows_of};
ghost use Rattle.cli.specs.CommandLine.{Request, Types, action_request, asked_for, asked_named, bound, is_set, moment_in, number_in, plain_named, record_of, record_with, request_found, serve_named, version, words_in};

use crate::command_line::command;
use clap::error::ErrorKind;
use clap::{ArgMatches, Command, Error};
use std::alloc::{AllocError, Global};
use std::convert::AsStr;

/// What the words ask for.
#[derive(Drop)]
pub enum Action<'a> {
    /// What needs neither a machine nor a unit.
    Offline(Offline<'a>),
    /// `sfu replay FILE`: what the machine gives out for a script, by the file's settings. Of it only what is of a leg, or of an endpoint, by
    /// their numbers; only from a moment on, in milliseconds. With the lines of the events, or without; with where nothing goes out on a leg for
    /// so many milliseconds, or without; by the wall clock, or not; also of a unit that had other settings, or not.
    Replay {
        file: &'a str,
        only_leg: Option<u32>,
        only_endpoint: Option<u32>,
        from: Option<u64>,
        events: bool,
        gaps: Option<u64>,
        utc: bool,
        other_settings: bool,
    },
    /// `sfu serve FILE`: the unit on a socket, by the file's settings, for so many turns, or until it is stopped. With a line of counts each so
    /// many seconds, which begins with the time, or without; steered at a path, or not; recorded, or not; with the numbers of its legs noted at
    /// a path, or not; with lines that say why nothing comes on a leg, or without.
    Serve {
        file: &'a str,
        ticks: Option<u32>,
        status: Option<u32>,
        control: Option<&'a str>,
        record: Option<Record<'a>>,
        log_time: bool,
        numbers: Option<&'a str>,
        log_why: bool,
    },
    /// `sfu ask PATH WORD..`: what the unit answers that is steered at the path.
    Ask {
        path: &'a str,
        words: Vec<&'a str>,
    },
    /// `sfu page PATH ADDRESS`: a page of that unit at an address, which whoever reaches it may look at, or this machine alone; it may
    /// be called by a name.
    Page {
        path: &'a str,
        address: &'a str,
        anyone: bool,
        host: Option<&'a str>,
    },
    /// `sfu sdp FILE ENDPOINT..`: what these endpoints receive, by the file's settings.
    Sdp {
        file: &'a str,
        endpoints: Vec<&'a str>,
    },
    /// `sfu settings FILE`: what a unit would be by the file's settings, or what is wrong with them.
    Settings {
        file: &'a str,
    },
}

/// What needs neither a machine nor a unit.
#[derive(Clone, Copy)]
pub enum Offline<'a> {
    /// `sfu bound --sender N`: the set that is announced for the requests of the lines.
    Bound { media: u32 },
    /// `sfu check FILE`: whether the file's lines certify a smallest choice.
    Check { file: &'a str },
    /// `sfu draw --sender N`: a picture of the requests of the lines and of the set.
    Draw { media: u32 },
    /// `sfu --version`: which program this is.
    Version,
}

/// Where a unit is recorded, and how many bytes the record has at most, if the words say so.
#[derive(Clone, Copy)]
pub struct Record<'a> {
    pub path: &'a str,
    pub limit: Option<u64>,
    /// Whether the next file is begun that isn't there, if one is at the path.
    pub next: bool,
}

/// The action that the words ask for, of which the first is the program's name.
pub fn read_words<'a, S: AsStr>(alloc: Global, words: &'a [S]) -> Result<Action<'a>, Error>
    ensures asked { IfOk result (λ action. asked_for (map S.text words.entry.now)
        ≡ Some (action_request action)) }
    ensures refused { (asked : Request) → asked_for (map S.text words.entry.now) ≡ Some asked
        → asked ≢ version → IfErr result (λ e. kind_of e ≡ ErrorKind.OutOfMemory) }
    ensures asks { (media : _) → Types (map S.text words.entry.now) media
        → asked_for (map S.text words.entry.now) ≡ Some (bound media) }
{
    let mut command = command(alloc)?;
    match command.try_get_matches_from_mut(words) {
        Ok(matches) => found_in(alloc, &mut command, &matches),
        Err(error) => version_or(error),
    }
}

/// The action that there is in the matches, or why there is none.
fn found_in<'a>(
    alloc: Global,
    command: &mut Command<'a>,
    matches: &ArgMatches<'a>,
) -> Result<Action<'a>, Error>
    ensures asked { IfOk result (λ action. request_found (subcommand_rows_of matches.now)
        ≡ Some (action_request action)) }
    ensures refused { (asked : Request) → request_found (subcommand_rows_of matches.now) ≡ Some asked
        → IfErr result (λ e. kind_of e ≡ ErrorKind.OutOfMemory) }
{
    match action_in(alloc, matches)? {
        Some(action) => Ok(action),
        // (all else that an action needs is required by the command line itself)
        None => Err(command.error(
            ErrorKind::MissingRequiredArgument,
            "--record-limit is of no use without --record, nor is --record-next",
        )?),
    }
}

/// The version, if that is what stands in place of matches.
fn version_or<'a>(error: Error) -> Result<Action<'a>, Error>
    ensures asked { IfOk result (λ action. (action_request action ≡ version)
        × (kind_of error ≡ ErrorKind.DisplayVersion)) }
    ensures refused { IfErr result (λ e. (e ≡ error)
        × (kind_of error ≢ ErrorKind.DisplayVersion)) }
{
    if error.kind() == ErrorKind::DisplayVersion {
        Ok(Action::Offline(Offline::Version))
    } else {
        Err(error)
    }
}

fn action_in<'a>(alloc: Global, matches: &ArgMatches<'a>) -> Result<Option<Action<'a>>, AllocError>
    ensures { IfOk result (λ action. option_map action_request action
        ≡ request_found (subcommand_rows_of matches.now)) }
{
    match matches.subcommand() {
        Some((name, inner)) => action_named(alloc, name, inner),
        None => Ok(None),
    }
}

fn action_named<'a>(
    alloc: Global,
    name: &str,
    matches: &ArgMatches<'a>,
) -> Result<Option<Action<'a>>, AllocError>
    ensures { IfOk result (λ action. option_map action_request action
        ≡ asked_named name.now (rows_of (found_of matches.now))) }
{
    match name {
        "ask" => match matches.get_str("PATH") {
            Some(path) => Ok(Some(Action::Ask {
                path,
                words: words_in(alloc, matches, "WORD")?,
            })),
            None => Ok(None),
        },
        "sdp" => match matches.get_str("FILE") {
            Some(file) => Ok(Some(Action::Sdp {
                file,
                endpoints: words_in(alloc, matches, "ENDPOINT")?,
            })),
            None => Ok(None),
        },
        name => Ok(plain_named(name, matches)),
    }
}

/// The action of a command that has no list of words.
fn plain_named<'a>(name: &str, matches: &ArgMatches<'a>) -> Option<Action<'a>>
    ensures { option_map action_request result
        ≡ plain_named name.now (rows_of (found_of matches.now)) }
{
    match name {
        "bound" => Some(Action::Offline(Offline::Bound {
            media: number_in(matches, "sender")?,
        })),
        "check" => Some(Action::Offline(Offline::Check {
            file: matches.get_str("FILE")?,
        })),
        "replay" => Some(Action::Replay {
            file: matches.get_str("FILE")?,
            only_leg: number_in(matches, "only-leg"),
            only_endpoint: number_in(matches, "only-endpoint"),
            from: moment_in(matches, "from"),
            events: is_set(matches, "events"),
            gaps: moment_in(matches, "gaps"),
            utc: is_set(matches, "utc"),
            other_settings: is_set(matches, "other-settings"),
        }),
        "serve" => serve_named(matches),
        "draw" => Some(Action::Offline(Offline::Draw {
            media: number_in(matches, "sender")?,
        })),
        "page" => Some(Action::Page {
            path: matches.get_str("PATH")?,
            address: matches.get_str("ADDRESS")?,
            anyone: is_set(matches, "anyone"),
            host: matches.get_str("host"),
        }),
        "settings" => Some(Action::Settings {
            file: matches.get_str("FILE")?,
        }),
        _ => None,
    }
}

/// A unit that is to be served; `None` if something is said of a record that has no path.
fn serve_named<'a>(matches: &ArgMatches<'a>) -> Option<Action<'a>>
    ensures { option_map action_request result ≡ serve_named (rows_of (found_of matches.now)) }
{
    let path = matches.get_str("record");
    let limit = moment_in(matches, "record-limit");
    let next = is_set(matches, "record-next");
    let record = record_with(path, limit, next)?;
    Some(Action::Serve {
        file: matches.get_str("FILE")?,
        ticks: number_in(matches, "ticks"),
        status: number_in(matches, "status"),
        control: matches.get_str("control"),
        record,
        log_time: is_set(matches, "log-time"),
        numbers: matches.get_str("numbers"),
        log_why: is_set(matches, "log-why"),
    })
}

/// The record at a path, if there is one; `None` if there is only what would be said of it.
fn record_with(path: Option<&str>, limit: Option<u64>, next: bool) -> Option<Option<Record<'_>>>
    ensures { option_map (option_map record_of) result
        ≡ record_with (option_map (λ path. path.now) path.entry) limit next }
{
    match (path, limit, next) {
        (Some(path), limit, next) => Some(Some(Record { path, limit, next })),
        (None, None, false) => Some(None),
        (None, None, true) => None,
        (None, Some(_), _) => None,
    }
}

/// The words that there are for this.
fn words_in<'a>(
    alloc: Global,
    matches: &ArgMatches<'a>,
    id: &str,
) -> Result<Vec<&'a str>, AllocError>
    ensures { IfOk result (λ words. map (λ word. word.now) words.items
        ≡ words_in id.now (rows_of (found_of matches.now))) }
{
    match matches.get_strs(id) {
        Some(words) => Vec::from_slice(alloc, words),
        None => Ok(Vec::new(alloc)),
    }
}

fn number_in(matches: &ArgMatches<'_>, id: &str) -> Option<u32>
    ensures { result ≡ number_in id.now (rows_of (found_of matches.now)) }
{
    matches.get_one::<u32>(id)
}

fn moment_in(matches: &ArgMatches<'_>, id: &str) -> Option<u64>
    ensures { result ≡ moment_in id.now (rows_of (found_of matches.now)) }
{
    matches.get_one::<u64>(id)
}

/// Whether an option without a value is there.
fn is_set(matches: &ArgMatches<'_>, id: &str) -> bool
    ensures { result ≡ is_set id.now (rows_of (found_of matches.now)) }
{
    match matches.get_str(id) {
        Some(text) => text == "true",
        None => false,
    }
}
