//! The command line that `clap` reads: the subcommands of `sfu`, their words and options, and what the help says of each.

ghost use Rattle.std.specs.Prelude.{◌≡◌, IfOk, false};
ghost use Rattle.clap.specs.Words.{app_of, rule_of};
ghost use Rattle.cli.specs.CommandLine.{HasNoGlobals, TakesArg, TakesSubcommand, ask_app, file_app, flag_rule, moment_rule, number_rule, number_to_rule, optional_rule, page_app, replay_app, required_rule, sdp_app, sender_app, serve_app, sfu, sfu_top, word_rule, words_rule};

use crate::version::VERSION;
use clap::builder::ValueParser;
use clap::{Arg, ArgAction, Command, value_parser};
use std::alloc::{AllocError, Global};

/// The greatest number that a leg or an endpoint may have.
const MAX_NUMBER: i64 = 65_535;

/// How many turns `--ticks` may name.
const MAX_TICKS: i64 = 1_000_000;

/// How many seconds `--status` may name: a day.
const MAX_STATUS: i64 = 86_400;

// What the help says of each subcommand.
const BOUND_HELP: &str =
    "Prints the set that is announced for the requests in a list of datagrams, with a certificate";

const CHECK_HELP: &str = "Says whether a certificate holds, or what its first fault is";

const REPLAY_HELP: &str = "Plays a script through the unit, event by event";

const SERVE_HELP: &str = "Runs the unit on a UDP socket";

const DRAW_HELP: &str =
    "Draws the requests in a list of datagrams and the set that is announced for them, as an SVG";

const ASK_HELP: &str = "Asks a unit that runs, and prints what it answers";

const PAGE_HELP: &str = "Shows by HTTP what a unit that runs says of itself";

const SDP_HELP: &str = "Prints what endpoints receive as a session description";

const SETTINGS_HELP: &str = "Checks settings as `serve` does, and says what the unit would take";

// What it says of each word and option.
const CERTIFICATE_HELP: &str = "The certificate: lines as `sfu bound` prints them";

const ROOM_HELP: &str = "The room's settings, in TOML";

const SERVED_HELP: &str = "The room's settings and everybody's address, in TOML";

const SENDER_HELP: &str = "The SSRC of the media sender whose requests count, in decimal";

const LEG_HELP: &str = "Prints what is of this leg alone: 0 to 65,535";

const ENDPOINT_HELP: &str = "Prints what is of this endpoint alone: 0 to 65,535";

const FROM_HELP: &str = "Prints nothing that follows from an event before this millisecond";

const EVENTS_HELP: &str = "Prints the line of each event before what follows from it";

const GAPS_HELP: &str = "Says where no packet goes out on a leg for so many milliseconds";

const UTC_HELP: &str = "Shows moments by the wall clock (UTC), as the head of a record has it";

const OTHER_SETTINGS_HELP: &str = "Plays a record of a unit that had other settings, too";

const TICKS_HELP: &str = "Ends after so many turns, of at most 10 ms each: 1 to 1,000,000";

const STATUS_HELP: &str =
    "Writes a line of counts to the error output each so many seconds: 1 to 86,400";

const CONTROL_HELP: &str = "Lets it be steered by `sfu ask PATH WORD..` at this path";

const RECORD_HELP: &str =
    "Writes what the unit takes in to this new file, as a script that `sfu replay` plays";

const RECORD_LIMIT_HELP: &str = "Ends the record before it has more bytes: from 1 on";

const RECORD_NEXT_HELP: &str =
    "Records in the next file that isn't there, PATH.1, PATH.2 and so on, if PATH is";

const NUMBERS_HELP: &str =
    "Has legs begin beyond the numbers that are noted in this file, and notes theirs there";

const LOG_TIME_HELP: &str = "Begins each line of counts with the time (UTC)";

const LOG_WHY_HELP: &str = "Says why nothing comes on a leg, or what is sent, when that changes";

const PATH_HELP: &str = "The path at which the unit is steered (`sfu serve --control PATH`)";

const WORD_HELP: &str = "What the unit is asked, as `present` or `select 0 off`";

const ADDRESS_HELP: &str = "The IP address and port of the page, as 127.0.0.1:9190";

const ANYONE_HELP: &str = "Lets whoever reaches the address look, be it no loopback address";

const HOST_HELP: &str = "A name by which the page may be called, beside addresses and `localhost`";

const RECEIVER_HELP: &str = "The number of an endpoint";

/// The program's command line.
pub(crate) fn command<'a>(alloc: Global) -> Result<Command<'a>, AllocError>
    ensures { IfOk result (λ c. app_of c ≡ sfu) }
{
    let program = Ok(top_command(alloc));
    let program = with(program, sender_command(alloc, "bound", BOUND_HELP));
    let program = with(
        program,
        file_command(alloc, "check", CHECK_HELP, CERTIFICATE_HELP),
    );
    let program = with(program, replay_command(alloc));
    let program = with(program, serve_command(alloc));
    let program = with(program, sender_command(alloc, "draw", DRAW_HELP));
    let program = with(program, sdp_command(alloc));
    let program = with(program, page_command(alloc));
    let program = with(
        program,
        file_command(alloc, "settings", SETTINGS_HELP, SERVED_HELP),
    );
    with(program, ask_command(alloc))
}

/// The command with this subcommand, if there was memory for both.
fn with<'a>(
    command: Result<Command<'a>, AllocError>,
    subcommand: Result<Command<'a>, AllocError>,
) -> Result<Command<'a>, AllocError>
    ensures { TakesSubcommand command.entry subcommand.entry result }
{
    command?.subcommand(subcommand?)
}

/// The command with this word or option, if there was memory for it.
fn asking<'a>(
    command: Result<Command<'a>, AllocError>,
    arg: Arg<'a>,
) -> Result<Command<'a>, AllocError>
    ensures { TakesArg command.entry arg.entry result }
{
    command?.arg(arg)
}

/// The program, before its subcommands, of which one is required.
fn top_command<'a>(alloc: Global) -> Command<'a>
    ensures { app_of result ≡ sfu_top }
{
    Command::new(alloc, "sfu")
        .version(VERSION)
        .about("A selective forwarding unit for RTP")
        .subcommand_required(true)
}

/// A subcommand of this name, with a media sender; the help says this about it.
fn sender_command<'a>(
    alloc: Global,
    name: &'a str,
    about: &'a str,
) -> Result<Command<'a>, AllocError>
    ensures app { IfOk result (λ c. app_of c ≡ sender_app name.entry.now) }
    ensures local { IfOk result HasNoGlobals }
{
    Command::new(alloc, name)
        .about(about)
        .arg(number(alloc, "sender", SENDER_HELP))
}

/// A subcommand of this name, with a file; the help says this about it, and that about its file.
fn file_command<'a>(
    alloc: Global,
    name: &'a str,
    about: &'a str,
    file_help: &'a str,
) -> Result<Command<'a>, AllocError>
    ensures app { IfOk result (λ c. app_of c ≡ file_app name.entry.now) }
    ensures local { IfOk result HasNoGlobals }
{
    Command::new(alloc, name)
        .about(about)
        .arg(required(alloc, "FILE", file_help))
}

/// `replay FILE`, with what is printed.
fn replay_command<'a>(alloc: Global) -> Result<Command<'a>, AllocError>
    ensures app { IfOk result (λ c. app_of c ≡ replay_app) }
    ensures local { IfOk result HasNoGlobals }
{
    let replay = file_command(alloc, "replay", REPLAY_HELP, ROOM_HELP);
    let replay = asking(replay, number_to(alloc, "only-leg", LEG_HELP, MAX_NUMBER));
    let replay = asking(
        replay,
        number_to(alloc, "only-endpoint", ENDPOINT_HELP, MAX_NUMBER),
    );
    let replay = asking(replay, moment(alloc, "from", "MS", FROM_HELP, 0));
    let replay = asking(replay, flag(alloc, "events", EVENTS_HELP));
    let replay = asking(replay, moment(alloc, "gaps", "MS", GAPS_HELP, 1));
    let replay = asking(replay, flag(alloc, "utc", UTC_HELP));
    asking(replay, flag(alloc, "other-settings", OTHER_SETTINGS_HELP))
}

/// `serve FILE`, with how many turns, what its lines of counts are, where it is steered, how it is recorded, and where its numbers are noted.
fn serve_command<'a>(alloc: Global) -> Result<Command<'a>, AllocError>
    ensures app { IfOk result (λ c. app_of c ≡ serve_app) }
    ensures local { IfOk result HasNoGlobals }
{
    let serve = file_command(alloc, "serve", SERVE_HELP, SERVED_HELP);
    let serve = asking(
        serve,
        optional_number(alloc, "ticks", TICKS_HELP, MAX_TICKS),
    );
    let serve = asking(
        serve,
        optional_number(alloc, "status", STATUS_HELP, MAX_STATUS),
    );
    let serve = asking(serve, optional_word(alloc, "control", "PATH", CONTROL_HELP));
    let serve = asking(serve, optional_word(alloc, "record", "PATH", RECORD_HELP));
    let serve = asking(
        serve,
        moment(alloc, "record-limit", "BYTES", RECORD_LIMIT_HELP, 1),
    );
    let serve = asking(serve, flag(alloc, "record-next", RECORD_NEXT_HELP));
    let serve = asking(serve, optional_word(alloc, "numbers", "PATH", NUMBERS_HELP));
    let serve = asking(serve, flag(alloc, "log-time", LOG_TIME_HELP));
    asking(serve, flag(alloc, "log-why", LOG_WHY_HELP))
}

/// `ask PATH WORD..`.
fn ask_command<'a>(alloc: Global) -> Result<Command<'a>, AllocError>
    ensures app { IfOk result (λ c. app_of c ≡ ask_app) }
    ensures local { IfOk result HasNoGlobals }
{
    Command::new(alloc, "ask")
        .about(ASK_HELP)
        .arg(required(alloc, "PATH", PATH_HELP))?
        .arg(several(alloc, "WORD", WORD_HELP))
}

/// `page PATH ADDRESS`, with who may look, and by which name.
fn page_command<'a>(alloc: Global) -> Result<Command<'a>, AllocError>
    ensures app { IfOk result (λ c. app_of c ≡ page_app) }
    ensures local { IfOk result HasNoGlobals }
{
    Command::new(alloc, "page")
        .about(PAGE_HELP)
        .arg(required(alloc, "PATH", PATH_HELP))?
        .arg(required(alloc, "ADDRESS", ADDRESS_HELP))?
        .arg(flag(alloc, "anyone", ANYONE_HELP))?
        .arg(optional_word(alloc, "host", "NAME", HOST_HELP))
}

/// `sdp FILE ENDPOINT..`.
fn sdp_command<'a>(alloc: Global) -> Result<Command<'a>, AllocError>
    ensures app { IfOk result (λ c. app_of c ≡ sdp_app) }
    ensures local { IfOk result HasNoGlobals }
{
    file_command(alloc, "sdp", SDP_HELP, SERVED_HELP)?.arg(several(
        alloc,
        "ENDPOINT",
        RECEIVER_HELP,
    ))
}

/// A required word; the help says this about it.
fn required<'a>(alloc: Global, name: &'a str, help: &'a str) -> Arg<'a>
    ensures rule { rule_of result ≡ required_rule name.entry.now }
    ensures local { result.global ≡ false }
{
    Arg::new(alloc, name)
        .help(help)
        .required(true)
        .action(ArgAction::Set)
}

/// A word or several, of which one is required; the help says this about them.
fn several<'a>(alloc: Global, name: &'a str, help: &'a str) -> Arg<'a>
    ensures rule { rule_of result ≡ words_rule name.entry.now }
    ensures local { result.global ≡ false }
{
    Arg::new(alloc, name)
        .help(help)
        .required(true)
        .action(ArgAction::Append)
}

/// A required option with a number; the help says this about it.
fn number<'a>(alloc: Global, name: &'a str, help: &'a str) -> Arg<'a>
    ensures rule { rule_of result ≡ number_rule name.entry.now }
    ensures local { result.global ≡ false }
{
    Arg::new(alloc, name)
        .long(name)
        .help(help)
        .required(true)
        .value_parser(value_parser!(u32))
        .action(ArgAction::Set)
}

/// An option with a number from 1 to `most`; the help says this about it.
fn optional_number<'a>(alloc: Global, name: &'a str, help: &'a str, most: i64) -> Arg<'a>
    ensures rule { rule_of result ≡ optional_rule name.entry.now most }
    ensures local { result.global ≡ false }
{
    Arg::new(alloc, name)
        .long(name)
        .help(help)
        .value_parser(ValueParser::Signed(1, most))
        .action(ArgAction::Set)
}

/// An option with a number from 0 to `most`; the help says this about it.
fn number_to<'a>(alloc: Global, name: &'a str, help: &'a str, most: i64) -> Arg<'a>
    ensures rule { rule_of result ≡ number_to_rule name.entry.now most }
    ensures local { result.global ≡ false }
{
    Arg::new(alloc, name)
        .long(name)
        .help(help)
        .value_parser(ValueParser::Signed(0, most))
        .action(ArgAction::Set)
}

/// An option with a number of 64 bits, from `least` on, which the help calls so; it says this about it.
fn moment<'a>(alloc: Global, name: &'a str, word: &'a str, help: &'a str, least: u64) -> Arg<'a>
    ensures rule { rule_of result ≡ moment_rule name.entry.now least }
    ensures local { result.global ≡ false }
{
    Arg::new(alloc, name)
        .long(name)
        .value_name(word)
        .help(help)
        .value_parser(ValueParser::Unsigned(least, u64::MAX))
        .action(ArgAction::Set)
}

/// An option without a value; the help says this about it.
fn flag<'a>(alloc: Global, name: &'a str, help: &'a str) -> Arg<'a>
    ensures rule { rule_of result ≡ flag_rule name.entry.now }
    ensures local { result.global ≡ false }
{
    Arg::new(alloc, name)
        .long(name)
        .help(help)
        .action(ArgAction::SetTrue)
}

/// An option with a word, which the help calls so; it says this about it.
fn optional_word<'a>(alloc: Global, name: &'a str, word: &'a str, help: &'a str) -> Arg<'a>
    ensures rule { rule_of result ≡ word_rule name.entry.now }
    ensures local { result.global ≡ false }
{
    Arg::new(alloc, name)
        .long(name)
        .value_name(word)
        .help(help)
        .action(ArgAction::Set)
}
