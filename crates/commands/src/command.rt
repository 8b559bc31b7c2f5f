//! The commands of the program, over a reader and writers.

ghost use Rattle.std.specs.Prelude.{◌≡◌, ◌≢◌, ℕ, List, Some, map, codes, option_map};
ghost use Rattle.std.specs.Io.KnownBytes.{Appends, Keeps};
ghost use Rattle.commands.specs.Commands.{EndsCommand, EndsNumbered, EndsUnit};
ghost use Rattle.cli.specs.Statuses.{SaysWhy};
ghost use Rattle.settings_toml.specs.SettingsText.{SaysProblem};

use crate::ask::run_ask;
use crate::description::run_sdp;
use crate::numbers::{begin_numbers, say_unused};
use crate::plan::run_settings;
use crate::served::{ServedFile, served_in};
use cli::{
    Action, Record, Status, read_words, refuse_words, report_settings, run_offline, say,
    say_no_memory,
};
use replay::{Shown, run_replay};
use request_text::Meter;
use serving::{
    ControlFault, ErrorOutput, NumberKeeper, NumbersFault, RECORD_LIMIT, RecordFault, Recorder,
    RunStatus, Term, close_control, close_record, open_control, open_next_record, open_record,
    serve_file,
};
use std::convert::AsStr;
use std::fs::File;
use std::io::{Read, Write};
use std::net::{Net, TcpListener, TcpStream};
use std::random::RandomSource;
use std::rt::Files;
use std::sync::Wait;
use std::thread::Threads;
use std::time;
use web::run_page;

/// Where a unit is steered and recorded, and where its numbers are noted; and whether its lines begin with the time, and some say why nothing comes
/// on a leg.
#[derive(Clone, Copy)]
struct Paths<'a> {
    control: Option<&'a str>,
    record: Option<Record<'a>>,
    log_time: bool,
    numbers: Option<&'a str>,
    log_why: bool,
}

/// Runs the command that the words ask for, of which the first is the program's name.
///
/// Nothing is done before the input was read to its end. What is printed goes to the writer, and why
/// a command isn't done to the error output.
pub fn run_command<
    R: AllocGlobal
        + ErrorOutput
        + Files<File = File>
        + Net<Listener = TcpListener, Stream = TcpStream>
        + RandomSource
        + Threads
        + Wait
        + Sync
        + time::Clock,
    S: AsStr,
    I: Read,
    O: Write,
    E: Write,
>(rt: &R, words: &[S], reader: &mut I, writer: &mut O, errors: &mut E) -> Status
    ensures { EndsCommand (map S.text words.now) (I.remaining reader.old) (O.contents writer.old)
        (O.contents writer.new) (E.contents errors.old) (E.contents errors.new) result }
{
    run_metered(rt, words, &Meter::hidden(), reader, writer, errors)
}

/// The same; the meter is shown each line of what `bound`, `draw`, `check` and `replay` read.
pub fn run_metered<
    R: AllocGlobal
        + ErrorOutput
        + Files<File = File>
        + Net<Listener = TcpListener, Stream = TcpStream>
        + RandomSource
        + Threads
        + Wait
        + Sync
        + time::Clock,
    S: AsStr,
    I: Read,
    O: Write,
    E: Write,
>(rt: &R, words: &[S], meter: &Meter, reader: &mut I, writer: &mut O, errors: &mut E) -> Status
    ensures { EndsCommand (map S.text words.now) (I.remaining reader.old) (O.contents writer.old)
        (O.contents writer.new) (E.contents errors.old) (E.contents errors.new) result }
{
    match read_words(rt.alloc(), words) {
        Ok(Action::Offline(what)) => run_offline(rt, what, meter, reader, writer, errors),
        Ok(
            Action::Replay {
                file,
                only_leg,
                only_endpoint,
                from,
                events,
                gaps,
                utc,
                other_settings,
            },
        ) => {
            let shown = Shown {
                only_leg,
                only_endpoint,
                from_ms: from.unwrap_or(0),
                events,
                gaps_ms: gaps,
                utc,
            };
            run_replay(
                rt,
                file,
                shown,
                other_settings,
                meter,
                reader,
                writer,
                errors,
            )
        }
        Ok(
            Action::Serve {
                file,
                ticks,
                status,
                control,
                record,
                log_time,
                numbers,
                log_why,
            },
        ) => {
            let paths = Paths {
                control,
                record,
                log_time,
                numbers,
                log_why,
            };
            run_serve(rt, file, Term { ticks, status }, paths, writer, errors)
        }
        Ok(Action::Ask { path, words }) => run_ask(rt, path, words.as_slice(), writer, errors),
        Ok(
            Action::Page {
                path,
                address,
                anyone,
                host,
            },
        ) => run_page(rt, path, address, anyone, host, errors),
        Ok(Action::Sdp { file, endpoints }) => {
            run_sdp(rt, file, endpoints.as_slice(), writer, errors)
        }
        Ok(Action::Settings { file }) => run_settings(rt, file, writer, errors),
        Err(error) => refuse_words(rt.alloc(), errors, &error),
    }
}

/// `sfu serve`: serves the endpoints that the settings of the file name.
fn run_serve<
    R: AllocGlobal + ErrorOutput + Files<File = File> + Net + Threads + Wait + Sync + time::Clock,
    O: Write,
    E: Write,
>(rt: &R, file: &str, term: Term, paths: Paths<'_>, writer: &mut O, errors: &mut E) -> Status
    ensures ends { EndsNumbered (option_map (λ path. path.now) paths.entry.numbers) term.ticks
        (O.contents writer.old) (O.contents writer.new) (E.contents errors.old)
        (E.contents errors.new) result }
    ensures settings { result ≡ Status.Settings
        → Keeps (O.contents writer.old) (O.contents writer.new)
        × SaysProblem (E.contents errors.old) (E.contents errors.new) }
    ensures understood { (result ≢ Status.CommandLine) × (result ≢ Status.Refused) }
{
    match served_in(rt, file) {
        Ok(file) => serve_numbered(rt, file, term, paths, writer, errors),
        Err(problem) => report_settings(rt.alloc(), errors, &problem),
    }
}

/// Serves the endpoints. If numbers are noted at a path, legs begin beyond those, and theirs are noted there.
#[tactic(auto, using(crate::proofs::CommandLemmas::ends_unnumbered))]
fn serve_numbered<
    R: AllocGlobal + ErrorOutput + Files<File = File> + Net + Threads + Wait + Sync + time::Clock,
    O: Write,
    E: Write,
>(rt: &R, file: ServedFile, term: Term, paths: Paths<'_>, writer: &mut O, errors: &mut E) -> Status
    ensures ends { EndsNumbered (option_map (λ path. path.now) paths.entry.numbers) term.ticks
        (O.contents writer.old) (O.contents writer.new) (E.contents errors.old)
        (E.contents errors.new) result }
    ensures understood { (result ≢ Status.CommandLine) × (result ≢ Status.Refused)
        × (result ≢ Status.Settings) }
{
    match paths.numbers {
        Some(path) => serve_beyond(rt, file, path, term, paths, writer, errors),
        None => serve_steered(rt, &file, None, term, paths, writer, errors),
    }
}

/// Serves the endpoints. Legs begin beyond the numbers that are noted at this path, and theirs are noted there. A file that isn't used is said.
#[tactic(auto, using(crate::proofs::CommandLemmas::ends_unnumbered))]
fn serve_beyond<
    R: AllocGlobal + ErrorOutput + Files<File = File> + Net + Threads + Wait + Sync + time::Clock,
    O: Write,
    E: Write,
>(
    rt: &R,
    file: ServedFile,
    path: &str,
    term: Term,
    paths: Paths<'_>,
    writer: &mut O,
    errors: &mut E,
) -> Status
    ensures ends { EndsNumbered (Some path.now) term.ticks (O.contents writer.old)
        (O.contents writer.new) (E.contents errors.old) (E.contents errors.new) result }
    ensures understood { (result ≢ Status.CommandLine) × (result ≢ Status.Refused)
        × (result ≢ Status.Settings) }
{
    let mut file = file;
    match begin_numbers(rt, path, &mut file) {
        Ok(keeper) => serve_steered(rt, &file, Some(keeper), term, paths, writer, errors),
        Err(fault) => serve_unused(rt, &file, fault, term, paths, writer, errors),
    }
}

/// Says why the file of numbers isn't used, and serves the endpoints without.
#[tactic(auto, using(crate::proofs::CommandLemmas::ends_noticed, crate::proofs::CommandLemmas::ends_unstarted))]
fn serve_unused<
    R: AllocGlobal + ErrorOutput + Files<File = File> + Net + Threads + Wait + Sync + time::Clock,
    O: Write,
    E: Write,
>(
    rt: &R,
    file: &ServedFile,
    fault: NumbersFault,
    term: Term,
    paths: Paths<'_>,
    writer: &mut O,
    errors: &mut E,
) -> Status
    ensures ends { (path : List ℕ) → EndsNumbered (Some path) term.ticks (O.contents writer.old)
        (O.contents writer.new) (E.contents errors.old) (E.contents errors.new) result }
    ensures understood { (result ≢ Status.CommandLine) × (result ≢ Status.Refused)
        × (result ≢ Status.Settings) }
{
    match say_unused(errors, fault) {
        Ok(()) => serve_steered(rt, file, None, term, paths, writer, errors),
        Err(status) => status,
    }
}

/// Serves the endpoints, and does what is asked at the path of `--control`, if there is one. This keeper notes the legs' numbers, if they
/// are to be noted.
fn serve_steered<
    R: AllocGlobal + ErrorOutput + Files<File = File> + Net + Threads + Wait + Sync + time::Clock,
    O: Write,
    E: Write,
>(
    rt: &R,
    file: &ServedFile,
    keeper: Option<NumberKeeper>,
    term: Term,
    paths: Paths<'_>,
    writer: &mut O,
    errors: &mut E,
) -> Status
    ensures ends { EndsUnit term.ticks (O.contents writer.old) (O.contents writer.new)
        (E.contents errors.old) (E.contents errors.new) result }
    ensures understood { (result ≢ Status.CommandLine) × (result ≢ Status.Refused)
        × (result ≢ Status.Settings) }
{
    match gauges_for(rt, file, paths) {
        Ok(mut run_status) => {
            set_kept(&mut run_status, keeper);
            let status = serve_recorded(rt, file, term, paths, &mut run_status, writer, errors);
            close_record(rt, run_status);
            close_control_at(rt, paths.control);
            status
        }
        Err(fault) => say_control(errors, fault),
    }
}

/// Serves the endpoints, and records what the unit takes in at the path of `--record`, if there is one.
fn serve_recorded<
    R: AllocGlobal + ErrorOutput + Files<File = File> + Net + Threads + Wait + Sync + time::Clock,
    O: Write,
    E: Write,
>(
    rt: &R,
    file: &ServedFile,
    term: Term,
    paths: Paths<'_>,
    run_status: &mut RunStatus,
    writer: &mut O,
    errors: &mut E,
) -> Status
    ensures ends { EndsUnit term.ticks (O.contents writer.old) (O.contents writer.new)
        (E.contents errors.old) (E.contents errors.new) result }
    ensures understood { (result ≢ Status.CommandLine) × (result ≢ Status.Refused)
        × (result ≢ Status.Settings) }
{
    match set_noted(rt, file, paths, run_status) {
        Ok(()) => serve_file(rt, &file.settings, term, run_status, writer, errors),
        Err(fault) => say_record(errors, fault),
    }
}

/// The run's lines begin with the time, if they are to, and it is recorded, if it is to be from its start.
fn set_noted<R: AllocGlobal + Files<File = File> + Net + Threads + time::Clock>(
    rt: &R,
    file: &ServedFile,
    paths: Paths<'_>,
    run_status: &mut RunStatus,
) -> Result<(), RecordFault> {
    run_status.log_time.set(paths.log_time);
    if let Some(record) = paths.record {
        run_status.record_in_file(open_recorder(rt, file, record)?);
    }
    Ok(())
}

/// The record that the words ask for, of a unit with this file's settings.
fn open_recorder<R: AllocGlobal + Files<File = File> + Net + Threads + time::Clock>(
    rt: &R,
    file: &ServedFile,
    record: Record<'_>,
) -> Result<Recorder, RecordFault> {
    let Record { path, limit, next } = record;
    let limit = limit.unwrap_or(RECORD_LIMIT);
    let (digest, first) = (file.digest.as_slice(), file.first.as_slice());
    if next {
        open_next_record(rt, path, limit, digest, first)
    } else {
        open_record(rt, path, limit, digest, first)
    }
}

/// The numbers of the run's legs are noted, if anybody does that.
fn set_kept(run_status: &mut RunStatus, keeper: Option<NumberKeeper>) {
    if let Some(keeper) = keeper {
        run_status.keep_numbers(keeper);
    }
}

/// What a run shows that is steered at a path, if there is one, and of whose legs is said why nothing comes, if it is to be.
fn gauges_for<R: AllocGlobal + Files + Net + Threads + time::Clock>(
    rt: &R,
    file: &ServedFile,
    paths: Paths<'_>,
) -> Result<RunStatus, ControlFault> {
    if paths.control.is_none() && !paths.log_why {
        return Ok(RunStatus::new());
    }
    let (digest, first) = (file.digest.as_slice(), file.first.as_slice());
    let run_status = open_control(rt, paths.control, &file.settings, digest, first)?;
    if paths.log_why {
        run_status.log_changes();
    }
    Ok(run_status)
}

/// Takes the socket's file away from the path, if there is one.
fn close_control_at<R: Files>(rt: &R, control: Option<&str>) {
    if let Some(path) = control {
        close_control(rt, path);
    }
}

/// Says on the error output why a unit can't be recorded.
fn say_record<E: Write>(errors: &mut E, fault: RecordFault) -> Status
    ensures failed { (result ≢ Status.Done) × (result ≢ Status.Refused)
        × (result ≢ Status.CommandLine) × (result ≢ Status.Settings) × (result ≢ Status.Socket) }
    ensures exists { result ≡ Status.Record → fault ≡ RecordFault.Exists
        → Appends (E.contents errors.old) (E.contents errors.new) (codes "record: exists\n") }
    ensures said { SaysWhy (E.contents errors.old) (E.contents errors.new) result }
{
    match fault {
        RecordFault::Exists => say(errors, b"record: exists\n", Status::Record),
        RecordFault::Failed => say(errors, b"record: failed\n", Status::Record),
        RecordFault::NoMemory => say_no_memory(errors),
    }
}

/// Says on the error output why a unit can't be steered.
fn say_control<E: Write>(errors: &mut E, fault: ControlFault) -> Status
    ensures failed { (result ≢ Status.Done) × (result ≢ Status.Refused)
        × (result ≢ Status.CommandLine) × (result ≢ Status.Settings) × (result ≢ Status.Socket) }
    ensures in_use { result ≡ Status.Control → fault ≡ ControlFault.InUse
        → Appends (E.contents errors.old) (E.contents errors.new) (codes "control: in use\n") }
    ensures said { SaysWhy (E.contents errors.old) (E.contents errors.new) result }
{
    match fault {
        ControlFault::InUse => say(errors, b"control: in use\n", Status::Control),
        ControlFault::Failed => say(errors, b"control: failed\n", Status::Control),
        ControlFault::NoMemory => say_no_memory(errors),
    }
}
