//! What a command says on the error output, and the status that it then ends with.

ghost use Rattle.std.specs.Prelude.{◌≡◌, ◌≢◌, codes};
ghost use Rattle.std.specs.Io.KnownBytes.{Appends};
ghost use Rattle.std.specs.IoError.{error_kind};
ghost use Rattle.clap.specs.Words.{kind_of};
ghost use Rattle.cli.specs.Statuses.{EndsSaying, EndsWanting, IsOutOfMemory, IsUnsaid, SaysWhy, ShowsFailure, unsaid_at};
ghost use Rattle.settings_toml.specs.SettingsText.{problem_line};

use crate::status::{Failure, Status};
use clap::error::ErrorKind;
use request_text::refused_text;
use settings_toml::{SettingsProblem, problem_line};
use std::alloc::Global;
use std::io::{self, Write};

/// Says on the error output why the words of the command line can't be had: memory is wanting, or one
/// of them is no text. This takes no memory.
pub fn report_words<E: Write>(errors: &mut E, error: &io::Error) -> Status
    ensures failed { (result ≢ Status.Done) × (result ≢ Status.Refused)
        × (result ≢ Status.Settings) }
    ensures memory { IsOutOfMemory error.now → result ≢ Status.CommandLine }
    ensures wanting { IsOutOfMemory error.now
        → EndsWanting (E.contents errors.old) (E.contents errors.new) result }
    ensures shown { result ≡ Status.CommandLine
        → Appends (E.contents errors.old) (E.contents errors.new) (codes "a word is no text\n") }
    ensures said { SaysWhy (E.contents errors.old) (E.contents errors.new) result }
{
    if error.kind() == io::ErrorKind::OutOfMemory {
        return say_no_memory(errors);
    }
    say(errors, b"a word is no text\n", Status::CommandLine)
}

/// Says on the error output why a command isn't done. If memory is wanting for a line, says that.
pub fn report<E: Write>(alloc: Global, errors: &mut E, failure: Failure) -> Status
    ensures { ShowsFailure failure (E.contents errors.old) (E.contents errors.new) result }
{
    match failure {
        Failure::NoMemory => say_no_memory(errors),
        Failure::Io => say(errors, b"io\n", Status::Io),
        Failure::Refused { line, fault } => match refused_text(alloc, line, fault) {
            Ok(text) => say(errors, text.as_bytes(), Status::Refused),
            Err(_) => say_no_memory(errors),
        },
    }
}

/// Says on the error output why there are no settings in a file. If memory is wanting for a line, says that.
pub fn report_settings<E: Write>(alloc: Global, errors: &mut E, problem: &SettingsProblem) -> Status
    ensures failed { (result ≢ Status.Done) × (result ≢ Status.Refused)
        × (result ≢ Status.CommandLine) }
    ensures settings { result ≡ Status.Settings → (problem.now ≢ SettingsProblem.NoMemory)
        × Appends (E.contents errors.old) (E.contents errors.new) (problem_line problem.now) }
    ensures wanting { problem.now ≡ SettingsProblem.NoMemory
        → EndsWanting (E.contents errors.old) (E.contents errors.new) result }
    ensures said { SaysWhy (E.contents errors.old) (E.contents errors.new) result }
{
    match problem {
        SettingsProblem::NoMemory => say_no_memory(errors),
        problem => match problem_line(alloc, problem) {
            Ok(text) => say(errors, text.as_bytes(), Status::Settings),
            Err(_) => say_no_memory(errors),
        },
    }
}

/// Says on the error output why the words of the command line ask for nothing.
pub fn refuse_words<E: Write>(alloc: Global, errors: &mut E, error: &clap::Error) -> Status
    ensures refused { result ≢ Status.Refused }
    ensures done { result ≢ Status.Done }
    ensures settings { result ≢ Status.Settings }
    ensures control { result ≢ Status.Control }
    ensures memory { kind_of error.now ≡ ErrorKind.OutOfMemory → result ≢ Status.CommandLine }
    ensures wanting { kind_of error.now ≡ ErrorKind.OutOfMemory
        → EndsWanting (E.contents errors.old) (E.contents errors.new) result }
    ensures said { SaysWhy (E.contents errors.old) (E.contents errors.new) result }
{
    if error.kind() == ErrorKind::OutOfMemory {
        return report(alloc, errors, Failure::NoMemory);
    }
    match format!(in alloc; "{error}") {
        Ok(text) => say(errors, text.as_bytes(), Status::CommandLine),
        Err(_) => say_no_memory(errors),
    }
}

/// Says that memory is wanting. This takes none.
pub fn say_no_memory<E: Write>(errors: &mut E) -> Status
    ensures { EndsSaying Status.NoMemory (codes "no memory\n") (E.contents errors.old)
        (E.contents errors.new) result }
{
    say(errors, b"no memory\n", Status::NoMemory)
}

/// Ends so, once this stands on the error output.
pub fn say<E: Write>(errors: &mut E, text: &[u8], status: Status) -> Status
    ensures { EndsSaying status text.now (E.contents errors.old) (E.contents errors.new) result }
{
    match errors.write_all(text) {
        Ok(()) => status,
        Err(error) => unsaid(&error),
    }
}

/// How a command ends that couldn't say what there was to say.
pub fn unsaid(error: &io::Error) -> Status
    ensures unsaid { IsUnsaid result }
    ensures why { result ≡ unsaid_at (error_kind error.now) }
{
    if error.kind() == io::ErrorKind::OutOfMemory {
        Status::UnsaidNoMemory
    } else {
        Status::UnsaidIo
    }
}
