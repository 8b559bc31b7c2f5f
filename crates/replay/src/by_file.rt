//! `sfu replay FILE`: plays the script of the input by the settings of the file, and prints what is to be shown of that.

ghost use Rattle.std.specs.Prelude.{◌≡◌, ◌≢◌, ℕ, List, Ok, IfErr, IfOk, IfSome, codes};
ghost use Rattle.std.specs.Io.KnownBytes.{Appends, Keeps};
ghost use Rattle.std.specs.IoError.{error_kind};
ghost use Rattle.cli.specs.Statuses.{SaysWhy};
ghost use Rattle.replay.specs.ByFile.{EndsReplay, HoldsSettings, is_refused, problem_by, unknown_text};
ghost use Rattle.replay.specs.Replay.{IsOutside};
ghost use Rattle.settings_toml.specs.SettingsText.{SaysProblem};
ghost use Rattle.sha2.specs.Sha256.{sha256};

use crate::head::is_of_others;
use crate::replay::replay_text;
use crate::shown::{Shown, Unknown};
use cli::{Failure, Status, report, report_settings, say, say_no_memory};
use request_text::Meter;
use settings_toml::{FileSettings, SettingsProblem, read_settings};
use sha2::{Digest, Sha256};
use std::alloc::{AllocError, Global};
use std::fs;
use std::io::{self, Read, Write};
use std::rt::Files;

/// The settings of a file, and the SHA-256 of its bytes (FIPS 180-4).
#[derive(Drop)]
pub(crate) struct ReplaySettings {
    file: FileSettings,
    digest: [u8; 32],
}

/// Plays the script of the input by the settings of the file, and prints what is to be shown of what it gives. Nothing is played if
/// the settings lack the endpoint or the leg that is to be shown, nor if the script is the record of a unit with other settings, unless
/// `others` will do: that ends as `Refused`, as a line does that can't be read.
pub fn run_replay<R: AllocGlobal + Files, I: Read, O: Write, E: Write>(
    rt: &R,
    file: &str,
    shown: Shown,
    others: bool,
    meter: &Meter,
    reader: &mut I,
    writer: &mut O,
    errors: &mut E,
) -> Status
    ensures ends { EndsReplay shown others (I.remaining reader.old) (O.contents writer.old)
        (O.contents writer.new) (E.contents errors.old) (E.contents errors.new) result }
    ensures settings { result ≡ Status.Settings
        → Keeps (O.contents writer.old) (O.contents writer.new)
        × SaysProblem (E.contents errors.old) (E.contents errors.new) }
    ensures understood { result ≢ Status.CommandLine }
    ensures said { SaysWhy (E.contents errors.old) (E.contents errors.new) result }
{
    match settings_in(rt, file) {
        Ok(settings) => match shown.unknown_in(&settings.file.settings) {
            Some(unknown) => say_unknown(errors, unknown),
            None => replay_by(
                rt.alloc(),
                &settings,
                shown,
                others,
                meter,
                reader,
                writer,
                errors,
            ),
        },
        Err(problem) => report_settings(rt.alloc(), errors, &problem),
    }
}

/// The same by the settings that a file holds, which have whom is to be shown.
fn replay_by<I: Read, O: Write, E: Write>(
    alloc: Global,
    settings: &ReplaySettings,
    shown: Shown,
    others: bool,
    meter: &Meter,
    reader: &mut I,
    writer: &mut O,
    errors: &mut E,
) -> Status
    ensures ends { (text : List ℕ) → HoldsSettings text settings.now
        → EndsReplay shown others (I.remaining reader.old) (O.contents writer.old)
        (O.contents writer.new) (E.contents errors.old) (E.contents errors.new) result }
    ensures understood { (result ≢ Status.CommandLine) × (result ≢ Status.Settings) }
    ensures said { SaysWhy (E.contents errors.old) (E.contents errors.new) result }
{
    let script = match script_in(alloc, reader) {
        Ok(script) => script,
        Err(failure) => return report(alloc, errors, failure),
    };
    let script = script.as_slice();
    match is_refused(alloc, others, settings.digest.as_slice(), script) {
        Ok(true) => say_others(errors),
        Ok(false) => {
            let settings = &settings.file.settings;
            replay_text(alloc, settings, shown, meter, script, writer, errors)
        }
        Err(_) => say_no_memory(errors),
    }
}

/// The script that a reader holds.
fn script_in<I: Read>(alloc: Global, reader: &mut I) -> Result<Vec<u8>, Failure>
    ensures whole { IfOk result (λ script.
        IfSome (I.remaining reader.old) (λ text. script.items ≡ text)) }
    ensures outside { IfErr result IsOutside }
{
    let mut script = Vec::new(alloc);
    reader.read_to_end(&mut script)?;
    Ok(script)
}

/// Whether a script is refused, since it is the record of a unit with other settings than those of this digest, and these won't do.
fn is_refused(alloc: Global, others: bool, digest: &[u8], script: &[u8]) -> Result<bool, AllocError>
    ensures { IfOk result (λ refused. refused ≡ is_refused others digest.now script.now) }
{
    if others {
        return Ok(false);
    }
    is_of_others(alloc, digest, script)
}

/// Says on the error output whom the settings lack.
fn say_unknown<E: Write>(errors: &mut E, unknown: Unknown) -> Status
    ensures refused { result ≡ Status.Refused
        → Appends (E.contents errors.old) (E.contents errors.new) (unknown_text unknown) }
    ensures understood { (result ≢ Status.Done) × (result ≢ Status.CommandLine)
        × (result ≢ Status.Settings) }
    ensures said { SaysWhy (E.contents errors.old) (E.contents errors.new) result }
{
    match unknown {
        Unknown::Endpoint => say(errors, b"refused endpoint\n", Status::Refused),
        Unknown::Leg => say(errors, b"refused leg\n", Status::Refused),
    }
}

/// Says on the error output that the settings aren't those of the script's unit.
fn say_others<E: Write>(errors: &mut E) -> Status
    ensures refused { result ≡ Status.Refused
        → Appends (E.contents errors.old) (E.contents errors.new) (codes "refused settings\n") }
    ensures understood { (result ≢ Status.Done) × (result ≢ Status.CommandLine)
        × (result ≢ Status.Settings) }
    ensures said { SaysWhy (E.contents errors.old) (E.contents errors.new) result }
{
    say(errors, b"refused settings\n", Status::Refused)
}

/// The settings that a file holds.
fn settings_in<R: AllocGlobal + Files>(
    rt: &R,
    file: &str,
) -> Result<ReplaySettings, SettingsProblem>
    ensures { IfOk result (λ s. (text : List ℕ) × HoldsSettings text s) }
{
    match fs::open(rt, file) {
        Ok(mut file) => settings_from(rt.alloc(), &mut file),
        Err(error) => Err(unreadable_settings(&error)),
    }
}

/// The settings that a reader holds.
fn settings_from<I: Read>(alloc: Global, file: &mut I) -> Result<ReplaySettings, SettingsProblem>
    ensures some { IfOk result (λ s. (text : List ℕ) × HoldsSettings text s) }
    ensures whole { IfOk result (λ s.
        IfSome (I.remaining file.old) (λ text. HoldsSettings text s)) }
{
    let mut text = Vec::new(alloc);
    match file.read_to_end(&mut text) {
        Ok(_) => settings_of(alloc, text.as_slice()),
        Err(error) => Err(unreadable_settings(&error)),
    }
}

/// The settings that a text spells.
fn settings_of(alloc: Global, text: &[u8]) -> Result<ReplaySettings, SettingsProblem>
    ensures { IfOk result (HoldsSettings text.now) }
{
    let file = read_settings(alloc, text)?;
    Ok(ReplaySettings {
        file,
        digest: Sha256::digest(text),
    })
}

/// Why there are no settings in a file that can't be opened or read.
pub fn unreadable_settings(error: &io::Error) -> SettingsProblem
    ensures { result ≡ problem_by (error_kind error.now) }
{
    if error.kind() == io::ErrorKind::OutOfMemory {
        SettingsProblem::NoMemory
    } else {
        SettingsProblem::File
    }
}
