//! `sfu settings FILE`: what a unit would be, or what is wrong with its settings.

ghost use Rattle.std.specs.Prelude.{◌≡◌, ◌≢◌};
ghost use Rattle.std.specs.Io.KnownBytes.{Appends, Keeps};
ghost use Rattle.cli.specs.Statuses.{SaysWhy};
ghost use Rattle.cli.specs.Plan.{plan_of, plan_text};
ghost use Rattle.settings_toml.specs.SettingsText.{SaysProblem};
ghost use Rattle.commands.specs.Planned.{PrintsPlan};

use crate::served::served_in;
use cli::{Status, plan_of, plan_text, report_settings, say, say_no_memory};
use settings::Settings;
use std::alloc::Global;
use std::io::Write;
use std::rt::Files;

/// Reads the settings of the file as `sfu serve` does, without a socket, and prints what a unit with them would be.
pub fn run_settings<R: AllocGlobal + Files, O: Write, E: Write>(
    rt: &R,
    file: &str,
    writer: &mut O,
    errors: &mut E,
) -> Status
    ensures done { result ≡ Status.Done
        → PrintsPlan (O.contents writer.old) (O.contents writer.new) }
    ensures settings { result ≡ Status.Settings
        → Keeps (O.contents writer.old) (O.contents writer.new)
        × SaysProblem (E.contents errors.old) (E.contents errors.new) }
    ensures understood { (result ≢ Status.CommandLine) × (result ≢ Status.Refused) }
    ensures said { SaysWhy (E.contents errors.old) (E.contents errors.new) result }
{
    match served_in(rt, file) {
        Ok(file) => print_plan(rt.alloc(), &file.settings.settings, writer, errors),
        Err(problem) => report_settings(rt.alloc(), errors, &problem),
    }
}

/// Prints what a unit with these settings would be.
fn print_plan<O: Write, E: Write>(
    alloc: Global,
    settings: &Settings,
    writer: &mut O,
    errors: &mut E,
) -> Status
    ensures done { result ≡ Status.Done → Appends (O.contents writer.old) (O.contents writer.new)
        (plan_text (plan_of settings.now)) }
    ensures understood { (result ≢ Status.CommandLine) × (result ≢ Status.Refused)
        × (result ≢ Status.Settings) }
    ensures said { SaysWhy (E.contents errors.old) (E.contents errors.new) result }
{
    match plan_text(alloc, plan_of(settings)) {
        Ok(text) => match writer.write_all(text.as_bytes()) {
            Ok(()) => Status::Done,
            Err(_) => say(errors, b"io\n", Status::Io),
        },
        Err(_) => say_no_memory(errors),
    }
}
