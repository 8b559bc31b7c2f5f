//! `sfu serve --numbers PATH`: legs begin beyond what a run before sent on them, and what this one sends is noted for the next.

ghost use Rattle.std.specs.Prelude.{◌≡◌, IfErr, OnOk, option_map};
ghost use Rattle.commands.specs.Numbers.{SaysUnused, numbers_notice};
ghost use Rattle.serving.specs.Serving.{FailsToStart};

use crate::served::ServedFile;
use cli::{Status, say_no_memory, unsaid};
use leg_numbers::read_numbers;
use serving::{ErrorOutput, NumberKeeper, NumbersFault, open_numbers};
use settings::LegSettings;
use std::alloc::{AllocError, Global};
use std::fs::{self, File};
use std::io::{ErrorKind, Read, Write};
use std::net::Net;
use std::rt::Files;
use std::thread::Threads;

/// Has the legs of a unit begin with the numbers that the file at the path has for these settings, if it is there. From then on their numbers
/// are noted there. A file that can't be read, or is of other settings, is left as it is.
pub(crate) fn begin_numbers<R: AllocGlobal + ErrorOutput + Files<File = File> + Net + Threads>(
    rt: &R,
    path: &str,
    file: &mut ServedFile,
) -> Result<NumberKeeper, NumbersFault> {
    if let Some(first) = noted_at(rt, path, file)? {
        if file.begin_with(rt.alloc(), first).is_err() {
            return Err(NumbersFault::NoMemory);
        }
    }
    let first = first_numbers(rt.alloc(), file.settings.settings.legs())?;
    open_numbers(rt, path, file.digest.as_slice(), first)
}

/// The numbers that the file at the path has for these settings; none if no file is there.
fn noted_at<R: AllocGlobal + Files<File = File>>(
    rt: &R,
    path: &str,
    file: &ServedFile,
) -> Result<Option<Vec<u16>>, NumbersFault> {
    let mut noted = Vec::new(rt.alloc());
    match fs::open(rt, path) {
        Ok(mut found) => match found.read_to_end(&mut noted) {
            Ok(_) => {}
            Err(error) => return Err(unreadable(error.kind())),
        },
        Err(error) if error.kind() == ErrorKind::NotFound => return Ok(None),
        Err(error) => return Err(unreadable(error.kind())),
    }
    let legs = file.settings.settings.legs().len();
    let numbers = read_numbers(rt.alloc(), noted.as_slice(), file.digest.as_slice(), legs)?;
    Ok(Some(numbers))
}

/// Why a file that can't be opened or read has no numbers.
fn unreadable(kind: ErrorKind) -> NumbersFault {
    if kind == ErrorKind::OutOfMemory {
        NumbersFault::NoMemory
    } else {
        NumbersFault::Unreadable
    }
}

/// The numbers with which these legs begin.
fn first_numbers(alloc: Global, legs: &[LegSettings]) -> Result<Vec<u16>, AllocError> {
    legs.iter().map(|leg| leg.first_seq).collect(alloc)
}

/// Says on the error output why the file isn't used, or can't be; else how the command ends.
pub(crate) fn say_unused<E: Write>(errors: &mut E, fault: NumbersFault) -> Result<(), Status>
    ensures ok { OnOk result (SaysUnused fault (E.contents errors.old) (E.contents errors.new)) }
    ensures err { IfErr result (FailsToStart (E.contents errors.old) (E.contents errors.new)) }
{
    match numbers_notice(fault) {
        Some(notice) => match errors.write_all(notice.as_bytes()) {
            Ok(()) => Ok(()),
            Err(error) => Err(unsaid(&error)),
        },
        None => Err(say_no_memory(errors)),
    }
}

/// The line for a file that isn't used. Want of memory has none: it ends the command.
fn numbers_notice(fault: NumbersFault) -> Option<&'static str>
    ensures { option_map (λ line. line.now) result ≡ numbers_notice fault }
{
    match fault {
        NumbersFault::NoMemory => None,
        NumbersFault::Unreadable => Some("numbers: unreadable\n"),
        NumbersFault::OtherSettings => Some("numbers: other settings\n"),
        NumbersFault::Unwritable => Some("numbers: unwritable\n"),
    }
}
