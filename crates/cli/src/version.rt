//! `sfu --version`.

ghost use Rattle.std.specs.Prelude.{◌≡◌, ◌≢◌, codes};
ghost use Rattle.std.specs.Io.KnownBytes.{Appends};
ghost use Rattle.cli.specs.Statuses.{SaysWhy};

use crate::saying::say;
use crate::status::Status;
use std::io::Write;

/// The program's version, by Semantic Versioning, and the line that says it.
pub(crate) const VERSION: &str = "1.0.0";

const LINE: &[u8] = b"sfu 1.0.0\n";

/// Prints the program's name and its version.
pub fn run_version<O: Write, E: Write>(writer: &mut O, errors: &mut E) -> Status
    ensures done { result ≡ Status.Done
        → Appends (O.contents writer.old) (O.contents writer.new) (codes "sfu 1.0.0\n") }
    ensures read { (result ≢ Status.CommandLine) × (result ≢ Status.Settings)
        × (result ≢ Status.Refused) }
    ensures said { SaysWhy (E.contents errors.old) (E.contents errors.new) result }
{
    match writer.write_all(LINE) {
        Ok(()) => Status::Done,
        Err(_) => say(errors, b"io\n", Status::Io),
    }
}
