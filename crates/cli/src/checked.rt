//! `sfu check FILE`: reads a certificate and checks it.

ghost use Rattle.std.specs.Prelude.{◌≢◌};
ghost use Rattle.cli.specs.Statuses.{SaysWhy};
ghost use Rattle.cli.specs.Ends.{EndsCheck};

use crate::checking::check_metered;
use crate::saying::report;
use crate::status::{Status, unreadable};
use request_text::Meter;
use std::fs;
use std::io::Write;
use std::rt::Files;

/// `sfu check`: prints whether the file's lines certify a smallest choice.
pub fn run_check<R: AllocGlobal + Files, O: Write, E: Write>(
    rt: &R,
    file: &str,
    meter: &Meter,
    writer: &mut O,
    errors: &mut E,
) -> Status
    ensures ends { EndsCheck (O.contents writer.old) (O.contents writer.new) (E.contents errors.old)
        (E.contents errors.new) result }
    ensures understood { (result ≢ Status.CommandLine) × (result ≢ Status.Settings) }
    ensures said { SaysWhy (E.contents errors.old) (E.contents errors.new) result }
{
    match fs::open(rt, file) {
        Ok(mut file) => check_metered(rt.alloc(), meter, &mut file, writer, errors),
        Err(error) => report(rt.alloc(), errors, unreadable(&error)),
    }
}
