//! The commands that need neither a machine nor a unit, by the words that ask for them.

ghost use Rattle.std.specs.Prelude.{◌≢◌};
ghost use Rattle.cli.specs.Statuses.{SaysWhy};
ghost use Rattle.cli.specs.Ends.{EndsOffline};

use crate::bounds::run_bound;
use crate::checked::run_check;
use crate::drawn::run_draw;
use crate::saying::report;
use crate::status::Status;
use crate::version::run_version;
use crate::words::Offline;
use request_text::Meter;
use std::io::{Read, Write};
use std::rt::Files;
use tmmbr_tuple::Ssrc;

/// Runs what the words ask for. Nothing is done before the input was read to its end.
pub fn run_offline<R: AllocGlobal + Files, I: Read, O: Write, E: Write>(
    rt: &R,
    what: Offline<'_>,
    meter: &Meter,
    reader: &mut I,
    writer: &mut O,
    errors: &mut E,
) -> Status
    ensures ends { EndsOffline what.entry (I.remaining reader.old) (O.contents writer.old)
        (O.contents writer.new) (E.contents errors.old) (E.contents errors.new) result }
    ensures understood { (result ≢ Status.CommandLine) × (result ≢ Status.Settings) }
    ensures said { SaysWhy (E.contents errors.old) (E.contents errors.new) result }
{
    let alloc = rt.alloc();
    match what {
        Offline::Bound { media } => match run_bound(alloc, Ssrc(media), meter, reader, writer) {
            Ok(()) => Status::Done,
            Err(failure) => report(alloc, errors, failure),
        },
        Offline::Check { file } => run_check(rt, file, meter, writer, errors),
        Offline::Draw { media } => run_draw(alloc, Ssrc(media), meter, reader, writer, errors),
        Offline::Version => run_version(writer, errors),
    }
}
