//! `sfu draw --sender N`: draws requests, and the set that is announced for them.

ghost use Rattle.std.specs.Prelude.{◌≢◌, IfErr, IfSome, OnOk};
ghost use Rattle.cli.specs.Statuses.{SaysWhy};
ghost use Rattle.cli.specs.Ends.{EndsDraw};
ghost use Rattle.cli.specs.Printed.{FailsBound, PrintsPicture};

use crate::saying::report;
use crate::status::{Failure, Status};
use drawing::set_picture;
use request_text::{Meter, read_lines};
use std::alloc::Global;
use std::io::{Read, Write};
use tmmbr_tuple::Ssrc;

/// `sfu draw`: draws the requests of the input's lines and the set that is announced for them.
pub fn run_draw<I: Read, O: Write, E: Write>(
    alloc: Global,
    media: Ssrc,
    meter: &Meter,
    reader: &mut I,
    writer: &mut O,
    errors: &mut E,
) -> Status
    ensures ends { EndsDraw media.0 (I.remaining reader.old) (O.contents writer.old)
        (O.contents writer.new) (E.contents errors.old) (E.contents errors.new) result }
    ensures understood { (result ≢ Status.CommandLine) × (result ≢ Status.Settings) }
    ensures said { SaysWhy (E.contents errors.old) (E.contents errors.new) result }
{
    match draw_lines(alloc, media, meter, reader, writer) {
        Ok(()) => Status::Done,
        Err(failure) => report(alloc, errors, failure),
    }
}

/// Prints the picture for the lines of the input, or nothing.
fn draw_lines<I: Read, O: Write>(
    alloc: Global,
    media: Ssrc,
    meter: &Meter,
    reader: &mut I,
    writer: &mut O,
) -> Result<(), Failure>
    ensures done { OnOk result (IfSome (I.remaining reader.old) (λ input.
        PrintsPicture media.0 input (O.contents writer.old) (O.contents writer.new))) }
    ensures refused { IfErr result
        (FailsBound media.0 (I.remaining reader.old) (O.contents writer.old)
        (O.contents writer.new)) }
{
    let mut input = Vec::new(alloc);
    reader.read_to_end(&mut input)?;
    let bounds = read_lines(alloc, input.as_slice(), media, meter)?;
    let picture = set_picture(alloc, media, &bounds)?;
    writer.write_all(picture.as_bytes())?;
    Ok(())
}
