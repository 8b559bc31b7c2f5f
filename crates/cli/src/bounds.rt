//! `sfu bound --sender N`: prints the set that is announced for requests.

ghost use Rattle.std.specs.Prelude.{IfErr, IfSome, OnOk};
ghost use Rattle.cli.specs.Printed.{FailsBound, PrintsBound};

use crate::status::Failure;
use request_text::{Meter, bound_text, read_lines};
use std::alloc::Global;
use std::io::{Read, Write};
use tmmbr_tuple::Ssrc;

/// `sfu bound`: prints the set that is announced for the requests of the input's lines.
pub fn run_bound<I: Read, O: Write>(
    alloc: Global,
    media: Ssrc,
    meter: &Meter,
    reader: &mut I,
    writer: &mut O,
) -> Result<(), Failure>
    ensures done { OnOk result (IfSome (I.remaining reader.old) (λ input.
        PrintsBound media.0 input (O.contents writer.old) (O.contents writer.new))) }
    ensures refused { IfErr result
        (FailsBound media.0 (I.remaining reader.old) (O.contents writer.old)
        (O.contents writer.new)) }
{
    let mut input = Vec::new(alloc);
    reader.read_to_end(&mut input)?;
    let bounds = read_lines(alloc, input.as_slice(), media, meter)?;
    let text = bound_text(alloc, media, &bounds)?;
    writer.write_all(text.as_bytes())?;
    Ok(())
}
