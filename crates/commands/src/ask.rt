//! `sfu ask PATH WORD..`: a unit that runs is asked, and what it answers is printed.

ghost use Rattle.std.specs.Prelude.{◌≡◌, ◌≢◌, ◌++◌, codes, flat_map, map, IfOk, OnOk};
ghost use Rattle.std.specs.Io.KnownBytes.{Appends, Keeps};
ghost use Rattle.std.specs.String.{string_bytes};
ghost use Rattle.commands.specs.Asking.{asking_line, spaced};

use crate::ask_record::{EVENTS, RECORD, print_stream, write_record};
use crate::connection::{AskFault, connect, print_answer, say_fault};
use cli::Status;
use control_protocol::read_answer;
use std::alloc::{AllocError, Global};
use std::convert::AsStr;
use std::fs::File;
use std::io::{ErrorKind, Read, Write};
use std::net::Net;
use std::rt::Files;

/// So many bytes are read at a time.
const PIECE: usize = 4_096;

/// So many pieces an answer may come in.
const MAX_PIECES: u32 = 4_096;

/// Asks the unit that is steered at the path, with these words as a line. Prints the answer without its last line; why it was refused
/// goes to the error output. `record` and `record FILE` don't end with the answer: what the unit takes in is printed, or written to the
/// file, until its record ends. Nor does `events`: what happens in the unit is printed, until it ends or lets go of who asks.
///
/// Ends as `Refused` if the unit refused it, `Control` if nobody listens at the path, `Record` if the file can't be had, `Io` if no whole answer
/// came in time.
pub fn run_ask<R: AllocGlobal + Files<File = File> + Net, S: AsStr, O: Write, E: Write>(
    rt: &R,
    path: &str,
    words: &[S],
    writer: &mut O,
    errors: &mut E,
) -> Status
    ensures refused { result ≡ Status.Refused
        → Keeps (O.contents writer.old) (O.contents writer.new) }
    ensures control { result ≡ Status.Control
        → Keeps (O.contents writer.old) (O.contents writer.new)
        × Appends (E.contents errors.old) (E.contents errors.new) (codes "nobody listens\n") }
    ensures understood { (result ≢ Status.CommandLine) × (result ≢ Status.Settings) }
{
    match words {
        [events] if events.as_str() == "events" => print_stream(rt, path, EVENTS, writer, errors),
        [record] if record.as_str() == "record" => print_stream(rt, path, RECORD, writer, errors),
        [record, file] if record.as_str() == "record" && file.as_str() != "off" => {
            write_record(rt, path, file.as_str(), errors)
        }
        words => match ask_at(rt, path, words) {
            Ok(text) => print_answer(text.as_slice(), writer, errors),
            Err(fault) => say_fault(errors, fault),
        },
    }
}

/// The whole answer of the unit at the path.
fn ask_at<R: AllocGlobal + Files + Net, S: AsStr>(
    rt: &R,
    path: &str,
    words: &[S],
) -> Result<Vec<u8>, AskFault> {
    let line = line_of(rt.alloc(), words)?;
    let mut stream = connect(rt, path)?;
    if stream.write_all(line.as_bytes()).is_err() {
        return Err(AskFault::Io);
    }
    read_whole(rt.alloc(), &mut stream)
}

/// The words with single spaces between them, and the end of the line.
fn line_of<S: AsStr>(alloc: Global, words: &[S]) -> Result<String, AllocError>
    ensures { IfOk result (λ line. string_bytes line ≡ asking_line (map S.text words.now)) }
{
    let mut line = String::new(alloc);
    if let Some((first, others)) = words.split_first() {
        line.push_str(first.as_str())?;
        push_spaced(&mut line, others)?;
    }
    line.push('\n')?;
    Ok(line)
}

/// Appends each word to the line, with a space before it.
fn push_spaced<S: AsStr>(line: &mut String, words: &[S]) -> Result<(), AllocError>
    ensures { OnOk result (string_bytes line.new
        ≡ string_bytes line.old ++ flat_map spaced (map S.text words.now)) }
{
    for word in words {
        line.push(' ')?;
        line.push_str(word.as_str())?;
    }
    Ok(())
}

/// What comes from the stream until an answer is whole.
fn read_whole<I: Read>(alloc: Global, stream: &mut I) -> Result<Vec<u8>, AskFault> {
    let mut text = Vec::new(alloc);
    let mut piece = [0; PIECE];
    for _piece in 0..MAX_PIECES {
        match stream.read(&mut piece) {
            Ok(0) => return Err(AskFault::Io),
            Ok(count) => text.extend_from_slice(&piece[..count.min(PIECE)])?,
            Err(error) if error.kind() == ErrorKind::Interrupted => {}
            Err(_) => return Err(AskFault::Io),
        }
        if read_answer(text.as_slice()).is_some() {
            return Ok(text);
        }
    }
    Err(AskFault::Io)
}
