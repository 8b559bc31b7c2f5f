//! `sfu ask PATH record [FILE]` and `sfu ask PATH events`: what a unit takes in, or what happens in it, until it says no more.

ghost use Rattle.std.specs.Prelude.{◌≡◌, ◌≢◌, codes};
ghost use Rattle.std.specs.Io.KnownBytes.{Appends, Keeps};

use crate::connection::{AskFault, connect, print_answer, say_fault};
use cli::{Status, say};
use control_protocol::{Answered, read_answer};
use std::alloc::Global;
use std::fs::{self, File, OpenOptions};
use std::io::{self, ErrorKind, Read, Write};
use std::net::Net;
use std::os::unix::fs::OpenOptionsExt;
use std::os::unix::net::UnixStream;
use std::rt::Files;

/// Only its owner may read the file.
const MODE: u32 = 0o600;

/// So many bytes are read of a record at a time.
const PIECE: usize = 16_384;

/// So many bytes the answer before a record has at most.
const ANSWER: usize = 64;

/// What is asked for a record, and for what happens.
pub(crate) const RECORD: &[u8] = b"record\n";

pub(crate) const EVENTS: &[u8] = b"events\n";

/// What the unit answered.
#[derive(Drop)]
enum Begun {
    /// All else that it says comes from there.
    Stream(UnixStream),
    /// The whole answer.
    Refused(Vec<u8>),
}

/// Prints what the unit at the path, which is asked for this, says from now on until it says no more.
pub(crate) fn print_stream<R: AllocGlobal + Net, O: Write, E: Write>(
    rt: &R,
    path: &str,
    line: &[u8],
    writer: &mut O,
    errors: &mut E,
) -> Status
    ensures refused { result ≡ Status.Refused
        → Keeps (O.contents writer.old) (O.contents writer.new) }
    ensures control { result ≡ Status.Control
        → Keeps (O.contents writer.old) (O.contents writer.new)
        × Appends (E.contents errors.old) (E.contents errors.new) (codes "nobody listens\n") }
    ensures understood { (result ≢ Status.CommandLine) × (result ≢ Status.Settings) }
{
    match begin_at(rt, path, line) {
        Ok(Begun::Stream(mut stream)) => copy(&mut stream, writer, errors),
        Ok(Begun::Refused(answer)) => print_answer(answer.as_slice(), writer, errors),
        Err(fault) => say_fault(errors, fault),
    }
}

/// Makes the file, which isn't there yet, and writes there what the unit at the path takes in from now on. The file goes again if the unit
/// refuses that.
pub(crate) fn write_record<R: AllocGlobal + Files<File = File> + Net, E: Write>(
    rt: &R,
    path: &str,
    file: &str,
    errors: &mut E,
) -> Status
    ensures control { result ≡ Status.Control
        → Appends (E.contents errors.old) (E.contents errors.new) (codes "nobody listens\n") }
    ensures understood { (result ≢ Status.CommandLine) × (result ≢ Status.Settings) }
{
    match create(rt, file) {
        Ok(mut record) => match begin_at(rt, path, RECORD) {
            Ok(Begun::Stream(mut stream)) => copy(&mut stream, &mut record, errors),
            Ok(Begun::Refused(answer)) => {
                let _ = fs::remove_file(rt, file);
                let mut nothing = io::sink();
                print_answer(answer.as_slice(), &mut nothing, errors)
            }
            Err(fault) => {
                let _ = fs::remove_file(rt, file);
                say_fault(errors, fault)
            }
        },
        Err(error) if error.kind() == ErrorKind::AlreadyExists => {
            say(errors, b"record: exists\n", Status::Record)
        }
        Err(_) => say(errors, b"record: failed\n", Status::Record),
    }
}

/// A new file, for its owner alone.
fn create<R: Files<File = File>>(rt: &R, file: &str) -> io::Result<File> {
    OpenOptions::new()
        .write(true)
        .create_new(true)
        .mode(MODE)
        .open(rt, file)
}

/// Asks the unit at the path for this.
fn begin_at<R: AllocGlobal + Net>(rt: &R, path: &str, line: &[u8]) -> Result<Begun, AskFault> {
    let mut stream = connect(rt, path)?;
    if stream.write_all(line).is_err() {
        return Err(AskFault::Io);
    }
    let answer = read_line(rt.alloc(), &mut stream)?;
    match read_answer(answer.as_slice()) {
        Some(Answered::Done(_)) => match stream.set_read_timeout(None) {
            Ok(()) => Ok(Begun::Stream(stream)),
            Err(_) => Err(AskFault::Io),
        },
        _ => Ok(Begun::Refused(answer)),
    }
}

/// The first line, with its end: byte by byte, since more may come after it.
fn read_line<I: Read>(alloc: Global, stream: &mut I) -> Result<Vec<u8>, AskFault> {
    let mut line = Vec::new(alloc);
    let mut byte = [0; 1];
    for _byte in 0..ANSWER {
        match stream.read(&mut byte) {
            Ok(0) => return Err(AskFault::Io),
            Ok(_) => line.extend_from_slice(&byte)?,
            Err(error) if error.kind() == ErrorKind::Interrupted => {}
            Err(_) => return Err(AskFault::Io),
        }
        if byte[0] == b'\n' {
            return Ok(line);
        }
    }
    Err(AskFault::Io)
}

/// Writes what comes from there until it ends, piece by piece.
fn copy<I: Read, O: Write, E: Write>(stream: &mut I, writer: &mut O, errors: &mut E) -> Status
    ensures { (result ≢ Status.Refused) × (result ≢ Status.Control)
        × (result ≢ Status.CommandLine) × (result ≢ Status.Settings) }
{
    let mut piece = [0; PIECE];
    for _piece in 0..u64::MAX {
        match stream.read(&mut piece) {
            Ok(0) => return Status::Done,
            Ok(count) => {
                let part = &piece[..count.min(PIECE)];
                if writer.write_all(part).is_err() || writer.flush().is_err() {
                    return say(errors, b"io\n", Status::Io);
                }
            }
            Err(error) if error.kind() == ErrorKind::Interrupted => {}
            Err(_) => return say(errors, b"io\n", Status::Io),
        }
    }
    Status::Done
}
