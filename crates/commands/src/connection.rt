//! A unit that is asked: how it is reached, and how its answer is printed.

ghost use Rattle.std.specs.Prelude.{◌≡◌, ◌≢◌, ℕ, List, Some, codes};
ghost use Rattle.std.specs.Io.KnownBytes.{Appends, Keeps};
ghost use Rattle.control_protocol.specs.Asking.{answered_by, done};

use cli::{Status, say, say_no_memory};
use control_protocol::{Answered, read_answer};
use std::alloc::AllocError;
use std::io::Write;
use std::net::Net;
use std::os::unix::net::UnixStream;
use std::time::Duration;

/// So many seconds the unit may take to go on with its answer.
const PATIENCE_S: u64 = 5;

/// Why there is no answer.
#[derive(Clone, Copy, PartialEq, Eq)]
pub(crate) enum AskFault {
    NoMemory,
    /// Nobody listens at the path.
    Nobody,
    /// The answer didn't come, or not all of it.
    Io,
}

impl From<AllocError> for AskFault {
    fn from(_e: AllocError) -> AskFault {
        AskFault::NoMemory
    }
}

/// The way to the unit at the path, which may take its time for an answer, but no longer.
pub(crate) fn connect<R: Net>(rt: &R, path: &str) -> Result<UnixStream, AskFault> {
    let Ok(stream) = UnixStream::connect(rt, path) else {
        return Err(AskFault::Nobody);
    };
    let patience = Some(Duration::from_secs(PATIENCE_S));
    match stream.set_read_timeout(patience) {
        Ok(()) => Ok(stream),
        Err(_) => Err(AskFault::Io),
    }
}

/// Prints the lines of an answer, or says why it was refused.
pub(crate) fn print_answer<O: Write, E: Write>(
    text: &[u8],
    writer: &mut O,
    errors: &mut E,
) -> Status
    ensures done { result ≡ Status.Done → (lines : List ℕ)
        × (answered_by text.now ≡ Some (done lines))
        × Appends (O.contents writer.old) (O.contents writer.new) lines }
    ensures refused { result ≡ Status.Refused
        → Keeps (O.contents writer.old) (O.contents writer.new) }
    ensures understood { (result ≢ Status.Control) × (result ≢ Status.CommandLine)
        × (result ≢ Status.Settings) }
{
    match read_answer(text) {
        Some(Answered::Done(lines)) => match writer.write_all(lines) {
            Ok(()) => Status::Done,
            Err(_) => say(errors, b"io\n", Status::Io),
        },
        Some(Answered::Refused(why)) => match errors.write_all(why) {
            Ok(()) => say(errors, b"\n", Status::Refused),
            Err(_) => Status::UnsaidIo,
        },
        None => say(errors, b"io\n", Status::Io),
    }
}

/// Says on the error output why there is no answer.
pub(crate) fn say_fault<E: Write>(errors: &mut E, fault: AskFault) -> Status
    ensures refused { result ≢ Status.Refused }
    ensures control { result ≡ Status.Control
        → Appends (E.contents errors.old) (E.contents errors.new) (codes "nobody listens\n") }
    ensures understood { (result ≢ Status.CommandLine) × (result ≢ Status.Settings) }
{
    match fault {
        AskFault::NoMemory => say_no_memory(errors),
        AskFault::Nobody => say(errors, b"nobody listens\n", Status::Control),
        AskFault::Io => say(errors, b"io\n", Status::Io),
    }
}
