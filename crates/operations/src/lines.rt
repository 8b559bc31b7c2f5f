//! Lines for people, which a thread of its own writes: nobody waits for who reads them.

use crate::replaced_file::ReplacedFile;
use crate::wall_time::time_text;
use recording::{Outlet, WriterFault, start_writer};
use std::alloc::{AllocError, Global};
use std::io::{self, ErrorKind, Stderr, Write};
use std::net::Net;
use std::thread::{self, Threads};
use std::time::{self, Duration, SystemTime};

/// So many lines may wait to be read.
const LINES: usize = 64;

/// How often the end looks whether all lines are written, and how many milliseconds it waits between two looks.
const LAST_LOOKS: u32 = 100;

const LOOK_MS: u64 = 2;

/// A runtime whose error output any thread may write to, and whose files any thread may replace.
pub trait ErrorOutput {
    type Output: Write + Send + Drop + 'static;

    type Replaced: Write + Send + Drop + 'static;

    /// The error output.
    fn error_output(&self) -> Self::Output;

    /// A file at this path. Each write stands first beside it, at the other path, and then takes its place as a whole.
    fn replaced(&self, path: String, beside: String) -> Self::Replaced;
}

impl ErrorOutput for HostRuntime {
    type Output = Stderr;

    type Replaced = ReplacedFile;

    fn error_output(&self) -> Stderr {
        self.stderr()
    }

    fn replaced(&self, path: String, beside: String) -> ReplacedFile {
        ReplacedFile {
            runtime: *self,
            path,
            beside,
        }
    }
}

/// Lines that are written on the error output by a thread of its own. A line that it has no room for is refused as `WouldBlock`, and each
/// one as `BrokenPipe` after one couldn't be written.
#[derive(Drop)]
pub struct Lines<W: Drop> {
    alloc: Global,
    outlet: Outlet<W>,
}

impl<W: Write + Send + Drop + 'static> Lines<W> {
    /// Starts the thread.
    pub fn new<R: AllocGlobal + ErrorOutput<Output = W> + Net + Threads>(
        rt: &R,
    ) -> Result<Lines<W>, WriterFault> {
        match start_writer(rt, LINES, rt.error_output()) {
            Ok((outlet, _thread)) => Ok(Lines {
                alloc: rt.alloc(),
                outlet,
            }),
            Err(fault) => Err(fault),
        }
    }

    /// Gives the last lines a fifth of a second to be written.
    pub fn finish<R: time::Clock>(self, rt: &R) {
        let Lines { mut outlet, .. } = self;
        outlet.close();
        for _look in 0..LAST_LOOKS {
            if outlet.is_done() {
                return;
            }
            thread::sleep(rt, Duration::from_millis(LOOK_MS));
        }
    }
}

impl<W: Drop> Write for Lines<W> {
    ghost use Rattle.std.specs.Prelude.{◌≡◌, ◌⊎◌, None, length, IfErr, IfOk, IsOk};
    ghost use Rattle.std.specs.Io.{WritesAtMost};
    ghost use Rattle.std.specs.Io.KnownBytes.{Keeps, WriteAppends};
    ghost use Rattle.std.specs.IoError.{error_kind};

    fn write(&mut self, buf: &[u8]) -> io::Result<usize>
        ensures bound { WritesAtMost result buf.now }
        ensures bytes { WriteAppends None None result buf.now }
        ensures whole { IfOk result (λ n. n ≡ length buf.now) }
        ensures kind { IfErr result (λ e. (error_kind e ≡ ErrorKind.OutOfMemory)
            ⊎ ((error_kind e ≡ ErrorKind.BrokenPipe) ⊎ (error_kind e ≡ ErrorKind.WouldBlock))) }
    {
        let mut line = Vec::new(self.alloc);
        line.extend_from_slice(buf)?;
        if self.outlet.has_failed() {
            Err(io::Error::from(ErrorKind::BrokenPipe))
        } else if self.outlet.hand_on(line) {
            Ok(buf.len())
        } else {
            Err(io::Error::from(ErrorKind::WouldBlock))
        }
    }

    fn flush(&mut self) -> io::Result<()>
        ensures bytes { Keeps None None }
        ensures ok { IsOk result }
    {
        Ok(())
    }
}

/// Lines that begin with the time, if they are to: what the wall clock says as a line is written (RFC 3339, UTC).
#[derive(Drop)]
pub struct TimedLines<'a, R: time::Clock, W: Drop> {
    pub rt: &'a R,
    pub is_timed: bool,
    pub lines: &'a mut Lines<W>,
}

impl<R: AllocGlobal + time::Clock, W: Drop> TimedLines<'_, R, W> {
    /// Each of the lines after the time.
    fn timed(&self, lines: &[u8]) -> Result<Vec<u8>, AllocError> {
        let alloc = self.rt.alloc();
        let time = match unix_seconds(self.rt) {
            Some(seconds) => time_text(alloc, seconds)?,
            None => return Vec::from_slice(alloc, lines),
        };
        let mut timed = Vec::new(alloc);
        for line in lines.split_inclusive(|byte| *byte == b'\n') {
            timed.extend_from_slice(time.as_bytes())?;
            timed.extend_from_slice(b" ")?;
            timed.extend_from_slice(line)?;
        }
        Ok(timed)
    }
}

impl<R: AllocGlobal + time::Clock, W: Drop> Write for TimedLines<'_, R, W> {
    ghost use Rattle.std.specs.Prelude.{◌≡◌, ◌⊎◌, None, length, IfErr, IfOk, IsOk};
    ghost use Rattle.std.specs.Io.{WritesAtMost};
    ghost use Rattle.std.specs.Io.KnownBytes.{Keeps, WriteAppends};
    ghost use Rattle.std.specs.IoError.{error_kind};

    fn write(&mut self, buf: &[u8]) -> io::Result<usize>
        ensures bound { WritesAtMost result buf.now }
        ensures bytes { WriteAppends None None result buf.now }
        ensures whole { IfOk result (λ n. n ≡ length buf.now) }
        ensures kind { IfErr result (λ e. (error_kind e ≡ ErrorKind.OutOfMemory)
            ⊎ ((error_kind e ≡ ErrorKind.BrokenPipe) ⊎ (error_kind e ≡ ErrorKind.WouldBlock))) }
    {
        if !self.is_timed {
            return self.lines.write(buf);
        }
        let timed = self.timed(buf)?;
        self.lines.write(timed.as_slice())?;
        Ok(buf.len())
    }

    fn flush(&mut self) -> io::Result<()>
        ensures bytes { Keeps None None }
        ensures ok { IsOk result }
    {
        Ok(())
    }
}

/// What the wall clock says, in seconds since the beginning of 1970 (UTC), if it says anything.
fn unix_seconds<R: time::Clock>(rt: &R) -> Option<u64> {
    let now = SystemTime::now(rt).ok()?;
    let since = now.duration_since(SystemTime::UNIX_EPOCH).ok()?;
    Some(since.as_secs())
}
