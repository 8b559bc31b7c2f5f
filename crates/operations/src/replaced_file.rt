//! A file that is replaced as a whole.

use std::fs::{self, File};
use std::io::{self, Write};

/// A file at a path, each write to which takes the place of what stood there, as a whole.
#[derive(Drop)]
pub struct ReplacedFile {
    pub(crate) runtime: HostRuntime,
    pub(crate) path: String,
    /// Where a write stands before it takes that place.
    pub(crate) beside: String,
}

impl Write for ReplacedFile {
    ghost use Rattle.std.specs.Prelude.{None, IsOk};
    ghost use Rattle.std.specs.Io.{WritesAtMost};
    ghost use Rattle.std.specs.Io.KnownBytes.{Keeps, WriteAppends};

    fn write(&mut self, buf: &[u8]) -> io::Result<usize>
        ensures bound { WritesAtMost result buf.now }
        ensures bytes { WriteAppends None None result buf.now }
    {
        let mut file = File::create(&self.runtime, self.beside.as_str())?;
        file.write_all(buf)?;
        fs::rename(&self.runtime, self.beside.as_str(), self.path.as_str())?;
        Ok(buf.len())
    }

    fn flush(&mut self) -> io::Result<()>
        ensures bytes { Keeps None None }
        ensures ok { IsOk result }
    {
        Ok(())
    }
}
