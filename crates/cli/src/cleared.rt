//! Streams that what a meter says gives way to.

ghost use Rattle.std.specs.Prelude.{◌≡◌};

use request_text::Meter;
use std::io::{self, Write};

/// A stream. Before anything is written to it, what the meter says is taken away.
#[derive(Drop)]
pub struct Cleared<'m, W> {
    meter: &'m Meter,
    stream: W,
}

impl<'m, W> Cleared<'m, W> {
    ghost use Rattle.std.specs.Prelude.{◌≡◌};

    /// A stream that this meter gives way to.
    pub fn new(meter: &'m Meter, stream: W) -> Cleared<'m, W>
        ensures meter { result.meter ≡ meter.entry }
        ensures stream { result.stream ≡ stream }
    {
        Cleared { meter, stream }
    }
}

impl<W: Write> Write for Cleared<'_, W> {
    ghost use Rattle.std.specs.Prelude.{None};
    ghost use Rattle.std.specs.Io.{WritesAtMost};
    ghost use Rattle.std.specs.Io.KnownBytes.{Keeps, WriteAppends};

    fn write(&mut self, bytes: &[u8]) -> io::Result<usize>
        ensures bound { WritesAtMost result bytes.now }
        ensures bytes { WriteAppends None None result bytes.now }
        ensures stream { WriteAppends (W.contents self.old.stream) (W.contents self.new.stream)
            result bytes.now }
    {
        self.meter.clear();
        self.stream.write(bytes)
    }

    fn flush(&mut self) -> io::Result<()>
        ensures bytes { Keeps None None }
        ensures stream { Keeps (W.contents self.old.stream) (W.contents self.new.stream) }
    {
        self.stream.flush()
    }
}
