//! Where a record is written, and how much of it stands there.

use std::alloc::{AllocError, Global};
use std::fs::File;
use std::io::{self, Write};
use std::os::unix::net::UnixStream;
use std::sync::Arc;
use std::sync::atomic::{AtomicU64, Ordering};

/// How many bytes of a record stand where it is written. Who writes counts them; others look meanwhile.
#[derive(Drop)]
pub struct Written {
    /// So many that are written first aren't the record's.
    before: u64,
    bytes: Arc<AtomicU64, Global>,
}

impl Written {
    ghost use Rattle.std.specs.Prelude.{◌≡◌, IfOk};

    /// None so far, and the first so many won't be the record's.
    pub fn new(alloc: Global, before: u64) -> Result<Written, AllocError>
        ensures { IfOk result (λ w. w.before ≡ before) }
    {
        Ok(Written {
            before,
            bytes: Arc::new(alloc, AtomicU64::new(0))?,
        })
    }

    /// The same count, for who writes.
    pub fn shared(&self) -> Result<Written, AllocError>
        ensures { IfOk result (λ w. w.before ≡ self.now.before) }
    {
        Ok(Written {
            before: self.before,
            bytes: Arc::try_clone(&self.bytes)?,
        })
    }

    /// How many there are by now.
    pub(crate) fn bytes(&self) -> u64 {
        self.bytes
            .load(Ordering::SeqCst)
            .saturating_sub(self.before)
    }

    /// So many more were written, unless the write failed.
    fn count(&self, written: &io::Result<usize>) {
        if let Ok(more) = written {
            let _ = self.bytes.fetch_add(*more as u64, Ordering::SeqCst);
        }
    }
}

/// Where a record is written, with the count of what stands there.
#[derive(Drop)]
pub enum RecordTarget {
    /// Nobody wants one.
    Nobody,
    File(File, Written),
    /// Who asked for it by the control.
    Peer(UnixStream, Written),
}

impl Write for RecordTarget {
    ghost use Rattle.std.specs.Prelude.{◌≡◌, None, Ok, length};
    ghost use Rattle.std.specs.Io.{WritesAtMost};
    ghost use Rattle.std.specs.Io.KnownBytes.{WriteAppends};
    ghost use Rattle.recording.specs.declared.record_target.RecordTarget.TheVariants.{Nobody};

    fn write(&mut self, buf: &[u8]) -> io::Result<usize>
        ensures bound { WritesAtMost result buf.now }
        ensures bytes { WriteAppends None None result buf.now }
        ensures nobody { self.old ≡ Nobody → result ≡ Ok (length buf.now) }
    {
        match self {
            RecordTarget::Nobody => Ok(buf.len()),
            RecordTarget::File(file, count) => {
                let written = file.write(buf);
                count.count(&written);
                written
            }
            RecordTarget::Peer(stream, count) => {
                let written = stream.write(buf);
                count.count(&written);
                written
            }
        }
    }

    fn flush(&mut self) -> io::Result<()> {
        match self {
            RecordTarget::Nobody => Ok(()),
            RecordTarget::File(file, _) => file.flush(),
            RecordTarget::Peer(stream, _) => stream.flush(),
        }
    }
}
