//! Who notes with which numbers legs begin after the next start. A thread of its own writes that down, and nobody waits for it.

ghost use Rattle.std.specs.Prelude.{◌≡◌, IfOk};

use crate::lines::ErrorOutput;
use leg_numbers::{NumbersFault, WriteNotice, first_after, numbers_file};
use stats::Traffic;
use std::alloc::{AllocError, Global};
use std::io::{self, ErrorKind, Read, Write};
use std::net::{Net, Shutdown};
use std::os::unix::net::UnixStream;
use std::sync::Arc;
use std::sync::atomic::{AtomicBool, AtomicU16, Ordering};
use std::thread::{self, JoinHandle, Threads};

/// What the thread that receives and the one that writes a file tell each other.
#[derive(Drop)]
struct SharedNumbers {
    /// With which number each leg begins after the next start.
    cells: Vec<AtomicU16>,
    /// Whether the last note couldn't be written.
    has_failed: AtomicBool,
}

/// Notes with which number each leg begins after the next start.
#[derive(Drop)]
pub struct NumberKeeper {
    /// By the number of each leg the number after its newest, at the last note; the one with which it begins while nothing was sent on it.
    next: Vec<u16>,
    first: Arc<SharedNumbers, Global>,
    notice: WriteNotice,
    /// Rings there for each note.
    bell: UnixStream,
    thread: JoinHandle<()>,
}

/// What the thread writes down, and where.
#[derive(Drop)]
struct NumberWriter<W: Drop> {
    alloc: Global,
    /// Each write replaces the file as a whole.
    file: W,
    /// The SHA-256 of the settings.
    digest: Vec<u8>,
    first: Arc<SharedNumbers, Global>,
    bell: UnixStream,
}

/// Notes at this path, from now on, the numbers of a unit whose settings have this SHA-256 and whose legs begin with these. The first note
/// stands there at once. Fails as `NoMemory`; or as `Unwritable`, if the system doesn't let a file be there, or has no thread for it.
pub fn open_numbers<R: AllocGlobal + ErrorOutput + Net + Threads>(
    rt: &R,
    path: &str,
    digest: &[u8],
    first: Vec<u16>,
) -> Result<NumberKeeper, NumbersFault>
    ensures { IfOk result (λ keeper. keeper.next ≡ first) }
{
    let Ok((bell, heard)) = bells(rt) else {
        return Err(NumbersFault::Unwritable);
    };
    let (cells, shared) = cells_of(rt.alloc(), first.as_slice())?;
    let mut writer = writer_of(rt, path, digest, shared, heard)?;
    if !writer.write() {
        return Err(NumbersFault::Unwritable);
    }
    match start_writing(rt, writer) {
        Some(thread) => Ok(NumberKeeper {
            next: first,
            first: cells,
            notice: WriteNotice::new(),
            bell,
            thread,
        }),
        None => Err(NumbersFault::Unwritable),
    }
}

/// Starts the thread that writes down each note, if the system has one for it.
fn start_writing<R: Threads, W: Write + Send + Drop + 'static>(
    rt: &R,
    writer: NumberWriter<W>,
) -> Option<JoinHandle<()>> {
    thread::spawn(rt, move || write_numbers(writer)).ok()
}

/// Who writes these numbers at the path, of a unit whose settings have this SHA-256, when this bell rings.
fn writer_of<R: AllocGlobal + ErrorOutput>(
    rt: &R,
    path: &str,
    digest: &[u8],
    first: Arc<SharedNumbers, Global>,
    bell: UnixStream,
) -> Result<NumberWriter<R::Replaced>, AllocError> {
    Ok(NumberWriter {
        alloc: rt.alloc(),
        file: rt.replaced(
            String::from_str(rt.alloc(), path)?,
            beside_of(rt.alloc(), path)?,
        ),
        digest: Vec::from_slice(rt.alloc(), digest)?,
        first,
        bell,
    })
}

/// Who rings, without ever waiting, and who hears it.
fn bells<R: Net>(rt: &R) -> io::Result<(UnixStream, UnixStream)> {
    let (bell, heard) = UnixStream::pair(rt)?;
    bell.set_nonblocking(true)?;
    Ok((bell, heard))
}

/// Where a file is written before it is at the path: beside it.
fn beside_of(alloc: Global, path: &str) -> Result<String, AllocError> {
    format!(in alloc; "{path}.new")
}

/// What legs begin with after the next start that begin with these numbers now, for two who share it.
fn cells_of(
    alloc: Global,
    first: &[u16],
) -> Result<(Arc<SharedNumbers, Global>, Arc<SharedNumbers, Global>), AllocError> {
    let mut cells = Vec::with_capacity(alloc, first.len())?;
    for number in first {
        cells.push(AtomicU16::new(first_after(*number, 0)))?;
    }
    let has_failed = AtomicBool::new(false);
    let first = Arc::new(alloc, SharedNumbers { cells, has_failed })?;
    let shared = Arc::try_clone(&first)?;
    Ok((first, shared))
}

impl NumberKeeper {
    /// Notes what the legs begin with after what was sent on them by now. Whether it is to be said that the note before couldn't be written.
    pub(crate) fn note(&mut self, traffic: &Traffic) -> bool {
        for leg in 0..self.next.len() {
            self.note_leg(leg, traffic);
        }
        let has_failed = self.first.has_failed.load(Ordering::SeqCst);
        let _ = self.bell.write(b"\n");
        self.notice.take(has_failed)
    }

    /// The same of this leg.
    fn note_leg(&mut self, leg: usize, traffic: &Traffic) {
        let Some(noted) = self.next.as_mut_slice().get_mut(leg) else {
            return;
        };
        let next = next_of(traffic, leg).unwrap_or(*noted);
        let given = next.wrapping_sub(*noted);
        *noted = next;
        if let Some(cell) = self.first.cells.get(leg) {
            cell.store(first_after(next, given), Ordering::SeqCst);
        }
    }

    /// The unit has ended: waits until the last note is written.
    pub fn finish<R: Threads>(self, rt: &R) {
        let NumberKeeper { bell, thread, .. } = self;
        let _ = bell.shutdown(Shutdown::Write);
        thread.join(rt);
    }
}

/// The number after the newest that was sent on this leg, if any was.
fn next_of(traffic: &Traffic, leg: usize) -> Option<u16> {
    let leg = u16::try_from(leg).ok()?;
    traffic.leg(leg)?.next
}

/// Writes down each note when the bell rings, until nobody notes any more.
fn write_numbers<W: Write + Drop>(writer: NumberWriter<W>) {
    let mut writer = writer;
    for _ring in 0..u64::MAX {
        let is_over = writer.is_over();
        let is_written = writer.write();
        writer.first.has_failed.store(!is_written, Ordering::SeqCst);
        if is_over {
            return;
        }
    }
}

impl<W: Write + Drop> NumberWriter<W> {
    /// Waits until the bell rings; whether it rings no more.
    fn is_over(&mut self) -> bool {
        let mut rings = [0; 64];
        match self.bell.read(rings.as_mut_slice()) {
            Ok(0) => true,
            Ok(_) => false,
            Err(error) => error.kind() != ErrorKind::Interrupted,
        }
    }

    /// Puts a file with the numbers as they are now in the place of the one before, as a whole; whether that was done.
    fn write(&mut self) -> bool {
        let Ok(noted) = self.noted() else {
            return false;
        };
        self.file.write(noted.as_slice()).is_ok()
    }

    /// What the file has with the numbers as they are now.
    fn noted(&self) -> Result<Vec<u8>, AllocError> {
        let cells = self.first.cells.as_slice();
        let mut numbers = Vec::with_capacity(self.alloc, cells.len())?;
        for cell in cells {
            numbers.push(cell.load(Ordering::SeqCst))?;
        }
        numbers_file(self.alloc, self.digest.as_slice(), numbers.as_slice())
    }
}
