//! Where a record goes: to a file, or to who asked for it. A thread of its own writes it.

ghost use Rattle.std.specs.Prelude.{◌≡◌, ℕ, true, false, IfOk};
ghost use Rattle.std.specs.String.{string_bytes};
ghost use Rattle.recording.specs.NextRecord.{record_path};
ghost use Rattle.recording.specs.Tapes.{IsPut, new_tape};
ghost use Rattle.operations.specs.Records.{BeginsRecord, IsHead};

use crate::run_status::RunStatus;
use recording::{
    Header, RecordFault, RecordTarget, Recorder, Written, header_text, make_next, record_path,
    start_writer,
};
use std::alloc::Global;
use std::fs::{File, OpenOptions};
use std::io::ErrorKind;
use std::net::Net;
use std::os::unix::fs::OpenOptionsExt;
use std::rt::Files;
use std::thread::Threads;
use std::time::{self, SystemTime};

/// Only its owner may read the file.
const MODE: u32 = 0o600;

/// So many blocks may wait for the disk. With one of 256 KB each that are 64 MB.
const BLOCKS: usize = 256;

/// Where a record goes that a peer asked for, as people are told: who asks makes the file.
const PEER: &str = "peer";

/// The version of the program that records and metrics name.
pub(crate) const VERSION: &str = "1.0.0";

/// A file that was made, and its path.
#[derive(Drop)]
struct NewFile {
    file: File,
    path: String,
}

/// Makes a file at the path, which isn't there yet, and records there what a unit takes in, at most so many bytes. The settings that the
/// unit has come from a file with this SHA-256, but for these first numbers of its legs, if there are any.
pub fn open_record<R: AllocGlobal + Files<File = File> + Net + Threads + time::Clock>(
    rt: &R,
    path: &str,
    limit: u64,
    settings: &[u8],
    first: &[u16],
) -> Result<Recorder, RecordFault>
    ensures begun { IfOk result (λ r. (r.has_begun ≡ true) × (r.is_open ≡ true)) }
    ensures head { IfOk result (λ r. BeginsRecord limit settings.now first.now r.tape) }
    ensures place { IfOk result (λ r. string_bytes r.place ≡ record_path path.now 0) }
{
    let head = head_of(rt, settings, first)?;
    let written = new_count(rt.alloc())?;
    let file = create_numbered(rt, path, 0)?;
    record_in(rt, file, limit, head, written)
}

/// The same; but if a file is at the path, the next one that isn't there is made, of which the number stands behind the path
/// (`record_path`).
pub fn open_next_record<R: AllocGlobal + Files<File = File> + Net + Threads + time::Clock>(
    rt: &R,
    path: &str,
    limit: u64,
    settings: &[u8],
    first: &[u16],
) -> Result<Recorder, RecordFault>
    ensures begun { IfOk result (λ r. (r.has_begun ≡ true) × (r.is_open ≡ true)) }
    ensures head { IfOk result (λ r. BeginsRecord limit settings.now first.now r.tape) }
    ensures place { IfOk result (λ r. (number : ℕ)
        × (string_bytes r.place ≡ record_path path.now number)) }
{
    let head = head_of(rt, settings, first)?;
    let written = new_count(rt.alloc())?;
    let file = create_next(rt, path)?;
    record_in(rt, file, limit, head, written)
}

/// The first new file of the record at the path that isn't there.
fn create_next<R: AllocGlobal + Files<File = File>>(
    rt: &R,
    path: &str,
) -> Result<NewFile, RecordFault>
    ensures { IfOk result (λ file. (number : ℕ)
        × (string_bytes file.path ≡ record_path path.now number)) }
{
    make_next(|number| create_numbered(rt, path, number))
}

/// A new file of the record at the path, the one of this number.
fn create_numbered<R: AllocGlobal + Files<File = File>>(
    rt: &R,
    path: &str,
    number: u32,
) -> Result<NewFile, RecordFault>
    ensures { IfOk result (λ file. string_bytes file.path ≡ record_path path.now number) }
{
    let Ok(path) = record_path(rt.alloc(), path, number) else {
        return Err(RecordFault::NoMemory);
    };
    let file = create(rt, path.as_str())?;
    Ok(NewFile { file, path })
}

/// Records in this file what a unit takes in, at most so many bytes, after this head; what stands there counts so.
fn record_in<R: AllocGlobal + Net + Threads>(
    rt: &R,
    file: NewFile,
    limit: u64,
    head: String,
    written: Written,
) -> Result<Recorder, RecordFault>
    ensures begun { IfOk result (λ r. (r.has_begun ≡ true) × (r.is_open ≡ true)) }
    ensures tape { IfOk result (λ r. IsPut (new_tape limit) (string_bytes head) r.tape) }
    ensures place { IfOk result (λ r. r.place ≡ file.path) }
{
    let Ok(count) = written.shared() else {
        return Err(RecordFault::NoMemory);
    };
    let NewFile { file, path } = file;
    let (outlet, thread) = start_writer(rt, BLOCKS, RecordTarget::File(file, count))?;
    let mut recorder = Recorder::new(rt.alloc(), head, path, written, outlet, thread);
    recorder.begin(limit);
    Ok(recorder)
}

/// Waits until somebody wants what a unit takes in. The settings that the unit has come from a file with this SHA-256, but for these first
/// numbers of its legs, if there are any.
pub(crate) fn idle_record<R: AllocGlobal + Net + Threads + time::Clock>(
    rt: &R,
    settings: &[u8],
    first: &[u16],
) -> Result<Recorder, RecordFault>
    ensures { IfOk result (λ r. (r.has_begun ≡ false) × (r.is_open ≡ false)) }
{
    let head = head_of(rt, settings, first)?;
    let written = new_count(rt.alloc())?;
    let Ok(place) = String::from_str(rt.alloc(), PEER) else {
        return Err(RecordFault::NoMemory);
    };
    let (outlet, thread) = start_writer(rt, BLOCKS, RecordTarget::Nobody)?;
    Ok(Recorder::new(rt.alloc(), head, place, written, outlet, thread))
}

/// A count of what stands where a record is written.
fn new_count(alloc: Global) -> Result<Written, RecordFault> {
    match Written::new(alloc, 0) {
        Ok(written) => Ok(written),
        Err(_) => Err(RecordFault::NoMemory),
    }
}

/// The head of a record of a unit that begins now.
fn head_of<R: AllocGlobal + time::Clock>(
    rt: &R,
    settings: &[u8],
    first: &[u16],
) -> Result<String, RecordFault>
    ensures { IfOk result (λ head. IsHead settings.now first.now (string_bytes head)) }
{
    let header = Header {
        version: VERSION,
        settings,
        began_ms: unix_ms(rt),
        first,
    };
    match header_text(rt.alloc(), &header) {
        Ok(head) => Ok(head),
        Err(_) => Err(RecordFault::NoMemory),
    }
}

/// Ends the record of a unit that has ended, and the notes of its numbers, once all of it is written.
pub fn close_record<R: Threads>(rt: &R, run_status: RunStatus) {
    run_status.finish(rt);
}

/// What the wall clock says, in milliseconds since the beginning of 1970; 0 if it says nothing, or an earlier time.
pub(crate) fn unix_ms<R: time::Clock>(rt: &R) -> u64 {
    let Ok(now) = SystemTime::now(rt) else {
        return 0;
    };
    match now.duration_since(SystemTime::UNIX_EPOCH) {
        Ok(since) => u64::try_from(since.as_millis()).unwrap_or(0),
        Err(_) => 0,
    }
}

/// A new file at the path, for its owner alone.
fn create<R: Files<File = File>>(rt: &R, path: &str) -> Result<File, RecordFault> {
    let opened = OpenOptions::new()
        .write(true)
        .create_new(true)
        .mode(MODE)
        .open(rt, path);
    match opened {
        Ok(file) => Ok(file),
        Err(error) if error.kind() == ErrorKind::AlreadyExists => Err(RecordFault::Exists),
        Err(_) => Err(RecordFault::Failed),
    }
}
