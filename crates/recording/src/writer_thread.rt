//! Blocks of bytes that nobody waits for: one thread hands them on, and one of its own writes them.

use crate::faults::WriterFault;
use rtrb::{Consumer, Producer, RingBuffer};
use std::alloc::Global;
use std::io::{ErrorKind, Read, Write};
use std::net::{Net, Shutdown};
use std::os::unix::net::UnixStream;
use std::sync::Arc;
use std::sync::atomic::{AtomicU64, Ordering};
use std::thread::{self, JoinHandle, Threads};

/// So many lists whose bytes were written are kept for the next blocks.
const SPARES: usize = 4;

/// What is handed on.
#[derive(Drop)]
enum Parcel<W: Drop> {
    /// Bytes that are to be written.
    Block(Vec<u8>),
    /// What comes after it is written there.
    SwitchTo(W),
}

/// Where blocks are handed on. Once it is closed or dropped, what waits is written and the thread ends.
#[derive(Drop)]
pub struct Outlet<W: Drop> {
    parcels: Producer<Parcel<W>, Global>,
    spares: Consumer<Vec<u8>, Global>,
    /// Rings there for each parcel.
    bell: UnixStream,
    /// How many writers came after the first one.
    turns: u64,
    /// One more than the turn of the writer that failed last; 0 before.
    failed: Arc<AtomicU64, Global>,
}

/// Where blocks come from that are to be written.
#[derive(Drop)]
struct Inlet<W: Drop> {
    /// So many parcels wait at most.
    most: usize,
    parcels: Consumer<Parcel<W>, Global>,
    spares: Producer<Vec<u8>, Global>,
    bell: UnixStream,
    turns: u64,
    failed: Arc<AtomicU64, Global>,
}

/// Starts a thread that writes what is handed on; at most so many parcels wait for it.
pub fn start_writer<R: AllocGlobal + Net + Threads, W: Write + Send + Drop + 'static>(
    rt: &R,
    most: usize,
    writer: W,
) -> Result<(Outlet<W>, JoinHandle<()>), WriterFault> {
    let (outlet, inlet) = way(rt, most)?;
    match thread::spawn(rt, move || write_parcels(inlet, writer)) {
        Ok(thread) => Ok((outlet, thread)),
        Err(_) => Err(WriterFault::System),
    }
}

/// The two ends of the way to the thread.
fn way<R: AllocGlobal + Net, W: Drop>(
    rt: &R,
    most: usize,
) -> Result<(Outlet<W>, Inlet<W>), WriterFault> {
    let alloc = rt.alloc();
    let Ok((parcels, taken)) = RingBuffer::new(alloc, most) else {
        return Err(WriterFault::NoMemory);
    };
    let Ok((written, spares)) = RingBuffer::new(alloc, SPARES) else {
        return Err(WriterFault::NoMemory);
    };
    let Ok(failed) = Arc::new(alloc, AtomicU64::new(0)) else {
        return Err(WriterFault::NoMemory);
    };
    let Ok(shared) = Arc::try_clone(&failed) else {
        return Err(WriterFault::NoMemory);
    };
    let Ok((bell, heard)) = UnixStream::pair(rt) else {
        return Err(WriterFault::System);
    };
    if bell.set_nonblocking(true).is_err() {
        return Err(WriterFault::System);
    }
    Ok((
        Outlet {
            parcels,
            spares,
            bell,
            turns: 0,
            failed,
        },
        Inlet {
            most,
            parcels: taken,
            spares: written,
            bell: heard,
            turns: 0,
            failed: shared,
        },
    ))
}

impl<W: Drop> Outlet<W> {
    /// Hands on a block; whether there was room for it.
    pub fn hand_on(&mut self, block: Vec<u8>) -> bool {
        self.push(Parcel::Block(block))
    }

    /// What is handed on from now on is written there; whether there was room to say so.
    pub fn turn_to(&mut self, writer: W) -> bool {
        let has_room = self.push(Parcel::SwitchTo(writer));
        if has_room {
            self.turns = self.turns.saturating_add(1);
        }
        has_room
    }

    fn push(&mut self, parcel: Parcel<W>) -> bool {
        let has_room = self.parcels.push(parcel).is_ok();
        let _ = self.bell.write(b"\n");
        has_room
    }

    /// A list whose bytes were written, if one is there: its memory serves for the next block.
    pub fn spare(&mut self) -> Option<Vec<u8>> {
        self.spares.pop().ok()
    }

    /// Nothing more is handed on.
    pub fn close(&self) {
        let _ = self.bell.shutdown(Shutdown::Write);
    }

    /// Whether the thread has ended.
    pub fn is_done(&mut self) -> bool {
        self.parcels.is_abandoned()
    }

    /// Whether a block couldn't be written where blocks are written now. Nothing more is written there then.
    pub fn has_failed(&self) -> bool {
        self.failed.load(Ordering::SeqCst) == self.turns.saturating_add(1)
    }
}

/// Writes each block when the bell rings, until nobody hands on any more.
fn write_parcels<W: Write + Drop>(inlet: Inlet<W>, writer: W) {
    let (mut inlet, mut writer) = (inlet, writer);
    for _ring in 0..u64::MAX {
        let is_over = inlet.is_over();
        writer = inlet.write_waiting(writer);
        if is_over {
            return;
        }
    }
}

impl<W: Write + Drop> Inlet<W> {
    /// Waits until the bell rings; whether it rings no more.
    fn is_over(&mut self) -> bool {
        let mut rings = [0; 64];
        match self.bell.read(rings.as_mut_slice()) {
            Ok(0) => true,
            Ok(_) => false,
            Err(error) => error.kind() != ErrorKind::Interrupted,
        }
    }

    /// Writes each block that waits. Gives the writer of those that come next.
    fn write_waiting(&mut self, writer: W) -> W {
        let mut writer = writer;
        for _parcel in 0..self.most {
            match self.parcels.pop() {
                Ok(Parcel::Block(block)) => self.write_block(&mut writer, block),
                Ok(Parcel::SwitchTo(next)) => {
                    writer = next;
                    self.turns = self.turns.saturating_add(1);
                }
                Err(_) => return writer,
            }
        }
        writer
    }

    /// Writes a block, unless one before it couldn't be.
    fn write_block(&mut self, writer: &mut W, block: Vec<u8>) {
        let mark = self.turns.saturating_add(1);
        if self.failed.load(Ordering::SeqCst) == mark {
            return;
        }
        if writer.write_all(block.as_slice()).is_err() {
            self.failed.store(mark, Ordering::SeqCst);
        }
        let _ = self.spares.push(block);
    }
}
