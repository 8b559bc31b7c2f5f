//! What the system dropped at the unit's sockets: a thread reads it once a second, and nobody waits for that.

use crate::address::address_word;
use crate::socket::Sockets;
use crate::table::dropped_at;
use operations::RunStatus;
use std::alloc::Global;
use std::fs::File;
use std::io::{ErrorKind, Read, Seek};
use std::net::{Net, Shutdown};
use std::os::unix::net::UnixStream;
use std::rt::Files;
use std::sync::Arc;
use std::sync::atomic::{AtomicU64, Ordering};
use std::thread::{self, JoinHandle, Threads};
use std::time::Duration;

/// Where Linux says it of sockets of each version.
const TABLES: [&str; 2] = ["/proc/net/udp", "/proc/net/udp6"];

/// How many milliseconds lie between two looks.
const LOOK_MS: u64 = 1000;

/// The thread that looks.
#[derive(Drop)]
pub struct DropWatch {
    bell: UnixStream,
    thread: JoinHandle<()>,
}

/// What the thread looks at, and where it says what it saw.
#[derive(Drop)]
struct Looker {
    alloc: Global,
    tables: Vec<File>,
    /// The addresses of the sockets, as the tables spell them.
    addresses: Vec<String>,
    /// Whatever comes there ends it.
    bell: UnixStream,
    /// One more than what was dropped; 0 before the first look.
    unread: Arc<AtomicU64, Global>,
}

/// Starts the thread, which says to the run's status what was dropped. If the system says nothing of it, or has no thread, there is none.
pub fn watch_drops<R: AllocGlobal + Files<File = File> + Net + Threads>(
    rt: &R,
    sockets: Sockets<'_>,
    run_status: &RunStatus,
) -> Option<DropWatch> {
    let (bell, heard) = bells(rt)?;
    let (looker, shown) = looker_with(rt, sockets, heard)?;
    let thread = thread::spawn(rt, move || look_on(looker)).ok()?;
    run_status.show_unread(shown);
    Some(DropWatch { bell, thread })
}

/// Who rings, and who hears it, or that it is time for the next look.
fn bells<R: Net>(rt: &R) -> Option<(UnixStream, UnixStream)> {
    let (bell, heard) = UnixStream::pair(rt).ok()?;
    let wait = Some(Duration::from_millis(LOOK_MS));
    heard.set_read_timeout(wait).ok()?;
    Some((bell, heard))
}

/// Who looks at what there is of these sockets until it hears this bell, and where it says what it saw.
fn looker_with<R: AllocGlobal + Files<File = File>>(
    rt: &R,
    sockets: Sockets<'_>,
    bell: UnixStream,
) -> Option<(Looker, Arc<AtomicU64, Global>)> {
    let alloc = rt.alloc();
    let addresses = addresses_of(alloc, sockets)?;
    let tables = tables_of(rt)?;
    let (unread, shown) = cells(alloc)?;
    let looker = Looker {
        alloc,
        tables,
        addresses,
        bell,
        unread,
    };
    Some((looker, shown))
}

/// A count for the thread that looks, and the same for those who show it.
fn cells(alloc: Global) -> Option<(Arc<AtomicU64, Global>, Arc<AtomicU64, Global>)> {
    let unread = Arc::new(alloc, AtomicU64::new(0)).ok()?;
    let shown = Arc::try_clone(&unread).ok()?;
    Some((unread, shown))
}

impl DropWatch {
    /// Ends the thread.
    pub fn finish<R: Threads>(self, rt: &R) {
        let DropWatch { bell, thread } = self;
        let _ = bell.shutdown(Shutdown::Both);
        thread.join(rt);
    }
}

/// The tables that there are; `None` if there is none.
fn tables_of<R: AllocGlobal + Files<File = File>>(rt: &R) -> Option<Vec<File>> {
    let mut tables = Vec::new(rt.alloc());
    for path in TABLES {
        if let Ok(table) = File::open(rt, path) {
            tables.push(table).ok()?;
        }
    }
    if tables.is_empty() {
        return None;
    }
    Some(tables)
}

/// The addresses of the sockets, as the tables spell them.
fn addresses_of(alloc: Global, sockets: Sockets<'_>) -> Option<Vec<String>> {
    let listening = sockets.listening().ok()?;
    let mut addresses = Vec::new(alloc);
    let media = address_word(alloc, listening.media).ok()?;
    addresses.push(media).ok()?;
    if let Some(rtcp) = listening.rtcp {
        let rtcp = address_word(alloc, rtcp).ok()?;
        addresses.push(rtcp).ok()?;
    }
    Some(addresses)
}

/// Looks until the bell rings.
fn look_on(looker: Looker) {
    let mut looker = looker;
    for _look in 0..u64::MAX {
        if let Some(dropped) = looker.dropped() {
            looker
                .unread
                .store(dropped.saturating_add(1), Ordering::SeqCst);
        }
        if looker.is_over() {
            return;
        }
    }
}

impl Looker {
    /// What was dropped by now; `None` if a table couldn't be read.
    fn dropped(&mut self) -> Option<u64> {
        let mut total: u64 = 0;
        for at in 0..self.tables.len() {
            total = total.saturating_add(self.dropped_in(at)?);
        }
        Some(total)
    }

    /// The same by the table at this place.
    fn dropped_in(&mut self, at: usize) -> Option<u64> {
        let mut text = Vec::new(self.alloc);
        let Some(table) = self.tables.as_mut_slice().get_mut(at) else {
            return Some(0);
        };
        table.rewind().ok()?;
        let _ = table.read_to_end(&mut text).ok()?;
        let mut total: u64 = 0;
        for address in self.addresses.iter() {
            let dropped = dropped_at(self.alloc, text.as_slice(), address.as_bytes()).ok()?;
            total = total.saturating_add(dropped);
        }
        Some(total)
    }

    /// Waits for the bell, and no longer than until the next look.
    fn is_over(&mut self) -> bool {
        let mut ring = [0; 1];
        match self.bell.read(ring.as_mut_slice()) {
            Ok(_) => true,
            Err(error) => !matches!(
                error.kind(),
                ErrorKind::WouldBlock | ErrorKind::TimedOut | ErrorKind::Interrupted
            ),
        }
    }
}
