//! The sockets of a unit, and what is sent by them.

ghost use Rattle.std.specs.Prelude.{◌≡◌, None, true, vec_len, is_some, map, replicate, IfOk, IfSome, OnOk};
ghost use Rattle.seats.specs.Exchange.{IsToldAs};
ghost use Rattle.udp.specs.Sockets.{IsToldUnder};

use addresses::{Directory, Kind, Listening, Naming};
use events::Refusal;
use ports::{SendFault, Sink};
use rtcp_compound::is_rtcp;
use seats::{Names, told_as};
use stats::Traffic;
use std::alloc::{AllocError, Global};
use std::io;
use std::net::UdpSocket;
use std::time::Duration;

/// How long a receive waits, in milliseconds, so that time goes on while nothing comes.
const RECEIVE_MS: u64 = 10;

/// How long it waits if RTCP comes to a socket of its own, which is asked when the moment has changed.
const SHORT_RECEIVE_MS: u64 = 2;

/// The sockets of a unit: one for all (RFC 5761), or one for RTP and one for RTCP (RFC 3550, section 11).
#[derive(Clone, Copy)]
pub struct Sockets<'a> {
    /// The one for all, or for RTP.
    pub media: &'a UdpSocket,
    /// The one for RTCP, if it has its own.
    pub rtcp: Option<&'a UdpSocket>,
}

impl<'a> Sockets<'a> {
    /// One socket for all.
    pub fn one(socket: &'a UdpSocket) -> Sockets<'a>
        ensures media { result.media ≡ socket.entry }
        ensures alone { result.rtcp ≡ None }
    {
        Sockets {
            media: socket,
            rtcp: None,
        }
    }

    /// Where they are bound, unless the system doesn't say.
    pub fn listening(self) -> io::Result<Listening>
        ensures { IfOk result (λ listening. is_some listening.rtcp ≡ is_some self.entry.rtcp) }
    {
        let media = self.media.local_addr()?;
        match self.rtcp {
            Some(socket) => {
                let rtcp = Some(socket.local_addr()?);
                Ok(Listening { media, rtcp })
            }
            None => Ok(Listening { media, rtcp: None }),
        }
    }

    /// Has receives wait no longer than they may, unless the system doesn't.
    pub fn waits_a_little(self) -> bool {
        match self.rtcp {
            None => waits(self.media, RECEIVE_MS),
            Some(rtcp) => {
                waits(self.media, SHORT_RECEIVE_MS) && rtcp.set_nonblocking(true).is_ok()
            }
        }
    }
}

/// Has the socket's receives wait so many milliseconds, unless the system doesn't.
fn waits(socket: &UdpSocket, wait_ms: u64) -> bool {
    let wait = Duration::from_millis(wait_ms);
    socket.set_read_timeout(Some(wait)).is_ok()
}

/// Sends datagrams to the endpoints' clients, and counts them.
#[derive(Drop)]
pub struct SocketSink<'a> {
    sockets: Sockets<'a>,
    /// Where the client of each endpoint is.
    directory: &'a Directory,
    traffic: &'a Traffic,
    /// What a client is told under its own name.
    draft: Vec<u8>,
    /// How many sends failed.
    failures: u64,
}

impl<'a> SocketSink<'a> {
    /// Sends by these sockets to the endpoints' clients.
    pub fn new(
        alloc: Global,
        sockets: Sockets<'a>,
        directory: &'a Directory,
        traffic: &'a Traffic,
    ) -> SocketSink<'a>
        ensures ends { (result.sockets ≡ sockets.entry) × (result.directory ≡ directory.entry)
            × (result.traffic ≡ traffic.entry) }
        ensures nothing { result.failures ≡ 0 }
    {
        SocketSink {
            sockets,
            directory,
            traffic,
            draft: Vec::new(alloc),
            failures: 0,
        }
    }

    /// Sends these bytes to the endpoint's client, and says whether the system took them. RTCP goes from its socket to its address, under the client's
    /// own names if these are learned; anything else from the other one, as it is (RFC 5761, section 4).
    fn is_sent(&mut self, endpoint: u16, bytes: &[u8]) -> bool
        ensures { self.new.failures ≡ self.old.failures }
    {
        let directory = self.directory;
        if !is_rtcp(bytes) {
            return is_given(directory, self.sockets.media, endpoint, Kind::Rtp, bytes);
        }
        let socket = self.sockets.rtcp.unwrap_or(self.sockets.media);
        match told(directory.naming(endpoint), bytes, &mut self.draft) {
            Some(told) => is_given(directory, socket, endpoint, Kind::Rtcp, told),
            None => false,
        }
    }
}

/// Sends these bytes from this socket to where those of this kind go, and says whether the system took them.
fn is_given(
    directory: &Directory,
    socket: &UdpSocket,
    endpoint: u16,
    kind: Kind,
    bytes: &[u8],
) -> bool {
    match directory.address(endpoint, kind) {
        Some(address) => socket.send_to(bytes, address).is_ok(),
        None => false,
    }
}

/// What a client that is told so is sent of this datagram: that, or what is written into the draft. Nothing while its names are being changed, and for
/// want of memory.
fn told<'d>(naming: Naming, bytes: &'d [u8], draft: &'d mut Vec<u8>) -> Option<&'d [u8]>
    ensures told { IfSome result (λ told. IsToldUnder naming bytes.now told.now) }
    ensures given { naming ≡ Naming.Given → is_some result ≡ true }
{
    match naming {
        Naming::Given => Some(bytes),
        Naming::Own(names) => match tell(names, bytes, draft) {
            Ok(()) => Some(draft.as_slice()),
            Err(_) => None,
        },
        Naming::Changing => None,
    }
}

/// Writes a datagram as a client with these names is told it. Refused for want of memory alone.
fn tell(names: Names, bytes: &[u8], draft: &mut Vec<u8>) -> Result<(), AllocError>
    ensures { OnOk result (IsToldAs names bytes.now draft.new.items) }
{
    draft.clear();
    draft.extend_from_slice(bytes)?;
    told_as(names, draft.as_mut_slice());
    Ok(())
}

impl Sink for SocketSink<'_> {
    ghost use Rattle.std.specs.Prelude.{None};

    ghost shown = { λ s. record { handed = None; failures = s.failures } };

    fn send(&mut self, endpoint: u16, bytes: &[u8]) -> Result<(), SendFault> {
        if self.is_sent(endpoint, bytes) {
            self.traffic.sent(endpoint, bytes);
            return Ok(());
        }
        self.traffic.failed(endpoint);
        if self.failures == u64::MAX {
            return Ok(());
        }
        self.failures += 1;
        Err(SendFault)
    }

    fn missed(&mut self, leg: u16) {
        self.traffic.missed(leg);
    }

    fn skipped(&mut self, leg: u16) {
        self.traffic.skipped(leg);
    }

    fn refused(&mut self, endpoint: Option<u16>, refusal: Refusal) {
        self.traffic.refused(endpoint, refusal);
    }
}

/// So many sinks on the same sockets.
pub fn socket_sinks<'a>(
    alloc: Global,
    sockets: Sockets<'a>,
    directory: &'a Directory,
    traffic: &'a Traffic,
    count: usize,
) -> Result<Vec<SocketSink<'a>>, AllocError>
    ensures count { IfOk result (λ sinks. vec_len sinks ≡ count) }
    ensures each { IfOk result
        (λ sinks. map (λ sink. sink.sockets) sinks.items ≡ replicate count sockets.entry) }
{
    let mut sinks = Vec::with_capacity(alloc, count)?;
    for _sink in 0..count {
        sinks.push(SocketSink::new(alloc, sockets, directory, traffic))?;
    }
    Ok(sinks)
}
