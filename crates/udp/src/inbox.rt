//! What comes to the sockets.

ghost use Rattle.std.specs.Prelude.{◌≡◌, ◌≤◌, None, length, IfOk, IfSome};
ghost use Rattle.udp.specs.Sockets.{is_silence};

use crate::socket::Sockets;
use std::io::{self, ErrorKind};
use std::net::SocketAddr;

/// How many receives in a row are from the socket of RTCP if both have something.
const RTCP_TURNS: u32 = 16;

/// The datagrams that come to the sockets. A receive waits no longer than the read timeout of the socket for media.
#[derive(Drop)]
pub(crate) struct Inbox<'a> {
    sockets: Sockets<'a>,
    /// The moment at which the socket for RTCP was asked last, and how many times it may be asked still.
    asked_ms: Option<u64>,
    rtcp_turns: u32,
}

impl<'a> Inbox<'a> {
    /// The datagrams that come to these sockets from now on.
    pub(crate) fn new(sockets: Sockets<'a>) -> Inbox<'a>
        ensures sockets { result.sockets ≡ sockets.entry }
        ensures asked { (result.asked_ms ≡ None) × (result.rtcp_turns ≡ 0) }
    {
        Inbox {
            sockets,
            asked_ms: None,
            rtcp_turns: 0,
        }
    }

    /// The next datagram of either socket: how long it is, and where it came from. The last moment that was told was this one.
    pub(crate) fn receive(&mut self, moment: u64, out: &mut [u8]) -> io::Result<(usize, SocketAddr)>
        ensures within { IfOk result (λ came. came.0 ≤ length out.new) }
        ensures length { length out.new ≡ length out.old }
        ensures sockets { self.new.sockets ≡ self.old.sockets }
    {
        match self.receive_rtcp(moment, out) {
            Some(came) => came,
            None => self.sockets.media.recv_from(out),
        }
    }

    /// The next datagram of the socket for RTCP, if it is its turn and there is one.
    fn receive_rtcp(
        &mut self,
        moment: u64,
        out: &mut [u8],
    ) -> Option<io::Result<(usize, SocketAddr)>>
        ensures within { IfSome result (λ r. IfOk r (λ came. came.0 ≤ length out.new)) }
        ensures length { length out.new ≡ length out.old }
        ensures sockets { self.new.sockets ≡ self.old.sockets }
    {
        let rtcp = self.sockets.rtcp?;
        if self.asked_ms != Some(moment) {
            self.asked_ms = Some(moment);
            self.rtcp_turns = RTCP_TURNS;
        }
        self.rtcp_turns = self.rtcp_turns.checked_sub(1)?;
        match rtcp.recv_from(out) {
            Ok(came) => Some(Ok(came)),
            Err(error) if is_silence(error.kind()) => {
                self.rtcp_turns = 0;
                None
            }
            Err(error) => Some(Err(error)),
        }
    }
}

/// Whether a receive ended so since nothing came in time, or since a signal came meanwhile.
pub(crate) fn is_silence(kind: ErrorKind) -> bool
    ensures { result ≡ is_silence kind }
{
    matches!(
        kind,
        ErrorKind::WouldBlock | ErrorKind::TimedOut | ErrorKind::Interrupted
    )
}
