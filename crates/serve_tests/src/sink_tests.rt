//! What is counted of who can't be sent anything.
use crate::loopback::{ANY_PORT, client_at, ran, settings_in};
use serving::{Client, Location, Pace, RunStatus, Sockets};
use std::net::UdpSocket;
use std::sync::Wait;
use std::test::Fail;
use std::thread::Threads;
use std::time::Clock;
use workers::Unwatched;

/// The settings of a unit that sends each endpoint what the other publishes.
const BOTH_WAYS: &str =
    "workers = 2\nring = 64\nhistory = 128\ntimeout_ms = 86400000\nreport_ms = 86400000\npli_gap_ms = 500\nunit_ssrc = 9\ncname = \"sfu\"\n[[endpoint]]\nssrc = 16\n[[endpoint]]\nssrc = 17\n[[leg]]\nsubscriber = 0\npublisher = 1\nout_ssrc = 129\nfirst_seq = 65500\n[[leg]]\nsubscriber = 1\npublisher = 0\nout_ssrc = 130\nfirst_seq = 65500\n";

/// An RTP packet of source 16.
const PACKET: [u8; 14] = [0x80, 0x60, 0, 7, 0, 0, 0x0b, 0xb8, 0, 0, 0, 16, 0xaa, 0xbb];

/// How many datagrams are heard, sent and failed if a publisher at this socket sends a packet, and who only listens never said where it is.
fn sent_to_nobody(
    rt: &(impl AllocGlobal + Threads + Wait + Sync + Clock),
    unit: &UdpSocket,
    publisher: &UdpSocket,
) -> Result<[u64; 3], Fail> {
    let listener = Client {
        location: Location::Learned(None),
        learns_ssrc: false,
        receive_only: true,
    };
    let clients = [client_at(publisher)?, listener];
    let settings = settings_in(rt.alloc(), BOTH_WAYS)?;
    publisher.send_to(PACKET.as_slice(), unit.local_addr()?)?;
    let run_status = RunStatus::new();
    let sockets = Sockets::one(unit);
    let pace = Pace {
        turns: 20,
        tick_ms: 50,
    };
    let report = ran(
        rt,
        sockets,
        &settings,
        &clients,
        pace,
        &run_status,
        Unwatched,
    )?;
    Ok([report.heard, report.sent, report.failed])
}

/// The listener is there from the start, by a report that is made in its name.
#[test]
fn counts_what_nobody_is_sent(rt: HostRuntime) -> Result<(), Fail> {
    let unit = UdpSocket::bind(&rt, ANY_PORT)?;
    let publisher = UdpSocket::bind(&rt, ANY_PORT)?;
    let counts = sent_to_nobody(&rt, &unit, &publisher)?;
    assert_eq!(rt; counts, [2, 0, 1]);
    Ok(())
}
