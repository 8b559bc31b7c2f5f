//! A unit on a socket of the loopback interface, served by one call.
use crate::expected::same;
use crate::loopback::{ANY_PORT, settings_in};
use serving::serve_socket;
use std::io;
use std::net::UdpSocket;
use std::sync::Wait;
use std::test::Fail;
use std::thread::Threads;
use std::time::Clock;

/// The settings of example 54: nobody is gone for a day, and the leg sends endpoint 1 what endpoint 0 publishes.
const ROOM: &str =
    "workers = 2\nring = 64\nhistory = 128\ntimeout_ms = 86400000\nreport_ms = 60000\npli_gap_ms = 500\nunit_ssrc = 9\ncname = \"sfu\"\n[[endpoint]]\nssrc = 16\n[[endpoint]]\nssrc = 17\n[[leg]]\nsubscriber = 1\npublisher = 0\nout_ssrc = 257\nfirst_seq = 100\n";

/// A receiver report of source 17, which says that it is there.
const REPORT: [u8; 8] = [0x80, 0xc9, 0, 1, 0, 0, 0, 17];

/// An RTP packet of source 16.
const PACKET: [u8; 14] = [0x80, 0x60, 0, 7, 0, 0, 0x0b, 0xb8, 0, 0, 0, 16, 0xaa, 0xbb];

/// A TMMBR of source 17, which asks its leg for 1,000 bits per second with an overhead of 40 bytes.
const REQUEST: [u8; 20] = [
    0x83, 0xcd, 0, 4, 0, 0, 0, 17, 0, 0, 0, 0, 0, 0, 1, 1, 0, 7, 0xd0, 0x28,
];

/// What is printed: the packet and its request were sent on, and the subscriber was told that it bounds the publisher.
const PRINTED: &str =
    "heard 3 sent 3 failed 0 lost 0\n84cd00040000001000000000000000110007d028\n84cd00020000001100000000\n";

/// The two endpoints send all of it, the subscriber first.
fn send_all(unit: &UdpSocket, publisher: &UdpSocket, subscriber: &UdpSocket) -> io::Result<()> {
    let address = unit.local_addr()?;
    subscriber.send_to(REPORT.as_slice(), address)?;
    publisher.send_to(PACKET.as_slice(), address)?;
    subscriber.send_to(REQUEST.as_slice(), address)?;
    Ok(())
}

/// What a unit prints that is served to the two for three turns.
fn printed(
    rt: &(impl AllocGlobal + Threads + Wait + Sync + Clock),
    unit: &UdpSocket,
    publisher: &UdpSocket,
    subscriber: &UdpSocket,
) -> Result<String, Fail> {
    let addresses = [publisher.local_addr()?, subscriber.local_addr()?];
    let settings = settings_in(rt.alloc(), ROOM)?;
    let mut written = Vec::new(rt.alloc());
    match serve_socket(rt, unit, &settings, addresses.as_slice(), 3, &mut written) {
        Ok(()) => String::from_utf8(written).map_err(|_| Fail::from("text")),
        Err(_) => Err(Fail::from("served")),
    }
}

/// All was sent before the unit is served: each of three turns receives one datagram, and makes a tick.
#[test]
fn serve_on_loopback(rt: HostRuntime) -> Result<(), Fail> {
    let unit = UdpSocket::bind(&rt, ANY_PORT)?;
    let publisher = UdpSocket::bind(&rt, ANY_PORT)?;
    let subscriber = UdpSocket::bind(&rt, ANY_PORT)?;
    send_all(&unit, &publisher, &subscriber)?;
    let text = printed(&rt, &unit, &publisher, &subscriber)?;
    same(&rt, &text.as_str(), &PRINTED);
    Ok(())
}
