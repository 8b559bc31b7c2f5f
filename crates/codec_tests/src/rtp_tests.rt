//! Each public call on its happy path, and datagrams built by hand from RFC 3550, sections 5.1 and 5.3.1.
use crate::expected::same;
use crate::packet_text::{bytes_of, hex_text};
use rtp_packet::*;
use std::alloc::{AllocError, Global};
use std::test::Fail;
use tmmbr_tuple::Ssrc;

/// Version 2, payload type 96, sequence number 7, timestamp 3,000, SSRC 17, payload `aabb`.
const PLAIN: [u8; 14] = [
    0x80, 0x60, 0, 7, 0, 0, 0x0b, 0xb8, 0, 0, 0, 0x11, 0xaa, 0xbb,
];

#[test]
fn rewritten_under_ssrc_257_and_number_102(rt: HostRuntime) -> Result<(), Fail> {
    // Two bytes after the packet stay as they were.
    let mut out = [0x55; 16];
    let view = RtpView::parse(&PLAIN).map_err(|_| "read")?;
    let size = view.rewritten_into(Ssrc(257), 102, &mut out);
    same(&rt, &size, &Ok(14));
    let text = hex_text(rt.alloc(), &out)?;
    same(&rt, &text.as_str(), &"8060006600000bb800000101aabb5555");
    Ok(())
}

#[test]
fn no_room_in_thirteen_bytes(rt: HostRuntime) -> Result<(), Fail> {
    let view = RtpView::parse(&PLAIN).map_err(|_| "read")?;
    let mut out = [0x55; 13];
    let answer = view.rewritten_into(Ssrc(257), 102, &mut out);
    same(&rt, &answer, &Err(RtpFault::Room));
    same(&rt, &out.as_slice(), &[0x55; 13].as_slice());
    Ok(())
}

/// Datagrams that `parse` refuses, and the number of the fault.
const REFUSED: [(&str, u8); 6] = [
    // Short: no header, or one of eleven bytes.
    ("", 1),
    ("0060000700000bb8000000", 1),
    // Version 0.
    ("0060000700000bb800000011", 2),
    // One contributing source is counted, and none there.
    ("8160000700000bb800000011", 3),
    // An extension of one word that isn't there.
    ("9060000700000bb800000011bede0001", 4),
    // A padding of no bytes.
    ("a060000700000bb80000001100", 5),
];

/// The number of the fault of a datagram; 0 if it has none.
fn fault(alloc: Global, digits: &str) -> Result<u8, AllocError> {
    Ok(match RtpView::parse(bytes_of(alloc, digits)?.as_slice()) {
        Ok(_) => 0,
        Err(fault) => fault.number(),
    })
}

#[test]
fn refused_as_in_the_examples(rt: HostRuntime) -> Result<(), Fail> {
    for (digits, number) in &REFUSED {
        same(&rt, &fault(rt.alloc(), digits)?, &*number);
    }
    Ok(())
}
