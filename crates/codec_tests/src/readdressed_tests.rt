//! Packets whose bytes are shared, and written over once nobody else holds them.
use shared_packet::{Readdressed, SharedBytes, SharedPacket};
use std::test::Fail;
use tmmbr_tuple::Ssrc;

/// A packet of source 16 with sequence number 8 and the payload `aa bb` (RFC 3550, section 5.1).
const PACKET: [u8; 14] = [0x80, 0x60, 0, 8, 0, 0, 0x0b, 0xb8, 0, 0, 0, 16, 0xaa, 0xbb];

/// Whether nobody may write in place of bytes that others hold, too.
fn stays_shared(bytes: SharedBytes) -> bool {
    let is_refilled = match bytes.share() {
        Ok(other) => !matches!(other.refill(b"ab"), Ok(None)),
        Err(_) => true,
    };
    !is_refilled && bytes.alone().is_none()
}

/// Whether these are the packet's bytes, and others are written in their place.
fn is_refilled(bytes: SharedBytes) -> bool {
    bytes.as_slice() == PACKET.as_slice()
        && match bytes.refill(b"abc") {
            Ok(Some(refilled)) => refilled.as_slice() == b"abc".as_slice(),
            _ => false,
        }
}

/// Who holds bytes alone may write others in their place, and nobody while others hold them.
#[test]
fn refills_what_is_held_alone(rt: HostRuntime) -> Result<(), Fail> {
    let packet = SharedPacket::copy_of(rt.alloc(), &PACKET)?;
    let second = Readdressed::new(packet.share()?, Ssrc(0x0101), 100);
    let is_shared = stays_shared(packet.into_bytes());
    let is_alone = second.into_packet().alone().is_some_and(is_refilled);
    assert!(rt; is_shared && is_alone);
    Ok(())
}
