//! A conference, from its opening on.

use conference::Conference;
use std::alloc::Global;
use std::test::Fail;

/// The settings of `examples/room.toml`, with one worker.
const ROOM: &str =
    "workers = 1\nring = 8\nhistory = 128\ntimeout_ms = 1000\nreport_ms = 60000\npli_gap_ms = 500\n\
    unit_ssrc = 9\ncname = \"sfu\"\n[[endpoint]]\nssrc = 16\n[[endpoint]]\nssrc = 17\n\
    [[leg]]\nsubscriber = 1\npublisher = 0\nout_ssrc = 257\nfirst_seq = 100\n";

/// What a compound of the unit begins with: an RR without blocks and its CNAME.
const HEAD: [u8; 24] = [
    0x80, 0xc9, 0, 1, 0, 0, 0, 9, 0x81, 0xca, 0, 3, 0, 0, 0, 9, 1, 3, 0x73, 0x66, 0x75, 0, 0, 0,
];

fn open_room(alloc: Global, text: &str) -> Result<Conference, Fail> {
    match Conference::open(alloc, text.as_bytes()) {
        Ok(conference) => Ok(conference),
        Err(_) => Err("open".into()),
    }
}

const PACKET: [u8; 14] = [0x80, 0x60, 0, 7, 0, 0, 0x0b, 0xb8, 0, 0, 0, 16, 0xaa, 0xbb];

/// The same under the leg's source and number.
const SENT_ON: [u8; 14] = [0x80, 0x60, 0, 100, 0, 0, 0x0b, 0xb8, 0, 0, 1, 1, 0xaa, 0xbb];

const REPORT: [u8; 8] = [0x80, 0xc9, 0, 1, 0, 0, 0, 17];

/// 17 asks for at most 1,000 bits per second of what it gets under source 257.
const REQUEST: [u8; 20] = [
    0x83, 0xcd, 0, 4, 0, 0, 0, 17, 0, 0, 0, 0, 0, 0, 1, 1, 0, 7, 0xd0, 0x28,
];

/// What 16 is asked for that.
const ASKED: [u8; 20] = [
    0x83, 0xcd, 0, 4, 0, 0, 0, 17, 0, 0, 0, 0, 0, 0, 0, 16, 0, 7, 0xd0, 0x28,
];

/// What 17 is told of it.
const TOLD: [u8; 20] = [
    0x84, 0xcd, 0, 4, 0, 0, 1, 1, 0, 0, 0, 0, 0, 0, 0, 17, 0, 7, 0xd0, 0x28,
];

/// Whether the datagram is heard.
fn hears(conference: &mut Conference, moment: u64, endpoint: u16, bytes: &[u8]) -> bool {
    conference.hear(moment, endpoint, bytes).is_ok()
}

/// Whether as much of the datagram is heard as the settings say, which is all of it.
fn hears_limited(conference: &mut Conference, moment: u64, endpoint: u16, bytes: &[u8]) -> bool {
    conference.hear_limited(moment, endpoint, bytes).is_ok() && conference.entries_beyond() == 0
}

/// Whether the next datagram goes to this endpoint, begins with this head and ends so.
fn is_next(conference: &Conference, endpoint: u16, head: &[u8], end: &[u8]) -> bool {
    match conference.next() {
        Some(next) => {
            next.endpoint == endpoint && next.bytes.starts_with(head) && next.bytes.ends_with(end)
        }
        None => false,
    }
}

/// The same of the next datagram, which is taken.
fn takes(conference: &mut Conference, endpoint: u16, head: &[u8], end: &[u8]) -> bool {
    let is_so = is_next(conference, endpoint, head, end);
    conference.take_next();
    is_so
}

/// Whether so many requests are announced for the publisher.
fn announces(conference: &Conference, publisher: u16, count: usize) -> bool {
    match conference.announced(publisher) {
        Some(set) => set.len() == count,
        None => false,
    }
}

/// Whether so many requests are live for the publisher, all of which its certificate keeps.
fn certifies(conference: &Conference, publisher: u16, count: usize) -> bool {
    match conference.certified(publisher) {
        Some(shown) => shown.live.len() == count && shown.cert.kept.len() == count,
        None => false,
    }
}

/// Whether the leg is switched off at this moment.
fn selects_off(conference: &mut Conference, moment: u64) -> bool {
    conference.select(moment, 0, false).is_ok()
}

/// Whether it is told that it is this moment.
fn ticks(conference: &mut Conference, moment: u64) -> bool {
    conference.tick(moment).is_ok()
}

/// Whether nothing is left to do or to be sent, once what waits is done.
fn settles(conference: &mut Conference) -> bool {
    conference.settle().is_ok() && conference.waiting().tasks == 0 && conference.next().is_none()
}

/// Whether nothing is left, once the leg is switched off and a moment has passed.
fn ends(conference: &mut Conference) -> bool {
    selects_off(conference, 40) && ticks(conference, 50) && settles(conference)
}

/// Both come, and 17 asks; so 16 is asked, and 17 told.
fn asks(conference: &mut Conference) -> bool {
    hears(conference, 0, 0, PACKET.as_slice())
        && hears(conference, 0, 1, REPORT.as_slice())
        && hears(conference, 10, 1, REQUEST.as_slice())
        && takes(conference, 0, HEAD.as_slice(), ASKED.as_slice())
        && takes(conference, 1, HEAD.as_slice(), TOLD.as_slice())
}

/// Then a packet goes on.
fn sends_on(conference: &mut Conference) -> bool {
    announces(conference, 0, 1)
        && certifies(conference, 0, 1)
        && conference.certified(2).is_none()
        && hears_limited(conference, 30, 0, PACKET.as_slice())
        && takes(conference, 1, SENT_ON.as_slice(), SENT_ON.as_slice())
}

/// All of that.
fn serves(conference: &mut Conference) -> bool {
    asks(conference) && sends_on(conference) && ends(conference)
}

#[test]
fn serves_a_conference(rt: HostRuntime) -> Result<(), Fail> {
    let is_so = serves(&mut open_room(rt.alloc(), ROOM)?);
    assert!(rt; is_so);
    Ok(())
}
