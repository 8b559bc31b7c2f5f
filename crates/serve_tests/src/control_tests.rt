//! Peers that come, ask, are answered and go, as docs/FORMATS.md has it.

use crate::expected::same;
use control_protocol::{MAX_PEERS, Peers, Request};
use std::alloc::{AllocError, Global};
use std::io::{self, ErrorKind, Read, Write};
use std::process::Abort;
use std::test::Fail;

/// A stream that gives these bytes, a few at a time; then nothing comes.
#[derive(Drop)]
struct Line {
    bytes: &'static [u8],
    /// So many bytes it takes of what it is answered;
    takes: usize,
    /// or, if it awaits an answer, the bytes of that, one at a time, and none if the next one is another.
    awaits: Option<&'static [u8]>,
}

impl Read for Line {
    fn read(&mut self, buf: &mut [u8]) -> io::Result<usize> {
        let count = self.bytes.len().min(buf.len()).min(5);
        if count == 0 {
            return Err(io::Error::from(ErrorKind::WouldBlock));
        }
        buf[..count].copy_from_slice(&self.bytes[..count]);
        self.bytes = &self.bytes[count..];
        Ok(count)
    }
}

impl Write for Line {
    fn write(&mut self, buf: &[u8]) -> io::Result<usize> {
        let Some(awaits) = self.awaits else {
            let count = buf.len().min(self.takes);
            self.takes -= count;
            return Ok(count);
        };
        match (buf.first(), awaits.first()) {
            (Some(byte), Some(next)) if *byte == *next => {
                self.awaits = Some(awaits.get(1..).unwrap_or(&[]));
                Ok(1)
            }
            _ => Ok(0),
        }
    }

    fn flush(&mut self) -> io::Result<()> {
        Ok(())
    }
}

/// One who says this, and takes so many bytes.
const fn line_of(bytes: &'static [u8], takes: usize) -> Line {
    Line {
        bytes,
        takes,
        awaits: None,
    }
}

/// One comes that says this, and takes so many bytes. It promises nothing, as those that follow, so that tests are proved without what
/// the calls of peers promise.
fn come(peers: &mut Peers<Line>, bytes: &'static [u8], takes: usize, moment: u64) {
    peers.admit(line_of(bytes, takes), moment);
}

fn asked(peers: &mut Peers<Line>, moment: u64) -> Option<Request> {
    peers.next_request(moment)
}

fn answer(peers: &mut Peers<Line>) {
    peers.answer(b"ok\n");
}

/// What peers ask in forty looks at this moment, each of whom is answered.
fn asked_at(
    alloc: Global,
    peers: &mut Peers<Line>,
    moment: u64,
) -> Result<Vec<Request>, AllocError> {
    let mut all = Vec::new(alloc);
    for _look in 0..40 {
        if let Some(request) = asked(peers, moment) {
            all.push(request)?;
            answer(peers);
        }
    }
    Ok(all)
}

/// They ask this, in turn.
fn ask(
    rt: &impl Abort,
    alloc: Global,
    peers: &mut Peers<Line>,
    moment: u64,
    wanted: &[Request],
) -> Result<(), AllocError> {
    let all = asked_at(alloc, peers, moment)?;
    assert!(rt; all.as_slice() == wanted);
    Ok(())
}

/// Ten come, of whom eight may stay: two who ask, of whom one doesn't take its answer, one who sends too much without an end, and seven
/// who say nothing.
fn ten_come(peers: &mut Peers<Line>) {
    come(peers, b"counts\nstop\n", 100, 0);
    come(peers, b"present\n", 0, 0);
    come(peers, &[b'x'; 1000], 100, 0);
    for _peer in 0..7 {
        come(peers, b"", 100, 0);
    }
}

/// Each is looked at in turn, and nobody is waited for. Who sends too much without an end, or doesn't take its answer, is let go, and who
/// says nothing for long.
fn look_in_turn(rt: &impl Abort, alloc: Global, peers: &mut Peers<Line>) -> Result<(), AllocError> {
    same(rt, &peers.count(), &MAX_PEERS);
    let wanted = [Request::Counts, Request::Present, Request::Stop];
    ask(rt, alloc, peers, 1, &wanted)?;
    same(rt, &peers.count(), &6);
    for (moment, count) in [(9_999, 6), (10_001, 0)] {
        same(rt, &(asked(peers, moment), peers.count()), &(None, count));
    }
    Ok(())
}

/// Of ten peers eight stay; each is looked at in turn, and nobody is waited for. Who says nothing for long, sends too much without an
/// end, or doesn't take its answer is let go.
#[test]
fn looks_at_peers_in_turn(rt: HostRuntime) -> Result<(), Fail> {
    let mut peers = Peers::new(rt.alloc());
    ten_come(&mut peers);
    look_in_turn(&rt, rt.alloc(), &mut peers)?;
    Ok(())
}

/// Who asks for a record, once both were looked at.
fn look_for_record(peers: &mut Peers<Line>) -> Option<Request> {
    let mut last = None;
    for _look in 0..8 {
        if last != Some(Request::Record) {
            last = asked(peers, 1).or(last);
        }
    }
    last
}

/// Who asked last is handed over, and no other.
#[test]
fn hands_over_who_asked_last(rt: HostRuntime) -> Result<(), Fail> {
    let mut peers = Peers::new(rt.alloc());
    come(&mut peers, b"present\n", 100, 0);
    come(&mut peers, b"record\n", 77, 0);
    same(&rt, &look_for_record(&mut peers), &Some(Request::Record));
    let handed_over = match peers.take_last() {
        Some(line) => line.takes,
        None => 0,
    };
    same(&rt, &(handed_over, peers.count()), &(77, 1));
    Ok(())
}

/// Who takes its answer byte by byte is given the next byte each time, and heard again once it took the last.
#[test]
fn hears_again_once_the_answer_is_taken(rt: HostRuntime) -> Result<(), Fail> {
    let mut peers = Peers::new(rt.alloc());
    let line = Line {
        awaits: Some(b"ok\n".as_slice()),
        ..line_of(b"stop\nlegs\n", 0)
    };
    peers.admit(line, 0);
    same(&rt, &asked(&mut peers, 1), &Some(Request::Stop));
    answer(&mut peers);
    same(&rt, &asked(&mut peers, 2), &None);
    same(&rt, &asked(&mut peers, 3), &Some(Request::Legs));
    same(&rt, &peers.count(), &1);
    Ok(())
}
