//! Units that answer, and visitors of each kind.

use crate::expected::same;
use std::alloc::Global;
use std::hash::RandomState;
use std::io::{self, ErrorKind, Read, Write};
use std::process::Abort;
use std::test::Fail;
use web::{Inquiry, MAX_VISITORS, Said, Step, Teller, Visitors};

/// A unit that gives an answer for each line that it is asked, a few bytes at a time; then nothing comes, or the end.
#[derive(Drop)]
struct FakeUnit {
    answers: &'static [&'static [u8]],
    left: &'static [u8],
    ends: bool,
}

impl Read for FakeUnit {
    fn read(&mut self, buf: &mut [u8]) -> io::Result<usize> {
        let count = self.left.len().min(buf.len()).min(7);
        if count == 0 {
            return if self.ends {
                Ok(0)
            } else {
                Err(io::Error::from(ErrorKind::WouldBlock))
            };
        }
        buf[..count].copy_from_slice(&self.left[..count]);
        self.left = &self.left[count..];
        Ok(count)
    }
}

impl Write for FakeUnit {
    fn write(&mut self, buf: &[u8]) -> io::Result<usize> {
        let answers = self.answers;
        if !answers.is_empty() {
            self.left = answers[0];
            self.answers = &answers[1..];
        }
        Ok(buf.len())
    }

    fn flush(&mut self) -> io::Result<()> {
        Ok(())
    }
}

const fn fake_unit(answers: &'static [&'static [u8]], ends: bool) -> FakeUnit {
    FakeUnit {
        answers,
        left: b"",
        ends,
    }
}

const ALL: &[&[u8]] = &[
    b"x 1\nok\n",
    b"0 ssrc 16\nok\n",
    b"ok\n",
    b"present 1\nok\n",
    b"leg 0 from 0 to 1\nok\n",
    b"leg 0 from 0 to 1: off\nok\n",
    b"live 2 030d4014\nok\n",
];

/// The same of a unit that knows neither what reports nor what reasons are.
const ALL_BUT_REPORTS: &[&[u8]] = &[
    b"x 1\nok\n",
    b"0 ssrc 16\nok\n",
    b"ok\n",
    b"present 1\nok\n",
    b"refused unknown\n",
    b"refused unknown\n",
    b"live 2 030d4014\nok\n",
];

/// What a unit with these answers has said by a moment, if all was asked.
fn answered(alloc: Global, answers: &'static [&'static [u8]]) -> Option<Said> {
    let mut inquiry = Inquiry::new(alloc, fake_unit(answers, false), 7);
    match inquiry.step(10) {
        Step::Answered => Some(inquiry.into_said()),
        _ => None,
    }
}

/// The moment and the answers, with a line between them, and the publishers of the sets.
fn write_said(text: &mut String, said: &Said) -> Result<(), Fail> {
    write!(text, "{}\n", said.moment_ms)?;
    for part in [
        &said.metrics,
        &said.present,
        &said.legs,
        &said.counts,
        &said.reports,
        &said.why,
    ] {
        text.push_str(str::from_utf8(part.as_slice()).or(Err("no text"))?)?;
        text.push_str("-\n")?;
    }
    for set in &said.sets {
        write!(text, "set {}\n", set.publisher)?;
    }
    Ok(())
}

/// The same of a unit with these answers.
fn said_text(alloc: Global, answers: &'static [&'static [u8]]) -> Result<String, Fail> {
    let mut text = String::new(alloc);
    let said = answered(alloc, answers).ok_or("no answer")?;
    write_said(&mut text, &said)?;
    Ok(text)
}

/// Whether an inquiry of a unit with these answers, which goes after them or is silent, fails at this moment and not before.
fn fails_at(alloc: Global, answers: &'static [&'static [u8]], ends: bool, moment: u64) -> bool {
    let mut inquiry = Inquiry::new(alloc, fake_unit(answers, ends), 0);
    let goes_on = moment == 1 || matches!(inquiry.step(moment.wrapping_sub(1)), Step::Asking);
    goes_on && matches!(inquiry.step(moment), Step::Failed)
}

/// All answers are heard, in pieces, that for the set of the one who is there, too; reports and reasons may be unknown. Who refuses, goes, or is
/// silent for five seconds, has said nothing.
#[test]
fn asks_question_by_question(rt: HostRuntime) -> Result<(), Fail> {
    let alloc = rt.alloc();
    same(
        &rt,
        &said_text(alloc, ALL)?.as_str(),
        &"7\nx 1\n-\n0 ssrc 16\n-\n-\npresent 1\n-\nleg 0 from 0 to 1\n-\nleg 0 from 0 to 1: off\n-\nset 0\n",
    );
    same(
        &rt,
        &said_text(alloc, ALL_BUT_REPORTS)?.as_str(),
        &"7\nx 1\n-\n0 ssrc 16\n-\n-\npresent 1\n-\n-\n-\nset 0\n",
    );
    assert!(rt; fails_at(alloc, &ALL[..2], false, 5_000));
    assert!(rt; fails_at(alloc, &[b"refused full\n"], false, 1));
    assert!(rt; fails_at(alloc, &ALL[..1], true, 1));
    Ok(())
}

/// A visitor who says this, and takes so many bytes; the first byte of what it takes is a digit of the status.
#[derive(Drop)]
struct Caller {
    says: &'static [u8],
    takes: usize,
}

impl Read for Caller {
    fn read(&mut self, buf: &mut [u8]) -> io::Result<usize> {
        let count = self.says.len().min(buf.len());
        if count == 0 {
            return Err(io::Error::from(ErrorKind::WouldBlock));
        }
        buf[..count].copy_from_slice(&self.says[..count]);
        self.says = &self.says[count..];
        Ok(count)
    }
}

impl Write for Caller {
    fn write(&mut self, buf: &[u8]) -> io::Result<usize> {
        let count = buf.len().min(self.takes);
        if count == 0 {
            return Err(io::Error::from(ErrorKind::WouldBlock));
        }
        self.takes -= count;
        Ok(count)
    }

    fn flush(&mut self) -> io::Result<()> {
        Ok(())
    }
}

const fn make_caller(says: &'static [u8], takes: usize) -> Caller {
    Caller { says, takes }
}

const ASKED: &[u8] = b"GET /metrics HTTP/1.1\r\nHost: localhost\r\n\r\n";

/// At this moment so many are left.
fn leaves(
    rt: &impl Abort,
    visitors: &mut Visitors<Caller>,
    teller: &mut Teller,
    moment: u64,
    count: usize,
) {
    visitors.look(teller, moment);
    assert_eq!(rt; visitors.count(), count);
}

/// Who asks and takes the answer is done at once; who asks half, or takes nothing, is let go after ten seconds, and the sixty-fifth takes
/// the place of the first.
fn come_and_go(rt: &impl Abort, visitors: &mut Visitors<Caller>, teller: &mut Teller) {
    visitors.admit(make_caller(ASKED, 10_000), 0);
    leaves(rt, visitors, teller, 1, 0);
    visitors.admit(make_caller(ASKED, 10), 0);
    visitors.admit(make_caller(b"GET /metrics HT", 10_000), 0);
    leaves(rt, visitors, teller, 9_999, 2);
    leaves(rt, visitors, teller, 10_000, 0);
    visitors.admit(make_caller(b"", 0), 0);
    for _visitor in 0..MAX_VISITORS {
        visitors.admit(make_caller(b"", 0), 1);
    }
    leaves(rt, visitors, teller, 10_000, MAX_VISITORS);
}

#[test]
fn waits_for_nobody(rt: HostRuntime) -> Result<(), Fail> {
    let mut visitors = Visitors::new(rt.alloc(), RandomState::new(&rt)?);
    let mut teller = Teller::new(rt.alloc(), String::new(rt.alloc()));
    come_and_go(&rt, &mut visitors, &mut teller);
    Ok(())
}
