//! How a unit is asked, question by question, without waiting for it.

ghost use Rattle.std.specs.Prelude.{◌≡◌, ◌≤◌, ◌+◌, ◌-◌, ◌^◌, [], min, vec_len};

use crate::endpoints::numbers_in;
use crate::said::Said;
use crate::sets::AnnouncedSet;
use control_protocol::{Answered, read_answer};
use std::alloc::Global;
use std::io::{ErrorKind, Read, Write};
use std::mem;

/// So many milliseconds all answers may take.
const PATIENCE_MS: u64 = 5_000;

/// So many bytes an answer may have.
const MAX_ANSWER: usize = 1 << 22;

/// So many bytes are read at a time.
const PIECE: usize = 4_096;

/// So many pieces are read in one step.
const PIECES: u32 = 64;

/// The sets of so many publishers are asked for.
const MAX_SETS: usize = 64;

/// What is asked.
#[derive(Clone, Copy)]
enum Question {
    Metrics,
    Present,
    Legs,
    Counts,
    /// What reports say: a unit may not know of it.
    Reports,
    /// Why subscribers see nothing: a unit may not know of it.
    Why,
    /// The set that is announced to this publisher.
    Set(u16),
}

/// How a question is answered.
#[derive(Clone, Copy)]
enum Reply {
    /// By lines.
    Done,
    /// The unit doesn't know the request.
    Unknown,
    /// It is refused for something else.
    Refused,
}

/// How far an inquiry is.
#[derive(Clone, Copy)]
pub enum Step {
    /// It goes on.
    Asking,
    /// All was answered.
    Answered,
    /// The unit is gone, refuses, is silent for too long, or there is no memory.
    Failed,
}

/// A unit that is asked all that is shown of it.
#[derive(Drop)]
pub struct Inquiry<S: Drop> {
    alloc: Global,
    stream: S,
    since_ms: u64,
    question: Question,
    /// What came of the answer so far.
    text: Vec<u8>,
    said: Said,
    /// The publishers whose sets are still to be asked for.
    publishers: Vec<u16>,
}

impl<S: Read + Write + Drop> Inquiry<S> {
    ghost use Rattle.std.specs.Prelude.{◌≡◌, ◌≤◌, ◌+◌, ◌-◌, ◌^◌, [], min, vec_len};
    ghost use Rattle.web.specs.declared.inquiry.Step.TheVariants.{Failed};
    ghost use Rattle.web.specs.declared.inquiry.TheConstants.{PATIENCE_MS};

    /// Asks the first question of the unit at the stream, at this moment. Of a stream that doesn't take it nothing is heard.
    pub fn new(alloc: Global, stream: S, moment: u64) -> Inquiry<S>
        ensures since { (result.since_ms ≡ moment) × (result.said.moment_ms ≡ moment) }
        ensures nothing { (result.said.sets.items ≡ []) × (result.text.items ≡ [])
            × (result.publishers.items ≡ []) }
    {
        let mut inquiry = Inquiry {
            alloc,
            stream,
            since_ms: moment,
            question: Question::Metrics,
            text: Vec::new(alloc),
            said: Said {
                moment_ms: moment,
                metrics: Vec::new(alloc),
                present: Vec::new(alloc),
                legs: Vec::new(alloc),
                counts: Vec::new(alloc),
                reports: Vec::new(alloc),
                why: Vec::new(alloc),
                sets: Vec::new(alloc),
            },
            publishers: Vec::new(alloc),
        };
        let _ = inquiry.ask();
        inquiry
    }

    /// Reads what came by this moment, and asks the next question once one is answered.
    pub fn step(&mut self, moment: u64) -> Step
        ensures patience { PATIENCE_MS ≤ moment - self.old.since_ms → result ≡ Failed }
    {
        if moment.saturating_sub(self.since_ms) >= PATIENCE_MS {
            return Step::Failed;
        }
        for _piece in 0..PIECES {
            match self.read_piece() {
                Some(true) => {}
                Some(false) => return Step::Asking,
                None => return Step::Failed,
            }
            match reply_in(self.text.as_slice()) {
                Some(reply) => match self.take_reply(reply) {
                    Step::Asking => {}
                    ended => return ended,
                },
                None => {}
            }
        }
        Step::Asking
    }

    /// What the unit said.
    pub fn into_said(self) -> Said
        ensures { result ≡ self.said }
    {
        let Inquiry { said, .. } = self;
        said
    }

    /// How many questions were asked for what was said.
    pub fn asked(&self) -> usize
        ensures { result ≡ min (vec_len self.now.said.sets + 6) (2 ^ 64 - 1) }
    {
        self.said.sets.len().saturating_add(6)
    }

    /// Writes the question.
    fn ask(&mut self) -> bool
        ensures { (self.new.since_ms ≡ self.old.since_ms) × (self.new.said ≡ self.old.said)
            × (self.new.text ≡ self.old.text) × (self.new.publishers ≡ self.old.publishers) }
    {
        match self.question {
            Question::Metrics => self.say(b"metrics\n"),
            Question::Present => self.say(b"present\n"),
            Question::Legs => self.say(b"legs\n"),
            Question::Counts => self.say(b"counts\n"),
            Question::Reports => self.say(b"reports\n"),
            Question::Why => self.say(b"why\n"),
            Question::Set(publisher) => match format!(in self.alloc; "show {publisher}\n") {
                Ok(line) => self.say(line.as_bytes()),
                Err(_) => false,
            },
        }
    }

    fn say(&mut self, line: &[u8]) -> bool
        ensures { (self.new.since_ms ≡ self.old.since_ms) × (self.new.said ≡ self.old.said)
            × (self.new.text ≡ self.old.text) × (self.new.publishers ≡ self.old.publishers) }
    {
        match self.stream.write(line) {
            Ok(count) => count == line.len(),
            Err(_) => false,
        }
    }

    /// Reads once: whether something came. `None` if nothing will come any more.
    fn read_piece(&mut self) -> Option<bool> {
        let mut piece = [0; PIECE];
        match self.stream.read(&mut piece) {
            Ok(0) => None,
            Ok(count) => {
                self.text
                    .extend_from_slice(&piece[..count.min(PIECE)])
                    .ok()?;
                if self.text.len() > MAX_ANSWER {
                    return None;
                }
                Some(true)
            }
            Err(error) if error.kind() == ErrorKind::WouldBlock => Some(false),
            Err(error) if error.kind() == ErrorKind::Interrupted => Some(false),
            Err(_) => None,
        }
    }

    /// The question came to an end. A unit that doesn't know what reports or reasons are says no line of them, and is asked on.
    fn take_reply(&mut self, reply: Reply) -> Step {
        match reply {
            Reply::Done => {
                let lines = self.text.len().saturating_sub(3);
                self.take_lines(lines)
            }
            Reply::Unknown => self.pass_over(),
            Reply::Refused => Step::Failed,
        }
    }

    fn pass_over(&mut self) -> Step {
        if matches!(self.question, Question::Reports | Question::Why) {
            self.take_lines(0)
        } else {
            Step::Failed
        }
    }

    /// So many bytes of the answer are lines: they are kept, and the next question is asked.
    fn take_lines(&mut self, count: usize) -> Step {
        self.text.truncate(count);
        let text = mem::replace(&mut self.text, Vec::new(self.alloc));
        let kept = self.keep(text);
        match self.next_question() {
            Some(question) if kept => {
                self.question = question;
                if self.ask() {
                    Step::Asking
                } else {
                    Step::Failed
                }
            }
            None if kept => Step::Answered,
            _ => Step::Failed,
        }
    }

    /// Keeps the answer to the question. Says whether there was memory.
    fn keep(&mut self, text: Vec<u8>) -> bool {
        match self.question {
            Question::Metrics => self.said.metrics = text,
            Question::Present => return self.keep_present(text),
            Question::Legs => self.said.legs = text,
            Question::Counts => self.said.counts = text,
            Question::Reports => self.said.reports = text,
            Question::Why => self.said.why = text,
            Question::Set(publisher) => {
                return self
                    .said
                    .sets
                    .push(AnnouncedSet { publisher, text })
                    .is_ok();
            }
        }
        true
    }

    /// Keeps who is there: their sets are to be asked for.
    fn keep_present(&mut self, text: Vec<u8>) -> bool {
        let numbers = numbers_in(self.alloc, text.as_slice());
        self.said.present = text;
        match numbers {
            Ok(numbers) => {
                self.publishers = numbers;
                self.publishers.truncate(MAX_SETS);
                true
            }
            Err(_) => false,
        }
    }

    /// The question after this one; `None` after the last.
    fn next_question(&mut self) -> Option<Question> {
        match self.question {
            Question::Metrics => Some(Question::Present),
            Question::Present => Some(Question::Legs),
            Question::Legs => Some(Question::Counts),
            Question::Counts => Some(Question::Reports),
            Question::Reports => Some(Question::Why),
            Question::Why | Question::Set(_) => Some(Question::Set(self.publishers.pop()?)),
        }
    }
}

/// How the question is answered, once all of the answer is there.
fn reply_in(text: &[u8]) -> Option<Reply> {
    match read_answer(text)? {
        Answered::Done(_) => Some(Reply::Done),
        Answered::Refused(why) => {
            if why == b"unknown".as_slice() {
                Some(Reply::Unknown)
            } else {
                Some(Reply::Refused)
            }
        }
    }
}
