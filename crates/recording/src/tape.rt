//! What is written of a record, and when it ends.

ghost use Rattle.std.specs.Prelude.{◌≡◌, ◌<◌, ◌≤◌, ◌+◌, ◌++◌, length, take, IfOk, MatchOption, MatchResult, OnOk, OnErr};
ghost use Rattle.std.specs.String.{string_bytes};
ghost use Rattle.events.specs.declared.event.Event.TheVariants.{Hear, Tick};
ghost use Rattle.hex.specs.Hex.{encode_lower};
ghost use Rattle.recording.specs.Lines.{event_lines, follow_line, stranger_line};
ghost use Rattle.recording.specs.Taken.{taken_lines, with_origin};
ghost use Rattle.recording.specs.declared.tape.End.TheVariants.{Memory};
ghost use Rattle.recording.specs.Tapes.{IsMadeAndPut, IsPut, end_name, ended, ended_line, new_tape, taken};

use crate::digits::append_digits;
use crate::line::{
    changed_lines, made_lines, selected_lines, stranger_line, ticked_lines, write_heard_head,
};
use crate::strangers::UnknownSender;
use crate::taken::{Origin, Taken};
use std::alloc::{AllocError, Global};
use std::marker::Model;
use std::mem;

/// Why a record ends before its unit.
#[derive(Clone, Copy, Debug, PartialEq, Eq)]
pub enum End {
    /// Somebody has it ended.
    Off,
    /// It would have more bytes than it may.
    Limit,
    /// The file can't be written.
    Failed,
    /// The disk is too slow: what waits to be written is more than may wait.
    Slow,
    /// There is no memory for more.
    Memory,
}

/// A record that is being written: what waits to be handed to its file, and how many bytes it has so far.
#[derive(Drop)]
pub struct Tape {
    alloc: Global,
    waiting: Vec<u8>,
    /// Where the beginning of a datagram's line is written, so that its memory serves for the next one.
    head: String,
    /// How many bytes were put, those that wait too.
    written: u64,
    limit: u64,
    end: Option<End>,
}

impl Model for Tape {
    ghost use Rattle.recording.specs.Tapes.{TapeState};

    ghost Value = { TapeState };

    ghost view = { λ t. record { waits = t.waiting.items; written = t.written; limit = t.limit; end = t.end } };
}

impl Tape {
    /// A record of at most so many bytes, of which none is written.
    pub fn new(alloc: Global, limit: u64) -> Tape
        ensures { result ≡ new_tape limit }
    {
        Tape {
            alloc,
            waiting: Vec::new(alloc),
            head: String::new(alloc),
            written: 0,
            limit,
            end: None,
        }
    }

    /// Puts whole lines after what waits. If they would be too many bytes the record ends, as it does if there is no memory;
    /// once it has ended nothing more is put.
    pub fn put(&mut self, lines: &str)
        ensures { IsPut self.old lines.now self.new }
    {
        if self.end.is_some() {
            return;
        }
        let bytes = lines.as_bytes();
        match size_with(self.written, bytes, self.limit) {
            Some(written) => match self.waiting.extend_from_slice(bytes) {
                Ok(()) => self.written = written,
                Err(_) => self.end = Some(End::Memory),
            },
            None => self.end = Some(End::Limit),
        }
    }

    /// Puts the lines of what a unit took in at this moment in milliseconds, as `put` puts lines; none of a datagram without bytes, which does
    /// nothing. If there is no memory to make them the record ends.
    pub fn put_taken(&mut self, moment: u64, taken: Taken<'_>)
        ensures { IsMadeAndPut self.old (taken_lines moment taken.entry) self.new }
    {
        match taken {
            Taken::Nothing => self.put(""),
            Taken::Select { leg, on } => {
                let lines = selected_lines(self.alloc, moment, leg, on);
                self.put_made(lines)
            }
            Taken::Datagram {
                endpoint,
                bytes,
                origin,
            } => self.put_datagram(moment, endpoint, bytes, origin),
        }
    }

    /// Puts the lines of a tick that a unit made at this moment in milliseconds, in the same way.
    pub fn put_ticked(&mut self, moment: u64)
        ensures { IsMadeAndPut self.old (event_lines (Tick moment)) self.new }
    {
        let lines = ticked_lines(self.alloc, moment);
        self.put_made(lines)
    }

    /// Puts the line of an unknown sender, who comes at this moment in milliseconds, in the same way.
    pub fn put_stranger(&mut self, moment: u64, sender: UnknownSender)
        ensures { IsMadeAndPut self.old (stranger_line moment sender) self.new }
    {
        let line = stranger_line(self.alloc, moment, sender);
        self.put_made(line)
    }

    /// Puts the lines of a datagram. Most are what came: those are made where they wait.
    fn put_datagram(&mut self, moment: u64, endpoint: u16, bytes: &[u8], origin: Origin<'_>)
        ensures { IsMadeAndPut self.old
            (with_origin origin.entry (event_lines (Hear moment endpoint bytes.now))) self.new }
    {
        match origin {
            Origin::Came => self.put_heard(moment, endpoint, bytes),
            Origin::Made(heard_ms) => {
                let lines = made_lines(self.alloc, moment, endpoint, bytes, heard_ms);
                self.put_made(lines)
            }
            Origin::Changed(came) => {
                let lines = changed_lines(self.alloc, moment, endpoint, bytes, came);
                self.put_made(lines)
            }
        }
    }

    /// Puts these lines. If there was no memory to make them the record ends.
    fn put_made(&mut self, lines: Result<String, AllocError>)
        ensures { MatchResult lines (λ text. IsPut self.old (string_bytes text) self.new)
            (λ _. self.new ≡ ended Memory self.old) }
    {
        match lines {
            Ok(lines) => self.put(lines.as_str()),
            Err(_) => self.end(End::Memory),
        }
    }

    /// Puts the lines of a datagram that an endpoint's number sent, heard at this moment in milliseconds, as `heard_lines` makes them, and
    /// as `put` puts them. If there is no memory to make them the record ends.
    fn put_heard(&mut self, moment: u64, endpoint: u16, bytes: &[u8])
        ensures { IsMadeAndPut self.old (event_lines (Hear moment endpoint bytes.now)) self.new }
    {
        if bytes.is_empty() {
            return self.put("");
        }
        let mut head = mem::replace(&mut self.head, String::new(self.alloc));
        match write_heard_head(&mut head, moment, endpoint) {
            Ok(()) => self.put_line(head.as_str(), bytes),
            Err(_) => self.end(End::Memory),
        }
        self.head = head;
    }

    /// Puts a line of this beginning and the digits of these bytes, and the line for what follows.
    fn put_line(&mut self, head: &str, bytes: &[u8])
        ensures { IsPut self.old (head.now ++ (encode_lower bytes.now ++ follow_line)) self.new }
    {
        if self.end.is_some() {
            return;
        }
        match size_with_line(self.written, head, bytes, self.limit) {
            Some(written) => match append_line(&mut self.waiting, head, bytes) {
                Ok(()) => self.written = written,
                Err(_) => self.end = Some(End::Memory),
            },
            None => self.end = Some(End::Limit),
        }
    }

    /// Takes out what waits. What is put next waits in the memory of the other list, whose bytes go.
    pub fn take(&mut self, other: Vec<u8>) -> Vec<u8>
        ensures all { result.items ≡ self.old.waits }
        ensures none { self.new ≡ taken self.old }
    {
        let mut next = other;
        next.clear();
        mem::replace(&mut self.waiting, next)
    }

    /// Ends the record, unless it has ended.
    pub fn end(&mut self, why: End)
        ensures { self.new ≡ ended why self.old }
    {
        let _ = self.end.get_or_insert(why);
    }

    /// How many bytes wait.
    pub fn waiting(&self) -> usize
        ensures { result ≡ length self.now.waits }
    {
        self.waiting.len()
    }

    /// Why it ended, if it did.
    pub fn why_ended(&self) -> Option<End>
        ensures { result ≡ self.now.end }
    {
        self.end
    }
}

/// How many bytes there are with these, if no more than may be.
fn size_with(written: u64, bytes: &[u8], limit: u64) -> Option<u64>
    ensures { MatchOption result (limit < written + length bytes.now)
        (λ size. (size ≡ written + length bytes.now) × (size ≤ limit)) }
{
    let size = written.checked_add(bytes.len() as u64)?;
    if size <= limit { Some(size) } else { None }
}

/// How many bytes there are with a line, if no more than may be.
#[tactic(auto, using(crate::proofs::DigitLemmas::line_length))]
fn size_with_line(written: u64, head: &str, bytes: &[u8], limit: u64) -> Option<u64>
    ensures { MatchOption result
        (limit < written + length (head.now ++ (encode_lower bytes.now ++ follow_line)))
        (λ size. (size ≡ written + length (head.now ++ (encode_lower bytes.now ++ follow_line)))
        × (size ≤ limit)) }
{
    let digits = (bytes.len() as u64).checked_mul(2)?;
    let whole = written
        .checked_add(head.len() as u64)?
        .checked_add(digits)?
        .checked_add(8)?;
    if whole <= limit { Some(whole) } else { None }
}

/// Appends a line of this beginning and the digits of these bytes, and the line for what follows. For want of memory the list is as it was.
fn append_line(list: &mut Vec<u8>, head: &str, bytes: &[u8]) -> Result<(), AllocError>
    ensures ok { OnOk result (list.new.items
        ≡ list.old.items ++ (head.now ++ (encode_lower bytes.now ++ follow_line))) }
    ensures err { OnErr result (list.new.items ≡ list.old.items) }
{
    let before = list.len();
    let appended = append_parts(list, head, bytes);
    if appended.is_err() {
        list.truncate(before);
    }
    appended
}

/// The same, but for want of memory something may stand after what was there.
fn append_parts(list: &mut Vec<u8>, head: &str, bytes: &[u8]) -> Result<(), AllocError>
    ensures ok { OnOk result (list.new.items
        ≡ list.old.items ++ (head.now ++ (encode_lower bytes.now ++ follow_line))) }
    ensures err { OnErr result (take (length list.old.items) list.new.items ≡ list.old.items) }
{
    list.extend_from_slice(head.as_bytes())?;
    append_digits(list, bytes)?;
    list.extend_from_slice("\nfollow\n".as_bytes())
}

/// What those who follow are told of a record that ended for this reason, where it went. Refused for want of memory alone.
pub fn ended_line(alloc: Global, place: &str, end: End) -> Result<String, AllocError>
    ensures { IfOk result (λ line. string_bytes line ≡ ended_line place.now end) }
{
    let why = end_name(end);
    format!(in alloc; "record ended {place} {why}\n")
}

/// The word for why a record ended.
pub fn end_name(end: End) -> &'static str
    ensures { result.now ≡ end_name end }
{
    match end {
        End::Off => "off",
        End::Limit => "limit",
        End::Failed => "failed",
        End::Slow => "slow",
        End::Memory => "memory",
    }
}
