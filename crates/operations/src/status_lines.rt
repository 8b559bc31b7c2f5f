//! The lines that `sfu serve` writes while the unit runs: those of counts, and what is said beside them.

ghost use Rattle.std.specs.Prelude.{◌≡◌};

use crate::run_status::RunStatus;
use control_protocol::{RecordKind, Screened, shortage_text};
use leg_numbers::unwritten_text;
use ports::{Status, Watch};
use recording::end_name;
use std::alloc::{AllocError, Global};
use std::io::Write;

/// Writes a line of counts each so many milliseconds. A line that can't be written is left out, and counted.
#[derive(Drop)]
pub struct StatusLines<'a, E: Write> {
    alloc: Global,
    errors: &'a mut E,
    /// The time between two lines, in milliseconds.
    every_ms: u64,
    /// The moment from which on the next line is due, in milliseconds.
    due_ms: u64,
    /// How many lines were left out.
    unsaid: u64,
    run_status: &'a RunStatus,
}

impl<'a, E: Write> StatusLines<'a, E> {
    ghost use Rattle.std.specs.Prelude.{◌≡◌};

    /// Lines that are written each `every_ms` milliseconds.
    pub fn new(
        alloc: Global,
        errors: &'a mut E,
        every_ms: u64,
        run_status: &'a RunStatus,
    ) -> StatusLines<'a, E>
        ensures due { (result.every_ms ≡ every_ms) × (result.due_ms ≡ every_ms) }
        ensures unsaid { result.unsaid ≡ 0 }
        ensures looks { result.run_status ≡ run_status.entry }
    {
        StatusLines {
            alloc,
            errors,
            every_ms,
            due_ms: every_ms,
            unsaid: 0,
            run_status,
        }
    }

    /// Writes one line.
    fn write_line(&mut self, status: &Status) -> Result<(), AllocError>
        ensures { (self.new.every_ms ≡ self.old.every_ms) × (self.new.due_ms ≡ self.old.due_ms) }
    {
        let line = self.line_of(status)?;
        self.put(line.as_bytes());
        Ok(())
    }

    /// Writes these lines. If they can't be written they are left out, and counted.
    fn put(&mut self, lines: &[u8])
        ensures { (self.new.every_ms ≡ self.old.every_ms) × (self.new.due_ms ≡ self.old.due_ms) }
    {
        if self.errors.write_all(lines).is_err() {
            self.unsaid = self.unsaid.saturating_add(lines_in(lines));
        }
    }

    /// Says that no descriptor is left for who connects to the control, if that is to be said.
    fn say_shortage(&mut self)
        ensures { (self.new.every_ms ≡ self.old.every_ms) × (self.new.due_ms ≡ self.old.due_ms) }
    {
        if self.run_status.take_shortage() {
            self.put(shortage_text().as_bytes());
        }
    }

    /// Says that the numbers of legs couldn't be written, if that is to be said.
    fn say_unwritten(&mut self)
        ensures { (self.new.every_ms ≡ self.old.every_ms) × (self.new.due_ms ≡ self.old.due_ms) }
    {
        if self.run_status.take_unwritten() {
            self.put(unwritten_text().as_bytes());
        }
    }

    /// Says of each leg why nothing comes on it, or what is sent, if that is to be said.
    fn say_changes(&mut self)
        ensures { (self.new.every_ms ≡ self.old.every_ms) × (self.new.due_ms ≡ self.old.due_ms) }
    {
        if let Some(lines) = self.run_status.take_changes() {
            self.put(lines.as_bytes());
        }
    }

    /// The line of these counts.
    fn line_of(&self, status: &Status) -> Result<String, AllocError> {
        let mut line = self.totals_part(status)?;
        line.push_str(self.strange_part()?.as_str())?;
        line.push_str(self.screened_part()?.as_str())?;
        line.push_str(self.unread_part()?.as_str())?;
        line.push_str(self.recorded_part()?.as_str())?;
        line.push_str(self.unsaid_part()?.as_str())?;
        line.push_str("\n")?;
        Ok(line)
    }

    /// What the unit itself counts.
    fn totals_part(&self, status: &Status) -> Result<String, AllocError> {
        let Status {
            present,
            heard,
            sent,
            failed,
            lost,
            ..
        } = *status;
        format!(in self.alloc;
            "present {present} heard {heard} sent {sent} failed {failed} lost {lost}"
        )
    }

    /// How many datagrams came from nobody's address, and how many packets were far from their source's highest number.
    fn strange_part(&self) -> Result<String, AllocError> {
        let (strangers, far) = (self.run_status.strangers.get(), self.run_status.far.get());
        format!(in self.alloc; " strangers {strangers} far {far}")
    }

    /// How many resends were held back, how many datagrams came beyond the limit, how many entries beyond theirs, and how many milliseconds
    /// weren't lived, if any.
    fn screened_part(&self) -> Result<String, AllocError> {
        let Screened {
            held,
            flooded,
            beyond,
            stalled,
            ..
        } = self.run_status.screened();
        match (held, flooded, beyond, stalled) {
            (0, 0, 0, 0) => Ok(String::new(self.alloc)),
            _ => format!(in self.alloc;
                " held {held} flooded {flooded} beyond {beyond} stalled {stalled}"
            ),
        }
    }

    /// How many datagrams the system dropped, if it says so.
    fn unread_part(&self) -> Result<String, AllocError> {
        match self.run_status.unheard().unread {
            Some(unread) => format!(in self.alloc; " unread {unread}"),
            None => Ok(String::new(self.alloc)),
        }
    }

    /// How many lines were left out before this one, if any.
    fn unsaid_part(&self) -> Result<String, AllocError> {
        match self.unsaid {
            0 => Ok(String::new(self.alloc)),
            lines => format!(in self.alloc; " unsaid {lines}"),
        }
    }

    /// What the record comes to that the unit has in a file, and then what a peer's does; without a file, a peer's alone.
    fn recorded_part(&self) -> Result<String, AllocError> {
        if !self.run_status.has_file() {
            return self.record_part("recorded", RecordKind::Peer);
        }
        let mut part = self.record_part("recorded", RecordKind::File)?;
        part.push_str(self.record_part("peer", RecordKind::Peer)?.as_str())?;
        Ok(part)
    }

    /// How many bytes of this record stand where it is written, after this word, and why it ended, if it did; nothing if nobody wanted one.
    fn record_part(&self, word: &str, kind: RecordKind) -> Result<String, AllocError> {
        let Some((written, end)) = self.run_status.record_state(kind) else {
            return Ok(String::new(self.alloc));
        };
        match end {
            Some(end) => {
                let why = end_name(end);
                format!(in self.alloc; " {word} {written} ended {why}")
            }
            None => format!(in self.alloc; " {word} {written}"),
        }
    }
}

impl<E: Write> Watch for StatusLines<'_, E> {
    ghost use Rattle.std.specs.Prelude.{◌≡◌, ◌≤◌, ◌↔◌, ◌+◌, ◌-◌, ◌^◌, IsTrue, min};

    fn is_due(&self, moment: u64) -> bool
        ensures { IsTrue result ↔ (self.now.due_ms ≤ moment) }
    {
        moment >= self.due_ms
    }

    fn show(&mut self, moment: u64, status: &Status)
        ensures due { self.new.due_ms ≡ min (moment + self.old.every_ms) (2 ^ 64 - 1) }
        ensures every { self.new.every_ms ≡ self.old.every_ms }
    {
        self.due_ms = moment.saturating_add(self.every_ms);
        let _ = self.write_line(status);
    }
}

/// How many lines these are, each with its end.
fn lines_in(lines: &[u8]) -> u64 {
    lines.iter().filter(|byte| **byte == b'\n').count() as u64
}

/// Lines of counts, and beside them what is said of the control, of the legs and of their numbers.
#[derive(Drop)]
pub struct ControlLines<'a, E: Write> {
    counts: StatusLines<'a, E>,
}

impl<'a, E: Write> ControlLines<'a, E> {
    ghost use Rattle.std.specs.Prelude.{◌≡◌};

    /// Lines of counts that are written each `every_ms` milliseconds, and the others whenever there is something to say.
    pub fn new(
        alloc: Global,
        errors: &'a mut E,
        every_ms: u64,
        run_status: &'a RunStatus,
    ) -> ControlLines<'a, E>
        ensures { (result.counts.every_ms ≡ every_ms) × (result.counts.due_ms ≡ every_ms) }
    {
        ControlLines {
            counts: StatusLines::new(alloc, errors, every_ms, run_status),
        }
    }
}

impl<E: Write> Watch for ControlLines<'_, E> {
    ghost use Rattle.std.specs.Prelude.{◌≡◌, ◌≤◌, ◌<◌, ◌+◌, ◌-◌, ◌^◌, IsTrue, min};

    fn is_due(&self, moment: u64) -> bool
        ensures { self.now.counts.due_ms ≤ moment → IsTrue result }
    {
        self.counts.is_due(moment) || self.counts.run_status.has_news()
    }

    fn show(&mut self, moment: u64, status: &Status)
        ensures due { self.old.counts.due_ms ≤ moment
            → self.new.counts.due_ms ≡ min (moment + self.old.counts.every_ms) (2 ^ 64 - 1) }
        ensures early { moment < self.old.counts.due_ms
            → self.new.counts.due_ms ≡ self.old.counts.due_ms }
        ensures every { self.new.counts.every_ms ≡ self.old.counts.every_ms }
    {
        self.counts.say_shortage();
        self.counts.say_unwritten();
        self.counts.say_changes();
        if self.counts.is_due(moment) {
            self.counts.show(moment, status);
        }
    }
}
