//! What is said of legs unasked: why nothing comes on them, or what is sent, when that changes.

use diagnosis::{REMARK_EACH_MS, Reason, Remark, is_remark_due, line_of_reason};
use stats::LegNames;
use std::alloc::{AllocError, Global};

/// What was said of each leg last, and what is to be said.
#[derive(Drop)]
pub(crate) struct ChangeLog {
    /// Whether anything is to be said.
    is_on: bool,
    said: Vec<Option<Remark>>,
    /// The moment from which on the legs are looked at next.
    due_ms: u64,
    /// The lines that wait to be said.
    lines: Option<String>,
}

impl ChangeLog {
    /// Nothing was said of so many legs, and nothing is to be.
    pub(crate) fn new(alloc: Global, legs: usize) -> Result<ChangeLog, AllocError> {
        let nothing: Option<Remark> = None;
        Ok(ChangeLog {
            is_on: false,
            said: vec![in alloc; nothing; legs]?,
            due_ms: REMARK_EACH_MS,
            lines: None,
        })
    }

    /// From now on changes are to be said.
    pub(crate) fn turn_on(&mut self) {
        self.is_on = true;
    }

    /// Whether the legs are to be looked at by this moment. Then they are looked at again a second later.
    pub(crate) fn take_due(&mut self, moment: u64) -> bool {
        if !self.is_on || moment < self.due_ms {
            return false;
        }
        self.due_ms = moment.saturating_add(REMARK_EACH_MS);
        true
    }

    /// This is the reason at a leg at this moment: a line waits to be said of it, if that is due.
    pub(crate) fn note(
        &mut self,
        alloc: Global,
        leg: u16,
        names: LegNames<'_>,
        reason: Reason,
        moment: u64,
    ) -> Result<(), AllocError> {
        let Some(said) = self.said.get(usize::from(leg)).copied() else {
            return Ok(());
        };
        let kind = reason.kind();
        if !is_remark_due(said, kind, moment) {
            return Ok(());
        }
        let text = line_of_reason(alloc, leg, names, reason)?;
        self.push(text)?;
        self.note_said(usize::from(leg), Remark { kind, moment });
        Ok(())
    }

    /// One more line waits.
    fn push(&mut self, line: String) -> Result<(), AllocError> {
        match &mut self.lines {
            Some(lines) => lines.push_str(line.as_str()),
            None => {
                self.lines = Some(line);
                Ok(())
            }
        }
    }

    /// This was said of a leg.
    fn note_said(&mut self, leg: usize, remark: Remark) {
        if let Some(said) = self.said.as_mut_slice().get_mut(leg) {
            *said = Some(remark);
        }
    }

    /// Whether lines wait.
    pub(crate) fn has_lines(&self) -> bool {
        self.lines.is_some()
    }

    /// The lines that wait, which wait no more.
    pub(crate) fn take_lines(&mut self) -> Option<String> {
        self.lines.take()
    }
}
