//! Who follows what happens in a unit, and what they are told of it.

use control_protocol::{Followers, push_presence_news};
use recording::{Recorder, ended_line};
use stats::{RefusedCount, Traffic, push_refusal_news};
use std::alloc::{AllocError, Global};
use std::io::{Read, Write};

/// So many milliseconds lie at least between two looks at what happened.
const LOOK_MS: u64 = 10;

/// Those who follow what happens, and what was so when they were told last.
#[derive(Drop)]
pub(crate) struct Following<S: Drop> {
    alloc: Global,
    followers: Followers<S>,
    /// Whether each endpoint was present, by its number.
    present: Vec<bool>,
    /// What was refused of each endpoint, by its number, and then of none.
    refused: Vec<Vec<RefusedCount>>,
    /// The moment from which on it is looked again, in milliseconds.
    due_ms: u64,
}

impl<S: Read + Write + Drop> Following<S> {
    /// Nobody follows.
    pub(crate) fn new(alloc: Global) -> Following<S> {
        Following {
            alloc,
            followers: Followers::new(alloc),
            present: Vec::new(alloc),
            refused: Vec::new(alloc),
            due_ms: 0,
        }
    }

    /// Whether one more may follow.
    pub(crate) fn may_follow(&self) -> bool {
        self.followers.may_follow()
    }

    /// One follows from this moment on.
    pub(crate) fn admit(&mut self, stream: S, moment: u64) {
        self.followers.admit(stream, moment);
    }

    /// Whether it is to be looked at what happened.
    pub(crate) fn is_due(&self, moment: u64) -> bool {
        !self.followers.is_empty() && moment >= self.due_ms
    }

    /// Tells them what isn't as it was, at this moment, by who is present and by what was counted; who is new is told who is present. What
    /// can't be told for want of memory is told the next time.
    pub(crate) fn tell(&mut self, present: &[bool], traffic: &Traffic, moment: u64) {
        self.due_ms = moment.saturating_add(LOOK_MS);
        let _ = self.tell_news(present, traffic);
        self.followers.look(moment);
    }

    /// The same, without what each of them takes.
    fn tell_news(&mut self, present: &[bool], traffic: &Traffic) -> Result<(), AllocError> {
        let refused = traffic.refusals_by_endpoint(self.alloc)?;
        let news = self.news(present, refused.as_slice())?;
        let whole = presence_since(self.alloc, &[], present)?;
        let present = Vec::from_slice(self.alloc, present)?;
        self.followers.tell(news.as_str(), whole.as_str());
        self.present = present;
        self.refused = refused;
        Ok(())
    }

    /// What isn't as it was.
    fn news(&self, present: &[bool], refused: &[Vec<RefusedCount>]) -> Result<String, AllocError> {
        let mut news = presence_since(self.alloc, self.present.as_slice(), present)?;
        for (before, after) in self.refused.iter().zip(refused.iter()) {
            push_refusal_news(&mut news, before.as_slice(), after.as_slice())?;
        }
        Ok(news)
    }

    /// Tells them if the record ended that this one makes, once. What can't be told for want of memory is told the next time.
    pub(crate) fn tell_end(&mut self, recorder: &mut Recorder) {
        let Some(end) = recorder.untold_end() else {
            return;
        };
        if let Ok(line) = ended_line(self.alloc, recorder.place(), end) {
            self.followers.tell_all(line.as_str());
            recorder.note_told();
        }
    }
}

/// Who came and went since these were present.
fn presence_since(alloc: Global, before: &[bool], present: &[bool]) -> Result<String, AllocError> {
    let mut news = String::new(alloc);
    push_presence_news(&mut news, before, present)?;
    Ok(news)
}
