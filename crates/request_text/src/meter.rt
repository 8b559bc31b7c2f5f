//! How far a command is among the lines of its input, said on a terminal.

ghost use Rattle.std.specs.Prelude.{◌≤◌, ◌+◌, length};

use std::cell::Cell;
use std::io::IsTerminal;
use std::time::{Duration, Instant};

/// What is said comes, or changes, no sooner than so many milliseconds after it did last, or after the meter was made.
const PAUSE_MS: u64 = 250;

/// The clock is asked at each line of a number that this divides.
const LINES_A_LOOK: u64 = 64;

/// What takes away what is said: the cursor goes to the line's beginning, and all after it is erased (ECMA-48, EL).
const ERASED: &str = "\r\x1b[K";

/// Says how far a command is: `line L of N` on the error output, if that is a terminal. What can't be written is left out. What a command
/// does, and what it says besides, is the same with any meter, and no clause speaks of it.
#[derive(Drop)]
pub struct Meter {
    /// What it says that by; nothing if it says nothing.
    terminal: Option<HostRuntime>,
    /// When it said something last, or was made. Nothing if the clock failed then: it says nothing.
    latest: Cell<Option<Instant>>,
    /// Whether what it said stands there.
    is_shown: Cell<bool>,
}

impl Meter {
    /// A meter that says nothing unless the error output is a terminal.
    pub fn new(rt: HostRuntime) -> Meter {
        let is_terminal = rt.stderr().is_terminal();
        Meter {
            terminal: if is_terminal { Some(rt) } else { None },
            latest: Cell::new(Instant::now(&rt).ok()),
            is_shown: Cell::new(false),
        }
    }

    /// A meter that says nothing.
    pub fn hidden() -> Meter {
        Meter {
            terminal: None,
            latest: Cell::new(None),
            is_shown: Cell::new(false),
        }
    }

    /// The line of this number, from 1, is taken up, of so many. What comes after the last newline is one more.
    pub fn show(&self, line: u64, of: u64) {
        if line % LINES_A_LOOK == 0 {
            self.say(line.min(of), of);
        }
    }

    /// Takes away what is said, if anything is. Whoever writes to a terminal calls this before.
    pub fn clear(&self) {
        if let Some(rt) = self.terminal {
            if self.is_shown.replace(false) {
                let _ = eprint!(rt; "{ERASED}");
            }
        }
    }

    fn say(&self, line: u64, of: u64) {
        if let Some(rt) = self.terminal {
            if self.is_due(rt) {
                self.is_shown.set(true);
                let _ = eprint!(rt; "\rline {line} of {of}");
            }
        }
    }

    /// Whether something may be said now. It is then said.
    fn is_due(&self, rt: HostRuntime) -> bool {
        let (Some(latest), Ok(now)) = (self.latest.get(), Instant::now(&rt)) else {
            return false;
        };
        if now.duration_since(latest) < Duration::from_millis(PAUSE_MS) {
            return false;
        }
        self.latest.set(Some(now));
        true
    }
}

/// How many lines a text has whose parts between newlines these are: what comes after the last newline is a line only if it isn't empty.
pub fn line_count(parts: &[&[u8]]) -> u64
    ensures least { length parts.now ≤ result + 1 }
    ensures most { result ≤ length parts.now }
{
    match parts.split_last() {
        Some((last, others)) if last.is_empty() => others.len() as u64,
        _ => parts.len() as u64,
    }
}
