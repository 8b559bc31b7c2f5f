//! The latest event of a script.

ghost use Rattle.std.specs.Prelude.{◌≡◌, None};
ghost use Rattle.replay.specs.Shown.{cause_after, cause_at, cause_of, command_input, event_input, no_cause, packet_at, script_line_input};

use crate::last_packets::LastPacket;
use crate::marks::is_made_mark;
use crate::script::{Command, ScriptLine};
use events::Event;

/// What comes from outside by a line.
#[derive(Clone, Copy, PartialEq, Eq)]
pub enum Incoming {
    /// It is a moment, and nothing more.
    Moment,
    /// A datagram of the endpoint with this number.
    Datagram(u16),
    /// A selection of the leg with this number.
    Selection(u16),
}

/// What comes from outside, and its moment, in milliseconds.
#[derive(Clone, Copy, PartialEq, Eq)]
pub struct DatedInput {
    pub moment: u64,
    pub incoming: Incoming,
}

/// What came from outside last: the number of its line, from 1, or 0 before anything came; what it is, and the line.
#[derive(Clone, Copy)]
pub struct Latest<'t> {
    pub(crate) number: u64,
    pub(crate) input: DatedInput,
    pub(crate) line: &'t [u8],
    /// The comment before it that says that the unit made it, or nothing.
    pub(crate) mark: &'t [u8],
    /// The same before what comes next.
    pub(crate) next_mark: &'t [u8],
}

impl<'t> Latest<'t> {
    /// Nothing came yet.
    pub fn none() -> Latest<'t>
        ensures { cause_of result ≡ no_cause }
    {
        Latest {
            number: 0,
            input: DatedInput {
                moment: 0,
                incoming: Incoming::Moment,
            },
            line: &[],
            mark: &[],
            next_mark: &[],
        }
    }

    /// What came last once the line of this number is read.
    pub fn after(self, number: u64, line: &'t [u8], reading: &ScriptLine) -> Latest<'t>
        ensures { cause_of result ≡ cause_after number line.now reading.now (cause_of self.entry) }
    {
        match input_in(reading) {
            Some(input) => Latest {
                number,
                input,
                line,
                mark: self.next_mark,
                next_mark: &[],
            },
            None => self.behind(line),
        }
    }

    /// The same behind a line by which nothing came.
    fn behind(self, line: &'t [u8]) -> Latest<'t>
        ensures { cause_of result ≡ cause_at 0 line.now None (cause_of self.entry) }
    {
        if is_made_mark(line) {
            Latest {
                next_mark: line,
                ..self
            }
        } else {
            self
        }
    }

    /// A packet that follows from this.
    pub(crate) fn packet(self) -> LastPacket
        ensures { result ≡ packet_at (cause_of self.entry) }
    {
        LastPacket {
            number: self.number,
            moment: self.input.moment,
        }
    }
}

/// What comes from outside by a line, if anything does.
fn input_in(reading: &ScriptLine) -> Option<DatedInput>
    ensures { result ≡ script_line_input reading.now }
{
    match reading {
        ScriptLine::Command(command) => command_input(command),
        ScriptLine::Skipped | ScriptLine::Unreadable => None,
    }
}

/// The same by a command.
pub(crate) fn command_input(command: &Command) -> Option<DatedInput>
    ensures { result ≡ command_input command.now }
{
    match command {
        Command::Do(event) => event_input(event),
        Command::Settle | Command::Follow | Command::Show(_) => None,
    }
}

fn event_input(event: &Event) -> Option<DatedInput>
    ensures { result ≡ event_input event.now }
{
    match event {
        Event::Hear(moment, endpoint, _) => Some(DatedInput {
            moment: *moment,
            incoming: Incoming::Datagram(*endpoint),
        }),
        Event::Tick(moment) => Some(DatedInput {
            moment: *moment,
            incoming: Incoming::Moment,
        }),
        Event::Select(moment, leg, _) => Some(DatedInput {
            moment: *moment,
            incoming: Incoming::Selection(*leg),
        }),
        Event::Ingress | Event::Work(_) => None,
    }
}
