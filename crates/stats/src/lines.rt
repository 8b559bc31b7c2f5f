//! The line of a leg for people.

ghost use Rattle.std.specs.Prelude.{◌≡◌, ◌++◌, IfOk, OnOk};
ghost use Rattle.std.specs.String.{string_bytes};
ghost use Rattle.stats.specs.Lines.{called_part, ends_part, flow_part, line_of_leg, next_word, stay_part};

use crate::leg_count::LegCount;
use std::alloc::{AllocError, Global};

/// Which leg a line is of.
#[derive(Clone, Copy, PartialEq, Eq)]
pub struct LegLine {
    /// Its number.
    pub leg: u16,
    /// The endpoint whose media it is.
    pub publisher: u16,
    /// The endpoint that they are sent on to.
    pub subscriber: u16,
    /// Whether it is selected.
    pub on: bool,
}

/// What the ends of a leg are called.
#[derive(Clone, Copy, PartialEq, Eq)]
pub struct LegNames<'a> {
    pub publisher: &'a str,
    pub subscriber: &'a str,
}

/// The line of a leg: who is sent on to whom, whether it is on, the number of the stay that stands, what went out on it, and what its ends are
/// called. Refused for want of memory alone.
pub fn leg_line(
    alloc: Global,
    line: LegLine,
    names: LegNames<'_>,
    stay: Option<u64>,
    count: &LegCount,
) -> Result<String, AllocError>
    ensures { IfOk result (λ text. string_bytes text
        ≡ line_of_leg line names.entry.publisher.now names.entry.subscriber.now stay count.now) }
{
    let mut text = ends_of(alloc, line)?;
    push_stay(&mut text, stay)?;
    push_flow(&mut text, count)?;
    push_called(&mut text, names.publisher, names.subscriber)?;
    Ok(text)
}

/// Which leg it is.
fn ends_of(alloc: Global, line: LegLine) -> Result<String, AllocError>
    ensures { IfOk result (λ text. string_bytes text ≡ ends_part line) }
{
    let state = if line.on { "on" } else { "off" };
    format!(in alloc;
        "{} from {} to {} {state}",
        line.leg, line.publisher, line.subscriber
    )
}

/// The stay that stands for it.
fn push_stay(text: &mut String, stay: Option<u64>) -> Result<(), AllocError>
    ensures { OnOk result (string_bytes text.new ≡ string_bytes text.old ++ stay_part stay) }
{
    match stay {
        Some(stay) => write!(text, " stay {stay}"),
        None => text.push_str(" stay none"),
    }
}

/// What went out on it.
fn push_flow(text: &mut String, count: &LegCount) -> Result<(), AllocError>
    ensures { OnOk result (string_bytes text.new ≡ string_bytes text.old ++ flow_part count.now) }
{
    write!(
        text,
        " packets {} octets {} resent {} missed {} next ",
        count.packets, count.octets, count.resent, count.missed,
    )?;
    push_next(text, count.next)?;
    write!(text, " skipped {}", count.skipped)
}

/// What its ends are called.
fn push_called(text: &mut String, publisher: &str, subscriber: &str) -> Result<(), AllocError>
    ensures { OnOk result (string_bytes text.new
        ≡ string_bytes text.old ++ called_part publisher.now subscriber.now) }
{
    write!(text, " publisher {publisher} subscriber {subscriber}\n")
}

/// The number that comes next.
fn push_next(text: &mut String, next: Option<u16>) -> Result<(), AllocError>
    ensures { OnOk result (string_bytes text.new ≡ string_bytes text.old ++ next_word next) }
{
    match next {
        Some(number) => write!(text, "{number}"),
        None => text.push_str("none"),
    }
}
