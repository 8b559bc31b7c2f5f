//! The text that `sfu serve` prints after its turns.

ghost use Rattle.std.specs.Prelude.{◌≡◌, ◌++◌, length, IfOk, OnOk};
ghost use Rattle.std.specs.String.{string_bytes};
ghost use Rattle.serving.specs.ReportText.{announced_lines, counts_line, report_text};

use desk::Desk;
use request_text::announced_line;
use std::alloc::{AllocError, Global};
use tmmbr_tuple::Ssrc;
use workers::Report;

/// The counts of a run, and what is announced to each publisher by then.
pub fn report_text(alloc: Global, senders: &[Ssrc], report: &Report) -> Result<String, AllocError>
    requires { length senders.now ≡ length report.now.desks.items }
    ensures { IfOk result (λ text. string_bytes text ≡ report_text senders.now report.now) }
{
    let mut text = counts_line(alloc, report)?;
    push_announced(alloc, &mut text, senders, report.desks.as_slice())?;
    Ok(text)
}

/// The line of counts.
fn counts_line(alloc: Global, report: &Report) -> Result<String, AllocError>
    ensures { IfOk result (λ text. string_bytes text ≡ counts_line report.now) }
{
    format!(in alloc;
        "heard {} sent {} failed {} lost {}\n",
        report.heard, report.sent, report.failed, report.lost,
    )
}

/// A line for each publisher.
fn push_announced(
    alloc: Global,
    text: &mut String,
    senders: &[Ssrc],
    desks: &[Desk],
) -> Result<(), AllocError>
    requires { length senders.now ≡ length desks.now }
    ensures { OnOk result
        (string_bytes text.new ≡ string_bytes text.old ++ announced_lines senders.now desks.now) }
{
    for (number, desk) in desks.iter().enumerate() {
        let announced = desk.announced();
        let line = announced_line(alloc, senders[number], announced.as_slice())?;
        text.push_str(line.as_str())?;
    }
    Ok(())
}
