//! Reports with the numbers of what they are about, while they are shown.

ghost use Rattle.std.specs.Prelude.{◌≡◌, ◌≤◌, ◌+◌, ◌++◌, Some, length, OnOk};
ghost use Rattle.stats.specs.Reports.{AreShown, shown_of};

use crate::reports::ReceptionReport;
use std::alloc::AllocError;

/// What was last reported of the leg, or of the publisher, with this number.
#[derive(Clone, Copy, PartialEq, Eq)]
pub struct NumberedReport {
    pub number: u16,
    pub report: ReceptionReport,
}

/// Puts the last report of the leg or endpoint with this number after others, if there was one, and if it is still shown at this moment.
/// Refused for want of memory alone.
pub(crate) fn push_shown(
    all: &mut Vec<NumberedReport>,
    number: u16,
    report: Option<ReceptionReport>,
    moment: u64,
) -> Result<(), AllocError>
    ensures ok { OnOk result (all.new.items ≡ all.old.items ++ shown_of number report moment) }
    ensures few { OnOk result (length all.new.items ≤ length all.old.items + 1) }
    ensures shown { AreShown all.old.items moment → OnOk result (AreShown all.new.items moment) }
{
    match report {
        Some(report) => push_while_shown(all, NumberedReport { number, report }, moment),
        None => Ok(()),
    }
}

/// Puts a report after others, if it is still shown at this moment.
#[tactic(auto, using(crate::proofs::ReportLemmas::shown_more))]
fn push_while_shown(
    all: &mut Vec<NumberedReport>,
    numbered: NumberedReport,
    moment: u64,
) -> Result<(), AllocError>
    ensures ok { OnOk result (all.new.items
        ≡ all.old.items ++ shown_of numbered.number (Some numbered.report) moment) }
    ensures few { OnOk result (length all.new.items ≤ length all.old.items + 1) }
    ensures shown { AreShown all.old.items moment → OnOk result (AreShown all.new.items moment) }
{
    if !numbered.report.is_shown(moment) {
        return Ok(());
    }
    all.push(numbered)?;
    Ok(())
}
