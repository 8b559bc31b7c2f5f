//! The table that readers take: the rows, and the mark of the publications that they follow from.

ghost use Rattle.std.specs.Prelude.{◌≡◌, fold};
ghost use Rattle.members.specs.Rows.{row_changed};

use crate::mark::{Law, Mark};
use left_right::Absorb;
use logbook::Seen;
use members::{Change, Row};
use std::alloc::AllocError;

/// The rows after the mark's publications.
#[derive(Drop)]
pub struct Table {
    pub(crate) rows: Vec<Row>,
    pub(crate) mark: Mark,
}

/// Changes that are published at once, with the mark that they lead to.
#[derive(Drop)]
pub struct Batch {
    pub(crate) changes: Vec<Change>,
    pub(crate) mark: Mark,
}

impl Absorb<Batch> for Table {
    ghost use Rattle.std.specs.Prelude.{fold};
    ghost use Rattle.members.specs.Rows.{row_changed};

    type State = ([Row; 0], Seen<[Change; 0], u64, Law>);

    ghost state = { λ t. (t.rows.items, t.mark.seen) };

    ghost applied = { λ s b. (fold row_changed s.0 b.changes.items, b.mark.seen) };

    ghost never_fails = { Unit {0} };

    fn absorb_first(&mut self, operation: &Batch, _other: &Table) -> Result<(), AllocError> {
        apply(self.rows.as_mut_slice(), operation.changes.as_slice());
        self.mark = operation.mark.again();
        Ok(())
    }
}

/// Does the changes in their order. One of a leg beyond the table changes nothing.
fn apply(rows: &mut [Row], changes: &[Change])
    ensures { rows.new ≡ fold row_changed rows.old changes.now }
{
    for change in changes {
        let leg = usize::from(change.leg);
        if leg < rows.len() {
            rows[leg] = change.row;
        }
    }
}
