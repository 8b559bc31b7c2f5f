//! A new route table: its writer and its readers.

ghost use Rattle.std.specs.Prelude.{◌≡◌, ◌≤◌, [], length, All, IfOk, IfErr};
ghost use Rattle.routes.specs.declared.opening.RoutesFault.TheVariants.{NoPlace, NoMemory};
ghost use Rattle.routes.specs.Publications.{changes_of};
ghost use Rattle.members.specs.Rows.{opening_rows};
ghost use Rattle.routes.specs.Views.{IsOpening, IsTable};

use crate::mark::{Law, Mark};
use crate::reader::{RouteReader, TableReader};
use crate::rule::Naming;
use crate::table::Table;
use crate::writer::{RouteWriter, TableWriter};
use left_right::writer::Writer;
use logbook::{Pen, Seen, Start, Word};
use members::{Change, Row};
use std::alloc::{AllocError, Global};
use std::marker::Model;
use std::sync::Wait;
use thiserror::Error;

/// The most readers of a table: one for each of eight workers, and one for what comes in.
pub const MAX_READERS: usize = 9;

/// Why no table was made.
#[derive(Clone, Copy, Debug, PartialEq, Eq, Error)]
pub enum RoutesFault {
    /// There was no place for a reader.
    #[error("no place for a reader")]
    NoPlace,
    /// There was no memory.
    #[error("no memory")]
    NoMemory,
}

impl From<AllocError> for RoutesFault {
    ghost from_gives = { λ _ fault. fault ≡ NoMemory };

    fn from(_: AllocError) -> RoutesFault {
        RoutesFault::NoMemory
    }
}

/// A table of so many legs, which has no name yet.
#[derive(Drop)]
pub struct Blank {
    head: Word<[Change; 0], u64, Law>,
    mark: Mark,
    /// The right to the first publication.
    right: Option<Pen>,
    legs: u16,
}

impl Model for Blank {
    ghost use Rattle.std.specs.Prelude.{◌≡◌, [], IfSome};
    ghost use Rattle.routes.specs.Publications.{head_of, MayPublish};
    ghost use Rattle.routes.specs.Views.{BlankView};

    ghost Value = { BlankView };

    ghost view = { λ b. record { book = b.mark.seen.book; legs = b.legs } };

    ghost invariant = { λ b. (b.head ≡ head_of b.mark.seen.book) × (b.mark.seen.log ≡ [])
        × IfSome b.right (MayPublish b.mark.seen.book []) };
}

impl Blank {
    ghost use Rattle.std.specs.Prelude.{◌≡◌};

    /// A table of legs with the numbers below `legs`.
    pub fn new(legs: u16) -> Blank
        ensures { result.legs ≡ legs }
    {
        let (seen, mut first, _second) = Seen::open(Start::alone(), 0, 0);
        let head = Word::tracked(0, &mut first);
        let mark = Mark::first(seen);
        let right = mark.next_right(&head);
        Blank {
            head,
            mark,
            right,
            legs,
        }
    }
}

/// The writer of a table and so many readers. All rows begin without a stay, at turn 0 and off.
///
/// Refused with `NoPlace` if a reader finds no place, or somebody else had the right to publish, which nobody has; else with
/// `NoMemory`. Without memory for the table itself there are no places to be found. It may wait only if it is refused, to let the
/// table go.
pub fn routes<J: Naming, R: Wait>(
    rt: &R,
    alloc: Global,
    blank: Blank,
    readers: usize,
) -> Result<(RouteWriter<J>, Vec<RouteReader<J>>), RoutesFault>
    requires named { (blank.book ≡ J.book) × (blank.legs ≡ J.legs) }
    requires readers { (1 ≤ readers) × (readers ≤ MAX_READERS) }
    ensures writer { IfOk result (λ r. (r.0.published ≡ []) × (r.0.noted ≡ [])) }
    ensures count { IfOk result (λ r. length r.1.items ≡ readers) }
    ensures readers { IfOk result (λ r. All (IsOpening J.legs) r.1.items) }
{
    let Blank {
        head,
        mark,
        right,
        legs,
    } = blank;
    let Some(right) = right else {
        return Err(RoutesFault::NoPlace);
    };
    let first = opening_table(alloc, legs, &mark)?;
    let second = opening_table(alloc, legs, &mark)?;
    let writer: TableWriter<J> = Writer::new(alloc, first, second, readers)?;
    let made = make_readers(alloc, &writer, &mark, legs, readers);
    let writer = RouteWriter::new(alloc, writer, head, mark, right, legs);
    match made {
        Ok(readers) => Ok((writer, readers)),
        Err(fault) => {
            writer.end(rt);
            Err(fault)
        }
    }
}

/// The rows that all tables of so many legs begin with.
fn first_rows(alloc: Global, legs: u16) -> Result<Vec<Row>, AllocError>
    ensures { IfOk result (λ rows. rows.items ≡ opening_rows legs) }
{
    let row = Row {
        stay: 0,
        turn: 0,
        on: false,
    };
    Vec::from_elem(alloc, row, usize::from(legs))
}

/// A table before any change.
fn opening_table(alloc: Global, legs: u16, mark: &Mark) -> Result<Table, AllocError>
    ensures { IfOk result (λ t. (t.rows.items ≡ opening_rows legs)
        × (t.mark.seen ≡ mark.now.seen)) }
{
    let rows = first_rows(alloc, legs)?;
    Ok(Table {
        rows,
        mark: mark.again(),
    })
}

/// So many readers. Each finds its place before memory is wanted for the first of them.
fn make_readers<J: Naming>(
    alloc: Global,
    writer: &TableWriter<J>,
    mark: &Mark,
    legs: u16,
    count: usize,
) -> Result<Vec<RouteReader<J>>, RoutesFault>
    requires mark { (mark.now.seen.book ≡ J.book) × (mark.now.seen.log ≡ []) }
    requires legs { legs ≡ J.legs }
    ensures count { IfOk result (λ readers. length readers.items ≡ count) }
    ensures readers { IfOk result (λ readers. All (IsOpening J.legs) readers.items) }
{
    if count == 0 {
        return Ok(Vec::new(alloc));
    }
    let place = take_place(writer)?;
    let mut readers = make_readers(alloc, writer, mark, legs, count - 1)?;
    let reader = RouteReader::new(alloc, place, opening_table(alloc, legs, mark)?);
    let Ok(()) = readers.push(reader) else {
        return Err(RoutesFault::NoMemory);
    };
    Ok(readers)
}

/// A place of the table for one reader. Refused only if there is none.
fn take_place<J: Naming>(writer: &TableWriter<J>) -> Result<TableReader<J>, RoutesFault>
    ensures no_place { IfErr result (λ fault. fault ≡ NoPlace) }
{
    match writer.factory().reader() {
        Ok(reader) => Ok(reader),
        Err(_) => Err(RoutesFault::NoPlace),
    }
}
