//! A reader of the route table: it takes the rows without waiting, and never goes back.

ghost use Rattle.std.specs.Prelude.{◌≡◌, IsTrue, MatchBool};
ghost use mathlib.Core.List.{IsPrefix};
ghost use Rattle.routes.specs.Views.{IsTable, Sees};

use crate::mark::Mark;
use crate::note::RouteNote;
use crate::rule::{Naming, Published};
use crate::table::Table;
use crate::writer::RouteWriter;
use core::mem::{replace, replace_with};
use left_right::reader::Reader;
use members::Row;
use std::alloc::Global;
use std::marker::Model;

pub(crate) type TableReader<J> = Reader<Table, (), Published<J>>;

/// A reader, for one thread at a time. It has a copy of the table that it saw last, whose mark it may know
/// to be behind.
#[derive(Drop)]
pub struct RouteReader<J: Naming> {
    reader: TableReader<J>,
    known: Mark,
    taken: Table,
    alloc: Global,
}

impl<J: Naming> Model for RouteReader<J> {
    ghost use Rattle.std.specs.Prelude.{◌≡◌};
    ghost use Rattle.routes.specs.Publications.{changes_of};
    ghost use Rattle.routes.specs.Views.{ReaderView, IsTable};

    ghost Value = { ReaderView };

    ghost view = { λ r. record { known = changes_of r.known.seen.log; rows = r.taken.rows.items } };

    ghost invariant = { λ r. (r.known.seen.book ≡ J.book) × IsTable J.book J.legs r.taken };
}

impl<J: Naming> RouteReader<J> {
    ghost use Rattle.std.specs.Prelude.{◌≡◌, IsTrue, IfSome, MatchBool};
    ghost use mathlib.Core.List.{IsPrefix};
    ghost use Rattle.members.specs.Rows.{rows_after};
    ghost use Rattle.routes.specs.Publications.{changes_of};
    ghost use Rattle.routes.specs.Views.{AreRowsPast, IsTable, Knows, Sees};

    /// A reader that took this copy of the table, and knows what its mark knows.
    pub(crate) fn new(alloc: Global, reader: TableReader<J>, taken: Table) -> RouteReader<J>
        requires { IsTable J.book J.legs taken }
        ensures known { result.known ≡ changes_of taken.mark.seen.log }
        ensures rows { result.rows ≡ taken.rows.items }
    {
        RouteReader {
            reader,
            known: taken.mark.again(),
            taken,
            alloc,
        }
    }

    /// Whether it knows all that the note tells. Else the note tells all that it knows: what is known of
    /// one table, here or there, are beginnings of one list.
    pub fn knows(&self, note: &RouteNote<J>) -> bool
        ensures { Knows result self.now.known note.now }
    {
        note.mark.begins(&self.known)
    }

    /// Whether it knows all that the writer published. It knows a beginning of that, since only the writer publishes.
    pub fn knows_all_of(&self, writer: &mut RouteWriter<J>) -> bool
        ensures writer { writer.new ≡ writer.old }
        ensures beginning { IsPrefix self.now.known writer.old.published }
        ensures all { IsTrue result → self.now.known ≡ writer.old.published }
    {
        writer.is_all_of(&self.known)
    }

    /// The note of all that it knows, for other readers.
    pub fn note(&self) -> RouteNote<J>
        ensures { result ≡ self.now.known }
    {
        RouteNote::of(&self.known)
    }

    /// From now on this reader sees no less than the note tells. The note is used up.
    pub fn learn(&mut self, note: RouteNote<J>)
        ensures old { IsPrefix self.old.known self.new.known }
        ensures note { IsPrefix note self.new.known }
        ensures rows { self.new.rows ≡ self.old.rows }
    {
        learn_mark(&mut self.known, note.mark);
    }

    /// The rows that are published; `None` if the table gives no view. It waits for nobody, and takes no memory. They follow from a
    /// beginning of what was published that has all that the reader knew. `take` says what the reader knows then.
    pub fn enter(&mut self) -> Option<&[Row]>
        ensures { IfSome result (λ rows. AreRowsPast J.legs self.old.known rows.now) }
    {
        if self.take() { Some(self.rows()) } else { None }
    }

    /// Takes the rows that are published, for `rows` to show, and says whether it did: not if the table gives no view.
    /// Then nothing changed. It waits for nobody, and takes no memory. The rows are those after what it knows then, which is a
    /// beginning of what the writer published (`knows_all_of`).
    pub fn take(&mut self) -> bool
        ensures view { MatchBool result
            (IsPrefix self.old.known self.new.known
            × (self.new.rows ≡ rows_after J.legs self.new.known))
            (self.new ≡ self.old) }
    {
        let known = self.known.again();
        let nothing = Table {
            rows: Vec::new(self.alloc),
            mark: known.again(),
        };
        let held = Held {
            known,
            taken: replace(&mut self.taken, nothing),
            is_new: false,
        };
        let held = replace_with(
            &mut self.reader,
            held,
            |reader: TableReader<J>, held: Held| -> (TableReader<J>, Held)
                requires { (held.known.seen.book ≡ J.book) × IsTable J.book J.legs held.taken }
                ensures { (result.1.known.seen.book ≡ J.book)
                    × IsTable J.book J.legs result.1.taken
                    × Sees J.legs held.known.seen.log held.taken.rows.items
                    result.1.is_new result.1.known.seen.log result.1.taken.rows.items }
            { look(reader, held) },
        );
        let Held {
            known,
            taken,
            is_new,
        } = held;
        self.known = known;
        self.taken = taken;
        is_new
    }

    /// The rows that were taken last, one for each leg of the table; at first those that it opened with.
    pub fn rows(&self) -> &[Row]
        ensures { result.now ≡ self.now.rows }
    {
        self.taken.rows.as_slice()
    }
}

/// The longer of the two is known from now on.
fn learn_mark(known: &mut Mark, told: Mark)
    requires { told.seen.book ≡ known.old.seen.book }
    ensures book { known.new.seen.book ≡ known.old.seen.book }
    ensures known { IsPrefix known.old.seen.log known.new.seen.log }
    ensures told { IsPrefix told.seen.log known.new.seen.log }
{
    if known.begins(&told) {
        *known = told;
    }
}

/// What a reader keeps while it looks.
#[derive(Drop)]
struct Held {
    known: Mark,
    taken: Table,
    is_new: bool,
}

/// Takes the table under the guard.
fn look<J: Naming>(reader: TableReader<J>, held: Held) -> (TableReader<J>, Held)
    requires book { held.known.seen.book ≡ J.book }
    requires taken { IsTable J.book J.legs held.taken }
    ensures book { result.1.known.seen.book ≡ J.book }
    ensures taken { IsTable J.book J.legs result.1.taken }
    ensures sees { Sees J.legs held.known.seen.log held.taken.rows.items
        result.1.is_new result.1.known.seen.log result.1.taken.rows.items }
{
    match reader.enter_as::<Published<J>>() {
        Ok(reading) => {
            let held = take_table::<J>(reading.get(), held);
            (reading.leave(), held)
        }
        Err(reader) => (
            reader,
            Held {
                is_new: false,
                ..held
            },
        ),
    }
}

/// Takes the table, unless more is known than its rows follow from: what is there is a view, if it was taken before or not.
fn take_table<J: Naming>(table: &Table, held: Held) -> Held
    requires table { IsTable J.book J.legs table.now }
    requires book { held.known.seen.book ≡ J.book }
    requires taken { IsTable J.book J.legs held.taken }
    ensures book { result.known.seen.book ≡ J.book }
    ensures taken { IsTable J.book J.legs result.taken }
    ensures sees { Sees J.legs held.known.seen.log held.taken.rows.items
        result.is_new result.known.seen.log result.taken.rows.items }
    ensures view { IsPrefix held.known.seen.log table.now.mark.seen.log → IsTrue result.is_new }
{
    if !held.known.begins(&table.mark) {
        return Held {
            is_new: false,
            ..held
        };
    }
    Held {
        known: table.mark.again(),
        taken: renew::<J>(held.taken, table),
        is_new: true,
    }
}

/// The copy, brought to where the table is. If it is there already, no row is copied.
#[tactic(auto, using(crate::proofs::RowLemmas::rows_after_length))]
fn renew<J: Naming>(taken: Table, table: &Table) -> Table
    requires taken { IsTable J.book J.legs taken }
    requires table { IsTable J.book J.legs table.now }
    ensures table { IsTable J.book J.legs result }
    ensures rows { result.rows.items ≡ table.now.rows.items }
{
    let mut taken = taken;
    if !taken.mark.is(&table.mark) {
        taken
            .rows
            .as_mut_slice()
            .copy_from_slice(table.rows.as_slice());
        taken.mark = table.mark.again();
    }
    taken
}
