//! The writer of the route table: it notes changes, and publishes them all at once.

ghost use Rattle.std.specs.Prelude.{◌≡◌, ◌<◌, ◌^◌, ◌++◌, ◌∷◌, [], drop, length};
ghost use Rattle.routes.specs.Publications.{head_of, MayPublish};
ghost use Rattle.routes.specs.Views.{IsAhead, IsNext};

use crate::NoMemory;
use crate::mark::{Law, Mark};
use crate::note::RouteNote;
use crate::rule::{Naming, Published};
use crate::table::{Batch, Table};
use core::mem::{replace, replace_with};
use left_right::writer::Writer;
use logbook::{Pen, Word};
use members::{Change, Order, Row};
use std::alloc::Global;
use std::marker::Model;
use std::sync::Wait;
use std::thread;

pub(crate) type TableWriter<J> = Writer<Table, Batch, (), Published<J>>;

/// The one writer. It can't be let go, since that waits for the readers: end it by `end`.
pub struct RouteWriter<J: Naming> {
    writer: TableWriter<J>,
    head: Word<[Change; 0], u64, Law>,
    mark: Mark,
    /// The right to the next publication, so that nobody else makes one.
    right: Pen,
    noted: Vec<Change>,
    legs: u16,
    alloc: Global,
}

impl<J: Naming> Model for RouteWriter<J> {
    ghost use Rattle.std.specs.Prelude.{◌≡◌, drop};
    ghost use Rattle.routes.specs.Publications.{changes_of, head_of, MayPublish};
    ghost use Rattle.routes.specs.Views.{WriterView, IsAhead};

    ghost Value = { WriterView };

    ghost view = { λ w. record { published = changes_of w.mark.seen.log; noted = w.noted.items } };

    ghost invariant = { λ w. (w.legs ≡ J.legs) × (w.head ≡ head_of J.book)
        × (w.mark.seen.book ≡ J.book) × MayPublish J.book w.mark.seen.log w.right
        × IsAhead J.book J.legs w.mark.seen.log
        (drop w.writer.behind w.writer.log.items) w.writer.desk.shown.value };
}

impl<J: Naming> RouteWriter<J> {
    ghost use Rattle.std.specs.Prelude.{◌≡◌, ◌≢◌, ◌++◌, [], drop, IsTrue, OnOk, OnErr};
    ghost use mathlib.Core.List.{IsPrefix};
    ghost use Rattle.members.specs.Rows.{changes_by};
    ghost use Rattle.routes.specs.Publications.{changes_of, head_of, MayPublish};
    ghost use Rattle.routes.specs.Views.{IsAhead, IsNext};

    /// A writer that has noted nothing.
    pub(crate) fn new(
        alloc: Global,
        writer: TableWriter<J>,
        head: Word<[Change; 0], u64, Law>,
        mark: Mark,
        right: Pen,
        legs: u16,
    ) -> RouteWriter<J>
        requires legs { legs ≡ J.legs }
        requires head { head ≡ head_of J.book }
        requires book { mark.seen.book ≡ J.book }
        requires right { MayPublish J.book mark.seen.log right }
        requires ahead { IsAhead J.book J.legs mark.seen.log
            (drop writer.behind writer.log.items) writer.desk.shown.value }
        ensures published { result.published ≡ changes_of mark.seen.log }
        ensures noted { result.noted ≡ [] }
    {
        RouteWriter {
            writer,
            head,
            mark,
            right,
            noted: Vec::new(alloc),
            legs,
            alloc,
        }
    }

    /// Notes a `Route` of a leg of the table, to be published. Of other orders nothing is noted, and that is Ok.
    /// Refused only if there is something to note, and no memory is left for it; then nothing is noted.
    pub fn change(&mut self, order: &Order) -> Result<(), NoMemory>
        ensures published { self.new.published ≡ self.old.published }
        ensures ok { OnOk result (self.new.noted ≡ self.old.noted ++ changes_by J.legs order.now) }
        ensures err { OnErr result ((self.new.noted ≡ self.old.noted)
            × (changes_by J.legs order.now ≢ [])) }
    {
        match *order {
            Order::Route {
                leg,
                stay,
                turn,
                on,
            } => {
                if leg >= self.legs {
                    return Ok(());
                }
                let row = Row { stay, turn, on };
                self.noted.push(Change { leg, row })?;
                Ok(())
            }
            Order::Arrive { .. } | Order::Depart { .. } => Ok(()),
        }
    }

    /// Publishes all that was noted at once, and gives the note of all that is then published. It waits
    /// for readers that are at the rows from before the last publication. It is not refused: if no
    /// memory is left it waits for some.
    pub fn publish<R: Wait>(&mut self, rt: &R) -> RouteNote<J>
        ensures published { self.new.published ≡ self.old.published ++ self.old.noted }
        ensures noted { self.new.noted ≡ [] }
        ensures note { result ≡ self.new.published }
    {
        let changes = replace(&mut self.noted, Vec::new(self.alloc));
        let mark = advance(rt, &self.head, &self.mark, &mut self.right, &changes);
        let before = replace(&mut self.mark, mark.again());
        let batch = Batch { changes, mark };
        replace_with(
            &mut self.writer,
            batch,
            |writer: TableWriter<J>, batch: Batch| -> (TableWriter<J>, ())
                requires { IsNext J.book before.seen.log batch
                    × IsAhead J.book J.legs before.seen.log
                    (drop writer.behind writer.log.items) writer.desk.shown.value }
                ensures { IsAhead J.book J.legs batch.mark.seen.log
                    (drop result.0.behind result.0.log.items) result.0.desk.shown.value }
            { (show(rt, writer, &before, batch), ()) },
        );
        self.note()
    }

    /// The note of all that is published.
    pub fn note(&self) -> RouteNote<J>
        ensures { result ≡ self.now.published }
    {
        RouteNote::of(&self.mark)
    }

    /// Whether the mark has all that is published. It has a beginning of it.
    pub(crate) fn is_all_of(&mut self, mark: &Mark) -> bool
        requires { mark.now.seen.book ≡ J.book }
        ensures same { self.new ≡ self.old }
        ensures beginning { IsPrefix (changes_of mark.now.seen.log) self.old.published }
        ensures all { IsTrue result → changes_of mark.now.seen.log ≡ self.old.published }
    {
        self.mark.is_all_of(&self.head, &mut self.right, mark)
    }

    /// Waits for the readers, and lets the table go. From then on no reader gets a view.
    pub fn end<R: Wait>(self, rt: &R) {
        let RouteWriter {
            writer,
            head: _,
            mark: _,
            right: _,
            noted: _,
            legs: _,
            alloc: _,
        } = self;
        drop(writer.take(rt));
    }
}

/// Makes the publication by the right to it, and has the right to the next one then.
fn advance<R: Wait>(
    rt: &R,
    head: &Word<[Change; 0], u64, Law>,
    mark: &Mark,
    right: &mut Pen,
    changes: &Vec<Change>,
) -> Mark
    requires head { head.now ≡ head_of mark.now.seen.book }
    requires right { MayPublish mark.now.seen.book mark.now.seen.log right.old }
    ensures book { result.seen.book ≡ mark.now.seen.book }
    ensures log { result.seen.log ≡ mark.now.seen.log ++ changes.now.items ∷ [] }
    ensures right { MayPublish result.seen.book result.seen.log right.new }
{
    wait_for_room(rt, mark);
    let next = mark.publish(head, right, changes);
    *right = wait_for_right(rt, head, &next);
    next
}

/// Returns only if the book has room for one publication more.
fn wait_for_room<R: Wait>(rt: &R, mark: &Mark)
    ensures { length mark.now.seen.log < 2 ^ 62 }
{
    for _ in rt.forever() {
        if !mark.is_full() {
            return;
        }
        thread::yield_now();
    }
    unreachable!()
}

/// The right to the publication that follows the mark, once nobody else has it. Nobody does: the word is the writer's alone.
fn wait_for_right<R: Wait>(rt: &R, head: &Word<[Change; 0], u64, Law>, mark: &Mark) -> Pen
    requires { head.now ≡ head_of mark.now.seen.book }
    ensures { MayPublish mark.now.seen.book mark.now.seen.log result }
{
    for _ in rt.forever() {
        if let Some(right) = mark.next_right(head) {
            return right;
        }
        thread::yield_now();
    }
    unreachable!()
}

/// Puts the batch after what the table has still to take in, once there is memory for it.
fn queue<J: Naming, R: Wait>(rt: &R, writer: &mut TableWriter<J>, batch: Batch)
    ensures desk { writer.new.desk ≡ writer.old.desk }
    ensures pending { drop writer.new.behind writer.new.log.items
        ≡ drop writer.old.behind writer.old.log.items ++ batch ∷ [] }
{
    let mut batch = batch;
    for _ in rt.forever() {
        match writer.append(batch) {
            Ok(()) => return,
            Err(back) => batch = back,
        }
        thread::yield_now();
    }
    unreachable!()
}

/// Shows readers the rows after the batch, which follows the mark.
fn show<J: Naming, R: Wait>(
    rt: &R,
    writer: TableWriter<J>,
    before: &Mark,
    batch: Batch,
) -> TableWriter<J>
    requires next { IsNext J.book before.now.seen.log batch }
    requires ahead { IsAhead J.book J.legs before.now.seen.log
        (drop writer.behind writer.log.items) writer.desk.shown.value }
    ensures ahead { IsAhead J.book J.legs batch.mark.seen.log
        (drop result.behind result.log.items) result.desk.shown.value }
{
    let mut writer = writer;
    queue(rt, &mut writer, batch);
    let (writer, _shown) = writer.publish_as::<Published<J>, R>(rt);
    writer
}
