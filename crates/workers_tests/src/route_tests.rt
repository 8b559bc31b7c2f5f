//! Orders in, rows out: what readers see once changes are published.

ghost use Rattle.std.specs.Prelude.{◌≡◌};

use crate::tables::{note_order, publish_orders};
use routes::*;
use std::alloc::Global;
use std::marker::Brand;
use std::process::Abort;
use std::sync::Wait;
use std::test::*;

const LEGS: u16 = 3;

const OPENING: Row = Row {
    stay: 0,
    turn: 0,
    on: false,
};

const SECOND: Row = Row {
    stay: 4,
    turn: 5,
    on: true,
};

/// The row of a leg that was on and on which no stay stands any more.
const ENDED: Row = Row {
    stay: 0,
    turn: 5,
    on: false,
};

/// Leg 1 gets the second row.
const ROUTE: Order = Order::Route {
    leg: 1,
    stay: 4,
    turn: 5,
    on: true,
};

/// It is ended; a leg that the table hasn't, and a stay that begins, are nothing to the table.
const LATER: [Order; 3] = [
    Order::Route {
        leg: 1,
        stay: 0,
        turn: 5,
        on: false,
    },
    Order::Route {
        leg: LEGS,
        stay: 9,
        turn: 9,
        on: true,
    },
    Order::Arrive { leg: 0, stay: 6 },
];

#[test]
fn readers_take_what_was_published(rt: HostRuntime) -> Result<(), Fail> {
    take_published::<Brand, _>(&rt, rt.alloc(), Blank::new(LEGS))
}

/// Whether the reader's entry answers just these rows of leg 1, and opening ones of the others.
fn enters<J: Naming>(reader: &mut RouteReader<J>, wanted: Row) -> bool {
    let rows = [OPENING, wanted, OPENING];
    reader.enter() == Some(rows.as_slice())
}

/// Whether the reader took these rows last.
fn has<J: Naming>(reader: &RouteReader<J>, wanted: Row) -> bool {
    reader.rows() == [OPENING, wanted, OPENING].as_slice()
}

/// Whether the reader sees the opening rows until the first change is published, and then what it says; the note of that.
fn sees_first<J: Naming, R: Wait>(
    rt: &R,
    writer: &mut RouteWriter<J>,
    reader: &mut RouteReader<J>,
) -> (bool, RouteNote<J>) {
    let before = has(reader, OPENING);
    let noted = note_order(writer, &ROUTE);
    let unseen = enters(reader, OPENING);
    let note = writer.publish(rt);
    let seen = enters(reader, SECOND);
    (before && noted && unseen && seen, note)
}

/// Whether a reader that is told of the first change takes it.
fn takes_told<J: Naming>(note: RouteNote<J>, reader: &mut RouteReader<J>) -> bool {
    reader.learn(note);
    reader.take() && has(reader, SECOND)
}

/// Whether the reader sees the later changes once they are published, and it was told.
fn sees_later<J: Naming, R: Wait>(
    rt: &R,
    writer: &mut RouteWriter<J>,
    reader: &mut RouteReader<J>,
) -> bool {
    let noted = publish_orders(rt, writer, &LATER);
    reader.learn(writer.note());
    noted && enters(reader, ENDED)
}

/// Two readers and one writer in one thread.
fn take_published<J: Naming, R: Wait + Abort>(
    rt: &R,
    alloc: Global,
    blank: Blank,
) -> Result<(), Fail>
    requires { (blank.book ≡ J.book) × (blank.legs ≡ J.legs) }
{
    let (mut writer, mut readers) = routes::<J, R>(rt, alloc, blank, 2)?;
    let (first, note) = sees_first(rt, &mut writer, &mut readers[0]);
    let other = takes_told(note, &mut readers[1]);
    let later = sees_later(rt, &mut writer, &mut readers[0]);
    writer.end(rt);
    let gone = readers[0].take();
    assert!(rt; first && other && later && !gone);
    Ok(())
}
