//! Calls that are refused for want of memory. Run with `rt try --test --fail-alloc N`, which refuses the
//! Nth growth.
use crate::room_tests::larger_room;
use crate::scripts::write_orders;
use members::*;
use std::alloc::Global;
use std::process::Abort;
use std::test::Fail;
use tmmbr_tuple::Ssrc;

/// A room, made again if memory was refused for it.
fn room_at_last(alloc: Global) -> Result<Room, SettingsFault> {
    match larger_room(alloc) {
        Ok(room) => Ok(room),
        Err(SettingsFault::NoMemory) => larger_room(alloc),
        Err(fault) => Err(fault),
    }
}

/// What a room shows.
fn shown(room: &Room) -> ([u64; 8], Option<(u64, u32)>) {
    let numbers = [
        room.moment(),
        u64::from(room.is_present(0)),
        u64::from(room.is_present(1)),
        u64::from(room.is_present(2)),
        room.stay(0),
        room.stay(1),
        room.stay(2),
        room.stay(3),
    ];
    (numbers, room.last_sr(0))
}

/// The calls, by their numbers.
fn call(room: &mut Room, orders: &mut Vec<Order>, number: u8) -> Result<(), RoomFault> {
    match number {
        0 => room.hear(0, 2, Ssrc(18), orders),
        1 => room.hear(1, 1, Ssrc(17), orders),
        2 => room.hear(10, 0, Ssrc(16), orders),
        3 => room.select(20, 0, false, orders),
        4 => room.bye(30, 2, orders),
        5 => room.tick(1002, orders),
        6 => room.hear(1005, 1, Ssrc(17), orders),
        // Overdue: it leaves and comes anew.
        _ => room.hear(1010, 0, Ssrc(16), orders),
    }
}

/// The orders of all calls.
const ALL: &str =
    " arrive 0 1 route 0 1 1 on arrive 1 2 route 1 2 0 off arrive 2 3 route 2 3 3 on arrive 3 4 route 3 4 4 on \
    route 0 1 1 off route 1 0 0 off depart 1 2 route 3 0 4 off depart 3 4 \
    route 0 0 1 off depart 0 1 route 2 0 3 off depart 2 3 arrive 0 5 route 0 5 1 off arrive 2 6 route 2 6 6 on \
    route 0 0 1 off depart 0 5 route 2 0 6 off depart 2 6 arrive 0 7 route 0 7 1 off arrive 2 8 route 2 8 8 on";

/// These orders as text, made again if memory was refused for it.
fn text_of(alloc: Global, orders: &[Order]) -> Result<String, Fail> {
    let mut text = String::new(alloc);
    if write_orders(&mut text, orders).is_err() {
        text.clear();
        write_orders(&mut text, orders)?;
    }
    Ok(text)
}

/// Makes a call until memory is there for it; if it was refused, the room and the orders are as before.
fn is_done(room: &mut Room, orders: &mut Vec<Order>, number: u8) -> bool {
    for _ in 0..9 {
        let before = shown(room);
        let count = orders.len();
        match call(room, orders, number) {
            Ok(()) => return true,
            Err(RoomFault::NoMemory) if shown(room) == before && orders.len() == count => {}
            Err(_) => return false,
        }
    }
    false
}

/// The calls from this number on, until the one before that one, are done.
fn are_done(room: &mut Room, orders: &mut Vec<Order>, first: u8, end: u8) -> bool {
    for number in first..end {
        if !is_done(room, orders, number) {
            return false;
        }
    }
    true
}

/// The calls, with a sender report before the last: each is done, and who is overdue has no report any more.
fn all_are_done(room: &mut Room, orders: &mut Vec<Order>) -> bool {
    let first = are_done(room, orders, 0, 7);
    room.sender_report(0, 1, 2);
    let reported = room.last_sr(0) == Some((1, 2));
    let last = are_done(room, orders, 7, 8);
    first && reported && last && room.last_sr(0).is_none()
}

/// They give these orders.
fn give_all(rt: &impl Abort, alloc: Global, room: &mut Room) -> Result<(), Fail> {
    let mut orders = Vec::new(alloc);
    let done = all_are_done(room, &mut orders);
    assert!(rt; done, "a call, or what it left");
    assert_eq!(rt; text_of(alloc, orders.as_slice())?.as_str(), ALL);
    Ok(())
}

/// Whichever growth is refused, in the making of the room or in a call, the calls give these orders.
#[test]
fn each_growth_refused(rt: HostRuntime) -> Result<(), Fail> {
    give_all(&rt, rt.alloc(), &mut room_at_last(rt.alloc())?)
}
