//! The language of a room's tests: a script has a line for each thing that is done or asked, and after a colon
//! what it gives.
//!
//! | Line | What is done |
//! |---|---|
//! | `hear MOMENT ENDPOINT SOURCE`, `bye MOMENT ENDPOINT` | a packet of an endpoint, its goodbye |
//! | `tick MOMENT`, `on MOMENT LEG`, `off MOMENT LEG` | a moment; a leg is selected, or not |
//! | `packet ENDPOINT SEQ TIMESTAMP`, `report ENDPOINT NTP RTP` | what is received of an endpoint |
//! | `moment`, `present ENDPOINT`, `stay LEG`, `refuses MOMENT ENDPOINT SOURCE` | what a room shows |
//! | `last ENDPOINT`, `block ENDPOINT` | the last sender report, the block about an endpoint |
//!
//! A call gives its orders, or `refused` and the fault's number, and leaves the orders that stood before. A block gives its fields in
//! their order.

use members::*;
use std::alloc::{AllocError, Global};
use std::fmt::Write;
use std::process::Abort;
use std::test::Fail;
use tmmbr_tuple::Ssrc;

/// Up to three numbers of a line; those that aren't there are 0.
type Numbers = [u64; 3];

/// An order that stood there before a call.
const BEFORE: Order = Order::Arrive { leg: 9, stay: 9 };

/// The numbers of these words.
fn numbers_of(words: &str) -> Numbers {
    let mut numbers = [0; 3];
    let mut rest = words;
    for number in numbers.iter_mut() {
        let (word, behind) = rest.split_once(' ').unwrap_or((rest, ""));
        *number = word.parse().unwrap_or(0);
        rest = behind;
    }
    numbers
}

/// The low 16 bits of a number.
fn low_16(number: u64) -> u16 {
    (number % 65_536) as u16
}

/// The low 32 bits of a number.
fn low_32(number: u64) -> u32 {
    (number % 4_294_967_296) as u32
}

/// Writes an order.
fn write_order(text: &mut String, order: &Order) -> Result<(), AllocError> {
    match *order {
        Order::Arrive { leg, stay } => write!(text, " arrive {leg} {stay}"),
        Order::Depart { leg, stay } => write!(text, " depart {leg} {stay}"),
        Order::Route {
            leg,
            stay,
            turn,
            on,
        } => {
            let on = if on { "on" } else { "off" };
            write!(text, " route {leg} {stay} {turn} {on}")
        }
    }
}

/// Writes these orders.
pub(crate) fn write_orders(text: &mut String, orders: &[Order]) -> Result<(), AllocError> {
    for order in orders {
        write_order(text, order)?;
    }
    Ok(())
}

/// Writes a block.
fn write_block(text: &mut String, block: &Block) -> Result<(), AllocError> {
    let source = block.source.0;
    write!(text, " {source} {} {}", block.fraction, block.lost)?;
    write!(text, " {} {}", block.highest, block.jitter)?;
    write!(text, " {} {}", block.last_sr, block.delay)
}

/// Writes a block that may be none.
fn write_some_block(text: &mut String, block: Option<Block>) -> Result<(), AllocError> {
    match block {
        Some(block) => write_block(text, &block),
        None => text.push_str(" none"),
    }
}

/// Writes the two timestamps of a sender report, if there is one.
fn write_last(text: &mut String, last: Option<(u64, u32)>) -> Result<(), AllocError> {
    match last {
        Some((ntp, rtp)) => write!(text, " {ntp} {rtp}"),
        None => text.push_str(" none"),
    }
}

/// Makes a call; `None` if the name is none of a call.
fn call(
    room: &mut Room,
    name: &str,
    numbers: Numbers,
    orders: &mut Vec<Order>,
) -> Option<Result<(), RoomFault>> {
    let [moment, number, source] = numbers;
    let number = low_16(number);
    match name {
        "hear" => Some(room.hear(moment, number, Ssrc(low_32(source)), orders)),
        "bye" => Some(room.bye(moment, number, orders)),
        "tick" => Some(room.tick(moment, orders)),
        "on" => Some(room.select(moment, number, true, orders)),
        "off" => Some(room.select(moment, number, false, orders)),
        _ => None,
    }
}

/// What is received of an endpoint; true if the name is one of that.
fn receive(room: &mut Room, name: &str, numbers: Numbers) -> bool {
    let [endpoint, first, second] = numbers;
    let endpoint = low_16(endpoint);
    match name {
        "packet" => room.received(endpoint, low_16(first), low_32(second)),
        "report" => room.sender_report(endpoint, first, low_32(second)),
        _ => return false,
    }
    true
}

/// The number that a room shows under this name.
fn shown(room: &Room, name: &str, numbers: Numbers) -> u64 {
    let [first, endpoint, source] = numbers;
    match name {
        "moment" => room.moment(),
        "present" => u64::from(room.is_present(low_16(first))),
        "stay" => room.stay(low_16(first)),
        _ => match room.refuses(first, low_16(endpoint), Ssrc(low_32(source))) {
            Some(fault) => u64::from(fault.number()),
            None => 0,
        },
    }
}

/// Writes what a room shows under this name.
fn write_shown(
    room: &mut Room,
    name: &str,
    numbers: Numbers,
    text: &mut String,
) -> Result<(), AllocError> {
    let endpoint = low_16(numbers[0]);
    match name {
        "last" => write_last(text, room.last_sr(endpoint)),
        "block" => write_some_block(text, room.block(endpoint)),
        _ => write!(text, " {}", shown(room, name, numbers)),
    }
}

/// Writes what a call gave: its orders, after the one that stood there before.
fn write_given(
    text: &mut String,
    answer: Result<(), RoomFault>,
    orders: &[Order],
) -> Result<(), AllocError> {
    if let Err(fault) = answer {
        write!(text, " refused {}", fault.number())?;
    }
    match orders {
        [first, behind @ ..] if *first == BEFORE => write_orders(text, behind),
        _ => text.push_str(" other orders"),
    }
}

/// Does what a line says, and writes it and what it gives.
fn play_line(
    room: &mut Room,
    line: &str,
    orders: &mut Vec<Order>,
    text: &mut String,
) -> Result<(), Fail> {
    let (step, _) = line.split_once(':').ok_or("a line")?;
    let (name, words) = step.split_once(' ').unwrap_or((step, ""));
    let numbers = numbers_of(words);
    write!(text, "{step}:")?;
    orders.clear();
    orders.push(BEFORE)?;
    if let Some(answer) = call(room, name, numbers, orders) {
        write_given(text, answer, orders.as_slice())?;
    } else if !receive(room, name, numbers) {
        write_shown(room, name, numbers, text)?;
    }
    text.push('\n')?;
    Ok(())
}

/// The script again, with what its lines gave of this room.
fn played_in(alloc: Global, room: &mut Room, script: &str) -> Result<String, Fail> {
    let mut orders = Vec::new(alloc);
    let mut text = String::new(alloc);
    for line in script.lines() {
        play_line(room, line, &mut orders, &mut text)?;
    }
    Ok(text)
}

/// Each line of the script gives of this room what it says.
pub(crate) fn plays(
    rt: &impl Abort,
    alloc: Global,
    room: &mut Room,
    script: &str,
) -> Result<(), Fail> {
    let text = played_in(alloc, room, script)?;
    assert_eq!(rt; text.as_str(), script);
    Ok(())
}
