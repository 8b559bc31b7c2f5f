//! Which fault `gather` finds first.

ghost use Rattle.std.specs.Prelude.{◌≡◌, ◌<◌};

use crate::calls::{ask, at, by_house, of};
use rate_desk::*;
use std::alloc::Global;
use std::marker::Brand;
use std::process::Abort;
use std::sync::Wait;
use std::sync::ledger::Blank;
use std::test::Fail;

/// What of a receipt is changed before it is handed in.
#[derive(Clone, Copy)]
enum Edit {
    Nothing,
    Publisher(usize),
    Number(u64),
    Call(Call),
    Answer(Answer),
}

fn edited(receipt: Receipt, edit: Edit) -> Receipt {
    match edit {
        Edit::Nothing => receipt,
        Edit::Publisher(publisher) => Receipt {
            publisher,
            ..receipt
        },
        Edit::Number(number) => Receipt { number, ..receipt },
        Edit::Call(call) => Receipt { call, ..receipt },
        Edit::Answer(answer) => Receipt { answer, ..receipt },
    }
}

/// What `gather` is to say.
#[derive(Clone, Copy)]
enum Want {
    Desks,
    /// The receipt at this place of those that are handed in.
    DiffersAt(usize),
    Fault(GatherFault),
}

/// How a house is gathered: the ticks that were made, the seats and the receipts that are handed in, by
/// their numbers, and what is wanted.
#[derive(Drop)]
struct Gathering<'a> {
    ticks: usize,
    seats: usize,
    receipts: &'a [(usize, Edit)],
    want: Want,
}

impl Gathering<'_> {
    /// The receipts that are handed in, of those that were given.
    fn handed(&self, alloc: Global, given: &[Receipt]) -> Option<Vec<Receipt>> {
        let mut receipts = Vec::new(alloc);
        for (number, edit) in self.receipts {
            let receipt = given.get(*number)?;
            receipts.push(edited(*receipt, *edit)).ok()?;
        }
        Some(receipts)
    }

    /// The fault that is wanted, if one is.
    fn fault(&self, handed: &[Receipt]) -> Option<GatherFault> {
        match self.want {
            Want::Desks => None,
            Want::DiffersAt(place) => handed.get(place).map(|r| GatherFault::Differs(*r)),
            Want::Fault(fault) => Some(fault),
        }
    }
}

/// The receipts of the calls to publisher 1: 17 arrives and asks, somebody wants a picture, and so many ticks.
fn call_in_turn<D: DeskCalls, S: SeatCalls, R: Wait>(
    rt: &R,
    alloc: Global,
    house: &House<D, S>,
    seat: &mut DeskSeat<S>,
    ticks: usize,
) -> Option<Vec<Receipt>>
    requires { 1 < S.publishers }
{
    let calls = [
        of(17, 1, Change::Arrive),
        of(17, 1, ask(0x0007_d028)),
        at(0, Signal::Pli),
    ];
    let mut given = Vec::new(alloc);
    for call in calls {
        given.push(by_house(rt, house, seat, 1, call)?.0).ok()?;
    }
    for _ in 0..ticks {
        given
            .push(by_house(rt, house, seat, 1, at(0, Signal::Tick))?.0)
            .ok()?;
    }
    Some(given)
}

/// The receipts that are handed in of the calls of the last of the seats.
fn receipts_of<D: DeskCalls, S: SeatCalls, R: Wait>(
    rt: &R,
    alloc: Global,
    house: &House<D, S>,
    seats: &mut Vec<DeskSeat<S>>,
    case: &Gathering,
) -> Option<Vec<Receipt>>
    requires { 1 < S.publishers }
{
    let seat = seats.last_mut()?;
    let given = call_in_turn(rt, alloc, house, seat, case.ticks)?;
    case.handed(alloc, given.as_slice())
}

fn gathers<D: DeskCalls, S: SeatCalls, R: Wait + Abort>(
    rt: &R,
    alloc: Global,
    recorded: Blank,
    made: Blank,
    case: &Gathering,
) -> Result<(), Fail>
    requires names { (recorded.name ≡ D.name) × (made.name ≡ S.name) }
    requires parts { (recorded.parts ≡ D.parts) × (made.parts ≡ S.parts) }
    requires two { (S.publishers ≡ 2) × (D.parts ≡ 2) × (S.parts ≡ 4) × (S.seats ≡ 4) }
    requires numbers { (D.gap ≡ 500) × (D.request_ms ≡ 0) }
{
    let (house, mut seats) = House::<D, S>::new(alloc, recorded, made, 2, 4, 500, 0)?;
    let receipts = receipts_of(rt, alloc, &house, &mut seats, case).ok_or("the receipts")?;
    seats.truncate(case.seats);
    let fault = house.gather(seats, receipts.as_slice()).err();
    assert_eq!(rt; fault, case.fault(receipts.as_slice()));
    Ok(())
}

/// Gathers a house by each of these.
fn assert_gathers<R: Wait + Abort>(rt: &R, alloc: Global, cases: &[Gathering]) -> Result<(), Fail> {
    for case in cases {
        gathers::<Brand, Brand, R>(rt, alloc, Blank::new(2), Blank::new(4), case)?;
    }
    Ok(())
}

fn case<'a>(
    ticks: usize,
    seats: usize,
    receipts: &'a [(usize, Edit)],
    want: Want,
) -> Gathering<'a> {
    Gathering {
        ticks,
        seats,
        receipts,
        want,
    }
}

/// The number of one publisher that comes twice.
fn twice(number: u64) -> Want {
    Want::Fault(GatherFault::Twice(number))
}

/// So many seats are handed in, of four.
fn seats(count: usize) -> Want {
    Want::Fault(GatherFault::Seats(count))
}

/// Receipts of the numbers 0 (17 arrives), 1 (it asks) and 2 (a PLI is sent upstream at 0).
#[test]
fn gather_refusals(rt: HostRuntime) -> Result<(), Fail> {
    let is = Edit::Nothing;
    let other = Edit::Call(of(18, 1, Change::Arrive));
    let moved = Edit::Call(at(1, Signal::Pli));
    let ticked = Edit::Call(at(0, Signal::Tick));
    assert_gathers(
        &rt,
        rt.alloc(),
        &[
            case(0, 4, &[(0, is), (1, is), (2, is)], Want::Desks),
            case(0, 4, &[], Want::Desks),
            case(0, 3, &[], seats(3)),
            case(0, 0, &[(0, is)], seats(0)),
            case(0, 4, &[(0, is), (0, is)], twice(0)),
            case(0, 3, &[(2, is), (1, is), (0, is), (1, is)], twice(1)),
            case(0, 4, &[(0, other), (0, other)], Want::DiffersAt(0)),
            case(0, 3, &[(1, is), (1, is), (0, other)], Want::DiffersAt(2)),
            case(0, 4, &[(1, is), (2, moved)], Want::DiffersAt(1)),
            case(0, 4, &[(2, ticked)], Want::DiffersAt(0)),
            case(0, 4, &[(2, Edit::Answer(Answer::Full))], Want::DiffersAt(0)),
            case(0, 4, &[(2, Edit::Number(3))], Want::DiffersAt(0)),
            case(0, 4, &[(0, Edit::Publisher(0))], Want::DiffersAt(0)),
            case(0, 4, &[(0, Edit::Publisher(2))], Want::DiffersAt(0)),
        ],
    )
}

/// The first 1,033 calls of example 28, in a house.
#[test]
fn gather_of_example_28(rt: HostRuntime) -> Result<(), Fail> {
    let is = Edit::Nothing;
    let folded = Want::Fault(GatherFault::Folded(9));
    // A folded call isn't compared.
    let other = Edit::Call(of(18, 1, Change::Arrive));
    let moved = Edit::Call(at(1, Signal::Tick));
    assert_gathers(
        &rt,
        rt.alloc(),
        &[
            case(1030, 4, &[(0, is)], folded),
            case(1030, 4, &[(9, is)], Want::Desks),
            case(1030, 3, &[(9, is), (8, is)], folded),
            case(1030, 4, &[(0, is), (0, is)], twice(0)),
            case(1030, 4, &[(0, other)], folded),
            case(1030, 4, &[(0, is), (9, moved)], Want::DiffersAt(1)),
        ],
    )
}
