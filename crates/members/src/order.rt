//! What follows from who comes and goes: orders for the desks and the route table.

ghost use Rattle.std.specs.Prelude.{◌≡◌, ◌++◌, ◌∷◌, [], Some, None, Option, List, OnOk, OnErr, IsSomeAnd};

use std::alloc::{AllocError, Global};
use std::marker::Model;

/// An order that follows from a call of a room. Stays are numbered from 1.
#[derive(Clone, Copy, PartialEq, Eq)]
pub enum Order {
    /// A stay of the leg begins: its subscriber arrives at its publisher's desk.
    Arrive {
        leg: u16,
        stay: u64,
    },
    /// A stay of the leg ended: its subscriber departs from its publisher's desk.
    Depart {
        leg: u16,
        stay: u64,
    },
    /// The leg's row is from now on this one; the stay is 0 if none stands.
    Route {
        leg: u16,
        stay: u64,
        turn: u64,
        on: bool,
    },
}

/// A row of the route table: what is forwarded on a leg.
#[derive(Clone, Copy, Debug, PartialEq, Eq)]
pub struct Row {
    /// The stay that stands; 0 if none does.
    pub stay: u64,
    /// The turn of what is forwarded; 0 before the first.
    pub turn: u64,
    /// Whether anything is forwarded.
    pub on: bool,
}

/// A change of the route table: the leg's row is from now on this one. A leg is named by its number, from 0.
#[derive(Clone, Copy, Debug, PartialEq, Eq)]
pub struct Change {
    pub leg: u16,
    pub row: Row,
}

/// Orders in the making. Once no memory was left for one they are short, and stay so.
#[derive(Drop)]
pub struct Draft {
    orders: Vec<Order>,
    is_short: bool,
}

impl Model for Draft {
    ghost use Rattle.std.specs.Prelude.{List, Option, None, Some, if◌then◌else◌};
    ghost use Rattle.members.specs.declared.order.Order.{Order};

    ghost Value = { Option (List Order) };

    ghost view = { λ d. if d.is_short then None else Some d.orders.items };
}

impl Draft {
    ghost use Rattle.members.specs.Stays.{Tells};

    /// No order yet.
    pub fn new(alloc: Global) -> Draft
        ensures { result ≡ Some [] }
    {
        Draft {
            orders: Vec::new(alloc),
            is_short: false,
        }
    }

    /// One order more.
    pub fn push(&mut self, order: Order)
        ensures { Tells self.old (order ∷ []) self.new }
    {
        match self.orders.push(order) {
            Ok(()) => {}
            Err(_) => self.is_short = true,
        }
    }

    /// Appends the orders. Refused if they are short, or if no memory is left; then nothing is
    /// appended.
    pub fn append_to(&self, orders: &mut Vec<Order>) -> Result<(), AllocError>
        ensures ok { OnOk result
            (IsSomeAnd self.now (λ told. orders.new.items ≡ orders.old.items ++ told)) }
        ensures err { OnErr result (orders.new.items ≡ orders.old.items) }
    {
        if self.is_short {
            return Err(AllocError);
        }
        orders.extend_from_slice(self.orders.as_slice())
    }
}
