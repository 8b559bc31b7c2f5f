//! Which table a writer, a reader or a note belongs to, and what holds of the table that readers take.

use crate::table::Table;
use crossbeam_utils::rule::{Outcome, Protocol};
use std::marker::{Brand, PhantomData};

/// Which table it is, and how many legs it has. Each call of a program picks it.
pub trait Naming {
    ghost use Rattle.std.specs.Prelude.{ℕ};
    ghost use Rattle.logbook.specs.Pages.{Book};

    ghost book: { Book };

    ghost legs: { ℕ };
}

impl Naming for Brand {
    ghost book = { record { number = 0; log_name = 0; cells_name = 0 } };

    ghost legs = { 0 };
}

/// The rule of the table: its rows are those after the publications of its mark.
pub struct Published<J: Naming> {
    of: PhantomData<J>,
}

impl<J: Naming> Protocol<Table, ()> for Published<J> {
    ghost use Rattle.routes.specs.Views.{IsTable};

    ghost holds = { λ t views. IsTable J.book J.legs t };

    ghost first = { tt };
}

/// A step that shows what the rule says of the table.
impl<J: Naming> Outcome<Table, ()> for Published<J> {
    ghost use Rattle.routes.specs.Views.{IsTable};

    ghost then = { λ v x y w. IsTable J.book J.legs y };
}
