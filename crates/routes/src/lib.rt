//! The route table: one writer publishes what is forwarded on each leg, and readers in threads of their own
//! take the rows without a lock (RFC 7667, section 3.7: the unit selects what goes to whom).
//!
//! Read `Rows` of members and `specs/Views` first, then `opening`, `writer` and `reader`.
#![tactic(auto)]

mod mark;
mod note;
mod opening;
mod reader;
mod rule;
mod table;
mod writer;

pub use members::{Change, Order, Row};
pub use note::RouteNote;
pub use opening::{Blank, MAX_READERS, RoutesFault, routes};
pub use reader::RouteReader;
pub use rule::Naming;
pub use std::alloc::AllocError as NoMemory;
pub use writer::RouteWriter;
