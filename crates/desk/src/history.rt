//! The listed calls of a desk, and those that leave the list.

ghost use Rattle.std.specs.Prelude.{◌≡◌, ◌<◌, ◌≤◌, ◌++◌, ◌∷◌, [], length};
ghost use Rattle.desk.specs.declared.base.TheConstants.{CALL_LIMIT};
ghost use Rattle.desk.specs.declared.desk.TheConstants.{HISTORY_LIMIT};
ghost use Rattle.desk.specs.Trace.{IsBase};
ghost use Rattle.desk.specs.History.{StandsForEntries, FirstFollows};

use crate::base::Base;
use crate::call::Entry;
use circular_buffer::HeapCircularBuffer;

/// Lists an entry after the others. If the list is full, its oldest entry is folded into the base.
pub fn list(base: &mut Base, history: &mut HeapCircularBuffer<Entry>, request_ms: u64, entry: Entry)
    requires capacity { history.old.capacity ≡ HISTORY_LIMIT }
    requires listed { length history.old.items ≤ HISTORY_LIMIT }
    requires base { IsBase base.old }
    requires room { base.old.calls < CALL_LIMIT }
    requires follows { FirstFollows base.old (history.old.items ++ entry ∷ []) }
    ensures stands { StandsForEntries request_ms base.old (history.old.items ++ entry
        ∷ []) base.new history.new.items }
    ensures base { IsBase base.new }
    ensures capacity { history.new.capacity ≡ HISTORY_LIMIT }
{
    if let Some(oldest) = history.push_back(entry) {
        base.take_in(request_ms, &oldest);
    }
}
