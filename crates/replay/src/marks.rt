//! The comment lines of a record that are shown among events.

ghost use Rattle.std.specs.Prelude.{◌≡◌};
ghost use Rattle.replay.specs.Marks.{begins_with, is_made_mark, is_stranger_line};

use request_text::is_word;

/// Whether a line says that the unit made the event that comes next, in its endpoint's name.
#[tactic(auto, unfolding(crate::specs::Marks::is_made_mark))]
pub(crate) fn is_made_mark(line: &[u8]) -> bool
    ensures { result ≡ is_made_mark line.now }
{
    begins_with(b"# made in its name", line)
}

/// Whether a line says that an unknown sender came.
#[tactic(auto, unfolding(crate::specs::Marks::is_stranger_line))]
pub(crate) fn is_stranger_line(line: &[u8]) -> bool
    ensures { result ≡ is_stranger_line line.now }
{
    begins_with(b"# stranger ", line)
}

/// Whether a line begins so.
fn begins_with(head: &[u8], line: &[u8]) -> bool
    ensures { result ≡ begins_with head.now line.now }
{
    if line.len() < head.len() {
        return false;
    }
    let (front, _) = line.split_at(head.len());
    is_word(front, head)
}
