//! The forms of a line for people.

ghost use Rattle.std.specs.Prelude.{◌≡◌, ◌++◌, codes, IfOk};
ghost use Rattle.std.specs.String.{string_bytes};
ghost use Rattle.settings_toml.specs.Saying.{spotted_line};

use std::alloc::{AllocError, Global};

/// A line of the file by its number, what stands there, and what is said of it.
pub(crate) fn spotted_line(
    alloc: Global,
    number: usize,
    what: &str,
    said: &str,
) -> Result<String, AllocError>
    ensures { IfOk result (λ line. string_bytes line ≡ spotted_line number what.now said.now) }
{
    format!(in alloc; "line {number}: {what}{said}\n")
}

/// What is said of a key that isn't found in the file.
pub(crate) fn unfound_line(alloc: Global, key: &str, said: &str) -> Result<String, AllocError>
    ensures { IfOk result (λ line.
        string_bytes line ≡ key.now ++ (said.now ++ codes "\n")) }
{
    format!(in alloc; "{key}{said}\n")
}
