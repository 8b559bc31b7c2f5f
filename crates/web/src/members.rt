//! The members of objects that are written as JSON (RFC 8259).

ghost use Rattle.std.specs.Prelude.{◌≡◌, option_map};
ghost use Rattle.web.specs.State.{Tells, called_member, known_member, number_member, string_member, switch_member, text_member};

use crate::words::{plain_word, printed_word};
use json::Writer;
use request_text::{is_word, number_u64};
use std::alloc::AllocError;

/// A member that is the number that a word spells, or null.
pub(crate) fn push_number(writer: &mut Writer, name: &str, word: &[u8]) -> Result<(), AllocError>
    ensures { Tells result writer.old writer.new (number_member name.now word.now) }
{
    push_known(writer, name, number_u64(word))
}

/// A member that is a number, or null if none is known.
#[tactic(auto, unfolding(crate::specs::State::known_member))]
pub(crate) fn push_known(
    writer: &mut Writer,
    name: &str,
    number: Option<u64>,
) -> Result<(), AllocError>
    ensures { Tells result writer.old writer.new (known_member name.now number) }
{
    writer.key(name)?;
    match number {
        Some(number) => writer.u64(number),
        None => writer.null(),
    }
}

/// A member that is a text.
#[tactic(auto, unfolding(crate::specs::State::text_member))]
pub(crate) fn push_text(writer: &mut Writer, name: &str, word: &[u8]) -> Result<(), AllocError>
    ensures { Tells result writer.old writer.new (text_member name.now word.now) }
{
    writer.key(name)?;
    writer.string(plain_word(word))
}

/// A member that is what an endpoint is called, or null if that isn't said.
pub(crate) fn push_called(writer: &mut Writer, name: &str, word: &[u8]) -> Result<(), AllocError>
    ensures { Tells result writer.old writer.new (called_member name.now word.now) }
{
    push_string(writer, name, printed_word(word))
}

/// A member that is a text, or null if there is none.
#[tactic(auto, unfolding(crate::specs::State::string_member))]
fn push_string(writer: &mut Writer, name: &str, text: Option<&str>) -> Result<(), AllocError>
    ensures { Tells result writer.old writer.new
        (string_member name.now (option_map (λ t. t.now) text.entry)) }
{
    writer.key(name)?;
    match text {
        Some(text) => writer.string(text),
        None => writer.null(),
    }
}

/// A member that says whether the word is this one.
#[tactic(auto, unfolding(crate::specs::State::switch_member))]
pub(crate) fn push_switch(
    writer: &mut Writer,
    name: &str,
    word: &[u8],
    wanted: &[u8],
) -> Result<(), AllocError>
    ensures { Tells result writer.old writer.new (switch_member name.now word.now wanted.now) }
{
    writer.key(name)?;
    writer.boolean(is_word(word, wanted))
}
