//! What those who follow are told of what is refused for the first time.

ghost use Rattle.std.specs.Prelude.{◌≡◌, ◌++◌, flat_map, OnOk};
ghost use Rattle.std.specs.List.{list_any};
ghost use Rattle.std.specs.String.{string_bytes};
ghost use Rattle.stats.specs.RefusalNews.{news_end, news_line, news_start, refusal_news};

use crate::refusal_texts::{push_reason, push_whose};
use crate::refusals::{RefusedCount, reason_words};
use events::Refusal;
use std::alloc::AllocError;

/// Appends a line for each of these counts of an endpoint that is the first of its reason, which none of the endpoint's counts before has.
/// Refused for want of memory alone; then part of it may stand there.
pub fn push_refusal_news(
    text: &mut String,
    before: &[RefusedCount],
    after: &[RefusedCount],
) -> Result<(), AllocError>
    ensures { OnOk result (string_bytes text.new ≡ string_bytes text.old
        ++ flat_map (refusal_news ⟦<Refusal as PartialEq>⟧.eq before.now) after.now) }
{
    for count in after {
        push_first(text, before, *count)?;
    }
    Ok(())
}

/// The line of this count, if it is the first of its reason.
fn push_first(
    text: &mut String,
    before: &[RefusedCount],
    count: RefusedCount,
) -> Result<(), AllocError>
    ensures { OnOk result (string_bytes text.new ≡ string_bytes text.old
        ++ refusal_news ⟦<Refusal as PartialEq>⟧.eq before.now count) }
{
    if was_refused(before, count.refusal) {
        return Ok(());
    }
    push_line(text, count)
}

/// Whether one of these counts has this reason.
fn was_refused(before: &[RefusedCount], refusal: Refusal) -> bool
    ensures { result ≡ list_any (λ c. ⟦<Refusal as PartialEq>⟧.eq c.refusal refusal) before.now }
{
    before.iter().any(|count| count.refusal == refusal)
}

/// The line for those who follow.
fn push_line(text: &mut String, count: RefusedCount) -> Result<(), AllocError>
    ensures { OnOk result (string_bytes text.new ≡ string_bytes text.old ++ news_line count) }
{
    push_start(text, count)?;
    push_end(text, count.refusal)
}

/// Whose datagrams, what refused them, and the reason's number.
fn push_start(text: &mut String, count: RefusedCount) -> Result<(), AllocError>
    ensures { OnOk result (string_bytes text.new ≡ string_bytes text.old ++ news_start count) }
{
    text.push_str("refused ")?;
    push_whose(text, count.endpoint)?;
    push_reason(text, count.refusal)
}

/// The reason in words.
fn push_end(text: &mut String, refusal: Refusal) -> Result<(), AllocError>
    ensures { OnOk result (string_bytes text.new ≡ string_bytes text.old ++ news_end refusal) }
{
    text.push_str(": ")?;
    text.push_str(reason_words(refusal))?;
    text.push_str("\n")
}
