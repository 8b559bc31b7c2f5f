//! The comment at the head of a record.

ghost use Rattle.std.specs.Prelude.{◌≡◌, ◌++◌, flat_map, IfOk, OnOk};
ghost use Rattle.std.specs.String.{string_bytes};
ghost use Rattle.recording.specs.Lines.{first_part, header_text, program_part, spaced_number, time_part};

use std::alloc::{AllocError, Global};

/// What a record says of itself.
#[derive(Clone, Copy)]
pub struct Header<'a> {
    /// The version of the program.
    pub version: &'a str,
    /// The SHA-256 of the settings file's bytes (FIPS 180-4).
    pub settings: &'a [u8],
    /// What the wall clock said at moment 0, in milliseconds since the beginning of 1970 (UTC).
    pub began_ms: u64,
    /// With which number each leg began, by the leg's own number, if not as the settings say; else none.
    pub first: &'a [u16],
}

/// The head of a record: lines that begin with `#`, so that `sfu replay` passes them over. Refused for want of memory alone.
pub fn header_text(alloc: Global, header: &Header<'_>) -> Result<String, AllocError>
    ensures { IfOk result (λ text. string_bytes text
        ≡ header_text header.now.version.now header.now.settings.now header.now.began_ms
        header.now.first.now) }
{
    let mut text = program_part(alloc, header.version, header.settings)?;
    let time = time_part(alloc, header.began_ms)?;
    text.push_str(time.as_str())?;
    let first = first_part(alloc, header.first)?;
    text.push_str(first.as_str())?;
    Ok(text)
}

/// The lines for the program and its settings.
fn program_part(alloc: Global, version: &str, settings: &[u8]) -> Result<String, AllocError>
    ensures { IfOk result (λ text. string_bytes text ≡ program_part version.now settings.now) }
{
    let digest = hex::encode(alloc, settings)?;
    format!(in alloc; "# sfu {version}\n# settings {digest}\n")
}

/// The line for the wall clock.
fn time_part(alloc: Global, began_ms: u64) -> Result<String, AllocError>
    ensures { IfOk result (λ text. string_bytes text ≡ time_part began_ms) }
{
    format!(in alloc; "# moment 0 unix_ms {began_ms}\n")
}

/// The line for the legs' first numbers, if there are any.
fn first_part(alloc: Global, first: &[u16]) -> Result<String, AllocError>
    ensures { IfOk result (λ text. string_bytes text ≡ first_part first.now) }
{
    if first.is_empty() {
        return Ok(String::new(alloc));
    }
    let mut text = String::from_str(alloc, "# first_seq")?;
    push_numbers(&mut text, first)?;
    text.push_str("\n")?;
    Ok(text)
}

/// Appends these numbers, each after a space.
fn push_numbers(text: &mut String, numbers: &[u16]) -> Result<(), AllocError>
    ensures { OnOk result (string_bytes text.new
        ≡ string_bytes text.old ++ flat_map spaced_number numbers.now) }
{
    for number in numbers {
        push_number(text, *number)?;
    }
    Ok(())
}

/// Appends a number after a space.
fn push_number(text: &mut String, number: u16) -> Result<(), AllocError>
    ensures { OnOk result (string_bytes text.new ≡ string_bytes text.old ++ spaced_number number) }
{
    write!(text, " {number}")
}
