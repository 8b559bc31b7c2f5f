//! The file in which a unit notes with which number each leg begins after the next start.

ghost use Rattle.std.specs.Prelude.{◌≡◌, ◌+◌, ◌<◌, ◌∷◌, ◌++◌, [], true, false, drop, flat_map, length, IfOk, MatchOption, OnOk};
ghost use Rattle.byteorder.specs.Endian.{big_bytes};
ghost use Rattle.leg_numbers.specs.Numbers.{Reads, begins_with, numbers_file, numbers_in, read_file, read_rows, read_settings};

use byteorder::{BigEndian, ByteOrder};
use std::alloc::{AllocError, Global};
use thiserror::Error;

/// How many bytes of the file a leg takes.
pub const ROW_BYTES: usize = 2;

/// Why a file doesn't say with which numbers legs begin, or they can't be noted there.
#[derive(Clone, Copy, Debug, PartialEq, Eq, Error)]
pub enum NumbersFault {
    /// There was no memory.
    #[error("no memory")]
    NoMemory,
    /// It is no such file, or not a whole one.
    #[error("no file of numbers")]
    Unreadable,
    /// It is of a unit with other settings.
    #[error("of other settings")]
    OtherSettings,
    /// The system doesn't let a file be there, or has no thread that writes it.
    #[error("can't be written")]
    Unwritable,
}

impl From<AllocError> for NumbersFault {
    ghost use Rattle.std.specs.Prelude.{◌≡◌};
    ghost use Rattle.leg_numbers.specs.declared.file.NumbersFault.TheVariants.{NoMemory};

    ghost from_gives = { λ _ e. e ≡ NoMemory };

    fn from(_e: AllocError) -> NumbersFault {
        NumbersFault::NoMemory
    }
}

/// The file of a unit whose settings have this SHA-256 and whose legs begin with these numbers, by their own numbers. Refused for want of
/// memory alone.
pub fn numbers_file(alloc: Global, digest: &[u8], numbers: &[u16]) -> Result<Vec<u8>, AllocError>
    ensures { IfOk result (λ file. file.items ≡ numbers_file digest.now numbers.now) }
{
    let mut file = Vec::new(alloc);
    file.extend_from_slice(b"sfu numbers 1\n")?;
    file.extend_from_slice(digest)?;
    push_numbers(&mut file, numbers)?;
    Ok(file)
}

/// Appends these numbers.
fn push_numbers(file: &mut Vec<u8>, numbers: &[u16]) -> Result<(), AllocError>
    ensures { OnOk result (file.new.items ≡ file.old.items ++ flat_map (big_bytes 2) numbers.now) }
{
    for number in numbers {
        push_number(file, *number)?;
    }
    Ok(())
}

/// Appends a number in 16 bits.
fn push_number(file: &mut Vec<u8>, number: u16) -> Result<(), AllocError>
    ensures { OnOk result (file.new.items ≡ file.old.items ++ big_bytes 2 number) }
{
    let mut bytes = [0; 2];
    BigEndian::write_u16(&mut bytes, number);
    file.extend_from_slice(&bytes)?;
    Ok(())
}

/// The numbers with which so many legs begin, by the file of a unit whose settings have this SHA-256. `Unreadable` if it doesn't begin as such
/// a file, then `OtherSettings` if the SHA-256 is another one, then `Unreadable` if it doesn't have a number for each leg and no more. A file
/// that passes is refused for want of memory alone.
pub fn read_numbers(
    alloc: Global,
    file: &[u8],
    digest: &[u8],
    legs: usize,
) -> Result<Vec<u16>, NumbersFault>
    ensures { Reads (read_file digest.now legs file.now) result }
{
    match behind(file, b"sfu numbers 1\n") {
        Some(rest) => read_settings(alloc, rest, digest, legs),
        None => Err(NumbersFault::Unreadable),
    }
}

/// What stands behind the first line.
fn read_settings(
    alloc: Global,
    rest: &[u8],
    digest: &[u8],
    legs: usize,
) -> Result<Vec<u16>, NumbersFault>
    ensures { Reads (read_settings digest.now legs rest.now) result }
{
    match behind(rest, digest) {
        Some(rows) => read_rows(alloc, rows, legs),
        None => Err(NumbersFault::OtherSettings),
    }
}

/// What stands behind the settings.
fn read_rows(alloc: Global, rows: &[u8], legs: usize) -> Result<Vec<u16>, NumbersFault>
    ensures { Reads (read_rows legs rows.now) result }
{
    if rows.len() % ROW_BYTES == 0 && rows.len() / ROW_BYTES == legs {
        let numbers = numbers_of(alloc, rows)?;
        Ok(numbers)
    } else {
        Err(NumbersFault::Unreadable)
    }
}

/// What stands behind this front, if the bytes begin with it.
fn behind<'a>(bytes: &'a [u8], front: &[u8]) -> Option<&'a [u8]>
    ensures { MatchOption result (begins_with front.now bytes.entry.now ≡ false)
        (λ rest. (begins_with front.now bytes.entry.now ≡ true)
        × (rest.now ≡ drop (length front.now) bytes.entry.now)) }
{
    bytes.strip_prefix(front)
}

/// The numbers that these bytes are.
fn numbers_of(alloc: Global, bytes: &[u8]) -> Result<Vec<u16>, AllocError>
    ensures { IfOk result (λ numbers. numbers.items ≡ numbers_in bytes.now) }
{
    let mut numbers = Vec::with_capacity(alloc, bytes.len() / ROW_BYTES)?;
    let mut rest = bytes;
    while let Some((number, left)) = first_number(rest) {
        numbers.push(number)?;
        rest = left;
    }
    Ok(numbers)
}

/// The number that bytes begin with, and those after it.
#[tactic(auto, using(crate::proofs::NumberLemmas::numbers_next, crate::proofs::NumberLemmas::numbers_end))]
fn first_number(bytes: &[u8]) -> Option<(u16, &[u8])>
    ensures numbers { MatchOption result (numbers_in bytes.now ≡ [])
        (λ r. numbers_in bytes.now ≡ r.0 ∷ numbers_in r.1.now) }
    ensures shorter { MatchOption result (length bytes.now < 2)
        (λ r. length r.1.now + 2 ≡ length bytes.now) }
{
    let (row, left) = bytes.split_at_checked(ROW_BYTES)?;
    Some((BigEndian::read_u16(row), left))
}
