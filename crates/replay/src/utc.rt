//! Moments as the wall clock shows them (RFC 3339).

ghost use Rattle.std.specs.Prelude.{◌≡◌, ◌+◌, ◌^◌, ◌<◌, ◌≤◌, IfOk, string_bytes};
ghost use Rattle.replay.specs.Utc.{clock_text, date_text, day_text, days_in_month, days_in_year, is_leap_year, moment_text, month_behind, three_digits, time_text, two_digits, utc_text, wall_ms, year_behind};

use std::alloc::{AllocError, Global};

/// The milliseconds of a day.
const DAY_MS: u64 = 86_400_000;

/// The end of the year 9999, in milliseconds since the beginning of 1970.
const UTC_END_MS: u64 = 253_402_300_800_000;

/// The number of a year or a month, and how many days lie between its beginning and something.
#[derive(Clone, Copy, PartialEq, Eq)]
pub(crate) struct DaysBehind {
    number: u64,
    days: u64,
}

/// A moment, in milliseconds, by the wall clock, which said this at moment 0; its number, if that says nothing.
pub(crate) fn moment_text(
    alloc: Global,
    clock: Option<u64>,
    moment: u64,
) -> Result<String, AllocError>
    ensures { IfOk result (λ text. string_bytes text ≡ moment_text clock moment) }
{
    match wall_ms(clock, moment) {
        Some(ms) => utc_text(alloc, ms),
        None => format!(in alloc; "{moment}"),
    }
}

/// The same before a line; nothing, if the wall clock says nothing.
pub(crate) fn clock_text(
    alloc: Global,
    clock: Option<u64>,
    moment: u64,
) -> Result<String, AllocError>
    ensures { IfOk result (λ text. string_bytes text ≡ clock_text clock moment) }
{
    match wall_ms(clock, moment) {
        Some(ms) => {
            let text = utc_text(alloc, ms)?;
            format!(in alloc; "{text} ")
        }
        None => String::from_str(alloc, ""),
    }
}

/// What the wall clock says at a moment, by what it said at moment 0: nothing beyond the year 9999.
fn wall_ms(clock: Option<u64>, moment: u64) -> Option<u64>
    ensures value { result ≡ wall_ms clock moment }
{
    let began = clock?;
    let ms = u128::from(began) + u128::from(moment);
    if ms < u128::from(UTC_END_MS) {
        Some(ms as u64)
    } else {
        None
    }
}

/// The moment so many milliseconds behind the beginning of 1970.
fn utc_text(alloc: Global, unix_ms: u64) -> Result<String, AllocError>
    ensures { IfOk result (λ text. string_bytes text ≡ utc_text unix_ms) }
{
    let date = date_text(alloc, unix_ms / DAY_MS)?;
    let time = time_text(alloc, unix_ms % DAY_MS)?;
    format!(in alloc; "{date}T{time}Z")
}

/// The day that lies so many days behind the beginning of 1970.
fn date_text(alloc: Global, days: u64) -> Result<String, AllocError>
    requires { days < 2 ^ 40 }
    ensures { IfOk result (λ text. string_bytes text ≡ date_text days) }
{
    let year = year_behind(days, 1970, days);
    let month = month_behind(year.days, year.number, 1, year.days);
    day_text(alloc, year.number, month)
}

/// A day of a month of a year.
fn day_text(alloc: Global, year: u64, month: DaysBehind) -> Result<String, AllocError>
    requires { month.days < 2 ^ 40 }
    ensures { IfOk result (λ text. string_bytes text ≡ day_text year month) }
{
    let of_year = two_digits(alloc, month.number)?;
    let of_month = two_digits(alloc, month.days + 1)?;
    format!(in alloc; "{year}-{of_year}-{of_month}")
}

/// The time of a day, by its milliseconds.
fn time_text(alloc: Global, ms: u64) -> Result<String, AllocError>
    ensures { IfOk result (λ text. string_bytes text ≡ time_text ms) }
{
    let hours = two_digits(alloc, ms / 3_600_000)?;
    let minutes = two_digits(alloc, ms / 60_000 % 60)?;
    let seconds = two_digits(alloc, ms / 1_000 % 60)?;
    let rest = three_digits(alloc, ms % 1_000)?;
    format!(in alloc; "{hours}:{minutes}:{seconds}.{rest}")
}

fn two_digits(alloc: Global, number: u64) -> Result<String, AllocError>
    ensures { IfOk result (λ text. string_bytes text ≡ two_digits number) }
{
    format!(in alloc; "{}{}", number / 10, number % 10)
}

fn three_digits(alloc: Global, number: u64) -> Result<String, AllocError>
    ensures { IfOk result (λ text. string_bytes text ≡ three_digits number) }
{
    let behind = two_digits(alloc, number % 100)?;
    format!(in alloc; "{}{behind}", number / 100)
}

/// The year in which something lies, so many days behind the beginning of this one: this one, or one of so many after it.
fn year_behind(left: u64, year: u64, days: u64) -> DaysBehind
    requires { year + left < 2 ^ 64 }
    ensures value { result ≡ year_behind left year days }
    ensures within { result.days ≤ days }
{
    if left == 0 {
        return DaysBehind { number: year, days };
    }
    let length = days_in_year(year);
    if days < length {
        return DaysBehind { number: year, days };
    }
    year_behind(left - 1, year + 1, days - length)
}

/// The same of the months of a year.
fn month_behind(left: u64, year: u64, month: u64, days: u64) -> DaysBehind
    requires { month + left < 2 ^ 64 }
    ensures value { result ≡ month_behind left year month days }
    ensures within { result.days ≤ days }
{
    if left == 0 {
        return DaysBehind {
            number: month,
            days,
        };
    }
    let length = days_in_month(year, month);
    if days < length {
        return DaysBehind {
            number: month,
            days,
        };
    }
    month_behind(left - 1, year, month + 1, days - length)
}

fn days_in_year(year: u64) -> u64
    ensures { result ≡ days_in_year year }
{
    if is_leap_year(year) { 366 } else { 365 }
}

fn days_in_month(year: u64, month: u64) -> u64
    ensures { result ≡ days_in_month year month }
{
    if month == 2 {
        return if is_leap_year(year) { 29 } else { 28 };
    }
    if (month == 4 || month == 6) || (month == 9 || month == 11) {
        30
    } else {
        31
    }
}

/// RFC 3339, appendix C.
fn is_leap_year(year: u64) -> bool
    ensures { result ≡ is_leap_year year }
{
    (year % 4 == 0 && year % 100 != 0) || year % 400 == 0
}
