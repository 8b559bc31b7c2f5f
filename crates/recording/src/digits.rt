//! Bytes as hexadecimal digits, both of a byte found at once, by arithmetic. A look-up in a table, as in `hex::encode`, costs some eight times
//! as much, and a unit that is recorded makes two digits for each byte that it takes in.

ghost use Rattle.std.specs.Prelude.{◌≡◌, ◌/◌, ◌%◌, ◌*◌, ◌+◌, ◌++◌, IfSome, OnOk, OnErr, length, slice_index};
ghost use Rattle.hex.specs.Hex.{encode_lower, lower_digits};

use std::alloc::AllocError;

/// Appends the digits of the bytes, two of each, the high four bits first. For want of memory the list is as it was.
pub(crate) fn append_digits(list: &mut Vec<u8>, bytes: &[u8]) -> Result<(), AllocError>
    ensures ok { OnOk result (list.new.items ≡ list.old.items ++ encode_lower bytes.now) }
    ensures err { OnErr result (list.new.items ≡ list.old.items) }
{
    let before = list.len();
    let Some(whole) = size_with_digits(before, bytes) else {
        return Err(AllocError);
    };
    list.resize(whole, 0)?;
    let (_, digits) = list.as_mut_slice().split_at_mut(before);
    write_digits(bytes, digits);
    Ok(())
}

/// How many bytes there are with the digits of these.
fn size_with_digits(before: usize, bytes: &[u8]) -> Option<usize>
    ensures { IfSome result (λ size. size ≡ before + 2 * length bytes.now) }
{
    bytes.len().checked_mul(2)?.checked_add(before)
}

/// Writes the digits of the bytes over a list that has room for these alone.
fn write_digits(bytes: &[u8], digits: &mut [u8])
    requires { length digits.old ≡ 2 * length bytes.now }
    ensures { digits.new ≡ encode_lower bytes.now }
{
    for i in 0..bytes.len() {
        let pair = digits_of(bytes[i]);
        digits[2 * i] = (pair & 0xff) as u8;
        digits[2 * i + 1] = (pair >> 8) as u8;
    }
}

/// The digits of a byte, the high four bits' in the low eight bits.
fn digits_of(byte: u8) -> u16
    ensures { result
        ≡ slice_index lower_digits (byte / 16) + 256 * slice_index lower_digits (byte % 16) }
{
    let halves = u16::from(byte >> 4) + 256 * u16::from(byte & 0x0f);
    // One for each half that is above nine, whose digit is a letter: '0' is 48, and 'a' is 39 after what would follow '9'.
    let letters = ((halves + 0x0606) >> 4) & 0x0101;
    halves + 0x3030 + 39 * letters
}
