//! Which file a record goes to where files of earlier ones may stand.

ghost use Rattle.std.specs.Prelude.{◌≡◌, ◌↔◌, Err, IfOk, IsTrue};
ghost use Rattle.std.specs.String.{string_bytes};
ghost use Rattle.recording.specs.NextRecord.{IsNextMade, record_path};

use crate::faults::RecordFault;
use std::alloc::{AllocError, Global};

/// The greatest number that a file of a record may have behind its path.
pub const MAX_RECORD: u32 = 9_999;

/// The path of the file of this number: the path that was asked for, or, from 1 on, with the number behind it. Refused for want of memory
/// alone.
pub fn record_path(alloc: Global, path: &str, number: u32) -> Result<String, AllocError>
    ensures { IfOk result (λ text. string_bytes text ≡ record_path path.now number) }
{
    if number == 0 {
        return String::from_str(alloc, path);
    }
    format!(in alloc; "{path}.{number}")
}

/// Makes the first file of a record that isn't there: by rising number, as long as making one fails as `Exists`. What making that one came
/// to is the result; `Exists` exactly if all up to `MAX_RECORD` are there.
pub fn make_next<T: Drop, F: Fn(u32) -> Result<T, RecordFault>>(make: F) -> Result<T, RecordFault>
    requires { F.IsAlwaysCallable make }
    ensures { IsNextMade (F.post make) result }
{
    for number in 0..MAX_RECORD {
        let made = make(number);
        if !is_there(&made) {
            return made;
        }
    }
    make(MAX_RECORD)
}

/// Whether a file couldn't be made since it is there.
fn is_there<T: Drop>(made: &Result<T, RecordFault>) -> bool
    ensures { IsTrue result ↔ (made.now ≡ Err RecordFault.Exists) }
{
    match made {
        Ok(_) => false,
        Err(fault) => is_exists(*fault),
    }
}

/// Whether the fault is that a file is there.
fn is_exists(fault: RecordFault) -> bool
    ensures { IsTrue result ↔ (fault ≡ RecordFault.Exists) }
{
    match fault {
        RecordFault::Exists => true,
        RecordFault::Failed => false,
        RecordFault::NoMemory => false,
    }
}
