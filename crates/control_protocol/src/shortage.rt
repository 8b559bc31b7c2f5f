//! When the control says that no descriptor is left for who connects.

ghost use Rattle.std.specs.Prelude.{◌≡◌, ◌↔◌, false, IsTrue, Some};
ghost use Rattle.ports.specs.Ticks.{is_due, ticks_after};
ghost use Rattle.control_protocol.specs.Shortages.{IsShortage, shortage_line};

use ports::Ticks;

/// The system's number for a process that has as many descriptors as it may (EMFILE).
const PROCESS_FULL: i32 = 24;

/// The system's number for want of descriptors in all of it (ENFILE).
const SYSTEM_FULL: i32 = 23;

/// So many milliseconds lie at least between two lines that say it.
pub const SHORTAGE_EACH_MS: u64 = 1_000;

/// The line that says it.
pub fn shortage_text() -> &'static str
    ensures { result.now ≡ shortage_line }
{
    "control: no descriptors\n"
}

/// Whether it is said now that no descriptor is left, since nobody can be taken in: a call failed with this number of the system at this
/// moment. It is said if the number means that, and wasn't said within the last `SHORTAGE_EACH_MS`, whose moments `said` has; then it is
/// noted there.
pub fn says_shortage(code: Option<i32>, said: &mut Ticks, moment: u64) -> bool
    ensures short { IsShortage code
        → (result ≡ is_due said.old moment) × (said.new ≡ ticks_after said.old moment) }
    ensures other { (¬ IsShortage code) → (result ≡ false) × (said.new ≡ said.old) }
{
    if is_shortage(code) {
        said.take(moment)
    } else {
        false
    }
}

/// Whether the system's number means that no descriptor is left.
fn is_shortage(code: Option<i32>) -> bool
    ensures { IsTrue result ↔ IsShortage code }
{
    is_number(code, PROCESS_FULL) || is_number(code, SYSTEM_FULL)
}

/// Whether it is this number.
fn is_number(code: Option<i32>, number: i32) -> bool
    ensures { IsTrue result ↔ (code ≡ Some number) }
{
    code == Some(number)
}
