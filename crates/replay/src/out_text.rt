//! The text that `sfu replay` prints.

ghost use Rattle.std.specs.Prelude.{◌≡◌, IfOk, string_bytes};
ghost use Rattle.replay.specs.OutText.{out_line, refusal_line};

use events::{Out, Refusal};
use std::alloc::{AllocError, Global};

/// The line for one thing that the machine gives out.
pub fn out_line(alloc: Global, out: &Out) -> Result<String, AllocError>
    ensures { IfOk result (λ text. string_bytes text ≡ out_line out.now) }
{
    match out {
        Out::Send { endpoint, bytes } => {
            let hex = hex::encode(alloc, bytes.as_slice())?;
            format!(in alloc; "send {endpoint} {hex}\n")
        }
        Out::Refused(refusal) => refusal_line(alloc, *refusal),
        Out::Busy => String::from_str(alloc, "busy\n"),
        Out::Lost(worker) => format!(in alloc; "lost {worker}\n"),
        Out::Skip(leg, skip) => format!(in alloc; "skip {leg} {}\n", skip.number()),
        Out::Miss(leg, seq) => format!(in alloc; "miss {leg} {seq}\n"),
        Out::Idle => String::from_str(alloc, "idle\n"),
    }
}

/// The line for what was refused: what it was, and the number of the cause.
fn refusal_line(alloc: Global, refusal: Refusal) -> Result<String, AllocError>
    ensures { IfOk result (λ text. string_bytes text ≡ refusal_line refusal) }
{
    match refusal {
        Refusal::Rtp(fault) => format!(in alloc; "refused rtp {}\n", fault.number()),
        Refusal::Rtcp(fault) => format!(in alloc; "refused rtcp {}\n", fault.number()),
        Refusal::Feedback(fault) => format!(in alloc; "refused feedback {}\n", fault.number()),
        Refusal::Room(fault) => format!(in alloc; "refused room {}\n", fault.number()),
        Refusal::Desk(refusal) => format!(in alloc; "refused desk {}\n", refusal.number()),
    }
}
