//! What a command of a script gives, and its text.

ghost use Rattle.std.specs.Prelude.{◌≡◌, ◌∷◌, ◌++◌, ℕ, [], map, IfErr, IfOk, OnOk};
ghost use Rattle.replay.specs.Printing.{PrintsGiven, scene_of};
ghost use Rattle.replay.specs.Replay.{IsOutside, told_in};
ghost use Rattle.replay.specs.Shown.{an_out, cause_of, event_told, given_at, the_end, trail};

use crate::last_packets::LastPackets;
use crate::latest::Latest;
use crate::printing::{Choice, print_end, print_event, print_outs, print_set};
use cli::Failure;
use events::Out;
use std::alloc::Global;
use std::io::Write;

/// What a command gives: what the machine gave out, and whether the command is an event; or the line of a set.
#[derive(Drop)]
pub(crate) enum Gives {
    Outs { is_event: bool, outs: Vec<Out> },
    Set(String),
}

/// Prints what is shown of what a command gave, as `print_outs` does.
pub(crate) fn print_all<O: Write>(
    alloc: Global,
    choice: Choice<'_>,
    latest: Latest<'_>,
    said: u64,
    gives: &Gives,
    packets: &mut LastPackets,
    writer: &mut O,
) -> Result<u64, Failure>
    ensures printed { IfOk result (λ behind. PrintsGiven (scene_of choice.entry)
        (trail said packets.old) (given_at (cause_of latest.entry) (told_in gives.now))
        (trail behind packets.new) (O.contents writer.old) (O.contents writer.new)) }
    ensures outside { IfErr result IsOutside }
{
    match gives {
        Gives::Outs { is_event, outs } => {
            let outs = outs.as_slice();
            print_both(
                alloc, choice, latest, said, *is_event, outs, packets, writer,
            )
        }
        Gives::Set(text) => {
            let behind = print_set(alloc, choice, latest, said, text.as_str(), writer)?;
            Ok(behind)
        }
    }
}

/// The same of the latest event, if this is new, and of what the machine gave out.
fn print_both<O: Write>(
    alloc: Global,
    choice: Choice<'_>,
    latest: Latest<'_>,
    said: u64,
    is_event: bool,
    outs: &[Out],
    packets: &mut LastPackets,
    writer: &mut O,
) -> Result<u64, Failure>
    ensures printed { IfOk result (λ behind. PrintsGiven (scene_of choice.entry)
        (trail said packets.old)
        (given_at (cause_of latest.entry) (event_told is_event ++ map an_out outs.now))
        (trail behind packets.new) (O.contents writer.old) (O.contents writer.new)) }
    ensures outside { IfErr result IsOutside }
{
    let event = print_event(alloc, choice, latest, said, is_event, writer)?;
    let behind = print_outs(alloc, choice, latest, event, outs, packets, writer)?;
    Ok(behind)
}

/// Prints what is shown once the script is over, as `print_end` does.
pub(crate) fn end_all<O: Write>(
    alloc: Global,
    choice: Choice<'_>,
    latest: Latest<'_>,
    packets: &LastPackets,
    writer: &mut O,
) -> Result<(), Failure>
    ensures printed { OnOk result ((said : ℕ) → PrintsGiven (scene_of choice.entry)
        (trail said packets.now) (given_at (cause_of latest.entry) (the_end ∷ []))
        (trail said packets.now) (O.contents writer.old) (O.contents writer.new)) }
    ensures outside { IfErr result IsOutside }
{
    print_end(alloc, choice, latest, packets, writer)?;
    Ok(())
}
