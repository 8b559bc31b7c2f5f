//! `sfu replay`: plays a script through the machine.

ghost use Rattle.std.specs.Prelude.{◌≡◌, ◌∷◌, ◌<◌, [], Some, length, string_bytes, IfErr, IfOk, IfSome, OnOk};
ghost use Rattle.core_steps.specs.Run.{HasRun};
ghost use Rattle.core_steps.specs.Settling.{ingress_left};
ghost use Rattle.replay.specs.Printing.{scene_of};
ghost use Rattle.replay.specs.Script.{IsAmong};
ghost use Rattle.replay.specs.Shown.{all_shown};
ghost use Rattle.replay.specs.Replay.{CommandPlays, EndsScript, FailsLine, FailsLines, FailsReplay, Follows, GivesOut, IngressDrains, IsShown, PrintsLine, PrintsLines, PrintsReplay, Rounds, Settles, WorkerDrains, WorkersDrain, numbers_of, told_in};

use crate::giving::{Gives, end_all, print_all};
use crate::head::clock_in;
use crate::last_packets::LastPackets;
use crate::latest::{Latest, command_input};
use crate::printing::{Choice, print_comment};
use crate::script::{Command, Numbers, ScriptLine, read_line};
use crate::shown::Shown;
use cli::{Failure, Status, report};
use core_steps::{World, run};
use events::{Event, Out};
use request_text::{LineFault, Meter, announced_line, line_count, lines};
use settings::{Links, Settings};
use std::alloc::{AllocError, Global};
use std::io::{Read, Write};

/// How far a replay is: what came from outside last, and the number of the event from which the last printed line follows.
#[derive(Clone, Copy)]
pub(crate) struct Progress<'t> {
    latest: Latest<'t>,
    said: u64,
}

/// Plays the script's lines from a new world of these settings, and prints what they give: a line for each thing that the machine gives
/// out, and for each `show`.
///
/// A line that can't be read stops it, and is said on the error output; what came before stays printed.
pub fn replay_lines<I: Read, O: Write, E: Write>(
    alloc: Global,
    settings: &Settings,
    script: &mut I,
    writer: &mut O,
    errors: &mut E,
) -> Status
    ensures { EndsScript settings.now all_shown (I.remaining script.old) (O.contents writer.old)
        (O.contents writer.new) (E.contents errors.old) (E.contents errors.new) result }
{
    match play(alloc, settings, script, writer) {
        Ok(()) => Status::Done,
        Err(failure) => report(alloc, errors, failure),
    }
}

/// The same of a script that is this text, but of what its lines give only what is to be shown is printed; and the meter is shown each line.
pub(crate) fn replay_text<O: Write, E: Write>(
    alloc: Global,
    settings: &Settings,
    shown: Shown,
    meter: &Meter,
    text: &[u8],
    writer: &mut O,
    errors: &mut E,
) -> Status
    ensures { EndsScript settings.now shown (Some text.now) (O.contents writer.old)
        (O.contents writer.new) (E.contents errors.old) (E.contents errors.new) result }
{
    match play_text(alloc, settings, shown, meter, text, writer) {
        Ok(()) => Status::Done,
        Err(failure) => report(alloc, errors, failure),
    }
}

/// Plays the whole script, of which all is shown.
fn play<I: Read, O: Write>(
    alloc: Global,
    settings: &Settings,
    script: &mut I,
    writer: &mut O,
) -> Result<(), Failure>
    ensures done { OnOk result (IfSome (I.remaining script.old)
        (λ text. PrintsReplay settings.now all_shown text (O.contents writer.old)
        (O.contents writer.new))) }
    ensures refused { IfErr result
        (FailsReplay settings.now all_shown (I.remaining script.old)
        (O.contents writer.old) (O.contents writer.new)) }
{
    let mut text = Vec::new(alloc);
    script.read_to_end(&mut text)?;
    play_text(
        alloc,
        settings,
        Shown::all(),
        &Meter::hidden(),
        text.as_slice(),
        writer,
    )
}

/// Plays a text.
fn play_text<O: Write>(
    alloc: Global,
    settings: &Settings,
    shown: Shown,
    meter: &Meter,
    text: &[u8],
    writer: &mut O,
) -> Result<(), Failure>
    ensures done { OnOk result (PrintsReplay settings.now shown text.now
        (O.contents writer.old) (O.contents writer.new)) }
    ensures refused { IfErr result
        (FailsReplay settings.now shown (Some text.now) (O.contents writer.old)
        (O.contents writer.new)) }
{
    let links = Links::new(alloc, settings)?;
    let clock = clock_in(alloc, shown.utc, text)?;
    let choice = Choice {
        settings,
        links: &links,
        shown,
        clock,
    };
    play_lines(alloc, choice, meter, text, writer)
}

/// Plays the lines of a text.
fn play_lines<O: Write>(
    alloc: Global,
    choice: Choice<'_>,
    meter: &Meter,
    text: &[u8],
    writer: &mut O,
) -> Result<(), Failure>
    ensures done { OnOk result (PrintsLines choice.entry.settings.now (scene_of choice.entry) text.now
        (O.contents writer.old) (O.contents writer.new)) }
    ensures refused { IfErr result
        (FailsLines choice.entry.settings.now (scene_of choice.entry) text.now (O.contents writer.old)
        (O.contents writer.new)) }
{
    let lines = lines(alloc, text)?;
    let count = line_count(lines.as_slice());
    let mut packets = LastPackets::new(alloc, choice.links.legs().len())?;
    let mut world = World::new(alloc, choice.settings)?;
    let mut progress = Progress {
        latest: Latest::none(),
        said: 0,
    };
    let mut number = 0;
    for line in lines.iter() {
        number += 1;
        meter.show(number, count);
        progress = play_line(
            alloc,
            choice,
            &mut world,
            line,
            number,
            progress,
            &mut packets,
            writer,
        )?;
    }
    end_all(alloc, choice, progress.latest, &packets, writer)
}

/// Plays the line with this number, and answers how far the replay is then.
fn play_line<'t, O: Write>(
    alloc: Global,
    choice: Choice<'_>,
    world: &mut World,
    line: &'t [u8],
    number: u64,
    progress: Progress<'t>,
    packets: &mut LastPackets,
    writer: &mut O,
) -> Result<Progress<'t>, Failure>
    requires { length world.old.desks ≡ length choice.settings.now.endpoints }
    ensures played { IfOk result (λ next.
        PrintsLine choice.entry.settings.now (scene_of choice.entry) number line.now world.old
        world.new progress.entry next packets.old packets.new (O.contents writer.old)
        (O.contents writer.new)) }
    ensures stopped { IfErr result
        (FailsLine choice.entry.settings.now number line.now (O.contents writer.old)
        (O.contents writer.new)) }
    ensures desks { OnOk result (length world.new.desks ≡ length world.old.desks) }
{
    let reading = read_line(alloc, numbers_of(choice.settings), line)?;
    let latest = progress.latest.after(number, line, &reading);
    match reading {
        ScriptLine::Skipped => {
            print_comment(choice, latest, line, writer)?;
            let said = progress.said;
            Ok(Progress { latest, said })
        }
        ScriptLine::Command(command) => {
            let gives = play_command(alloc, choice.settings, world, command)?;
            let said = print_all(
                alloc,
                choice,
                latest,
                progress.said,
                &gives,
                packets,
                writer,
            )?;
            Ok(Progress { latest, said })
        }
        ScriptLine::Unreadable => Err(Failure::Refused {
            line: number,
            fault: LineFault::Text,
        }),
    }
}

/// How many endpoints and workers the settings have.
fn numbers_of(settings: &Settings) -> Numbers
    ensures { result ≡ numbers_of settings.now }
{
    Numbers {
        endpoints: settings.endpoints().len() as u16,
        workers: settings.workers() as u16,
    }
}

/// Does what a line asks for, and answers what comes of it. Refused for want of memory alone.
#[tactic(auto, using(crate::proofs::ReplayLemmas::told_of))]
fn play_command(
    alloc: Global,
    settings: &Settings,
    world: &mut World,
    command: Command,
) -> Result<Gives, AllocError>
    requires desks { length world.old.desks ≡ length settings.now.endpoints }
    requires among { IsAmong (numbers_of settings.now) command }
    ensures played { IfOk result (λ gives.
        CommandPlays settings.now world.old command world.new (told_in gives)) }
    ensures desks { OnOk result (length world.new.desks ≡ length world.old.desks) }
{
    let is_event = command_input(&command).is_some();
    let mut outs = Vec::new(alloc);
    match command {
        Command::Do(event) => step(world, event, &mut outs)?,
        Command::Settle => settle(settings, world, &mut outs)?,
        Command::Follow => follow(settings, world, &mut outs)?,
        Command::Show(publisher) => {
            let text = shown_set(alloc, settings, world, publisher)?;
            return Ok(Gives::Set(text));
        }
    }
    Ok(Gives::Outs { is_event, outs })
}

/// The ingress until nothing waits for it, then each worker, by rising number, until it has nothing to do.
fn settle(settings: &Settings, world: &mut World, outs: &mut Vec<Out>) -> Result<(), AllocError>
    ensures settled { OnOk result (GivesOut
        (λ given. Settles settings.now.workers world.old given world.new)
        outs.old.items outs.new.items) }
    ensures desks { OnOk result (length world.new.desks ≡ length world.old.desks) }
{
    drain_ingress(world, outs)?;
    let numbers = numbers_of(settings);
    drain_workers(numbers.workers, world, outs)
}

/// Each worker, by rising number, until it has nothing to do; then, as long as anything waits for the ingress, one step of it, and each
/// worker again.
fn follow(settings: &Settings, world: &mut World, outs: &mut Vec<Out>) -> Result<(), AllocError>
    ensures followed { OnOk result (GivesOut
        (λ given. Follows settings.now.workers world.old given world.new)
        outs.old.items outs.new.items) }
    ensures desks { OnOk result (length world.new.desks ≡ length world.old.desks) }
{
    let workers = numbers_of(settings).workers;
    drain_workers(workers, world, outs)?;
    make_rounds(workers, world, outs)
}

/// As long as anything waits for the ingress: one step of it, and then so many workers, one after the other.
fn make_rounds(workers: u16, world: &mut World, outs: &mut Vec<Out>) -> Result<(), AllocError>
    ensures made { OnOk result (GivesOut (λ given. Rounds workers world.old given world.new)
        outs.old.items outs.new.items) }
    ensures desks { OnOk result (length world.new.desks ≡ length world.old.desks) }
{
    while world.is_busy() {
        step(world, Event::Ingress, outs)?;
        drain_workers(workers, world, outs)?;
    }
    Ok(())
}

/// The ingress until nothing waits for it.
fn drain_ingress(world: &mut World, outs: &mut Vec<Out>) -> Result<(), AllocError>
    ensures drained { OnOk result (GivesOut (λ given. IngressDrains world.old given world.new)
        outs.old.items outs.new.items) }
    ensures desks { OnOk result (length world.new.desks ≡ length world.old.desks) }
{
    while world.is_busy() {
        step(world, Event::Ingress, outs)?;
    }
    Ok(())
}

/// So many workers, one after the other.
fn drain_workers(workers: u16, world: &mut World, outs: &mut Vec<Out>) -> Result<(), AllocError>
    ensures drained { OnOk result (GivesOut
        (λ given. WorkersDrain workers 0 world.old given world.new)
        outs.old.items outs.new.items) }
    ensures ingress { OnOk result (ingress_left world.new ≡ ingress_left world.old) }
    ensures desks { OnOk result (length world.new.desks ≡ length world.old.desks) }
{
    for worker in 0..workers {
        drain_worker(worker, world, outs)?;
    }
    Ok(())
}

/// A worker until it has nothing to do.
fn drain_worker(worker: u16, world: &mut World, outs: &mut Vec<Out>) -> Result<(), AllocError>
    ensures drained { OnOk result (GivesOut (λ given. WorkerDrains worker world.old given world.new)
        outs.old.items outs.new.items) }
    ensures ingress { OnOk result (ingress_left world.new ≡ ingress_left world.old) }
    ensures desks { OnOk result (length world.new.desks ≡ length world.old.desks) }
{
    while world.has_work(worker) {
        step(world, Event::Work(worker), outs)?;
    }
    Ok(())
}

/// Does one event, and puts what it gives out after the rest. Refused for want of memory alone.
fn step(world: &mut World, event: Event, outs: &mut Vec<Out>) -> Result<(), AllocError>
    ensures done { OnOk result (GivesOut
        (λ given. HasRun (event ∷ []) world.old [] world.new given)
        outs.old.items outs.new.items) }
    ensures desks { OnOk result (length world.new.desks ≡ length world.old.desks) }
{
    match run(world, [event].as_slice(), outs) {
        Ok(()) => Ok(()),
        Err(_) => Err(AllocError),
    }
}

/// The TMMBN of what is announced to a publisher.
fn shown_set(
    alloc: Global,
    settings: &Settings,
    world: &World,
    publisher: u16,
) -> Result<String, AllocError>
    requires desks { length world.now.desks ≡ length settings.now.endpoints }
    requires among { publisher < length settings.now.endpoints }
    ensures { IfOk result (λ text.
        IsShown settings.now world.now publisher (string_bytes text)) }
{
    let sender = settings.endpoints()[usize::from(publisher)];
    let announced = world.desk(publisher).announced();
    let text = announced_line(alloc, sender, announced.as_slice())?;
    Ok(text)
}
