//! `sfu serve`: the unit on UDP sockets.

ghost use Rattle.std.specs.Prelude.{◌≡◌, Option, None, MatchResult, length, map, string_bytes, IfErr, IfOk, OnOk};
ghost use Rattle.std.specs.Io.KnownBytes.{Appends};
ghost use Rattle.addresses.specs.Clients.{client_at};
ghost use Rattle.serving.specs.ReportText.{PrintsReport, report_text};
ghost use Rattle.cli.specs.Statuses.{SaysWhy};
ghost use Rattle.serving.specs.Serving.{EndsServe, FailsServe, FailsToStart, SaysFault, SaysWhyServing, said_each, serving_line, turns_by};

use crate::report_text::report_text;
use crate::running::run_on;
use crate::serve_fault::ServeFault;
use addresses::{Client, ServedSettings};
use cli::{Status, say, say_no_memory, unsaid};
use operations::{ControlLines, ErrorOutput, Lines, RunStatus, TimedLines};
use policy::Rules;
use settings::Settings;
use std::alloc::{AllocError, Global};
use std::fs::File;
use std::io::{self, Write};
use std::net::{Net, SocketAddr, UdpSocket};
use std::rt::Files;
use std::sync::Wait;
use std::thread::Threads;
use std::time;
use udp::{Sockets, watch_drops};
use workers::{Pace, Report, Unwatched};

/// How long the unit is served, and how often it says how it goes.
#[derive(Clone, Copy, PartialEq, Eq)]
pub struct Term {
    /// How many turns it makes; if there are none, until it is stopped.
    pub ticks: Option<u32>,
    /// How many seconds there are between two lines of counts; no lines if there are none.
    pub status: Option<u32>,
}

impl Term {
    /// The number of turns.
    fn turns(self) -> u64
        ensures { result ≡ turns_by self.ticks }
    {
        match self.ticks {
            Some(ticks) => u64::from(ticks),
            None => u64::MAX,
        }
    }
}

/// The sockets that are bound: the one for all, or for RTP, and the one for RTCP, if it has its own.
#[derive(Drop)]
struct Bound {
    media: UdpSocket,
    rtcp: Option<UdpSocket>,
}

impl Bound {
    /// Binds the sockets that the settings name.
    fn new<R: Net>(rt: &R, file: &ServedSettings) -> io::Result<Bound> {
        let media = UdpSocket::bind(rt, file.listen.media)?;
        let rtcp = match file.listen.rtcp {
            Some(address) => Some(UdpSocket::bind(rt, address)?),
            None => None,
        };
        Ok(Bound { media, rtcp })
    }

    fn sockets(&self) -> Sockets<'_> {
        Sockets {
            media: &self.media,
            rtcp: self.rtcp.as_ref(),
        }
    }

    /// Where they are bound.
    fn addresses(&self) -> io::Result<(SocketAddr, Option<SocketAddr>)> {
        let media = self.media.local_addr()?;
        match &self.rtcp {
            Some(socket) => {
                let rtcp = socket.local_addr()?;
                Ok((media, Some(rtcp)))
            }
            None => Ok((media, None)),
        }
    }
}

/// Binds the sockets that the settings name, says so on the error output, and serves the endpoints. Lines of counts, and what is said beside them, go
/// to the runtime's error output by a thread of their own, so that nobody waits for who reads them.
pub fn serve_file<
    R: AllocGlobal + ErrorOutput + Files<File = File> + Net + Threads + Wait + Sync + time::Clock,
    O: Write,
    E: Write,
>(
    rt: &R,
    file: &ServedSettings,
    term: Term,
    run_status: &RunStatus,
    writer: &mut O,
    errors: &mut E,
) -> Status
    ensures ends { EndsServe file.now.settings file.now.tick_ms (turns_by term.ticks)
        (O.contents writer.old) (O.contents writer.new) result }
    ensures said { SaysWhyServing (E.contents errors.old) (E.contents errors.new) result }
{
    match Bound::new(rt, file) {
        Ok(bound) => match say_serving(rt.alloc(), &bound, errors) {
            Ok(()) => serve_bound(rt, bound.sockets(), file, term, run_status, writer, errors),
            Err(status) => status,
        },
        Err(_) => say_fault(errors, ServeFault::Socket),
    }
}

/// Says on the error output where the sockets are bound; else how the command ends.
fn say_serving<E: Write>(alloc: Global, bound: &Bound, errors: &mut E) -> Result<(), Status>
    ensures ok { OnOk result ((address : SocketAddr) × (rtcp : Option SocketAddr)
        × Appends (E.contents errors.old) (E.contents errors.new) (serving_line address rtcp)) }
    ensures err { IfErr result (FailsToStart (E.contents errors.old) (E.contents errors.new)) }
{
    match bound.addresses() {
        Ok((address, rtcp)) => say_addresses(alloc, address, rtcp, errors),
        Err(_) => Err(say_fault(errors, ServeFault::Socket)),
    }
}

/// Says that the unit listens at this address, and at that one for RTCP; else how the command ends.
fn say_addresses<E: Write>(
    alloc: Global,
    address: SocketAddr,
    rtcp: Option<SocketAddr>,
    errors: &mut E,
) -> Result<(), Status>
    ensures ok { OnOk result (Appends (E.contents errors.old) (E.contents errors.new)
        (serving_line address rtcp)) }
    ensures err { IfErr result (FailsToStart (E.contents errors.old) (E.contents errors.new)) }
{
    match serving_text(alloc, address, rtcp) {
        Ok(text) => match errors.write_all(text.as_bytes()) {
            Ok(()) => Ok(()),
            Err(error) => Err(unsaid(&error)),
        },
        Err(_) => Err(say_no_memory(errors)),
    }
}

/// The line that says where the unit listens.
fn serving_text(
    alloc: Global,
    address: SocketAddr,
    rtcp: Option<SocketAddr>,
) -> Result<String, AllocError>
    ensures { IfOk result (λ text. string_bytes text ≡ serving_line address rtcp) }
{
    match rtcp {
        None => format!(in alloc; "serving {address}\n"),
        Some(rtcp) => format!(in alloc; "serving {address} rtcp {rtcp}\n"),
    }
}

/// Serves the endpoints on sockets that are bound, and says on the error output why that failed, if it did. What the system drops at
/// the sockets is looked at meanwhile, if anybody is told of it: the thread that looks makes each system call of the others dearer.
fn serve_bound<
    R: AllocGlobal + ErrorOutput + Files<File = File> + Net + Threads + Wait + Sync + time::Clock,
    O: Write,
    E: Write,
>(
    rt: &R,
    sockets: Sockets<'_>,
    file: &ServedSettings,
    term: Term,
    run_status: &RunStatus,
    writer: &mut O,
    errors: &mut E,
) -> Status
    ensures ends { EndsServe file.now.settings file.now.tick_ms (turns_by term.ticks)
        (O.contents writer.old) (O.contents writer.new) result }
    ensures said { SaysWhy (E.contents errors.old) (E.contents errors.new) result }
{
    let drops = if term.status.is_some() || run_status.is_steered() {
        watch_drops(rt, sockets, run_status)
    } else {
        None
    };
    let status = serve_lined(rt, sockets, file, term, run_status, writer, errors);
    if let Some(drops) = drops {
        drops.finish(rt);
    }
    status
}

/// Serves them with lines, if there are to be any.
fn serve_lined<
    R: AllocGlobal + ErrorOutput + Net + Threads + Wait + Sync + time::Clock,
    O: Write,
    E: Write,
>(
    rt: &R,
    sockets: Sockets<'_>,
    file: &ServedSettings,
    term: Term,
    run_status: &RunStatus,
    writer: &mut O,
    errors: &mut E,
) -> Status
    ensures ends { EndsServe file.now.settings file.now.tick_ms (turns_by term.ticks)
        (O.contents writer.old) (O.contents writer.new) result }
    ensures said { SaysWhy (E.contents errors.old) (E.contents errors.new) result }
{
    let ServedSettings {
        settings,
        clients,
        rules,
        ..
    } = file;
    let clients = clients.as_slice();
    let pace = Pace {
        turns: term.turns(),
        tick_ms: file.tick_ms,
    };
    let each_ms = said_each(term.status, run_status.has_lines());
    match each_ms {
        Some(every_ms) => match Lines::new(rt) {
            Ok(mut lines) => {
                let mut timed = TimedLines {
                    rt,
                    is_timed: run_status.log_time.get(),
                    lines: &mut lines,
                };
                let served = serve_told(
                    rt, sockets, settings, clients, *rules, pace, every_ms, run_status, writer,
                    &mut timed,
                );
                lines.finish(rt);
                ended(served, errors)
            }
            Err(fault) => say_fault(errors, ServeFault::from(fault)),
        },
        None => {
            let served = serve_on(
                rt, sockets, settings, clients, *rules, pace, run_status, writer,
            );
            ended(served, errors)
        }
    }
}

/// How many milliseconds lie between two lines of counts, if anything is to be written while the unit runs. Without `--status` it may have other
/// lines, and none of counts.
fn said_each(status: Option<u32>, has_lines: bool) -> Option<u64>
    ensures { result ≡ said_each status has_lines }
{
    match status {
        Some(seconds) => Some(u64::from(seconds) * 1000),
        None if has_lines => Some(u64::MAX),
        None => None,
    }
}

/// How the command ends if the unit ended so; says on the error output why it failed.
fn ended<E: Write>(served: Result<(), ServeFault>, errors: &mut E) -> Status
    ensures ends { MatchResult served (λ _. result
        ≡ Status.Done) (SaysFault (E.contents errors.old) (E.contents errors.new) result) }
    ensures said { SaysWhy (E.contents errors.old) (E.contents errors.new) result }
{
    match served {
        Ok(()) => Status::Done,
        Err(fault) => say_fault(errors, fault),
    }
}

/// Says on the error output why the unit isn't served to its end. This takes no memory.
fn say_fault<E: Write>(errors: &mut E, fault: ServeFault) -> Status
    ensures { SaysFault (E.contents errors.old) (E.contents errors.new) result fault }
{
    match fault {
        ServeFault::NoMemory => say_no_memory(errors),
        ServeFault::Io => say(errors, b"io\n", Status::Io),
        ServeFault::Socket => say(errors, b"socket\n", Status::Socket),
    }
}

/// Serves the endpoints, which are at these addresses, on the socket for so many turns, each one receive and one tick. Then prints the counts
/// and the set announced for each publisher. All that comes from there is heard as it comes; nobody steers the run or records it.
///
/// Fails as `Socket`, with nothing printed, if 100 receives in a row fail, no timeout can be set, no thread can be started or the desks
/// contradict the counts. As `NoMemory` if there is no memory, as `Io` if the writer fails.
pub fn serve_socket<R: AllocGlobal + Threads + Wait + Sync + time::Clock, O: Write>(
    rt: &R,
    socket: &UdpSocket,
    settings: &Settings,
    addresses: &[SocketAddr],
    ticks: u64,
    writer: &mut O,
) -> Result<(), ServeFault>
    ensures done { OnOk result (PrintsReport settings.now 0 ticks
        (O.contents writer.old) (O.contents writer.new)) }
    ensures refused { IfErr result (FailsServe (O.contents writer.old) (O.contents writer.new)) }
{
    let clients = clients_at(rt.alloc(), addresses)?;
    let run_status = RunStatus::new();
    let pace = Pace {
        turns: ticks,
        tick_ms: 0,
    };
    serve_on(
        rt,
        Sockets::one(socket),
        settings,
        clients.as_slice(),
        Rules::none(),
        pace,
        &run_status,
        writer,
    )
}

/// Clients that have one address each, and speak for themselves.
fn clients_at(alloc: Global, addresses: &[SocketAddr]) -> Result<Vec<Client>, AllocError>
    ensures { IfOk result (λ clients. clients.items ≡ map client_at addresses.now) }
{
    let mut clients = Vec::new(alloc);
    for address in addresses {
        clients.push(Client::at(*address))?;
    }
    Ok(clients)
}

/// Serves the endpoints with these clients on the sockets at this pace, screened by these rules, and prints the counts and what is announced to
/// each publisher by then. Fails as `serve_socket` does.
pub fn serve_on<R: AllocGlobal + Threads + Wait + Sync + time::Clock, O: Write>(
    rt: &R,
    sockets: Sockets<'_>,
    settings: &Settings,
    clients: &[Client],
    rules: Rules,
    pace: Pace,
    run_status: &RunStatus,
    writer: &mut O,
) -> Result<(), ServeFault>
    ensures done { OnOk result (PrintsReport settings.now pace.tick_ms pace.turns
        (O.contents writer.old) (O.contents writer.new)) }
    ensures refused { IfErr result (FailsServe (O.contents writer.old) (O.contents writer.new)) }
{
    let report = run_on(
        rt, sockets, settings, clients, rules, pace, run_status, Unwatched,
    )?;
    print_report(rt.alloc(), settings, &report, writer)
}

/// `serve_on`, with a line of counts on the error output each so many seconds, and with those of the control.
pub fn serve_watched<R: AllocGlobal + Threads + Wait + Sync + time::Clock, O: Write, E: Write>(
    rt: &R,
    sockets: Sockets<'_>,
    settings: &Settings,
    clients: &[Client],
    rules: Rules,
    pace: Pace,
    seconds: u32,
    run_status: &RunStatus,
    writer: &mut O,
    errors: &mut E,
) -> Result<(), ServeFault>
    ensures done { OnOk result (PrintsReport settings.now pace.tick_ms pace.turns
        (O.contents writer.old) (O.contents writer.new)) }
    ensures refused { IfErr result (FailsServe (O.contents writer.old) (O.contents writer.new)) }
{
    let every_ms = u64::from(seconds) * 1000;
    serve_told(
        rt, sockets, settings, clients, rules, pace, every_ms, run_status, writer, errors,
    )
}

/// The same with so many milliseconds between two lines of counts.
fn serve_told<R: AllocGlobal + Threads + Wait + Sync + time::Clock, O: Write, E: Write>(
    rt: &R,
    sockets: Sockets<'_>,
    settings: &Settings,
    clients: &[Client],
    rules: Rules,
    pace: Pace,
    every_ms: u64,
    run_status: &RunStatus,
    writer: &mut O,
    errors: &mut E,
) -> Result<(), ServeFault>
    ensures done { OnOk result (PrintsReport settings.now pace.tick_ms pace.turns
        (O.contents writer.old) (O.contents writer.new)) }
    ensures refused { IfErr result (FailsServe (O.contents writer.old) (O.contents writer.new)) }
{
    let lines = ControlLines::new(rt.alloc(), errors, every_ms, run_status);
    let report = run_on(
        rt, sockets, settings, clients, rules, pace, run_status, lines,
    )?;
    print_report(rt.alloc(), settings, &report, writer)
}

/// Prints the text of a report.
fn print_report<O: Write>(
    alloc: Global,
    settings: &Settings,
    report: &Report,
    writer: &mut O,
) -> Result<(), ServeFault>
    requires { length settings.now.endpoints ≡ length report.now.desks.items }
    ensures done { OnOk result (Appends (O.contents writer.old) (O.contents writer.new)
        (report_text settings.now.endpoints report.now)) }
    ensures refused { IfErr result (FailsServe (O.contents writer.old) (O.contents writer.new)) }
{
    let text = report_text(alloc, settings.endpoints(), report)?;
    writer.write_all(text.as_bytes())?;
    Ok(())
}
