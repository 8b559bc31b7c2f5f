//! `sfu page PATH ADDRESS`: the loop that asks a unit and answers those who come, in one thread.

ghost use Rattle.std.specs.Prelude.{◌≡◌, ◌≢◌, ◌+◌, ◌-◌, ◌^◌, min, None, IfErr};
ghost use Rattle.web.specs.Pauses.{longer_pause};
ghost use Rattle.web.specs.declared.serving.TheConstants.{ASK_EACH_MS};

use crate::inquiry::{Inquiry, Step};
use crate::said::Said;
use crate::teller::Teller;
use crate::visitors::Visitors;
use cli::{Status, say, say_no_memory, unsaid};
use std::alloc::Global;
use std::hash::RandomState;
use std::io::Write;
use std::net::{Net, SocketAddr, TcpListener, TcpStream};
use std::os::unix::net::UnixStream;
use std::random::RandomSource;
use std::sync::Wait;
use std::thread;
use std::time::{Clock, Duration, Instant};

/// So many milliseconds lie between two inquiries.
const ASK_EACH_MS: u64 = 2_000;

/// So many at most after an inquiry that failed, before the next one.
const MAX_PAUSE_MS: u64 = 8_000;

/// So many at least for each question that the last one had.
const QUESTION_EACH_MS: u64 = 40;

/// So many milliseconds lie between two looks at all that may have come.
const LOOK_EACH_MS: u64 = 5;

/// So many visitors are admitted at one look.
const ADMITTED: u32 = 16;

/// Why there is no page.
#[derive(Clone, Copy)]
enum PageFault {
    /// The address is none.
    Address,
    /// The address is no loopback address, and `--anyone` isn't there.
    Anyone,
    /// The address can't be had.
    Socket,
}

/// What a page is of, and where it is.
#[derive(Clone, Copy)]
struct Place<'a> {
    /// Where the unit is steered.
    path: &'a str,
    address: SocketAddr,
    /// The name by which it may be called, beside addresses and `localhost`.
    name: &'a str,
}

/// Serves a page of the unit that is steered at a path. `address` is a loopback address, or any if whoever reaches it may look; `host` is a name
/// by which it may be called. Says `page ADDRESS` on the error output once it listens, and returns then only if the clock or the random source
/// fails. It is never done: `CommandLine` if the address is none, or none for this machine alone, `Socket` if it can't be had.
pub fn run_page<
    R: AllocGlobal + Net<Listener = TcpListener, Stream = TcpStream> + Wait + Clock + RandomSource,
    E: Write,
>(rt: &R, path: &str, address: &str, anyone: bool, host: Option<&str>, errors: &mut E) -> Status
    ensures never { result ≢ Status.Done }
    ensures read { (result ≢ Status.Settings) × (result ≢ Status.Refused) }
{
    match place_at(path, address, anyone, host) {
        Ok(place) => serve(rt, place, errors),
        Err(fault) => say_fault(errors, fault),
    }
}

/// What is asked for.
fn place_at<'a>(
    path: &'a str,
    address: &str,
    anyone: bool,
    host: Option<&'a str>,
) -> Result<Place<'a>, PageFault> {
    let Ok(address) = address.parse::<SocketAddr>() else {
        return Err(PageFault::Address);
    };
    if !anyone && !address.ip().is_loopback() {
        return Err(PageFault::Anyone);
    }
    Ok(Place {
        path,
        address,
        name: host.unwrap_or("localhost"),
    })
}

/// Why there is no page, on the error output.
fn say_fault<E: Write>(errors: &mut E, fault: PageFault) -> Status
    ensures never { result ≢ Status.Done }
    ensures read { (result ≢ Status.Settings) × (result ≢ Status.Refused) }
{
    match fault {
        PageFault::Address => say(
            errors,
            b"page: not an IP address and port, as 127.0.0.1:9190\n",
            Status::CommandLine,
        ),
        PageFault::Anyone => say(
            errors,
            b"page: not a loopback address; with --anyone whoever reaches it may look\n",
            Status::CommandLine,
        ),
        PageFault::Socket => say(errors, b"socket\n", Status::Socket),
    }
}

/// Listens, and serves.
fn serve<
    R: AllocGlobal + Net<Listener = TcpListener, Stream = TcpStream> + Wait + Clock + RandomSource,
    E: Write,
>(rt: &R, place: Place<'_>, errors: &mut E) -> Status
    ensures never { result ≢ Status.Done }
    ensures read { (result ≢ Status.Settings) × (result ≢ Status.Refused) }
{
    let Ok(listener) = TcpListener::bind(rt, place.address) else {
        return say_fault(errors, PageFault::Socket);
    };
    match (listener.set_nonblocking(true), listener.local_addr()) {
        (Ok(()), Ok(address)) => match say_address(rt.alloc(), errors, address) {
            Ok(()) => {
                serve_at(rt, place, &listener);
                say(errors, b"io\n", Status::Io)
            }
            Err(status) => status,
        },
        _ => say_fault(errors, PageFault::Socket),
    }
}

/// Says where it listens; else how the command ends.
fn say_address<E: Write>(alloc: Global, errors: &mut E, address: SocketAddr) -> Result<(), Status>
    ensures { IfErr result (λ s. (s ≢ Status.Done) × (s ≢ Status.Settings)
        × (s ≢ Status.Refused)) }
{
    match format!(in alloc; "page {address}\n") {
        Ok(text) => match errors.write_all(text.as_bytes()) {
            Ok(()) => Ok(()),
            Err(error) => Err(unsaid(&error)),
        },
        Err(_) => Err(say_no_memory(errors)),
    }
}

/// A page that is served: what the unit says, and those who came.
#[derive(Drop)]
struct Page {
    alloc: Global,
    start: Instant,
    inquiry: Option<Inquiry<UnixStream>>,
    /// The moment at which the last inquiry began.
    begun_ms: u64,
    /// The moment from which on the unit is asked again.
    due_ms: u64,
    /// For how many milliseconds it wasn't asked after the last inquiry, if that failed.
    pause_ms: u64,
    teller: Teller,
    visitors: Visitors<TcpStream>,
}

/// A page that begins; `None` if there is no clock, no random source or no memory.
fn begin<R: AllocGlobal + Clock + RandomSource>(rt: &R, name: &str) -> Option<Page> {
    let start = Instant::now(rt).ok()?;
    let keys = RandomState::new(rt).ok()?;
    let alloc = rt.alloc();
    let mut called = String::new(alloc);
    called.push_str(name).ok()?;
    Some(Page {
        alloc,
        start,
        inquiry: None,
        begun_ms: 0,
        due_ms: 0,
        pause_ms: ASK_EACH_MS,
        teller: Teller::new(alloc, called),
        visitors: Visitors::new(alloc, keys),
    })
}

/// Asks the unit and answers those who come, turn by turn. Ends only if the clock or the random source fails.
fn serve_at<R: AllocGlobal + Net + Wait + Clock + RandomSource>(
    rt: &R,
    place: Place<'_>,
    listener: &TcpListener,
) {
    let Some(mut page) = begin(rt, place.name) else {
        return;
    };
    for _ in rt.forever() {
        if !page.turn(rt, place.path, listener) {
            return;
        }
        thread::sleep(rt, Duration::from_millis(LOOK_EACH_MS));
    }
    unreachable!()
}

impl Page {
    /// Admits those who came, goes on asking the unit, and looks at each visitor. Says whether there is a clock.
    fn turn<R: Net + Clock>(&mut self, rt: &R, path: &str, listener: &TcpListener) -> bool {
        let Some(moment) = self.moment(rt) else {
            return false;
        };
        self.admit(listener, moment);
        self.ask(rt, path, moment);
        self.visitors.look(&mut self.teller, moment);
        true
    }

    /// How many milliseconds went by since it began.
    fn moment<R: Clock>(&self, rt: &R) -> Option<u64> {
        let now = Instant::now(rt).ok()?;
        u64::try_from(now.saturating_duration_since(self.start).as_millis()).ok()
    }

    /// Those who came are visitors from now on.
    fn admit(&mut self, listener: &TcpListener, moment: u64) {
        for _visitor in 0..ADMITTED {
            let Ok((stream, _)) = listener.accept() else {
                return;
            };
            if stream.set_nonblocking(true).is_ok() {
                self.visitors.admit(stream, moment);
            }
        }
    }

    /// Goes on with the inquiry, or begins one that is due; what was heard is told from then on.
    fn ask<R: Net>(&mut self, rt: &R, path: &str, moment: u64) {
        match &mut self.inquiry {
            Some(inquiry) => {
                let step = inquiry.step(moment);
                self.note(step, moment);
            }
            None => {
                if moment >= self.due_ms {
                    self.begun_ms = moment;
                    self.due_ms = moment.saturating_add(ASK_EACH_MS);
                    self.begin_inquiry(rt, path, moment);
                }
            }
        }
    }

    fn begin_inquiry<R: Net>(&mut self, rt: &R, path: &str, moment: u64) {
        match connected(rt, path) {
            Some(stream) => self.inquiry = Some(Inquiry::new(self.alloc, stream, moment)),
            None => self.fail(moment),
        }
    }

    /// The inquiry came so far by this moment.
    fn note(&mut self, step: Step, moment: u64)
        ensures asking { step ≡ Step.Asking → self.new.teller ≡ self.old.teller }
        ensures gone { step ≡ Step.Failed → self.new.teller.said ≡ None }
        ensures later { step ≡ Step.Failed → self.new.pause_ms ≡ longer_pause self.old.pause_ms }
        ensures soon { step ≡ Step.Answered → self.new.pause_ms ≡ ASK_EACH_MS }
    {
        match step {
            Step::Asking => {}
            Step::Answered => {
                let said = self.take_said();
                self.teller.hear(said);
                self.pause_ms = ASK_EACH_MS;
            }
            Step::Failed => self.fail(moment),
        }
    }

    /// The unit is gone, or doesn't answer any more. From this moment on nothing of it is told, and it is asked again after a pause, a longer
    /// one each time.
    fn fail(&mut self, moment: u64)
        ensures gone { self.new.teller.said ≡ None }
        ensures later { self.new.pause_ms ≡ longer_pause self.old.pause_ms }
        ensures due { self.new.due_ms ≡ min (moment + self.new.pause_ms) (2 ^ 64 - 1) }
    {
        self.inquiry = None;
        self.teller.hear(None);
        self.pause_ms = self.pause_ms.saturating_mul(2).min(MAX_PAUSE_MS);
        self.due_ms = moment.saturating_add(self.pause_ms);
    }

    /// What the unit said in the inquiry, which is over; the next one waits until that many questions may be asked again.
    fn take_said(&mut self) -> Option<Said> {
        let inquiry = self.inquiry.take()?;
        let questions = u64::try_from(inquiry.asked()).unwrap_or(0);
        let least = questions.saturating_mul(QUESTION_EACH_MS);
        self.due_ms = self.due_ms.max(self.begun_ms.saturating_add(least));
        Some(inquiry.into_said())
    }
}

/// A stream to the unit at the path, for which nobody waits.
fn connected<R: Net>(rt: &R, path: &str) -> Option<UnixStream> {
    let stream = UnixStream::connect(rt, path).ok()?;
    stream.set_nonblocking(true).ok()?;
    Some(stream)
}
