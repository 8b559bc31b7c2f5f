//! What is said to publishers again, while a unit is served.

ghost use Rattle.std.specs.Prelude.{◌≡◌, ◌≤◌, [], OnOk, length};
ghost use Rattle.announcement.specs.Entries.{entries_of};
ghost use Rattle.bounding_set.specs.State.{announced_of};
ghost use Rattle.desk.specs.Trace.{live_after};
ghost use Rattle.rate_cert.specs.declared.certificate.TheConstants.{MAX_REQUESTS as REQUESTS};
ghost use Rattle.policy.specs.AnnouncedSets.{set_looked, with_set};
ghost use Rattle.serving.specs.Repeated.{SaysAgain, SaysWhatIsDue, asked_again};

use announcement::entries_of;
use arrayvec::ArrayVec;
use desk::{Desk, Effect};
use desk_calls::{Head, Notification, notify};
use events::Out;
use policy::{AnnouncedSets, DueLook, SaidAgain};
use ports::{Look, Sink, Status, Watch};
use rate_cert::{MAX_REQUESTS, Request};
use settings::{Links, Settings};
use std::alloc::{AllocError, Global};
use std::cell::{Cell, RefCell};
use tmmbr_tuple::Ssrc;
use udp::SocketSink;

/// A watch that looks for itself, while nobody else looks, at who is present and at desks, and says again to publishers what they may not know.
#[derive(Drop)]
pub(crate) struct RepeatingWatch<'a, W: Drop> {
    watch: W,
    repeater: Repeater<'a>,
    sets: &'a RefCell<AnnouncedSets>,
    /// The moment of the last turn, in milliseconds.
    moment_ms: &'a Cell<u64>,
    /// Whether what is looked at is looked at for itself.
    is_own: Cell<bool>,
}

/// What is wanted to say something to a publisher again.
#[derive(Drop)]
struct Repeater<'a> {
    alloc: Global,
    links: Links,
    head: Head,
    sink: SocketSink<'a>,
    /// What is to be sent; empty between looks.
    outs: Vec<Out>,
}

impl<'a, W: Watch + Drop> RepeatingWatch<'a, W> {
    /// Looks at the desks of a unit of these settings when `sets` says so, and sends by this sink.
    pub(crate) fn new(
        alloc: Global,
        settings: &Settings,
        sink: SocketSink<'a>,
        sets: &'a RefCell<AnnouncedSets>,
        moment_ms: &'a Cell<u64>,
        watch: W,
    ) -> Result<RepeatingWatch<'a, W>, AllocError> {
        Ok(RepeatingWatch {
            watch,
            repeater: Repeater {
                alloc,
                links: Links::new(alloc, settings)?,
                head: Head::new(alloc, settings.unit_ssrc(), settings.cname())?,
                sink,
                outs: Vec::new(alloc),
            },
            sets,
            moment_ms,
            is_own: Cell::new(false),
        })
    }

    /// What is to be looked at by now.
    fn look_due(&self) -> Option<Look> {
        let Ok(mut sets) = self.sets.try_borrow_mut() else {
            return None;
        };
        match sets.look_due(self.moment_ms.get())? {
            DueLook::Presence => Some(Look::Presence),
            DueLook::Desk(publisher) => match u16::try_from(publisher) {
                Ok(publisher) => Some(Look::Desk(publisher)),
                Err(_) => None,
            },
        }
    }

    fn note_presence(&self, endpoint: u16, is_present: bool) {
        if let Ok(mut sets) = self.sets.try_borrow_mut() {
            sets.note_presence(endpoint, is_present);
        }
    }

    /// Says to the publisher again what is due. If memory is wanting it is told nothing this time.
    fn say_again(&mut self, publisher: u16, desk: &Desk) -> Result<(), AllocError> {
        let Ok(mut sets) = self.sets.try_borrow_mut() else {
            return Ok(());
        };
        self.repeater.say_again(&mut sets, publisher, desk)
    }
}

impl Repeater<'_> {
    /// Sends the publisher what is said again at a look at its desk.
    fn say_again(
        &mut self,
        sets: &mut AnnouncedSets,
        publisher: u16,
        desk: &Desk,
    ) -> Result<(), AllocError> {
        self.outs.clear();
        look_again(
            self.alloc,
            &self.links,
            &self.head,
            sets,
            publisher,
            desk,
            &mut self.outs,
        )?;
        for out in self.outs.iter() {
            if let Out::Send { endpoint, bytes } = out {
                let _ = self.sink.send(*endpoint, bytes.as_slice());
            }
        }
        self.outs.clear();
        Ok(())
    }
}

/// Appends what is said to a publisher again at a look at its desk, as `AnnouncedSets::look` has it, in one datagram. It has a TMMBR without
/// limit of each owner that is lifted again, and one for each member of the announced set, if that is sent again. If there are none nothing is
/// appended. From now on the set is the one that was seen last, with what is live.
#[tactic(auto, using(crate::proofs::RepeatLemmas::few_lifted))]
fn look_again(
    alloc: Global,
    links: &Links,
    head: &Head,
    sets: &mut AnnouncedSets,
    publisher: u16,
    desk: &Desk,
    outs: &mut Vec<Out>,
) -> Result<(), AllocError>
    ensures seen { OnOk result (sets.new
        ≡ with_set sets.old publisher (set_looked (entries_of (announced_of desk.now.bounds))
        (entries_of (live_after desk.now.request_ms desk.now.base desk.now.history)))) }
    ensures says { OnOk result (SaysWhatIsDue sets.old links.now head.now publisher
        (announced_of desk.now.bounds) (live_after desk.now.request_ms desk.now.base desk.now.history)
        outs.old.items outs.new.items) }
{
    let announced = desk.announced();
    let set = entries_of(alloc, announced.as_slice())?;
    let live = entries_of(alloc, desk.live())?;
    let said = sets.look(
        alloc,
        publisher,
        set.as_slice(),
        live.as_slice(),
        links.endpoints(),
    )?;
    say_again(alloc, links, head, publisher, desk, &said, outs)?;
    Ok(())
}

/// Appends what a publisher is sent if nobody asked, these owners are lifted, and its whole announced set is fresh, or nothing of it.
fn say_again(
    alloc: Global,
    links: &Links,
    head: &Head,
    publisher: u16,
    desk: &Desk,
    said: &SaidAgain,
    outs: &mut Vec<Out>,
) -> Result<(), AllocError>
    requires { length said.now.lifted ≤ REQUESTS }
    ensures { OnOk result (SaysAgain links.now head.now publisher (announced_of desk.now.bounds)
        said.now outs.old.items outs.new.items) }
{
    let mut effect = Effect::new();
    effect.set = desk.announced();
    effect.lifted = owners(said.lifted());
    effect.fresh = asked_again(said.asks(), desk);
    let notification = Notification {
        publisher,
        asked_by: None,
        pli: false,
    };
    notify(alloc, links, head, &[], &notification, &effect, outs)
}

/// These owners.
fn owners(lifted: &[Ssrc]) -> ArrayVec<Ssrc, MAX_REQUESTS>
    requires { length lifted.now ≤ REQUESTS }
    ensures { result.items ≡ lifted.now }
{
    let mut list = ArrayVec::new();
    for owner in lifted {
        list.push(*owner);
    }
    list
}

/// The whole announced set if it is sent again, else nothing of it.
fn asked_again(asks: bool, desk: &Desk) -> ArrayVec<Request, MAX_REQUESTS>
    ensures { result.items ≡ asked_again asks (announced_of desk.now.bounds) }
{
    if asks {
        return desk.announced();
    }
    ArrayVec::new()
}

impl<W: Watch + Drop> Watch for RepeatingWatch<'_, W> {
    fn is_due(&self, moment: u64) -> bool {
        self.watch.is_due(moment)
    }

    fn show(&mut self, moment: u64, status: &Status) {
        self.watch.show(moment, status);
    }

    fn look(&self) -> Look {
        let wanted = self.watch.look();
        self.is_own.set(false);
        if wanted != Look::Nothing {
            return wanted;
        }
        match self.look_due() {
            Some(look) => {
                self.is_own.set(true);
                look
            }
            None => Look::Nothing,
        }
    }

    fn show_endpoint(&mut self, endpoint: u16, is_present: bool) {
        if self.is_own.get() {
            self.note_presence(endpoint, is_present);
        } else {
            self.watch.show_endpoint(endpoint, is_present);
        }
    }

    fn show_stay(&mut self, leg: u16, stay: Option<u64>) {
        self.watch.show_stay(leg, stay);
    }

    fn show_desk(&mut self, publisher: u16, desk: &Desk) {
        if self.is_own.get() {
            let _ = self.say_again(publisher, desk);
        } else {
            self.watch.show_desk(publisher, desk);
        }
    }

    fn end_look(&mut self) {
        if !self.is_own.get() {
            self.watch.end_look();
        }
    }
}
