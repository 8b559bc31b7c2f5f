//! What comes from outside is given to a conference.

ghost use Rattle.std.specs.Prelude.{◌≡◌, ◌≢◌, ◌↔◌, ◌∷◌, [], None};
ghost use Rattle.events.specs.declared.event.Event.TheVariants.{Select, Tick};
ghost use Rattle.sfu_c.specs.Serving.{AnswersEvents, AnswersHearing, AnswersSettle, OnHeld, event_answer, limit_in};

use crate::faults::{BUSY, CLOSED, DONE, NO_MEMORY, UNSETTLED};
use crate::slot::SfuConference;
use conference::{Conference, EventFault};
use std::alloc::Global;

/// The number of what came of an event.
fn event_answer(done: Result<(), EventFault>) -> u32
    ensures { result ≡ event_answer done }
{
    match done {
        Ok(()) => DONE,
        Err(EventFault::Busy) => BUSY,
        Err(EventFault::NoMemory) => NO_MEMORY,
        Err(EventFault::Unsettled) => UNSETTLED,
    }
}

fn hear(conference: &mut Conference, moment: u64, endpoint: u16, bytes: &[u8]) -> u32
    ensures { AnswersHearing moment endpoint bytes.now result conference.old conference.new }
{
    event_answer(conference.hear_limited(moment, endpoint, bytes))
}

#[tactic(auto, using(crate::proofs::ServingLemmas::answers_events))]
fn tick(conference: &mut Conference, moment: u64) -> u32
    ensures answers { AnswersEvents (Tick moment ∷ []) result conference.old conference.new }
    ensures limit { conference.new.limit ≡ conference.old.limit }
{
    event_answer(conference.tick(moment))
}

#[tactic(auto, using(crate::proofs::ServingLemmas::answers_events))]
fn select(conference: &mut Conference, moment: u64, leg: u16, on: bool) -> u32
    ensures answers { AnswersEvents (Select moment leg on ∷ []) result
        conference.old conference.new }
    ensures limit { conference.new.limit ≡ conference.old.limit }
{
    event_answer(conference.select(moment, leg, on))
}

#[tactic(auto, using(conference::proofs::ServedLemmas::serves_on))]
fn settle(conference: &mut Conference) -> u32
    ensures answers { AnswersSettle result conference.old conference.new }
    ensures limit { conference.new.limit ≡ conference.old.limit }
{
    match conference.settle() {
        Ok(()) => DONE,
        Err(_) => UNSETTLED,
    }
}

/// A datagram came from this endpoint at this moment, in milliseconds: it is heard, with all that follows. What is to be sent waits
/// after what was to be sent before. Of its feedback no more entries are heard than the settings' `entry_limit` says, the first; the others
/// are passed over, and counted (`sfu_beyond`).
///
/// Refused as `CLOSED`; as `BUSY`, exactly if something waits, and as `NO_MEMORY`: then nothing was done. As `UNSETTLED` if there
/// is no memory for all that follows: then it was heard, and the rest waits for `sfu_settle`.
#[unsafe(no_mangle)]
pub extern "C" fn sfu_hear(
    alloc: Global,
    conference: &mut SfuConference,
    moment: u64,
    endpoint: u16,
    bytes: &[u8],
) -> u32
    ensures answers { result ≢ CLOSED → OnHeld
        (AnswersHearing moment endpoint bytes.now result)
        conference.old.handle.held conference.new.handle.held }
    ensures closed { (result ≡ CLOSED) ↔ (conference.old.handle.held ≡ None) }
    ensures unchanged { result ≡ CLOSED → conference.new.handle.held ≡ None }
{
    let Some(mut held) = conference.take(alloc) else {
        return CLOSED;
    };
    let answer = hear(&mut held, moment, endpoint, bytes);
    conference.put(held);
    answer
}

/// It is this moment, in milliseconds: what has come with time is done, with all that follows. Refused as `sfu_hear` is.
#[unsafe(no_mangle)]
pub extern "C" fn sfu_tick(alloc: Global, conference: &mut SfuConference, moment: u64) -> u32
    ensures answers { result ≢ CLOSED → OnHeld (AnswersEvents (Tick moment ∷ []) result)
        conference.old.handle.held conference.new.handle.held }
    ensures closed { (result ≡ CLOSED) ↔ (conference.old.handle.held ≡ None) }
    ensures unchanged { result ≡ CLOSED → conference.new.handle.held ≡ None }
    ensures limit { limit_in conference.new.handle.held ≡ limit_in conference.old.handle.held }
{
    let Some(mut held) = conference.take(alloc) else {
        return CLOSED;
    };
    let answer = tick(&mut held, moment);
    conference.put(held);
    answer
}

/// The leg of this number is selected from this moment on, in milliseconds, or not, with all that follows. Refused as `sfu_hear` is.
#[unsafe(no_mangle)]
pub extern "C" fn sfu_select(
    alloc: Global,
    conference: &mut SfuConference,
    moment: u64,
    leg: u16,
    on: bool,
) -> u32
    ensures answers { result ≢ CLOSED → OnHeld (AnswersEvents (Select moment leg on ∷ []) result)
        conference.old.handle.held conference.new.handle.held }
    ensures closed { (result ≡ CLOSED) ↔ (conference.old.handle.held ≡ None) }
    ensures unchanged { result ≡ CLOSED → conference.new.handle.held ≡ None }
    ensures limit { limit_in conference.new.handle.held ≡ limit_in conference.old.handle.held }
{
    let Some(mut held) = conference.take(alloc) else {
        return CLOSED;
    };
    let answer = select(&mut held, moment, leg, on);
    conference.put(held);
    answer
}

/// What waits is done. Refused as `CLOSED`; as `UNSETTLED` if there is no memory: then the first of it was done, and the rest waits.
#[unsafe(no_mangle)]
pub extern "C" fn sfu_settle(alloc: Global, conference: &mut SfuConference) -> u32
    ensures answers { result ≢ CLOSED → OnHeld (AnswersSettle result)
        conference.old.handle.held conference.new.handle.held }
    ensures closed { (result ≡ CLOSED) ↔ (conference.old.handle.held ≡ None) }
    ensures unchanged { result ≡ CLOSED → conference.new.handle.held ≡ None }
    ensures limit { limit_in conference.new.handle.held ≡ limit_in conference.old.handle.held }
{
    let Some(mut held) = conference.take(alloc) else {
        return CLOSED;
    };
    let answer = settle(&mut held);
    conference.put(held);
    answer
}
