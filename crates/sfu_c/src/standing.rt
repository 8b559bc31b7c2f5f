//! What waits in a conference, and how much it passed over.

ghost use Rattle.std.specs.Prelude.{◌≡◌, ◌↔◌, None, Some};
ghost use Rattle.core_steps.specs.Waits.{waiting_in};
ghost use Rattle.conference.specs.Conference.{ConferenceState};

use crate::faults::{CLOSED, DONE};
use crate::numbers::{SfuBeyond, SfuWaiting};
use crate::slot::SfuConference;
use std::alloc::Global;

/// What waits: nothing, unless a call met no memory. Refused as `CLOSED`.
#[unsafe(no_mangle)]
pub extern "C" fn sfu_waiting(alloc: Global, conference: &mut SfuConference) -> SfuWaiting
    ensures done { (c : ConferenceState) → conference.old.handle.held ≡ Some c
        → result ≡ record {
          fault = DONE;
          tasks = (waiting_in c.world).tasks;
          jobs = (waiting_in c.world).jobs;
          hands = (waiting_in c.world).hands;
        } }
    ensures closed { (result.fault ≡ CLOSED) ↔ (conference.old.handle.held ≡ None) }
    ensures none { result.fault ≡ CLOSED
        → result ≡ record { fault = CLOSED; tasks = 0; jobs = 0; hands = 0 } }
    ensures same { conference.new.handle.held ≡ conference.old.handle.held }
{
    let Some(held) = conference.take(alloc) else {
        return SfuWaiting {
            fault: CLOSED,
            tasks: 0,
            jobs: 0,
            hands: 0,
        };
    };
    let waiting = held.waiting();
    conference.put(held);
    SfuWaiting {
        fault: DONE,
        tasks: waiting.tasks,
        jobs: waiting.jobs,
        hands: waiting.hands,
    }
}

/// How many entries of feedback `sfu_hear` passed over since the opening, since their datagrams had more than the settings' `entry_limit`; it
/// stays at the greatest number once there. Refused as `CLOSED`.
#[unsafe(no_mangle)]
pub extern "C" fn sfu_beyond(alloc: Global, conference: &mut SfuConference) -> SfuBeyond
    ensures done { (c : ConferenceState) → conference.old.handle.held ≡ Some c
        → result ≡ record { fault = DONE; entries = c.limit.beyond } }
    ensures closed { (result.fault ≡ CLOSED) ↔ (conference.old.handle.held ≡ None) }
    ensures none { result.fault ≡ CLOSED → result ≡ record { fault = CLOSED; entries = 0 } }
    ensures same { conference.new.handle.held ≡ conference.old.handle.held }
{
    let Some(held) = conference.take(alloc) else {
        return SfuBeyond {
            fault: CLOSED,
            entries: 0,
        };
    };
    let entries = held.entries_beyond();
    conference.put(held);
    SfuBeyond {
        fault: DONE,
        entries,
    }
}
