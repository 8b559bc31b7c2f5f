//! A conference is opened in a slot, and closed.

ghost use Rattle.std.specs.Prelude.{◌≡◌, ◌≢◌, ◌↔◌, None};
ghost use Rattle.sfu_c.specs.Opening.{OpensIn, TellsRefusal, open_answer, problem_answer};

use crate::faults::{
    BAD_ENDPOINT, BAD_KEY, BAD_LEG, CLOSED, DONE, NO_MEMORY, NOT_TOML, OPEN, SAME_SSRC, WORKERS,
};
use crate::numbers::SfuOpened;
use crate::slot::SfuConference;
use conference::{Conference, OpenFault};
use settings_toml::SettingsProblem;
use std::alloc::Global;

/// The answer that tells this number, or 0.
fn opened(fault: u32, number: u64) -> SfuOpened
    ensures { result ≡ record { fault = fault; number = number } }
{
    SfuOpened { fault, number }
}

/// The answer for what is said against a settings text.
fn problem_answer(problem: SettingsProblem) -> SfuOpened
    ensures { result ≡ problem_answer problem }
{
    match problem {
        SettingsProblem::NoMemory => opened(NO_MEMORY, 0),
        SettingsProblem::File | SettingsProblem::Toml => opened(NOT_TOML, 0),
        SettingsProblem::Top(_) => opened(BAD_KEY, 0),
        SettingsProblem::Endpoint(number, _) => opened(BAD_ENDPOINT, number as u64),
        SettingsProblem::Leg(number, _) => opened(BAD_LEG, number as u64),
        SettingsProblem::SameSsrc => opened(SAME_SSRC, 0),
    }
}

/// The answer for why a conference isn't opened.
fn refusal(fault: OpenFault) -> SfuOpened
    ensures { result ≡ open_answer fault }
{
    match fault {
        OpenFault::NoMemory => opened(NO_MEMORY, 0),
        OpenFault::Settings(problem) => problem_answer(problem),
        OpenFault::Workers(count) => opened(WORKERS, count),
    }
}

/// Opens the conference of the settings that the text spells, in a slot that holds none.
///
/// Refused as `OPEN`, if the slot holds one; as `NO_MEMORY`; by the settings' first fault: as `NOT_TOML`, `BAD_KEY`, `BAD_ENDPOINT`,
/// `BAD_LEG` or `SAME_SSRC`; as `WORKERS`. Then the slot is as it was.
#[unsafe(no_mangle)]
pub extern "C" fn sfu_open(alloc: Global, conference: &mut SfuConference, text: &[u8]) -> SfuOpened
    ensures done { result.fault ≡ DONE → OpensIn text.now conference.new.handle.held }
    ensures open { (result.fault ≡ OPEN) ↔ (conference.old.handle.held ≢ None) }
    ensures refused { result.fault ≢ DONE → result.fault ≢ OPEN → TellsRefusal text.now result }
    ensures unchanged { result.fault ≢ DONE
        → conference.new.handle.held ≡ conference.old.handle.held }
{
    if conference.is_open != 0 {
        return opened(OPEN, 0);
    }
    let made = match Conference::open(alloc, text) {
        Ok(made) => made,
        Err(fault) => return refusal(fault),
    };
    match Box::new(alloc, made) {
        Ok(made) => {
            conference.put(made);
            opened(DONE, 0)
        }
        Err(_) => opened(NO_MEMORY, 0),
    }
}

/// Closes the conference that the slot holds: what it kept is given back, and what waits is lost. Refused as `CLOSED`, if it holds none.
#[unsafe(no_mangle)]
pub extern "C" fn sfu_close(alloc: Global, conference: &mut SfuConference) -> u32
    ensures done { (result ≡ DONE) ↔ (conference.old.handle.held ≢ None) }
    ensures closed { (result ≡ CLOSED) ↔ (conference.old.handle.held ≡ None) }
    ensures left { conference.new.handle.held ≡ None }
{
    match conference.take(alloc) {
        Some(_) => DONE,
        None => CLOSED,
    }
}
