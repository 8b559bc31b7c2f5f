//! Who is present at a desk.

ghost use Rattle.std.specs.Prelude.{◌≡◌, ◌<◌, ◌≤◌, length, map, None, IsNone, IfOk, IfErr, false};
ghost use Rattle.desk.specs.Call.{HasStay};
ghost use Rattle.desk.specs.Presence.{HasRisingOwners, IsOwnerPlace, IsGapFor, is_old, without_old, present_by, present_changed, presence_of, with_presence, without_owner, refusal_of, refusal_in, stay_in};
ghost use Rattle.std.specs.Option.{option_map_or};

use crate::call::{Answer, Call, Change, Signal};
use arrayvec::ArrayVec;
use rate_cert::MAX_REQUESTS;
use tmmbr_tuple::{Ssrc, Tuple};

/// What an owner asks for, and since when.
#[derive(Clone, Copy, Debug, Default, PartialEq, Eq)]
pub struct Asked {
    pub tuple: Tuple,
    /// The greatest moment that the desk knew then, in milliseconds; 0 before any.
    pub stamp: u64,
}

/// An owner that is present: its stay, and what it asks for.
#[derive(Clone, Copy, Debug, Default, PartialEq, Eq)]
pub struct Present {
    pub owner: Ssrc,
    /// From 1 on.
    pub stay: u64,
    /// `None` before its first request, and once its request was too old.
    pub asked: Option<Asked>,
}

/// How many owners may be present at once.
pub const PRESENT_LIMIT: usize = MAX_REQUESTS;

/// Why a call isn't done, the refusal of least number; `None` if it is.
pub fn refusal(present: &[Present], call: &Call) -> Option<Answer>
    requires { HasRisingOwners present.now }
    ensures { result ≡ refusal_of present.now call.now }
{
    match *call {
        Call::Stay {
            owner,
            stay,
            change,
        } => refusal_in(present, owner, stay, &change),
        Call::Time { .. } => None,
    }
}

/// Why an owner's change isn't done.
fn refusal_in(present: &[Present], owner: Ssrc, stay: u64, change: &Change) -> Option<Answer>
    requires { HasRisingOwners present.now }
    ensures { result ≡ refusal_in present.now owner.0 stay change.now }
{
    let present_stay = stay_of(present, owner);
    match change {
        Change::Arrive => {
            if present_stay != 0 {
                Some(Answer::AlreadyPresent(present_stay))
            } else if present.len() >= PRESENT_LIMIT {
                Some(Answer::Full)
            } else {
                None
            }
        }
        Change::Request(_) | Change::Depart => {
            if present_stay == stay {
                None
            } else {
                Some(Answer::NotPresent(present_stay))
            }
        }
    }
}

/// The stay with which the owner is present; 0 if it isn't.
fn stay_of(present: &[Present], owner: Ssrc) -> u64
    requires { HasRisingOwners present.now }
    ensures { result ≡ stay_in present.now owner.0 }
{
    match place_of(present, owner) {
        Ok(place) => present[place].stay,
        Err(_) => 0,
    }
}

/// Who is present once a call is done that isn't refused, the greatest moment so far being `now`.
pub fn take_in(
    present: &mut ArrayVec<Present, MAX_REQUESTS>,
    request_ms: u64,
    now: u64,
    call: &Call,
)
    requires rising { HasRisingOwners present.old.items }
    requires stays { HasStay call.now }
    requires accepted { refusal_of present.old.items call.now ≡ None }
    ensures { present.new.items ≡ present_by request_ms now present.old.items call.now }
{
    match *call {
        Call::Stay {
            owner,
            stay,
            change,
        } => change_stay(present, now, owner, stay, &change),
        Call::Time {
            signal: Signal::Expire,
            ..
        } => expire(present, request_ms, now),
        Call::Time { .. } => {}
    }
}

/// Begins, changes or ends a stay.
fn change_stay(
    present: &mut ArrayVec<Present, MAX_REQUESTS>,
    now: u64,
    owner: Ssrc,
    stay: u64,
    change: &Change,
)
    requires rising { HasRisingOwners present.old.items }
    requires stays { 1 ≤ stay }
    requires accepted { refusal_in present.old.items owner.0 stay change.now ≡ None }
    ensures { present.new.items ≡ present_changed now present.old.items owner stay change.now }
{
    let asked = match *change {
        Change::Arrive => None,
        Change::Request(tuple) => Some(Asked { tuple, stamp: now }),
        Change::Depart => return leave(present, owner),
    };
    put(present, Present { owner, stay, asked });
}

/// Takes the owner out, if it is present.
fn leave(present: &mut ArrayVec<Present, MAX_REQUESTS>, owner: Ssrc)
    requires { HasRisingOwners present.old.items }
    ensures { present.new.items ≡ without_owner present.old.items owner.0 }
{
    if let Ok(place) = place_of(present.as_slice(), owner) {
        present.remove(place);
    }
}

/// Takes out what was asked for too long ago.
fn expire(present: &mut ArrayVec<Present, MAX_REQUESTS>, request_ms: u64, now: u64)
    ensures { present.new.items ≡ map (without_old request_ms now) present.old.items }
{
    let slice = present.as_mut_slice();
    for p in slice.iter_mut() {
        if is_too_old(p, request_ms, now) {
            p.asked = None;
        }
    }
}

/// Whether what the owner asks for is too old at this moment.
pub fn is_too_old(p: &Present, request_ms: u64, now: u64) -> bool
    ensures { result ≡ option_map_or (λ a. is_old request_ms now a.stamp) p.now.asked false }
{
    match p.asked {
        Some(asked) => request_ms > 0 && now.saturating_sub(asked.stamp) >= request_ms,
        None => false,
    }
}

/// Puts what is known of an owner in the place of what was, or among the others by rising owner.
fn put(present: &mut ArrayVec<Present, MAX_REQUESTS>, new: Present)
    requires rising { HasRisingOwners present.old.items }
    requires room { IsNone (presence_of present.old.items new.owner.0)
        → length present.old.items < PRESENT_LIMIT }
    ensures { present.new.items ≡ with_presence present.old.items new }
{
    match place_of(present.as_slice(), new.owner) {
        Ok(place) => {
            let slice = present.as_mut_slice();
            slice[place] = new;
        }
        Err(place) => present.insert(place, new),
    }
}

/// Where the owner is, or where it would go.
fn place_of(present: &[Present], owner: Ssrc) -> Result<usize, usize>
    requires { HasRisingOwners present.now }
    ensures found { IfOk result (IsOwnerPlace present.now owner.0) }
    ensures absent { IfErr result (IsGapFor present.now owner.0) }
{
    present.binary_search_by_key(&owner.0, |p| p.owner.0)
}
