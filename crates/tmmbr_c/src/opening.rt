//! A state is opened, and closed.

ghost use Rattle.std.specs.Prelude.{◌≡◌, ◌≢◌, ◌↔◌, ◌⊎◌, [], None, IfSome};

use crate::faults::{CLOSED, DONE, NO_MEMORY, OPEN};
use crate::slot::TmmbrState;
use bounding_set::Bounds;
use std::alloc::Global;

/// Opens a state that isn't open: no request is live.
///
/// Refused as `OPEN`, if it is open; as `NO_MEMORY`. Then it is as it was.
#[unsafe(no_mangle)]
pub extern "C" fn tmmbr_open(alloc: Global, state: &mut TmmbrState) -> u32
    ensures numbered { (result ≡ DONE) ⊎ (result ≡ OPEN) ⊎ (result ≡ NO_MEMORY) }
    ensures holds { result ≡ DONE → state.new.handle.held ≢ None }
    ensures empty { result ≡ DONE → IfSome state.new.handle.held (λ s. s.rows ≡ []) }
    ensures open { (result ≡ OPEN) ↔ (state.old.handle.held ≢ None) }
    ensures unchanged { result ≢ DONE → state.new.handle.held ≡ state.old.handle.held }
{
    if state.is_open != 0 {
        return OPEN;
    }
    match Box::new(alloc, Bounds::new()) {
        Ok(bounds) => {
            state.put(bounds);
            DONE
        }
        Err(_) => NO_MEMORY,
    }
}

/// Closes a state: what it kept is given back. Refused as `CLOSED`, if it isn't open.
#[unsafe(no_mangle)]
pub extern "C" fn tmmbr_close(alloc: Global, state: &mut TmmbrState) -> u32
    ensures done { (result ≡ DONE) ↔ (state.old.handle.held ≢ None) }
    ensures closed { (result ≡ CLOSED) ↔ (state.old.handle.held ≡ None) }
    ensures left { state.new.handle.held ≡ None }
{
    match state.take(alloc) {
        Some(_) => DONE,
        None => CLOSED,
    }
}
