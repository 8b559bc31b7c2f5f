//! What C keeps of live requests that stand from call to call.

ghost use Rattle.std.specs.Prelude.{◌≡◌, ◌↔◌, None, Some, option_map};

use crate::handle::Handle;
use crate::parts::Parts;
use bounding_set::Bounds;
use std::alloc::Global;
use std::mem;

/// The live requests of one media sender, or none yet. C keeps it, and sets it to zeros before its first use.
#[repr(C)]
#[derive(Drop)]
pub struct TmmbrState {
    /// 0 if it isn't open.
    pub is_open: u32,
    pub handle: Handle,
    ghost as_open: { (is_open ≡ 0) ↔ (handle.held ≡ None) },
}

impl TmmbrState {
    /// A state that isn't open.
    pub(crate) fn closed(alloc: Global) -> TmmbrState
        ensures { result.handle.held ≡ None }
    {
        TmmbrState {
            is_open: 0,
            handle: Handle::empty(alloc),
        }
    }

    /// A state that holds what is in this box.
    fn of_box(bounds: Box<Bounds>) -> TmmbrState
        ensures { result.handle.held ≡ Some bounds.value }
    {
        TmmbrState {
            is_open: 1,
            handle: Handle::of_parts(Parts::of(bounds)),
        }
    }

    /// Takes the live requests out; none, if the state isn't open.
    pub(crate) fn take(&mut self, alloc: Global) -> Option<Box<Bounds>>
        ensures taken { option_map (λ b. b.value) result ≡ self.old.handle.held }
        ensures left { self.new.handle.held ≡ None }
    {
        if self.is_open == 0 {
            return None;
        }
        let TmmbrState { is_open: _, handle } = mem::replace(self, TmmbrState::closed(alloc));
        Some(handle.into_parts().into_box())
    }

    /// Puts live requests into a state that isn't open.
    pub(crate) fn put(&mut self, bounds: Box<Bounds>)
        requires empty { self.old.handle.held ≡ None }
        ensures { self.new.handle.held ≡ Some bounds.value }
    {
        *self = TmmbrState::of_box(bounds);
    }
}
