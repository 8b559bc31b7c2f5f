//! Live requests in a box, or none, by a pointer that C keeps.

ghost use Rattle.std.specs.Prelude.{◌≡◌, ◌≢◌, None, Some, Option};
ghost use Rattle.bounding_set.specs.State.{State};
ghost use Rattle.tmmbr_c.specs.Held.{held_coded, held_owns};

use crate::parts::Parts;
use bounding_set::Bounds;
use std::alloc::Global;
use std::marker::Model;
use std::ptr;

/// The pointer to live requests, or to nothing. Whoever drops one that holds some leaves them where they are.
#[repr(C)]
#[derive(Drop)]
pub struct Handle {
    at: *mut u8,
    alloc: Global,
    pub ghost held: { Option State } by { held_coded },
}

impl Model for Handle {
    ghost also_owns = { λ h. held_owns h.alloc h.at h.held };
}

impl Handle {
    /// Holds nothing.
    pub(crate) fn empty(alloc: Global) -> Handle
        ensures { result.held ≡ None }
    {
        Handle {
            at: ptr::null_mut(),
            alloc,
        }
    }

    /// Holds what the box held.
    pub(crate) fn of_parts(parts: Parts<Bounds, Global>) -> Handle
        ensures { result.held ≡ Some parts.value }
    {
        let Parts { ptr, alloc } = parts;
        Handle {
            at: ptr as *mut u8,
            alloc,
        }
    }

    /// The box of what it holds.
    pub(crate) fn into_parts(self) -> Parts<Bounds, Global>
        requires { self.held ≢ None }
        ensures { Some result.value ≡ self.held }
    {
        let Handle { at, alloc } = self;
        Parts {
            ptr: at as *mut Bounds,
            alloc,
        }
    }
}
