//! What C keeps of a conference.

ghost use Rattle.std.specs.Prelude.{◌≡◌, ◌↔◌, None, Some, option_map};

use crate::handle::Handle;
use crate::parts::Parts;
use conference::Conference;
use std::alloc::Global;
use std::mem;

/// A slot for a conference: it holds one, or none. C keeps it, and sets it to zeros before its first use.
#[repr(C)]
#[derive(Drop)]
pub struct SfuConference {
    /// 0 if it holds none.
    pub is_open: u32,
    pub handle: Handle,
    ghost as_open: { (is_open ≡ 0) ↔ (handle.held ≡ None) },
}

impl SfuConference {
    /// A slot that holds none.
    pub(crate) fn closed(alloc: Global) -> SfuConference
        ensures { result.handle.held ≡ None }
    {
        SfuConference {
            is_open: 0,
            handle: Handle::empty(alloc),
        }
    }

    /// A slot that holds the conference of this box.
    fn of_box(conference: Box<Conference>) -> SfuConference
        ensures { result.handle.held ≡ Some conference.value }
    {
        SfuConference {
            is_open: 1,
            handle: Handle::of_parts(Parts::of(conference)),
        }
    }

    /// Takes the conference out; none, if the slot holds none.
    pub(crate) fn take(&mut self, alloc: Global) -> Option<Box<Conference>>
        ensures taken { option_map (λ b. b.value) result ≡ self.old.handle.held }
        ensures left { self.new.handle.held ≡ None }
    {
        if self.is_open == 0 {
            return None;
        }
        let SfuConference { is_open: _, handle } = mem::replace(self, SfuConference::closed(alloc));
        Some(handle.into_parts().into_box())
    }

    /// Puts a conference into a slot that holds none.
    pub(crate) fn put(&mut self, conference: Box<Conference>)
        requires empty { self.old.handle.held ≡ None }
        ensures { self.new.handle.held ≡ Some conference.value }
    {
        *self = SfuConference::of_box(conference);
    }
}
