//! Where one thread waits for others.

use std::sync::atomic::{AtomicBool, Ordering};
use std::thread::Parker;

/// Where the ingress sleeps until its workers are done.
#[derive(Drop)]
pub(crate) struct Recess {
    pub(crate) parker: Parker,
    /// Whether the ingress waits there.
    pub(crate) is_awaited: AtomicBool,
}

impl Recess {
    /// Nobody waits there yet.
    pub(crate) fn new() -> Recess {
        Recess {
            parker: Parker::new(),
            is_awaited: AtomicBool::new(false),
        }
    }

    /// A worker has done all that it was given: the ingress is woken, if it waits for that.
    pub(crate) fn note_idle(&self) {
        if self.is_awaited.load(Ordering::SeqCst) {
            self.parker.unpark();
        }
    }
}
