//! What travels through a worker's ring.

use events::Job;
use routes::{Naming, RouteNote};

/// An item of a ring.
#[derive(Drop)]
pub(crate) enum Item<J: Naming> {
    /// A job, with the note of all that was published when it was put into the ring.
    Work { job: Job, note: RouteNote<J> },
    /// The last item: the worker ends.
    Stop,
}
