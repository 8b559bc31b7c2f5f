//! Why a run of events stops.

use thiserror::Error;

/// Why a run stopped.
#[derive(Clone, Copy, Debug, PartialEq, Eq, Error)]
pub enum RunFault {
    /// There was no memory for an event: the world and the outs are those of the `done` events before it.
    #[error("no memory behind {done} events")]
    NoMemory { done: usize },
}
