//! Why a conference isn't opened, and why an event isn't done.

use settings_toml::SettingsProblem;
use thiserror::Error;

/// Why a conference isn't opened.
#[derive(Drop)]
pub enum OpenFault {
    /// There was no memory.
    NoMemory,
    /// The text isn't settings: its first fault.
    Settings(SettingsProblem),
    /// The settings have so many workers. A conference has one: it works in the thread that calls.
    Workers(u64),
}

/// Why an event isn't done, or not all that follows from it.
#[derive(Clone, Copy, Debug, PartialEq, Eq, Error)]
pub enum EventFault {
    /// Something waits since an earlier call met no memory. Nothing was done.
    #[error("something waits")]
    Busy,
    /// There was no memory. Nothing was done.
    #[error("no memory")]
    NoMemory,
    /// The event was done, and the first of what follows from it; for the rest, which waits, there was no memory.
    #[error("no memory for all that follows")]
    Unsettled,
}
