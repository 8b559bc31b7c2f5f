//! Who looks at a unit while it runs.

use desk::Desk;

/// The totals of a unit at one moment. Each stays at `u64::MAX` once there.
#[derive(Clone, Copy, Debug, PartialEq, Eq)]
pub struct Status {
    /// How many endpoints were present at the last tick.
    pub present: u64,
    /// How many datagrams came from endpoints.
    pub heard: u64,
    /// How many datagrams were sent.
    pub sent: u64,
    /// How many datagrams couldn't be sent.
    pub failed: u64,
    /// How many jobs no worker got, since its ring was full.
    pub lost: u64,
    /// How many jobs were taken and given up, and how many notifications, for want of a view or of memory.
    pub dropped: u64,
}

/// What a watch wants to see of the room.
#[derive(Clone, Copy, Debug, PartialEq, Eq)]
pub enum Look {
    /// Nothing.
    Nothing,
    /// Of each endpoint whether it is present.
    Presence,
    /// Of each leg the stay that stands.
    Stays,
    /// The desk of the publisher with this number: what is announced to it, and why.
    Desk(u16),
}

/// Who looks at the totals of a unit after its turns, and at its room. The thread that takes in what comes calls it, and goes on when
/// it returns.
pub trait Watch {
    /// Whether the totals are to be shown after the turn at this moment, in milliseconds. It is asked after each turn, since
    /// adding up the totals takes time.
    fn is_due(&self, moment: u64) -> bool;

    /// The totals after the turn at this moment, in milliseconds.
    fn show(&mut self, moment: u64, status: &Status);

    /// What it wants to see of the room after a turn. It is asked after each.
    fn look(&self) -> Look {
        Look::Nothing
    }

    /// Whether the endpoint with this number is present. If presence is looked at, each endpoint is shown, by rising number.
    fn show_endpoint(&mut self, _endpoint: u16, _is_present: bool) {}

    /// The stay of the leg with this number; `None` if none stands. If stays are looked at, each leg is shown, by rising number.
    fn show_stay(&mut self, _leg: u16, _stay: Option<u64>) {}

    /// The desk of this publisher. If a desk is looked at that isn't there, none is shown.
    fn show_desk(&mut self, _publisher: u16, _desk: &Desk) {}

    /// All that was to be seen was shown.
    fn end_look(&mut self) {}
}

/// Nobody looks.
#[derive(Clone, Copy)]
pub struct Unwatched;

impl Watch for Unwatched {
    fn is_due(&self, _moment: u64) -> bool {
        false
    }

    fn show(&mut self, _moment: u64, _status: &Status) {}
}
