//! Which endpoints are present.

ghost use Rattle.std.specs.Prelude.{◌≡◌, ◌<◌, length, ℕ, true, IsTrue};
ghost use Rattle.std.specs.List.{list_any};
ghost use Rattle.members.specs.Presence.{is_overdue, NobodyOverdue, is_overdue_at, is_present_at, source_at, with_heard};

use tmmbr_tuple::Ssrc;

/// The last moment of all.
pub const LAST_MOMENT: u64 = u64::MAX;

/// An endpoint of a room.
#[derive(Clone, Copy)]
pub struct Endpoint {
    /// Its source.
    pub ssrc: Ssrc,
    /// The room's moment when it was last heard in its present presence; `None` while it is absent.
    pub heard: Option<u64>,
}

impl Endpoint {
    ghost use Rattle.std.specs.Prelude.{◌≡◌, ◌<◌, ℕ, true, false};
    ghost use Rattle.members.specs.Presence.{is_overdue};

    /// Whether it was last heard as long ago as the timeout, or longer.
    pub fn is_overdue(&self, timeout: u64, moment: u64) -> bool
        ensures { result ≡ is_overdue timeout moment self.now }
    {
        match self.heard {
            Some(heard) => heard <= moment && moment - heard >= timeout,
            None => false,
        }
    }

    /// The moment from which on it is overdue, or the last moment of all.
    pub fn overdue_from(&self, timeout: u64) -> u64
        ensures before { (moment : ℕ) → moment < result
            → is_overdue timeout moment self.now ≡ false }
        ensures first { result < LAST_MOMENT → is_overdue timeout result self.now ≡ true }
    {
        match self.heard {
            Some(heard) => heard.saturating_add(timeout),
            None => LAST_MOMENT,
        }
    }
}

/// Whether the endpoint of this number is there and overdue.
#[tactic(auto, unfolding(crate::specs::Presence::is_overdue_at))]
pub fn is_overdue_at(endpoints: &[Endpoint], timeout: u64, moment: u64, number: usize) -> bool
    ensures { result ≡ is_overdue_at timeout moment endpoints.now number }
{
    match endpoints.get(number) {
        Some(endpoint) => endpoint.is_overdue(timeout, moment),
        None => false,
    }
}

/// Whether the endpoint of this number is present.
#[tactic(auto, unfolding(crate::specs::Presence::is_present_at))]
pub fn is_present_at(endpoints: &[Endpoint], number: usize) -> bool
    ensures value { result ≡ is_present_at endpoints.now number }
    ensures known { IsTrue result → number < length endpoints.now }
{
    match endpoints.get(number) {
        Some(endpoint) => endpoint.heard.is_some(),
        None => false,
    }
}

/// The first moment at which an endpoint is overdue; the last moment of all if there is none before it.
pub fn first_overdue(endpoints: &[Endpoint], timeout: u64) -> u64
    ensures before { (moment : ℕ) → moment < result → NobodyOverdue timeout moment endpoints.now }
    ensures first { result < LAST_MOMENT
        → list_any (is_overdue timeout result) endpoints.now ≡ true }
{
    let mut first = LAST_MOMENT;
    for endpoint in endpoints {
        first = first.min(endpoint.overdue_from(timeout));
    }
    first
}

/// The source of the endpoint of this number.
#[tactic(auto, unfolding(crate::specs::Presence::source_at))]
pub fn source_at(endpoints: &[Endpoint], number: usize) -> Ssrc
    requires { number < length endpoints.now }
    ensures { result ≡ source_at endpoints.now number }
{
    match endpoints.get(number) {
        Some(endpoint) => endpoint.ssrc,
        None => unreachable!(),
    }
}

/// The endpoint was last heard then, or is absent.
pub fn mark(endpoints: &mut [Endpoint], number: usize, heard: Option<u64>)
    requires { number < length endpoints.old }
    ensures { endpoints.new ≡ with_heard endpoints.old number heard }
{
    let ssrc = source_at(endpoints, number);
    endpoints[number] = Endpoint { ssrc, heard };
}
