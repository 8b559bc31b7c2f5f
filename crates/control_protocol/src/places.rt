//! Which place one who comes finds among the peers, and who makes room for it.

ghost use Rattle.std.specs.Prelude.{◌<◌, length};
ghost use Rattle.control_protocol.specs.Places.{IsMostSilent, IsPlaceAmong};

/// So many peers there are at most.
pub const MAX_PEERS: usize = 8;

/// So many of them may stay, however long they are silent. So others find a place.
pub const MAX_STAYING: usize = 4;

/// A peer that has said no whole line for so many milliseconds makes room, if there are as many as may be and another waits.
pub const ROOM_AFTER_MS: u64 = 2_000;

/// So many of those who wait are taken in at one look.
pub const TAKEN_IN: usize = 64;

/// Where one who waits finds a place.
#[derive(Clone, Copy, Debug, PartialEq, Eq)]
pub enum Place {
    /// There are fewer peers than there may be.
    Free,
    /// The peer of this number, from 0, makes room.
    Of(usize),
    /// Nobody makes room.
    Nowhere,
}

/// Where one who waits finds a place among peers, each of which has said no whole line for so many milliseconds.
pub fn place_among(silences: &[u64]) -> Place
    ensures { IsPlaceAmong silences.now result }
{
    if silences.len() < MAX_PEERS {
        return Place::Free;
    }
    let longest = most_silent(silences);
    if silences[longest] >= ROOM_AFTER_MS {
        Place::Of(longest)
    } else {
        Place::Nowhere
    }
}

/// The number of one that has said none for the longest.
fn most_silent(silences: &[u64]) -> usize
    requires { 0 < length silences.now }
    ensures { IsMostSilent silences.now result }
{
    let mut longest = 0;
    for number in 1..silences.len() {
        if silences[number] > silences[longest] {
            longest = number;
        }
    }
    longest
}
