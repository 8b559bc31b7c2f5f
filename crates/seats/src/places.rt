//! Where names stand in a packet.

ghost use Rattle.std.specs.Prelude.{◌≡◌, ◌≤◌, ◌-◌, ◌/◌, min};
ghost use Rattle.seats.specs.Places.{heard_places, places_at, told_places};

use crate::frame::Frame;
use crate::names::{Names, Renaming};
use rtcp_compound::{BLOCK_BYTES, PSFB, RR, RTPFB, SOURCE_BYTES};
use rtcp_feedback::{ENTRY_BYTES, FMT_PLI, FMT_TMMBN, FMT_TMMBR, SOURCES_BYTES};

/// Sender report (RFC 3550, section 6.4.1).
const SR: u8 = 200;

/// Goodbye (RFC 3550, section 6.6).
const BYE: u8 = 203;

/// What a sender report has before its blocks (RFC 3550, section 6.4.1).
const SENDER_BYTES: usize = 24;

/// Names in the body of a packet, and what becomes of them: one at the front of each of so many entries, which stand one after the other.
#[derive(Clone, Copy)]
pub(crate) struct Places {
    pub(crate) by: Renaming,
    /// Where the first entry begins.
    pub(crate) from: usize,
    /// How many bytes each has.
    pub(crate) size: usize,
    /// How many there are.
    pub(crate) count: usize,
}

/// The names of its client in what is told to it: the source of a report block (RFC 3550, section 6.4.1), the media source of a PLI (RFC 4585,
/// section 6.3.1), and those of the entries of a TMMBR and of a TMMBN (RFC 5104, section 4.2).
pub(crate) fn told_places(names: Names, frame: Frame) -> Places
    ensures { result ≡ told_places names frame.kind frame.count frame.body }
{
    let sends = Renaming::Exchange(names.seat, names.sends_as());
    let asks = Renaming::Exchange(names.seat, names.asks_as());
    let count = usize::from(frame.count);
    match (frame.kind, frame.count) {
        (SR, _) => places_at(sends, SENDER_BYTES, BLOCK_BYTES, count),
        (RR, _) => places_at(sends, SOURCE_BYTES, BLOCK_BYTES, count),
        (PSFB, FMT_PLI) => {
            let count = entries_behind(SOURCE_BYTES, SOURCE_BYTES, frame.body).min(1);
            places_at(sends, SOURCE_BYTES, SOURCE_BYTES, count)
        }
        (RTPFB, FMT_TMMBR) => {
            let count = entries_behind(SOURCES_BYTES, ENTRY_BYTES, frame.body);
            places_at(sends, SOURCES_BYTES, ENTRY_BYTES, count)
        }
        (RTPFB, FMT_TMMBN) => {
            let count = entries_behind(SOURCES_BYTES, ENTRY_BYTES, frame.body);
            places_at(asks, SOURCES_BYTES, ENTRY_BYTES, count)
        }
        _ => places_at(sends, 0, SOURCE_BYTES, 0),
    }
}

/// The names of who sent what came: the sender of a report (RFC 3550, section 6.4) or of feedback (RFC 4585, section 6.1), and the sources of a BYE
/// (RFC 3550, section 6.6).
pub(crate) fn heard_places(names: Names, frame: Frame) -> Places
    ensures { result ≡ heard_places names frame.kind frame.count frame.body }
{
    let sends = Renaming::Exchange(names.seat, names.sends_as());
    let leaves = Renaming::Exchange(names.seat, names.leaves_as());
    match frame.kind {
        SR => places_at(sends, 0, SOURCE_BYTES, 1),
        RR => places_at(Renaming::Put(names.seat), 0, SOURCE_BYTES, 1),
        BYE => places_at(leaves, 0, SOURCE_BYTES, usize::from(frame.count)),
        RTPFB | PSFB => {
            let count = (frame.body / SOURCE_BYTES).min(1);
            places_at(Renaming::Put(names.seat), 0, SOURCE_BYTES, count)
        }
        _ => places_at(sends, 0, SOURCE_BYTES, 0),
    }
}

/// So many entries of this size, from there on.
fn places_at(by: Renaming, from: usize, size: usize, count: usize) -> Places
    ensures { result ≡ places_at by from size count }
{
    Places {
        by,
        from,
        size,
        count,
    }
}

/// How many entries of this size stand behind the front of a body.
fn entries_behind(front: usize, size: usize, body: usize) -> usize
    requires { 1 ≤ size }
    ensures { result ≡ (body - front) / size }
{
    body.saturating_sub(front) / size
}
