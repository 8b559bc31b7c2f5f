//! The round trips to subscribers, leg by leg (RFC 3550, section 6.4.1).

ghost use Rattle.std.specs.Prelude.{◌≡◌, slice_set};

use datagram::Ask;
use settings::Links;
use stats::Traffic;
use tmmbr_tuple::Ssrc;

/// Notes the round trip, as it is known by now, on each leg to the endpoint of which it asks for packets again: once for the entries of a NACK.
pub(crate) fn note_trips(
    trips: &mut [Option<u32>],
    links: &Links,
    endpoint: u16,
    asks: &[Ask],
    traffic: &Traffic,
) {
    let mut noted = None;
    for ask in asks {
        if let Ask::Resend { media, .. } = *ask {
            if noted != Some(media) {
                note_trip_to(trips, links, endpoint, media, traffic);
                noted = Some(media);
            }
        }
    }
}

/// Notes it on the leg on which the endpoint is sent this source.
fn note_trip_to(
    trips: &mut [Option<u32>],
    links: &Links,
    endpoint: u16,
    media: Ssrc,
    traffic: &Traffic,
) {
    if let Some(leg) = links.leg_to(endpoint, media) {
        note_trip(trips, leg, known_trip(traffic, leg));
    }
}

/// The round trip on this leg is this one by now, if there is such a leg.
fn note_trip(trips: &mut [Option<u32>], leg: u16, trip: Option<u32>)
    ensures { trips.new ≡ slice_set trips.old leg trip }
{
    let at = usize::from(leg);
    if at < trips.len() {
        trips[at] = trip;
    }
}

/// The round trip on this leg by what its subscriber reported last.
fn known_trip(traffic: &Traffic, leg: u16) -> Option<u32> {
    traffic.leg_report(leg)?.round_trip_ms
}
