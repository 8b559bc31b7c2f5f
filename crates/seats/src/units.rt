//! The names that a unit has itself, which no client may have.

ghost use Rattle.std.specs.Prelude.{◌≡◌, ◌==◌};
ghost use Rattle.std.specs.List.{list_any};
ghost use Rattle.seats.specs.Units.{is_free, is_units};

use settings::{LegSettings, Settings};
use tmmbr_tuple::Ssrc;

/// Whether the client of this seat may have this name: its seat's, or one that is none of the unit's (RFC 3550, section 8.2).
pub(crate) fn is_free(settings: &Settings, seat: Ssrc, name: Ssrc) -> bool
    ensures { result ≡ is_free settings.now seat.0 name.0 }
{
    name.0 == seat.0 || !is_units(settings, name)
}

/// Whether the unit has this name itself, at a seat, or on a leg.
fn is_units(settings: &Settings, name: Ssrc) -> bool
    ensures { result ≡ is_units settings.now name.0 }
{
    settings.unit_ssrc().0 == name.0
        || is_a_seats(settings.endpoints(), name)
        || is_a_legs(settings.legs(), name)
}

/// Whether one of these seats has this name.
fn is_a_seats(seats: &[Ssrc], name: Ssrc) -> bool
    ensures { result ≡ list_any (λ s. s.0 == name.0) seats.now }
{
    seats.iter().any(|seat| seat.0 == name.0)
}

/// Whether what goes out on one of these legs has this name.
fn is_a_legs(legs: &[LegSettings], name: Ssrc) -> bool
    ensures { result ≡ list_any (λ l. l.out_ssrc.0 == name.0) legs.now }
{
    legs.iter().any(|leg| leg.out_ssrc.0 == name.0)
}
