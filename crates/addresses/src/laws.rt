//! What is so of the seats of each unit, whatever comes. These functions do nothing: their contracts are the laws.

ghost use Rattle.std.specs.Prelude.{◌≡◌, ◌⊎◌, ℕ, Bool, List};
ghost use Rattle.std.specs.declared.net.socket_addr.SocketAddr.{SocketAddr as Address};
ghost use Rattle.settings.specs.Settings.{Configuration};
ghost use Rattle.seats.specs.declared.seat.Whose.{Whose as Belongs};
ghost use Rattle.addresses.specs.Seating.{AreNamed, Hears, IsHeardUnder, SeatBook, first_seats, seats_left};
ghost use Rattle.addresses.specs.declared.clients.Client.{Client as Seated};

/// What comes from an address is heard under the name of the endpoint that alone is there, or as it came: never under another seat's name. Seats keep
/// their names meanwhile.
pub fn hears_under_one_name()
    ensures begins { (c : Configuration) (clients : List Seated)
        → AreNamed (first_seats c clients) }
    ensures hears { (same : Address → Address → Bool) (known later : SeatBook) (from : Address)
        (before after : List ℕ) (moment : ℕ) (whose : Belongs)
        → AreNamed known → Hears same known later from before after moment whose
        → AreNamed later × ((after ≡ before) ⊎ IsHeardUnder same known from before after) }
    ensures left { (known : SeatBook) (endpoint : ℕ) → AreNamed known
        → AreNamed (seats_left known endpoint) }
{}
