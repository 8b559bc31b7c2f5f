//! What is known of the client that sits in a seat, by what it sent.

ghost use Rattle.std.specs.Prelude.{◌≡◌};
ghost use Rattle.seats.specs.Seat.{is_named};

use crate::names::Names;
use crate::spoken::{Spoken, spoken_of};
use crate::units::is_free;
use datagram::source_named;
use rtcp_compound::is_rtcp;
use settings::Settings;
use tmmbr_tuple::Ssrc;

/// A seat, and under which names its client is known.
#[derive(Clone, Copy, PartialEq, Eq)]
pub struct Seat {
    pub names: Names,
    /// The moment from which on the client may send under another name, in milliseconds.
    pub until_ms: u64,
}

/// Whose a datagram is that came from the address of a seat.
#[derive(Clone, Copy, Debug, PartialEq, Eq)]
pub enum Whose {
    /// Its client's.
    Clients,
    /// Nobody's, since it is under a name of the unit's: what the unit sent comes back, or chance chose the same (RFC 3550, section 8.2).
    Ours,
    /// Nobody's: a packet under another name than its client's, which that keeps still.
    Others,
}

/// What a datagram that came from the address of a seat is, and what is known of the seat from then on.
#[derive(Clone, Copy)]
pub struct Arrival {
    pub whose: Whose,
    pub seat: Seat,
}

impl Seat {
    ghost use Rattle.std.specs.Prelude.{◌≡◌};
    ghost use Rattle.seats.specs.Seat.{Arrives, after_ask, after_control, after_goodbye, after_packet, after_report, asking, is_asker, is_sender, may_change, sending, vacant_seat, whose_control, whose_packet};

    /// Nobody sits there yet.
    pub fn empty(seat: Ssrc) -> Seat
        ensures { result ≡ vacant_seat seat }
    {
        Seat {
            names: Names::of_seat(seat),
            until_ms: 0,
        }
    }

    /// A datagram came from the address of this seat, at this moment; its client keeps the name under which it sends until that one, if it is said
    /// by this.
    pub fn arrive(self, settings: &Settings, datagram: &[u8], moment: u64, until_ms: u64) -> Arrival
        ensures { Arrives settings.now self datagram.now moment until_ms result }
    {
        let Some(source) = source_named(datagram) else {
            return Arrival {
                whose: Whose::Clients,
                seat: self,
            };
        };
        let name = Ssrc(source);
        if is_rtcp(datagram) {
            self.take_control(settings, name, spoken_of(datagram), moment, until_ms)
        } else {
            self.take_packet(settings, name, moment, until_ms)
        }
    }

    /// The client said goodbye: it may send under another name from now on.
    pub fn left(self) -> Seat
        ensures { result ≡ after_goodbye self }
    {
        Seat {
            until_ms: 0,
            ..self
        }
    }

    /// An RTP packet under this name.
    fn take_packet(self, settings: &Settings, name: Ssrc, moment: u64, until_ms: u64) -> Arrival
        ensures { result ≡ record {
          whose = whose_packet settings.now self name.0 moment;
          seat = after_packet self name.0 until_ms (whose_packet settings.now self name.0 moment);
        } }
    {
        let whose = self.whose_packet(settings, name, moment);
        Arrival {
            whose,
            seat: self.after_packet(name, until_ms, whose),
        }
    }

    /// Whose a packet under this name is: the client's if it sends so, or may do so from now on.
    fn whose_packet(self, settings: &Settings, name: Ssrc, moment: u64) -> Whose
        ensures { result ≡ whose_packet settings.now self name.0 moment }
    {
        if self.is_sender(name) {
            Whose::Clients
        } else if !is_free(settings, self.names.seat, name) {
            Whose::Ours
        } else if self.may_change(moment) {
            Whose::Clients
        } else {
            Whose::Others
        }
    }

    /// What is known after such a packet.
    fn after_packet(self, name: Ssrc, until_ms: u64, whose: Whose) -> Seat
        ensures { result ≡ after_packet self name.0 until_ms whose }
    {
        match whose {
            Whose::Clients => self.sending(name, until_ms),
            Whose::Ours => self,
            Whose::Others => self,
        }
    }

    /// RTCP whose first packet names this source, and that says these names.
    fn take_control(
        self,
        settings: &Settings,
        name: Ssrc,
        spoken: Spoken,
        moment: u64,
        until_ms: u64,
    ) -> Arrival
        ensures { result ≡ record {
          whose = whose_control settings.now self name.0;
          seat = after_control settings.now self spoken moment until_ms
              (whose_control settings.now self name.0);
        } }
    {
        let whose = self.whose_control(settings, name);
        Arrival {
            whose,
            seat: self.after_control(settings, spoken, moment, until_ms, whose),
        }
    }

    /// Whose RTCP is that names this source first: the client's, unless it is one of the unit's.
    fn whose_control(self, settings: &Settings, name: Ssrc) -> Whose
        ensures { result ≡ whose_control settings.now self name.0 }
    {
        if self.is_sender(name) || self.is_asker(name) || is_free(settings, self.names.seat, name) {
            Whose::Clients
        } else {
            Whose::Ours
        }
    }

    /// What is known after RTCP that says these names.
    fn after_control(
        self,
        settings: &Settings,
        spoken: Spoken,
        moment: u64,
        until_ms: u64,
        whose: Whose,
    ) -> Seat
        ensures { result ≡ after_control settings.now self spoken moment until_ms whose }
    {
        match whose {
            Whose::Clients => self
                .after_report(settings, spoken.sends, moment, until_ms)
                .after_ask(settings, spoken.asks),
            Whose::Ours => self,
            Whose::Others => self,
        }
    }

    /// What is known after a sender report of this sender, if there is one: a name that the client may have becomes its own.
    fn after_report(
        self,
        settings: &Settings,
        sender: Option<Ssrc>,
        moment: u64,
        until_ms: u64,
    ) -> Seat
        ensures { result ≡ after_report settings.now self sender moment until_ms }
    {
        match sender {
            Some(name) => {
                let whose = self.whose_packet(settings, name, moment);
                self.after_packet(name, until_ms, whose)
            }
            None => self,
        }
    }

    /// What is known after this sender asked, if one did.
    fn after_ask(self, settings: &Settings, asker: Option<Ssrc>) -> Seat
        ensures { result ≡ after_ask settings.now self asker }
    {
        match asker {
            Some(name) => self.asking(settings, name),
            None => self,
        }
    }

    /// The client asks under this name from now on, if it may have it.
    fn asking(self, settings: &Settings, name: Ssrc) -> Seat
        ensures { result ≡ asking settings.now self name.0 }
    {
        if !self.is_asker(name) && !is_free(settings, self.names.seat, name) {
            return self;
        }
        Seat {
            names: Names {
                asks: Some(name),
                ..self.names
            },
            ..self
        }
    }

    /// The client sends under this name from now on.
    fn sending(self, name: Ssrc, until_ms: u64) -> Seat
        ensures { result ≡ sending self name.0 until_ms }
    {
        Seat {
            names: Names {
                sends: Some(name),
                ..self.names
            },
            until_ms,
        }
    }

    /// Whether the client sends under this name.
    fn is_sender(self, name: Ssrc) -> bool
        ensures { result ≡ is_sender self name.0 }
    {
        is_named(self.names.sends, name)
    }

    /// Whether it asked under this name last.
    fn is_asker(self, name: Ssrc) -> bool
        ensures { result ≡ is_asker self name.0 }
    {
        is_named(self.names.asks, name)
    }

    /// Whether the client may send under another name: it has none yet, or was silent under it for long.
    fn may_change(self, moment: u64) -> bool
        ensures { result ≡ may_change self moment }
    {
        self.names.sends.is_none() || self.until_ms <= moment
    }
}

/// Whether this name is known, and is that one.
fn is_named(known: Option<Ssrc>, name: Ssrc) -> bool
    ensures { result ≡ is_named known name.0 }
{
    match known {
        Some(known) => known.0 == name.0,
        None => false,
    }
}
