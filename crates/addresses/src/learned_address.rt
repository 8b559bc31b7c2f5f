//! The seat of an endpoint whose address is learned: who has it, and who takes it.

ghost use Rattle.std.specs.Prelude.{◌≡◌};
ghost use Rattle.addresses.specs.LearnedAddress.{first_known, may_take};

use std::net::{IpAddr, SocketAddr};

/// What goes to an address and comes from it, if RTP and RTCP have one each (RFC 3550, section 11).
#[derive(Clone, Copy, PartialEq, Eq)]
pub enum Kind {
    Rtp,
    Rtcp,
}

/// The addresses that are known of an endpoint, and until when they are kept.
#[derive(Clone, Copy, Debug, PartialEq, Eq)]
pub struct LearnedAddress {
    /// Where its RTP comes from; all, if both share a port.
    pub rtp: Option<SocketAddr>,
    /// Where its RTCP comes from.
    pub rtcp: Option<SocketAddr>,
    /// The moment from which on nobody has the seat, in milliseconds.
    pub until_ms: u64,
}

impl LearnedAddress {
    ghost use Rattle.std.specs.Prelude.{◌≡◌};
    ghost use Rattle.addresses.specs.LearnedAddress.{address_of, claimed, empty_seat, kept_at, taken};

    /// Nobody has it.
    pub fn empty() -> LearnedAddress
        ensures { result ≡ empty_seat }
    {
        LearnedAddress {
            rtp: None,
            rtcp: None,
            until_ms: 0,
        }
    }

    /// Where what is of this kind goes: to the address of its kind, or to the other one while none of its kind is known.
    pub fn address(self, kind: Kind) -> Option<SocketAddr>
        ensures { result ≡ address_of self kind }
    {
        match kind {
            Kind::Rtp => either(self.rtp, self.rtcp),
            Kind::Rtcp => either(self.rtcp, self.rtp),
        }
    }

    /// The seat once a datagram of this kind with its source came from this address at this moment; it is then kept until `until_ms`.
    /// `None` if a stranger sent it, since somebody else has the seat: another address is known of this kind, or one of the other
    /// kind on another host.
    pub fn claimed(
        self,
        kind: Kind,
        from: SocketAddr,
        moment: u64,
        until_ms: u64,
    ) -> Option<LearnedAddress>
        ensures { result
            ≡ claimed ⟦<SocketAddr as PartialEq>⟧.eq ⟦<IpAddr as PartialEq>⟧.eq self kind from
            moment until_ms }
    {
        let kept = self.kept_at(moment);
        let may_take = match kind {
            Kind::Rtp => may_take(kept.rtp, kept.rtcp, from),
            Kind::Rtcp => may_take(kept.rtcp, kept.rtp, from),
        };
        if may_take {
            Some(kept.taken(kind, from, until_ms))
        } else {
            None
        }
    }

    /// What is left of it at this moment.
    fn kept_at(self, moment: u64) -> LearnedAddress
        ensures { result ≡ kept_at self moment }
    {
        if moment < self.until_ms {
            self
        } else {
            LearnedAddress::empty()
        }
    }

    /// The seat with this address of this kind.
    fn taken(self, kind: Kind, from: SocketAddr, until_ms: u64) -> LearnedAddress
        ensures { result ≡ taken self kind from until_ms }
    {
        match kind {
            Kind::Rtp => LearnedAddress {
                rtp: Some(from),
                rtcp: self.rtcp,
                until_ms,
            },
            Kind::Rtcp => LearnedAddress {
                rtp: self.rtp,
                rtcp: Some(from),
                until_ms,
            },
        }
    }
}

/// The first of two addresses that is known.
fn either(first: Option<SocketAddr>, second: Option<SocketAddr>) -> Option<SocketAddr>
    ensures { result ≡ first_known first second }
{
    match first {
        Some(address) => Some(address),
        None => second,
    }
}

/// Whether a datagram from this address may take the place of its kind. This address has it; or nobody has, and the other place is nobody's or
/// one of the same host.
fn may_take(here: Option<SocketAddr>, other: Option<SocketAddr>, from: SocketAddr) -> bool
    ensures { result
        ≡ may_take ⟦<SocketAddr as PartialEq>⟧.eq ⟦<IpAddr as PartialEq>⟧.eq here other from }
{
    match here {
        Some(address) => address == from,
        None => match other {
            Some(address) => address.ip() == from.ip(),
            None => true,
        },
    }
}
