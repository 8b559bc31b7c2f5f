//! What was seen of an endpoint's media: its own, and what may be its own though it isn't heard as such.

use std::net::SocketAddr;
use tmmbr_tuple::Ssrc;

/// An RTP packet from an endpoint's address, under an SSRC that isn't the endpoint's.
#[derive(Clone, Copy, PartialEq, Eq)]
pub struct StraySource {
    pub source: Ssrc,
    /// When it came, in milliseconds.
    pub moment: u64,
}

/// An RTP packet under an endpoint's SSRC, from an address that is nobody's.
#[derive(Clone, Copy, PartialEq, Eq)]
pub struct StrayPlace {
    pub address: SocketAddr,
    /// When it came, in milliseconds.
    pub moment: u64,
}

/// The last of each that came; `None` if none did.
#[derive(Clone, Copy, PartialEq, Eq)]
pub struct Sighting {
    /// When an RTP packet of the endpoint came, under its own SSRC, in milliseconds.
    pub media_ms: Option<u64>,
    pub source: Option<StraySource>,
    pub place: Option<StrayPlace>,
}

impl Sighting {
    ghost use Rattle.std.specs.Prelude.{◌≡◌};
    ghost use Rattle.diagnosis.specs.Sightings.{unsighted, with_packet, with_stranger};

    /// Nothing came.
    pub fn new() -> Sighting
        ensures { result ≡ unsighted }
    {
        Sighting {
            media_ms: None,
            source: None,
            place: None,
        }
    }

    /// An RTP packet under this SSRC came from the endpoint's address, at this moment in milliseconds; `own` is the endpoint's SSRC.
    pub fn note_packet(&mut self, own: Ssrc, source: Ssrc, moment: u64)
        ensures { self.new ≡ with_packet self.old own source moment }
    {
        if own.0 == source.0 {
            self.media_ms = Some(moment);
        } else {
            self.source = Some(StraySource { source, moment });
        }
    }

    /// An RTP packet under this SSRC came from this address, at this moment in milliseconds, and is nobody's. It concerns an endpoint with that
    /// SSRC, or at that address; of any other nothing changes.
    pub fn note_stranger(
        &mut self,
        own: Ssrc,
        home: SocketAddr,
        source: Ssrc,
        address: SocketAddr,
        moment: u64,
    )
        ensures { self.new ≡ with_stranger ⟦<SocketAddr as PartialEq>⟧.eq self.old own home source
            address moment }
    {
        if own.0 == source.0 {
            self.place = Some(StrayPlace { address, moment });
        } else if home == address {
            self.source = Some(StraySource { source, moment });
        }
    }
}
