//! What a worker is given to do.

use rtcp_feedback::Nack;
use shared_packet::SharedPacket;

/// A job of a worker. Stays are numbered from 1; a job that names a leg, a publisher or a stay that isn't there does
/// nothing.
#[derive(Drop)]
pub enum Job {
    /// An RTP datagram of this publisher: it goes to each leg of it that the worker owns and whose row is on.
    Packet {
        publisher: u16,
        bytes: SharedPacket,
    },
    /// The subscriber of the leg asks for this word in this stay (RFC 5104, section 4.2.1).
    Request {
        leg: u16,
        stay: u64,
        word: u32,
    },
    /// The subscriber of the leg missed packets in this stay (RFC 4585, section 6.2.1).
    Resend {
        leg: u16,
        stay: u64,
        nack: Nack,
    },
    /// The subscriber of the leg wants a picture at this moment, in milliseconds (RFC 4585, section 6.3.1).
    Pli {
        leg: u16,
        moment: u64,
    },
    /// The subscriber of the leg is sent a report in this stay: the NTP and RTP timestamps of the publisher's last
    /// sender report, if there is one (RFC 3550, section 6.4).
    Report {
        leg: u16,
        stay: u64,
        sr: Option<(u64, u32)>,
    },
    /// The subscriber of the leg is told that the leg's source is gone, since its publisher is (RFC 3550, section 6.6).
    Goodbye {
        leg: u16,
    },
}

impl Job {
    ghost use Rattle.std.specs.Prelude.{◌≡◌};
    ghost use Rattle.events.specs.Jobs.{leg_asking};

    /// The leg by which the job asks a desk, if it does.
    pub fn leg_asking(&self) -> Option<u16>
        ensures { result ≡ leg_asking self.now }
    {
        match self {
            Job::Request { leg, .. } | Job::Pli { leg, .. } => Some(*leg),
            Job::Packet { .. } | Job::Resend { .. } | Job::Report { .. } | Job::Goodbye { .. } =>
                None,
        }
    }
}
