//! Jobs that wait to be pushed.

ghost use Rattle.std.specs.Prelude.{◌≡◌, IfOk};
ghost use Rattle.core_steps.specs.Seed.{job_of};

use events::{Job, SharedPacket};
use rtcp_feedback::Nack;
use std::alloc::AllocError;

/// A job that waits to be pushed, without the bytes of its packet: those are the datagram's, which is kept once for all workers.
#[derive(Clone, Copy, PartialEq, Eq)]
pub(crate) enum Seed {
    Packet {
        publisher: u16,
    },
    Request {
        leg: u16,
        stay: u64,
        word: u32,
    },
    Resend {
        leg: u16,
        stay: u64,
        nack: Nack,
    },
    Pli {
        leg: u16,
        moment: u64,
    },
    Report {
        leg: u16,
        stay: u64,
        sr: Option<(u64, u32)>,
    },
    Goodbye {
        leg: u16,
    },
}

/// The job of this seed, if the datagram has these bytes, which a packet shares.
pub(crate) fn job_of(datagram: &SharedPacket, seed: Seed) -> Result<Job, AllocError>
    ensures { IfOk result (λ job. job ≡ job_of datagram.now seed) }
{
    Ok(match seed {
        Seed::Packet { publisher } => Job::Packet {
            publisher,
            bytes: datagram.share()?,
        },
        Seed::Request { leg, stay, word } => Job::Request { leg, stay, word },
        Seed::Resend { leg, stay, nack } => Job::Resend { leg, stay, nack },
        Seed::Pli { leg, moment } => Job::Pli { leg, moment },
        Seed::Report { leg, stay, sr } => Job::Report { leg, stay, sr },
        Seed::Goodbye { leg } => Job::Goodbye { leg },
    })
}
