//! What a feedback packet says.

ghost use Rattle.std.specs.Prelude.{◌≡◌, ◌↔◌, ◌<◌, length, IfOk, IsOkAnd, IsErrOf};
ghost use Rattle.rtcp_feedback.specs.Grammar.{Message, ReadsFeedback};
ghost use Rattle.rtcp_feedback.specs.Fault.{HasOddFci};
ghost use Rattle.rtcp_feedback.specs.Reading.{Gives, message_at, message_of};

use crate::fault::FbFault;
use crate::nack::Nacks;
use crate::packet::{FMT_NACK, FMT_PLI, FMT_TMMBN, FMT_TMMBR, PSFB, RTPFB, SOURCES_BYTES};
use crate::tmmb::TmmbEntries;
use byteorder::{BigEndian, ByteOrder};
use tmmbr_tuple::Ssrc;

/// A feedback packet without its header (RFC 4585, section 6.1). Entries are slices of the body. A NACK,
/// TMMBR or TMMBN may have none; the first two then ask for nothing.
#[derive(Clone, Copy, PartialEq, Eq)]
pub enum Feedback<'a> {
    /// A generic NACK (RFC 4585, section 6.2.1): packets of `media` were lost.
    Nack {
        sender: Ssrc,
        media: Ssrc,
        entries: Nacks<'a>,
    },
    /// A picture loss indication (RFC 4585, section 6.3.1), whose FCI, if any, is ignored.
    Pli {
        sender: Ssrc,
        media: Ssrc,
    },
    /// Requests for greatest rates (RFC 5104, section 4.2.1), whose source of media is ignored.
    Tmmbr {
        sender: Ssrc,
        entries: TmmbEntries<'a>,
    },
    /// A notification of such requests (RFC 5104, section 4.2.2), whose source of media is ignored.
    Tmmbn {
        sender: Ssrc,
        entries: TmmbEntries<'a>,
    },
    /// Any other FMT or type.
    Unknown {
        sender: Ssrc,
    },
}

/// What a feedback packet of this FMT and type says, by its body: the bytes after the header, without
/// padding. Refused with `Short` and `OddFci`, each exactly by its cause. Takes no memory.
pub fn read_feedback(fmt: u8, kind: u8, body: &[u8]) -> Result<Feedback<'_>, FbFault>
    ensures read { IfOk result (λ found. ReadsFeedback fmt kind body.now (message_of found)) }
    ensures every { (m : Message) → ReadsFeedback fmt kind body.now m
        → IsOkAnd result (λ found. message_of found ≡ m) }
    ensures short { IsErrOf result FbFault.Short ↔ (length body.now < 8) }
    ensures odd_fci { IsErrOf result FbFault.OddFci ↔ HasOddFci fmt kind body.now }
{
    if body.len() < SOURCES_BYTES {
        return Err(FbFault::Short);
    }
    let sender = Ssrc(BigEndian::read_u32(body));
    let media = Ssrc(BigEndian::read_u32(&body[4..]));
    read_fci(fmt, kind, sender, media, &body[SOURCES_BYTES..])
}

/// What a feedback packet of these sources says, by its FCI.
#[tactic(auto, unfolding(crate::specs::Reading::message_at))]
fn read_fci(
    fmt: u8,
    kind: u8,
    sender: Ssrc,
    media: Ssrc,
    fci: &[u8],
) -> Result<Feedback<'_>, FbFault>
    ensures { Gives message_of result (message_at fmt kind sender.0 media.0 fci.now) }
{
    Ok(match (kind, fmt) {
        (RTPFB, FMT_NACK) => Feedback::Nack {
            sender,
            media,
            entries: Nacks::read(fci)?,
        },
        (RTPFB, FMT_TMMBR) => Feedback::Tmmbr {
            sender,
            entries: TmmbEntries::read(fci)?,
        },
        (RTPFB, FMT_TMMBN) => Feedback::Tmmbn {
            sender,
            entries: TmmbEntries::read(fci)?,
        },
        (PSFB, FMT_PLI) => Feedback::Pli { sender, media },
        _ => Feedback::Unknown { sender },
    })
}
