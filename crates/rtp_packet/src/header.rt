//! The fixed header, and the parts of a packet that it announces.

ghost use Rattle.std.specs.Prelude.{◌≡◌, ◌+◌, ◌*◌, ◌<◌, ◌++◌, true, nat_lt, length, drop, IfOk, IfErr};
ghost use Rattle.byteorder.specs.Endian.{big_number};
ghost use Rattle.rtp_packet.specs.Grammar.{IsExtension, IsPadding, is_there};
ghost use Rattle.rtp_packet.specs.Fault.{HasHeaderFault, IsNoCount};
ghost use Rattle.rtp_packet.specs.Header.{IsHeaderOf};

use crate::fault::RtpFault;
use byteorder::{BigEndian, ByteOrder};
use tmmbr_tuple::Ssrc;

/// The length of the fixed header in bytes (RFC 3550, section 5.1).
pub const HEADER: usize = 12;

/// The length of a word, which CSRCs and extensions are made of, and of an extension's own header.
const WORD_BYTES: usize = 4;

/// The fixed header (RFC 3550, section 5.1), without its version.
#[derive(Clone, Copy)]
pub struct Header {
    pub padding: bool,
    pub extension: bool,
    pub csrc_count: u8,
    pub marker: bool,
    pub payload_type: u8,
    pub sequence_number: u16,
    pub timestamp: u32,
    pub ssrc: Ssrc,
}

impl Header {
    /// The header at the front of a datagram.
    pub fn read(datagram: &[u8]) -> Result<Header, RtpFault>
        ensures ok { IfOk result (IsHeaderOf datagram.now) }
        ensures fault { IfErr result (HasHeaderFault datagram.now) }
    {
        if datagram.len() < HEADER {
            return Err(RtpFault::Short);
        }
        let (first, second) = (datagram[0], datagram[1]);
        if first >> 6 != 2 {
            return Err(RtpFault::Version);
        }
        Ok(Header {
            padding: (first >> 5) & 1 == 1,
            extension: (first >> 4) & 1 == 1,
            csrc_count: first & 0x0f,
            marker: second >> 7 == 1,
            payload_type: second & 0x7f,
            sequence_number: BigEndian::read_u16(&datagram[2..]),
            timestamp: BigEndian::read_u32(&datagram[4..]),
            ssrc: Ssrc(BigEndian::read_u32(&datagram[8..])),
        })
    }

    /// The CSRCs at the front of what follows the header, and what follows them.
    pub fn split_csrcs(self, rest: &[u8]) -> Result<(&[u8], &[u8]), RtpFault>
        ensures parts { IfOk result (λ parts. rest.now ≡ parts.0.now ++ parts.1.now) }
        ensures count { IfOk result (λ parts. length parts.0.now ≡ 4 * self.csrc_count) }
        ensures short { IfErr result (λ fault. (fault ≡ RtpFault.CsrcShort)
            × (length rest.now < 4 * self.csrc_count)) }
    {
        let count = WORD_BYTES * usize::from(self.csrc_count);
        if rest.len() < count {
            return Err(RtpFault::CsrcShort);
        }
        Ok(rest.split_at(count))
    }

    /// The extension at the front of what follows the CSRCs, empty if there is none, and what follows it.
    pub fn split_extension(self, rest: &[u8]) -> Result<(&[u8], &[u8]), RtpFault>
        ensures parts { IfOk result (λ parts. rest.now ≡ parts.0.now ++ parts.1.now) }
        ensures valid { IfOk result (λ parts. IsExtension parts.0.now) }
        ensures there { IfOk result (λ parts. is_there parts.0.now ≡ self.extension) }
        ensures short { IfErr result (λ fault. (fault ≡ RtpFault.ExtensionShort)
            × (self.extension ≡ true) × (length rest.now < 4 + 4 * big_number 2 (drop 2 rest.now))) }
    {
        if !self.extension {
            return Ok((&[], rest));
        }
        if rest.len() < WORD_BYTES {
            return Err(RtpFault::ExtensionShort);
        }
        let words = usize::from(BigEndian::read_u16(&rest[2..]));
        let count = WORD_BYTES + WORD_BYTES * words;
        if rest.len() < count {
            return Err(RtpFault::ExtensionShort);
        }
        Ok(rest.split_at(count))
    }

    /// The payload and the padding, which what follows the extension consists of.
    pub fn split_padding(self, rest: &[u8]) -> Result<(&[u8], &[u8]), RtpFault>
        ensures parts { IfOk result (λ parts. rest.now ≡ parts.0.now ++ parts.1.now) }
        ensures valid { IfOk result (λ parts. IsPadding parts.1.now) }
        ensures there { IfOk result (λ parts. is_there parts.1.now ≡ self.padding) }
        ensures no_count { IfErr result (λ fault. (fault ≡ RtpFault.Padding) × (self.padding ≡ true)
            × IsNoCount rest.now) }
    {
        if !self.padding {
            return Ok((rest, &[]));
        }
        if rest.is_empty() {
            return Err(RtpFault::Padding);
        }
        let count = usize::from(rest[rest.len() - 1]);
        if count == 0 || rest.len() < count {
            return Err(RtpFault::Padding);
        }
        Ok(rest.split_at(rest.len() - count))
    }
}
