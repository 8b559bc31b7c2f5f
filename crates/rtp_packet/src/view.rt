//! Packets, seen in the datagram that they came in.

ghost use Rattle.rtp_packet.specs.Grammar.{ReadsRtp};

use crate::fault::RtpFault;
use crate::header::{HEADER, Header};
use byteorder::{BigEndian, ByteOrder};
use tmmbr_tuple::Ssrc;

/// An RTP packet of version 2 (RFC 3550, section 5.1). Its parts are slices of the datagram that it was
/// read from: the twelve bytes of the header, `csrcs`, `extension`, `payload` and `padding`, one
/// after the other, are that datagram.
#[derive(Clone, Copy)]
pub struct RtpView<'a> {
    /// The whole datagram.
    pub datagram: &'a [u8],
    /// The marker bit, whose meaning the profile defines.
    pub marker: bool,
    /// The format of the payload, 0 to 127.
    pub payload_type: u8,
    /// Rises by one with each packet of the source, modulo 65,536.
    pub sequence_number: u16,
    /// The sampling instant of the payload's first byte, in units of the payload's clock, modulo 2^32.
    pub timestamp: u32,
    /// The source of the packet.
    pub ssrc: Ssrc,
    /// The contributing sources, four bytes each, 0 to 15 of them.
    pub csrcs: &'a [u8],
    /// The header extension: two bytes that the profile defines, a count of words in two, and so many words, of four bytes each; empty if
    /// the packet has none (RFC 3550, section 5.3.1).
    pub extension: &'a [u8],
    /// The payload, which may be empty.
    pub payload: &'a [u8],
    /// The padding, its count in the last byte; empty if the packet has none.
    pub padding: &'a [u8],
    pub ghost is_read: { ReadsRtp datagram.now (record {
      marker = marker;
      payload_type = payload_type;
      sequence_number = sequence_number;
      timestamp = timestamp;
      ssrc = ssrc.0;
      csrcs = csrcs.now;
      extension = extension.now;
      payload = payload.now;
      padding = padding.now;
    }) },
}

impl<'a> RtpView<'a> {
    ghost use Rattle.std.specs.Prelude.{◌≡◌, ◌≤◌, ◌<◌, ◌++◌, ◌↔◌, length, drop, IsOk, IsErrOf, IsOkAnd, IfOk, IfErr};
    ghost use Rattle.rtp_packet.specs.Grammar.{RtpPacket, ReadsRtp, bytes_of, with_address};
    ghost use Rattle.rtp_packet.specs.Parts.{rtp_packet_of};
    ghost use Rattle.rtp_packet.specs.Fault.{HasRtpFault};
    ghost use Rattle.rtp_packet.specs.declared.fault.RtpFault.{RtpFault as Fault};

    /// The packet that a datagram is. Refused if it is none: `Short`, `Version`, `CsrcShort`,
    /// `ExtensionShort` and `Padding`, the first of these that applies.
    pub fn parse(datagram: &'a [u8]) -> Result<RtpView<'a>, RtpFault>
        ensures read { IfOk result (λ view. ReadsRtp datagram.now (rtp_packet_of view)) }
        ensures every { (packet : RtpPacket) → ReadsRtp datagram.now packet
            → IsOkAnd result (λ view. rtp_packet_of view ≡ packet) }
        ensures fault { IfErr result (HasRtpFault datagram.now) }
        ensures exact { (fault : Fault) → HasRtpFault datagram.now fault → IsErrOf result fault }
    {
        let header = Header::read(datagram)?;
        let (csrcs, rest) = header.split_csrcs(&datagram[HEADER..])?;
        let (extension, rest) = header.split_extension(rest)?;
        let (payload, padding) = header.split_padding(rest)?;
        Ok(RtpView {
            datagram,
            marker: header.marker,
            payload_type: header.payload_type,
            sequence_number: header.sequence_number,
            timestamp: header.timestamp,
            ssrc: header.ssrc,
            csrcs,
            extension,
            payload,
            padding,
        })
    }

    /// Writes the packet under this SSRC and sequence number to the front of `out`, all else as it was
    /// read, and answers its length in bytes; what stands after it in `out` stays. Refused with `Room`
    /// if `out` is shorter than the packet, and then `out` is unchanged.
    pub fn rewritten_into(
        &self,
        ssrc: Ssrc,
        sequence_number: u16,
        out: &mut [u8],
    ) -> Result<usize, RtpFault>
        ensures fits { IsOk result ↔ (length self.now.datagram.now ≤ length out.old) }
        ensures size { IfOk result (λ size. size ≡ length self.now.datagram.now) }
        ensures written { IfOk result (λ size.
            out.new ≡ bytes_of (with_address ssrc.0 sequence_number (rtp_packet_of self.now))
            ++ drop size out.old) }
        ensures room { IfErr result (λ fault. (fault ≡ RtpFault.Room) × (out.new ≡ out.old)) }
    {
        let size = self.datagram.len();
        if out.len() < size {
            return Err(RtpFault::Room);
        }
        out[..size].copy_from_slice(self.datagram);
        BigEndian::write_u16(&mut out[2..], sequence_number);
        BigEndian::write_u32(&mut out[8..], ssrc.0);
        Ok(size)
    }
}
