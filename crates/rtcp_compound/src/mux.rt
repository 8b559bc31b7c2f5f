//! RTCP told from RTP, where both come to one port (RFC 5761, section 4).

ghost use Rattle.std.specs.Prelude.{◌≡◌};
ghost use Rattle.rtcp_compound.specs.Mux.{is_rtcp};

/// The first packet type of RTCP.
const FIRST_RTCP: u8 = 192;
/// The last packet type of RTCP.
const LAST_RTCP: u8 = 223;

/// Whether a datagram is RTCP: its second byte is 192 to 223 (RFC 5761, section 4). Any other is taken for RTP.
pub fn is_rtcp(datagram: &[u8]) -> bool
    ensures { result ≡ is_rtcp datagram.now }
{
    datagram.len() > 1 && FIRST_RTCP <= datagram[1] && datagram[1] <= LAST_RTCP
}
