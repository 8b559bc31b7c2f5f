//! One stream of a session description.

ghost use Rattle.std.specs.Prelude.{◌≡◌, ◌++◌, OnOk, flat_map};
ghost use Rattle.std.specs.String.{string_bytes};
ghost use Rattle.std.specs.Net.Socket.{socket_port};
ghost use Rattle.cli.specs.Session.{connection_line, encodings_text, fmtp_line, fmtp_line_of, kind_word, media_line, payload_word, payload_word_of, port_words, rtcp_line, rtcp_words, rtpmap_line, rtpmap_line_of, ssrc_line, stream_text, version_word};

use crate::sdp::encoding::is_video;
use settings_toml::payload_type;
use std::alloc::AllocError;
use std::net::{IpAddr, SocketAddr};

/// RTCP comes to the port of RTP (RFC 5761, section 5.1.1).
const SHARED: &str = "a=rtcp-mux\r\n";

/// The feedback that the unit takes of its receivers (RFC 4585, section 4.2; RFC 5104, section 7.1), and on which side they are. Each stream
/// says it, and so each is of the profile with feedback.
const FEEDBACK: &str =
    "a=rtcp-fb:* nack\r\na=rtcp-fb:* nack pli\r\na=rtcp-fb:* ccm tmmbr\r\na=recvonly\r\n";

/// A stream that a client receives.
#[derive(Clone, Copy)]
pub struct Stream<'a> {
    /// Where it comes to.
    pub address: SocketAddr,
    /// Where its RTCP comes to; the same if both share a port (RFC 5761).
    pub rtcp: SocketAddr,
    /// The source that it has, any 32 bits.
    pub ssrc: u32,
    /// The canonical name of that source (RFC 3550, section 6.5.1).
    pub cname: &'a str,
    /// Its encodings, each after its payload type, as `96 H264/90000`.
    pub rtpmap: &'a [String],
    /// The parameters of formats, each after its payload type, as `96 packetization-mode=1`.
    pub fmtp: &'a [String],
}

/// The media description of a stream (RFC 8866, section 5.14).
#[tactic(auto, unfolding(crate::specs::Session::stream_text))]
pub(crate) fn push_stream(text: &mut String, stream: &Stream<'_>) -> Result<(), AllocError>
    ensures { OnOk result
        (string_bytes text.new ≡ string_bytes text.old ++ stream_text stream.now) }
{
    push_media(text, stream.address.port(), stream.rtpmap)?;
    push_connection(text, stream.address.ip())?;
    push_encodings(text, stream.rtpmap, stream.fmtp)?;
    push_rtcp(text, stream.address, stream.rtcp)?;
    push_ssrc(text, stream.ssrc, stream.cname)?;
    text.push_str(FEEDBACK)
}

/// The line `m=`: the kind, the port, the profile and the payload types.
#[tactic(auto, unfolding(crate::specs::Session::media_line))]
fn push_media(text: &mut String, port: u16, rtpmap: &[String]) -> Result<(), AllocError>
    ensures { OnOk result
        (string_bytes text.new ≡ string_bytes text.old ++ media_line port rtpmap.now) }
{
    text.push_str(kind_of(rtpmap))?;
    push_port(text, port)?;
    push_payload_types(text, rtpmap)?;
    text.push_str("\r\n")
}

/// How the line begins, by the first encoding.
fn kind_of(rtpmap: &[String]) -> &'static str
    ensures { result.now ≡ kind_word rtpmap.now }
{
    match rtpmap.first() {
        Some(first) => {
            if is_video(first.as_str()) {
                "m=video "
            } else {
                "m=audio "
            }
        }
        None => "m=audio ",
    }
}

/// The port, and the profile with feedback (RFC 4585, section 4).
#[tactic(auto, unfolding(crate::specs::Session::port_words))]
fn push_port(text: &mut String, port: u16) -> Result<(), AllocError>
    ensures { OnOk result (string_bytes text.new ≡ string_bytes text.old ++ port_words port) }
{
    write!(text, "{port} RTP/AVPF")
}

fn push_payload_types(text: &mut String, rtpmap: &[String]) -> Result<(), AllocError>
    ensures { OnOk result
        (string_bytes text.new ≡ string_bytes text.old ++ flat_map payload_word rtpmap.now) }
{
    for encoding in rtpmap {
        push_payload_type(text, encoding.as_str())?;
    }
    Ok(())
}

#[tactic(auto, unfolding(crate::specs::Session::payload_word_of))]
fn push_payload_type(text: &mut String, encoding: &str) -> Result<(), AllocError>
    ensures { OnOk result
        (string_bytes text.new ≡ string_bytes text.old ++ payload_word_of encoding.now) }
{
    text.push(' ')?;
    text.push_str(payload_type(encoding))
}

/// The line `c=`.
#[tactic(auto, unfolding(crate::specs::Session::connection_line))]
fn push_connection(text: &mut String, address: IpAddr) -> Result<(), AllocError>
    ensures { OnOk result (string_bytes text.new ≡ string_bytes text.old ++ connection_line address) }
{
    text.push_str("c=IN ")?;
    text.push_str(version_word(address))?;
    write!(text, "{address}\r\n")
}

/// The word for the version of an address.
pub(crate) fn version_word(address: IpAddr) -> &'static str
    ensures { result.now ≡ version_word address }
{
    match address {
        IpAddr::V4(_) => "IP4 ",
        IpAddr::V6(_) => "IP6 ",
    }
}

/// The lines of the encodings and of their formats.
#[tactic(auto, unfolding(crate::specs::Session::encodings_text))]
fn push_encodings(text: &mut String, rtpmap: &[String], fmtp: &[String]) -> Result<(), AllocError>
    ensures { OnOk result
        (string_bytes text.new ≡ string_bytes text.old ++ encodings_text rtpmap.now fmtp.now) }
{
    push_rtpmaps(text, rtpmap)?;
    push_fmtps(text, fmtp)
}

fn push_rtpmaps(text: &mut String, rtpmap: &[String]) -> Result<(), AllocError>
    ensures { OnOk result
        (string_bytes text.new ≡ string_bytes text.old ++ flat_map rtpmap_line rtpmap.now) }
{
    for encoding in rtpmap {
        push_rtpmap(text, encoding.as_str())?;
    }
    Ok(())
}

#[tactic(auto, unfolding(crate::specs::Session::rtpmap_line_of))]
fn push_rtpmap(text: &mut String, encoding: &str) -> Result<(), AllocError>
    ensures { OnOk result
        (string_bytes text.new ≡ string_bytes text.old ++ rtpmap_line_of encoding.now) }
{
    write!(text, "a=rtpmap:{encoding}\r\n")
}

fn push_fmtps(text: &mut String, fmtp: &[String]) -> Result<(), AllocError>
    ensures { OnOk result
        (string_bytes text.new ≡ string_bytes text.old ++ flat_map fmtp_line fmtp.now) }
{
    for parameters in fmtp {
        push_fmtp(text, parameters.as_str())?;
    }
    Ok(())
}

#[tactic(auto, unfolding(crate::specs::Session::fmtp_line_of))]
fn push_fmtp(text: &mut String, parameters: &str) -> Result<(), AllocError>
    ensures { OnOk result
        (string_bytes text.new ≡ string_bytes text.old ++ fmtp_line_of parameters.now) }
{
    write!(text, "a=fmtp:{parameters}\r\n")
}

/// Where RTCP comes to.
fn push_rtcp(text: &mut String, address: SocketAddr, rtcp: SocketAddr) -> Result<(), AllocError>
    ensures { OnOk result
        (string_bytes text.new ≡ string_bytes text.old ++ rtcp_line (socket_port address) (socket_port rtcp)) }
{
    if rtcp.port() == address.port() {
        text.push_str(SHARED)
    } else {
        push_rtcp_port(text, rtcp.port())
    }
}

#[tactic(auto, unfolding(crate::specs::Session::rtcp_words))]
fn push_rtcp_port(text: &mut String, port: u16) -> Result<(), AllocError>
    ensures { OnOk result (string_bytes text.new ≡ string_bytes text.old ++ rtcp_words port) }
{
    write!(text, "a=rtcp:{port}\r\n")
}

/// The source, and the canonical name of who sends it (RFC 5576, section 6.1).
#[tactic(auto, unfolding(crate::specs::Session::ssrc_line))]
fn push_ssrc(text: &mut String, ssrc: u32, cname: &str) -> Result<(), AllocError>
    ensures { OnOk result (string_bytes text.new ≡ string_bytes text.old ++ ssrc_line ssrc cname.now) }
{
    write!(text, "a=ssrc:{ssrc} cname:{cname}\r\n")
}
