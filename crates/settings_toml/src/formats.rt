//! What a file says of formats: their payload types (RFC 8866, section 6.6), of which each has to be one of an encoding.

ghost use Rattle.std.specs.Prelude.{◌≡◌, map, string_bytes};
ghost use Rattle.settings_toml.specs.Formats.{has_stray, is_listed, payload_type};

/// The payload type of an encoding or of a format: what stands before the first space, or all if there is none.
pub fn payload_type(text: &str) -> &str
    ensures { result.now ≡ payload_type text.now }
{
    match text.split_once(' ') {
        Some((front, _)) => front,
        None => text,
    }
}

/// Whether one of these formats has the payload type of no encoding.
pub fn has_stray(rtpmap: &[String], fmtp: &[String]) -> bool
    ensures { result ≡ has_stray (map string_bytes rtpmap.now) (map string_bytes fmtp.now) }
{
    for format in fmtp {
        if !is_listed(rtpmap, payload_type(format.as_str())) {
            return true;
        }
    }
    false
}

/// Whether one of these encodings has this payload type.
fn is_listed(rtpmap: &[String], payload: &str) -> bool
    ensures { result ≡ is_listed (map string_bytes rtpmap.now) payload.now }
{
    for encoding in rtpmap {
        if payload_type(encoding.as_str()) == payload {
            return true;
        }
    }
    false
}
