//! What an `rtpmap` says of its encoding (RFC 8866, section 6.6).

ghost use Rattle.std.specs.Prelude.{◌≡◌};
ghost use Rattle.cli.specs.Encoding.{is_video};

/// The clock that each encoding of pictures has, in hertz (RFC 3551, section 5).
const PICTURE_CLOCK: &[u8] = b"/90000";

/// Whether an encoding is one of pictures, by its clock.
pub fn is_video(rtpmap: &str) -> bool
    ensures { result ≡ is_video rtpmap.now }
{
    rtpmap.as_bytes().ends_with(PICTURE_CLOCK)
}
