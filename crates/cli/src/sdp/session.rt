//! A whole session description.

ghost use Rattle.std.specs.Prelude.{◌≡◌, ◌++◌, IfOk, OnOk};
ghost use Rattle.std.specs.String.{string_bytes};
ghost use Rattle.cli.specs.Session.{origin_line, session_text, streams_text};

use crate::sdp::stream::{Stream, push_stream, version_word};
use std::alloc::{AllocError, Global};
use std::net::IpAddr;

/// The session's name and its time: it has no end (RFC 8866, sections 5.3 and 5.9).
const NAME: &str = "s=sfu\r\nt=0 0\r\n";

/// What somebody receives of a unit.
#[derive(Clone, Copy)]
pub struct Session<'a> {
    /// Where the unit is.
    pub unit: IpAddr,
    pub streams: &'a [Stream<'a>],
}

/// The session description, with a media description for each stream.
#[tactic(auto, unfolding(crate::specs::Session::session_text))]
pub fn session_text(alloc: Global, session: &Session<'_>) -> Result<String, AllocError>
    ensures { IfOk result (λ text. string_bytes text ≡ session_text session.now) }
{
    let mut text = String::new(alloc);
    push_origin(&mut text, session.unit)?;
    text.push_str(NAME)?;
    push_streams(&mut text, session.streams)?;
    Ok(text)
}

/// The lines `v=` and `o=`.
#[tactic(auto, unfolding(crate::specs::Session::origin_line))]
fn push_origin(text: &mut String, unit: IpAddr) -> Result<(), AllocError>
    ensures { OnOk result (string_bytes text.new ≡ string_bytes text.old ++ origin_line unit) }
{
    text.push_str("v=0\r\no=- 0 0 IN ")?;
    text.push_str(version_word(unit))?;
    write!(text, "{unit}\r\n")
}

fn push_streams(text: &mut String, streams: &[Stream<'_>]) -> Result<(), AllocError>
    ensures { OnOk result
        (string_bytes text.new ≡ string_bytes text.old ++ streams_text streams.now) }
{
    for stream in streams {
        push_stream(text, stream)?;
    }
    Ok(())
}
