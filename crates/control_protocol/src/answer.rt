//! The texts of answers. An answer is lines, of which the last is `ok`, or `refused` and why.

ghost use Rattle.std.specs.Prelude.{◌≡◌, ◌++◌, codes, IfOk, OnOk};
ghost use Rattle.std.specs.String.{string_bytes};
ghost use Rattle.control_protocol.specs.Answers.{asks_part, counts_lines, end_part, flow_part, heard_part, listening_word, loss_part, name_end, other_source_part, presence_line, refusal_text, refused_part, sends_part, stranger_line, unheard_part, unread_part, who_part};

use ports::Status;
use std::alloc::{AllocError, Global};
use std::net::SocketAddr;
use tmmbr_tuple::Ssrc;

/// Why a request is refused.
#[derive(Clone, Copy, Debug, PartialEq, Eq)]
pub enum Refused {
    /// The line asks for nothing that there is.
    Unknown,
    /// No leg has this number.
    Leg,
    /// No endpoint has this number.
    Publisher,
    /// The unit is being recorded already.
    Recorded,
    /// The unit isn't being recorded.
    Unrecorded,
    /// A line has too many bytes; the peer is let go.
    Long,
    /// There are as many peers as there may be, and this one is let go; or as many that stay, or follow, as may.
    Full,
    /// There is no memory for the answer.
    Memory,
}

/// The whole answer to a request that is refused.
pub fn refused_text(refused: Refused) -> &'static str
    ensures { result.now ≡ refusal_text refused }
{
    match refused {
        Refused::Unknown => "refused unknown\n",
        Refused::Leg => "refused leg\n",
        Refused::Publisher => "refused publisher\n",
        Refused::Recorded => "refused recorded\n",
        Refused::Unrecorded => "refused unrecorded\n",
        Refused::Long => "refused long\n",
        Refused::Full => "refused full\n",
        Refused::Memory => "refused memory\n",
    }
}

/// The whole answer to a request that is done: these lines, and the last. Refused for want of memory alone.
pub fn done_text(alloc: Global, lines: &str) -> Result<String, AllocError>
    ensures { IfOk result (λ text. string_bytes text ≡ lines.now ++ codes "ok\n") }
{
    let mut text = String::new(alloc);
    text.push_str(lines)?;
    text.push_str("ok\n")?;
    Ok(text)
}

/// What came to the unit's sockets and wasn't heard, in datagrams.
#[derive(Clone, Copy, PartialEq, Eq)]
pub struct Unheard {
    /// From nobody's address.
    pub strangers: u64,
    /// What the system dropped, since its buffer had no room, or nobody read it in time; `None` if the system doesn't say.
    pub unread: Option<u64>,
}

/// The line of `counts`: the totals, and what wasn't heard. Refused for want of memory alone.
pub fn counts_text(alloc: Global, status: &Status, unheard: &Unheard) -> Result<String, AllocError>
    ensures { IfOk result (λ text. string_bytes text ≡ counts_lines status.now unheard.now) }
{
    let mut text = flow_part(alloc, status)?;
    push_losses(&mut text, status)?;
    push_unheard(&mut text, unheard)?;
    push_unread(&mut text, unheard.unread)?;
    Ok(text)
}

/// The line of a stranger for `strangers`: its address, how many datagrams came from there, and how many milliseconds ago the last did.
/// Refused for want of memory alone.
pub fn stranger_line(
    alloc: Global,
    address: SocketAddr,
    count: u64,
    ago_ms: u64,
) -> Result<String, AllocError>
    ensures { IfOk result (λ text. string_bytes text ≡ stranger_line address count ago_ms) }
{
    format!(in alloc; "{address} datagrams {count} heard {ago_ms} ms ago\n")
}

/// Who is present, what came, what was sent, and what couldn't be.
fn flow_part(alloc: Global, status: &Status) -> Result<String, AllocError>
    ensures { IfOk result (λ text. string_bytes text ≡ flow_part status.now) }
{
    format!(in alloc;
        "present {} heard {} sent {} failed {}",
        status.present, status.heard, status.sent, status.failed,
    )
}

/// What was lost or given up.
fn push_losses(text: &mut String, status: &Status) -> Result<(), AllocError>
    ensures { OnOk result (string_bytes text.new ≡ string_bytes text.old ++ loss_part status.now) }
{
    write!(text, " lost {} dropped {}", status.lost, status.dropped)
}

/// What came from strangers.
fn push_unheard(text: &mut String, unheard: &Unheard) -> Result<(), AllocError>
    ensures { OnOk result
        (string_bytes text.new ≡ string_bytes text.old ++ unheard_part unheard.now) }
{
    write!(text, " strangers {}", unheard.strangers)
}

/// What the system dropped.
fn push_unread(text: &mut String, unread: Option<u64>) -> Result<(), AllocError>
    ensures { OnOk result (string_bytes text.new ≡ string_bytes text.old ++ unread_part unread) }
{
    match unread {
        Some(dropped) => write!(text, " unread {dropped}\n"),
        None => text.push_str("\n"),
    }
}

/// An endpoint as `present` tells of it.
#[derive(Clone, Copy, PartialEq, Eq)]
pub struct EndpointLine<'a> {
    /// Its number.
    pub endpoint: u16,
    /// The SSRC that it has by the settings.
    pub source: Ssrc,
    pub address: SocketAddr,
    pub is_present: bool,
    /// How many milliseconds ago a datagram of it came last; `None` if none did.
    pub heard_ago_ms: Option<u64>,
    /// How often something of it was refused.
    pub refused: u64,
    /// Whether it is present whatever it says.
    pub only_listens: bool,
    /// Under which SSRC its client sends, if that is learned; `None` if it isn't, or isn't known yet.
    pub sends: Option<Ssrc>,
    /// Under which it asked last, likewise.
    pub asks: Option<Ssrc>,
    /// Under which other SSRC an RTP packet came from its address last; `None` if none did.
    pub other_source: Option<Ssrc>,
    /// What it is called.
    pub name: &'a str,
}

/// The line of an endpoint for `present`: its number, source and address, and whether it is present. Then how many milliseconds ago it was heard
/// last, if ever, and how often something of it was refused; that it only listens, if it does, under which SSRCs its client sends and asks, if these
/// were learned, and under which other one it sent last. At last what it is called. Refused for want of memory alone.
pub fn present_line(alloc: Global, line: &EndpointLine<'_>) -> Result<String, AllocError>
    ensures { IfOk result (λ text. string_bytes text ≡ presence_line line.now) }
{
    let mut text = who_part(
        alloc,
        line.endpoint,
        line.source,
        line.address,
        line.is_present,
    )?;
    push_heard(&mut text, line.heard_ago_ms)?;
    push_refused(&mut text, line.refused)?;
    push_end(&mut text, line)?;
    Ok(text)
}

/// What stands at the end of the line of an endpoint.
fn push_end(text: &mut String, line: &EndpointLine<'_>) -> Result<(), AllocError>
    ensures { OnOk result (string_bytes text.new ≡ string_bytes text.old ++ end_part line.now) }
{
    text.push_str(listening_word(line.only_listens))?;
    push_sends(text, line.sends)?;
    push_asks(text, line.asks)?;
    push_other_source(text, line.other_source)?;
    push_name(text, line.name)
}

/// Whether the endpoint only listens.
fn listening_word(only_listens: bool) -> &'static str
    ensures { result.now ≡ listening_word only_listens }
{
    if only_listens { " receive_only" } else { "" }
}

/// Under which SSRC its client sends.
fn push_sends(text: &mut String, source: Option<Ssrc>) -> Result<(), AllocError>
    ensures { OnOk result (string_bytes text.new ≡ string_bytes text.old ++ sends_part source) }
{
    match source {
        Some(source) => write!(text, " sends {}", source.0),
        None => Ok(()),
    }
}

/// Under which it asks.
fn push_asks(text: &mut String, source: Option<Ssrc>) -> Result<(), AllocError>
    ensures { OnOk result (string_bytes text.new ≡ string_bytes text.old ++ asks_part source) }
{
    match source {
        Some(source) => write!(text, " asks {}", source.0),
        None => Ok(()),
    }
}

/// Under which other SSRC it sent.
fn push_other_source(text: &mut String, source: Option<Ssrc>) -> Result<(), AllocError>
    ensures { OnOk result
        (string_bytes text.new ≡ string_bytes text.old ++ other_source_part source) }
{
    match source {
        Some(source) => write!(text, " under ssrc {}", source.0),
        None => Ok(()),
    }
}

/// What it is called.
fn push_name(text: &mut String, name: &str) -> Result<(), AllocError>
    ensures { OnOk result (string_bytes text.new ≡ string_bytes text.old ++ name_end name.now) }
{
    write!(text, " name {name}\n")
}

/// Who an endpoint is, and whether it is present.
fn who_part(
    alloc: Global,
    endpoint: u16,
    source: Ssrc,
    address: SocketAddr,
    is_present: bool,
) -> Result<String, AllocError>
    ensures { IfOk result (λ text. string_bytes text
        ≡ who_part endpoint source.0 address is_present) }
{
    let state = if is_present { "present" } else { "absent" };
    format!(in alloc; "{endpoint} ssrc {} at {address} {state}", source.0)
}

/// How long ago it was heard.
fn push_heard(text: &mut String, ago_ms: Option<u64>) -> Result<(), AllocError>
    ensures { OnOk result (string_bytes text.new ≡ string_bytes text.old ++ heard_part ago_ms) }
{
    match ago_ms {
        Some(ago_ms) => write!(text, " heard {ago_ms} ms ago"),
        None => text.push_str(" never heard"),
    }
}

/// How often something was refused of it.
fn push_refused(text: &mut String, refused: u64) -> Result<(), AllocError>
    ensures { OnOk result (string_bytes text.new ≡ string_bytes text.old ++ refused_part refused) }
{
    write!(text, " refused {refused}")
}
