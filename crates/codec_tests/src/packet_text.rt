//! What RTCP datagrams and feedback say, as text.
//!
//! A packet is a line: `sr`, `rr`, `sdes`, `bye`, `feedback` or `other`, and what it has in the order of its fields; sources, and
//! numbers but NTP timestamps, are decimal, bytes hexadecimal. A report's blocks follow after semicolons. After a feedback packet's
//! bytes stands what it says: `nack`, `pli`, `tmmbr`, `tmmbn` or `unknown`, its sources, and its entries.

ghost use Rattle.std.specs.Prelude.{◌<◌};

use rtcp_compound::*;
use rtcp_feedback::*;
use std::alloc::{AllocError, Global};
use std::fmt::Write;

/// Writes bytes in hexadecimal digits.
pub(crate) fn write_hex(text: &mut String, bytes: &[u8]) -> Result<(), AllocError> {
    for byte in bytes {
        write!(text, "{byte:02x}")?;
    }
    Ok(())
}

/// Writes a space and a number.
fn write_number(text: &mut String, number: u32) -> Result<(), AllocError> {
    write!(text, " {number}")
}

/// Writes a word and numbers.
fn write_numbers(text: &mut String, word: &str, numbers: &[u32]) -> Result<(), AllocError> {
    text.push_str(word)?;
    for number in numbers {
        write_number(text, *number)?;
    }
    Ok(())
}

fn write_lost(text: &mut String, lost: i32) -> Result<(), AllocError> {
    write!(text, " {lost}")
}

/// Writes a block's fields in their order.
fn write_block(text: &mut String, block: &Block) -> Result<(), AllocError> {
    let fraction = u32::from(block.fraction);
    write_numbers(text, ";", &[block.source.0, fraction])?;
    write_lost(text, block.lost)?;
    let rest = [block.highest, block.jitter, block.last_sr, block.delay];
    write_numbers(text, "", &rest)
}

fn write_blocks(text: &mut String, blocks: Blocks<'_>) -> Result<(), AllocError> {
    for block in blocks {
        write_block(text, &block)?;
    }
    Ok(())
}

fn write_sources(text: &mut String, sources: Sources<'_>) -> Result<(), AllocError> {
    for source in sources {
        write_number(text, source.0)?;
    }
    Ok(())
}

fn write_nacks(text: &mut String, entries: Nacks<'_>) -> Result<(), AllocError> {
    for entry in entries {
        let numbers = [u32::from(entry.pid), u32::from(entry.blp)];
        write_numbers(text, "", &numbers)?;
    }
    Ok(())
}

fn write_rate(text: &mut String, ssrc: u32, word: u32) -> Result<(), AllocError> {
    write!(text, " {ssrc} {word:08x}")
}

fn write_rates(text: &mut String, entries: TmmbEntries<'_>) -> Result<(), AllocError> {
    for entry in entries {
        write_rate(text, entry.ssrc.0, entry.word)?;
    }
    Ok(())
}

/// Writes what feedback says.
fn write_meaning(text: &mut String, feedback: Feedback<'_>) -> Result<(), AllocError> {
    match feedback {
        Feedback::Nack {
            sender,
            media,
            entries,
        } => {
            write_numbers(text, "nack", &[sender.0, media.0])?;
            write_nacks(text, entries)
        }
        Feedback::Pli { sender, media } => write_numbers(text, "pli", &[sender.0, media.0]),
        Feedback::Tmmbr { sender, entries } => {
            write_numbers(text, "tmmbr", &[sender.0])?;
            write_rates(text, entries)
        }
        Feedback::Tmmbn { sender, entries } => {
            write_numbers(text, "tmmbn", &[sender.0])?;
            write_rates(text, entries)
        }
        Feedback::Unknown { sender } => write_numbers(text, "unknown", &[sender.0]),
    }
}

/// Writes feedback of this FMT and type: its body, and what it says.
fn write_feedback(text: &mut String, fmt: u8, kind: u8, body: &[u8]) -> Result<(), AllocError> {
    write_body(text, "feedback", fmt, kind, body)?;
    text.push(' ')?;
    match read_feedback(fmt, kind, body) {
        Ok(feedback) => write_meaning(text, feedback),
        Err(fault) => write_numbers(text, "fault", &[u32::from(fault.number())]),
    }
}

/// Writes a word, two numbers, and bytes.
fn write_body(
    text: &mut String,
    word: &str,
    first: u8,
    second: u8,
    body: &[u8],
) -> Result<(), AllocError> {
    write_numbers(text, word, &[u32::from(first), u32::from(second)])?;
    text.push(' ')?;
    write_hex(text, body)
}

/// Writes what a sender says of itself.
fn write_sender(
    text: &mut String,
    sender: u32,
    ntp: u64,
    counts: &[u32],
) -> Result<(), AllocError> {
    write_numbers(text, "sr", &[sender])?;
    write!(text, " {ntp:x}")?;
    write_numbers(text, "", counts)
}

/// Writes a packet.
fn write_packet(text: &mut String, packet: RtcpView<'_>) -> Result<(), AllocError> {
    match packet {
        RtcpView::Sr {
            sender,
            ntp,
            rtp,
            packets,
            octets,
            blocks,
        } => {
            write_sender(text, sender.0, ntp, &[rtp, packets, octets])?;
            write_blocks(text, blocks)
        }
        RtcpView::Rr { sender, blocks } => {
            write_numbers(text, "rr", &[sender.0])?;
            write_blocks(text, blocks)
        }
        RtcpView::Sdes { count, chunks } => {
            write_numbers(text, "sdes", &[u32::from(count)])?;
            text.push(' ')?;
            write_hex(text, chunks)
        }
        RtcpView::Bye { sources } => {
            text.push_str("bye")?;
            write_sources(text, sources)
        }
        RtcpView::Feedback { fmt, kind, body } => write_feedback(text, fmt, kind, body),
        RtcpView::Other { count, kind, body } => write_body(text, "other", count, kind, body),
    }
}

/// What the packets of a datagram say, a line each, or the number of its fault.
pub(crate) fn packets_text(alloc: Global, datagram: &[u8]) -> Result<String, AllocError> {
    let mut text = String::new(alloc);
    match split(datagram) {
        Ok(packets) => write_packets(&mut text, packets)?,
        Err(fault) => write_numbers(&mut text, "fault", &[u32::from(fault.number())])?,
    }
    Ok(text)
}

fn write_packets(text: &mut String, packets: Packets<'_>) -> Result<(), AllocError> {
    for packet in packets {
        write_packet(text, packet)?;
        text.push('\n')?;
    }
    Ok(())
}

/// Bytes in hexadecimal digits.
pub(crate) fn hex_text(alloc: Global, bytes: &[u8]) -> Result<String, AllocError> {
    let mut text = String::new(alloc);
    write_hex(&mut text, bytes)?;
    Ok(text)
}

fn digit(byte: u8) -> u8
    ensures { result < 16 }
{
    match byte {
        b'0'..=b'9' => byte - b'0',
        b'a'..=b'f' => byte - b'a' + 10,
        _ => 0,
    }
}

/// The bytes that these hexadecimal digits spell.
pub(crate) fn bytes_of(alloc: Global, hex: &str) -> Result<Vec<u8>, AllocError> {
    let mut bytes = Vec::new(alloc);
    for pair in hex.as_bytes().chunks(2) {
        if let [high, low] = pair {
            bytes.push(digit(*high) * 16 + digit(*low))?;
        }
    }
    Ok(bytes)
}
