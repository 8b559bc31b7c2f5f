//! What the writers append, by examples and read again.

ghost use Rattle.std.specs.Prelude.{pos, negsuc, ◌≤ℤ◌, ◌≤◌, length};

use crate::expected::same;
use crate::packet_text::{hex_text, packets_text};
use rtcp_compound::*;
use rtcp_feedback::{Nack, TmmbrEntry, write_nack, write_pli, write_tmmbn, write_tmmbr};
use std::alloc::{AllocError, Global};
use std::fmt::Write;
use std::process::Abort;
use std::test::Fail;
use tmmbr_tuple::Ssrc;

/// A call of a writer.
#[derive(Clone, Copy)]
enum Writer {
    /// A sender report of 257 without blocks.
    Sr,
    /// The same with `three_blocks`, at the ends of its other fields.
    SrOfThree,
    /// A receiver report of 9 with `quiet_block`.
    Rr,
    /// The same with `three_blocks`.
    RrOfThree,
    /// The CNAME of 9.
    Name,
    /// The BYE of 18.
    Bye,
    /// The BYE of three.
    Byes,
    /// A TMMBN of 1 with one entry, of owner 17.
    Tmmbn,
    /// A TMMBN of 1 without entries.
    NoEntries,
    /// A TMMBR of 17 that asks source 16.
    Tmmbr,
    /// A PLI of 9 about source 16.
    Pli,
    /// A NACK of 9 about source 16 with two entries.
    Nacks,
}

use Writer::{Bye, Byes, Nacks, Name, NoEntries, Pli, Rr, RrOfThree, Sr, SrOfThree, Tmmbn, Tmmbr};

/// What each appends, and what that says.
const WRITTEN: [(Writer, &str, &str); 12] = [
    (
        Sr,
        "80c80006000001010000000a8000000000000bb80000000100000002",
        "sr 257 a80000000 3000 1 2",
    ),
    (
        SrOfThree,
        "83c8001800000101ffffffffffffffff00000bb800000001ffffffff000000100000000000000008\
            000000a8000a80000000147affffffffff800000ffffffffffffffffffffffffffffffffffffffff\
            ff7fffffffffffffffffffffffffffffffffffff",
        "sr 257 ffffffffffffffff 3000 1 4294967295; 16 0 0 8 168 688128 5242; 4294967295 \
            255 -8388608 4294967295 4294967295 4294967295 4294967295; 4294967295 255 \
            8388607 4294967295 4294967295 4294967295 4294967295",
    ),
    (
        Rr,
        "81c9000700000009000000100000000000000008000000a8000a80000000147a",
        "rr 9; 16 0 0 8 168 688128 5242",
    ),
    (
        RrOfThree,
        "83c9001300000009000000100000000000000008000000a8000a80000000147affffffffff800000\
            ffffffffffffffffffffffffffffffffffffffffff7fffffffffffffffffffffffffffffffffffff",
        "rr 9; 16 0 0 8 168 688128 5242; 4294967295 255 -8388608 4294967295 4294967295 \
            4294967295 4294967295; 4294967295 255 8388607 4294967295 4294967295 4294967295 \
            4294967295",
    ),
    (
        Name,
        "81ca0003000000090103736675000000",
        "sdes 1 000000090103736675000000",
    ),
    (Bye, "81cb000100000012", "bye 18"),
    (
        Byes,
        "83cb00030000001200000000ffffffff",
        "bye 18 0 4294967295",
    ),
    (
        Tmmbn,
        "84cd00040000000100000000000000110007d028",
        "feedback 4 205 0000000100000000000000110007d028 tmmbn 1 17 0007d028",
    ),
    (
        NoEntries,
        "84cd00020000000100000000",
        "feedback 4 205 0000000100000000 tmmbn 1",
    ),
    (
        Tmmbr,
        "83cd00040000001100000000000000100007d028",
        "feedback 3 205 0000001100000000000000100007d028 tmmbr 17 16 0007d028",
    ),
    (
        Pli,
        "81ce00020000000900000010",
        "feedback 1 206 0000000900000010 pli 9 16",
    ),
    (
        Nacks,
        "81cd00040000000900000010fffe000300078000",
        "feedback 1 205 0000000900000010fffe000300078000 nack 9 16 65534 3 7 32768",
    ),
];

/// Feedback of FMT 1, to stand after what was written.
const BEHIND: [u8; 12] = [0x81, 0xce, 0, 2, 0, 0, 0, 9, 0, 0, 0, 0x11];

/// What it says, after the line of another packet.
const BEHIND_TEXT: &str = "\nfeedback 1 206 0000000900000011 pli 9 17\n";

/// A report of 16: eight packets, none lost, a jitter of 168, and a sender report 80 ms ago.
fn quiet_block() -> Block {
    Block {
        source: Ssrc(16),
        fraction: 0,
        lost: 0,
        highest: 8,
        jitter: 168,
        last_sr: 0x000a_8000,
        delay: 0x147a,
    }
}

/// A report at the ends of its fields.
fn full_block(lost: i32) -> Block
    requires low { negsuc 8388607 ≤ℤ lost }
    requires high { lost ≤ℤ pos 8388607 }
{
    Block {
        source: Ssrc(u32::MAX),
        fraction: u8::MAX,
        lost,
        highest: u32::MAX,
        jitter: u32::MAX,
        last_sr: u32::MAX,
        delay: u32::MAX,
    }
}

fn three_blocks() -> [Block; 3] {
    [quiet_block(), full_block(-8_388_608), full_block(8_388_607)]
}

/// 1,000 bit/s at an overhead of 40 bytes: exponent 0, mantissa 1000, overhead 40.
fn entry(ssrc: u32) -> TmmbrEntry {
    TmmbrEntry {
        ssrc: Ssrc(ssrc),
        word: 0x0007_d028,
    }
}

/// The packets 65534, 65535 and 0; 7 and the last that its entry may name.
const LOST: [Nack; 2] = [
    Nack { pid: 65534, blp: 3 },
    Nack {
        pid: 7,
        blp: 0x8000,
    },
];

/// Makes the call.
fn write(writer: Writer, out: &mut Vec<u8>) -> Result<(), AllocError> {
    match writer {
        Sr => write_sr(out, Ssrc(257), 0xa_8000_0000, 3000, 1, 2, &[]),
        SrOfThree => write_sr(out, Ssrc(257), u64::MAX, 3000, 1, u32::MAX, &three_blocks()),
        Rr => write_rr(out, Ssrc(9), &[quiet_block()]),
        RrOfThree => write_rr(out, Ssrc(9), &three_blocks()),
        Name => write_sdes_cname(out, Ssrc(9), b"sfu"),
        Bye => write_bye(out, &[Ssrc(18)]),
        Byes => write_bye(out, &[Ssrc(18), Ssrc(0), Ssrc(u32::MAX)]),
        _ => write_feedback(writer, out),
    }
}

fn write_feedback(writer: Writer, out: &mut Vec<u8>) -> Result<(), AllocError> {
    match writer {
        Tmmbn => write_tmmbn(out, Ssrc(1), &[entry(17)]),
        NoEntries => write_tmmbn(out, Ssrc(1), &[]),
        Tmmbr => write_tmmbr(out, Ssrc(17), &[entry(16)]),
        Pli => write_pli(out, Ssrc(9), Ssrc(16)),
        _ => write_nack(out, Ssrc(9), Ssrc(16), &LOST),
    }
}

/// The bytes that it appends to none.
fn written(alloc: Global, writer: Writer) -> Result<Vec<u8>, AllocError> {
    let mut out = Vec::new(alloc);
    write(writer, &mut out)?;
    Ok(out)
}

/// What was written says this, alone and in front of another packet.
fn says_again(
    rt: &impl Abort,
    alloc: Global,
    out: &mut Vec<u8>,
    wanted: &str,
) -> Result<(), AllocError> {
    let text = packets_text(alloc, out.as_slice())?;
    same(rt, &text.as_str().strip_suffix('\n'), &Some(wanted));
    out.extend_from_slice(&BEHIND)?;
    let text = packets_text(alloc, out.as_slice())?;
    same(rt, &text.as_str().strip_suffix(BEHIND_TEXT), &Some(wanted));
    Ok(())
}

/// A writer appends these bytes, which say this.
fn writes(
    rt: &impl Abort,
    alloc: Global,
    writer: Writer,
    digits: &str,
    wanted: &str,
) -> Result<(), AllocError> {
    let mut out = written(alloc, writer)?;
    same(rt, &hex_text(alloc, out.as_slice())?.as_str(), &digits);
    says_again(rt, alloc, &mut out, wanted)
}

/// What the description of 9 by a CNAME of so many letters says: source, type, length and text, and one to four zeros up to a word.
fn description_text(alloc: Global, len: usize) -> Result<String, AllocError> {
    let mut text = String::new(alloc);
    write!(text, "sdes 1 0000000901{len:02x}")?;
    for _letter in 0..len {
        text.push_str("61")?;
    }
    for _zero in len.wrapping_add(2) % 4..4 {
        text.push_str("00")?;
    }
    Ok(text)
}

/// A description by a CNAME of so many letters is read again.
fn name_again(rt: &impl Abort, alloc: Global, len: usize) -> Result<(), AllocError> {
    let letters = [b'a'; CNAME_LIMIT];
    let mut out = Vec::new(alloc);
    write_sdes_cname(&mut out, Ssrc(9), &letters[..len.min(CNAME_LIMIT)])?;
    let wanted = description_text(alloc, len)?;
    says_again(rt, alloc, &mut out, wanted.as_str())
}

/// Each writer, and CNAMEs of each length round a word, of none and the most bytes.
#[test]
fn writers_read_again(rt: HostRuntime) -> Result<(), Fail> {
    assert_eq!(rt; (ENTRY_LIMIT, CNAME_LIMIT), (31, 255));
    for (writer, digits, wanted) in &WRITTEN {
        writes(&rt, rt.alloc(), *writer, digits, wanted)?;
    }
    for len in [0, 1, 2, 3, 4, 5, 254, 255] {
        name_again(&rt, rt.alloc(), len)?;
    }
    Ok(())
}
