//! `sfu bound --sender 1` by the worked examples 1 to 13 and 30 to 33 of docs/EXAMPLES.md, and over streams that fail.
use crate::row::{Ended, Row, assert_ends};
use crate::stream::Stream;
use commands::{ErrorOutput, run_command};
use std::fs::File;
use std::net::{Net, TcpListener, TcpStream};
use std::random::RandomSource;
use std::rt::Files;
use std::sync::Wait;
use std::test::Fail;
use std::thread::Threads;
use std::time::Clock;

/// Lines of datagrams.
const ROWS: [Row; 21] = [
    // Example 1.
    Row {
        read: "83cd00040000001100000000000000010007d028\n",
        printed: "84cd00040000000100000000000000110007d028\n\
            kept 17 0007d028 pair 1000 1001 321\n",
        said: "",
        code: 0,
    },
    // Example 2: no line.
    Row {
        read: "",
        printed: "84cd00020000000100000000\n",
        said: "",
        code: 0,
    },
    // Example 3.
    Row {
        read: "83cd000400000011000000000000000101f40028\n\
            83cd000400000012000000000000000101d4c014\n",
        printed: "84cd000600000001000000000000001201d4c0140000001101f40028\n\
            kept 18 01d4c014 pair 4000 9020001 161\n\
            kept 17 01f40028 pair 68000 8960001 480\n",
        said: "",
        code: 0,
    },
    // Example 4.
    Row {
        read: "83cd000400000011000000000000000101f40028\n\
            83cd000400000012000000000000000101d4c014\n\
            83cd000400000013000000000000000101e4601e\n",
        printed: "84cd000600000001000000000000001201d4c0140000001101f40028\n\
            kept 18 01d4c014 pair 4000 9020001 161\n\
            kept 17 01f40028 pair 68000 8960001 480\n\
            implied 19 01e4601e by 18 17 times 10 10 20\n",
        said: "",
        code: 0,
    },
    // Example 5.
    Row {
        read: "83cd000400000011000000000000000101f40028\n\
            83cd000400000012000000000000000101d4c014\n\
            83cd000400000013000000000000000101e45e1e\n",
        printed: "84cd000800000001000000000000001201d4c0140000001301e45e1e0000001101f40028\n\
            kept 18 01d4c014 pair 1999 4540161 81\n\
            kept 19 01e45e1e pair 4000 8959841 160\n\
            kept 17 01f40028 pair 66001 4479681 400\n",
        said: "",
        code: 0,
    },
    // Example 6: the largest word.
    Row {
        read: "83cd0004000000110000000000000001ffffffff\n",
        printed: "84cd0004000000010000000000000011ffffffff\n\
            kept 17 ffffffff pair 1208916596242592319930368 1208916596242592319930369 4089\n",
        said: "",
        code: 0,
    },
    // Example 7.
    Row {
        read: "83cd000400000012000000000000000100000400\n\
            83cd000400000011000000000000000104000200\n",
        printed: "84cd000400000001000000000000001104000200\n\
            kept 17 04000200 pair 2 3 1\n\
            implied 18 00000400 by 17 17 times 1 0 1\n",
        said: "",
        code: 0,
    },
    // Example 8.
    Row {
        read: "83cd00040000001100000000000000010000c801\n\
            83cd00040000001200000000000000010000c600\n\
            83cd00040000001300000000000000010000d602\n",
        printed: "84cd00080000000100000000000000120000c600000000110000c801000000130000d602\n\
            kept 18 0000c600 pair 1 892 9\n\
            kept 17 0000c801 pair 8 1537 16\n\
            kept 19 0000d602 pair 114 745 24\n",
        said: "",
        code: 0,
    },
    // Example 9.
    Row {
        read: "83cd000400000011000000000000000100000000\n\
            83cd00040000001200000000000000010000c801\n\
            83cd000400000013000000000000000100019002\n",
        printed: "84cd000600000001000000000000001100000000000000120000c801\n\
            kept 17 00000000 pair 0 1 1\n\
            kept 18 0000c801 pair 101 0 8\n\
            implied 19 00019002 by 18 18 times 2 0 1\n",
        said: "",
        code: 0,
    },
    // Example 10.
    Row {
        read: "83cd000400000011000000000000000100000005\n\
            83cd000400000012000000000000000100000001\n\
            83cd00040000001300000000000000010007d028\n",
        printed: "84cd000400000001000000000000001100000005\n\
            kept 17 00000005 pair 0 1 41\n\
            implied 18 00000001 by 17 17 times 1 0 1\n\
            implied 19 0007d028 by 17 17 times 40 0 5\n",
        said: "",
        code: 0,
    },
    // Example 11.
    Row {
        read: "83cd00040000001100000000000000010007d00a\n\
            83cd0004000000120000000000000001000fa014\n",
        printed: "84cd00040000000100000000000000110007d00a\n\
            kept 17 0007d00a pair 1000 1001 81\n\
            implied 18 000fa014 by 17 17 times 20 0 10\n",
        said: "",
        code: 0,
    },
    // Example 12: example 4, and then a goodbye of 18.
    Row {
        read: "83cd000400000011000000000000000101f40028\n\
            83cd000400000012000000000000000101d4c014\n\
            83cd000400000013000000000000000101e4601e\n\
            81cb000100000012\n",
        printed: "84cd000600000001000000000000001301e4601e0000001101f40028\n\
            kept 19 01e4601e pair 2000 4542001 81\n\
            kept 17 01f40028 pair 66000 4480001 400\n",
        said: "",
        code: 0,
    },
    // Example 13: feedback that ends within an entry, a packet that ends early, no whole header, no whole byte.
    Row {
        read: "83cd0003000000110000000000000001\n",
        printed: "",
        said: "line 1: feedback 2\n",
        code: 4,
    },
    Row {
        read: "83cd0004000000\n",
        printed: "",
        said: "line 1: rtcp 3\n",
        code: 4,
    },
    Row {
        read: "83cd00\n",
        printed: "",
        said: "line 1: rtcp 1\n",
        code: 4,
    },
    Row {
        read: "83c\n",
        printed: "",
        said: "line 1: hex\n",
        code: 4,
    },
    // Example 30.
    Row {
        read: "83cd000400000011000000000000000100000000\n",
        printed: "84cd000400000001000000000000001100000000\n\
            kept 17 00000000 pair 0 1 1\n",
        said: "",
        code: 0,
    },
    // Example 31.
    Row {
        read: "83cd00040000001100000000000000010000c600\n",
        printed: "84cd00040000000100000000000000110000c600\n\
            kept 17 0000c600 pair 99 100 1\n",
        said: "",
        code: 0,
    },
    // Example 32: two requests of one line.
    Row {
        read: "83cd00040000001100000000000000010007d028\n\
            83cd00040000001200000000000000010007d028\n",
        printed: "84cd00040000000100000000000000110007d028\n\
            kept 17 0007d028 pair 1000 1001 321\n\
            implied 18 0007d028 by 17 17 times 1 0 1\n",
        said: "",
        code: 0,
    },
    // Example 33: a report and a request in one datagram; and then a goodbye.
    Row {
        read: "80c900010000001183cd00040000001100000000000000010007d028\n",
        printed: "84cd00040000000100000000000000110007d028\n\
            kept 17 0007d028 pair 1000 1001 321\n",
        said: "",
        code: 0,
    },
    Row {
        read: "80c900010000001183cd00040000001100000000000000010007d028\n\
            81cb000100000011\n",
        printed: "84cd00020000000100000000\n",
        said: "",
        code: 0,
    },
];

/// How the command ends that reads and prints by these streams.
pub(crate) fn bound<
    R: AllocGlobal
        + ErrorOutput
        + Files<File = File>
        + Net<Listener = TcpListener, Stream = TcpStream>
        + RandomSource
        + Threads
        + Wait
        + Sync
        + Clock,
>(rt: &R, lines: Stream<'_>, printed: Stream<'_>) -> Result<Ended, Fail> {
    let (mut lines, mut printed) = (lines, printed);
    let mut said = Stream::new(rt.alloc(), "");
    let words = ["sfu", "bound", "--sender", "1"];
    let status = run_command(rt, words.as_slice(), &mut lines, &mut printed, &mut said);
    Ended::with(status, printed, said)
}

#[test]
fn rows_of_bound(rt: HostRuntime) -> Result<(), Fail> {
    let alloc = rt.alloc();
    for row in ROWS.iter() {
        let ended = bound(&rt, Stream::new(alloc, row.read), Stream::new(alloc, ""))?;
        assert_ends(&rt, row, &ended);
    }
    Ok(())
}

/// A reader that fails behind the lines of example 1, and a writer that takes nothing.
#[test]
fn broken_streams_of_bound(rt: HostRuntime) -> Result<(), Fail> {
    let (alloc, lines) = (rt.alloc(), ROWS[0].read);
    let unread = bound(&rt, Stream::broken(alloc, lines), Stream::new(alloc, ""))?;
    let unwritten = bound(&rt, Stream::new(alloc, lines), Stream::broken(alloc, ""))?;
    assert_eq!(rt; (unread.why(), unwritten.why()), (("io\n", 5), ("io\n", 5)));
    assert_eq!(rt; unread.printed.as_str(), "");
    Ok(())
}
