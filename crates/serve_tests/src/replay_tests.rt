//! Scripts of `sfu replay` by the worked examples 20 to 24 and 42 to 47 of docs/EXAMPLES.md.
use crate::row::{Ended, Row, assert_ends};
use crate::stream::Stream;
use commands::{FileSettings, read_settings, replay_lines};
use settings::Settings;
use std::alloc::{AllocError, Global};
use std::test::Fail;

/// The keys of `examples/room.toml` that some examples change.
const PLAIN: &str = "timeout_ms = 1000\nreport_ms = 60000\n";

/// With reports.
const REPORTING: &str = "timeout_ms = 1000\nreport_ms = 100\n";

/// With requests that age.
const AGEING: &str = "timeout_ms = 5000\nreport_ms = 60000\nrequest_ms = 1000\n";

/// The others.
const OTHERS: &str =
    "workers = 2\nring = 8\nhistory = 128\npli_gap_ms = 500\nunit_ssrc = 9\ncname = \"sfu\"\n\
    [[endpoint]]\nssrc = 16\n\
    [[endpoint]]\nssrc = 17\n\
    [[leg]]\nsubscriber = 1\npublisher = 0\nout_ssrc = 257\nfirst_seq = 100\n";

/// Scripts, each with keys of the room that it is played in.
const ROWS: [(&str, Row); 9] = [
    // Example 20.
    (
        PLAIN,
        Row {
            read: "hear 0 0 8060000700000bb800000010aabb\n\
            settle\n\
            hear 0 1 80c9000100000011\n\
            settle\n\
            hear 10 1 83cd00040000001100000000000001010007d028\n\
            ingress\n\
            hear 20 1 81cb000100000011\n\
            ingress\n\
            ingress\n\
            work 1\n\
            work 1\n\
            show 0\n",
            printed: "refused desk 1\n\
            84cd00020000001000000000\n",
            said: "",
            code: 0,
        },
    ),
    // Examples 21 to 23, one after the other.
    (
        PLAIN,
        Row {
            read: "hear 0 0 8060000700000bb800000010aabb\n\
            settle\n\
            hear 0 1 80c9000100000011\n\
            settle\n\
            hear 10 1 83cd00040000001100000000000001010007d028\n\
            settle\n\
            hear 30 0 8060000800000bb800000010aabb\n\
            settle\n\
            hear 40 1 81cd0003000000110000010100640001\n\
            settle\n\
            hear 50 1 81cb000100000011\n\
            settle\n\
            show 0\n",
            printed: "send 0 80c900010000000981ca000300000009010373667500000083cd00040000001100000000000000100007d028\n\
            send 1 80c900010000000981ca000300000009010373667500000084cd00040000010100000000000000110007d028\n\
            send 1 8060006400000bb800000101aabb\n\
            send 1 8060006400000bb800000101aabb\n\
            miss 0 101\n\
            send 0 80c900010000000981ca000300000009010373667500000083cd0004000000110000000000000010fffffe00\n\
            84cd00020000001000000000\n",
            said: "",
            code: 0,
        },
    ),
    // Example 24.
    (
        PLAIN,
        Row {
            read: "hear 0 0 80c9000100000010\n\
            hear 0 1 80c9000100000011\n\
            tick 5\n",
            printed: "busy\n",
            said: "",
            code: 0,
        },
    ),
    // Example 42.
    (
        REPORTING,
        Row {
            read: "hear 0 0 8060000700000bb800000010aabb\n\
            settle\n\
            hear 0 1 80c9000100000011\n\
            settle\n\
            hear 20 0 80c80006000000100000000a8000000000000bb80000000100000002\n\
            hear 30 0 8060000800000bb800000010aabb\n\
            settle\n\
            tick 99\n\
            settle\n\
            tick 100\n\
            settle\n",
            printed: "send 1 8060006400000bb800000101aabb\n\
            send 0 81c9000700000009000000100000000000000008000000a8000a80000000147a81ca0003000000090103736675000000\n\
            send 1 80c900010000000981ca0003000000090103736675000000\n\
            send 1 80c80006000001010000000a8000000000000bb8000000010000000281ca0003000001010103736675000000\n",
            said: "",
            code: 0,
        },
    ),
    // Example 43.
    (
        PLAIN,
        Row {
            read: "hear 0 0 8060000700000bb800000010aabb\n\
            settle\n\
            hear 0 1 80c9000100000011\n\
            settle\n\
            hear 10 1 83cd00060000001100000000000001010007d028000003e70007d028\n\
            settle\n",
            printed: "refused room 3\n\
            send 0 80c900010000000981ca000300000009010373667500000083cd00040000001100000000000000100007d028\n\
            send 1 80c900010000000981ca000300000009010373667500000084cd00040000010100000000000000110007d028\n",
            said: "",
            code: 0,
        },
    ),
    // Example 44.
    (
        PLAIN,
        Row {
            read: "hear 0 0 8060000700000bb800000010aabb\n\
            settle\n\
            hear 0 1 80c9000100000011\n\
            settle\n\
            hear 10 1 83cd00060000001100000000000001010007d028000001010007d00a\n\
            settle\n",
            printed: "send 0 80c900010000000981ca000300000009010373667500000083cd00040000001100000000000000100007d028\n\
            send 1 80c900010000000981ca000300000009010373667500000084cd00040000010100000000000000110007d028\n\
            send 0 80c900010000000981ca000300000009010373667500000083cd00040000001100000000000000100007d00a\n\
            send 1 80c900010000000981ca000300000009010373667500000084cd00040000010100000000000000110007d00a\n",
            said: "",
            code: 0,
        },
    ),
    // Example 45. One pulse waits then: of two steps of the ingress the second has nothing to do.
    (
        PLAIN,
        Row {
            read: "hear 0 1 80c9000100000010\n\
            hear 0 1 80c900010000001183cd0003000000110000000000000101\n\
            hear 0 1 81cb000100000063\n\
            tick 0\n\
            ingress\n\
            ingress\n",
            printed: "refused room 2\n\
            refused feedback 2\n\
            idle\n",
            said: "",
            code: 0,
        },
    ),
    // Example 47.
    (
        AGEING,
        Row {
            read: "hear 0 0 8060000700000bb800000010aabb\n\
            settle\n\
            hear 0 1 80c9000100000011\n\
            settle\n\
            hear 10 1 83cd00040000001100000000000001010007d028\n\
            settle\n\
            tick 999\n\
            settle\n\
            tick 1000\n\
            settle\n",
            printed: "send 0 80c900010000000981ca000300000009010373667500000083cd00040000001100000000000000100007d028\n\
            send 1 80c900010000000981ca000300000009010373667500000084cd00040000010100000000000000110007d028\n\
            send 0 80c900010000000981ca000300000009010373667500000083cd0004000000110000000000000010fffffe00\n\
            send 1 80c900010000000981ca000300000009010373667500000084cd00020000010100000000\n",
            said: "",
            code: 0,
        },
    ),
    // A line that is no command.
    (
        PLAIN,
        Row {
            read: "ingress\n\
            dance\n\
            show 0\n",
            printed: "idle\n",
            said: "line 2: text\n",
            code: 4,
        },
    ),
];

/// How a script ends in this room.
fn replayed(alloc: Global, room: &Settings, script: &str) -> Result<Ended, Fail> {
    let mut script = Stream::new(alloc, script);
    let mut printed = Stream::new(alloc, "");
    let mut said = Stream::new(alloc, "");
    let status = replay_lines(alloc, room, &mut script, &mut printed, &mut said);
    Ended::with(status, printed, said)
}

#[test]
fn rows_of_replay(rt: HostRuntime) -> Result<(), Fail> {
    let alloc = rt.alloc();
    for (keys, row) in ROWS.iter() {
        let room = room(alloc, keys)?;
        let ended = replayed(alloc, &room, row.read)?;
        assert_ends(&rt, row, &ended);
    }
    Ok(())
}

/// These texts, the second of them so many times.
fn repeated(alloc: Global, once: &str, again: &str, times: u32) -> Result<String, AllocError> {
    let mut text = String::new(alloc);
    text.push_str(once)?;
    for _ in 0..times {
        text.push_str(again)?;
    }
    Ok(text)
}

/// The script of example 46: both come, and then 1,025 packets for worker 1, in whose ring 1,024 have room.
fn flood(alloc: Global) -> Result<String, AllocError> {
    let both = "hear 0 0 8060000700000bb800000010aabb\nsettle\nhear 0 1 80c9000100000011\nsettle\n";
    let packet = "hear 0 0 8060000700000bb800000010aabb\ningress\n";
    let mut script = repeated(alloc, both, packet, 1_025)?;
    script.push_str("settle\n")?;
    Ok(script)
}

/// Example 46.
#[test]
fn flood_of_replay(rt: HostRuntime) -> Result<(), Fail> {
    let alloc = rt.alloc();
    let ended = replayed(alloc, &room(alloc, PLAIN)?, flood(alloc)?.as_str())?;
    let sent = "send 1 8060006400000bb800000101aabb\n";
    let wanted = repeated(alloc, "lost 1\n", sent, 1_024)?;
    assert!(rt; ended.printed.as_str() == wanted.as_str());
    assert_eq!(rt; ended.why(), ("", 0));
    Ok(())
}

/// The settings of a room with these keys.
fn room(alloc: Global, keys: &str) -> Result<Settings, Fail> {
    let text = format!(in alloc; "{keys}{OTHERS}")?;
    match read_settings(alloc, text.as_bytes()) {
        Ok(FileSettings { settings, .. }) => Ok(settings),
        Err(_) => Err(Fail::from("settings")),
    }
}
