//! What is asked for, and what is answered, as docs/FORMATS.md has it.

use std::alloc::{AllocError, Global};
use std::process::Abort;
use std::test::Fail;
use web::{AnnouncedSet, Kind, Said, Verdict, answer_to, asked_for, is_known_host};

const METRICS: &[u8] = b"# TYPE sfu_received_bytes_total counter\n\
    sfu_received_bytes_total{endpoint=\"0\",name=\"a\\\"}\"} 1000\nsfu_sent_bytes_total{endpoint=\"0\",name=\"a\\\"}\"} 0\n\
    sfu_received_bytes_total{endpoint=\"1\"} 20\n";

const PRESENT: &[u8] =
    b"0 ssrc 16 at 127.0.0.1:5004 present heard 340 ms ago refused 17 name a\"}\n\
    1 ssrc 4294967295 at [2001:db8::7]:6000 absent never heard refused 4 receive_only under ssrc 5 name name\n\
    2 ssrc 18 at 127.0.0.1:5006 absent never heard name \x07\n\
    3 ssrc 19 at 127.0.0.1:5008 absent never heard\n";

const LEGS: &[u8] =
    b"0 from 0 to 1 on stay 9 packets 7 octets 700 resent 2 missed 3 next 4 skipped 5 publisher a\"} subscriber name\n\
    1 from 1 to 0 off stay none packets 0 octets 0 resent 0 missed 0 next none\n";

const COUNTS: &[u8] = b"present 1 heard 2 sent 3 failed 4 lost 5 dropped 6 strangers 7 unread 8\n";

const REPORTS: &[u8] =
    b"leg 0 from 0 to 1 fraction 64 lost 12 jitter 90 round_trip_ms 45 heard 1200 ms ago\n\
    publisher 1 fraction 1 lost -3 jitter 7 sent 900 ms ago\n\
    leg 1 from 1 to 0 fraction 256 lost 0 jitter 0 round_trip_ms none heard 1 ms ago\n";

/// Two requests of one rate: that of more overhead allows less. The first line is passed over, as `sfu check` does.
const SET: &[u8] = b"8fcd0004\n\
    kept 3 030d4028 pair 1 99700 1\n\
    live 2 030d4014\n";

/// Puts a set after the others.
fn push_set(
    alloc: Global,
    sets: &mut Vec<AnnouncedSet>,
    publisher: u16,
    text: &[u8],
) -> Result<(), AllocError> {
    let text = text.to_vec(alloc)?;
    sets.push(AnnouncedSet { publisher, text })?;
    Ok(())
}

/// Says all this. The sets are of a publisher whom nobody asks, of one who is asked, and of one for whom an owner is named twice.
fn say(alloc: Global, said: &mut Said) -> Result<(), AllocError> {
    said.metrics.extend_from_slice(METRICS)?;
    said.present.extend_from_slice(PRESENT)?;
    said.legs.extend_from_slice(LEGS)?;
    said.counts.extend_from_slice(COUNTS)?;
    said.reports.extend_from_slice(REPORTS)?;
    said.why.extend_from_slice(b"leg 1 from 1 to 0: off\n")?;
    push_set(alloc, &mut said.sets, 1, b"")?;
    push_set(alloc, &mut said.sets, 0, SET)?;
    push_set(
        alloc,
        &mut said.sets,
        2,
        b"live 5 030d4014\nlive 5 030d4014\n",
    )?;
    Ok(())
}

/// A unit that said nothing.
fn nothing_said(alloc: Global) -> Said {
    Said {
        moment_ms: 4_000,
        metrics: Vec::new(alloc),
        present: Vec::new(alloc),
        legs: Vec::new(alloc),
        counts: Vec::new(alloc),
        reports: Vec::new(alloc),
        why: Vec::new(alloc),
        sets: Vec::new(alloc),
    }
}

/// A unit that said all this.
fn unit_said(alloc: Global) -> Result<Option<Said>, AllocError> {
    let mut said = nothing_said(alloc);
    say(alloc, &mut said)?;
    Ok(Some(said))
}

/// What a client is told: the status, and the body as text.
fn told(
    rt: &impl AllocGlobal,
    method: &[u8],
    path: &[u8],
    said: &Option<Said>,
) -> Result<(u16, String), Fail> {
    let answer = answer_to(rt.alloc(), asked_for(method, path), said)?;
    let mut text = String::new(rt.alloc());
    text.push_str(word_of(answer.kind))?;
    text.push_str(str::from_utf8(answer.body.as_slice()).or(Err("no text"))?)?;
    Ok((number_of(answer.verdict), text))
}

fn number_of(verdict: Verdict) -> u16 {
    match verdict {
        Verdict::Fine => 200,
        Verdict::Absent => 404,
        Verdict::Unallowed => 405,
        Verdict::Misdirected => 421,
        Verdict::Unreadable => 502,
        Verdict::Silent => 503,
    }
}

fn word_of(kind: Kind) -> &'static str {
    match kind {
        Kind::Html => "html ",
        Kind::Metrics => "metrics ",
        Kind::Json => "json ",
        Kind::Svg => "svg ",
        Kind::Plain => "plain ",
    }
}

/// What is told has this status, and these parts.
fn expect_parts(
    rt: &impl AllocGlobal,
    path: &[u8],
    said: &Option<Said>,
    status: u16,
    parts: &[&str],
) -> Result<(), Fail> {
    let (given, body) = told(rt, b"GET", path, said)?;
    if given != status {
        return Err(Fail::from("another status"));
    }
    if parts.iter().all(|part| body.as_str().contains(*part)) {
        Ok(())
    } else {
        Err(Fail::from("a part is missing"))
    }
}

/// What a client is told has this status and this text.
fn tells(
    rt: &(impl AllocGlobal + Abort),
    method: &[u8],
    path: &[u8],
    said: &Option<Said>,
    wanted: (u16, &str),
) -> Result<(), Fail> {
    let (given, body) = told(rt, method, path, said)?;
    assert_eq!(rt; (given, body.as_str()), wanted);
    Ok(())
}

/// A method, a path, and what is told.
const PATHS: [(&[u8], &[u8], (u16, &str)); 8] = [
    (b"GET", b"/metrics", (200, COUNTED)),
    (b"HEAD", b"/metrics", (200, COUNTED)),
    (b"POST", b"/metrics", (405, "plain method not allowed\n")),
    (b"get", b"/metrics", (405, "plain method not allowed\n")),
    (b"GET", b"/metrics/", (404, "plain not found\n")),
    (b"GET", b"/../state.json", (404, "plain not found\n")),
    (b"GET", b"/state.json", (200, STATE)),
    (b"GET", b"/why", (200, "plain leg 1 from 1 to 0: off\n")),
];

/// What the unit said for `metrics`, as it is.
const COUNTED: &str = "metrics # TYPE sfu_received_bytes_total counter\n\
    sfu_received_bytes_total{endpoint=\"0\",name=\"a\\\"}\"} 1000\nsfu_sent_bytes_total{endpoint=\"0\",name=\"a\\\"}\"} 0\n\
    sfu_received_bytes_total{endpoint=\"1\"} 20\n";

const STATE: &str = "json {\"moment_ms\":4000,\"endpoints\":[\
    {\"number\":0,\"ssrc\":16,\"address\":\"127.0.0.1:5004\",\"present\":true,\"heard_ago_ms\":340,\"name\":\"a\\\"}\",\"refused\":17,\"heard_octets\":1000,\"sent_octets\":0,\"fraction_lost\":null,\"jitter\":null,\"reported_ago_ms\":null},\
    {\"number\":1,\"ssrc\":4294967295,\"address\":\"[2001:db8::7]:6000\",\"present\":false,\"heard_ago_ms\":null,\"name\":\"name\",\"refused\":4,\"heard_octets\":20,\"sent_octets\":null,\"fraction_lost\":1,\"jitter\":7,\"reported_ago_ms\":900},\
    {\"number\":2,\"ssrc\":18,\"address\":\"127.0.0.1:5006\",\"present\":false,\"heard_ago_ms\":null,\"name\":null,\"refused\":null,\"heard_octets\":null,\"sent_octets\":null,\"fraction_lost\":null,\"jitter\":null,\"reported_ago_ms\":null},\
    {\"number\":3,\"ssrc\":19,\"address\":\"127.0.0.1:5008\",\"present\":false,\"heard_ago_ms\":null,\"name\":null,\"refused\":null,\"heard_octets\":null,\"sent_octets\":null,\"fraction_lost\":null,\"jitter\":null,\"reported_ago_ms\":null}],\
    \"legs\":[\
    {\"leg\":0,\"publisher\":0,\"subscriber\":1,\"on\":true,\"stay\":9,\"publisher_name\":\"a\\\"}\",\"subscriber_name\":\"name\",\"packets\":7,\"octets\":700,\"resent\":2,\"missed\":3,\"next\":4,\"fraction_lost\":64,\"jitter\":90,\"round_trip_ms\":45,\"reported_ago_ms\":1200},\
    {\"leg\":1,\"publisher\":1,\"subscriber\":0,\"on\":false,\"stay\":null,\"publisher_name\":null,\"subscriber_name\":null,\"packets\":0,\"octets\":0,\"resent\":0,\"missed\":0,\"next\":null,\"fraction_lost\":null,\"jitter\":null,\"round_trip_ms\":null,\"reported_ago_ms\":null}],\
    \"counts\":{\"present\":1,\"heard\":2,\"sent\":3,\"failed\":4,\"lost\":5,\"dropped\":6,\"strangers\":7,\"unread\":8}}";

fn tells_all(rt: &(impl AllocGlobal + Abort), said: &Option<Said>) -> Result<(), Fail> {
    for (method, path, wanted) in &PATHS {
        tells(rt, method, path, said, *wanted)?;
    }
    Ok(())
}

/// A path, and the status and the parts of what is told.
type Shown = (&'static [u8], u16, &'static [&'static str]);

/// Each path has its parts.
fn expect_all(rt: &impl AllocGlobal, said: &Option<Said>, shown: &[Shown]) -> Result<(), Fail> {
    for (path, status, parts) in shown {
        expect_parts(rt, path, said, *status, parts)?;
    }
    Ok(())
}

const SILENT: &[&str] = &["plain the unit does not answer\n"];

const NOT_FOUND: &[&str] = &["plain not found\n"];

/// The page is there whatever the unit says.
const PAGE: Shown = (b"/", 200, &["html <!doctype html>", "</html>\n"]);

/// Which path gives what, by which method; and if the unit says nothing.
#[test]
fn answers_by_path(rt: HostRuntime) -> Result<(), Fail> {
    let said = unit_said(rt.alloc())?;
    tells_all(&rt, &said)?;
    expect_all(&rt, &said, &[PAGE])?;
    expect_all(
        &rt,
        &None,
        &[
            PAGE,
            (b"/metrics", 503, SILENT),
            (b"/state.json", 503, SILENT),
            (b"/publishers/0.svg", 503, SILENT),
        ],
    )
}

const PICTURES: [Shown; 7] = [
    (
        b"/publishers/0.svg",
        200,
        &[
            "svg <svg",
            "Asked of media sender 16<",
            "1 of 2 live requests kept",
            "owner 3: 100000 bit/s, 40 bytes",
        ],
    ),
    (b"/publishers/1.svg", 200, &["0 of 0 live requests kept"]),
    (b"/publishers/2.svg", 502, &["plain no set\n"]),
    (b"/publishers/4.svg", 404, NOT_FOUND),
    (b"/publishers/3.svg", 503, SILENT),
    (b"/publishers/x.svg", 404, NOT_FOUND),
    (b"/publishers/0", 404, NOT_FOUND),
];

/// A publisher's picture is of the set that is announced to it; without requests it is empty. Who isn't there has none, and what names an
/// owner twice is no set.
#[test]
fn draws_sets(rt: HostRuntime) -> Result<(), Fail> {
    let said = unit_said(rt.alloc())?;
    expect_all(&rt, &said, &PICTURES)
}

/// Addresses, localhost and the given name are known, with a port or without.
#[test]
fn knows_hosts(rt: HostRuntime) -> Result<(), Fail> {
    for host in [
        "127.0.0.1:9190",
        "10.1.2.3",
        "[::1]:9190",
        "[2001:db8::7]",
        "localhost",
        "localhost:9190",
        "sfu.example",
        "sfu.example:80",
    ] {
        assert!(rt; is_known_host(b"sfu.example", host.as_bytes()));
    }
    for host in [
        "",
        ":80",
        "evil.example",
        "localhost.evil.example",
        "127.0.0.1.evil.example:9190",
        "sfu.example.org",
    ] {
        assert!(rt; !is_known_host(b"sfu.example", host.as_bytes()));
    }
    Ok(())
}
