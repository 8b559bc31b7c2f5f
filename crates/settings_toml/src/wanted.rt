//! What may stand at each key of a settings file.

ghost use Rattle.std.specs.Prelude.{◌≡◌, ◌++◌, IfOk, string_bytes};
ghost use Rattle.std.specs.Fmt.{decimal};
ghost use Rattle.settings_toml.specs.SettingsFaults.{spot_of};
ghost use Rattle.settings_toml.specs.Noticed.{is_known};
ghost use Rattle.settings_toml.specs.Wanted.{endpoint_rows, kind_words, leg_rows, names_of, whose_keys, top_rows, wanted_at, wanted_in, wanted_words};

use crate::settings_keys::Place;
use std::alloc::{AllocError, Global};

/// The keys of the settings.
pub(crate) const TOP_KEYS: [&str; 26] = [
    "endpoint",
    "leg",
    "cname",
    "early_pictures",
    "entry_limit",
    "flood_limit",
    "history",
    "leg_goodbyes",
    "listen",
    "listen_rtcp",
    "new_starts",
    "pli_gap_ms",
    "repeat_ms",
    "report_ms",
    "report_slots",
    "request_gap_ms",
    "request_ms",
    "resend_gap_ms",
    "resend_share",
    "ring",
    "stall_ms",
    "strict_ssrc",
    "tick_ms",
    "timeout_ms",
    "unit_ssrc",
    "workers",
];

/// Those of an endpoint.
pub(crate) const ENDPOINT_KEYS: [&str; 9] = [
    "address",
    "cname",
    "fmtp",
    "learn_from",
    "name",
    "receive_only",
    "rtcp_address",
    "rtpmap",
    "ssrc",
];

/// Those of a leg.
pub(crate) const LEG_KEYS: [&str; 5] = ["first_seq", "on", "out_ssrc", "publisher", "subscriber"];

/// What a key takes.
#[derive(Clone, Copy, PartialEq, Eq)]
pub(crate) enum Wanted {
    /// A whole number from the first to the second.
    Whole(u64, u64),
    /// 0, or a whole number from the first to the second.
    WholeOrZero(u64, u64),
    /// A source up to this one, or one that is learned.
    Source(u64),
    /// A name of one to so many characters.
    Name(u64),
    /// One of so many characters that labels, lines and pages show as they are.
    Label(u64),
    /// One to so many tables of endpoints.
    Endpoints(u64),
    /// Up to so many tables of legs.
    Legs(u64),
    Other(Kind),
}

/// What a key takes of which no number has to be told.
#[derive(Clone, Copy, PartialEq, Eq)]
pub(crate) enum Kind {
    Truth,
    Listen,
    ListenRtcp,
    Address,
    RtcpAddress,
    Network,
    ReceiveOnly,
    Encodings,
    Formats,
    Subscriber,
    Publisher,
}

/// What the key of a place takes; `None` if there is no such key.
pub(crate) fn wanted_of(place: Place<'_>) -> Option<Wanted>
    ensures { result ≡ wanted_at (spot_of place.entry) }
{
    match place {
        Place::Top(key) => wanted_top(key),
        Place::Endpoint(_, key) => wanted_endpoint(key),
        Place::Leg(_, key) => wanted_leg(key),
        Place::Sources => None,
    }
}

/// Whether there is such a key where this place is.
pub(crate) fn is_known(place: Place<'_>, key: &str) -> bool
    ensures { result ≡ is_known (spot_of place.entry) key.now }
{
    match place {
        Place::Top(_) => wanted_top(key).is_some(),
        Place::Endpoint(_, _) => wanted_endpoint(key).is_some(),
        Place::Leg(_, _) => wanted_leg(key).is_some(),
        Place::Sources => wanted_top(key).is_some(),
    }
}

fn wanted_top(key: &str) -> Option<Wanted>
    ensures { result ≡ wanted_in top_rows key.now }
{
    match key {
        "endpoint" => Some(Wanted::Endpoints(256)),
        "leg" => Some(Wanted::Legs(4096)),
        "cname" => Some(Wanted::Name(255)),
        "early_pictures" => Some(Wanted::Other(Kind::Truth)),
        "entry_limit" => Some(Wanted::Whole(0, 65_535)),
        "flood_limit" => Some(Wanted::Whole(0, 1_000_000)),
        "history" => Some(Wanted::Whole(128, 65_536)),
        "leg_goodbyes" => Some(Wanted::Other(Kind::Truth)),
        "listen" => Some(Wanted::Other(Kind::Listen)),
        "listen_rtcp" => Some(Wanted::Other(Kind::ListenRtcp)),
        "new_starts" => Some(Wanted::Other(Kind::Truth)),
        "pli_gap_ms" => Some(Wanted::Whole(0, 86_400_000)),
        "repeat_ms" => Some(Wanted::WholeOrZero(100, 60_000)),
        "report_ms" => Some(Wanted::Whole(1, 86_400_000)),
        "report_slots" => Some(Wanted::Whole(1, 1000)),
        "request_gap_ms" => Some(Wanted::Whole(0, 60_000)),
        "request_ms" => Some(Wanted::Whole(0, 86_400_000)),
        "resend_gap_ms" => Some(Wanted::Whole(0, 60_000)),
        "resend_share" => Some(Wanted::Whole(0, 100)),
        "ring" => Some(Wanted::Whole(1, 512)),
        "stall_ms" => Some(Wanted::WholeOrZero(100, 60_000)),
        "strict_ssrc" => Some(Wanted::Other(Kind::Truth)),
        "tick_ms" => Some(Wanted::Whole(1, 1000)),
        "timeout_ms" => Some(Wanted::Whole(1, 86_400_000)),
        "unit_ssrc" => Some(Wanted::Whole(0, 4_294_967_295)),
        "workers" => Some(Wanted::Whole(1, 8)),
        _ => None,
    }
}

fn wanted_endpoint(key: &str) -> Option<Wanted>
    ensures { result ≡ wanted_in endpoint_rows key.now }
{
    match key {
        "address" => Some(Wanted::Other(Kind::Address)),
        "cname" => Some(Wanted::Name(255)),
        "fmtp" => Some(Wanted::Other(Kind::Formats)),
        "learn_from" => Some(Wanted::Other(Kind::Network)),
        "name" => Some(Wanted::Label(32)),
        "receive_only" => Some(Wanted::Other(Kind::ReceiveOnly)),
        "rtcp_address" => Some(Wanted::Other(Kind::RtcpAddress)),
        "rtpmap" => Some(Wanted::Other(Kind::Encodings)),
        "ssrc" => Some(Wanted::Source(4_294_967_295)),
        _ => None,
    }
}

fn wanted_leg(key: &str) -> Option<Wanted>
    ensures { result ≡ wanted_in leg_rows key.now }
{
    match key {
        "first_seq" => Some(Wanted::Whole(0, 65_535)),
        "on" => Some(Wanted::Other(Kind::Truth)),
        "out_ssrc" => Some(Wanted::Whole(0, 4_294_967_295)),
        "publisher" => Some(Wanted::Other(Kind::Publisher)),
        "subscriber" => Some(Wanted::Other(Kind::Subscriber)),
        _ => None,
    }
}

/// What is taken, as it goes on after "no".
pub(crate) fn wanted_text(alloc: Global, wanted: Wanted) -> Result<String, AllocError>
    ensures { IfOk result (λ text. string_bytes text ≡ wanted_words wanted) }
{
    match wanted {
        Wanted::Whole(least, most) => format!(in alloc; "whole number from {least} to {most}"),
        Wanted::WholeOrZero(least, most) => {
            format!(in alloc; "whole number from {least} to {most}, nor 0")
        }
        Wanted::Source(most) => counted(
            alloc,
            "whole number from 0 to ",
            most,
            ", nor \"learn\" beside an address of its own",
        ),
        Wanted::Name(most) => counted(
            alloc,
            "text of 1 to ",
            most,
            " ASCII characters, as \"sfu@192.0.2.1\"",
        ),
        Wanted::Label(most) => counted(
            alloc,
            "text of 1 to ",
            most,
            " letters, digits, dots, hyphens and underscores, as \"ann-camera\"",
        ),
        Wanted::Endpoints(most) => {
            counted(
                alloc,
                "list of 1 to ",
                most,
                " tables, each under [[endpoint]]",
            )
        }
        Wanted::Legs(most) => {
            counted(alloc, "list of up to ", most, " tables, each under [[leg]]")
        }
        Wanted::Other(kind) => String::from_str(alloc, kind_words(kind)),
    }
}

/// The number between the two texts.
pub(crate) fn counted(
    alloc: Global,
    front: &str,
    count: u64,
    behind: &str,
) -> Result<String, AllocError>
    ensures { IfOk result (λ text.
        string_bytes text ≡ front.now ++ (decimal count ++ behind.now)) }
{
    format!(in alloc; "{front}{count}{behind}")
}

fn kind_words(kind: Kind) -> &'static str
    ensures { result.now ≡ kind_words kind }
{
    match kind {
        Kind::Truth => "true or false",
        Kind::Listen => "IP address and port, as \"192.0.2.1:5004\"",
        Kind::ListenRtcp => "IP address and port of the version of listen, as \"192.0.2.1:5005\"",
        Kind::Address => "IP address and port, as \"192.0.2.7:6000\", nor \"learn\"",
        Kind::RtcpAddress => "IP address and port beside an address, as \"192.0.2.7:6001\"",
        Kind::Network => "network beside address = \"learn\", as \"192.0.2.0/24\"",
        Kind::ReceiveOnly => "true beside an address, or false",
        Kind::Encodings => "list of texts, as [\"96 H264/90000\"]",
        Kind::Formats => "list of texts, as [\"96 packetization-mode=1\"]",
        Kind::Subscriber => "number of an endpoint",
        Kind::Publisher => {
            "number of another endpoint than the subscriber, with one leg between the two"
        }
    }
}

/// The keys that there are where this place is, but for those of tables.
pub(crate) fn keys(place: Place<'_>) -> &'static str
    ensures { result.now ≡ names_of (spot_of place.entry) }
{
    match place {
        Place::Endpoint(_, _) => {
            "address, cname, fmtp, learn_from, name, receive_only, rtcp_address, rtpmap and ssrc"
        }
        Place::Leg(_, _) => "first_seq, on, out_ssrc, publisher and subscriber",
        Place::Top(_) | Place::Sources => {
            "cname, early_pictures, entry_limit, flood_limit, history, leg_goodbyes, listen, listen_rtcp, new_starts, pli_gap_ms, repeat_ms, report_ms, report_slots, request_gap_ms, request_ms, resend_gap_ms, resend_share, ring, stall_ms, strict_ssrc, tick_ms, timeout_ms, unit_ssrc and workers"
        }
    }
}

/// What has the keys of this place.
pub(crate) fn owner(place: Place<'_>) -> &'static str
    ensures { result.now ≡ whose_keys (spot_of place.entry) }
{
    match place {
        Place::Endpoint(_, _) => "an endpoint",
        Place::Leg(_, _) => "a leg",
        Place::Top(_) | Place::Sources => "the settings",
    }
}
