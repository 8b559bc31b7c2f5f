//! Rooms for tests: those of the worked examples, one with two subscribers, and rooms with any legs; and what endpoints send.

use events::{Job, SharedPacket};
use members::Order;
use settings::{LegParts, Parts, Settings, SettingsFault};
use std::alloc::{AllocError, Global};
use workers::*;

/// The head of each compound of the unit: a receiver report of the source 9, and its CNAME `sfu`.
pub(super) const HEAD: [u8; 24] = [
    0x80, 0xc9, 0, 1, 0, 0, 0, 9, 0x81, 0xca, 0, 3, 0, 0, 0, 9, 1, 3, 0x73, 0x66, 0x75, 0, 0, 0,
];

/// In this leg the stay 1 stands, and packets are sent on.
pub(super) const fn on(leg: u16) -> Order {
    Order::Route {
        leg,
        stay: 1,
        turn: 1,
        on: true,
    }
}

/// An RTP packet with payload type 96, this sequence number, timestamp 3,000, this source and the payload `aabb`.
pub(super) const fn rtp(seq: u8, ssrc: [u8; 2]) -> [u8; 14] {
    [
        0x80, 0x60, 0, seq, 0, 0, 0x0b, 0xb8, 0, 0, ssrc[0], ssrc[1], 0xaa, 0xbb,
    ]
}

/// The job that a packet of the first endpoint makes.
pub(super) fn packet(alloc: Global, seq: u8) -> Result<Job, AllocError> {
    Ok(Job::Packet {
        publisher: 0,
        bytes: SharedPacket::copy_of(alloc, &rtp(seq, [0, 16]))?,
    })
}

/// Whether this datagram went to this endpoint.
pub(super) fn is(datagram: &Datagram, endpoint: u16, bytes: &[u8]) -> bool {
    datagram.endpoint == endpoint && datagram.bytes.as_slice() == bytes
}

/// A leg between these endpoints, on which this source is sent on, and its first sequence number.
#[derive(Clone, Copy)]
pub(super) struct Link {
    pub(super) subscriber: i64,
    pub(super) publisher: i64,
    pub(super) out_ssrc: i64,
    pub(super) first_seq: i64,
}

/// The times of the settings, in milliseconds.
#[derive(Clone, Copy)]
pub(super) struct Times {
    pub(super) timeout: i64,
    pub(super) report: i64,
    pub(super) request: i64,
    pub(super) gap: i64,
}

/// What settings are made of, and how many sends fail of each sink.
#[derive(Clone, Copy)]
pub(super) struct Room {
    pub(super) workers: i64,
    pub(super) endpoints: u8,
    pub(super) links: &'static [Link],
    pub(super) times: Times,
    pub(super) to_fail: &'static [u64],
}

pub(super) const TIMES: Times = Times {
    timeout: 1_000,
    report: 60_000,
    request: 0,
    gap: 500,
};

/// Endpoint 0 sends to endpoint 1, by one worker.
pub(super) const ONE_WORKER: Room = Room {
    workers: 1,
    endpoints: 2,
    links: &[Link {
        subscriber: 1,
        publisher: 0,
        out_ssrc: 257,
        first_seq: 100,
    }],
    times: TIMES,
    to_fail: &[],
};

/// The room of the worked examples: the same with two workers, the first of which has no leg.
pub(super) const ONE_IDLE: Room = Room {
    workers: 2,
    ..ONE_WORKER
};

/// Endpoint 2 sends to the endpoints 0 and 1, each of a worker of its own.
pub(super) const TWO_WORKERS: Room = Room {
    workers: 2,
    endpoints: 3,
    links: &[
        Link {
            subscriber: 0,
            publisher: 2,
            out_ssrc: 257,
            first_seq: 100,
        },
        Link {
            subscriber: 1,
            publisher: 2,
            out_ssrc: 258,
            first_seq: 100,
        },
    ],
    times: TIMES,
    to_fail: &[],
};

/// One worker, and a leg from the first of three endpoints to each other one.
pub(super) const TWO_SUBSCRIBERS: Room = Room {
    workers: 1,
    endpoints: 3,
    links: &[
        Link {
            subscriber: 1,
            publisher: 0,
            out_ssrc: 257,
            first_seq: 100,
        },
        Link {
            subscriber: 2,
            publisher: 0,
            out_ssrc: 258,
            first_seq: 200,
        },
    ],
    times: TIMES,
    to_fail: &[],
};

impl Room {
    pub(super) fn settings(&self, alloc: Global) -> Result<Settings, SettingsFault> {
        settings_with(alloc, self.workers, self.endpoints, self.links, self.times)
    }
}

/// So many endpoints, with the sources 16, 17 and so on.
fn sources_of(alloc: Global, endpoints: u8) -> Result<Vec<Option<i64>>, AllocError> {
    let mut sources = Vec::new(alloc);
    for number in 0..endpoints {
        sources.push(Some(16 + i64::from(number)))?;
    }
    Ok(sources)
}

/// These legs, on.
fn legs_of(alloc: Global, links: &[Link]) -> Result<Vec<LegParts>, AllocError> {
    let mut legs = Vec::new(alloc);
    for link in links {
        legs.push(LegParts {
            subscriber: Some(link.subscriber),
            publisher: Some(link.publisher),
            out_ssrc: Some(link.out_ssrc),
            first_seq: Some(link.first_seq),
            on: None,
        })?;
    }
    Ok(legs)
}

/// What settings are made of.
fn parts_of(
    alloc: Global,
    workers: i64,
    endpoints: u8,
    links: &[Link],
    times: Times,
) -> Result<Parts, AllocError> {
    let sources = sources_of(alloc, endpoints)?;
    let legs = legs_of(alloc, links)?;
    let mut parts = Parts::example(alloc)?;
    parts.workers = Some(workers);
    parts.timeout_ms = Some(times.timeout);
    parts.report_ms = Some(times.report);
    parts.request_ms = Some(times.request);
    parts.pli_gap_ms = Some(times.gap);
    parts.endpoints = sources;
    parts.legs = legs;
    Ok(parts)
}

/// So many workers, endpoints with the sources 16, 17 and so on, these legs, on, and these times; all else as in the examples.
pub(super) fn settings_with(
    alloc: Global,
    workers: i64,
    endpoints: u8,
    links: &[Link],
    times: Times,
) -> Result<Settings, SettingsFault> {
    match parts_of(alloc, workers, endpoints, links, times) {
        Ok(parts) => Settings::new(alloc, &parts),
        Err(AllocError) => Err(SettingsFault::NoMemory),
    }
}

/// A receiver report of this source, without blocks (RFC 3550, section 6.4.2).
pub(super) const fn receiver_report(source: u8) -> [u8; 8] {
    [0x80, 0xc9, 0, 1, 0, 0, 0, source]
}

/// An RTP packet of this source with two bytes of payload (RFC 3550, section 5.1).
pub(super) fn media_packet(source: u8, seq: u16) -> [u8; 14] {
    let [high, low] = seq.to_be_bytes();
    [
        0x80, 0x60, high, low, 0, 0, 0x0b, 0xb8, 0, 0, 0, source, 0xaa, 0xbb,
    ]
}
