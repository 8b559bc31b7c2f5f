//! What was received of one publisher, and the report block that says so.

ghost use Rattle.std.specs.Prelude.{◌≡◌, ◌↔◌, IfNone, IsNone};

use crate::stream::{self, Stream, WORD_VALUES};
use rewrite::SEQ_CYCLE;
use rtcp_compound::Block;
use std::marker::Model;
use tmmbr_tuple::Ssrc;

/// A sender report that was heard (RFC 3550, section 6.4.1).
#[derive(Clone, Copy)]
pub struct SenderReport {
    /// When it came, in milliseconds.
    pub moment: u64,
    /// Its NTP timestamp, in units of 2^-32 second.
    pub ntp: u64,
    /// Its RTP timestamp.
    pub rtp: u32,
}

/// What was received of a publisher since it came: its packets, and its last sender report. A new one
/// has heard nothing. Moments are in milliseconds.
#[derive(Clone, Copy)]
pub struct Reception {
    /// The packets; `None` before any.
    stream: Option<Stream>,
    /// The last sender report; `None` before any.
    report: Option<SenderReport>,
}

impl Model for Reception {
    ghost use Rattle.std.specs.Option.{ForSome};
    ghost use Rattle.members.specs.Reception.{Heard};
    ghost use Rattle.members.specs.Stream.{IsCounted};

    ghost Value = { Heard };

    ghost view = { λ r. record { stream = r.stream; report = r.report } };

    ghost inverse = { λ h. record { stream = h.stream; report = h.report } };

    ghost invariant = { λ r. ForSome r.stream IsCounted };
}

impl Reception {
    ghost use Rattle.members.specs.Stream.{nothing_heard, heard_packet, heard_report, heard_block, IsBlockAnswer, timestamps_of};

    /// Nothing was received yet.
    pub const fn new() -> Reception
        ensures { result ≡ nothing_heard }
    {
        Reception {
            stream: None,
            report: None,
        }
    }

    /// A packet came at this moment, with this sequence number and timestamp. The first
    /// `COUNTED_PACKETS` count; a later one changes nothing.
    pub fn received(&mut self, moment: u64, seq: u16, timestamp: u32)
        ensures { self.new ≡ heard_packet self.old moment seq timestamp }
    {
        let transit = stream::transit(moment, timestamp);
        match &mut self.stream {
            Some(stream) => stream.count(seq, transit),
            None => self.stream = Some(Stream::begin(seq, transit)),
        }
    }

    /// A sender report came at this moment, with these timestamps.
    pub fn sender_report(&mut self, moment: u64, ntp: u64, rtp: u32)
        ensures { self.new ≡ heard_report self.old moment ntp rtp }
    {
        self.report = Some(SenderReport { moment, ntp, rtp });
    }

    /// The report block about this source, at this moment; `None` exactly if no packet was received,
    /// and then nothing changes. The next block's interval begins where this one's ends.
    ///
    /// A moment before the last sender report's counts as that report's own.
    pub fn block(&mut self, moment: u64, source: Ssrc) -> Option<Block>
        ensures answer { IsBlockAnswer self.old moment source result }
        ensures none { IsNone result ↔ (self.old.stream ≡ None) }
        ensures kept { self.new ≡ heard_block self.old }
        ensures unchanged { IfNone result (self.new ≡ self.old) }
    {
        let mut stream = self.stream?;
        let (last_sr, delay) = match self.report {
            Some(report) => (report.middle(), report.delay(moment)),
            None => (0, 0),
        };
        let block = Block {
            source,
            fraction: stream.fraction_lost(),
            lost: stream::lost(stream.expected(), stream.received),
            highest: ((stream.max_seq - SEQ_CYCLE) % WORD_VALUES) as u32,
            jitter: (stream.jitter / 16) as u32,
            last_sr,
            delay,
        };
        stream.close();
        self.stream = Some(stream);
        Some(block)
    }

    /// The last sender report's NTP and RTP timestamps; `None` if none came.
    pub fn last_sr(&self) -> Option<(u64, u32)>
        ensures { result ≡ timestamps_of self.now.report }
    {
        self.report.map(|report| (report.ntp, report.rtp))
    }
}

impl SenderReport {
    ghost use Rattle.members.specs.Reception.{middle_of, delay_of};

    /// The middle 32 bits of its NTP timestamp.
    fn middle(&self) -> u32
        ensures { result ≡ middle_of self.now.ntp }
    {
        (self.ntp / (1 << 16) % WORD_VALUES) as u32
    }

    /// How long ago it came, in units of 1/65536 second modulo 2^32.
    fn delay(&self, moment: u64) -> u32
        ensures { result ≡ delay_of self.now.moment moment }
    {
        let since = u128::from(moment.saturating_sub(self.moment));
        (since * 65536 / 1000 % u128::from(WORD_VALUES)) as u32
    }
}
