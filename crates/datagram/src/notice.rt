//! What a publisher notifies of (RFC 5104, section 4.2.2).

ghost use Rattle.std.specs.Prelude.{◌≡◌, ◌+◌, ◌<◌, ◌≤◌, ◌∷◌, ◌++◌, [], List, length, option_map, take, vec_capacity, MatchOption};
ghost use Rattle.rtcp_compound.specs.Content.{Content, content_of};
ghost use Rattle.rtcp_feedback.specs.Reading.{entries_in};
ghost use Rattle.rtcp_feedback.specs.declared.tmmb.TmmbrEntry.{TmmbrEntry as Entry};
ghost use Rattle.datagram.specs.Notice.{last_notice, notice_body, notice_in};

use byteorder::{BigEndian, ByteOrder};
use rtcp_compound::{RTPFB, RtcpView};
use rtcp_feedback::{ENTRY_BYTES, FMT_TMMBN, SOURCES_BYTES, TmmbrEntry};
use tmmbr_tuple::Ssrc;

/// Notes the entries of a packet in place of those before, if it is a TMMBN.
pub(crate) fn note_notice(notice: &mut Vec<TmmbrEntry>, most: usize, packet: RtcpView<'_>)
    requires { most ≤ vec_capacity notice.old }
    ensures noted { (done : List Content) → notice.old.items ≡ take most (last_notice done)
        → notice.new.items ≡ take most (last_notice (done ++ content_of packet.entry ∷ [])) }
    ensures room { most ≤ vec_capacity notice.new }
{
    match notice_in(packet) {
        Some(bytes) => set_entries(notice, most, bytes),
        None => {}
    }
}

/// Lists the entries that these bytes are, while there is room.
fn set_entries(entries: &mut Vec<TmmbrEntry>, most: usize, bytes: &[u8])
    requires { most ≤ vec_capacity entries.old }
    ensures listed { entries.new.items ≡ take most (entries_in bytes.now) }
    ensures room { most ≤ vec_capacity entries.new }
{
    entries.clear();
    let mut rest = bytes;
    while let Some((entry, behind)) = first_entry(rest) {
        push_entry(entries, most, entry);
        rest = behind;
    }
}

/// Appends an entry, if there is room.
fn push_entry(entries: &mut Vec<TmmbrEntry>, most: usize, entry: TmmbrEntry)
    requires { most ≤ vec_capacity entries.old }
    ensures listed { (done : List Entry) → entries.old.items ≡ take most done
        → entries.new.items ≡ take most (done ++ entry ∷ []) }
    ensures room { most ≤ vec_capacity entries.new }
{
    if entries.len() < most {
        let _ = entries.push(entry);
    }
}

/// The entries' bytes of a packet, if it is a TMMBN.
fn notice_in(packet: RtcpView<'_>) -> Option<&[u8]>
    ensures { option_map (λ s. s.now) result ≡ notice_in (content_of packet.entry) }
{
    match packet {
        RtcpView::Feedback { fmt, kind, body } => {
            if fmt == FMT_TMMBN && kind == RTPFB {
                notice_body(body)
            } else {
                None
            }
        }
        RtcpView::Sr { .. } => None,
        RtcpView::Rr { .. } => None,
        RtcpView::Sdes { .. } => None,
        RtcpView::Bye { .. } => None,
        RtcpView::Other { .. } => None,
    }
}

/// The bytes of a body after its sources.
fn notice_body(body: &[u8]) -> Option<&[u8]>
    ensures { option_map (λ s. s.now) result ≡ notice_body body.now }
{
    if body.len() >= SOURCES_BYTES {
        Some(&body[SOURCES_BYTES..])
    } else {
        None
    }
}

/// The entry that bytes begin with, and those after it.
#[tactic(auto, using(rtcp_feedback::proofs::EntryLemmas::entries_next, rtcp_feedback::proofs::EntryLemmas::entries_end))]
fn first_entry(bytes: &[u8]) -> Option<(TmmbrEntry, &[u8])>
    ensures entries { MatchOption result (entries_in bytes.now ≡ [])
        (λ r. entries_in bytes.now ≡ r.0 ∷ entries_in r.1.now) }
    ensures shorter { MatchOption result (length bytes.now < 8)
        (λ r. length r.1.now + 8 ≡ length bytes.now) }
{
    let (entry, behind) = bytes.split_at_checked(ENTRY_BYTES)?;
    let entry = TmmbrEntry {
        ssrc: Ssrc(BigEndian::read_u32(entry)),
        word: BigEndian::read_u32(&entry[4..]),
    };
    Some((entry, behind))
}
