//! What feedback packets that are written are in a datagram, over all arguments. The function does nothing: its
//! contract is the law.

ghost use Rattle.std.specs.Prelude.{ℕ, ◌≤◌, List, length};
ghost use Rattle.rtcp_feedback.specs.declared.nack.Nack.{Nack as Lost};
ghost use Rattle.rtcp_feedback.specs.declared.tmmb.TmmbrEntry.{TmmbrEntry as Entry};
ghost use Rattle.rtcp_feedback.specs.Writing.{nack_body, tmmb_body, pli_body};
ghost use Rattle.announcement.specs.Joining.{JoinsCompounds};

use rtcp_feedback::{MAX_ENTRIES, MAX_NACKS};

/// Each packet that a writer of `rtcp_feedback` appends is one whole RTCP packet without padding, which shows its FMT, type and
/// body. So it is read alone, and in front of any datagram, whose packets then follow.
pub fn writers_join_compounds()
    ensures tmmbr { (sender : ℕ) (entries : List Entry) → length entries ≤ MAX_ENTRIES
        → JoinsCompounds 3 205 (tmmb_body sender entries) }
    ensures tmmbn { (sender : ℕ) (entries : List Entry) → length entries ≤ MAX_ENTRIES
        → JoinsCompounds 4 205 (tmmb_body sender entries) }
    ensures pli { (sender media : ℕ) → JoinsCompounds 1 206 (pli_body sender media) }
    ensures nack { (sender media : ℕ) (entries : List Lost) → length entries ≤ MAX_NACKS
        → JoinsCompounds 1 205 (nack_body sender media entries) }
{}
