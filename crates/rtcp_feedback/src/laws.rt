//! What is read of what is written, over all arguments. These functions do nothing: their contracts are
//! the laws.

ghost use Rattle.std.specs.Prelude.{◌≡◌, ℕ, ◌+◌, ◌*◌, ◌^◌, ◌<◌, ◌≤◌, bit_and, bit_or, List, length, All};
ghost use Rattle.rtcp_feedback.specs.declared.nack.Nack.{Nack as Lost};
ghost use Rattle.rtcp_feedback.specs.declared.tmmb.TmmbrEntry.{TmmbrEntry as Entry};
ghost use Rattle.rtcp_feedback.specs.Grammar.{IsEntry, IsNack, nack, tmmbr, tmmbn, pli};
ghost use Rattle.rtcp_feedback.specs.Writing.{IsReadAs, nack_body, packet_bytes, tmmb_body, pli_body};

use crate::nack::MAX_NACKS;
use crate::tmmb::MAX_ENTRIES;

/// The bodies that the writers append are told by the header before them, and read as what was written:
/// `read_feedback` of such a body answers the writer's arguments, since it answers whatever the grammar
/// reads.
pub fn writers_read_again()
    ensures tmmbr { (sender : ℕ) (entries : List Entry) → sender < 2 ^ 32 → All IsEntry entries
        → length entries ≤ MAX_ENTRIES
        → IsReadAs 3 205 (tmmb_body sender entries) (tmmbr sender entries) }
    ensures tmmbn { (sender : ℕ) (entries : List Entry) → sender < 2 ^ 32 → All IsEntry entries
        → length entries ≤ MAX_ENTRIES
        → IsReadAs 4 205 (tmmb_body sender entries) (tmmbn sender entries) }
    ensures pli { (sender media : ℕ) → sender < 2 ^ 32 → media < 2 ^ 32
        → IsReadAs 1 206 (pli_body sender media) (pli sender media) }
    ensures nack { (sender media : ℕ) (entries : List Lost) → sender < 2 ^ 32 → media < 2 ^ 32
        → All IsNack entries → length entries ≤ MAX_NACKS
        → IsReadAs 1 205 (nack_body sender media entries) (nack sender media entries) }
{}

/// How many bytes the packets have that the writers append.
pub fn writers_write_so_much()
    ensures tmmb { (fmt sender : ℕ) (entries : List Entry)
        → length (packet_bytes fmt 205 (tmmb_body sender entries)) ≡ 12 + 8 * length entries }
    ensures pli { (sender media : ℕ) → length (packet_bytes 1 206 (pli_body sender media)) ≡ 12 }
    ensures nack { (sender media : ℕ) (entries : List Lost)
        → length (packet_bytes 1 205 (nack_body sender media entries)) ≡ 12 + 4 * length entries }
{}

/// An entry of a NACK of which bits are left out is one still, and so is one with more of the 16 bits set.
pub fn bits_stay_within_a_nack()
    ensures left_out { (entry : Lost) (kept : ℕ) → IsNack entry
        → IsNack (record entry { blp = bit_and entry.blp kept }) }
    ensures added { (entry : Lost) (more : ℕ) → IsNack entry → more < 2 ^ 16
        → IsNack (record entry { blp = bit_or entry.blp more }) }
{}
