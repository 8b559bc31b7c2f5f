//! What was read of a datagram is judged before the machine takes it in, and requests that would be lost are held and heard again.
//!
//! `ingress_filter` judges: whether a source goes on where it was, or began anew (RFC 3550, appendix A.1), and which packets may be sent again (RFC
//! 4585, section 6.2.1). Read `sequence_tracker` first, what is known of one source's numbers, then `sequence_trackers`, the same of each endpoint. Of resends read
//! `leg_resends` first, what is admitted on one leg, then `nacks`, what is left of an entry of a NACK. `resend_limiter` is the same of all feedback
//! entries, and `trips` are the round trips there. `held_packets`, the packets held until it is known whether their source began anew, and `flood_limiter`,
//! how many datagrams of one endpoint are heard, stand for themselves.
//!
//! `held_requests` has TMMBRs that come before their publisher is present, or that it didn't keep (RFC 5104, section 4.2.1): what is held, and what is
//! heard once more. `requests` is what is held for each leg, `asking` who asks for what and what of it is left out. `joined_publishers` says which
//! publishers came, `again` what of their legs is heard again, `presence` who is present, by the room, and `last_heard` who spoke when.
//! `publisher_set` is by itself: which announced set is sent again, since its publisher's TMMBN doesn't list it (RFC 5104, section 4.2.2), and
//! whose bounds are lifted again; `announced_sets` has all of them.
//!
//! `request_gaps` has how often the requests of one leg are heard, and `rate_requests` joins that with what is held.
//!
//! `rules` says what of it is wanted. What is so of every list of packets, and of happenings, stands in `laws`.
#![tactic(auto)]

mod again;
mod announced_sets;
mod asking;
mod flood_limiter;
mod held_packets;
mod held_requests;
mod ingress_filter;
mod joined_publishers;
mod last_heard;
pub mod laws;
mod leg_resends;
mod nacks;
mod presence;
mod presence_signal;
mod publisher_set;
mod rate_requests;
mod request_gaps;
mod requests;
mod resend_limiter;
mod rules;
mod said;
mod sequence_tracker;
mod sequence_trackers;
mod trips;

pub use again::Again;
pub use announced_sets::{AnnouncedSets, DueLook};
pub use flood_limiter::{BURST_MS, FloodLimiter};
pub use held_packets::HeldPackets;
pub use held_requests::HeldRequests;
pub use ingress_filter::{IngressFilter, Judged};
pub use leg_resends::{MAX_TRIP_MS, REMEMBERED, ResendBounds};
pub use rate_requests::RateRequests;
pub use rules::Rules;
pub use said::SaidAgain;
pub use sequence_tracker::{
    MAX_AHEAD, MAX_DROPOUT, MAX_LATE_TICKS, MAX_MISORDER, Placement, SequenceTracker, Stamp,
};
pub use sequence_trackers::SequenceTrackers;
