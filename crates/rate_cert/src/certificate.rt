//! Certificates.

use arrayvec::ArrayVec;
use tmmbr_tuple::Pair;

/// How many kept entries a certificate holds at most, and how many implied ones.
pub const MAX_REQUESTS: usize = 256;

/// A request of the choice, with a pair that it forbids and no other kept request does.
#[derive(Clone, Copy, Debug, Default, PartialEq, Eq)]
pub struct Kept {
    /// The request's place in the list of requests, from 0.
    pub place: u16,
    /// The pair that it forbids.
    pub pair: Pair,
}

/// A request outside the choice, with two kept requests that imply it: `p` times the one and `q`
/// times the other are at least as strict as `r` times this one.
#[derive(Clone, Copy, Debug, Default, PartialEq, Eq)]
pub struct Implied {
    /// The request's place in the list of requests, from 0.
    pub place: u16,
    /// The place of the first kept request.
    pub a: u16,
    /// The place of the second kept request, which may be the first again.
    pub b: u16,
    /// How often the first one counts.
    pub p: u16,
    /// How often the second one counts.
    pub q: u16,
    /// How often this request counts; 0 proves nothing and is refused.
    pub r: u16,
}

/// What shows that a choice of requests bounds as all of them do, and is the smallest that does.
#[derive(Debug, Default, PartialEq, Eq, Drop)]
pub struct Cert {
    /// The requests of the choice.
    pub kept: ArrayVec<Kept, MAX_REQUESTS>,
    /// The other requests.
    pub implied: ArrayVec<Implied, MAX_REQUESTS>,
}
