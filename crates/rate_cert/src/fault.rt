//! What can be wrong with a certificate.

use thiserror::Error;

/// The first condition that a certificate fails, by rising number; if it shows a place, the least
/// one that fails it. Places count the requests from 0.
#[derive(Clone, Copy, Debug, PartialEq, Eq, Error)]
pub enum CertFault {
    /// 1: a place is beyond the requests or stands twice, or a neighbour is no kept place.
    #[error("a place is out of range, named twice, or no kept place")]
    Place,
    /// 2: a kept request permits its pair.
    #[error("a kept request permits its pair")]
    PairNotForbidden,
    /// 3: the request at this place forbids the pairs of two kept entries.
    #[error("the request at place {0} forbids the pairs of two kept entries")]
    TwoPairsForbidden(usize),
    /// 4: the implied request at this place isn't implied by its neighbours.
    #[error("the request at place {0} is not implied as stated")]
    NotImplied(usize),
    /// 5: the request at this place is neither kept nor implied.
    #[error("the request at place {0} is not named")]
    Missing(usize),
}
