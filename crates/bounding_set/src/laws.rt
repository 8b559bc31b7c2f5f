//! What the announced set is computed by, for those who want to see it apart: whether two lines imply a
//! third, and the plain walk over all rows.

pub use crate::envelope::walk;
pub use crate::implies::implies;
