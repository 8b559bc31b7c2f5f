//! What values must be.

use std::fmt::Debug;
use std::process::Abort;

/// Both are the same. An `assert_eq!` is a branch, which costs several times what this call does to prove; if the code after it
/// relies on what it found, it has to be one all the same.
pub(crate) fn same<T: PartialEq + Debug>(rt: &impl Abort, left: &T, right: &T) {
    assert_eq!(rt; *left, *right);
}
