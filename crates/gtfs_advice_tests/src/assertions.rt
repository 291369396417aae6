//! Assertions as calls, whose proofs take less than those of the macros.

use std::fmt::Debug;
use std::process::Abort;

/// Holds a value that was found to what is wanted of it.
pub(crate) fn assert_is<T: Copy + PartialEq + Debug>(
    rt: &impl Abort,
    found: T,
    wanted: T,
    what: &str,
) {
    assert_eq!(rt; found, wanted, "{what}");
}
