//! Assertions as calls, whose proofs take less than those of the macros.
use std::fmt::Debug;
use std::process::Abort;

/// Holds what was found to what is wanted of it.
pub(crate) fn assert_is<T: Copy + PartialEq + Debug>(
    rt: &impl Abort,
    found: T,
    wanted: T,
    what: &str,
) {
    assert_eq!(rt; found, wanted, "{what}");
}

/// The same, for one of many cases.
pub(crate) fn assert_is_at<T: Copy + PartialEq + Debug>(
    rt: &impl Abort,
    found: T,
    wanted: T,
    what: &str,
    case: impl Copy + Debug,
) {
    assert_eq!(rt; found, wanted, "{what} {case:?}");
}

/// Holds that something is so.
pub(crate) fn assert_that(rt: &impl Abort, holds: bool, what: &str) {
    assert!(rt; holds, "{what}");
}
