//! What the tests assert, by calls: the proof of a call takes a tenth of that of the macro.
use std::fmt::Debug;
use std::process::Abort;

/// Ends the test where something else was found.
pub(crate) fn assert_equal<T: Copy + PartialEq + Debug>(rt: &impl Abort, found: T, wanted: T) {
    assert_eq!(rt; found, wanted);
}

/// The same, for one of many cases.
pub(crate) fn assert_equal_at<T: Copy + PartialEq + Debug>(
    rt: &impl Abort,
    case: impl Copy + Debug,
    found: T,
    wanted: T,
) {
    assert_eq!(rt; found, wanted, "at {case:?}");
}
