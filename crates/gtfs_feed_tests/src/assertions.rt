//! Assertions as calls, whose proofs take less than those of the macros.

ghost use Rattle.std.specs.Prelude.{◌≡◌};

use std::fmt::{Debug, Display};
use std::process::Abort;

/// Holds a value that was found to what is wanted of it.
pub(crate) fn assert_is<T: Copy + PartialEq + Debug>(
    rt: &impl Abort,
    found: T,
    wanted: T,
    what: impl Display + Drop,
) {
    assert_eq!(rt; found, wanted, "{what}");
}

/// The same of a count, on which calls with the numbers below it rest.
pub(crate) fn assert_count(rt: &impl Abort, found: usize, wanted: usize, what: &str)
    ensures { found ≡ wanted }
{
    assert_eq!(rt; found, wanted, "{what}");
}

/// Holds a test to be passed.
pub(crate) fn assert_holds(rt: &impl Abort, holds: bool, what: impl Display + Drop) {
    assert!(rt; holds, "{what}");
}
