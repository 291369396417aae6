//! Assertions as calls, whose proofs take less than those of the macros.

use std::fmt::{Debug, Display};
use std::process::Abort;
use std::test::Fail;

/// Holds a value that was found to what is wanted of it.
pub(crate) fn assert_is<T: Copy + PartialEq + Debug>(
    rt: &impl Abort,
    found: T,
    wanted: T,
    what: impl Display + Drop,
) {
    assert_eq!(rt; found, wanted, "{what}");
}

/// Holds a test to be passed.
pub(crate) fn assert_holds(rt: &impl Abort, holds: bool, what: impl Display + Drop) {
    assert!(rt; holds, "{what}");
}

/// Holds a text to what is wanted of it, if it was made.
pub(crate) fn assert_text(
    rt: &impl Abort,
    found: Result<String, Fail>,
    wanted: &str,
    what: &str,
) -> Result<(), Fail> {
    let found = found?;
    assert_is(rt, found.as_str(), wanted, what);
    Ok(())
}

/// Holds a page to its lines, and the number that it tells to how many they are, if it was written.
pub(crate) fn assert_page(
    rt: &impl Abort,
    found: Result<(u64, String), Fail>,
    wanted: &str,
    what: &str,
) -> Result<(), Fail> {
    let (count, found) = found?;
    assert_is(rt, count, wanted.lines().count() as u64, what);
    assert_is(rt, found.as_str(), wanted, what);
    Ok(())
}
