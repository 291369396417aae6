//! Assertions as calls, whose proofs take less than those of the macros.

use std::fmt::{Debug, Display};
use std::process::Abort;
use std::test::Fail;

/// Holds a value that was found to what is wanted of it.
pub(crate) fn assert_is<T: Copy + PartialEq + Debug>(
    rt: &impl Abort,
    found: T,
    wanted: T,
    what: impl Display + Drop,
) {
    assert_eq!(rt; found, wanted, "{what}");
}

/// Holds a text to what is wanted of it, if it was made.
pub(crate) fn assert_text(
    rt: &impl Abort,
    found: Result<String, Fail>,
    wanted: &str,
    what: &str,
) -> Result<(), Fail> {
    let found = found?;
    assert_is(rt, found.as_str(), wanted, what);
    Ok(())
}
