//! Assertions as calls, whose proofs take less than those of the macros.
use gtfs_conversation::{ConversationFault, Input};
use gtfs_devices::Out;
use std::fmt::Debug;
use std::process::Abort;

/// Holds what was found to what is wanted of it, in one of many cases.
pub(crate) fn assert_is<T: Copy + PartialEq + Debug>(
    rt: &impl Abort,
    found: T,
    wanted: T,
    what: &str,
    case: impl Copy + Debug,
) {
    assert_eq!(rt; found, wanted, "{what} {case:?}");
}

/// Hears the next line as a conversation does.
pub(crate) fn hear_next<O: Out, I: Input<O>>(
    input: &mut I,
    out: &mut O,
) -> Result<bool, ConversationFault> {
    input.send(out)?;
    Ok(input.hear(out)?)
}

/// Holds the lines that an input still has to these. It stays at its end, which is asked for twice.
pub(crate) fn assert_lines<O: Out, I: Input<O>>(
    rt: &impl Abort,
    input: &mut I,
    out: &mut O,
    lines: &[&[u8]],
    case: impl Copy + Debug,
) {
    for &line in lines {
        assert_is(rt, hear_next(input, out), Ok(true), "hearing", case);
        assert_is(rt, input.line(), line, "the line of", case);
    }
    for _ in 0..2 {
        assert_is(rt, hear_next(input, out), Ok(false), "the end of", case);
    }
}
