//! Texts of each length up to twenty bytes, beside themselves, beside those that differ at one
//! byte, and beside shorter ones.

use crate::assertions::assert_case;
use gtfs_schema::are_equal;

const TEXT: [u8; 20] = *b"ABCDEFGHIJKLMNOPQRST";

#[test]
fn a_text_equals_itself_alone(rt: HostRuntime) {
    for length in 0..TEXT.len() {
        let text = &TEXT[..length];
        let longer = &TEXT[..length + 1];
        assert_case(&rt, are_equal(text, text), true, "itself", length);
        assert_case(&rt, are_equal(text, longer), false, "one more", length);
        assert_case(&rt, are_equal(longer, text), false, "one less", length);
    }
}

#[test]
fn texts_that_differ_at_one_byte_are_not_equal(rt: HostRuntime) {
    for length in 1..TEXT.len() + 1 {
        for at in 0..length {
            let case = (length, at);
            assert_case(&rt, is_told(at, length), true, "a byte", case);
        }
    }
}

// Whether a text of this length is told from the one that differs at this byte.
fn is_told(at: usize, length: usize) -> bool {
    let mut changed = TEXT;
    if let Some(byte) = changed.get_mut(at) {
        *byte = b'-';
    }
    match (TEXT.get(..length), changed.get(..length)) {
        (Some(text), Some(other)) => !are_equal(text, other),
        _ => false,
    }
}
