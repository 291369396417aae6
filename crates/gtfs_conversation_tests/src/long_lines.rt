//! Lines about the length that is answered, which is 1,048,576 bytes.
use crate::assertions::{assert_is, assert_lines, hear_next};
use crate::drip::{Drip, FINE};
use gtfs_conversation::{Input, LONGEST_LINE, StreamInput};
use gtfs_devices::{Out, WriteOut};
use std::alloc::{AllocError, Global};
use std::io::BufWriter;
use std::process::Abort;
use std::test::Fail;

// So many bytes `x` and then these, the length and the last byte of the first line that is heard,
// and the lines after it.
type Case = (
    usize,
    &'static [u8],
    (usize, Option<u8>),
    &'static [&'static [u8]],
);

const X: Option<u8> = Some(b'x');

const RETURN: Option<u8> = Some(b'\r');

const WHOLE: &[Case] = &[
    (1_048_575, b"\ny\n", (1_048_575, X), &[b"y"]),
    (1_048_576, b"\ny\n", (1_048_576, X), &[b"y"]),
    (1_048_576, b"\r\ny\n", (1_048_576, X), &[b"y"]),
    (1_048_575, b"\r\r\ny", (1_048_576, RETURN), &[b"y"]),
    (1_048_576, b"", (1_048_576, X), &[]),
];

const TOO_LONG: &[Case] = &[
    (1_048_577, b"\ny\n", (1_048_577, X), &[b"y"]),
    (1_048_577, b"\r\ny\n", (1_048_577, X), &[b"y"]),
    (1_048_576, b"\r\r\ny\n", (1_048_577, RETURN), &[b"y"]),
    (1_048_577, b"\r\r\ny\n", (1_048_577, X), &[b"y"]),
    (1_048_576, b"\r", (1_048_577, RETURN), &[]),
    (1_048_578, b"", (1_048_577, X), &[]),
    (3_000_000, b"\r\ny", (1_048_577, X), &[b"y"]),
];

fn long_text(alloc: Global, count: usize, tail: &[u8]) -> Result<Vec<u8>, AllocError> {
    let mut text = Vec::new(alloc);
    text.resize(count, b'x')?;
    text.extend_from_slice(tail)?;
    Ok(text)
}

// The length and the last byte of the line that was heard.
fn shape<O: Out, I: Input<O>>(input: &I, _out: &O) -> (usize, Option<u8>) {
    let line = input.line();
    (line.len(), line.last().copied())
}

fn assert_shapes(rt: &impl Abort, alloc: Global, cases: &[Case]) -> Result<(), Fail> {
    for &(count, tail, wanted, lines) in cases {
        let text = long_text(alloc, count, tail)?;
        let mut input = StreamInput::new(alloc, Drip::new(text.as_slice(), FINE))?;
        let mut out = WriteOut::new(BufWriter::new(alloc, Vec::new(alloc))?);
        let case = (count, tail);
        assert_is(
            rt,
            hear_next(&mut input, &mut out),
            Ok(true),
            "hearing",
            case,
        );
        assert_is(rt, shape(&input, &out), wanted, "the line of", case);
        assert_lines(rt, &mut input, &mut out, lines, case);
    }
    Ok(())
}

#[test]
fn a_line_of_the_most_bytes_is_heard_whole(rt: HostRuntime) -> Result<(), Fail> {
    assert_is(&rt, LONGEST_LINE, 1_048_576, "the longest line", ());
    assert_shapes(&rt, rt.alloc(), WHOLE)
}

#[test]
fn a_longer_line_is_heard_by_one_byte_more(rt: HostRuntime) -> Result<(), Fail> {
    assert_shapes(&rt, rt.alloc(), TOO_LONG)
}
