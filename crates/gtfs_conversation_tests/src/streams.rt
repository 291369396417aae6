//! Lines that are heard from a reader.
use crate::assertions::{assert_is, assert_lines, hear_next};
use crate::drip::{Drip, FINE, Nature};
use crate::echo::Echo;
use gtfs_conversation::{ConversationFault, StreamInput, converse};
use gtfs_devices::{Out, WriteOut};
use std::alloc::Global;
use std::io::{BufReader, BufWriter};
use std::process::Abort;
use std::test::Fail;

// Bytes and the lines that are heard of them.
type Case = (&'static [u8], &'static [&'static [u8]]);

// How lines end. The last one may end where the bytes do.
const ENDS: &[Case] = &[
    (b"", &[]),
    (b"\n", &[b""]),
    (b"\r\n", &[b""]),
    (b"a", &[b"a"]),
    (b"a\n", &[b"a"]),
    (b"a\r\n", &[b"a"]),
    (b"a\n\nbc\r\n\r\nd", &[b"a", b"", b"bc", b"", b"d"]),
];

// A carriage return belongs to the line unless LF follows it.
const RETURNS: &[Case] = &[
    (b"\r", &[b"\r"]),
    (b"a\r", &[b"a\r"]),
    (b"\ra\n", &[b"\ra"]),
    (b"a\rb\r\r\nc", &[b"a\rb\r", b"c"]),
    (b"\n\r\n\r", &[b"", b"", b"\r"]),
];

// Bytes that are no text.
const BYTES: &[Case] = &[
    (b"\0\n\0\0", &[b"\0", b"\0\0"]),
    (
        b"\xff\xfe\r\n\x80\x0b\x0c\n",
        &[b"\xff\xfe", b"\x80\x0b\x0c"],
    ),
    (b"\xe2\x80\xa8\xc2\x85\n", &[b"\xe2\x80\xa8\xc2\x85"]),
];

fn assert_heard(
    rt: &impl Abort,
    alloc: Global,
    cases: &[Case],
    nature: Nature,
) -> Result<(), Fail> {
    for &(bytes, lines) in cases {
        let mut input = StreamInput::new(alloc, Drip::new(bytes, nature))?;
        let mut out = WriteOut::new(BufWriter::new(alloc, Vec::new(alloc))?);
        assert_lines(rt, &mut input, &mut out, lines, bytes);
    }
    Ok(())
}

#[test]
fn a_line_ends_in_lf_or_crlf_or_at_the_end(rt: HostRuntime) -> Result<(), Fail> {
    assert_heard(&rt, rt.alloc(), ENDS, FINE)
}

#[test]
fn a_carriage_return_elsewhere_belongs_to_the_line(rt: HostRuntime) -> Result<(), Fail> {
    assert_heard(&rt, rt.alloc(), RETURNS, FINE)
}

#[test]
fn a_line_may_have_any_bytes(rt: HostRuntime) -> Result<(), Fail> {
    assert_heard(&rt, rt.alloc(), BYTES, FINE)
}

#[test]
fn an_interrupted_read_is_made_again(rt: HostRuntime) -> Result<(), Fail> {
    assert_heard(&rt, rt.alloc(), ENDS, Nature { pauses: 3, ..FINE })?;
    let nature = Nature {
        pauses: 10_000,
        ..FINE
    };
    assert_heard(&rt, rt.alloc(), RETURNS, nature)
}

#[test]
fn a_reader_may_have_a_buffer(rt: HostRuntime) -> Result<(), Fail> {
    let alloc = rt.alloc();
    let reader = BufReader::new(alloc, Drip::new(b"one\r\ntwo", FINE))?;
    let mut input = StreamInput::new(alloc, reader)?;
    let mut out = WriteOut::new(BufWriter::new(alloc, Vec::new(alloc))?);
    assert_lines(&rt, &mut input, &mut out, &[b"one", b"two"], "a buffer");
    Ok(())
}

// The read that fails, of "a", LF, "b", LF and the end, and how many lines were heard by then.
const FAILING: &[(u32, usize)] = &[(1, 0), (2, 0), (3, 1), (4, 1), (5, 2)];

fn assert_fails(rt: &impl Abort, alloc: Global, nature: Nature, count: usize) -> Result<(), Fail> {
    let mut input = StreamInput::new(alloc, Drip::new(b"a\nb\n", nature))?;
    let mut out = WriteOut::new(BufWriter::new(alloc, Vec::new(alloc))?);
    for _ in 0..count {
        assert_is(
            rt,
            hear_next(&mut input, &mut out),
            Ok(true),
            "hearing",
            nature,
        );
    }
    let failed = Err(ConversationFault::Input);
    assert_is(
        rt,
        hear_next(&mut input, &mut out),
        failed,
        "failing",
        nature,
    );
    Ok(())
}

#[test]
fn a_failed_read_is_no_end(rt: HostRuntime) -> Result<(), Fail> {
    for &(failing, count) in FAILING {
        assert_fails(&rt, rt.alloc(), Nature { pauses: 1, failing }, count)?;
    }
    Ok(())
}

#[test]
fn a_failed_read_ends_a_conversation(rt: HostRuntime) -> Result<(), Fail> {
    let alloc = rt.alloc();
    for &(failing, count) in FAILING {
        let drip = Drip::new(b"a\nb\n", Nature { failing, ..FINE });
        let mut input = StreamInput::new(alloc, drip)?;
        let mut text = Vec::new(alloc);
        let mut out = WriteOut::new(BufWriter::new(alloc, &mut text)?);
        let found = (converse(&mut input, &mut out, &Echo), out.failures());
        let wanted = (Err(ConversationFault::Input), 0);
        assert_is(&rt, found, wanted, "a read that fails", failing);
        drop(out);
        let answers = [b"".as_slice(), b"a\n", b"a\nb\n"];
        assert_is(&rt, text.as_slice(), answers[count], "answered", failing);
    }
    Ok(())
}
