//! Conversations of which a write or a flush fails.
use crate::assertions::assert_is;
use crate::drip::{Drip, FINE};
use crate::echo::Echo;
use crate::taker::Taker;
use gtfs_conversation::{ConversationFault, StreamInput, converse};
use gtfs_devices::{Out, WriteOut};
use std::alloc::Global;
use std::io::BufWriter;
use std::process::Abort;
use std::test::Fail;

// What the writer has taken where it fails from each call on, in the order of the calls. None is made
// after them.
const BUFFERED: &[&[u8]] = &[b"", b"", b"one\n", b"one\n", b"one\ntwo\n"];

// The same where the buffer takes one byte: a line goes past it, and LF when it is flushed.
const NARROW: &[&[u8]] = &[
    b"",
    b"",
    b"one",
    b"one\n",
    b"one\n",
    b"one\ntwo",
    b"one\ntwo\n",
];

fn assert_taken(
    rt: &impl Abort,
    alloc: Global,
    capacity: usize,
    failing: u32,
    wanted: (Result<(), ConversationFault>, &[u8]),
) -> Result<(), Fail> {
    let (outcome, text) = wanted;
    let mut taker = Taker::new(alloc, failing);
    let mut input = StreamInput::new(alloc, Drip::new(b"one\ntwo\n", FINE))?;
    let mut out = WriteOut::new(BufWriter::with_capacity(alloc, capacity, &mut taker)?);
    let found = (converse(&mut input, &mut out, &Echo), out.failures());
    let failures = u64::from(outcome.is_err());
    assert_is(rt, found, (outcome, failures), "a call that fails", failing);
    drop(out);
    assert_is(rt, taker.text.as_slice(), text, "taken until call", failing);
    Ok(())
}

fn assert_each_fails(
    rt: &impl Abort,
    alloc: Global,
    capacity: usize,
    texts: &[&[u8]],
) -> Result<(), Fail> {
    let mut failing = 1;
    for &text in texts {
        let failed = Err(ConversationFault::Output);
        assert_taken(rt, alloc, capacity, failing, (failed, text))?;
        failing = failing.saturating_add(1);
    }
    assert_taken(rt, alloc, capacity, failing, (Ok(()), b"one\ntwo\n"))
}

#[test]
fn a_failed_write_or_flush_ends_it(rt: HostRuntime) -> Result<(), Fail> {
    assert_each_fails(&rt, rt.alloc(), 100, BUFFERED)
}

#[test]
fn a_part_of_an_answer_may_have_gone_out(rt: HostRuntime) -> Result<(), Fail> {
    assert_each_fails(&rt, rt.alloc(), 1, NARROW)
}
