//! Conversations in memory.
use crate::assertions::{assert_is, assert_lines};
use crate::echo::Echo;
use gtfs_conversation::{ConversationFault, InputFailed, MemoryInput, NoInput, converse};
use gtfs_devices::{MemoryOut, Out, WriteOut};
use std::alloc::Global;
use std::io::BufWriter;
use std::process::Abort;
use std::test::Fail;

// The answers are of 4, 6 and 1 bytes.
const LINES: [&[u8]; 3] = [b"one", b"three", b""];

const TEXT: &[u8] = b"one\nthree\n\n";

const ASKED: &[usize] = &[0, 4, 10, 11];

type Outcome = Result<(), ConversationFault>;

// Holds a conversation in so much room, where the hearing with the number fails, to how it ends, how
// much goes out and how often a line is asked for.
fn assert_talk(
    rt: &impl Abort,
    alloc: Global,
    room: usize,
    failing: Option<usize>,
    wanted: (Outcome, usize, usize),
) -> Result<(), Fail> {
    let (outcome, len, count) = wanted;
    let mut input = MemoryInput::new(alloc, &LINES, failing);
    let mut out = MemoryOut::new(alloc, room)?;
    let found = converse(&mut input, &mut out, &Echo);
    let failures = u64::from(outcome == Err(ConversationFault::Output));
    let case = (room, failing);
    assert_is(
        rt,
        (found, out.failures()),
        (outcome, failures),
        "ends",
        case,
    );
    assert_is(rt, Some(out.bytes()), TEXT.get(..len), "says", case);
    assert_is(rt, Some(input.asked()), ASKED.get(..count), "asks", case);
    Ok(())
}

#[test]
fn each_line_is_answered_before_the_next_is_asked_for(rt: HostRuntime) -> Result<(), Fail> {
    assert_talk(&rt, rt.alloc(), 100, None, (Ok(()), 11, 4))
}

#[test]
fn an_input_without_lines_is_asked_once(rt: HostRuntime) -> Result<(), Fail> {
    let mut input = MemoryInput::new(rt.alloc(), &[], None);
    let mut out = MemoryOut::new(rt.alloc(), 1)?;
    let found = converse(&mut input, &mut out, &Echo);
    assert_is(&rt, (found, out.bytes().len()), (Ok(()), 0), "no line", ());
    assert_is(&rt, input.asked(), [0].as_slice(), "asked", ());
    Ok(())
}

#[test]
fn a_failed_hearing_ends_it_after_the_answers_before(rt: HostRuntime) -> Result<(), Fail> {
    let alloc = rt.alloc();
    let failed = Err(ConversationFault::Input);
    assert_talk(&rt, alloc, 100, Some(1), (failed, 0, 1))?;
    assert_talk(&rt, alloc, 100, Some(2), (failed, 4, 2))?;
    assert_talk(&rt, alloc, 100, Some(3), (failed, 10, 3))?;
    assert_talk(&rt, alloc, 100, Some(4), (failed, 11, 4))?;
    assert_talk(&rt, alloc, 100, Some(5), (Ok(()), 11, 4))?;
    assert_talk(&rt, alloc, 100, Some(0), (Ok(()), 11, 4))
}

#[test]
fn an_answer_without_room_ends_it(rt: HostRuntime) -> Result<(), Fail> {
    let failed = Err(ConversationFault::Output);
    for room in 0..11 {
        let count = if room < 4 {
            1
        } else if room < 10 {
            2
        } else {
            3
        };
        assert_talk(&rt, rt.alloc(), room, None, (failed, room, count))?;
    }
    assert_talk(&rt, rt.alloc(), 11, None, (Ok(()), 11, 4))
}

#[test]
fn lines_in_memory_are_heard_as_they_are(rt: HostRuntime) -> Result<(), Fail> {
    let lines: [&[u8]; 3] = [b"a\r\n", b"", b"\0\xff"];
    let mut input = MemoryInput::new(rt.alloc(), &lines, None);
    let mut out = MemoryOut::new(rt.alloc(), 0)?;
    assert_lines(&rt, &mut input, &mut out, &lines, "lines");
    assert_is(&rt, input.asked().len(), 5, "asked", ());
    Ok(())
}

#[test]
fn no_input_has_no_line(rt: HostRuntime) -> Result<(), Fail> {
    let alloc = rt.alloc();
    let mut memory = MemoryOut::new(alloc, 1)?;
    assert_lines(&rt, &mut NoInput, &mut memory, &[], "memory");
    let mut out = WriteOut::new(BufWriter::new(alloc, Vec::new(alloc))?);
    assert_is(
        &rt,
        converse(&mut NoInput, &mut out, &Echo),
        Ok(()),
        "ends",
        (),
    );
    assert_is(&rt, memory.bytes().len(), 0, "says", ());
    Ok(())
}

#[test]
fn faults_say_what_failed(rt: HostRuntime) -> Result<(), Fail> {
    let faults = format!(in rt.alloc();
        "{InputFailed}, {}, {}",
        ConversationFault::Input,
        ConversationFault::Output
    )?;
    let wanted = "input cannot be read, input cannot be read, output failed";
    assert_is(&rt, faults.as_str(), wanted, "faults", ());
    Ok(())
}
