//! Lines that are answered while the program serves, and devices that fail meanwhile.

use crate::assertions::{assert_case, assert_is};
use crate::ended::Ended;
use crate::fixtures::{
    CHECK, FIRST_LINE, OUTPUT_FAILED, ROOM, SHEET, assert_ends, fixed, folders, start_of,
};
use gtfs_cli::run_with_input;
use gtfs_conversation::MemoryInput;
use gtfs_table::{MemoryFolders, MemoryOut};
use std::alloc::Global;
use std::process::Abort;
use std::test::Fail;

const SERVE: [&str; 5] = ["gtfs", "serve", "f1", "--zone", "z1"];

const INPUT_FAILED: &str = "gtfs: input cannot be read\n";

const BOARD: &[u8] = b"board\tS1\t20240401\t20240402";

const TIMETABLE: &[u8] = b"timetable\tR1\t20240401";

// Runs the words over these lines, of which a hearing may fail, and an output with room for this
// many bytes. Answers how it ended, and how much had gone out at each asking.
fn talk(
    alloc: Global,
    folders: &mut MemoryFolders,
    words: &[&str],
    lines: &[&[u8]],
    failing: Option<usize>,
    room: usize,
) -> Result<(Ended, Vec<usize>), Fail> {
    let mut input = MemoryInput::new(alloc, lines, failing);
    let mut out = MemoryOut::new(alloc, room)?;
    let mut err = MemoryOut::new(alloc, ROOM)?;
    let status = run_with_input(
        alloc,
        fixed()?,
        words,
        folders,
        &mut input,
        &mut out,
        &mut err,
    );
    let mut asked = Vec::new(alloc);
    asked.extend_from_slice(input.asked())?;
    Ok((Ended { status, out, err }, asked))
}

// Each line, and its answer without the empty line.
const ANSWERS: &[(&[u8], &str)] = &[
    (BOARD, FIRST_LINE),
    (TIMETABLE, SHEET),
    (b"board\tS1\t20240401\t20240402\t0", ""),
    (b"board\tS1\t20240401\t20240402\t\t", FIRST_LINE),
    (
        b"board\tS1\t20240401\t20240402\t\t@1711958400/T1/28800/1/20240401",
        "",
    ),
    (
        b"board\tS1\t20240401\t20240402\t1\t@1711958400/T1/28800/0/20240401",
        FIRST_LINE,
    ),
    (b"timetable\tR1\t20240401\t", SHEET),
    (b"timetable\tR1\t20240401\t1", ""),
    (b"timetable\tR1\t20240402", ""),
    (b"board\tS9\t@1\t@0", "!! unknown stop\n"),
    (b"board\tR1\t@1\t@0", "!! unknown stop\n"),
    (b"board\t\t@0\t@1", "!! unknown stop\n"),
    (b"timetable\tR9\t20240401", "!! unknown route\n"),
    (b"timetable\tS1\t20240401", "!! unknown route\n"),
    (b"timetable\t\t20240401", "!! unknown route\n"),
    (b"board\tS1\t@1\t@0", "!! until lies before from\n"),
    (b"board\tS9\t@1\t@x", "!! bad request\n"),
    (b"board", "!! bad request\n"),
    (b"board\tS1\t@0", "!! bad request\n"),
    (b"board\tS1\t@0\t@1\t\t\t", "!! bad request\n"),
    (b"board\tS1\t@0\t@1\t-1", "!! bad request\n"),
    (b"board\tS1\t@0\t@1\t1\t@0", "!! bad request\n"),
    (b" board\tS1\t@0\t@1", "!! bad request\n"),
    (b"boards\tS1\t@0\t@1", "!! bad request\n"),
    (b"Board\tS1\t@0\t@1", "!! bad request\n"),
    (b"timetable\tR1", "!! bad request\n"),
    (b"timetable\tR1\t20240401\t\t", "!! bad request\n"),
    (b"timetable\tR1\t20240401\t2", "!! bad request\n"),
    (b"timetable\tR1\t2024040", "!! bad request\n"),
    (b"\xEF\xBB\xBFboard\tS1\t@0\t@1", "!! bad request\n"),
    (b"board\tS1\xFF\t@0\t@1", "!! bad request\n"),
    (b"board\tS1\t@0\t@1\r", "!! bad request\n"),
    (b"\0\0\0", "!! bad request\n"),
    (b"\r", "!! bad request\n"),
    (b" ", "!! bad request\n"),
    (b"\t", "!! bad request\n"),
    (BOARD, FIRST_LINE),
];

#[test]
fn each_line_is_answered_by_itself(rt: HostRuntime) -> Result<(), Fail> {
    let mut folders = folders(rt.alloc())?;
    for &(line, text) in ANSWERS {
        let lines = [line];
        let (ended, asked) = talk(rt.alloc(), &mut folders, &SERVE, &lines, None, ROOM)?;
        let (status, printed, told) = ended.seen()?;
        let answer = printed.strip_suffix("\n");
        assert_case(
            &rt,
            (status, answer, told),
            (0, Some(text), ""),
            "end",
            line,
        );
        assert_case(
            &rt,
            asked.as_slice(),
            [0, printed.len()].as_slice(),
            "asked",
            line,
        );
    }
    Ok(())
}

#[test]
fn lines_are_answered_in_their_order(rt: HostRuntime) -> Result<(), Fail> {
    let mut folders = folders(rt.alloc())?;
    let mut lines: Vec<&[u8]> = Vec::new(rt.alloc());
    let mut wanted = String::new(rt.alloc());
    let mut askings = Vec::new(rt.alloc());
    for &(line, text) in ANSWERS {
        askings.push(wanted.len())?;
        lines.push(line)?;
        wanted.push_str(text)?;
        wanted.push_str("\n")?;
    }
    askings.push(wanted.len())?;
    let (ended, asked) = talk(
        rt.alloc(),
        &mut folders,
        &SERVE,
        lines.as_slice(),
        None,
        ROOM,
    )?;
    assert_is(&rt, ended.seen()?, (0, wanted.as_str(), ""), "end");
    assert_is(&rt, asked.as_slice(), askings.as_slice(), "asked");
    Ok(())
}

#[test]
fn an_empty_line_has_no_answer(rt: HostRuntime) -> Result<(), Fail> {
    let mut folders = folders(rt.alloc())?;
    let lines: [&[u8]; 4] = [b"", b"board\tS9\t@0\t@1", b"", b""];
    let (ended, asked) = talk(rt.alloc(), &mut folders, &SERVE, &lines, None, ROOM)?;
    assert_is(&rt, ended.seen()?, (0, "!! unknown stop\n\n", ""), "end");
    assert_is(
        &rt,
        asked.as_slice(),
        [0, 0, 17, 17, 17].as_slice(),
        "asked",
    );
    Ok(())
}

#[test]
fn no_lines_have_no_answers(rt: HostRuntime) -> Result<(), Fail> {
    let mut folders = folders(rt.alloc())?;
    let (ended, asked) = talk(rt.alloc(), &mut folders, &SERVE, &[], None, 0)?;
    assert_is(&rt, ended.seen()?, (0, "", ""), "end");
    assert_is(&rt, asked.as_slice(), [0].as_slice(), "asked");
    assert_ends(&rt, rt.alloc(), &mut folders, &SERVE, (0, "", ""))
}

// The bytes of a line beside the id of its stop.
const BESIDE_ID: usize = 12;

// A line of this many bytes that asks for a board at a stop with a long id.
fn long_line(alloc: Global, length: usize) -> Result<Vec<u8>, Fail> {
    let mut line = Vec::new(alloc);
    line.extend_from_slice(b"board\t")?;
    for _ in BESIDE_ID..length {
        line.push(b'S')?;
    }
    line.extend_from_slice(b"\t@0\t@1")?;
    Ok(line)
}

#[test]
fn a_line_has_at_most_a_mebibyte(rt: HostRuntime) -> Result<(), Fail> {
    let mut folders = folders(rt.alloc())?;
    let cases = [
        (65_537, "!! unknown stop\n\n"),
        (1_048_576, "!! unknown stop\n\n"),
        (1_048_577, "!! line too long\n\n"),
        (1_048_578, "!! line too long\n\n"),
    ];
    for (length, wanted) in cases {
        let line = long_line(rt.alloc(), length)?;
        assert_case(&rt, line.len(), length, "line", length);
        let lines = [line.as_slice()];
        let (ended, _) = talk(rt.alloc(), &mut folders, &SERVE, &lines, None, ROOM)?;
        assert_case(&rt, ended.seen()?, (0, wanted, ""), "end", length);
    }
    Ok(())
}

const TALKED: &str = "!! unknown stop\n\n\
@1711958400/T1/28800/1/20240401\t2024-04-01 08:00:00+00:00\tS1\t10\t\ts\n\n\
== R1 - 20240401\ntrip\tT1\nS1\t08:00:00\nS2\t08:10:00\n\n";

const TALK: [&[u8]; 3] = [b"board\tS9\t@0\t@1", BOARD, TIMETABLE];

#[test]
fn the_lines_before_a_failed_hearing_are_answered(rt: HostRuntime) -> Result<(), Fail> {
    let mut folders = folders(rt.alloc())?;
    let cases = [(1, 0), (2, 17), (3, 85), (4, TALKED.len())];
    for (heard, length) in cases {
        let failing = Some(heard);
        let (ended, asked) = talk(rt.alloc(), &mut folders, &SERVE, &TALK, failing, ROOM)?;
        let wanted = (3, start_of(TALKED, length)?, INPUT_FAILED);
        assert_case(&rt, ended.seen()?, wanted, "end", heard);
        assert_case(&rt, asked.len(), heard, "asked", heard);
    }
    Ok(())
}

#[test]
fn nothing_is_heard_after_the_output_failed(rt: HostRuntime) -> Result<(), Fail> {
    let mut folders = folders(rt.alloc())?;
    for room in 0..TALKED.len() {
        let (ended, asked) = talk(rt.alloc(), &mut folders, &SERVE, &TALK, None, room)?;
        let wanted = (3, start_of(TALKED, room)?, OUTPUT_FAILED);
        assert_case(&rt, ended.seen()?, wanted, "end", room);
        let heard = match room {
            ..=16 => 1,
            17..=84 => 2,
            _ => 3,
        };
        assert_case(&rt, asked.len(), heard, "asked", room);
    }
    Ok(())
}

#[test]
fn nothing_is_heard_before_the_feed_was_read(rt: HostRuntime) -> Result<(), Fail> {
    let mut folders = folders(rt.alloc())?;
    folders.put("f2", "agency.txt", b"agency_name\n")?;
    folders.put(".", "z2", b"TZif")?;
    let cases = [
        ("f9", "z1", 3, "gtfs: f9 is not there\n"),
        ("f2", "z9", 1, "gtfs: f2 has errors\n"),
        ("f1", "z9", 3, "gtfs: z9 is not there\n"),
        ("f1", "z2", 3, "gtfs: z2 is no zone file\n"),
    ];
    for (dir, zone, status, told) in cases {
        let words = ["gtfs", "serve", dir, "--zone", zone];
        let (ended, asked) = talk(rt.alloc(), &mut folders, &words, &TALK, None, ROOM)?;
        assert_case(&rt, ended.seen()?, (status, "", told), "end", words);
        assert_case(&rt, asked.len(), 0, "asked", words);
    }
    Ok(())
}

#[test]
fn other_commands_ask_for_no_line(rt: HostRuntime) -> Result<(), Fail> {
    let mut folders = folders(rt.alloc())?;
    let (ended, asked) = talk(rt.alloc(), &mut folders, &CHECK, &TALK, Some(1), ROOM)?;
    assert_is(&rt, ended.seen()?, (0, "errors 0 warnings 0\n", ""), "end");
    assert_is(&rt, asked.len(), 0, "asked");
    Ok(())
}
