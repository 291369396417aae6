//! Files of just the limit, outputs that take nothing, and several devices of which each fails.

use crate::assertions::{assert_case, assert_is};
use crate::ended::Ended;
use crate::fixtures::{
    CHECK, FIRST_LINE, MERGE, OUTPUT_FAILED, ROOM, asked, asked_with, assert_ends, fixed, folders,
    folders_failing_at, folders_within, put_feed, put_island, start_of, timetable_asked,
};
use gtfs_cli::run;
use gtfs_field::OutOfMemory;
use gtfs_table::{MemoryFolders, MemoryOut, Out, WriteOut};
use std::alloc::Global;
use std::io;
use std::io::Write;
use std::process::Abort;
use std::test::Fail;

const FINE: &str = "errors 0 warnings 0\n";

// The longest file of the feed, calendar.txt, has 123 bytes.
#[test]
fn a_file_may_be_as_long_as_the_limit(rt: HostRuntime) -> Result<(), Fail> {
    let board = asked("f1", "z1", "S1");
    let mut folders = folders_within(rt.alloc(), 122)?;
    let over = (3, "", "gtfs: f1 holds a file over the limit\n");
    assert_ends(&rt, rt.alloc(), &mut folders, &board, over)?;
    assert_ends(&rt, rt.alloc(), &mut folders, &CHECK, over)?;
    let mut folders = folders_within(rt.alloc(), 123)?;
    assert_ends(&rt, rt.alloc(), &mut folders, &board, (0, FIRST_LINE, ""))?;
    assert_ends(&rt, rt.alloc(), &mut folders, &CHECK, (0, FINE, ""))
}

#[test]
fn a_zone_file_may_be_as_long_as_the_limit(rt: HostRuntime) -> Result<(), Fail> {
    let mut folders = folders_within(rt.alloc(), 123)?;
    let over = (3, "", "gtfs: z3 holds a file over the limit\n");
    let words = asked("f1", "z3", "S1");
    put_island(rt.alloc(), &mut folders, "z3")?;
    assert_ends(&rt, rt.alloc(), &mut folders, &words, over)?;
    folders.put(".", "z3", &[0; 124])?;
    assert_ends(&rt, rt.alloc(), &mut folders, &words, over)?;
    folders.put(".", "z3", &[0; 123])?;
    let none = (3, "", "gtfs: z3 is no zone file\n");
    assert_ends(&rt, rt.alloc(), &mut folders, &words, none)
}

// Takes nothing.
#[derive(Drop)]
struct Shut;

impl Write for Shut {
    fn write(&mut self, _buf: &[u8]) -> io::Result<usize> {
        Ok(0)
    }

    fn flush(&mut self) -> io::Result<()> {
        Ok(())
    }
}

// To an output that takes nothing, and is asked once.
fn assert_shut(
    rt: &impl Abort,
    alloc: Global,
    folders: &mut MemoryFolders,
    words: &[&str],
) -> Result<(), Fail> {
    let mut out = WriteOut::new(Shut);
    let mut err = MemoryOut::new(alloc, ROOM)?;
    let status = run(alloc, fixed()?, words, folders, &mut out, &mut err);
    let ended = (status, out.failures(), str::from_utf8(err.bytes())?);
    assert_case(rt, ended, (3, 1, OUTPUT_FAILED), "end", words);
    Ok(())
}

#[test]
fn an_output_that_takes_nothing_has_failed(rt: HostRuntime) -> Result<(), Fail> {
    let mut folders = folders(rt.alloc())?;
    put_feed(&mut folders, "f2")?;
    let sheets = timetable_asked("f1", "R1");
    assert_shut(&rt, rt.alloc(), &mut folders, &asked("f1", "z1", "S1"))?;
    assert_shut(&rt, rt.alloc(), &mut folders, &sheets)?;
    assert_shut(&rt, rt.alloc(), &mut folders, &CHECK)?;
    assert_shut(&rt, rt.alloc(), &mut folders, &MERGE)?;
    assert_shut(&rt, rt.alloc(), &mut folders, &["gtfs", "--help"])?;
    assert_shut(&rt, rt.alloc(), &mut folders, &["gtfs", "--version"])
}

// Where nothing is to be printed, no output is asked.
#[test]
fn an_empty_board_needs_no_output(rt: HostRuntime) -> Result<(), Fail> {
    let mut folders = folders(rt.alloc())?;
    let mut out = WriteOut::new(Shut);
    let mut err = WriteOut::new(Shut);
    let words = asked("f1", "z1", "S3");
    let status = run(
        rt.alloc(),
        fixed()?,
        &words,
        &mut folders,
        &mut out,
        &mut err,
    );
    let ended = (status, out.failures(), err.failures());
    assert_is(&rt, ended, (0, 0, 0), "end of an empty board");
    Ok(())
}

// The words are refused with this status and line.
// With less room for the error output than its line, the same status.
fn assert_same_status(
    rt: &impl Abort,
    alloc: Global,
    mut folders: MemoryFolders,
    words: &[&str],
    (status, line): (u8, &str),
) -> Result<(), Fail> {
    for room in 0..=line.len() {
        let ended = Ended::of(alloc, fixed()?, &mut folders, words, (0, room))?;
        let wanted = (status, "", start_of(line, room)?);
        let failures = u64::from(room < line.len());
        assert_case(rt, ended.seen()?, wanted, "end", line);
        assert_case(rt, ended.err.failures(), failures, "failures", line);
    }
    Ok(())
}

#[test]
fn no_status_changes_with_the_error_output(rt: HostRuntime) -> Result<(), Fail> {
    let cases = [
        (asked("f1", "z1", "S9"), (1, "gtfs: unknown stop\n")),
        (asked("f9", "z1", "S1"), (3, "gtfs: f9 is not there\n")),
        (asked("f1", "z9", "S1"), (3, "gtfs: z9 is not there\n")),
        (asked("f1", ".", "S1"), (3, "gtfs: . is not there\n")),
        (asked("f1", "", "S1"), (3, "gtfs:  cannot be read\n")),
        (asked("f1", "z1", "S1"), (3, "gtfs: output failed\n")),
    ];
    for (words, ended) in cases {
        let folders = folders(rt.alloc())?;
        assert_same_status(&rt, rt.alloc(), folders, &words, ended)?;
    }
    let words = asked_with("--limit", "x");
    let ended = (2, "gtfs: bad value of --limit\n");
    assert_same_status(&rt, rt.alloc(), folders(rt.alloc())?, &words, ended)?;
    let ended = (3, "gtfs: output failed\n");
    let version = ["gtfs", "--version"];
    assert_same_status(&rt, rt.alloc(), folders(rt.alloc())?, &version, ended)?;
    assert_same_status(&rt, rt.alloc(), folders(rt.alloc())?, &CHECK, ended)
}

// The feed of f1 in f2 with one file changed, and a zone file that is none.
fn spoiled(alloc: Global, name: &str, text: &str) -> Result<MemoryFolders, OutOfMemory> {
    let mut folders = folders(alloc)?;
    put_feed(&mut folders, "f2")?;
    folders.put("f2", name, text.as_bytes())?;
    folders.put(".", "no-zone", b"zone")?;
    Ok(folders)
}

#[test]
fn no_status_of_a_refused_feed_changes_with_the_error_output(rt: HostRuntime) -> Result<(), Fail> {
    let ended = (1, "gtfs: zones differ\n");
    let elsewhere = spoiled(rt.alloc(), "agency.txt", ELSEWHERE)?;
    assert_same_status(&rt, rt.alloc(), elsewhere, &MERGE, ended)?;
    let cases = [
        (asked("f2", "z1", "S1"), (1, "gtfs: f2 has errors\n")),
        (
            asked("f1", "no-zone", "S1"),
            (3, "gtfs: no-zone is no zone file\n"),
        ),
    ];
    for (words, ended) in cases {
        let stopless = spoiled(rt.alloc(), "stops.txt", "")?;
        assert_same_status(&rt, rt.alloc(), stopless, &words, ended)?;
    }
    let words = backwards();
    let ended = (2, "gtfs: until lies before from\n");
    assert_same_status(&rt, rt.alloc(), folders(rt.alloc())?, &words, ended)?;
    let words = ["gtfs", "merge", "f1", "f9", "out"];
    let ended = (3, "gtfs: f9 is not there\n");
    assert_same_status(&rt, rt.alloc(), folders(rt.alloc())?, &words, ended)?;
    let ended = (3, "gtfs: f1 holds a file over the limit\n");
    assert_same_status(
        &rt,
        rt.alloc(),
        folders_within(rt.alloc(), 122)?,
        &CHECK,
        ended,
    )
}

// The agency of the feed in another zone.
const ELSEWHERE: &str =
    "agency_name,agency_url,agency_timezone\nMetro,http://m.example,Europe/Berlin\n";

// A span that ends a day before it begins.
fn backwards() -> [&'static str; 11] {
    [
        "gtfs", "board", "f1", "--zone", "z1", "--stop", "S1", "--from", "20240402", "--until",
        "20240401",
    ]
}

// The first device that fails is told, whatever the others do.
#[test]
fn all_devices_may_fail(rt: HostRuntime) -> Result<(), Fail> {
    let words = asked("f1", "z1", "S1");
    for call in 1..12 {
        let line = if call < 11 {
            "gtfs: f1 cannot be read\n"
        } else {
            "gtfs: z1 cannot be read\n"
        };
        for room in 0..line.len() {
            let mut folders = folders_failing_at(rt.alloc(), call)?;
            let rooms = (0, room);
            let ended = Ended::of(rt.alloc(), fixed()?, &mut folders, &words, rooms)?;
            let wanted = (3, "", start_of(line, room)?);
            assert_case(&rt, ended.seen()?, wanted, "end", call);
            assert_case(&rt, ended.out.failures(), 0, "failures", call);
        }
    }
    Ok(())
}
