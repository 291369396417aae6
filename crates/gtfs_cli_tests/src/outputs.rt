//! Outputs that take less than the whole, or the whole by single bytes.

use crate::assertions::{assert_case, assert_is};
use crate::ended::Ended;
use crate::fixtures::{
    CHECK, FIRST_LINE, JOINED, MERGE, OUTPUT_FAILED, ROOM, SHEET, VERSION, asked, asked_with,
    assert_ends, fixed, folders, put_feed, start_of, timetable_asked,
};
use gtfs_cli::run;
use gtfs_table::{MemoryFolders, WriteOut};
use std::alloc::Global;
use std::io;
use std::io::{Error, ErrorKind, Write};
use std::process::Abort;
use std::test::Fail;

// Words that are answered by this text, of which an output may take less.
pub(super) fn assert_cut(
    rt: &impl Abort,
    alloc: Global,
    folders: &mut MemoryFolders,
    words: &[&str],
    text: &str,
) -> Result<(), Fail> {
    for room in 0..text.len() {
        let ended = Ended::of(alloc, fixed()?, folders, words, (room, ROOM))?;
        let wanted = (3, start_of(text, room)?, OUTPUT_FAILED);
        assert_case(rt, ended.seen()?, wanted, "end", room);
    }
    Ok(())
}

#[test]
fn a_board_may_be_cut_at_each_byte(rt: HostRuntime) -> Result<(), Fail> {
    let mut folders = folders(rt.alloc())?;
    let words = asked("f1", "z1", "S1");
    assert_cut(&rt, rt.alloc(), &mut folders, &words, FIRST_LINE)
}

const HALF_HOURS: &str = "trip_id,start_time,end_time,headway_secs\nT1,06:00:00,08:00:00,1800\n";

const TWO_RUNS: &str = "@1711951200/T1/21600/1/20240401\t2024-04-01 06:00:00+00:00\tS1\t10\t\tf\n\
@1711953000/T1/23400/1/20240401\t2024-04-01 06:30:00+00:00\tS1\t10\t\tf\n";

#[test]
fn a_page_may_be_cut_at_each_byte(rt: HostRuntime) -> Result<(), Fail> {
    let mut folders = folders(rt.alloc())?;
    folders.put("f1", "frequencies.txt", HALF_HOURS.as_bytes())?;
    let words = asked_with("--limit", "2");
    assert_cut(&rt, rt.alloc(), &mut folders, &words, TWO_RUNS)
}

const TWO_BAD_TIMES: &str = "trip_id,arrival_time,departure_time,stop_id,stop_sequence\n\
T1,08:60:00,08:00:00,S1,1\n\
T1,08:10:00,08:60:00,S2,2\n";

const REPORT: &str = "E07 stop_times.txt:2 arrival_time value unreadable\n\
E07 stop_times.txt:3 departure_time value unreadable\n\
errors 2 warnings 0\n";

#[test]
fn a_report_may_be_cut_at_each_byte(rt: HostRuntime) -> Result<(), Fail> {
    let mut folders = folders(rt.alloc())?;
    folders.put("f1", "stop_times.txt", TWO_BAD_TIMES.as_bytes())?;
    assert_cut(&rt, rt.alloc(), &mut folders, &CHECK, REPORT)
}

const THERE_AND_BACK: &str = "route_id,service_id,trip_id,direction_id\nR1,C1,T1,0\nR1,C1,T2,1\n";

const TIMES_THERE_AND_BACK: &str = "trip_id,arrival_time,departure_time,stop_id,stop_sequence\n\
T1,08:00:00,08:00:00,S1,1\n\
T1,08:10:00,08:10:00,S2,2\n\
T2,09:00:00,09:00:00,S2,1\n\
T2,09:10:00,09:10:00,S1,2\n";

const TWO_SHEETS: &str = "== R1 0 20240401\ntrip\tT1\nS1\t08:00:00\nS2\t08:10:00\n\
== R1 1 20240401\ntrip\tT2\nS2\t09:00:00\nS1\t09:10:00\n";

#[test]
fn a_timetable_may_be_cut_at_each_byte(rt: HostRuntime) -> Result<(), Fail> {
    let mut folders = folders(rt.alloc())?;
    folders.put("f1", "trips.txt", THERE_AND_BACK.as_bytes())?;
    folders.put("f1", "stop_times.txt", TIMES_THERE_AND_BACK.as_bytes())?;
    let words = timetable_asked("f1", "R1");
    assert_cut(&rt, rt.alloc(), &mut folders, &words, TWO_SHEETS)
}

// An output takes a beginning of help, whose text is not fixed.
#[test]
fn help_may_be_cut(rt: HostRuntime) -> Result<(), Fail> {
    let mut folders = folders(rt.alloc())?;
    let rooms = (4, ROOM);
    let words = ["gtfs", "--help"];
    let ended = Ended::of(rt.alloc(), fixed()?, &mut folders, &words, rooms)?;
    let (status, printed, told) = ended.seen()?;
    let found = (status, printed.len(), told);
    assert_is(&rt, found, (3, 4, OUTPUT_FAILED), "end of help");
    Ok(())
}

#[test]
fn the_version_may_be_cut_at_each_byte(rt: HostRuntime) -> Result<(), Fail> {
    let mut folders = folders(rt.alloc())?;
    let words = ["gtfs", "--version"];
    assert_cut(&rt, rt.alloc(), &mut folders, &words, VERSION)?;
    assert_ends(&rt, rt.alloc(), &mut folders, &words, (0, VERSION, ""))
}

// Takes one byte a call, and after each call the next is interrupted.
#[derive(Drop)]
struct Trickle<'t> {
    text: &'t mut Vec<u8>,
    is_interrupted: bool,
}

impl<'t> Write for Trickle<'t> {
    fn write(&mut self, buf: &[u8]) -> io::Result<usize> {
        self.is_interrupted = !self.is_interrupted;
        if self.is_interrupted {
            return Err(Error::from(ErrorKind::Interrupted));
        }
        match buf {
            [first, ..] => {
                self.text.push(*first)?;
                Ok(1)
            }
            [] => Ok(0),
        }
    }

    fn flush(&mut self) -> io::Result<()> {
        Ok(())
    }
}

fn trickling<'t>(text: &'t mut Vec<u8>) -> WriteOut<Trickle<'t>> {
    WriteOut::new(Trickle {
        text,
        is_interrupted: false,
    })
}

#[test]
fn outputs_may_take_a_byte_a_call(rt: HostRuntime) -> Result<(), Fail> {
    let mut folders = folders(rt.alloc())?;
    put_feed(&mut folders, "f2")?;
    let board = asked("f1", "z1", "S1");
    let sheets = timetable_asked("f1", "R1");
    let refused = asked("f1", "z1", "S9");
    let cases = [
        (CHECK.as_slice(), (0, "errors 0 warnings 0\n", "")),
        (board.as_slice(), (0, FIRST_LINE, "")),
        (sheets.as_slice(), (0, SHEET, "")),
        (MERGE.as_slice(), (0, JOINED, "")),
        (["gtfs", "-V"].as_slice(), (0, VERSION, "")),
        (refused.as_slice(), (1, "", "gtfs: unknown stop\n")),
    ];
    for (words, wanted) in cases {
        assert_trickles(&rt, rt.alloc(), &mut folders, words, wanted)?;
    }
    Ok(())
}

fn assert_trickles(
    rt: &impl Abort,
    alloc: Global,
    folders: &mut MemoryFolders,
    words: &[&str],
    wanted: (u8, &str, &str),
) -> Result<(), Fail> {
    let mut out = Vec::new(alloc);
    let mut err = Vec::new(alloc);
    let status = run(
        alloc,
        fixed()?,
        words,
        folders,
        &mut trickling(&mut out),
        &mut trickling(&mut err),
    );
    let ended = (status, str::from_utf8(&out)?, str::from_utf8(&err)?);
    assert_case(rt, ended, wanted, "end", words);
    Ok(())
}

// Words that end with this status and this line, of which an error output may take less.
fn assert_told(
    rt: &impl Abort,
    alloc: Global,
    folders: &mut MemoryFolders,
    words: &[&str],
    (status, line): (u8, &str),
) -> Result<(), Fail> {
    for room in 0..line.len() {
        let ended = Ended::of(alloc, fixed()?, folders, words, (ROOM, room))?;
        let wanted = (status, "", start_of(line, room)?);
        assert_case(rt, ended.seen()?, wanted, "end", room);
    }
    Ok(())
}

#[test]
fn an_error_output_that_fails_changes_no_status(rt: HostRuntime) -> Result<(), Fail> {
    let mut folders = folders(rt.alloc())?;
    let board = asked("f1", "z1", "S9");
    let sheets = timetable_asked("f1", "R9");
    let check = ["gtfs", "check", "none"];
    let cases = [
        (board.as_slice(), (1, "gtfs: unknown stop\n")),
        (sheets.as_slice(), (1, "gtfs: unknown route\n")),
        (check.as_slice(), (3, "gtfs: none is not there\n")),
    ];
    for (words, told) in cases {
        assert_told(&rt, rt.alloc(), &mut folders, words, told)?;
    }
    Ok(())
}

// Words without a command are refused, also where the error output takes nothing.
fn assert_no_command(
    rt: &impl Abort,
    alloc: Global,
    folders: &mut MemoryFolders,
    words: &[&str],
) -> Result<(), Fail> {
    for room in [0, ROOM] {
        let ended = Ended::of(alloc, fixed()?, folders, words, (ROOM, room))?;
        let (status, printed, told) = ended.seen()?;
        let is_told = told.contains("requires a subcommand");
        let found = (status, printed, is_told);
        assert_case(rt, found, (2, "", room > 0), "end", room);
    }
    Ok(())
}

// No words at all, not even the program's name, and the name alone.
#[test]
fn words_without_a_command_are_refused(rt: HostRuntime) -> Result<(), Fail> {
    let mut folders = folders(rt.alloc())?;
    assert_no_command(&rt, rt.alloc(), &mut folders, &[])?;
    assert_no_command(&rt, rt.alloc(), &mut folders, &["gtfs"])
}
