//! Boards of the requests of a file:
//! which requests a text has, which line is refused first, and what goes out.

use crate::assertions::assert_is;
use crate::ended::Ended;
use crate::fixtures::{
    FIRST_LINE, OUTPUT_FAILED, ROOM, assert_ends, boards_asked, fixed, folders, folders_failing_at,
    folders_within,
};
use crate::outputs::assert_cut;
use gtfs_table::MemoryFolders;
use std::alloc::Global;
use std::process::Abort;
use std::test::Fail;

const ASKED: &str = "S1\t20240401\t20240402\nS3\t@0\t@5\nS1\t20240401\t@1711958401\n";

const BOARDS: &str = "== S1 20240401 20240402\n\
@1711958400/T1/28800/1/20240401\t2024-04-01 08:00:00+00:00\tS1\t10\t\ts\n\
== S3 @0 @5\n\
== S1 20240401 @1711958401\n\
@1711958400/T1/28800/1/20240401\t2024-04-01 08:00:00+00:00\tS1\t10\t\ts\n";

// The words that ask for the boards of these bytes end so.
fn assert_boards(
    rt: &impl Abort,
    alloc: Global,
    requests: &[u8],
    wanted: (u8, &str, &str),
) -> Result<(), Fail> {
    let mut folders = folders(alloc)?;
    folders.put(".", "r1", requests)?;
    assert_ends(
        rt,
        alloc,
        &mut folders,
        &boards_asked("f1", "z1", "r1"),
        wanted,
    )
}

#[test]
fn each_request_has_a_heading_and_its_board(rt: HostRuntime) -> Result<(), Fail> {
    assert_boards(&rt, rt.alloc(), ASKED.as_bytes(), (0, BOARDS, ""))
}

// Texts that ask for the first board alone: of one line, and of more.
const FIRSTS: &[&[u8]] = &[
    b"S1\t20240401\t20240402",
    b"S1\t20240401\t20240402\r\n",
    b"\n\r\nS1\t20240401\t20240402\n\n",
    b"\xEF\xBB\xBFS1\t20240401\t20240402\n",
    b"\xEF\xBB\xBF\xEF\xBB\xBF\r\nS1\t20240401\t20240402",
    b"S1\t20240401\t20240402\t",
    b"S1\t20240401\t20240402\t\t",
    b"S1\t20240401\t20240402\t1\n",
    b"S1\t20240401\t20240402\t2147483647\t\n",
    b"S1\t20240401\t20240402\t\t@1711958400/T1/28800/0/20240401\n",
];

#[test]
fn a_line_ends_and_lacks_fields_in_many_ways(rt: HostRuntime) -> Result<(), Fail> {
    let mut folders = folders(rt.alloc())?;
    folders.put(".", "first", b"S1\t20240401\t20240402\n")?;
    let words = boards_asked("f1", "z1", "first");
    let ended = Ended::of(rt.alloc(), fixed()?, &mut folders, &words, (ROOM, ROOM))?;
    let (_, board, _) = ended.seen()?;
    let start = "== S1 20240401 20240402\n";
    assert_is(&rt, board.strip_prefix(start), Some(FIRST_LINE), "board");
    for text in FIRSTS {
        assert_boards(&rt, rt.alloc(), text, (0, board, ""))?;
    }
    Ok(())
}

// Texts whose boards have no lines, and what is printed of them.
const EMPTY: &[(&[u8], &str)] = &[
    (b"", ""),
    (b"\n\r\n\n", ""),
    (b"\xEF\xBB\xBF", ""),
    (
        b"S1\t20240401\t20240402\t0\t\n",
        "== S1 20240401 20240402\n",
    ),
    (
        b"S1\t20240401\t20240402\t5\t@1711958400/T1/28800/1/20240401",
        "== S1 20240401 20240402\n",
    ),
    (b"S3\t@5\t@5\n", "== S3 @5 @5\n"),
];

#[test]
fn a_board_may_have_no_lines(rt: HostRuntime) -> Result<(), Fail> {
    for &(text, printed) in EMPTY {
        assert_boards(&rt, rt.alloc(), text, (0, printed, ""))?;
    }
    Ok(())
}

// Texts with a refused line, and what is told of the first.
const REFUSED: &[(&[u8], u8, &str)] = &[
    (b"S1\t@0\n", 2, "gtfs: bad request in line 1\n"),
    (b"S1 @0 @1\n", 2, "gtfs: bad request in line 1\n"),
    (b"S1\t@0\t@1\t\t\t\n", 2, "gtfs: bad request in line 1\n"),
    (b"S1\t@0\t@1\t-1\n", 2, "gtfs: bad request in line 1\n"),
    (b"S1\t@0\t@1\t1\t@0\n", 2, "gtfs: bad request in line 1\n"),
    (b"S1\t0\t@1\n", 2, "gtfs: bad request in line 1\n"),
    (b"S1\t@0\t\n", 2, "gtfs: bad request in line 1\n"),
    (b"S1\t@0\t@1\r", 2, "gtfs: bad request in line 1\n"),
    (b"S1\t@0\t@1\r\r\n", 2, "gtfs: bad request in line 1\n"),
    (b" \n", 2, "gtfs: bad request in line 1\n"),
    (b"S1 \t@0\t@1\n", 1, "gtfs: unknown stop in line 1\n"),
    (b"\t@0\t@1\n", 1, "gtfs: unknown stop in line 1\n"),
    (b"S9\t@1\t@0\n", 1, "gtfs: unknown stop in line 1\n"),
    (b"S9\t@1\t@x\n", 2, "gtfs: bad request in line 1\n"),
    (
        b"S1\t@1\t@0\n",
        2,
        "gtfs: until lies before from in line 1\n",
    ),
    (
        b"S1\t20240402\t20240401\n",
        2,
        "gtfs: until lies before from in line 1\n",
    ),
    (
        b"S1\t@0\t@1\n\r\nS9\t@0\t@1\nS1\n",
        1,
        "gtfs: unknown stop in line 3\n",
    ),
    (
        b"S1\t@0\t@1\nS1\t@1\t@0\nS9\t@0\t@1\n",
        2,
        "gtfs: until lies before from in line 2\n",
    ),
    (
        b"S1\t20240401\t20240402\nS3\t@0\t@1\nS1",
        2,
        "gtfs: bad request in line 3\n",
    ),
];

#[test]
fn the_first_refused_line_is_told_and_nothing_printed(rt: HostRuntime) -> Result<(), Fail> {
    for &(text, status, line) in REFUSED {
        assert_boards(&rt, rt.alloc(), text, (status, "", line))?;
    }
    Ok(())
}

#[test]
fn a_requests_file_has_to_be_utf8(rt: HostRuntime) -> Result<(), Fail> {
    for text in [b"\xFF".as_slice(), b"S1\nS\xC3\n", b"\xFE\xFFS1\t@0\t@1\n"] {
        let ended = (3, "", "gtfs: r1 cannot be read\n");
        assert_boards(&rt, rt.alloc(), text, ended)?;
    }
    Ok(())
}

// Words of which something is the matter with a file, and what is told:
// the first in the order of work.
const FAULTS: &[([&str; 3], u8, &str)] = &[
    (["f9", "z9", "r9"], 3, "gtfs: f9 is not there\n"),
    (["f2", "z9", "r9"], 1, "gtfs: f2 has errors\n"),
    (["f1", "z9", "r9"], 3, "gtfs: z9 is not there\n"),
    (["f1", "r1", "r9"], 3, "gtfs: r1 is no zone file\n"),
    (["f1", "z1", "r9"], 3, "gtfs: r9 is not there\n"),
    (["f1", "z1", "f9/r1"], 3, "gtfs: f9/r1 is not there\n"),
    (["f1", "z1", "r1/"], 3, "gtfs: r1/ cannot be read\n"),
    (["f1", "z1", ""], 3, "gtfs:  cannot be read\n"),
    (
        ["f1", "z1", "./large"],
        3,
        "gtfs: ./large holds a file over the limit\n",
    ),
    (["f1", "z1", "r2"], 2, "gtfs: bad request in line 1\n"),
];

#[test]
fn files_are_judged_in_order(rt: HostRuntime) -> Result<(), Fail> {
    let mut folders = folders(rt.alloc())?;
    folders.put("f2", "agency.txt", b"agency_name\n")?;
    folders.put(".", "r1", ASKED.as_bytes())?;
    folders.put(".", "r2", b"S1\n")?;
    folders.put(".", "large", &[b'\n'; 1_001])?;
    folders.put(".", "fits", &[b'\n'; 1_000])?;
    for &([dir, zone, requests], status, line) in FAULTS {
        let words = boards_asked(dir, zone, requests);
        assert_ends(&rt, rt.alloc(), &mut folders, &words, (status, "", line))?;
    }
    let words = boards_asked("f1", "z1", "./fits");
    assert_ends(&rt, rt.alloc(), &mut folders, &words, (0, "", ""))
}

// The longest file of the feed has 123 bytes.
#[test]
fn a_requests_file_may_be_as_long_as_the_limit(rt: HostRuntime) -> Result<(), Fail> {
    let mut folders = folders_within(rt.alloc(), 123)?;
    folders.put(".", "r1", &[b'\n'; 124])?;
    let words = boards_asked("f1", "z1", "r1");
    let over = (3, "", "gtfs: r1 holds a file over the limit\n");
    assert_ends(&rt, rt.alloc(), &mut folders, &words, over)?;
    folders.put(".", "r1", &[b'\n'; 123])?;
    assert_ends(&rt, rt.alloc(), &mut folders, &words, (0, "", ""))
}

// Ten calls for the folder, one for the zone file, and one for the file of requests.
#[test]
fn a_device_that_fails_has_no_boards(rt: HostRuntime) -> Result<(), Fail> {
    let words = boards_asked("f1", "z1", "r1");
    for call in 1..13 {
        let line = match call {
            11 => "gtfs: z1 cannot be read\n",
            12 => "gtfs: r1 cannot be read\n",
            _ => "gtfs: f1 cannot be read\n",
        };
        let mut folders = folders_failing_at(rt.alloc(), call)?;
        folders.put(".", "r1", ASKED.as_bytes())?;
        assert_ends(&rt, rt.alloc(), &mut folders, &words, (3, "", line))?;
    }
    let mut folders = folders_failing_at(rt.alloc(), 13)?;
    folders.put(".", "r1", ASKED.as_bytes())?;
    assert_ends(&rt, rt.alloc(), &mut folders, &words, (0, BOARDS, ""))
}

#[test]
fn boards_may_be_cut_at_each_byte(rt: HostRuntime) -> Result<(), Fail> {
    let mut folders = folders(rt.alloc())?;
    folders.put(".", "r1", ASKED.as_bytes())?;
    let words = boards_asked("f1", "z1", "r1");
    assert_cut(&rt, rt.alloc(), &mut folders, &words, BOARDS)
}

// So many lines of which each is fine.
const MANY: usize = 70_000;

// A device with a file of many lines, whose last is this one.
fn long(alloc: Global, last: &[u8]) -> Result<MemoryFolders, Fail> {
    let mut text = Vec::new(alloc);
    for _ in 0..MANY {
        text.extend_from_slice(b"S3\t@0\t@5\n")?;
    }
    text.extend_from_slice(last)?;
    let mut folders = folders_within(alloc, 1_000_000)?;
    folders.put(".", "r1", &text)?;
    Ok(folders)
}

#[test]
fn nothing_is_printed_before_the_last_line_is_judged(rt: HostRuntime) -> Result<(), Fail> {
    let mut folders = long(rt.alloc(), b"S9\t@0\t@5\n")?;
    let words = boards_asked("f1", "z1", "r1");
    let ended = (1, "", "gtfs: unknown stop in line 70001\n");
    assert_ends(&rt, rt.alloc(), &mut folders, &words, ended)
}

#[test]
fn many_boards_are_printed_as_far_as_the_output_takes_them(rt: HostRuntime) -> Result<(), Fail> {
    let mut folders = long(rt.alloc(), b"")?;
    let words = boards_asked("f1", "z1", "r1");
    let rooms = (MANY * 12 - 1, ROOM);
    let ended = Ended::of(rt.alloc(), fixed()?, &mut folders, &words, rooms)?;
    let (status, printed, told) = ended.seen()?;
    let found = (status, printed.len(), told);
    assert_is(
        &rt,
        found,
        (3, MANY * 12 - 1, OUTPUT_FAILED),
        "end of many boards",
    );
    Ok(())
}
