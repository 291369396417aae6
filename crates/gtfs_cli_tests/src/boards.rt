//! Boards of which only some lines are asked for, and feeds that have none.

use crate::assertions::assert_case;
use crate::ended::Ended;
use crate::fixtures::{FIRST_LINE, ROOM, asked, asked_with, assert_ends, folders, state_of};
use std::test::Fail;

#[test]
fn a_limit_cuts_a_board(rt: HostRuntime) -> Result<(), Fail> {
    let mut folders = folders(rt.alloc())?;
    for (limit, printed) in [("0", ""), ("1", FIRST_LINE), ("2147483647", FIRST_LINE)] {
        let words = asked_with("--limit", limit);
        assert_ends(&rt, rt.alloc(), &mut folders, &words, (0, printed, ""))?;
    }
    for limit in ["", "+1", "2147483648"] {
        let words = asked_with("--limit", limit);
        let ended = (2, "", "gtfs: bad value of --limit\n");
        assert_ends(&rt, rt.alloc(), &mut folders, &words, ended)?;
    }
    Ok(())
}

#[test]
fn a_board_begins_after_a_key(rt: HostRuntime) -> Result<(), Fail> {
    let mut folders = folders(rt.alloc())?;
    let cases = [
        ("@1711958400/T1/28800/1/20240401", ""),
        ("@1711958400/T1/28800/0/20240401", FIRST_LINE),
        ("@1711958400/T0/28800/1/20240401", FIRST_LINE),
    ];
    for (key, printed) in cases {
        let words = asked_with("--after", key);
        assert_ends(&rt, rt.alloc(), &mut folders, &words, (0, printed, ""))?;
    }
    let cases = [
        "@01711837800/T1/1800/5/20240331",
        "@-0/T1/0/1/20240331",
        "@0/T1/3600000/1/20240331",
    ];
    for key in cases {
        let words = asked_with("--after", key);
        let ended = (2, "", "gtfs: bad value of --after\n");
        assert_ends(&rt, rt.alloc(), &mut folders, &words, ended)?;
    }
    Ok(())
}

#[test]
fn a_feed_with_errors_has_no_board(rt: HostRuntime) -> Result<(), Fail> {
    let mut folders = folders(rt.alloc())?;
    folders.put("f1", "agency.txt", b"agency_name\n")?;
    let words = asked_with("--limit", "1");
    let ended = (1, "", "gtfs: f1 has errors\n");
    assert_ends(&rt, rt.alloc(), &mut folders, &words, ended)
}

#[test]
fn the_random_state_changes_no_board(rt: HostRuntime) -> Result<(), Fail> {
    let mut folders = folders(rt.alloc())?;
    let words = asked("f1", "z1", "S1");
    for byte in [0, 1, 255] {
        let random = state_of(byte)?;
        let rooms = (ROOM, ROOM);
        let ended = Ended::of(rt.alloc(), random, &mut folders, &words, rooms)?;
        assert_case(&rt, ended.seen()?, (0, FIRST_LINE, ""), "end", byte);
    }
    Ok(())
}
