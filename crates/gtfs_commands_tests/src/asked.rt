//! Words that ask for a command.

use crate::asserts::{assert_equal, assert_equal_at};
use gtfs_commands::{Command, read_words};
use std::test::Fail;

#[test]
fn check_has_its_folder(rt: HostRuntime) -> Result<(), Fail> {
    let Ok(Command::Check(texts)) = read_words(rt.alloc(), &["gtfs", "check", "f1"]) else {
        return Err("no check".into());
    };
    assert_equal(&rt, texts.dir, "f1");
    let flags = (texts.values, texts.summary, texts.advise);
    assert_equal(&rt, flags, (false, false, false));
    assert_equal(&rt, texts.day, None);
    Ok(())
}

// Words of a check, and which of its flags they have.
const CHECKS: &[(&[&str], (bool, bool, bool), Option<&str>)] = &[
    (
        &["gtfs", "check", "f1", "--values"],
        (true, false, false),
        None,
    ),
    (
        &["gtfs", "check", "--summary", "f1"],
        (false, true, false),
        None,
    ),
    (
        &["gtfs", "check", "f1", "--advise"],
        (false, false, true),
        None,
    ),
    (
        &["gtfs", "check", "f1", "--day", "20240401"],
        (false, false, false),
        Some("20240401"),
    ),
    (
        &[
            "gtfs",
            "check",
            "--day=",
            "--summary",
            "--advise",
            "--values",
            "--",
            "f1",
        ],
        (true, true, true),
        Some(""),
    ),
];

#[test]
fn check_has_its_options_in_each_order(rt: HostRuntime) -> Result<(), Fail> {
    for &(words, flags, day) in CHECKS {
        let Ok(Command::Check(texts)) = read_words(rt.alloc(), words) else {
            return Err("no check".into());
        };
        assert_equal_at(&rt, words, texts.dir, "f1");
        let found = (texts.values, texts.summary, texts.advise);
        assert_equal_at(&rt, words, found, flags);
        assert_equal_at(&rt, words, texts.day, day);
    }
    Ok(())
}

#[test]
fn board_has_all_that_is_given(rt: HostRuntime) -> Result<(), Fail> {
    let words = [
        "gtfs",
        "board",
        "--after=@0/T/0/1/20240401",
        "--until",
        "@5",
        "--from",
        "20240401",
        "f1",
        "--stop=-x",
        "--zone",
        "z1",
        "--interpolate",
        "--limit",
        "",
    ];
    let Ok(Command::Board(board)) = read_words(rt.alloc(), &words) else {
        return Err("no board".into());
    };
    assert_equal(&rt, board.dir, "f1");
    assert_equal(&rt, board.zone, "z1");
    assert_equal(&rt, board.stop, "-x");
    assert_equal(&rt, board.from, "20240401");
    assert_equal(&rt, board.until, "@5");
    assert_equal(&rt, board.limit, Some(""));
    assert_equal(&rt, board.after, Some("@0/T/0/1/20240401"));
    assert_equal(&rt, board.interpolate, true);
    Ok(())
}

#[test]
fn boards_have_all_that_is_given(rt: HostRuntime) -> Result<(), Fail> {
    let words = [
        "gtfs",
        "boards",
        "--requests=-",
        "--interpolate",
        "f1",
        "--zone",
        "z1",
    ];
    let Ok(Command::Boards(boards)) = read_words(rt.alloc(), &words) else {
        return Err("no boards".into());
    };
    assert_equal(&rt, boards.dir, "f1");
    assert_equal(&rt, boards.zone, "z1");
    assert_equal(&rt, boards.requests, "-");
    assert_equal(&rt, boards.interpolate, true);
    Ok(())
}

#[test]
fn boards_may_lack_the_flag(rt: HostRuntime) -> Result<(), Fail> {
    let words = ["gtfs", "boards", "f1", "--zone=", "--requests", "r1"];
    let Ok(Command::Boards(boards)) = read_words(rt.alloc(), &words) else {
        return Err("no boards".into());
    };
    assert_equal(&rt, boards.zone, "");
    assert_equal(&rt, boards.requests, "r1");
    assert_equal(&rt, boards.interpolate, false);
    Ok(())
}

// The words of `serve` in each order.
const SERVES: &[&[&str]] = &[
    &["gtfs", "serve", "f1", "--zone", "-", "--interpolate"],
    &["gtfs", "serve", "f1", "--interpolate", "--zone=-"],
    &["gtfs", "serve", "--zone=-", "f1", "--interpolate"],
    &["gtfs", "serve", "--zone", "-", "--interpolate", "f1"],
    &["gtfs", "serve", "--interpolate", "f1", "--zone", "-"],
    &["gtfs", "serve", "--interpolate", "--zone=-", "f1"],
];

#[test]
fn serve_has_all_that_is_given_in_each_order(rt: HostRuntime) -> Result<(), Fail> {
    for &words in SERVES {
        let Ok(Command::Serve(serve)) = read_words(rt.alloc(), words) else {
            return Err("no serve".into());
        };
        assert_equal_at(&rt, words, serve.dir, "f1");
        assert_equal_at(&rt, words, serve.zone, "-");
        assert_equal_at(&rt, words, serve.interpolate, true);
    }
    Ok(())
}

#[test]
fn serve_may_lack_the_flag(rt: HostRuntime) -> Result<(), Fail> {
    let words = ["gtfs", "serve", "f1", "--zone", "z1"];
    let Ok(Command::Serve(serve)) = read_words(rt.alloc(), &words) else {
        return Err("no serve".into());
    };
    assert_equal(&rt, serve.dir, "f1");
    assert_equal(&rt, serve.zone, "z1");
    assert_equal(&rt, serve.interpolate, false);
    Ok(())
}

#[test]
fn timetable_may_lack_the_direction_and_the_flag(rt: HostRuntime) -> Result<(), Fail> {
    let words = [
        "gtfs",
        "timetable",
        "f1",
        "--route",
        "R1",
        "--date",
        "20240401",
    ];
    let Ok(Command::Timetable(timetable)) = read_words(rt.alloc(), &words) else {
        return Err("no timetable".into());
    };
    assert_equal(&rt, timetable.dir, "f1");
    assert_equal(&rt, timetable.route, "R1");
    assert_equal(&rt, timetable.date, "20240401");
    assert_equal(&rt, timetable.direction, None);
    assert_equal(&rt, timetable.interpolate, false);
    Ok(())
}

#[test]
fn timetable_has_its_direction_and_its_flag(rt: HostRuntime) -> Result<(), Fail> {
    let words = [
        "gtfs",
        "timetable",
        "f1",
        "--direction",
        "00",
        "--route",
        "R1",
        "--date",
        "20240401",
        "--interpolate",
    ];
    let Ok(Command::Timetable(timetable)) = read_words(rt.alloc(), &words) else {
        return Err("no timetable".into());
    };
    assert_equal(&rt, timetable.direction, Some("00"));
    assert_equal(&rt, timetable.interpolate, true);
    Ok(())
}

#[test]
fn merge_may_lack_its_options(rt: HostRuntime) -> Result<(), Fail> {
    let Ok(Command::Merge(merge)) = read_words(
        rt.alloc(),
        &["gtfs", "merge", "north", "south", "both"],
    ) else {
        return Err("no merge".into());
    };
    assert_equal(&rt, merge.a, "north");
    assert_equal(&rt, merge.b, "south");
    assert_equal(&rt, merge.out, "both");
    assert_equal(&rt, merge.near, None);
    assert_equal(&rt, merge.cutoff, None);
    Ok(())
}

#[test]
fn merge_has_all_that_is_given(rt: HostRuntime) -> Result<(), Fail> {
    let words = [
        "gtfs",
        "merge",
        "north",
        "--cutoff",
        "tomorrow",
        "--near=-1",
        "south",
        "both",
    ];
    let Ok(Command::Merge(merge)) = read_words(rt.alloc(), &words) else {
        return Err("no merge".into());
    };
    assert_equal(&rt, merge.a, "north");
    assert_equal(&rt, merge.b, "south");
    assert_equal(&rt, merge.out, "both");
    assert_equal(&rt, merge.near, Some("-1"));
    assert_equal(&rt, merge.cutoff, Some("tomorrow"));
    Ok(())
}

#[test]
fn options_of_a_merge_may_stand_before_the_folders(rt: HostRuntime) -> Result<(), Fail> {
    let words = [
        "gtfs",
        "merge",
        "--near=",
        "--cutoff=",
        "north",
        "south",
        "both",
    ];
    let Ok(Command::Merge(merge)) = read_words(rt.alloc(), &words) else {
        return Err("no merge".into());
    };
    assert_equal(&rt, merge.a, "north");
    assert_equal(&rt, merge.near, Some(""));
    assert_equal(&rt, merge.cutoff, Some(""));
    Ok(())
}
