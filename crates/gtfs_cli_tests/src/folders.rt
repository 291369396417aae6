//! Folders of which a call fails, and folders and files that a disk has not.

use crate::fixtures::{
    CHECK, FIRST_LINE, SHEET, asked, assert_ends, folders, folders_failing_at, put_utc,
    timetable_asked,
};
use std::test::Fail;

// A call for the names of the folder, one for each of nine files, and one for the zone file.
#[test]
fn a_device_that_fails_cannot_be_read(rt: HostRuntime) -> Result<(), Fail> {
    let words = asked("f1", "z1", "S1");
    for call in 1..11 {
        let mut folders = folders_failing_at(rt.alloc(), call)?;
        let ended = (3, "", "gtfs: f1 cannot be read\n");
        assert_ends(&rt, rt.alloc(), &mut folders, &words, ended)?;
    }
    let mut folders = folders_failing_at(rt.alloc(), 11)?;
    let ended = (3, "", "gtfs: z1 cannot be read\n");
    assert_ends(&rt, rt.alloc(), &mut folders, &words, ended)?;
    let mut folders = folders_failing_at(rt.alloc(), 12)?;
    assert_ends(&rt, rt.alloc(), &mut folders, &words, (0, FIRST_LINE, ""))
}

// A check calls for the names and for nine files.
#[test]
fn a_device_that_fails_cannot_be_checked(rt: HostRuntime) -> Result<(), Fail> {
    for call in 1..11 {
        let mut folders = folders_failing_at(rt.alloc(), call)?;
        let ended = (3, "", "gtfs: f1 cannot be read\n");
        assert_ends(&rt, rt.alloc(), &mut folders, &CHECK, ended)?;
    }
    let mut folders = folders_failing_at(rt.alloc(), 11)?;
    let ended = (0, "errors 0 warnings 0\n", "");
    assert_ends(&rt, rt.alloc(), &mut folders, &CHECK, ended)
}

// And so does a timetable.
#[test]
fn a_device_that_fails_has_no_timetable(rt: HostRuntime) -> Result<(), Fail> {
    let words = timetable_asked("f1", "R1");
    for call in 1..11 {
        let mut folders = folders_failing_at(rt.alloc(), call)?;
        let ended = (3, "", "gtfs: f1 cannot be read\n");
        assert_ends(&rt, rt.alloc(), &mut folders, &words, ended)?;
    }
    let mut folders = folders_failing_at(rt.alloc(), 11)?;
    assert_ends(&rt, rt.alloc(), &mut folders, &words, (0, SHEET, ""))
}

#[test]
fn a_file_over_the_limit_is_not_read(rt: HostRuntime) -> Result<(), Fail> {
    let mut folders = folders(rt.alloc())?;
    folders.put(".", "large", &[0; 1_001])?;
    let words = asked("f1", "./large", "S1");
    let ended = (3, "", "gtfs: ./large holds a file over the limit\n");
    assert_ends(&rt, rt.alloc(), &mut folders, &words, ended)?;
    folders.put("f1", "transfers.txt", &[0; 1_001])?;
    let ended = (3, "", "gtfs: f1 holds a file over the limit\n");
    assert_ends(&rt, rt.alloc(), &mut folders, &words, ended)?;
    assert_ends(&rt, rt.alloc(), &mut folders, &CHECK, ended)?;
    assert_ends(
        &rt,
        rt.alloc(),
        &mut folders,
        &timetable_asked("f1", "R1"),
        ended,
    )
}

#[test]
fn an_empty_text_names_no_folder(rt: HostRuntime) -> Result<(), Fail> {
    let mut folders = folders(rt.alloc())?;
    folders.put_folder("")?;
    let ended = (3, "", "gtfs:  is not there\n");
    assert_ends(&rt, rt.alloc(), &mut folders, &asked("", "z1", "S1"), ended)?;
    assert_ends(
        &rt,
        rt.alloc(),
        &mut folders,
        &timetable_asked("", "R1"),
        ended,
    )?;
    assert_ends(&rt, rt.alloc(), &mut folders, &["gtfs", "check", ""], ended)
}

#[test]
fn a_zone_file_has_a_name(rt: HostRuntime) -> Result<(), Fail> {
    let mut folders = folders(rt.alloc())?;
    put_utc(rt.alloc(), &mut folders, "zones", "")?;
    put_utc(rt.alloc(), &mut folders, ".", "")?;
    let slash = asked("f1", "zones/", "S1");
    let ended = (3, "", "gtfs: zones/ cannot be read\n");
    assert_ends(&rt, rt.alloc(), &mut folders, &slash, ended)?;
    let empty = asked("f1", "", "S1");
    let ended = (3, "", "gtfs:  cannot be read\n");
    assert_ends(&rt, rt.alloc(), &mut folders, &empty, ended)
}

#[test]
fn a_zone_file_may_lie_at_the_root(rt: HostRuntime) -> Result<(), Fail> {
    let mut folders = folders(rt.alloc())?;
    let words = asked("f1", "/utc", "S1");
    let absent = (3, "", "gtfs: /utc is not there\n");
    assert_ends(&rt, rt.alloc(), &mut folders, &words, absent)?;
    put_utc(rt.alloc(), &mut folders, "/", "utc")?;
    assert_ends(&rt, rt.alloc(), &mut folders, &words, (0, FIRST_LINE, ""))
}
