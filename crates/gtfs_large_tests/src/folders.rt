//! Folders, names, records and fields, more of each than two bytes can number.

use crate::assertions::{assert_is, assert_that};
use gtfs_field::{OutOfMemory, push_count};
use gtfs_rules::{Code, check};
use gtfs_table::{File, Folders, MemoryFolders, Tables};
use std::alloc::Global;
use std::test::Fail;

const MANY: u32 = 70_000;

// A number as a name.
fn name_of(alloc: Global, number: u32) -> Result<String, OutOfMemory> {
    let mut name = String::new(alloc);
    push_count(alloc, &mut name, number)?;
    Ok(name)
}

fn put_folders(alloc: Global, folders: &mut MemoryFolders) -> Result<(), OutOfMemory> {
    for number in 0..MANY {
        folders.put_folder(name_of(alloc, number)?.as_str())?;
    }
    Ok(())
}

#[test]
fn many_folders_are_put(rt: HostRuntime) -> Result<(), Fail> {
    let mut folders = MemoryFolders::new(rt.alloc(), 100, None);
    put_folders(rt.alloc(), &mut folders)?;
    for dir in ["0", "69999"] {
        assert_is(&rt, folders.names(rt.alloc(), dir)?.len(), 0, dir);
    }
    assert_that(&rt, folders.names(rt.alloc(), "70000").is_err(), "no more");
    folders.put("f1", "stops.txt", b"stop_id\nS1\n")?;
    let file = folders.read(rt.alloc(), "f1", "stops.txt")?;
    assert_that(&rt, file.is_some(), "and one with a file");
    Ok(())
}

// Files that are none of a feed.
fn put_others(alloc: Global, folders: &mut MemoryFolders) -> Result<(), OutOfMemory> {
    for number in 0..MANY {
        folders.put("f1", name_of(alloc, number)?.as_str(), b"")?;
    }
    Ok(())
}

// How many files are told to be none of a feed.
fn other_count(alloc: Global, tables: &Tables) -> Result<usize, OutOfMemory> {
    let report = check(alloc, tables)?;
    let mut count = 0usize;
    for problem in report.problems() {
        if problem.code == Code::W03 {
            count = count.saturating_add(1);
        }
    }
    Ok(count)
}

#[test]
fn many_other_files_are_told(rt: HostRuntime) -> Result<(), Fail> {
    let mut folders = MemoryFolders::new(rt.alloc(), 100, None);
    put_others(rt.alloc(), &mut folders)?;
    let tables = Tables::read(rt.alloc(), &mut folders, "f1")?;
    assert_is(&rt, tables.others().len(), 70_000, "names");
    assert_is(&rt, other_count(rt.alloc(), &tables)?, 70_000, "problems");
    Ok(())
}

// Many records of one field each, and many fields more of the last one.
fn push_many(tables: &mut Tables) -> Result<(), OutOfMemory> {
    for _ in 0..MANY {
        tables.push_record(File::Trips, "T")?;
    }
    for _ in 0..MANY {
        if tables.records(File::Trips) > 0 {
            tables.push_field(File::Trips, "f")?;
        }
    }
    Ok(())
}

#[test]
fn many_records_and_fields_are_pushed_and_written(rt: HostRuntime) -> Result<(), Fail> {
    let mut tables = Tables::empty(rt.alloc());
    push_many(&mut tables)?;
    assert_is(&rt, tables.records(File::Trips), 70_000, "records");
    assert_is(&rt, tables.fields(File::Trips, 70_000), 70_001, "fields");
    let bytes = tables.write(rt.alloc(), File::Trips)?.ok_or("no text")?;
    // a letter and a line feed of each record, and a comma and a letter of each field more
    assert_is(&rt, bytes.len(), 280_000, "bytes");
    Ok(())
}
