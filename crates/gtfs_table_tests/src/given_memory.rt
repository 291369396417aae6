//! Folders that are read in memory that is handed in, mostly that of the tables of another folder.
use crate::assertions::{assert_is, assert_that};
use crate::shown::shown;
use gtfs_field::OutOfMemory;
use gtfs_table::{File, MemoryFolders, Tables};
use std::alloc::{AllocError, Global};
use std::process::Abort;
use std::test::Fail;

const SECOND: &[(&str, &[u8])] = &[
    ("notes.txt", b"none"),
    ("stop_times.txt", b"trip_id,stop_id\nT1,S1\n\nT2, S2 ,\n"),
    ("stops.txt", b"stop_id\nS1\n"),
    ("trips.txt", b"trip_id\n\xFF\n"),
];

const SECOND_SHOWN: &str = "agency.txt is absent\n\
stops.txt is read\n\
<stop_id>\n\
<S1>\n\
routes.txt is absent\n\
trips.txt is not UTF-8\n\
stop_times.txt is read\n\
<trip_id><stop_id>\n\
<T1><S1>\n\
<T2><S2><>\n\
calendar.txt is absent\n\
calendar_dates.txt is absent\n\
frequencies.txt is absent\n\
transfers.txt is absent\n\
notes.txt\n";

// The folder f1 with this stop_times.txt, if any, and the folder f2.
fn folders_of(alloc: Global, first: Option<&[u8]>) -> Result<MemoryFolders, OutOfMemory> {
    let mut folders = MemoryFolders::new(alloc, 100_000, None);
    folders.put("f1", "notes.txt", b"")?;
    if let Some(stop_times) = first {
        folders.put("f1", "stop_times.txt", stop_times)?;
    }
    for (name, bytes) in SECOND {
        folders.put("f2", name, bytes)?;
    }
    Ok(folders)
}

// A stop_times.txt that is much larger than that of the folder f2.
fn large_file(alloc: Global) -> Result<Vec<u8>, AllocError> {
    let mut bytes = Vec::new(alloc);
    bytes.extend_from_slice(b"trip_id,arrival_time,departure_time,stop_id,stop_sequence\n")?;
    for _ in 0..300 {
        bytes.extend_from_slice(b"T9,08:00:00,08:00:00,S9,1\n")?;
    }
    Ok(bytes)
}

// Holds the tables of the folder f2, read in this memory, to those that it has.
fn assert_second(
    rt: &impl Abort,
    alloc: Global,
    folders: &mut MemoryFolders,
    memory: Vec<u8>,
    what: &str,
) -> Result<(), Fail> {
    let found = shown(alloc, &Tables::read_in(alloc, folders, "f2", memory)?)?;
    assert_is(rt, found.as_str(), SECOND_SHOWN, what);
    Ok(())
}

// Reads the folder f2 in the memory of the tables of the folder f1.
fn assert_second_after(
    rt: &impl Abort,
    alloc: Global,
    first: Option<&[u8]>,
    what: &str,
) -> Result<(), Fail> {
    let mut folders = folders_of(alloc, first)?;
    let memory = Tables::read(alloc, &mut folders, "f1")?.into_memory();
    assert_is(rt, memory.len(), 0, "bytes in the memory");
    assert_second(rt, alloc, &mut folders, memory, what)
}

#[test]
fn a_folder_is_read_in_the_memory_of_another_one(rt: HostRuntime) -> Result<(), Fail> {
    let large = large_file(rt.alloc())?;
    for (first, what) in [
        (Some(large.as_slice()), "of a larger file"),
        (Some(b"trip_id\nT9\n"), "of a smaller file"),
        (Some(b"trip_id\nT9\n\xFF\n"), "of a file of no text"),
        (None, "of an absent file"),
    ] {
        assert_second_after(&rt, rt.alloc(), first, what)?;
    }
    Ok(())
}

// What is handed in may have bytes in it: they are let go.
#[test]
fn a_folder_is_read_in_memory_with_bytes_in_it(rt: HostRuntime) -> Result<(), Fail> {
    let mut folders = folders_of(rt.alloc(), None)?;
    let memory = large_file(rt.alloc())?;
    assert_second(&rt, rt.alloc(), &mut folders, memory, "of bytes")?;
    let alone = shown(rt.alloc(), &Tables::read(rt.alloc(), &mut folders, "f2")?)?;
    assert_is(&rt, alone.as_str(), SECOND_SHOWN, "alone");
    Ok(())
}

// How many bytes the fields of stop_times.txt come to.
fn field_bytes(tables: &Tables) -> usize {
    let mut size: usize = 0;
    for (_, record) in tables.rows(File::StopTimes) {
        for n in 0..record.len() {
            size = size.saturating_add(record.field(n).len());
        }
    }
    size
}

#[test]
fn a_large_file_leaves_memory_for_its_fields(rt: HostRuntime) -> Result<(), Fail> {
    let large = large_file(rt.alloc())?;
    let mut folders = folders_of(rt.alloc(), Some(&large))?;
    let tables = Tables::read(rt.alloc(), &mut folders, "f1")?;
    let size = field_bytes(&tables);
    let memory = tables.into_memory();
    let found = (size, memory.len());
    assert_is(
        &rt,
        found,
        (6_300, 0),
        "bytes of the fields and in the memory",
    );
    assert_that(&rt, memory.capacity() >= size, "room for the fields");
    Ok(())
}
