//! Large outputs, files, folders and records: memory alone bounds their sizes.
use crate::assertions::{assert_is, assert_is_at};
use crate::shown::tables_of;
use gtfs_field::Text;
use gtfs_table::{File, Folders, MemoryFolders, MemoryOut, Out, Tables, write_text};
use std::alloc::{AllocError, Global};
use std::process::Abort;
use std::test::Fail;

#[test]
fn an_output_may_have_room_for_a_hundred_megabytes(rt: HostRuntime) -> Result<(), Fail> {
    let mut out = MemoryOut::new(rt.alloc(), 100_000_001)?;
    let written = write_text(&mut out, b"departure");
    let found = (written, out.bytes(), out.failures());
    assert_is(&rt, found, (Ok(()), b"departure".as_slice(), 0), "written");
    Ok(())
}

// Ten bytes over and over, seventy thousand bytes in all.
fn file_part(alloc: Global) -> Result<Vec<u8>, AllocError> {
    let mut part = Vec::new(alloc);
    for _ in 0..7_000 {
        part.extend_from_slice(b"0123456789")?;
    }
    Ok(part)
}

// The same, seventy million bytes in all.
fn large_file(alloc: Global) -> Result<Vec<u8>, AllocError> {
    let part = file_part(alloc)?;
    let mut bytes = Vec::with_capacity(alloc, 70_000_000)?;
    for _ in 0..1_000 {
        bytes.extend_from_slice(&part)?;
    }
    Ok(bytes)
}

// Its ends and its length alone: all its bytes take long to compare where the tests run unproved.
fn assert_large(rt: &impl Abort, alloc: Global, folders: &mut MemoryFolders) -> Result<(), Fail> {
    let file = folders.read(alloc, "f1", "stops.txt")?.ok_or("no file")?;
    let found = (file.len(), file.first().copied(), file.last().copied());
    assert_is(
        rt,
        found,
        (70_000_000, Some(b'0'), Some(b'9')),
        "length and ends",
    );
    Ok(())
}

#[test]
fn a_file_of_seventy_megabytes_is_put(rt: HostRuntime) -> Result<(), Fail> {
    let mut folders = MemoryFolders::new(rt.alloc(), 100_000_000, None);
    folders.put("f1", "stops.txt", &large_file(rt.alloc())?)?;
    assert_large(&rt, rt.alloc(), &mut folders)
}

#[test]
fn a_file_of_seventy_megabytes_is_written(rt: HostRuntime) -> Result<(), Fail> {
    let mut folders = MemoryFolders::new(rt.alloc(), 100_000_000, None);
    folders.write(rt.alloc(), "f1", "stops.txt", &large_file(rt.alloc())?)?;
    assert_large(&rt, rt.alloc(), &mut folders)
}

// Files with numbers for names, the last one first.
fn put_numbers(alloc: Global, folders: &mut MemoryFolders) -> Result<(), Fail> {
    for number in (100_000_u32..170_000).rev() {
        folders.put("f1", format!(in alloc; "{number}")?.as_str(), b"")?;
    }
    Ok(())
}

// The names are those numbers.
fn assert_numbers(rt: &impl Abort, alloc: Global, names: &[Text]) -> Result<(), Fail> {
    assert_is(rt, names.len(), 70_000, "names");
    for (name, number) in names.iter().zip(100_000_u32..170_000) {
        let wanted = format!(in alloc; "{number}")?;
        assert_is(rt, name.as_str(), wanted.as_str(), "name");
    }
    Ok(())
}

// They are other names of the tables of the folder.
#[test]
fn a_folder_may_have_seventy_thousand_files(rt: HostRuntime) -> Result<(), Fail> {
    let mut folders = MemoryFolders::new(rt.alloc(), 100, None);
    put_numbers(rt.alloc(), &mut folders)?;
    assert_numbers(&rt, rt.alloc(), &folders.names(rt.alloc(), "f1")?)?;
    folders.put("f1", "stops.txt", b"stop_id\nS1\n")?;
    let tables = Tables::read(rt.alloc(), &mut folders, "f1")?;
    let value = tables.value(File::Stops, 2, "stop_id");
    assert_is(&rt, value, "S1", "value");
    assert_numbers(&rt, rt.alloc(), tables.others())
}

// This field so many times, each with a comma after it, and then the last one of the record.
fn push_fields(
    text: &mut Vec<u8>,
    field: &[u8],
    times: u32,
    last: &[u8],
) -> Result<(), AllocError> {
    for _ in 0..times {
        text.extend_from_slice(field)?;
    }
    text.extend_from_slice(last)
}

#[test]
fn a_record_may_have_seventy_thousand_fields(rt: HostRuntime) -> Result<(), Fail> {
    let mut text = Vec::new(rt.alloc());
    push_fields(&mut text, b"c,", 69_999, b"end\n")?;
    push_fields(&mut text, b"1,", 69_999, b"last\n")?;
    let tables = tables_of(rt.alloc(), File::Trips, &text)?;
    for row in [1, 2] {
        let fields = tables.fields(File::Trips, row);
        assert_is_at(&rt, fields, 70_000, "fields of row", row);
    }
    let column = tables.column(File::Trips, "end");
    let field = tables.field(File::Trips, 2, 69_998);
    let value = tables.value(File::Trips, 2, "end");
    let found = (column, field, value);
    assert_is(&rt, found, (Some(69_999), "1", "last"), "column and fields");
    Ok(())
}
