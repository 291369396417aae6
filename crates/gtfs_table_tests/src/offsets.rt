//! Records of many fields and of long ones. Where fields begin is kept in two bytes each as long as
//! these are enough, and records are kept in another way from 254 bytes and fields together on, and
//! from 65,535 bytes on.
use crate::assertions::{assert_is, assert_is_at, assert_that};
use crate::shown::tables_of;
use gtfs_field::OutOfMemory;
use gtfs_table::{File, Tables};
use std::alloc::Global;
use std::process::Abort;
use std::test::Fail;

// More bytes than two bytes can count.
const LONG: usize = 70_000;

// A record of 201 fields: the numbers from 0, and a last one.
fn push_numbers(alloc: Global, text: &mut String) -> Result<(), OutOfMemory> {
    for n in 0..200 {
        text.push_str(format!(in alloc; "{n},")?.as_str())?;
    }
    text.push_str("end\n")
}

// A record with a long field between two short ones, between two records of 201 fields.
fn push_long_between(alloc: Global, text: &mut String) -> Result<(), OutOfMemory> {
    push_numbers(alloc, text)?;
    text.push_str("a,")?;
    text.push_str("x".repeat(alloc, LONG)?.as_str())?;
    text.push_str(",b\n")?;
    push_numbers(alloc, text)
}

// The record `p,q,r`, after those that the table has.
fn push_record(tables: &mut Tables) -> Result<(), OutOfMemory> {
    tables.push_record(File::Trips, "p")?;
    for field in ["q", "r"] {
        if tables.records(File::Trips) > 0 {
            tables.push_field(File::Trips, field)?;
        }
    }
    Ok(())
}

// The text stays as it is where it is written again, and a record is pushed after it.
fn assert_kept(rt: &impl Abort, alloc: Global, text: &mut String, what: &str) -> Result<(), Fail> {
    let mut tables = tables_of(alloc, File::Trips, text.as_bytes())?;
    push_record(&mut tables)?;
    let bytes = tables.write(alloc, File::Trips)?.ok_or("no text")?;
    text.push_str("p,q,r\n")?;
    assert_that(rt, bytes.as_slice() == text.as_bytes(), what);
    Ok(())
}

#[test]
fn fields_are_kept_with_many_others_and_after_a_long_one(rt: HostRuntime) -> Result<(), Fail> {
    let mut text = String::new(rt.alloc());
    for _ in 0..5 {
        push_numbers(rt.alloc(), &mut text)?;
    }
    assert_kept(&rt, rt.alloc(), &mut text, "many fields are kept")?;
    push_long_between(rt.alloc(), &mut text)?;
    assert_kept(
        &rt,
        rt.alloc(),
        &mut text,
        "fields after a long one are kept",
    )
}

// A row, how many fields its record has, the index of a field, its length and how it begins.
const FIELDS: &[(usize, usize, usize, usize, &str)] = &[
    (1, 201, 0, 1, "0"),
    (1, 201, 64, 2, "64"),
    (1, 201, 127, 3, "127"),
    (1, 201, 200, 3, "end"),
    (2, 3, 0, 1, "a"),
    (2, 3, 1, 70_000, "xxx"),
    (2, 3, 2, 1, "b"),
    (3, 201, 0, 1, "0"),
    (3, 201, 64, 2, "64"),
    (3, 201, 127, 3, "127"),
    (3, 201, 200, 3, "end"),
];

#[test]
fn a_long_field_stands_between_its_neighbours(rt: HostRuntime) -> Result<(), Fail> {
    let mut text = String::new(rt.alloc());
    push_long_between(rt.alloc(), &mut text)?;
    let tables = tables_of(rt.alloc(), File::Trips, text.as_bytes())?;
    for &(row, count, index, length, begin) in FIELDS {
        let record = tables.record(File::Trips, row);
        let field = record.field(index);
        let found = (record.len(), field.len(), field.starts_with(begin));
        assert_is_at(&rt, found, (count, length, true), "field at", (row, index));
    }
    Ok(())
}

// A record of two long fields.
fn two_long(alloc: Global) -> Result<[String; 2], OutOfMemory> {
    Ok(["x".repeat(alloc, LONG)?, "y".repeat(alloc, LONG)?])
}

fn push_two_long(tables: &mut Tables, [x, y]: &[String; 2]) -> Result<(), OutOfMemory> {
    tables.push_record(File::Trips, x.as_str())?;
    if tables.records(File::Trips) > 0 {
        tables.push_field(File::Trips, y.as_str())?;
    }
    Ok(())
}

#[test]
fn long_fields_are_pushed_and_written(rt: HostRuntime) -> Result<(), Fail> {
    let fields = two_long(rt.alloc())?;
    let mut tables = Tables::empty(rt.alloc());
    push_two_long(&mut tables, &fields)?;
    let first = tables.field(File::Trips, 1, 0).len();
    let second = tables.field(File::Trips, 1, 1).len();
    assert_is(&rt, (first, second), (LONG, LONG), "lengths");
    let bytes = tables.write(rt.alloc(), File::Trips)?.ok_or("no text")?;
    let wanted = format!(in rt.alloc(); "{},{}\n", fields[0], fields[1])?;
    assert_that(
        &rt,
        bytes.as_slice() == wanted.as_bytes(),
        "both are written",
    );
    Ok(())
}

// How many fields a record has, all of them empty but for the last one, which has so many bytes.
const LENGTHS: &[(usize, usize)] = &[
    (1, 1),
    (1, 252),
    (1, 253),
    (1, 254),
    (1, 255),
    (1, 256),
    (1, 65_535),
    (1, 65_536),
    (2, 0),
    (252, 0),
    (253, 0),
    (254, 0),
    (255, 0),
    (256, 0),
    (257, 0),
];

// Such a record after a short one.
fn after_short(alloc: Global, count: usize, length: usize) -> Result<String, OutOfMemory> {
    let mut text = String::from_str(alloc, "a,b,c\n")?;
    text.push_str(",".repeat(alloc, count.saturating_sub(1))?.as_str())?;
    text.push_str("x".repeat(alloc, length)?.as_str())?;
    Ok(text)
}

// The record in the middle has these fields, and the others are as they were.
fn assert_between(rt: &impl Abort, tables: &Tables, count: usize, length: usize) {
    let middle = tables.record(File::Trips, 2);
    let last = middle.field(count.saturating_sub(1)).len();
    let lengths = (tables.records(File::Trips), middle.len(), last);
    let case = (count, length);
    assert_is_at(rt, lengths, (3, count, length), "fields of", case);
    let before = tables.record(File::Trips, 1).field(2);
    let after = tables.record(File::Trips, 3).field(1);
    assert_is_at(rt, (before, after), ("c", "q"), "beside", case);
}

#[test]
fn a_record_of_each_length_stands_between_its_neighbours(rt: HostRuntime) -> Result<(), Fail> {
    for &(count, length) in LENGTHS {
        let mut text = after_short(rt.alloc(), count, length)?;
        text.push_str("\np,q\n")?;
        let tables = tables_of(rt.alloc(), File::Trips, text.as_bytes())?;
        assert_between(&rt, &tables, count, length);
    }
    Ok(())
}

// What is written of a table that was read, and whose last record then got one more field.
fn written_with(alloc: Global, text: &str, field: &str) -> Result<Vec<u8>, Fail> {
    let mut tables = tables_of(alloc, File::Trips, text.as_bytes())?;
    if tables.records(File::Trips) > 0 {
        tables.push_field(File::Trips, field)?;
    }
    Ok(tables.write(alloc, File::Trips)?.ok_or("no text")?)
}

#[test]
fn a_record_that_was_read_gets_one_more_field(rt: HostRuntime) -> Result<(), Fail> {
    for &(count, length) in LENGTHS {
        let mut text = after_short(rt.alloc(), count, length)?;
        let bytes = written_with(rt.alloc(), text.as_str(), "e")?;
        text.push_str(",e\n")?;
        let is_there = bytes.as_slice() == text.as_bytes();
        assert_is_at(&rt, is_there, true, "one more after", (count, length));
    }
    Ok(())
}
