//! Feeds that are written, read and checked again, and feeds of two random states.

use crate::assertions::{assert_holds, assert_is};
use crate::full::FULL;
use gtfs_feed::Feed;
use gtfs_fixtures::{feed_with, read_by_draft};
use gtfs_table::{File, Folders, MemoryFolders, Tables};
use std::alloc::Global;
use std::hash::RandomState;
use std::process::Abort;
use std::random::RandomSource;
use std::test::Fail;

// Each file of one feed is that of the other.
pub(crate) fn assert_same(
    rt: &impl Abort,
    alloc: Global,
    feed: &Feed,
    other: &Feed,
) -> Result<(), Fail> {
    for file in File::ALL {
        assert_same_file(rt, alloc, feed, other, file)?;
    }
    Ok(())
}

pub(crate) fn assert_same_file(
    rt: &impl Abort,
    alloc: Global,
    feed: &Feed,
    other: &Feed,
    file: File,
) -> Result<(), Fail> {
    let text = feed.file_text(alloc, file)?;
    let other = other.file_text(alloc, file)?;
    assert_is(rt, text.as_str(), other.as_str(), file.name());
    Ok(())
}

// Writes the tables of a feed into the folder again. What is written is the text of each file.
pub(crate) fn write_tables(
    rt: &impl Abort,
    alloc: Global,
    feed: &Feed,
    folders: &mut MemoryFolders,
) -> Result<(), Fail> {
    let tables = feed.to_tables(alloc)?;
    assert_holds(rt, tables.others().is_empty(), "no other file");
    for file in File::ALL {
        write_table(rt, alloc, feed, &tables, file, folders)?;
    }
    Ok(())
}

fn write_table(
    rt: &impl Abort,
    alloc: Global,
    feed: &Feed,
    tables: &Tables,
    file: File,
    folders: &mut MemoryFolders,
) -> Result<(), Fail> {
    let Some(bytes) = tables.write(alloc, file)? else {
        panic!(rt; "{} is missing", file.name());
    };
    let text = feed.file_text(alloc, file)?;
    assert_holds(rt, bytes.as_slice() == text.as_bytes(), file.name());
    folders.write(alloc, "again", file.name(), bytes.as_slice())?;
    Ok(())
}

// A feed that is written and read again is the same.
pub(crate) fn assert_feed_reads_back<R: Abort + RandomSource>(
    rt: &R,
    alloc: Global,
    feed: &Feed,
) -> Result<(), Fail> {
    let mut folders = MemoryFolders::new(alloc, 10_000, None);
    write_tables(rt, alloc, feed, &mut folders)?;
    let other = read_by_draft(alloc, RandomState::new(rt)?, &mut folders, "again")?;
    assert_same(rt, alloc, feed, &other)
}

#[test]
fn feeds_pass_and_read_back(rt: HostRuntime) -> Result<(), Fail> {
    for changes in [&[], FULL.as_slice()] {
        let feed = feed_with(&rt, rt.alloc(), changes)?;
        assert_feed_reads_back(&rt, rt.alloc(), &feed)?;
    }
    Ok(())
}

#[test]
fn two_random_states_give_the_same_bytes(rt: HostRuntime) -> Result<(), Fail> {
    let feed = feed_with(&rt, rt.alloc(), &FULL)?;
    let other = feed_with(&rt, rt.alloc(), &FULL)?;
    assert_same(&rt, rt.alloc(), &feed, &other)
}
