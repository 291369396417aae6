//! Texts of files in memory of other bytes, and how long the longest is. What is written stands in
//! the cases of `tests/cases/merge/written-form/`.

use crate::assertions::assert_is;
use crate::full::FULL;
use gtfs_feed::Feed;
use gtfs_fixtures::feed_with;
use gtfs_table::File;
use std::alloc::Global;
use std::process::Abort;
use std::test::Fail;

// The text of a file is the same in memory of so many other bytes, which are no text.
fn assert_written_in(
    rt: &impl Abort,
    alloc: Global,
    feed: &Feed,
    file: File,
    others: usize,
) -> Result<(), Fail> {
    let memory = vec![in alloc; 0xff; others]?;
    let text = feed.file_text_in(alloc, file, memory)?;
    let wanted = feed.file_text(alloc, file)?;
    assert_is(rt, text.as_str(), wanted.as_str(), file.name());
    Ok(())
}

// No text has fewer than 10 bytes, and none as many as 10,000.
#[test]
fn texts_are_the_same_in_memory_of_other_bytes(rt: HostRuntime) -> Result<(), Fail> {
    let feed = feed_with(&rt, rt.alloc(), &FULL)?;
    for file in File::ALL {
        assert_written_in(&rt, rt.alloc(), &feed, file, 10)?;
        assert_written_in(&rt, rt.alloc(), &feed, file, 10_000)?;
    }
    Ok(())
}

// The longest file of the small feed is its stops.txt.
#[test]
fn a_limit_of_the_longest_file_is_passed_by_one_byte_less(rt: HostRuntime) -> Result<(), Fail> {
    let feed = feed_with(&rt, rt.alloc(), &[])?;
    for (limit, is_passed) in [
        (0, true),
        (LONGEST - 1, true),
        (LONGEST, false),
        (u64::MAX, false),
    ] {
        let found = feed.has_longer_file(rt.alloc(), limit)?;
        assert_is(&rt, found, is_passed, limit);
    }
    Ok(())
}

const LONGEST: u64 = 226;
