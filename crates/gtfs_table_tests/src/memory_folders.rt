//! Folders in memory: what was put or written is told, and each call fails in turn.
use crate::device::{
    ABSENT, Answer, Asked, KEEPS, NAMES, NAMES_OR_READS, NO_FOLDER, OTHER, READS, TOO_LARGE,
    UNREADABLE, UNWRITABLE, WHOLE, WRITES, assert_asked, assert_kept,
};
use gtfs_field::OutOfMemory;
use gtfs_table::{Folders, MemoryFolders};
use std::alloc::Global;
use std::process::Abort;
use std::test::Fail;

// Calls on a folder, and on a file of it with these bytes, and what each of them answers.
type Question = (
    &'static [Asked],
    &'static str,
    &'static str,
    &'static [u8],
    Answer,
);

fn assert_answers(
    rt: &impl Abort,
    alloc: Global,
    folders: &mut impl Folders,
    questions: &[Question],
) {
    for &(calls, dir, name, bytes, answer) in questions {
        assert_asked(rt, alloc, folders, calls, (dir, name), bytes, answer);
    }
}

const PUT: &[Question] = &[
    (NAMES, "f1", "", b"agency.txt\0stops.txt\0", WHOLE),
    (READS, "f1", "agency.txt", b"agency_name\n", WHOLE),
    (READS, "f1", "stops.txt", b"stop_id\n", WHOLE),
    (READS, "f1", "Z", b"", ABSENT),
    (NAMES, "other", "", b"Z\0", WHOLE),
    (READS, "other", "Z", b"", WHOLE),
    (NAMES, "empty", "", b"", WHOLE),
    (READS, "empty", "stops.txt", b"", ABSENT),
    (NAMES_OR_READS, "none", "stops.txt", b"", NO_FOLDER),
    // A write makes its folder, and takes the place of what was there.
    (KEEPS, "new", "b", b"1", WHOLE),
    (KEEPS, "new", "a", b"2", WHOLE),
    (KEEPS, "new", "b", b"345", WHOLE),
    (NAMES, "new", "", b"a\0b\0", WHOLE),
    (READS, "new", "a", b"2", WHOLE),
    // Reading alone judges the limit.
    (KEEPS, "new", "fits", b"0123456789AB", WHOLE),
    (WRITES, "new", "large", b"0123456789ABC", WHOLE),
    (READS, "new", "large", b"0123456789ABC", TOO_LARGE),
];

// The second stops.txt takes the place of the first, and a folder that is put again stays as it is.
fn put_folders(folders: &mut MemoryFolders) -> Result<(), OutOfMemory> {
    folders.put("f1", "stops.txt", b"stop_id\nS1\n")?;
    folders.put("f1", "agency.txt", b"agency_name\n")?;
    folders.put_folder("f1")?;
    folders.put("other", "Z", b"")?;
    folders.put("f1", "stops.txt", b"stop_id\n")?;
    folders.put_folder("empty")
}

#[test]
fn folders_hold_what_was_put_and_written(rt: HostRuntime) -> Result<(), Fail> {
    let mut folders = MemoryFolders::new(rt.alloc(), 12, None);
    put_folders(&mut folders)?;
    assert_answers(&rt, rt.alloc(), &mut folders, PUT);
    let mut folders = MemoryFolders::new(rt.alloc(), 1_000_000, None);
    assert_kept(&rt, rt.alloc(), &mut folders, "f1", 280_000)?;
    Ok(())
}

const READ: &[Asked] = &[Asked::Read];

const LEND: &[Asked] = &[Asked::Lend];

// The call with the number fails, and no other.
const FAILING: &[(u64, &[Question])] = &[
    (
        0,
        &[
            (NAMES, "f1", "", b"a\0", WHOLE),
            (READS, "f1", "a", b"old", WHOLE),
            (KEEPS, "f1", "a", b"new", WHOLE),
        ],
    ),
    (
        1,
        &[
            (NAMES, "f1", "", b"a\0", UNREADABLE),
            (NAMES, "f1", "", b"a\0", WHOLE),
            (READS, "f1", "a", b"old", WHOLE),
        ],
    ),
    (
        2,
        &[
            (NAMES, "f1", "", b"a\0", WHOLE),
            (READ, "f1", "a", b"old", UNREADABLE),
            (READS, "f1", "a", b"old", WHOLE),
        ],
    ),
    (
        1,
        &[
            (LEND, "f1", "a", b"old", UNREADABLE),
            (LEND, "f1", "a", b"old", WHOLE),
        ],
    ),
    (
        3,
        &[
            (READS, "f1", "a", b"old", WHOLE),
            (WRITES, "f1", "a", b"new", UNWRITABLE),
            (READS, "f1", "a", b"new", OTHER),
            (READS, "f1", "a", b"old", WHOLE),
            (KEEPS, "f1", "a", b"new", WHOLE),
        ],
    ),
    // A folder that is not there is not told where the call fails.
    (
        2,
        &[
            (READ, "f2", "a", b"", NO_FOLDER),
            (READ, "f2", "a", b"", UNREADABLE),
            (NAMES_OR_READS, "f2", "a", b"", NO_FOLDER),
        ],
    ),
    // Calls before the one that fails are as they are without it.
    (
        9,
        &[
            (NAMES, "f1", "", b"a\0", WHOLE),
            (READS, "f1", "a", b"old", WHOLE),
            (KEEPS, "f1", "a", b"new", WHOLE),
            (READ, "f2", "a", b"", NO_FOLDER),
            (READ, "f1", "a", b"new", WHOLE),
            (READ, "f1", "a", b"new", UNREADABLE),
            (READ, "f1", "a", b"new", WHOLE),
        ],
    ),
];

#[test]
fn each_call_fails_in_turn(rt: HostRuntime) -> Result<(), Fail> {
    for &(number, questions) in FAILING {
        assert!(rt; number < 10);
        let mut folders = MemoryFolders::new(rt.alloc(), 100, Some(number));
        folders.put("f1", "a", b"old")?;
        assert_answers(&rt, rt.alloc(), &mut folders, questions);
    }
    Ok(())
}
