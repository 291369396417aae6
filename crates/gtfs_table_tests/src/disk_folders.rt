//! Folders of a real file system, and of one that stands in for it. What is held of them stands in
//! functions over any folders, which take less to prove than those that name the disk's.
mod odd_systems;
mod stand_in;

use crate::assertions::assert_is_at;
use crate::device::{
    ABSENT, Answer, Asked, KEEPS, NAMES, NAMES_OR_READS, NO_FOLDER, READS, TOO_LARGE, UNREADABLE,
    UNWRITABLE, WHOLE, WRITES, assert_asked, assert_kept, lengths,
};
use gtfs_table::{DiskFolders, Folders};
use std::alloc::{AllocError, Global};
use std::fs::Permissions;
use std::os::unix::fs::{PermissionsExt, symlink};
use std::process::Abort;
use std::test::Fail;
use std::{env, fs, process};

// A new folder of this test's own.
fn make_folder(rt: &HostRuntime, test: &str) -> Result<String, Fail> {
    let base = env::temp_dir(rt)?;
    let path = format!(in rt.alloc();
        "{}/gtfs_table_tests-{}-{test}",
        base.as_path().display(),
        process::id(rt.process())
    )?;
    fs::create_dir(rt, path.as_str())?;
    Ok(path)
}

// What is done in the folder of a test. Paths are of that folder, but for the empty one and those
// that begin with a slash.
enum Step {
    // These calls on a folder, and on a file of it with these bytes, are answered so.
    Ask(&'static [Asked], &'static str, &'static str, &'static [u8], Answer),
    // A file of bytes that tell where a part was lost or came twice is written and read.
    Telling(&'static str, u32),
    // A file is as long as this, as it is read and as it is lent.
    Length(&'static str, &'static str, usize),
    // The system itself finds these bytes in a file.
    Holds(&'static str, &'static [u8]),
    Folder(&'static str),
    // A folder with a file of these bytes is closed to its reader.
    Closed(&'static str, &'static str, &'static [u8]),
    // A link at the first of these paths to the second one.
    Link(&'static str, &'static str),
    // A file of this length that takes no place.
    Sparse(&'static str, u64),
}

use Step::{Ask, Closed, Folder, Holds, Length, Link, Sparse, Telling};

impl Step {
    fn path(&self) -> &'static str {
        match *self {
            Ask(_, path, ..)
            | Telling(path, _)
            | Length(path, ..)
            | Holds(path, _)
            | Folder(path)
            | Closed(path, ..)
            | Link(path, _)
            | Sparse(path, _) => path,
        }
    }
}

fn assert_length(
    rt: &impl Abort,
    alloc: Global,
    folders: &mut impl Folders,
    (dir, name): (&str, &str),
    len: usize,
) {
    let found = lengths(alloc, folders, dir, name);
    assert_is_at(rt, found, Ok([Some(len); 2]), "length of", name);
}

fn assert_holds(
    rt: &impl Abort,
    system: &HostRuntime,
    path: &str,
    bytes: &[u8],
) -> Result<(), Fail> {
    let found = fs::read(system, path)?;
    assert_is_at(rt, found.as_slice(), bytes, "bytes of", path);
    Ok(())
}

fn set_mode(rt: &HostRuntime, path: &str, mode: u32) -> Result<(), Fail> {
    Ok(fs::set_permissions(rt, path, Permissions::from_mode(mode))?)
}

// A user with all rights reads a closed folder nevertheless.
fn assert_closed(
    rt: &impl Abort,
    system: &HostRuntime,
    folders: &mut impl Folders,
    (dir, name): (&str, &str),
    bytes: &[u8],
) -> Result<(), Fail> {
    set_mode(system, dir, 0)?;
    let is_open = fs::read_dir(system, dir).is_ok();
    let answer = if is_open { WHOLE } else { UNREADABLE };
    let alloc = system.alloc();
    assert_asked(
        rt,
        alloc,
        folders,
        NAMES,
        (dir, name),
        b"stops.txt\0",
        answer,
    );
    assert_asked(rt, alloc, folders, READS, (dir, name), bytes, answer);
    set_mode(system, dir, 0o700)
}

// The steps that the system itself takes.
fn prepare(system: &HostRuntime, path: &str, step: &Step) -> Result<(), Fail> {
    match *step {
        Folder(_) => fs::create_dir(system, path)?,
        Link(_, to) => symlink(system, to, path)?,
        Sparse(_, len) => fs::create(system, path)?.set_len(len)?,
        _ => {}
    }
    Ok(())
}

// The steps that look at what the system has.
fn look(
    rt: &impl Abort,
    system: &HostRuntime,
    folders: &mut impl Folders,
    path: &str,
    step: &Step,
) -> Result<(), Fail> {
    match *step {
        Telling(_, len) => Ok(assert_kept(rt, system.alloc(), folders, path, len)?),
        Holds(_, bytes) => assert_holds(rt, system, path, bytes),
        Closed(_, name, bytes) => assert_closed(rt, system, folders, (path, name), bytes),
        _ => prepare(system, path, step),
    }
}

fn take_step(
    rt: &impl Abort,
    system: &HostRuntime,
    folders: &mut impl Folders,
    path: &str,
    step: &Step,
) -> Result<(), Fail> {
    let alloc = system.alloc();
    match *step {
        Ask(calls, _, name, bytes, answer) => {
            assert_asked(rt, alloc, folders, calls, (path, name), bytes, answer);
        }
        Length(_, name, len) => assert_length(rt, alloc, folders, (path, name), len),
        _ => return look(rt, system, folders, path, step),
    }
    Ok(())
}

fn path_in(alloc: Global, base: &str, path: &str) -> Result<String, AllocError> {
    if path.is_empty() || path.starts_with('/') {
        return String::from_str(alloc, path);
    }
    format!(in alloc; "{base}/{path}")
}

fn take_steps(
    rt: &impl Abort,
    system: &HostRuntime,
    folders: &mut impl Folders,
    base: &str,
    steps: &[Step],
) -> Result<(), Fail> {
    for step in steps {
        let path = path_in(system.alloc(), base, step.path())?;
        take_step(rt, system, folders, path.as_str(), step)?;
    }
    Ok(())
}

// The second agency.txt takes the place of the first.
const FILES: &[Step] = &[
    Ask(WRITES, "a/b/c", "stops.txt", b"stop_id\nS1\n", WHOLE),
    Ask(KEEPS, "a/b/c", "agency.txt", b"long before", WHOLE),
    Ask(KEEPS, "a/b/c", "agency.txt", b"short", WHOLE),
    Folder("a/b/c/more"),
    Ask(NAMES, "a/b/c", "", b"agency.txt\0more\0stops.txt\0", WHOLE),
    Ask(READS, "a/b/c", "stops.txt", b"stop_id\nS1\n", WHOLE),
    Ask(READS, "a/b/c", "agency.txt", b"short", WHOLE),
    Ask(READS, "a/b/c", "routes.txt", b"", ABSENT),
    Holds("a/b/c/agency.txt", b"short"),
    Ask(KEEPS, "a", "empty", b"", WHOLE),
    Ask(KEEPS, "a", "one", b"1", WHOLE),
    Telling("a", 65_536),
    Telling("a", 65_537),
    Telling("a", 5_000_001),
    Ask(WRITES, "closed", "stops.txt", b"stop_id", WHOLE),
    Closed("closed", "stops.txt", b"stop_id"),
];

// The names in byte order.
const SORTED: &[u8] =
    b" stops.txt\0...\0.stops.txt\0STOPS.TXT\0stops .txt \0stops.txt\0stops.txt~\0\
st\xC3\xB6ps.txt\0\xEF\xBD\x9E\0";

const ODD_NAMES: &[Step] = &[
    Ask(WRITES, ".", "\u{FF5E}", b"9", WHOLE),
    Ask(WRITES, ".", "st\u{F6}ps.txt", b"8", WHOLE),
    Ask(WRITES, ".", "stops.txt~", b"7", WHOLE),
    Ask(WRITES, ".", "stops.txt", b"6", WHOLE),
    Ask(WRITES, ".", "stops .txt ", b"5", WHOLE),
    Ask(WRITES, ".", "STOPS.TXT", b"4", WHOLE),
    Ask(WRITES, ".", ".stops.txt", b"3", WHOLE),
    Ask(WRITES, ".", "...", b"2", WHOLE),
    Ask(WRITES, ".", " stops.txt", b"1", WHOLE),
    Ask(NAMES, ".", "", SORTED, WHOLE),
    Ask(READS, ".", " stops.txt", b"1", WHOLE),
    Ask(READS, ".", "...", b"2", WHOLE),
    Ask(READS, ".", ".stops.txt", b"3", WHOLE),
    Ask(READS, ".", "STOPS.TXT", b"4", WHOLE),
    Ask(READS, ".", "stops .txt ", b"5", WHOLE),
    Ask(READS, ".", "stops.txt", b"6", WHOLE),
    Ask(READS, ".", "stops.txt~", b"7", WHOLE),
    Ask(READS, ".", "st\u{F6}ps.txt", b"8", WHOLE),
    Ask(READS, ".", "\u{FF5E}", b"9", WHOLE),
];

// No entry has the name. Then a file is where a folder is wanted, a folder is where a file is, and a
// link leads nowhere.
const NOTHING_THERE: &[Step] = &[
    Ask(NAMES_OR_READS, "", "stops.txt", b"", NO_FOLDER),
    Ask(NAMES_OR_READS, "none", "stops.txt", b"", NO_FOLDER),
    Ask(WRITES, ".", "file", b"", WHOLE),
    Folder("folder"),
    Link("link", "nowhere"),
    Ask(NAMES_OR_READS, "file", "stops.txt", b"", UNREADABLE),
    Ask(NAMES_OR_READS, "link", "stops.txt", b"", UNREADABLE),
    Ask(READS, ".", "folder", b"", UNREADABLE),
    Ask(READS, ".", "link", b"", UNREADABLE),
    Ask(READS, ".", "", b"", UNREADABLE),
];

const UNWRITTEN: &[Step] = &[
    Folder("folder"),
    Ask(WRITES, ".", "file", b"kept", WHOLE),
    Ask(WRITES, "", "stops.txt", b"lost", UNWRITABLE),
    Ask(WRITES, "file/below", "stops.txt", b"lost", UNWRITABLE),
    Ask(WRITES, ".", "folder", b"lost", UNWRITABLE),
    Ask(WRITES, "/dev/null", "a", b"lost", UNWRITABLE),
    Ask(WRITES, "/dev", "full", b"lost", UNWRITABLE),
    Ask(WRITES, "/dev", "null", b"lost", WHOLE),
    Ask(READS, ".", "file", b"kept", WHOLE),
];

// Beside a folder of files another one, with links to that folder, to a file of it, to a device and
// to nothing, and a name that begins with a dot.
const LINKS: &[Step] = &[
    Ask(WRITES, "real", "stops.txt", b"stop_id\nS1\n", WHOLE),
    Ask(WRITES, "links", ".hidden", b"", WHOLE),
    Link("links/folder", "../real"),
    Link("links/stops.txt", "folder/stops.txt"),
    Link("links/empty", "/dev/null"),
    Link("links/lost", "nowhere"),
    Ask(
        NAMES,
        "links",
        "",
        b".hidden\0empty\0folder\0lost\0stops.txt\0",
        WHOLE,
    ),
    Ask(NAMES, "links/folder", "", b"stops.txt\0", WHOLE),
    Ask(READS, "links/folder", "stops.txt", b"stop_id\nS1\n", WHOLE),
    Ask(READS, "links", "stops.txt", b"stop_id\nS1\n", WHOLE),
    Ask(READS, "links", "empty", b"", WHOLE),
];

// More bytes than many a buffer has, all of them sparse.
const LARGE: &[Step] = &[
    Sparse("sparse", 70_000_000),
    Length(".", "sparse", 70_000_000),
];

// Under a limit of 100,000 bytes, which writing does not judge.
const UP_TO_THE_LIMIT: &[Step] = &[
    Sparse("sparse", 100_000),
    Length(".", "sparse", 100_000),
    Sparse("sparse", 100_001),
    Ask(READS, ".", "sparse", b"", TOO_LARGE),
    Sparse("sparse", 1_000_000_000_000),
    Ask(READS, ".", "sparse", b"", TOO_LARGE),
    Ask(READS, "/dev", "zero", b"", TOO_LARGE),
];

// Writing judges no limit, here one of four bytes. Then the folder has one name, two, and more than
// are listed.
const OVER_LIMITS: &[Step] = &[
    Ask(WRITES, ".", "a", b"12345", WHOLE),
    Ask(READS, ".", "a", b"12345", TOO_LARGE),
    Holds("a", b"12345"),
    Ask(NAMES, ".", "", b"a\0", WHOLE),
    Ask(KEEPS, ".", "b", b"1234", WHOLE),
    Ask(NAMES, ".", "", b"a\0b\0", WHOLE),
    Ask(WRITES, ".", "c", b"", WHOLE),
    Ask(NAMES, ".", "", b"", UNREADABLE),
];

fn run(
    rt: &impl Abort,
    system: &HostRuntime,
    name: &str,
    steps: &[Step],
    mut disk: DiskFolders<HostRuntime>,
) -> Result<(), Fail> {
    let base = make_folder(system, name)?;
    take_steps(rt, system, &mut disk, base.as_str(), steps)?;
    Ok(fs::remove_dir_all(system, base.as_str())?)
}

#[test]
fn folders_hold_what_was_put_there(rt: HostRuntime) -> Result<(), Fail> {
    for (name, steps) in [
        ("files", FILES),
        ("names", ODD_NAMES),
        ("nothing", NOTHING_THERE),
        ("unwritten", UNWRITTEN),
        ("links", LINKS),
    ] {
        run(&rt, &rt, name, steps, DiskFolders::new(&rt))?;
    }
    Ok(())
}

#[test]
fn a_file_of_seventy_megabytes_is_read_whole(rt: HostRuntime) -> Result<(), Fail> {
    run(&rt, &rt, "large", LARGE, DiskFolders::new(&rt))
}

#[test]
fn folders_are_read_up_to_their_limits(rt: HostRuntime) -> Result<(), Fail> {
    let disk = DiskFolders::with_limits(&rt, 100_000, 1_000_000);
    run(&rt, &rt, "limit", UP_TO_THE_LIMIT, disk)?;
    let disk = DiskFolders::with_limits(&rt, 4, 2);
    run(&rt, &rt, "limits", OVER_LIMITS, disk)
}
