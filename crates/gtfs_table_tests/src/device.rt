//! What is asked of a device that holds folders, and what it answers, as values that are compared.
ghost use Rattle.std.specs.Prelude.{⊤};

use crate::assertions::assert_is_at;
use gtfs_field::OutOfMemory;
use gtfs_table::{FileReader, FolderFault, Folders};
use std::alloc::Global;
use std::process::Abort;

/// A call on folders.
#[derive(Clone, Copy, Debug)]
pub(crate) enum Asked {
    Names,
    Read,
    Lend,
    /// Lends to a reader that refuses memory at its call of this number.
    LendUntil(u64),
    Write,
}

pub(crate) const NAMES: &[Asked] = &[Asked::Names];

pub(crate) const READS: &[Asked] = &[Asked::Read, Asked::Lend];

pub(crate) const NAMES_OR_READS: &[Asked] = &[Asked::Names, Asked::Read, Asked::Lend];

pub(crate) const WRITES: &[Asked] = &[Asked::Write];

/// Writes a file and reads what was written.
pub(crate) const KEEPS: &[Asked] = &[Asked::Write, Asked::Read, Asked::Lend];

/// Whether a call was done and found what it was to find, or that it found nothing, or why it was
/// refused.
pub(crate) type Answer = Result<Option<bool>, FolderFault>;

pub(crate) const WHOLE: Answer = Ok(Some(true));

pub(crate) const OTHER: Answer = Ok(Some(false));

pub(crate) const ABSENT: Answer = Ok(None);

pub(crate) const NO_FOLDER: Answer = Err(FolderFault::NoFolder);

pub(crate) const TOO_LARGE: Answer = Err(FolderFault::TooLarge);

pub(crate) const NO_MEMORY: Answer = Err(FolderFault::OutOfMemory);

pub(crate) const UNREADABLE: Answer = Err(FolderFault::Read);

pub(crate) const UNWRITABLE: Answer = Err(FolderFault::Write);

// Refuses memory at one of its calls.
#[derive(Drop)]
struct Refusing {
    calls: u64,
    refused: u64,
}

impl Refusing {
    fn call(&mut self) -> Result<(), OutOfMemory> {
        self.calls = self.calls.saturating_add(1);
        if self.calls == self.refused {
            Err(OutOfMemory)
        } else {
            Ok(())
        }
    }
}

impl FileReader for Refusing {
    ghost has_taken = { λ _ _. ⊤ };

    fn expect(&mut self, _size: usize) -> Result<(), OutOfMemory> {
        self.call()
    }

    fn take(&mut self, _piece: &[u8]) -> Result<(), OutOfMemory> {
        self.call()
    }
}

// The names of a folder, each ended by a NUL.
fn names(alloc: Global, folders: &mut impl Folders, dir: &str) -> Result<Vec<u8>, FolderFault> {
    let mut bytes = Vec::new(alloc);
    for name in &folders.names(alloc, dir)? {
        bytes.extend_from_slice(name.as_str().as_bytes())?;
        bytes.push(b'\0')?;
    }
    Ok(bytes)
}

// What a list of bytes takes of a file that is lent, or None where the folder has no such file.
fn lent(
    alloc: Global,
    folders: &mut impl Folders,
    dir: &str,
    name: &str,
) -> Result<Option<Vec<u8>>, FolderFault> {
    let mut bytes = Vec::new(alloc);
    let found = folders.lend(alloc, dir, name, &mut bytes)?;
    Ok(if found { Some(bytes) } else { None })
}

fn compared(found: &Option<Vec<u8>>, wanted: &[u8]) -> Option<bool> {
    match found {
        Some(bytes) => Some(bytes.as_slice() == wanted),
        None => None,
    }
}

/// What comes of a call. A file that is read is to have these bytes, and one that is written gets
/// them. The names of a folder, each ended by a NUL, are to be these bytes too.
pub(crate) fn ask(
    alloc: Global,
    folders: &mut impl Folders,
    asked: Asked,
    (dir, name): (&str, &str),
    bytes: &[u8],
) -> Answer {
    match asked {
        Asked::Names => Ok(Some(names(alloc, folders, dir)?.as_slice() == bytes)),
        Asked::Read => Ok(compared(&folders.read(alloc, dir, name)?, bytes)),
        Asked::Lend => Ok(compared(&lent(alloc, folders, dir, name)?, bytes)),
        Asked::LendUntil(refused) => {
            let mut reader = Refusing { calls: 0, refused };
            folders.lend(alloc, dir, name, &mut reader)?;
            WHOLE
        }
        Asked::Write => {
            folders.write(alloc, dir, name, bytes)?;
            WHOLE
        }
    }
}

/// A device fails where it answers Read or Write, and at no other answer.
pub(crate) fn failures_at(answer: Answer) -> u64 {
    u64::from(answer == UNREADABLE || answer == UNWRITABLE)
}

/// Makes these calls, and holds them to an answer and to how it counts as a failure.
pub(crate) fn assert_asked(
    rt: &impl Abort,
    alloc: Global,
    folders: &mut impl Folders,
    calls: &[Asked],
    (dir, name): (&str, &str),
    bytes: &[u8],
    answer: Answer,
) {
    for &asked in calls {
        let before = folders.failures();
        let found = ask(alloc, folders, asked, (dir, name), bytes);
        let failures = folders.failures();
        let wanted = (answer, before.saturating_add(failures_at(answer)));
        assert_is_at(
            rt,
            (found, failures),
            wanted,
            "asked of",
            (asked, dir, name),
        );
    }
}

// Bytes of which no two pieces of 65,536 are alike.
fn telling_bytes(alloc: Global, len: u32) -> Result<Vec<u8>, OutOfMemory> {
    let mut bytes = Vec::new(alloc);
    for number in 0..len {
        bytes.push((number % 251) as u8)?;
    }
    Ok(bytes)
}

/// Holds that a file of so many bytes is read and lent as it was written.
pub(crate) fn assert_kept(
    rt: &impl Abort,
    alloc: Global,
    folders: &mut impl Folders,
    dir: &str,
    len: u32,
) -> Result<(), OutOfMemory> {
    let bytes = telling_bytes(alloc, len)?;
    assert_asked(rt, alloc, folders, KEEPS, (dir, "telling"), &bytes, WHOLE);
    Ok(())
}

/// How many names a folder has.
pub(crate) fn listed(
    alloc: Global,
    folders: &mut impl Folders,
    dir: &str,
) -> Result<usize, FolderFault> {
    Ok(folders.names(alloc, dir)?.len())
}

fn len_of(found: &Option<Vec<u8>>) -> Option<usize> {
    match found {
        Some(bytes) => Some(bytes.len()),
        None => None,
    }
}

/// How long a file is that is read, and one that is lent.
pub(crate) fn lengths(
    alloc: Global,
    folders: &mut impl Folders,
    dir: &str,
    name: &str,
) -> Result<[Option<usize>; 2], FolderFault> {
    let read = len_of(&folders.read(alloc, dir, name)?);
    let lent = len_of(&lent(alloc, folders, dir, name)?);
    Ok([read, lent])
}
