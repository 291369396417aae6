ghost use Rattle.std.specs.Prelude.{◌≡◌, ◌≤◌, ◌↔◌, ℕ, List, Result, vec_len, IfErr, IsTrue, MatchResult, OnOk};
ghost use Rattle.std.specs.Fs.{file_type, IsDir, IsFile};
ghost use Rattle.std.specs.IoError.{error_kind};
ghost use Rattle.std.specs.declared.io.ErrorKind.{ErrorKind};
ghost use Rattle.gtfs_devices.specs.declared.system.Entry.{Entry};
ghost use Rattle.gtfs_devices.specs.Disk.{IsOpenable, RefusesListing};

use crate::folders::FolderFault;
use gtfs_field::Text;
use std::alloc::{Allocator, Global};
use std::fs::{Metadata, OpenFile, ReadDir};
use std::io::{ErrorKind, Read, Write};
use std::os::unix::fs::FileTypeExt;
use std::rt::Files;
use std::{fs, io};

// What an entry of a folder is.
#[derive(Clone, Copy, PartialEq, Eq)]
pub(crate) enum Entry {
    File,
    Folder,
    Device,
    // As a named pipe, or a socket.
    Other,
}

impl Entry {
    // A device of the system is one that takes and gives bytes at once,
    // so a pipe and a socket are none.
    fn of(found: &Metadata) -> Entry
        ensures file { result ≡ Entry.File → IsFile (file_type found.now) }
        ensures folder { result ≡ Entry.Folder → IsDir (file_type found.now) }
    {
        let found = found.file_type();
        if found.is_file() {
            Entry::File
        } else if found.is_dir() {
            Entry::Folder
        } else if found.is_char_device() || found.is_block_device() {
            Entry::Device
        } else {
            Entry::Other
        }
    }

    // Whether this may be opened: a file or a device.
    pub(crate) fn is_openable(self) -> bool
        ensures { IsTrue result ↔ IsOpenable self }
    {
        match self {
            Entry::File | Entry::Device => true,
            Entry::Folder | Entry::Other => false,
        }
    }
}

// The names of a folder that a system has left to list.
pub(crate) trait Listing {
    // Adds these names, where there are no more than `entries` in all.
    fn push_names(
        &mut self,
        alloc: Global,
        entries: usize,
        names: &mut Vec<Text>,
    ) -> Result<(), FolderFault>
        requires { vec_len names.old ≤ entries }
        ensures few { OnOk result (vec_len names.new ≤ entries) }
        ensures refused { IfErr result RefusesListing };
}

// What a disk asks of a file system. Each relation holds of a path and what the system
// answered, so that the clauses on a disk's calls can say what the system had said.
// They are proved for every system.
pub(crate) trait System {
    type File: Read + Write + OpenFile + Drop;

    type Names: Listing + Drop;

    ghost lists: { Self → List ℕ → Result Self.Names ErrorKind → Type 0 };

    ghost finds: { Self → List ℕ → Result Entry ErrorKind → Type 0 };

    ghost looks: { Self → List ℕ → Result Entry ErrorKind → Type 0 };

    ghost opens: { Self → List ℕ → Result Self.File ErrorKind → Type 0 };

    ghost makes: { Self → List ℕ → Result Self.File ErrorKind → Type 0 };

    // The names of a folder, none of which is listed yet.
    fn list(&self, dir: &str) -> Result<Self::Names, ErrorKind>
        ensures { lists self.now dir.now result };

    // The entry that a path leads to, through links.
    fn find(&self, path: &str) -> Result<Entry, ErrorKind>
        ensures { finds self.now path.now result };

    // The entry of a path itself, as a link that leads nowhere.
    // A slash at the end counts for nothing.
    fn look(&self, path: &str) -> Result<Entry, ErrorKind>
        ensures { looks self.now path.now result };

    // A file, of which nothing is read yet.
    fn open(&self, path: &str) -> Result<Self::File, ErrorKind>
        ensures { opens self.now path.now result };

    // A file that is empty, in the place of one that was there.
    fn make(&self, path: &str) -> Result<Self::File, ErrorKind>
        ensures { makes self.now path.now result };

    // Makes all levels of a folder that are missing, and says whether it stands.
    fn make_folder(&self, dir: &str) -> bool;
}

impl<R: Files + Alloc + Clone + Drop> System for R {
    ghost use Rattle.std.specs.Prelude.{⊤};

    type File = R::File;

    type Names = ReadDir<R, R::A>;

    ghost lists = { λ _ _ _. ⊤ };

    ghost finds = { λ _ _ _. ⊤ };

    ghost looks = { λ _ _ _. ⊤ };

    ghost opens = { λ _ _ _. ⊤ };

    ghost makes = { λ _ _ _. ⊤ };

    fn list(&self, dir: &str) -> Result<ReadDir<R, R::A>, ErrorKind> {
        or_kind(fs::read_dir(self, dir))
    }

    fn find(&self, path: &str) -> Result<Entry, ErrorKind> {
        let found = or_kind(fs::metadata(self, path))?;
        Ok(Entry::of(&found))
    }

    fn look(&self, path: &str) -> Result<Entry, ErrorKind> {
        let path = path.trim_end_matches('/');
        let found = or_kind(fs::symlink_metadata(self, path))?;
        Ok(Entry::of(&found))
    }

    fn open(&self, path: &str) -> Result<R::File, ErrorKind> {
        or_kind(fs::open(self, path))
    }

    fn make(&self, path: &str) -> Result<R::File, ErrorKind> {
        or_kind(fs::create(self, path))
    }

    fn make_folder(&self, dir: &str) -> bool {
        fs::create_dir_all(self, dir).is_ok()
    }
}

// What a call of the system answered, or of what kind its fault is.
fn or_kind<T>(answer: io::Result<T>) -> Result<T, ErrorKind>
    ensures { MatchResult answer
        (λ value. result ≡ Ok value)
        (λ fault. result ≡ Err (error_kind fault)) }
{
    match answer {
        Ok(value) => Ok(value),
        Err(fault) => Err(fault.kind()),
    }
}

impl<R: Files + Clone + Drop, A: Allocator + Clone> Listing for ReadDir<R, A> {
    fn push_names(
        &mut self,
        alloc: Global,
        entries: usize,
        names: &mut Vec<Text>,
    ) -> Result<(), FolderFault> {
        push_listed(alloc, entries, self, names)
    }
}

// Adds the names of the entries that a listing has left.
// One that cannot be told is no folder that is not there.
fn push_listed<R: Files + Clone + Drop, A: Allocator + Clone>(
    alloc: Global,
    entries: usize,
    listing: &mut ReadDir<R, A>,
    names: &mut Vec<Text>,
) -> Result<(), FolderFault>
    requires { vec_len names.old ≤ entries }
    ensures few { OnOk result (vec_len names.new ≤ entries) }
    ensures refused { IfErr result RefusesListing }
{
    for entry in listing {
        match entry {
            Ok(entry) => push_name(alloc, entry.file_name(), entries, names)?,
            Err(fault) => return Err(entry_fault(fault.kind())),
        }
    }
    Ok(())
}

fn entry_fault(kind: ErrorKind) -> FolderFault
    ensures refused { RefusesListing result }
    ensures memory { result ≡ FolderFault.OutOfMemory → kind ≡ ErrorKind.OutOfMemory }
{
    match kind {
        ErrorKind::OutOfMemory => FolderFault::OutOfMemory,
        _ => FolderFault::Read,
    }
}

// Adds a name, where there are fewer names than `entries`.
fn push_name(
    alloc: Global,
    name: &str,
    entries: usize,
    names: &mut Vec<Text>,
) -> Result<(), FolderFault>
    ensures few { OnOk result (vec_len names.new ≤ entries) }
    ensures refused { IfErr result RefusesListing }
{
    if names.len() >= entries {
        return Err(FolderFault::Read);
    }
    names.push(Text::copy_of(alloc, name)?)?;
    Ok(())
}
