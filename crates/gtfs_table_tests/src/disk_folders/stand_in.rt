//! A file system that stands in for the real one. It has one folder, f1, with one file or none. It
//! keeps which calls were made on it, in their order, and refuses some of them.
ghost use Rattle.std.specs.Prelude.{IsErr};

use std::alloc::{Allocator, Global};
use std::cell::Cell;
use std::fs::{Metadata, OpenFile, OpenOptions};
use std::io;
use std::io::{Error, ErrorKind, Read, Seek, SeekFrom, Write};
use std::rt::Files;

// A digit for each call on a system, as `Calls` keeps it.
const LIST: u64 = 0;

const OPEN_FOLDER: u64 = 1;

const FIND: u64 = 2;

const LOOK: u64 = 3;

const OPEN: u64 = 4;

const TELL: u64 = 5;

const READ: u64 = 6;

const MAKE: u64 = 7;

const WRITE: u64 = 8;

const MAKE_FOLDER: u64 = 9;

/// The calls that were made on a system.
#[derive(Drop)]
pub(super) struct Calls {
    digits: Cell<u64>,
    count: Cell<u64>,
    // Of the calls, counted from one, those from the first of these on and before the second are
    // refused for this reason.
    first: u64,
    end: u64,
    reason: ErrorKind,
}

impl Calls {
    pub(super) fn new(first: u64, end: u64, reason: ErrorKind) -> Calls {
        Calls {
            digits: Cell::new(0),
            count: Cell::new(0),
            first,
            end,
            reason,
        }
    }

    /// The digits of the calls, the first one first.
    pub(super) fn digits(&self) -> u64 {
        self.digits.get()
    }

    // Keeps a call, and refuses it where its turn has come.
    fn add(&self, call: u64) -> io::Result<()> {
        let digits = self.digits.get().saturating_mul(10).saturating_add(call);
        self.digits.set(digits);
        let count = self.count.get().saturating_add(1);
        self.count.set(count);
        if self.first <= count && count < self.end {
            return Err(Error::from(self.reason));
        }
        Ok(())
    }
}

/// What a system has, and what is asked of it.
#[derive(Clone, Copy)]
pub(super) struct Scene {
    /// The folder that is asked for, and how long its file may be.
    pub(super) dir: &'static str,
    pub(super) limit: u64,
    /// Names of the folder f1, each ended by a NUL, and how often they are listed.
    pub(super) names: &'static [u8],
    pub(super) times: usize,
    /// The bytes of its file stops.txt, where it has one.
    pub(super) file: Option<&'static [u8]>,
    /// Whether that is told as a file, and not as what is neither a file nor a folder nor a device.
    pub(super) is_file: bool,
    /// The length that the file tells of itself.
    pub(super) told: Option<u64>,
    /// How many bytes a write to it takes at most.
    pub(super) takes: usize,
}

#[derive(Clone, Copy)]
pub(super) struct StandIn<'a> {
    pub(super) rt: HostRuntime,
    pub(super) scene: Scene,
    pub(super) calls: &'a Calls,
}

impl StandIn<'_> {
    // What a path leads to.
    fn entry(&self, path: &str) -> io::Result<Metadata> {
        match (path, self.scene.file) {
            ("f1", _) => Ok(Metadata::of_dir()),
            ("f1/stops.txt", Some(_)) if self.scene.is_file => Ok(Metadata::of_file(0)),
            ("f1/stops.txt", Some(_)) => Ok(Metadata::of_symlink(0)),
            _ => Err(Error::from(ErrorKind::NotFound)),
        }
    }
}

/// Gives its names over and over.
#[derive(Clone, Copy)]
pub(super) struct Entries<'a> {
    names: &'static [u8],
    times: usize,
    calls: &'a Calls,
}

/// Gives its bytes one a read, and takes some of what is written.
#[derive(Clone, Copy)]
pub(super) struct Drip<'a> {
    left: &'static [u8],
    told: Option<u64>,
    takes: usize,
    calls: &'a Calls,
}

impl Read for Entries<'_> {
    fn read(&mut self, buf: &mut [u8]) -> io::Result<usize> {
        self.calls.add(LIST)?;
        let len = self.names.len();
        if self.times == 0 || buf.len() < len {
            return Ok(0);
        }
        self.times -= 1;
        buf[..len].copy_from_slice(self.names);
        Ok(len)
    }
}

impl Read for Drip<'_> {
    fn read(&mut self, buf: &mut [u8]) -> io::Result<usize> {
        self.calls.add(READ)?;
        match (self.left, buf) {
            ([first, rest @ ..], [place, ..]) => {
                *place = *first;
                self.left = rest;
                Ok(1)
            }
            _ => Ok(0),
        }
    }
}

impl Write for Drip<'_> {
    fn write(&mut self, buf: &[u8]) -> io::Result<usize> {
        self.calls.add(WRITE)?;
        Ok(buf.len().min(self.takes))
    }

    fn flush(&mut self) -> io::Result<()> {
        Ok(())
    }
}

// A call that no test makes.
fn unsupported<T>() -> io::Result<T>
    ensures { IsErr result }
{
    Err(Error::from(ErrorKind::Unsupported))
}

impl Seek for Drip<'_> {
    fn seek(&mut self, _to: SeekFrom) -> io::Result<u64> {
        unsupported()
    }
}

impl OpenFile for Drip<'_> {
    fn metadata(&self) -> io::Result<Metadata> {
        self.calls.add(TELL)?;
        match self.told {
            Some(len) => Ok(Metadata::of_file(len)),
            None => unsupported(),
        }
    }

    fn set_len(&self, _size: u64) -> io::Result<()> {
        unsupported()
    }

    fn sync_all(&self) -> io::Result<()> {
        unsupported()
    }

    fn sync_data(&self) -> io::Result<()> {
        unsupported()
    }
}

impl Alloc for StandIn<'_> {
    type A = Global;

    fn alloc(&self) -> Global {
        self.rt.alloc()
    }
}

impl<'a> Files for StandIn<'a> {
    type File = Drip<'a>;

    type Dir = Entries<'a>;

    fn open_file(&self, how: &OpenOptions, _path: &str) -> io::Result<Drip<'a>> {
        self.calls.add(if how.asks_create() { MAKE } else { OPEN })?;
        match self.scene.file {
            Some(left) => Ok(Drip {
                left,
                told: self.scene.told,
                takes: self.scene.takes,
                calls: self.calls,
            }),
            None => Err(Error::from(ErrorKind::NotFound)),
        }
    }

    fn open_dir(&self, path: &str) -> io::Result<Entries<'a>> {
        self.calls.add(OPEN_FOLDER)?;
        if path != "f1/" {
            return Err(Error::from(ErrorKind::NotFound));
        }
        Ok(Entries {
            names: self.scene.names,
            times: self.scene.times,
            calls: self.calls,
        })
    }

    fn metadata(&self, path: &str) -> io::Result<Metadata> {
        self.calls.add(FIND)?;
        self.entry(path)
    }

    fn symlink_metadata(&self, path: &str) -> io::Result<Metadata> {
        self.calls.add(LOOK)?;
        self.entry(path)
    }

    fn copy(&self, _from: &str, _to: &str) -> io::Result<u64> {
        unsupported()
    }

    fn rename(&self, _from: &str, _to: &str) -> io::Result<()> {
        unsupported()
    }

    fn remove_file(&self, _path: &str) -> io::Result<()> {
        unsupported()
    }

    fn create_dir(&self, _path: &str) -> io::Result<()> {
        self.calls.add(MAKE_FOLDER)?;
        Err(Error::from(ErrorKind::AlreadyExists))
    }

    fn remove_dir(&self, _path: &str) -> io::Result<()> {
        unsupported()
    }

    fn remove_dir_all<B: Allocator>(&self, _alloc: B, _path: &str) -> io::Result<()> {
        unsupported()
    }
}
