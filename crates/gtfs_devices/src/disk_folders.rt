ghost use Rattle.std.specs.Prelude.{◌≡◌, ◌≤◌, ℕ, List, [], true, option_map, vec_len, IfOk, IfErr, IfSome, IsErrOf, OnOk, MatchResult};
ghost use Rattle.gtfs_devices.specs.Device.{FailsAtLast, MakesCalls};
ghost use Rattle.gtfs_devices.specs.Folder.{CountsFault, IsByBytes, Lists, Finds, Lends, Writes, RefusesNames, RefusesRead, RefusesWrite};
ghost use Rattle.gtfs_devices.specs.Disk.{told, calls, after_fault, IsAllOf, TakesAll, ReadsOver};

use crate::disk_files::{lend_file, read_file, write_file};
use crate::disk_names::list;
use crate::file_reader::FileReader;
use crate::folders::{FolderFault, Folders};
use gtfs_field::Text;
use std::alloc::Global;
use std::marker::Model;
use std::rt::Files;

// The greatest length in bytes of a file that is read.
const FILE_LIMIT: u64 = 1_073_741_824;

// The most entries of a folder that is listed.
const ENTRY_LIMIT: usize = 1_000_000;

/// The folders of a file system, by their paths. Contracts say nothing of what they hold.
///
/// A folder or file is not there where no entry has its name. Where there is one and it is
/// of another type than wanted, or its name is no UTF-8, or a folder has more than
/// 1,000,000 entries, the call fails with Read. An empty path names no folder. Files of up
/// to 1,073,741,824 bytes are read.
///
/// What is neither a file, a link to one, nor a device, as a named pipe, is never opened: `read`
/// and `lend` fail with Read, and `write` with Write. A path is asked for what it leads to and then
/// opened, so what takes its place between the two is opened.
#[derive(Drop)]
pub struct DiskFolders<'a, R: Files + Alloc + Clone + Drop> {
    rt: &'a R,
    limit: u64,
    entries: usize,
    failures: u64,
}

impl<'a, R: Files + Alloc + Clone + Drop> Model for DiskFolders<'a, R> {
    ghost use Rattle.gtfs_devices.specs.Disk.{Disk};

    ghost Value = { Disk };

    ghost view = { λ disk.
        record { limit = disk.limit; entries = disk.entries; failures = disk.failures } };
}

impl<'a, R: Files + Alloc + Clone + Drop> DiskFolders<'a, R> {
    /// The folders of this runtime's file system, with the limits of [`DiskFolders`].
    /// It takes no memory.
    pub fn new(rt: &'a R) -> DiskFolders<'a, R>
        ensures { result ≡
            record { limit = 1_073_741_824; entries = 1_000_000; failures = 0 } }
    {
        DiskFolders::with_limits(rt, FILE_LIMIT, ENTRY_LIMIT)
    }

    /// The folders of this runtime's file system, of which files of up to `limit` bytes are read
    /// and folders of up to `entries` entries are listed. It takes no memory.
    ///
    /// For feeds from strangers: a longer file is refused with TooLarge, and a larger folder with
    /// Read, before more memory is taken.
    pub fn with_limits(rt: &'a R, limit: u64, entries: usize) -> DiskFolders<'a, R>
        ensures { result ≡ record { limit = limit; entries = entries; failures = 0 } }
    {
        DiskFolders {
            rt,
            limit,
            entries,
            failures: 0,
        }
    }

    // Passes a fault on, and counts it where the device failed.
    fn count(&mut self, fault: FolderFault) -> FolderFault
        ensures same { result ≡ fault }
        ensures counts { self.new ≡ after_fault fault self.old }
        ensures counts_fault { CountsFault fault self.old.failures self.new.failures }
        ensures grows { self.old.failures ≤ self.new.failures }
    {
        if fault == FolderFault::Read || fault == FolderFault::Write {
            self.failures = self.failures.saturating_add(1);
        }
        fault
    }
}

impl<'a, R: Files + Alloc + Clone + Drop> Folders for DiskFolders<'a, R> {
    ghost held = { told };

    ghost failure_count = { λ disk. disk.failures };

    ghost limit = { λ disk. disk.limit };

    ghost calls = { calls };

    /// Reads the folder from the system. It counts a failure exactly where it answers Read.
    fn names(&mut self, alloc: Global, dir: &str) -> Result<Vec<Text>, FolderFault>
        ensures lists { IfOk result
            (λ names. Lists (told self.old) dir.now names.items) }
        ensures ordered { IfOk result (λ names. IsByBytes names.items) }
        ensures refused { IfErr result
            (λ fault. RefusesNames fault (told self.old) dir.now
            self.old.failures self.new.failures) }
        ensures unchanged { told self.new ≡ told self.old }
        ensures grows { self.old.failures ≤ self.new.failures }
        ensures no_failure { OnOk result (self.new.failures ≡ self.old.failures) }
        ensures counts_fault { IfErr result
            (λ fault. CountsFault fault self.old.failures self.new.failures) }
        ensures same_limit { self.new.limit ≡ self.old.limit }
        ensures called { MakesCalls 1 (calls self.old) (calls self.new) }
        ensures ends { IsErrOf result FolderFault.Read → FailsAtLast (calls self.new) }

        ensures few { IfOk result (λ names. vec_len names ≤ self.old.entries) }
        ensures counted { MatchResult result
            (λ _. self.new ≡ self.old)
            (λ fault. self.new ≡ after_fault fault self.old) }
    {
        match list(self.rt, alloc, dir, self.entries) {
            Ok(names) => Ok(names),
            Err(fault) => Err(self.count(fault)),
        }
    }

    /// Reads the file from the system. It counts a failure exactly where it answers Read.
    fn read(&mut self, alloc: Global, dir: &str, name: &str) -> Result<Option<Vec<u8>>, FolderFault>
        ensures finds { IfOk result
            (λ file. Finds (told self.old) dir.now name.now
            (option_map (λ bytes. bytes.items) file)) }
        ensures within { IfOk result
            (λ file. IfSome file (λ bytes. vec_len bytes ≤ self.old.limit)) }
        ensures refused { IfErr result
            (λ fault. RefusesRead fault self.old.limit (told self.old) dir.now name.now
            self.old.failures self.new.failures) }
        ensures unchanged { told self.new ≡ told self.old }
        ensures grows { self.old.failures ≤ self.new.failures }
        ensures no_failure { OnOk result (self.new.failures ≡ self.old.failures) }
        ensures counts_fault { IfErr result
            (λ fault. CountsFault fault self.old.failures self.new.failures) }
        ensures same_limit { self.new.limit ≡ self.old.limit }
        ensures called { MakesCalls 1 (calls self.old) (calls self.new) }
        ensures ends { IsErrOf result FolderFault.Read → FailsAtLast (calls self.new) }

        ensures whole { IfOk result
            (λ file. IfSome file (λ bytes. IsAllOf R.File.remaining bytes.items)) }
        ensures large { IsErrOf result FolderFault.TooLarge
            → ReadsOver R.File.remaining self.old.limit }
        ensures counted { MatchResult result
            (λ _. self.new ≡ self.old)
            (λ fault. self.new ≡ after_fault fault self.old) }
    {
        match read_file(self.rt, alloc, dir, name, self.limit) {
            Ok(file) => Ok(file),
            Err(fault) => Err(self.count(fault)),
        }
    }

    /// Lends the file as the system reads it, chunk after chunk, so that it is never whole in
    /// memory. It counts a failure exactly where it answers Read.
    fn lend<T: FileReader>(
        &mut self,
        alloc: Global,
        dir: &str,
        name: &str,
        reader: &mut T,
    ) -> Result<bool, FolderFault>
        requires { T.has_taken reader.old [] }
        ensures lends { IfOk result
            (Lends (told self.old) self.old.limit dir.now name.now (T.has_taken reader.new)) }
        ensures refused { IfErr result
            (λ fault. RefusesRead fault self.old.limit (told self.old) dir.now name.now
            self.old.failures self.new.failures) }
        ensures unchanged { told self.new ≡ told self.old }
        ensures grows { self.old.failures ≤ self.new.failures }
        ensures no_failure { OnOk result (self.new.failures ≡ self.old.failures) }
        ensures counts_fault { IfErr result
            (λ fault. CountsFault fault self.old.failures self.new.failures) }
        ensures same_limit { self.new.limit ≡ self.old.limit }
        ensures called { MakesCalls 1 (calls self.old) (calls self.new) }
        ensures ends { IsErrOf result FolderFault.Read → FailsAtLast (calls self.new) }

        ensures whole { IfOk result (λ found. found ≡ true
            → (bytes : List ℕ) × T.has_taken reader.new bytes
            × IsAllOf R.File.remaining bytes) }
        ensures large { IsErrOf result FolderFault.TooLarge
            → ReadsOver R.File.remaining self.old.limit }
        ensures counted { MatchResult result
            (λ _. self.new ≡ self.old)
            (λ fault. self.new ≡ after_fault fault self.old) }
    {
        match lend_file(self.rt, alloc, dir, name, self.limit, reader) {
            Ok(found) => Ok(found),
            Err(fault) => Err(self.count(fault)),
        }
    }

    /// Writes the file to the system, after it made the levels of the folder that are missing. It
    /// counts a failure exactly where it answers Write.
    fn write(
        &mut self,
        alloc: Global,
        dir: &str,
        name: &str,
        bytes: &[u8],
    ) -> Result<(), FolderFault>
        ensures written { OnOk result
            (Writes (told self.old) (told self.new) dir.now name.now bytes.now) }
        ensures refused { IfErr result
            (λ fault. RefusesWrite fault (told self.old) (told self.new) dir.now name.now
            self.old.failures self.new.failures) }
        ensures grows { self.old.failures ≤ self.new.failures }
        ensures no_failure { OnOk result (self.new.failures ≡ self.old.failures) }
        ensures counts_fault { IfErr result
            (λ fault. CountsFault fault self.old.failures self.new.failures) }
        ensures same_limit { self.new.limit ≡ self.old.limit }
        ensures called { MakesCalls 1 (calls self.old) (calls self.new) }
        ensures ends { IsErrOf result FolderFault.Write → FailsAtLast (calls self.new) }

        ensures whole { OnOk result (TakesAll R.File.contents bytes.now) }
        ensures counted { MatchResult result
            (λ _. self.new ≡ self.old)
            (λ fault. self.new ≡ after_fault fault self.old) }
    {
        match write_file(self.rt, alloc, dir, name, bytes) {
            Ok(()) => Ok(()),
            Err(fault) => Err(self.count(fault)),
        }
    }

    fn failures(&self) -> u64 {
        self.failures
    }
}
