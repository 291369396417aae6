ghost use Rattle.std.specs.Prelude.{◌≡◌, ◌≤◌, ◌<◌, ◌-◌, ◌^◌, ◌↔◌, option_map, IsTrue, vec_len, IfOk, IfErr, OnOk, OnErr, IfSome, IsErrOf, MatchResult, Ok, Some};
ghost use Rattle.std.specs.Option.{ForSome};
ghost use Rattle.std.specs.FinMap as finite;
ghost use Rattle.gtfs_devices.specs.Device.{FailsAtLast, MakesCalls};
ghost use Rattle.gtfs_devices.specs.Folder.{CountsFault, IsByBytes, Lists, Finds, Writes, RefusesNames, RefusesRead, RefusesWrite, put, put_folder};
ghost use Rattle.gtfs_devices.specs.Held.{Refuses, calls_of, is_failing, after_call, names_answer, read_answer};

use crate::folders::{FolderFault, Folders};
use crate::memory_store::MemoryStore;
use gtfs_field::{OutOfMemory, Text};
use std::alloc::Global;
use std::marker::Model;

/// Folders in memory, with a limit on the files that are read and, where one is wanted,
/// a call that fails.
///
/// Each call of `names`, `read`, `lend` and `write` is counted. The call with the given number
/// fails, with Read or Write, and no other call does.
#[derive(Debug, Drop)]
pub struct MemoryFolders {
    alloc: Global,
    store: MemoryStore,
    limit: u64,
    fail: Option<u64>,
    calls: u64,
    failures: u64,
}

impl Model for MemoryFolders {
    ghost use Rattle.gtfs_devices.specs.Held.{Held, held_code};

    ghost Value = { Held };

    ghost coded = { held_code };

    ghost view = { λ folders. record {
      store = folders.store;
      limit = folders.limit;
      fail = folders.fail;
      calls = folders.calls;
      failures = folders.failures;
    } };
}

impl MemoryFolders {
    /// No folder. Files of up to this many bytes are read;
    /// the call with this number, from 1, fails. It takes no memory.
    ///
    /// The count of calls stays at 2^64 - 1, so the number of the call that fails lies below.
    pub fn new(alloc: Global, limit: u64, fail: Option<u64>) -> MemoryFolders
        requires { ForSome fail (λ number. number < 2 ^ 64 - 1) }
        ensures { result ≡
            record { store = finite.empty; limit = limit; fail = fail; calls = 0; failures = 0 } }
    {
        MemoryFolders {
            alloc,
            store: MemoryStore::new(alloc),
            limit,
            fail,
            calls: 0,
            failures: 0,
        }
    }

    /// Adds a folder, empty, where it is absent. It is no counted call.
    ///
    /// # Errors
    /// `OutOfMemory` where memory is refused; all is then as it was.
    pub fn put_folder(&mut self, dir: &str) -> Result<(), OutOfMemory>
        ensures ok { OnOk result
            (self.new ≡ record self.old { store = put_folder self.old.store dir.now }) }
        ensures err { OnErr result (self.new ≡ self.old) }
    {
        self.store.put_folder(self.alloc, dir)
    }

    /// Makes these bytes the whole of a folder's file, and makes the folder where it is absent.
    /// It is no counted call.
    ///
    /// # Errors
    /// `OutOfMemory` where memory is refused; all is then as it was.
    pub fn put(&mut self, dir: &str, name: &str, bytes: &[u8]) -> Result<(), OutOfMemory>
        ensures ok { OnOk result
            (self.new ≡ record self.old { store = put self.old.store dir.now name.now bytes.now }) }
        ensures err { OnErr result (self.new ≡ self.old) }
    {
        self.store.put(self.alloc, dir, name, bytes)
    }

    // Counts a call, and says whether it is the one that fails.
    fn fails(&mut self) -> bool
        ensures which { result ≡ is_failing self.old }
        ensures after { self.new ≡ after_call self.old }
        ensures grows { self.old.failures ≤ self.new.failures }
    {
        self.calls = self.calls.saturating_add(1);
        let fails = self.fail == Some(self.calls);
        if fails {
            self.failures = self.failures.saturating_add(1);
        }
        fails
    }
}

impl Folders for MemoryFolders {
    ghost held = { λ folders. Some folders.store };

    ghost failure_count = { λ folders. folders.failures };

    ghost limit = { λ folders. folders.limit };

    ghost calls = { calls_of };

    /// Answers Read exactly at the call that fails; at any other, NoFolder exactly where there is
    /// no such folder, and else the names, as memory suffices.
    fn names(&mut self, alloc: Global, dir: &str) -> Result<Vec<Text>, FolderFault>
        ensures lists { IfOk result
            (λ names. Lists (Some self.old.store) dir.now names.items) }
        ensures ordered { IfOk result (λ names. IsByBytes names.items) }
        ensures refused { IfErr result
            (λ fault. RefusesNames fault (Some self.old.store) dir.now
            self.old.failures self.new.failures) }
        ensures unchanged { Some self.new.store ≡ Some self.old.store }
        ensures grows { self.old.failures ≤ self.new.failures }
        ensures no_failure { OnOk result (self.new.failures ≡ self.old.failures) }
        ensures counts_fault { IfErr result
            (λ fault. CountsFault fault self.old.failures self.new.failures) }
        ensures same_limit { self.new.limit ≡ self.old.limit }
        ensures called { MakesCalls 1 (calls_of self.old) (calls_of self.new) }
        ensures ends { IsErrOf result FolderFault.Read → FailsAtLast (calls_of self.new) }

        ensures answers { MatchResult result
            (λ names. names_answer self.old dir.now ≡ Ok names.items)
            (λ fault. Refuses fault (names_answer self.old dir.now)) }
        ensures counted { self.new ≡ after_call self.old }
    {
        if self.fails() {
            return Err(FolderFault::Read);
        }
        self.store.names(alloc, dir)
    }

    /// Answers Read exactly at the call that fails; at any other, NoFolder exactly where there is
    /// no such folder, TooLarge exactly where its file is longer than the limit, and else the
    /// file or None, as memory suffices.
    fn read(&mut self, alloc: Global, dir: &str, name: &str) -> Result<Option<Vec<u8>>, FolderFault>
        ensures finds { IfOk result
            (λ file. Finds (Some self.old.store) dir.now name.now
            (option_map (λ bytes. bytes.items) file)) }
        ensures within { IfOk result
            (λ file. IfSome file (λ bytes. vec_len bytes ≤ self.old.limit)) }
        ensures refused { IfErr result
            (λ fault. RefusesRead fault self.old.limit (Some self.old.store) dir.now name.now
            self.old.failures self.new.failures) }
        ensures unchanged { Some self.new.store ≡ Some self.old.store }
        ensures grows { self.old.failures ≤ self.new.failures }
        ensures no_failure { OnOk result (self.new.failures ≡ self.old.failures) }
        ensures counts_fault { IfErr result
            (λ fault. CountsFault fault self.old.failures self.new.failures) }
        ensures same_limit { self.new.limit ≡ self.old.limit }
        ensures called { MakesCalls 1 (calls_of self.old) (calls_of self.new) }
        ensures ends { IsErrOf result FolderFault.Read → FailsAtLast (calls_of self.new) }

        ensures answers { MatchResult result
            (λ file. read_answer self.old dir.now name.now
            ≡ Ok (option_map (λ bytes. bytes.items) file))
            (λ fault. Refuses fault (read_answer self.old dir.now name.now)) }
        ensures counted { self.new ≡ after_call self.old }
    {
        if self.fails() {
            return Err(FolderFault::Read);
        }
        self.store.read(alloc, dir, name, self.limit)
    }

    /// Answers Write exactly at the call that fails, and then holds what it held; at any other,
    /// holds the file, as memory suffices.
    fn write(
        &mut self,
        alloc: Global,
        dir: &str,
        name: &str,
        bytes: &[u8],
    ) -> Result<(), FolderFault>
        ensures written { OnOk result
            (Writes (Some self.old.store) (Some self.new.store) dir.now name.now bytes.now) }
        ensures refused { IfErr result
            (λ fault. RefusesWrite fault (Some self.old.store) (Some self.new.store)
            dir.now name.now self.old.failures self.new.failures) }
        ensures grows { self.old.failures ≤ self.new.failures }
        ensures no_failure { OnOk result (self.new.failures ≡ self.old.failures) }
        ensures counts_fault { IfErr result
            (λ fault. CountsFault fault self.old.failures self.new.failures) }
        ensures same_limit { self.new.limit ≡ self.old.limit }
        ensures called { MakesCalls 1 (calls_of self.old) (calls_of self.new) }
        ensures ends { IsErrOf result FolderFault.Write → FailsAtLast (calls_of self.new) }

        ensures failing { IsErrOf result FolderFault.Write ↔ IsTrue (is_failing self.old) }
        ensures ok { OnOk result
            (self.new ≡ record (after_call self.old) {
              store = put self.old.store
                  dir.now name.now bytes.now;
            }) }
        ensures err { OnErr result (self.new ≡ after_call self.old) }
    {
        if self.fails() {
            return Err(FolderFault::Write);
        }
        self.store.put(alloc, dir, name, bytes)?;
        Ok(())
    }

    fn failures(&self) -> u64 {
        self.failures
    }
}
