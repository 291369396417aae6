ghost use Rattle.std.specs.Prelude.{◌≡◌, option_map, option_copied, ok_or, MatchResult, Ok, IfOk, OnOk, OnErr};
ghost use Rattle.std.specs.FinMap as finite;
ghost use Rattle.gtfs_devices.specs.Folder.{IsByBytes, names_in, file_in, put, put_folder};
ghost use Rattle.gtfs_devices.specs.Held.{Refuses, within_limit, file_answer};
ghost use Rattle.gtfs_devices.specs.declared.folders.FolderFault.TheVariants.{NoFolder};

use crate::folders::FolderFault;
use crate::memory_files::MemoryFiles;
use gtfs_field::{List, OutOfMemory, Text};
use std::alloc::Global;
use std::collections::BTreeMap;
use std::marker::Model;

// Folders in memory, by their names.
#[derive(Debug, Drop)]
pub(crate) struct MemoryStore {
    folders: BTreeMap<String, MemoryFiles>,
}

impl Model for MemoryStore {
    ghost use Rattle.gtfs_devices.specs.Folder.{Store};
    ghost use Rattle.gtfs_devices.specs.ByText.{store_code, by_text};

    ghost Value = { Store };

    ghost coded = { store_code };

    ghost view = { λ store. by_text store.folders.entries };
}

impl MemoryStore {
    // No folder. It takes no memory.
    pub(crate) fn new(alloc: Global) -> MemoryStore
        ensures { result ≡ finite.empty }
    {
        MemoryStore {
            folders: BTreeMap::new(alloc),
        }
    }

    fn files(&self, dir: &str) -> Option<&MemoryFiles>
        ensures { option_copied result ≡ finite.get self.now dir.now }
    {
        self.folders.get(dir)
    }

    // The names of a folder's files, in byte order.
    pub(crate) fn names(&self, alloc: Global, dir: &str) -> Result<Vec<Text>, FolderFault>
        ensures answers { MatchResult result
            (λ names. names_in self.now dir.now ≡ Some names.items)
            (λ fault. Refuses fault (ok_or (names_in self.now dir.now) NoFolder)) }
        ensures ordered { IfOk result (λ names. IsByBytes names.items) }
    {
        match self.files(dir) {
            Some(files) => Ok(files.names(alloc)?),
            None => Err(FolderFault::NoFolder),
        }
    }

    // A folder's file, where it is not longer than the limit.
    pub(crate) fn read(
        &self,
        alloc: Global,
        dir: &str,
        name: &str,
        limit: u64,
    ) -> Result<Option<Vec<u8>>, FolderFault>
        ensures { MatchResult result
            (λ file. file_answer limit (file_in self.now dir.now name.now)
            ≡ Ok (option_map (λ bytes. bytes.items) file))
            (λ fault. Refuses fault (file_answer limit (file_in self.now dir.now name.now))) }
    {
        match self.files(dir) {
            Some(files) => read_file(alloc, files.get(name), limit),
            None => Err(FolderFault::NoFolder),
        }
    }

    // Adds a folder, empty, where it is absent. A refusal leaves all as it was.
    pub(crate) fn put_folder(&mut self, alloc: Global, dir: &str) -> Result<(), OutOfMemory>
        ensures ok { OnOk result (self.new ≡ put_folder self.old dir.now) }
        ensures err { OnErr result (self.new ≡ self.old) }
    {
        match self.files(dir) {
            Some(_) => Ok(()),
            None => self.insert(alloc, dir, MemoryFiles::new(alloc)),
        }
    }

    // Makes these bytes the whole of a folder's file, and makes the folder where it is absent.
    // A refusal leaves all as it was.
    pub(crate) fn put(
        &mut self,
        alloc: Global,
        dir: &str,
        name: &str,
        bytes: &[u8],
    ) -> Result<(), OutOfMemory>
        ensures ok { OnOk result (self.new ≡ put self.old dir.now name.now bytes.now) }
        ensures err { OnErr result (self.new ≡ self.old) }
    {
        let name = String::from_str(alloc, name)?;
        let bytes = List::new(Vec::from_slice(alloc, bytes)?);
        match self.folders.get_mut(dir) {
            Some(files) => files.put(name, bytes),
            None => {
                let mut files = MemoryFiles::new(alloc);
                files.put(name, bytes)?;
                self.insert(alloc, dir, files)
            }
        }
    }

    fn insert(&mut self, alloc: Global, dir: &str, files: MemoryFiles) -> Result<(), OutOfMemory>
        ensures ok { OnOk result (self.new ≡ finite.insert self.old dir.now files) }
        ensures err { OnErr result (self.new ≡ self.old) }
    {
        let dir = String::from_str(alloc, dir)?;
        self.folders.insert(dir, files)?;
        Ok(())
    }
}

fn read_file(alloc: Global, file: Option<&[u8]>, limit: u64) -> Result<Option<Vec<u8>>, FolderFault>
    ensures { MatchResult result
        (λ read. within_limit limit (option_copied file.entry)
        ≡ Ok (option_map (λ bytes. bytes.items) read))
        (λ fault. Refuses fault (within_limit limit (option_copied file.entry))) }
{
    match file {
        None => Ok(None),
        Some(bytes) if bytes.len() as u64 > limit => Err(FolderFault::TooLarge),
        Some(bytes) => Ok(Some(Vec::from_slice(alloc, bytes)?)),
    }
}
